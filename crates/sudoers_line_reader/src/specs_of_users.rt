//! User specifications.

ghost use Rattle.sudoers_grammar.specs.Node.{CmdSpec as CmdSpecOf, HostGroup as HostGroupOf};
ghost use Rattle.sudoers_line_reader.specs.Reader.{separated_list_reader};
ghost use Rattle.sudoers_line_reader.specs.Descent.{cmd_spec_reader, host_group_reader, user_spec_reader};
ghost use Rattle.sudoers_line_rows.specs.Tables.{TablesHaveGrown, command_in_tables, commands_of_range_in_tables, host_group_in_tables, host_groups_of_range_in_tables, node_in_tables};
ghost use Rattle.sudoers_line_reader.specs.internal.Answer.{RowReadsAsOutcome};

use crate::commands::CommandReader;
use crate::cursor::{ReadResult, TokenCursor};
use crate::members::read_member_list;
use crate::options::{read_command_options, read_command_tags};
use crate::row_reader::{RowReader, read_separated_rows};
use crate::runas::read_optional_runas;
use std::alloc::Global;
use sudoers_grammar::Kind;
use sudoers_line_rows::{CommandRow, HostGroupRow, NodeRow, RowRange, Tables};

/// Reads commands with what stands before them.
#[derive(Clone, Copy)]
pub struct CmdSpecReader;

impl RowReader for CmdSpecReader {
    type Row = CommandRow;

    ghost Said = { CmdSpecOf };

    ghost said = { command_in_tables };

    ghost rule = { λ _. cmd_spec_reader };

    #[tactic(auto, unfolding(crate::specs::Descent::cmd_spec_reader))]
    fn read(
        self,
        alloc: Global,
        cursor: &mut TokenCursor<'_>,
        tables: &mut Tables,
    ) -> ReadResult<CommandRow> {
        let runas = read_optional_runas(alloc, cursor, tables)?;
        let options = read_command_options(alloc, cursor, tables)?;
        let tags = read_command_tags(alloc, cursor, tables)?;
        let member = CommandReader.read(alloc, cursor, tables)?;
        Ok(CommandRow {
            runas,
            options,
            tags,
            member,
        })
    }
}

/// Reads a list of commands with what stands before them.
#[tactic(auto, using(crate::proofs::Loops::next_cmd_spec_reader_consumes_tokens))]
pub fn read_cmd_spec_list(
    alloc: Global,
    cursor: &mut TokenCursor<'_>,
    tables: &mut Tables,
) -> ReadResult<RowRange>
    ensures reads { RowReadsAsOutcome (separated_list_reader 44 cmd_spec_reader cursor.old) commands_of_range_in_tables tables.new result cursor.new }
    ensures grown { TablesHaveGrown tables.old tables.new }
{
    read_separated_rows(CmdSpecReader, b',', alloc, cursor, tables)
}

/// Reads hosts and commands.
#[derive(Clone, Copy)]
pub struct HostGroupReader;

impl RowReader for HostGroupReader {
    type Row = HostGroupRow;

    ghost Said = { HostGroupOf };

    ghost said = { host_group_in_tables };

    ghost rule = { λ _. host_group_reader };

    #[tactic(auto, unfolding(crate::specs::Descent::host_group_reader))]
    fn read(
        self,
        alloc: Global,
        cursor: &mut TokenCursor<'_>,
        tables: &mut Tables,
    ) -> ReadResult<HostGroupRow> {
        let hosts = read_member_list(alloc, cursor, tables, Kind::Host)?;
        cursor.expect_mark(b'=')?;
        let commands = read_cmd_spec_list(alloc, cursor, tables)?;
        Ok(HostGroupRow { hosts, commands })
    }
}

/// Reads a list of host groups.
#[tactic(auto, using(crate::proofs::Loops::next_host_group_reader_consumes_tokens))]
pub fn read_host_group_list(
    alloc: Global,
    cursor: &mut TokenCursor<'_>,
    tables: &mut Tables,
) -> ReadResult<RowRange>
    ensures reads { RowReadsAsOutcome (separated_list_reader 58 host_group_reader cursor.old) host_groups_of_range_in_tables tables.new result cursor.new }
    ensures grown { TablesHaveGrown tables.old tables.new }
{
    read_separated_rows(HostGroupReader, b':', alloc, cursor, tables)
}

/// Reads a user specification.
#[tactic(auto, unfolding(crate::specs::Descent::user_spec_reader))]
pub fn read_user_specification(
    alloc: Global,
    cursor: &mut TokenCursor<'_>,
    tables: &mut Tables,
) -> ReadResult<NodeRow>
    ensures reads { RowReadsAsOutcome (user_spec_reader cursor.old) node_in_tables tables.new result cursor.new }
    ensures grown { TablesHaveGrown tables.old tables.new }
{
    let users = read_member_list(alloc, cursor, tables, Kind::User)?;
    let groups = read_host_group_list(alloc, cursor, tables)?;
    Ok(NodeRow::Spec { users, groups })
}
