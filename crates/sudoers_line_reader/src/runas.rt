//! As whom a command may run.

ghost use Rattle.std.specs.Prelude.{◌≡◌};
ghost use Rattle.sudoers_grammar.specs.Piece.{is_mark_of_byte};
ghost use Rattle.sudoers_grammar.specs.declared.node.Kind.TheVariants.{Runas};
ghost use Rattle.sudoers_line_reader.specs.Reader.{reader_after_mark, optional_reader};
ghost use Rattle.sudoers_line_reader.specs.Descent.{member_list_reader, runas_users_reader, runas_groups_reader, runas_reader};
ghost use Rattle.sudoers_line_rows.specs.Tables.{TablesHaveGrown, members_of_range_in_tables, runas_in_tables, optional_runas_in_tables};
ghost use Rattle.sudoers_line_reader.specs.internal.Answer.{RowReadsAsOutcome};

use crate::cursor::{ReadResult, TokenCursor};
use crate::members::read_member_list;
use std::alloc::Global;
use sudoers_grammar::Kind;
use sudoers_line_rows::{NONE, RowRange, RunasRow, Tables};

/// Reads the runas users, if any.
#[tactic(auto, unfolding(crate::specs::Descent::runas_users_reader))]
fn read_runas_users(
    alloc: Global,
    cursor: &mut TokenCursor<'_>,
    tables: &mut Tables,
) -> ReadResult<RowRange>
    ensures reads { RowReadsAsOutcome (runas_users_reader cursor.old) members_of_range_in_tables tables.new result cursor.new }
    ensures grown { TablesHaveGrown tables.old tables.new }
{
    if cursor.is_inside_runas_user_list() {
        read_member_list(alloc, cursor, tables, Kind::Runas)
    } else {
        Ok(NONE)
    }
}

/// Reads the runas groups, if any.
#[tactic(auto, unfolding(crate::specs::Descent::runas_groups_reader))]
fn read_runas_groups(
    alloc: Global,
    cursor: &mut TokenCursor<'_>,
    tables: &mut Tables,
) -> ReadResult<RowRange>
    ensures reads { RowReadsAsOutcome (runas_groups_reader cursor.old) members_of_range_in_tables tables.new result cursor.new }
    ensures grown { TablesHaveGrown tables.old tables.new }
{
    if cursor.is_at_mark(b':') {
        cursor.expect_mark(b':')?;
        read_member_list(alloc, cursor, tables, Kind::Runas)
    } else {
        Ok(NONE)
    }
}

/// Reads the part in parentheses before a command.
#[tactic(auto, unfolding(crate::specs::Descent::runas_reader))]
fn read_runas_part(
    alloc: Global,
    cursor: &mut TokenCursor<'_>,
    tables: &mut Tables,
) -> ReadResult<RunasRow>
    ensures reads { RowReadsAsOutcome (runas_reader cursor.old) runas_in_tables tables.new result cursor.new }
    ensures grown { TablesHaveGrown tables.old tables.new }
{
    cursor.expect_mark(b'(')?;
    let users = read_runas_users(alloc, cursor, tables)?;
    let groups = read_runas_groups(alloc, cursor, tables)?;
    cursor.expect_mark(b')')?;
    Ok(RunasRow { users, groups })
}

/// Reads the part in parentheses before a command, if any.
pub fn read_optional_runas(
    alloc: Global,
    cursor: &mut TokenCursor<'_>,
    tables: &mut Tables,
) -> ReadResult<Option<RunasRow>>
    ensures reads { RowReadsAsOutcome (optional_reader (is_mark_of_byte 40) runas_reader cursor.old) optional_runas_in_tables tables.new result cursor.new }
    ensures grown { TablesHaveGrown tables.old tables.new }
{
    if cursor.is_at_mark(b'(') {
        Ok(Some(read_runas_part(alloc, cursor, tables)?))
    } else {
        Ok(None)
    }
}
