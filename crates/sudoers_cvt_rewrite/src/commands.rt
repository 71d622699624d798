//! Commands of user specifications, written with their aliases replaced or not.

ghost use Rattle.std.specs.Prelude.{◌≡◌, ◌+◌, ◌++◌, true, List, map, IfOk, IfErr, OnOk};
ghost use Rattle.std.specs.List.{flat_map};
ghost use Rattle.sudoers_grammar.specs.Node.{CmdSpec};
ghost use Rattle.sudoers_line_rows.specs.declared.rows.Tables.{Tables as TablesOf};
ghost use Rattle.sudoers_line_rows.specs.Tables.{command_in_tables, commands_of_range_in_tables};
ghost use Rattle.sudoers_cvt_rewrite.specs.Count.{commands_and_effective_runas_member_count};
ghost use Rattle.sudoers_cvt_rewrite.specs.internal.Extended.{AreTablesAlikeButLists, IsTableExtension, RowKeepsMeaning};
ghost use Rattle.sudoers_cvt_rewrite.specs.internal.Written.{IsTooManyMembersOrNoMemoryFault, commands_of_command_expanded_if, commands_for_each_member};

use crate::copied_tables::append_command_rows;
use crate::list_writing::{copy_member_rows_expanded_if_wanted, write_optional_runas};
use crate::member_tally::MemberTally;
use std::alloc::Global;
use sudoers_cvt_rules::CvtFault;
use sudoers_line_rows::{CommandRow, MemberRow, RowRange, Tables};
use sudoers_match_list::ExpansionSource;
use sudoers_tree::Kind;

/// Appends a command for each of the members, and counts them.
fn append_command_per_member(
    source: &ExpansionSource<'_, '_>,
    tables: &Tables,
    tally: &mut MemberTally,
    row: CommandRow,
    members: &[MemberRow],
    out: &mut Vec<CommandRow>,
) -> Result<(), CvtFault>
    ensures appended { OnOk result ((u : TablesOf) → map (command_in_tables u) out.new.items ≡ map (command_in_tables u) out.old.items ++ commands_for_each_member u row members.now) }
    ensures counted { OnOk result (source.now.expand ≡ true → (rest : List CmdSpec) → tally.new.count + commands_and_effective_runas_member_count tally.new.inherited rest
        ≡ tally.old.count + commands_and_effective_runas_member_count tally.old.inherited (commands_for_each_member tables.now row members.now ++ rest)) }
    ensures fault { IfErr result (λ fault. (rest : List CmdSpec) → IsTooManyMembersOrNoMemoryFault source.now.expand
        (tally.old.count + commands_and_effective_runas_member_count tally.old.inherited (commands_for_each_member tables.now row members.now ++ rest)) fault) }
{
    for member in members {
        if source.expand {
            tally.count_command_and_runas_members(tables, row.runas)?;
        }
        out.push(CommandRow {
            member: *member,
            ..row
        })?;
    }
    Ok(())
}

/// Writes a command, its aliases replaced if that is wanted: one command for each member of its flat list.
fn append_commands_of_command_expanded_if_wanted(
    alloc: Global,
    source: &ExpansionSource<'_, '_>,
    tables: &mut Tables,
    tally: &mut MemberTally,
    row: &CommandRow,
    out: &mut Vec<CommandRow>,
) -> Result<(), CvtFault>
    requires { AreTablesAlikeButLists source.now.lines.tables.now tables.old }
    ensures appended { OnOk result ((u : TablesOf) → IsTableExtension tables.new u → map (command_in_tables u) out.new.items ≡ map (command_in_tables u) out.old.items
        ++ commands_of_command_expanded_if source.now.expand source.now.policy.now (command_in_tables source.now.lines.tables.now row.now)) }
    ensures extended { OnOk result (IsTableExtension tables.old tables.new) }
    ensures counted { OnOk result (source.now.expand ≡ true → (rest : List CmdSpec) → tally.new.count + commands_and_effective_runas_member_count tally.new.inherited rest
        ≡ tally.old.count + commands_and_effective_runas_member_count tally.old.inherited
        (commands_of_command_expanded_if source.now.expand source.now.policy.now (command_in_tables source.now.lines.tables.now row.now) ++ rest)) }
    ensures fault { IfErr result (λ fault. (rest : List CmdSpec) → IsTooManyMembersOrNoMemoryFault source.now.expand
        (tally.old.count + commands_and_effective_runas_member_count tally.old.inherited
        (commands_of_command_expanded_if source.now.expand source.now.policy.now (command_in_tables source.now.lines.tables.now row.now) ++ rest)) fault) }
{
    // laws
    source.policy.is_acyclic();
    let members = copy_member_rows_expanded_if_wanted(alloc, source, Kind::Cmnd, &[row.member])?;
    let runas = write_optional_runas(alloc, source, tables, row.runas)?;
    let row = CommandRow { runas, ..*row };
    append_command_per_member(source, tables, tally, row, members.as_slice(), out)
}

/// Writes the commands of a host group, their aliases replaced if that is wanted, and counts them.
#[tactic(auto, using(crate::proofs::Extending::table_is_extension_of_itself, crate::proofs::Extending::table_extension_is_transitive, crate::proofs::Extending::table_likeness_is_transitive))]
pub fn write_commands_with_aliases_expanded_if_wanted(
    alloc: Global,
    source: &ExpansionSource<'_, '_>,
    tables: &mut Tables,
    tally: &mut MemberTally,
    rows: &[CommandRow],
) -> Result<RowRange, CvtFault>
    requires { AreTablesAlikeButLists source.now.lines.tables.now tables.old }
    ensures stays { IfOk result (λ range. RowKeepsMeaning commands_of_range_in_tables tables.new range
        (flat_map (commands_of_command_expanded_if source.now.expand source.now.policy.now) (map (command_in_tables source.now.lines.tables.now) rows.now))) }
    ensures extended { OnOk result (IsTableExtension tables.old tables.new) }
    ensures counted { OnOk result (source.now.expand ≡ true → tally.new.count ≡ tally.old.count + commands_and_effective_runas_member_count 0
        (flat_map (commands_of_command_expanded_if source.now.expand source.now.policy.now) (map (command_in_tables source.now.lines.tables.now) rows.now))) }
    ensures fault { IfErr result (IsTooManyMembersOrNoMemoryFault source.now.expand (tally.old.count + commands_and_effective_runas_member_count 0
        (flat_map (commands_of_command_expanded_if source.now.expand source.now.policy.now) (map (command_in_tables source.now.lines.tables.now) rows.now)))) }
{
    let mut out = Vec::new(alloc);
    tally.inherited = 0;
    for row in rows {
        append_commands_of_command_expanded_if_wanted(alloc, source, tables, tally, row, &mut out)?;
    }
    Ok(append_command_rows(tables, out.as_slice())?)
}
