//! Tables with the texts of others, to which lists are appended.

ghost use Rattle.std.specs.Prelude.{◌≡◌, List, map, IfOk};
ghost use Rattle.sudoers_grammar.specs.Node.{CmdSpec, Def, HostGroup};
ghost use Rattle.sudoers_line_rows.specs.Tables.{command_in_tables, commands_of_range_in_tables, alias_definition_in_tables, alias_definitions_of_range_in_tables, host_group_in_tables, host_groups_of_range_in_tables, member_in_tables, members_of_range_in_tables};
ghost use Rattle.sudoers_cvt_rewrite.specs.internal.Extended.{AreTablesAlikeButLists, IsTableExtension, RowKeepsMeaning};
ghost use Rattle.sudoers_cvt_rewrite.specs.internal.Written.{RowsKeepMeaning};

use std::alloc::{AllocError, Global};
use sudoers_line_rows::{
    AliasDefinitionRow, CommandRow, HostGroupRow, MemberRow, RowRange, Tables, append_table_rows,
};

/// Returns tables with the texts, digests, options, tags and parameters of others, and no lists.
///
/// # Errors
///
/// Memory ran out.
pub fn copy_tables_without_lists(alloc: Global, from: &Tables) -> Result<Tables, AllocError>
    ensures { IfOk result (λ tables. AreTablesAlikeButLists from.now tables) }
{
    Ok(Tables {
        bytes: Vec::from_slice(alloc, from.bytes.as_slice())?,
        digests: Vec::from_slice(alloc, from.digests.as_slice())?,
        members: Vec::new(alloc),
        options: Vec::from_slice(alloc, from.options.as_slice())?,
        tags: Vec::from_slice(alloc, from.tags.as_slice())?,
        commands: Vec::new(alloc),
        groups: Vec::new(alloc),
        defs: Vec::new(alloc),
        params: Vec::from_slice(alloc, from.params.as_slice())?,
    })
}

/// Appends members, and returns where they stand.
pub fn append_member_rows(tables: &mut Tables, rows: &[MemberRow]) -> Result<RowRange, AllocError>
    ensures stays { IfOk result (λ range. RowKeepsMeaning members_of_range_in_tables tables.new range (map (member_in_tables tables.old) rows.now)) }
    ensures extended { IsTableExtension tables.old tables.new }
{
    append_table_rows(&mut tables.members, rows)
}

/// Appends commands, and returns where they stand.
pub fn append_command_rows(tables: &mut Tables, rows: &[CommandRow]) -> Result<RowRange, AllocError>
    ensures stays { IfOk result (λ range. (commands : List CmdSpec) → RowsKeepMeaning command_in_tables tables.old rows.now commands → RowKeepsMeaning commands_of_range_in_tables tables.new range commands) }
    ensures extended { IsTableExtension tables.old tables.new }
{
    append_table_rows(&mut tables.commands, rows)
}

/// Appends host groups, and returns where they stand.
pub fn append_host_group_rows(
    tables: &mut Tables,
    rows: &[HostGroupRow],
) -> Result<RowRange, AllocError>
    ensures stays { IfOk result (λ range. (groups : List HostGroup) → RowsKeepMeaning host_group_in_tables tables.old rows.now groups → RowKeepsMeaning host_groups_of_range_in_tables tables.new range groups) }
    ensures extended { IsTableExtension tables.old tables.new }
{
    append_table_rows(&mut tables.groups, rows)
}

/// Appends definitions, and returns where they stand.
pub fn append_definition_rows(
    tables: &mut Tables,
    rows: &[AliasDefinitionRow],
) -> Result<RowRange, AllocError>
    ensures stays { IfOk result (λ range. (defs : List Def) → RowsKeepMeaning alias_definition_in_tables tables.old rows.now defs → RowKeepsMeaning alias_definitions_of_range_in_tables tables.new range defs) }
    ensures extended { IsTableExtension tables.old tables.new }
{
    append_table_rows(&mut tables.defs, rows)
}
