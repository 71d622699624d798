//! What lines say, written with its aliases replaced or not.

ghost use Rattle.std.specs.Prelude.{◌≡◌, ◌+◌, true, map, IfOk, IfErr, OnOk};
ghost use Rattle.sudoers_line_rows.specs.Tables.{alias_definition_in_tables, alias_definitions_of_range_in_tables, node_in_tables};
ghost use Rattle.sudoers_cvt_rewrite.specs.Count.{spec_or_defaults_member_count};
ghost use Rattle.sudoers_cvt_rewrite.specs.internal.Extended.{AreTablesAlikeButLists, IsTableExtension, RowKeepsMeaning};
ghost use Rattle.sudoers_cvt_rewrite.specs.internal.Written.{IsTooManyMembersOrNoMemoryFault, line_node_expanded_if};

use crate::copied_tables::{append_definition_rows, append_member_rows};
use crate::list_writing::write_optional_scope;
use crate::member_tally::MemberTally;
use crate::selecting::select_all_host_groups;
use crate::user_spec_writing::write_spec_with_aliases_expanded_if_wanted;
use std::alloc::{AllocError, Global};
use sudoers_cvt_rules::CvtFault;
use sudoers_line_rows::{AliasDefinitionRow, NodeRow, RowRange, Tables, rows_in};
use sudoers_match_list::ExpansionSource;

/// Writes a definition as it stands in the tables `base`.
fn write_copied_definition(
    base: &Tables,
    tables: &mut Tables,
    row: &AliasDefinitionRow,
) -> Result<AliasDefinitionRow, AllocError>
    requires { AreTablesAlikeButLists base.now tables.old }
    ensures stays { IfOk result (λ new. RowKeepsMeaning alias_definition_in_tables tables.new new (alias_definition_in_tables base.now row.now)) }
    ensures extended { IsTableExtension tables.old tables.new }
{
    let members = append_member_rows(tables, rows_in(base.members.as_slice(), row.members))?;
    Ok(AliasDefinitionRow { members, ..*row })
}

/// Writes definitions as they stand in the tables `base`.
fn write_copied_definitions(
    alloc: Global,
    base: &Tables,
    tables: &mut Tables,
    rows: &[AliasDefinitionRow],
) -> Result<RowRange, AllocError>
    requires { AreTablesAlikeButLists base.now tables.old }
    ensures stays { IfOk result (λ range. RowKeepsMeaning alias_definitions_of_range_in_tables tables.new range (map (alias_definition_in_tables base.now) rows.now)) }
    ensures extended { OnOk result (IsTableExtension tables.old tables.new) }
{
    let mut out = Vec::new(alloc);
    for row in rows {
        out.push(write_copied_definition(base, tables, row)?)?;
    }
    append_definition_rows(tables, out.as_slice())
}

/// Writes what a line says, its aliases replaced if that is wanted, and counts its members. Definitions stay as they are.
pub fn write_node_with_aliases_expanded_if_wanted(
    alloc: Global,
    source: &ExpansionSource<'_, '_>,
    tables: &mut Tables,
    tally: &mut MemberTally,
    row: &NodeRow,
) -> Result<NodeRow, CvtFault>
    requires { AreTablesAlikeButLists source.now.lines.tables.now tables.old }
    ensures stays { IfOk result (λ new. RowKeepsMeaning node_in_tables tables.new new
        (line_node_expanded_if source.now.expand source.now.policy.now (node_in_tables source.now.lines.tables.now row.now))) }
    ensures extended { OnOk result (IsTableExtension tables.old tables.new) }
    ensures counted { OnOk result (source.now.expand ≡ true → tally.new.count ≡ tally.old.count
        + spec_or_defaults_member_count (line_node_expanded_if source.now.expand source.now.policy.now (node_in_tables source.now.lines.tables.now row.now))) }
    ensures fault { IfErr result (IsTooManyMembersOrNoMemoryFault source.now.expand (tally.old.count
        + spec_or_defaults_member_count (line_node_expanded_if source.now.expand source.now.policy.now (node_in_tables source.now.lines.tables.now row.now)))) }
{
    let base = source.lines.tables;
    match *row {
        NodeRow::Defaults { scope, params } => {
            let scope = write_optional_scope(alloc, source, tables, tally, scope)?;
            Ok(NodeRow::Defaults { scope, params })
        }
        NodeRow::Alias { kind, defs } => {
            let defs = rows_in(base.defs.as_slice(), defs);
            let defs = write_copied_definitions(alloc, base, tables, defs)?;
            Ok(NodeRow::Alias { kind, defs })
        }
        NodeRow::Spec { users, groups } => {
            let users = rows_in(base.members.as_slice(), users);
            let groups = select_all_host_groups(
                alloc,
                base,
                rows_in(base.groups.as_slice(), groups),
            )?;
            write_spec_with_aliases_expanded_if_wanted(
                alloc,
                source,
                tables,
                tally,
                users,
                groups.as_slice(),
            )
        }
        NodeRow::Blank | NodeRow::Comment | NodeRow::Include { .. } => Ok(*row),
    }
}
