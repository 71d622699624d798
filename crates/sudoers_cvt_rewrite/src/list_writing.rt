//! Lists, their aliases replaced or not, and how they are written.

ghost use Rattle.std.specs.Prelude.{◌≡◌, ◌+◌, true, Some, length, map, IfOk, IfErr, OnOk};
ghost use Rattle.std.specs.List.{list_any};
ghost use Rattle.std.specs.Option.{option_map};
ghost use Rattle.sudoers_line_rows.specs.Tables.{member_in_tables, members_of_range_in_tables, optional_runas_in_tables, runas_in_tables, scope_in_tables};
ghost use Rattle.sudoers_cvt_rewrite.specs.Count.{runas_member_count_or_inherited, scope_member_count};
ghost use Rattle.sudoers_grammar.specs.declared.node.Kind.TheVariants.{Runas};
ghost use Rattle.sudoers_cvt_rewrite.specs.internal.Extended.{AreTablesAlikeButLists, IsTableExtension, RowKeepsMeaning};
ghost use Rattle.sudoers_cvt_rewrite.specs.internal.Written.{IsTooManyMembersOrNoMemoryFault, is_alias_row, list_expanded_if, optional_scope_of_row, runas_spec_expanded_if, scope_expanded_if};

use crate::copied_tables::append_member_rows;
use crate::member_tally::MemberTally;
use std::alloc::Global;
use sudoers_cvt_rules::CvtFault;
use sudoers_line_rows::{AtomRow, MemberRow, RowRange, RunasRow, ScopeRow, Tables, rows_in};
use sudoers_match_list::{ExpansionSource, flatten_member_list};
use sudoers_tree::Kind;

/// Returns whether one of the members names an alias.
fn has_alias_member(rows: &[MemberRow]) -> bool
    ensures { result ≡ list_any is_alias_row rows.now }
{
    rows.iter().any(|row| matches!(row.atom, AtomRow::Alias(_)))
}

/// Returns the list, its aliases replaced if that is wanted.
pub fn copy_member_rows_expanded_if_wanted(
    alloc: Global,
    source: &ExpansionSource<'_, '_>,
    kind: Kind,
    rows: &[MemberRow],
) -> Result<Vec<MemberRow>, CvtFault>
    ensures rows { IfOk result (λ flat. map (member_in_tables source.now.lines.tables.now) flat.items
        ≡ list_expanded_if source.now.expand kind source.now.policy.now (map (member_in_tables source.now.lines.tables.now) rows.now)) }
    ensures fault { IfErr result (IsTooManyMembersOrNoMemoryFault source.now.expand
        (length (list_expanded_if source.now.expand kind source.now.policy.now (map (member_in_tables source.now.lines.tables.now) rows.now)))) }
{
    if source.expand && has_alias_member(rows) {
        Ok(flatten_member_list(alloc, source, kind, rows)?)
    } else {
        Ok(Vec::from_slice(alloc, rows)?)
    }
}

/// Writes a list, its aliases replaced if that is wanted, and counts it.
pub fn count_and_write_list_expanded_if_wanted(
    alloc: Global,
    source: &ExpansionSource<'_, '_>,
    tables: &mut Tables,
    tally: &mut MemberTally,
    kind: Kind,
    rows: &[MemberRow],
) -> Result<RowRange, CvtFault>
    requires { AreTablesAlikeButLists source.now.lines.tables.now tables.old }
    ensures stays { IfOk result (λ range. RowKeepsMeaning members_of_range_in_tables tables.new range
        (list_expanded_if source.now.expand kind source.now.policy.now (map (member_in_tables source.now.lines.tables.now) rows.now))) }
    ensures extended { OnOk result (IsTableExtension tables.old tables.new) }
    ensures counted { OnOk result (source.now.expand ≡ true → tally.new.count ≡ tally.old.count
        + length (list_expanded_if source.now.expand kind source.now.policy.now (map (member_in_tables source.now.lines.tables.now) rows.now))) }
    ensures fault { IfErr result (IsTooManyMembersOrNoMemoryFault source.now.expand (tally.old.count
        + length (list_expanded_if source.now.expand kind source.now.policy.now (map (member_in_tables source.now.lines.tables.now) rows.now)))) }
{
    let flat = copy_member_rows_expanded_if_wanted(alloc, source, kind, rows)?;
    if source.expand {
        tally.count_list_of_length(flat.len())?;
    }
    Ok(append_member_rows(tables, flat.as_slice())?)
}

/// Writes a list that stands in a range, its aliases replaced if that is wanted. It is counted elsewhere.
fn write_runas_list_expanded_if_wanted(
    alloc: Global,
    source: &ExpansionSource<'_, '_>,
    tables: &mut Tables,
    range: RowRange,
) -> Result<RowRange, CvtFault>
    requires { AreTablesAlikeButLists source.now.lines.tables.now tables.old }
    ensures stays { IfOk result (λ new. RowKeepsMeaning members_of_range_in_tables tables.new new
        (list_expanded_if source.now.expand Runas source.now.policy.now (members_of_range_in_tables source.now.lines.tables.now range))) }
    ensures extended { OnOk result (IsTableExtension tables.old tables.new) }
    ensures fault { IfErr result (IsTooManyMembersOrNoMemoryFault source.now.expand
        (length (list_expanded_if source.now.expand Runas source.now.policy.now (members_of_range_in_tables source.now.lines.tables.now range)))) }
{
    let rows = rows_in(source.lines.tables.members.as_slice(), range);
    let flat = copy_member_rows_expanded_if_wanted(alloc, source, Kind::Runas, rows)?;
    Ok(append_member_rows(tables, flat.as_slice())?)
}

/// Writes a Runas_Spec, its aliases replaced if that is wanted. It is counted with the commands of which it holds.
fn write_runas_with_aliases_expanded_if_wanted(
    alloc: Global,
    source: &ExpansionSource<'_, '_>,
    tables: &mut Tables,
    row: RunasRow,
) -> Result<RunasRow, CvtFault>
    requires { AreTablesAlikeButLists source.now.lines.tables.now tables.old }
    ensures stays { IfOk result (λ new. RowKeepsMeaning runas_in_tables tables.new new
        (runas_spec_expanded_if source.now.expand source.now.policy.now (runas_in_tables source.now.lines.tables.now row))) }
    ensures extended { OnOk result (IsTableExtension tables.old tables.new) }
    ensures fault { IfErr result (IsTooManyMembersOrNoMemoryFault source.now.expand
        (runas_member_count_or_inherited 0 (Some (runas_spec_expanded_if source.now.expand source.now.policy.now (runas_in_tables source.now.lines.tables.now row))))) }
{
    let users = write_runas_list_expanded_if_wanted(alloc, source, tables, row.users)?;
    let groups = write_runas_list_expanded_if_wanted(alloc, source, tables, row.groups)?;
    Ok(RunasRow { users, groups })
}

/// Writes the Runas_Spec of a command, if it has one.
pub fn write_optional_runas(
    alloc: Global,
    source: &ExpansionSource<'_, '_>,
    tables: &mut Tables,
    row: Option<RunasRow>,
) -> Result<Option<RunasRow>, CvtFault>
    requires { AreTablesAlikeButLists source.now.lines.tables.now tables.old }
    ensures stays { IfOk result (λ new. RowKeepsMeaning optional_runas_in_tables tables.new new
        (option_map (runas_spec_expanded_if source.now.expand source.now.policy.now) (optional_runas_in_tables source.now.lines.tables.now row))) }
    ensures extended { OnOk result (IsTableExtension tables.old tables.new) }
    ensures fault { IfErr result (IsTooManyMembersOrNoMemoryFault source.now.expand (runas_member_count_or_inherited 0
        (option_map (runas_spec_expanded_if source.now.expand source.now.policy.now) (optional_runas_in_tables source.now.lines.tables.now row)))) }
{
    match row {
        None => Ok(None),
        Some(row) => Ok(Some(write_runas_with_aliases_expanded_if_wanted(
            alloc, source, tables, row,
        )?)),
    }
}

/// Writes the scope of a Defaults line, its aliases replaced if that is wanted; a list of commands stays as it is.
fn write_scope_with_aliases_expanded_if_wanted(
    alloc: Global,
    source: &ExpansionSource<'_, '_>,
    tables: &mut Tables,
    tally: &mut MemberTally,
    row: ScopeRow,
) -> Result<ScopeRow, CvtFault>
    requires { AreTablesAlikeButLists source.now.lines.tables.now tables.old }
    ensures stays { IfOk result (λ new. RowKeepsMeaning scope_in_tables tables.new new
        (scope_expanded_if source.now.expand source.now.policy.now (scope_in_tables source.now.lines.tables.now row))) }
    ensures extended { OnOk result (IsTableExtension tables.old tables.new) }
    ensures counted { OnOk result (source.now.expand ≡ true → tally.new.count ≡ tally.old.count
        + scope_member_count (Some (scope_expanded_if source.now.expand source.now.policy.now (scope_in_tables source.now.lines.tables.now row)))) }
    ensures fault { IfErr result (IsTooManyMembersOrNoMemoryFault source.now.expand (tally.old.count
        + scope_member_count (Some (scope_expanded_if source.now.expand source.now.policy.now (scope_in_tables source.now.lines.tables.now row))))) }
{
    let rows = rows_in(source.lines.tables.members.as_slice(), row.members);
    let members = if row.kind == Kind::Cmnd {
        write_unchanged_list(source, tables, tally, rows)?
    } else {
        count_and_write_list_expanded_if_wanted(alloc, source, tables, tally, row.kind, rows)?
    };
    Ok(ScopeRow {
        kind: row.kind,
        members,
    })
}

/// Writes a list as it is, and counts it.
fn write_unchanged_list(
    source: &ExpansionSource<'_, '_>,
    tables: &mut Tables,
    tally: &mut MemberTally,
    rows: &[MemberRow],
) -> Result<RowRange, CvtFault>
    requires { AreTablesAlikeButLists source.now.lines.tables.now tables.old }
    ensures stays { IfOk result (λ range. RowKeepsMeaning members_of_range_in_tables tables.new range (map (member_in_tables source.now.lines.tables.now) rows.now)) }
    ensures extended { OnOk result (IsTableExtension tables.old tables.new) }
    ensures counted { OnOk result (source.now.expand ≡ true → tally.new.count ≡ tally.old.count
        + length (map (member_in_tables source.now.lines.tables.now) rows.now)) }
    ensures fault { IfErr result (IsTooManyMembersOrNoMemoryFault source.now.expand (tally.old.count
        + length (map (member_in_tables source.now.lines.tables.now) rows.now))) }
{
    if source.expand {
        tally.count_list_of_length(rows.len())?;
    }
    Ok(append_member_rows(tables, rows)?)
}

/// Writes the scope of a Defaults line, if it has one.
pub fn write_optional_scope(
    alloc: Global,
    source: &ExpansionSource<'_, '_>,
    tables: &mut Tables,
    tally: &mut MemberTally,
    row: Option<ScopeRow>,
) -> Result<Option<ScopeRow>, CvtFault>
    requires { AreTablesAlikeButLists source.now.lines.tables.now tables.old }
    ensures stays { IfOk result (λ new. RowKeepsMeaning optional_scope_of_row tables.new new
        (option_map (scope_expanded_if source.now.expand source.now.policy.now) (option_map (scope_in_tables source.now.lines.tables.now) row))) }
    ensures extended { OnOk result (IsTableExtension tables.old tables.new) }
    ensures counted { OnOk result (source.now.expand ≡ true → tally.new.count ≡ tally.old.count + scope_member_count
        (option_map (scope_expanded_if source.now.expand source.now.policy.now) (option_map (scope_in_tables source.now.lines.tables.now) row))) }
    ensures fault { IfErr result (IsTooManyMembersOrNoMemoryFault source.now.expand (tally.old.count + scope_member_count
        (option_map (scope_expanded_if source.now.expand source.now.policy.now) (option_map (scope_in_tables source.now.lines.tables.now) row)))) }
{
    match row {
        None => Ok(None),
        Some(row) => Ok(Some(write_scope_with_aliases_expanded_if_wanted(
            alloc, source, tables, tally, row,
        )?)),
    }
}
