//! Settings of runas_default, their scopes flattened.

ghost use Rattle.std.specs.Prelude.{◌≡◌, ◌↔◌, ◌++◌, ◌∷◌, [], ℕ, List, map, true, IfOk, OnOk};
ghost use Rattle.std.specs.Option.{option_map};
ghost use Rattle.sudoers_line_rows.specs.Tables.{node_in_tables, parameter_in_tables, parameters_of_range_in_tables, scope_in_tables};
ghost use Rattle.sudoers_line_rows.specs.View.{parameter_of_view};
ghost use Rattle.sudoers_match.specs.Default.{runas_default_in_param};
ghost use Rattle.laws_compare.specs.Computed.{content_of_lines, flat_scope_of};
ghost use Rattle.sudoers_compare.specs.FlatDefaults.{flat_runas_default_in_tables, flat_runas_defaults_in_node, flat_runas_defaults_in_params, flat_scope_in_tables, is_same_flat_scope};

use crate::counted_lists::flatten_counted_list;
use crate::flat_lists::is_same_flat_list;
use std::alloc::Global;
use sudoers_line_rows::{
    MemberRow, NodeRow, ParamRow, RowRange, RowsOfTable, ScopeRow, Tables, rows_in,
};
use sudoers_match::read_runas_default_param;
use sudoers_match_list::{ExpansionSource, FlattenSizeFault};
use sudoers_tree::{Kind, is_same_kind};

/// The scope of a Defaults line, its list flat.
#[derive(Drop)]
pub struct FlatScope {
    pub kind: Kind,
    pub members: Vec<MemberRow>,
}

/// A setting of runas_default: its scope with its list flat, if it has one, and the name. `line` is the number of its line on the walk,
/// from 0.
#[derive(Drop)]
pub struct FlatRunasDefault<'a> {
    pub line: usize,
    pub scope: Option<FlatScope>,
    pub name: &'a [u8],
}

/// Returns the scope of a Defaults line with its list flat, if it has one. Its members are taken from `allowance`.
///
/// # Errors
///
/// `TooLarge`: these members are more than `allowance`, or the list has more than 65,536 then. `NoMemory`: memory ran out.
pub fn flatten_scope(
    alloc: Global,
    source: &ExpansionSource<'_, '_>,
    scope: Option<ScopeRow>,
    allowance: &mut usize,
) -> Result<Option<FlatScope>, FlattenSizeFault>
    ensures { IfOk result (λ flat. option_map (flat_scope_in_tables source.now.lines.tables.now) flat
        ≡ option_map (flat_scope_of source.now.policy.now) (option_map (scope_in_tables source.now.lines.tables.now) scope)) }
{
    let Some(scope) = scope else {
        return Ok(None);
    };
    let rows = rows_in(source.lines.tables.members.as_slice(), scope.members);
    let members = flatten_counted_list(alloc, source, scope.kind, rows, rows.len(), allowance)?;
    Ok(Some(FlatScope {
        kind: scope.kind,
        members,
    }))
}

/// Appends the setting of the parameter `row` to `settings`, if it sets runas_default. It stands on the line with the number `line`, which
/// has this scope.
fn append_flat_default_of_param<'a>(
    alloc: Global,
    source: &ExpansionSource<'a, '_>,
    line: usize,
    scope: Option<ScopeRow>,
    row: &ParamRow,
    allowance: &mut usize,
    settings: &mut Vec<FlatRunasDefault<'a>>,
) -> Result<(), FlattenSizeFault>
    ensures { OnOk result (map (flat_runas_default_in_tables source.now.lines.tables.now) settings.new.items ≡ map (flat_runas_default_in_tables source.now.lines.tables.now) settings.old.items
        ++ flat_runas_defaults_in_params source.now.policy.now (option_map (scope_in_tables source.now.lines.tables.now) scope) (parameter_in_tables source.now.lines.tables.now row.now ∷ [])) }
{
    let tables = source.lines.tables;
    let Some(name) = read_runas_default_param(&tables.parameter_of_row(row)) else {
        return Ok(());
    };
    let scope = flatten_scope(alloc, source, scope, allowance)?;
    settings.push(FlatRunasDefault { line, scope, name })?;
    Ok(())
}

/// Appends the settings of runas_default of a Defaults line to `settings`. It has the number `line` and this scope.
fn append_flat_defaults_of_params<'a>(
    alloc: Global,
    source: &ExpansionSource<'a, '_>,
    line: usize,
    scope: Option<ScopeRow>,
    params: RowRange,
    allowance: &mut usize,
    settings: &mut Vec<FlatRunasDefault<'a>>,
) -> Result<(), FlattenSizeFault>
    ensures { OnOk result (map (flat_runas_default_in_tables source.now.lines.tables.now) settings.new.items ≡ map (flat_runas_default_in_tables source.now.lines.tables.now) settings.old.items
        ++ flat_runas_defaults_in_params source.now.policy.now (option_map (scope_in_tables source.now.lines.tables.now) scope) (parameters_of_range_in_tables source.now.lines.tables.now params)) }
{
    let rows = rows_in(source.lines.tables.params.as_slice(), params);
    for row in rows {
        append_flat_default_of_param(alloc, source, line, scope, row, allowance, settings)?;
    }
    Ok(())
}

/// Appends the settings of runas_default of the line that `row` says to `settings`. It has the number `line`.
fn append_flat_defaults_of_node<'a>(
    alloc: Global,
    source: &ExpansionSource<'a, '_>,
    line: usize,
    row: &NodeRow,
    allowance: &mut usize,
    settings: &mut Vec<FlatRunasDefault<'a>>,
) -> Result<(), FlattenSizeFault>
    ensures { OnOk result (map (flat_runas_default_in_tables source.now.lines.tables.now) settings.new.items ≡ map (flat_runas_default_in_tables source.now.lines.tables.now) settings.old.items
        ++ flat_runas_defaults_in_node source.now.policy.now (node_in_tables source.now.lines.tables.now row.now)) }
{
    let NodeRow::Defaults { scope, params } = row else {
        return Ok(());
    };
    append_flat_defaults_of_params(alloc, source, line, *scope, *params, allowance, settings)
}

/// Returns the settings of runas_default of the policy that `source` has, in file order, their scopes flat. What a list has more
/// than is written is taken from `allowance`.
///
/// # Errors
///
/// `TooLarge`: these members are more than `allowance`, or a list has more than 65,536 then. `NoMemory`: memory ran out.
pub fn flatten_runas_defaults<'a>(
    alloc: Global,
    source: &ExpansionSource<'a, '_>,
    allowance: &mut usize,
) -> Result<Vec<FlatRunasDefault<'a>>, FlattenSizeFault>
    ensures { IfOk result (λ settings. map (flat_runas_default_in_tables source.now.lines.tables.now) settings.items ≡ (content_of_lines source.now.policy.now).runas_defaults) }
{
    let mut settings = Vec::new(alloc);
    for (line, row) in source.lines.rows.iter().enumerate() {
        append_flat_defaults_of_node(alloc, source, line, &row.node, allowance, &mut settings)?;
    }
    Ok(settings)
}

/// Returns whether `scope` says in `tables` what `other` says in `others`. Either may be absent.
fn is_same_flat_scope(
    tables: &Tables,
    scope: &Option<FlatScope>,
    others: &Tables,
    other: &Option<FlatScope>,
) -> bool
    ensures { result ≡ is_same_flat_scope (option_map (flat_scope_in_tables tables.now) scope.now) (option_map (flat_scope_in_tables others.now) other.now) }
{
    match (scope, other) {
        (None, None) => true,
        (Some(scope), Some(other)) => {
            let members = RowsOfTable {
                tables,
                rows: scope.members.as_slice(),
            };
            let other_members = RowsOfTable {
                tables: others,
                rows: other.members.as_slice(),
            };
            is_same_kind(scope.kind, other.kind) && is_same_flat_list(&members, &other_members)
        }
        _ => false,
    }
}

/// Returns whether `setting` says in `tables` what `other` says in `others`. Their lines do not count.
pub fn is_same_runas_default(
    tables: &Tables,
    setting: &FlatRunasDefault<'_>,
    others: &Tables,
    other: &FlatRunasDefault<'_>,
) -> bool
    ensures { (result ≡ true) ↔ (flat_runas_default_in_tables tables.now setting.now ≡ flat_runas_default_in_tables others.now other.now) }
{
    is_same_flat_scope(tables, &setting.scope, others, &other.scope) && setting.name == other.name
}
