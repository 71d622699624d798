//! Lists flattened while their members are counted.

ghost use Rattle.std.specs.Prelude.{◌≡◌, ◌+◌, ◌-◌, List, length, map, true, IfOk};
ghost use Rattle.sudoers_grammar.specs.declared.node.Kind.{Kind as KindOf};
ghost use Rattle.sudoers_line_rows.specs.declared.rows.Tables.{Tables as TablesOf};
ghost use Rattle.sudoers_tree.specs.Line.{Line as LineOf};
ghost use Rattle.sudoers_line_rows.specs.Tables.{member_in_tables};
ghost use Rattle.sudoers_match_list.specs.Flattened.{fully_expanded_list, list_with_aliases_expanded_once};

use std::alloc::Global;
use sudoers_line_rows::{AtomRow, MemberRow};
use sudoers_match_list::{ExpansionSource, FlattenSizeFault, flatten_member_list};
use sudoers_tree::Kind;

/// Returns whether no member of `rows` names an alias.
fn has_no_alias(rows: &[MemberRow]) -> bool
    ensures { result ≡ true → (t : TablesOf) (k : KindOf) (lines : List LineOf) → list_with_aliases_expanded_once k lines (map (member_in_tables t) rows.now) ≡ map (member_in_tables t) rows.now }
{
    let mut rest = rows;
    while let Some((row, behind)) = rest.split_first() {
        if let AtomRow::Alias(_) = row.atom {
            return false;
        }
        rest = behind;
    }
    true
}

/// Returns the list `rows` of this kind, flat.
///
/// # Errors
///
/// `TooLarge`: the list has more than 65,536 members then. `NoMemory`: memory ran out.
fn flatten_list<'a>(
    alloc: Global,
    source: &ExpansionSource<'a, '_>,
    kind: Kind,
    rows: &'a [MemberRow],
) -> Result<Vec<MemberRow>, FlattenSizeFault>
    ensures { IfOk result (λ new. map (member_in_tables source.now.lines.tables.now) new.items
        ≡ fully_expanded_list kind source.now.policy.now (map (member_in_tables source.now.lines.tables.now) rows.now)) }
{
    if has_no_alias(rows) {
        return Ok(Vec::from_slice(alloc, rows)?);
    }
    flatten_member_list(alloc, source, kind, rows)
}

/// Returns the list `rows` of this kind, flat. Its members but `free` of them are taken from `allowance`, the number of members that are
/// allowed.
///
/// # Errors
///
/// `TooLarge`: these are more than `allowance`, or the list has more than 65,536 members then. `NoMemory`: memory ran out.
pub fn flatten_counted_list<'a>(
    alloc: Global,
    source: &ExpansionSource<'a, '_>,
    kind: Kind,
    rows: &'a [MemberRow],
    free: usize,
    allowance: &mut usize,
) -> Result<Vec<MemberRow>, FlattenSizeFault>
    ensures rows { IfOk result (λ new. map (member_in_tables source.now.lines.tables.now) new.items
        ≡ fully_expanded_list kind source.now.policy.now (map (member_in_tables source.now.lines.tables.now) rows.now)) }
    ensures counted { IfOk result (λ new. allowance.old ≡ allowance.new + (length new.items - free)) }
{
    let flat = flatten_list(alloc, source, kind, rows)?;
    match allowance.checked_sub(flat.len().saturating_sub(free)) {
        Some(fewer) => {
            *allowance = fewer;
            Ok(flat)
        }
        None => Err(FlattenSizeFault::TooLarge),
    }
}
