//! Lists whose members are found by their numbers.

ghost use Rattle.std.specs.Prelude.{◌≡◌, nat_eq, IfOk};
ghost use Rattle.std.specs.List.{list_any};
ghost use Rattle.indexmap.specs.IndexMap.{get};
ghost use Rattle.sudoers_line_rows.specs.Tables.{member_in_tables};
ghost use Rattle.sudoers_match_list.specs.Flat.{signed_atom_of_member};
ghost use Rattle.laws_compare.specs.Decided.{has_each_unnegated_atom, is_list_wider, is_same_signed_atom};
ghost use Rattle.sudoers_compare.specs.FlatRow.{signed_atoms_of_view};
ghost use Rattle.sudoers_compare.specs.MemberIndex.{IsIndexOf};

use crate::flat_lists::{
    has_all_in_force, has_member, has_no_negation, is_list_wider, is_same_flat_list, is_same_member,
};
use crate::list_bits::number_of_atom;
use indexmap::IndexMap;
use std::alloc::{AllocError, Global};
use sudoers_line_rows::{MemberRow, RowsOfTable, Tables};

/// Lists with at most as many members are not indexed.
const SHORT_LIST: usize = 16;

/// Returns for each number the place of the last member of the flat list `members` that has it.
fn make_member_index(
    alloc: Global,
    members: &RowsOfTable<'_, MemberRow>,
) -> Result<IndexMap<u64, usize>, AllocError>
    ensures { IfOk result (λ index. IsIndexOf (get nat_eq index) (signed_atoms_of_view members.now)) }
{
    let mut index = IndexMap::new(alloc);
    let mut rest = members.rows;
    let mut place = 0;
    while let Some((row, behind)) = rest.split_first() {
        index.insert(number_of_atom(&members.tables.atom_of_row(row.atom)), place)?;
        place += 1;
        rest = behind;
    }
    Ok(index)
}

/// Returns whether the flat list `members` has the member `row` of `tables`, with its sign. `index` is that of the list.
fn has_indexed_member(
    members: &RowsOfTable<'_, MemberRow>,
    index: &IndexMap<u64, usize>,
    row: &MemberRow,
    tables: &Tables,
) -> bool
    requires { IsIndexOf (get nat_eq index.now) (signed_atoms_of_view members.now) }
    ensures { result ≡ list_any (is_same_signed_atom (signed_atom_of_member (member_in_tables tables.now row.now))) (signed_atoms_of_view members.now) }
{
    let Some(place) = index.get(&number_of_atom(&tables.atom_of_row(row.atom))) else {
        return false;
    };
    match members.rows.get(*place) {
        Some(other) if is_same_member(row, tables, other, members.tables) => true,
        _ => has_member(members, row, tables),
    }
}

/// Returns whether the flat list `wide` has each member of `narrow` that is not negated. `index` is that of `wide`.
fn has_each_unnegated_indexed_member(
    wide: &RowsOfTable<'_, MemberRow>,
    index: &IndexMap<u64, usize>,
    narrow: &RowsOfTable<'_, MemberRow>,
) -> bool
    requires { IsIndexOf (get nat_eq index.now) (signed_atoms_of_view wide.now) }
    ensures { result ≡ has_each_unnegated_atom (signed_atoms_of_view wide.now) (signed_atoms_of_view narrow.now) }
{
    let mut rest = narrow.rows;
    while let Some((row, behind)) = rest.split_first() {
        if !row.negated && !has_indexed_member(wide, index, row, narrow.tables) {
            return false;
        }
        rest = behind;
    }
    true
}

/// Returns whether the flat list `wide` allows all that `narrow` allows. Long lists are indexed, if there is memory.
pub fn is_list_wider_by_index(
    alloc: Global,
    wide: &RowsOfTable<'_, MemberRow>,
    narrow: &RowsOfTable<'_, MemberRow>,
) -> bool
    ensures { result ≡ is_list_wider (signed_atoms_of_view wide.now) (signed_atoms_of_view narrow.now) }
{
    if wide.rows.len() <= SHORT_LIST || narrow.rows.len() <= SHORT_LIST {
        return is_list_wider(wide, narrow);
    }
    if is_same_flat_list(wide, narrow) || has_all_in_force(wide) {
        return true;
    }
    if !has_no_negation(wide) {
        return false;
    }
    match make_member_index(alloc, wide) {
        Ok(index) => has_each_unnegated_indexed_member(wide, &index, narrow),
        Err(_) => is_list_wider(wide, narrow),
    }
}
