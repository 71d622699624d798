//! Whether one flat list allows everything that another allows.

ghost use Rattle.std.specs.Prelude.{◌≡◌};
ghost use Rattle.std.specs.List.{list_any};
ghost use Rattle.sudoers_line_rows.specs.Tables.{member_in_tables};
ghost use Rattle.sudoers_line_rows.specs.View.{member_of_view};
ghost use Rattle.sudoers_match_list.specs.Flat.{signed_atom_of_member};
ghost use Rattle.laws_compare.specs.Decided.{has_all_in_force, has_each_unnegated_atom, has_no_negation, is_list_wider, is_same_flat_list, is_same_signed_atom};
ghost use Rattle.sudoers_compare.specs.AllInForce.{all_stays_in_force};
ghost use Rattle.sudoers_compare.specs.FlatRow.{signed_atoms_of_view};

use crate::command_atoms::is_all_atom;
use sudoers_line_rows::{
    ComparableRow, Member, MemberRow, RowsOfTable, Tables, are_row_lists_alike,
};

/// Returns whether no member of the flat list `members` is negated.
pub fn has_no_negation(members: &RowsOfTable<'_, MemberRow>) -> bool
    ensures { result ≡ has_no_negation (signed_atoms_of_view members.now) }
{
    let mut rest = members.rows;
    while let Some((row, behind)) = rest.split_first() {
        if row.negated {
            return false;
        }
        rest = behind;
    }
    true
}

/// Returns whether `ALL` stands in the flat list `members`, and no negated member behind it.
pub fn has_all_in_force(members: &RowsOfTable<'_, MemberRow>) -> bool
    ensures { result ≡ has_all_in_force (signed_atoms_of_view members.now) }
{
    let mut so_far = false;
    let mut rest = members.rows;
    while let Some((row, behind)) = rest.split_first() {
        so_far = keeps_all_in_force(so_far, &members.tables.member_of_row(row));
        rest = behind;
    }
    so_far
}

/// Returns whether `ALL` is in force in a list that ends with `member`. `so_far` says whether it is without that one.
fn keeps_all_in_force(so_far: bool, member: &Member<'_>) -> bool
    ensures { result ≡ all_stays_in_force so_far (signed_atom_of_member (member_of_view member.now)) }
{
    if member.negated {
        return false;
    }
    so_far || (member.digests.rows.is_empty() && is_all_atom(&member.atom))
}

/// Returns whether `row` says in `tables` what `other` says in `others`, with the same sign.
pub fn is_same_member(row: &MemberRow, tables: &Tables, other: &MemberRow, others: &Tables) -> bool
    ensures { result ≡ is_same_signed_atom (signed_atom_of_member (member_in_tables tables.now row.now)) (signed_atom_of_member (member_in_tables others.now other.now)) }
{
    row.is_alike_across_tables(tables, other, others)
}

/// Returns whether the flat lists `members` and `others` are the same.
pub fn is_same_flat_list(
    members: &RowsOfTable<'_, MemberRow>,
    others: &RowsOfTable<'_, MemberRow>,
) -> bool
    ensures { result ≡ is_same_flat_list (signed_atoms_of_view members.now) (signed_atoms_of_view others.now) }
{
    are_row_lists_alike(members, others)
}

/// Returns whether the flat list `members` has the member `row` of `tables`, with its sign.
pub fn has_member(members: &RowsOfTable<'_, MemberRow>, row: &MemberRow, tables: &Tables) -> bool
    ensures { result ≡ list_any (is_same_signed_atom (signed_atom_of_member (member_in_tables tables.now row.now))) (signed_atoms_of_view members.now) }
{
    let mut rest = members.rows;
    while let Some((other, behind)) = rest.split_first() {
        if is_same_member(row, tables, other, members.tables) {
            return true;
        }
        rest = behind;
    }
    false
}

/// Returns whether the flat list `wide` has each member of `narrow` that is not negated.
fn has_each_unnegated_member(
    wide: &RowsOfTable<'_, MemberRow>,
    narrow: &RowsOfTable<'_, MemberRow>,
) -> bool
    ensures { result ≡ has_each_unnegated_atom (signed_atoms_of_view wide.now) (signed_atoms_of_view narrow.now) }
{
    let mut rest = narrow.rows;
    while let Some((row, behind)) = rest.split_first() {
        if !row.negated && !has_member(wide, row, narrow.tables) {
            return false;
        }
        rest = behind;
    }
    true
}

/// Returns whether the flat list `wide` allows all that `narrow` allows.
pub fn is_list_wider(wide: &RowsOfTable<'_, MemberRow>, narrow: &RowsOfTable<'_, MemberRow>) -> bool
    ensures { result ≡ is_list_wider (signed_atoms_of_view wide.now) (signed_atoms_of_view narrow.now) }
{
    is_same_flat_list(wide, narrow)
        || has_all_in_force(wide)
        || (has_no_negation(wide) && has_each_unnegated_member(wide, narrow))
}
