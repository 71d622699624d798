//! Whether one Runas_Spec has every target of another.

ghost use Rattle.std.specs.Prelude.{◌≡◌};
ghost use Rattle.std.specs.Option.{option_map};
ghost use Rattle.laws_compare.specs.Decided.{are_runas_lists_wider, has_no_negated_group, has_present_list_all_in_force, is_list_wider, is_runas_spec_wider};
ghost use Rattle.sudoers_compare.specs.FlatRow.{flat_runas_spec_of_view, optional_signed_atoms_of_view, signed_atoms_of_view};

use crate::flat_lists::{has_all_in_force, has_no_negation, is_list_wider};
use crate::flat_row::FlatRunasView;
use crate::member_index::is_list_wider_by_index;
use std::alloc::Global;
use sudoers_line_rows::{MemberRow, RowsOfTable};

/// Returns whether no group of the flat list `groups` is negated, or there is no list.
fn has_no_negated_group(groups: &Option<RowsOfTable<'_, MemberRow>>) -> bool
    ensures { result ≡ has_no_negated_group (optional_signed_atoms_of_view groups.now) }
{
    match groups {
        None => true,
        Some(groups) => has_no_negation(groups),
    }
}

/// Returns whether the flat list `members` is there, and `ALL` is in force in it.
fn has_present_list_all_in_force(members: &Option<RowsOfTable<'_, MemberRow>>) -> bool
    ensures { result ≡ has_present_list_all_in_force (optional_signed_atoms_of_view members.now) }
{
    match members {
        None => false,
        Some(members) => has_all_in_force(members),
    }
}

/// Returns whether the flat list `wide` allows all that `narrow` allows. Long lists are indexed, if there is memory for it.
fn is_list_wider_in(
    memory: Option<Global>,
    wide: &RowsOfTable<'_, MemberRow>,
    narrow: &RowsOfTable<'_, MemberRow>,
) -> bool
    ensures { result ≡ is_list_wider (signed_atoms_of_view wide.now) (signed_atoms_of_view narrow.now) }
{
    match memory {
        Some(alloc) => is_list_wider_by_index(alloc, wide, narrow),
        None => is_list_wider(wide, narrow),
    }
}

/// Returns whether the lists of `wide` are there where those of `narrow` are, and wider. Beside users, `wide` may have more groups, none of
/// them negated.
fn are_runas_lists_wider(
    memory: Option<Global>,
    wide: &FlatRunasView<'_>,
    narrow: &FlatRunasView<'_>,
) -> bool
    ensures { result ≡ are_runas_lists_wider (optional_signed_atoms_of_view wide.now.users) (optional_signed_atoms_of_view wide.now.groups)
        (optional_signed_atoms_of_view narrow.now.users) (optional_signed_atoms_of_view narrow.now.groups) }
{
    match (&wide.users, &wide.groups, &narrow.users, &narrow.groups) {
        (Some(us), groups, Some(vs), None) => is_list_wider_in(memory, us, vs)
            && has_no_negated_group(groups),
        (Some(us), Some(gs), Some(vs), Some(hs)) => is_list_wider_in(memory, us, vs)
            && is_list_wider_in(memory, gs, hs),
        (None, Some(gs), None, Some(hs)) => is_list_wider_in(memory, gs, hs),
        (None, None, None, None) => true,
        _ => false,
    }
}

/// Returns whether each target of the Runas_Spec `narrow` is one of `wide`. Either may be absent.
pub fn is_runas_spec_wider(
    memory: Option<Global>,
    wide: &Option<FlatRunasView<'_>>,
    narrow: &Option<FlatRunasView<'_>>,
) -> bool
    ensures { result ≡ is_runas_spec_wider (option_map flat_runas_spec_of_view wide.now) (option_map flat_runas_spec_of_view narrow.now) }
{
    match (wide, narrow) {
        (None, None) => true,
        (None, Some(_)) => false,
        (Some(wide), None) => {
            has_present_list_all_in_force(&wide.users) && has_no_negated_group(&wide.groups)
        }
        (Some(wide), Some(narrow)) => {
            (has_present_list_all_in_force(&wide.users)
                && has_present_list_all_in_force(&wide.groups))
                || are_runas_lists_wider(memory, wide, narrow)
        }
    }
}
