//! Whether one row covers another.

ghost use Rattle.std.specs.Prelude.{◌≡◌};
ghost use Rattle.laws_compare.specs.Decided.{is_covering_grant, is_covering_row, is_time_bound_wider};
ghost use Rattle.sudoers_match.specs.Values.{option_value_of_view};
ghost use Rattle.sudoers_compare.specs.FlatRow.{flat_row_of_view, grant_of_view};

use crate::command_atoms::is_command_atom_wider;
use crate::flat_lists::is_list_wider;
use crate::flat_row::FlatRow;
use crate::runas_specs::is_runas_spec_wider;
use std::alloc::Global;

/// Returns whether there is no bound `wide`, or it is the same as `narrow`.
fn is_time_bound_wider(wide: Option<&[u8]>, narrow: Option<&[u8]>) -> bool
    ensures { result ≡ is_time_bound_wider (option_value_of_view wide.entry) (option_value_of_view narrow.entry) }
{
    match (wide, narrow) {
        (None, _) => true,
        (Some(_), None) => false,
        (Some(wide), Some(narrow)) => wide == narrow,
    }
}

/// Returns whether the row `wide` covers `narrow` for each user of both on each host of both. Users and hosts do not count.
pub fn covers_grant(wide: &FlatRow<'_>, narrow: &FlatRow<'_>) -> bool
    ensures { result ≡ is_covering_grant (grant_of_view wide.now) (grant_of_view narrow.now) }
{
    covers_grant_in(None, wide, narrow)
}

/// Returns the same as `covers_grant`. Long lists are indexed if there is `memory`.
pub fn covers_grant_in(memory: Option<Global>, wide: &FlatRow<'_>, narrow: &FlatRow<'_>) -> bool
    ensures { result ≡ is_covering_grant (grant_of_view wide.now) (grant_of_view narrow.now) }
{
    is_runas_spec_wider(memory, &wide.runas, &narrow.runas)
        && is_time_bound_wider(wide.options.notbefore, narrow.options.notbefore)
        && is_time_bound_wider(wide.options.notafter, narrow.options.notafter)
        && wide.member.digests.rows.is_empty()
        && is_command_atom_wider(&wide.member.atom, &narrow.member.atom)
}

/// Returns whether the row `wide` covers `narrow`. If it does, it fits each request that `narrow` fits.
pub fn covers_row(wide: &FlatRow<'_>, narrow: &FlatRow<'_>) -> bool
    ensures { result ≡ is_covering_row (flat_row_of_view wide.now) (flat_row_of_view narrow.now) }
{
    is_list_wider(&wide.users, &narrow.users)
        && is_list_wider(&wide.hosts, &narrow.hosts)
        && covers_grant(wide, narrow)
}
