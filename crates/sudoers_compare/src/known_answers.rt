//! Whether one row covers another, where lists may have been compared before.

ghost use Rattle.std.specs.Prelude.{◌≡◌, ◌&&◌, ℕ, List};
ghost use Rattle.sudoers_match_list.specs.Flat.{SignedAtom};
ghost use Rattle.laws_compare.specs.Decided.{is_covering_row, is_list_wider};
ghost use Rattle.sudoers_compare.specs.FlatRow.{flat_row_of_view, signed_atoms_of_view};
ghost use Rattle.sudoers_compare.specs.KnownAnswers.{AreRightAnswers, IsRightAnswer, IsRightAnswerIfAny};
ghost use Rattle.sudoers_compare.specs.RowLists.{AreListsKeptIfAny, NumberedLists, lists_of_kept, lists_of_row};

use crate::covering::{covers_grant_in, covers_row};
use crate::flat_row::FlatRow;
use crate::list_bits::has_needed_bits;
use crate::member_index::is_list_wider_by_index;
use crate::row_lists::RowLists;
use std::alloc::Global;
use sudoers_line_rows::{MemberRow, RowsOfTable};

/// Whether a list of a user specification is wider than one of another. Of hosts both have the numbers of their host groups, and users have 0.
#[derive(Clone, Copy)]
pub struct ListAnswer {
    pub wide_group: usize,
    pub narrow_spec: usize,
    pub narrow_group: usize,
    pub is_wider: bool,
}

/// What was asked last of the users and of the hosts of a user specification.
#[derive(Clone, Copy)]
pub struct ListAnswers {
    pub users: Option<ListAnswer>,
    pub hosts: Option<ListAnswer>,
}

/// Nothing was asked.
pub const NO_ANSWERS: ListAnswers = ListAnswers {
    users: None,
    hosts: None,
};

/// Returns whether the list `wide` is wider than `narrow`, and of which lists that is said. `known` is what was asked last.
fn answer_of_lists(
    alloc: Global,
    known: Option<ListAnswer>,
    wide_group: usize,
    wide: &RowsOfTable<'_, MemberRow>,
    narrow_spec: usize,
    narrow_group: usize,
    narrow: &RowsOfTable<'_, MemberRow>,
) -> ListAnswer
    ensures { (at : ℕ → ℕ → List SignedAtom) (wide_spec : ℕ) → at wide_spec wide_group ≡ signed_atoms_of_view wide.now → at narrow_spec narrow_group ≡ signed_atoms_of_view narrow.now
        → IsRightAnswerIfAny at wide_spec known → IsRightAnswer at wide_spec result × (result.is_wider ≡ is_list_wider (signed_atoms_of_view wide.now) (signed_atoms_of_view narrow.now)) }
{
    if let Some(answer) = known
        && answer.wide_group == wide_group
        && answer.narrow_spec == narrow_spec
        && answer.narrow_group == narrow_group
    {
        return answer;
    }
    ListAnswer {
        wide_group,
        narrow_spec,
        narrow_group,
        is_wider: is_list_wider_by_index(alloc, wide, narrow),
    }
}

/// Returns whether the users and the hosts of `wide` are wider than those of `narrow`, and notes it in `answers`. The others are where their
/// lists stand.
fn are_lists_wider_or_known(
    alloc: Global,
    answers: &mut [ListAnswers],
    wide_lists: &RowLists,
    wide: &FlatRow<'_>,
    narrow_lists: &RowLists,
    narrow: &FlatRow<'_>,
) -> bool
    ensures { (all : NumberedLists) → AreRightAnswers all answers.old → lists_of_kept all wide_lists.now ≡ lists_of_row (flat_row_of_view wide.now) → lists_of_kept all narrow_lists.now ≡ lists_of_row (flat_row_of_view narrow.now)
        → AreRightAnswers all answers.new
        × (result ≡ (is_list_wider (signed_atoms_of_view wide.now.users) (signed_atoms_of_view narrow.now.users) && is_list_wider (signed_atoms_of_view wide.now.hosts) (signed_atoms_of_view narrow.now.hosts))) }
{
    let spec = wide_lists.spec;
    if spec >= answers.len() {
        return is_list_wider_by_index(alloc, &wide.users, &narrow.users)
            && is_list_wider_by_index(alloc, &wide.hosts, &narrow.hosts);
    }
    let known = answers[spec];
    let users = answer_of_lists(
        alloc,
        known.users,
        0,
        &wide.users,
        narrow_lists.spec,
        0,
        &narrow.users,
    );
    if !users.is_wider {
        answers[spec] = ListAnswers {
            users: Some(users),
            hosts: known.hosts,
        };
        return false;
    }
    let hosts = answer_of_lists(
        alloc,
        known.hosts,
        wide_lists.group,
        &wide.hosts,
        narrow_lists.spec,
        narrow_lists.group,
        &narrow.hosts,
    );
    answers[spec] = ListAnswers {
        users: Some(users),
        hosts: Some(hosts),
    };
    hosts.is_wider
}

/// Returns whether `wide` covers `narrow`, and notes in `answers` what is found of their lists. If it is known where these stand, their bits are
/// compared first.
pub fn covers_row_by_lists(
    alloc: Global,
    answers: &mut [ListAnswers],
    wide_lists: Option<&RowLists>,
    wide: &FlatRow<'_>,
    narrow_lists: Option<&RowLists>,
    narrow: &FlatRow<'_>,
) -> bool
    ensures { (all : NumberedLists) → AreRightAnswers all answers.old → AreListsKeptIfAny all wide_lists.entry (flat_row_of_view wide.now) → AreListsKeptIfAny all narrow_lists.entry (flat_row_of_view narrow.now)
        → AreRightAnswers all answers.new × (result ≡ is_covering_row (flat_row_of_view wide.now) (flat_row_of_view narrow.now)) }
{
    let Some(wide_lists) = wide_lists else {
        return covers_row(wide, narrow);
    };
    let Some(narrow_lists) = narrow_lists else {
        return covers_row(wide, narrow);
    };
    if !has_needed_bits(wide_lists.users, narrow_lists.users) {
        return false;
    }
    if !has_needed_bits(wide_lists.hosts, narrow_lists.hosts) {
        return false;
    }
    if !are_lists_wider_or_known(alloc, answers, wide_lists, wide, narrow_lists, narrow) {
        return false;
    }
    covers_grant_in(Some(alloc), wide, narrow)
}
