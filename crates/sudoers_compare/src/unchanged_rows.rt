//! Whether rows differ only in what does not count, where lists may have been compared before.

ghost use Rattle.std.specs.Prelude.{◌≡◌};
ghost use Rattle.sudoers_compare.specs.FlatRow.{flat_row_of_view};
ghost use Rattle.sudoers_compare.specs.RelatedLists.{AreRightKnownRelations, IsRightRelatedListsAnswer};
ghost use Rattle.sudoers_compare.specs.RowLists.{AreListsKeptIfAny, NumberedLists};
ghost use Rattle.sudoers_compare.specs.SameRow.{is_narrowed_row, is_unchanged_row};
ghost use Rattle.sudoers_compare.specs.declared.related_lists.ListRelation.TheVariants.{Wider};

use crate::covering::covers_grant_in;
use crate::flat_row::FlatRow;
use crate::related_lists::{
    KnownRelations, ListRelation, RelatedListsAnswer, are_lists_related_or_known,
};
use crate::row_lists::RowLists;
use crate::same_row::{CountedChanges, has_same_effect, is_same_grant};
use std::alloc::Global;

/// Returns whether `old` allows all that `new` says something of, with the same sign, tags and options. Notes in `known` what is found of their
/// lists.
fn is_narrowed_row(
    alloc: Global,
    known: &mut Option<RelatedListsAnswer>,
    old_lists: Option<&RowLists>,
    old: &FlatRow<'_>,
    new_lists: Option<&RowLists>,
    new: &FlatRow<'_>,
) -> bool
    ensures { (all_old all_new : NumberedLists) → AreListsKeptIfAny all_old old_lists.entry (flat_row_of_view old.now) → AreListsKeptIfAny all_new new_lists.entry (flat_row_of_view new.now)
        → IsRightRelatedListsAnswer Wider all_old all_new known.old → IsRightRelatedListsAnswer Wider all_old all_new known.new
        × (result ≡ is_narrowed_row (flat_row_of_view old.now) (flat_row_of_view new.now)) }
{
    if old.member.negated || !has_same_effect(old, new) {
        return false;
    }
    are_lists_related_or_known(
        alloc,
        ListRelation::Wider,
        known,
        old_lists,
        old,
        new_lists,
        new,
    ) && covers_grant_in(Some(alloc), old, new)
}

/// Returns whether `new` is `old`, or differs from it only in what does not count. Notes in `known` what is found of their lists.
pub fn is_unchanged_row(
    alloc: Global,
    counted: CountedChanges,
    known: &mut KnownRelations,
    old_lists: Option<&RowLists>,
    old: &FlatRow<'_>,
    new_lists: Option<&RowLists>,
    new: &FlatRow<'_>,
) -> bool
    ensures { (all_old all_new : NumberedLists) → AreListsKeptIfAny all_old old_lists.entry (flat_row_of_view old.now) → AreListsKeptIfAny all_new new_lists.entry (flat_row_of_view new.now)
        → AreRightKnownRelations all_old all_new known.old → AreRightKnownRelations all_old all_new known.new
        × (result ≡ is_unchanged_row counted (flat_row_of_view old.now) (flat_row_of_view new.now)) }
{
    let are_same = are_lists_related_or_known(
        alloc,
        ListRelation::Same,
        &mut known.same,
        old_lists,
        old,
        new_lists,
        new,
    );
    if are_same && is_same_grant(old, new) {
        return true;
    }
    match counted {
        CountedChanges::All => false,
        CountedChanges::Granting => is_narrowed_row(
            alloc,
            &mut known.wider,
            old_lists,
            old,
            new_lists,
            new,
        ),
    }
}
