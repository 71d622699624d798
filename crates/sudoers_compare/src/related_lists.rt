//! Whether the users and hosts of rows are the same, or wider, where lists may have been compared before.

ghost use Rattle.std.specs.Prelude.{◌≡◌, ◌&&◌};
ghost use Rattle.sudoers_compare.specs.FlatRow.{flat_row_of_view, signed_atoms_of_view};
ghost use Rattle.sudoers_compare.specs.RelatedLists.{IsRightRelatedListsAnswer, is_list_related};
ghost use Rattle.sudoers_compare.specs.RowLists.{AreListsKeptIfAny, NumberedLists};

use crate::flat_lists::is_same_flat_list;
use crate::flat_row::FlatRow;
use crate::member_index::is_list_wider_by_index;
use crate::row_lists::RowLists;
use std::alloc::Global;
use sudoers_line_rows::{MemberRow, RowsOfTable};

/// What is asked of an old list and a new one.
#[derive(Clone, Copy)]
pub enum ListRelation {
    /// Whether they are the same.
    Same,
    /// Whether the old one is wider.
    Wider,
}

/// Whether the users and the hosts at these numbers are related.
#[derive(Clone, Copy)]
pub struct RelatedListsAnswer {
    pub old_spec: usize,
    pub old_group: usize,
    pub new_spec: usize,
    pub new_group: usize,
    pub are_related: bool,
}

/// What was asked last of each relation.
#[derive(Clone, Copy)]
pub struct KnownRelations {
    pub same: Option<RelatedListsAnswer>,
    pub wider: Option<RelatedListsAnswer>,
}

/// Nothing was asked.
pub const NO_RELATIONS: KnownRelations = KnownRelations {
    same: None,
    wider: None,
};

/// Returns whether the list `old` is related to `new`. Long lists are indexed, if there is memory.
fn is_list_related(
    alloc: Global,
    relation: ListRelation,
    old: &RowsOfTable<'_, MemberRow>,
    new: &RowsOfTable<'_, MemberRow>,
) -> bool
    ensures { result ≡ is_list_related relation (signed_atoms_of_view old.now) (signed_atoms_of_view new.now) }
{
    match relation {
        ListRelation::Same => is_same_flat_list(old, new),
        ListRelation::Wider => is_list_wider_by_index(alloc, old, new),
    }
}

/// Returns whether the users and the hosts of `old` are related to those of `new`.
fn are_lists_related(
    alloc: Global,
    relation: ListRelation,
    old: &FlatRow<'_>,
    new: &FlatRow<'_>,
) -> bool
    ensures { result ≡ (is_list_related relation (signed_atoms_of_view old.now.users) (signed_atoms_of_view new.now.users) && is_list_related relation (signed_atoms_of_view old.now.hosts) (signed_atoms_of_view new.now.hosts)) }
{
    is_list_related(alloc, relation, &old.users, &new.users)
        && is_list_related(alloc, relation, &old.hosts, &new.hosts)
}

/// Returns whether the users and the hosts of `old` are related to those of `new`. `known` keeps the last answer for each relation. If the
/// numbers of the lists are known, it gives the answer or takes it.
pub fn are_lists_related_or_known(
    alloc: Global,
    relation: ListRelation,
    known: &mut Option<RelatedListsAnswer>,
    old_lists: Option<&RowLists>,
    old: &FlatRow<'_>,
    new_lists: Option<&RowLists>,
    new: &FlatRow<'_>,
) -> bool
    ensures { (all_old all_new : NumberedLists) → AreListsKeptIfAny all_old old_lists.entry (flat_row_of_view old.now) → AreListsKeptIfAny all_new new_lists.entry (flat_row_of_view new.now)
        → IsRightRelatedListsAnswer relation all_old all_new known.old → IsRightRelatedListsAnswer relation all_old all_new known.new
        × (result ≡ (is_list_related relation (signed_atoms_of_view old.now.users) (signed_atoms_of_view new.now.users) && is_list_related relation (signed_atoms_of_view old.now.hosts) (signed_atoms_of_view new.now.hosts))) }
{
    let Some(olds) = old_lists else {
        return are_lists_related(alloc, relation, old, new);
    };
    let Some(news) = new_lists else {
        return are_lists_related(alloc, relation, old, new);
    };
    if let Some(answer) = *known
        && answer.old_spec == olds.spec
        && answer.old_group == olds.group
        && answer.new_spec == news.spec
        && answer.new_group == news.group
    {
        return answer.are_related;
    }
    let are_related = are_lists_related(alloc, relation, old, new);
    *known = Some(RelatedListsAnswer {
        old_spec: olds.spec,
        old_group: olds.group,
        new_spec: news.spec,
        new_group: news.group,
        are_related,
    });
    are_related
}
