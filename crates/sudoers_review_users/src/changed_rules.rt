//! The rows in which two policies differ.

ghost use Rattle.std.specs.Prelude.{◌≡◌, ◌&&◌, IfOk, false, map};
ghost use Rattle.laws_compare.specs.Effective.{is_flat_row_for_user_on_host};
ghost use Rattle.sudoers_compare.specs.FlatRow.{flat_row_of_view};
ghost use Rattle.sudoers_compare.specs.FlatSpecs.{row_of_placed_view};
ghost use Rattle.sudoers_review_users.specs.Ready.{AreChangedRules, IsReadyComparison};
ghost use Rattle.sudoers_review_users.specs.Untouched.{has_marked_row_for_user};

use crate::compared_policies::ComparedPolicies;
use crate::flat_verdicts::is_allowed_by_flat_list;
use std::alloc::{AllocError, Global};
use sudoers_compare::{CountedChanges, FlatRow, PlacedFlatRow, RowMarks, mark_changed_rows};
use sudoers_match::{HostListKind, UserListKind, Who};
use sudoers_review::is_marked;

/// The rows of two policies, and which of them differ.
#[derive(Drop)]
pub struct ChangedRules<'f> {
    pub old_rows: Vec<PlacedFlatRow<'f>>,
    pub new_rows: Vec<PlacedFlatRow<'f>>,
    pub marks: RowMarks,
}

/// Returns whether `row` is for the user and the host of `who`.
pub fn is_row_of_user(row: &FlatRow<'_>, who: &Who) -> bool
    ensures { result ≡ is_flat_row_for_user_on_host who.now (flat_row_of_view row.now) }
{
    is_allowed_by_flat_list::<UserListKind>(&row.users, &who.user)
        && is_allowed_by_flat_list::<HostListKind>(&row.hosts, who)
}

/// Returns whether `row` has the mark `mark`, and is for the user and the host of `who`.
fn is_marked_row_of_user(mark: bool, row: &FlatRow<'_>, who: &Who) -> bool
    ensures { result ≡ (mark && is_flat_row_for_user_on_host who.now (flat_row_of_view row.now)) }
{
    mark && is_row_of_user(row, who)
}

/// Returns whether one of `rows` that have a mark is for the user and the host of `who`.
fn has_marked_row_of_user(rows: &[PlacedFlatRow<'_>], marks: &[bool], who: &Who) -> bool
    ensures { result ≡ has_marked_row_for_user who.now marks.now (map row_of_placed_view rows.now) }
{
    for number in 0..rows.len().min(marks.len()) {
        if is_marked_row_of_user(is_marked(marks, number), &rows[number].row, who) {
            return true;
        }
    }
    false
}

impl<'f> ChangedRules<'f> {
    /// Returns the rows in which the policies of `compared` differ.
    ///
    /// # Errors
    ///
    /// Memory ran out.
    pub fn new(
        alloc: Global,
        compared: &'f ComparedPolicies<'_>,
    ) -> Result<ChangedRules<'f>, AllocError>
        requires { IsReadyComparison compared.now }
        ensures { IfOk result (AreChangedRules compared.now) }
    {
        let old_rows = compared.old.list_rows(alloc)?;
        let new_rows = compared.new.list_rows(alloc)?;
        let (olds, news) = (old_rows.as_slice(), new_rows.as_slice());
        let marks = mark_changed_rows(alloc, CountedChanges::All, olds, news)?;
        Ok(ChangedRules {
            old_rows,
            new_rows,
            marks,
        })
    }

    /// Returns whether one of these rows is for the user and the host of `who`.
    pub fn has_row_of_user(&self, who: &Who) -> bool
        ensures old { result ≡ false → has_marked_row_for_user who.now self.now.marks.gone.items (map row_of_placed_view self.now.old_rows.items) ≡ false }
        ensures new { result ≡ false → has_marked_row_for_user who.now self.now.marks.came.items (map row_of_placed_view self.now.new_rows.items) ≡ false }
    {
        has_marked_row_of_user(self.old_rows.as_slice(), self.marks.gone.as_slice(), who)
            || has_marked_row_of_user(self.new_rows.as_slice(), self.marks.came.as_slice(), who)
    }
}
