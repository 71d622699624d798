//! Lines of the files of a policy that are put in, replaced and taken out, where that is allowed.

ghost use Rattle.std.specs.Prelude.{◌≡◌, ◌<◌, ℕ, true, length};
ghost use Rattle.std.specs.List.{AllByRecursion};
ghost use Rattle.sudoers_text.specs.Ended.{ends_in_lf};
ghost use Rattle.sudoers_tree.specs.Changed.{AreChangesInOrder, file_number_of_change};
ghost use Rattle.sudoers_tree.specs.ChangedFiles.{changes_of_file, AreApplicableChanges, AreFileNumbersOfChangesInOrder};
ghost use Rattle.sudoers_tree.specs.Files.{lines_of_numbered_file};
ghost use Rattle.sudoers_tree.specs.Policy.{texts_of_lines};

use crate::line_change_reading_and_checks::{
    are_all_texts_of_changes_ended_lines, check_change_and_find_least_place_for_next,
};
use std::alloc::AllocError;
use sudoers_text::ends_in_lf;
use sudoers_tree::{Items, LineChange, LoadFault, Policy};

/// What comes of changes: `None` if they are not made, since nothing shows that they can be made.
pub type Outcome = Option<Result<(), LoadFault>>;

/// Makes changes of the files of a policy at once.
pub fn change_lines_if_allowed(policy: &mut Policy, changes: &[LineChange]) -> Outcome {
    if are_changes_applicable(policy, changes) {
        Some(policy.changed(changes))
    } else {
        None
    }
}

/// Puts a line into a file.
///
/// # Errors
///
/// Memory ran out.
pub fn insert_line_if_allowed(
    policy: &mut Policy,
    file: usize,
    at: usize,
    line: &[u8],
) -> Result<Outcome, AllocError> {
    let text = Items::from_slice(policy.allocator(), line)?;
    let change = Items::list_of_one_item(policy.allocator(), LineChange::Put { file, at, text })?;
    if are_changes_applicable(policy, change.as_slice()) {
        Ok(Some(policy.with_line(file, at, line)))
    } else {
        Ok(None)
    }
}

/// Takes a line out of a file.
///
/// # Errors
///
/// Memory ran out.
pub fn take_out_line_if_allowed(
    policy: &mut Policy,
    file: usize,
    at: usize,
) -> Result<Outcome, AllocError> {
    let change = Items::list_of_one_item(policy.allocator(), LineChange::Take { file, at })?;
    if are_changes_applicable(policy, change.as_slice()) {
        Ok(Some(policy.without_line(file, at)))
    } else {
        Ok(None)
    }
}

/// Replaces a line of a file.
///
/// # Errors
///
/// Memory ran out.
pub fn replace_line_if_allowed(
    policy: &mut Policy,
    file: usize,
    at: usize,
    line: &[u8],
) -> Result<Outcome, AllocError> {
    let text = Items::from_slice(policy.allocator(), line)?;
    let change = Items::list_of_one_item(policy.allocator(), LineChange::Swap { file, at, text })?;
    if are_changes_applicable(policy, change.as_slice()) {
        Ok(Some(policy.replaced(file, at, line)))
    } else {
        Ok(None)
    }
}

/// Returns whether changes go by the files of a policy, are in order in each, and bring lines that end in LF, as all lines of the files do.
#[tactic(auto, using(crate::proofs::FileChanges::ended_changes_in_order_are_applicable))]
fn are_changes_applicable(policy: &Policy, changes: &[LineChange]) -> bool
    ensures { result ≡ true → AreApplicableChanges changes.now policy.now.files }
{
    are_changes_by_file(changes, policy.files())
        && are_changes_ascending_in_each_policy_file(policy, changes)
        && are_all_texts_of_changes_ended_lines(changes)
        && are_all_policy_lines_ended(policy)
}

/// Returns whether the numbers of the files of `changes` do not descend, and there are so many files.
fn are_changes_by_file(changes: &[LineChange], count: usize) -> bool
    ensures { result ≡ true → AreFileNumbersOfChangesInOrder 0 changes.now count }
{
    let mut file = 0;
    for change in changes {
        let next = number_of_file_in_line_change(change);
        if next < file || next >= count {
            return false;
        }
        file = next;
    }
    true
}

/// Returns the number of the file of a change.
fn number_of_file_in_line_change(change: &LineChange) -> usize
    ensures { result ≡ file_number_of_change change.now }
{
    match change {
        LineChange::Put { file, .. }
        | LineChange::Swap { file, .. }
        | LineChange::Take { file, .. } => *file,
    }
}

/// Returns whether the places of `changes` ascend in each file of `policy`.
fn are_changes_ascending_in_each_policy_file(policy: &Policy, changes: &[LineChange]) -> bool
    ensures { result ≡ true → (f : ℕ) → f < length policy.now.files → AreChangesInOrder 0 (changes_of_file f changes.now) (length (lines_of_numbered_file policy.now.files f)) }
{
    for file in 0..policy.files() {
        if !are_changes_of_numbered_file_ascending(changes, file, policy.len(file)) {
            return false;
        }
    }
    true
}

/// Returns whether the places of those of `changes` ascend that are of the file with the number `wanted`, among its `count` lines.
fn are_changes_of_numbered_file_ascending(
    changes: &[LineChange],
    wanted: usize,
    count: usize,
) -> bool
    ensures { result ≡ true → AreChangesInOrder 0 (changes_of_file wanted changes.now) count }
{
    let mut next = 0;
    for change in changes {
        if number_of_file_in_line_change(change) != wanted {
            continue;
        }
        match check_change_and_find_least_place_for_next(change, next, count) {
            Some(place) => next = place,
            None => return false,
        }
    }
    next <= count
}

/// Returns whether each line of each file of `policy` ends in LF.
fn are_all_policy_lines_ended(policy: &Policy) -> bool
    ensures { result ≡ true → (f : ℕ) → f < length policy.now.files → AllByRecursion (λ line. ends_in_lf line ≡ true) (texts_of_lines (lines_of_numbered_file policy.now.files f)) }
{
    for file in 0..policy.files() {
        if !are_file_lines_ended(policy, file) {
            return false;
        }
    }
    true
}

/// Returns whether each line of the file with the number `file` ends in LF.
fn are_file_lines_ended(policy: &Policy, file: usize) -> bool
    ensures { result ≡ true → AllByRecursion (λ line. ends_in_lf line ≡ true) (texts_of_lines (lines_of_numbered_file policy.now.files file)) }
{
    for number in 0..policy.len(file) {
        match policy.parsed_line(file, number) {
            Some(line) if ends_in_lf(line.text) => {}
            _ => return false,
        }
    }
    true
}
