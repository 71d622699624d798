//! Rows that are narrowed, among those that are marked. No proof relies on which are found.

use crate::flat_row::{FlatRow, FlatRunasView};
use crate::marks::{RowMarks, find_unmarked};
use crate::related_lists::{KnownRelations, NO_RELATIONS};
use crate::row_lists::{RowsWithLists, find_lists_of_row};
use crate::same_row::CountedChanges;
use crate::unchanged_rows::is_unchanged_row;
use std::alloc::Global;
use sudoers_line_rows::{MemberRow, RowsOfTable};

/// How many pairs of members are compared at most to find the rows that are narrowed.
const MOST_COMPARED: usize = 16_777_216;

/// How many rows that went are looked at for a row that came.
const MOST_SKIPPED: usize = 16;

/// Returns how many members the list `list` has, if it is there.
fn count_members(list: &Option<RowsOfTable<'_, MemberRow>>) -> usize {
    match list {
        Some(members) => members.rows.len(),
        None => 0,
    }
}

/// Returns how many pairs of members the Runas_Specs `old` and `new` have.
fn count_runas_pairs(old: &Option<FlatRunasView<'_>>, new: &Option<FlatRunasView<'_>>) -> usize {
    match (old, new) {
        (Some(old), Some(new)) => {
            let users = count_members(&old.users).saturating_mul(count_members(&new.users));
            let groups = count_members(&old.groups).saturating_mul(count_members(&new.groups));
            users.saturating_add(groups)
        }
        _ => 0,
    }
}

/// Returns how many pairs of members have to be compared to decide whether `new` is `old`, narrowed.
fn count_pairs(old: &FlatRow<'_>, new: &FlatRow<'_>) -> usize {
    let users = old.users.rows.len().saturating_mul(new.users.rows.len());
    let hosts = old.hosts.rows.len().saturating_mul(new.hosts.rows.len());
    users
        .saturating_add(hosts)
        .saturating_add(count_runas_pairs(&old.runas, &new.runas))
        .saturating_add(1)
}

/// Returns whether the row with the number `number` is there and marked.
fn is_marked(marks: &[bool], number: usize) -> bool {
    matches!(marks.get(number), Some(true))
}

/// Removes the mark of the row with the number `number`.
fn remove_mark(marks: &mut Vec<bool>, number: usize) {
    if let Some(mark) = marks.get_mut(number) {
        *mark = false;
    }
}

/// What was compared so far.
#[derive(Clone, Copy)]
struct Comparisons {
    known: KnownRelations,
    /// How many pairs of members may still be compared.
    left: usize,
}

/// Returns the number of the first of the rows `old`, from number `from` on, that the row of `new` with the number `at` narrows. They went one
/// behind another, as `gone` says.
fn find_narrowed_row(
    alloc: Global,
    old: RowsWithLists<'_, '_, '_>,
    gone: &[bool],
    from: usize,
    new: RowsWithLists<'_, '_, '_>,
    at: usize,
    comparisons: &mut Comparisons,
) -> Option<usize> {
    let row = &new.rows.get(at)?.row;
    for skipped in 0..MOST_SKIPPED {
        let number = from.saturating_add(skipped);
        let was = &old.rows.get(number)?.row;
        if !is_marked(gone, number) {
            return None;
        }
        comparisons.left = comparisons.left.checked_sub(count_pairs(was, row))?;
        if is_unchanged_row(
            alloc,
            CountedChanges::Granting,
            &mut comparisons.known,
            find_lists_of_row(old.lists, number),
            was,
            find_lists_of_row(new.lists, at),
            row,
        ) {
            return Some(number);
        }
    }
    None
}

/// Removes the marks of each row of `new` that came, and of a row of `old` that went in its place, where that one is narrowed. Rows are taken in
/// order. No more than `MOST_COMPARED` pairs of members are compared.
pub fn remove_marks_of_narrowed_rows(
    alloc: Global,
    marks: &mut RowMarks,
    old: RowsWithLists<'_, '_, '_>,
    new: RowsWithLists<'_, '_, '_>,
) {
    let mut comparisons = Comparisons {
        known: NO_RELATIONS,
        left: MOST_COMPARED,
    };
    let mut reached = 0;
    for number in 0..new.rows.len() {
        let gone = marks.gone.as_slice();
        if !is_marked(marks.came.as_slice(), number) {
            reached = find_unmarked(gone, reached).saturating_add(1);
        } else if let Some(narrowed) = find_narrowed_row(
            alloc,
            old,
            gone,
            reached,
            new,
            number,
            &mut comparisons,
        ) {
            remove_mark(&mut marks.gone, narrowed);
            remove_mark(&mut marks.came, number);
            reached = narrowed.saturating_add(1);
        }
    }
}
