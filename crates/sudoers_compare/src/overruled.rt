//! Rows that a later row covers.

ghost use Rattle.std.specs.Prelude.{◌≡◌, ℕ, ◌+◌, Bool, drop, map, slice_get, Option, IfOk, Some};
ghost use Rattle.laws_compare.specs.Content.{FlatPrivilegeRow};
ghost use Rattle.sudoers_compare.specs.FlatRow.{flat_row_of_view};
ghost use Rattle.sudoers_compare.specs.KnownAnswers.{AreRightAnswers};
ghost use Rattle.sudoers_compare.specs.RowLists.{AreListsKept, AreListsKeptIfAny, NumberedLists};
ghost use Rattle.sudoers_compare.specs.FlatSpecs.{placed_row_of_view, placed_rows_of_flat_specs, row_of_placed_view};
ghost use Rattle.sudoers_compare.specs.NextRows.{first_passing_number, next_numbers_of_all, next_numbers_of_same_command, overruling_among_passing, overruling_of_two, AreNextNumbers};
ghost use Rattle.sudoers_compare.specs.Overruled.{overruling_of_row, overrulings_of_rows};

use crate::flat_row::FlatRow;
use crate::flat_rows::PlacedFlatRow;
use crate::known_answers::{ListAnswers, NO_ANSWERS, covers_row_by_lists};
use crate::next_rows::{list_next_rows_of_all, list_next_rows_of_same_command};
use crate::row_lists::{RowLists, RowsOfSpecs, RowsWithLists, find_lists_of_row, list_row_lists};
use std::alloc::{AllocError, Global};

/// How many rows of the same command, and how many of `ALL`, are compared with a row.
const COMPARED_ROW_LIMIT: usize = 64;

/// What is found of a row.
#[derive(Clone, Copy, Debug, PartialEq, Eq)]
pub struct Overruling {
    /// The number of a row behind it that covers it, from 0.
    pub by: Option<usize>,
    /// No row was found that covers it, and not all rows behind it were compared with it.
    pub are_rows_left_out: bool,
}

/// Returns the number of the row that is next to the row with the number `number`.
fn find_next_row(next: &[Option<usize>], number: usize) -> Option<usize>
    ensures { (is : Option ℕ) → slice_get next.now number ≡ Some is → result ≡ is }
{
    match next.get(number) {
        Some(next) => *next,
        None => None,
    }
}

/// Returns what is found of `row` among `most` of `rows`: the row with the number `start`, then the rows that are next to each other.
fn find_on_chain(
    alloc: Global,
    rows: RowsWithLists<'_, '_, '_>,
    answers: &mut [ListAnswers],
    next: &[Option<usize>],
    row: &FlatRow<'_>,
    lists: Option<&RowLists>,
    start: Option<usize>,
    most: usize,
) -> Overruling
    ensures { (all : NumberedLists) → AreListsKept all rows.entry.lists.now (map row_of_placed_view rows.entry.rows.now) → AreListsKeptIfAny all lists.entry (flat_row_of_view row.now) → AreRightAnswers all answers.old
        → AreRightAnswers all answers.new
        × ((passes : FlatPrivilegeRow → Bool) (n : ℕ) → AreNextNumbers passes (map row_of_placed_view rows.entry.rows.now) next.now
        → start ≡ first_passing_number passes n (drop n (map row_of_placed_view rows.entry.rows.now))
        → result ≡ overruling_among_passing passes (flat_row_of_view row.now) most n (drop n (map row_of_placed_view rows.entry.rows.now))) }
{
    let stays = Overruling {
        by: None,
        are_rows_left_out: false,
    };
    let mut reached = start;
    let mut left = most;
    while let Some(number) = reached {
        if left == 0 {
            return Overruling {
                by: None,
                are_rows_left_out: true,
            };
        }
        let Some(later) = rows.rows.get(number) else {
            return stays;
        };
        if covers_row_by_lists(
            alloc,
            answers,
            find_lists_of_row(rows.lists, number),
            &later.row,
            lists,
            row,
        ) {
            return Overruling {
                by: Some(number),
                are_rows_left_out: false,
            };
        }
        reached = find_next_row(next, number);
        left -= 1;
    }
    stays
}

/// Returns what is found of a row, from what is found in two searches.
fn overruling_of_two(first: Overruling, second: Overruling) -> Overruling
    ensures { result ≡ overruling_of_two first second }
{
    let by = first.by.or(second.by);
    Overruling {
        by,
        are_rows_left_out: by.is_none() && (first.are_rows_left_out || second.are_rows_left_out),
    }
}

/// Returns what is found of `row`, the row with the number `number`.
fn find_overruling(
    alloc: Global,
    rows: RowsWithLists<'_, '_, '_>,
    answers: &mut [ListAnswers],
    next_same: &[Option<usize>],
    next_all: &[Option<usize>],
    number: usize,
    row: &FlatRow<'_>,
) -> Overruling
    ensures { (all : NumberedLists) → AreListsKept all rows.entry.lists.now (map row_of_placed_view rows.entry.rows.now) → AreRightAnswers all answers.old
        → next_same.now ≡ next_numbers_of_same_command (map row_of_placed_view rows.entry.rows.now) → next_all.now ≡ next_numbers_of_all (map row_of_placed_view rows.entry.rows.now)
        → slice_get (map row_of_placed_view rows.entry.rows.now) number ≡ Some (flat_row_of_view row.now)
        → AreRightAnswers all answers.new × (result ≡ overruling_of_row (flat_row_of_view row.now) (number + 1) (drop (number + 1) (map row_of_placed_view rows.entry.rows.now))) }
{
    let lists = find_lists_of_row(rows.lists, number);
    let same = find_on_chain(
        alloc,
        rows,
        answers,
        next_same,
        row,
        lists,
        find_next_row(next_same, number),
        COMPARED_ROW_LIMIT,
    );
    let of_all = find_on_chain(
        alloc,
        rows,
        answers,
        next_all,
        row,
        lists,
        find_next_row(next_all, number),
        COMPARED_ROW_LIMIT,
    );
    overruling_of_two(same, of_all)
}

/// Returns what is found of each row.
fn find_overrulings_by_lists(
    alloc: Global,
    rows: RowsWithLists<'_, '_, '_>,
    answers: &mut [ListAnswers],
) -> Result<Vec<Overruling>, AllocError>
    ensures { (all : NumberedLists) → AreListsKept all rows.entry.lists.now (map row_of_placed_view rows.entry.rows.now) → AreRightAnswers all answers.old
        → IfOk result (λ found. found.items ≡ overrulings_of_rows 0 (map row_of_placed_view rows.entry.rows.now)) }
{
    let next_same = list_next_rows_of_same_command(alloc, rows.rows)?;
    let next_all = list_next_rows_of_all(alloc, rows.rows)?;
    let same = next_same.as_slice();
    let of_all = next_all.as_slice();
    let mut found = Vec::new(alloc);
    for number in 0..rows.rows.len() {
        found.push(find_overruling(
            alloc,
            rows,
            answers,
            same,
            of_all,
            number,
            &rows.rows[number].row,
        ))?;
    }
    Ok(found)
}

/// Returns for each of `rows` whether a row behind it covers it, and which.
///
/// # Errors
///
/// Memory ran out.
pub fn find_overrulings(
    alloc: Global,
    rows: &[PlacedFlatRow<'_>],
) -> Result<Vec<Overruling>, AllocError>
    ensures { IfOk result (λ found. found.items ≡ overrulings_of_rows 0 (map row_of_placed_view rows.now)) }
{
    find_overrulings_by_lists(alloc, RowsWithLists { rows, lists: &[] }, &mut [])
}

/// Returns the same as `find_overrulings`. Lists that several rows share are compared once.
///
/// # Errors
///
/// Memory ran out.
pub fn find_overrulings_of_specs(
    alloc: Global,
    given: RowsOfSpecs<'_, '_>,
) -> Result<Vec<Overruling>, AllocError>
    requires { map placed_row_of_view given.rows.now ≡ placed_rows_of_flat_specs given.tables.now given.specs.now }
    ensures { IfOk result (λ found. found.items ≡ overrulings_of_rows 0 (map row_of_placed_view given.entry.rows.now)) }
{
    let lists = list_row_lists(alloc, given.tables, given.specs)?;
    let mut answers = Vec::from_elem(alloc, NO_ANSWERS, given.specs.len())?;
    let rows = RowsWithLists {
        rows: given.rows,
        lists: lists.as_slice(),
    };
    find_overrulings_by_lists(alloc, rows, answers.as_mut_slice())
}
