//! The rows of policies: which cover others, and in which two policies differ.

ghost use Rattle.std.specs.Prelude.{◌≡◌, map, IfOk};
ghost use Rattle.laws_compare.specs.Decided.{is_covering_row};
ghost use Rattle.sudoers_compare.specs.FlatRow.{flat_row_of_view};
ghost use Rattle.sudoers_compare.specs.FlatSpecs.{row_of_placed_view};
ghost use Rattle.sudoers_compare.specs.Marked.{unmarked_items, AreUnchangedRows};
ghost use Rattle.sudoers_compare.specs.Overruled.{overrulings_of_rows};

use std::alloc::{AllocError, Global};
use sudoers_compare::{
    CountedChanges, FlatRow, Overruling, PlacedFlatRow, RowMarks, covers_row, find_overrulings,
    mark_changed_rows,
};

/// Returns for each of `rows` whether a row behind it covers it, and which.
///
/// # Errors
///
/// Memory ran out.
pub fn overruling_rows_of_list(
    alloc: Global,
    rows: &[PlacedFlatRow<'_>],
) -> Result<Vec<Overruling>, AllocError>
    ensures { IfOk result (λ found. found.items ≡ overrulings_of_rows 0 (map row_of_placed_view rows.now)) }
{
    find_overrulings(alloc, rows)
}

/// Returns whether the row `wide` covers `narrow`.
pub fn is_row_covered(wide: &FlatRow<'_>, narrow: &FlatRow<'_>) -> bool
    ensures { result ≡ is_covering_row (flat_row_of_view wide.now) (flat_row_of_view narrow.now) }
{
    covers_row(wide, narrow)
}

/// Marks the rows in which `old` and `new` differ.
///
/// # Errors
///
/// Memory ran out.
pub fn marks_of_changes(
    alloc: Global,
    counted: CountedChanges,
    old: &[PlacedFlatRow<'_>],
    new: &[PlacedFlatRow<'_>],
) -> Result<RowMarks, AllocError>
    ensures same { IfOk result (λ marks. AreUnchangedRows counted (unmarked_items marks.gone.items (map row_of_placed_view old.now)) (unmarked_items marks.came.items (map row_of_placed_view new.now))) }
{
    mark_changed_rows(alloc, counted, old, new)
}
