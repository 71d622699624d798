//! The rows of a user on a host that may decide.

ghost use Rattle.std.specs.Prelude.{◌≡◌, ◌++◌, ◌∷◌, [], map, not, IfOk, OnOk, if◌then◌else◌};
ghost use Rattle.std.specs.Option.{is_some};
ghost use Rattle.sudoers_compare.specs.FlatSpecs.{placed_row_of_view, placed_rows_of_flat_specs};
ghost use Rattle.sudoers_review_users.specs.UserRows.{deciding_rows_of_user, rows_not_overruled};
ghost use Rattle.sudoers_review.specs.ChangedText.{marked_rows, rows_with_marks};

use crate::user_rows::list_own_rows;
use std::alloc::{AllocError, Global};
use sudoers_compare::{FlatSpec, Overruling, PlacedFlatRow, find_overrulings};
use sudoers_line_rows::Tables;
use sudoers_match::Who;
use sudoers_review::is_marked;

/// Returns whether no later row is found that covers a row, as `found` says.
fn may_decide(found: &Overruling) -> bool
    ensures { is_some found.now.by ≡ not result }
{
    found.by.is_none()
}

/// Appends `row` to `out`, if it is kept.
fn append_row_if_kept<'f>(
    out: &mut Vec<PlacedFlatRow<'f>>,
    row: PlacedFlatRow<'f>,
    is_kept: bool,
) -> Result<(), AllocError>
    ensures { OnOk result (out.new.items ≡ (if is_kept then out.old.items ++ row.entry ∷ [] else out.old.items)) }
{
    if is_kept {
        out.push(row)?;
    }
    Ok(())
}

/// Returns those of `rows` that no later one covers, as `found` says of each.
fn list_rows_not_overruled<'f>(
    alloc: Global,
    rows: &[PlacedFlatRow<'f>],
    found: &[Overruling],
) -> Result<Vec<PlacedFlatRow<'f>>, AllocError>
    ensures { IfOk result (λ left. map placed_row_of_view left.items ≡ rows_not_overruled (map placed_row_of_view rows.now) found.now) }
{
    let mut left = Vec::new(alloc);
    for number in 0..rows.len().min(found.len()) {
        append_row_if_kept(&mut left, rows[number], may_decide(&found[number]))?;
    }
    Ok(left)
}

/// Returns the rows of `specs`, whose lists are rows of `tables`, for the user and the host of `who`, without those that a later one is found to
/// cover. They have no users and no hosts.
///
/// # Errors
///
/// Memory ran out.
pub fn list_deciding_rows<'f>(
    alloc: Global,
    tables: &'f Tables,
    specs: &'f [FlatSpec<'f>],
    who: &Who,
) -> Result<Vec<PlacedFlatRow<'f>>, AllocError>
    ensures { IfOk result (λ rows. map placed_row_of_view rows.items ≡ deciding_rows_of_user who.now (placed_rows_of_flat_specs tables.now specs.now)) }
{
    let rows = list_own_rows(alloc, tables, specs, who)?;
    let found = find_overrulings(alloc, rows.as_slice())?;
    list_rows_not_overruled(alloc, rows.as_slice(), found.as_slice())
}

/// Returns those of `rows` that have a mark.
///
/// # Errors
///
/// Memory ran out.
pub fn list_marked_rows<'f>(
    alloc: Global,
    rows: &[PlacedFlatRow<'f>],
    marks: &[bool],
) -> Result<Vec<PlacedFlatRow<'f>>, AllocError>
    ensures { IfOk result (λ marked. map placed_row_of_view marked.items ≡ marked_rows (rows_with_marks marks.now (map placed_row_of_view rows.now))) }
{
    let mut marked = Vec::new(alloc);
    for number in 0..rows.len() {
        append_row_if_kept(&mut marked, rows[number], is_marked(marks, number))?;
    }
    Ok(marked)
}
