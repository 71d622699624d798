//! The next row of the same command, and the next row of `ALL`, for each row.

ghost use Rattle.std.specs.Prelude.{◌≡◌, map, IfOk, Some, if◌then◌else◌};
ghost use Rattle.sudoers_line_rows.specs.View.{atom_of_view};
ghost use Rattle.sudoers_compare.specs.FlatRow.{flat_row_of_view};
ghost use Rattle.sudoers_compare.specs.FlatSpecs.{row_of_placed_view};
ghost use Rattle.sudoers_compare.specs.NextRows.{next_numbers_of_all, next_numbers_of_same_command};
ghost use Rattle.sudoers_compare.specs.Overruled.{command_key, is_row_of_all};

use crate::command_atoms::is_all_atom;
use crate::flat_row::FlatRow;
use crate::flat_rows::PlacedFlatRow;
use indexmap::IndexMap;
use std::alloc::{AllocError, Global};
use sudoers_line_rows::BorrowedAtom;

/// Returns the command `atom`, whatever its arguments, as bytes.
fn key_of_command<'a>(atom: &BorrowedAtom<'a>) -> &'a [u8]
    ensures { result.now ≡ command_key (atom_of_view atom.now) }
{
    match *atom {
        BorrowedAtom::Path { path, args: _ } => path,
        BorrowedAtom::Sudoedit { args: _ } => b"sudoedit",
        BorrowedAtom::Alias(name) => name,
        BorrowedAtom::Listing => b"list",
        BorrowedAtom::All => b"ALL",
        _ => b"",
    }
}

/// Returns for each row the number of the next row of the same command.
///
/// # Errors
///
/// Memory ran out.
pub fn list_next_rows_of_same_command(
    alloc: Global,
    rows: &[PlacedFlatRow<'_>],
) -> Result<Vec<Option<usize>>, AllocError>
    ensures { IfOk result (λ next. next.items ≡ next_numbers_of_same_command (map row_of_placed_view rows.now)) }
{
    let mut next = Vec::new(alloc);
    let mut nearest: IndexMap<Vec<u8>, usize> = IndexMap::new(alloc);
    let mut number = rows.len();
    while number > 0 {
        number -= 1;
        let key = Vec::from_slice(alloc, key_of_command(&rows[number].row.member.atom))?;
        let behind = nearest.insert(key, number)?;
        next.push(behind)?;
    }
    next.reverse();
    Ok(next)
}

/// Returns the number of the first row of `ALL` from `row` on. `behind` is the first behind it.
fn first_row_of_all(row: &FlatRow<'_>, number: usize, behind: Option<usize>) -> Option<usize>
    ensures { result ≡ (if is_row_of_all (flat_row_of_view row.now) then Some number else behind) }
{
    if is_all_atom(&row.member.atom) {
        Some(number)
    } else {
        behind
    }
}

/// Returns for each row the number of the next row of `ALL`.
///
/// # Errors
///
/// Memory ran out.
pub fn list_next_rows_of_all(
    alloc: Global,
    rows: &[PlacedFlatRow<'_>],
) -> Result<Vec<Option<usize>>, AllocError>
    ensures { IfOk result (λ next. next.items ≡ next_numbers_of_all (map row_of_placed_view rows.now)) }
{
    let mut next = Vec::new(alloc);
    let mut nearest = None;
    let mut number = rows.len();
    while number > 0 {
        number -= 1;
        next.push(nearest)?;
        nearest = first_row_of_all(&rows[number].row, number, nearest);
    }
    next.reverse();
    Ok(next)
}
