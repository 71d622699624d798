//! The lines of a policy after changes, as stretches of its lines and texts between them.

ghost use Rattle.std.specs.Prelude.{◌≡◌, ◌≤◌, ◌<◌, ◌^◌, ◌-◌, ◌++◌, length, map, take, drop, option_to_list, IfOk, OnOk};
ghost use Rattle.std.specs.List.{All};
ghost use Rattle.sudoers_line_rows.specs.declared.rows.Tables.{Tables as TablesOf};
ghost use Rattle.sudoers_tree.specs.Changed.{lines_after_changes, line_number_of_change, text_of_change, AreChangesInOrder};
ghost use Rattle.sudoers_tree.specs.Line.{line_of_row};
ghost use Rattle.sudoers_tree.specs.Policy.{texts_of_lines};
ghost use Rattle.sudoers_tree.specs.internal.Pieces.{line_texts_of_pieces, AreKeptPieces, IsKeptRow};

use crate::line::LineRow;
use crate::line_change::LineChange;
use std::alloc::{AllocError, Global};

/// Lines that stay, or a line that comes.
#[derive(Clone, Copy)]
pub enum OldOrNewLines<'a> {
    Old(&'a [LineRow]),
    New(&'a [u8]),
}

/// Returns the lines `rows` after the changes `changes`.
///
/// # Errors
///
/// Memory ran out.
pub fn pieces_of_changed_lines<'a>(
    alloc: Global,
    rows: &'a [LineRow],
    changes: &'a [LineChange],
) -> Result<Vec<OldOrNewLines<'a>>, AllocError>
    requires { AreChangesInOrder 0 changes.now (length rows.now) }
    ensures lines { IfOk result (λ pieces. (tables : TablesOf)
        → line_texts_of_pieces tables pieces.items ≡ lines_after_changes changes.now (texts_of_lines (map (line_of_row tables) rows.now))) }
    ensures kept { IfOk result (λ pieces. (tables : TablesOf) → All (IsKeptRow tables) rows.now → AreKeptPieces tables pieces.items) }
{
    let mut pieces = Vec::with_capacity(alloc, changes.len().saturating_mul(2).saturating_add(1))?;
    let count = row_count(rows);
    let mut from = 0;
    for change in changes {
        append_pieces_of_change(rows, from, change, &mut pieces)?;
        from = change.min_next_line_number();
    }
    pieces.push(OldOrNewLines::Old(slice_of_rows(rows, from, count)))?;
    Ok(pieces)
}

/// Appends the rows from the number `from` up to the place of the change `change`, and the text that it brings, to `pieces`.
fn append_pieces_of_change<'a>(
    rows: &'a [LineRow],
    from: usize,
    change: &'a LineChange,
    pieces: &mut Vec<OldOrNewLines<'a>>,
) -> Result<(), AllocError>
    requires order { from ≤ line_number_of_change change.now }
    requires within { line_number_of_change change.now ≤ length rows.now }
    ensures kept { OnOk result ((tables : TablesOf) → All (IsKeptRow tables) rows.now → AreKeptPieces tables pieces.old.items → AreKeptPieces tables pieces.new.items) }
    ensures lines { OnOk result ((tables : TablesOf) → line_texts_of_pieces tables pieces.new.items
        ≡ line_texts_of_pieces tables pieces.old.items ++ (texts_of_lines (map (line_of_row tables) (take (line_number_of_change change.now - from) (drop from rows.now)))
        ++ option_to_list (text_of_change change.now))) }
{
    pieces.push(OldOrNewLines::Old(slice_of_rows(rows, from, change.changed_line_number())))?;
    if let Some(text) = change.text() {
        pieces.push(OldOrNewLines::New(text))?;
    }
    Ok(())
}

/// Returns how many rows there are.
fn row_count(rows: &[LineRow]) -> usize
    ensures is { result ≡ length rows.now }
    ensures fits { result < 2 ^ 63 }
{
    rows.len()
}

/// Returns the rows from the number `from` up to, but not with, the number `to`.
fn slice_of_rows(rows: &[LineRow], from: usize, to: usize) -> &[LineRow]
    requires order { from ≤ to }
    requires within { to ≤ length rows.now }
    ensures { result.now ≡ take (to - from) (drop from rows.now) }
{
    &rows[from..to]
}
