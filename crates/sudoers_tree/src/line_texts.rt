//! The texts of lines.

ghost use Rattle.std.specs.Prelude.{◌≡◌, ◌++◌, length, map, take, IfOk, OnOk};
ghost use Rattle.sudoers_text.specs.Line.{join};
ghost use Rattle.sudoers_tree.specs.Line.{line_of_row};
ghost use Rattle.sudoers_tree.specs.Policy.{texts_of_lines};
ghost use Rattle.sudoers_tree.specs.internal.Pieces.{line_texts_of_pieces, line_texts_of_piece};

use crate::line::LineRow;
use crate::old_and_new_lines::OldOrNewLines;
use std::alloc::{AllocError, Global};
use sudoers_line_rows::Tables;

/// Returns the text of the lines `pieces`.
///
/// # Errors
///
/// Memory ran out.
pub fn text_of_pieces(
    alloc: Global,
    tables: &Tables,
    pieces: &[OldOrNewLines<'_>],
) -> Result<Vec<u8>, AllocError>
    ensures { IfOk result (λ text. text.items ≡ join (line_texts_of_pieces tables.now pieces.now)) }
{
    let mut text = Vec::new(alloc);
    for piece in pieces {
        append_text_of_piece(tables, piece, &mut text)?;
    }
    Ok(text)
}

/// Appends the text of the lines `piece` to `text`.
fn append_text_of_piece(
    tables: &Tables,
    piece: &OldOrNewLines<'_>,
    text: &mut Vec<u8>,
) -> Result<(), AllocError>
    ensures { OnOk result (text.new.items ≡ text.old.items ++ join (line_texts_of_piece tables.now piece.now)) }
{
    match piece {
        OldOrNewLines::Old(rows) => append_texts_of_rows(tables, rows, text),
        OldOrNewLines::New(line) => text.extend_from_slice(line),
    }
}

/// Appends the texts of the lines `rows` to `text`.
///
/// # Errors
///
/// Want of memory alone. `text` then still begins with the bytes that it had.
#[tactic(auto, using(crate::proofs::WholeLines::text_keeps_itself_in_front, crate::proofs::WholeLines::appended_text_keeps_old_text_in_front))]
pub fn append_texts_of_rows(
    tables: &Tables,
    rows: &[LineRow],
    text: &mut Vec<u8>,
) -> Result<(), AllocError>
    ensures appended { OnOk result (text.new.items ≡ text.old.items ++ join (texts_of_lines (map (line_of_row tables.now) rows.now))) }
    ensures front { take (length text.old.items) text.new.items ≡ text.old.items }
{
    for row in rows {
        text.extend_from_slice(tables.bytes_of_text_row(row.text))?;
    }
    Ok(())
}
