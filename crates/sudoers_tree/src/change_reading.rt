//! Reading the lines that come with changes.

ghost use Rattle.std.specs.Prelude.{◌≡◌, ◌≤◌, [], ◌+◌, length, map, IfOk, IfSome, MatchResult, Ok, Err, false};
ghost use Rattle.std.specs.List.{All, AllByRecursion};
ghost use Rattle.sudoers_text.specs.Cut.{cut_outcome_of_text, IsOutcomeUnlessNoMemory};
ghost use Rattle.sudoers_text.specs.Ended.{has_inner_line_without_lf};
ghost use Rattle.sudoers_text.specs.Fault.{text_limit};
ghost use Rattle.sudoers_text.specs.Line.{join};
ghost use Rattle.sudoers_text.specs.Whole.{IsLogicalLine};
ghost use Rattle.sudoers_line_rows.specs.Tables.{TablesHaveGrown};
ghost use Rattle.sudoers_tree.specs.Files.{lines_parsed_until_fault};
ghost use Rattle.sudoers_tree.specs.Line.{line_of_row};
ghost use Rattle.sudoers_tree.specs.Load.{parsed_file_of_cut_or_fault};
ghost use Rattle.sudoers_tree.specs.Policy.{texts_of_lines};
ghost use Rattle.sudoers_tree.specs.internal.Files.{IsFileReadOutcome};
ghost use Rattle.sudoers_tree.specs.internal.Pieces.{line_texts_of_pieces, line_texts_of_piece, AreKeptPieces, IsKeptRow, HasKeptRows, IsSizeWithinLimits, IsSizeWithinLimitsAfter, ContinuesReadingLines};
ghost use Rattle.sudoers_tree.specs.internal.Tree.{IsLastingLineRow};

use crate::fault::SyntaxFault;
use crate::files::ParsedFileRows;
use crate::line::LineRow;
use crate::line_texts::text_of_pieces;
use crate::load_fault::LoadFault;
use crate::named_files::load_fault_of_text_fault;
use crate::old_and_new_lines::OldOrNewLines;
use crate::reading::read_and_append_line;
use std::alloc::{AllocError, Global};
use sudoers_grammar::Items;
use sudoers_line_rows::Tables;
use sudoers_text::{LINE_LIMIT, TEXT_LIMIT, TextFault, cut};

/// Returns how many lines the pieces `pieces` have.
fn line_count_of_pieces(pieces: &[OldOrNewLines<'_>]) -> usize {
    let mut count: usize = 0;
    for piece in pieces {
        let more = match piece {
            OldOrNewLines::Old(rows) => rows.len(),
            OldOrNewLines::New(_) => 1,
        };
        count = count.saturating_add(more);
    }
    count
}

/// Returns how many bytes the lines `pieces` are.
///
/// # Errors
///
/// The fault of the cut of the text that they are, or want of memory.
fn checked_size_of_pieces(
    alloc: Global,
    tables: &Tables,
    pieces: &[OldOrNewLines<'_>],
) -> Result<usize, TextFault>
    requires kept { AreKeptPieces tables.now pieces.now }
    requires whole { AllByRecursion IsLogicalLine (line_texts_of_pieces tables.now pieces.now) }
    requires ended { has_inner_line_without_lf (line_texts_of_pieces tables.now pieces.now) ≡ false }
    ensures { MatchResult result
        (λ size. (cut_outcome_of_text (join (line_texts_of_pieces tables.now pieces.now)) ≡ Ok (line_texts_of_pieces tables.now pieces.now)) × (size ≡ length (join (line_texts_of_pieces tables.now pieces.now))))
        (λ fault. IsOutcomeUnlessNoMemory (Err fault) (cut_outcome_of_text (join (line_texts_of_pieces tables.now pieces.now)))) }
{
    if let Some(size) = size_of_pieces_within_limits(tables, pieces) {
        return Ok(size);
    }
    // The lines are past a limit, and their cut has the fault.
    let text = text_of_pieces(alloc, tables, pieces)?;
    let bytes = text.as_slice();
    let _ = cut(alloc, bytes)?;
    Ok(bytes.len())
}

/// Returns how many bytes the lines `pieces` are. Returns nothing if they or one of them are past the limit.
fn size_of_pieces_within_limits(tables: &Tables, pieces: &[OldOrNewLines<'_>]) -> Option<usize>
    requires { AreKeptPieces tables.now pieces.now }
    ensures { IfSome result (λ size. IsSizeWithinLimits size (line_texts_of_pieces tables.now pieces.now)) }
{
    let mut size = 0;
    for piece in pieces {
        size = add_size_of_piece(tables, piece, size)?;
    }
    Some(size)
}

/// Returns how many bytes the lines `piece` after `size` bytes come to. Returns nothing if they or one of them are past the limit.
fn add_size_of_piece(tables: &Tables, piece: &OldOrNewLines<'_>, size: usize) -> Option<usize>
    requires fits { size ≤ text_limit }
    requires kept { HasKeptRows tables.now piece.now }
    ensures { IfSome result (λ all. IsSizeWithinLimitsAfter size all (line_texts_of_piece tables.now piece.now)) }
{
    match piece {
        OldOrNewLines::Old(rows) => add_size_of_rows(tables, rows, size),
        OldOrNewLines::New(text) => {
            if text.len() > LINE_LIMIT {
                return None;
            }
            add_within_text_limit(size, text.len())
        }
    }
}

/// Returns how many bytes the lines of the rows `rows` after `size` bytes come to. Returns nothing if that is past the limit.
fn add_size_of_rows(tables: &Tables, rows: &[LineRow], size: usize) -> Option<usize>
    requires fits { size ≤ text_limit }
    requires kept { All (IsKeptRow tables.now) rows.now }
    ensures { IfSome result (λ all. IsSizeWithinLimitsAfter size all (texts_of_lines (map (line_of_row tables.now) rows.now))) }
{
    let mut all = size;
    for row in rows {
        all = add_within_text_limit(all, tables.bytes_of_text_row(row.text).len())?;
    }
    Some(all)
}

/// Returns the sum of `size` and `more`. Returns nothing if it is past the limit of a text.
fn add_within_text_limit(size: usize, more: usize) -> Option<usize>
    requires { size ≤ text_limit }
    ensures { IfSome result (λ all. (all ≡ size + more) × (all ≤ text_limit)) }
{
    if more > TEXT_LIMIT - size {
        return None;
    }
    Some(size + more)
}

/// Reads the new lines of `pieces` into `tables`, up to the first that does not parse, and appends the rows of all lines before it to
/// `rows`, which has none. Returns the fault of the line that does not parse, if there is one.
fn read_lines_of_pieces(
    alloc: Global,
    tables: &mut Tables,
    pieces: &[OldOrNewLines<'_>],
    rows: &mut Vec<LineRow>,
) -> Result<Option<SyntaxFault>, AllocError>
    requires none { rows.old.items ≡ [] }
    requires kept { AreKeptPieces tables.old pieces.now }
    requires fits { length (join (line_texts_of_pieces tables.old pieces.now)) ≤ text_limit }
    ensures grown { TablesHaveGrown tables.old tables.new }
    ensures stand { IfOk result (λ _. All (IsLastingLineRow tables.new) rows.new.items) }
    ensures read { IfOk result (λ fault. (map (line_of_row tables.new) rows.new.items, fault) ≡ lines_parsed_until_fault [] (line_texts_of_pieces tables.old pieces.now)) }
{
    for piece in pieces {
        if let Some(fault) = read_lines_of_piece(alloc, tables, piece, rows)? {
            return Ok(Some(fault));
        }
    }
    Ok(None)
}

/// Reads the lines `piece` into `tables` if they are new, and appends their rows to `rows`. Returns the fault of the line, if it does not
/// parse.
fn read_lines_of_piece(
    alloc: Global,
    tables: &mut Tables,
    piece: &OldOrNewLines<'_>,
    rows: &mut Vec<LineRow>,
) -> Result<Option<SyntaxFault>, AllocError>
    requires stand { All (IsLastingLineRow tables.old) rows.old.items }
    requires kept { HasKeptRows tables.old piece.now }
    requires fits { length (join (texts_of_lines (map (line_of_row tables.old) rows.old.items))) + length (join (line_texts_of_piece tables.old piece.now)) ≤ text_limit }
    ensures grown { TablesHaveGrown tables.old tables.new }
    ensures stand { IfOk result (λ _. All (IsLastingLineRow tables.new) rows.new.items) }
    ensures read { IfOk result (λ fault. ContinuesReadingLines fault (map (line_of_row tables.old) rows.old.items) (map (line_of_row tables.new) rows.new.items) (line_texts_of_piece tables.old piece.now)) }
{
    match piece {
        OldOrNewLines::Old(old) => {
            rows.extend_from_slice(old)?;
            Ok(None)
        }
        OldOrNewLines::New(text) => read_and_append_line(alloc, tables, text, rows),
    }
}

/// Reads the file `name`, whose lines are `pieces`. The new ones are read into `tables`.
///
/// # Errors
///
/// The fault of the cut of its text, or want of memory.
pub fn read_file_of_pieces(
    alloc: Global,
    tables: &mut Tables,
    name: Items<u8>,
    pieces: &[OldOrNewLines<'_>],
) -> Result<ParsedFileRows, LoadFault>
    requires kept { AreKeptPieces tables.old pieces.now }
    requires whole { AllByRecursion IsLogicalLine (line_texts_of_pieces tables.old pieces.now) }
    requires ended { has_inner_line_without_lf (line_texts_of_pieces tables.old pieces.now) ≡ false }
    ensures grown { TablesHaveGrown tables.old tables.new }
    ensures read { IsFileReadOutcome result tables.new (parsed_file_of_cut_or_fault name (cut_outcome_of_text (join (line_texts_of_pieces tables.old pieces.now)))) }
{
    match checked_size_of_pieces(alloc, tables, pieces) {
        Ok(bytes) => {
            let mut rows = Vec::with_capacity(alloc, line_count_of_pieces(pieces))?;
            let fault = read_lines_of_pieces(alloc, tables, pieces, &mut rows)?;
            Ok(ParsedFileRows {
                name,
                rows,
                fault,
                bytes,
            })
        }
        Err(fault) => Err(load_fault_of_text_fault(name, fault)),
    }
}
