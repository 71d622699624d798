//! Reading lines into tables.

ghost use Rattle.std.specs.Prelude.{◌≡◌, ◌≤◌, ◌+◌, [], ◌∷◌, length, map, IfOk};
ghost use Rattle.std.specs.List.{All};
ghost use Rattle.sudoers_text.specs.Fault.{text_limit};
ghost use Rattle.sudoers_text.specs.Line.{join};
ghost use Rattle.sudoers_line_rows.specs.Tables.{TablesHaveGrown};
ghost use Rattle.sudoers_tree.specs.Files.{syntax_fault_at_byte, lines_parsed_until_fault};
ghost use Rattle.sudoers_tree.specs.Line.{line_of_row};
ghost use Rattle.sudoers_tree.specs.Policy.{texts_of_lines};
ghost use Rattle.sudoers_tree.specs.internal.Pieces.{ContinuesReadingLines, lf_count_of_lines};
ghost use Rattle.sudoers_tree.specs.internal.Tree.{IsLastingLineRow};

use crate::fault::SyntaxFault;
use crate::line::LineRow;
use crate::physical_position::{column_behind, lf_count};
use crate::row_reading::read_line_into_row;
use std::alloc::{AllocError, Global};
use sudoers_grammar::{LineFault, Why};
use sudoers_line_rows::Tables;
use sudoers_text::Lines;

/// Returns the fault `why` at the byte `at` of the line `text`, which begins on the physical line `row`.
pub fn syntax_fault_at(row: usize, text: &[u8], at: usize, why: Why) -> SyntaxFault
    requires { row + length text.now ≤ 1048577 }
    ensures { result ≡ syntax_fault_at_byte row text.now at why }
{
    // The byte stands in the line or at its end.
    let before = &text[..at.min(text.len())];
    SyntaxFault {
        line: row + lf_count(before),
        col: column_behind(before),
        why,
    }
}

/// Reads the lines `lines` into `tables`, up to the first that does not parse, and appends the rows of the lines before it to `rows`, which
/// has none. Returns the fault of the line that does not parse, if there is one.
///
/// # Errors
///
/// Memory ran out.
pub fn read_lines_until_fault(
    alloc: Global,
    tables: &mut Tables,
    lines: &Lines<'_>,
    rows: &mut Vec<LineRow>,
) -> Result<Option<SyntaxFault>, AllocError>
    requires none { rows.old.items ≡ [] }
    requires fits { length (join lines.now) ≤ text_limit }
    ensures grown { TablesHaveGrown tables.old tables.new }
    ensures stand { IfOk result (λ _. All (IsLastingLineRow tables.new) rows.new.items) }
    ensures read { IfOk result (λ fault. (map (line_of_row tables.new) rows.new.items, fault) ≡ lines_parsed_until_fault [] lines.now) }
{
    for number in 0..lines.len() {
        let Some(text) = lines.get(number) else {
            return Ok(None);
        };
        if let Some(fault) = read_and_append_line(alloc, tables, text, rows)? {
            return Ok(Some(fault));
        }
    }
    Ok(None)
}

/// Reads the line `text` into `tables` and appends its row to `rows`. Returns its fault, if it does not parse.
///
/// # Errors
///
/// Memory ran out.
pub fn read_and_append_line(
    alloc: Global,
    tables: &mut Tables,
    text: &[u8],
    rows: &mut Vec<LineRow>,
) -> Result<Option<SyntaxFault>, AllocError>
    requires stand { All (IsLastingLineRow tables.old) rows.old.items }
    requires fits { length (join (texts_of_lines (map (line_of_row tables.old) rows.old.items))) + length text.now ≤ text_limit }
    ensures grown { TablesHaveGrown tables.old tables.new }
    ensures stand { IfOk result (λ _. All (IsLastingLineRow tables.new) rows.new.items) }
    ensures read { IfOk result (λ fault. ContinuesReadingLines fault (map (line_of_row tables.old) rows.old.items) (map (line_of_row tables.new) rows.new.items) (text.now ∷ [])) }
{
    match read_line_into_row(alloc, tables, text) {
        Ok(row) => {
            rows.push(row)?;
            Ok(None)
        }
        Err(LineFault::Syntax { at, why }) => {
            let line = number_of_physical_line_after(tables, rows.as_slice());
            Ok(Some(syntax_fault_at(line, text, at, why)))
        }
        Err(LineFault::NoMemory) => Err(AllocError),
    }
}

/// Returns the physical line, from 1, that follows the lines of the rows `rows`.
fn number_of_physical_line_after(tables: &Tables, rows: &[LineRow]) -> usize
    requires { lf_count_of_lines (texts_of_lines (map (line_of_row tables.now) rows.now)) ≤ text_limit }
    ensures { result ≡ 1 + lf_count_of_lines (texts_of_lines (map (line_of_row tables.now) rows.now)) }
{
    let mut row = 1;
    for line in rows {
        row += lf_count(tables.bytes_of_text_row(line.text));
    }
    row
}
