//! Excerpts of a file: a row with a mark under a place.

use crate::shown_rows::{make_pointer_row, make_shown_row};
use std::alloc::{AllocError, Global};
use sudoers_text::append_decimal_number;
use sudoers_tree::{NamedFile, column_behind, lf_count};

/// A place in a file: the number of a byte, from 0.
#[derive(Clone, Copy)]
pub struct PlaceInFile<'a> {
    pub file: &'a NamedFile,
    pub at: usize,
}

/// Returns the number of the byte, from 0, with which the row `row`, from 1, of `text` begins. Returns the length of `text` if there is no
/// such row.
fn offset_of_row(text: &[u8], row: usize) -> usize {
    let mut start: usize = 0;
    for (before, bytes) in text.split(|byte| *byte == b'\n').enumerate() {
        if before.saturating_add(1) == row {
            return start;
        }
        start = start.saturating_add(bytes.len()).saturating_add(1);
    }
    text.len()
}

/// Returns the first row of `text`, without its line end.
fn first_row_of(text: &[u8]) -> &[u8] {
    let row = match text.split(|byte| *byte == b'\n').next() {
        Some(row) => row,
        None => b"",
    };
    match row.strip_suffix(b"\r") {
        Some(shorter) => shorter,
        None => row,
    }
}

/// How many bytes of a row are printed on either side of a place.
const SHOWN_ON_EACH_SIDE: usize = 120;

/// Returns how many bytes `text` begins with that are no first byte of a character of UTF-8.
fn continuation_byte_count(text: &[u8]) -> usize {
    match text.iter().position(|byte| !(0x80..0xc0).contains(byte)) {
        Some(at) => at,
        None => text.len(),
    }
}

/// Returns the part of `row` that is printed around its byte `column`, and how many bytes of that stand before it. The part does not begin
/// inside a character of UTF-8.
fn part_of_row_around(row: &[u8], column: usize) -> (&[u8], usize) {
    let column = column.min(row.len());
    let stop = column.saturating_add(SHOWN_ON_EACH_SIDE).min(row.len());
    let (front, _) = row.split_at(stop);
    let far = column.saturating_sub(SHOWN_ON_EACH_SIDE).min(front.len());
    let (_, near) = front.split_at(far);
    let skipped = if far == 0 {
        0
    } else {
        continuation_byte_count(near)
    };
    let (_, part) = near.split_at(skipped.min(near.len()));
    (
        part,
        column.saturating_sub(front.len().saturating_sub(part.len())),
    )
}

/// Appends `count` blanks.
fn append_blanks(out: &mut Vec<u8>, count: usize) -> Result<(), AllocError> {
    for _ in 0..count {
        out.push(b' ')?;
    }
    Ok(())
}

/// Returns `number` in decimal.
fn make_decimal(alloc: Global, number: usize) -> Result<Vec<u8>, AllocError> {
    let mut digits = Vec::new(alloc);
    append_decimal_number(alloc, &mut digits, number)?;
    Ok(digits)
}

impl<'a> PlaceInFile<'a> {
    /// Returns the place of the byte `column` of the row `row` of the file `file`, both from 1.
    pub fn from_row_and_column(file: &'a NamedFile, row: usize, column: usize) -> PlaceInFile<'a> {
        let start = offset_of_row(file.bytes.as_slice(), row);
        PlaceInFile {
            file,
            at: start.saturating_add(column.saturating_sub(1)),
        }
    }

    /// Returns the bytes of the file before the place, and those from there on.
    fn split_file(&self) -> (&'a [u8], &'a [u8]) {
        let bytes = self.file.bytes.as_slice();
        bytes.split_at(self.at.min(bytes.len()))
    }

    /// Returns the row of the place, and how many bytes of it stand before the place.
    fn row_and_bytes_before(&self) -> (&'a [u8], usize) {
        let (before, behind) = self.split_file();
        let column = column_behind(before).saturating_sub(1);
        let bytes = self.file.bytes.as_slice();
        let (_, from_row) = bytes.split_at(before.len().saturating_sub(column).min(bytes.len()));
        let row = first_row_of(from_row);
        (
            row,
            column
                .min(row.len())
                .min(from_row.len().saturating_sub(behind.len())),
        )
    }

    /// Appends the excerpt: the file with the row's number and the column, the row, and `label` behind a mark under the place.
    ///
    /// # Errors
    ///
    /// Memory ran out.
    pub fn append_excerpt(
        &self,
        alloc: Global,
        out: &mut Vec<u8>,
        label: &[u8],
    ) -> Result<(), AllocError> {
        let (before, _) = self.split_file();
        let number = make_decimal(alloc, lf_count(before).saturating_add(1))?;
        let (whole, at) = self.row_and_bytes_before();
        let (row, column) = part_of_row_around(whole, at);
        append_blanks(out, number.len())?;
        out.extend_from_slice(b"--> ")?;
        out.extend_from_slice(make_shown_row(alloc, self.file.name.as_slice())?.as_slice())?;
        out.push(b':')?;
        out.extend_from_slice(number.as_slice())?;
        out.push(b':')?;
        append_decimal_number(alloc, out, column_behind(before))?;
        append_margin(out, number.len())?;
        out.push(b'\n')?;
        out.extend_from_slice(number.as_slice())?;
        out.extend_from_slice(b" | ")?;
        out.extend_from_slice(make_shown_row(alloc, row)?.as_slice())?;
        append_margin(out, number.len())?;
        append_pointer(alloc, out, row, column, label)
    }
}

/// Appends the row below `row`, with `label` behind the mark under the byte `column`.
fn append_pointer(
    alloc: Global,
    out: &mut Vec<u8>,
    row: &[u8],
    column: usize,
    label: &[u8],
) -> Result<(), AllocError> {
    out.push(b' ')?;
    if column <= row.len() {
        out.extend_from_slice(make_pointer_row(alloc, row, column)?.as_slice())?;
    }
    if !label.is_empty() {
        out.push(b' ')?;
        out.extend_from_slice(label)?;
    }
    out.extend_from_slice(b"\n")
}

/// Appends a line end, and the margin of the next line: blanks as wide as a number of `width` digits, and a bar.
fn append_margin(out: &mut Vec<u8>, width: usize) -> Result<(), AllocError> {
    out.push(b'\n')?;
    append_blanks(out, width)?;
    out.extend_from_slice(b" |")
}

/// Appends a line with the advice `parts`.
///
/// # Errors
///
/// Memory ran out.
pub fn append_help(out: &mut Vec<u8>, parts: &[&[u8]]) -> Result<(), AllocError> {
    out.extend_from_slice(b"  = help: ")?;
    for part in parts {
        out.extend_from_slice(part)?;
    }
    out.extend_from_slice(b"\n")
}
