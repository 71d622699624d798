//! The files of a policy, each with its logical lines.

use crate::place::{LineAndColumn, PlaceInPolicy};
use std::alloc::{AllocError, Global};
use sudoers_text::{TextFault, cut};
use sudoers_tree::{NamedFile, column_behind, lf_count};

/// A logical line of the file `file`: the physical line with which it begins, from 1, and its bytes.
#[derive(Clone, Copy)]
pub struct FileLine<'a> {
    pub file: &'a [u8],
    pub row: usize,
    pub text: &'a [u8],
}

impl<'a> FileLine<'a> {
    /// Returns where the byte `at` of the line stands, or the end of the line.
    pub fn line_and_column_of(&self, at: usize) -> LineAndColumn {
        let (before, _) = self.text.split_at(at.min(self.text.len()));
        LineAndColumn {
            line: self.row.saturating_add(lf_count(before)),
            column: column_behind(before),
        }
    }

    /// Returns the place of the bytes of the line from `start` up to, but not with, `stop`.
    pub fn place_of(&self, start: usize, stop: usize) -> PlaceInPolicy<'a> {
        PlaceInPolicy {
            file: self.file,
            start: Some(self.line_and_column_of(start)),
            end: Some(self.line_and_column_of(stop)),
        }
    }

    /// Returns the byte of the line that stands at `wanted`, or the length of the line for its end; nothing if that is not in the line.
    pub fn find_offset(&self, wanted: LineAndColumn) -> Option<usize> {
        let mut start: usize = 0;
        for (number, bytes) in self.text.split(|byte| *byte == b'\n').enumerate() {
            if self.row.saturating_add(number) == wanted.line {
                let at = start.saturating_add(wanted.column.checked_sub(1)?);
                return if at <= self.text.len() && self.line_and_column_of(at) == wanted {
                    Some(at)
                } else {
                    None
                };
            }
            start = start.saturating_add(bytes.len()).saturating_add(1);
        }
        None
    }
}

/// A file of a policy, and its logical lines. A file that cannot be cut has none.
#[derive(Drop)]
pub struct CutFile<'a> {
    pub file: &'a NamedFile,
    pub lines: Vec<FileLine<'a>>,
    rows: Vec<usize>,
}

impl<'a> CutFile<'a> {
    /// Returns the file `file` with its lines.
    fn new(alloc: Global, file: &'a NamedFile) -> Result<CutFile<'a>, AllocError> {
        let mut result = CutFile {
            file,
            lines: Vec::new(alloc),
            rows: Vec::new(alloc),
        };
        let lines = match cut(alloc, file.bytes.as_slice()) {
            Ok(lines) => lines,
            Err(TextFault::NoMemory) => return Err(AllocError),
            Err(_) => return Ok(result),
        };
        let mut row: usize = 1;
        for number in 0..lines.len() {
            if let Some(text) = lines.get(number) {
                result.add_line(row, text)?;
                row = row.saturating_add(lf_count(text));
            }
        }
        Ok(result)
    }

    /// Appends the line `text`, which begins on the row `row`.
    fn add_line(&mut self, row: usize, text: &'a [u8]) -> Result<(), AllocError> {
        self.rows.push(row)?;
        self.lines.push(FileLine {
            file: self.file.name.as_slice(),
            row,
            text,
        })?;
        Ok(())
    }

    /// Returns the logical line that holds the physical line `row`.
    pub fn find_line_of_row(&self, row: usize) -> Option<FileLine<'a>> {
        let number = match self.rows.as_slice().binary_search(&row) {
            Ok(number) => number,
            Err(behind) => behind.checked_sub(1)?,
        };
        Some(*self.lines.get(number)?)
    }
}

/// Returns the files `files` with their lines.
///
/// # Errors
///
/// Memory ran out.
pub fn cut_files<'a>(
    alloc: Global,
    files: &'a [NamedFile],
) -> Result<Vec<CutFile<'a>>, AllocError> {
    let mut all = Vec::with_capacity(alloc, files.len())?;
    for file in files {
        all.push(CutFile::new(alloc, file)?)?;
    }
    Ok(all)
}
