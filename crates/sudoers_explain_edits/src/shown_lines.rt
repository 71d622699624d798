//! Lines of a policy, of which parts are shown with their places.

use std::alloc::{AllocError, Global};
use sudoers_text::append_decimal_number;
use sudoers_tree::{column_behind, lf_count};

/// A line of a file: the name of the file, the number of its first physical line, from 1, and its bytes.
#[derive(Clone, Copy)]
pub struct ShownLine<'a> {
    pub file: &'a [u8],
    pub row: usize,
    pub text: &'a [u8],
}

impl ShownLine<'_> {
    /// Appends where the byte `at` of the line stands: `FILE:LINE:COL`.
    ///
    /// # Errors
    ///
    /// Memory ran out.
    pub fn append_place(
        &self,
        alloc: Global,
        out: &mut Vec<u8>,
        at: usize,
    ) -> Result<(), AllocError> {
        let (before, _) = self.text.split_at(at.min(self.text.len()));
        let row = self.row.saturating_add(lf_count(before));
        out.extend_from_slice(self.file)?;
        out.push(b':')?;
        append_decimal_number(alloc, out, row)?;
        out.push(b':')?;
        append_decimal_number(alloc, out, column_behind(before))
    }

    /// Appends the bytes of the line from `start` up to `stop`, with a blank for each line end and the backslash before it.
    ///
    /// # Errors
    ///
    /// Memory ran out.
    pub fn append_bytes_between(
        &self,
        out: &mut Vec<u8>,
        start: usize,
        stop: usize,
    ) -> Result<(), AllocError> {
        let (front, _) = self.text.split_at(stop.min(self.text.len()));
        let (_, text) = front.split_at(start.min(front.len()));
        for (at, byte) in text.iter().enumerate() {
            let (_, rest) = text.split_at(at.min(text.len()));
            match (rest, *byte) {
                ([b'\\', b'\n', ..] | [b'\\', b'\r', b'\n', ..] | [b'\r', b'\n', ..], _) => {}
                (_, b'\n') => out.push(b' ')?,
                (_, byte) => out.push(byte)?,
            }
        }
        Ok(())
    }
}
