//! The lines that explain the refusal of an edit of whole lines.

use crate::edit_hints::{EditHint, append_advice, append_advice_with_number};
use crate::edited_files::{make_edited_file, make_edited_files};
use crate::lists::{append_count, append_name, append_names};
use crate::refusals::{Refusal, number_of_edited_file};
use crate::script_rows::last_file_row_before;
use std::alloc::AllocError;
use sudoers_edit_script::Edit;
use sudoers_explain::{PlaceInFile, explain_load_fault};
use sudoers_text::{TextFault, cut};
use sudoers_tree::LoadFault;

/// How many bytes a file of a policy has at most.
const FILE_SIZE_LIMIT: usize = 1_048_576;

impl Refusal<'_> {
    /// Returns the name of the file with the number `file`, from 0, and the words `words` behind it.
    fn make_label_of_file(&self, file: usize, words: &[u8]) -> Result<Vec<u8>, AllocError> {
        let mut label = Vec::new(self.alloc);
        append_name(self.alloc, &mut label, self.policy.file_name(file))?;
        label.extend_from_slice(words)?;
        Ok(label)
    }

    /// Returns how many lines the file with the number `file`, from 0, has: `main has 3 lines`.
    fn make_line_count_label(&self, file: usize) -> Result<Vec<u8>, AllocError> {
        let mut label = self.make_label_of_file(file, b" has ")?;
        append_count(self.alloc, &mut label, self.policy.len(file), b"line")?;
        Ok(label)
    }

    /// Appends the advice to write a number up to `most`. `count` lines or members are there.
    ///
    /// # Errors
    ///
    /// Memory ran out.
    pub fn append_range(
        &self,
        out: &mut Vec<u8>,
        count: usize,
        most: usize,
    ) -> Result<(), AllocError> {
        let hint = if count != self.old_len {
            EditHint::RangeAfterEdits
        } else {
            EditHint::Range
        };
        append_advice_with_number(self.alloc, out, hint, most)
    }

    /// Appends the lines for a number that no file has: the `file` line, and the files.
    ///
    /// # Errors
    ///
    /// Memory ran out.
    pub fn append_missing_file(&self, out: &mut Vec<u8>) -> Result<(), AllocError> {
        let count = self.policy.files();
        let mut names = Vec::new(self.alloc);
        for file in 0..count {
            names.push(self.policy.file_name(file))?;
        }
        let mut label = Vec::new(self.alloc);
        append_count(self.alloc, &mut label, count, b"file")?;
        label.extend_from_slice(b": ")?;
        append_names(self.alloc, &mut label, names.as_slice())?;
        match last_file_row_before(self.script.bytes.as_slice(), self.row.number) {
            Some(row) => PlaceInFile {
                file: self.script,
                at: row.start.saturating_add(row.offset_of_word(1)),
            }
            .append_excerpt(self.alloc, out, label.as_slice())?,
            None => self.append_command(out, 0, label.as_slice())?,
        }
        if count == 1 {
            return append_advice(out, EditHint::OneFile);
        }
        append_advice_with_number(self.alloc, out, EditHint::Range, count)
    }

    /// Appends the lines for a number that no line of the file has.
    ///
    /// # Errors
    ///
    /// Memory ran out.
    pub fn append_missing_line(&self, out: &mut Vec<u8>) -> Result<(), AllocError> {
        let file = number_of_edited_file(self.edit).unwrap_or(0);
        let count = self.policy.len(file);
        let word = match self.edit {
            Edit::Move { from, .. } if (*from as usize) < count => 2,
            _ => 1,
        };
        self.append_command(out, word, self.make_line_count_label(file)?.as_slice())?;
        match self.edit {
            Edit::Insert { .. } => self.append_range(out, count, count.saturating_add(1)),
            _ if count == 0 => append_advice(out, EditHint::NoLines),
            _ => self.append_range(out, count, count),
        }
    }

    /// Appends the lines for a text to insert that is other than one line.
    ///
    /// # Errors
    ///
    /// Memory ran out.
    pub fn append_other_than_one_line(&self, out: &mut Vec<u8>) -> Result<(), AllocError> {
        let Edit::Insert { text, .. } = self.edit else {
            return Ok(());
        };
        let text = text.as_slice();
        let (at, hint) = match cut(self.alloc, text) {
            Ok(lines) => match lines.get(0) {
                Some(first) => (first.len(), EditHint::OneInsertEach),
                None => (0, EditHint::EmptyInsert),
            },
            Err(TextFault::NoMemory) => return Err(AllocError),
            Err(TextFault::Nul { at }) => (at, EditHint::Nul),
            Err(TextFault::OpenContinuation) => (offset_of_last(text, b'\\'), EditHint::Continued),
            Err(_) => (0, EditHint::LineLimit),
        };
        self.append_text_place(out, text, at, b"")?;
        append_advice(out, hint)
    }

    /// Appends the lines for a line without LF before another.
    ///
    /// # Errors
    ///
    /// Memory ran out.
    pub fn append_open_line(&self, out: &mut Vec<u8>) -> Result<(), AllocError> {
        let file = number_of_edited_file(self.edit).unwrap_or(0);
        if let Edit::Insert { at, text, .. } = self.edit
            && (*at as usize) < self.policy.len(file)
        {
            let text = text.as_slice();
            self.append_text_place(out, text, 0, b"")?;
            return append_advice(out, EditHint::LineFeed);
        }
        let label = self.make_label_of_file(file, b" ends without a line feed")?;
        self.append_command(out, 0, label.as_slice())?;
        append_advice(out, EditHint::EndLineFirst)
    }

    /// Appends the lines for an end of a file that is as it is to be, or cannot be changed.
    ///
    /// # Errors
    ///
    /// Memory ran out.
    pub fn append_end_as_is(&self, out: &mut Vec<u8>) -> Result<(), AllocError> {
        let file = number_of_edited_file(self.edit).unwrap_or(0);
        let count = self.policy.len(file);
        let last = match self.policy.line(file, count.saturating_sub(1)) {
            Some(line) => line,
            None => b"",
        };
        let words: &[u8] = if count == 0 {
            b" has no line"
        } else if matches!(self.edit, Edit::EndLine { .. }) {
            b" ends with a line feed"
        } else if last == b"\n".as_slice() {
            b" ends with an empty line"
        } else {
            b" ends without a line feed"
        };
        self.append_command(out, 0, self.make_label_of_file(file, words)?.as_slice())?;
        append_advice(out, EditHint::LeaveOut)
    }

    /// Appends the lines for a result that is too large: how large the file would be, if that is too much.
    ///
    /// # Errors
    ///
    /// Memory ran out.
    pub fn append_size(&self, out: &mut Vec<u8>) -> Result<(), AllocError> {
        let mut label = Vec::new(self.alloc);
        if let Some(edited) = make_edited_file(self.alloc, self.policy, self.edit)?
            && edited.bytes.len() > FILE_SIZE_LIMIT
        {
            label = self.make_label_of_file(edited.file, b" would have ")?;
            append_count(self.alloc, &mut label, edited.bytes.len(), b"byte")?;
        }
        self.append_command(out, 0, label.as_slice())?;
        append_advice(out, EditHint::SizeLimits)
    }

    /// Appends the lines for a result that is no policy: the command, and the explanation of `fault`, which the files would have.
    ///
    /// # Errors
    ///
    /// Memory ran out.
    pub fn append_fault_of_result(
        &self,
        out: &mut Vec<u8>,
        fault: &LoadFault,
    ) -> Result<(), AllocError> {
        self.append_command(out, 0, b"after this edit:")?;
        let edited = make_edited_file(self.alloc, self.policy, self.edit)?;
        let files = make_edited_files(self.policy, edited)?;
        let lines = explain_load_fault(self.alloc, files.as_slice(), fault)?;
        out.extend_from_slice(lines.as_slice())
    }
}

/// Returns the number of the last byte of `text` that is `byte`; 0 if there is none.
fn offset_of_last(text: &[u8], byte: u8) -> usize {
    let mut last = 0;
    for (at, other) in text.iter().enumerate() {
        if *other == byte {
            last = at;
        }
    }
    last
}
