//! What is wrong with the text of a member or a definition.

use crate::edit_hints::EditHint;

/// A text of a member or a definition that is to be added: its bytes, whether it is the first of its list, and whether it is a definition.
#[derive(Clone, Copy)]
pub struct Splice<'a> {
    pub text: &'a [u8],
    pub is_first: bool,
    pub is_definition: bool,
}

/// Returns whether `byte` is a blank.
fn is_blank(byte: u8) -> bool {
    byte == b' ' || byte == b'\t'
}

impl Splice<'_> {
    /// Returns the byte that stands between two of a list.
    pub fn separator(&self) -> u8 {
        if self.is_definition { b':' } else { b',' }
    }

    /// Returns the first mistake in the bytes of the text, and the number of the byte at which it is.
    pub fn find_mistake(&self) -> Option<(usize, EditHint)> {
        let last = self.text.len().saturating_sub(1);
        if self.text.ends_with(b"\n") {
            return Some((last, EditHint::SpliceLineEnd));
        }
        if let Some(at) = self.offset_of_open_line_end() {
            return Some((at, EditHint::InnerLineEnd));
        }
        if let Some(at) = self.offset_of_comment() {
            return Some((at, EditHint::CommentInText));
        }
        if let Some(mistake) = self.find_missing_separator() {
            return Some(mistake);
        }
        if self.has_open_backslash() {
            return Some((last, EditHint::BackslashBehind));
        }
        match (self.text.first(), self.text.last()) {
            (Some(first), _) if self.is_first && is_blank(*first) => {
                Some((0, EditHint::BlankInFront))
            }
            (_, Some(byte)) if !self.is_first && is_blank(*byte) => {
                Some((last, EditHint::BlankBehind))
            }
            _ => None,
        }
    }

    /// Returns the number of the first LF of the text before which no backslash stands.
    fn offset_of_open_line_end(&self) -> Option<usize> {
        let mut before = b' ';
        for (at, byte) in self.text.iter().enumerate() {
            if *byte == b'\n' && before != b'\\' {
                return Some(at);
            }
            before = *byte;
        }
        None
    }

    /// Returns whether the text ends in a backslash before which an even number of them stands.
    fn has_open_backslash(&self) -> bool {
        let mut is_open = false;
        for byte in self.text {
            is_open = *byte == b'\\' && !is_open;
        }
        is_open
    }

    /// Returns the number of the first `#` of the text that begins a comment: behind a blank, and before no digit.
    fn offset_of_comment(&self) -> Option<usize> {
        let mut before = b'x';
        for (at, byte) in self.text.iter().enumerate() {
            let is_id = match self.text.get(at.saturating_add(1)) {
                Some(next) => next.is_ascii_digit(),
                None => false,
            };
            if *byte == b'#' && is_blank(before) && !is_id {
                return Some(at);
            }
            before = *byte;
        }
        None
    }

    /// Returns the mistake of a text without the byte that has to stand between two of a list.
    fn find_missing_separator(&self) -> Option<(usize, EditHint)> {
        let separator = self.separator();
        let mut bytes = self.text.iter().filter(|byte| !is_blank(**byte));
        let first = match bytes.next() {
            Some(byte) => *byte,
            None => b' ',
        };
        let mut last = first;
        for byte in self.text {
            if !is_blank(*byte) {
                last = *byte;
            }
        }
        if self
            .text
            .iter()
            .all(|byte| is_blank(*byte) || *byte == separator)
        {
            return Some((self.text.len(), self.hint_of_separator()));
        }
        if !self.is_definition && first == b':' {
            return Some((0, EditHint::AddDefinition));
        }
        if self.is_first && last != separator {
            return Some((self.text.len(), self.hint_of_separator()));
        }
        if !self.is_first && first != separator {
            return Some((0, self.hint_of_separator()));
        }
        None
    }

    /// Returns the hint for a text without the byte that has to stand between two of a list.
    fn hint_of_separator(&self) -> EditHint {
        match (self.is_definition, self.is_first) {
            (false, false) => EditHint::CommaBefore,
            (false, true) => EditHint::CommaAfter,
            (true, false) => EditHint::ColonBefore,
            (true, true) => EditHint::ColonAfter,
        }
    }

    /// Returns the number of the byte of the text behind which its second member or definition stands.
    pub fn offset_of_second(&self) -> usize {
        let mut left: usize = if self.is_first { 1 } else { 2 };
        for (at, byte) in self.text.iter().enumerate() {
            if *byte == self.separator() {
                left = left.saturating_sub(1);
                if left == 0 {
                    return at;
                }
            }
        }
        0
    }

    /// Returns the number of the last byte of the text that is `:`; 0 if there is none.
    pub fn offset_of_colon(&self) -> usize {
        let mut last = 0;
        for (at, byte) in self.text.iter().enumerate() {
            if *byte == b':' {
                last = at;
            }
        }
        last
    }

    /// Returns the hint for a text with more than one.
    pub fn hint_of_several(&self) -> EditHint {
        if self.is_definition {
            EditHint::OneAddDefEach
        } else {
            EditHint::OneAddEach
        }
    }
}
