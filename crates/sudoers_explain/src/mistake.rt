//! A mistake in a line, and the hint that fits it.

use crate::expected_pieces::ExpectedPiece;
use crate::hints::Hint;
use std::alloc::{AllocError, Global};
use sudoers_grammar::Why;

/// The first fault of a line: the bytes of the line before its place and from there on, its cause, and what may stand there.
#[derive(Clone, Copy)]
pub struct Mistake<'a> {
    pub before: &'a [u8],
    pub behind: &'a [u8],
    pub why: Why,
    pub pieces: &'a [ExpectedPiece],
}

/// The keywords of lines, and their letters in lower case.
const KEYWORDS: [(&str, &[u8]); 10] = [
    ("User_Alias", b"useralias"),
    ("Runas_Alias", b"runasalias"),
    ("Host_Alias", b"hostalias"),
    ("Cmnd_Alias", b"cmndalias"),
    ("Cmnd_Alias", b"cmdalias"),
    ("Cmnd_Alias", b"commandalias"),
    ("Defaults", b"defaults"),
    ("Defaults", b"default"),
    ("@include", b"@include"),
    ("@includedir", b"@includedir"),
];

/// The bytes with which the marks of a merge conflict begin.
const MERGE_MARKS: [&[u8]; 4] = [b"<<<<<<<", b"|||||||", b"=======", b">>>>>>>"];

/// The bytes with which the keywords of lines begin, as they are read.
const LINE_KEYWORDS: [&[u8]; 7] = [
    b"User_Alias",
    b"Runas_Alias",
    b"Host_Alias",
    b"Cmnd_Alias",
    b"Cmd_Alias",
    b"Defaults",
    b"@include",
];

/// The bytes with which the keywords of include lines begin.
const INCLUDE_KEYWORDS: [&[u8]; 2] = [b"@include", b"#include"];

/// The bytes of a byte order mark.
const BYTE_ORDER_MARK: &[u8] = b"\xef\xbb\xbf";

/// The bytes with which comments of other languages begin.
const COMMENT_MARKS: [&[u8]; 4] = [b"// ", b"/* ", b"; ", b"-- "];

/// Returns whether `byte` is a space or a tab.
pub fn is_space_or_tab(byte: u8) -> bool {
    byte == b' ' || byte == b'\t'
}

/// Returns whether `byte` ends a word: a blank, a mark or a line end.
pub fn ends_word(byte: u8) -> bool {
    is_space_or_tab(byte) || b",:=()\r\n".contains(&byte)
}

/// Returns `text` without the blanks that it begins with.
pub fn strip_leading_blanks(text: &[u8]) -> &[u8] {
    let mut rest = text;
    for byte in text {
        if !is_space_or_tab(*byte) {
            break;
        }
        if let Some((_, more)) = rest.split_first() {
            rest = more;
        }
    }
    rest
}

/// Returns whether `text` has nothing but blanks before a line end, a comment or its own end.
pub fn is_rest_empty(text: &[u8]) -> bool {
    matches!(
        strip_leading_blanks(text),
        [] | [b'#', ..] | [b'\n', ..] | [b'\r', b'\n', ..]
    )
}

/// Returns whether `text` begins with blanks, one at least, and a line end or its own end behind them.
fn is_blank_up_to_line_end(text: &[u8]) -> bool {
    let rest = strip_leading_blanks(text);
    rest.len() < text.len() && matches!(rest, [] | [b'\n', ..] | [b'\r', b'\n', ..])
}

/// Returns whether one of `prefixes` begins `text`.
pub fn begins_with_any(text: &[u8], prefixes: &[&[u8]]) -> bool {
    prefixes.iter().any(|prefix| text.starts_with(prefix))
}

/// Returns the last byte of `text` that is no blank.
pub fn last_mark_of(text: &[u8]) -> Option<u8> {
    let mut last = None;
    for byte in text {
        if !is_space_or_tab(*byte) {
            last = Some(*byte);
        }
    }
    last
}

/// Returns whether a typographic quote stands in `text`.
fn has_typographic_quote(text: &[u8]) -> bool {
    text.split(|byte| *byte == 0xe2).any(
        |rest| matches!(rest, [0x80, last, ..] if (0x98..=0x9f).contains(last)),
    )
}

/// Returns whether the letters of `word` are `letters`, whatever their case, `_` and `-` aside.
fn has_letters(word: &[u8], letters: &[u8]) -> bool {
    let mut rest = letters;
    for byte in word {
        if *byte == b'_' || *byte == b'-' {
            continue;
        }
        match rest.split_first() {
            Some((letter, more)) if *letter == byte.to_ascii_lowercase() => rest = more,
            _ => return false,
        }
    }
    rest.is_empty()
}

/// Returns the number of the byte of `text` behind the last `byte`, or 0 if there is none.
pub fn find_offset_behind_last(text: &[u8], byte: u8) -> usize {
    let mut behind: usize = 0;
    for (at, other) in text.iter().enumerate() {
        if *other == byte {
            behind = at.saturating_add(1);
        }
    }
    behind
}

/// Returns `word` with capitals in place of lower-case letters.
fn make_upper_case(alloc: Global, word: &[u8]) -> Result<Vec<u8>, AllocError> {
    let mut upper = Vec::with_capacity(alloc, word.len())?;
    for byte in word {
        upper.push(byte.to_ascii_uppercase())?;
    }
    Ok(upper)
}

impl<'a> Mistake<'a> {
    /// Returns the first word of the line; no bytes if it has none before the place of the mistake.
    pub fn first_word(&self) -> &'a [u8] {
        match self
            .before
            .split(|byte| ends_word(*byte))
            .find(|word| !word.is_empty())
        {
            Some(word) => word,
            None => b"",
        }
    }

    /// Returns the word that begins at the place of the mistake.
    pub fn word(&self) -> &'a [u8] {
        match self.behind.split(|byte| ends_word(*byte)).next() {
            Some(word) => word,
            None => b"",
        }
    }

    /// Returns whether the line begins with a keyword of alias lines.
    pub fn is_alias_line(&self) -> bool {
        self.first_word().ends_with(b"_Alias")
    }

    /// Returns whether the line is one of Defaults.
    pub fn is_defaults_line(&self) -> bool {
        self.first_word().starts_with(b"Defaults")
    }

    /// Returns whether the line is an include line.
    pub fn is_include_line(&self) -> bool {
        begins_with_any(self.first_word(), &INCLUDE_KEYWORDS)
    }

    /// Returns whether the last `:` before the place stands among the arguments of a command: a `=` and a `/` before it, and no blank on
    /// either side.
    pub fn is_last_colon_in_arguments(&self) -> bool {
        let behind = find_offset_behind_last(self.before, b':').min(self.before.len());
        let (front, rest) = self.before.split_at(behind);
        let Some((_, front)) = front.split_last() else {
            return false;
        };
        let is_glued = match (front.last(), rest.first(), self.behind.first()) {
            (Some(left), Some(right), _) => !is_space_or_tab(*left) && !is_space_or_tab(*right),
            (Some(left), None, Some(right)) => !is_space_or_tab(*left)
                && !b" \t\r\n".contains(right),
            _ => false,
        };
        is_glued && front.contains(&b'=') && front.contains(&b'/')
    }

    /// Returns whether the piece `piece` may stand at the place.
    pub fn may_be(&self, piece: ExpectedPiece) -> bool {
        self.pieces.contains(&piece)
    }

    /// Returns whether a command may stand at the place, and no name.
    pub fn is_place_of_command(&self) -> bool {
        self.may_be(ExpectedPiece::Path)
            && self.may_be(ExpectedPiece::Alias)
            && !self.may_be(ExpectedPiece::Name)
    }

    /// Returns the first hint that fits; nothing if none does.
    ///
    /// # Errors
    ///
    /// Memory ran out.
    pub fn find_hint(&self, alloc: Global) -> Result<Option<Hint>, AllocError> {
        if let Some(hint) = self.hint_of_line_beginning() {
            return Ok(Some(hint));
        }
        if let Some(hint) = self.hint_of_bytes() {
            return Ok(Some(hint));
        }
        if let Some(hint) = self.hint_of_cause() {
            return Ok(Some(hint));
        }
        let upper = make_upper_case(alloc, self.word())?;
        if self.is_place_of_command()
            && let Some(hint) = self.hint_of_reserved_word(upper.as_slice())
        {
            return Ok(Some(hint));
        }
        Ok(self.hint_of_pieces())
    }

    /// Returns the number of the byte of the line at which people look for the mistake of `hint`, if that stands before the place.
    pub fn offset_of_hint(&self, hint: Hint) -> Option<usize> {
        match hint {
            Hint::MergeMark | Hint::CommentMark | Hint::ByteOrderMark | Hint::Keyword(_) => self
                .before
                .iter()
                .position(|byte| !is_space_or_tab(*byte)),
            Hint::Tag(_) if !self.is_place_of_command() => {
                let (start, _) = self.find_misspelled_tag()?;
                Some(start)
            }
            Hint::CommaBehindDigest => find_offset_behind_last(self.before, b',').checked_sub(1),
            Hint::ColonInArguments => find_offset_behind_last(self.before, b':').checked_sub(1),
            Hint::Ipv6 => Some(find_offset_behind_last(self.before, b' ')),
            _ => None,
        }
    }

    /// Returns the hint for a line that begins as none does.
    fn hint_of_line_beginning(&self) -> Option<Hint> {
        let first = self.first_word();
        if begins_with_any(self.before, &MERGE_MARKS)
            || begins_with_any(self.behind, &MERGE_MARKS)
        {
            return Some(Hint::MergeMark);
        }
        if begins_with_any(strip_leading_blanks(self.before), &COMMENT_MARKS) {
            return Some(Hint::CommentMark);
        }
        if let Some(rest) = self.before.strip_prefix(BYTE_ORDER_MARK)
            && (rest.is_empty() || begins_with_any(rest, &LINE_KEYWORDS))
        {
            return Some(Hint::ByteOrderMark);
        }
        if self.may_be_rule_of_default() {
            return None;
        }
        for (keyword, letters) in &KEYWORDS {
            if has_letters(first, letters) && !begins_with_any(first, &LINE_KEYWORDS) {
                return Some(Hint::Keyword(*keyword));
            }
        }
        None
    }

    /// Returns whether the line may be a rule of a user `default` or `defaults`: `ALL` stands before the place, or a command may stand there.
    pub fn may_be_rule_of_default(&self) -> bool {
        let first = self.first_word();
        let is_default = has_letters(first, b"default") || has_letters(first, b"defaults");
        let has_all = self
            .before
            .split(|byte| ends_word(*byte))
            .any(|word| word == b"ALL".as_slice());
        is_default && !self.is_defaults_line() && (has_all || self.is_place_of_command())
    }

    /// Returns the hint for the bytes at the place.
    fn hint_of_bytes(&self) -> Option<Hint> {
        match self.behind {
            [b'\\', rest @ ..] if is_blank_up_to_line_end(rest) => Some(Hint::BlankAfterBackslash),
            [b'\r', b'\n', ..] => None,
            [b'\r', ..] => Some(Hint::CarriageReturn),
            [b';', rest @ ..] if is_rest_empty(rest) => Some(Hint::Semicolon),
            [b'=', ..] if self.before.contains(&b'=') && self.before.contains(&b'/') => Some(
                Hint::EqualInArguments,
            ),
            _ if has_typographic_quote(self.word()) => Some(Hint::CurlyQuote),
            _ => None,
        }
    }

    /// Returns the hint for the cause.
    fn hint_of_cause(&self) -> Option<Hint> {
        match self.why {
            Why::Regex => Some(Hint::Regex),
            Why::BadStamp => Some(Hint::Stamp),
            Why::BadAddress => Some(Hint::Address),
            Why::BadId => Some(Hint::Id),
            Why::OpenQuote => Some(Hint::OpenQuote),
            Why::EmptyName => Some(Hint::EmptyName),
            Why::UnexpectedByte | Why::UnexpectedToken | Why::EndOfLine => None,
        }
    }
}
