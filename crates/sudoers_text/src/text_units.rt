//! The units that a line is made of.

ghost use Rattle.std.specs.Prelude.{◌≡◌, ℕ, ◌+◌, ◌≤◌, List, [], ◌∷◌, ◌++◌, length, drop, take, slice_range, Option, Some, None, MatchOption, IfSome, Bool, ◌==◌, ◌&&◌, ◌||◌, true, false, if◌then◌else◌, ◌<◌, ◌^◌};
ghost use Rattle.sudoers_text.specs.Unit.{LineUnit, bytes_of_unit, bytes_up_to_line_end, rest_of_quoted_part, begins_lf, line_end_size, unit_after_backslash, unit_at, is_gap_unit, is_id_position_after_units, is_blank, begins_line_end, has_path_after_blanks, has_blanks_and_path, is_rest_of_hash_include, begins_digit, is_sign_byte_before_id, is_comma_colon_or_equals};
ghost use Rattle.sudoers_text.specs.Ended.{ends_in_lf};
ghost use Rattle.sudoers_text.specs.Line.{has_open_last_unit, ends_in_unpaired_backslash};
ghost use Rattle.sudoers_text.specs.internal.Left.{LeftAgreesWithUnits, LeftDescribesUnits, UnitStandsAt, model_of_unit, model_of_unit_option, has_leading_hash_or_percent};

use memchr::memchr;

/// Returns whether `byte` is a space or a tab.
#[inline(always)]
pub fn is_blank(byte: u8) -> bool
    ensures { result ≡ is_blank byte }
{
    byte == b' ' || byte == b'\t'
}

/// Returns whether `byte` is `!`, `(` or `%`.
#[inline(always)]
pub fn is_sign_before_id(byte: u8) -> bool
    ensures { result ≡ is_sign_byte_before_id byte }
{
    byte == b'!' || byte == b'(' || byte == b'%'
}

/// Returns whether `byte` is `,`, `:` or `=`.
#[inline(always)]
pub fn is_comma_colon_or_equals(byte: u8) -> bool
    ensures { result ≡ is_comma_colon_or_equals byte }
{
    byte == b',' || byte == b':' || byte == b'='
}

/// Returns whether LF or CR LF begins the text.
#[inline(always)]
pub fn begins_line_end(text: &[u8]) -> bool
    ensures { result ≡ begins_line_end text.now }
{
    matches!(text, [b'\n', ..] | [b'\r', b'\n', ..])
}

/// Returns whether `#` or `%` begins the bytes.
#[inline(always)]
pub fn begins_hash_or_percent(bytes: &[u8]) -> bool
    ensures { result ≡ has_leading_hash_or_percent bytes.now }
{
    matches!(bytes, [b'#' | b'%', ..])
}

/// Returns whether a decimal digit begins the text.
pub fn begins_digit(text: &[u8]) -> bool
    ensures { result ≡ begins_digit text.now }
{
    match text {
        [byte, ..] => byte.is_ascii_digit(),
        [] => false,
    }
}

/// Returns whether blanks and then a byte that can begin a path begin the text.
fn begins_blanks_and_path(text: &[u8]) -> bool
    ensures { result ≡ has_blanks_and_path text.now }
{
    match text {
        [first, rest @ ..] => is_blank(*first) && begins_path_after_blanks(rest),
        [] => false,
    }
}

/// Returns whether a byte that can begin a path begins the text, behind any blanks.
fn begins_path_after_blanks(text: &[u8]) -> bool
    ensures { result ≡ has_path_after_blanks text.now }
{
    for (i, byte) in text.iter().enumerate() {
        if !is_blank(*byte) {
            return *byte != b'#' && !begins_line_end(&text[i..]);
        }
    }
    false
}

/// Returns whether what follows a `#` makes an include of it.
pub fn is_hash_include_tail(text: &[u8]) -> bool
    ensures { result ≡ is_rest_of_hash_include text.now }
{
    (text.starts_with(b"include") && begins_blanks_and_path(&text[7..]))
        || (text.starts_with(b"includedir") && begins_blanks_and_path(&text[10..]))
}

/// A unit of a line, as it stands in the text.
#[derive(Clone, Copy)]
pub enum TextUnit<'a> {
    /// A backslash before a line end. True: before CR LF.
    Continuation(bool),
    /// A backslash and the byte behind it.
    Pair(u8),
    /// What is left of a quoted part behind its opening `"`.
    Quoted(&'a [u8]),
    /// The bytes behind a `#`, up to the line end.
    Comment(&'a [u8]),
    /// A byte that stands for itself.
    Byte(u8),
}

/// What stands left of a place in a line, as far as it decides how the bytes there are read.
#[derive(Clone, Copy)]
pub struct LeftContext {
    /// An ID may begin here.
    pub item: bool,
    /// The text ends here, in a continuation or in a lone backslash.
    pub continues: bool,
    /// How many bytes the line has so far, without the blanks and continuations that it begins with.
    pub begun: usize,
}

/// Returns the bytes up to the line end.
pub fn take_up_to_line_end(text: &[u8]) -> &[u8]
    ensures { result.now ≡ bytes_up_to_line_end text.now }
{
    match memchr(b'\n', text) {
        Some(end) if end > 0 && text[end - 1] == b'\r' => &text[..end - 1],
        Some(end) => &text[..end],
        None => text,
    }
}

/// Returns how many bytes the line end has that begins the text, or none.
pub fn line_end_len(text: &[u8]) -> usize
    ensures { result ≡ line_end_size text.now }
{
    match text {
        [b'\n', ..] => 1,
        [b'\r', b'\n', ..] => 2,
        _ => 0,
    }
}

/// Returns whether LF begins the text.
fn begins_lf(text: &[u8]) -> bool
    ensures { result ≡ begins_lf text.now }
{
    matches!(text, [b'\n', ..])
}

/// Returns what is left of a quoted part: up to its `"`, or up to a line end that is no continuation, or all.
fn take_rest_of_quoted_part(text: &[u8]) -> &[u8]
    ensures { result.now ≡ rest_of_quoted_part false text.now }
{
    let mut behind_backslash = false;
    for (i, byte) in text.iter().enumerate() {
        if behind_backslash {
            behind_backslash = *byte == b'\r' && begins_lf(&text[i + 1..]);
        } else if *byte == b'"' {
            return &text[..i + 1];
        } else if begins_line_end(&text[i..]) {
            return &text[..i];
        } else {
            behind_backslash = *byte == b'\\';
        }
    }
    text
}

/// Returns whether a quoted part ends in a continuation or in a lone backslash.
fn ends_in_lf_or_lone_backslash(bytes: &[u8]) -> bool
    ensures { result ≡ (ends_in_lf bytes.now || ends_in_unpaired_backslash false bytes.now) }
{
    ends_in_lf(bytes) || ends_in_lone_backslash(bytes)
}

/// Returns whether the last byte is LF.
pub fn ends_in_lf(bytes: &[u8]) -> bool
    ensures { result ≡ ends_in_lf bytes.now }
{
    match bytes.last() {
        Some(last) => *last == b'\n',
        None => false,
    }
}

/// Returns whether the last byte is a backslash that is in no pair.
fn ends_in_lone_backslash(bytes: &[u8]) -> bool
    ensures { result ≡ ends_in_unpaired_backslash false bytes.now }
{
    let mut behind_backslash = false;
    for byte in bytes {
        behind_backslash = if behind_backslash {
            false
        } else {
            *byte == b'\\'
        };
    }
    behind_backslash
}

/// Returns whether the text ends behind a unit, in a continuation or in a lone backslash.
#[inline]
fn ends_open_after_unit(text: &[u8], at: usize, unit: &TextUnit<'_>) -> bool
    ensures { at + length (bytes_of_unit (model_of_unit unit.now)) ≡ length text.now → (before : List LineUnit)
        → result ≡ has_open_last_unit (model_of_unit unit.now ∷ before) }
{
    unit.len() == text.len() - at.min(text.len()) && unit.leaves_line_open()
}

/// Returns what a backslash begins, by the bytes behind it.
pub fn unit_of_backslash(rest: &[u8]) -> TextUnit<'_>
    ensures { model_of_unit result ≡ unit_after_backslash rest.now }
{
    match rest {
        [] => TextUnit::Byte(b'\\'),
        [b'\n', ..] => TextUnit::Continuation(false),
        [b'\r', b'\n', ..] => TextUnit::Continuation(true),
        [byte, ..] => TextUnit::Pair(*byte),
    }
}

/// Returns the unit that begins the text. None does at a line end and at the text's end.
pub fn unit_at(left: LeftContext, text: &[u8]) -> Option<TextUnit<'_>>
    ensures { (before : List LineUnit) → LeftAgreesWithUnits left before → model_of_unit_option result ≡ unit_at before text.now }
{
    match text {
        [] | [b'\n', ..] | [b'\r', b'\n', ..] => None,
        [b'\\', rest @ ..] => Some(unit_of_backslash(rest)),
        [b'"', rest @ ..] => Some(TextUnit::Quoted(take_rest_of_quoted_part(rest))),
        [b'#', rest @ ..]
            if !(left.item && begins_digit(rest))
                && !(left.begun == 0 && is_hash_include_tail(rest)) => {
            Some(TextUnit::Comment(take_up_to_line_end(rest)))
        }
        [byte, ..] => Some(TextUnit::Byte(*byte)),
    }
}

impl TextUnit<'_> {
    /// Returns how many bytes the unit has.
    pub fn len(&self) -> usize
        ensures { result ≡ length (bytes_of_unit (model_of_unit self.now)) }
    {
        match self {
            TextUnit::Continuation(false) => 2,
            TextUnit::Continuation(true) => 3,
            TextUnit::Pair(_) => 2,
            TextUnit::Quoted(bytes) => 1 + bytes.len(),
            TextUnit::Comment(bytes) => 1 + bytes.len(),
            TextUnit::Byte(_) => 1,
        }
    }

    /// Returns whether a line that ends behind the unit is open.
    fn leaves_line_open(&self) -> bool
        ensures { (before : List LineUnit) → result ≡ has_open_last_unit (model_of_unit self.now ∷ before) }
    {
        match self {
            TextUnit::Continuation(_) => true,
            TextUnit::Quoted(bytes) => ends_in_lf_or_lone_backslash(bytes),
            TextUnit::Byte(byte) => *byte == b'\\',
            _ => false,
        }
    }

    /// Returns whether the unit is a blank or a continuation.
    #[inline]
    fn is_blank_or_continuation(&self) -> bool
        ensures { result ≡ is_gap_unit (model_of_unit self.now) }
    {
        match self {
            TextUnit::Continuation(_) => true,
            TextUnit::Byte(byte) => is_blank(*byte),
            _ => false,
        }
    }
}

impl LeftContext {
    /// Returns what stands left of a line's beginning.
    pub fn left_of_line_start() -> Self
        ensures { (text : List ℕ) (at : ℕ) → LeftDescribesUnits text at result [] }
    {
        LeftContext {
            item: true,
            continues: false,
            begun: 0,
        }
    }

    /// Returns what stands left after a unit.
    #[inline]
    pub fn pass_unit(self, text: &[u8], at: usize, unit: &TextUnit<'_>) -> Self
        requires within { self.begun ≤ at }
        requires stands { UnitStandsAt text.now at (model_of_unit unit.now) }
        ensures { (before : List LineUnit) → LeftDescribesUnits text.now at self before
            → LeftDescribesUnits text.now (at + length (bytes_of_unit (model_of_unit unit.now))) result (model_of_unit unit.now ∷ before) }
    {
        LeftContext {
            item: self.may_id_begin_after(text, at, unit),
            continues: ends_open_after_unit(text, at, unit),
            begun: self.begun_line_len_after(unit),
        }
    }

    /// Returns how many bytes the line has behind a unit, without the blanks and continuations that it begins with.
    #[inline]
    fn begun_line_len_after(self, unit: &TextUnit<'_>) -> usize
        requires { self.begun + length (bytes_of_unit (model_of_unit unit.now)) < 2 ^ 64 }
        ensures { result
            ≡ (if self.begun == 0 && is_gap_unit (model_of_unit unit.now) then 0 else self.begun + length (bytes_of_unit (model_of_unit unit.now))) }
    {
        if self.begun == 0 && unit.is_blank_or_continuation() {
            0
        } else {
            self.begun + unit.len()
        }
    }

    /// Returns whether an ID may begin behind a unit.
    #[inline]
    fn may_id_begin_after(self, text: &[u8], at: usize, unit: &TextUnit<'_>) -> bool
        requires within { self.begun ≤ at }
        requires inside { at ≤ length text.now }
        ensures { (before : List LineUnit) → LeftDescribesUnits text.now at self before → result
            ≡ is_id_position_after_units (model_of_unit unit.now ∷ before) }
    {
        match unit {
            TextUnit::Continuation(_) => self.item,
            TextUnit::Byte(byte) if is_blank(*byte) || is_sign_before_id(*byte) => self.item,
            TextUnit::Byte(b'>') => &text[at - self.begun..at] == b"Defaults".as_slice(),
            TextUnit::Byte(byte) => is_comma_colon_or_equals(*byte),
            _ => false,
        }
    }
}
