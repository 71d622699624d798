//! What pieces of a line are made of.

ghost use Rattle.std.specs.Prelude.{◌≡◌, ◌≤◌, ◌∷◌, ℕ, List, length, true};
ghost use Rattle.sudoers_text.specs.declared.part.ByteRunKind.TheVariants as rules;
ghost use Rattle.sudoers_text.specs.Unit.{unit_after_backslash};
ghost use Rattle.sudoers_text.specs.Part.{is_punct, is_byte_of_include_path, is_word_byte, is_path_byte, is_value_byte, is_quoted_byte, is_quoted_byte_but_separator, is_upper, is_alphanumeric, is_byte_of_parameter_name, is_digest_byte, pair_size_of_unit, continuation_size_of_unit, pair_or_continuation_size_of_unit, backslash_unit_size_by, unclosed_quote_unit_size, run_unit_size, reach_of_units, leading_run_size, has_given_first_byte, quotes_and_run_between_size, argument_unit_size, argument_units_size, is_whole_argument, quoted_front_to_inner_separator_size};

use crate::text_units::{
    TextUnit, begins_line_end, is_blank, is_comma_colon_or_equals, unit_of_backslash,
};

/// What a run is made of.
#[derive(Clone, Copy)]
pub enum ByteRunKind {
    /// Blanks and continuations.
    Gap,
    Digits,
    /// Letters, digits and `_`.
    Name,
    /// Letters, digits, `+`, `/` and `=`.
    Digest,
    /// Bytes of a word, and pairs.
    Word,
    /// Bytes of an include's path, and pairs.
    IncludePath,
    /// Bytes of a command's path, and pairs.
    Path,
    /// Bytes of a parameter's value, and pairs.
    Value,
    /// What may stand in a quoted part.
    Quote,
    /// The same without `,`, `:` and `=`.
    Clean,
}

/// Returns whether `byte` is one of `!`, `=`, `:`, `,`, `(` and `)`.
#[inline(always)]
pub fn is_punct(byte: u8) -> bool
    ensures { result ≡ is_punct byte }
{
    matches!(byte, b'!' | b'=' | b':' | b',' | b'(' | b')')
}

/// How many of these kinds take each byte for itself: include's path, parameter's value, command's path and word. The bytes of each kind are
/// bytes of the kinds before it.
static KINDS_OF_BYTE: [u8; 256] = *b"\
    04444444400440444444444444444444\
    03004444334414444444444444244244\
    44444444444444444444444444440444\
    44444444444444444444444444444444\
    44444444444444444444444444444444\
    44444444444444444444444444444444\
    44444444444444444444444444444444\
    44444444444444444444444444444444";

/// Returns whether `byte` stands for itself in the path of an include.
#[inline(always)]
fn is_include_path_byte(byte: u8) -> bool
    ensures { result ≡ is_byte_of_include_path byte }
{
    KINDS_OF_BYTE[byte as usize] >= b'1'
}

/// Returns whether `byte` stands for itself in a word.
#[inline(always)]
fn is_word_byte(byte: u8) -> bool
    ensures { result ≡ is_word_byte byte }
{
    KINDS_OF_BYTE[byte as usize] >= b'4'
}

/// Returns whether `byte` stands for itself in a command's path, and in an argument.
#[inline(always)]
fn is_path_byte(byte: u8) -> bool
    ensures { result ≡ is_path_byte byte }
{
    KINDS_OF_BYTE[byte as usize] >= b'3'
}

/// Returns whether `byte` stands for itself in a parameter's value.
#[inline(always)]
fn is_value_byte(byte: u8) -> bool
    ensures { result ≡ is_value_byte byte }
{
    KINDS_OF_BYTE[byte as usize] >= b'2'
}

/// Returns whether `byte` stands for itself in a quoted part.
#[inline(always)]
fn is_quoted_byte(byte: u8) -> bool
    ensures { result ≡ is_quoted_byte byte }
{
    !matches!(byte, b'\n' | b'\r' | b'"' | b'\\')
}

/// Returns the same, but for `,`, `:` and `=`.
#[inline(always)]
fn is_quoted_non_separator_byte(byte: u8) -> bool
    ensures { result ≡ is_quoted_byte_but_separator byte }
{
    is_quoted_byte(byte) && !is_comma_colon_or_equals(byte)
}

/// Returns whether `byte` is an upper-case letter.
#[inline(always)]
pub fn is_upper(byte: u8) -> bool
    ensures { result ≡ is_upper byte }
{
    byte.is_ascii_uppercase()
}

/// Returns whether `byte` is a letter or a digit.
#[inline(always)]
fn is_alphanumeric(byte: u8) -> bool
    ensures { result ≡ is_alphanumeric byte }
{
    byte.is_ascii_digit() || is_upper(byte) || byte.is_ascii_lowercase()
}

/// Returns whether `byte` can stand in a parameter's name.
#[inline(always)]
fn is_parameter_name_byte(byte: u8) -> bool
    ensures { result ≡ is_byte_of_parameter_name byte }
{
    is_alphanumeric(byte) || byte == b'_'
}

/// Returns whether `byte` can stand in a digest.
#[inline(always)]
fn is_digest_byte(byte: u8) -> bool
    ensures { result ≡ is_digest_byte byte }
{
    is_alphanumeric(byte) || byte == b'+' || byte == b'/' || byte == b'='
}

/// Returns how many bytes the pair has that a backslash before the bytes begins, or none.
#[inline(never)]
fn len_of_pair_behind_backslash(rest: &[u8]) -> usize
    ensures { result ≡ pair_size_of_unit (unit_after_backslash rest.now) }
{
    match unit_of_backslash(rest) {
        TextUnit::Pair(byte) if byte != b'\r' => 2,
        _ => 0,
    }
}

/// Returns how many bytes the pair has that begins the bytes, or none.
#[inline(always)]
fn backslash_pair_len(bytes: &[u8]) -> usize
    ensures { result ≡ backslash_unit_size_by pair_size_of_unit bytes.now }
{
    match bytes {
        [b'\\', rest @ ..] => len_of_pair_behind_backslash(rest),
        _ => 0,
    }
}

/// Returns how many bytes the continuation has that begins the bytes, or none.
fn continuation_len(bytes: &[u8]) -> usize
    ensures { result ≡ backslash_unit_size_by continuation_size_of_unit bytes.now }
{
    match bytes {
        [b'\\', rest @ ..] => match unit_of_backslash(rest) {
            TextUnit::Continuation(crlf) => 2 + usize::from(crlf),
            _ => 0,
        },
        _ => 0,
    }
}

/// Returns how many bytes the pair or continuation has that begins the bytes, or none.
fn pair_or_continuation_len(bytes: &[u8]) -> usize
    ensures { result ≡ backslash_unit_size_by pair_or_continuation_size_of_unit bytes.now }
{
    match bytes {
        [b'\\', rest @ ..] => match unit_of_backslash(rest) {
            TextUnit::Continuation(crlf) => 2 + usize::from(crlf),
            TextUnit::Pair(byte) if byte != b'\r' => 2,
            _ => 0,
        },
        _ => 0,
    }
}

/// Returns how many bytes the unit has that begins the bytes behind a `"` that is never closed, or none.
#[tactic(auto, using(crate::proofs::Reach::unclosed_quote_size_is_within_bytes))]
fn unclosed_quote_unit_len(bytes: &[u8]) -> usize
    ensures value { result ≡ unclosed_quote_unit_size bytes.now }
    ensures within { result ≤ length bytes.now }
{
    if begins_line_end(bytes) {
        return 0;
    }
    match bytes {
        [b'\\', rest @ ..] => unit_of_backslash(rest).len(),
        [_, ..] => 1,
        [] => 0,
    }
}

/// Returns how many bytes the unit has that begins the bytes, or none.
#[tactic(auto, using(crate::proofs::Reach::run_unit_size_is_within_bytes))]
#[inline(always)]
fn run_unit_len(rule: ByteRunKind, bytes: &[u8]) -> usize
    ensures value { result ≡ run_unit_size rule bytes.now }
    ensures within { result ≤ length bytes.now }
{
    match (rule, bytes) {
        (_, []) => 0,
        (ByteRunKind::Gap, [byte, ..]) if is_blank(*byte) => 1,
        (ByteRunKind::Gap, _) => continuation_len(bytes),
        (ByteRunKind::Digits, [byte, ..]) => usize::from(byte.is_ascii_digit()),
        (ByteRunKind::Name, [byte, ..]) => usize::from(is_parameter_name_byte(*byte)),
        (ByteRunKind::Digest, [byte, ..]) => usize::from(is_digest_byte(*byte)),
        (ByteRunKind::Word, [byte, ..]) if is_word_byte(*byte) => 1,
        (ByteRunKind::IncludePath, [byte, ..]) if is_include_path_byte(*byte) => 1,
        (ByteRunKind::Path, [byte, ..]) if is_path_byte(*byte) => 1,
        (ByteRunKind::Value, [byte, ..]) if is_value_byte(*byte) => 1,
        (
            ByteRunKind::Word | ByteRunKind::IncludePath | ByteRunKind::Path | ByteRunKind::Value,
            _,
        ) => backslash_pair_len(bytes),
        (ByteRunKind::Quote, [byte, ..]) if is_quoted_byte(*byte) => 1,
        (ByteRunKind::Clean, [byte, ..]) if is_quoted_non_separator_byte(*byte) => 1,
        (ByteRunKind::Quote | ByteRunKind::Clean, _) => pair_or_continuation_len(bytes),
    }
}

/// Returns whether `byte` is a unit of its own in runs of this kind.
#[inline(always)]
fn is_unit_of_run(rule: ByteRunKind, byte: u8) -> bool
    ensures { result ≡ true → (rest : List ℕ) → run_unit_size rule (byte ∷ rest) ≡ 1 }
{
    match rule {
        ByteRunKind::Gap => is_blank(byte),
        ByteRunKind::Digits => byte.is_ascii_digit(),
        ByteRunKind::Name => is_parameter_name_byte(byte),
        ByteRunKind::Digest => is_digest_byte(byte),
        ByteRunKind::Word => is_word_byte(byte),
        ByteRunKind::IncludePath => is_include_path_byte(byte),
        ByteRunKind::Path => is_path_byte(byte),
        ByteRunKind::Value => is_value_byte(byte),
        ByteRunKind::Quote => is_quoted_byte(byte),
        ByteRunKind::Clean => is_quoted_non_separator_byte(byte),
    }
}

/// Returns how many bytes the units have that begin the bytes, one after another. Most units are one byte.
#[tactic(auto, unfolding(crate::specs::Part::leading_run_size))]
#[inline(always)]
pub fn leading_run_len(rule: ByteRunKind, bytes: &[u8]) -> usize
    ensures value { result ≡ leading_run_size rule bytes.now }
    ensures within { result ≤ length bytes.now }
{
    let mut len = 0;
    while len < bytes.len() {
        if is_unit_of_run(rule, bytes[len]) {
            len += 1;
        } else {
            let unit = run_unit_len(rule, &bytes[len..]);
            if unit == 0 {
                return len;
            }
            len += unit;
        }
    }
    len
}

/// Returns how many bytes a line has behind a `"` that is never closed, without its line end.
pub fn unclosed_quote_len(bytes: &[u8]) -> usize
    ensures value { result ≡ reach_of_units unclosed_quote_unit_size 0 bytes.now }
    ensures within { result ≤ length bytes.now }
{
    let mut len = 0;
    while len < bytes.len() {
        let unit = unclosed_quote_unit_len(&bytes[len..]);
        if unit == 0 {
            break;
        }
        len += unit;
    }
    len
}

/// Returns whether the byte begins the bytes.
pub fn begins_with_given_byte(byte: u8, bytes: &[u8]) -> bool
    ensures { result ≡ has_given_first_byte byte bytes.now }
{
    match bytes {
        [first, ..] => *first == byte,
        [] => false,
    }
}

/// Returns how many bytes have the quotes that begin the bytes and a run between them, or none.
#[tactic(auto, unfolding(crate::specs::Part::quotes_and_run_between_size))]
fn quotes_and_run_between_len(rule: ByteRunKind, bytes: &[u8]) -> usize
    ensures value { result ≡ quotes_and_run_between_size rule bytes.now }
    ensures within { result ≤ length bytes.now }
{
    match bytes {
        [b'"', rest @ ..] => {
            let len = leading_run_len(rule, rest);
            if begins_with_given_byte(b'"', &rest[len..]) {
                len + 2
            } else {
                0
            }
        }
        _ => 0,
    }
}

/// Returns how many bytes the closed quoted part has that begins the bytes, or none.
pub fn closed_quote_len(bytes: &[u8]) -> usize
    ensures value { result ≡ quotes_and_run_between_size rules.Quote bytes.now }
    ensures within { result ≤ length bytes.now }
{
    quotes_and_run_between_len(ByteRunKind::Quote, bytes)
}

/// Returns how many bytes the unit of an argument has that begins the bytes, or none.
#[inline(always)]
fn argument_unit_len(bytes: &[u8]) -> usize
    ensures value { result ≡ argument_unit_size bytes.now }
    ensures within { result ≤ length bytes.now }
{
    match run_unit_len(ByteRunKind::Path, bytes) {
        0 => quotes_and_run_between_len(ByteRunKind::Clean, bytes),
        len => len,
    }
}

/// Returns how many bytes the units of an argument have that begin the bytes, one after another.
#[tactic(auto, unfolding(crate::specs::Part::argument_units_size))]
pub fn argument_units_len(bytes: &[u8]) -> usize
    ensures value { result ≡ argument_units_size bytes.now }
    ensures within { result ≤ length bytes.now }
{
    let mut len = 0;
    while len < bytes.len() {
        if is_path_byte(bytes[len]) {
            len += 1;
        } else {
            let unit = argument_unit_len(&bytes[len..]);
            if unit == 0 {
                return len;
            }
            len += unit;
        }
    }
    len
}

/// Returns whether an argument is whole, and no part of a quoted argument that a `,`, `:` or `=` breaks off.
pub fn is_whole_argument(text: &[u8]) -> bool
    ensures { result ≡ is_whole_argument text.now }
{
    argument_units_len(text) == text.len()
}

/// Returns how many bytes the quoted part that begins the bytes has up to a `,`, `:` or `=` in it, or none.
#[tactic(auto, unfolding(crate::specs::Part::quoted_front_to_inner_separator_size))]
pub fn quoted_front_to_inner_separator_len(bytes: &[u8]) -> usize
    ensures value { result ≡ quoted_front_to_inner_separator_size bytes.now }
    ensures within { result ≤ length bytes.now }
{
    match bytes {
        [_, rest @ ..]
            if quotes_and_run_between_len(ByteRunKind::Clean, bytes) == 0
                && closed_quote_len(bytes) != 0 => { leading_run_len(ByteRunKind::Clean, rest) + 1 }
        _ => 0,
    }
}
