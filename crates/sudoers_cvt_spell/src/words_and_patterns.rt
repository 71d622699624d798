//! Words and patterns as they are spelled (sudoers(5), Other special characters and reserved words).

ghost use Rattle.std.specs.Prelude.{◌≡◌, ◌<◌, ◌≤◌, ◌++◌, OnOk, length, List, ℕ};
ghost use Rattle.sudoers_grammar.specs.Pattern.{is_dropped_backslash_before};
ghost use Rattle.sudoers_cvt_spell.specs.internal.Fronts.{IsFront};
ghost use Rattle.sudoers_cvt_spell.specs.Spelling.{is_word_escape_needed, is_control, lower_hex_digit, spelled_word_byte, spelled_word, escaped_pattern, text_with_backslash_if_misread};

use crate::appending::append_bytes;
use std::alloc::AllocError;
use sudoers_grammar::PatternSpelling;

/// Returns whether a backslash stands before `byte` in a word.
fn is_escaped_in_word(byte: u8) -> bool
    ensures { result ≡ is_word_escape_needed byte }
{
    matches!(
        byte,
        b'!' | b'=' | b':' | b',' | b'(' | b')' | b'\\' | b'"' | b'#' | b' ' | b'\t'
    )
}

/// Returns whether `byte` is spelled by hexadecimal digits.
pub fn is_control(byte: u8) -> bool
    ensures { result ≡ is_control byte }
{
    byte < 32 || byte == 127
}

/// Returns a hexadecimal digit.
fn hex_digit_of_number(number: u8) -> u8
    requires { number < 16 }
    ensures { result ≡ lower_hex_digit number }
{
    if number < 10 {
        b'0' + number
    } else {
        b'W' + number
    }
}

/// Appends a byte of a word.
fn append_word_byte(out: &mut Vec<u8>, byte: u8) -> Result<(), AllocError>
    ensures appended { OnOk result (out.new.items ≡ out.old.items ++ spelled_word_byte byte) }
    ensures front { IsFront out.old.items out.new.items }
{
    if is_escaped_in_word(byte) {
        append_bytes(out, &[b'\\', byte])
    } else if is_control(byte) {
        append_bytes(
            out,
            &[
                b'\\',
                b'x',
                hex_digit_of_number(byte / 16),
                hex_digit_of_number(byte % 16),
            ],
        )
    } else {
        append_bytes(out, &[byte])
    }
}

/// Appends the word that has the value `value`.
///
/// # Errors
///
/// Memory ran out.
pub fn append_spelled_word(out: &mut Vec<u8>, value: &[u8]) -> Result<(), AllocError>
    ensures appended { OnOk result (out.new.items ≡ out.old.items ++ spelled_word value.now) }
    ensures front { IsFront out.old.items out.new.items }
{
    let mut printed = 0;
    for (at, byte) in value.iter().enumerate() {
        if is_escaped_in_word(*byte) || is_control(*byte) {
            append_bytes(out, &value[printed..at])?;
            append_word_byte(out, *byte)?;
            printed = at + 1;
        }
    }
    append_bytes(out, &value[printed..])
}

/// Returns whether reading drops a backslash before `byte` in such a pattern.
pub fn is_backslash_before_pattern_byte_dropped(spelling: PatternSpelling, byte: u8) -> bool
    ensures { result ≡ is_dropped_backslash_before spelling byte }
{
    match spelling {
        PatternSpelling::Command => matches!(byte, b',' | b':' | b'=' | b'#' | b'"' | b' ' | b'\t'),
        PatternSpelling::Host => matches!(
            byte,
            b',' | b':' | b'=' | b'#' | b'"' | b' ' | b'\t' | b'!' | b'(' | b')'
        ),
        PatternSpelling::QuotedHost => byte == b'"',
    }
}

/// Appends a pattern.
///
/// # Errors
///
/// Memory ran out.
pub fn append_escaped_pattern(
    out: &mut Vec<u8>,
    spelling: PatternSpelling,
    pattern: &[u8],
) -> Result<(), AllocError>
    ensures appended { OnOk result (out.new.items ≡ out.old.items ++ escaped_pattern spelling pattern.now) }
    ensures front { IsFront out.old.items out.new.items }
{
    let mut printed = 0;
    for (at, byte) in pattern.iter().enumerate() {
        if is_backslash_before_pattern_byte_dropped(spelling, *byte) {
            append_bytes(out, &pattern[printed..at])?;
            append_bytes(out, &[b'\\', *byte])?;
            printed = at + 1;
        }
    }
    append_bytes(out, &pattern[printed..])
}

/// Inserts a backslash before the text that begins at `start`, if it would be read as something else.
///
/// # Errors
///
/// Memory ran out.
#[tactic(auto, using(crate::proofs::Fronts::text_keeps_front_before_insertion))]
pub fn insert_backslash_if_misread(
    out: &mut Vec<u8>,
    start: usize,
    reads_else: bool,
) -> Result<(), AllocError>
    requires { start ≤ length out.old.items }
    ensures inserted { OnOk result ((front text : List ℕ) → length front ≡ start → out.old.items ≡ front ++ text
        → out.new.items ≡ front ++ text_with_backslash_if_misread reads_else text) }
    ensures front { (front : List ℕ) → length front ≡ start → IsFront front out.old.items → IsFront front out.new.items }
{
    if reads_else {
        out.insert(start, b'\\')?;
    }
    Ok(())
}
