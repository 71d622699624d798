//! What a word stands for.

ghost use Rattle.std.specs.Prelude.{◌≡◌, ◌≤◌, ◌<◌, ◌++◌, length, take, drop, false, IfOk, OnOk, Option, Some, None, true, if◌then◌else◌};
ghost use Rattle.sudoers_text.specs.Value.{is_hex, hex_digit_value, begins_hex_escape, byte_of_hex_escape, leading_blanks_size, escape_tail_size, unescaped_bytes_of_escape, value_of_remaining_bytes, value_of_word};

use crate::text_units::{begins_line_end, is_blank, line_end_len};
use memchr::memchr2;
use std::alloc::{AllocError, Global};

/// Returns whether `byte` is a hexadecimal digit.
fn is_hex(byte: u8) -> bool
    ensures { result ≡ is_hex byte }
{
    byte.is_ascii_hexdigit()
}

/// Returns the number that a hexadecimal digit stands for.
fn number_of_hex_digit(digit: u8) -> u8
    requires { is_hex digit ≡ true }
    ensures value { result ≡ hex_digit_value digit }
    ensures within { result < 16 }
{
    match digit {
        b'0'..=b'9' => digit - b'0',
        b'a'..=b'f' => digit - b'a' + 10,
        _ => digit - b'A' + 10,
    }
}

/// Returns the byte that `x` and two hexadecimal digits are, where they begin the bytes.
fn read_hex_escape_byte(bytes: &[u8]) -> Option<u8>
    ensures { result ≡ (if begins_hex_escape bytes.now then Some (byte_of_hex_escape bytes.now) else None) }
{
    match bytes {
        [b'x', high, low, ..] if is_hex(*high) && is_hex(*low) => {
            Some(number_of_hex_digit(*high) * 16 + number_of_hex_digit(*low))
        }
        _ => None,
    }
}

/// Returns how many blanks the bytes begin with.
pub fn leading_blanks_len(bytes: &[u8]) -> usize
    ensures value { result ≡ leading_blanks_size bytes.now }
    ensures within { result ≤ length bytes.now }
{
    for (i, byte) in bytes.iter().enumerate() {
        if !is_blank(*byte) {
            return i;
        }
    }
    bytes.len()
}

/// Returns how many of the bytes behind a backslash it takes.
fn escape_tail_len(rest: &[u8]) -> usize
    ensures value { result ≡ escape_tail_size rest.now }
    ensures within { result ≤ length rest.now }
{
    if begins_line_end(rest) {
        let line_end = line_end_len(rest);
        line_end + leading_blanks_len(&rest[line_end..])
    } else if read_hex_escape_byte(rest).is_some() {
        3
    } else {
        rest.len().min(1)
    }
}

/// Appends what a backslash and the bytes that it takes stand for.
fn push_unescaped_bytes(value: &mut Vec<u8>, quoted: bool, rest: &[u8]) -> Result<(), AllocError>
    ensures { OnOk result (value.new.items ≡ value.old.items ++ unescaped_bytes_of_escape quoted rest.now) }
{
    if begins_line_end(rest) {
        if !quoted {
            value.push(b' ')?;
        }
    } else if let Some(byte) = read_hex_escape_byte(rest) {
        value.push(byte)?;
    } else {
        match rest {
            [] => value.push(b'\\')?,
            [byte, ..] if quoted && *byte != b'"' => value.extend_from_slice(&[b'\\', *byte])?,
            [byte, ..] => value.push(*byte)?,
        }
    }
    Ok(())
}

/// Returns how many bytes stand before the first quote or backslash.
fn literal_prefix_len(word: &[u8]) -> usize
    ensures within { result ≤ length word.now }
    ensures plain { take result word.now ++ value_of_remaining_bytes 0 false (drop result word.now) ≡ value_of_remaining_bytes 0 false word.now }
{
    memchr2(b'"', b'\\', word).unwrap_or(word.len())
}

/// Returns whether a word has no quotes and no escapes, so that it stands for itself.
pub fn is_own_value(word: &[u8]) -> bool
    ensures { result ≡ true → value_of_word word.now ≡ word.now }
{
    literal_prefix_len(word) == word.len()
}

/// Returns what a word stands for, without its quotes and escapes (sudoers(5), Aliases; Other special characters and reserved words).
///
/// # Errors
///
/// A growth of memory was refused.
#[tactic(auto, using(crate::proofs::Values::value_with_escape_appended_is_same), unfolding(crate::specs::Value::value_of_word))]
pub fn value(alloc: Global, word: &[u8]) -> Result<Vec<u8>, AllocError>
    ensures { IfOk result (λ value. value.items ≡ value_of_word word.now) }
{
    let mut at = literal_prefix_len(word);
    let mut value = Vec::from_slice(alloc, &word[..at])?;
    let mut quoted = false;
    while at < word.len() {
        let byte = word[at];
        at += 1;
        match byte {
            b'"' => quoted = !quoted,
            b'\\' => {
                push_unescaped_bytes(&mut value, quoted, &word[at..])?;
                at += escape_tail_len(&word[at..]);
            }
            _ => value.push(byte)?,
        }
    }
    Ok(value)
}
