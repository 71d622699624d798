//! What sudo reads of a value, by its spelling.

ghost use Rattle.std.specs.Prelude.{◌≡◌, false};
ghost use Rattle.sudoers_grammar.specs.Piece.{has_byte};
ghost use Rattle.sudoers_defaults.specs.Parameter.{front_to_nul, has_bare_equals, is_no_bare_value, needs_quotes, text_behind_mark_pairs, value_for_sudo};

use crate::number_values::split_at_byte;
use sudoers_grammar::begins_with_byte;

/// Returns whether a value that is spelled so needs quotes.
pub fn has_to_be_quoted(spelling: &[u8]) -> bool
    ensures { result ≡ needs_quotes spelling.now }
{
    !begins_with_byte(b'"', spelling) && is_no_bare_value(skip_mark_pairs(spelling))
}

/// Returns whether `text` is no value without quotes.
fn is_no_bare_value(text: &[u8]) -> bool
    ensures { result ≡ is_no_bare_value text.now }
{
    text.is_empty() || begins_with_byte(b'!', text) || has_bare_equals(text)
}

/// Returns what sudo reads of the value `value`, which is spelled so.
pub fn read_value<'a>(spelling: &'a [u8], value: &'a [u8]) -> &'a [u8]
    ensures { result.now ≡ value_for_sudo spelling.now value.now }
{
    if !begins_with_byte(b'"', spelling) {
        let marks = spelling
            .len()
            .saturating_sub(skip_mark_pairs(spelling).len());
        cut_at_nul(value.get(marks..).unwrap_or(&[]))
    } else if has_byte(b'\n', spelling) {
        value
    } else {
        let behind = spelling.get(1..).unwrap_or(&[]);
        &behind[..spelling.len().saturating_sub(2)]
    }
}

/// Returns whether `byte` stands in `text`.
fn has_byte(byte: u8, text: &[u8]) -> bool
    ensures { result ≡ has_byte byte text.now }
{
    text.iter().any(|one| *one == byte)
}

/// Returns the bytes of `text` before its first NUL.
fn cut_at_nul(text: &[u8]) -> &[u8]
    ensures { result.now ≡ front_to_nul text.now }
{
    match split_at_byte(0, text) {
        Some((front, _)) => front,
        None => text,
    }
}

/// Returns `text` without the pairs of `!` that it begins with.
fn skip_mark_pairs(text: &[u8]) -> &[u8]
    ensures { result.now ≡ text_behind_mark_pairs text.now }
{
    let mut rest = text;
    while let [b'!', b'!', behind @ ..] = rest {
        rest = behind;
    }
    rest
}

/// Returns whether `text` holds a `=` without a backslash.
fn has_bare_equals(text: &[u8]) -> bool
    ensures { result ≡ has_bare_equals false text.now }
{
    let mut is_escaped = false;
    for byte in text {
        if *byte == b'=' && !is_escaped {
            return true;
        }
        is_escaped = *byte == b'\\' && !is_escaped;
    }
    false
}
