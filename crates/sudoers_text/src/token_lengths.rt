//! The pieces of a line: how many bytes the longest has that begins the bytes.

ghost use Rattle.std.specs.Prelude.{◌≡◌, ◌==◌, ◌+◌, ◌<◌, ◌≤◌, ◌^◌, length, nat_lt, true, IsTrue};
ghost use Rattle.sudoers_text.specs.Unit.{is_comma_colon_or_equals};
ghost use Rattle.sudoers_text.specs.Part.{size_of_one_matching_byte};
ghost use Rattle.sudoers_text.specs.Piece.{plus_or_minus_equals_size, has_host_or_runas_sign, begins_defaults, defaults_or_at_include_word_size, quoted_argument_rest_size};
ghost use Rattle.sudoers_text.specs.Token.{bad_token_size};
ghost use Rattle.sudoers_text.specs.Found.{size_with_prefix, hash_id_size, optional_colon_id_size, numeric_id_size, colon_and_word_size, non_unix_group_size, command_path_size, argument_size, comment_size_at, hash_include_size_at};

use crate::part::{
    ByteRunKind, argument_units_len, begins_with_given_byte, closed_quote_len, leading_run_len,
    quoted_front_to_inner_separator_len, unclosed_quote_len,
};
use crate::text_units::{
    LeftContext, begins_digit, is_comma_colon_or_equals, is_hash_include_tail, take_up_to_line_end,
};
use crate::word::is_at_sign_include_word;

/// Returns the length with that of a prefix, if there is any length.
#[inline(always)]
fn add_prefix_to_len(prefix: usize, len: usize) -> usize
    requires { prefix + len < 2 ^ 64 }
    ensures { result ≡ size_with_prefix prefix len }
{
    if len == 0 { 0 } else { prefix + len }
}

/// Returns the length of `#` and digits, if an ID may begin there, as `item` says.
#[tactic(auto, unfolding(crate::specs::Found::hash_id_size))]
#[inline(always)]
fn hash_id_len(item: bool, bytes: &[u8]) -> usize
    ensures value { result ≡ hash_id_size item bytes.now }
    ensures within { result ≤ length bytes.now }
{
    match bytes {
        [b'#', rest @ ..] if item => add_prefix_to_len(
            1,
            leading_run_len(ByteRunKind::Digits, rest),
        ),
        _ => 0,
    }
}

/// Returns that length, or the one after a `:`.
#[tactic(auto, unfolding(crate::specs::Found::optional_colon_id_size))]
#[inline(always)]
fn optional_colon_id_len(item: bool, bytes: &[u8]) -> usize
    ensures value { result ≡ optional_colon_id_size item bytes.now }
    ensures within { result ≤ length bytes.now }
{
    match bytes {
        [b':', rest @ ..] => add_prefix_to_len(1, hash_id_len(true, rest)),
        _ => hash_id_len(item, bytes),
    }
}

/// Returns the length of a number: `#`, `%#` or `%:#`, and digits. An ID may begin there if `item` is true.
#[tactic(auto, unfolding(crate::specs::Found::numeric_id_size))]
#[inline(always)]
pub fn numeric_id_len(item: bool, bytes: &[u8]) -> usize
    ensures value { result ≡ numeric_id_size item bytes.now }
    ensures within { result ≤ length bytes.now }
{
    match bytes {
        [b'%', rest @ ..] => add_prefix_to_len(1, optional_colon_id_len(item, rest)),
        _ => hash_id_len(item, bytes),
    }
}

/// Returns the length of `:` and a word.
#[tactic(auto, unfolding(crate::specs::Found::colon_and_word_size))]
#[inline(always)]
fn colon_and_word_len(bytes: &[u8]) -> usize
    ensures value { result ≡ colon_and_word_size bytes.now }
    ensures within { result ≤ length bytes.now }
{
    match bytes {
        [b':', rest @ ..] => add_prefix_to_len(1, leading_run_len(ByteRunKind::Word, rest)),
        _ => 0,
    }
}

/// Returns the length of a non-Unix group: `%:` and a word.
#[tactic(auto, unfolding(crate::specs::Found::non_unix_group_size))]
#[inline(always)]
pub fn non_unix_group_len(bytes: &[u8]) -> usize
    ensures value { result ≡ non_unix_group_size bytes.now }
    ensures within { result ≤ length bytes.now }
{
    match bytes {
        [b'%', rest @ ..] => add_prefix_to_len(1, colon_and_word_len(rest)),
        _ => 0,
    }
}

/// Returns the length of a command's path.
#[tactic(auto, unfolding(crate::specs::Found::command_path_size))]
#[inline(always)]
pub fn command_path_len(bytes: &[u8]) -> usize
    ensures value { result ≡ command_path_size bytes.now }
    ensures within { result ≤ length bytes.now }
{
    match bytes {
        [b'/', ..] => leading_run_len(ByteRunKind::Path, bytes),
        _ => 0,
    }
}

/// Returns the length of `+=` or `-=`.
#[tactic(auto, unfolding(crate::specs::Piece::plus_or_minus_equals_size))]
pub fn plus_or_minus_equals_len(bytes: &[u8]) -> usize
    ensures value { result ≡ plus_or_minus_equals_size bytes.now }
    ensures within { result ≤ length bytes.now }
{
    match bytes {
        [b'+' | b'-', b'=', ..] => 2,
        _ => 0,
    }
}

/// Returns the length of a comment.
#[tactic(auto, using(crate::proofs::Reach::line_end_search_is_within_bytes), unfolding(crate::specs::Found::comment_size_at))]
pub fn comment_len(left: LeftContext, bytes: &[u8]) -> usize
    ensures value { result ≡ comment_size_at left.item (left.begun == 0) bytes.now }
    ensures within { result ≤ length bytes.now }
{
    match bytes {
        [b'#', rest @ ..]
            if !(left.item && begins_digit(rest))
                && !(left.begun == 0 && is_hash_include_tail(rest)) => {
            take_up_to_line_end(rest).len() + 1
        }
        _ => 0,
    }
}

/// Returns the length of the word `#include` or `#includedir` of an include.
#[tactic(auto, unfolding(crate::specs::Found::hash_include_size_at))]
pub fn hash_include_word_len(left: LeftContext, bytes: &[u8]) -> usize
    ensures value { result ≡ hash_include_size_at (left.begun == 0) bytes.now }
    ensures within { result ≤ length bytes.now }
{
    match bytes {
        [b'#', rest @ ..] if left.begun == 0 && is_hash_include_tail(rest) => {
            if rest.starts_with(b"includedir") {
                11
            } else {
                8
            }
        }
        _ => 0,
    }
}

/// Returns whether `@` or `>` begins the bytes.
pub fn begins_host_or_runas_sign(bytes: &[u8]) -> bool
    ensures { result ≡ has_host_or_runas_sign bytes.now }
{
    begins_with_given_byte(b'@', bytes) || begins_with_given_byte(b'>', bytes)
}

/// Returns whether the bytes begin with the word `Defaults`, or with the same before a scope's sign.
pub fn begins_defaults(bytes: &[u8]) -> bool
    ensures value { result ≡ begins_defaults bytes.now }
    ensures within { result ≡ true → 8 ≤ length bytes.now }
{
    bytes.starts_with(b"Defaults")
        && (leading_run_len(ByteRunKind::Word, bytes) == 8
            || begins_host_or_runas_sign(&bytes[8..]))
}

/// Returns the length of `Defaults`, `@include` or `@includedir`.
#[tactic(auto, unfolding(crate::specs::Piece::defaults_or_at_include_word_size))]
pub fn defaults_or_at_include_word_len(bytes: &[u8]) -> usize
    ensures value { result ≡ defaults_or_at_include_word_size bytes.now }
    ensures within { result ≤ length bytes.now }
{
    let word = leading_run_len(ByteRunKind::Word, bytes);
    if begins_defaults(bytes) {
        8
    } else if is_at_sign_include_word(&bytes[..word]) {
        word
    } else {
        0
    }
}

/// Returns whether `,`, `:` or `=` begins the bytes.
#[inline(always)]
pub fn begins_comma_colon_or_equals(bytes: &[u8]) -> bool
    ensures value { result ≡ nat_lt 0 (size_of_one_matching_byte is_comma_colon_or_equals bytes.now) }
    ensures some { IsTrue result → 0 < length bytes.now }
{
    match bytes {
        [byte, ..] => is_comma_colon_or_equals(*byte),
        [] => false,
    }
}

/// Returns the length of an argument of a command.
#[tactic(auto, unfolding(crate::specs::Found::argument_size))]
pub fn argument_len(bytes: &[u8]) -> usize
    ensures value { result ≡ argument_size bytes.now }
    ensures within { result ≤ length bytes.now }
{
    let whole = argument_units_len(bytes);
    whole + quoted_front_to_inner_separator_len(&bytes[whole..])
}

/// Returns the length of the rest of an argument, inside a quoted part.
#[tactic(auto, unfolding(crate::specs::Piece::quoted_argument_rest_size))]
pub fn quoted_argument_rest_len(bytes: &[u8]) -> usize
    ensures value { result ≡ quoted_argument_rest_size bytes.now }
    ensures within { result ≤ length bytes.now }
{
    let clean = leading_run_len(ByteRunKind::Clean, bytes);
    if begins_with_given_byte(b'"', &bytes[clean..]) {
        clean + 1
    } else {
        clean
    }
}

/// Returns the length of what is Bad: all from a `"` on that is never closed, else one byte.
#[tactic(auto, unfolding(crate::specs::Token::bad_token_size))]
pub fn bad_token_len(bytes: &[u8]) -> usize
    ensures value { result ≡ bad_token_size bytes.now }
    ensures within { result ≤ length bytes.now }
{
    match bytes {
        [b'"', rest @ ..] if closed_quote_len(bytes) == 0 => unclosed_quote_len(rest) + 1,
        [_, ..] => 1,
        [] => 0,
    }
}
