//! Headers of files in a bundle.

ghost use Rattle.std.specs.Prelude.{◌≡◌, ◌≤◌, ◌<◌, ◌+◌, ◌*◌, ◌^◌, length, IfOk, MatchOption, None, Some, drop};
ghost use Rattle.std.specs.Option.{option_map};
ghost use Rattle.sudoers_bundle.specs.Bundle.{number_of_short_decimal, parts_split_at_byte, value_with_more_digits};

use memchr::memchr;
use std::alloc::{AllocError, Global};
use sudoers_text::append_decimal_number;

/// What stands before the number of a header.
pub const MARK: &[u8] = b"%% ";

/// How many digits the number of a header has at most.
const MAX_DIGITS: usize = 7;

/// Returns the bytes of `bytes` before the first byte `byte`, and those after it, if it is there.
pub fn split_around_byte(byte: u8, bytes: &[u8]) -> Option<(&[u8], &[u8])>
    ensures { option_map (λ parts. (parts.0.now, parts.1.now)) result ≡ parts_split_at_byte byte bytes.now }
{
    match memchr(byte, bytes) {
        Some(at) => Some((&bytes[..at], &bytes[at + 1..])),
        None => None,
    }
}

/// Returns the number of which `word` is the decimal. It has at most seven digits.
///
/// # Errors
///
/// Memory ran out.
pub fn parse_short_decimal(alloc: Global, word: &[u8]) -> Result<Option<usize>, AllocError>
    ensures { IfOk result (λ number. number ≡ number_of_short_decimal word.now) }
{
    if word.len() > MAX_DIGITS {
        return Ok(None);
    }
    let number = value_of_digits(word);
    let mut decimal = Vec::new(alloc);
    append_decimal_number(alloc, &mut decimal, number)?;
    if decimal.as_slice() != word {
        return Ok(None);
    }
    Ok(Some(number))
}

/// Returns the number that the digits `digits` write.
fn value_of_digits(digits: &[u8]) -> usize
    requires { length digits.now ≤ 7 }
    ensures { result ≡ value_with_more_digits 0 digits.now }
{
    let mut value: usize = 0;
    for digit in digits {
        value = value * 10 + digit.saturating_sub(b'0') as usize;
    }
    value
}
