//! The words that sudo reads as addresses.

ghost use Rattle.std.specs.Prelude.{◌≡◌};
ghost use Rattle.sudoers_forms.specs.Addresses.{is_address, is_dotted_pair, is_dotted_quad, is_dotted_triple, is_number_of_digits_up_to};

use sudoers_defaults::split_at_byte;
use sudoers_grammar::{begins_with_byte, is_digit_string, number_up_to};

/// Returns whether `text` is a number up to `limit` of at most `size` digits. Of so many, the first is no 0.
fn is_number_of_digits_up_to(size: usize, limit: u32, text: &[u8]) -> bool
    ensures { result ≡ is_number_of_digits_up_to size limit text.now }
{
    is_digit_string(text)
        && text.len() <= size
        && number_up_to(limit, text).is_some()
        && !(text.len() == size && begins_with_byte(b'0', text))
}

/// Returns whether `text` is a number up to 255.
fn is_octet(text: &[u8]) -> bool
    ensures { result ≡ is_number_of_digits_up_to 3 255 text.now }
{
    is_number_of_digits_up_to(3, 255, text)
}

/// Returns whether `text` is two such numbers with a point between.
fn is_dotted_pair(text: &[u8]) -> bool
    ensures { result ≡ is_dotted_pair text.now }
{
    match split_at_byte(b'.', text) {
        Some((first, rest)) => is_octet(first) && is_octet(rest),
        None => false,
    }
}

/// Returns whether `text` is three such numbers with points between.
fn is_dotted_triple(text: &[u8]) -> bool
    ensures { result ≡ is_dotted_triple text.now }
{
    match split_at_byte(b'.', text) {
        Some((first, rest)) => is_octet(first) && is_dotted_pair(rest),
        None => false,
    }
}

/// Returns whether `text` is four such numbers with points between.
fn is_dotted_quad(text: &[u8]) -> bool
    ensures { result ≡ is_dotted_quad text.now }
{
    match split_at_byte(b'.', text) {
        Some((first, rest)) => is_octet(first) && is_dotted_triple(rest),
        None => false,
    }
}

/// Returns whether sudo reads `text` as an address, or as an address and a mask.
pub fn is_address(text: &[u8]) -> bool
    ensures { result ≡ is_address text.now }
{
    match split_at_byte(b'/', text) {
        Some((number, mask)) => {
            is_dotted_quad(number)
                && (is_dotted_quad(mask) || is_number_of_digits_up_to(2, 32, mask))
        }
        None => is_dotted_quad(text),
    }
}
