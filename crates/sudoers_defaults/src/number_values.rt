//! Values that are numbers, as C's library reads them.

ghost use Rattle.std.specs.Prelude.{◌≡◌, ◌≤◌, ◌^◌, ◌++◌, length, IfSome};
ghost use Rattle.std.specs.List.{list_all};
ghost use Rattle.sudoers_text.specs.Unit.{is_digit};
ghost use Rattle.sudoers_grammar.specs.Number.{parts_around_first_byte};
ghost use Rattle.sudoers_grammar.specs.Seen.{model_of_split_parts};
ghost use Rattle.sudoers_defaults.specs.Numbers.{is_octal_digit, is_octal_number_of_digits, is_space, is_zero, number_extended_up_to, number_up_to, signed_number_up_to, text_after_sign, text_after_spaces};
ghost use Rattle.sudoers_defaults.specs.Values.{are_digits_around_point, are_limits, are_minutes, is_integer, is_limit, is_minutes, is_mode, is_number_of_minutes, is_plain_minutes, is_resource_limit, is_small_number, is_unsigned, most_minutes, nine_digits};

use sudoers_grammar::is_digit_string;

/// The limits of the numbers of C's types, and of minutes that are fewer than 2 ^ 63 seconds, with nine digits behind the point.
const MOST_BELOW_ZERO: u128 = 2_147_483_648;

pub const MOST_INTEGER: u128 = 2_147_483_647;

const MOST_UNSIGNED: u128 = 4_294_967_295;

const MOST_LIMIT: u128 = 18_446_744_073_709_551_615;

const MOST_WHOLE_MINUTES: u128 = 153_722_867_280_912_930;

const MOST_MINUTES: u128 = 153_722_867_280_912_930_133_333_333;

/// The greatest number, and the number of bytes, that sudo-rs reads as a number.
const MOST_SMALL: u128 = 1_000;

const SMALL_NUMBER_SIZE: usize = 18;

/// How many digits of an octal mode may be no zeros.
const MODE_DIGITS: usize = 3;

/// How many digits behind a point count; as many zeros.
const FRACTION_DIGITS: usize = 9;

const FRACTION_ZEROS: &[u8] = b"000000000";

/// Returns whether `byte` is a decimal digit.
fn is_digit(byte: u8) -> bool
    ensures { result ≡ is_digit byte }
{
    byte.is_ascii_digit()
}

/// Returns whether all bytes are decimal digits.
fn are_digits(text: &[u8]) -> bool
    ensures { result ≡ list_all is_digit text.now }
{
    text.iter().all(|byte| is_digit(*byte))
}

/// Returns whether `byte` is a blank, or a control byte from tab to CR.
fn is_space(byte: u8) -> bool
    ensures { result ≡ is_space byte }
{
    byte == b' ' || (9 <= byte && byte <= 13)
}

/// Returns what follows the spaces with which `text` begins.
fn skip_spaces(text: &[u8]) -> &[u8]
    ensures { result.now ≡ text_after_spaces text.now }
{
    for (at, byte) in text.iter().enumerate() {
        if !is_space(*byte) {
            return &text[at..];
        }
    }
    b""
}

/// Returns what follows the sign with which `text` may begin.
fn skip_sign(text: &[u8]) -> &[u8]
    ensures { result.now ≡ text_after_sign text.now }
{
    match text.split_first() {
        Some((b'+', rest)) | Some((b'-', rest)) => rest,
        _ => text,
    }
}

/// Returns the number that `digits` are behind the digits of `front`, if it is not above the limit.
fn extend_number_up_to(limit: u128, front: u128, digits: &[u8]) -> Option<u128>
    requires small { limit ≤ 2 ^ 100 }
    requires within { front ≤ limit }
    ensures value { result ≡ number_extended_up_to limit front digits.now }
    ensures within { IfSome result (λ number. number ≤ limit) }
{
    let mut number = front;
    for digit in digits {
        number = number * 10 + u128::from(digit.saturating_sub(b'0'));
        if number > limit {
            return None;
        }
    }
    Some(number)
}

/// Returns the number that the digits of two texts are behind the digits of `front`, if it is not above the limit.
#[tactic(auto, using(crate::proofs::Numbers::number_extended_in_parts))]
fn extend_number_by_parts_up_to(
    limit: u128,
    front: u128,
    digits: &[u8],
    rest: &[u8],
) -> Option<u128>
    requires small { limit ≤ 2 ^ 100 }
    requires within { front ≤ limit }
    ensures value { result ≡ number_extended_up_to limit front (digits.now ++ rest.now) }
    ensures within { IfSome result (λ number. number ≤ limit) }
{
    let number = extend_number_up_to(limit, front, digits)?;
    extend_number_up_to(limit, number, rest)
}

/// Returns the number that the digits of `text` are, if it is not above the limit.
fn read_number_up_to(limit: u128, text: &[u8]) -> Option<u128>
    requires { limit ≤ 2 ^ 100 }
    ensures value { result ≡ number_up_to limit text.now }
    ensures within { IfSome result (λ number. number ≤ limit) }
{
    if is_digit_string(text) {
        extend_number_up_to(limit, 0, text)
    } else {
        None
    }
}

/// Returns the number of `text` behind spaces and a sign: behind `-` one up to `below`, else one up to `above`.
pub fn read_signed_number_up_to(below: u128, above: u128, text: &[u8]) -> Option<u128>
    requires below { below ≤ 2 ^ 100 }
    requires above { above ≤ 2 ^ 100 }
    ensures value { result ≡ signed_number_up_to below above text.now }
{
    let signed = skip_spaces(text);
    let limit = if signed.first() == Some(&b'-') {
        below
    } else {
        above
    };
    read_number_up_to(limit, skip_sign(signed))
}

/// Returns whether `value` is a whole number of C's type `int`.
pub fn is_integer(value: &[u8]) -> bool
    ensures { result ≡ is_integer value.now }
{
    read_signed_number_up_to(MOST_BELOW_ZERO, MOST_INTEGER, value).is_some()
}

/// Returns whether `value` is a number of C's type `unsigned int`.
pub fn is_unsigned(value: &[u8]) -> bool
    ensures { result ≡ is_unsigned value.now }
{
    read_signed_number_up_to(0, MOST_UNSIGNED, value).is_some()
}

/// Returns whether `byte` is an octal digit.
fn is_octal_digit(byte: u8) -> bool
    ensures { result ≡ is_octal_digit byte }
{
    b'0' <= byte && byte <= b'7'
}

/// Returns whether all bytes are octal digits.
fn are_octal_digits(text: &[u8]) -> bool
    ensures { result ≡ list_all is_octal_digit text.now }
{
    text.iter().all(|byte| is_octal_digit(*byte))
}

/// Returns whether all bytes are zeros.
fn are_zeros(text: &[u8]) -> bool
    ensures { result ≡ list_all is_zero text.now }
{
    text.iter().all(|byte| is_zero(*byte))
}

/// Returns whether `byte` is the digit 0.
fn is_zero(byte: u8) -> bool
    ensures { result ≡ is_zero byte }
{
    byte == b'0'
}

/// Returns whether `text` is octal digits, of which all but the last `most` are zeros.
fn is_octal_number_of_digits(most: usize, text: &[u8]) -> bool
    ensures { result ≡ is_octal_number_of_digits most text.now }
{
    let leading = &text[..text.len().saturating_sub(most)];
    0 < text.len() && are_octal_digits(text) && are_zeros(leading)
}

/// Returns whether `value` is an octal mode up to 0777.
pub fn is_mode(value: &[u8]) -> bool
    ensures { result ≡ is_mode value.now }
{
    let signed = skip_spaces(value);
    let most = if signed.first() == Some(&b'-') {
        0
    } else {
        MODE_DIGITS
    };
    is_octal_number_of_digits(most, skip_sign(signed))
}

/// Returns whether `value` is a number up to 1,000 that sudo-rs reads.
pub fn is_small_number(value: &[u8]) -> bool
    ensures { result ≡ is_small_number value.now }
{
    value.len() <= SMALL_NUMBER_SIZE && read_number_up_to(MOST_SMALL, value).is_some()
}

/// Returns whether `value` is minutes that sudo-rs reads, perhaps with a fraction.
pub fn is_plain_minutes(value: &[u8]) -> bool
    ensures { result ≡ is_plain_minutes value.now }
{
    value.len() <= SMALL_NUMBER_SIZE && are_digits_around_point(value)
}

/// Returns whether `text` is a whole number of minutes that are fewer than 2 ^ 63 seconds.
fn is_number_of_minutes(text: &[u8]) -> bool
    ensures { result ≡ is_number_of_minutes text.now }
{
    read_number_up_to(MOST_WHOLE_MINUTES, text).is_some()
}

/// Returns whether `text` is minutes, perhaps with a point and digits behind it.
fn are_digits_around_point(text: &[u8]) -> bool
    ensures { result ≡ are_digits_around_point text.now (parts_around_first_byte 46 text.now) }
{
    match split_at_byte(b'.', text) {
        Some((whole, fraction)) => is_number_of_minutes(whole) && is_digit_string(fraction),
        None => is_number_of_minutes(text),
    }
}

/// Returns whether `value` is minutes, perhaps with a fraction.
pub fn is_minutes(value: &[u8]) -> bool
    ensures { result ≡ is_minutes value.now }
{
    let number = skip_sign(value);
    match split_at_byte(b'.', number) {
        Some((whole, fraction)) => are_minutes(whole, fraction),
        None => are_minutes(number, b""),
    }
}

/// Returns whether these are digits before and behind the point of so many minutes. What follows nine digits is not looked at.
fn are_minutes(whole: &[u8], fraction: &[u8]) -> bool
    ensures { result ≡ are_minutes (whole.now, fraction.now) }
{
    let counted = &fraction[..fraction.len().min(FRACTION_DIGITS)];
    are_digits(whole) && are_digits(counted) && read_minutes(whole, fraction).is_some()
}

/// Returns the number of all digits before the point and nine behind it, if so many minutes are fewer than 2 ^ 63 seconds.
#[tactic(auto, using(crate::proofs::Numbers::number_extended_in_parts))]
fn read_minutes(whole: &[u8], fraction: &[u8]) -> Option<u128>
    ensures { result ≡ number_extended_up_to most_minutes 0 (whole.now ++ nine_digits fraction.now) }
{
    let counted = &fraction[..fraction.len().min(FRACTION_DIGITS)];
    let zeros = &FRACTION_ZEROS[..FRACTION_DIGITS.saturating_sub(fraction.len())];
    let number = extend_number_up_to(MOST_MINUTES, 0, whole)?;
    extend_number_by_parts_up_to(MOST_MINUTES, number, counted, zeros)
}

/// Returns whether `value` is a limit of a resource, or two with a comma between them.
pub fn is_resource_limit(value: &[u8]) -> bool
    ensures { result ≡ is_resource_limit value.now }
{
    if value == b"user".as_slice() || value == b"default".as_slice() {
        return true;
    }
    match split_at_byte(b',', value) {
        Some((soft, hard)) => is_limit(soft) && is_limit(hard),
        None => is_limit(value),
    }
}

/// Returns whether `text` is a number below 2 ^ 64, or no limit.
fn is_limit(text: &[u8]) -> bool
    ensures { result ≡ is_limit text.now }
{
    text == b"infinity".as_slice() || read_number_up_to(MOST_LIMIT, text).is_some()
}

/// Returns the bytes before the first `byte`, and those behind it.
pub fn split_at_byte(byte: u8, text: &[u8]) -> Option<(&[u8], &[u8])>
    ensures { model_of_split_parts result ≡ parts_around_first_byte byte text.now }
{
    for (at, found) in text.iter().enumerate() {
        if *found == byte {
            return Some((&text[..at], &text[at + 1..]));
        }
    }
    None
}
