//! Numbers, addresses and time stamps as they are written.

ghost use Rattle.std.specs.Prelude.{◌≡◌, ◌==◌, ◌||◌, ◌≤◌, ◌<◌, ◌+◌, ◌*◌, ◌-◌, length, true, List, ℕ, Option, Some, None, option_map, IfSome, IfNone};
ghost use Rattle.std.specs.List.{list_all};
ghost use Rattle.sudoers_text.specs.Unit.{is_digit};
ghost use Rattle.sudoers_grammar.specs.Number.{number_of_decimal_digits, is_nonempty_digit_string, id_limit, number_if_within_limit, canonical_number_up_to, parts_around_first_byte, address_of_octets, ipv4_number_of_text, network_mask_of_text, network_atom_of_text, is_network_like_text, is_two_digits_within_range, is_time_stamp_size, has_valid_stamp_month_day_hour, has_valid_stamp_minutes_and_seconds, is_time_stamp_text};
ghost use Rattle.sudoers_grammar.specs.Seen.{model_of_split_parts};

use crate::node::{Address, Atom, Mask};
use crate::token_with_text::{begins_with_byte, ends_with_byte, has_byte};

/// The highest number that an ID may have.
pub const ID_LIMIT: u32 = u32::MAX;

/// Returns whether `byte` is a decimal digit.
fn is_digit(byte: u8) -> bool
    ensures { result ≡ is_digit byte }
{
    byte.is_ascii_digit()
}

/// Returns whether all bytes are digits.
fn are_all_digits(text: &[u8]) -> bool
    ensures { result ≡ list_all is_digit text.now }
{
    text.iter().all(|byte| is_digit(*byte))
}

/// Returns whether the text is one or more digits.
pub fn is_digit_string(text: &[u8]) -> bool
    ensures { result ≡ is_nonempty_digit_string text.now }
{
    0 < text.len() && are_all_digits(text)
}

/// Returns the number that the decimal digits stand for, if it is not above the limit.
pub fn number_up_to(limit: u32, digits: &[u8]) -> Option<u32>
    ensures value { result ≡ number_if_within_limit limit digits.now }
    ensures within { IfSome result (λ number. number ≤ limit) }
{
    let mut number: u64 = 0;
    for digit in digits {
        number = number * 10 + u64::from(digit.saturating_sub(b'0'));
        if number > u64::from(limit) {
            return None;
        }
    }
    u32::try_from(number).ok()
}

/// Returns the number that the digits stand for, if no zero leads them and it is not above the limit.
fn parse_canonical_number(limit: u32, text: &[u8]) -> Option<u32>
    ensures value { result ≡ canonical_number_up_to limit text.now }
    ensures within { IfSome result (λ number. number ≤ limit) }
{
    if is_digit_string(text) && (!begins_with_byte(b'0', text) || text.len() == 1) {
        number_up_to(limit, text)
    } else {
        None
    }
}

/// Returns the bytes before the first `byte`, and those behind it.
fn split_at_first_byte(byte: u8, text: &[u8]) -> Option<(&[u8], &[u8])>
    ensures { model_of_split_parts result ≡ parts_around_first_byte byte text.now }
{
    for (i, b) in text.iter().enumerate() {
        if *b == byte {
            return Some((&text[..i], &text[i + 1..]));
        }
    }
    None
}

/// Returns four numbers up to 255 as one number.
fn join_address_octets(
    a: Option<u32>,
    b: Option<u32>,
    c: Option<u32>,
    d: Option<u32>,
) -> Option<u32>
    requires first { IfSome a (λ n. n ≤ 255) }
    requires second { IfSome b (λ n. n ≤ 255) }
    requires third { IfSome c (λ n. n ≤ 255) }
    requires last { IfSome d (λ n. n ≤ 255) }
    ensures { result ≡ address_of_octets a b c d }
{
    match (a, b, c, d) {
        (Some(a), Some(b), Some(c), Some(d)) => Some(((a * 256 + b) * 256 + c) * 256 + d),
        _ => None,
    }
}

/// Returns the number of an address, `a.b.c.d`.
#[tactic(auto, unfolding(crate::specs::Number::ipv4_number_of_text))]
fn parse_address_number(text: &[u8]) -> Option<u32>
    ensures { result ≡ ipv4_number_of_text text.now }
{
    let (a, rest) = split_at_first_byte(b'.', text)?;
    let (b, rest) = split_at_first_byte(b'.', rest)?;
    let (c, d) = split_at_first_byte(b'.', rest)?;
    join_address_octets(
        parse_canonical_number(255, a),
        parse_canonical_number(255, b),
        parse_canonical_number(255, c),
        parse_canonical_number(255, d),
    )
}

/// Returns an address.
pub fn parse_ipv4_address(text: &[u8]) -> Option<Address>
    ensures { result ≡ option_map (λ n. record { number = n }) (ipv4_number_of_text text.now) }
{
    match parse_address_number(text) {
        Some(number) => Some(Address { number }),
        None => None,
    }
}

/// Returns a network's mask: how many bits, or an address.
#[tactic(auto, unfolding(crate::specs::Number::network_mask_of_text))]
fn parse_network_mask(text: &[u8]) -> Option<Mask>
    ensures { result ≡ network_mask_of_text text.now }
{
    match parse_canonical_number(32, text) {
        Some(bits) => Some(Mask::Bits(bits as u8)),
        None => match parse_ipv4_address(text) {
            Some(address) => Some(Mask::Dotted(address)),
            None => None,
        },
    }
}

/// Returns an address, `/` and a mask.
#[tactic(auto, unfolding(crate::specs::Number::network_atom_of_text))]
pub fn parse_network_atom<'a>(text: &[u8]) -> Option<Atom<'a>>
    ensures { result ≡ network_atom_of_text text.now }
{
    let (front, back) = split_at_first_byte(b'/', text)?;
    let address = parse_ipv4_address(front)?;
    let mask = parse_network_mask(back)?;
    Some(Atom::Network(address, mask))
}

/// Returns whether `byte` can stand in a network.
fn is_network_byte(byte: u8) -> bool
    ensures { result ≡ (is_digit byte || byte == 46 || byte == 47) }
{
    is_digit(byte) || byte == b'.' || byte == b'/'
}

/// Returns whether each byte of `bytes` can stand in a network.
fn are_network_bytes(text: &[u8]) -> bool
    ensures { result ≡ list_all (λ b. is_digit b || b == 46 || b == 47) text.now }
{
    text.iter().all(|byte| is_network_byte(*byte))
}

/// Returns whether `text` is digits, `.` and `/` alone, with a `/` among them.
pub fn is_network_like(text: &[u8]) -> bool
    ensures { result ≡ is_network_like_text text.now }
{
    are_network_bytes(text) && has_byte(b'/', text)
}

/// Returns whether the two bytes of `text` at `at` are digits of a number from `low` to `high`.
fn is_two_digit_number_between(low: u32, high: u32, at: usize, text: &[u8]) -> bool
    requires { at + 2 ≤ length text.now }
    ensures { result ≡ is_two_digits_within_range low high at text.now }
{
    match number_up_to(high, &text[at..at + 2]) {
        Some(number) => low <= number,
        None => false,
    }
}

/// Returns whether the time stamp `text` has a month, a day and an hour that exist.
fn is_stamp_month_day_hour_valid(text: &[u8]) -> bool
    requires { 11 ≤ length text.now }
    ensures { result ≡ has_valid_stamp_month_day_hour text.now }
{
    is_two_digit_number_between(1, 12, 4, text)
        && is_two_digit_number_between(1, 31, 6, text)
        && is_two_digit_number_between(0, 23, 8, text)
}

/// Returns whether the minutes and seconds of the time stamp `text` exist, as far as it has them.
fn are_stamp_minutes_and_seconds_valid(text: &[u8]) -> bool
    requires { 11 ≤ length text.now }
    ensures { result ≡ has_valid_stamp_minutes_and_seconds text.now }
{
    let len = text.len();
    (len == 11 || is_two_digit_number_between(0, 59, 10, text))
        && (len < 15 || is_two_digit_number_between(0, 59, 12, text))
}

/// Returns whether a time stamp can have `len` bytes: 11, 13 or 15.
fn is_time_stamp_len(len: usize) -> bool
    ensures value { result ≡ is_time_stamp_size len }
    ensures least { result ≡ true → 11 ≤ len }
{
    len == 11 || len == 13 || len == 15
}

/// Returns whether `text` is a time stamp (sudoers(5), Date_Spec).
#[tactic(auto, unfolding(crate::specs::Number::is_time_stamp_text))]
pub fn is_time_stamp(text: &[u8]) -> bool
    ensures { result ≡ is_time_stamp_text text.now }
{
    is_time_stamp_len(text.len())
        && ends_with_byte(b'Z', text)
        && are_all_digits(&text[..text.len() - 1])
        && is_stamp_month_day_hour_valid(text)
        && are_stamp_minutes_and_seconds_valid(text)
}
