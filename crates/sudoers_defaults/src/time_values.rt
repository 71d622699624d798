//! Values that are times with units, as `1h30m`.

ghost use Rattle.std.specs.Prelude.{◌≡◌, ◌≤◌, ◌<◌, [], ◌∷◌, length, IfSome};
ghost use Rattle.sudoers_defaults.specs.Values.{is_time, timed_parts, unit_of_letter};

use crate::number_values::{MOST_INTEGER, read_signed_number_up_to};

/// The seconds of the longest unit, a day.
const LONGEST_UNIT: u128 = 86_400;

/// Returns the seconds of the unit that `letter` names.
fn unit_of_letter(letter: u8) -> Option<u128>
    ensures unit { result ≡ unit_of_letter letter }
    ensures short { IfSome result (λ unit. unit ≤ 86400) }
{
    match letter {
        b'd' | b'D' => Some(86_400),
        b'h' | b'H' => Some(3_600),
        b'm' | b'M' => Some(60),
        b's' | b'S' => Some(1),
        _ => None,
    }
}

/// Returns whether `value` is numbers with units, of fewer than 2 ^ 31 seconds, and perhaps such a number without a unit.
pub fn is_time(value: &[u8]) -> bool
    ensures { result ≡ is_time value.now }
{
    let mut rest = value;
    let mut longest = LONGEST_UNIT;
    let mut seconds: u128 = 0;
    while !rest.is_empty() {
        let part = split_timed_part(rest);
        if part.unit > longest {
            return false;
        }
        let Some(number) = read_signed_number_up_to(0, MOST_INTEGER, part.number) else {
            return false;
        };
        seconds += number * part.unit;
        if seconds > MOST_INTEGER {
            return false;
        }
        longest = part.unit;
        rest = part.behind;
    }
    true
}

/// A number with its unit in seconds, and what stands behind it.
#[derive(Clone, Copy)]
struct TimedPart<'a> {
    number: &'a [u8],
    unit: u128,
    behind: &'a [u8],
}

/// Returns the part with which `text` begins: all before the letter of a unit. Without one its unit is 0.
fn split_timed_part(text: &[u8]) -> TimedPart<'_>
    requires { 0 < length text.now }
    ensures parts { timed_parts [] text.now ≡ (result.number.now, result.unit) ∷ timed_parts [] result.behind.now }
    ensures shorter { length result.behind.now < length text.now }
    ensures short { result.unit ≤ 86400 }
{
    for (at, byte) in text.iter().enumerate() {
        if let Some(unit) = unit_of_letter(*byte) {
            return TimedPart {
                number: &text[..at],
                unit,
                behind: &text[at + 1..],
            };
        }
    }
    TimedPart {
        number: text,
        unit: 0,
        behind: b"",
    }
}
