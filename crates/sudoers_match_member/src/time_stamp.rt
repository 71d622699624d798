//! Moments as numbers.

ghost use Rattle.std.specs.Prelude.{◌≡◌, ◌<◌, slice_get};
ghost use Rattle.sudoers_match_member.specs.Moment.{digit_or_zero_of_optional_byte, zero_filled_number_of_stamp};

/// How many digits the number of a moment has.
const DIGITS: usize = 14;

/// Returns the digit at a place of a time stamp; 0 if there is none.
fn stamp_digit_at(stamp: &[u8], place: usize) -> u64
    ensures digit { result ≡ digit_or_zero_of_optional_byte (slice_get stamp.now place) }
    ensures small { result < 10 }
{
    match stamp.get(place).copied() {
        Some(byte) if byte.is_ascii_digit() => u64::from(byte - b'0'),
        _ => 0,
    }
}

/// Returns the time stamp `stamp` as a number of 14 digits. Digits that are missing are zero (sudoers(5), Date_Spec).
pub fn convert_stamp_to_zero_filled_number(stamp: &[u8]) -> u64
    ensures { result ≡ zero_filled_number_of_stamp stamp.now }
{
    let mut number: u64 = 0;
    for place in 0..DIGITS {
        number = number * 10 + stamp_digit_at(stamp, place);
    }
    number
}
