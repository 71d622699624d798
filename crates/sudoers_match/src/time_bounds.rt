//! The time stamps that bound a command.

ghost use Rattle.std.specs.Prelude.{◌≡◌};
ghost use Rattle.sudoers_match.specs.Moment.{is_in_option_time_bounds};
ghost use Rattle.sudoers_match.specs.Values.{option_values_of_view};

use crate::options::CommandOptions;
use sudoers_match_member::convert_stamp_to_zero_filled_number;

/// Returns whether `moment` is not before NOTBEFORE and not after NOTAFTER.
pub fn is_within_time_bounds(moment: u64, options: &CommandOptions<'_>) -> bool
    ensures { result ≡ is_in_option_time_bounds moment (option_values_of_view options.now) }
{
    let begun = match options.notbefore {
        Some(stamp) => convert_stamp_to_zero_filled_number(stamp) <= moment,
        None => true,
    };
    let ended = match options.notafter {
        Some(stamp) => moment > convert_stamp_to_zero_filled_number(stamp),
        None => false,
    };
    begun && !ended
}
