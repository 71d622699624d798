//! Whether bytes are one logical line.

ghost use Rattle.std.specs.Prelude.{◌≡◌};
ghost use Rattle.sudoers_text.specs.Whole.{is_logical_line};

use crate::cutting::{find_first_nul, find_logical_line_end};

/// Returns whether the bytes are one logical line with which nothing is wrong, limits aside.
pub fn is_logical_line(text: &[u8]) -> bool
    ensures { result ≡ is_logical_line text.now }
{
    if text.is_empty() {
        return false;
    }
    let end = find_logical_line_end(text, 0);
    end.stop == text.len() && !end.continues && find_first_nul(text) == text.len()
}
