//! Physical lines: a text cut behind each LF.
ghost use Rattle.std.specs.Prelude.{◌≡◌, ◌<◌, ◌≤◌, ◌∷◌, take, drop, length};
ghost use Rattle.sudoers_edit_script.specs.Physical.{physical_lines};

use memchr::memchr;

/// Returns how many bytes the first physical line has, its LF included.
pub fn first_physical_line_len(text: &[u8]) -> usize
    requires { 0 < length text.now }
    ensures within { result ≤ length text.now }
    ensures some { 0 < result }
    ensures first { physical_lines text.now ≡ take result text.now ∷ physical_lines (drop result text.now) }
{
    match memchr(b'\n', text) {
        Some(at) => at + 1,
        None => text.len(),
    }
}
