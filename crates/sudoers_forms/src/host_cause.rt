//! Why sudo matches other hosts.

ghost use Rattle.std.specs.Prelude.{◌≡◌, false};
ghost use Rattle.sudoers_forms.specs.Answers.{cause_of_host, has_escape_of, has_set_of_others, has_wildcard, special_bytes_of_hosts};

use crate::address::is_address;
use crate::cause::Cause;
use crate::include_form::has_hex_escape;
use crate::spelling::has_byte;
use sudoers_grammar::begins_with_byte;

/// The bytes with a meaning of their own in the pattern of a host.
const SPECIAL_BYTES: &[u8] = b"*?[\\";

/// Returns whether `text` has an escape of one of the bytes `wanted`.
pub fn has_escape_of(wanted: &[u8], text: &[u8]) -> bool
    ensures { result ≡ has_escape_of wanted.now false text.now }
{
    let mut is_escaped = false;
    for byte in text {
        if is_escaped && has_byte(*byte, wanted) {
            return true;
        }
        is_escaped = !is_escaped && *byte == b'\\';
    }
    false
}

/// Returns whether `text` has a set of other bytes: `[^`, whose `[` has no backslash before it.
pub fn has_set_of_others(text: &[u8]) -> bool
    ensures { result ≡ has_set_of_others false text.now }
{
    let mut rest = text;
    let mut is_escaped = false;
    while let Some((first, behind)) = rest.split_first() {
        if !is_escaped && *first == b'[' && begins_with_byte(b'^', behind) {
            return true;
        }
        is_escaped = !is_escaped && *first == b'\\';
        rest = behind;
    }
    false
}

/// Returns whether `text` has a wildcard, escaped or not.
pub fn has_wildcard(text: &[u8]) -> bool
    ensures { result ≡ has_wildcard text.now }
{
    has_byte(b'*', text) || has_byte(b'?', text) || has_byte(b'[', text)
}

/// Returns why sudo matches other hosts by `text`, which has no quotes.
pub fn find_cause_of_host(text: &[u8]) -> Option<Cause>
    ensures { result ≡ cause_of_host text.now }
{
    if is_address(text) && text.ends_with(b"/0") {
        Some(Cause::NoMaskBits)
    } else if is_address(text) && text.starts_with(b"127.") {
        Some(Cause::Loopback)
    } else if has_escape_of(SPECIAL_BYTES, text) {
        Some(Cause::EscapedWildcard)
    } else if has_hex_escape(text) {
        Some(Cause::HostEscape)
    } else if has_set_of_others(text) {
        Some(Cause::SetInHost)
    } else {
        None
    }
}
