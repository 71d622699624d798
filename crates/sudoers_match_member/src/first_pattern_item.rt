//! What begins a pattern.

ghost use Rattle.std.specs.Prelude.{◌≡◌, ◌≢◌, ◌<◌, ◌≤◌, ◌+◌, ◌&&◌, ◌==◌, ℕ, [], false, not, length, get_or};
ghost use Rattle.std.specs.Bool.{beq};
ghost use Rattle.sudoers_match_member.specs.Wildcard.{may_wildcard_take, is_byte_taken_by_item, bracket_item, pattern_item_at, Star};
ghost use Rattle.sudoers_match_member.specs.Folded.{byte_case_folded_if_wanted, bytes_case_folded_if_wanted};

use crate::byte_classes::fold_byte_case_if_wanted;
use crate::byte_sets::read_set;
use crate::wildcards::GlobMode;

/// What begins a pattern and is no `*`: how long it is, and whether it takes a byte.
#[derive(Clone, Copy)]
pub struct PatternItemMatch {
    /// How many bytes of the pattern it is.
    pub len: usize,
    /// Whether it takes the byte.
    pub takes: bool,
}

impl PatternItemMatch {
    /// Returns one byte that takes the byte that is asked, or does not.
    pub fn make_one_byte_item(takes: bool) -> PatternItemMatch
        ensures { result ≡ record { len = 1; takes = takes } }
    {
        PatternItemMatch { len: 1, takes }
    }
}

/// Of a set that has these bytes, or has them not if it is negated, puts into `takes` which bytes it takes.
fn turn_into_taken_bytes(takes: &mut [bool; 256], negated: bool, mode: GlobMode)
    ensures { (b : ℕ) → b < 256 → get_or takes.new b false ≡ (may_wildcard_take mode b && not (beq (get_or takes.old b false) negated)) }
{
    for byte in 0..256 {
        takes[byte] = takes[byte] != negated;
    }
    if !mode.may_wildcard_take_byte(b'/') {
        takes[b'/' as usize] = false;
    }
}

/// Returns how long a `[` is that is a byte, and puts into `takes` which byte it takes.
fn put_bracket_byte(takes: &mut [bool; 256]) -> usize
    ensures len { result ≡ 1 }
    ensures takes { (b : ℕ) → b < 256 → get_or takes.new b false ≡ (b == 91) }
{
    *takes = [false; 256];
    takes[b'[' as usize] = true;
    1
}

/// Returns how long the item is that a `[` before `rest` begins, and puts into `takes` which bytes it takes.
pub fn read_bracket_item(rest: &[u8], mode: GlobMode, lower: bool, takes: &mut [bool; 256]) -> usize
    ensures len { result ≡ (bracket_item (bytes_case_folded_if_wanted lower rest.now)).1 }
    ensures takes { (b : ℕ) → b < 256 → get_or takes.new b false ≡ is_byte_taken_by_item mode (bracket_item (bytes_case_folded_if_wanted lower rest.now)).0 b }
    ensures some { 0 < result }
    ensures within { result ≤ length rest.now + 1 }
{
    let [second, more @ ..] = rest else {
        return put_bracket_byte(takes);
    };
    if fold_byte_case_if_wanted(lower, *second) == b'!' {
        match read_set(more, lower, takes) {
            Some(end) => {
                turn_into_taken_bytes(takes, true, mode);
                end + 3
            }
            None => put_bracket_byte(takes),
        }
    } else {
        match read_set(rest, lower, takes) {
            Some(end) => {
                turn_into_taken_bytes(takes, false, mode);
                end + 2
            }
            None => put_bracket_byte(takes),
        }
    }
}

/// Returns what begins `pattern` and is no `[`.
pub fn match_first_item(pattern: &[u8], byte: u8, mode: GlobMode, lower: bool) -> PatternItemMatch
    requires some { pattern.now ≢ [] }
    requires no_star { (pattern_item_at (bytes_case_folded_if_wanted lower pattern.now)).0 ≢ Star }
    requires no_bracket { byte_case_folded_if_wanted lower (get_or pattern.now 0 0) ≢ 91 }
    ensures len { result.len ≡ (pattern_item_at (bytes_case_folded_if_wanted lower pattern.now)).1 }
    ensures takes { result.takes ≡ is_byte_taken_by_item mode (pattern_item_at (bytes_case_folded_if_wanted lower pattern.now)).0 byte }
    ensures some { 0 < result.len }
    ensures within { result.len ≤ length pattern.now }
{
    let [first, rest @ ..] = pattern else {
        return PatternItemMatch::make_one_byte_item(false);
    };
    match fold_byte_case_if_wanted(lower, *first) {
        b'?' => PatternItemMatch::make_one_byte_item(mode.may_wildcard_take_byte(byte)),
        b'\\' => {
            match rest {
                [escaped, ..] => {
                    PatternItemMatch {
                        len: 2,
                        takes: byte == fold_byte_case_if_wanted(lower, *escaped),
                    }
                }
                [] => PatternItemMatch::make_one_byte_item(byte == b'\\'),
            }
        }
        first => PatternItemMatch::make_one_byte_item(byte == first),
    }
}
