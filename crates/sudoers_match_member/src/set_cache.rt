//! What is known of the sets of a pattern, so that none is read again for each byte of a text.

ghost use Rattle.std.specs.Prelude.{◌≡◌, ◌≢◌, ◌<◌, ◌≤◌, ◌+◌, ◌-◌, Bool, List, ℕ, false, length, drop, get_or, None, IfSome, IsTrue};
ghost use Rattle.sudoers_match_member.specs.declared.wildcards.GlobMode.{GlobMode as GlobModeOf};
ghost use Rattle.sudoers_match_member.specs.Wildcard.{is_byte_taken_by_item, bracket_item, pattern_item_at as item_of, Star, Byte};
ghost use Rattle.sudoers_match_member.specs.Sets.{set_items_behind_opening_bracket};
ghost use Rattle.sudoers_match_member.specs.Folded.{bytes_case_folded_if_wanted};
ghost use Rattle.sudoers_match_member.specs.internal.Known.{IsCorrectSetCache, IsFirstItemMatch, IsTailWithoutClosingBracket};
ghost use Rattle.sudoers_match_member.specs.internal.Unclosed.{AreUnclosedPlaces};

use crate::byte_classes::fold_byte_case_if_wanted;
use crate::first_pattern_item::{PatternItemMatch, match_first_item, read_bracket_item};
use crate::unclosed_places::UnclosedPlaces;
use crate::wildcards::GlobMode;

/// What is known of the sets of a pattern.
#[derive(Drop)]
pub struct SetMatchCache {
    /// How many last bytes of the pattern have no `]`, so that no set ends there.
    tail: usize,
    /// Where the last set begins that was read.
    at: Option<usize>,
    /// How long it is.
    len: usize,
    /// Which bytes it takes.
    takes: [bool; 256],
    /// The places from which a set never ends. They are found after the first set that never ends.
    unclosed: Option<UnclosedPlaces>,
}

impl SetMatchCache {
    /// Returns what is known of the sets of `pattern` before one is read.
    pub fn make_for_pattern(pattern: &[u8]) -> SetMatchCache
        ensures { (mode : GlobModeOf) (lower : Bool) → IsCorrectSetCache mode lower pattern.now result }
    {
        SetMatchCache {
            tail: closing_bracket_free_tail_len(pattern),
            at: None,
            len: 0,
            takes: [false; 256],
            unclosed: None,
        }
    }

    /// Forgets the set that was read. What is left is right of each pattern that is the end of this one.
    pub fn forget_read_set(&mut self)
        ensures { (mode : GlobModeOf) (lower : Bool) (pattern : List ℕ) → IsTailWithoutClosingBracket self.old.tail pattern
            → IfSome self.old.unclosed (AreUnclosedPlaces lower pattern) → IsCorrectSetCache mode lower pattern self.new }
    {
        self.at = None;
    }

    /// Returns what begins at `at`, as `match_first_item` does. A set is read once for each byte that it is asked of, and none is read where no
    /// `]` follows, or where it is known that none closes it.
    pub fn match_item_at(
        &mut self,
        pattern: &[u8],
        at: usize,
        byte: u8,
        mode: GlobMode,
        lower: bool,
    ) -> PatternItemMatch
        requires within { at < length pattern.now }
        requires no_star { (item_of (bytes_case_folded_if_wanted lower (drop at pattern.now))).0 ≢ Star }
        requires known { IsCorrectSetCache mode lower pattern.now self.old }
        ensures front { IsFirstItemMatch mode lower (drop at pattern.now) byte result }
        ensures known { IsCorrectSetCache mode lower pattern.now self.new }
        ensures tail { self.new.tail ≡ self.old.tail }
    {
        let rest = &pattern[at..];
        if fold_byte_case_if_wanted(lower, rest[0]) != b'[' {
            return match_first_item(rest, byte, mode, lower);
        }
        if rest.len() <= self.tail {
            return PatternItemMatch::make_one_byte_item(byte == b'[');
        }
        if let Some(front) = self.find(at, byte) {
            return front;
        }
        let first = find_first_item_place_in_set(pattern, at, lower);
        if self.is_known_unclosed_set(pattern, first, lower) {
            return PatternItemMatch::make_one_byte_item(byte == b'[');
        }
        self.len = read_bracket_item(&rest[1..], mode, lower, &mut self.takes);
        self.at = Some(at);
        let front = PatternItemMatch {
            len: self.len,
            takes: self.takes[byte as usize],
        };
        if front.len == 1 {
            self.find_unclosed_places(pattern, lower);
        }
        front
    }

    /// Finds the places from which a set never ends, if they are not known.
    #[cold]
    #[inline(never)]
    fn find_unclosed_places(&mut self, pattern: &[u8], lower: bool)
        ensures known { (mode : GlobModeOf) → IsCorrectSetCache mode lower pattern.now self.old → IsCorrectSetCache mode lower pattern.now self.new }
        ensures tail { self.new.tail ≡ self.old.tail }
    {
        if self.unclosed.is_none() {
            let places = UnclosedPlaces::find_in_pattern(pattern, lower);
            self.unclosed = Some(places);
        }
    }

    /// Returns whether it is known that nothing closes a set whose first item begins at `first`.
    fn is_known_unclosed_set(&self, pattern: &[u8], first: usize, lower: bool) -> bool
        requires within { first ≤ length pattern.now }
        requires known { IfSome self.now.unclosed (AreUnclosedPlaces lower pattern.now) }
        ensures { IsTrue result → set_items_behind_opening_bracket (bytes_case_folded_if_wanted lower (drop first pattern.now)) ≡ None }
    {
        match &self.unclosed {
            Some(places) => places.is_behind_item(&pattern[first..], lower),
            None => false,
        }
    }

    /// Returns which bytes the set takes that begins at `at`, if it is the last that was read.
    pub fn find_taken_bytes(&self, at: usize) -> Option<&[bool; 256]>
        ensures { (mode : GlobModeOf) (lower : Bool) (pattern : List ℕ) → IsCorrectSetCache mode lower pattern self.now
            → IfSome result (λ taken. (b : ℕ) → b < 256 → get_or taken.now b false ≡ is_byte_taken_by_item mode (item_of (bytes_case_folded_if_wanted lower (drop at pattern))).0 b) }
    {
        if self.at == Some(at) {
            Some(&self.takes)
        } else {
            None
        }
    }

    /// Returns what the set does with `byte` that begins at `at`, if it is the last that was read.
    fn find(&self, at: usize, byte: u8) -> Option<PatternItemMatch>
        ensures { (mode : GlobModeOf) (lower : Bool) (pattern : List ℕ) → IsCorrectSetCache mode lower pattern self.now
            → IfSome result (IsFirstItemMatch mode lower (drop at pattern) byte) }
    {
        if self.at != Some(at) {
            return None;
        }
        Some(PatternItemMatch {
            len: self.len,
            takes: self.takes[byte as usize],
        })
    }
}

/// Returns where the first item of a set begins whose `[` stands at `at`.
fn find_first_item_place_in_set(pattern: &[u8], at: usize, lower: bool) -> usize
    requires { at < length pattern.now }
    ensures within { result ≤ length pattern.now }
    ensures unclosed { set_items_behind_opening_bracket (bytes_case_folded_if_wanted lower (drop result pattern.now)) ≡ None → bracket_item (bytes_case_folded_if_wanted lower (drop (at + 1) pattern.now)) ≡ (Byte 91, 1) }
    ensures closed { (bracket_item (bytes_case_folded_if_wanted lower (drop (at + 1) pattern.now))).1 ≡ 1 → set_items_behind_opening_bracket (bytes_case_folded_if_wanted lower (drop result pattern.now)) ≡ None }
{
    if at + 1 < pattern.len() && fold_byte_case_if_wanted(lower, pattern[at + 1]) == b'!' {
        at + 2
    } else {
        at + 1
    }
}

/// Returns how many bytes at the end of `pattern` have no `]`.
fn closing_bracket_free_tail_len(pattern: &[u8]) -> usize
    ensures { IsTailWithoutClosingBracket result pattern.now }
{
    let mut at = pattern.len();
    while at > 0 && pattern[at - 1] != b']' {
        at -= 1;
    }
    pattern.len() - at
}
