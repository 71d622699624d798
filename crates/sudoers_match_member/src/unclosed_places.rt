//! The places of a pattern from which a set goes on and never ends.

ghost use Rattle.std.specs.Prelude.{◌≡◌, ◌≤◌, ◌<◌, ◌-◌, ◌⊎◌, ℕ, None, length, drop, IsTrue};
ghost use Rattle.sudoers_match_member.specs.Folded.{bytes_case_folded_if_wanted};
ghost use Rattle.sudoers_match_member.specs.Sets.{set_items_after_skipped_bytes, set_items_behind_opening_bracket};
ghost use Rattle.sudoers_match_member.specs.internal.Unclosed.{IsUnclosedPlace, AreUnclosedPlaces};

use crate::byte_classes::fold_byte_case_if_wanted;
use crate::byte_sets::read_set_item;

/// How many places there are at most.
const MOST_PLACES: usize = 65_536;

/// Places of a pattern, counted from its end. A set whose items go on there has no `]` that closes it.
#[derive(Drop)]
pub struct UnclosedPlaces {
    words: [u64; 1024],
}

impl UnclosedPlaces {
    /// Returns whether the place is one of them that has `left` bytes behind it.
    fn has(&self, left: usize) -> bool
        ensures { IsTrue result → IsUnclosedPlace self.now left }
    {
        left < MOST_PLACES && (self.words[left / 64] >> (left % 64)) & 1 == 1
    }

    /// Adds the place that has `left` bytes behind it.
    fn add(&mut self, left: usize)
        requires { left < 65536 }
        ensures { (other : ℕ) → IsUnclosedPlace self.new other → (IsUnclosedPlace self.old other) ⊎ (other ≡ left) }
    {
        self.words[left / 64] |= 1 << (left % 64);
    }

    /// Returns those of the last places of `pattern` from which a set never ends.
    pub fn find_in_pattern(pattern: &[u8], lower: bool) -> UnclosedPlaces
        ensures { AreUnclosedPlaces lower pattern.now result }
    {
        let mut places = UnclosedPlaces { words: [0; 1024] };
        for left in 1..MOST_PLACES {
            if left > pattern.len() {
                break;
            }
            let rest = &pattern[pattern.len() - left..];
            if fold_byte_case_if_wanted(lower, rest[0]) != b']'
                && places.is_behind_item(rest, lower)
            {
                places.add(left);
            }
        }
        places
    }

    /// Returns whether nothing closes a set whose first item begins `rest`. The places are of a pattern that ends with `rest`.
    pub fn is_behind_item(&self, rest: &[u8], lower: bool) -> bool
        requires { AreUnclosedPlaces lower rest.now self.now }
        ensures { IsTrue result → set_items_behind_opening_bracket (bytes_case_folded_if_wanted lower rest.now) ≡ None }
    {
        if rest.is_empty() {
            return true;
        }
        let (_, len) = read_set_item(rest, lower);
        len == rest.len() || self.has(rest.len() - len)
    }
}
