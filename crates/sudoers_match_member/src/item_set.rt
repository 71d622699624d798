//! Items of a pattern in a row, one bit for each.

ghost use Rattle.std.specs.Prelude.{◌≡◌, ◌<◌, ◌+◌, ◌⊎◌, ℕ, true};
ghost use Rattle.sudoers_match_member.specs.internal.Places.{HasItem};

/// How many items there may be.
pub const MOST_ITEMS: usize = 256;

/// Some of at most 256 items in a row.
#[derive(Clone, Copy)]
pub struct ItemSet {
    words: [u64; 4],
}

impl ItemSet {
    /// Returns none of the items.
    pub fn new() -> ItemSet {
        ItemSet { words: [0; 4] }
    }

    /// Returns whether one of them is among `others`.
    pub fn has_one_of(&self, others: &ItemSet) -> bool
        ensures { (i : ℕ) → i < 256 → HasItem self.now i → HasItem others.now i → result ≡ true }
    {
        let [a, b, c, d] = self.words;
        let [e, f, g, h] = others.words;
        (a & e) | (b & f) | (c & g) | (d & h) != 0
    }

    /// Adds the item.
    pub fn add(&mut self, item: usize)
        requires { item < 256 }
        ensures added { HasItem self.new item }
        ensures kept { (i : ℕ) → HasItem self.old i → HasItem self.new i }
    {
        self.words[item / 64] |= 1 << (item % 64);
    }

    /// Adds the items `others`.
    pub fn add_all(&mut self, others: &ItemSet)
        ensures { (i : ℕ) → i < 256 → HasItem self.old i ⊎ HasItem others.now i → HasItem self.new i }
    {
        let [a, b, c, d] = self.words;
        let [e, f, g, h] = others.words;
        self.words = [a | e, b | f, c | g, d | h];
    }

    /// Returns the items behind these, and the first item if `first` says so, as far as they are among `taking`.
    pub fn advance(&self, first: bool, taking: &ItemSet) -> ItemSet
        ensures first { first ≡ true → HasItem taking.now 0 → HasItem result 0 }
        ensures behind { (i : ℕ) → i + 1 < 256 → HasItem self.now i → HasItem taking.now (i + 1) → HasItem result (i + 1) }
    {
        let [a, b, c, d] = self.words;
        let [e, f, g, h] = taking.words;
        ItemSet {
            words: [
                ((a << 1) | first as u64) & e,
                ((b << 1) | (a >> 63)) & f,
                ((c << 1) | (b >> 63)) & g,
                ((d << 1) | (c >> 63)) & h,
            ],
        }
    }
}
