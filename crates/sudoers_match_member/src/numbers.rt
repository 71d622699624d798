//! Numbers in a set.

ghost use Rattle.std.specs.Prelude.{◌≡◌, [], ◌∷◌, ◌++◌, not, ◌==◌, if◌then◌else◌, IfOk, OnOk};
ghost use Rattle.std.specs.List.{list_any};

use indexmap::IndexSet;
use std::alloc::{AllocError, Global};
use std::marker::Model;

/// Numbers, each once.
#[derive(Drop)]
pub struct NumberSet {
    numbers: IndexSet<u32>,
}

impl Model for NumberSet {
    ghost use Rattle.std.specs.Prelude.{ℕ, List};

    ghost Value = { List ℕ };

    ghost view = { λ set. set.numbers.keys };
}

impl NumberSet {
    /// Returns no numbers.
    pub fn new(alloc: Global) -> NumberSet
        ensures { result ≡ [] }
    {
        NumberSet {
            numbers: IndexSet::new(alloc),
        }
    }

    /// Returns whether `number` is one of them.
    pub fn has(&self, number: u32) -> bool
        ensures { result ≡ list_any (λ n. number == n) self.now }
    {
        self.numbers.contains(&number)
    }

    /// Adds `number`. Returns whether it is new.
    ///
    /// # Errors
    ///
    /// Memory ran out.
    pub fn add(&mut self, number: u32) -> Result<bool, AllocError>
        ensures new { IfOk result (λ is_new. is_new ≡ not (list_any (λ n. number == n) self.old)) }
        ensures added { OnOk result (self.new ≡ (if list_any (λ n. number == n) self.old then self.old else self.old ++ number ∷ [])) }
    {
        Ok(self.numbers.insert(number)?)
    }
}
