//! Numbers by names.

ghost use Rattle.std.specs.Prelude.{◌≡◌, [], ◌∷◌, ◌++◌, ℕ, List, if◌then◌else◌, OnOk};
ghost use Rattle.std.specs.Str.{bytes_eq};
ghost use Rattle.sudoers_names.specs.Numbers.{numbers_of_name};

use indexmap::IndexMap;
use std::alloc::{AllocError, Global};
use std::marker::Model;

/// Numbers, each under a name.
#[derive(Drop)]
pub struct NumbersByName {
    numbers: IndexMap<Vec<u8>, Vec<usize>>,
}

impl Model for NumbersByName {
    ghost use Rattle.std.specs.Prelude.{ℕ, List, map};

    ghost Value = { List (List ℕ × List ℕ) };

    ghost view = { λ a. map (λ e. (e.0.items, e.1.items)) a.numbers.entries };
}

impl NumbersByName {
    /// Returns no numbers.
    pub fn new(alloc: Global) -> NumbersByName
        ensures { result ≡ [] }
    {
        NumbersByName {
            numbers: IndexMap::new(alloc),
        }
    }

    /// Returns the numbers under `name`, in the order in which they were added.
    pub fn numbers_of_name(&self, name: &[u8]) -> &[usize]
        ensures { result.now ≡ numbers_of_name name.now self.now }
    {
        match self.numbers.get(name) {
            Some(numbers) => numbers.as_slice(),
            None => &[],
        }
    }

    /// Adds `number` under `name`.
    ///
    /// # Errors
    ///
    /// Memory ran out.
    pub fn add_number(
        &mut self,
        alloc: Global,
        name: &[u8],
        number: usize,
    ) -> Result<(), AllocError>
        ensures { OnOk result ((other : List ℕ) → numbers_of_name other self.new
            ≡ (if bytes_eq other name.now then numbers_of_name other self.old ++ number ∷ [] else numbers_of_name other self.old)) }
    {
        if let Some(numbers) = self.numbers.get_mut(name) {
            numbers.push(number)?;
            return Ok(());
        }
        let mut numbers = Vec::new(alloc);
        numbers.push(number)?;
        self.numbers.insert(Vec::from_slice(alloc, name)?, numbers)?;
        Ok(())
    }
}
