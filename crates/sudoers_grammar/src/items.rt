//! Lists that contracts see as lists.

ghost use Rattle.std.specs.Prelude.{◌≡◌, [], ◌∷◌, ◌++◌, length, IfOk, OnOk, OnErr};

use std::alloc::{AllocError, Global};
use std::marker::Model;

/// An owned list.
#[derive(Debug, Drop)]
pub struct Items<T> {
    items: Vec<T>,
}

impl<T> Model for Items<T> {
    ghost use Rattle.std.specs.Prelude.{List};

    ghost Value = { List T };

    ghost view = { λ list. list.items.items };
}

impl<T> Items<T> {
    /// Returns no items.
    pub fn new(alloc: Global) -> Self
        ensures { result ≡ [] }
    {
        Items {
            items: Vec::new(alloc),
        }
    }

    /// Returns `items` as a list, without taking memory.
    pub fn from_vec(items: Vec<T>) -> Self
        ensures { result ≡ items.items }
    {
        Items { items }
    }

    /// Gives the items back, without taking memory.
    pub fn into_vec(self) -> Vec<T>
        ensures { result.items ≡ self }
    {
        self.items
    }

    /// Returns the items.
    pub fn as_slice(&self) -> &[T]
        ensures { result.now ≡ self.now }
    {
        self.items.as_slice()
    }

    /// Returns how many items there are.
    pub fn len(&self) -> usize
        ensures { result ≡ length self.now }
    {
        self.items.len()
    }
}

impl Items<u8> {
    /// Returns a copy of `bytes`.
    ///
    /// # Errors
    ///
    /// Memory ran out.
    pub fn from_slice(alloc: Global, bytes: &[u8]) -> Result<Self, AllocError>
        ensures { IfOk result (λ list. list ≡ bytes.now) }
    {
        Ok(Items {
            items: Vec::from_slice(alloc, bytes)?,
        })
    }

    /// Appends `bytes`.
    ///
    /// # Errors
    ///
    /// Memory ran out.
    pub fn extend_from_slice(&mut self, bytes: &[u8]) -> Result<(), AllocError>
        ensures more { OnOk result (self.new ≡ self.old ++ bytes.now) }
        ensures kept { OnErr result (self.new ≡ self.old) }
    {
        self.items.extend_from_slice(bytes)
    }
}

impl<T: Drop> Items<T> {
    /// Returns `item` alone.
    ///
    /// # Errors
    ///
    /// Memory ran out.
    pub fn list_of_one_item(alloc: Global, item: T) -> Result<Self, AllocError>
        ensures { IfOk result (λ list. list ≡ item ∷ []) }
    {
        let mut items = Vec::new(alloc);
        items.push(item)?;
        Ok(Items { items })
    }

    /// Appends `item`.
    ///
    /// # Errors
    ///
    /// Memory ran out.
    pub fn push(&mut self, item: T) -> Result<(), AllocError>
        ensures more { OnOk result (self.new ≡ self.old ++ item ∷ []) }
        ensures kept { OnErr result (self.new ≡ self.old) }
    {
        // A list of one item is the most frequent, and takes no more room than that.
        if self.items.len() == self.items.capacity() {
            self.items.reserve_exact(self.items.len().max(1))?;
        }
        self.items.push(item)?;
        Ok(())
    }
}
