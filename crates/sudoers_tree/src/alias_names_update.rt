//! The names of one kind that are entered again.

ghost use Rattle.std.specs.Prelude.{◌≡◌, ◌∷◌, [], ◌++◌, length, slice_get, IfOk, OnOk, None, Some};
ghost use Rattle.sudoers_tree.specs.Fault.{is_some};
ghost use Rattle.sudoers_tree.specs.internal.Index.{is_next_known_entry, known_names_with_places, place_of_named_entry, entries_after_update};

use crate::defined_names::DefinedAliasNames;
use crate::place::Place;
use std::alloc::{AllocError, Global};

/// Names that are entered beside known ones. As long as they are the first of the known ones, in their order, only their places are
/// kept, in `places`; else they are `own`.
#[derive(Drop)]
pub struct AliasNamesUpdate {
    pub own: Option<DefinedAliasNames>,
    pub places: Vec<Place>,
}

impl AliasNamesUpdate {
    /// Returns no names, with room for the places of those of `known`.
    ///
    /// # Errors
    ///
    /// A growth of memory was refused.
    pub fn new(alloc: Global, known: &DefinedAliasNames) -> Result<AliasNamesUpdate, AllocError>
        ensures { IfOk result (λ renewal. entries_after_update known.now renewal ≡ []) }
    {
        Ok(AliasNamesUpdate {
            own: None,
            places: Vec::with_capacity(alloc, known.len())?,
        })
    }

    /// Returns how many names are entered.
    pub fn len(&self, known: &DefinedAliasNames) -> usize
        ensures { result ≡ length (entries_after_update known.now self.now) }
    {
        match &self.own {
            Some(names) => names.len(),
            None => self.places.as_slice().len().min(known.len()),
        }
    }

    /// Returns whether the name `name` is the next of the known ones.
    fn is_next_known_name(&self, known: &DefinedAliasNames, name: &[u8]) -> bool
        ensures { result ≡ is_next_known_entry known.now self.now name.now }
    {
        match known.defined_name_at(self.places.len()) {
            Some(next) => next == name,
            None => false,
        }
    }

    /// Returns whether the name `name` is entered.
    pub fn has_entered_name(&self, known: &DefinedAliasNames, name: &[u8]) -> bool
        ensures { result ≡ is_some (place_of_named_entry name.now (entries_after_update known.now self.now)) }
    {
        match &self.own {
            Some(names) => names.get(name).is_some(),
            None => {
                // laws
                known.are_distinct();
                !self.is_next_known_name(known, name) && self.has_reused_known_name(known, name)
            }
        }
    }

    /// Returns whether the name `name` is among the first known ones, as many as there are places.
    fn has_reused_known_name(&self, known: &DefinedAliasNames, name: &[u8]) -> bool
        ensures { result ≡ is_some (place_of_named_entry name.now (known_names_with_places known.now self.now.places.items)) }
    {
        match known.number_of_name(name) {
            Some(number) => number < self.places.as_slice().len(),
            None => false,
        }
    }

    /// Enters the name `name` with the place `place` of its definition.
    ///
    /// # Errors
    ///
    /// A growth of memory was refused.
    pub fn push(
        &mut self,
        alloc: Global,
        known: &DefinedAliasNames,
        name: &[u8],
        place: Place,
    ) -> Result<(), AllocError>
        requires { place_of_named_entry name.now (entries_after_update known.now self.old) ≡ None }
        ensures { OnOk result (entries_after_update known.now self.new ≡ entries_after_update known.now self.old ++ (name.now, place) ∷ []) }
    {
        if let Some(names) = &mut self.own {
            return names.push(alloc, name, place);
        }
        if self.is_next_known_name(known, name) {
            self.places.push(place)?;
            return Ok(());
        }
        let mut places = std::mem::replace(&mut self.places, Vec::new(alloc));
        places.truncate(known.len());
        let mut names = known.copy_first_names_with_places(alloc, places)?;
        names.push(alloc, name, place)?;
        self.own = Some(names);
        Ok(())
    }
}
