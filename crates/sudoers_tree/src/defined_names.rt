//! The names that are defined in one kind.

ghost use Rattle.std.specs.Prelude.{◌≡◌, ◌<◌, ◌≤◌, ◌∷◌, [], ◌++◌, ℕ, List, length, take, slice_get, zip, IfOk, OnErr, OnOk, None, Some};
ghost use Rattle.std.specs.Option.{option_copied};
ghost use Rattle.sudoers_tree.specs.internal.Index.{place_of_named_entry, number_of_named_entry, names_of_entries, entries_after_update};
ghost use Rattle.std.specs.List.{All};
ghost use Rattle.std.specs.Prelude.{map};
ghost use Rattle.sudoers_tree.specs.internal.InPlace.{HasRoomToMove, IsPlaceWithinReach, moved_entry};
ghost use Rattle.sudoers_tree.specs.internal.Keys.{entries_with_one_renamed};

use crate::alias_names_update::AliasNamesUpdate;
use crate::moved_lines::{LineMove, move_places};
use crate::place::Place;
use indexmap::IndexSet;
use std::alloc::{AllocError, Global};
use std::marker::Model;

/// Names with the places of their definitions, in the order in which they were entered.
#[derive(Drop)]
pub struct DefinedAliasNames {
    names: IndexSet<Vec<u8>>,
    places: Vec<Place>,
}

impl Model for DefinedAliasNames {
    ghost use Rattle.std.specs.Prelude.{◌≡◌, ℕ, List, length, map, zip};
    ghost use Rattle.sudoers_tree.specs.declared.place.Place.{Place};

    ghost Value = { List (List ℕ × Place) };

    ghost view = { λ names. zip (map (λ name. name.items) names.names.keys) names.places.items };

    ghost invariant = { λ names. length names.names.keys ≡ length names.places.items };
}

impl DefinedAliasNames {
    /// Returns no names.
    pub fn new(alloc: Global) -> DefinedAliasNames
        ensures { result ≡ [] }
    {
        DefinedAliasNames {
            names: IndexSet::new(alloc),
            places: Vec::new(alloc),
        }
    }

    /// Returns how many names there are.
    pub fn len(&self) -> usize
        ensures { result ≡ length self.now }
    {
        self.places.as_slice().len()
    }

    /// Returns the number, from 0, of the name `name`.
    pub fn number_of_name(&self, name: &[u8]) -> Option<usize>
        ensures { result ≡ number_of_named_entry name.now self.now }
    {
        self.names.get_index_of(name)
    }

    /// Returns the name with the number `number`, from 0.
    pub fn defined_name_at(&self, number: usize) -> Option<&[u8]>
        ensures { option_copied result ≡ slice_get (names_of_entries self.now) number }
    {
        match self.names.get_index(number) {
            Some(name) => Some(name.as_slice()),
            None => None,
        }
    }

    /// Returns where the name `name` is defined.
    pub fn get(&self, name: &[u8]) -> Option<Place>
        ensures { result ≡ place_of_named_entry name.now self.now }
    {
        match self.number_of_name(name) {
            Some(number) => definition_place_at(self.places.as_slice(), number),
            None => None,
        }
    }

    /// A law: no name stands twice.
    pub fn are_distinct(&self)
        ensures { (number : ℕ) (name : List ℕ) → slice_get (names_of_entries self.now) number ≡ Some name → place_of_named_entry name (take number self.now) ≡ None }
    {
        let _ = self.names.len();
    }

    /// Appends the name `name` with the place `place` of its definition.
    ///
    /// # Errors
    ///
    /// A growth of memory was refused.
    pub fn push(&mut self, alloc: Global, name: &[u8], place: Place) -> Result<(), AllocError>
        requires { place_of_named_entry name.now self.old ≡ None }
        ensures { OnOk result (self.new ≡ self.old ++ (name.now, place) ∷ []) }
    {
        self.places.reserve(1)?;
        self.names.insert(Vec::from_slice(alloc, name)?)?;
        self.places.push(place).unwrap();
        Ok(())
    }

    /// Gives the name with the number `number`, from 0, the name `name` in its place.
    ///
    /// # Errors
    ///
    /// A growth of memory was refused. The names stay as they are.
    pub fn rename_name_at(&mut self, number: usize, name: Vec<u8>) -> Result<(), AllocError>
        requires within { number < length self.old }
        requires fresh { place_of_named_entry name.items self.old ≡ None }
        ensures renamed { OnOk result (self.new ≡ entries_with_one_renamed number name.items self.old) }
        ensures stay { OnErr result (self.new ≡ self.old) }
    {
        self.names.reserve(1)?;
        self.names.shift_remove_index(number);
        self.names.shift_insert(number, name).unwrap();
        Ok(())
    }

    /// Moves the places of the names by `by`, from the line with the number `from` on.
    pub fn move_places(&mut self, from: usize, by: LineMove)
        requires reach { All (λ e. IsPlaceWithinReach e.1) self.old }
        requires room { HasRoomToMove by }
        ensures { self.new ≡ map (moved_entry from by) self.old }
    {
        move_places(self.places.as_mut_slice(), from, by);
    }

    /// Returns the first names, as many as `places`, with these places.
    ///
    /// # Errors
    ///
    /// A growth of memory was refused.
    pub fn copy_first_names_with_places(
        &self,
        alloc: Global,
        places: Vec<Place>,
    ) -> Result<DefinedAliasNames, AllocError>
        requires { length places.items ≤ length self.now }
        ensures { IfOk result (λ names. names ≡ zip (names_of_entries self.now) places.items) }
    {
        // laws
        self.are_distinct();
        let mut names = DefinedAliasNames::new(alloc);
        for number in 0..places.as_slice().len() {
            let Some(name) = self.defined_name_at(number) else {
                return Ok(names);
            };
            names.push(alloc, name, places[number])?;
        }
        Ok(names)
    }

    /// Puts the names that `renewal` has beside these in their place. It takes no memory.
    pub fn apply_names_update(&mut self, renewal: AliasNamesUpdate)
        ensures { self.new ≡ entries_after_update self.old renewal }
    {
        let AliasNamesUpdate { own, mut places } = renewal;
        match own {
            Some(names) => *self = names,
            None => {
                places.truncate(self.len());
                self.names.truncate(places.as_slice().len());
                self.places = places;
            }
        }
    }
}

/// Returns the place with the number `number`, from 0.
fn definition_place_at(places: &[Place], number: usize) -> Option<Place>
    ensures { result ≡ slice_get places.now number }
{
    places.get(number).copied()
}
