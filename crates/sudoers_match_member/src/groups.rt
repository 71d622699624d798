//! The groups of a user.

ghost use Rattle.std.specs.Prelude.{◌≡◌, [], IfOk, IfSome};
ghost use Rattle.sudoers_match_member.specs.Hits.{is_name_among_groups, is_number_among_groups};
ghost use Rattle.sudoers_match_member.specs.internal.LookedUp.{AreLookupsOfGroups, AreLowerNamesOf, AreNumbersOf};

use crate::atom_matches::is_same_name_ignoring_case;
use crate::numbers::NumberSet;
use crate::people_and_commands::Group;
use std::alloc::{AllocError, Global};
use std::marker::Model;
use sudoers_names::NameSet;

/// The most groups that are compared one by one.
const FEW_GROUPS: usize = 8;

/// The names and the numbers of groups, in which they are looked up.
#[derive(Drop)]
struct GroupLookups {
    /// The names in lower case.
    names: NameSet,
    numbers: NumberSet,
}

/// The groups of a user, in which names and numbers are looked up.
#[derive(Drop)]
pub struct Groups {
    list: Vec<Group>,
    /// The tables of many groups. There is one element, or none for few groups.
    lookups: Vec<GroupLookups>,
    alloc: Global,
}

impl Model for Groups {
    ghost use Rattle.std.specs.Prelude.{List};
    ghost use Rattle.sudoers_match_member.specs.declared.people_and_commands.Group.{Group};

    ghost Value = { List Group };

    ghost use Rattle.sudoers_match_member.specs.internal.LookedUp.{AreLookupsOfGroups};

    ghost view = { λ groups. groups.list.items };

    ghost invariant = { λ groups. AreLookupsOfGroups groups.list.items groups.lookups.items };
}

/// Returns the names of `groups` in lower case.
fn collect_lower_names(alloc: Global, groups: &[Group]) -> Result<NameSet, AllocError>
    ensures { IfOk result (λ names. AreLowerNamesOf groups.now names) }
{
    let mut names = NameSet::new(alloc);
    for group in groups {
        let folded = group.name.as_slice().to_ascii_lowercase(alloc)?;
        names.add(alloc, folded.as_slice())?;
    }
    Ok(names)
}

/// Returns the numbers of `groups`.
fn collect_numbers(alloc: Global, groups: &[Group]) -> Result<NumberSet, AllocError>
    ensures { IfOk result (λ numbers. AreNumbersOf groups.now numbers) }
{
    let mut numbers = NumberSet::new(alloc);
    for group in groups {
        numbers.add(group.gid)?;
    }
    Ok(numbers)
}

/// Returns what `groups` are looked up in, if they are many.
fn collect_lookups(alloc: Global, groups: &[Group]) -> Result<Vec<GroupLookups>, AllocError>
    ensures { IfOk result (λ lookups. AreLookupsOfGroups groups.now lookups.items) }
{
    let mut lookups = Vec::new(alloc);
    if groups.len() > FEW_GROUPS {
        let names = collect_lower_names(alloc, groups)?;
        let numbers = collect_numbers(alloc, groups)?;
        lookups.push(GroupLookups { names, numbers })?;
    }
    Ok(lookups)
}

impl Groups {
    /// Returns no groups.
    pub fn new(alloc: Global) -> Groups
        ensures { result ≡ [] }
    {
        Groups {
            list: Vec::new(alloc),
            lookups: Vec::new(alloc),
            alloc,
        }
    }

    /// Returns the groups `list`, in their order.
    ///
    /// # Errors
    ///
    /// Memory ran out.
    pub fn from_vec(alloc: Global, list: Vec<Group>) -> Result<Groups, AllocError>
        ensures { IfOk result (λ groups. groups ≡ list.items) }
    {
        let lookups = collect_lookups(alloc, list.as_slice())?;
        Ok(Groups {
            list,
            lookups,
            alloc,
        })
    }

    /// Returns the groups, in their order.
    pub fn as_slice(&self) -> &[Group]
        ensures { result.now ≡ self.now }
    {
        self.list.as_slice()
    }

    /// Returns whether one of many groups has the name `name`, letter case ignored, if there is memory to look it up.
    fn look_up_name(&self, name: &[u8]) -> Option<bool>
        ensures { IfSome result (λ has. has ≡ is_name_among_groups self.now name.now) }
    {
        let lookups = self.lookups.as_slice().first()?;
        match name.to_ascii_lowercase(self.alloc) {
            Ok(folded) => Some(lookups.names.has(folded.as_slice())),
            Err(_) => None,
        }
    }

    /// Returns whether one of the groups has the name `name`, letter case ignored.
    pub fn has_name(&self, name: &[u8]) -> bool
        ensures { result ≡ is_name_among_groups self.now name.now }
    {
        match self.look_up_name(name) {
            Some(has) => has,
            None => {
                self.list.iter().any(|group| is_same_name_ignoring_case(
                    name,
                    group.name.as_slice(),
                ))
            }
        }
    }

    /// Returns whether one of the groups has the number `number`.
    pub fn has_number(&self, number: u32) -> bool
        ensures { result ≡ is_number_among_groups self.now number }
    {
        match self.lookups.as_slice().first() {
            Some(lookups) => lookups.numbers.has(number),
            None => self.list.iter().any(|group| number == group.gid),
        }
    }
}
