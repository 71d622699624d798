//! The undecided members of lists of a policy.

ghost use Rattle.std.specs.Prelude.{◌≡◌, ◌⊎◌, OnOk};
ghost use Rattle.sudoers_check.specs.Chain.{ListHasElement};
ghost use Rattle.sudoers_match_list.specs.Flat.{SignedAtom};
ghost use Rattle.sudoers_undecided.specs.declared.undecided_member.UndecidedMember.{UndecidedMember as MemberFound};
ghost use Rattle.sudoers_undecided.specs.FoundMembers.{HasAtomInPart};
ghost use Rattle.sudoers_undecided.specs.internal.Collected.{IsMemberOfLists, IsMemberUndecided};
ghost use Rattle.sudoers_undecided.specs.internal.Decided.{DecidesAllAliases, matched_by, undecided_by};
ghost use Rattle.sudoers_undecided.specs.internal.Definitions.{HoldsDefinitions};
ghost use Rattle.sudoers_undecided.specs.internal.Wanted.{AreFlat, IsWantedOfLists};

use crate::alias_collector::AliasCollector;
use crate::decided_aliases::DecidedAliases;
use crate::definitions::DefinitionOnLine;
use crate::request_part::RequestPart;
use crate::undecided_member::UndecidedMember;
use crate::wanted_members::CountedList;
use std::alloc::{AllocError, Global};
use sudoers_match_list::AcyclicWalk;

/// A policy whose members are looked for, and its definitions.
#[derive(Clone, Copy)]
pub struct MemberSearch<'a, 'b> {
    pub policy: &'b AcyclicWalk<'a>,
    pub definitions: &'b [DefinitionOnLine<'a>],
}

impl<'a> MemberSearch<'a, '_> {
    /// Appends to `found` the undecided members of `lists`, which could turn the part `part`. `aliases` says what the aliases of their kind
    /// say.
    ///
    /// # Errors
    ///
    /// Memory ran out.
    pub fn append_members(
        &self,
        found: &mut Vec<UndecidedMember<'a>>,
        alloc: Global,
        part: RequestPart,
        aliases: &DecidedAliases<'_>,
        lists: &[CountedList<'a>],
    ) -> Result<(), AllocError>
        requires definitions { HoldsDefinitions self.now.policy.now self.now.definitions.now }
        requires aliases { DecidesAllAliases self.now.policy.now aliases.now }
        ensures kept { OnOk result ((u : MemberFound) → ListHasElement found.old.items u → ListHasElement found.new.items u) }
        ensures found { OnOk result ((s : SignedAtom) → IsWantedOfLists aliases.now.kind self.now.policy.now (undecided_by aliases.now) (matched_by aliases.now) lists.now s → HasAtomInPart found.new.items part s) }
        ensures only { OnOk result (AreFlat aliases.now.kind self.now.policy.now lists.now
            → (u : MemberFound) → ListHasElement found.new.items u → ListHasElement found.old.items u ⊎ IsMemberOfLists self.now.policy.now aliases.now part lists.now u) }
        ensures undecided { OnOk result ((u : MemberFound) → ListHasElement found.new.items u → ListHasElement found.old.items u ⊎ IsMemberUndecided aliases.now u) }
    {
        let numbers = self.policy.definition_numbers();
        let mut collector = AliasCollector::new(alloc, part, aliases, numbers)?;
        for list in lists {
            collector.collect_from_list(numbers, self.definitions, list)?;
        }
        found.extend_from_slice(collector.found.as_slice())?;
        Ok(())
    }
}
