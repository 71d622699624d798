//! The undecided members of lists, and of the aliases to which these lead.

ghost use Rattle.std.specs.Prelude.{◌≡◌, ◌<◌, [], ◌∷◌, length, not, true, false, List, IfOk, OnOk, Some, None};
ghost use Rattle.std.specs.Option.{is_some};
ghost use Rattle.sudoers_grammar.specs.Node.{Member as MemberOf};
ghost use Rattle.sudoers_line_rows.specs.View.{member_of_view, members_of_view};
ghost use Rattle.sudoers_tree.specs.Line.{Line as LineOf};
ghost use Rattle.sudoers_check.specs.Chain.{ListHasElement};
ghost use Rattle.sudoers_match_list.specs.Flat.{SignedAtom, signed_atom_of_member};
ghost use Rattle.sudoers_match_list.specs.Search.{alias_number_of_atom, members_of_definition_number};
ghost use Rattle.sudoers_undecided.specs.declared.wanted_members.CountedList.{CountedList as CountedListOf};
ghost use Rattle.sudoers_undecided.specs.FoundMembers.{HasAtomInPart};
ghost use Rattle.sudoers_undecided.specs.internal.Collected.{AreMembersHandled, AsksMore, CollectsOnlyOf, IsAsked, IsCollector, IsCollectorOfLists, IsMemberHandled, IsMissedAlias, IsSettledCollector, KeepsFound, MatchesNothing, NoneMatches, includes_wanted, marks_with_wanted};
ghost use Rattle.sudoers_undecided.specs.internal.Decided.{DecidesAllAliases, matched_by, undecided_by, IsMatchingAlias};
ghost use Rattle.sudoers_undecided.specs.internal.Definitions.{HoldsDefinitions};
ghost use Rattle.sudoers_undecided.specs.internal.Wanted.{HasFlatList, IsWantedOfList, is_sign_wanted};

use crate::decided_aliases::DecidedAliases;
use crate::definitions::{DefinitionOnLine, find_number_of_alias_atom};
use crate::request_part::RequestPart;
use crate::undecided_member::UndecidedMember;
use crate::wanted_members::{CountedList, WantedMembers};
use std::alloc::{AllocError, Global};
use sudoers_check::DefinitionNumbers;
use sudoers_tree::{Member, MemberRow, RowsOfTable};

/// Where a list stands: on which line, from 0, and in the definition of which alias.
#[derive(Clone, Copy)]
pub struct ListPlace<'a> {
    pub line: usize,
    pub alias: Option<&'a [u8]>,
}

/// Which members of an alias were asked for.
#[derive(Clone, Copy)]
pub struct AliasMarks {
    pub allowing: bool,
    pub denying: bool,
    pub all: bool,
}

/// An alias, by the number of its definition, whose members are still to be looked at.
#[derive(Clone, Copy)]
pub struct PendingAlias {
    pub number: usize,
    pub wanted: WantedMembers,
}

/// The members that are found for a part of a request. Of each alias it is known which members were asked for.
#[derive(Drop)]
pub struct AliasCollector<'a, 'b> {
    pub part: RequestPart,
    pub aliases: &'b DecidedAliases<'b>,
    pub marks: Vec<AliasMarks>,
    pub pending: Vec<PendingAlias>,
    pub found: Vec<UndecidedMember<'a>>,
}

impl AliasMarks {
    /// Returns whether these members, or all, were asked for.
    fn include(&self, wanted: WantedMembers) -> bool
        ensures { result ≡ includes_wanted self.now wanted }
    {
        match wanted {
            WantedMembers::All => self.all,
            WantedMembers::Allowing => self.all || self.allowing,
            WantedMembers::Denying => self.all || self.denying,
        }
    }

    /// Notes that these members are asked for.
    fn add(&self, wanted: WantedMembers) -> AliasMarks
        ensures { result ≡ marks_with_wanted self.now wanted }
    {
        match wanted {
            WantedMembers::All => AliasMarks { all: true, ..*self },
            WantedMembers::Allowing => AliasMarks {
                allowing: true,
                ..*self
            },
            WantedMembers::Denying => AliasMarks {
                denying: true,
                ..*self
            },
        }
    }
}

impl<'a, 'b> AliasCollector<'a, 'b> {
    /// Returns a collector that has found nothing. It looks at lists of the kind of `aliases`.
    ///
    /// # Errors
    ///
    /// Memory ran out.
    pub fn new(
        alloc: Global,
        part: RequestPart,
        aliases: &'b DecidedAliases<'b>,
        numbers: &DefinitionNumbers<'_>,
    ) -> Result<AliasCollector<'a, 'b>, AllocError>
        requires { DecidesAllAliases numbers.now.walk aliases.now }
        ensures settled { IfOk result (λ collector. IsSettledCollector numbers.now.walk collector) }
        ensures part { IfOk result (λ collector. collector.part ≡ part) }
        ensures aliases { IfOk result (λ collector. collector.aliases.now ≡ aliases.now) }
        ensures empty { IfOk result (λ collector. collector.found.items ≡ []) }
    {
        let none = AliasMarks {
            allowing: false,
            denying: false,
            all: false,
        };
        Ok(AliasCollector {
            part,
            aliases,
            marks: Vec::from_elem(alloc, none, numbers.len())?,
            pending: Vec::new(alloc),
            found: Vec::new(alloc),
        })
    }

    /// Asks for members of the alias with the number `number`.
    fn ask_alias(&mut self, number: usize, wanted: WantedMembers) -> Result<(), AllocError>
        requires { number < length self.old.marks.items }
        ensures more { OnOk result (AsksMore self.old self.new) }
        ensures asked { OnOk result (IsAsked self.new.marks.items number wanted) }
        ensures only { OnOk result ((lines : List LineOf) → CollectsOnlyOf lines (members_of_definition_number lines number) wanted self.old self.new) }
    {
        let marks = self.marks[number];
        if marks.include(wanted) {
            return Ok(());
        }
        self.marks[number] = marks.add(wanted);
        self.pending.push(PendingAlias { number, wanted })?;
        Ok(())
    }

    /// Returns whether a member of the alias with the number `number` matches.
    fn matches_alias(&self, number: usize) -> bool
        requires { number < length self.now.aliases.now.sways.items }
        ensures hit { result ≡ true → IsMatchingAlias self.now.aliases.now number }
        ensures missed { result ≡ false → IsMissedAlias self.now.aliases.now number }
    {
        match self.aliases.sways[number] {
            Some(sway) => sway.hit.is_some(),
            None => false,
        }
    }

    /// Collects `member`, which is no defined alias, if it is wanted.
    fn collect_plain_member(
        &mut self,
        place: ListPlace<'a>,
        member: &Member<'a>,
        wanted: WantedMembers,
    ) -> Result<(), AllocError>
        ensures more { OnOk result (AsksMore self.old self.new) }
        ensures found { OnOk result (undecided_by self.old.aliases.now (signed_atom_of_member (member_of_view member.now)) ≡ true → is_sign_wanted wanted (not member.now.negated) ≡ true
            → HasAtomInPart self.new.found.items self.new.part (signed_atom_of_member (member_of_view member.now))) }
        ensures only { OnOk result ((lines : List LineOf) → alias_number_of_atom self.old.aliases.now.kind lines (member_of_view member.now).atom ≡ None
            → CollectsOnlyOf lines (member_of_view member.now ∷ []) wanted self.old self.new) }
    {
        let Some(reason) = self.aliases.question.find_reason_of_member(member) else {
            return Ok(());
        };
        let is_wanted = wanted.includes_sign(!member.negated);
        if !is_wanted {
            return Ok(());
        }
        self.found.push(UndecidedMember {
            line: place.line,
            member: *member,
            kind: self.aliases.kind,
            part: self.part,
            reason,
            alias: place.alias,
        })?;
        Ok(())
    }

    /// Collects `member` if it is wanted, or asks for those of the alias that it names. Returns whether it matches.
    fn collect_member(
        &mut self,
        numbers: &DefinitionNumbers<'_>,
        place: ListPlace<'a>,
        member: &Member<'a>,
        wanted: WantedMembers,
    ) -> Result<bool, AllocError>
        requires { IsCollector numbers.now.walk self.old }
        ensures more { IfOk result (λ _. AsksMore self.old self.new) }
        ensures handled { IfOk result (λ _. IsMemberHandled numbers.now.walk self.new wanted (member_of_view member.now)) }
        ensures hit { IfOk result (λ matches. matches ≡ true → (ms : List MemberOf)
            → NoneMatches self.new.aliases.now.kind numbers.now.walk (matched_by self.new.aliases.now) (member_of_view member.now ∷ ms) → ⊥) }
        ensures missed { IfOk result (λ matches. matches ≡ false → MatchesNothing numbers.now.walk self.old.aliases.now (member_of_view member.now ∷ [])) }
        ensures only { IfOk result (λ _. CollectsOnlyOf numbers.now.walk (member_of_view member.now ∷ []) wanted self.old self.new) }
    {
        match find_number_of_alias_atom(numbers, self.aliases.kind, &member.atom) {
            Some(number) => {
                self.ask_alias(number, wanted.turn_if_negated(member.negated))?;
                Ok(self.matches_alias(number))
            }
            None => {
                self.collect_plain_member(place, member, wanted)?;
                Ok(self.aliases.question.matches_member(member))
            }
        }
    }

    /// Collects the wanted members of the list `members` at `place`, and asks for those of its aliases.
    fn collect_members(
        &mut self,
        numbers: &DefinitionNumbers<'_>,
        place: ListPlace<'a>,
        members: &RowsOfTable<'a, MemberRow>,
        wanted: WantedMembers,
    ) -> Result<(), AllocError>
        requires { IsCollector numbers.now.walk self.old }
        ensures more { OnOk result (AsksMore self.old self.new) }
        ensures handled { OnOk result (AreMembersHandled numbers.now.walk self.new wanted (members_of_view members.now)) }
        ensures only { OnOk result (CollectsOnlyOf numbers.now.walk (members_of_view members.now) wanted self.old self.new) }
    {
        let tables = members.tables;
        let rows = members.rows;
        let mut left = rows.len();
        while left > 0 {
            left -= 1;
            let member = tables.member_of_row(&rows[left]);
            let matches = self.collect_member(numbers, place, &member, wanted)?;
            if matches && !wanted.is_all() {
                return Ok(());
            }
        }
        Ok(())
    }

    /// Collects the members of an alias that are asked for.
    fn collect_from_alias(
        &mut self,
        numbers: &DefinitionNumbers<'_>,
        definitions: &[DefinitionOnLine<'a>],
        asked: PendingAlias,
    ) -> Result<(), AllocError>
        requires definitions { HoldsDefinitions numbers.now.walk definitions.now }
        requires collector { IsCollector numbers.now.walk self.old }
        ensures more { OnOk result (AsksMore self.old self.new) }
        ensures handled { OnOk result (AreMembersHandled numbers.now.walk self.new asked.wanted (members_of_definition_number numbers.now.walk asked.number)) }
        ensures only { OnOk result (CollectsOnlyOf numbers.now.walk (members_of_definition_number numbers.now.walk asked.number) asked.wanted self.old self.new) }
    {
        let Some(definition) = definitions.get(asked.number) else {
            return Ok(());
        };
        let place = ListPlace {
            line: definition.line,
            alias: Some(definition.name),
        };
        self.collect_members(numbers, place, &definition.members, asked.wanted)
    }

    /// Collects the wanted members of a list, and of the aliases to which it leads.
    ///
    /// # Errors
    ///
    /// Memory ran out.
    pub fn collect_from_list(
        &mut self,
        numbers: &DefinitionNumbers<'_>,
        definitions: &[DefinitionOnLine<'a>],
        list: &CountedList<'a>,
    ) -> Result<(), AllocError>
        requires definitions { HoldsDefinitions numbers.now.walk definitions.now }
        requires settled { IsSettledCollector numbers.now.walk self.old }
        ensures settled { OnOk result (IsSettledCollector numbers.now.walk self.new) }
        ensures keeps { OnOk result (KeepsFound self.old self.new) }
        ensures found { OnOk result ((s : SignedAtom)
            → IsWantedOfList self.old.aliases.now.kind numbers.now.walk (undecided_by self.old.aliases.now) (matched_by self.old.aliases.now) (members_of_view list.now.members) list.now.wanted s
            → HasAtomInPart self.new.found.items self.new.part s) }
        ensures only { OnOk result ((lists : List CountedListOf) → ListHasElement lists list.now → HasFlatList self.old.aliases.now.kind numbers.now.walk list.now
            → IsCollectorOfLists numbers.now.walk lists self.old → IsCollectorOfLists numbers.now.walk lists self.new) }
    {
        let place = ListPlace {
            line: list.line,
            alias: None,
        };
        self.collect_members(numbers, place, &list.members, list.wanted)?;
        while let Some(asked) = self.pending.pop() {
            self.collect_from_alias(numbers, definitions, asked)?;
        }
        Ok(())
    }
}
