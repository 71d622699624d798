//! What lists say, each alias decided once.

ghost use Rattle.std.specs.Prelude.{◌≡◌, ◌<◌, ◌+◌, ◌^◌, ◌++◌, ◌∷◌, [], Bool, true, false, None, length, IfOk, OnOk};
ghost use Rattle.sudoers_grammar.specs.declared.node.Kind.{Kind as KindOf};
ghost use Rattle.sudoers_grammar.specs.declared.node.Atom.{Atom as AtomOf};
ghost use Rattle.sudoers_line_rows.specs.View.{member_of_view, members_of_view};
ghost use Rattle.sudoers_tree.specs.Definition.{definitions_of_lines};
ghost use Rattle.sudoers_match_list.specs.Flat.{hit_of_signed_atom, signed_atom_of_member, later_hit_if_any, hit_under_negation};
ghost use Rattle.sudoers_match_list.specs.Search.{IsValidVerdictCache, IsConsistentAliasSearch, IsSearchStepProgress, EntersAliasOntoStack, IsLastHitOrCycleOfList, IsLastHitOrCycleOfAlias, AreNumberAndMembersOfAlias, IsAliasCyclic, step_after_member};

use crate::kind::MemberKind;
use crate::numbered_alias::{AliasNumberAndMembers, find_alias_of_atom};
use crate::verdict::{LastHitOrCycle, MemberHit, choose_later_hit, flip_hit_if_negated};
use std::alloc::{AllocError, Global};
use sudoers_check::DefinitionNumbers;
use sudoers_tree::{BorrowedAtom, Kind, Member, MemberRow, RowsOfTable};

/// How far an alias is decided.
#[derive(Clone, Copy)]
enum AliasDecisionState {
    /// It was not met.
    New,
    /// It is on the way.
    Open,
    Decided(Option<MemberHit>),
}

/// An alias on the way, which of its members is next, and what those before it say.
#[derive(Clone, Copy)]
struct AliasSearchStep<'a> {
    alias: usize,
    members: RowsOfTable<'a, MemberRow>,
    next: usize,
    latest: Option<MemberHit>,
}

/// What is known of the aliases of one kind for one question. A question remembers one hit for each definition of the policy.
#[derive(Drop)]
pub struct AliasVerdictCache<'a> {
    standings: Vec<AliasDecisionState>,
    way: Vec<AliasSearchStep<'a>>,
}

/// Returns what a member says that is no defined alias.
fn hit_of_member<K: MemberKind>(member: &Member<'_>, asked: &K::Asked) -> Option<MemberHit>
    ensures { result ≡ hit_of_signed_atom (K.test asked.now) (signed_atom_of_member (member_of_view member.now)) }
{
    if K::hits(&member.atom, asked) && member.digests.rows.is_empty() {
        Some(MemberHit {
            allow: !member.negated,
            by_all: matches!(member.atom, BorrowedAtom::All),
        })
    } else {
        None
    }
}

impl<'a> AliasVerdictCache<'a> {
    /// Returns verdicts that hold no alias yet. They serve for lists of any kind, whatever is asked of these.
    ///
    /// # Errors
    ///
    /// Memory ran out.
    pub fn new(
        alloc: Global,
        numbers: &DefinitionNumbers<'a>,
    ) -> Result<AliasVerdictCache<'a>, AllocError>
        ensures { IfOk result (λ verdicts. (kind : KindOf) (test : AtomOf → Bool) → IsValidVerdictCache kind numbers.now.walk test verdicts) }
    {
        Ok(AliasVerdictCache {
            standings: Vec::from_elem(alloc, AliasDecisionState::New, numbers.len())?,
            way: Vec::new(alloc),
        })
    }

    /// Returns what the list `members` of this kind says of `asked`. The verdicts are of no use after an error or a cycle.
    ///
    /// # Errors
    ///
    /// Memory ran out.
    pub fn find_last_hit<K: MemberKind>(
        &mut self,
        numbers: &DefinitionNumbers<'a>,
        kind: Kind,
        members: &RowsOfTable<'_, MemberRow>,
        asked: &K::Asked,
    ) -> Result<LastHitOrCycle, AllocError>
        requires { IsValidVerdictCache kind numbers.now.walk (K.test asked.now) self.old }
        ensures { IfOk result (λ decision. IsLastHitOrCycleOfList kind numbers.now.walk (K.test asked.now) (members_of_view members.now) self.new decision) }
    {
        let mut latest = None;
        let tables = members.tables;
        for row in members.rows {
            let member = tables.member_of_row(row);
            let hit = match find_alias_of_atom(numbers, kind, &member.atom) {
                None => hit_of_member::<K>(&member, asked),
                Some(alias) => match self.decide_alias::<K>(numbers, kind, &alias, asked)? {
                    LastHitOrCycle::Latest(hit) => flip_hit_if_negated(member.negated, hit),
                    LastHitOrCycle::Cyclic => return Ok(LastHitOrCycle::Cyclic),
                },
            };
            latest = choose_later_hit(latest, hit);
        }
        Ok(LastHitOrCycle::Latest(latest))
    }

    /// Returns what an alias says.
    pub(crate) fn decide_alias<K: MemberKind>(
        &mut self,
        numbers: &DefinitionNumbers<'a>,
        kind: Kind,
        alias: &AliasNumberAndMembers<'a>,
        asked: &K::Asked,
    ) -> Result<LastHitOrCycle, AllocError>
        requires verdicts { IsValidVerdictCache kind numbers.now.walk (K.test asked.now) self.old }
        requires alias { AreNumberAndMembersOfAlias numbers.now.walk alias.now.number (members_of_view alias.now.members) }
        ensures { IfOk result (λ decision. IsLastHitOrCycleOfAlias kind numbers.now.walk (K.test asked.now) alias.now.number self.new decision) }
    {
        if let AliasDecisionState::New = self.standings[alias.number] {
            self.enter(alias)?;
        }
        while let Some(step) = self.way.pop() {
            if !self.advance_unless_cycle_is_met::<K>(numbers, kind, &step, asked)? {
                return Ok(LastHitOrCycle::Cyclic);
            }
        }
        match self.standings[alias.number] {
            AliasDecisionState::Decided(hit) => Ok(LastHitOrCycle::Latest(hit)),
            _ => Ok(LastHitOrCycle::Cyclic),
        }
    }

    /// Looks at the next member of the last alias of the way, or decides the alias if there is none. Returns false if that member is
    /// an alias that is on the way.
    fn advance_unless_cycle_is_met<K: MemberKind>(
        &mut self,
        numbers: &DefinitionNumbers<'a>,
        kind: Kind,
        step: &AliasSearchStep<'a>,
        asked: &K::Asked,
    ) -> Result<bool, AllocError>
        requires { IsConsistentAliasSearch kind numbers.now.walk (K.test asked.now) self.old.standings.items (self.old.way.items ++ step.now ∷ []) }
        ensures step { IfOk result (λ going. going ≡ true → IsSearchStepProgress kind numbers.now.walk (K.test asked.now) self.old.standings.items (self.old.way.items ++ step.now ∷ []) self.new.standings.items self.new.way.items) }
        ensures cycle { IfOk result (λ going. going ≡ false → IsAliasCyclic kind numbers.now.walk step.now.alias) }
    {
        let Some(row) = step.members.rows.get(step.next) else {
            self.standings[step.alias] = AliasDecisionState::Decided(step.latest);
            return Ok(true);
        };
        let member = step.members.tables.member_of_row(row);
        let Some(alias) = find_alias_of_atom(numbers, kind, &member.atom) else {
            self.go_on_to_next_member(step, hit_of_member::<K>(&member, asked))?;
            return Ok(true);
        };
        match self.standings[alias.number] {
            AliasDecisionState::Decided(hit) => {
                self.go_on_to_next_member(step, flip_hit_if_negated(member.negated, hit))?;
                Ok(true)
            }
            AliasDecisionState::New => {
                self.way.push(*step)?;
                self.enter(&alias)?;
                Ok(true)
            }
            AliasDecisionState::Open => Ok(false),
        }
    }

    /// Goes on to the next member of an alias, where the one before it says `hit`.
    fn go_on_to_next_member(
        &mut self,
        step: &AliasSearchStep<'a>,
        hit: Option<MemberHit>,
    ) -> Result<(), AllocError>
        requires { step.now.next + 1 < 2 ^ 64 }
        ensures standings { OnOk result (self.new.standings.items ≡ self.old.standings.items) }
        ensures way { OnOk result (self.new.way.items ≡ self.old.way.items ++ step_after_member step.now hit ∷ []) }
    {
        self.way.push(AliasSearchStep {
            next: step.next + 1,
            latest: choose_later_hit(step.latest, hit),
            ..*step
        })?;
        Ok(())
    }

    /// Enters an alias that was not met.
    fn enter(&mut self, alias: &AliasNumberAndMembers<'a>) -> Result<(), AllocError>
        requires { alias.now.number < length self.old.standings.items }
        ensures { OnOk result (EntersAliasOntoStack alias.now self.old self.new) }
    {
        self.standings[alias.number] = AliasDecisionState::Open;
        self.way.push(AliasSearchStep {
            alias: alias.number,
            members: alias.members,
            next: 0,
            latest: None,
        })?;
        Ok(())
    }
}
