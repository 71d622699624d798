//! What the aliases of a kind say of what is asked.

ghost use Rattle.std.specs.Prelude.{◌≡◌, ◌<◌, [], ◌∷◌, length, true, false, IfOk, MatchOption};
ghost use Rattle.sudoers_line_rows.specs.View.{member_of_view, members_of_view};
ghost use Rattle.sudoers_tree.specs.Definition.{is_equal_kind};
ghost use Rattle.sudoers_undecided.specs.internal.Decided.{AsksSame, DecidesAllAliases, HasAliasToDecide, HoldsSwaysOfAliases, IsStandingOfList, IsSwayOfList, WaitsForOther, matched_by, sways_left, undecided_by};
ghost use Rattle.sudoers_undecided.specs.internal.Definitions.{HoldsDefinitions};

use crate::definitions::{DefinitionOnLine, OrderedDefinitions, find_number_of_alias_atom};
use crate::list_sway::ListSway;
use crate::member_question::MemberQuestion;
use std::alloc::{AllocError, Global};
use sudoers_check::DefinitionNumbers;
use sudoers_tree::{Kind, Member, MemberRow, RowsOfTable};

/// What is asked of the lists of a kind, and the sway of each alias of the kind, by the number of its definition. Aliases that lead to a
/// cycle have none.
#[derive(Drop)]
pub struct DecidedAliases<'b> {
    pub kind: Kind,
    pub question: MemberQuestion<'b>,
    pub sways: Vec<Option<ListSway>>,
}

/// Whether what a list asks holds, and whether an undecided member could turn that.
#[derive(Clone, Copy)]
pub struct PartStanding {
    pub holds: bool,
    pub could_turn: bool,
}

impl PartStanding {
    /// Returns the standing of what no member can turn.
    pub fn from_fact(holds: bool) -> PartStanding
        ensures holds { result.holds ≡ holds }
        ensures could_turn { result.could_turn ≡ false }
    {
        PartStanding {
            holds,
            could_turn: false,
        }
    }
}

/// Returns whether the kinds are the same.
fn is_same_kind(kind: Kind, other: Kind) -> bool
    ensures { result ≡ is_equal_kind kind other }
{
    match kind {
        Kind::User => matches!(other, Kind::User),
        Kind::Runas => matches!(other, Kind::Runas),
        Kind::Host => matches!(other, Kind::Host),
        Kind::Cmnd => matches!(other, Kind::Cmnd),
    }
}

impl<'b> DecidedAliases<'b> {
    /// Returns what the aliases of this kind among `definitions` say.
    ///
    /// # Errors
    ///
    /// Memory ran out.
    pub fn new(
        alloc: Global,
        numbers: &DefinitionNumbers<'_>,
        definitions: &OrderedDefinitions<'_>,
        kind: Kind,
        question: MemberQuestion<'b>,
    ) -> Result<DecidedAliases<'b>, AllocError>
        requires { HoldsDefinitions numbers.now.walk definitions.now.definitions.items }
        ensures all { IfOk result (λ decided. DecidesAllAliases numbers.now.walk decided) }
        ensures kind { IfOk result (λ decided. decided.kind ≡ kind) }
        ensures question { IfOk result (λ decided. decided.question ≡ question.entry) }
    {
        let mut decided = DecidedAliases {
            kind,
            question,
            sways: Vec::from_elem(alloc, None, numbers.len())?,
        };
        decided.decide_in_order(numbers, definitions);
        while decided.decide_some(numbers, definitions.definitions.as_slice()) {}
        Ok(decided)
    }

    /// Decides aliases in the order of `definitions`.
    fn decide_in_order(
        &mut self,
        numbers: &DefinitionNumbers<'_>,
        definitions: &OrderedDefinitions<'_>,
    )
        requires definitions { HoldsDefinitions numbers.now.walk definitions.now.definitions.items }
        requires holds { HoldsSwaysOfAliases numbers.now.walk self.old }
        ensures holds { HoldsSwaysOfAliases numbers.now.walk self.new }
        ensures same { AsksSame self.new self.old }
    {
        for number in definitions.order.as_slice() {
            self.decide_alias(numbers, definitions.definitions.as_slice(), *number);
        }
    }

    /// Decides aliases that are not decided and mention none that is not. Returns whether there was one.
    fn decide_some(
        &mut self,
        numbers: &DefinitionNumbers<'_>,
        definitions: &[DefinitionOnLine<'_>],
    ) -> bool
        requires definitions { HoldsDefinitions numbers.now.walk definitions.now }
        requires holds { HoldsSwaysOfAliases numbers.now.walk self.old }
        ensures holds { HoldsSwaysOfAliases numbers.now.walk self.new }
        ensures same { AsksSame self.new self.old }
        ensures more { result ≡ true → sways_left self.new.sways.items < sways_left self.old.sways.items }
        ensures all { result ≡ false → DecidesAllAliases numbers.now.walk self.new }
    {
        let mut more = false;
        for number in 0..definitions.len() {
            if self.decide_alias(numbers, definitions, number) {
                more = true;
            }
        }
        more
    }

    /// Decides the alias with the number `number`, if it is of this kind and not decided, and mentions none that is not. Returns whether
    /// it is decided now.
    fn decide_alias(
        &mut self,
        numbers: &DefinitionNumbers<'_>,
        definitions: &[DefinitionOnLine<'_>],
        number: usize,
    ) -> bool
        requires definitions { HoldsDefinitions numbers.now.walk definitions.now }
        requires holds { HoldsSwaysOfAliases numbers.now.walk self.old }
        ensures holds { HoldsSwaysOfAliases numbers.now.walk self.new }
        ensures same { AsksSame self.new self.old }
        ensures more { result ≡ true → sways_left self.new.sways.items < sways_left self.old.sways.items }
        ensures none { result ≡ false → self.new ≡ self.old }
        ensures waits { result ≡ false → WaitsForOther numbers.now.walk self.old number }
    {
        let Some(definition) = definitions.get(number) else {
            return false;
        };
        let is_mine = is_same_kind(definition.kind, self.kind);
        if !is_mine {
            return false;
        }
        let is_done = self.sways[number].is_some();
        if is_done {
            return false;
        }
        match self.sway_of_list(numbers, &definition.members) {
            Some(sway) => {
                self.sways[number] = Some(sway);
                true
            }
            None => false,
        }
    }

    /// Returns the sway of the list with `member` alone, unless it is an alias that is not decided.
    pub fn sway_of_member(
        &self,
        numbers: &DefinitionNumbers<'_>,
        member: &Member<'_>,
    ) -> Option<ListSway>
        requires { HoldsSwaysOfAliases numbers.now.walk self.now }
        ensures { MatchOption result (HasAliasToDecide numbers.now.walk self.now (member_of_view member.now ∷ []))
            (λ sway. IsSwayOfList self.now.kind numbers.now.walk (undecided_by self.now) (matched_by self.now) (member_of_view member.now ∷ []) sway) }
    {
        match find_number_of_alias_atom(numbers, self.kind, &member.atom) {
            Some(number) => match self.sways[number] {
                Some(sway) => Some(sway.turn_if_negated(member.negated)),
                None => None,
            },
            None => Some(self.question.sway_of_member(member)),
        }
    }

    /// Returns the sway of the list `members`, unless one of them is an alias that is not decided.
    pub fn sway_of_list(
        &self,
        numbers: &DefinitionNumbers<'_>,
        members: &RowsOfTable<'_, MemberRow>,
    ) -> Option<ListSway>
        requires { HoldsSwaysOfAliases numbers.now.walk self.now }
        ensures { MatchOption result (HasAliasToDecide numbers.now.walk self.now (members_of_view members.now))
            (λ sway. IsSwayOfList self.now.kind numbers.now.walk (undecided_by self.now) (matched_by self.now) (members_of_view members.now) sway) }
    {
        let mut sway = ListSway::make_empty();
        let tables = members.tables;
        for row in members.rows {
            let member = tables.member_of_row(row);
            match self.sway_of_member(numbers, &member) {
                Some(next) => sway = sway.join_with(next),
                None => return None,
            }
        }
        Some(sway)
    }

    /// Returns whether the list `members` allows, and whether that could be turned. `own` says it where no member matches.
    pub fn standing_of_list(
        &self,
        numbers: &DefinitionNumbers<'_>,
        members: &RowsOfTable<'_, MemberRow>,
        own: bool,
    ) -> PartStanding
        requires { DecidesAllAliases numbers.now.walk self.now }
        ensures { IsStandingOfList self.now.kind numbers.now.walk (undecided_by self.now) (matched_by self.now) own (members_of_view members.now) result }
    {
        match self.sway_of_list(numbers, members) {
            Some(sway) => {
                let holds = sway.allows_or_else(own);
                PartStanding {
                    holds,
                    could_turn: sway.may_be_swayed_from(holds),
                }
            }
            None => PartStanding::from_fact(false),
        }
    }
}
