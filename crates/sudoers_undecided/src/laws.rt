//! Laws of what was not decided. Each is the contract of a function that does nothing.

ghost use Rattle.std.specs.Prelude.{◌≡◌, ◌↔◌, ◌||◌, ◌++◌, map, not, Bool, ℕ, List, Option, true, false};
ghost use Rattle.sudoers_grammar.specs.declared.node.Atom.{Atom as AtomOf};
ghost use Rattle.sudoers_grammar.specs.declared.node.Kind.{Kind as KindOf};
ghost use Rattle.sudoers_grammar.specs.Node.{Defaults, Member as MemberOf, Param as ParamOf, Scope as ScopeOf};
ghost use Rattle.sudoers_tree.specs.Line.{Line as LineOf};
ghost use Rattle.sudoers_tree.specs.Policy.{AreValidWalkLines};
ghost use Rattle.sudoers_check.specs.Chain.{ListHasElement};
ghost use Rattle.sudoers_match_member.specs.declared.request.Request.{Request as RequestOf};
ghost use Rattle.sudoers_match_list.specs.Flat.{IsFlatListOf, SignedAtom, last_hit_of_list, signed_atom_under_negation};
ghost use Rattle.sudoers_match.specs.Answer.{Answer as AnswerOf, IsAnswerToRequest};
ghost use Rattle.sudoers_match.specs.Default.{IsRunasDefault, IsScopeForUserOnHost};
ghost use Rattle.sudoers_match.specs.Groups.{ArePlacesOfMatchingHostGroups};
ghost use Rattle.sudoers_match.specs.Rows.{PrivilegeRow};
ghost use Rattle.sudoers_match.specs.Specs.{UserSpec};
ghost use Rattle.sudoers_match.specs.declared.matching_host_groups.HostGroupPlace.{HostGroupPlace as GroupPlaceOf};
ghost use Rattle.sudoers_undecided.specs.declared.request_part.RequestPart.{RequestPart as PartOf};
ghost use Rattle.sudoers_undecided.specs.ListSway.{could_be_swayed_from, sway_of_flat_list, sway_of_joined_lists, sway_under_negation};
ghost use Rattle.sudoers_undecided.specs.MatchTests.{AgreesOnDecidedAtoms, MatchTests, MatchesNoUndecidedAtom, match_tests_of_request, undecided_by_files, undecided_by_files_or_paths};
ghost use Rattle.sudoers_undecided.specs.PlacedAtoms.{IsFlatListWithPlaces, PlacedAtom, signed_atom_of_placed};
ghost use Rattle.sudoers_undecided.specs.RowParts.{IsScopeForUserOnHostByTests};
ghost use Rattle.sudoers_undecided.specs.TurningAtoms.{atoms_that_could_turn};
ghost use Rattle.sudoers_undecided.specs.TurningMembers.{CouldTurnFlatList, is_allowed_by_hit_or_else};
ghost use Rattle.sudoers_undecided.specs.UndecidedAnswer.{IsAnswerByTests, IsUndecidedInAnswer};
ghost use Rattle.sudoers_undecided.specs.UndecidedListing.{ArePlacesOfMatchingHostGroupsByTests, IsUndecidedInDefaults, IsUndecidedInListing};

use sudoers_match_list::laws::{flat_or_cycle, flat_then_no_cycle, one_flat};

/// The answer by the tests of a request is the answer to the request.
pub fn answer_by_request_tests_is_the_answer()
    ensures { (lines : List LineOf) (request : RequestOf) (answer : Option AnswerOf)
        → IsAnswerByTests lines (match_tests_of_request request) request answer ↔ IsAnswerToRequest lines request answer }
{}

/// What is undecided matches nothing by the tests of a request.
pub fn undecided_atoms_match_nothing()
    ensures files { (request : RequestOf) → MatchesNoUndecidedAtom (undecided_by_files request) (match_tests_of_request request) }
    ensures paths { (request : RequestOf) → MatchesNoUndecidedAtom (undecided_by_files_or_paths request) (match_tests_of_request request) }
{}

/// Where no member could have changed the answer, it is the same however such members are decided.
pub fn nothing_undecided_then_same_answer()
    ensures { (lines : List LineOf) (request : RequestOf) (undecided other : MatchTests) → AreValidWalkLines lines
        → MatchesNoUndecidedAtom undecided (match_tests_of_request request) → AgreesOnDecidedAtoms undecided (match_tests_of_request request) other
        → (name : List ℕ) → IsRunasDefault lines request.who name
        → ((row : PrivilegeRow) (part : PartOf) (atom : SignedAtom) → IsUndecidedInAnswer lines undecided (match_tests_of_request request) request row part atom → ⊥)
        → (answer : Option AnswerOf) → IsAnswerToRequest lines request answer → IsAnswerByTests lines other request answer }
{
    flat_or_cycle();
    flat_then_no_cycle();
    one_flat();
}

/// By each way to decide, a request has one answer.
pub fn one_answer_by_tests()
    ensures { (lines : List LineOf) (tests : MatchTests) (request : RequestOf) (answer other : Option AnswerOf)
        → IsAnswerByTests lines tests request answer → IsAnswerByTests lines tests request other → answer ≡ other }
{
    one_flat();
}

/// Where no member could have changed for whom and where rules are, a user has rules at the same places however such members are decided.
pub fn nothing_undecided_then_same_host_groups()
    ensures { (lines : List LineOf) (request : RequestOf) (undecided other : MatchTests) → AreValidWalkLines lines
        → MatchesNoUndecidedAtom undecided (match_tests_of_request request) → AgreesOnDecidedAtoms undecided (match_tests_of_request request) other
        → ((spec : UserSpec) (atom : SignedAtom) → IsUndecidedInListing lines undecided (match_tests_of_request request) spec atom → ⊥)
        → (places : List GroupPlaceOf) → ArePlacesOfMatchingHostGroups lines request.who places → ArePlacesOfMatchingHostGroupsByTests lines other places }
{
    flat_or_cycle();
    flat_then_no_cycle();
    one_flat();
}

/// Where no member could have changed which Defaults lines hold of a user, a Defaults line holds of him, or not, however such members are
/// decided.
pub fn nothing_undecided_then_same_defaults()
    ensures { (lines : List LineOf) (request : RequestOf) (undecided other : MatchTests) → AreValidWalkLines lines
        → MatchesNoUndecidedAtom undecided (match_tests_of_request request) → AgreesOnDecidedAtoms undecided (match_tests_of_request request) other
        → ((line : LineOf) (atom : SignedAtom) → IsUndecidedInDefaults lines undecided (match_tests_of_request request) line atom → ⊥)
        → (line : LineOf) → ListHasElement lines line → (scope : Option ScopeOf) (params : List ParamOf) → line.node ≡ Defaults scope params
        → IsScopeForUserOnHost lines request.who scope ↔ IsScopeForUserOnHostByTests lines other scope }
{
    flat_or_cycle();
    flat_then_no_cycle();
    one_flat();
}

/// The atoms that are computed of a flat list are those that could turn what it says.
pub fn computed_atoms_could_turn_list()
    ensures { (undecided test : AtomOf → Bool) (allowed : Bool) (flat : List SignedAtom) (atom : SignedAtom)
        → ListHasElement (atoms_that_could_turn undecided test allowed flat) atom ↔ CouldTurnFlatList undecided test allowed flat atom }
{}

/// Each of them alone turns what the list says: where it matches too, and no atom behind it does, the list says the contrary.
pub fn one_matching_member_turns_list()
    ensures { (undecided test also : AtomOf → Bool) (own allowed : Bool) (flat : List SignedAtom) (atom : SignedAtom)
        → (turns : CouldTurnFlatList undecided test allowed flat atom) → also atom.atom ≡ true
        → ((behind : SignedAtom) → ListHasElement turns.after behind → also behind.atom ≡ false)
        → is_allowed_by_hit_or_else own (last_hit_of_list (λ a. test a || also a) flat) ≡ not allowed }
{}

/// What sways a list is put together of what sways its parts. It tells whether a member could turn what the list says.
pub fn sway_tells_if_list_could_turn()
    ensures hit { (undecided test : AtomOf → Bool) (flat : List SignedAtom) → (sway_of_flat_list undecided test flat).hit ≡ last_hit_of_list test flat }
    ensures appended { (undecided test : AtomOf → Bool) (flat others : List SignedAtom)
        → sway_of_flat_list undecided test (flat ++ others) ≡ sway_of_joined_lists (sway_of_flat_list undecided test flat) (sway_of_flat_list undecided test others) }
    ensures turned { (undecided test : AtomOf → Bool) (negated : Bool) (flat : List SignedAtom)
        → sway_of_flat_list undecided test (map (signed_atom_under_negation negated) flat) ≡ sway_under_negation negated (sway_of_flat_list undecided test flat) }
    ensures turns { (undecided test : AtomOf → Bool) (allowed : Bool) (flat : List SignedAtom)
        → could_be_swayed_from allowed (sway_of_flat_list undecided test flat) ≡ true ↔ ((atom : SignedAtom) × CouldTurnFlatList undecided test allowed flat atom) }
{}

/// A flat list with places is the flat list, and each flat list has its places.
pub fn flat_list_with_places_is_flat()
    ensures flat { (k : KindOf) (lines : List LineOf) (within : Option (List ℕ)) (members : List MemberOf) (places : List PlacedAtom)
        → IsFlatListWithPlaces k lines within members places → IsFlatListOf k lines members (map signed_atom_of_placed places) }
    ensures placed { (k : KindOf) (lines : List LineOf) (within : Option (List ℕ)) (members : List MemberOf) (flat : List SignedAtom)
        → IsFlatListOf k lines members flat → (places : List PlacedAtom) × IsFlatListWithPlaces k lines within members places × (flat ≡ map signed_atom_of_placed places) }
{}
