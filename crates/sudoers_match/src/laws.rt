//! Laws of rows, answers, defaults and listings. Each is the contract of a function that does nothing.

ghost use Rattle.std.specs.Prelude.{◌≡◌, ◌↔◌, ℕ, List, Option};
ghost use Rattle.sudoers_check.specs.Chains.{HasCyclicAliasReachedFromSpecOrDefaults};
ghost use Rattle.sudoers_grammar.specs.declared.node.Atom.{Atom as AtomOf};
ghost use Rattle.sudoers_tree.specs.Line.{Line as LineOf};
ghost use Rattle.sudoers_tree.specs.Policy.{AreValidWalkLines};
ghost use Rattle.sudoers_match_member.specs.declared.people_and_commands.Who.{Who as WhoOf};
ghost use Rattle.sudoers_match_list.specs.Alike.{IsPointwiseRelated};
ghost use Rattle.sudoers_match_member.specs.declared.request.Request.{Request as RequestOf};
ghost use Rattle.sudoers_match.specs.Alike.{AreAllRunasDefaultsAlike, AreTwoRowsAlikeButSpecNumbers, AreTwoRowsAlikeWithSpecNumbers, AreSpecUsersAndHostsAlike, AreUserSpecsAlike, KeepsAtomMatches, AreAnswersSameButNumbers};
ghost use Rattle.sudoers_match.specs.Answer.{Answer as AnswerOf, IsAnswerOfRows, RowFitsRequest, IsAnswerToRequest};
ghost use Rattle.sudoers_match.specs.Beside.{HasSameLinesAndReachableAliases};
ghost use Rattle.sudoers_match.specs.Default.{IsRunasDefault};
ghost use Rattle.sudoers_match.specs.Groups.{ArePlacesOfMatchingHostGroups};
ghost use Rattle.sudoers_match.specs.Heads.{AccumulatedCommandSettings as HeadOf};
ghost use Rattle.sudoers_match.specs.IsHead.{HaveSameRunasAndFinalOptionsAndTags, HoldsCommandSettings};
ghost use Rattle.sudoers_match.specs.Rows.{PrivilegeRow};
ghost use Rattle.sudoers_match.specs.Specs.{user_specs_of_lines};
ghost use Rattle.sudoers_match.specs.declared.command_settings.CommandSettings.{CommandSettings as HeadHeld};
ghost use Rattle.sudoers_match.specs.declared.matching_host_groups.HostGroupPlace.{HostGroupPlace as GroupPlaceOf};

use sudoers_match_list::laws::{alike_lists_lead_to_cycle, alike_lists_say_same};

/// A request has one answer.
pub fn one_answer()
    ensures { (lines : List LineOf) (request : RequestOf) (answer other : Option AnswerOf) → IsAnswerToRequest lines request answer
        → IsAnswerToRequest lines request other → answer ≡ other }
{}

/// The places of the host groups for a user on a host are one list.
pub fn one_list_of_host_groups()
    ensures { (lines : List LineOf) (who : WhoOf) (places others : List GroupPlaceOf) → ArePlacesOfMatchingHostGroups lines who places
        → ArePlacesOfMatchingHostGroups lines who others → places ≡ others }
{}

/// A user on a host has one runas_default.
pub fn one_runas_default()
    ensures { (lines : List LineOf) (who : WhoOf) (name other : List ℕ) → IsRunasDefault lines who name
        → IsRunasDefault lines who other → name ≡ other }
{}

/// What is held of a command is a head. Heads of which the same is held say the same.
pub fn one_head()
    ensures some { (held : HeadHeld) → (head : HeadOf) × HoldsCommandSettings held head }
    ensures same { (held : HeadHeld) (head other : HeadOf) → HoldsCommandSettings held head → HoldsCommandSettings held other → HaveSameRunasAndFinalOptionsAndTags head other }
{}

/// Two policies with the same settings have the same runas_default, whoever asks. The second policy may write an atom otherwise, if that
/// matches the same.
pub fn alike_defaults_are_same()
    ensures { (write : AtomOf → AtomOf) (lines others : List LineOf) → KeepsAtomMatches write → AreAllRunasDefaultsAlike write lines others
        → (who : WhoOf) (name : List ℕ) → IsRunasDefault lines who name ↔ IsRunasDefault others who name }
{
    alike_lists_say_same();
}

/// Policies whose user specifications are for the same users and hosts give each user rules at the same places.
pub fn alike_specs_have_same_groups()
    ensures { (write : AtomOf → AtomOf) (lines others : List LineOf) → KeepsAtomMatches write
        → IsPointwiseRelated (AreSpecUsersAndHostsAlike write lines others) (user_specs_of_lines lines) (user_specs_of_lines others) → (who : WhoOf) (places : List GroupPlaceOf)
        → ArePlacesOfMatchingHostGroups lines who places ↔ ArePlacesOfMatchingHostGroups others who places }
{
    alike_lists_say_same();
}

/// Of two rows that say the same both match a request, or neither does.
pub fn alike_rows_fit()
    ensures { (write : AtomOf → AtomOf) (lines others : List LineOf) → KeepsAtomMatches write → AreAllRunasDefaultsAlike write lines others
        → (request : RequestOf) (row other : PrivilegeRow) → AreTwoRowsAlikeButSpecNumbers write lines others row other → RowFitsRequest lines request row ↔ RowFitsRequest others request other }
{
    alike_lists_say_same();
}

/// Policies whose rows say the same answer the same, numbers aside. Where the rows have the same numbers, so have the answers.
pub fn alike_rows_answer()
    ensures alike { (write : AtomOf → AtomOf) (lines others : List LineOf) → KeepsAtomMatches write → AreAllRunasDefaultsAlike write lines others
        → (request : RequestOf) (rows others_rows : List PrivilegeRow) (answer : Option AnswerOf) → IsPointwiseRelated (AreTwoRowsAlikeButSpecNumbers write lines others) rows others_rows
        → IsAnswerOfRows lines request rows answer → (other : Option AnswerOf) × IsAnswerOfRows others request others_rows other × AreAnswersSameButNumbers answer other }
    ensures equal { (write : AtomOf → AtomOf) (lines others : List LineOf) → KeepsAtomMatches write → AreAllRunasDefaultsAlike write lines others
        → (request : RequestOf) (rows others_rows : List PrivilegeRow) (answer : Option AnswerOf) → IsPointwiseRelated (AreTwoRowsAlikeWithSpecNumbers write lines others) rows others_rows
        → IsAnswerOfRows lines request rows answer → IsAnswerOfRows others request others_rows answer }
{
    alike_lists_say_same();
}

/// Policies whose user specifications say the same, command by command, answer the same, numbers included.
pub fn equal_specs_answer_same()
    ensures { (write : AtomOf → AtomOf) (lines others : List LineOf) → KeepsAtomMatches write → AreAllRunasDefaultsAlike write lines others
        → IsPointwiseRelated (AreUserSpecsAlike write lines others) (user_specs_of_lines lines) (user_specs_of_lines others) → (request : RequestOf) (answer : Option AnswerOf)
        → IsAnswerToRequest lines request answer ↔ IsAnswerToRequest others request answer }
{
    alike_lists_say_same();
}

/// Definitions to which no chain of mentions leads change no answer, so a policy answers the same without them. A user has the same
/// runas_default, and rules at the same places. A reachable alias is cyclic in both policies, or in neither.
pub fn unreachable_definitions_change_no_answer()
    ensures answer { (lines others : List LineOf) → HasSameLinesAndReachableAliases lines others → (request : RequestOf) (answer : Option AnswerOf)
        → IsAnswerToRequest lines request answer ↔ IsAnswerToRequest others request answer }
    ensures default { (lines others : List LineOf) → HasSameLinesAndReachableAliases lines others → (who : WhoOf) (name : List ℕ)
        → IsRunasDefault lines who name ↔ IsRunasDefault others who name }
    ensures groups { (lines others : List LineOf) → HasSameLinesAndReachableAliases lines others → (who : WhoOf) (places : List GroupPlaceOf)
        → ArePlacesOfMatchingHostGroups lines who places ↔ ArePlacesOfMatchingHostGroups others who places }
    ensures cycle { (lines others : List LineOf) → HasSameLinesAndReachableAliases lines others → AreValidWalkLines lines → AreValidWalkLines others
        → HasCyclicAliasReachedFromSpecOrDefaults lines ↔ HasCyclicAliasReachedFromSpecOrDefaults others }
{
    alike_lists_say_same();
    alike_lists_lead_to_cycle();
}
