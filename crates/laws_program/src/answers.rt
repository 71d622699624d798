//! Laws of what printed rules answer. Each is the contract of a function that does nothing.

ghost use Rattle.std.specs.Prelude.{◌≡◌, ◌↔◌, ℕ, true, List, Option, Ok};
ghost use Rattle.sudoers_tree.specs.Line.{Line as LineOf};
ghost use Rattle.laws_program.specs.ReadAs.{IsPolicyOfPrintedRules};
ghost use Rattle.laws_program.specs.Sound.{AreWalkLinesWithoutNul};
ghost use Rattle.sudoers_tree.specs.Load.{LoadedPolicy};
ghost use Rattle.sudoers_check.specs.Chains.{HasCyclicAliasReachedFromSpecOrDefaults};
ghost use Rattle.sudoers_match_member.specs.declared.people_and_commands.Who.{Who as WhoOf};
ghost use Rattle.laws_print.specs.Same.{atom_read_back};
ghost use Rattle.sudoers_match_member.specs.declared.request.Request.{Request as RequestOf};
ghost use Rattle.sudoers_match.specs.Alike.{KeepsAtomMatches};
ghost use Rattle.sudoers_match.specs.Answer.{Answer as AnswerOf, IsAnswerToRequest};
ghost use Rattle.sudoers_match.specs.Default.{IsRunasDefault};
ghost use Rattle.sudoers_match.specs.Groups.{ArePlacesOfMatchingHostGroups};
ghost use Rattle.sudoers_match.specs.declared.matching_host_groups.HostGroupPlace.{HostGroupPlace as GroupPlaceOf};
ghost use Rattle.sudoers_cvt_rules.specs.Rules.{rules_of_policy_lines, printed_rules, is_printed_within_limits};

use crate::printing::printed_rules_are_read;
use laws_load::text_loads;
use sudoers_match::laws::{
    alike_defaults_are_same, alike_specs_have_same_groups, equal_specs_answer_same,
};
use sudoers_match_list::laws::rewritten_lists_are_alike;
use sudoers_match_member::laws::plain_first_is;

/// What a printed member is read as matches what the member matches. A host may have got a backslash.
pub fn read_member_matches_same()
    ensures { KeepsAtomMatches atom_read_back }
{
    plain_first_is();
}

/// What is read of the printed rules of a policy gives each request the answer of the policy, and no other. Each user has the same
/// runas_default, and rules at the same places. A reachable alias is cyclic in both, or in neither.
pub fn printed_rules_answer()
    ensures answer { (lines : List LineOf) (policy : LoadedPolicy) → AreWalkLinesWithoutNul lines → IsPolicyOfPrintedRules (rules_of_policy_lines lines) policy
        → (request : RequestOf) (answer : Option AnswerOf) → IsAnswerToRequest lines request answer → IsAnswerToRequest policy.walk.lines request answer }
    ensures back { (lines : List LineOf) (policy : LoadedPolicy) → AreWalkLinesWithoutNul lines → IsPolicyOfPrintedRules (rules_of_policy_lines lines) policy
        → (request : RequestOf) (answer : Option AnswerOf) → IsAnswerToRequest policy.walk.lines request answer → IsAnswerToRequest lines request answer }
    ensures default { (lines : List LineOf) (policy : LoadedPolicy) → AreWalkLinesWithoutNul lines → IsPolicyOfPrintedRules (rules_of_policy_lines lines) policy
        → (who : WhoOf) (name : List ℕ) → IsRunasDefault lines who name ↔ IsRunasDefault policy.walk.lines who name }
    ensures groups { (lines : List LineOf) (policy : LoadedPolicy) → AreWalkLinesWithoutNul lines → IsPolicyOfPrintedRules (rules_of_policy_lines lines) policy
        → (who : WhoOf) (places : List GroupPlaceOf) → ArePlacesOfMatchingHostGroups lines who places ↔ ArePlacesOfMatchingHostGroups policy.walk.lines who places }
    ensures cycle { (lines : List LineOf) (policy : LoadedPolicy) → AreWalkLinesWithoutNul lines → IsPolicyOfPrintedRules (rules_of_policy_lines lines) policy
        → HasCyclicAliasReachedFromSpecOrDefaults lines ↔ HasCyclicAliasReachedFromSpecOrDefaults policy.walk.lines }
{
    read_member_matches_same();
    printed_rules_are_read();
    text_loads();
    rewritten_lists_are_alike();
    alike_defaults_are_same();
    alike_specs_have_same_groups();
    equal_specs_answer_same();
}
