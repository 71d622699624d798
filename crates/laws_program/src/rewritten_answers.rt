//! Laws of what rewritten rules answer. Each is the contract of a function that does nothing.

ghost use Rattle.std.specs.Prelude.{◌≡◌, ◌↔◌, ℕ, true, List, Option, Ok};
ghost use Rattle.sudoers_tree.specs.Line.{Line as LineOf};
ghost use Rattle.laws_program.specs.ReadAs.{IsPolicyOfPrintedRules};
ghost use Rattle.laws_program.specs.Sound.{AreWalkLinesWithoutNul};
ghost use Rattle.sudoers_tree.specs.Load.{LoadedPolicy};
ghost use Rattle.sudoers_check.specs.Chains.{HasCyclicAliasReachedFromSpecOrDefaults};
ghost use Rattle.sudoers_match_member.specs.declared.people_and_commands.Who.{Who as WhoOf};
ghost use Rattle.sudoers_match_member.specs.declared.request.Request.{Request as RequestOf};
ghost use Rattle.sudoers_match.specs.Alike.{AreAnswersSameButNumbers};
ghost use Rattle.sudoers_match.specs.Answer.{Answer as AnswerOf, IsAnswerToRequest};
ghost use Rattle.sudoers_match.specs.Default.{IsRunasDefault};
ghost use Rattle.sudoers_match.specs.Groups.{ArePlacesOfMatchingHostGroups};
ghost use Rattle.sudoers_match.specs.declared.matching_host_groups.HostGroupPlace.{HostGroupPlace as GroupPlaceOf};
ghost use Rattle.sudoers_cvt_rules.specs.Rules.{printed_rules, is_printed_within_limits};
ghost use Rattle.sudoers_cvt_rewrite.specs.Rewrite.{rules_with_used_definitions};
ghost use Rattle.laws_program.specs.Expanded.{lines_with_aliases_replaced};

use crate::answers::read_member_matches_same;
use crate::rewriting::expanded_rules_are_read;
use laws_load::text_loads;
use sudoers_match::laws::{
    alike_defaults_are_same, alike_rows_answer, alike_rows_fit, alike_specs_have_same_groups,
    equal_specs_answer_same, one_answer,
};
use sudoers_match_list::laws::{
    alias_free_list_is_flat, flat_or_cycle, flattened_is_flat, one_flat, rewritten_lists_are_alike,
    same_flat_lists_are_alike,
};

/// With its aliases replaced, a policy none of whose reachable aliases is cyclic answers each request the same, numbers aside. Each user
/// has the same runas_default, and rules at the same places.
pub fn expanded_policy_answers()
    ensures there { (lines : List LineOf) → AreWalkLinesWithoutNul lines → (HasCyclicAliasReachedFromSpecOrDefaults lines → ⊥) → (request : RequestOf) (answer : Option AnswerOf)
        → IsAnswerToRequest lines request answer → (other : Option AnswerOf) × IsAnswerToRequest (lines_with_aliases_replaced lines) request other × AreAnswersSameButNumbers answer other }
    ensures back { (lines : List LineOf) → AreWalkLinesWithoutNul lines → (HasCyclicAliasReachedFromSpecOrDefaults lines → ⊥) → (request : RequestOf) (other : Option AnswerOf)
        → IsAnswerToRequest (lines_with_aliases_replaced lines) request other → (answer : Option AnswerOf) × IsAnswerToRequest lines request answer × AreAnswersSameButNumbers answer other }
    ensures default { (lines : List LineOf) → AreWalkLinesWithoutNul lines → (HasCyclicAliasReachedFromSpecOrDefaults lines → ⊥) → (who : WhoOf) (name : List ℕ)
        → IsRunasDefault lines who name ↔ IsRunasDefault (lines_with_aliases_replaced lines) who name }
    ensures groups { (lines : List LineOf) → AreWalkLinesWithoutNul lines → (HasCyclicAliasReachedFromSpecOrDefaults lines → ⊥) → (who : WhoOf) (places : List GroupPlaceOf)
        → ArePlacesOfMatchingHostGroups lines who places ↔ ArePlacesOfMatchingHostGroups (lines_with_aliases_replaced lines) who places }
{
    flat_or_cycle();
    flattened_is_flat();
    alias_free_list_is_flat();
    same_flat_lists_are_alike();
    alike_defaults_are_same();
    alike_rows_answer();
    alike_rows_fit();
    alike_specs_have_same_groups();
    one_answer();
    one_flat();
}

/// What is read of the printed rules of that policy, without unused definitions, answers each request the same, numbers aside. Each
/// user has the same runas_default, and rules at the same places. No reachable alias is cyclic.
pub fn printed_expansion_answers()
    ensures there { (lines : List LineOf) (policy : LoadedPolicy) → AreWalkLinesWithoutNul lines → (HasCyclicAliasReachedFromSpecOrDefaults lines → ⊥)
        → IsPolicyOfPrintedRules (rules_with_used_definitions (lines_with_aliases_replaced lines)) policy → (request : RequestOf) (answer : Option AnswerOf)
        → IsAnswerToRequest lines request answer → (other : Option AnswerOf) × IsAnswerToRequest policy.walk.lines request other × AreAnswersSameButNumbers answer other }
    ensures back { (lines : List LineOf) (policy : LoadedPolicy) → AreWalkLinesWithoutNul lines → (HasCyclicAliasReachedFromSpecOrDefaults lines → ⊥)
        → IsPolicyOfPrintedRules (rules_with_used_definitions (lines_with_aliases_replaced lines)) policy → (request : RequestOf) (other : Option AnswerOf)
        → IsAnswerToRequest policy.walk.lines request other → (answer : Option AnswerOf) × IsAnswerToRequest lines request answer × AreAnswersSameButNumbers answer other }
    ensures default { (lines : List LineOf) (policy : LoadedPolicy) → AreWalkLinesWithoutNul lines → (HasCyclicAliasReachedFromSpecOrDefaults lines → ⊥)
        → IsPolicyOfPrintedRules (rules_with_used_definitions (lines_with_aliases_replaced lines)) policy → (who : WhoOf) (name : List ℕ)
        → IsRunasDefault lines who name ↔ IsRunasDefault policy.walk.lines who name }
    ensures groups { (lines : List LineOf) (policy : LoadedPolicy) → AreWalkLinesWithoutNul lines → (HasCyclicAliasReachedFromSpecOrDefaults lines → ⊥)
        → IsPolicyOfPrintedRules (rules_with_used_definitions (lines_with_aliases_replaced lines)) policy → (who : WhoOf) (places : List GroupPlaceOf)
        → ArePlacesOfMatchingHostGroups lines who places ↔ ArePlacesOfMatchingHostGroups policy.walk.lines who places }
    ensures straight { (lines : List LineOf) (policy : LoadedPolicy) → AreWalkLinesWithoutNul lines → (HasCyclicAliasReachedFromSpecOrDefaults lines → ⊥)
        → IsPolicyOfPrintedRules (rules_with_used_definitions (lines_with_aliases_replaced lines)) policy → HasCyclicAliasReachedFromSpecOrDefaults policy.walk.lines → ⊥ }
{
    expanded_rules_are_read();
    text_loads();
    read_member_matches_same();
    rewritten_lists_are_alike();
    flat_or_cycle();
    flattened_is_flat();
    alias_free_list_is_flat();
    same_flat_lists_are_alike();
    alike_defaults_are_same();
    alike_rows_answer();
    alike_rows_fit();
    alike_specs_have_same_groups();
    equal_specs_answer_same();
    one_answer();
    one_flat();
}
