//! Laws of what is printed of two policies. Each is the contract of a function that does nothing.

ghost use Rattle.std.specs.Prelude.{◌≡◌, ◌↔◌, ℕ, true, List, [], Option, Some};
ghost use Rattle.sudoers_check.specs.Chains.{HasCyclicAliasReachedFromSpecOrDefaults};
ghost use Rattle.sudoers_tree.specs.Load.{LoadedPolicy};
ghost use Rattle.sudoers_tree.specs.Policy.{AreValidWalkLines};
ghost use Rattle.sudoers_match_member.specs.declared.people_and_commands.Who.{Who as WhoOf};
ghost use Rattle.sudoers_match_member.specs.declared.request.Request.{Request as RequestOf};
ghost use Rattle.sudoers_match.specs.Alike.{AreAnswersSameButNumbers};
ghost use Rattle.sudoers_match.specs.Answer.{Answer as AnswerOf, IsAnswerToRequest};
ghost use Rattle.sudoers_match.specs.Default.{IsRunasDefault};
ghost use Rattle.sudoers_compare.specs.declared.same_row.CountedChanges.TheVariants as counted;
ghost use Rattle.sudoers_review.specs.ChangedText.{IsChangesText};

use laws_compare::laws::{content_is, policy_that_grants_no_more_allows_no_more};
use sudoers_compare::laws::{
    equal_rows_and_settings_answer_same, placed_rows_are_content, unchanged_row_is_same_or_covered,
};

/// Where nothing is printed of two policies, they answer each request the same, numbers aside, if no reachable alias is cyclic in either. They
/// give each user the same runas_default.
pub fn silent_changes_answer_same()
    ensures answer { (old new : LoadedPolicy) → AreValidWalkLines old.walk.lines → AreValidWalkLines new.walk.lines
        → (HasCyclicAliasReachedFromSpecOrDefaults old.walk.lines → ⊥) → (HasCyclicAliasReachedFromSpecOrDefaults new.walk.lines → ⊥) → IsChangesText counted.All old new []
        → (request : RequestOf) (answer : Option AnswerOf) → IsAnswerToRequest old.walk.lines request answer
        → (other : Option AnswerOf) × IsAnswerToRequest new.walk.lines request other × AreAnswersSameButNumbers answer other }
    ensures default { (old new : LoadedPolicy) → AreValidWalkLines old.walk.lines → AreValidWalkLines new.walk.lines
        → (HasCyclicAliasReachedFromSpecOrDefaults old.walk.lines → ⊥) → (HasCyclicAliasReachedFromSpecOrDefaults new.walk.lines → ⊥) → IsChangesText counted.All old new []
        → (who : WhoOf) (name : List ℕ) → IsRunasDefault old.walk.lines who name ↔ IsRunasDefault new.walk.lines who name }
{
    equal_rows_and_settings_answer_same();
    placed_rows_are_content();
}

/// Where nothing is printed of what a change may grant, the old policy allows each request that the new one allows, if no reachable alias is
/// cyclic in either.
pub fn silent_grants_allow_no_more()
    ensures { (old new : LoadedPolicy) → AreValidWalkLines old.walk.lines → AreValidWalkLines new.walk.lines
        → (HasCyclicAliasReachedFromSpecOrDefaults old.walk.lines → ⊥) → (HasCyclicAliasReachedFromSpecOrDefaults new.walk.lines → ⊥) → IsChangesText counted.Granting old new []
        → (request : RequestOf) (answer : AnswerOf) (other : Option AnswerOf) → IsAnswerToRequest new.walk.lines request (Some answer) → answer.allow ≡ true
        → IsAnswerToRequest old.walk.lines request other → (allowed : AnswerOf) × (other ≡ Some allowed) × (allowed.allow ≡ true) }
{
    content_is();
    policy_that_grants_no_more_allows_no_more();
    placed_rows_are_content();
    unchanged_row_is_same_or_covered();
}
