//! Laws of what is printed of a user. Each is the contract of a function that does nothing.

ghost use Rattle.std.specs.Prelude.{◌≡◌, ℕ, List, [], Option};
ghost use Rattle.sudoers_check.specs.Chains.{HasCyclicAliasReachedFromSpecOrDefaults};
ghost use Rattle.sudoers_tree.specs.Load.{LoadedPolicy};
ghost use Rattle.sudoers_tree.specs.Policy.{AreValidWalkLines};
ghost use Rattle.sudoers_match_member.specs.declared.people_and_commands.Who.{Who as WhoOf};
ghost use Rattle.sudoers_match_member.specs.declared.request.Request.{Request as RequestOf};
ghost use Rattle.sudoers_match.specs.Alike.{AreAnswersSameButNumbers};
ghost use Rattle.sudoers_match.specs.Answer.{Answer as AnswerOf, IsAnswerToRequest};
ghost use Rattle.sudoers_review_users.specs.UserChanges.{IsUserChangesText};

use laws_compare::laws::{content_is, decided_is_covered, same_grants_answer_same};
use sudoers_compare::laws::placed_rows_are_content;
use sudoers_match_list::laws::one_flat;

/// Where nothing is printed of a user on a host, both policies answer each of his requests there the same, numbers aside, if no reachable alias is
/// cyclic in either.
pub fn silent_user_answers_same()
    ensures { (old new : LoadedPolicy) (now : ℕ) (name : List ℕ) (who : WhoOf) → AreValidWalkLines old.walk.lines → AreValidWalkLines new.walk.lines
        → (HasCyclicAliasReachedFromSpecOrDefaults old.walk.lines → ⊥) → (HasCyclicAliasReachedFromSpecOrDefaults new.walk.lines → ⊥)
        → IsUserChangesText old new now name who [] → (request : RequestOf) → request.who ≡ who → (answer : Option AnswerOf) → IsAnswerToRequest old.walk.lines request answer
        → (other : Option AnswerOf) × IsAnswerToRequest new.walk.lines request other × AreAnswersSameButNumbers answer other }
{
    content_is();
    decided_is_covered();
    one_flat();
    placed_rows_are_content();
    same_grants_answer_same();
}
