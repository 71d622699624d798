//! Wishes made true.

ghost use Rattle.std.specs.Prelude.{◌≡◌, ◌⊎◌, [], IfOk, MatchResult, Ok, Err};
ghost use Rattle.sudoers_plan.specs.declared.fault.PlanFault.TheVariants as PlanFault;
ghost use Rattle.sudoers_plan.specs.Plan.{LeadsToAllWishes, MeetsAllWishes, plan_of_wishes};

use sudoers_edit::{Edit, Edits, Text};
use sudoers_plan::{PlanFault, PlanRefusal, Wish, plan};
use sudoers_tree::Policy;

/// Returns the edits that make the wishes `wishes` true of `policy`.
///
/// # Errors
///
/// The first wish that cannot be made true, and why.
pub fn plan_wishes(policy: &Policy, wishes: &[Wish]) -> Result<Edits, PlanRefusal>
    ensures outcome { MatchResult result (λ edits. plan_of_wishes wishes.now policy.now ≡ Ok edits)
        (λ refusal. (refusal.fault ≡ PlanFault.NoMemory) ⊎ (plan_of_wishes wishes.now policy.now ≡ Err (refusal.wish, refusal.fault))) }
    ensures met { IfOk result (λ edits. LeadsToAllWishes edits policy.now wishes.now) }
    ensures nothing { MeetsAllWishes policy.now wishes.now → MatchResult result (λ edits. edits ≡ []) (λ refusal. refusal.fault ≡ PlanFault.NoMemory) }
{
    plan(policy, wishes)
}
