//! What a user may run on a host, and the rule that decides.

ghost use Rattle.std.specs.Prelude.{◌≡◌, ◌⊎◌, IfOk, IfErr};
ghost use Rattle.std.specs.Option.{option_map};
ghost use Rattle.sudoers_check.specs.Chains.{HasCyclicAliasReachedFromSpecOrDefaults};
ghost use Rattle.sudoers_list.specs.Listing.{IsListingOfUser};
ghost use Rattle.sudoers_list.specs.Reason.{IsReasonText};
ghost use Rattle.sudoers_match.specs.Answer.{IsAnswerToRequest, answer_of_view};
ghost use Rattle.sudoers_match_list.specs.declared.verdict.AskFault.TheVariants.{Cycle, NoMemory};

use std::alloc::Global;
use sudoers_list::{explain, list};
use sudoers_match::{Answer, AskFault, Request, Who};
use sudoers_tree::Policy;

/// Returns what `who` may run on his host, as a text.
///
/// # Errors
///
/// `Cycle`: a reachable alias is cyclic. Or memory ran out.
pub fn list_rules(alloc: Global, policy: &Policy, who: &Who) -> Result<Vec<u8>, AskFault>
    ensures text { IfOk result (λ text. IsListingOfUser policy.now.walk.lines who.now text.items) }
    ensures straight { IfOk result (λ _. HasCyclicAliasReachedFromSpecOrDefaults policy.now.walk.lines → ⊥) }
    ensures fault { IfErr result (λ fault. (fault ≡ NoMemory) ⊎ ((fault ≡ Cycle) × HasCyclicAliasReachedFromSpecOrDefaults policy.now.walk.lines)) }
{
    list(alloc, policy, who)
}

/// Returns the rule that decides, as a text.
///
/// # Errors
///
/// `Cycle`: a reachable alias is cyclic. Or memory ran out.
pub fn explain_answer(
    alloc: Global,
    policy: &Policy,
    request: &Request,
    answer: Option<Answer<'_>>,
) -> Result<Vec<u8>, AskFault>
    requires { IsAnswerToRequest policy.now.walk.lines request.now (option_map answer_of_view answer) }
    ensures text { IfOk result (λ text. IsReasonText policy.now request.now (option_map answer_of_view answer.entry) text.items) }
    ensures straight { IfOk result (λ _. HasCyclicAliasReachedFromSpecOrDefaults policy.now.walk.lines → ⊥) }
    ensures fault { IfErr result (λ fault. (fault ≡ NoMemory) ⊎ ((fault ≡ Cycle) × HasCyclicAliasReachedFromSpecOrDefaults policy.now.walk.lines)) }
{
    explain(alloc, policy, request, answer)
}
