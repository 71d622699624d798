//! The rules of a policy with one change: filtered, or with their aliases replaced.

ghost use Rattle.std.specs.Prelude.{◌≡◌, ◌⊎◌, ◌≤◌, ◌<◌, true, false, None, Some, IfOk, IfErr};
ghost use Rattle.sudoers_cvt_rules.specs.declared.fault.CvtFault.TheVariants.{Cycle, NoMemory, TooLarge};
ghost use Rattle.sudoers_match_list.specs.Flattened.{expanded_member_limit};
ghost use Rattle.sudoers_cvt_rewrite.specs.Rewrite.{has_reachable_alias_cycle, member_count_of_rules, rewritten_lines_of_policy};

use std::alloc::Global;
use sudoers_cvt_rewrite::{Filter, RewriteChanges, RewrittenPolicy, rewrite_policy_lines};
use sudoers_cvt_rules::CvtFault;
use sudoers_tree::Policy;

/// Returns the lines of `policy` that match `filter` (cvtsudoers(1), -m). With `prune`, members that do not match it fall (-p).
///
/// # Errors
///
/// `Cycle`: an alias is cyclic to which a user specification or a Defaults line leads. `NoMemory`: memory ran out.
pub fn filter_policy(
    alloc: Global,
    policy: &Policy,
    filter: &Filter,
    prune: bool,
) -> Result<RewrittenPolicy, CvtFault>
    ensures lines { IfOk result (λ new. new ≡ rewritten_lines_of_policy (record { filter = Some filter.now; prune = prune; expand = false }) policy.now.walk.lines) }
    ensures straight { IfOk result (λ new. has_reachable_alias_cycle policy.now.walk.lines ≡ false) }
    ensures fault { IfErr result (λ fault. (fault ≡ NoMemory) ⊎ ((fault ≡ Cycle) × (has_reachable_alias_cycle policy.now.walk.lines ≡ true))) }
{
    rewrite_policy_lines(
        alloc,
        policy,
        &RewriteChanges {
            filter: Some(filter),
            prune,
            expand: false,
        },
    )
}

/// Returns the lines of `policy` with their aliases replaced by their members (cvtsudoers(1), -e).
///
/// # Errors
///
/// `Cycle`: an alias is cyclic to which a user specification or a Defaults line leads. `TooLarge`: the lines and the definitions that they
/// use have more than 65,536 members then. `NoMemory`: memory ran out.
pub fn expand_policy(alloc: Global, policy: &Policy) -> Result<RewrittenPolicy, CvtFault>
    ensures lines { IfOk result (λ new. new ≡ rewritten_lines_of_policy (record { filter = None; prune = false; expand = true }) policy.now.walk.lines) }
    ensures straight { IfOk result (λ new. has_reachable_alias_cycle policy.now.walk.lines ≡ false) }
    ensures fits { IfOk result (λ new. member_count_of_rules new ≤ expanded_member_limit) }
    ensures fault { IfErr result (λ fault. (fault ≡ NoMemory) ⊎ (((fault ≡ Cycle) × (has_reachable_alias_cycle policy.now.walk.lines ≡ true))
        ⊎ ((fault ≡ TooLarge) × (has_reachable_alias_cycle policy.now.walk.lines ≡ false)
        × (expanded_member_limit < member_count_of_rules (rewritten_lines_of_policy (record { filter = None; prune = false; expand = true }) policy.now.walk.lines))))) }
{
    rewrite_policy_lines(
        alloc,
        policy,
        &RewriteChanges {
            filter: None,
            prune: false,
            expand: true,
        },
    )
}
