//! What a filter keeps of a policy, and the policy without aliases.

ghost use Rattle.std.specs.Prelude.{◌≡◌, ◌⊎◌, ◌≤◌, ◌<◌, true, false, Ok, Err, IfOk, IfErr};
ghost use Rattle.sudoers_cvt_rules.specs.declared.fault.CvtFault.TheVariants.{Cycle, NoMemory, TooLarge};
ghost use Rattle.sudoers_cvt_rewrite.specs.declared.filter_text.FilterFault.TheVariants as FilterFault;
ghost use Rattle.sudoers_cvt_rewrite.specs.Changed.{changes_of_view};
ghost use Rattle.sudoers_match_list.specs.Flattened.{expanded_member_limit};
ghost use Rattle.sudoers_cvt_rewrite.specs.FilterText.{filter_read_from_text};
ghost use Rattle.sudoers_cvt_rewrite.specs.Rewrite.{has_reachable_alias_cycle, member_count_of_rules, rewritten_lines_of_policy, rules_with_used_definitions};

use std::alloc::Global;
use sudoers_cvt_rewrite::{
    Filter, FilterFault, RewriteChanges, RewrittenPolicy, read_filter, rewrite_policy_lines,
};
use sudoers_cvt_rules::{CvtFault, Rules};
use sudoers_tree::Policy;

/// Returns the filter that `text` is.
///
/// # Errors
///
/// The first fault of the text, or memory ran out.
pub fn filter_of_text(alloc: Global, text: &[u8]) -> Result<Filter, FilterFault>
    ensures filter { IfOk result (λ filter. filter_read_from_text text.now ≡ Ok filter) }
    ensures fault { IfErr result (λ fault. (fault ≡ FilterFault.NoMemory) ⊎ (filter_read_from_text text.now ≡ Err fault)) }
{
    read_filter(alloc, text)
}

/// Returns the lines of `policy` after `changes`.
///
/// # Errors
///
/// `Cycle`: a reachable alias is cyclic. `TooLarge`: the aliases give too many members. Or memory ran out.
pub fn rewrite_policy(
    alloc: Global,
    policy: &Policy,
    changes: &RewriteChanges<'_>,
) -> Result<RewrittenPolicy, CvtFault>
    ensures lines { IfOk result (λ new. new ≡ rewritten_lines_of_policy (changes_of_view changes.now) policy.now.walk.lines) }
    ensures straight { IfOk result (λ new. has_reachable_alias_cycle policy.now.walk.lines ≡ false) }
    ensures fits { IfOk result (λ new. changes.now.expand ≡ true → member_count_of_rules new ≤ expanded_member_limit) }
    ensures fault { IfErr result (λ fault. (fault ≡ NoMemory) ⊎ (((fault ≡ Cycle) × (has_reachable_alias_cycle policy.now.walk.lines ≡ true))
        ⊎ ((fault ≡ TooLarge) × (has_reachable_alias_cycle policy.now.walk.lines ≡ false) × (changes.now.expand ≡ true)
        × (expanded_member_limit < member_count_of_rules (rewritten_lines_of_policy (changes_of_view changes.now) policy.now.walk.lines))))) }
{
    rewrite_policy_lines(alloc, policy, changes)
}

/// Returns the rules of `lines`, with the definitions that they use.
///
/// # Errors
///
/// Memory ran out.
pub fn rules_of_lines<'a>(alloc: Global, lines: &'a RewrittenPolicy) -> Result<Rules<'a>, CvtFault>
    ensures rules { IfOk result (λ rules. rules ≡ rules_with_used_definitions lines.now) }
    ensures fault { IfErr result (λ fault. fault ≡ NoMemory) }
{
    lines.collect_used_rules(alloc)
}
