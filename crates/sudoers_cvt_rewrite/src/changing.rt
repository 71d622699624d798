//! Policies that are filtered or expanded.

ghost use Rattle.std.specs.Prelude.{◌≡◌, ◌⊎◌, ◌≤◌, ◌<◌, true, false, IfOk, IfErr};
ghost use Rattle.sudoers_cvt_rules.specs.declared.fault.CvtFault.TheVariants.{Cycle, NoMemory, TooLarge};
ghost use Rattle.sudoers_cvt_rewrite.specs.Changed.{changes_of_view};
ghost use Rattle.sudoers_match_list.specs.Flattened.{expanded_member_limit};
ghost use Rattle.sudoers_cvt_rewrite.specs.Rewrite.{has_reachable_alias_cycle, member_count_of_rules, rewritten_lines_of_policy, rules_with_used_definitions};

use crate::filter::Filter;
use crate::rewriting::{RewrittenLines, write_rewritten_lines};
use std::alloc::Global;
use std::marker::Model;
use sudoers_check::mark_used_definitions;
use sudoers_cvt_rules::{CvtFault, Rules};
use sudoers_match_list::{AcyclicWalk, AskFault, ExpansionSource};
use sudoers_tree::Policy;

/// What is to be changed: the filter, if there is one; whether members that do not match it fall; whether aliases are replaced.
#[derive(Clone, Copy)]
pub struct RewriteChanges<'a> {
    pub filter: Option<&'a Filter>,
    pub prune: bool,
    pub expand: bool,
}

/// The lines of a policy that is filtered or expanded, and which of their definitions they use. Contracts see the list of the lines
/// with what they say; they have no text.
#[derive(Drop)]
pub struct RewrittenPolicy {
    lines: RewrittenLines,
    marks: Vec<bool>,
}

impl Model for RewrittenPolicy {
    ghost use Rattle.std.specs.Prelude.{◌≡◌, List, map};
    ghost use Rattle.sudoers_tree.specs.Line.{Line};
    ghost use Rattle.sudoers_tree.specs.Definition.{definitions_of_lines};
    ghost use Rattle.sudoers_check.specs.Led.{is_used};

    ghost Value = { List Line };

    ghost view = { λ new. new.lines };

    ghost invariant = { λ new. new.marks.items ≡ map (is_used new.lines) (definitions_of_lines new.lines) };
}

impl RewrittenPolicy {
    /// Returns the rules of the lines, of definitions only those to which a user specification or a Defaults line leads.
    ///
    /// # Errors
    ///
    /// `NoMemory`: memory ran out.
    pub fn collect_used_rules(&self, alloc: Global) -> Result<Rules<'_>, CvtFault>
        ensures rules { IfOk result (λ rules. rules ≡ rules_with_used_definitions self.now) }
        ensures fault { IfErr result (λ fault. fault ≡ NoMemory) }
    {
        let rows = self.lines.as_rows();
        let rules = Rules::from_policy_lines(alloc, &rows)?;
        let kept = rules.keep_marked_definitions(alloc, self.marks.as_slice())?;
        Ok(kept)
    }
}

/// Returns the lines of a policy, filtered and with their aliases replaced. Lines that do not match the filter say nothing. Definitions
/// stay as they are.
///
/// # Errors
///
/// `Cycle`: an alias is cyclic to which a user specification or a Defaults line leads. `TooLarge`: aliases are replaced, and the lines
/// and the definitions that they use have more than 65,536 members then. `NoMemory`: memory ran out.
pub fn rewrite_policy_lines(
    alloc: Global,
    policy: &Policy,
    changes: &RewriteChanges<'_>,
) -> Result<RewrittenPolicy, CvtFault>
    ensures lines { IfOk result (λ new. new ≡ rewritten_lines_of_policy (changes_of_view changes.now) policy.now.walk.lines) }
    ensures straight { IfOk result (λ new. has_reachable_alias_cycle policy.now.walk.lines ≡ false) }
    ensures fits { IfOk result (λ new. changes.now.expand ≡ true → member_count_of_rules new ≤ expanded_member_limit) }
    ensures fault { IfErr result (λ fault. (fault ≡ NoMemory) ⊎ (((fault ≡ Cycle) × (has_reachable_alias_cycle policy.now.walk.lines ≡ true))
        ⊎ ((fault ≡ TooLarge) × (has_reachable_alias_cycle policy.now.walk.lines ≡ false) × (changes.now.expand ≡ true)
        × (expanded_member_limit < member_count_of_rules (rewritten_lines_of_policy (changes_of_view changes.now) policy.now.walk.lines))))) }
{
    match AcyclicWalk::new(alloc, policy.walk()) {
        Ok(policy) => rewrite_lines_of_acyclic_policy(alloc, &policy, changes),
        Err(AskFault::Cycle) => Err(CvtFault::Cycle),
        Err(_) => Err(CvtFault::NoMemory),
    }
}

/// Returns the lines of a policy none of whose reachable aliases is cyclic, as [`rewrite_policy_lines`] does.
///
/// # Errors
///
/// `TooLarge` and `NoMemory`, as of [`rewrite_policy_lines`].
pub fn rewrite_lines_of_acyclic_policy(
    alloc: Global,
    policy: &AcyclicWalk<'_>,
    changes: &RewriteChanges<'_>,
) -> Result<RewrittenPolicy, CvtFault>
    ensures lines { IfOk result (λ new. new ≡ rewritten_lines_of_policy (changes_of_view changes.now) policy.now) }
    ensures fits { IfOk result (λ new. changes.now.expand ≡ true → member_count_of_rules new ≤ expanded_member_limit) }
    ensures fault { IfErr result (λ fault. (fault ≡ NoMemory) ⊎ ((fault ≡ TooLarge) × (changes.now.expand ≡ true)
        × (expanded_member_limit < member_count_of_rules (rewritten_lines_of_policy (changes_of_view changes.now) policy.now)))) }
{
    let source = ExpansionSource::new(alloc, policy, changes.expand)?;
    let (lines, mut tally) = write_rewritten_lines(alloc, &source, changes)?;
    let marks = mark_used_definitions(alloc, policy.definition_numbers(), &lines.as_rows())?;
    if changes.expand {
        tally.count_marked_definitions(source.definitions.as_slice(), marks.as_slice())?;
    }
    Ok(RewrittenPolicy { lines, marks })
}
