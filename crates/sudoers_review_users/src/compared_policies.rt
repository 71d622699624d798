//! Two policies that are compared for one user after another.

ghost use Rattle.std.specs.Prelude.{◌≡◌, ◌⊎◌, IfOk, IfErr};
ghost use Rattle.sudoers_check.specs.Chains.{HasCyclicAliasReachedFromSpecOrDefaults};
ghost use Rattle.sudoers_review.specs.declared.compare_fault.CompareFault.TheVariants.{Cycle, NoMemory, TooLarge};
ghost use Rattle.sudoers_review_users.specs.Ready.{new_policy, old_policy, IsReadyComparison};

use std::alloc::Global;
use sudoers_match_list::AcyclicWalk;
use sudoers_review::{CompareFault, FlatPolicy};
use sudoers_tree::Policy;

/// Two policies with their lists flat, and with their walks.
#[derive(Drop)]
pub struct ComparedPolicies<'a> {
    pub old: FlatPolicy<'a>,
    pub new: FlatPolicy<'a>,
    pub old_walk: AcyclicWalk<'a>,
    pub new_walk: AcyclicWalk<'a>,
}

impl<'a> ComparedPolicies<'a> {
    /// Returns `old` and `new` with their lists flat.
    ///
    /// # Errors
    ///
    /// `Cycle`: a reachable alias of one of them is cyclic. `TooLarge`: in one of them more than 65,536 members come in the place of
    /// aliases. `NoMemory`: memory ran out.
    pub fn new(
        alloc: Global,
        old: &'a Policy,
        new: &'a Policy,
    ) -> Result<ComparedPolicies<'a>, CompareFault>
        ensures ready { IfOk result IsReadyComparison }
        ensures policies { IfOk result (λ compared. (old_policy compared ≡ old.now) × (new_policy compared ≡ new.now)) }
        ensures straight { IfOk result (λ compared. (HasCyclicAliasReachedFromSpecOrDefaults old.now.walk.lines → ⊥) × (HasCyclicAliasReachedFromSpecOrDefaults new.now.walk.lines → ⊥)) }
        ensures fault { IfErr result (λ fault. (fault ≡ NoMemory) ⊎ ((fault ≡ TooLarge) ⊎ ((fault ≡ Cycle)
            × (HasCyclicAliasReachedFromSpecOrDefaults old.now.walk.lines ⊎ HasCyclicAliasReachedFromSpecOrDefaults new.now.walk.lines)))) }
    {
        Ok(ComparedPolicies {
            old: FlatPolicy::new(alloc, old)?,
            new: FlatPolicy::new(alloc, new)?,
            old_walk: AcyclicWalk::new(alloc, old.walk())?,
            new_walk: AcyclicWalk::new(alloc, new.walk())?,
        })
    }
}
