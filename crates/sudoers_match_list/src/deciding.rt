//! Verdicts of lists.

ghost use Rattle.std.specs.Prelude.{◌≡◌, ◌⊎◌, IfOk, IfErr};
ghost use Rattle.sudoers_line_rows.specs.View.{members_of_view};
ghost use Rattle.sudoers_check.specs.Chains.{HasCyclicAliasReachedFromSpecOrDefaults};
ghost use Rattle.sudoers_match_list.specs.declared.verdict.AskFault.TheVariants.{Cycle, NoMemory};
ghost use Rattle.sudoers_match_list.specs.Flat.{IsListVerdict};
ghost use Rattle.sudoers_match_list.specs.Cycle.{ListLeadsToCyclicAlias};

use crate::alias_cycles::has_reachable_cycle_in_numbered_walk;
use crate::alias_verdicts::AliasVerdictCache;
use crate::kind::MemberKind;
use crate::verdict::{AskFault, LastHitOrCycle, Verdict};
use std::alloc::Global;
use sudoers_check::DefinitionNumbers;
use sudoers_tree::{Kind, MemberRow, Policy, RowsOfTable};

/// Returns what the list `members` of this kind says of `asked` (sudoers(5), Aliases).
///
/// # Errors
///
/// `Cycle`: a reachable alias is cyclic, or the list leads to a cyclic alias. `NoMemory`: memory ran out.
#[tactic(auto, using(crate::proofs::Known::no_cycle))]
pub fn decide<K: MemberKind>(
    alloc: Global,
    policy: &Policy,
    kind: Kind,
    members: &RowsOfTable<'_, MemberRow>,
    asked: &K::Asked,
) -> Result<Verdict, AskFault>
    ensures verdict { IfOk result (λ verdict. IsListVerdict kind policy.now.walk.lines (K.test asked.now) (members_of_view members.now) verdict) }
    ensures straight { IfOk result (λ verdict. (HasCyclicAliasReachedFromSpecOrDefaults policy.now.walk.lines ⊎ ListLeadsToCyclicAlias kind policy.now.walk.lines (members_of_view members.now)) → ⊥) }
    ensures fault { IfErr result (λ fault. (fault ≡ NoMemory)
        ⊎ ((fault ≡ Cycle) × (HasCyclicAliasReachedFromSpecOrDefaults policy.now.walk.lines ⊎ ListLeadsToCyclicAlias kind policy.now.walk.lines (members_of_view members.now)))) }
{
    // laws
    policy.walk().is_walk();
    let numbers = DefinitionNumbers::new(alloc, policy.walk())?;
    if has_reachable_cycle_in_numbered_walk(alloc, &numbers)? {
        return Err(AskFault::Cycle);
    }
    let mut verdicts = AliasVerdictCache::new(alloc, &numbers)?;
    match verdicts.find_last_hit::<K>(&numbers, kind, members, asked)? {
        LastHitOrCycle::Latest(hit) => Ok(Verdict::from_last_hit(hit)),
        LastHitOrCycle::Cyclic => Err(AskFault::Cycle),
    }
}
