//! Lists that allow what is asked, in walks without cyclic aliases.

ghost use Rattle.std.specs.Prelude.{IfOk};
ghost use Rattle.sudoers_match_list.specs.Search.{IsValidVerdictCache};

use sudoers_match_list::{
    AcyclicWalk, AliasVerdictCache, AskFault, LastHitOrCycle, MemberKind, Verdict,
};
use sudoers_tree::{Kind, MemberRow, RowsOfTable};

/// Returns whether the list `members` allows `asked`.
///
/// # Errors
///
/// `Cycle`: the list leads to a cyclic alias. `NoMemory`: memory ran out.
pub fn is_list_allowing<'a, K: MemberKind>(
    verdicts: &mut AliasVerdictCache<'a>,
    policy: &AcyclicWalk<'a>,
    kind: Kind,
    members: &RowsOfTable<'_, MemberRow>,
    asked: &K::Asked,
) -> Result<bool, AskFault>
    requires { IsValidVerdictCache kind policy.now (K.test asked.now) verdicts.old }
    ensures { IfOk result (λ _. IsValidVerdictCache kind policy.now (K.test asked.now) verdicts.new) }
{
    match verdicts.find_last_hit::<K>(policy.definition_numbers(), kind, members, asked)? {
        LastHitOrCycle::Latest(hit) => { Ok(matches!(Verdict::from_last_hit(hit), Verdict::Allow)) }
        LastHitOrCycle::Cyclic => Err(AskFault::Cycle),
    }
}
