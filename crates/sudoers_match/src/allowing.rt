//! Lists that allow what is asked.

ghost use Rattle.std.specs.Prelude.{◌≡◌, IfOk};
ghost use Rattle.sudoers_line_rows.specs.View.{members_of_view};
ghost use Rattle.sudoers_match_list.specs.Flat.{IsLastHitOfList, IsListVerdict};
ghost use Rattle.sudoers_match_list.specs.Search.{IsValidVerdictCache};
ghost use Rattle.sudoers_match.specs.Allows.{DecidesWhetherListAllows};
ghost use Rattle.sudoers_match.specs.internal.Straight.{LeadsToNoCyclicAlias};

use std::alloc::AllocError;
use sudoers_match_list::{
    AcyclicWalk, AliasVerdictCache, LastHitOrCycle, MemberHit, MemberKind, Verdict,
};
use sudoers_tree::{Kind, MemberRow, RowsOfTable};

/// Returns what the list `members` says of `asked`. The list leads to no cyclic alias.
///
/// # Errors
///
/// Memory ran out.
pub fn find_last_hit_in_list<'a, K: MemberKind>(
    verdicts: &mut AliasVerdictCache<'a>,
    policy: &AcyclicWalk<'a>,
    kind: Kind,
    members: &RowsOfTable<'_, MemberRow>,
    asked: &K::Asked,
) -> Result<Option<MemberHit>, AllocError>
    requires verdicts { IsValidVerdictCache kind policy.now (K.test asked.now) verdicts.old }
    requires straight { LeadsToNoCyclicAlias kind policy.now (members_of_view members.now) }
    ensures kept { IfOk result (λ _. IsValidVerdictCache kind policy.now (K.test asked.now) verdicts.new) }
    ensures hit { IfOk result (λ hit. IsLastHitOfList kind policy.now (K.test asked.now) (members_of_view members.now) hit) }
{
    match verdicts.find_last_hit::<K>(policy.definition_numbers(), kind, members, asked)? {
        LastHitOrCycle::Latest(hit) => Ok(hit),
        LastHitOrCycle::Cyclic => unreachable!(),
    }
}

/// Returns whether the list `members` allows `asked`. The list leads to no cyclic alias.
///
/// # Errors
///
/// Memory ran out.
pub fn is_allowed_by_list<'a, K: MemberKind>(
    verdicts: &mut AliasVerdictCache<'a>,
    policy: &AcyclicWalk<'a>,
    kind: Kind,
    members: &RowsOfTable<'_, MemberRow>,
    asked: &K::Asked,
) -> Result<bool, AllocError>
    requires verdicts { IsValidVerdictCache kind policy.now (K.test asked.now) verdicts.old }
    requires straight { LeadsToNoCyclicAlias kind policy.now (members_of_view members.now) }
    ensures kept { IfOk result (λ _. IsValidVerdictCache kind policy.now (K.test asked.now) verdicts.new) }
    ensures allowed { IfOk result (λ allowed. DecidesWhetherListAllows kind policy.now (K.test asked.now) (members_of_view members.now) allowed) }
{
    let hit = find_last_hit_in_list::<K>(verdicts, policy, kind, members, asked)?;
    match Verdict::from_last_hit(hit) {
        Verdict::Allow => Ok(true),
        _ => Ok(false),
    }
}
