//! What a list says, whether a reachable alias is cyclic, and what a policy answers.

ghost use Rattle.std.specs.Prelude.{◌≡◌, ◌<◌, ◌≤◌, ◌⊎◌, ◌↔◌, IsTrue, length, IfOk, IfErr, IfSome};
ghost use Rattle.std.specs.Option.{option_map};
ghost use Rattle.sudoers_check.specs.Chains.{HasCyclicAliasReachedFromSpecOrDefaults};
ghost use Rattle.sudoers_match.specs.Answer.{IsAnswerToRequest, answer_of_view, joined_arguments_limit, words_joined_with_spaces};
ghost use Rattle.sudoers_match.specs.Default.{IsRunasDefault};
ghost use Rattle.sudoers_match.specs.Found.{HasMemberAndSettingsFromLines, answer_without_member_and_settings};
ghost use Rattle.sudoers_match.specs.Groups.{ArePlacesOfMatchingHostGroups};
ghost use Rattle.sudoers_line_rows.specs.View.{members_of_view};
ghost use Rattle.sudoers_match_list.specs.declared.verdict.AskFault.TheVariants.{Cycle, TooLong, NoMemory};
ghost use Rattle.sudoers_match_list.specs.Cycle.{ListLeadsToCyclicAlias};
ghost use Rattle.sudoers_match_list.specs.Flat.{IsListVerdict};

use std::alloc::{AllocError, Global};
use sudoers_line_rows::{MemberRow, RowsOfTable};
use sudoers_match::{
    Answer, AnswerWithMemberAndSettings, AskFault, HostGroupPlace, Request, Who, answer,
    find_answer, host_groups, runas_default,
};
use sudoers_match_list::{AcyclicWalk, MemberKind, Verdict, decide, has_reachable_cycle_in_policy};
use sudoers_tree::{Kind, Policy};

/// Returns what a list of members says of what is asked.
///
/// # Errors
///
/// `Cycle`: the list or a reachable alias leads to a cycle. Or memory ran out.
pub fn decide_list<K: MemberKind>(
    alloc: Global,
    policy: &Policy,
    kind: Kind,
    members: &RowsOfTable<'_, MemberRow>,
    asked: &K::Asked,
) -> Result<Verdict, AskFault>
    ensures verdict { IfOk result (λ verdict. IsListVerdict kind policy.now.walk.lines (K.test asked.now) (members_of_view members.now) verdict) }
    ensures straight { IfOk result (λ verdict. (HasCyclicAliasReachedFromSpecOrDefaults policy.now.walk.lines ⊎ ListLeadsToCyclicAlias kind policy.now.walk.lines (members_of_view members.now)) → ⊥) }
    ensures fault { IfErr result (λ fault. (fault ≡ NoMemory)
        ⊎ ((fault ≡ Cycle) × (HasCyclicAliasReachedFromSpecOrDefaults policy.now.walk.lines ⊎ ListLeadsToCyclicAlias kind policy.now.walk.lines (members_of_view members.now)))) }
{
    decide::<K>(alloc, policy, kind, members, asked)
}

/// Returns whether an alias that a specification or a Defaults line leads to is cyclic.
///
/// # Errors
///
/// Memory ran out.
pub fn find_cycle(alloc: Global, policy: &Policy) -> Result<bool, AllocError>
    ensures { IfOk result (λ cycle. IsTrue cycle ↔ HasCyclicAliasReachedFromSpecOrDefaults policy.now.walk.lines) }
{
    has_reachable_cycle_in_policy(alloc, policy)
}

/// Returns the answer of `policy` to `request`: that of the last row that fits.
///
/// # Errors
///
/// `Cycle`: a reachable alias is cyclic. `TooLong`: the arguments are. Or memory ran out.
pub fn answer_request<'a>(
    alloc: Global,
    policy: &'a Policy,
    request: &Request,
) -> Result<Option<Answer<'a>>, AskFault>
    ensures answer { IfOk result (λ answer. IsAnswerToRequest policy.now.walk.lines request.now (option_map answer_of_view answer)) }
    ensures straight { IfOk result (λ _. HasCyclicAliasReachedFromSpecOrDefaults policy.now.walk.lines → ⊥) }
    ensures short { IfOk result (λ _. length (words_joined_with_spaces request.now.args) ≤ joined_arguments_limit) }
    ensures fault { IfErr result (λ fault. (fault ≡ NoMemory) ⊎ (((fault ≡ Cycle) × HasCyclicAliasReachedFromSpecOrDefaults policy.now.walk.lines)
        ⊎ ((fault ≡ TooLong) × (HasCyclicAliasReachedFromSpecOrDefaults policy.now.walk.lines → ⊥) × (joined_arguments_limit < length (words_joined_with_spaces request.now.args))))) }
{
    answer(alloc, policy, request)
}

/// Returns the last row of `policy` that fits `request`, with its command.
///
/// # Errors
///
/// `TooLong`: the arguments are. Or memory ran out.
pub fn find_rule<'a>(
    alloc: Global,
    policy: &AcyclicWalk<'a>,
    request: &Request,
    default: &'a [u8],
) -> Result<Option<AnswerWithMemberAndSettings<'a>>, AskFault>
    requires { IsRunasDefault policy.now request.now.who default.now }
    ensures answer { IfOk result (λ found. IsAnswerToRequest policy.now request.now (option_map answer_without_member_and_settings found)) }
    ensures found { IfOk result (λ found. IfSome found (HasMemberAndSettingsFromLines policy.now)) }
    ensures short { IfOk result (λ _. length (words_joined_with_spaces request.now.args) ≤ joined_arguments_limit) }
    ensures fault { IfErr result (λ fault. (fault ≡ NoMemory) ⊎ ((fault ≡ TooLong) × (joined_arguments_limit < length (words_joined_with_spaces request.now.args)))) }
{
    find_answer(alloc, policy, request, default)
}

/// Returns the name of the user as whom commands run by default.
///
/// # Errors
///
/// `Cycle`: a reachable alias is cyclic. Or memory ran out.
pub fn default_user<'a>(alloc: Global, policy: &'a Policy, who: &Who) -> Result<&'a [u8], AskFault>
    ensures name { IfOk result (λ name. IsRunasDefault policy.now.walk.lines who.now name.now) }
    ensures straight { IfOk result (λ _. HasCyclicAliasReachedFromSpecOrDefaults policy.now.walk.lines → ⊥) }
    ensures fault { IfErr result (λ fault. (fault ≡ NoMemory) ⊎ ((fault ≡ Cycle) × HasCyclicAliasReachedFromSpecOrDefaults policy.now.walk.lines)) }
{
    runas_default(alloc, policy, who)
}

/// Returns the places of the host groups for `who`.
///
/// # Errors
///
/// `Cycle`: a reachable alias is cyclic. Or memory ran out.
pub fn groups_of_hosts(
    alloc: Global,
    policy: &Policy,
    who: &Who,
) -> Result<Vec<HostGroupPlace>, AskFault>
    ensures groups { IfOk result (λ places. ArePlacesOfMatchingHostGroups policy.now.walk.lines who.now places.items) }
    ensures straight { IfOk result (λ _. HasCyclicAliasReachedFromSpecOrDefaults policy.now.walk.lines → ⊥) }
    ensures fault { IfErr result (λ fault. (fault ≡ NoMemory) ⊎ ((fault ≡ Cycle) × HasCyclicAliasReachedFromSpecOrDefaults policy.now.walk.lines)) }
{
    host_groups(alloc, policy, who)
}
