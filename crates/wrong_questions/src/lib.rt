//! Calls of the libraries that answer questions about a machine, each with the clauses that its library promises.
#![tactic(auto)]

ghost use Rattle.std.specs.Prelude.{◌≡◌, ◌⊎◌, false, Err, IfOk, IfErr};
ghost use Rattle.sudoers_check.specs.Chains.{HasCyclicAliasReachedFromSpecOrDefaults};
ghost use Rattle.sudoers_match_list.specs.declared.verdict.AskFault.TheVariants.{Cycle};
ghost use Rattle.sudoers_match.specs.Default.{IsRunasDefault};
ghost use Rattle.sudoers_match_list.specs.Flat.{SignedAtom};
ghost use Rattle.sudoers_match_member.specs.declared.request.Request.{Request as RequestOf};
ghost use Rattle.sudoers_match.specs.Answer.{command_with_joined_arguments_of_request};
ghost use Rattle.sudoers_match.specs.ForRequest.{AreRequestsOfTwoUsers, AreSpecsForRequest};
ghost use Rattle.sudoers_match.specs.Rows.{PrivilegeRow};
ghost use Rattle.sudoers_match.specs.Spellings.{is_spelled_command_match};
ghost use Rattle.sudoers_undecided.specs.declared.request_part.RequestPart.{RequestPart as PartOf};
ghost use Rattle.sudoers_undecided.specs.FoundMembers.{AreUndecidedMembers, AreUndecidedMembersOfRights, HasEachAtomOfRights, HasEachUndecidedAtom};
ghost use Rattle.sudoers_undecided.specs.MatchTests.{match_tests_of_request, undecided_by_files_or_paths};
ghost use Rattle.sudoers_undecided.specs.UndecidedAnswer.{IsUndecidedInAnswer};
ghost use Rattle.sudoers_ask.specs.declared.question.QuestionFault.TheVariants.{Ask};
ghost use Rattle.sudoers_ask.specs.Outcome.{IsMemoryFault, IsUserOutcome};
ghost use Rattle.sudoers_ask.specs.Users.{IsFaultOfFirstUser, IsTextOfUsers};
ghost use Rattle.sudoers_ask.specs.Why.{IsWhyText};

use std::alloc::{AllocError, Global};
use sudoers_ask::{
    CommandQuestion, QuestionFault, UsersText, WhyText, explain_user_answer, list_users_who_may_run,
};
use sudoers_list_people::People;
use sudoers_match::{CommandSpellings, SpecOnLine, find_specs_for_users};
use sudoers_match_list::AcyclicWalk;
use sudoers_match_member::{CommandLine, Request, Who};
use sudoers_tree::Policy;
use sudoers_undecided::{
    UndecidedMember, list_undecided_members, list_undecided_members_of_rights,
    may_have_undecided_members,
};

/// Returns the users who may run the command of `question`, as a text.
///
/// # Errors
///
/// Those of [`list_users_who_may_run`].
pub fn list_users(
    alloc: Global,
    policy: &Policy,
    people: &People,
    question: &CommandQuestion<'_>,
    denied: bool,
) -> Result<UsersText, QuestionFault>
    ensures users { IfOk result (λ users. IsTextOfUsers policy.now people.now question.now denied users.text.items users.is_any_allowed) }
    ensures straight { IfOk result (λ _. HasCyclicAliasReachedFromSpecOrDefaults policy.now.walk.lines → ⊥) }
    ensures fault { IfErr result (λ fault. IsMemoryFault fault ⊎ (((fault ≡ Ask Cycle) × HasCyclicAliasReachedFromSpecOrDefaults policy.now.walk.lines)
        ⊎ IsFaultOfFirstUser policy.now people.now question.now denied fault)) }
{
    list_users_who_may_run(alloc, policy, people, question, denied)
}

/// Returns why the user `user` may run the command of `question`, or may not.
///
/// # Errors
///
/// Those of [`explain_user_answer`].
pub fn explain_user(
    alloc: Global,
    policy: &Policy,
    people: &People,
    user: &[u8],
    question: &CommandQuestion<'_>,
) -> Result<WhyText, QuestionFault>
    ensures why { IfOk result (λ why. IsWhyText policy.now people.now question.now user.now why.text.items why.is_allowed) }
    ensures straight { IfOk result (λ _. HasCyclicAliasReachedFromSpecOrDefaults policy.now.walk.lines → ⊥) }
    ensures fault { IfErr result (λ fault. IsMemoryFault fault ⊎ (((fault ≡ Ask Cycle) × HasCyclicAliasReachedFromSpecOrDefaults policy.now.walk.lines)
        ⊎ IsUserOutcome policy.now.walk.lines people.now question.now user.now (Err fault))) }
{
    explain_user_answer(alloc, policy, people, user, question)
}

/// Returns the members that were not decided in the answer to `request`, and could have changed it.
///
/// # Errors
///
/// Memory ran out.
pub fn list_undecided<'a>(
    alloc: Global,
    policy: &AcyclicWalk<'a>,
    request: &Request,
    default: &'a [u8],
) -> Result<Vec<UndecidedMember<'a>>, AllocError>
    requires { IsRunasDefault policy.now request.now.who default.now }
    ensures { IfOk result (λ found. HasEachUndecidedAtom policy.now request.now found.items) }
{
    list_undecided_members(alloc, policy, request, default)
}

/// Returns no other members than those that were not decided in the answer to `request`, and could have changed it.
///
/// # Errors
///
/// Memory ran out.
pub fn list_only_undecided<'a>(
    alloc: Global,
    policy: &AcyclicWalk<'a>,
    request: &Request,
    default: &'a [u8],
) -> Result<Vec<UndecidedMember<'a>>, AllocError>
    requires { IsRunasDefault policy.now request.now.who default.now }
    ensures { IfOk result (λ found. AreUndecidedMembers policy.now request.now found.items) }
{
    let found = list_undecided_members(alloc, policy, request, default)?;
    Ok(found)
}

/// Returns the members that were not decided where the rights of `who` are listed, and could have changed where he has rules, or which
/// Defaults lines hold of him.
///
/// # Errors
///
/// Memory ran out.
pub fn list_undecided_of_rights<'a>(
    alloc: Global,
    policy: &AcyclicWalk<'a>,
    who: &Who,
) -> Result<Vec<UndecidedMember<'a>>, AllocError>
    ensures each { IfOk result (λ found. (r : RequestOf) → r.who ≡ who.now → HasEachAtomOfRights policy.now r found.items) }
    ensures only { IfOk result (λ found. (r : RequestOf) → r.who ≡ who.now → AreUndecidedMembersOfRights policy.now r found.items) }
{
    list_undecided_members_of_rights(alloc, policy, who)
}

/// Returns whether a member of `policy` may be undecided in the answer to a request for `command` on the host of `who`.
pub fn may_be_undecided(policy: &AcyclicWalk<'_>, who: &Who, command: &CommandLine) -> bool
    ensures { result ≡ false → (r : RequestOf) → r.who.interfaces ≡ who.now.interfaces → command_with_joined_arguments_of_request r ≡ command.now
        → (row : PrivilegeRow) (p : PartOf) (s : SignedAtom) → IsUndecidedInAnswer policy.now (undecided_by_files_or_paths r) (match_tests_of_request r) r row p s → ⊥ }
{
    may_have_undecided_members(policy, who, command)
}

/// Returns the user specifications of `policy`, and of which of them a row may fit `request`, whoever makes it.
///
/// # Errors
///
/// Memory ran out.
pub fn find_specs<'a>(
    alloc: Global,
    policy: &AcyclicWalk<'a>,
    request: &Request,
    command: &CommandSpellings,
    default: &'a [u8],
    of_target: bool,
) -> Result<Vec<SpecOnLine<'a>>, AllocError>
    requires { IsRunasDefault policy.now request.now.who default.now }
    ensures { IfOk result (λ specs. (other : RequestOf) → AreRequestsOfTwoUsers of_target request.now other
        → AreSpecsForRequest policy.now (is_spelled_command_match command.now) other specs.items) }
{
    find_specs_for_users(alloc, policy, request, command, default, of_target)
}
