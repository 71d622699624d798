//! What a policy answers to a question.

use crate::answer_output::{
    allow_or_deny_word_of, push_ask_fault, push_debug_format, push_deciding_row_or_fault,
    push_escaped_text, push_spec_and_host_group_numbers_of_places,
};
use std::alloc::{AllocError, Global};
use sudoers_cvt::print_command;
use sudoers_list::{explain, list};
use sudoers_match::{
    Request, answer, find_answer, find_runas_default_for, host_groups, runas_default,
};
use sudoers_match_list::{
    AcyclicWalk, AskFault, CommandListKind, HostListKind, MemberKind, RunasGroupListKind,
    UserListKind, decide,
};
use sudoers_match_member::{CommandLine, Group, Person, Who};
use sudoers_tree::{Kind, LoadFault, Policy};

/// What is asked of a policy.
#[derive(Clone, Copy)]
pub enum PolicyQuestion<'a> {
    /// What its alias A of this kind says of a user.
    OfUser(Kind, &'a Person),
    /// What its runas alias A says of a group.
    OfGroup(&'a Group),
    /// What its host alias A says of a host.
    OfHost(&'a Who),
    /// What its command alias A says of a command.
    OfCommand(&'a CommandLine),
    /// Where a user has rules on a host.
    Places(&'a Who),
    /// As whom a command runs for him where nothing else is said.
    Default(&'a Who),
    /// What he may run.
    Listing(&'a Who),
    /// Whether a request is allowed.
    Allowed(&'a Request),
    /// Which row decides a request.
    Row(&'a Request),
    /// The command of that row with all that holds of it.
    Command(&'a Request),
    /// Why a request is allowed or denied.
    Reason(&'a Request),
}

/// Adds what the policy of the one file `text` answers to `question`; `no policy` if it is none.
pub fn push_answer_of_policy_text(
    alloc: Global,
    text: &[u8],
    question: PolicyQuestion<'_>,
    answers: &mut String,
) -> Result<(), AllocError> {
    match Policy::read(alloc, text) {
        Ok(policy) => push_policy_answer(alloc, &policy, question, answers),
        Err(LoadFault::NoMemory) => Err(AllocError),
        Err(_) => answers.push_str("no policy"),
    }
}

/// Adds what `policy` answers to `question`.
fn push_policy_answer(
    alloc: Global,
    policy: &Policy,
    question: PolicyQuestion<'_>,
    answers: &mut String,
) -> Result<(), AllocError> {
    match question {
        PolicyQuestion::OfUser(kind, user) => push_verdict_of_alias_named_a_on_value::<
            UserListKind,
        >(alloc, policy, kind, user, answers),
        PolicyQuestion::OfGroup(group) => push_verdict_of_alias_named_a_on_value::<
            RunasGroupListKind,
        >(alloc, policy, Kind::Runas, group, answers),
        PolicyQuestion::OfHost(who) => push_verdict_of_alias_named_a_on_value::<HostListKind>(
            alloc,
            policy,
            Kind::Host,
            who,
            answers,
        ),
        PolicyQuestion::OfCommand(command) => {
            push_verdict_of_alias_named_a_on_value::<CommandListKind>(
                alloc,
                policy,
                Kind::Cmnd,
                command,
                answers,
            )
        }
        PolicyQuestion::Places(who) => push_host_group_places_matching_user_and_host(
            alloc, policy, who, answers,
        ),
        PolicyQuestion::Default(who) => push_default_runas(alloc, policy, who, answers),
        PolicyQuestion::Listing(who) => push_privilege_listing(alloc, policy, who, answers),
        PolicyQuestion::Allowed(request) => push_request_verdict(alloc, policy, request, answers),
        PolicyQuestion::Row(request) => push_deciding_row_or_fault(
            answer(alloc, policy, request),
            answers,
        ),
        PolicyQuestion::Command(request) => push_text_or_ask_fault(
            print_deciding_command(alloc, policy, request),
            answers,
        ),
        PolicyQuestion::Reason(request) => push_text_or_ask_fault(
            explain_answer(alloc, policy, request),
            answers,
        ),
    }
}

/// Adds a text, or why there is none.
fn push_text_or_ask_fault(
    text: Result<Vec<u8>, AskFault>,
    answers: &mut String,
) -> Result<(), AllocError> {
    match text {
        Ok(text) => push_escaped_text(text.as_slice(), answers),
        Err(fault) => push_ask_fault(fault, answers),
    }
}

/// Returns the command of the row that decides a request, with all that holds of it; no byte if no row fits.
fn print_deciding_command(
    alloc: Global,
    policy: &Policy,
    request: &Request,
) -> Result<Vec<u8>, AskFault> {
    let acyclic = AcyclicWalk::new(alloc, policy.walk())?;
    let default = find_runas_default_for(alloc, &acyclic, &request.who)?;
    match find_answer(alloc, &acyclic, request, default)? {
        Some(found) => Ok(print_command(alloc, &found.head, &found.member)?),
        None => Ok(Vec::new(alloc)),
    }
}

/// Returns why a request is allowed or denied.
fn explain_answer(alloc: Global, policy: &Policy, request: &Request) -> Result<Vec<u8>, AskFault> {
    let found = answer(alloc, policy, request)?;
    explain(alloc, policy, request, found)
}

/// Adds what the alias A of `kind` says of `asked`: `Allow`, `Deny` or `Unsaid`.
fn push_verdict_of_alias_named_a_on_value<K: MemberKind>(
    alloc: Global,
    policy: &Policy,
    kind: Kind,
    asked: &K::Asked,
    answers: &mut String,
) -> Result<(), AllocError> {
    let Some(members) = policy.walk().members_of_alias(kind, b"A") else {
        return answers.push_str("no alias");
    };
    match decide::<K>(alloc, policy, kind, &members, asked) {
        Ok(verdict) => push_debug_format(&verdict, answers),
        Err(fault) => push_ask_fault(fault, answers),
    }
}

/// Adds the places of the host groups whose users and hosts match: `SPEC.GROUP`, with a space between; `none` if there is none.
fn push_host_group_places_matching_user_and_host(
    alloc: Global,
    policy: &Policy,
    who: &Who,
    answers: &mut String,
) -> Result<(), AllocError> {
    match host_groups(alloc, policy, who) {
        Ok(places) => push_spec_and_host_group_numbers_of_places(places.as_slice(), answers),
        Err(fault) => push_ask_fault(fault, answers),
    }
}

/// Adds the name as whom a command runs where nothing else is said: `empty` if it has no byte.
fn push_default_runas(
    alloc: Global,
    policy: &Policy,
    who: &Who,
    answers: &mut String,
) -> Result<(), AllocError> {
    match runas_default(alloc, policy, who) {
        Ok(b"") => answers.push_str("empty"),
        Ok(name) => push_escaped_text(name, answers),
        Err(fault) => push_ask_fault(fault, answers),
    }
}

/// Adds what a user may run on a host.
fn push_privilege_listing(
    alloc: Global,
    policy: &Policy,
    who: &Who,
    answers: &mut String,
) -> Result<(), AllocError> {
    push_text_or_ask_fault(list(alloc, policy, who), answers)
}

/// Adds whether a request is allowed: `allow` or `deny`, as the last row says that fits; `none` if no row fits.
fn push_request_verdict(
    alloc: Global,
    policy: &Policy,
    request: &Request,
    answers: &mut String,
) -> Result<(), AllocError> {
    match answer(alloc, policy, request) {
        Ok(Some(answer)) => answers.push_str(allow_or_deny_word_of(answer.allow)),
        Ok(None) => answers.push_str("none"),
        Err(fault) => push_ask_fault(fault, answers),
    }
}
