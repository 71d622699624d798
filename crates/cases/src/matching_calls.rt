//! What `sudoers_match_member` says of patterns and networks, `sudoers_match_list` of lists, `sudoers_match` of policies, and of policies that
//! `sudoers_edit` edited.
//!
//! The body of a call holds two parts, a pattern and a text or a network and interfaces; or a policy, and the parts of a question.

use crate::answer_output::push_display_format;
use crate::answers_after_edits::push_row_of_request_after_script_on_policy_text;
use crate::case_frames::{CaseCall, split_first_part_or_empty};
use crate::policy_questions::{self, PolicyQuestion};
use crate::request_parts::{
    address_and_mask_of, command_line_of_parts, group_of_parts, interfaces_of_bytes,
    request_of_parts, user_of_parts, who_of_parts, who_of_user_and_host,
};
use std::alloc::{AllocError, Global};
use sudoers_match_member::{GlobMode, glob, matches_glob_folding_case_if_wanted, network_hits};
use sudoers_tree::Kind;

/// Adds the answer to `call`; `unknown` if this is not known.
pub fn push_answer_of_matching_call(
    alloc: Global,
    call: CaseCall<'_>,
    answers: &mut String,
) -> Result<(), AllocError> {
    let (first, rest) = split_first_part_or_empty(call.body);
    let (second, _) = split_first_part_or_empty(rest);
    let holds = match call.asked {
        b'p' => glob(first, second, GlobMode::Path),
        b'a' => glob(first, second, GlobMode::Args),
        b'l' => matches_glob_folding_case_if_wanted(first, second, GlobMode::Args, true),
        b'n' => has_network_hit(alloc, first, second)?,
        _ => return push_match_policy_answer(alloc, call, answers),
    };
    push_display_format(&holds, answers)
}

/// Returns whether `network`, an address with its mask if it has one, hits one of `interfaces`.
fn has_network_hit(alloc: Global, network: &[u8], interfaces: &[u8]) -> Result<bool, AllocError> {
    let (address, mask) = address_and_mask_of(network);
    let interfaces = interfaces_of_bytes(alloc, interfaces)?;
    Ok(network_hits(address, mask, &interfaces))
}

/// Adds what a policy, the first part of `call`, answers to the question that the other parts are; `unknown` if they are none.
fn push_match_policy_answer(
    alloc: Global,
    call: CaseCall<'_>,
    answers: &mut String,
) -> Result<(), AllocError> {
    let (policy, parts) = split_first_part_or_empty(call.body);
    match call.asked {
        b'U' => push_verdict_of_alias_named_a_on_user(alloc, policy, Kind::User, parts, answers),
        b'R' => push_verdict_of_alias_named_a_on_user(alloc, policy, Kind::Runas, parts, answers),
        b'G' => push_verdict_of_runas_alias_named_a_on_group(alloc, policy, parts, answers),
        b'H' => push_verdict_of_host_alias_named_a_on_host(alloc, policy, parts, answers),
        b'C' => push_verdict_of_command_alias_named_a_on_command(alloc, policy, parts, answers),
        b'K' => push_host_group_places_of_user_on_host_parts(alloc, policy, parts, answers),
        b'D' => push_default_runas_of_user(alloc, policy, parts, answers),
        b'A' | b'P' | b'Y' => push_answer_to_request(alloc, call.asked, policy, parts, answers),
        b'E' => push_row_after_edits(alloc, policy, parts, answers),
        _ => answers.push_str("unknown"),
    }
}

/// Adds what the alias A of `kind` says of the user that `parts` are.
fn push_verdict_of_alias_named_a_on_user(
    alloc: Global,
    policy: &[u8],
    kind: Kind,
    parts: &[u8],
    answers: &mut String,
) -> Result<(), AllocError> {
    let person = user_of_parts(alloc, parts)?;
    policy_questions::push_answer_of_policy_text(
        alloc,
        policy,
        PolicyQuestion::OfUser(kind, &person),
        answers,
    )
}

/// Adds what the runas alias A says of the group that `parts` are.
fn push_verdict_of_runas_alias_named_a_on_group(
    alloc: Global,
    policy: &[u8],
    parts: &[u8],
    answers: &mut String,
) -> Result<(), AllocError> {
    let group = group_of_parts(alloc, parts)?;
    policy_questions::push_answer_of_policy_text(
        alloc,
        policy,
        PolicyQuestion::OfGroup(&group),
        answers,
    )
}

/// Adds what the host alias A says of the host that `parts` are.
fn push_verdict_of_host_alias_named_a_on_host(
    alloc: Global,
    policy: &[u8],
    parts: &[u8],
    answers: &mut String,
) -> Result<(), AllocError> {
    let who = who_of_user_and_host(alloc, user_of_parts(alloc, b"")?, parts)?;
    policy_questions::push_answer_of_policy_text(
        alloc,
        policy,
        PolicyQuestion::OfHost(&who),
        answers,
    )
}

/// Adds what the command alias A says of the command that `parts` are.
fn push_verdict_of_command_alias_named_a_on_command(
    alloc: Global,
    policy: &[u8],
    parts: &[u8],
    answers: &mut String,
) -> Result<(), AllocError> {
    let command = command_line_of_parts(alloc, parts)?;
    policy_questions::push_answer_of_policy_text(
        alloc,
        policy,
        PolicyQuestion::OfCommand(&command),
        answers,
    )
}

/// Adds where the user that `parts` are has rules.
fn push_host_group_places_of_user_on_host_parts(
    alloc: Global,
    policy: &[u8],
    parts: &[u8],
    answers: &mut String,
) -> Result<(), AllocError> {
    let who = who_of_parts(alloc, parts)?;
    policy_questions::push_answer_of_policy_text(
        alloc,
        policy,
        PolicyQuestion::Places(&who),
        answers,
    )
}

/// Adds as whom commands of the user that `parts` are run by default.
fn push_default_runas_of_user(
    alloc: Global,
    policy: &[u8],
    parts: &[u8],
    answers: &mut String,
) -> Result<(), AllocError> {
    let who = who_of_parts(alloc, parts)?;
    policy_questions::push_answer_of_policy_text(
        alloc,
        policy,
        PolicyQuestion::Default(&who),
        answers,
    )
}

/// Adds what is asked of the request that `parts` are: the command that decides it, why, or the row.
fn push_answer_to_request(
    alloc: Global,
    asked: u8,
    policy: &[u8],
    parts: &[u8],
    answers: &mut String,
) -> Result<(), AllocError> {
    let request = request_of_parts(alloc, parts)?;
    let question = match asked {
        b'P' => PolicyQuestion::Command(&request),
        b'Y' => PolicyQuestion::Reason(&request),
        _ => PolicyQuestion::Row(&request),
    };
    policy_questions::push_answer_of_policy_text(alloc, policy, question, answers)
}

/// Adds the row that decides a request after the edits of a script, the first of `parts`; the others are the request.
fn push_row_after_edits(
    alloc: Global,
    policy: &[u8],
    parts: &[u8],
    answers: &mut String,
) -> Result<(), AllocError> {
    let (script, parts) = split_first_part_or_empty(parts);
    let request = request_of_parts(alloc, parts)?;
    push_row_of_request_after_script_on_policy_text(alloc, policy, script, &request, answers)
}
