//! Why a request is answered as it is.

ghost use Rattle.std.specs.Prelude.{◌≡◌, ◌⊎◌, ◌++◌, slice_get, Some, IfOk, IfErr, IfSome, OnOk};
ghost use Rattle.std.specs.Option.{option_map};
ghost use Rattle.sudoers_tree.specs.Line.{line_of_view};
ghost use Rattle.sudoers_check.specs.Chains.{HasCyclicAliasReachedFromSpecOrDefaults};
ghost use Rattle.sudoers_match_list.specs.declared.verdict.AskFault.TheVariants.{Cycle, NoMemory};
ghost use Rattle.sudoers_match.specs.Answer.{IsAnswerByCommandTest, IsAnswerToRequest, answer_of_view};
ghost use Rattle.sudoers_match.specs.Default.{IsRunasDefault};
ghost use Rattle.sudoers_match.specs.Found.{HasMemberAndSettingsFromLines, answer_without_member_and_settings};
ghost use Rattle.sudoers_match.specs.Heads.{AccumulatedCommandSettings as HeadOf};
ghost use Rattle.sudoers_match.specs.IsHead.{HoldsCommandSettings};
ghost use Rattle.sudoers_match.specs.Spellings.{is_spelled_command_match};
ghost use Rattle.sudoers_list.specs.internal.Inside.{alias_member_of_view, deciding_rule_of_held_and_settings};
ghost use Rattle.sudoers_list.specs.Reason.{IsReasonText, IsReasonTextByTest, IsReasonByDecidingRule, alias_member_reason_text, no_rule_matches_text, place_verdict_and_command_text, allowed_or_denied_words as words_of};

use crate::byte_place::append_byte_place;
use crate::deciding_member::{DecidingAliasMember, find_deciding_alias_member};
use crate::deciding_rule::{DecidingRule, deciding_rule_of_found_answer, find_walk_line_by_number};
use crate::listed_commands::{UserAndRunasDefaultNames, append_listed_command};
use std::alloc::{AllocError, Global};
use sudoers_cvt_spell::append_member;
use sudoers_grammar::Kind;
use sudoers_match::{
    Answer, AnswerWithMemberAndSettings, CommandSpellings, find_answer_without_args_limit,
    find_runas_default_for, make_sole_spelling,
};
use sudoers_match_list::{AcyclicWalk, AskFault};
use sudoers_match_member::Request;
use sudoers_tree::Policy;

/// Returns what stands before the rule.
fn choose_verdict_words(allow: bool) -> &'static [u8]
    ensures { result.now ≡ words_of allow }
{
    if allow {
        b": allowed by: "
    } else {
        b": denied by: "
    }
}

/// Returns what is said where no rule decides.
fn make_no_rule_text(alloc: Global) -> Result<Vec<u8>, AllocError>
    ensures { IfOk result (λ text. text.items ≡ no_rule_matches_text) }
{
    Vec::from_slice(alloc, b"no rule matches\n")
}

/// Returns the rule as a text.
fn make_place_verdict_and_command_text(
    alloc: Global,
    policy: &Policy,
    names: &UserAndRunasDefaultNames<'_>,
    rule: &DecidingRule<'_>,
    allow: bool,
) -> Result<Vec<u8>, AllocError>
    requires { slice_get policy.now.walk.lines rule.now.at.number ≡ Some (line_of_view rule.now.at.line) }
    ensures { IfOk result (λ text. (h : HeadOf) → HoldsCommandSettings rule.now.command.head h → text.items ≡ place_verdict_and_command_text policy.now names.now.user.now names.now.default.now allow (deciding_rule_of_held_and_settings rule.now h)) }
{
    let mut text = Vec::new(alloc);
    append_byte_place(
        alloc,
        &mut text,
        policy,
        &rule.at,
        rule.command.member.start,
    )?;
    text.extend_from_slice(choose_verdict_words(allow))?;
    append_listed_command(
        alloc,
        &mut text,
        names,
        &rule.command.head,
        &rule.command.member,
    )?;
    text.extend_from_slice(b"\n")?;
    Ok(text)
}

/// Appends the member of an alias that decides, with its place.
fn append_alias_member_reason(
    alloc: Global,
    out: &mut Vec<u8>,
    policy: &Policy,
    inner: &DecidingAliasMember<'_>,
) -> Result<(), AllocError>
    ensures { OnOk result (out.new.items ≡ out.old.items ++ alias_member_reason_text policy.now (Some (alias_member_of_view inner.now))) }
{
    let Some(place) = policy.walk().place_of_definition(Kind::Cmnd, inner.name) else {
        return Ok(());
    };
    let Some(at) = find_walk_line_by_number(policy, place.line) else {
        return Ok(());
    };
    append_byte_place(alloc, out, policy, &at, inner.member.start)?;
    out.extend_from_slice(b": in Cmnd_Alias ")?;
    out.extend_from_slice(inner.name)?;
    out.extend_from_slice(b": ")?;
    append_member(alloc, out, false, Kind::Cmnd, &inner.member)?;
    out.extend_from_slice(b"\n")
}

/// Returns the rule that gives an answer as a text, and the member that decides if an alias hides it.
fn make_reason_text_of_found_answer<'a>(
    alloc: Global,
    policy: &'a Policy,
    acyclic: &AcyclicWalk<'a>,
    request: &Request,
    command: &CommandSpellings,
    names: &UserAndRunasDefaultNames<'_>,
    found: &AnswerWithMemberAndSettings<'a>,
) -> Result<Vec<u8>, AllocError>
    requires same { acyclic.now ≡ policy.now.walk.lines }
    requires answer { IsAnswerByCommandTest policy.now.walk.lines (is_spelled_command_match command.now) request.now (Some (answer_without_member_and_settings found.now)) }
    requires found { HasMemberAndSettingsFromLines policy.now.walk.lines found.now }
    requires user { names.now.user.now ≡ request.now.who.user.name }
    ensures { IfOk result (λ text. IsReasonByDecidingRule policy.now (is_spelled_command_match command.now) request.now names.now.default.now (answer_without_member_and_settings found.now) text.items) }
{
    let rule = deciding_rule_of_found_answer(policy, found);
    let mut text = make_place_verdict_and_command_text(
        alloc,
        policy,
        names,
        &rule,
        found.answer.allow,
    )?;
    if let Some(inner) = find_deciding_alias_member(
        alloc,
        acyclic,
        command,
        &rule.command.member,
    )? {
        append_alias_member_reason(alloc, &mut text, policy, &inner)?;
    }
    Ok(text)
}

/// The rule that gives an answer, and the member that decides if an alias hides it.
#[derive(Clone, Copy)]
pub struct AnswerReason<'a> {
    pub rule: DecidingRule<'a>,
    pub inner: Option<DecidingAliasMember<'a>>,
}

/// Returns the rule that gives the answer `found` to `request`, and the member that decides if an alias hides it. `command` is the command
/// of `request` in each spelling, and `acyclic` the walk of `policy`.
///
/// # Errors
///
/// Memory ran out.
pub fn find_answer_reason<'a>(
    alloc: Global,
    policy: &'a Policy,
    acyclic: &AcyclicWalk<'a>,
    request: &Request,
    command: &CommandSpellings,
    found: &AnswerWithMemberAndSettings<'a>,
) -> Result<AnswerReason<'a>, AllocError>
    requires same { acyclic.now ≡ policy.now.walk.lines }
    requires answer { IsAnswerByCommandTest policy.now.walk.lines (is_spelled_command_match command.now) request.now (Some (answer_without_member_and_settings found.now)) }
    requires found { HasMemberAndSettingsFromLines policy.now.walk.lines found.now }
{
    let rule = deciding_rule_of_found_answer(policy, found);
    let member = rule.command.member;
    let inner = find_deciding_alias_member(alloc, acyclic, command, &member)?;
    Ok(AnswerReason { rule, inner })
}

/// Returns why `request` has this answer, as a text. Its line names the file of the rule that decides, the place of its command there,
/// whether it allows or denies, and the command as it is listed, with the tags of the answer. If the command names an alias, a second
/// line names the innermost alias and its member that decides, with the file and the place of this member. Without an answer no rule
/// matches.
///
/// # Errors
///
/// `Cycle`: a reachable alias is cyclic. `NoMemory`: memory ran out.
pub fn explain(
    alloc: Global,
    policy: &Policy,
    request: &Request,
    answer: Option<Answer<'_>>,
) -> Result<Vec<u8>, AskFault>
    requires { IsAnswerToRequest policy.now.walk.lines request.now (option_map answer_of_view answer) }
    ensures text { IfOk result (λ text. IsReasonText policy.now request.now (option_map answer_of_view answer.entry) text.items) }
    ensures straight { IfOk result (λ _. HasCyclicAliasReachedFromSpecOrDefaults policy.now.walk.lines → ⊥) }
    ensures fault { IfErr result (λ fault. (fault ≡ NoMemory) ⊎ ((fault ≡ Cycle) × HasCyclicAliasReachedFromSpecOrDefaults policy.now.walk.lines)) }
{
    // A request has one answer, so the row that is found has the one that is given.
    let acyclic = AcyclicWalk::new(alloc, policy.walk())?;
    let default = find_runas_default_for(alloc, &acyclic, &request.who)?;
    let found = find_answer_without_args_limit(alloc, &acyclic, request, default)?;
    let text = explain_found_answer(alloc, policy, &acyclic, request, default, found)?;
    Ok(text)
}

/// Returns why `request` has its answer, as [`explain`] does, from the row `found` that gives it. `acyclic` is the walk of `policy`, and
/// `default` the user as whom a command runs where nothing else is said.
///
/// # Errors
///
/// Memory ran out.
pub fn explain_found_answer<'a>(
    alloc: Global,
    policy: &'a Policy,
    acyclic: &AcyclicWalk<'a>,
    request: &Request,
    default: &[u8],
    found: Option<AnswerWithMemberAndSettings<'a>>,
) -> Result<Vec<u8>, AllocError>
    requires same { acyclic.now ≡ policy.now.walk.lines }
    requires default { IsRunasDefault policy.now.walk.lines request.now.who default.now }
    requires answer { IsAnswerToRequest policy.now.walk.lines request.now (option_map answer_without_member_and_settings found) }
    requires found { IfSome found (HasMemberAndSettingsFromLines policy.now.walk.lines) }
    ensures { IfOk result (λ text. IsReasonText policy.now request.now (option_map answer_without_member_and_settings found.entry) text.items) }
{
    let command = make_sole_spelling(alloc, request)?;
    explain_spelled_answer(alloc, policy, acyclic, request, &command, default, found)
}

/// Returns why `request` has its answer, as [`explain_found_answer`] does, where `command` is its command in each spelling.
///
/// # Errors
///
/// Memory ran out.
pub fn explain_spelled_answer<'a>(
    alloc: Global,
    policy: &'a Policy,
    acyclic: &AcyclicWalk<'a>,
    request: &Request,
    command: &CommandSpellings,
    default: &[u8],
    found: Option<AnswerWithMemberAndSettings<'a>>,
) -> Result<Vec<u8>, AllocError>
    requires same { acyclic.now ≡ policy.now.walk.lines }
    requires default { IsRunasDefault policy.now.walk.lines request.now.who default.now }
    requires answer { IsAnswerByCommandTest policy.now.walk.lines (is_spelled_command_match command.now) request.now (option_map answer_without_member_and_settings found) }
    requires found { IfSome found (HasMemberAndSettingsFromLines policy.now.walk.lines) }
    ensures { IfOk result (λ text. IsReasonTextByTest policy.now (is_spelled_command_match command.now) request.now (option_map answer_without_member_and_settings found.entry) text.items) }
{
    let names = UserAndRunasDefaultNames {
        user: request.who.user.name.as_slice(),
        default,
    };
    match found {
        Some(found) => make_reason_text_of_found_answer(
            alloc, policy, acyclic, request, command, &names, &found,
        ),
        None => make_no_rule_text(alloc),
    }
}
