//! Why a user may run a command, or may not.

ghost use Rattle.std.specs.Prelude.{◌≡◌, ◌⊎◌, Ok, Err, IfOk, IfErr, IfSome};
ghost use Rattle.std.specs.Option.{option_map};
ghost use Rattle.sudoers_check.specs.Chains.{HasCyclicAliasReachedFromSpecOrDefaults};
ghost use Rattle.sudoers_match_list.specs.declared.verdict.AskFault.TheVariants.{Cycle};
ghost use Rattle.sudoers_match.specs.Answer.{IsAnswerByCommandTest};
ghost use Rattle.sudoers_match.specs.Default.{IsRunasDefault};
ghost use Rattle.sudoers_match.specs.Found.{HasMemberAndSettingsFromLines, answer_without_member_and_settings};
ghost use Rattle.sudoers_match.specs.Spellings.{is_spelled_command_match};
ghost use Rattle.sudoers_list.specs.Reason.{IsReasonTextByTest};
ghost use Rattle.sudoers_ask.specs.declared.question.QuestionFault.TheVariants.{Ask};
ghost use Rattle.sudoers_ask.specs.Outcome.{IsMemoryFault, IsUserOutcome};
ghost use Rattle.sudoers_ask.specs.Users.{is_answer_allowing};
ghost use Rattle.sudoers_ask.specs.Why.{IsWhyText};
ghost use Rattle.sudoers_ask.specs.internal.Asked.{IsReadyQuestion};

use crate::asked_question::AskedQuestion;
use crate::near_lines::make_near_miss_lines;
use crate::question::{CommandQuestion, QuestionFault};
use crate::undecided_lines::{append_undecided_lines, list_undecided_members_of_answer};
use crate::user_answer::UserAnswer;
use std::alloc::{AllocError, Global};
use sudoers_list::explain_spelled_answer;
use sudoers_list_people::People;
use sudoers_tree::Policy;

/// The reason of an answer, as a text, and whether the command is allowed.
#[derive(Drop)]
pub struct WhyText {
    pub text: Vec<u8>,
    pub is_allowed: bool,
    /// Where no rule matches, those that match in all parts but one, a line for each.
    pub near: Vec<u8>,
    /// The members that were not decided and could have changed the answer, a line for each.
    pub undecided: Vec<u8>,
}

/// What is said beside the reason of an answer: the rules that match in all parts but one, and the members that were not decided.
#[derive(Drop)]
struct AnswerNotes {
    near: Vec<u8>,
    undecided: Vec<u8>,
}

/// Returns why `policy` lets the user with the name `user` run the command of `question`, or why it does not, as
/// [`explain_spelled_answer`] writes it.
///
/// # Errors
///
/// `Ask(Cycle)`: a reachable alias is cyclic. Then those of [`AskedQuestion::ask_user`].
pub fn explain_user_answer(
    alloc: Global,
    policy: &Policy,
    people: &People,
    user: &[u8],
    question: &CommandQuestion<'_>,
) -> Result<WhyText, QuestionFault>
    ensures why { IfOk result (λ why. IsWhyText policy.now people.now question.now user.now why.text.items why.is_allowed) }
    ensures straight { IfOk result (λ _. HasCyclicAliasReachedFromSpecOrDefaults policy.now.walk.lines → ⊥) }
    ensures fault { IfErr result (λ fault. IsMemoryFault fault ⊎ (((fault ≡ Ask Cycle) × HasCyclicAliasReachedFromSpecOrDefaults policy.now.walk.lines)
        ⊎ IsUserOutcome policy.now.walk.lines people.now question.now user.now (Err fault))) }
{
    let asked = AskedQuestion::new(alloc, policy, people, question)?;
    let why = explain_answer_to_user(alloc, policy, &asked, user)?;
    Ok(why)
}

/// Returns why `policy` lets the user with the name `user`, who asks `asked`, run the command, or why it does not.
fn explain_answer_to_user<'a>(
    alloc: Global,
    policy: &'a Policy,
    asked: &AskedQuestion<'a>,
    user: &[u8],
) -> Result<WhyText, QuestionFault>
    requires ready { IsReadyQuestion policy.now.walk.lines asked.now.people.now asked.now.question.now asked.now }
    ensures why { IfOk result (λ why. IsWhyText policy.now asked.now.people.now asked.now.question.now user.now why.text.items why.is_allowed) }
    ensures fault { IfErr result (λ fault. IsMemoryFault fault ⊎ IsUserOutcome policy.now.walk.lines asked.now.people.now asked.now.question.now user.now (Err fault)) }
{
    let answer = asked.ask_user(alloc, user)?;
    let why = explain_answer(alloc, policy, asked, user, &answer)?;
    Ok(why)
}

/// Returns the reason of `answer`, which is that of `policy` to the user `name` who asks `asked`.
fn explain_answer<'a>(
    alloc: Global,
    policy: &'a Policy,
    asked: &AskedQuestion<'a>,
    name: &[u8],
    answer: &UserAnswer<'a>,
) -> Result<WhyText, AllocError>
    requires same { asked.now.walk ≡ policy.now.walk.lines }
    requires own_default { IsRunasDefault asked.now.walk answer.now.request.who answer.now.default.now }
    requires default { IsRunasDefault policy.now.walk.lines answer.now.request.who answer.now.default.now }
    requires answer { IsAnswerByCommandTest policy.now.walk.lines (is_spelled_command_match asked.now.command) answer.now.request (option_map answer_without_member_and_settings answer.now.found) }
    requires found { IfSome answer.now.found (HasMemberAndSettingsFromLines policy.now.walk.lines) }
    ensures reason { IfOk result (λ why. IsReasonTextByTest policy.now (is_spelled_command_match asked.now.command) answer.now.request (option_map answer_without_member_and_settings answer.now.found) why.text.items) }
    ensures tells { IfOk result (λ why. why.is_allowed ≡ is_answer_allowing (option_map answer_without_member_and_settings answer.now.found)) }
{
    let text = explain_spelled_answer(
        alloc,
        policy,
        &asked.walk,
        &answer.request,
        &asked.command,
        answer.default,
        answer.found,
    )?;
    let notes = make_answer_notes(alloc, policy, asked, name, answer)?;
    Ok(WhyText {
        near: notes.near,
        undecided: notes.undecided,
        text,
        is_allowed: answer.is_allowed(),
    })
}

/// Returns what is said beside the reason of `answer`, which is that of the user `name` to `asked`.
fn make_answer_notes<'a>(
    alloc: Global,
    policy: &Policy,
    asked: &AskedQuestion<'a>,
    name: &[u8],
    answer: &UserAnswer<'a>,
) -> Result<AnswerNotes, AllocError>
    requires { IsRunasDefault asked.now.walk answer.now.request.who answer.now.default.now }
{
    let members = list_undecided_members_of_answer(alloc, asked, name, answer)?;
    let mut undecided = Vec::new(alloc);
    append_undecided_lines(alloc, &mut undecided, policy, members.as_slice(), b"")?;
    let near = make_near_miss_lines(alloc, policy, &asked.walk, answer, &asked.command)?;
    Ok(AnswerNotes { near, undecided })
}
