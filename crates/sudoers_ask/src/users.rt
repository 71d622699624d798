//! The users who may run a command.

ghost use Rattle.std.specs.Prelude.{◌≡◌, ◌⊎◌, ◌++◌, [], ℕ, List, true, false, IfOk, IfErr, IfSome, OnOk, MatchBool};
ghost use Rattle.std.specs.Option.{option_map};
ghost use Rattle.sudoers_check.specs.Chains.{HasCyclicAliasReachedFromSpecOrDefaults};
ghost use Rattle.sudoers_match_list.specs.declared.verdict.AskFault.TheVariants.{Cycle};
ghost use Rattle.sudoers_match.specs.Answer.{IsAnswerByCommandTest};
ghost use Rattle.sudoers_match.specs.Default.{IsRunasDefault};
ghost use Rattle.sudoers_match.specs.Found.{HasMemberAndSettingsFromLines, answer_without_member_and_settings};
ghost use Rattle.sudoers_ask.specs.declared.question.QuestionFault.TheVariants.{Ask};
ghost use Rattle.sudoers_ask.specs.Outcome.{IsMemoryFault};
ghost use Rattle.sudoers_match.specs.Spellings.{is_spelled_command_match};
ghost use Rattle.sudoers_ask.specs.internal.Asked.{IsReadyQuestion};
ghost use Rattle.sudoers_ask.specs.Users.{IsFaultOfFirstUser, IsReasonOfUserByTest, IsTextOfUsers, is_user_shown, text_with_prefixed_lines};

use crate::asked_question::AskedQuestion;
use crate::question::{CommandQuestion, QuestionFault};
use crate::undecided_lines::append_undecided_lines_of_user;
use crate::user_answer::UserAnswer;
use std::alloc::{AllocError, Global};
use sudoers_list::explain_spelled_answer;
use sudoers_list_people::People;
use sudoers_tree::Policy;

/// The users who may run a command, as a text, and whether there are any.
#[derive(Drop)]
pub struct UsersText {
    pub text: Vec<u8>,
    pub is_any_allowed: bool,
    /// The members that were not decided and could have changed an answer: a line for each user and member.
    pub undecided: Vec<u8>,
}

/// Returns the users of passwd, in the order of its rows, whom `policy` lets run the command of `question`: each with the rule that
/// allows it, and with its place, as [`explain_spelled_answer`] writes it. With `denied` the users whom a rule denies are there too.
///
/// # Errors
///
/// `Ask(Cycle)`: a reachable alias is cyclic. Then that of the first user who has one: see [`AskedQuestion::ask_user`].
pub fn list_users_who_may_run(
    alloc: Global,
    policy: &Policy,
    people: &People,
    question: &CommandQuestion<'_>,
    denied: bool,
) -> Result<UsersText, QuestionFault>
    ensures users { IfOk result (λ users. IsTextOfUsers policy.now people.now question.now denied users.text.items users.is_any_allowed) }
    ensures straight { IfOk result (λ _. HasCyclicAliasReachedFromSpecOrDefaults policy.now.walk.lines → ⊥) }
    ensures fault { IfErr result (λ fault. IsMemoryFault fault ⊎ (((fault ≡ Ask Cycle) × HasCyclicAliasReachedFromSpecOrDefaults policy.now.walk.lines)
        ⊎ IsFaultOfFirstUser policy.now people.now question.now denied fault)) }
{
    let asked = AskedQuestion::new(alloc, policy, people, question)?;
    let users = list_users_of_question(alloc, policy, &asked, denied)?;
    Ok(users)
}

/// Returns the users of passwd whom `policy` lets run the command of `asked`, as [`list_users_who_may_run`] does.
fn list_users_of_question<'a>(
    alloc: Global,
    policy: &'a Policy,
    asked: &AskedQuestion<'a>,
    denied: bool,
) -> Result<UsersText, QuestionFault>
    requires ready { IsReadyQuestion policy.now.walk.lines asked.now.people.now asked.now.question.now asked.now }
    ensures users { IfOk result (λ users. IsTextOfUsers policy.now asked.now.people.now asked.now.question.now denied users.text.items users.is_any_allowed) }
    ensures fault { IfErr result (λ fault. IsMemoryFault fault ⊎ IsFaultOfFirstUser policy.now asked.now.people.now asked.now.question.now denied fault) }
{
    let mut text = Vec::new(alloc);
    let mut undecided = Vec::new(alloc);
    let mut is_any_allowed = false;
    for account in asked.people.accounts() {
        let name = account.name.as_slice();
        let answer = asked.ask_user(alloc, name)?;
        append_user_part(alloc, &mut text, policy, asked, name, &answer, denied)?;
        append_undecided_lines_of_user(alloc, &mut undecided, policy, asked, name, &answer)?;
        is_any_allowed = is_any_allowed | answer.is_allowed();
    }
    Ok(UsersText {
        text,
        is_any_allowed,
        undecided,
    })
}

/// Returns whether a user with this answer is shown: he is allowed, or `denied` and a rule decides.
pub fn is_shown(answer: &UserAnswer<'_>, denied: bool) -> bool
    ensures { result ≡ is_user_shown denied (option_map answer_without_member_and_settings answer.now.found) }
{
    answer.is_allowed() || (denied && answer.found.is_some())
}

/// Appends to `out` the lines of the user `name`, whose answer to `asked` is `answer`, if he is shown.
fn append_user_part<'a>(
    alloc: Global,
    out: &mut Vec<u8>,
    policy: &'a Policy,
    asked: &AskedQuestion<'a>,
    name: &[u8],
    answer: &UserAnswer<'a>,
    denied: bool,
) -> Result<(), AllocError>
    requires same { asked.now.walk ≡ policy.now.walk.lines }
    requires default { IsRunasDefault policy.now.walk.lines answer.now.request.who answer.now.default.now }
    requires answer { IsAnswerByCommandTest policy.now.walk.lines (is_spelled_command_match asked.now.command) answer.now.request (option_map answer_without_member_and_settings answer.now.found) }
    requires found { IfSome answer.now.found (HasMemberAndSettingsFromLines policy.now.walk.lines) }
    ensures { OnOk result ((part : List ℕ) × (out.new.items ≡ out.old.items ++ part)
        × MatchBool (is_user_shown denied (option_map answer_without_member_and_settings answer.now.found))
        (IsReasonOfUserByTest policy.now (is_spelled_command_match asked.now.command) name.now answer.now.request (option_map answer_without_member_and_settings answer.now.found) part) (part ≡ [])) }
{
    if !is_shown(answer, denied) {
        return Ok(());
    }
    let reason = explain_spelled_answer(
        alloc,
        policy,
        &asked.walk,
        &answer.request,
        &asked.command,
        answer.default,
        answer.found,
    )?;
    let mut prefix = Vec::from_slice(alloc, name)?;
    prefix.extend_from_slice(b": ")?;
    append_prefixed_lines(out, prefix.as_slice(), reason.as_slice())
}

/// Appends `text` to `out`, with `prefix` before each of its lines.
fn append_prefixed_lines(out: &mut Vec<u8>, prefix: &[u8], text: &[u8]) -> Result<(), AllocError>
    ensures { OnOk result (out.new.items ≡ out.old.items ++ text_with_prefixed_lines true prefix.now text.now) }
{
    let mut begins = true;
    for byte in text {
        if begins {
            out.extend_from_slice(prefix)?;
        }
        out.push(*byte)?;
        begins = *byte == b'\n';
    }
    Ok(())
}
