//! The users who may run a command, and why, part by part.

ghost use Rattle.std.specs.Prelude.{◌≡◌, IfSome};
ghost use Rattle.std.specs.Option.{option_map};
ghost use Rattle.sudoers_match.specs.Answer.{IsAnswerByCommandTest};
ghost use Rattle.sudoers_match.specs.Default.{IsRunasDefault};
ghost use Rattle.sudoers_match.specs.Found.{HasMemberAndSettingsFromLines, answer_without_member_and_settings};
ghost use Rattle.sudoers_match.specs.Spellings.{is_spelled_command_match};
ghost use Rattle.sudoers_ask.specs.internal.Asked.{IsReadyQuestion};

use crate::answer_facts::{
    UserFacts, WordedText, find_rule_fact, list_near_facts, list_undecided_facts,
};
use crate::asked_question::AskedQuestion;
use crate::question::{CommandQuestion, QuestionFault};
use crate::user_answer::UserAnswer;
use crate::users::is_shown;
use std::alloc::{AllocError, Global};
use sudoers_list_people::People;
use sudoers_tree::Policy;

/// The answers to users, and whether one of them may run the command.
#[derive(Drop)]
pub struct UsersFacts {
    pub users: Vec<UserFacts>,
    pub is_any_allowed: bool,
}

/// Returns the answers of `policy` to the users of passwd, in the order of its rows, who may run the command of `question`, and to those for
/// whom a member was not decided. With `denied` the users whom a rule denies are there too. Near misses are not looked for.
///
/// # Errors
///
/// Those of [`crate::users::list_users_who_may_run`].
pub fn list_user_facts(
    alloc: Global,
    policy: &Policy,
    people: &People,
    question: &CommandQuestion<'_>,
    denied: bool,
) -> Result<UsersFacts, QuestionFault> {
    let asked = AskedQuestion::new(alloc, policy, people, question)?;
    list_facts_of_users(alloc, policy, &asked, denied)
}

/// Returns the answers of `policy` to the users of passwd who ask `asked`, as [`list_user_facts`] does.
fn list_facts_of_users<'a>(
    alloc: Global,
    policy: &'a Policy,
    asked: &AskedQuestion<'a>,
    denied: bool,
) -> Result<UsersFacts, QuestionFault>
    requires { IsReadyQuestion policy.now.walk.lines asked.now.people.now asked.now.question.now asked.now }
{
    let mut users = Vec::new(alloc);
    let mut is_any_allowed = false;
    for account in asked.people.accounts() {
        let name = account.name.as_slice();
        let is_allowed = append_facts_of_user(alloc, &mut users, policy, asked, name, denied)?;
        is_any_allowed = is_any_allowed | is_allowed;
    }
    Ok(UsersFacts {
        users,
        is_any_allowed,
    })
}

/// Appends to `users` the answer of `policy` to the user `name` who asks `asked`, if he is shown or something was not decided. Returns
/// whether he may run the command.
fn append_facts_of_user<'a>(
    alloc: Global,
    users: &mut Vec<UserFacts>,
    policy: &'a Policy,
    asked: &AskedQuestion<'a>,
    name: &[u8],
    denied: bool,
) -> Result<bool, QuestionFault>
    requires { IsReadyQuestion policy.now.walk.lines asked.now.people.now asked.now.question.now asked.now }
{
    let answer = asked.ask_user(alloc, name)?;
    append_facts_of_answer(alloc, users, policy, asked, name, &answer, denied)?;
    Ok(answer.is_allowed())
}

/// Appends to `users` the answer `answer` of `policy` to the user `name` who asks `asked`, if he is shown or something was not decided.
fn append_facts_of_answer<'a>(
    alloc: Global,
    users: &mut Vec<UserFacts>,
    policy: &'a Policy,
    asked: &AskedQuestion<'a>,
    name: &[u8],
    answer: &UserAnswer<'a>,
    denied: bool,
) -> Result<(), AllocError>
    requires same { asked.now.walk ≡ policy.now.walk.lines }
    requires default { IsRunasDefault asked.now.walk answer.now.request.who answer.now.default.now }
    requires answer { IsAnswerByCommandTest policy.now.walk.lines (is_spelled_command_match asked.now.command) answer.now.request (option_map answer_without_member_and_settings answer.now.found) }
    requires found { IfSome answer.now.found (HasMemberAndSettingsFromLines policy.now.walk.lines) }
{
    let undecided = list_undecided_facts(alloc, asked, name, answer)?;
    append_user_facts(alloc, users, policy, asked, name, answer, undecided, denied)
}

/// Appends to `users` the answer `answer` to the user `name`, in which `undecided` was not decided, if he is shown or something was not
/// decided.
fn append_user_facts<'a>(
    alloc: Global,
    users: &mut Vec<UserFacts>,
    policy: &'a Policy,
    asked: &AskedQuestion<'a>,
    name: &[u8],
    answer: &UserAnswer<'a>,
    undecided: Vec<WordedText>,
    denied: bool,
) -> Result<(), AllocError>
    requires same { asked.now.walk ≡ policy.now.walk.lines }
    requires answer { IsAnswerByCommandTest policy.now.walk.lines (is_spelled_command_match asked.now.command) answer.now.request (option_map answer_without_member_and_settings answer.now.found) }
    requires found { IfSome answer.now.found (HasMemberAndSettingsFromLines policy.now.walk.lines) }
{
    if !is_shown(answer, denied) && undecided.is_empty() {
        return Ok(());
    }
    let rule = find_rule_fact(
        alloc,
        policy,
        &asked.walk,
        &answer.request,
        &asked.command,
        answer.default,
        answer.found,
    )?;
    users.push(UserFacts {
        name: Vec::from_slice(alloc, name)?,
        rule,
        near: None,
        undecided,
    })?;
    Ok(())
}

/// Returns the answer of `policy` to the user with the name `user` who asks for the command of `question`.
///
/// # Errors
///
/// Those of [`crate::why::explain_user_answer`].
pub fn find_user_facts(
    alloc: Global,
    policy: &Policy,
    people: &People,
    user: &[u8],
    question: &CommandQuestion<'_>,
) -> Result<UserFacts, QuestionFault> {
    let asked = AskedQuestion::new(alloc, policy, people, question)?;
    find_facts_of_user(alloc, policy, &asked, user)
}

/// Returns the answer of `policy` to the user with the name `user` who asks `asked`.
fn find_facts_of_user<'a>(
    alloc: Global,
    policy: &'a Policy,
    asked: &AskedQuestion<'a>,
    user: &[u8],
) -> Result<UserFacts, QuestionFault>
    requires { IsReadyQuestion policy.now.walk.lines asked.now.people.now asked.now.question.now asked.now }
{
    let answer = asked.ask_user(alloc, user)?;
    Ok(make_user_facts(alloc, policy, asked, user, &answer)?)
}

/// Returns the answer `answer` to the user `name`, with the near misses.
fn make_user_facts<'a>(
    alloc: Global,
    policy: &'a Policy,
    asked: &AskedQuestion<'a>,
    name: &[u8],
    answer: &UserAnswer<'a>,
) -> Result<UserFacts, AllocError>
    requires same { asked.now.walk ≡ policy.now.walk.lines }
    requires default { IsRunasDefault asked.now.walk answer.now.request.who answer.now.default.now }
    requires answer { IsAnswerByCommandTest policy.now.walk.lines (is_spelled_command_match asked.now.command) answer.now.request (option_map answer_without_member_and_settings answer.now.found) }
    requires found { IfSome answer.now.found (HasMemberAndSettingsFromLines policy.now.walk.lines) }
{
    let rule = find_rule_fact(
        alloc,
        policy,
        &asked.walk,
        &answer.request,
        &asked.command,
        answer.default,
        answer.found,
    )?;
    let near = list_near_facts(alloc, &asked.walk, answer, &asked.command)?;
    let undecided = list_undecided_facts(alloc, asked, name, answer)?;
    Ok(UserFacts {
        name: Vec::from_slice(alloc, name)?,
        rule,
        near: Some(near),
        undecided,
    })
}
