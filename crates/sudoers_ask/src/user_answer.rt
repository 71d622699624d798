//! The answer of a policy to a user.

ghost use Rattle.std.specs.Prelude.{◌≡◌, ◌⊎◌, [], false, Err, IfOk, IfErr};
ghost use Rattle.std.specs.Option.{option_map};
ghost use Rattle.sudoers_match.specs.Default.{IsRunasDefault, runas_defaults_of_lines};
ghost use Rattle.sudoers_match.specs.Found.{answer_without_member_and_settings};
ghost use Rattle.sudoers_ask.specs.Outcome.{IsMemoryFault, IsUserOutcome, IsUserRequest, optional_name_of_view, target_name};
ghost use Rattle.sudoers_ask.specs.Users.{is_answer_allowing};

use crate::question::{CommandQuestion, QuestionFault};
use std::alloc::{AllocError, Global};
use sudoers_list_people::{People, request_for, who_for};
use sudoers_match::{AnswerWithMemberAndSettings, Request, Who, find_runas_default_for};
use sudoers_match_list::AcyclicWalk;

/// The request of a user.
#[derive(Drop)]
pub struct UserRequest<'a> {
    pub request: Request,
    /// The user as whom a command runs for him where nothing else is said.
    pub default: &'a [u8],
}

/// The request of a user, and its answer.
#[derive(Drop)]
pub struct UserAnswer<'a> {
    pub request: Request,
    /// The user as whom a command runs for him where nothing else is said.
    pub default: &'a [u8],
    /// The row that answers the request, if one fits.
    pub found: Option<AnswerWithMemberAndSettings<'a>>,
}

impl<'a> UserAnswer<'a> {
    /// Returns whether the command is allowed.
    pub fn is_allowed(&self) -> bool
        ensures { result ≡ is_answer_allowing (option_map answer_without_member_and_settings self.now.found) }
    {
        match &self.found {
            Some(found) => found.answer.allow,
            None => false,
        }
    }
}

/// Returns as whom the command of `question` is to run for `user`, where `default` is the user of runas_default.
fn choose_target_name<'a>(
    question: &CommandQuestion<'a>,
    user: &'a [u8],
    default: &'a [u8],
) -> &'a [u8]
    ensures { result.now ≡ target_name (optional_name_of_view question.now.target) (optional_name_of_view question.now.group) user.now default.now }
{
    match (question.target, question.group) {
        (Some(target), _) => target,
        (None, Some(_)) => user,
        (None, None) => default,
    }
}

/// Returns as whom a command runs for `who` where nothing else is said. If `has_default`, a Defaults line may say so.
fn find_default<'a>(
    alloc: Global,
    policy: &AcyclicWalk<'a>,
    has_default: bool,
    who: &Who,
) -> Result<&'a [u8], AllocError>
    requires { has_default ≡ false → runas_defaults_of_lines policy.now ≡ [] }
    ensures { IfOk result (λ name. IsRunasDefault policy.now who.now name.now) }
{
    if has_default {
        find_runas_default_for(alloc, policy, who)
    } else {
        Ok(b"root")
    }
}

/// Returns the request of the user with the name `user`. `people` are the users and groups. If `has_default`, a Defaults line of `policy`
/// may set runas_default.
///
/// # Errors
///
/// `Who`: of the words of `question`. Memory ran out.
pub fn make_user_request<'a>(
    alloc: Global,
    policy: &AcyclicWalk<'a>,
    has_default: bool,
    people: &People,
    user: &[u8],
    question: &CommandQuestion<'_>,
) -> Result<UserRequest<'a>, QuestionFault>
    requires { has_default ≡ false → runas_defaults_of_lines policy.now ≡ [] }
    ensures request { IfOk result (λ asked. IsUserRequest policy.now people.now question.now user.now asked.request asked.default.now) }
    ensures fault { IfErr result (λ fault. IsMemoryFault fault ⊎ IsUserOutcome policy.now people.now question.now user.now (Err fault)) }
{
    let who = who_for(alloc, people, user, question.host, question.interfaces)?;
    let default = find_default(alloc, policy, has_default, &who)?;
    let target = choose_target_name(question, user, default);
    let request = request_for(
        alloc,
        people,
        who,
        target,
        question.group,
        question.words,
        question.moment,
    )?;
    Ok(UserRequest { request, default })
}
