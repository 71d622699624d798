//! A question to a policy, which each user may ask.

ghost use Rattle.std.specs.Prelude.{◌≡◌, ◌⊎◌, ◌≤◌, [], ℕ, List, false, length, Err, IfOk, IfErr, IfSome};
ghost use Rattle.std.specs.Option.{option_map};
ghost use Rattle.sudoers_check.specs.Chains.{HasCyclicAliasReachedFromSpecOrDefaults};
ghost use Rattle.sudoers_match_list.specs.declared.verdict.AskFault.TheVariants.{Cycle};
ghost use Rattle.sudoers_match_member.specs.declared.request.Request.{Request as RequestOf};
ghost use Rattle.sudoers_match.specs.Answer.{joined_arguments_limit, words_joined_with_spaces};
ghost use Rattle.sudoers_match.specs.Default.{IsRunasDefault, runas_defaults_of_lines};
ghost use Rattle.sudoers_match.specs.Found.{HasMemberAndSettingsFromLines, answer_without_member_and_settings};
ghost use Rattle.sudoers_ask.specs.declared.question.QuestionFault.TheVariants.{Ask};
ghost use Rattle.sudoers_ask.specs.Outcome.{AreSpecsForQuestion, IsAnswerToQuestion, IsMemoryFault, IsUserOutcome, IsUserRequest, is_target_common as is_common_target, optional_name_of_view};
ghost use Rattle.sudoers_ask.specs.Same.{spelled_command_of_question};
ghost use Rattle.sudoers_ask.specs.internal.Asked.{HasNothingUndecided, IsReadyQuestion};

use crate::question::{CommandQuestion, QuestionFault};
use crate::same::make_spelled_command;
use crate::user_answer::{UserAnswer, UserRequest, make_user_request};
use std::alloc::{AllocError, Global};
use sudoers_list_people::{People, who_for};
use sudoers_match::{
    CommandSpellings, SpecOnLine, find_answer_in_specs, find_specs_for_users, has_runas_default,
    list_specs_with_lines,
};
use sudoers_match_list::AcyclicWalk;
use sudoers_tree::Policy;
use sudoers_undecided::may_have_undecided_members;

/// A question to a policy, and what is known of it whoever asks.
#[derive(Drop)]
pub struct AskedQuestion<'a> {
    pub walk: AcyclicWalk<'a>,
    pub people: &'a People,
    pub question: &'a CommandQuestion<'a>,
    /// The command in each spelling.
    pub command: CommandSpellings,
    /// The user specifications, and of which of them a row may fit.
    pub specs: Vec<SpecOnLine<'a>>,
    /// Whether a Defaults line may set runas_default.
    pub has_default: bool,
    /// Whether a member may be undecided.
    pub is_open: bool,
}

impl<'a> AskedQuestion<'a> {
    /// Returns the question `question` to `policy`, which the users of `people` may ask.
    ///
    /// # Errors
    ///
    /// `Ask(Cycle)`: a reachable alias is cyclic. Memory ran out.
    pub fn new(
        alloc: Global,
        policy: &'a Policy,
        people: &'a People,
        question: &'a CommandQuestion<'a>,
    ) -> Result<AskedQuestion<'a>, QuestionFault>
        ensures ready { IfOk result (λ asked. IsReadyQuestion policy.now.walk.lines people.now question.now asked) }
        ensures straight { IfOk result (λ _. HasCyclicAliasReachedFromSpecOrDefaults policy.now.walk.lines → ⊥) }
        ensures fault { IfErr result (λ fault. IsMemoryFault fault ⊎ ((fault ≡ Ask Cycle) × HasCyclicAliasReachedFromSpecOrDefaults policy.now.walk.lines)) }
    {
        let walk = AcyclicWalk::new(alloc, policy.walk())?;
        let has_default = has_runas_default(&walk);
        let command = make_spelled_command(alloc, question)?;
        let specs = find_specs_for_question(alloc, &walk, has_default, people, question, &command)?;
        let is_open = may_be_undecided(alloc, &walk, people, question, &command);
        Ok(AskedQuestion {
            walk,
            people,
            question,
            command,
            specs,
            has_default,
            is_open,
        })
    }

    /// Returns the request of the user with the name `user`, and its answer.
    ///
    /// # Errors
    ///
    /// `Who`: of the words of the question. `Ask(TooLong)`: the arguments, joined by single spaces, are longer than 65,536 bytes. Memory
    /// ran out.
    pub fn ask_user(&self, alloc: Global, user: &[u8]) -> Result<UserAnswer<'a>, QuestionFault>
        requires { IsReadyQuestion self.now.walk self.now.people.now self.now.question.now self.now }
        ensures request { IfOk result (λ answer. IsUserRequest self.now.walk self.now.people.now self.now.question.now user.now answer.request answer.default.now) }
        ensures short { IfOk result (λ answer. length (words_joined_with_spaces answer.request.args) ≤ joined_arguments_limit) }
        ensures answer { IfOk result (λ answer. IsAnswerToQuestion self.now.walk self.now.question.now answer.request (option_map answer_without_member_and_settings answer.found)) }
        ensures found { IfOk result (λ answer. IfSome answer.found (HasMemberAndSettingsFromLines self.now.walk)) }
        ensures fault { IfErr result (λ fault. IsMemoryFault fault ⊎ IsUserOutcome self.now.walk self.now.people.now self.now.question.now user.now (Err fault)) }
    {
        let made = make_user_request(
            alloc,
            &self.walk,
            self.has_default,
            self.people,
            user,
            self.question,
        )?;
        let UserRequest { request, default } = made;
        let specs = self.specs.as_slice();
        let found = find_answer_in_specs(
            alloc,
            &self.walk,
            specs,
            &request,
            &self.command,
            default,
        )?;
        Ok(UserAnswer {
            request,
            default,
            found,
        })
    }
}

/// Returns the user specifications of `policy`, and of which of them a row may fit `question`, whoever asks. `command` is its command in
/// each spelling. If `has_default`, a Defaults line may set runas_default.
fn find_specs_for_question<'a>(
    alloc: Global,
    policy: &AcyclicWalk<'a>,
    has_default: bool,
    people: &People,
    question: &CommandQuestion<'_>,
    command: &CommandSpellings,
) -> Result<Vec<SpecOnLine<'a>>, AllocError>
    requires command { command.now ≡ spelled_command_of_question question.now }
    requires default { has_default ≡ false → runas_defaults_of_lines policy.now ≡ [] }
    ensures { IfOk result (λ specs. AreSpecsForQuestion policy.now people.now question.now specs.items) }
{
    // The requests of all users are for one host, one command and one moment, so that of the first serves. If it has a fault, the loop
    // over the users meets it.
    let Some(first) = people.accounts().first() else {
        return list_specs_with_lines(alloc, policy);
    };
    let user = first.name.as_slice();
    match make_user_request(alloc, policy, has_default, people, user, question) {
        Ok(asked) => find_specs_for_users(
            alloc,
            policy,
            &asked.request,
            command,
            asked.default,
            is_target_common(question, has_default),
        ),
        Err(_) => list_specs_with_lines(alloc, policy),
    }
}

/// Returns whether all users ask to run the command of `question` as one user. If `has_default`, a Defaults line may set runas_default.
fn is_target_common(question: &CommandQuestion<'_>, has_default: bool) -> bool
    ensures { result ≡ is_common_target has_default (optional_name_of_view question.now.target) (optional_name_of_view question.now.group) }
{
    match (question.target, question.group) {
        (Some(_), _) => true,
        (None, Some(_)) => false,
        (None, None) => !has_default,
    }
}

/// Returns whether a member of `policy` may be undecided for `question`, whoever asks. `command` is its command in each spelling.
fn may_be_undecided(
    alloc: Global,
    policy: &AcyclicWalk<'_>,
    people: &People,
    question: &CommandQuestion<'_>,
    command: &CommandSpellings,
) -> bool
    requires { command.now ≡ spelled_command_of_question question.now }
    ensures { result ≡ false → (user : List ℕ) (r : RequestOf) (default : List ℕ) → IsUserRequest policy.now people.now question.now user r default → HasNothingUndecided policy.now r }
{
    let Some(first) = people.accounts().first() else {
        return true;
    };
    let user = first.name.as_slice();
    let Ok(who) = who_for(alloc, people, user, question.host, question.interfaces) else {
        return true;
    };
    if may_have_undecided_members(policy, &who, &command.command) {
        return true;
    }
    for other in command.others.as_slice() {
        if may_have_undecided_members(policy, &who, other) {
            return true;
        }
    }
    false
}
