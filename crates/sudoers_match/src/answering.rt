//! The answer to a request.

ghost use Rattle.std.specs.Prelude.{◌≡◌, ◌⊎◌, ◌<◌, ◌≤◌, length, IfOk, IfErr, IfSome};
ghost use Rattle.std.specs.Option.{option_map};
ghost use Rattle.sudoers_check.specs.Chains.{HasCyclicAliasReachedFromSpecOrDefaults};
ghost use Rattle.sudoers_match_list.specs.declared.verdict.AskFault.TheVariants.{Cycle, TooLong, NoMemory};
ghost use Rattle.sudoers_match.specs.Default.{IsRunasDefault};
ghost use Rattle.sudoers_match.specs.Answer.{IsAnswerByCommandTest, IsAnswerToRequest, answer_of_view, joined_arguments_limit, words_joined_with_spaces};
ghost use Rattle.sudoers_match.specs.ForRequest.{AreSpecsForRequest};
ghost use Rattle.sudoers_match.specs.Found.{HasMemberAndSettingsFromLines, answer_without_member_and_settings};
ghost use Rattle.sudoers_match.specs.Spellings.{is_spelled_command_match};

use crate::answer_of_row::{
    Answer, AnswerWithMemberAndSettings, take_answer_without_member_and_settings,
};
use crate::last_row::find_last_fitting_row;
use crate::request_verdicts::{RequestContext, RequestVerdictCache};
use crate::request_words::join_words;
use crate::runas_default_user::find_runas_default_for;
use crate::specs_for_users::{SpecOnLine, list_specs_with_lines};
use crate::spellings::{CommandSpellings, make_sole_spelling};
use std::alloc::{AllocError, Global};
use sudoers_match_list::{AcyclicWalk, AskFault};
use sudoers_match_member::Request;
use sudoers_tree::Policy;

/// The greatest length of the arguments of a request, joined by single spaces.
const ARGUMENT_LIMIT: usize = 65_536;

/// Returns the answer of `policy` to `request`, if a row fits: that of the last row whose users, hosts, Runas_Spec, moment and command
/// match (sudoers(5): where several entries match, the last match is used).
///
/// # Errors
///
/// `Cycle`: a reachable alias is cyclic. `TooLong`: the arguments, joined by single spaces, are longer than 65,536 bytes. `NoMemory`:
/// memory ran out.
pub fn answer<'a>(
    alloc: Global,
    policy: &'a Policy,
    request: &Request,
) -> Result<Option<Answer<'a>>, AskFault>
    ensures answer { IfOk result (λ answer. IsAnswerToRequest policy.now.walk.lines request.now (option_map answer_of_view answer)) }
    ensures straight { IfOk result (λ _. HasCyclicAliasReachedFromSpecOrDefaults policy.now.walk.lines → ⊥) }
    ensures short { IfOk result (λ _. length (words_joined_with_spaces request.now.args) ≤ joined_arguments_limit) }
    ensures fault { IfErr result (λ fault. (fault ≡ NoMemory) ⊎ (((fault ≡ Cycle) × HasCyclicAliasReachedFromSpecOrDefaults policy.now.walk.lines)
        ⊎ ((fault ≡ TooLong) × (HasCyclicAliasReachedFromSpecOrDefaults policy.now.walk.lines → ⊥) × (joined_arguments_limit < length (words_joined_with_spaces request.now.args))))) }
{
    let policy = AcyclicWalk::new(alloc, policy.walk())?;
    let default = find_runas_default_for(alloc, &policy, &request.who)?;
    let found = find_answer(alloc, &policy, request, default)?;
    Ok(take_answer_without_member_and_settings(found))
}

/// Returns the last row of `policy` that fits `request`, with its answer and its command, if a row fits. `default` is the user as whom a
/// command runs where nothing else is said.
///
/// # Errors
///
/// `TooLong`: the arguments, joined by single spaces, are longer than 65,536 bytes. `NoMemory`: memory ran out.
pub fn find_answer<'a>(
    alloc: Global,
    policy: &AcyclicWalk<'a>,
    request: &Request,
    default: &'a [u8],
) -> Result<Option<AnswerWithMemberAndSettings<'a>>, AskFault>
    requires { IsRunasDefault policy.now request.now.who default.now }
    ensures answer { IfOk result (λ found. IsAnswerToRequest policy.now request.now (option_map answer_without_member_and_settings found)) }
    ensures found { IfOk result (λ found. IfSome found (HasMemberAndSettingsFromLines policy.now)) }
    ensures short { IfOk result (λ _. length (words_joined_with_spaces request.now.args) ≤ joined_arguments_limit) }
    ensures fault { IfErr result (λ fault. (fault ≡ NoMemory) ⊎ ((fault ≡ TooLong) × (joined_arguments_limit < length (words_joined_with_spaces request.now.args)))) }
{
    let specs = list_specs_with_lines(alloc, policy)?;
    let command = make_sole_spelling(alloc, request)?;
    find_answer_in_specs(alloc, policy, specs.as_slice(), request, &command, default)
}

/// Returns the last row of `policy` that fits `request`, where `command` is its command in each spelling, with its answer and its command,
/// if a row fits. `specs` are the user specifications of `policy`, and of which of them a row may fit. `default` is the user as whom a
/// command runs where nothing else is said.
///
/// # Errors
///
/// `TooLong`: the arguments, joined by single spaces, are longer than 65,536 bytes. `NoMemory`: memory ran out.
pub fn find_answer_in_specs<'a>(
    alloc: Global,
    policy: &AcyclicWalk<'a>,
    specs: &[SpecOnLine<'a>],
    request: &Request,
    command: &CommandSpellings,
    default: &'a [u8],
) -> Result<Option<AnswerWithMemberAndSettings<'a>>, AskFault>
    requires specs { AreSpecsForRequest policy.now (is_spelled_command_match command.now) request.now specs.now }
    requires default { IsRunasDefault policy.now request.now.who default.now }
    ensures answer { IfOk result (λ found. IsAnswerByCommandTest policy.now (is_spelled_command_match command.now) request.now (option_map answer_without_member_and_settings found)) }
    ensures found { IfOk result (λ found. IfSome found (HasMemberAndSettingsFromLines policy.now)) }
    ensures short { IfOk result (λ _. length (words_joined_with_spaces request.now.args) ≤ joined_arguments_limit) }
    ensures fault { IfErr result (λ fault. (fault ≡ NoMemory) ⊎ ((fault ≡ TooLong) × (joined_arguments_limit < length (words_joined_with_spaces request.now.args)))) }
{
    let args = join_words(alloc, request.args.as_slice())?;
    if args.len() > ARGUMENT_LIMIT {
        return Err(AskFault::TooLong);
    }
    Ok(find_row_in_specs(alloc, policy, specs, request, command, default)?)
}

/// Returns the row that [`find_answer`] returns for `request`, however long its arguments are.
///
/// # Errors
///
/// Memory ran out.
pub fn find_answer_without_args_limit<'a>(
    alloc: Global,
    policy: &AcyclicWalk<'a>,
    request: &Request,
    default: &'a [u8],
) -> Result<Option<AnswerWithMemberAndSettings<'a>>, AllocError>
    requires { IsRunasDefault policy.now request.now.who default.now }
    ensures answer { IfOk result (λ found. IsAnswerToRequest policy.now request.now (option_map answer_without_member_and_settings found)) }
    ensures found { IfOk result (λ found. IfSome found (HasMemberAndSettingsFromLines policy.now)) }
{
    let specs = list_specs_with_lines(alloc, policy)?;
    let command = make_sole_spelling(alloc, request)?;
    find_row_in_specs(alloc, policy, specs.as_slice(), request, &command, default)
}

/// Returns the row that [`find_answer_in_specs`] returns, however long the arguments of `request` are.
fn find_row_in_specs<'a>(
    alloc: Global,
    policy: &AcyclicWalk<'a>,
    specs: &[SpecOnLine<'a>],
    request: &Request,
    command: &CommandSpellings,
    default: &'a [u8],
) -> Result<Option<AnswerWithMemberAndSettings<'a>>, AllocError>
    requires specs { AreSpecsForRequest policy.now (is_spelled_command_match command.now) request.now specs.now }
    requires default { IsRunasDefault policy.now request.now.who default.now }
    ensures answer { IfOk result (λ found. IsAnswerByCommandTest policy.now (is_spelled_command_match command.now) request.now (option_map answer_without_member_and_settings found)) }
    ensures found { IfOk result (λ found. IfSome found (HasMemberAndSettingsFromLines policy.now)) }
{
    let mut question = RequestVerdictCache::new(alloc, policy, request, default)?;
    let asked = RequestContext {
        policy,
        request,
        command,
    };
    find_last_fitting_row(&mut question, &asked, specs)
}
