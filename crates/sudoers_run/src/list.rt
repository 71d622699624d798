//! Listing what a user may run on a host, or answering whether he may run a command there.
ghost use Rattle.std.specs.Prelude.{◌≡◌, ◌≢◌, ◌⊎◌, ◌+◌, ◌<◌, ◌≤◌, ℕ, List, length, true, Ok, Err, IfOk, IfErr, IfSome, OnOk, MatchResult, if◌then◌else◌, min, ◌-◌, ◌^◌};
ghost use Rattle.std.specs.Io.KnownBytes.{Keeps, Appends};
ghost use Rattle.std.specs.Option.{option_map, is_some};
ghost use Rattle.sudoers_edit.specs.Memory.{IsMemoryFreeLoadFault};
ghost use Rattle.sudoers_run.specs.Policy.{CommandLeavesFilesUnchanged};
ghost use Rattle.sudoers_check.specs.Chains.{HasCyclicAliasReachedFromSpecOrDefaults};
ghost use Rattle.sudoers_match.specs.Answer.{IsAnswerToRequest};
ghost use Rattle.sudoers_match.specs.Default.{IsRunasDefault};
ghost use Rattle.sudoers_match.specs.Found.{answer_without_member_and_settings};
ghost use Rattle.sudoers_list_people.specs.People.{people_read_result};
ghost use Rattle.sudoers_list_people.specs.Person.{who_or_who_fault};
ghost use Rattle.sudoers_list_people.specs.Asked.{request_or_who_fault};
ghost use Rattle.sudoers_files.specs.Device.{AppendsPrefixOfBytes};
ghost use Rattle.sudoers_run.specs.Writing.{IsWriterStateAfterCommand};
ghost use Rattle.sudoers_run.specs.List.{IsListOutcomeForPolicy, HoldsOfPeopleTexts, IsListAnswerOutcome, IsListAnswerText, IsListOutcomeForQuestion, IsListOutcome, IsListFault, IsListWordsOrFilesFault, ListCommandOutcome, AreMetersAfterReadingPeopleFiles, IsStatedOrOutsideListFault, IsWhoFaultOfResult, status_of_answer, text_of_allowed_command, optional_text_of_view};

use crate::command_words::ListWords;
use crate::fault::{LayerFault, ToolFault};
use crate::input::read_up_to_byte_past_limit;
use crate::loading::gather_and_load_policy;
use crate::output::{OutputTextAndStatus, write_all_to_sink};
use std::alloc::{AllocError, Global};
use sudoers_files::{Files, Sink, Source};
use sudoers_grammar::Items;
use sudoers_list::{explain_found_answer, list};
use sudoers_list_people::{People, request_for, who_for};
use sudoers_match::{
    AnswerWithMemberAndSettings, Request, find_answer, find_runas_default_for, join_words,
};
use sudoers_match_list::AcyclicWalk;
use sudoers_match_member::Who;
use sudoers_text::TEXT_LIMIT;
use sudoers_tree::{LoadFault, Policy};

/// Reads the policy `root` with the files that it includes, passwd and group, and writes what the user of `words` may run on his host
/// (sudo(8), the option `-l`). If `words` hold a command, writes it if he may run it. With `why`, writes instead the rule that decides,
/// with the name of its file. Returns status 0 for a listing and for a command that is allowed, and else 1.
///
/// # Errors
///
/// [`ToolFault`]: of gathering the files; of reading passwd, then group; then of the policy, of passwd, of group; then of the words; then
/// a cyclic alias, or arguments that are too long; then of writing. Nothing is written before a fault other than `Write`.
pub fn run_list<F: Files, U: Source, G: Source, W: Sink>(
    alloc: Global,
    files: &mut F,
    root: &[u8],
    passwd: &mut U,
    group: &mut G,
    words: &ListWords<'_>,
    writer: &mut W,
) -> Result<u8, ToolFault>
    // The status and what is written are an outcome of the files and of what is read.
    ensures ok { IfOk result (λ status. IfSome (F.shelf files.old).files (λ known. HoldsOfPeopleTexts (U.meter passwd.old) (G.meter group.old) (λ u g.
        (text : List ℕ) × IsListOutcome words.now root.now known u g (Ok (text, status)) × Appends (W.contents writer.old) (W.contents writer.new) text))) }
    ensures statuses { IfOk result (λ status. status ≤ 1) }
    // A fault of the files or of the words is their outcome.
    ensures fault { IfErr result (λ fault. IfSome (F.shelf files.old).files (λ known. HoldsOfPeopleTexts (U.meter passwd.old) (G.meter group.old) (IsStatedOrOutsideListFault words.now root.now known fault))) }
    // There are no other faults.
    ensures named { IfErr result IsListFault }
    // After `Write`, what was written is a beginning of the output.
    ensures front { result ≡ Err ToolFault.Write → IfSome (F.shelf files.old).files (λ known. HoldsOfPeopleTexts (U.meter passwd.old) (G.meter group.old) (λ u g.
        (text : List ℕ) × ((status : ℕ) × IsListOutcome words.now root.now known u g (Ok (text, status))) × AppendsPrefixOfBytes (W.contents writer.old) (W.contents writer.new) text)) }
    // What the counts of the files show, how passwd and group were read, and that nothing is written before a fault, as the counts of the
    // devices show.
    ensures searches { CommandLeavesFilesUnchanged result (F.shelf files.old) (F.shelf files.new) }
    ensures reads { AreMetersAfterReadingPeopleFiles result (U.meter passwd.old) (U.meter passwd.new) (G.meter group.old) (G.meter group.new) }
    ensures writes { IsWriterStateAfterCommand result (W.Sink.failures writer.old) (W.Sink.failures writer.new)
        (W.contents writer.old) (W.contents writer.new) }
{
    let policy = gather_and_load_policy(alloc, files, root)?;
    let passwd = read_up_to_byte_past_limit(alloc, passwd, TEXT_LIMIT)?;
    let group = read_up_to_byte_past_limit(alloc, group, TEXT_LIMIT)?;
    let output = make_list_output(alloc, policy, passwd.as_slice(), group.as_slice(), words)?;
    write_all_to_sink(writer, output.text.as_slice())?;
    Ok(output.status)
}

/// Returns what is written for a policy and the texts of passwd and of group, and the exit status; or the first error of these.
fn make_list_output(
    alloc: Global,
    policy: Result<Policy, LoadFault>,
    passwd: &[u8],
    group: &[u8],
    words: &ListWords<'_>,
) -> Result<OutputTextAndStatus, LayerFault>
    requires { IfErr policy IsMemoryFreeLoadFault }
    ensures outcome { MatchResult result (λ output. IsListOutcomeForPolicy words.now (people_read_result passwd.now group.now) policy (Ok (output.text.items, output.status)))
        (λ fault. (fault ≡ LayerFault.NoMemory) ⊎ IsListOutcomeForPolicy words.now (people_read_result passwd.now group.now) policy (Err fault)) }
    ensures statuses { IfOk result (λ output. output.status ≤ 1) }
    ensures named { IfErr result IsListWordsOrFilesFault }
{
    let policy = policy?;
    let people = People::read(alloc, passwd, group)?;
    let who = who_for(alloc, &people, words.user, words.host, words.interfaces)?;
    if words.words.is_empty() {
        let text = list(alloc, &policy, &who)?;
        return Ok(OutputTextAndStatus { text, status: 0 });
    }
    make_list_output_for_command(alloc, &policy, &people, who, words)
}

/// Returns what is written for the command of `words`, and the exit status.
fn make_list_output_for_command(
    alloc: Global,
    policy: &Policy,
    people: &People,
    who: Who,
    words: &ListWords<'_>,
) -> Result<OutputTextAndStatus, LayerFault>
    ensures asked { MatchResult result (λ output. IsListOutcomeForQuestion words.now policy.now people.now who (optional_text_of_view words.now.target) (optional_text_of_view words.now.group) (Ok (output.text.items, output.status)))
        (λ fault. (fault ≡ LayerFault.NoMemory) ⊎ IsListOutcomeForQuestion words.now policy.now people.now who (optional_text_of_view words.now.target) (optional_text_of_view words.now.group) (Err fault)) }
    ensures statuses { IfOk result (λ output. output.status ≤ 1) }
    ensures named { IfErr result IsListWordsOrFilesFault }
{
    let named = words.target.unwrap_or(words.user);
    let first = make_request_as_user(alloc, people, who, named, words)?;
    let acyclic = AcyclicWalk::new(alloc, policy.walk())?;
    let default = find_runas_default_for(alloc, &acyclic, &first.who)?;
    if words.target.is_some() || words.group.is_some() {
        return make_list_output_for_request(alloc, policy, &acyclic, &first, default, words);
    }
    let request = make_request_as_user(alloc, people, first.who, default, words)?;
    make_list_output_for_request(alloc, policy, &acyclic, &request, default, words)
}

/// Returns the request to run the command of `words` as the user `target`.
fn make_request_as_user(
    alloc: Global,
    people: &People,
    who: Who,
    target: &[u8],
    words: &ListWords<'_>,
) -> Result<Request, LayerFault>
    ensures told { MatchResult result (λ request. request_or_who_fault people.now who target.now (optional_text_of_view words.now.group) words.now.words.now words.now.moment.now ≡ Ok request)
        (λ fault. (fault ≡ LayerFault.NoMemory) ⊎ IsWhoFaultOfResult (request_or_who_fault people.now who target.now (optional_text_of_view words.now.group) words.now.words.now words.now.moment.now) fault) }
    ensures named { IfErr result IsListWordsOrFilesFault }
{
    Ok(request_for(
        alloc,
        people,
        who,
        target,
        words.group,
        words.words,
        words.moment,
    )?)
}

/// Returns what is written for `request`, and the exit status. `acyclic` is the walk of `policy`. `default` is the user as whom a command
/// runs without a Runas_Spec.
fn make_list_output_for_request(
    alloc: Global,
    policy: &Policy,
    acyclic: &AcyclicWalk<'_>,
    request: &Request,
    default: &[u8],
    words: &ListWords<'_>,
) -> Result<OutputTextAndStatus, LayerFault>
    requires walk { acyclic.now ≡ policy.now.walk.lines }
    requires default { IsRunasDefault policy.now.walk.lines request.now.who default.now }
    ensures answered { MatchResult result (λ output. IsListAnswerOutcome words.now policy.now request.now (Ok (output.text.items, output.status)))
        (λ fault. (fault ≡ LayerFault.NoMemory) ⊎ IsListAnswerOutcome words.now policy.now request.now (Err fault)) }
    ensures statuses { IfOk result (λ output. output.status ≤ 1) }
    ensures named { IfErr result IsListWordsOrFilesFault }
{
    // laws
    acyclic.is_acyclic();
    let found = find_answer(alloc, acyclic, request, default)?;
    let status = choose_allowed_status(found);
    if words.why {
        let text = explain_found_answer(alloc, policy, acyclic, request, default, found)?;
        return Ok(OutputTextAndStatus { text, status });
    }
    let text = make_text_of_allowed_command(alloc, words.words, found)?;
    Ok(OutputTextAndStatus { text, status })
}

/// Returns the exit status of the answer `found`.
fn choose_allowed_status(found: Option<AnswerWithMemberAndSettings<'_>>) -> u8
    ensures { result ≡ status_of_answer (option_map answer_without_member_and_settings found.entry) }
{
    match found {
        Some(found) if found.answer.allow => 0,
        _ => 1,
    }
}

/// Returns the command `words` with an LF if it is allowed, and else no bytes.
fn make_text_of_allowed_command(
    alloc: Global,
    words: &[Items<u8>],
    found: Option<AnswerWithMemberAndSettings<'_>>,
) -> Result<Vec<u8>, AllocError>
    ensures { IfOk result (λ text. text.items ≡ text_of_allowed_command words.now (option_map answer_without_member_and_settings found.entry)) }
{
    match found {
        Some(found) if found.answer.allow => {
            let mut text = join_words(alloc, words)?;
            text.push(b'\n')?;
            Ok(text)
        }
        _ => Ok(Vec::new(alloc)),
    }
}
