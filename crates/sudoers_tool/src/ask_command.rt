//! The commands `who`, `what` and `why`.

use crate::ask_subcommands::{DENIED, EXPAND, WHAT, WHO, policy_name_of_ask_words};
use crate::explaining::{are_errors_explained, print_explanation};
use crate::file_trouble::FileTrouble;
use crate::files::KeptDisk;
use crate::list_command::{
    command_words_of_matches, make_text_or_empty, optional_slice_of_optional_text, text_of_option,
};
use crate::machine::{read_host_name, read_moment, read_people};
use crate::same_folders::{SameFolders, has_same_folders, read_same_folders};
use crate::terminal::open_standard_output;
use clap::ArgMatches;
use std::alloc::{AllocError, Global};
use std::io::Write;
use sudoers_ask::{
    CommandQuestion, FolderPair, QuestionFault, RightsFault, explain_user_answer,
    list_rights_with_places, list_users_who_may_run,
};
use sudoers_cvt_rules::CvtFault;
use sudoers_explain::append_help;
use sudoers_files::gather;
use sudoers_grammar::Items;
use sudoers_list_people::{People, who_for};
use sudoers_match::{Who, join_words};
use sudoers_match_list::AskFault;
use sudoers_run::{LayerFault, ToolFault};
use sudoers_tree::Policy;

/// The advice for a command without its path.
const FULL_PATH: &[u8] =
    b"write the full path of the command, as `/usr/bin/ls`: a policy does not look for it in PATH";

/// A policy and the people of a machine, and what is asked of them.
#[derive(Drop)]
pub struct Asked {
    pub policy: Policy,
    pub people: People,
    pub question: OwnedQuestion,
    pub same: SameFolders,
}

/// A command, as whom it is to run, on which host and when.
#[derive(Drop)]
pub struct OwnedQuestion {
    command: Vec<Items<u8>>,
    target: Option<Items<u8>>,
    group: Option<Items<u8>>,
    host: Items<u8>,
    interfaces: Items<u8>,
    moment: Items<u8>,
}

/// An output, and the exit status.
#[derive(Drop)]
struct AnswerText {
    text: Vec<u8>,
    status: u8,
}

/// Runs the command `name` of the words `words` on the policy that they name. `files` are those of the policy. Returns the exit status:
/// 0 if the answer is yes, 1 if it is no.
pub fn run_ask_command(
    rt: &HostRuntime,
    name: &str,
    words: &ArgMatches<'_>,
    files: &mut KeptDisk,
) -> Result<u8, FileTrouble> {
    let policy = load_policy(rt.alloc(), policy_name_of_ask_words(words), files)?;
    let asked = read_asked(rt, words, policy, name != WHAT)?;
    let answer = match name {
        WHO => list_users(rt.alloc(), words, &asked)?,
        WHAT => list_rights(rt.alloc(), words, &asked)?,
        _ => explain_answer(rt.alloc(), words, &asked)?,
    };
    print_answer(rt, answer.text.as_slice())?;
    if are_errors_explained(rt, words) {
        let _ = print_advice_on_path(rt, words);
    }
    Ok(answer.status)
}

/// Prints the text of an answer.
fn print_answer(rt: &HostRuntime, text: &[u8]) -> Result<(), FileTrouble> {
    match open_standard_output(rt).write_all(text) {
        Ok(()) => Ok(()),
        Err(_) => Err(FileTrouble::from(ToolFault::Write)),
    }
}

/// Returns whether `words` of `list` ask for a command, and name folders that are one.
pub fn is_list_with_same_folders(words: &ArgMatches<'_>) -> bool {
    has_same_folders(words) && words.get_strs("WORD").is_some()
}

/// Runs `list` on the policy `file`, as [`is_list_with_same_folders`] says of `words`. Returns the exit status: 0 if the command is
/// allowed, else 1.
pub fn run_list_with_same_folders(
    rt: &HostRuntime,
    file: &str,
    words: &ArgMatches<'_>,
    files: &mut KeptDisk,
) -> Result<u8, FileTrouble> {
    let alloc = rt.alloc();
    let policy = load_policy(alloc, file, files)?;
    let asked = read_asked(rt, words, policy, false)?;
    let pairs = asked.same.list_borrowed_pairs(alloc)?;
    let question = asked.question.as_borrowed_question(pairs.as_slice());
    let user = words.get_str("USER").unwrap_or("").as_bytes();
    let why = explain_user_answer(alloc, &asked.policy, &asked.people, user, &question).map_err(
        layer_of_question_fault,
    )?;
    let mut text = Vec::new(alloc);
    if words.get_flag("why") {
        text.extend_from_slice(why.text.as_slice())?;
    } else if why.is_allowed {
        text = join_words(alloc, asked.question.command.as_slice())?;
        text.extend_from_slice(b"\n")?;
    }
    print_answer(rt, text.as_slice())?;
    Ok(if why.is_allowed { 0 } else { 1 })
}

/// Prints an advice if the command of `words` is the name of a file without its full path.
///
/// # Errors
///
/// Memory ran out.
fn print_advice_on_path(rt: &HostRuntime, words: &ArgMatches<'_>) -> Result<(), AllocError> {
    let command = command_words_of_matches(rt.alloc(), words)?;
    if let Some(name) = command.first()
        && !is_whole_command(name.as_slice())
    {
        let mut advice = Vec::new(rt.alloc());
        append_help(&mut advice, &[FULL_PATH])?;
        print_explanation(rt, advice.as_slice());
    }
    Ok(())
}

/// Returns whether `name` is a full path, or a command that sudo has itself.
fn is_whole_command(name: &[u8]) -> bool {
    name.starts_with(b"/") || name == b"list".as_slice() || name == b"sudoedit".as_slice()
}

/// Returns the policy `root`, whose files are among `files`.
fn load_policy(alloc: Global, root: &str, files: &mut KeptDisk) -> Result<Policy, LayerFault> {
    let found = gather(alloc, root.as_bytes(), files)?;
    let policy = Policy::load(alloc, found.as_slice())?;
    Ok(policy)
}

/// Reads what is asked of `policy`, and the machine. If `is_machine_asked`, its links say which folders are one, too.
pub fn read_asked(
    rt: &HostRuntime,
    words: &ArgMatches<'_>,
    policy: Policy,
    is_machine_asked: bool,
) -> Result<Asked, FileTrouble> {
    Ok(Asked {
        policy,
        people: read_people(rt, words)?,
        question: read_question(rt, words)?,
        same: read_same_folders(rt, words, is_machine_asked)?,
    })
}

/// Reads what `words` ask: the command, as whom, where and when.
fn read_question(rt: &HostRuntime, words: &ArgMatches<'_>) -> Result<OwnedQuestion, FileTrouble> {
    let alloc = rt.alloc();
    Ok(OwnedQuestion {
        command: command_words_of_matches(alloc, words)?,
        target: text_of_option(alloc, words, "TARGET")?,
        group: text_of_option(alloc, words, "GROUP")?,
        host: read_host_name(rt, words)?,
        interfaces: make_text_or_empty(alloc, words, "INTERFACES")?,
        moment: read_moment(rt, words)?,
    })
}

impl OwnedQuestion {
    /// Returns the question for the library, where the folders of each of `same` are one.
    pub fn as_borrowed_question<'a>(&'a self, same: &'a [FolderPair<'a>]) -> CommandQuestion<'a> {
        CommandQuestion {
            words: self.command.as_slice(),
            same,
            target: optional_slice_of_optional_text(&self.target),
            group: optional_slice_of_optional_text(&self.group),
            host: self.host.as_slice(),
            interfaces: self.interfaces.as_slice(),
            moment: self.moment.as_slice(),
        }
    }
}

/// Returns the users who may run the command of `words`.
fn list_users(
    alloc: Global,
    words: &ArgMatches<'_>,
    asked: &Asked,
) -> Result<AnswerText, FileTrouble> {
    let pairs = asked.same.list_borrowed_pairs(alloc)?;
    let question = asked.question.as_borrowed_question(pairs.as_slice());
    let denied = words.get_flag(DENIED);
    let users = list_users_who_may_run(
        alloc,
        &asked.policy,
        &asked.people,
        &question,
        denied,
    ).map_err(layer_of_question_fault)?;
    let mut text = Vec::new(alloc);
    asked.same.append_note_of_links(&mut text)?;
    text.extend_from_slice(users.text.as_slice())?;
    if !users.is_any_allowed {
        text.extend_from_slice(b"no user may run it\n")?;
    }
    text.extend_from_slice(users.undecided.as_slice())?;
    Ok(AnswerText {
        text,
        status: if users.is_any_allowed { 0 } else { 1 },
    })
}

/// Returns why the user of `words` may run the command, or why not.
fn explain_answer(
    alloc: Global,
    words: &ArgMatches<'_>,
    asked: &Asked,
) -> Result<AnswerText, FileTrouble> {
    let pairs = asked.same.list_borrowed_pairs(alloc)?;
    let question = asked.question.as_borrowed_question(pairs.as_slice());
    let user = words.get_str("USER").unwrap_or("").as_bytes();
    let why = explain_user_answer(alloc, &asked.policy, &asked.people, user, &question).map_err(
        layer_of_question_fault,
    )?;
    let mut text = Vec::new(alloc);
    asked.same.append_note_of_links(&mut text)?;
    text.extend_from_slice(why.text.as_slice())?;
    text.extend_from_slice(why.near.as_slice())?;
    text.extend_from_slice(why.undecided.as_slice())?;
    Ok(AnswerText {
        text,
        status: if why.is_allowed { 0 } else { 1 },
    })
}

/// Returns the user of `words` on the host that `asked` names.
pub fn make_who_of_words(
    alloc: Global,
    words: &ArgMatches<'_>,
    asked: &Asked,
) -> Result<Who, FileTrouble> {
    let user = words.get_str("USER").unwrap_or("").as_bytes();
    let host = asked.question.host.as_slice();
    let interfaces = asked.question.interfaces.as_slice();
    let who = who_for(alloc, &asked.people, user, host, interfaces).map_err(LayerFault::from)?;
    Ok(who)
}

/// Returns what the user of `words` may run.
fn list_rights(
    alloc: Global,
    words: &ArgMatches<'_>,
    asked: &Asked,
) -> Result<AnswerText, FileTrouble> {
    let who = make_who_of_words(alloc, words, asked)?;
    let rights = list_rights_with_places(
        alloc,
        &asked.policy,
        &who,
        words.get_flag(EXPAND),
    ).map_err(layer_of_rights_fault)?;
    let mut text = rights.text;
    text.extend_from_slice(rights.undecided.as_slice())?;
    Ok(AnswerText {
        text,
        status: if rights.has_any { 0 } else { 1 },
    })
}

/// Returns the fault of a question as one of the program.
pub fn layer_of_question_fault(fault: QuestionFault) -> LayerFault {
    match fault {
        QuestionFault::Who(fault) => LayerFault::from(fault),
        QuestionFault::Ask(fault) => LayerFault::from(fault),
    }
}

/// Returns the fault of a listing as one of the program.
pub fn layer_of_rights_fault(fault: RightsFault) -> LayerFault {
    match fault {
        RightsFault::Cycle => LayerFault::from(AskFault::Cycle),
        RightsFault::TooLarge => LayerFault::from(CvtFault::TooLarge),
        RightsFault::NoMemory => LayerFault::NoMemory,
    }
}
