//! The documents of `who --json`, `what --json` and `why --json`.

use crate::ask_command::{
    Asked, layer_of_question_fault, layer_of_rights_fault, make_who_of_words, read_asked,
};
use crate::ask_subcommands::{DENIED, EXPAND, WHAT, WHO, policy_name_of_ask_words};
use crate::ask_values::{
    AskHead, RightsLists, make_placed_list, make_rights_document, make_same_list, make_user_value,
    make_users_document, make_worded_values,
};
use crate::explaining::{explain_fault_of_words, reason_of_file};
use crate::file_trouble::FileTrouble;
use crate::files::{KeptDisk, TOP};
use crate::json_output::{
    make_list_of_faults, make_list_of_gather_fault, word_of_fault_kind, write_document,
};
use clap::ArgMatches;
use serde_json::Value;
use std::alloc::{AllocError, Global};
use sudoers_ask::{find_user_facts, list_rights, list_user_facts, make_undecided_facts};
use sudoers_files::gather;
use sudoers_report::{ErrorWords, JsonList, load_or_list_faults, make_error_value};
use sudoers_run::{LayerFault, ToolFault, fault_text};
use sudoers_tree::Policy;

/// What stands before an advice.
const HELP: &[u8] = b"  = help: ";

/// Runs the command `name` of the words `words` on the policy that they name, and writes its document. `files` are those of the policy.
/// Returns the exit status: 0 if the answer is yes, 1 if it is no.
pub fn run_ask_as_json(
    rt: &HostRuntime,
    name: &str,
    words: &ArgMatches<'_>,
    files: &mut KeptDisk,
) -> Result<u8, FileTrouble> {
    let policy = load_or_write_errors(rt, name, words, files)?;
    let outcome = match read_asked(rt, words, policy, name != WHAT) {
        Ok(asked) => answer_as_json(rt, name, words, &asked),
        Err(trouble) => Err(trouble),
    };
    if let Err(trouble) = &outcome
        && is_with_document(trouble.fault())
    {
        let mut errors = JsonList::new(rt.alloc());
        errors.add(&make_error_value_of_trouble(rt, words, trouble, b"")?)?;
        write_error_document(rt, name, words, &errors)?;
    }
    outcome
}

/// Returns the policy that `words` name. Writes the document of its error for the command `name`. `files` are those of the policy.
fn load_or_write_errors(
    rt: &HostRuntime,
    name: &str,
    words: &ArgMatches<'_>,
    files: &mut KeptDisk,
) -> Result<Policy, FileTrouble> {
    let alloc = rt.alloc();
    let root = policy_name_of_ask_words(words).as_bytes();
    let found = match gather(alloc, root, files) {
        Ok(found) => found,
        Err(fault) => {
            let fault = ToolFault::from(LayerFault::from(fault));
            if is_with_document(&fault) {
                let errors = make_list_of_gather_fault(rt, words.get_str(TOP), files, &fault, b"")?;
                write_error_document(rt, name, words, &errors)?;
            }
            return Err(FileTrouble::from(fault));
        }
    };
    match load_or_list_faults(alloc, found.as_slice(), false)? {
        Ok(policy) => Ok(policy),
        Err(faults) => {
            let (errors, first) = make_list_of_faults(alloc, found.as_slice(), faults, b"")?;
            write_error_document(rt, name, words, &errors)?;
            Err(FileTrouble::from(first.unwrap_or(ToolFault::Read)))
        }
    }
}

/// Returns whether the error `fault` has a document: memory was there, and the output can be written.
fn is_with_document(fault: &ToolFault) -> bool {
    !matches!(
        fault,
        ToolFault::Write | ToolFault::Layer(LayerFault::NoMemory)
    )
}

/// Writes the document of the command `name` for the errors `errors`. An output that cannot be written is not the error that is reported.
fn write_error_document(
    rt: &HostRuntime,
    name: &str,
    words: &ArgMatches<'_>,
    errors: &JsonList,
) -> Result<(), AllocError> {
    let alloc = rt.alloc();
    let head = AskHead {
        command: name,
        root: policy_name_of_ask_words(words).as_bytes(),
        errors,
        allowed: None,
    };
    let text = if name == WHAT {
        let lists = RightsLists {
            commands: JsonList::new(alloc),
            of_all: JsonList::new(alloc),
            of_some: JsonList::new(alloc),
            undecided: Value::Array(Vec::new(alloc)),
        };
        let user = words.get_str("USER").unwrap_or("").as_bytes();
        make_rights_document(alloc, &head, &lists, None, user)?
    } else {
        let none = JsonList::new(alloc);
        make_users_document(alloc, &head, &none, &none)?
    };
    let _ = write_document(rt, text.as_slice());
    Ok(())
}

/// Returns the error `trouble`, which is none of the policy, as a value. Its text has `label` before it.
pub fn make_error_value_of_trouble(
    rt: &HostRuntime,
    words: &ArgMatches<'_>,
    trouble: &FileTrouble,
    label: &[u8],
) -> Result<Value, AllocError> {
    let alloc = rt.alloc();
    let fault = trouble.fault();
    let mut text = Vec::from_slice(alloc, label)?;
    text.extend_from_slice(trouble.text(alloc)?.as_slice())?;
    let bare = fault_text(alloc, fault)?;
    let explained = explain_fault_of_words(rt, words, trouble.file(), fault)?;
    let (reason, advice) = match (trouble.file(), fault) {
        (Some(name), ToolFault::Read) => (Some(reason_of_file(rt, name).as_bytes()), None),
        _ => (None, advice_of_explanation(explained.as_slice())),
    };
    let told = ErrorWords {
        kind: word_of_fault_kind(fault),
        cause: last_word_of(bare.as_slice()),
        text: text.as_slice(),
        file: file_of_trouble(trouble),
        reason,
        advice,
    };
    make_error_value(alloc, &told)
}

/// Returns the file that the error `trouble` is about, if it is about one. A user who is missing is no file.
fn file_of_trouble(trouble: &FileTrouble) -> Option<&[u8]> {
    match trouble.fault() {
        ToolFault::Layer(LayerFault::Who(_)) => None,
        _ => trouble.file(),
    }
}

/// Returns the advice of the explanation `text`, if it is one line with an advice.
fn advice_of_explanation(text: &[u8]) -> Option<&[u8]> {
    text.strip_prefix(HELP)?.strip_suffix(b"\n")
}

/// Returns the last word of the text `text` of an error.
fn last_word_of(text: &[u8]) -> &[u8] {
    let mut last = text;
    for word in text.split(|byte| *byte == b' ') {
        last = word;
    }
    last
}

/// Answers what `asked` asks with the command `name`, and writes the document. Returns the exit status.
fn answer_as_json(
    rt: &HostRuntime,
    name: &str,
    words: &ArgMatches<'_>,
    asked: &Asked,
) -> Result<u8, FileTrouble> {
    let alloc = rt.alloc();
    let errors = JsonList::new(alloc);
    let mut head = AskHead {
        command: name,
        root: policy_name_of_ask_words(words).as_bytes(),
        errors: &errors,
        allowed: None,
    };
    let text = if name == WHAT {
        make_document_of_rights(alloc, words, asked, &mut head)?
    } else {
        make_document_of_users(alloc, words, asked, &mut head)?
    };
    write_document(rt, text.as_slice())?;
    Ok(if head.allowed == Some(true) { 0 } else { 1 })
}

/// Returns the document of `who` or `why`, and sets in `head` whether the answer is yes.
fn make_document_of_users(
    alloc: Global,
    words: &ArgMatches<'_>,
    asked: &Asked,
    head: &mut AskHead<'_>,
) -> Result<Vec<u8>, FileTrouble> {
    let pairs = asked.same.list_borrowed_pairs(alloc)?;
    let question = asked.question.as_borrowed_question(pairs.as_slice());
    let (policy, people) = (&asked.policy, &asked.people);
    let mut users = JsonList::new(alloc);
    if head.command == WHO {
        let denied = words.get_flag(DENIED);
        let facts = list_user_facts(alloc, policy, people, &question, denied).map_err(
            layer_of_question_fault,
        )?;
        for user in facts.users.as_slice() {
            users.add(&make_user_value(alloc, policy, user)?)?;
        }
        head.allowed = Some(facts.is_any_allowed);
    } else {
        let user = words.get_str("USER").unwrap_or("").as_bytes();
        let facts = find_user_facts(alloc, policy, people, user, &question).map_err(
            layer_of_question_fault,
        )?;
        users.add(&make_user_value(alloc, policy, &facts)?)?;
        head.allowed = Some(match &facts.rule {
            Some(rule) => rule.allows,
            None => false,
        });
    }
    let same = make_same_list(alloc, pairs.as_slice())?;
    Ok(make_users_document(alloc, head, &same, &users)?)
}

/// Returns the document of `what`, and sets in `head` whether the user may run anything.
fn make_document_of_rights(
    alloc: Global,
    words: &ArgMatches<'_>,
    asked: &Asked,
    head: &mut AskHead<'_>,
) -> Result<Vec<u8>, FileTrouble> {
    let policy = &asked.policy;
    let who = make_who_of_words(alloc, words, asked)?;
    let rights = list_rights(alloc, policy, &who, words.get_flag(EXPAND)).map_err(
        layer_of_rights_fault,
    )?;
    let undecided = make_undecided_facts(alloc, rights.undecided.as_slice())?;
    let lists = RightsLists {
        commands: make_placed_list(alloc, policy, rights.commands.as_slice())?,
        of_all: make_placed_list(alloc, policy, rights.defaults.of_all.as_slice())?,
        of_some: make_placed_list(alloc, policy, rights.defaults.of_some.as_slice())?,
        undecided: make_worded_values(alloc, policy, undecided.as_slice(), false)?,
    };
    head.allowed = Some(rights.has_any);
    let user = words.get_str("USER").unwrap_or("").as_bytes();
    let host = Some(who.long_host.as_slice());
    Ok(make_rights_document(alloc, head, &lists, host, user)?)
}
