//! The documents of `diff --json`.

use crate::ask_json::make_error_value_of_trouble;
use crate::ask_values::find_start_on_walk;
use crate::diff_command::{NEW, OLD};
use crate::file_trouble::FileTrouble;
use crate::files::KeptDisk;
use crate::json_output::{make_list_of_faults, make_list_of_gather_fault, write_document};
use clap::ArgMatches;
use serde_json::{Value, json};
use std::alloc::{AllocError, Global};
use sudoers_files::{GatherFault, gather};
use sudoers_report::{
    JsonDocument, JsonList, load_or_list_faults, make_optional_place_value,
    make_optional_text_value, make_text_value,
};
use sudoers_review::{ChangeLine, ChangeLines, PolicyChanges, RuleChange, TextPart};
use sudoers_review_users::UserChanges;
use sudoers_run::{LayerFault, ToolFault};
use sudoers_tree::Policy;

/// Two policies that are compared.
#[derive(Clone, Copy)]
pub struct ComparedSides<'a> {
    pub old: &'a Policy,
    pub new: &'a Policy,
}

/// The lists of a document: the rules and settings that differ, the rules of other users, and other parameters of Defaults.
#[derive(Drop)]
struct DiffLists {
    rules: JsonList,
    left: JsonList,
    others: JsonList,
}

impl DiffLists {
    /// Returns lists without items.
    fn new(alloc: Global) -> DiffLists {
        DiffLists {
            rules: JsonList::new(alloc),
            left: JsonList::new(alloc),
            others: JsonList::new(alloc),
        }
    }
}

/// Returns the bytes of `text` that `part` is.
fn bytes_of_part(text: &[u8], part: TextPart) -> &[u8] {
    text.get(part.start..part.stop).unwrap_or(b"")
}

/// Returns the bytes of `text` that `part` is, if there is one.
fn bytes_of_optional_part(text: &[u8], part: Option<TextPart>) -> Option<&[u8]> {
    match part {
        Some(part) => Some(bytes_of_part(text, part)),
        None => None,
    }
}

/// Returns `line`, of `text`, as a value.
fn make_line_value(
    alloc: Global,
    sides: ComparedSides<'_>,
    text: &[u8],
    line: &ChangeLine,
) -> Result<Value, AllocError> {
    let (word, policy) = match line.change {
        RuleChange::Went => ("went", sides.old),
        RuleChange::Came => ("came", sides.new),
    };
    let place = match line.place {
        Some(place) => find_start_on_walk(policy, place.line, place.start),
        None => None,
    };
    json!(in alloc; {
        "change": word,
        "example": make_optional_text_value(alloc, bytes_of_optional_part(text, line.example))?,
        "place": make_optional_place_value(alloc, place)?,
        "rule": make_text_value(alloc, bytes_of_part(text, line.rule))?,
        "user": make_optional_text_value(alloc, bytes_of_optional_part(text, line.user))?
    })
}

/// Returns `lines` as a list.
fn make_line_list(
    alloc: Global,
    sides: ComparedSides<'_>,
    lines: &ChangeLines,
) -> Result<JsonList, AllocError> {
    let mut list = JsonList::new(alloc);
    for line in lines.lines.as_slice() {
        list.add(&make_line_value(alloc, sides, lines.text.as_slice(), line)?)?;
    }
    Ok(list)
}

/// Returns the document of `diff` for the policies that `words` name: one line with its line end. After an error it is not known whether they
/// differ.
fn make_diff_document(
    alloc: Global,
    words: &ArgMatches<'_>,
    differ: Option<bool>,
    errors: &JsonList,
    lists: &DiffLists,
) -> Result<Vec<u8>, AllocError> {
    let differ = match differ {
        Some(differ) => Value::Bool(differ),
        None => Value::Null,
    };
    let old = words.get_str(OLD).unwrap_or("");
    let new = words.get_str(NEW).unwrap_or("");
    let mut document = JsonDocument::new(alloc);
    document.add_member("command", &Value::try_from_str(alloc, "diff")?)?;
    document.add_member("differ", &differ)?;
    document.add_list("errors", errors)?;
    document.add_list("left", &lists.left)?;
    document.add_member("new", &make_text_value(alloc, new.as_bytes())?)?;
    document.add_member("old", &make_text_value(alloc, old.as_bytes())?)?;
    document.add_list("others", &lists.others)?;
    document.add_list("rules", &lists.rules)?;
    document.make_text()
}

/// Prints the document of the policies `sides`, which `words` name and of which `changes` are the changes. They differ, or may, if `differ`.
pub fn print_document_of_changes(
    rt: &HostRuntime,
    words: &ArgMatches<'_>,
    sides: ComparedSides<'_>,
    changes: &PolicyChanges,
    differ: bool,
) -> Result<(), ToolFault> {
    let alloc = rt.alloc();
    let lists = DiffLists {
        rules: make_line_list(alloc, sides, &changes.answers)?,
        left: JsonList::new(alloc),
        others: make_line_list(alloc, sides, &changes.others)?,
    };
    let errors = JsonList::new(alloc);
    let text = make_diff_document(alloc, words, Some(differ), &errors, &lists)?;
    write_document(rt, text.as_slice())
}

/// Prints the document of the policies `sides`, which `words` name, for users, of whom `changes` are the changes. They differ if `differ`.
pub fn print_document_of_user_changes(
    rt: &HostRuntime,
    words: &ArgMatches<'_>,
    sides: ComparedSides<'_>,
    changes: &UserChanges,
    differ: bool,
) -> Result<(), ToolFault> {
    let alloc = rt.alloc();
    let lists = DiffLists {
        rules: make_line_list(alloc, sides, &changes.users)?,
        left: make_line_list(alloc, sides, &changes.left)?,
        others: make_line_list(alloc, sides, &changes.others)?,
    };
    let errors = JsonList::new(alloc);
    let text = make_diff_document(alloc, words, Some(differ), &errors, &lists)?;
    write_document(rt, text.as_slice())
}

/// Prints the document with `errors` of the policies that `words` name. An output that cannot be written is not the error that is reported.
fn print_errors(
    rt: &HostRuntime,
    words: &ArgMatches<'_>,
    errors: &JsonList,
) -> Result<(), AllocError> {
    let alloc = rt.alloc();
    let text = make_diff_document(alloc, words, None, errors, &DiffLists::new(alloc))?;
    let _ = write_document(rt, text.as_slice());
    Ok(())
}

/// Prints the document of the error `trouble`, with `label` before its text, unless memory or the output is the error.
pub fn print_document_of_trouble(
    rt: &HostRuntime,
    words: &ArgMatches<'_>,
    trouble: &FileTrouble,
    label: &[u8],
) -> Result<(), AllocError> {
    if matches!(
        trouble.fault(),
        ToolFault::Write | ToolFault::Layer(LayerFault::NoMemory)
    ) {
        return Ok(());
    }
    let mut errors = JsonList::new(rt.alloc());
    errors.add(&make_error_value_of_trouble(rt, words, trouble, label)?)?;
    print_errors(rt, words, &errors)
}

/// Prints the document of the error `fault` of reading the policy `root`, whose files are `files`, below the folder `top` if one is given. Its
/// text has `before` before it. Returns whether it is one of its files.
pub fn print_document_of_policy_fault(
    rt: &HostRuntime,
    words: &ArgMatches<'_>,
    top: Option<&str>,
    root: &[u8],
    files: &mut KeptDisk,
    fault: &ToolFault,
    before: &[u8],
) -> Result<bool, AllocError> {
    let errors = match fault {
        ToolFault::Layer(LayerFault::Gather(_)) => {
            make_list_of_gather_fault(rt, top, files, fault, before)?
        }
        ToolFault::Layer(LayerFault::Load(_)) => {
            let found = match gather(rt.alloc(), root, files) {
                Ok(found) => found,
                Err(GatherFault::NoMemory) => return Err(AllocError),
                Err(_) => return Ok(false),
            };
            match load_or_list_faults(rt.alloc(), found.as_slice(), false)? {
                Ok(_) => return Ok(false),
                Err(faults) => make_list_of_faults(rt.alloc(), found.as_slice(), faults, before)?.0,
            }
        }
        _ => return Ok(false),
    };
    print_errors(rt, words, &errors)?;
    Ok(true)
}
