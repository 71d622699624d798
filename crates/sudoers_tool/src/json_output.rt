//! The documents of `check --json` and `show --json`, and their errors.

use crate::check_json::{LintWarnings, OverruledNotes, list_lint_values, list_overruled_values};
use crate::explaining::{advice_of_fault, find_reason_of_file};
use crate::files::{KeptDisk, TOP};
use crate::terminal::open_standard_output;
use clap::{Arg, ArgAction, ArgMatches};
use std::alloc::{AllocError, Global};
use std::io::Write;
use sudoers_check::check;
use sudoers_files::{GatherFault, find_missing_folders_and_skipped_files, gather};
use sudoers_report::{
    CheckDocument, ErrorWords, JsonList, LoadErrors, OverruledValues, PolicyAndReport,
    load_or_list_faults, make_check_document, make_error_value, make_not_read_list,
    make_show_document, make_show_error_document,
};
use sudoers_run::{LayerFault, ToolFault, fault_text};
use sudoers_tree::{LoadFault, NamedFile, Policy};

/// The option that asks for a JSON document.
pub const JSON: &str = "json";

/// The command that checks a policy.
const CHECK: &str = "check";

/// Returns the option that asks for a JSON document.
pub fn make_json_flag<'a>(alloc: Global) -> Arg<'a> {
    Arg::new(alloc, JSON)
        .long(JSON)
        .action(ArgAction::SetTrue)
        .help("Print one JSON document, also for an error; sudoers_tool(8) describes it")
}

/// Returns whether `words` ask for a JSON document.
pub fn is_json_asked(words: &ArgMatches<'_>) -> bool {
    words.get_flag(JSON)
}

/// Writes the document `text` to the standard output.
pub fn write_document(rt: &HostRuntime, text: &[u8]) -> Result<(), ToolFault> {
    match open_standard_output(rt).write_all(text) {
        Ok(()) => Ok(()),
        Err(_) => Err(ToolFault::Write),
    }
}

/// Returns the text of the error `fault`, with `before` before it.
fn make_text_of_fault(
    alloc: Global,
    before: &[u8],
    fault: &ToolFault,
) -> Result<Vec<u8>, AllocError> {
    let mut text = Vec::from_slice(alloc, before)?;
    text.extend_from_slice(fault_text(alloc, fault)?.as_slice())?;
    Ok(text)
}

/// Returns the list of the errors `faults` of the files `found`, each with `before` before its text, and the first of them.
pub fn make_list_of_faults(
    alloc: Global,
    found: &[NamedFile],
    faults: Vec<LoadFault>,
    before: &[u8],
) -> Result<(JsonList, Option<ToolFault>), AllocError> {
    let mut errors = LoadErrors::new(alloc, found)?;
    let mut first = None;
    for fault in faults {
        let fault = ToolFault::Layer(LayerFault::from(fault));
        let text = make_text_of_fault(alloc, before, &fault)?;
        if let ToolFault::Layer(LayerFault::Load(fault)) = &fault {
            errors.add(fault, text.as_slice())?;
        }
        if first.is_none() {
            first = Some(fault);
        }
    }
    Ok((errors.into_list(), first))
}

/// Returns the document of the command `name` for the policy `root`, which has the errors `errors`, and include lines that do not read
/// `not_read`, if that was asked for.
fn make_error_document<'a>(
    alloc: Global,
    name: &str,
    root: &'a [u8],
    errors: &'a JsonList,
    not_read: Option<&'a JsonList>,
) -> Result<Vec<u8>, AllocError> {
    if name != CHECK {
        return make_show_error_document(alloc, root, errors);
    }
    let document = CheckDocument {
        root,
        errors,
        noted: None,
        lint: None,
        overruled: None,
        not_read,
        passed: false,
    };
    make_check_document(alloc, &document)
}

/// Returns what the include lines of the files `found` do not read, if `words` ask for it.
fn list_not_read(
    alloc: Global,
    words: &ArgMatches<'_>,
    found: &[NamedFile],
    files: &mut KeptDisk,
) -> Result<Option<JsonList>, ToolFault> {
    if !words.get_flag("skipped") {
        return Ok(None);
    }
    let all = find_missing_folders_and_skipped_files(alloc, files, found).map_err(
        LayerFault::from,
    )?;
    Ok(Some(make_not_read_list(alloc, found, all.as_slice())?))
}

/// Checks the policy `root`, and writes the document of what was found, unless `words` ask for no output. Returns the exit status.
pub fn run_check_as_json(
    rt: &HostRuntime,
    root: &str,
    words: &ArgMatches<'_>,
    files: &mut KeptDisk,
) -> Result<u8, ToolFault> {
    let alloc = rt.alloc();
    let found = gather(alloc, root.as_bytes(), files).map_err(LayerFault::from)?;
    let loaded = load_or_list_faults(alloc, found.as_slice(), words.get_flag("all"))?;
    let list = list_not_read(alloc, words, found.as_slice(), files)?;
    let (root, not_read) = (root.as_bytes(), list.as_ref());
    let (text, status) = match loaded {
        Ok(policy) => make_document_of_policy(alloc, root, &policy, words, not_read)?,
        Err(faults) => {
            let (errors, _) = make_list_of_faults(alloc, found.as_slice(), faults, b"")?;
            let text = make_error_document(alloc, CHECK, root, &errors, not_read)?;
            (text, 1)
        }
    };
    if !words.get_flag("quiet") {
        write_document(rt, text.as_slice())?;
    }
    Ok(status)
}

/// Returns the document of `check` for the policy `policy`, whose first file is `root`, and the exit status. If `words` are strict, undefined
/// names, cyclic aliases and warnings of lint are errors.
fn make_document_of_policy<'a>(
    alloc: Global,
    root: &'a [u8],
    policy: &'a Policy,
    words: &ArgMatches<'_>,
    not_read: Option<&'a JsonList>,
) -> Result<(Vec<u8>, u8), ToolFault> {
    let strict = words.get_flag("strict");
    let report = check(alloc, policy)?;
    let overruled = list_overruled_values(alloc, words, policy)?;
    let warnings = list_lint_values(alloc, words, policy)?;
    let is_warned = match &warnings {
        Some(warnings) => warnings.is_any,
        None => false,
    };
    let passed = report.is_parsed_ok(strict) && !(strict && is_warned);
    let errors = JsonList::new(alloc);
    let lint = list_of_warnings(&warnings);
    let values = values_of_overruled(&overruled);
    let document = CheckDocument {
        root,
        errors: &errors,
        noted: Some(PolicyAndReport {
            policy,
            report: &report,
        }),
        lint,
        overruled: values,
        not_read,
        passed,
    };
    let text = make_check_document(alloc, &document)?;
    Ok((text, if passed { 0 } else { 1 }))
}

/// Returns the list of `warnings`, if there is one.
fn list_of_warnings(warnings: &Option<LintWarnings>) -> Option<&JsonList> {
    match warnings {
        Some(warnings) => Some(&warnings.list),
        None => None,
    }
}

/// Returns what is found of the commands that never decide, if it was asked for.
fn values_of_overruled(notes: &Option<OverruledNotes>) -> Option<OverruledValues<'_>> {
    match notes {
        Some(notes) => Some(OverruledValues {
            commands: &notes.commands,
            not_decided: &notes.not_decided,
        }),
        None => None,
    }
}

/// Shows the policy `root` as a document. If the policy has an error, writes the document with it.
pub fn run_show_as_json(
    rt: &HostRuntime,
    root: &str,
    files: &mut KeptDisk,
) -> Result<u8, ToolFault> {
    let alloc = rt.alloc();
    let found = gather(alloc, root.as_bytes(), files).map_err(LayerFault::from)?;
    match load_or_list_faults(alloc, found.as_slice(), false)? {
        Ok(policy) => {
            let text = make_show_document(alloc, root.as_bytes(), &policy)?;
            write_document(rt, text.as_slice())?;
            Ok(0)
        }
        Err(faults) => {
            let (errors, first) = make_list_of_faults(alloc, found.as_slice(), faults, b"")?;
            let text = make_show_error_document(alloc, root.as_bytes(), &errors)?;
            write_document(rt, text.as_slice())?;
            match first {
                Some(fault) => Err(fault),
                None => Ok(1),
            }
        }
    }
}

/// Writes the document of the command `name` for the error `fault` of the policy `root`, unless it was written before, nothing is to be
/// written, or no memory is left for it. `files` are those that were read.
pub fn print_error_document(
    rt: &HostRuntime,
    name: &str,
    root: &str,
    words: &ArgMatches<'_>,
    files: &KeptDisk,
    fault: &ToolFault,
) {
    if words.get_flag("quiet") || !has_document_of_its_own(fault) {
        return;
    }
    if let Ok(text) = make_document_of_fault(rt, name, root, words, files, fault) {
        let _ = write_document(rt, text.as_slice());
    }
}

/// Returns whether the error `fault` has a document that is written for it alone.
fn has_document_of_its_own(fault: &ToolFault) -> bool {
    !matches!(
        fault,
        ToolFault::Write | ToolFault::Layer(LayerFault::Load(_) | LayerFault::NoMemory)
    )
}

/// Returns the document of the command `name` for the error `fault` of the policy `root`.
fn make_document_of_fault(
    rt: &HostRuntime,
    name: &str,
    root: &str,
    words: &ArgMatches<'_>,
    files: &KeptDisk,
    fault: &ToolFault,
) -> Result<Vec<u8>, AllocError> {
    let errors = make_list_of_gather_fault(rt, words.get_str(TOP), files, fault, b"")?;
    make_error_document(rt.alloc(), name, root.as_bytes(), &errors, None)
}

/// Returns the list with the error `fault` of gathering `files`, below the folder `top` if one is given. Its text has `before` before it.
///
/// # Errors
///
/// Memory ran out.
pub fn make_list_of_gather_fault(
    rt: &HostRuntime,
    top: Option<&str>,
    files: &KeptDisk,
    fault: &ToolFault,
    before: &[u8],
) -> Result<JsonList, AllocError> {
    let alloc = rt.alloc();
    let cause = fault_text(alloc, fault)?;
    let text = make_text_of_fault(alloc, before, fault)?;
    let file = files.files().files().last_requested_name();
    let is_of_file = is_fault_of_file(fault);
    let reason = if is_of_file {
        Some(find_reason_of_file(rt, top, file)?.as_bytes())
    } else {
        None
    };
    let printed = ErrorWords {
        kind: word_of_fault_kind(fault),
        cause: cause.as_slice(),
        text: text.as_slice(),
        file: if is_of_file { Some(file) } else { None },
        reason,
        advice: advice_of_any_fault(fault),
    };
    let mut errors = JsonList::new(alloc);
    errors.add(&make_error_value(alloc, &printed)?)?;
    Ok(errors)
}

/// Returns whether the error `fault` is about the file that was asked for last.
fn is_fault_of_file(fault: &ToolFault) -> bool {
    matches!(
        fault,
        ToolFault::Layer(LayerFault::Gather(GatherFault::NoRoot | GatherFault::Device(_)))
    )
}

/// Returns the word for the kind of the error `fault`.
pub fn word_of_fault_kind(fault: &ToolFault) -> &'static str {
    match fault {
        ToolFault::Layer(LayerFault::Gather(_)) => "Gather",
        _ => "Run",
    }
}

/// Returns the advice for the error `fault`; nothing if there is none.
fn advice_of_any_fault(fault: &ToolFault) -> Option<&'static [u8]> {
    match fault {
        ToolFault::Layer(LayerFault::Gather(GatherFault::TooManyFiles)) => {
            Some(b"a policy has at most 256 files")
        }
        fault => advice_of_fault(fault),
    }
}
