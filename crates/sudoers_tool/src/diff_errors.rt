//! The errors of `diff`, and the policies that they are about.

use crate::diff_command::{NEW, NEW_TOP, OLD, OLD_TOP};
use crate::diff_json::{print_document_of_policy_fault, print_document_of_trouble};
use crate::explaining::{are_errors_explained, explain_policy, print_explanation};
use crate::file_trouble::FileTrouble;
use crate::files::KeptDisk;
use crate::json_output::is_json_asked;
use crate::overruled_notes::fault_of_comparison;
use crate::terminal::print_error_line;
use clap::ArgMatches;
use std::alloc::{AllocError, Global};
use sudoers_compare::CountedChanges;
use sudoers_explain::append_help;
use sudoers_review::{CompareFault, list_changes};
use sudoers_run::{LayerFault, ToolFault};
use sudoers_tree::Policy;

/// The exit status of an error.
const ERROR_STATUS: u8 = 3;

/// One of the policies: the words that name its file, and the folder below which it is read.
#[derive(Clone, Copy)]
pub struct Side {
    pub file: &'static str,
    pub top: &'static str,
    /// What stands before an error that does not say which policy it is about.
    label: &'static [u8],
}

/// The policy before the change.
pub const OLD_SIDE: Side = Side {
    file: OLD,
    top: OLD_TOP,
    label: b"OLD: ",
};

/// The policy after the change.
pub const NEW_SIDE: Side = Side {
    file: NEW,
    top: NEW_TOP,
    label: b"NEW: ",
};

/// Returns the side that `fault` is about, if it is about one: that policy cannot be compared with itself.
pub fn find_side_of_fault(
    alloc: Global,
    fault: CompareFault,
    old: &Policy,
    new: &Policy,
) -> Option<Side> {
    if fault == CompareFault::NoMemory {
        return None;
    }
    if is_fault_of_policy(alloc, fault, old) {
        return Some(OLD_SIDE);
    }
    if is_fault_of_policy(alloc, fault, new) {
        return Some(NEW_SIDE);
    }
    None
}

/// Returns whether `policy` cannot be compared with itself because of `fault`.
fn is_fault_of_policy(alloc: Global, fault: CompareFault, policy: &Policy) -> bool {
    match list_changes(alloc, CountedChanges::Granting, policy, policy) {
        Ok(_) => false,
        Err(found) => found == fault,
    }
}

/// Prints the error `fault` of one policy, with the lines that explain it. Returns the exit status.
pub fn explain_error_of_side(
    rt: &HostRuntime,
    words: &ArgMatches<'_>,
    side: Side,
    files: &mut KeptDisk,
    fault: ToolFault,
) -> u8 {
    let file = words.get_str(side.file).unwrap_or("");
    let explanation = if are_errors_explained(rt, words)
        && let Ok(text) = explain_policy(rt, words.get_str(side.top), file, files)
    {
        text
    } else {
        Vec::new(rt.alloc())
    };
    let label = label_of_side(words, side);
    let trouble = match fault {
        ToolFault::Layer(LayerFault::Load(_) | LayerFault::NoMemory) => FileTrouble::from(fault),
        fault => FileTrouble::from_fault_in_file(rt.alloc(), file.as_bytes(), fault),
    };
    if is_json_asked(words) {
        let _ = print_document_of_side(rt, words, side, files, &trouble, label);
    }
    print_diff_error(rt, &trouble, label, explanation.as_slice())
}

/// Prints the document of the error `trouble` of one policy, with `label` before its text. `files` are those of the policy.
fn print_document_of_side(
    rt: &HostRuntime,
    words: &ArgMatches<'_>,
    side: Side,
    files: &mut KeptDisk,
    trouble: &FileTrouble,
    label: &[u8],
) -> Result<(), AllocError> {
    let file = words.get_str(side.file).unwrap_or("").as_bytes();
    let top = words.get_str(side.top);
    let fault = trouble.fault();
    let before = make_text_before_fault(rt.alloc(), label, file, fault)?;
    if !print_document_of_policy_fault(rt, words, top, file, files, fault, before.as_slice())? {
        print_document_of_trouble(rt, words, trouble, label)?;
    }
    Ok(())
}

/// Returns what is printed before the text of the error `fault` of the policy `file`: `label`, and the name of the policy unless the text has a
/// place.
fn make_text_before_fault(
    alloc: Global,
    label: &[u8],
    file: &[u8],
    fault: &ToolFault,
) -> Result<Vec<u8>, AllocError> {
    let mut text = Vec::from_slice(alloc, label)?;
    if !matches!(fault, ToolFault::Layer(LayerFault::Load(_))) {
        text.extend_from_slice(file)?;
        text.extend_from_slice(b": ")?;
    }
    Ok(text)
}

/// Prints the document of the error `trouble`, with `label` before its text, if `words` ask for documents.
fn print_document_if_asked(
    rt: &HostRuntime,
    words: &ArgMatches<'_>,
    trouble: &FileTrouble,
    label: &[u8],
) {
    if is_json_asked(words) {
        let _ = print_document_of_trouble(rt, words, trouble, label);
    }
}

/// Prints the error `trouble`, which is about neither policy. Returns the exit status.
pub fn print_trouble(rt: &HostRuntime, words: &ArgMatches<'_>, trouble: &FileTrouble) -> u8 {
    print_document_if_asked(rt, words, trouble, b"");
    print_diff_error(rt, trouble, b"", &[])
}

/// Returns the label of `side` if `words` name one file for both policies, and else nothing.
fn label_of_side(words: &ArgMatches<'_>, side: Side) -> &'static [u8] {
    if words.get_str(OLD) == words.get_str(NEW) {
        side.label
    } else {
        b""
    }
}

/// Prints why policies are not compared, with the lines that explain it. It is about `side`, if one is given. Returns the exit status.
pub fn explain_comparison_fault(
    rt: &HostRuntime,
    words: &ArgMatches<'_>,
    side: Option<Side>,
    fault: CompareFault,
) -> u8 {
    let explanation = if are_errors_explained(rt, words)
        && let Ok(text) = advice_of_comparison(rt.alloc(), fault, side)
    {
        text
    } else {
        Vec::new(rt.alloc())
    };
    let fault = fault_of_comparison(fault);
    match side {
        Some(side) => {
            let file = words.get_str(side.file).unwrap_or("");
            let trouble = FileTrouble::from_fault_in_file(rt.alloc(), file.as_bytes(), fault);
            let label = label_of_side(words, side);
            print_document_if_asked(rt, words, &trouble, label);
            print_diff_error(rt, &trouble, label, explanation.as_slice())
        }
        None => {
            let trouble = FileTrouble::from(fault);
            print_document_if_asked(rt, words, &trouble, b"");
            print_diff_error(rt, &trouble, b"", explanation.as_slice())
        }
    }
}

/// Returns the lines that explain why policies are not compared. That is about `side`, if one is given.
fn advice_of_comparison(
    alloc: Global,
    fault: CompareFault,
    side: Option<Side>,
) -> Result<Vec<u8>, AllocError> {
    let advice: &[u8] = match fault {
        CompareFault::Cycle => {
            b"an alias leads back to itself: `check` prints the aliases of the circle"
        }
        CompareFault::TooLarge if side.is_some() => {
            b"more than 65536 members come in the place of its aliases, or its Defaults have more than 16 MiB then"
        }
        CompareFault::TooLarge => b"the lines that differ have more than 16 MiB",
        CompareFault::NoMemory => return Ok(Vec::new(alloc)),
    };
    let mut text = Vec::new(alloc);
    append_help(&mut text, &[advice])?;
    Ok(text)
}

/// Prints an error with `label` before it, and the lines `explanation`. Want of memory is about no policy, and has no label. Returns the exit
/// status.
fn print_diff_error(
    rt: &HostRuntime,
    trouble: &FileTrouble,
    label: &[u8],
    explanation: &[u8],
) -> u8 {
    let label: &[u8] = match trouble.fault() {
        ToolFault::Layer(LayerFault::NoMemory) => b"",
        _ => label,
    };
    if let Ok(text) = trouble.text(rt.alloc())
        && print_error_line(rt, &[label, text.as_slice()]).is_ok()
    {
        print_explanation(rt, explanation);
    }
    ERROR_STATUS
}
