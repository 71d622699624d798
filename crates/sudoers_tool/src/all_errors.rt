//! All errors of a policy, for `check --all`.

use crate::explaining::{are_errors_explained, print_explanation};
use crate::files::KeptDisk;
use crate::terminal::open_standard_output;
use clap::{Arg, ArgAction, ArgMatches};
use std::alloc::{AllocError, Global};
use std::io::Write;
use sudoers_explain::{explain_load_faults, list_load_faults};
use sudoers_files::gather;
use sudoers_run::{LayerFault, ToolFault, fault_text};
use sudoers_tree::{LoadFault, NamedFile};

/// The option that asks for all errors.
const ALL: &str = "all";

/// How many errors of one policy are explained at most.
const MOST_EXPLAINED: usize = 64;

/// Returns the option that asks for all errors.
pub fn make_all_flag<'a>(alloc: Global) -> Arg<'a> {
    Arg::new(alloc, ALL)
        .long(ALL)
        .action(ArgAction::SetTrue)
        .help("Print the first error of each line of all files, not only the first of all")
}

/// Prints the errors of the policy `root`, if `words` ask for all of them and it has one. Returns whether it did.
/// `files` are those of the policy.
pub fn print_all_errors(
    rt: &HostRuntime,
    words: &ArgMatches<'_>,
    root: &str,
    files: &mut KeptDisk,
) -> Result<bool, ToolFault> {
    if !words.get_flag(ALL) {
        return Ok(false);
    }
    let alloc = rt.alloc();
    let found = gather(alloc, root.as_bytes(), files).map_err(LayerFault::from)?;
    let faults = list_load_faults(alloc, found.as_slice())?;
    if faults.is_empty() || words.get_flag("quiet") {
        return Ok(!faults.is_empty());
    }
    let explanation = if are_errors_explained(rt, words) {
        explain_first_faults(alloc, found.as_slice(), faults.as_slice())?
    } else {
        Vec::new(alloc)
    };
    let report = make_report_of_faults(alloc, faults)?;
    if open_standard_output(rt)
        .write_all(report.as_slice())
        .is_err()
    {
        return Err(ToolFault::Write);
    }
    print_explanation(rt, explanation.as_slice());
    Ok(true)
}

/// Returns a line for each error of `faults`.
fn make_report_of_faults(alloc: Global, faults: Vec<LoadFault>) -> Result<Vec<u8>, AllocError> {
    let mut report = Vec::new(alloc);
    for fault in faults {
        let text = fault_text(alloc, &ToolFault::Layer(LayerFault::from(fault)))?;
        report.extend_from_slice(text.as_slice())?;
        report.extend_from_slice(b"\n")?;
    }
    Ok(report)
}

/// Returns the lines that explain the first errors of `faults`, which the files `found` have, and how many are not explained.
fn explain_first_faults(
    alloc: Global,
    found: &[NamedFile],
    faults: &[LoadFault],
) -> Result<Vec<u8>, AllocError> {
    let mut explanation = explain_load_faults(alloc, found, faults, MOST_EXPLAINED)?;
    let more = faults.len().saturating_sub(MOST_EXPLAINED);
    if more > 0 {
        let note = format!(in alloc; "{more} more errors are not explained\n")?;
        explanation.extend_from_slice(note.as_bytes())?;
    }
    Ok(explanation)
}
