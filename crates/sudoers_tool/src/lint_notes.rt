//! Warnings about what a policy gives away, for `check --lint`.

use crate::overruled_notes::fault_of_comparison;
use crate::report_notes::ReportNotes;
use clap::{Arg, ArgAction, ArgMatches};
use std::alloc::Global;
use sudoers_lint::make_lint_text;
use sudoers_run::ToolFault;
use sudoers_tree::Policy;

/// The option that asks for the warnings.
const LINT: &str = "lint";

/// The exit status of an error of a command with this option.
pub const LINT_ERROR_STATUS: u8 = 3;

/// Returns the option that asks for warnings about what the policy gives away.
pub fn make_lint_flag<'a>(alloc: Global) -> Arg<'a> {
    Arg::new(alloc, LINT)
        .long(LINT)
        .action(ArgAction::SetTrue)
        .help(
            "After the report, warn of rules and Defaults that give away more than they seem to; with -s a warning is an error",
        )
}

/// Returns whether `words` ask for the warnings.
pub fn are_lint_notes_asked(words: &ArgMatches<'_>) -> bool {
    words.get_flag(LINT)
}

/// Returns the warnings about `policy`, if `words` ask for them. Without a policy there are none: the report prints the error.
pub fn find_lint_notes(
    alloc: Global,
    words: &ArgMatches<'_>,
    policy: &Option<Policy>,
) -> Result<ReportNotes, ToolFault> {
    let mut notes = ReportNotes::new(alloc);
    if let Some(policy) = policy
        && are_lint_notes_asked(words)
    {
        notes.text = make_lint_text(alloc, policy).map_err(fault_of_comparison)?;
        notes.is_refused = !notes.text.is_empty();
    }
    Ok(notes)
}
