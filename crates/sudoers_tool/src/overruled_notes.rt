//! Notes about the commands that never decide, for `check --overruled`.

use crate::report_notes::ReportNotes;
use clap::{Arg, ArgAction, ArgMatches};
use std::alloc::Global;
use sudoers_cvt_rules::CvtFault;
use sudoers_match_list::AskFault;
use sudoers_review::{CompareFault, list_overruled_commands};
use sudoers_run::{LayerFault, ToolFault};
use sudoers_tree::Policy;

/// The option that asks for the notes.
const OVERRULED: &str = "overruled";

/// The exit status of an error of a command with this option.
pub const OVERRULED_ERROR_STATUS: u8 = 3;

/// Returns the option that asks for the commands that never decide.
pub fn make_overruled_flag<'a>(alloc: Global) -> Arg<'a> {
    Arg::new(alloc, OVERRULED)
        .long(OVERRULED)
        .action(ArgAction::SetTrue)
        .help(
            "After the report, list the commands that never decide, since a later rule overrules them",
        )
}

/// Returns whether `words` ask for the commands that never decide.
pub fn are_overruled_notes_asked(words: &ArgMatches<'_>) -> bool {
    words.get_flag(OVERRULED)
}

/// Returns why policies are not compared as an error of the program.
pub fn fault_of_comparison(fault: CompareFault) -> ToolFault {
    ToolFault::Layer(match fault {
        CompareFault::Cycle => LayerFault::from(AskFault::Cycle),
        CompareFault::TooLarge => LayerFault::from(CvtFault::TooLarge),
        CompareFault::NoMemory => LayerFault::NoMemory,
    })
}

/// Returns the notes about `policy`, if `words` ask for them. Without a policy there are none: the report prints the error.
pub fn find_overruled_notes(
    alloc: Global,
    words: &ArgMatches<'_>,
    policy: &Option<Policy>,
) -> Result<ReportNotes, ToolFault> {
    let mut notes = ReportNotes::new(alloc);
    if let Some(policy) = policy
        && are_overruled_notes_asked(words)
    {
        let found = list_overruled_commands(alloc, policy).map_err(fault_of_comparison)?;
        notes.text = found.text;
    }
    Ok(notes)
}
