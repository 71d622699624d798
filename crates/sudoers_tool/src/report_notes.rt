//! Notes behind the report of `check`.

use crate::files::KeptDisk;
use crate::json_output::write_document;
use clap::ArgMatches;
use std::alloc::{AllocError, Global};
use sudoers_files::gather;
use sudoers_run::{LayerFault, ToolFault};
use sudoers_tree::{LoadFault, Policy};

/// Notes, one on a line.
#[derive(Drop)]
pub struct ReportNotes {
    pub text: Vec<u8>,
    /// Whether something is refused, or could not be looked at.
    pub is_refused: bool,
}

impl ReportNotes {
    /// Returns no notes.
    pub fn new(alloc: Global) -> ReportNotes {
        ReportNotes {
            text: Vec::new(alloc),
            is_refused: false,
        }
    }

    /// Prints the notes, unless `words` ask for no output.
    pub fn print(&self, rt: &HostRuntime, words: &ArgMatches<'_>) -> Result<(), ToolFault> {
        if self.text.is_empty() || words.get_flag("quiet") {
            return Ok(());
        }
        write_document(rt, self.text.as_slice())
    }

    /// Returns the exit status: 1 if `words` are strict and something is refused or could not be looked at.
    pub fn status_of_words(&self, words: &ArgMatches<'_>) -> u8 {
        if self.is_refused && words.get_flag("strict") {
            1
        } else {
            0
        }
    }
}

/// Returns the policy `root`, about which notes are made. `files` are those of the policy. Returns nothing if they are no policy: the report
/// prints why.
pub fn load_noted_policy(
    alloc: Global,
    root: &str,
    files: &mut KeptDisk,
) -> Result<Option<Policy>, ToolFault> {
    let found = gather(alloc, root.as_bytes(), files).map_err(LayerFault::from)?;
    match Policy::load(alloc, found.as_slice()) {
        Ok(policy) => Ok(Some(policy)),
        Err(LoadFault::NoMemory) => Err(ToolFault::from(AllocError)),
        Err(_) => Ok(None),
    }
}
