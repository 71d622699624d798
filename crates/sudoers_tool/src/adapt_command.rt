//! The subcommand `adapt`: its command line, and its run.

use crate::files::KeptDisk;
use crate::json_output::write_document;
use clap::{Arg, Command};
use std::alloc::{AllocError, Global};
use sudoers_dialect::{Dialect, make_adapted_output};
use sudoers_files::gather;
use sudoers_run::{LayerFault, ToolFault};
use sudoers_tree::Policy;

/// The command that prints a policy spelled so that both programs read it alike.
pub const ADAPT: &str = "adapt";

/// Returns the command line of `adapt`.
pub fn make_adapt_subcommand<'a>(
    alloc: Global,
    top: Arg<'a>,
    file: Arg<'a>,
) -> Result<Command<'a>, AllocError> {
    Command::new(alloc, ADAPT)
        .about(
            "Print the files of a policy that only sudo reads, with a backslash before each `=` among arguments and `( )` for `(:)`; of a policy of one file its text",
        )
        .arg(top)?
        .arg(file)
}

/// Prints the files of the policy `root` that change, spelled so that this toolkit and sudo read them alike. They have to be a policy then.
/// `files` keep what was read.
pub fn run_adapt_command(
    rt: &HostRuntime,
    root: &str,
    files: &mut KeptDisk,
) -> Result<u8, ToolFault> {
    let alloc = rt.alloc();
    let found = gather(alloc, root.as_bytes(), files).map_err(LayerFault::from)?;
    files.set_dialect(Dialect::Sudo);
    let adapted = gather(alloc, root.as_bytes(), files).map_err(LayerFault::from)?;
    Policy::load(alloc, adapted.as_slice()).map_err(LayerFault::from)?;
    let text = make_adapted_output(alloc, found.as_slice())?;
    write_document(rt, text.as_slice())?;
    Ok(0)
}
