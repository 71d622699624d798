//! How a device that fails is reported.

ghost use Rattle.sudoers_run.specs.Policy.{CommandLeavesFilesUnchanged};

use std::alloc::Global;
use sudoers_files::Files;
use sudoers_run::{Sink, ToolFault, run_show};

/// Reads a policy, and writes its lines. `Device` means that a file or a folder could not be read.
///
/// # Errors
///
/// Those of `run_show`.
pub fn show_or_fail<F: Files, W: Sink>(
    alloc: Global,
    files: &mut F,
    root: &[u8],
    writer: &mut W,
) -> Result<u8, ToolFault>
    ensures searches { CommandLeavesFilesUnchanged result (F.shelf files.old) (F.shelf files.new) }
{
    run_show(alloc, files, root, writer)
}
