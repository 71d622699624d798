//! What the results of `list` say of its readers, and in which order it reads its files.

ghost use Rattle.sudoers_run.specs.List.{AreMetersAfterReadingPeopleFiles};

use std::alloc::Global;
use sudoers_files::Files;
use sudoers_run::{ListWords, Sink, Source, ToolFault, run_list};

/// Reads a policy, passwd and group in this order, each only after the one before it ended. `Read` means that a reader failed, and
/// `NoEnd` that one did not end.
///
/// # Errors
///
/// Those of `run_list`.
pub fn list_devices<F: Files, U: Source, G: Source, W: Sink>(
    alloc: Global,
    files: &mut F,
    root: &[u8],
    passwd: &mut U,
    group: &mut G,
    words: &ListWords<'_>,
    writer: &mut W,
) -> Result<u8, ToolFault>
    ensures reads { AreMetersAfterReadingPeopleFiles result (U.meter passwd.old) (U.meter passwd.new) (G.meter group.old) (G.meter group.new) }
{
    run_list(alloc, files, root, passwd, group, words, writer)
}
