//! What `show` writes.

ghost use Rattle.std.specs.Io.KnownBytes.{Appends};
ghost use Rattle.std.specs.Prelude.{◌≡◌, IfOk, IfSome, IsOkAnd};
ghost use Rattle.sudoers_run.specs.Writing.{IsWriterStateAfterCommand};
ghost use Rattle.sudoers_run.specs.Show.{show_output};

use std::alloc::Global;
use sudoers_files::Files;
use sudoers_run::{Sink, ToolFault, run_show};

/// Reads a policy file, and writes its lines with their numbers and kinds. Before an error it writes nothing.
///
/// # Errors
///
/// Those of `run_show`.
pub fn show_policy<F: Files, W: Sink>(
    alloc: Global,
    files: &mut F,
    root: &[u8],
    writer: &mut W,
) -> Result<u8, ToolFault>
    ensures ok { IfOk result (λ status. (status ≡ 0) × IfSome (F.shelf files.old).files (λ known.
        IsOkAnd (show_output root.now known) (Appends (W.contents writer.old) (W.contents writer.new)))) }
    ensures writes { IsWriterStateAfterCommand result (W.Sink.failures writer.old) (W.Sink.failures writer.new)
        (W.contents writer.old) (W.contents writer.new) }
{
    run_show(alloc, files, root, writer)
}
