//! What `edit` writes.

ghost use Rattle.std.specs.Io.KnownBytes.{Appends};
ghost use Rattle.std.specs.Prelude.{◌≡◌, IfOk, IfSome, IsOkAnd};
ghost use Rattle.sudoers_run.specs.Edit.{edit_output_of_input};

use std::alloc::Global;
use sudoers_run::{Sink, Source, ToolFault, run_edit};

/// Reads a script and a policy, and writes the undo script and the edited policy.
///
/// # Errors
///
/// Those of `run_edit`.
pub fn edit_policy<R: Source, W: Sink>(
    alloc: Global,
    reader: &mut R,
    undo: u32,
    redo: u32,
    writer: &mut W,
) -> Result<u8, ToolFault>
    ensures ok { IfOk result (λ status. (status ≡ 0) × IfSome (R.meter reader.old).remaining (λ input.
        IsOkAnd (edit_output_of_input undo redo input) (Appends (W.contents writer.old) (W.contents writer.new)))) }
{
    run_edit(alloc, reader, undo, redo, writer)
}
