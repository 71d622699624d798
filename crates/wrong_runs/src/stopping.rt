//! Where reading stops.

ghost use Rattle.std.specs.Prelude.{◌<◌, ◌^◌, IfOk};
ghost use Rattle.sudoers_files.specs.Reading.{IsMeterAfterReadingUpToLimit, IsReadToEndOrBytePastLimit, reading_end_of_file_result};
ghost use Rattle.sudoers_run.specs.Edit.{edit_input_limit};
ghost use Rattle.sudoers_run.specs.Reading.{reading_end_of_result};

use std::alloc::Global;
use sudoers_files::{FileFault, read_to_end_or_byte_past_limit};
use sudoers_run::{Sink, Source, ToolFault, run_edit};

/// Reads a script and a policy, and writes the edited policy. `NoEnd` comes only from a reader that does not end.
///
/// # Errors
///
/// Those of `run_edit`.
pub fn edit_within_limit<R: Source, W: Sink>(
    alloc: Global,
    reader: &mut R,
    undo: u32,
    redo: u32,
    writer: &mut W,
) -> Result<u8, ToolFault>
    ensures reads { IsMeterAfterReadingUpToLimit edit_input_limit (reading_end_of_result result) (R.meter reader.old) (R.meter reader.new) }
{
    run_edit(alloc, reader, undo, redo, writer)
}

/// Reads all that `reader` gives, but at most one byte past `limit` bytes, and returns it.
///
/// # Errors
///
/// The reader failed or gave no end, or memory ran out.
pub fn read_front<R: Source>(
    alloc: Global,
    reader: &mut R,
    limit: usize,
) -> Result<Vec<u8>, FileFault>
    requires { limit < 2 ^ 63 }
    ensures front { IfOk result (λ front. IsReadToEndOrBytePastLimit limit (R.meter reader.old) (R.meter reader.new) front.items) }
    ensures reads { IsMeterAfterReadingUpToLimit limit (reading_end_of_file_result limit result) (R.meter reader.old) (R.meter reader.new) }
{
    read_to_end_or_byte_past_limit(alloc, reader, limit)
}
