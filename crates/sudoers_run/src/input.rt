//! Reading an input whole.
ghost use Rattle.std.specs.Prelude.{◌≡◌, ◌+◌, ◌<◌, ◌≤◌, length, IfOk, IfErr, MatchResult, min, ◌-◌, ◌^◌};
ghost use Rattle.sudoers_run.specs.Edit.{edit_input_limit};
ghost use Rattle.sudoers_files.specs.Reading.{IsReadToEndOrBytePastLimit, IsTextOfReader, IsMeterAfterReadingUpToLimit};
ghost use Rattle.sudoers_run.specs.Reading.{IsFaultOfReadingUpToLimit, IsFaultOfReadingWholeInput, reading_end_of_read_bytes, reading_end_of_result};

use crate::fault::{LayerFault, ToolFault};
use std::alloc::Global;
use sudoers_files::{FileFault, Source, read_to_end_or_byte_past_limit};

/// Reads all that `reader` gives, and returns it. With the first byte past `limit` bytes the input is too large.
///
/// # Errors
///
/// Of reading, an input that is too large, and want of memory.
pub fn read_all_within_limit<R: Source>(
    alloc: Global,
    reader: &mut R,
    limit: usize,
) -> Result<Vec<u8>, ToolFault>
    requires { limit ≤ edit_input_limit }
    ensures all { IfOk result (λ input. (length input.items ≤ limit) × IsTextOfReader (R.meter reader.old) input.items) }
    ensures faults { IfErr result IsFaultOfReadingWholeInput }
    ensures reads { IsMeterAfterReadingUpToLimit limit (reading_end_of_result result) (R.meter reader.old) (R.meter reader.new) }
{
    let input = read_up_to_byte_past_limit(alloc, reader, limit)?;
    if input.len() > limit {
        return Err(ToolFault::InputTooLarge);
    }
    Ok(input)
}

/// Reads all that `reader` gives, but at most one byte past `limit` bytes, and returns it.
///
/// # Errors
///
/// Of reading, and want of memory.
pub fn read_up_to_byte_past_limit<R: Source>(
    alloc: Global,
    reader: &mut R,
    limit: usize,
) -> Result<Vec<u8>, ToolFault>
    requires { limit ≤ edit_input_limit }
    ensures front { IfOk result (λ front. IsReadToEndOrBytePastLimit limit (R.meter reader.old) (R.meter reader.new) front.items) }
    ensures faults { IfErr result IsFaultOfReadingUpToLimit }
    ensures reads { IsMeterAfterReadingUpToLimit limit (reading_end_of_read_bytes limit result) (R.meter reader.old) (R.meter reader.new) }
{
    match read_to_end_or_byte_past_limit(alloc, reader, limit) {
        Ok(front) => Ok(front),
        Err(FileFault::Failed) => Err(ToolFault::Read),
        Err(FileFault::NoEnd) => Err(ToolFault::NoEnd),
        Err(FileFault::NoMemory) => Err(ToolFault::Layer(LayerFault::NoMemory)),
    }
}
