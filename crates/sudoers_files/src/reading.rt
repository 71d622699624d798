//! Reading a file to its end, or to the first byte past a limit.

ghost use Rattle.std.specs.Prelude.{◌≡◌, ◌+◌, ◌<◌, ◌≤◌, ◌-◌, ◌^◌, length, min, IfOk};
ghost use Rattle.sudoers_files.specs.Reading.{IsMeterAfterReadingUpToLimit, IsReadToEndOrBytePastLimit, reading_end_of_file_result};

use crate::counting_devices::{DeviceFailed, PulledBytesOrInterrupted, Source};
use crate::fault::FileFault;
use std::alloc::Global;

/// How many reads one reader gets at most.
const PULL_LIMIT: usize = 4_194_304;

/// Reads all that `reader` gives, but at most one byte past `limit` bytes, and returns it.
///
/// # Errors
///
/// `Failed`: the reader failed. `NoEnd`: it was asked 4,194,304 times, and gave no end and no byte past `limit`. `NoMemory`: memory ran
/// out.
pub fn read_to_end_or_byte_past_limit<R: Source>(
    alloc: Global,
    reader: &mut R,
    limit: usize,
) -> Result<Vec<u8>, FileFault>
    requires { limit < 2 ^ 63 }
    ensures front { IfOk result (λ front. IsReadToEndOrBytePastLimit limit (R.meter reader.old) (R.meter reader.new) front.items) }
    ensures reads { IsMeterAfterReadingUpToLimit limit (reading_end_of_file_result limit result) (R.meter reader.old) (R.meter reader.new) }
{
    let mut input = Vec::new(alloc);
    let mut buffer = [0u8; 16_384];
    for pull in 0..PULL_LIMIT {
        // Only the proof uses this number.
        let _ = pull;
        let room = buffer.len().min(limit + 1 - input.len());
        let n = match reader.pull(&mut buffer[..room]) {
            Ok(PulledBytesOrInterrupted::Bytes(n)) => n,
            Ok(PulledBytesOrInterrupted::Interrupted) => continue,
            Err(DeviceFailed) => return Err(FileFault::Failed),
        };
        if n == 0 {
            return Ok(input);
        }
        input.extend_from_slice(&buffer[..n])?;
        if input.len() > limit {
            return Ok(input);
        }
    }
    Err(FileFault::NoEnd)
}
