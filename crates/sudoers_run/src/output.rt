//! Writing the output of a command.
ghost use Rattle.std.specs.Prelude.{◌≡◌, ◌+◌, ◌<◌, ◌≤◌, length, IfErr, OnOk, OnErr, min, ◌-◌, ◌^◌};
ghost use Rattle.std.specs.Io.KnownBytes.{Appends};
ghost use Rattle.sudoers_files.specs.Device.{IsCountHigherOrAtMaximum, AppendsPrefixOfBytes};

use crate::fault::ToolFault;
use sudoers_files::{DeviceFailed, Sink};

/// The output of a command, and its exit status.
#[derive(Drop)]
pub struct OutputTextAndStatus {
    pub text: Vec<u8>,
    pub status: u8,
}

/// Writes all bytes `bytes`.
///
/// # Errors
///
/// The writer failed; a beginning of `bytes` is written.
pub fn write_all_to_sink<W: Sink>(writer: &mut W, bytes: &[u8]) -> Result<(), ToolFault>
    ensures all { OnOk result (Appends (W.contents writer.old) (W.contents writer.new) bytes.now) }
    ensures part { OnErr result (AppendsPrefixOfBytes (W.contents writer.old) (W.contents writer.new) bytes.now) }
    ensures fault { IfErr result (λ fault. (fault ≡ ToolFault.Write)
        × IsCountHigherOrAtMaximum (W.Sink.failures writer.old) (W.Sink.failures writer.new)) }
    ensures well { OnOk result (W.Sink.failures writer.new ≡ W.Sink.failures writer.old) }
{
    let mut at = 0;
    while at < bytes.len() {
        match writer.push(&bytes[at..]) {
            Ok(n) => at += n,
            Err(DeviceFailed) => return Err(ToolFault::Write),
        }
    }
    Ok(())
}
