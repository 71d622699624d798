//! What `check` writes.

ghost use Rattle.std.specs.Io.KnownBytes.{Appends, Keeps};
ghost use Rattle.std.specs.Prelude.{◌≡◌, ◌≢◌, true, Err, IfOk, IfSome, IsOkAnd};
ghost use Rattle.sudoers_run.specs.Check.{check_output};
ghost use Rattle.sudoers_run.specs.declared.fault.ToolFault.TheVariants as ToolFault;

use std::alloc::Global;
use sudoers_files::Files;
use sudoers_run::{CheckWords, Sink, ToolFault, run_check};

/// Reads a policy file, and writes what is noted of it, or nothing if `words` say so.
///
/// # Errors
///
/// Those of `run_check`.
pub fn check_quietly<F: Files, W: Sink>(
    alloc: Global,
    files: &mut F,
    root: &[u8],
    words: &CheckWords,
    writer: &mut W,
) -> Result<u8, ToolFault>
    ensures ok { IfOk result (λ status. IfSome (F.shelf files.old).files (λ known.
        IsOkAnd (check_output words.now root.now known) (Appends (W.contents writer.old) (W.contents writer.new)))) }
    ensures silent { words.now.quiet ≡ true → (result ≢ Err ToolFault.Write) × Keeps (W.contents writer.old) (W.contents writer.new) }
{
    run_check(alloc, files, root, words, writer)
}
