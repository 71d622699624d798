//! What `convert` writes.

ghost use Rattle.std.specs.Io.KnownBytes.{Appends};
ghost use Rattle.std.specs.Prelude.{◌≡◌, IfOk, IfSome, IsOkAnd};
ghost use Rattle.sudoers_run.specs.Convert.{convert_output};

use std::alloc::Global;
use sudoers_files::Files;
use sudoers_run::{ConvertWords, Sink, ToolFault, run_convert};

/// Reads a policy file, and writes its rules in another form.
///
/// # Errors
///
/// Those of `run_convert`.
pub fn convert_policy<F: Files, W: Sink>(
    alloc: Global,
    files: &mut F,
    root: &[u8],
    words: &ConvertWords<'_>,
    writer: &mut W,
) -> Result<u8, ToolFault>
    ensures ok { IfOk result (λ status. (status ≡ 0) × IfSome (F.shelf files.old).files (λ known.
        IsOkAnd (convert_output words.now root.now known) (Appends (W.contents writer.old) (W.contents writer.new)))) }
{
    run_convert(alloc, files, root, words, writer)
}
