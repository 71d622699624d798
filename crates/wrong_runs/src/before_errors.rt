//! What stands in the output before an error: nothing.

ghost use Rattle.sudoers_run.specs.Writing.{IsWriterStateAfterCommand};

use std::alloc::Global;
use sudoers_files::Files;
use sudoers_run::{
    CheckWords, ConvertWords, ListWords, Sink, Source, ToolFault, run_check, run_convert, run_edit,
    run_list,
};

/// Reads a script and a policy, and writes the edited policy. Before an error it writes nothing.
///
/// # Errors
///
/// Those of `run_edit`.
pub fn edit_before_errors<R: Source, W: Sink>(
    alloc: Global,
    reader: &mut R,
    undo: u32,
    redo: u32,
    writer: &mut W,
) -> Result<u8, ToolFault>
    ensures writes { IsWriterStateAfterCommand result (W.Sink.failures writer.old) (W.Sink.failures writer.new)
        (W.contents writer.old) (W.contents writer.new) }
{
    run_edit(alloc, reader, undo, redo, writer)
}

/// Reads a policy file, and writes what is noted of it. Before an error it writes nothing.
///
/// # Errors
///
/// Those of `run_check`.
pub fn check_before_errors<F: Files, W: Sink>(
    alloc: Global,
    files: &mut F,
    root: &[u8],
    words: &CheckWords,
    writer: &mut W,
) -> Result<u8, ToolFault>
    ensures writes { IsWriterStateAfterCommand result (W.Sink.failures writer.old) (W.Sink.failures writer.new)
        (W.contents writer.old) (W.contents writer.new) }
{
    run_check(alloc, files, root, words, writer)
}

/// Reads a policy file, and writes its rules in another form. Before an error it writes nothing.
///
/// # Errors
///
/// Those of `run_convert`.
pub fn convert_before_errors<F: Files, W: Sink>(
    alloc: Global,
    files: &mut F,
    root: &[u8],
    words: &ConvertWords<'_>,
    writer: &mut W,
) -> Result<u8, ToolFault>
    ensures writes { IsWriterStateAfterCommand result (W.Sink.failures writer.old) (W.Sink.failures writer.new)
        (W.contents writer.old) (W.contents writer.new) }
{
    run_convert(alloc, files, root, words, writer)
}

/// Reads a policy, passwd and group, and writes what a user may run. Before an error it writes nothing.
///
/// # Errors
///
/// Those of `run_list`.
pub fn list_before_errors<F: Files, U: Source, G: Source, W: Sink>(
    alloc: Global,
    files: &mut F,
    root: &[u8],
    passwd: &mut U,
    group: &mut G,
    words: &ListWords<'_>,
    writer: &mut W,
) -> Result<u8, ToolFault>
    ensures writes { IsWriterStateAfterCommand result (W.Sink.failures writer.old) (W.Sink.failures writer.new)
        (W.contents writer.old) (W.contents writer.new) }
{
    run_list(alloc, files, root, passwd, group, words, writer)
}
