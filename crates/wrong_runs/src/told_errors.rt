//! The error that a command returns, and the beginning of the output that a failed write leaves.

ghost use Rattle.std.specs.Prelude.{◌≡◌, ℕ, List, Ok, Err, IfErr, IfSome, IsOkAnd};
ghost use Rattle.sudoers_run.specs.Check.{check_output, IsCheckFault};
ghost use Rattle.sudoers_run.specs.Convert.{convert_output, IsStatedOrOutsideConvertFault};
ghost use Rattle.sudoers_files.specs.Device.{AppendsPrefixOfBytes};
ghost use Rattle.sudoers_run.specs.List.{HoldsOfPeopleTexts, IsListOutcome, IsStatedOrOutsideListFault};
ghost use Rattle.sudoers_run.specs.Edit.{edit_output_of_input, IsStatedOrOutsideEditFault};
ghost use Rattle.sudoers_run.specs.Show.{show_output, IsStatedOrOutsideShowFault};
ghost use Rattle.sudoers_run.specs.declared.fault.ToolFault.TheVariants as ToolFault;

use std::alloc::Global;
use sudoers_files::Files;
use sudoers_run::{
    CheckWords, ConvertWords, ListWords, Sink, Source, ToolFault, run_check, run_convert, run_edit,
    run_list, run_show,
};

/// Reads a policy file, and writes its lines.
///
/// # Errors
///
/// Those of `run_show`: the first fault of the file, or of a device. With `Write`, what is written is a beginning.
pub fn show_told_errors<F: Files, W: Sink>(
    alloc: Global,
    files: &mut F,
    root: &[u8],
    writer: &mut W,
) -> Result<u8, ToolFault>
    ensures fault { IfErr result (λ fault. IfSome (F.shelf files.old).files (IsStatedOrOutsideShowFault root.now fault)) }
    ensures front { result ≡ Err ToolFault.Write → IfSome (F.shelf files.old).files (λ known.
        IsOkAnd (show_output root.now known) (AppendsPrefixOfBytes (W.contents writer.old) (W.contents writer.new))) }
{
    run_show(alloc, files, root, writer)
}

/// Reads a script and a policy, and writes the undo script and the edited policy.
///
/// # Errors
///
/// Those of `run_edit`: the first fault of the input, or of a device. With `Write`, what is written is a beginning.
pub fn edit_told_errors<R: Source, W: Sink>(
    alloc: Global,
    reader: &mut R,
    undo: u32,
    redo: u32,
    writer: &mut W,
) -> Result<u8, ToolFault>
    ensures fault { IfErr result (λ fault. IfSome (R.meter reader.old).remaining (IsStatedOrOutsideEditFault undo redo fault)) }
    ensures front { result ≡ Err ToolFault.Write → IfSome (R.meter reader.old).remaining (λ input.
        IsOkAnd (edit_output_of_input undo redo input) (AppendsPrefixOfBytes (W.contents writer.old) (W.contents writer.new))) }
{
    run_edit(alloc, reader, undo, redo, writer)
}

/// Reads a policy file, and writes what is noted of it, also that it is no policy.
///
/// # Errors
///
/// Those of `run_check`: of the devices and of memory alone. With `Write`, what is written is a beginning.
pub fn check_told_errors<F: Files, W: Sink>(
    alloc: Global,
    files: &mut F,
    root: &[u8],
    words: &CheckWords,
    writer: &mut W,
) -> Result<u8, ToolFault>
    ensures named { IfErr result IsCheckFault }
    ensures front { result ≡ Err ToolFault.Write → IfSome (F.shelf files.old).files (λ known.
        IsOkAnd (check_output words.now root.now known) (AppendsPrefixOfBytes (W.contents writer.old) (W.contents writer.new))) }
{
    run_check(alloc, files, root, words, writer)
}

/// Reads a policy file, and writes its rules in another form.
///
/// # Errors
///
/// Those of `run_convert`: the first fault of the file, the filter or the rules, or of a device. With `Write`, what is
/// written is a beginning.
pub fn convert_told_errors<F: Files, W: Sink>(
    alloc: Global,
    files: &mut F,
    root: &[u8],
    words: &ConvertWords<'_>,
    writer: &mut W,
) -> Result<u8, ToolFault>
    ensures fault { IfErr result (λ fault. IfSome (F.shelf files.old).files (IsStatedOrOutsideConvertFault words.now root.now fault)) }
    ensures front { result ≡ Err ToolFault.Write → IfSome (F.shelf files.old).files (λ known.
        IsOkAnd (convert_output words.now root.now known) (AppendsPrefixOfBytes (W.contents writer.old) (W.contents writer.new))) }
{
    run_convert(alloc, files, root, words, writer)
}

/// Reads a policy, passwd and group, and writes what a user may run.
///
/// # Errors
///
/// Those of `run_list`: the first fault of the files or of the words, or of a device. With `Write`, what is written is a
/// beginning.
pub fn list_told_errors<F: Files, U: Source, G: Source, W: Sink>(
    alloc: Global,
    files: &mut F,
    root: &[u8],
    passwd: &mut U,
    group: &mut G,
    words: &ListWords<'_>,
    writer: &mut W,
) -> Result<u8, ToolFault>
    ensures fault { IfErr result (λ fault. IfSome (F.shelf files.old).files (λ known. HoldsOfPeopleTexts (U.meter passwd.old) (G.meter group.old) (IsStatedOrOutsideListFault words.now root.now known fault))) }
    ensures front { result ≡ Err ToolFault.Write → IfSome (F.shelf files.old).files (λ known. HoldsOfPeopleTexts (U.meter passwd.old) (G.meter group.old) (λ u g.
        (text : List ℕ) × ((status : ℕ) × IsListOutcome words.now root.now known u g (Ok (text, status))) × AppendsPrefixOfBytes (W.contents writer.old) (W.contents writer.new) text)) }
{
    run_list(alloc, files, root, passwd, group, words, writer)
}
