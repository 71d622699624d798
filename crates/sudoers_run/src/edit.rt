//! `edit`: applying a script to a policy.
ghost use Rattle.std.specs.Prelude.{◌≡◌, ◌≢◌, ◌+◌, ◌<◌, ◌≤◌, ◌++◌, length, Ok, Err, IfOk, IfErr, IfSome, IsOkAnd, MatchResult, OnOk, ℕ, ◌⊎◌, min, ◌-◌, ◌^◌};
ghost use Rattle.std.specs.List.{flat_map};
ghost use Rattle.std.specs.Option.{option_map};
ghost use Rattle.std.specs.Io.KnownBytes.{Keeps, Appends};
ghost use Rattle.sudoers_tree.specs.Load.{single_file_named_policy as the_one_file};
ghost use Rattle.sudoers_edit.specs.Named.{HaveSpellableNames};
ghost use Rattle.sudoers_files.specs.Device.{AppendsPrefixOfBytes};
ghost use Rattle.sudoers_run.specs.Writing.{IsWriterStateAfterCommand};
ghost use Rattle.sudoers_files.specs.Reading.{IsMeterAfterReadingUpToLimit};
ghost use Rattle.sudoers_run.specs.Reading.{reading_end_of_result};
ghost use Rattle.sudoers_run.specs.Edit.{files_of_text_in_shape as the_files_given, files_in_given_shape, is_bundle_header_line as is_header_line, is_end_mark_line as is_mark_text, script_shape_and_policy_text, edit_output_of_files as output_of_edit, edit_output_after_undo_redo, edit_output_of_input, inverse_and_files_text, edit_input_limit, IsStatedLayerFaultOrMemory, IsStatedOrOutsideEditFault, IsFaultOfInputAfterReading, IsEditFault, IsScriptFilesOrEditFault};

use crate::fault::{LayerFault, ToolFault};
use crate::input::read_all_within_limit;
use crate::input_shape::EditInputShape;
use crate::loading::load_gathered_files;
use crate::output::write_all_to_sink;
use crate::undo_and_redo::{redo_up_to, undo_up_to};
use std::alloc::{AllocError, Global};
use sudoers_bundle::{append_bundle, read_bundle};
use sudoers_edit::{Edit, Editor, Edits, first_physical_line_len, read_script, write_script};
use sudoers_files::{Sink, Source};
use sudoers_text::ends_in_lf;
use sudoers_tree::{Items, NamedFile, Policy};

/// How many bytes `edit` reads at most.
pub const INPUT_LIMIT: usize = 4_000_000;

/// The line between the script and the text of one file.
const MARK: &[u8] = b"%%\n";

/// What the first line of a bundle begins with.
const HEADER: &[u8] = b"%% ";

/// The name of a file that is given alone.
const ALONE: &[u8] = b"policy";

/// Reads a script and a policy: the mark and the text of one file, or a bundle. Makes the edits. Then takes back up to `undo` of them, the
/// last first, and makes up to `redo` of these again. Writes the script that takes back the edits that stand then, and the policy to which
/// they lead, in the shape in which it was read.
///
/// # Errors
///
/// [`ToolFault`]: of reading, then of the input, in the order mark, bundle, script, policy, edits, inverse; then of writing.
/// Nothing is written before a fault other than `Write`.
pub fn run_edit<R: Source, W: Sink>(
    alloc: Global,
    reader: &mut R,
    undo: u32,
    redo: u32,
    writer: &mut W,
) -> Result<u8, ToolFault>
    // Status 0, and what is written is the stated function of what is read.
    ensures ok { IfOk result (λ status. (status ≡ 0) × IfSome (R.meter reader.old).remaining (λ input.
        IsOkAnd (edit_output_of_input undo redo input) (Appends (W.contents writer.old) (W.contents writer.new)))) }
    // A fault of the input is the stated one.
    ensures fault { IfErr result (λ fault. IfSome (R.meter reader.old).remaining (IsStatedOrOutsideEditFault undo redo fault)) }
    // There are no other faults.
    ensures named { IfErr result IsEditFault }
    // After `Write`, what was written is a beginning of the output.
    ensures front { result ≡ Err ToolFault.Write → IfSome (R.meter reader.old).remaining (λ input.
        IsOkAnd (edit_output_of_input undo redo input) (AppendsPrefixOfBytes (W.contents writer.old) (W.contents writer.new))) }
    // How the input was read, and that nothing is written before a fault, as the counts of the devices show.
    ensures reads { IsMeterAfterReadingUpToLimit edit_input_limit (reading_end_of_result result) (R.meter reader.old) (R.meter reader.new) }
    ensures writes { IsWriterStateAfterCommand result (W.Sink.failures writer.old) (W.Sink.failures writer.new)
        (W.contents writer.old) (W.contents writer.new) }
{
    let input = read_all_within_limit(alloc, reader, INPUT_LIMIT)?;
    let output = edit_input(alloc, input.as_slice(), undo, redo)?;
    write_all_to_sink(writer, output.as_slice())?;
    Ok(0)
}

/// Returns what is written for the input `input`, which is within the limit, if up to `undo` edits are taken back and up to `redo` of
/// these made again.
fn edit_input(alloc: Global, input: &[u8], undo: u32, redo: u32) -> Result<Vec<u8>, ToolFault>
    requires { length input.now ≤ edit_input_limit }
    ensures ok { IfOk result (λ out. edit_output_of_input undo redo input.now ≡ Ok out.items) }
    ensures fault { IfErr result (λ fault. IsStatedOrOutsideEditFault undo redo fault input.now × IsFaultOfInputAfterReading fault) }
{
    let Some((script, shape, text)) = split_script_shape_and_policy(input) else {
        return Err(ToolFault::NoMark);
    };
    let files = read_files_of_text_in_shape(alloc, shape, text)?;
    let out = make_edit_output_of_files(alloc, script, shape, files.as_slice(), undo, redo)?;
    Ok(out)
}

/// Returns the script before the first line of `input` that is the mark or a header, the shape in which the policy is given, and its text.
/// Returns nothing if there is no such line.
pub fn split_script_shape_and_policy(input: &[u8]) -> Option<(&[u8], EditInputShape, &[u8])>
    ensures { option_map (λ parts. (parts.0.now, parts.1, parts.2.now)) result ≡ script_shape_and_policy_text input.now }
{
    let mut at = 0;
    while at < input.len() {
        let rest = &input[at..];
        let (line, after) = rest.split_at(first_physical_line_len(rest));
        if is_script_end_mark(line) {
            return Some((&input[..at], EditInputShape::OneText, after));
        }
        if is_bundle_header(line) {
            return Some((&input[..at], EditInputShape::Bundle, rest));
        }
        at += line.len();
    }
    None
}

/// Returns whether the line `line` is the header of a file.
fn is_bundle_header(line: &[u8]) -> bool
    ensures { result ≡ is_header_line line.now }
{
    line.starts_with(HEADER) && ends_in_lf(line)
}

/// Returns the files that are given in the shape `shape` by the text `text`.
pub fn read_files_of_text_in_shape(
    alloc: Global,
    shape: EditInputShape,
    text: &[u8],
) -> Result<Vec<NamedFile>, ToolFault>
    ensures ok { IfOk result (λ files. the_files_given shape text.now ≡ Ok files.items) }
    ensures fault { IfErr result (λ fault. (fault ≡ ToolFault.Layer LayerFault.NoMemory)
        ⊎ ((file : ℕ) × (fault ≡ ToolFault.BadBundle file) × (the_files_given shape text.now ≡ Err fault))) }
{
    match shape {
        EditInputShape::OneText => Ok(make_single_file_list(alloc, text)?),
        EditInputShape::Bundle => Ok(read_bundle(alloc, text)?),
    }
}

/// Returns the list of the file `policy`, which has the bytes `text`.
fn make_single_file_list(alloc: Global, text: &[u8]) -> Result<Vec<NamedFile>, AllocError>
    ensures { IfOk result (λ files. files.items ≡ the_one_file text.now) }
{
    let mut files = Vec::with_capacity(alloc, 1)?;
    files.push(NamedFile {
        name: Items::from_slice(alloc, ALONE)?,
        bytes: Items::from_slice(alloc, text)?,
    })?;
    Ok(files)
}

/// Returns whether the line `line` is the mark.
fn is_script_end_mark(line: &[u8]) -> bool
    ensures { result ≡ is_mark_text line.now }
{
    match line {
        [a, b, c] => *a == b'%' && *b == b'%' && *c == b'\n',
        _ => false,
    }
}

/// Applies the script `script` to the policy of the files `files`. Then takes back up to `undo` of its edits, the last first, and makes
/// up to `redo` of these again. Returns the script that takes back the edits that stand then, and after it the files in the shape `shape`.
/// [`run_edit`] and the files of a disk both come to this.
///
/// # Errors
///
/// [`LayerFault`]: of the script, then of the policy, the edits and the inverse; or of memory.
pub fn make_edit_output_of_files(
    alloc: Global,
    script: &[u8],
    shape: EditInputShape,
    files: &[NamedFile],
    undo: u32,
    redo: u32,
) -> Result<Vec<u8>, LayerFault>
    ensures output { MatchResult result (λ out. output_of_edit shape undo redo script.now files.now ≡ Ok out.items)
        (λ fault. IsStatedLayerFaultOrMemory fault (output_of_edit shape undo redo script.now files.now)) }
    ensures named { IfErr result IsScriptFilesOrEditFault }
{
    let edits = read_script(alloc, script)?;
    let policy = load_gathered_files(alloc, files)??;
    make_edit_output_after_undo_redo(alloc, shape, edits.as_slice(), policy, undo, redo)
}

/// Applies `edits` to `policy`, takes back up to `undo` of them, and makes up to `redo` of these again. Returns the inverse script of
/// the edits that then stand, and the edited policy.
fn make_edit_output_after_undo_redo(
    alloc: Global,
    shape: EditInputShape,
    edits: &[Edit],
    policy: Policy,
    undo: u32,
    redo: u32,
) -> Result<Vec<u8>, LayerFault>
    requires { HaveSpellableNames edits.now }
    ensures output { MatchResult result (λ out. edit_output_after_undo_redo shape undo redo edits.now policy ≡ Ok out.items)
        (λ fault. IsStatedLayerFaultOrMemory fault (edit_output_after_undo_redo shape undo redo edits.now policy)) }
    ensures named { IfErr result IsScriptFilesOrEditFault }
{
    let mut editor = Editor::new(policy);
    editor.apply_all(edits)?;
    undo_up_to(&mut editor, undo)?;
    redo_up_to(&mut editor, redo)?;
    let inverse = editor.inverse()?;
    make_edit_output(alloc, shape, &inverse, editor.policy())
}

/// Returns the script of `inverse`, and the files of `policy` in the shape `shape`.
fn make_edit_output(
    alloc: Global,
    shape: EditInputShape,
    inverse: &Edits,
    policy: &Policy,
) -> Result<Vec<u8>, LayerFault>
    requires { HaveSpellableNames inverse.now }
    ensures output { MatchResult result (λ out. inverse_and_files_text shape inverse.now policy.now ≡ Ok out.items)
        (λ fault. IsStatedLayerFaultOrMemory fault (inverse_and_files_text shape inverse.now policy.now)) }
    ensures named { IfErr result IsScriptFilesOrEditFault }
{
    let mut out = write_script(alloc, inverse.as_slice())?;
    let files = policy.copy_named_files()?;
    append_files_in_shape(alloc, &mut out, shape, files.as_slice())?;
    Ok(out)
}

/// Appends the files `files` in the shape `shape`.
fn append_files_in_shape(
    alloc: Global,
    out: &mut Vec<u8>,
    shape: EditInputShape,
    files: &[NamedFile],
) -> Result<(), AllocError>
    ensures { OnOk result (out.new.items ≡ out.old.items ++ files_in_given_shape shape files.now) }
{
    match shape {
        EditInputShape::OneText => {
            out.extend_from_slice(MARK)?;
            append_bytes_of_all_files(out, files)
        }
        EditInputShape::Bundle => append_bundle(alloc, out, files),
    }
}

/// Appends the bytes of the files `files`.
fn append_bytes_of_all_files(out: &mut Vec<u8>, files: &[NamedFile]) -> Result<(), AllocError>
    ensures { OnOk result (out.new.items ≡ out.old.items ++ flat_map (λ file. file.bytes) files.now) }
{
    for file in files {
        out.extend_from_slice(file.bytes.as_slice())?;
    }
    Ok(())
}
