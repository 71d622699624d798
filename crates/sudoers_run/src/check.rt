//! Checking a policy.
ghost use Rattle.std.specs.Prelude.{◌≡◌, ◌≢◌, ◌+◌, ◌<◌, ◌≤◌, ◌++◌, true, false, codes, length, List, Ok, Err, Some, IfOk, IfErr, IfSome, IsOkAnd, OnErr, OnOk, min, ◌-◌, ◌^◌};
ghost use Rattle.std.specs.Io.KnownBytes.{Keeps, Appends};
ghost use Rattle.sudoers_files.specs.Device.{AppendsPrefixOfBytes, IsCountHigherOrAtMaximum};
ghost use Rattle.sudoers_run.specs.Writing.{IsWriterStateAfterCommand};
ghost use Rattle.sudoers_tree.specs.declared.named_files.NamedFile.{NamedFile as NamedFileOf};
ghost use Rattle.sudoers_tree.specs.Load.{policy_or_load_fault};
ghost use Rattle.sudoers_run.specs.Policy.{IsLayerFaultOfDeviceOrMemory, CommandLeavesFilesUnchanged};
ghost use Rattle.sudoers_run.specs.FaultText.{load_fault_message};
ghost use Rattle.sudoers_run.specs.Check.{check_report_text as text_of_check, check_exit_status, check_output, check_text_of_found, unread_line_unless_found, check_status_from_root, policy_if_loaded_from_root, text_unless_quiet, not_read_line, unread_lines_text, unread_reason_of_name, IsCheckFault, IsStatedOrOutsideCheckFault};
ghost use Rattle.sudoers_run.specs.Edit.{layer_result_with_tool_fault};

use crate::command_words::CheckWords;
use crate::fault::{LayerFault, ToolFault};
use crate::fault_texts::make_load_fault_text;
use crate::loading::{gather_policy_files, load_gathered_files};
use crate::output::{OutputTextAndStatus, write_all_to_sink};
use std::alloc::{AllocError, Global};
use sudoers_check::{check, report_text};
use sudoers_files::{
    Files, MissingFolderOrSkippedFile, Sink, find_missing_folders_and_skipped_files,
};
use sudoers_tree::{
    LoadFault, NamedFile, Policy, base_name_of_path, has_file_named, is_included_base_name,
};

/// The exit status of a policy that was checked, and the policy. Files that are no policy have none.
#[derive(Drop)]
pub struct CheckedPolicy {
    pub status: u8,
    pub policy: Option<Policy>,
}

/// Reads the policy `root` with the files that it includes, and writes the notes on its aliases. If the files are no policy, writes the
/// first fault instead. Returns status 0 if the policy passes, and else 1 (visudo(8)). `words` has the options.
///
/// # Errors
///
/// [`ToolFault`]: of gathering the files, then of memory, then of reading an included folder again for what is not read there, then of writing.
/// Nothing is written before a fault other than `Write`.
pub fn run_check<F: Files, W: Sink>(
    alloc: Global,
    files: &mut F,
    root: &[u8],
    words: &CheckWords,
    writer: &mut W,
) -> Result<u8, ToolFault>
    // The status and what is written are the stated functions of the files.
    ensures status { IfOk result (λ status. IfSome (F.shelf files.old).files (λ known. check_status_from_root words.now.strict root.now known ≡ Ok status)) }
    ensures ok { IfOk result (λ status. IfSome (F.shelf files.old).files (λ known.
        IsOkAnd (check_output words.now root.now known) (Appends (W.contents writer.old) (W.contents writer.new)))) }
    // A fault of gathering the files is the stated one.
    ensures fault { IfErr result (λ fault. IfSome (F.shelf files.old).files (IsStatedOrOutsideCheckFault words.now.strict root.now fault)) }
    // There are no other faults.
    ensures named { IfErr result IsCheckFault }
    // After `Write`, what was written is a beginning of the output.
    ensures front { result ≡ Err ToolFault.Write → IfSome (F.shelf files.old).files (λ known.
        IsOkAnd (check_output words.now root.now known) (AppendsPrefixOfBytes (W.contents writer.old) (W.contents writer.new))) }
    // What the counts of the files show, and that nothing is written before a fault, as the counts of the writer show.
    ensures searches { CommandLeavesFilesUnchanged result (F.shelf files.old) (F.shelf files.new) }
    ensures writes { IsWriterStateAfterCommand result (W.Sink.failures writer.old) (W.Sink.failures writer.new)
        (W.contents writer.old) (W.contents writer.new) }
    ensures statuses { IfOk result (λ status. status ≤ 1) }
    // With `quiet`, nothing is written.
    ensures silent { words.now.quiet ≡ true → (result ≢ Err ToolFault.Write) × Keeps (W.contents writer.old) (W.contents writer.new) }
{
    Ok(run_check_and_keep_policy(alloc, files, root, words, writer)?.status)
}

/// Does what `run_check` does, and returns the policy too.
///
/// # Errors
///
/// Those of `run_check`.
pub fn run_check_and_keep_policy<F: Files, W: Sink>(
    alloc: Global,
    files: &mut F,
    root: &[u8],
    words: &CheckWords,
    writer: &mut W,
) -> Result<CheckedPolicy, ToolFault>
    // The status and what is written are the stated functions of the files.
    ensures status { IfOk result (λ checked. IfSome (F.shelf files.old).files (λ known. check_status_from_root words.now.strict root.now known ≡ Ok checked.status)) }
    ensures ok { IfOk result (λ checked. IfSome (F.shelf files.old).files (λ known.
        IsOkAnd (check_output words.now root.now known) (Appends (W.contents writer.old) (W.contents writer.new)))) }
    // A fault of gathering the files is the stated one.
    ensures fault { IfErr result (λ fault. IfSome (F.shelf files.old).files (IsStatedOrOutsideCheckFault words.now.strict root.now fault)) }
    // There are no other faults.
    ensures named { IfErr result IsCheckFault }
    // After `Write`, what was written is a beginning of the output.
    ensures front { result ≡ Err ToolFault.Write → IfSome (F.shelf files.old).files (λ known.
        IsOkAnd (check_output words.now root.now known) (AppendsPrefixOfBytes (W.contents writer.old) (W.contents writer.new))) }
    // What the counts of the files show, and that nothing is written before a fault, as the counts of the writer show.
    ensures searches { CommandLeavesFilesUnchanged result (F.shelf files.old) (F.shelf files.new) }
    ensures writes { IsWriterStateAfterCommand result (W.Sink.failures writer.old) (W.Sink.failures writer.new)
        (W.contents writer.old) (W.contents writer.new) }
    ensures statuses { IfOk result (λ checked. checked.status ≤ 1) }
    // With `quiet`, nothing is written.
    ensures silent { words.now.quiet ≡ true → (result ≢ Err ToolFault.Write) × Keeps (W.contents writer.old) (W.contents writer.new) }
    // The policy is that of the files, if they are one.
    ensures policy { IfOk result (λ checked. IfSome (F.shelf files.old).files (λ known. policy_if_loaded_from_root root.now known ≡ Ok checked.policy)) }
{
    let found = gather_policy_files(alloc, files, root)?;
    let policy = load_gathered_files(alloc, found.as_slice())?;
    let output = check_gathered_files(alloc, files, found.as_slice(), &policy, words)?;
    write_to_sink_unless_quiet(writer, words.quiet, output.text.as_slice())?;
    Ok(CheckedPolicy {
        status: output.status,
        policy: policy.ok(),
    })
}

/// Writes `text`, or nothing if `quiet`.
fn write_to_sink_unless_quiet<W: Sink>(
    writer: &mut W,
    quiet: bool,
    text: &[u8],
) -> Result<(), ToolFault>
    ensures all { OnOk result (Appends (W.contents writer.old) (W.contents writer.new) (text_unless_quiet quiet text.now)) }
    ensures part { OnErr result (AppendsPrefixOfBytes (W.contents writer.old) (W.contents writer.new) (text_unless_quiet quiet text.now)) }
    ensures fault { IfErr result (λ fault. (fault ≡ ToolFault.Write) × (quiet ≡ false)
        × IsCountHigherOrAtMaximum (W.Sink.failures writer.old) (W.Sink.failures writer.new)) }
    ensures well { OnOk result (W.Sink.failures writer.new ≡ W.Sink.failures writer.old) }
    ensures silent { quiet ≡ true → Keeps (W.contents writer.old) (W.contents writer.new) }
{
    if quiet {
        return Ok(());
    }
    write_all_to_sink(writer, text)
}

/// Returns the text that is written for the files `found`, and the exit status. `policy` is their policy or their error.
fn check_gathered_files<F: Files>(
    alloc: Global,
    files: &mut F,
    found: &[NamedFile],
    policy: &Result<Policy, LoadFault>,
    words: &CheckWords,
) -> Result<OutputTextAndStatus, LayerFault>
    requires { policy_or_load_fault found.now ≡ policy.now }
    ensures text { IfOk result (λ output. IfSome (F.shelf files.old).files (λ known. output.text.items ≡ check_text_of_found words.now known found.now)) }
    ensures status { IfOk result (λ output. output.status ≡ check_exit_status words.now.strict (policy_or_load_fault found.now)) }
    ensures outside { IfErr result IsLayerFaultOfDeviceOrMemory }
    ensures searches { CommandLeavesFilesUnchanged (layer_result_with_tool_fault result) (F.shelf files.old) (F.shelf files.new) }
{
    let mut output = make_check_output(alloc, policy, words.strict)?;
    if words.skipped {
        let all = find_missing_folders_and_skipped_files(alloc, files, found)?;
        append_unread_lines(&mut output.text, found, all.as_slice())?;
    }
    Ok(output)
}

/// Appends to `out` a line for each folder or file of `all`, which was not read, unless it is among the files `found`.
fn append_unread_lines(
    out: &mut Vec<u8>,
    found: &[NamedFile],
    all: &[MissingFolderOrSkippedFile],
) -> Result<(), AllocError>
    ensures { OnOk result (out.new.items ≡ out.old.items ++ unread_lines_text found.now all.now) }
{
    for one in all {
        append_unread_file_line(out, found, one)?;
    }
    Ok(())
}

/// Appends to `out` the line for `one`, which was not read, unless it is among the files `found`.
fn append_unread_file_line(
    out: &mut Vec<u8>,
    found: &[NamedFile],
    one: &MissingFolderOrSkippedFile,
) -> Result<(), AllocError>
    ensures { OnOk result (out.new.items ≡ out.old.items ++ unread_line_unless_found found.now one.now) }
{
    match one {
        MissingFolderOrSkippedFile::Folder(dir) => append_not_read_reason(
            out,
            dir.as_slice(),
            b"no such folder",
        ),
        MissingFolderOrSkippedFile::File(name) if has_file_named(found, name.as_slice()) => Ok(()),
        MissingFolderOrSkippedFile::File(name) => append_not_read_reason(
            out,
            name.as_slice(),
            choose_unread_reason(name.as_slice()),
        ),
    }
}

/// Appends to `out` the line that says that the file or folder `name` is not read, and why.
fn append_not_read_reason(out: &mut Vec<u8>, name: &[u8], reason: &[u8]) -> Result<(), AllocError>
    ensures { OnOk result (out.new.items ≡ out.old.items ++ not_read_line name.now reason.now) }
{
    out.extend_from_slice(name)?;
    out.extend_from_slice(b": not read: ")?;
    out.extend_from_slice(reason)?;
    out.extend_from_slice(b"\n")
}

/// Returns why an include of its folder does not read the file `name`.
fn choose_unread_reason(name: &[u8]) -> &'static [u8]
    ensures { result.now ≡ unread_reason_of_name name.now }
{
    let base = base_name_of_path(name);
    if is_included_base_name(base) {
        b"no regular file"
    } else if base.contains(&b'.') {
        b"its name contains '.'"
    } else {
        b"its name ends in '~'"
    }
}

/// Returns the report on `policy`, or the text of its error, and the exit status.
fn make_check_output(
    alloc: Global,
    policy: &Result<Policy, LoadFault>,
    strict: bool,
) -> Result<OutputTextAndStatus, AllocError>
    ensures text { IfOk result (λ output. output.text.items ≡ text_of_check strict policy.now) }
    ensures status { IfOk result (λ output. output.status ≡ check_exit_status strict policy.now) }
{
    let policy = match policy {
        Ok(policy) => policy,
        Err(fault) => return make_load_fault_output(alloc, fault),
    };
    let report = check(alloc, policy)?;
    let text = report_text(alloc, policy, &report, strict)?;
    let status = if report.is_parsed_ok(strict) { 0 } else { 1 };
    Ok(OutputTextAndStatus { text, status })
}

/// Returns the text of `fault`, and status 1.
fn make_load_fault_output(
    alloc: Global,
    fault: &LoadFault,
) -> Result<OutputTextAndStatus, AllocError>
    ensures text { IfOk result (λ output. output.text.items ≡ load_fault_message fault.now ++ codes "\n") }
    ensures status { IfOk result (λ output. output.status ≡ 1) }
{
    let mut text = make_load_fault_text(alloc, fault)?;
    text.extend_from_slice(b"\n")?;
    Ok(OutputTextAndStatus { text, status: 1 })
}
