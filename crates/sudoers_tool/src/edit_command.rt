//! The subcommand `edit`: its command line, and its run.

use crate::also_option::{
    ALSO, add_also_files, make_also_option, print_files_not_included, trouble_of_gather_fault,
};
use crate::apply_command::UNDO_FILE;
use crate::explaining::add_error_options;
use crate::explaining_edits::EditExplanation;
use crate::file_trouble::FileTrouble;
use crate::files::{STDIN, TOP, open_disk_files, open_named_file};
use crate::files_within_byte_budget::FilesWithinByteBudget;
use crate::terminal::open_standard_output;
use crate::wish_options::{has_standard_input_twice, has_wishes};
use clap::{Arg, ArgMatches, Command};
use std::alloc::{AllocError, Global};
use std::io::{Read, Write};
use sudoers_files::gather;
use sudoers_run::{
    Counted, EditInputShape, INPUT_LIMIT, ToolFault, make_edit_output_of_files,
    read_all_within_limit, run_edit,
};
use sudoers_tree::NamedFile;

/// The name of the subcommand.
pub const EDIT: &str = "edit";

/// The two forms of the command line.
const USAGE: &str =
    "sudoers_tool edit [--undo <N>] [--redo <N>] [--explain | --plain] [--error-status <N>]\n       sudoers_tool edit [OPTIONS] --files <SCRIPT> <POLICY>";

/// The option that says how many edits to take back.
const UNDO: &str = "undo";

/// The option that says how many of these to make again.
const REDO: &str = "redo";

/// The option that names a script for the files of the disk.
pub const SCRIPT: &str = "SCRIPT";

/// The argument that names the policy.
pub const POLICY: &str = "POLICY";

/// Returns the command line of `edit`.
pub fn make_edit_subcommand<'a>(alloc: Global, top: Arg<'a>) -> Result<Command<'a>, AllocError> {
    let undo = make_number_option(alloc, UNDO).help(
        "After the script, take back up to N of its edits, the last first",
    );
    let redo = make_number_option(alloc, REDO).help("Then make up to N of these edits again");
    let command = Command::new(alloc, EDIT)
        .about(
            "Apply an edit script to a policy. Read SCRIPT, `%%`, POLICY on standard input; write UNDO, `%%`, POLICY. With --files, edit a policy with the files that it includes. UNDO fits that policy only. EDIT SCRIPTS of sudoers_tool(8) has the commands",
        )
        .override_usage(USAGE)
        .arg(undo)?
        .arg(redo)?
        .arg(make_files_option_naming_script(alloc)?)?
        .arg(make_also_option(alloc).requires_arg(SCRIPT)?)?
        .arg(top.requires_arg(SCRIPT)?)?;
    add_error_options(alloc, command)?.arg(make_policy_argument(alloc)?)
}

/// Returns the option `name`, whose value is a number of edits.
fn make_number_option<'a>(alloc: Global, name: &'a str) -> Arg<'a> {
    Arg::new(alloc, name)
        .long(name)
        .value_name("N")
        .value_parser(clap::value_parser!(u32))
}

/// Returns the option that names the script for the files of the disk.
fn make_files_option_naming_script<'a>(alloc: Global) -> Result<Arg<'a>, AllocError> {
    Arg::new(alloc, SCRIPT)
        .long("files")
        .help(
            "Apply SCRIPT, or `-` for standard input, to POLICY and the files that it includes, numbered as `show` has them; write UNDO and a bundle: each file behind a line `%% LENGTH NAME`",
        )
        .requires_arg(POLICY)
}

/// Returns the argument that names the policy. It takes further words, so that they get an error of their own.
fn make_policy_argument<'a>(alloc: Global) -> Result<Arg<'a>, AllocError> {
    Arg::new(alloc, POLICY)
        .num_args(1..)
        .help("With --files, the policy file, or `-` for standard input")
        .requires_arg(SCRIPT)
}

/// Returns what is wrong with the words of `edit`, `apply` or `plan`.
pub fn find_edit_usage_error(words: &ArgMatches<'_>) -> Option<&'static str> {
    if let Some(mistake) = find_usage_error_of_inputs(words) {
        return Some(mistake);
    }
    if words.get_str(UNDO_FILE) == Some("") {
        return Some("invalid value '' for '--undo-file <OUTPUT>': a file has a name");
    }
    if has_empty_word(words.get_strs(ALSO)) {
        return Some("invalid value '' for '--also <NAME>': a file has a name");
    }
    None
}

/// Returns what is wrong with the script, the wishes and the policy that `words` name.
fn find_usage_error_of_inputs(words: &ArgMatches<'_>) -> Option<&'static str> {
    if has_standard_input_twice(words) {
        return Some("standard input gives wishes once only");
    }
    let (script, files) = (words.get_str(SCRIPT), words.get_strs(POLICY));
    if has_wishes(words) && script.is_some() && files.is_some() {
        return Some("--wish takes the place of SCRIPT, so POLICY stands alone");
    }
    let Some(files) = files else {
        return if has_wishes(words) && script.is_none() {
            Some("the POLICY is missing")
        } else {
            None
        };
    };
    if files.len() > 1 {
        return Some(
            "--files takes one POLICY and finds the files that it includes; write `--also NAME` for a file that no line includes",
        );
    }
    if script == Some(STDIN) && files.first() == Some(&STDIN) {
        return Some("standard input cannot be both SCRIPT and POLICY");
    }
    None
}

/// Returns whether one of the words `words` is empty.
fn has_empty_word(words: Option<&[&str]>) -> bool {
    match words {
        Some(words) => words.iter().any(|word| word.is_empty()),
        None => false,
    }
}

/// Edits the files of the policy that `words` name, or the policy on standard input. Writes to standard output. Gives `explanation` what it
/// read, if it was not accepted.
pub fn edit_policy_or_stdin(
    rt: &HostRuntime,
    words: &ArgMatches<'_>,
    explanation: &mut EditExplanation,
) -> Result<u8, FileTrouble> {
    let (undo, redo) = (
        number_of_option_or_zero(words, UNDO),
        number_of_option_or_zero(words, REDO),
    );
    let Some(script) = words.get_str(SCRIPT) else {
        return Ok(apply_script_to_policy_both_from_stdin(rt, undo, redo, explanation)?);
    };
    let script = read_script_file(rt, script)?;
    let files = gather_files_to_edit(rt, words, script.len())?;
    let edited = match make_edit_output_of_files(
        rt.alloc(),
        script.as_slice(),
        EditInputShape::Bundle,
        files.as_slice(),
        undo,
        redo,
    ) {
        Ok(edited) => edited,
        Err(fault) => {
            explanation.explain_run(rt.alloc(), script.as_slice(), files.as_slice(), &fault);
            return Err(FileTrouble::from(fault));
        }
    };
    print_files_not_included(
        rt,
        words,
        policy_name_of_edit_words(words),
        edited.as_slice(),
    )?;
    match open_standard_output(rt).write_all(edited.as_slice()) {
        Ok(()) => Ok(0),
        Err(_) => Err(FileTrouble::from(ToolFault::Write)),
    }
}

/// Returns the number that `words` gives for the option `name`, or 0.
fn number_of_option_or_zero(words: &ArgMatches<'_>, name: &str) -> u32 {
    words.get_one::<u32>(name).unwrap_or(0)
}

/// Returns the name of the policy that `words` name. Where wishes stand for the script, it is the first word.
pub fn policy_name_of_edit_words<'a>(words: &ArgMatches<'a>) -> &'a str {
    match words.get_strs(POLICY) {
        Some([root, ..]) => *root,
        _ if has_wishes(words) => words.get_str(SCRIPT).unwrap_or(STDIN),
        _ => STDIN,
    }
}

/// Edits the policy that the standard input gives after its script, takes back up to `undo` edits and makes up to `redo` of these again.
/// Writes to standard output. Gives `explanation` what it read, if that was not accepted.
pub fn apply_script_to_policy_both_from_stdin(
    rt: &HostRuntime,
    undo: u32,
    redo: u32,
    explanation: &mut EditExplanation,
) -> Result<u8, ToolFault> {
    let mut writer = Counted::new(open_standard_output(rt));
    if !explanation.is_wanted() {
        let mut reader = Counted::new(rt.stdin());
        return run_edit(rt.alloc(), &mut reader, undo, redo, &mut writer);
    }
    let input = read_reader_within_input_limit(rt, rt.stdin())?;
    let mut reader = Counted::new(input.as_slice());
    let outcome = run_edit(rt.alloc(), &mut reader, undo, redo, &mut writer);
    if let Err(fault) = &outcome {
        explanation.explain_input(rt.alloc(), input.as_slice(), fault);
    }
    outcome
}

/// Returns the bytes of the script `script`.
pub fn read_script_file(rt: &HostRuntime, script: &str) -> Result<Vec<u8>, FileTrouble> {
    let read = if script == STDIN {
        read_reader_within_input_limit(rt, rt.stdin())
    } else {
        match open_named_file(rt, script) {
            Ok(file) => read_reader_within_input_limit(rt, file),
            Err(fault) => Err(fault),
        }
    };
    let (alloc, script) = (rt.alloc(), script.as_bytes());
    match read {
        Ok(bytes) => Ok(bytes),
        Err(ToolFault::Read) => Err(FileTrouble::from_fault_in_file(
            alloc,
            script,
            ToolFault::Read,
        )),
        Err(ToolFault::NoEnd) => Err(FileTrouble::from_fault_in_file(
            alloc,
            script,
            ToolFault::NoEnd,
        )),
        Err(fault) => Err(FileTrouble::from(fault)),
    }
}

/// Returns all that `reader` gives.
fn read_reader_within_input_limit<R: Read + Drop>(
    rt: &HostRuntime,
    reader: R,
) -> Result<Vec<u8>, ToolFault> {
    read_all_within_limit(rt.alloc(), &mut Counted::new(reader), INPUT_LIMIT)
}

/// Returns the files of the policy that `words` name, in the order of `show`, and those of `--also`. `used` bytes of the input are read
/// already.
pub fn gather_files_to_edit(
    rt: &HostRuntime,
    words: &ArgMatches<'_>,
    used: usize,
) -> Result<Vec<NamedFile>, FileTrouble> {
    let alloc = rt.alloc();
    let root = policy_name_of_edit_words(words);
    let mut files = FilesWithinByteBudget::new(
        open_disk_files(rt, words.get_str(TOP), root)?,
        INPUT_LIMIT.saturating_sub(used),
    );
    let mut found = match gather(alloc, root.as_bytes(), &mut files) {
        Ok(found) => found,
        Err(fault) => return Err(trouble_of_gather_fault(alloc, &files, fault)),
    };
    if let Some(names) = words.get_strs(ALSO) {
        add_also_files(alloc, &mut files, names, &mut found)?;
    }
    check_bundle_file_names(alloc, found.as_slice())?;
    Ok(found)
}

/// Returns an error if a bundle cannot hold one of the names of the files `found`.
fn check_bundle_file_names(alloc: Global, found: &[NamedFile]) -> Result<(), FileTrouble> {
    for (number, file) in found.iter().enumerate() {
        let name = file.name.as_slice();
        if name.is_empty() || name.contains(&b'\n') {
            let fault = ToolFault::BadBundle { file: number + 1 };
            return Err(FileTrouble::from_fault_in_file(alloc, name, fault));
        }
    }
    Ok(())
}
