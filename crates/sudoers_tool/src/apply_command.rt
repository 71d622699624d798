//! The subcommand `apply`: edits a policy, and puts the edited files in place.

use crate::also_option::{make_also_option, print_files_not_included};
use crate::changed_lines::append_changed_lines;
use crate::edit_command::{
    POLICY, SCRIPT, gather_files_to_edit, policy_name_of_edit_words, read_script_file,
};
use crate::explaining::{add_explaining_options, are_errors_explained};
use crate::explaining_edits::EditExplanation;
use crate::file_trouble::FileTrouble;
use crate::files::STDIN;
use crate::machine::read_moment;
use crate::new_faults::find_new_alias_fault;
use crate::place_command::{
    print_place_error_and_get_status, put_output_in_place, read_files_of_output,
};
use crate::place_trouble::{PlaceError, make_place_error};
use crate::placed_files::is_read_by_include_line;
use crate::placed_paths::make_error_of_file;
use crate::plan_command::{make_planned_script, print_notes, print_wish_error_and_get_status};
use crate::terminal::{open_standard_output, print_error_line};
use crate::wish_options::{
    GivenWishes, WISH, add_wish_options, has_wishes, make_wish_option, read_given_wishes,
};
use clap::{Arg, ArgAction, ArgMatches, Command};
use std::alloc::{AllocError, Global};
use std::fs::OpenOptions;
use std::io::Write;
use std::os::unix::fs::OpenOptionsExt;
use std::{fs, io};
use sudoers_run::{EditInputShape, OutputFiles, ToolFault, make_edit_output_of_files};
use sudoers_tree::NamedFile;

/// The name of the subcommand.
pub const APPLY: &str = "apply";

/// The option that names the output.
pub const UNDO_FILE: &str = "OUTPUT";

/// What is said of an output that the command line does not name.
const WAY_BACK: &[u8] = b": `place --undo` takes the edits back with this file";

/// The flag that accepts undefined and cyclic aliases.
const ALLOW_UNDEFINED: &str = "allow-undefined";

/// The flag that asks for the changed lines alone.
const DRY_RUN: &str = "dry-run";

/// The two forms of the command line.
const USAGE: &str =
    "sudoers_tool apply [OPTIONS] <SCRIPT> <POLICY>\n       sudoers_tool apply [OPTIONS] --wish <WISH>... <POLICY>";

/// How the command line of `apply` gives a wish.
const WISH_OF_APPLY: &str = "--wish <WISH>";

/// The mode of a new output.
const MODE_OF_OUTPUT: u32 = 0o600;

/// What help prints last.
const EXIT_STATUS: &str =
    "Exit status: 0 the files are in place; 2 a wrong command line; 3 an error. See sudoers_tool(8).";

/// Returns the command line of `apply`.
pub fn make_apply_subcommand<'a>(alloc: Global, top: Arg<'a>) -> Result<Command<'a>, AllocError> {
    let undo_file = Arg::new(alloc, UNDO_FILE).long("undo-file").help(
        "New file for what `edit --files` prints, with which `place --undo` puts the files back; without it the last part of the name of POLICY, `.undo-` and the moment, in the current folder",
    );
    let allow = Arg::new(alloc, ALLOW_UNDEFINED)
        .long(ALLOW_UNDEFINED)
        .action(ArgAction::SetTrue)
        .help("Accept edits that bring an undefined or a cyclic alias");
    let dry_run = Arg::new(alloc, DRY_RUN)
        .long(DRY_RUN)
        .action(ArgAction::SetTrue)
        .help("Print the changed lines of each file, and put nothing in place");
    let command = Command::new(alloc, APPLY)
        .about(
            "Apply an edit script, or the one that makes wishes true, to a policy with the files that it includes, and put the edited files in place, all or none: `edit --files` or `plan`, and `place` in one call",
        )
        .override_usage(USAGE)
        .after_help(EXIT_STATUS)
        .arg(undo_file)?
        .arg(allow)?
        .arg(dry_run)?
        .arg(make_also_option(alloc))?
        .arg(top)?
        .arg(make_wish_option(alloc))?;
    let command = add_arguments(alloc, add_wish_options(alloc, command)?)?;
    add_explaining_options(alloc, command)
}

/// Adds to `command` the arguments that name the script and the policy. With wishes there is one, which names the policy.
fn add_arguments<'a>(alloc: Global, command: Command<'a>) -> Result<Command<'a>, AllocError> {
    let script = Arg::new(alloc, SCRIPT).required_unless_present(WISH)?.help(
        "Edit script, or `-` for standard input; with --wish there is none",
    );
    let policy = Arg::new(alloc, POLICY)
        .required_unless_present(WISH)?
        .help("Policy file");
    command.arg(script)?.arg(policy)
}

/// Applies the script or the wishes that `words` name to their policy, and puts the edited files in place. Prints an error. Returns the exit
/// status.
pub fn run_apply_command(rt: &HostRuntime, words: &ArgMatches<'_>) -> u8 {
    let given = match read_given_wishes(rt, words) {
        Ok(given) => given,
        Err(error) => return print_wish_error_and_get_status(rt, APPLY, WISH_OF_APPLY, &error),
    };
    let mut explanation = EditExplanation::new(rt.alloc(), are_errors_explained(rt, words));
    match apply_script_or_wishes(rt, words, &given, &mut explanation) {
        Ok(()) => 0,
        Err(error) => print_edit_error_and_get_status(rt, words, error, &mut explanation),
    }
}

/// Prints the error `error` of the words `words`, with the lines of `explanation`, and returns the exit status.
pub fn print_edit_error_and_get_status(
    rt: &HostRuntime,
    words: &ArgMatches<'_>,
    error: PlaceError,
    explanation: &mut EditExplanation,
) -> u8 {
    let error = match error {
        PlaceError::Output(trouble) => {
            let outcome = Err(trouble);
            explanation.explain_outcome(rt, Some(words), &outcome);
            match outcome {
                Ok(_) => return 0,
                Err(trouble) => PlaceError::Output(trouble),
            }
        }
        error => error,
    };
    print_place_error_and_get_status(rt, words, Err(error), explanation.lines())
}

/// Applies the script or the wishes that `words` name to their policy, and puts the edited files in place.
fn apply_script_or_wishes(
    rt: &HostRuntime,
    words: &ArgMatches<'_>,
    given: &GivenWishes,
    explanation: &mut EditExplanation,
) -> Result<(), PlaceError> {
    let policy = policy_name_of_edit_words(words);
    check_policy_name(rt.alloc(), policy)?;
    if !has_wishes(words) {
        let edited = edit_files(rt, words, explanation)?;
        return place_or_show_files(rt, words, policy, edited);
    }
    let (edited, notes) = edit_files_as_wished(rt, words, given, explanation)?;
    place_or_show_files(rt, words, policy, edited)?;
    print_notes(rt, notes.as_slice());
    Ok(())
}

/// Puts the files of the policy `policy` in place that `edit --files` printed as `edited`, or prints their changed lines, as `words` say.
fn place_or_show_files(
    rt: &HostRuntime,
    words: &ArgMatches<'_>,
    policy: &str,
    edited: Vec<u8>,
) -> Result<(), PlaceError> {
    let alloc = rt.alloc();
    let files = read_files_of_output(alloc, policy, edited.as_slice())?;
    check_new_aliases(alloc, words, &files)?;
    print_files_not_included(rt, words, policy, edited.as_slice())?;
    if words.get_flag(DRY_RUN) {
        return print_changed_lines(rt, &files);
    }
    if is_nothing_changed(&files) {
        return Ok(());
    }
    let name = name_of_new_output(rt, words, policy)?;
    check_name_of_new_output(rt, words, name.as_str(), &files)?;
    place_new_output(rt, words, name.as_str(), edited, &files)
}

/// Returns an error if the policy `policy` is the standard input.
pub fn check_policy_name(alloc: Global, policy: &str) -> Result<(), PlaceError> {
    if policy != STDIN {
        return Ok(());
    }
    Err(make_place_error(
        alloc,
        policy.as_bytes(),
        b"NotPlaceable",
        &[b"standard input is no file; name the policy"],
    ))
}

/// Returns an error if the edits of `files` bring an undefined or a cyclic alias, unless `words` accept it.
fn check_new_aliases(
    alloc: Global,
    words: &ArgMatches<'_>,
    files: &OutputFiles,
) -> Result<(), PlaceError> {
    if words.get_flag(ALLOW_UNDEFINED) {
        return Ok(());
    }
    match find_new_alias_fault(alloc, files)? {
        Some(text) => Err(make_place_error(
            alloc,
            text.as_slice(),
            b"Refused",
            &[b"the edits bring this alias; `--allow-undefined` accepts it"],
        )),
        None => Ok(()),
    }
}

/// Returns an error if a policy of the files `files` would read the new output `name`.
fn check_name_of_new_output(
    rt: &HostRuntime,
    words: &ArgMatches<'_>,
    name: &str,
    files: &OutputFiles,
) -> Result<(), PlaceError> {
    if !is_read_by_include_line(rt, words, name, files.after.as_slice())? {
        return Ok(());
    }
    Err(make_place_error(
        rt.alloc(),
        name.as_bytes(),
        b"NotPlaceable",
        &[
            b"an include line reads the files of this folder; name a file with a `.` in its name, or another folder",
        ],
    ))
}

/// Writes the new output `name`, which has the bytes `edited`, and puts its files `files` in place. Removes it if no file was replaced.
fn place_new_output(
    rt: &HostRuntime,
    words: &ArgMatches<'_>,
    name: &str,
    edited: Vec<u8>,
    files: &OutputFiles,
) -> Result<(), PlaceError> {
    write_new_output(rt, name, edited.as_slice())?;
    let outcome = put_output_in_place(rt, words, name, edited, files, false);
    if let Err(PlaceError::Output(_) | PlaceError::Place(_)) = &outcome {
        let _ = fs::remove_file(rt, name);
    } else if words.get_str(UNDO_FILE).is_none() {
        let _ = print_error_line(rt, &[name.as_bytes(), WAY_BACK]);
    }
    outcome
}

/// Returns what `edit --files` prints for the policy and the script that `words` name.
fn edit_files(
    rt: &HostRuntime,
    words: &ArgMatches<'_>,
    explanation: &mut EditExplanation,
) -> Result<Vec<u8>, PlaceError> {
    let script = read_script_file(rt, words.get_str(SCRIPT).unwrap_or(""))?;
    let files = gather_files_to_edit(rt, words, script.len())?;
    make_edit_output(rt.alloc(), script.as_slice(), files.as_slice(), explanation)
}

/// Returns what `edit --files` prints for the policy that `words` name and the script that makes the wishes true, and the notes of the plan.
fn edit_files_as_wished(
    rt: &HostRuntime,
    words: &ArgMatches<'_>,
    given: &GivenWishes,
    explanation: &mut EditExplanation,
) -> Result<(Vec<u8>, Vec<u8>), PlaceError> {
    let alloc = rt.alloc();
    let files = gather_files_to_edit(rt, words, 0)?;
    let planned = make_planned_script(alloc, files.as_slice(), given, explanation)?;
    let script = planned.script.as_slice();
    let edited = make_edit_output(alloc, script, files.as_slice(), explanation)?;
    Ok((edited, planned.notes))
}

/// Returns what `edit --files` prints for the script `script` and the files `files`.
fn make_edit_output(
    alloc: Global,
    script: &[u8],
    files: &[NamedFile],
    explanation: &mut EditExplanation,
) -> Result<Vec<u8>, PlaceError> {
    match make_edit_output_of_files(alloc, script, EditInputShape::Bundle, files, 0, 0) {
        Ok(edited) => Ok(edited),
        Err(fault) => {
            explanation.explain_run(alloc, script, files, &fault);
            Err(PlaceError::Output(FileTrouble::from(fault)))
        }
    }
}

/// Returns whether each file is as before the edits.
fn is_nothing_changed(files: &OutputFiles) -> bool {
    files.before.iter().zip(files.after.iter()).all(|(before, after)| before.bytes.as_slice()
        == after.bytes.as_slice())
}

/// Prints the names of the files that the edits change, and their changed lines.
///
/// # Errors
///
/// Memory ran out; the standard output cannot be written.
pub fn print_changed_lines(rt: &HostRuntime, files: &OutputFiles) -> Result<(), PlaceError> {
    let mut text = Vec::new(rt.alloc());
    for (before, after) in files.before.iter().zip(files.after.iter()) {
        if before.bytes.as_slice() != after.bytes.as_slice() {
            text.extend_from_slice(after.name.as_slice())?;
            text.extend_from_slice(b":\n")?;
            append_changed_lines(
                rt.alloc(),
                &mut text,
                before.bytes.as_slice(),
                after.bytes.as_slice(),
            )?;
        }
    }
    match open_standard_output(rt).write_all(text.as_slice()) {
        Ok(()) => Ok(()),
        Err(_) => Err(PlaceError::from(ToolFault::Write)),
    }
}

/// Returns the name of the new output of an edit of `policy`: the one that `words` name, or that of the policy and the moment.
fn name_of_new_output(
    rt: &HostRuntime,
    words: &ArgMatches<'_>,
    policy: &str,
) -> Result<String, PlaceError> {
    if let Some(name) = words.get_str(UNDO_FILE) {
        return Ok(String::from_str(rt.alloc(), name)?);
    }
    let base = match policy.rsplit_once('/') {
        Some((_, base)) => base,
        None => policy,
    };
    let moment = read_moment(rt, words)?;
    let moment = str::from_utf8(moment.as_slice()).unwrap_or("");
    Ok(format!(in rt.alloc(); "{base}.undo-{moment}")?)
}

/// Writes the new output `name`, which only its owner may read. It must not be there.
fn write_new_output(rt: &HostRuntime, name: &str, bytes: &[u8]) -> Result<(), PlaceError> {
    let mut options = OpenOptions::new();
    options.write(true).create_new(true).mode(MODE_OF_OUTPUT);
    let written = match options.open(rt, name) {
        Ok(mut file) => file.write_all(bytes),
        Err(error) if error.kind() == io::ErrorKind::AlreadyExists => {
            return Err(make_place_error(
                rt.alloc(),
                name.as_bytes(),
                b"Exists",
                &[b"it may be needed to take other edits back; name another file with --undo-file"],
            ));
        }
        Err(error) => {
            return Err(make_error_of_file(
                rt.alloc(),
                name.as_bytes(),
                b"NotWritten",
                error.kind(),
            ));
        }
    };
    match written {
        Ok(()) => Ok(()),
        Err(error) => {
            let _ = fs::remove_file(rt, name);
            Err(make_error_of_file(rt.alloc(), name.as_bytes(), b"NotWritten", error.kind()))
        }
    }
}
