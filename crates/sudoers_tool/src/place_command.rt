//! The subcommand `place`: puts the files of an output of `edit` in place.

use crate::explaining::{add_explaining_options, are_errors_explained, print_explanation};
use crate::files::STDIN;
use crate::place_trouble::{PlaceError, make_place_error};
use crate::placed_files::make_changes;
use crate::placed_paths::{find_placed_path, make_error_of_file, make_reason_of_file};
use crate::terminal::{open_standard_output, print_error_line};
use clap::{Arg, ArgAction, ArgMatches, Command};
use std::alloc::{AllocError, Global};
use std::fs::TryLockError;
use std::io::Write;
use std::{fs, io};
use sudoers_place::{Change, Output, PlaceFault, SystemDisk, place};
use sudoers_run::{
    Counted, INPUT_LIMIT, LayerFault, OutputFiles, ToolFault, fault_text, read_all_within_limit,
    read_output_files,
};
use sudoers_tree::{NamedFile, has_file_named};

/// The name of the subcommand.
pub const PLACE: &str = "place";

/// The flag that asks for the files as they were.
const UNDO: &str = "undo";

/// The argument that names the output.
const OUTPUT: &str = "OUTPUT";

/// The exit status of an error.
const ERROR_STATUS: u8 = 3;

/// What help prints last.
const EXIT_STATUS: &str =
    "Exit status: 0 the files are in place; 2 a wrong command line; 3 an error. See sudoers_tool(8).";

/// The advice for an output that is none.
const NO_OUTPUT: &[u8] =
    b"OUTPUT is a file with what `edit --files` printed, whole: a script, and each file behind a line `%% LENGTH NAME`";

/// The advice for a file that has changed.
const MADE_ANEW: &[u8] =
    b"it has neither its bytes from before the edits nor those from after them, so nothing was placed; make the edits anew from the files as they are";

/// The advice for files of which some are in place.
const RUN_AGAIN: &[u8] = b"; run `place` again, or `place --undo`: both finish";

/// Returns the command line of `place`.
pub fn make_place_subcommand<'a>(alloc: Global, top: Arg<'a>) -> Result<Command<'a>, AllocError> {
    let undo = Arg::new(alloc, UNDO)
        .long(UNDO)
        .action(ArgAction::SetTrue)
        .help("Put the files back as they were before the edits");
    let output = Arg::new(alloc, OUTPUT)
        .required(true)
        .help("File with what `edit --files` printed");
    let command = Command::new(alloc, PLACE)
        .about(
            "Put the files that `edit --files` printed in place, all or none, and print the name of each that was replaced. Keep OUTPUT: `place --undo` puts the files back",
        )
        .after_help(EXIT_STATUS)
        .arg(undo)?
        .arg(top)?
        .arg(output)?;
    add_explaining_options(alloc, command)
}

/// Puts the files of the output that `words` name in place, or back, and prints the name of each that was replaced. Prints an error. Returns
/// the exit status.
pub fn run_place_command(rt: &HostRuntime, words: &ArgMatches<'_>) -> u8 {
    let outcome = place_output(rt, words);
    print_place_error_and_get_status(rt, words, outcome, &[])
}

/// Returns the exit status of a command that ended so, and prints its error, and the lines `explanation` if the error has none of its own.
pub fn print_place_error_and_get_status(
    rt: &HostRuntime,
    words: &ArgMatches<'_>,
    outcome: Result<(), PlaceError>,
    explanation: &[u8],
) -> u8 {
    match outcome {
        Ok(()) => return 0,
        Err(PlaceError::Output(trouble) | PlaceError::BegunOutput(trouble)) => {
            if let Ok(text) = trouble.text(rt.alloc()) {
                let _ = print_error_line(rt, &[text.as_slice()]);
            }
            print_explanation(rt, explanation);
        }
        Err(PlaceError::Place(trouble) | PlaceError::Begun(trouble)) => {
            let _ = print_error_line(rt, &[trouble.text()]);
            if are_errors_explained(rt, words) {
                print_explanation(rt, trouble.help());
            }
        }
    }
    ERROR_STATUS
}

/// Puts the files of the output that `words` name in place, or back, and prints the name of each that was replaced.
fn place_output(rt: &HostRuntime, words: &ArgMatches<'_>) -> Result<(), PlaceError> {
    let name = words.get_str(OUTPUT).unwrap_or("");
    let bytes = read_output(rt, name)?;
    let files = read_files_of_output(rt.alloc(), name, bytes.as_slice())?;
    put_output_in_place(rt, words, name, bytes, &files, words.get_flag(UNDO))
}

/// Puts the files `files` of the output `name`, which has the bytes `bytes`, in place, or back if `is_undo`. Prints the name of each that was
/// replaced.
pub fn put_output_in_place(
    rt: &HostRuntime,
    words: &ArgMatches<'_>,
    name: &str,
    bytes: Vec<u8>,
    files: &OutputFiles,
    is_undo: bool,
) -> Result<(), PlaceError> {
    let alloc = rt.alloc();
    let output = Output {
        path: find_path_of_output(rt, name)?,
        bytes,
    };
    let _lock = lock_first_folder(rt, words, files.after.as_slice())?;
    let mut changes = make_changes(rt, words, files, is_undo)?;
    let mut disk = SystemDisk::new(rt.clone()?);
    match place(&mut disk, alloc, changes.as_mut_slice(), &output) {
        Ok(()) => match print_placed_names(rt, files.after.as_slice(), changes.as_slice()) {
            Ok(()) => Ok(()),
            Err(error) => Err(error.into_begun()),
        },
        Err(fault) => {
            let kind = match disk.reason() {
                Some(error) => error.kind(),
                None => io::ErrorKind::Other,
            };
            Err(make_error_of_placing(alloc, name.as_bytes(), files.after.as_slice(), fault, kind))
        }
    }
}

/// Returns the bytes of the output `name`, which has to be a regular file.
fn read_output(rt: &HostRuntime, name: &str) -> Result<Vec<u8>, PlaceError> {
    let alloc = rt.alloc();
    match fs::metadata(rt, name) {
        Ok(metadata) if metadata.is_file() => {}
        Ok(_) => {
            return Err(make_place_error(alloc, name.as_bytes(), b"NotPlaceable", &[NO_OUTPUT]));
        }
        Err(error) => {
            return Err(make_error_of_file(alloc, name.as_bytes(), b"Read", error.kind()));
        }
    }
    let file = match fs::open(rt, name) {
        Ok(file) => file,
        Err(error) => {
            return Err(make_error_of_file(alloc, name.as_bytes(), b"Read", error.kind()));
        }
    };
    match read_all_within_limit(alloc, &mut Counted::new(file), INPUT_LIMIT) {
        Ok(bytes) => Ok(bytes),
        Err(fault) => Err(make_error_of_output(alloc, name, &fault)),
    }
}

/// Returns the files of the output `name`, which has the bytes `bytes`.
pub fn read_files_of_output(
    alloc: Global,
    name: &str,
    bytes: &[u8],
) -> Result<OutputFiles, PlaceError> {
    match read_output_files(alloc, bytes) {
        Ok(files) if has_file_named(files.after.as_slice(), STDIN.as_bytes()) => Err(
            make_place_error(
                alloc,
                name.as_bytes(),
                b"NotPlaceable",
                &[b"it has a file named `-`, which is standard input"],
            ),
        ),
        Ok(files) => Ok(files),
        Err(ToolFault::NoMark) => {
            Err(make_place_error(alloc, name.as_bytes(), b"NotPlaceable", &[NO_OUTPUT]))
        }
        Err(fault) => Err(make_error_of_output(alloc, name, &fault)),
    }
}

/// Returns the error of the output `name` that cannot be read for `fault`.
fn make_error_of_output(alloc: Global, name: &str, fault: &ToolFault) -> PlaceError {
    if let ToolFault::Layer(LayerFault::NoMemory) = fault {
        return PlaceError::from(AllocError);
    }
    match fault_text(alloc, fault) {
        Ok(word) => make_place_error(alloc, name.as_bytes(), word.as_slice(), &[NO_OUTPUT]),
        Err(error) => PlaceError::from(error),
    }
}

/// Returns the path of the output `name` without links.
fn find_path_of_output(rt: &HostRuntime, name: &str) -> Result<Vec<u8>, PlaceError> {
    match fs::canonicalize(rt, name) {
        Ok(path) => Ok(Vec::from_slice(rt.alloc(), path.as_os_str().as_bytes())?),
        Err(error) => Err(make_error_of_file(rt.alloc(), name.as_bytes(), b"Read", error.kind())),
    }
}

/// Locks the folder of the first file, so that no other `place` runs, and returns the open folder.
fn lock_first_folder(
    rt: &HostRuntime,
    words: &ArgMatches<'_>,
    files: &[NamedFile],
) -> Result<Option<fs::File>, PlaceError> {
    let alloc = rt.alloc();
    let Some(first) = files.first() else {
        return Ok(None);
    };
    let name = first.name.as_slice();
    let place = find_placed_path(rt, words, name)?;
    let folder = match place.path.as_str().rsplit_once('/') {
        Some(("", _)) | None => "/",
        Some((folder, _)) => folder,
    };
    let opened = match fs::open(rt, folder) {
        Ok(opened) => opened,
        Err(error) => return Err(make_error_of_file(alloc, name, b"NotRead", error.kind())),
    };
    match opened.try_lock() {
        Ok(()) => Ok(Some(opened)),
        Err(TryLockError::WouldBlock) => Err(make_place_error(
            alloc,
            name,
            b"Busy",
            &[b"another run of `place` has its folder; try again when it has ended"],
        )),
        Err(TryLockError::Error(error)) => Err(make_error_of_file(
            alloc,
            name,
            b"NotRead",
            error.kind(),
        )),
    }
}

/// Prints the name of each file that was replaced.
fn print_placed_names(
    rt: &HostRuntime,
    files: &[NamedFile],
    changes: &[Change],
) -> Result<(), PlaceError> {
    let mut text = Vec::new(rt.alloc());
    for change in changes {
        if !change.is_done {
            text.extend_from_slice(name_of_file(files, change.number))?;
            text.push(b'\n')?;
        }
    }
    match open_standard_output(rt).write_all(text.as_slice()) {
        Ok(()) => Ok(()),
        Err(_) => Err(PlaceError::from(ToolFault::Write)),
    }
}

/// Returns the error of the fault `fault`. `output` is the name of the output, and `kind` the system's reason.
fn make_error_of_placing(
    alloc: Global,
    output: &[u8],
    files: &[NamedFile],
    fault: PlaceFault,
    kind: io::ErrorKind,
) -> PlaceError {
    match fault {
        PlaceFault::SamePath => make_place_error(
            alloc,
            output,
            b"SamePath",
            &[b"two of its names lead to one file here, or one leads to OUTPUT"],
        ),
        PlaceFault::OutputNotKept => make_error_of_file(alloc, output, b"NotKept", kind),
        PlaceFault::OutputChanged => make_place_error(
            alloc,
            output,
            b"Changed",
            &[b"OUTPUT was written while it was read; try again"],
        ),
        PlaceFault::NotWritten(number) => {
            make_error_of_file(alloc, name_of_file(files, number), b"NotWritten", kind)
        }
        PlaceFault::NotRead(number) => {
            make_error_of_file(alloc, name_of_file(files, number), b"NotRead", kind)
        }
        PlaceFault::Changed(number) => make_place_error(
            alloc,
            name_of_file(files, number),
            b"Changed",
            &[MADE_ANEW],
        ),
        PlaceFault::NotMoved(number) => {
            make_error_of_begun_file(alloc, name_of_file(files, number), b"NotMoved", kind)
        }
        PlaceFault::NotKept(number) => {
            make_error_of_begun_file(alloc, name_of_file(files, number), b"NotKept", kind)
        }
    }
}

/// Returns the error `word` of the file `name` with the system's reason, where some files may be in place.
fn make_error_of_begun_file(
    alloc: Global,
    name: &[u8],
    word: &[u8],
    kind: io::ErrorKind,
) -> PlaceError {
    let error = match make_reason_to_run_again(alloc, name, kind) {
        Ok(reason) => make_place_error(alloc, name, word, &[reason.as_slice()]),
        Err(error) => PlaceError::from(error),
    };
    error.into_begun()
}

/// Returns the name `name` of a file, the system's reason, and what to do where some files may be in place.
fn make_reason_to_run_again(
    alloc: Global,
    name: &[u8],
    kind: io::ErrorKind,
) -> Result<Vec<u8>, AllocError> {
    let mut reason = make_reason_of_file(alloc, name, kind)?;
    reason.extend_from_slice(RUN_AGAIN)?;
    Ok(reason)
}

/// Returns the name of the file with the number `number`.
fn name_of_file(files: &[NamedFile], number: usize) -> &[u8] {
    match files.get(number) {
        Some(file) => file.name.as_slice(),
        None => b"",
    }
}
