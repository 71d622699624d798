//! Wrong command lines.

use crate::apply_command::APPLY;
use crate::convert_command::is_json_spelled_for_reader;
use crate::diff_command::{DIFF, NEW, NEW_TOP, OLD, OLD_TOP};
use crate::edit_command::{EDIT, find_edit_usage_error};
use crate::files::{STDIN, TOP, find_trouble_with_folder};
use crate::plan_command::PLAN;
use crate::same_folders::find_mistake_in_same_folders;
use crate::subcommands::make_command_for_usage;
use crate::terminal::{open_standard_error, open_standard_output};
use clap::error::ErrorKind;
use clap::{ArgMatches, Error};
use std::alloc::AllocError;
use std::io::Write;
use sudoers_run::ToolFault;

/// The options with a folder below which a policy is read, by their names in the words.
static TOP_OPTIONS: [(&str, &str); 3] = [
    (TOP, "--root"),
    (OLD_TOP, "--old-root"),
    (NEW_TOP, "--new-root"),
];

/// Returns what is wrong with a command line that has the right form: it names a folder that is none, or too many files.
pub fn find_usage_error(
    rt: &HostRuntime,
    matches: &ArgMatches<'_>,
) -> Result<Option<String>, ToolFault> {
    let Some((name, words)) = matches.subcommand() else {
        return Ok(None);
    };
    if let Some(message) = find_usage_error_of_folders(rt, words)? {
        return Ok(Some(message));
    }
    let mistake = if name == EDIT || name == APPLY || name == PLAN {
        find_edit_usage_error(words)
    } else if name == DIFF {
        find_usage_error_of_diff(words)
    } else {
        find_usage_error_of_files(words)
    };
    match mistake {
        Some(message) => Ok(Some(String::from_str(rt.alloc(), message)?)),
        None => Ok(None),
    }
}

/// Returns what is wrong with the folders below which `words` have policies read.
fn find_usage_error_of_folders(
    rt: &HostRuntime,
    words: &ArgMatches<'_>,
) -> Result<Option<String>, ToolFault> {
    for (id, option) in TOP_OPTIONS {
        if let Some(dir) = words.get_str(id)
            && let Some(trouble) = find_trouble_with_folder(rt, dir)?
        {
            let message = format!(in rt.alloc();
                "invalid value '{dir}' for '{option} <DIR>': {trouble}"
            )?;
            return Ok(Some(message));
        }
    }
    Ok(None)
}

/// Returns what is wrong with the policies that `words` have compared: the standard input is one of them at most.
fn find_usage_error_of_diff(words: &ArgMatches<'_>) -> Option<&'static str> {
    if words.get_str(OLD) == Some(STDIN) && words.get_str(NEW) == Some(STDIN) {
        return Some("standard input can be one policy only");
    }
    None
}

/// Returns what is wrong with the folders and the policy files that `words` name: the standard input is one policy, and not two.
fn find_usage_error_of_files(words: &ArgMatches<'_>) -> Option<&'static str> {
    if let Some(mistake) = find_mistake_in_same_folders(words) {
        return Some(mistake);
    }
    if is_json_spelled_for_reader(words) {
        return Some("'--for' goes with '-f sudoers' alone");
    }
    let files = words.get_strs("FILE")?;
    if files.iter().filter(|file| **file == STDIN).count() > 1 {
        return Some("standard input can be one policy only");
    }
    None
}

/// Prints what is wrong with the words of the command `name`, `message`, and how it is used. Returns the exit status.
pub fn print_usage_error_of_command(
    rt: &HostRuntime,
    name: &str,
    message: &str,
) -> Result<u8, ToolFault> {
    let mut command = make_command_for_usage(rt.alloc(), name)?;
    let error = command.error(ErrorKind::InvalidValue, message)?;
    print_help_or_usage_error(rt, &error)
}

/// Prints clap's text: help and version on standard output, a wrong command line on standard error. Returns the exit status.
pub fn print_help_or_usage_error(rt: &HostRuntime, error: &Error) -> Result<u8, ToolFault> {
    if error.kind() == ErrorKind::OutOfMemory {
        return Err(ToolFault::from(AllocError));
    }
    let text = error.to_string(rt.alloc())?;
    if error.use_stderr() {
        let _ = open_standard_error(rt).write_all(text.as_bytes());
        return Ok(2);
    }
    match open_standard_output(rt).write_all(text.as_bytes()) {
        Ok(()) => Ok(0),
        Err(_) => Err(ToolFault::Write),
    }
}
