//! What is printed behind the error of a command, for people.

use crate::file_trouble::FileTrouble;
use crate::files::{KeptDisk, STDIN, TOP, words_of_error_kind};
use crate::installed::are_installed_notes_asked;
use crate::json_output::is_json_asked;
use crate::lint_notes::{LINT_ERROR_STATUS, are_lint_notes_asked};
use crate::machine::{name_of_group_file, name_of_passwd_file};
use crate::overruled_notes::{OVERRULED_ERROR_STATUS, are_overruled_notes_asked};
use crate::target_notes::are_target_notes_asked;
use crate::terminal::open_standard_error;
use clap::{Arg, ArgAction, ArgMatches, Command};
use std::alloc::{AllocError, Global};
use std::fs;
use std::io::{self, IsTerminal, Write};
use sudoers_cvt_rewrite::FilterFault;
use sudoers_cvt_rules::CvtFault;
use sudoers_explain::{append_help, explain_load_fault};
use sudoers_files::{GatherFault, gather};
use sudoers_list_people::{PeopleFault, PeopleFile, WhoFault};
use sudoers_match_list::AskFault;
use sudoers_run::{LayerFault, ToolFault};
use sudoers_tree::Policy;

/// The option that asks for an explanation of an error.
const EXPLAIN: &str = "explain";

/// The option with the exit status of an error.
const ERROR_STATUS: &str = "error-status";

/// The option that asks for no explanation.
const PLAIN: &str = "plain";

/// Returns the option that asks for an explanation of an error, also where standard error is no terminal.
fn make_explain_flag<'a>(alloc: Global) -> Arg<'a> {
    Arg::new(alloc, EXPLAIN)
        .long(EXPLAIN)
        .action(ArgAction::SetTrue)
        .help(
            "After an error of the policy or the script, print the line, what may stand there and what to do; the default on a terminal",
        )
}

/// Returns the option that asks for no explanation.
fn make_plain_flag<'a>(alloc: Global) -> Arg<'a> {
    Arg::new(alloc, PLAIN)
        .long(PLAIN)
        .action(ArgAction::SetTrue)
        .help("Print the error alone, also on a terminal")
}

/// Returns the option with the exit status of an error.
fn make_error_status_option<'a>(alloc: Global) -> Arg<'a> {
    Arg::new(alloc, ERROR_STATUS)
        .long(ERROR_STATUS)
        .value_name("N")
        .value_parser(clap::value_parser!(u8))
        .help("Exit status of an error, so that it differs from a negative answer; without it 1")
}

/// Returns the exit status of an error of a command with the words `words`.
pub fn error_status_of_words(words: &ArgMatches<'_>) -> u8 {
    let status = if are_overruled_notes_asked(words) {
        OVERRULED_ERROR_STATUS
    } else if are_lint_notes_asked(words) {
        LINT_ERROR_STATUS
    } else {
        1
    };
    words.get_one::<u8>(ERROR_STATUS).unwrap_or(status)
}

/// Adds to `command` the options that say how its errors are reported.
pub fn add_error_options<'a>(
    alloc: Global,
    command: Command<'a>,
) -> Result<Command<'a>, AllocError> {
    add_explaining_options(alloc, command)?.arg(make_error_status_option(alloc))
}

/// Adds to `command` the options that say whether its errors are explained.
pub fn add_explaining_options<'a>(
    alloc: Global,
    command: Command<'a>,
) -> Result<Command<'a>, AllocError> {
    command
        .arg(make_explain_flag(alloc))?
        .arg(make_plain_flag(alloc))
}

/// Returns whether errors are explained: where `words` ask for it, or where standard error is a terminal. The documents of `--json` have what
/// an explanation says.
pub fn are_errors_explained(rt: &HostRuntime, words: &ArgMatches<'_>) -> bool {
    !words.get_flag(PLAIN)
        && !is_json_asked(words)
        && (words.get_flag(EXPLAIN) || rt.stderr().is_terminal())
}

/// Returns whether the files of a policy are read again by the command of `words`: to explain its error, for all errors, or for notes behind
/// the report.
pub fn are_files_read_again(rt: &HostRuntime, words: &ArgMatches<'_>) -> bool {
    words.get_flag("all")
        || are_installed_notes_asked(words)
        || are_target_notes_asked(words)
        || are_errors_explained(rt, words)
}

/// Returns the lines that explain why the command of `words` on the policy `root` ended with `outcome`; no bytes if errors are not explained,
/// or if there is nothing to add. `files` are those that the command read.
pub fn explain_outcome(
    rt: &HostRuntime,
    words: &ArgMatches<'_>,
    root: &str,
    files: &mut KeptDisk,
    outcome: &Result<u8, FileTrouble>,
) -> Result<Vec<u8>, ToolFault> {
    if !are_errors_explained(rt, words) {
        return Ok(Vec::new(rt.alloc()));
    }
    let trouble = match outcome {
        Ok(status) if *status == 0 || words.get_flag("quiet") || words.get_flag("all") => {
            return Ok(Vec::new(rt.alloc()));
        }
        Ok(_) => return explain_policy(rt, words.get_str(TOP), root, files),
        Err(trouble) => trouble,
    };
    match trouble.fault() {
        ToolFault::Layer(LayerFault::Gather(_) | LayerFault::Load(_)) => {
            explain_policy(rt, words.get_str(TOP), root, files)
        }
        fault => Ok(explain_fault_of_words(rt, words, trouble.file(), fault)?),
    }
}

/// Prints the lines `text` on standard error.
pub fn print_explanation(rt: &HostRuntime, text: &[u8]) {
    if !text.is_empty() {
        let _ = open_standard_error(rt).write_all(text);
    }
}

/// Returns the lines that explain why the policy `root` cannot be read; no bytes if it can. `files` are those that were read, below the folder
/// `top` if one is given.
pub fn explain_policy(
    rt: &HostRuntime,
    top: Option<&str>,
    root: &str,
    files: &mut KeptDisk,
) -> Result<Vec<u8>, ToolFault> {
    let alloc = rt.alloc();
    let found = match gather(alloc, root.as_bytes(), files) {
        Ok(found) => found,
        Err(fault) => {
            return Ok(explain_gather_fault(
                rt,
                top,
                files.files().files().last_requested_name(),
                fault,
            )?);
        }
    };
    match Policy::load(alloc, found.as_slice()) {
        Ok(_) => Ok(Vec::new(alloc)),
        Err(fault) => Ok(explain_load_fault(alloc, found.as_slice(), &fault)?),
    }
}

/// Returns the lines that explain why the files of a policy cannot be gathered below the folder `top`, if one is given. The file `name` was asked
/// for last.
pub fn explain_gather_fault(
    rt: &HostRuntime,
    top: Option<&str>,
    name: &[u8],
    fault: GatherFault,
) -> Result<Vec<u8>, AllocError> {
    let mut text = Vec::new(rt.alloc());
    match fault {
        GatherFault::NoRoot | GatherFault::Device(_) => {
            let reason = find_reason_of_file(rt, top, name)?;
            append_reason_of_file(rt.alloc(), &mut text, name, reason)?;
        }
        GatherFault::TooManyFiles => append_help(&mut text, &[b"a policy has at most 256 files"])?,
        GatherFault::NoMemory => {}
    }
    Ok(text)
}

/// Appends the line that says why the file `name` cannot be read: `reason`.
pub fn append_reason_of_file(
    alloc: Global,
    out: &mut Vec<u8>,
    name: &[u8],
    reason: &str,
) -> Result<(), AllocError> {
    let mut advice = Vec::from_slice(alloc, name)?;
    advice.extend_from_slice(b": ")?;
    advice.extend_from_slice(reason.as_bytes())?;
    append_help(out, &[advice.as_slice()])
}

/// Returns the line with the advice for `fault` of the file `file`, if it is of one. It is no fault of the policy's files.
pub fn explain_fault_of_words(
    rt: &HostRuntime,
    words: &ArgMatches<'_>,
    file: Option<&[u8]>,
    fault: &ToolFault,
) -> Result<Vec<u8>, AllocError> {
    let mut text = Vec::new(rt.alloc());
    match (file, fault) {
        (Some(name), ToolFault::Read) => {
            append_reason_of_file(rt.alloc(), &mut text, name, reason_of_file(rt, name))?
        }
        _ => append_advice_for_words(rt, words, fault, &mut text)?,
    }
    Ok(text)
}

/// Appends to `text` the line with the advice for `fault` of the words `words`.
fn append_advice_for_words(
    rt: &HostRuntime,
    words: &ArgMatches<'_>,
    fault: &ToolFault,
    text: &mut Vec<u8>,
) -> Result<(), AllocError> {
    match fault {
        ToolFault::Read => append_reason_of_people_files(rt, words, text)?,
        ToolFault::Layer(LayerFault::Who(WhoFault::NoUser)) => {
            let mut advice = Vec::from_slice(rt.alloc(), get_word(words, "USER"))?;
            append_second_user(words, &mut advice)?;
            let file = name_of_passwd_file(rt.alloc(), words)?;
            append_missing_row(text, &mut advice, file.as_bytes())?;
        }
        ToolFault::Layer(LayerFault::Who(WhoFault::NoGroup)) => {
            let mut advice = Vec::from_slice(rt.alloc(), get_word(words, "GROUP"))?;
            let file = name_of_group_file(rt.alloc(), words)?;
            append_missing_row(text, &mut advice, file.as_bytes())?;
        }
        fault => {
            if let Some(advice) = advice_of_fault(fault) {
                append_help(text, &[advice])?;
            }
        }
    }
    Ok(())
}

/// Appends to `advice`, which begins with a user if the question names one, whom else it is about: the user as whom the command is to run.
fn append_second_user(words: &ArgMatches<'_>, advice: &mut Vec<u8>) -> Result<(), AllocError> {
    let between: &[u8] = if advice.is_empty() { b"" } else { b" or " };
    if let Some(target) = words.get_str("TARGET") {
        advice.extend_from_slice(between)?;
        advice.extend_from_slice(target.as_bytes())?;
    } else if words.get_strs("WORD").is_some() {
        advice.extend_from_slice(between)?;
        advice.extend_from_slice(b"the user of runas_default (root without it)")?;
    }
    Ok(())
}

/// Appends to `out` the line that says that what `advice` begins with has no row in the file `file`.
fn append_missing_row(
    out: &mut Vec<u8>,
    advice: &mut Vec<u8>,
    file: &[u8],
) -> Result<(), AllocError> {
    advice.extend_from_slice(b" has no row in ")?;
    advice.extend_from_slice(file)?;
    append_help(out, &[advice.as_slice()])
}

/// Returns the bytes of the word that `words` have for `id`.
fn get_word<'a>(words: &ArgMatches<'a>, id: &str) -> &'a [u8] {
    words.get_str(id).unwrap_or("").as_bytes()
}

/// Returns the advice for `fault`; nothing if there is none.
pub fn advice_of_fault(fault: &ToolFault) -> Option<&'static [u8]> {
    match fault {
        ToolFault::NoEnd => Some(b"the input does not end"),
        ToolFault::Layer(LayerFault::Who(WhoFault::BadAddress)) => Some(
            b"write each address with its bits, as `10.1.2.9/24`, and commas between them",
        ),
        ToolFault::Layer(LayerFault::Who(WhoFault::BadMoment)) => Some(
            b"write the moment in UTC as YYYYMMDDHHMMSSZ: `date -u +%Y%m%d%H%M%SZ`",
        ),
        ToolFault::Layer(LayerFault::People(PeopleFault::BadRow { file, .. })) => Some(
            match file {
                PeopleFile::Passwd =>
                    b"a row of passwd has seven fields between `:`, of which the third and fourth are numbers",
                PeopleFile::Group =>
                    b"a row of group has four fields between `:`, of which the third is a number",
            },
        ),
        ToolFault::Layer(LayerFault::People(PeopleFault::TooLarge)) => Some(
            b"the files of users and of groups have at most 1048576 bytes each",
        ),
        ToolFault::Layer(LayerFault::Ask(AskFault::Cycle) | LayerFault::Convert(CvtFault::Cycle)) =>
            { Some(b"an alias leads back to itself: `check` prints the aliases of the circle") }
        ToolFault::Layer(LayerFault::Ask(AskFault::TooLong)) => Some(
            b"the arguments of a command have at most 65536 bytes, with the blanks between them",
        ),
        ToolFault::Layer(LayerFault::Convert(CvtFault::TooLarge)) => Some(
            b"what is printed passes 1048576 bytes, a line of it 65536 bytes, or all its lists 65536 members",
        ),
        ToolFault::Layer(LayerFault::Convert(CvtFault::NotUtf8)) => Some(
            b"JSON is UTF-8, and a text of the policy is not: print it with `-f sudoers`",
        ),
        ToolFault::Layer(LayerFault::Filter(FilterFault::BadKey)) => Some(
            b"write the filter as `user=NAME,group=NAME,host=NAME`",
        ),
        ToolFault::Layer(LayerFault::Filter(FilterFault::Empty)) => Some(
            b"write a name after each `=` of the filter",
        ),
        _ => None,
    }
}

/// Appends the line with the system's reason why the file of users or of groups that `words` name cannot be read.
fn append_reason_of_people_files(
    rt: &HostRuntime,
    words: &ArgMatches<'_>,
    out: &mut Vec<u8>,
) -> Result<(), AllocError> {
    for id in ["PASSWD", "GROUPS"] {
        if let Some(name) = words.get_str(id)
            && let Err(error) = fs::open(rt, name)
        {
            let reason = words_of_error_kind(error.kind());
            return append_reason_of_file(rt.alloc(), out, name.as_bytes(), reason);
        }
    }
    Ok(())
}

/// Returns the system's reason why the file `name` cannot be read.
pub fn reason_of_file(rt: &HostRuntime, name: &[u8]) -> &'static str {
    let Ok(name) = str::from_utf8(name) else {
        return "its name is not UTF-8";
    };
    match fs::open(rt, name) {
        Ok(_) => "it cannot be read",
        Err(error) => words_of_error_kind(error.kind()),
    }
}

/// Returns whether `path` is a folder with a name that is not UTF-8.
fn has_name_that_is_not_utf8(rt: &HostRuntime, path: &str) -> bool {
    let Ok(entries) = fs::read_dir(rt, path) else {
        return false;
    };
    for entry in entries {
        if matches!(&entry, Err(error) if error.kind() == io::ErrorKind::InvalidFilename) {
            return true;
        }
    }
    false
}

/// Returns the system's reason why the file `name` cannot be read, below the folder `top` if one is given.
pub fn find_reason_of_file(
    rt: &HostRuntime,
    top: Option<&str>,
    name: &[u8],
) -> Result<&'static str, AllocError> {
    if name == STDIN.as_bytes() {
        return Ok("it cannot be read");
    }
    let Ok(name) = str::from_utf8(name) else {
        return Ok("its name is not UTF-8");
    };
    let path = match top {
        Some(dir) => format!(in rt.alloc(); "{dir}/{name}")?,
        None => String::from_str(rt.alloc(), name)?,
    };
    Ok(match fs::metadata(rt, path.as_str()) {
        Ok(metadata) if metadata.is_file() => match fs::open(rt, path.as_str()) {
            Ok(_) => "it cannot be read",
            Err(error) => words_of_error_kind(error.kind()),
        },
        Ok(_) if has_name_that_is_not_utf8(rt, path.as_str()) =>
            "it is a folder, and a name in it is not UTF-8",
        Ok(_) => "it is no regular file",
        Err(error) => words_of_error_kind(error.kind()),
    })
}
