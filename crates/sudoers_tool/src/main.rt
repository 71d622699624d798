//! A tool for sudoers policies whose promises are proved.
#![tactic(auto)]

mod access;
mod adapt_command;
mod all_errors;
mod also_option;
mod apply_command;
mod ask_command;
mod ask_json;
mod ask_subcommands;
mod ask_values;
mod changed_lines;
mod check_json;
mod convert_command;
mod dialect_option;
mod diff_command;
mod diff_errors;
mod diff_json;
mod edit_command;
mod explaining;
mod explaining_edits;
mod file_trouble;
mod files;
mod files_within_byte_budget;
mod found_words;
mod installed;
mod json_output;
mod kept_files;
mod lint_notes;
mod list_command;
mod machine;
mod new_faults;
mod overruled_notes;
mod place_command;
mod place_trouble;
mod placed_files;
mod placed_paths;
mod plan_command;
mod report_notes;
mod same_folders;
mod show_members;
mod subcommands;
mod target_notes;
mod terminal;
mod usage_errors;
mod user_diff;
mod wish_options;
mod word_notes;

use crate::adapt_command::{ADAPT, run_adapt_command};
use crate::all_errors::print_all_errors;
use crate::apply_command::{APPLY, run_apply_command};
use crate::ask_command::{is_list_with_same_folders, run_ask_command, run_list_with_same_folders};
use crate::ask_json::run_ask_as_json;
use crate::ask_subcommands::{is_ask_command, policy_name_of_ask_words};
use crate::convert_command::run_convert_command;
use crate::diff_command::{DIFF, run_diff_command};
use crate::edit_command::{EDIT, apply_script_to_policy_both_from_stdin, edit_policy_or_stdin};
use crate::explaining::{
    are_errors_explained, are_files_read_again, error_status_of_words, explain_outcome,
    print_explanation,
};
use crate::explaining_edits::EditExplanation;
use crate::file_trouble::FileTrouble;
use crate::files::{KeptDisk, TOP, open_kept_files};
use crate::installed::{are_installed_notes_asked, find_installed_notes};
use crate::json_output::{
    is_json_asked, print_error_document, run_check_as_json, run_show_as_json,
};
use crate::lint_notes::find_lint_notes;
use crate::list_command::run_list_command;
use crate::overruled_notes::find_overruled_notes;
use crate::place_command::{PLACE, run_place_command};
use crate::plan_command::{PLAN, run_plan_command};
use crate::show_members::{are_members_asked, run_show_members};
use crate::subcommands::make_top_level_command;
use crate::target_notes::find_target_notes;
use crate::terminal::{open_standard_output, print_error_line};
use crate::usage_errors::{
    find_usage_error, print_help_or_usage_error, print_usage_error_of_command,
};
use clap::ArgMatches;
use clap::error::ErrorKind;
use std::alloc::AllocError;
use std::io;
use std::io::IsTerminal;
use std::process::ExitCode;
use sudoers_run::{
    CheckWords, CheckedPolicy, Counted, ToolFault, run_check_and_keep_policy, run_show,
};

/// What is printed before the program waits for a terminal.
const BEFORE_WAITING: &[u8] =
    b"waiting for SCRIPT, `%%` and POLICY on standard input; `sudoers_tool --help` prints the commands";

/// The exit status of an error of the commands that ask the policy of a machine.
const ASK_ERROR_STATUS: u8 = 3;

/// Returns the exit status: 0 for success, 1 for an error, a policy that `check` does not pass or a command that is not allowed, 2 for a
/// wrong command line.
fn main(rt: HostRuntime) -> ExitCode {
    match run_command_line(&rt) {
        Ok(code) => code,
        Err(fault) => ExitCode::from(report_fault(&rt, &FileTrouble::from(fault), 1, &[])),
    }
}

/// Reads the command line and runs the command that it names.
fn run_command_line(rt: &HostRuntime) -> Result<ExitCode, ToolFault> {
    let mut command = make_top_level_command(rt.alloc())?;
    let words = match collect_argument_words(rt) {
        Ok(words) => words,
        Err(error) if error.kind() == io::ErrorKind::OutOfMemory => return Err(ToolFault::from(
            AllocError,
        )),
        Err(_) => {
            let message = "invalid UTF-8 was detected in one or more arguments";
            let error = command.error(ErrorKind::InvalidValue, message)?;
            return Ok(ExitCode::from(print_help_or_usage_error(rt, &error)?));
        }
    };
    match command.try_get_matches_from(words.as_slice()) {
        Ok(matches) => match find_usage_error(rt, &matches)? {
            Some(message) => {
                let name = match matches.subcommand() {
                    Some((name, _)) => name,
                    None => "",
                };
                let status = print_usage_error_of_command(rt, name, message.as_str())?;
                Ok(ExitCode::from(status))
            }
            None => Ok(run_matched_command(rt, &matches)),
        },
        Err(error) => Ok(ExitCode::from(print_help_or_usage_error(rt, &error)?)),
    }
}

/// Runs the command of a command line that was understood, and prints its error.
fn run_matched_command(rt: &HostRuntime, matches: &ArgMatches<'_>) -> ExitCode {
    let status = match matches.subcommand() {
        Some((EDIT, words)) => run_edit_and_print_error(rt, words),
        Some((APPLY, words)) => run_apply_command(rt, words),
        Some((DIFF, words)) => run_diff_command(rt, words),
        Some((PLACE, words)) => run_place_command(rt, words),
        Some((PLAN, words)) => run_plan_command(rt, words),
        Some((name, words)) if is_ask_command(name) => {
            let file = policy_name_of_ask_words(words);
            run_named_command_and_print_error(rt, name, file, ASK_ERROR_STATUS, words)
        }
        Some((name, words)) => run_named_command_on_each_policy(rt, name, words),
        None => run_edit_of_stdin_and_print_error(rt),
    };
    ExitCode::from(status)
}

/// Runs the command `name` on each policy that `words` name, and prints its errors. Returns the highest exit status.
fn run_named_command_on_each_policy(rt: &HostRuntime, name: &str, words: &ArgMatches<'_>) -> u8 {
    let error_status = error_status_of_words(words);
    let mut highest = 0;
    if let Some(files) = words.get_strs("FILE") {
        for file in files {
            let status = run_named_command_and_print_error(rt, name, file, error_status, words);
            highest = highest.max(status);
        }
    }
    highest
}

/// Runs `edit`, and prints its error, with the lines that explain it.
fn run_edit_and_print_error(rt: &HostRuntime, words: &ArgMatches<'_>) -> u8 {
    let mut explanation = EditExplanation::new(rt.alloc(), are_errors_explained(rt, words));
    let outcome = edit_policy_or_stdin(rt, words, &mut explanation);
    explanation.explain_outcome(rt, Some(words), &outcome);
    let error_status = error_status_of_words(words);
    print_error_of_outcome_and_get_status(rt, outcome, error_status, explanation.lines())
}

/// Runs the program without a command: it edits the policy on standard input. Prints its error, with the lines that explain it on a terminal.
fn run_edit_of_stdin_and_print_error(rt: &HostRuntime) -> u8 {
    print_hint_before_waiting(rt);
    let mut explanation = EditExplanation::new(rt.alloc(), rt.stderr().is_terminal());
    let outcome = turn_fault_into_trouble_without_file_name(apply_script_to_policy_both_from_stdin(
        rt,
        0,
        0,
        &mut explanation,
    ));
    explanation.explain_outcome(rt, None, &outcome);
    print_error_of_outcome_and_get_status(rt, outcome, 1, explanation.lines())
}

/// Runs the command `name`, which reads the policy `file`, and prints its error, of which the exit status is `error_status`, with the lines
/// that explain it. Returns the exit status.
fn run_named_command_and_print_error(
    rt: &HostRuntime,
    name: &str,
    file: &str,
    error_status: u8,
    words: &ArgMatches<'_>,
) -> u8 {
    let is_kept = name == ADAPT || are_files_read_again(rt, words);
    let mut files = match open_kept_files(rt, words, words.get_str(TOP), file, is_kept) {
        Ok(files) => files,
        Err(fault) => return report_fault(rt, &FileTrouble::from(fault), error_status, &[]),
    };
    let outcome = if is_ask_command(name) && is_json_asked(words) {
        run_ask_as_json(rt, name, words, &mut files)
    } else if is_ask_command(name) {
        run_ask_command(rt, name, words, &mut files)
    } else if name == "list" && is_list_with_same_folders(words) {
        run_list_with_same_folders(rt, file, words, &mut files)
    } else {
        run_file_command(rt, name, file, words, &mut files)
    };
    let explanation = match explain_outcome(rt, words, file, &mut files, &outcome) {
        Ok(text) => text,
        Err(_) => Vec::new(rt.alloc()),
    };
    print_error_of_outcome_and_get_status(rt, outcome, error_status, explanation.as_slice())
}

/// Returns whether `words` name several policies.
fn has_several_policies(words: &ArgMatches<'_>) -> bool {
    match words.get_strs("FILE") {
        Some(files) => files.len() > 1,
        None => false,
    }
}

/// Runs the command `name`, which reads the policy `file` among `files`. Writes the document of its error if `words` ask for documents.
fn run_file_command(
    rt: &HostRuntime,
    name: &str,
    file: &str,
    words: &ArgMatches<'_>,
    files: &mut KeptDisk,
) -> Result<u8, FileTrouble> {
    match run_named_command_on_file(rt, name, file, words, files) {
        Ok(status) => Ok(status),
        Err(fault) => {
            if is_json_asked(words) {
                print_error_document(rt, name, file, words, files, &fault);
            }
            if has_several_policies(words) {
                return Err(FileTrouble::from_fault_in_file(rt.alloc(), file.as_bytes(), fault));
            }
            Err(FileTrouble::from(fault))
        }
    }
}

/// Returns the outcome of a command whose errors are printed without the name of a file before them.
fn turn_fault_into_trouble_without_file_name(
    outcome: Result<u8, ToolFault>,
) -> Result<u8, FileTrouble> {
    match outcome {
        Ok(status) => Ok(status),
        Err(fault) => Err(FileTrouble::from(fault)),
    }
}

/// Runs the command `name`, which reads the policy `file` among `files`.
fn run_named_command_on_file(
    rt: &HostRuntime,
    name: &str,
    file: &str,
    words: &ArgMatches<'_>,
    files: &mut KeptDisk,
) -> Result<u8, ToolFault> {
    match name {
        ADAPT => run_adapt_command(rt, file, files),
        "check" => run_check_command(rt, file, words, files),
        "convert" => run_convert_command(rt, file, words, files),
        "list" => run_list_command(rt, file, words, files),
        _ => run_show_command(rt, file, words, files),
    }
}

/// Prints what the program waits for, if the standard input is a terminal.
fn print_hint_before_waiting(rt: &HostRuntime) {
    if rt.stdin().is_terminal() {
        let _ = print_error_line(rt, &[BEFORE_WAITING]);
    }
}

/// Returns the exit status of a command that ended so, and prints its error, of which the exit status is `error_status`, and the lines
/// `explanation`.
fn print_error_of_outcome_and_get_status(
    rt: &HostRuntime,
    outcome: Result<u8, FileTrouble>,
    error_status: u8,
    explanation: &[u8],
) -> u8 {
    match outcome {
        Ok(status) => {
            print_explanation(rt, explanation);
            status
        }
        Err(trouble) => report_fault(rt, &trouble, error_status, explanation),
    }
}

/// Returns the words of the command line.
fn collect_argument_words(rt: &HostRuntime) -> io::Result<Vec<String>> {
    let words: Vec<String> = std::env::args(rt)?.collect(rt.alloc())?;
    Ok(words)
}

/// Shows a policy, or standard input.
fn run_show_command(
    rt: &HostRuntime,
    file: &str,
    words: &ArgMatches<'_>,
    files: &mut KeptDisk,
) -> Result<u8, ToolFault> {
    if is_json_asked(words) {
        return run_show_as_json(rt, file, files);
    }
    if are_members_asked(words) {
        return run_show_members(rt, file, files);
    }
    let mut writer = Counted::new(open_standard_output(rt));
    let root = file.as_bytes();
    run_show(rt.alloc(), files, root, &mut writer)
}

/// Checks a policy, or standard input.
fn run_check_command(
    rt: &HostRuntime,
    file: &str,
    words: &ArgMatches<'_>,
    files: &mut KeptDisk,
) -> Result<u8, ToolFault> {
    if is_json_asked(words) {
        return run_check_as_json(rt, file, words, files);
    }
    let installed = find_installed_notes(rt, words, file, files)?.notes;
    let refused = find_target_notes(rt, words, file, files)?;
    let checked = print_report_of_check(rt, file, words, files)?;
    installed.print(rt, words)?;
    refused.print(rt, words)?;
    find_overruled_notes(rt.alloc(), words, &checked.policy)?.print(rt, words)?;
    let warned = find_lint_notes(rt.alloc(), words, &checked.policy)?;
    warned.print(rt, words)?;
    let noted = installed
        .status_of_words(words)
        .max(refused.status_of_words(words))
        .max(warned.status_of_words(words));
    Ok(checked.status.max(noted))
}

/// Prints the report on a policy, or all its errors if `words` ask for them. Returns the exit status, and the policy if it has no error.
fn print_report_of_check(
    rt: &HostRuntime,
    file: &str,
    words: &ArgMatches<'_>,
    files: &mut KeptDisk,
) -> Result<CheckedPolicy, ToolFault> {
    if print_all_errors(rt, words, file, files)? {
        return Ok(CheckedPolicy {
            status: 1,
            policy: None,
        });
    }
    let mut writer = Counted::new(open_standard_output(rt));
    let root = file.as_bytes();
    let asked = CheckWords {
        quiet: words.get_flag("quiet"),
        strict: words.get_flag("strict"),
        skipped: words.get_flag("skipped") || are_installed_notes_asked(words),
    };
    run_check_and_keep_policy(rt.alloc(), files, root, &asked, &mut writer)
}

/// Prints an error and the lines `explanation`, and returns the exit status `error_status`. Prints nothing if memory runs out.
fn report_fault(
    rt: &HostRuntime,
    trouble: &FileTrouble,
    error_status: u8,
    explanation: &[u8],
) -> u8 {
    if let Ok(text) = trouble.text(rt.alloc())
        && print_error_line(rt, &[text.as_slice()]).is_ok()
    {
        print_explanation(rt, explanation);
    }
    error_status
}
