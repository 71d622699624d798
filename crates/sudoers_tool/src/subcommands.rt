//! The command line that the program understands.

use crate::adapt_command::make_adapt_subcommand;
use crate::all_errors::make_all_flag;
use crate::apply_command::{APPLY, make_apply_subcommand};
use crate::ask_subcommands::{make_what_subcommand, make_who_subcommand, make_why_subcommand};
use crate::convert_command::make_convert_subcommand;
use crate::dialect_option::make_dialect_option;
use crate::diff_command::make_diff_subcommand;
use crate::edit_command::{EDIT, make_edit_subcommand};
use crate::explaining::add_error_options;
use crate::files::TOP;
use crate::installed::make_installed_flag;
use crate::json_output::make_json_flag;
use crate::lint_notes::make_lint_flag;
use crate::list_command::make_list_subcommand;
use crate::overruled_notes::make_overruled_flag;
use crate::place_command::make_place_subcommand;
use crate::plan_command::{PLAN, make_plan_subcommand};
use crate::show_members::make_members_flag;
use crate::target_notes::make_target_option;
use clap::{Arg, ArgAction, Command};
use std::alloc::{AllocError, Global};

/// What `--version` prints after the program's name.
const VERSION: &str = "0.8.0";

/// What help prints last.
const EXIT_STATUS: &str =
    "Exit status: 0 success; 1 an error, a policy that `check` does not pass, a command that `list` does not allow, or something that `plan --check` finds to do; 2 a wrong command line; 3 an error of `apply`, `check --overruled`, `check --lint`, `diff`, `place`, `plan`, `who`, `what` or `why`. See sudoers_tool(8).";

/// Returns the command line of `show`.
fn make_show_subcommand<'a>(alloc: Global) -> Result<Command<'a>, AllocError> {
    Command::new(alloc, "show")
        .about("Print the logical lines of a policy and its alias definitions, with their numbers")
        .arg(make_json_flag(alloc))?
        .arg(make_members_flag(alloc)?)?
        .arg(make_dialect_option(alloc))?
        .arg(make_root_folder_option(alloc))?
        .arg(make_policy_file_or_stdin_argument(alloc))
}

/// Returns the command line that is understood.
pub fn make_top_level_command<'a>(alloc: Global) -> Result<Command<'a>, AllocError> {
    Command::new(alloc, "sudoers_tool")
        .version(VERSION)
        .about(
            "Check, show, compare, edit, plan, apply, place, adapt, convert and list sudoers policies. Without a command, do what `edit` does",
        )
        .after_help(EXIT_STATUS)
        .subcommand(add_error_options(
            alloc,
            make_adapt_subcommand(
                alloc,
                make_root_folder_option(alloc),
                make_policy_file_or_stdin_argument(alloc),
            )?,
        )?)?
        .subcommand(make_apply_subcommand(alloc, make_root_folder_option(alloc))?)?
        .subcommand(add_error_options(alloc, make_check_subcommand(alloc)?)?)?
        .subcommand(add_error_options(
            alloc,
            make_convert_subcommand(
                alloc,
                make_root_folder_option(alloc),
                make_policy_file_or_stdin_argument(alloc),
            )?,
        )?)?
        .subcommand(make_diff_subcommand(alloc)?)?
        .subcommand(make_edit_subcommand(alloc, make_root_folder_option(alloc))?)?
        .subcommand(add_error_options(
            alloc,
            make_list_subcommand(
                alloc,
                make_root_folder_option(alloc),
                make_policy_file_or_stdin_argument(alloc),
            )?,
        )?)?
        .subcommand(make_place_subcommand(alloc, make_root_folder_option(alloc))?)?
        .subcommand(make_plan_subcommand(alloc, make_root_folder_option(alloc))?)?
        .subcommand(add_error_options(alloc, make_show_subcommand(alloc)?)?)?
        .subcommand(make_what_subcommand(alloc, make_root_folder_option(alloc))?)?
        .subcommand(make_who_subcommand(alloc, make_root_folder_option(alloc))?)?
        .subcommand(make_why_subcommand(alloc, make_root_folder_option(alloc))?)
}

/// Returns the command line of `check`.
fn make_check_subcommand<'a>(alloc: Global) -> Result<Command<'a>, AllocError> {
    let quiet = Arg::new(alloc, "quiet")
        .short('q')
        .action(ArgAction::SetTrue)
        .help("Print no report; only set the exit status");
    let strict = Arg::new(alloc, "strict")
        .short('s')
        .action(ArgAction::SetTrue)
        .help("Treat undefined and cyclic aliases as errors");
    let skipped = Arg::new(alloc, "skipped")
        .long("skipped")
        .action(ArgAction::SetTrue)
        .help(
            "After the report, list the folders and the files in included folders that are not read",
        );
    Command::new(alloc, "check")
        .about(
            "Check the syntax of a policy with the files that it includes, and report undefined, cyclic and unused aliases; names and values of Defaults are checked with --for alone",
        )
        .arg(quiet)?
        .arg(strict)?
        .arg(skipped)?
        .arg(make_installed_flag(alloc)?)?
        .arg(make_target_option(alloc)?)?
        .arg(make_overruled_flag(alloc))?
        .arg(make_lint_flag(alloc))?
        .arg(make_dialect_option(alloc))?
        .arg(make_all_flag(alloc))?
        .arg(make_json_flag(alloc))?
        .arg(make_root_folder_option(alloc))?
        .arg(make_policy_files_argument(alloc))
}

/// Returns the argument that names policy files, each of a policy of its own.
fn make_policy_files_argument<'a>(alloc: Global) -> Arg<'a> {
    Arg::new(alloc, "FILE").required(true).num_args(1..).help(
        "Policy files, each of a policy of its own, or `-` for standard input",
    )
}

/// Returns the option with the folder below which absolute names are read.
fn make_root_folder_option<'a>(alloc: Global) -> Arg<'a> {
    Arg::new(alloc, TOP).long("root").help(
        "Read FILE and included files as a system does whose root is this folder, as an image; messages name them without it",
    )
}

/// Returns the argument that names a policy file.
fn make_policy_file_or_stdin_argument<'a>(alloc: Global) -> Arg<'a> {
    Arg::new(alloc, "FILE")
        .required(true)
        .help("Policy file, or `-` for standard input")
}

/// Returns the command line whose usage an error of the command `name` shows.
pub fn make_command_for_usage<'a>(alloc: Global, name: &str) -> Result<Command<'a>, AllocError> {
    let top = make_root_folder_option(alloc);
    match name {
        EDIT => make_edit_subcommand(alloc, top),
        APPLY => make_apply_subcommand(alloc, top),
        PLAN => make_plan_subcommand(alloc, top),
        _ => make_top_level_command(alloc),
    }
}
