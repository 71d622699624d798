//! The subcommand `diff`: what two policies grant otherwise.

use crate::dialect_option::make_dialect_option;
use crate::diff_errors::{
    NEW_SIDE, OLD_SIDE, Side, explain_comparison_fault, explain_error_of_side, find_side_of_fault,
    print_trouble,
};
use crate::diff_json::{ComparedSides, print_document_of_changes, print_document_of_user_changes};
use crate::explaining::{add_explaining_options, are_errors_explained};
use crate::file_trouble::FileTrouble;
use crate::files::{KeptDisk, open_kept_files};
use crate::json_output::{is_json_asked, make_json_flag, write_document};
use crate::user_diff::{
    UserDiffTrouble, add_conflicts_with_users, add_user_options, are_users_asked,
    list_user_changes_of_words, make_users_argument,
};
use clap::{Arg, ArgAction, ArgMatches, Command};
use std::alloc::{AllocError, Global};
use sudoers_compare::CountedChanges;
use sudoers_files::gather;
use sudoers_review::{ChangeLines, PolicyChanges, list_changes};
use sudoers_review_users::UserChanges;
use sudoers_run::{LayerFault, ToolFault};
use sudoers_tree::Policy;

/// The command that compares two policies.
pub const DIFF: &str = "diff";

/// The policy before a change.
pub const OLD: &str = "OLD";

/// The policy after a change.
pub const NEW: &str = "NEW";

/// The option with the folder below which absolute names of the old policy are read.
pub const OLD_TOP: &str = "OLD_DIR";

/// The option with the folder below which absolute names of the new policy are read.
pub const NEW_TOP: &str = "NEW_DIR";

/// The option that leaves out what cannot grant anything.
const GRANTED: &str = "granted";

/// The exit status where the policies differ.
const OTHER_STATUS: u8 = 1;

/// What help prints last.
const EXIT_STATUS: &str =
    "Exit status: 0 the policies grant the same, or with --granted NEW allows nothing more; 1 they differ, or may; 2 a wrong command line; 3 an error. See sudoers_tool(8).";

/// Returns the command line of `diff`.
pub fn make_diff_subcommand<'a>(alloc: Global) -> Result<Command<'a>, AllocError> {
    let old_top = Arg::new(alloc, OLD_TOP)
        .long("old-root")
        .value_name("DIR")
        .help("Read OLD and its included files as a system does whose root is this folder");
    let new_top = Arg::new(alloc, NEW_TOP)
        .long("new-root")
        .value_name("DIR")
        .help("Read NEW and its included files as a system does whose root is this folder");
    let granted = Arg::new(alloc, GRANTED)
        .long(GRANTED)
        .action(ArgAction::SetTrue)
        .help(
            "Print only what may grant something: rules that came and allow, rules that went and deny, and settings of runas_default",
        );
    let old = Arg::new(alloc, OLD)
        .required(true)
        .help("Policy file before the change, or `-` for standard input");
    let new = Arg::new(alloc, NEW)
        .required(true)
        .help("Policy file after the change, or `-` for standard input");
    let command = Command::new(alloc, DIFF)
        .about(
            "Print the rules that went from a policy and those that came, with their aliases replaced, one for each command; print nothing if each request has the same answer, tags and options",
        )
        .after_help(EXIT_STATUS)
        .arg(add_conflicts_with_users(granted)?)?
        .arg(old_top)?
        .arg(new_top)?
        .arg(make_dialect_option(alloc))?
        .arg(make_json_flag(alloc))?
        .arg(old)?
        .arg(new)?
        .arg(make_users_argument(alloc))?;
    add_explaining_options(alloc, add_user_options(alloc, command)?)
}

/// Compares the policies that `words` name, and prints in what they differ, or an error. Returns the exit status.
pub fn run_diff_command(rt: &HostRuntime, words: &ArgMatches<'_>) -> u8 {
    let mut old_files = match open_side(rt, words, OLD_SIDE) {
        Ok(files) => files,
        Err(fault) => return print_trouble(rt, words, &FileTrouble::from(fault)),
    };
    let mut new_files = match open_side(rt, words, NEW_SIDE) {
        Ok(files) => files,
        Err(fault) => return print_trouble(rt, words, &FileTrouble::from(fault)),
    };
    let old = match load_side(rt, words, OLD_SIDE, &mut old_files) {
        Ok(policy) => policy,
        Err(fault) => return explain_error_of_side(rt, words, OLD_SIDE, &mut old_files, fault),
    };
    let new = match load_side(rt, words, NEW_SIDE, &mut new_files) {
        Ok(policy) => policy,
        Err(fault) => return explain_error_of_side(rt, words, NEW_SIDE, &mut new_files, fault),
    };
    let sides = ComparedSides {
        old: &old,
        new: &new,
    };
    compare_sides(rt, words, sides)
}

/// Prints in what the policies `sides`, which `words` name, differ, or an error. Returns the exit status.
fn compare_sides(rt: &HostRuntime, words: &ArgMatches<'_>, sides: ComparedSides<'_>) -> u8 {
    let (old, new) = (sides.old, sides.new);
    let fault = if are_users_asked(words) {
        match list_user_changes_of_words(rt, words, old, new) {
            Ok(changes) => return print_user_changes(rt, words, sides, changes),
            Err(UserDiffTrouble::Machine(trouble)) => return print_trouble(rt, words, &trouble),
            Err(UserDiffTrouble::Policies(fault)) => fault,
        }
    } else {
        match list_changes(rt.alloc(), choose_counted_changes(words), old, new) {
            Ok(changes) => return print_changes(rt, words, sides, changes),
            Err(fault) => fault,
        }
    };
    let side = find_side_of_fault(rt.alloc(), fault, old, new);
    explain_comparison_fault(rt, words, side, fault)
}

/// Prints what the policies `sides` grant users otherwise. Returns the exit status: 0 if there is nothing.
fn print_user_changes(
    rt: &HostRuntime,
    words: &ArgMatches<'_>,
    sides: ComparedSides<'_>,
    changes: UserChanges,
) -> u8 {
    let differ = !changes.users.lines.is_empty()
        || !changes.left.lines.is_empty()
        || !changes.others.lines.is_empty();
    let printed = if is_json_asked(words) {
        print_document_of_user_changes(rt, words, sides, &changes, differ)
    } else {
        print_texts(rt, [&changes.users, &changes.left, &changes.others])
    };
    status_of_output(rt, words, printed, differ)
}

/// Prints the lines of `all`, one text after the other.
fn print_texts(rt: &HostRuntime, all: [&ChangeLines; 3]) -> Result<(), ToolFault> {
    let mut text = Vec::new(rt.alloc());
    for lines in all {
        text.extend_from_slice(lines.text.as_slice())?;
    }
    if text.is_empty() {
        return Ok(());
    }
    write_document(rt, text.as_slice())
}

/// Returns the exit status of a comparison that was `printed`: 1 if the policies differ, or may. Prints the error of printing.
fn status_of_output(
    rt: &HostRuntime,
    words: &ArgMatches<'_>,
    printed: Result<(), ToolFault>,
    differ: bool,
) -> u8 {
    match printed {
        Ok(()) if differ => OTHER_STATUS,
        Ok(()) => 0,
        Err(fault) => print_trouble(rt, words, &FileTrouble::from(fault)),
    }
}

/// Returns which changes count by `words`.
fn choose_counted_changes(words: &ArgMatches<'_>) -> CountedChanges {
    if words.get_flag(GRANTED) {
        CountedChanges::Granting
    } else {
        CountedChanges::All
    }
}

/// Returns the files of a policy.
fn open_side(rt: &HostRuntime, words: &ArgMatches<'_>, side: Side) -> Result<KeptDisk, ToolFault> {
    let is_kept = are_errors_explained(rt, words) || is_json_asked(words);
    let file = words.get_str(side.file).unwrap_or("");
    open_kept_files(rt, words, words.get_str(side.top), file, is_kept)
}

/// Returns the policy of a side.
fn load_side(
    rt: &HostRuntime,
    words: &ArgMatches<'_>,
    side: Side,
    files: &mut KeptDisk,
) -> Result<Policy, ToolFault> {
    let file = words.get_str(side.file).unwrap_or("");
    let found = gather(rt.alloc(), file.as_bytes(), files).map_err(LayerFault::from)?;
    let policy = Policy::load(rt.alloc(), found.as_slice()).map_err(LayerFault::from)?;
    Ok(policy)
}

/// Prints in what the policies `sides` differ. Returns the exit status. It is 0 if nothing differs. If `words` have `--granted`, it is 0 too where
/// only parameters differ that this program does not weigh.
fn print_changes(
    rt: &HostRuntime,
    words: &ArgMatches<'_>,
    sides: ComparedSides<'_>,
    changes: PolicyChanges,
) -> u8 {
    let has_other_defaults = !changes.others.lines.is_empty();
    let differ = !changes.answers.lines.is_empty()
        || (has_other_defaults && !words.get_flag(GRANTED));
    let printed = if is_json_asked(words) {
        print_document_of_changes(rt, words, sides, &changes, differ)
    } else {
        let none = ChangeLines::new(rt.alloc());
        print_texts(rt, [&changes.answers, &changes.others, &none])
    };
    status_of_output(rt, words, printed, differ)
}
