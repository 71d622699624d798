//! The subcommand `plan`: finds the edits that make wishes true.

use crate::also_option::make_also_option;
use crate::apply_command::{
    check_policy_name, print_changed_lines, print_edit_error_and_get_status,
};
use crate::edit_command::{POLICY, gather_files_to_edit, policy_name_of_edit_words};
use crate::explaining::{add_explaining_options, are_errors_explained};
use crate::explaining_edits::EditExplanation;
use crate::file_trouble::FileTrouble;
use crate::place_command::read_files_of_output;
use crate::place_trouble::{PlaceError, PlaceTrouble};
use crate::terminal::{open_standard_error, open_standard_output, print_error_line};
use crate::usage_errors::print_usage_error_of_command;
use crate::wish_options::{
    FORMS_OF_WISHES, GivenWishes, WISH, WishError, add_wish_options, make_wish_message,
    read_given_wishes,
};
use clap::{Arg, ArgAction, ArgMatches, Command};
use std::alloc::{AllocError, Global};
use std::io::{IsTerminal, Write};
use sudoers_edit::Editor;
use sudoers_edit_script::write_script;
use sudoers_explain::make_shown_row;
use sudoers_explain_edits::{append_refusal_text, make_user_notes};
use sudoers_plan::{EditFault, PlanFault, PlanRefusal, Wish, WishFault, plan};
use sudoers_run::{EditInputShape, LayerFault, ToolFault, fault_text, make_edit_output_of_files};
use sudoers_tree::{NamedFile, Policy};

/// The name of the subcommand.
pub const PLAN: &str = "plan";

/// The flag that asks whether there is something to do.
const CHECK: &str = "check";

/// The form of the command line.
const USAGE: &str = "sudoers_tool plan [OPTIONS] <POLICY> <WISH>...";

/// How the command line of `plan` gives a wish.
const WISH_OF_PLAN: &str = "<WISH>...";

/// The exit status where `--check` finds something to do.
const UNMET_STATUS: u8 = 1;

/// The exit status of an error.
const ERROR_STATUS: u8 = 3;

/// What help prints last.
const EXIT_STATUS: &str =
    "Exit status: 0 planned, or nothing to do; 1 with --check, something to do; 2 a wrong command line; 3 an error. See sudoers_tool(8).";

/// What each note begins with.
const LINE_START: &[u8] = b"sudoers_tool: ";

/// The script that makes wishes true.
#[derive(Drop)]
pub struct PlannedScript {
    /// The script; no bytes if the wishes are true.
    pub script: Vec<u8>,
    /// The lines about what may still concern users who leave; no bytes without such a user.
    pub notes: Vec<u8>,
}

/// Returns the command line of `plan`.
pub fn make_plan_subcommand<'a>(alloc: Global, top: Arg<'a>) -> Result<Command<'a>, AllocError> {
    let check = Arg::new(alloc, CHECK)
        .long(CHECK)
        .action(ArgAction::SetTrue)
        .help("Exit with status 1 if there is something to do");
    let also = make_also_option(alloc).help(
        "Add the file NAME, spelled as `show` spells it, behind the others, empty if it is missing; may stand more than once",
    );
    let policy = Arg::new(alloc, POLICY).required(true).help("Policy file");
    let wish = Arg::new(alloc, WISH)
        .required(true)
        .num_args(1..)
        .help(FORMS_OF_WISHES);
    let command = Command::new(alloc, PLAN)
        .about(
            "Find the edits that make wishes of a policy true, in their order, and print them as an edit script, on a terminal as changed lines; print nothing if all are true. Write no file",
        )
        .override_usage(USAGE)
        .after_help(EXIT_STATUS)
        .arg(check)?
        .arg(also)?
        .arg(top)?;
    let command = add_wish_options(alloc, command)?.arg(policy)?.arg(wish)?;
    add_explaining_options(alloc, command)
}

/// Plans the wishes that `words` give of their policy, and prints the plan, or an error. Returns the exit status.
pub fn run_plan_command(rt: &HostRuntime, words: &ArgMatches<'_>) -> u8 {
    let given = match read_given_wishes(rt, words) {
        Ok(given) => given,
        Err(error) => return print_wish_error_and_get_status(rt, PLAN, WISH_OF_PLAN, &error),
    };
    let mut explanation = EditExplanation::new(rt.alloc(), are_errors_explained(rt, words));
    match print_plan(rt, words, &given, &mut explanation) {
        Ok(is_something_to_do) => {
            if is_something_to_do && words.get_flag(CHECK) {
                UNMET_STATUS
            } else {
                0
            }
        }
        Err(error) => print_edit_error_and_get_status(rt, words, error, &mut explanation),
    }
}

/// Prints why the wishes of the command `name` cannot be read. `place` is how its command line gives one. Returns the exit status.
pub fn print_wish_error_and_get_status(
    rt: &HostRuntime,
    name: &str,
    place: &str,
    error: &WishError,
) -> u8 {
    match error {
        WishError::Text(text, fault) if !matches!(fault, WishFault::NoMemory) => {
            if let Ok(message) = make_wish_message(rt.alloc(), text.as_slice(), place, fault)
                && let Ok(status) = print_usage_error_of_command(rt, name, message.as_str())
            {
                return status;
            }
        }
        WishError::Text(..) => {
            let _ = print_error_line(rt, &[b"NoMemory"]);
        }
        WishError::UnusedOption(message) => {
            if let Ok(status) = print_usage_error_of_command(rt, name, message) {
                return status;
            }
        }
        WishError::Trouble(trouble) => {
            if let Ok(text) = trouble.text(rt.alloc()) {
                let _ = print_error_line(rt, &[text.as_slice()]);
            }
        }
    }
    ERROR_STATUS
}

/// Prints the edits that make the wishes true, and the notes about users who leave. Returns whether there is an edit.
fn print_plan(
    rt: &HostRuntime,
    words: &ArgMatches<'_>,
    given: &GivenWishes,
    explanation: &mut EditExplanation,
) -> Result<bool, PlaceError> {
    let policy = policy_name_of_edit_words(words);
    check_policy_name(rt.alloc(), policy)?;
    let files = gather_files_to_edit(rt, words, 0)?;
    let planned = make_planned_script(rt.alloc(), files.as_slice(), given, explanation)?;
    let script = planned.script.as_slice();
    if !script.is_empty() {
        print_script(rt, policy, script, files.as_slice())?;
    }
    print_notes(rt, planned.notes.as_slice());
    Ok(!script.is_empty())
}

/// Prints the script `script` of the files `files` of the policy `policy`, on a terminal as changed lines.
fn print_script(
    rt: &HostRuntime,
    policy: &str,
    script: &[u8],
    files: &[NamedFile],
) -> Result<(), PlaceError> {
    if rt.stdout().is_terminal() {
        return print_lines_changed_by_script(rt, policy, script, files);
    }
    match open_standard_output(rt).write_all(script) {
        Ok(()) => Ok(()),
        Err(_) => Err(PlaceError::from(ToolFault::Write)),
    }
}

/// Prints the lines `notes` on standard error.
pub fn print_notes(rt: &HostRuntime, notes: &[u8]) {
    if !notes.is_empty() {
        let _ = open_standard_error(rt).write_all(notes);
    }
}

/// Prints the lines that the script `script` changes in the files `files` of the policy `policy`.
fn print_lines_changed_by_script(
    rt: &HostRuntime,
    policy: &str,
    script: &[u8],
    files: &[NamedFile],
) -> Result<(), PlaceError> {
    let shape = EditInputShape::Bundle;
    match make_edit_output_of_files(rt.alloc(), script, shape, files, 0, 0) {
        Ok(edited) => {
            let files = read_files_of_output(rt.alloc(), policy, edited.as_slice())?;
            print_changed_lines(rt, &files)
        }
        Err(fault) => Err(PlaceError::from(FileTrouble::from(fault))),
    }
}

/// Returns the script that makes the wishes true of the policy of the files `files`, and the notes about users who leave.
///
/// # Errors
///
/// The files are no policy; a wish is refused; the script is too long; memory ran out.
pub fn make_planned_script(
    alloc: Global,
    files: &[NamedFile],
    given: &GivenWishes,
    explanation: &mut EditExplanation,
) -> Result<PlannedScript, PlaceError> {
    let policy = match Policy::load(alloc, files) {
        Ok(policy) => policy,
        Err(fault) => {
            let fault = LayerFault::from(fault);
            explanation.explain_run(alloc, b"", files, &fault);
            return Err(PlaceError::from(FileTrouble::from(fault)));
        }
    };
    let edits = match plan(&policy, given.wishes()) {
        Ok(edits) => edits,
        Err(refusal) => return Err(make_refusal_error(alloc, policy, given, refusal)),
    };
    let notes = make_user_notes(&policy, given.wishes(), LINE_START)?;
    match write_script(alloc, edits.as_slice()) {
        Ok(script) => Ok(PlannedScript { script, notes }),
        Err(fault) => Err(PlaceError::from(FileTrouble::from(LayerFault::from(fault)))),
    }
}

/// Returns the error of a refused wish. Its words are those of the policy as the wishes before it leave it.
fn make_refusal_error(
    alloc: Global,
    policy: Policy,
    given: &GivenWishes,
    refusal: PlanRefusal,
) -> PlaceError {
    let PlanRefusal { wish, fault } = refusal;
    let wishes = given.wishes();
    let (before, _) = wishes.split_at(wish.min(wishes.len()));
    let mut editor = Editor::new(policy);
    if let Ok(edits) = plan(editor.policy(), before) {
        let _ = editor.apply_all(edits.as_slice());
    }
    let line = match (given.find_wish(wish), fault) {
        (None, _) | (_, PlanFault::NoMemory) => Err(AllocError),
        (Some((wish, text)), fault) => {
            make_refusal_line(alloc, editor.policy(), wish, text, fault)
        }
    };
    match line {
        Ok(line) => PlaceError::Place(PlaceTrouble::from_text(alloc, line)),
        Err(error) => PlaceError::from(error),
    }
}

/// Returns the line of the wish with the text `text`, which is refused with `fault`.
fn make_refusal_line(
    alloc: Global,
    policy: &Policy,
    wish: &Wish,
    text: &[u8],
    fault: PlanFault,
) -> Result<Vec<u8>, AllocError> {
    let mut line = Vec::from_slice(alloc, text)?;
    line.extend_from_slice(b": ")?;
    match fault {
        PlanFault::Refused(EditFault::NotPolicy(fault)) => {
            line.extend_from_slice(b"NotPolicy: ")?;
            let fault = ToolFault::Layer(LayerFault::Load(fault));
            line.extend_from_slice(fault_text(alloc, &fault)?.as_slice())?;
        }
        fault => append_fault_and_words(alloc, &mut line, policy, wish, &fault)?,
    }
    make_shown_row(alloc, line.as_slice())
}

/// Appends the name of `fault`, and the words that explain it, if there are any.
fn append_fault_and_words(
    alloc: Global,
    line: &mut Vec<u8>,
    policy: &Policy,
    wish: &Wish,
    fault: &PlanFault,
) -> Result<(), AllocError> {
    let name = format!(in alloc; "{fault}")?;
    line.extend_from_slice(name.as_bytes())?;
    let mut words = Vec::new(alloc);
    append_refusal_text(&mut words, policy, wish, fault)?;
    if !words.is_empty() {
        line.extend_from_slice(b": ")?;
        line.extend_from_slice(words.as_slice())?;
    }
    Ok(())
}
