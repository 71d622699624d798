//! Notes about what a program that reads the policy refuses, for `check --for`.

use crate::files::KeptDisk;
use crate::found_words::{
    join_by_place, list_words_for_sudo, list_words_for_sudo_rs, list_words_of_parameters,
    place_of_parameter,
};
use crate::json_output::JSON;
use crate::report_notes::{ReportNotes, load_noted_policy};
use crate::word_notes::{make_notes_on_words, text_of_place};
use clap::{Arg, ArgMatches};
use std::alloc::{AllocError, Global};
use sudoers_defaults::{
    ParameterFault, ParameterGroup, list_refused_parameters, parameters_of_sudo,
    parameters_of_sudo_rs,
};
use sudoers_forms::list_refused_forms;
use sudoers_run::{LayerFault, ToolFault};
use sudoers_tree::{Policy, Span};

/// The option that names the program that reads the policy.
const TARGET: &str = "TARGET";

/// The programs for which a policy can be checked.
static TARGETS: [&str; 2] = ["sudo", SUDO_RS];

/// The program that is not sudo.
const SUDO_RS: &str = "sudo-rs";

/// A program that reads a policy.
#[derive(Clone, Copy, PartialEq, Eq)]
enum Program {
    Sudo,
    SudoRs,
}

/// A program that reads a policy: what it knows, and who refuses in its name.
#[derive(Clone, Copy)]
pub struct Target {
    pub known: &'static [ParameterGroup],
    pub refuser: &'static str,
    program: Program,
}

/// Returns the option that names the program that reads the policy.
pub fn make_target_option<'a>(alloc: Global) -> Result<Arg<'a>, AllocError> {
    Arg::new(alloc, TARGET)
        .long("for")
        .value_parser(TARGETS.as_slice())
        .hide_possible_values(true)
        .help(
            "After the report, list names and values of Defaults and other forms that this program refuses: sudo, for `visudo -c` of sudo 1.9.13, and what it answers otherwise, or sudo-rs",
        )
        .conflicts_with(JSON)
}

/// Returns whether `words` name a program that reads the policy.
pub fn are_target_notes_asked(words: &ArgMatches<'_>) -> bool {
    words.get_str(TARGET).is_some()
}

/// Returns the notes about the policy `root`, if `words` ask for them. `files` are those of the policy. A policy with an
/// error has none: its report prints the error.
pub fn find_target_notes(
    rt: &HostRuntime,
    words: &ArgMatches<'_>,
    root: &str,
    files: &mut KeptDisk,
) -> Result<ReportNotes, ToolFault> {
    let alloc = rt.alloc();
    let notes = ReportNotes::new(alloc);
    let Some(target) = find_target(words) else {
        return Ok(notes);
    };
    match load_noted_policy(alloc, root, files)? {
        Some(policy) => make_notes_on_policy(alloc, &policy, target).map_err(ToolFault::from),
        None => Ok(notes),
    }
}

/// Returns the line and the column, with a colon between them, of the first word that sudo refuses in the policy with the text `text`, the
/// only file.
pub fn find_refused_place(alloc: Global, text: &[u8]) -> Result<Option<Vec<u8>>, ToolFault> {
    let policy = Policy::read(alloc, text).map_err(LayerFault::from)?;
    let parameters = list_refused_parameters(alloc, &policy, parameters_of_sudo())?;
    let forms = list_refused_forms(alloc, &policy)?;
    let mut first = None;
    for parameter in &parameters {
        if parameter.fault != ParameterFault::NotDecided {
            first = Some(choose_first_place(first, place_of_parameter(parameter)));
        }
    }
    for form in &forms {
        first = Some(choose_first_place(first, form.at));
    }
    match first {
        Some(at) => Ok(Some(text_of_place(alloc, &policy, at)?)),
        None => Ok(None),
    }
}

/// Returns the first of `place` and `other`.
fn choose_first_place(place: Option<Span>, other: Span) -> Span {
    let Some(first) = place else {
        return other;
    };
    if (first.line, first.start) <= (other.line, other.start) {
        first
    } else {
        other
    }
}

/// Returns the program that `words` name.
fn find_target(words: &ArgMatches<'_>) -> Option<Target> {
    let name = words.get_str(TARGET)?;
    if name == SUDO_RS {
        return Some(Target {
            known: parameters_of_sudo_rs(),
            refuser: "visudo-rs -c",
            program: Program::SudoRs,
        });
    }
    Some(Target {
        known: parameters_of_sudo(),
        refuser: "visudo -c",
        program: Program::Sudo,
    })
}

/// Returns the notes on what `target` finds in `policy`, in the order of the places.
fn make_notes_on_policy(
    alloc: Global,
    policy: &Policy,
    target: Target,
) -> Result<ReportNotes, AllocError> {
    let parameters = list_words_of_parameters(alloc, policy, target.known)?;
    let forms = match target.program {
        Program::Sudo => list_words_for_sudo(alloc, policy)?,
        Program::SudoRs => list_words_for_sudo_rs(alloc, policy)?,
    };
    let words = join_by_place(alloc, parameters.as_slice(), forms.as_slice())?;
    make_notes_on_words(alloc, policy, target, words.as_slice())
}
