//! The subcommand `convert`: its command line, and its run.

use crate::dialect_option::make_dialect_option;
use crate::files::KeptDisk;
use crate::json_output::write_document;
use crate::target_notes::find_refused_place;
use crate::terminal::{open_standard_output, print_error_line};
use clap::{Arg, ArgAction, ArgMatches, Command};
use std::alloc::{AllocError, Global};
use sudoers_cvt_sudo::spell_for_sudo;
use sudoers_run::{ConvertWords, Counted, OutputForm, ToolFault, run_convert};

/// The option that names the program for which the output is spelled.
const READER: &str = "READER";

/// The programs for which the output can be spelled.
static READERS: [&str; 1] = ["sudo"];

/// The forms in which `convert` prints.
static FORMS: [&str; 2] = ["sudoers", "json"];

/// Returns the command line of `convert`.
pub fn make_convert_subcommand<'a>(
    alloc: Global,
    top: Arg<'a>,
    file: Arg<'a>,
) -> Result<Command<'a>, AllocError> {
    let form = Arg::new(alloc, "FORM")
        .short('f')
        .long("form")
        .required(true)
        .value_parser(FORMS.as_slice())
        .help("Form of the output: sudoers or json")
        .hide_possible_values(true);
    let expand = Arg::new(alloc, "expand")
        .short('e')
        .long("expand-aliases")
        .action(ArgAction::SetTrue)
        .help("Replace aliases by their members");
    Command::new(alloc, "convert")
        .about(
            "Print the rules of a policy and of the files that it includes anew, as one policy or as JSON, without comments",
        )
        .arg(form)?
        .arg(expand)?
        .arg(make_filter_option(alloc))?
        .arg(make_prune_lists_to_matches_flag(alloc))?
        .arg(make_reader_option(alloc))?
        .arg(make_dialect_option(alloc))?
        .arg(top)?
        .arg(file)
}

/// Returns the option with the text of a filter.
fn make_filter_option<'a>(alloc: Global) -> Arg<'a> {
    Arg::new(alloc, "FILTER").short('m').long("match").help(
        "Print only rules for users, groups and hosts of these names, as user=bob,group=adm,host=www1; for review only",
    )
}

/// Returns the option that prunes lists.
fn make_prune_lists_to_matches_flag<'a>(alloc: Global) -> Arg<'a> {
    Arg::new(alloc, "prune")
        .short('p')
        .long("prune-matches")
        .action(ArgAction::SetTrue)
        .help("With -m, drop other users and hosts from the lists of these rules")
}

/// Returns the option that names the program for which the output is spelled.
fn make_reader_option<'a>(alloc: Global) -> Arg<'a> {
    Arg::new(alloc, READER)
        .long("for")
        .value_parser(READERS.as_slice())
        .hide_possible_values(true)
        .help(
            "With -f sudoers, spell the output for this program, where another spelling says the same: sudo",
        )
}

/// Returns whether `words` ask for JSON that is spelled for a program.
pub fn is_json_spelled_for_reader(words: &ArgMatches<'_>) -> bool {
    words.get_str(READER).is_some() && form_of_convert_words(words) == OutputForm::Json
}

/// Returns the form that the words of `convert` name.
fn form_of_convert_words(words: &ArgMatches<'_>) -> OutputForm {
    match words.get_str("FORM") {
        Some("json") => OutputForm::Json,
        _ => OutputForm::Sudoers,
    }
}

/// Returns what the words of `convert` ask for.
fn form_filter_and_flags_of_convert_matches<'a>(words: &ArgMatches<'a>) -> ConvertWords<'a> {
    ConvertWords {
        form: form_of_convert_words(words),
        filter: match words.get_str("FILTER") {
            Some(text) => Some(text.as_bytes()),
            None => None,
        },
        prune: words.get_flag("prune"),
        expand: words.get_flag("expand"),
    }
}

/// Converts a policy, or standard input.
pub fn run_convert_command(
    rt: &HostRuntime,
    file: &str,
    words: &ArgMatches<'_>,
    files: &mut KeptDisk,
) -> Result<u8, ToolFault> {
    let asked = form_filter_and_flags_of_convert_matches(words);
    let root = file.as_bytes();
    if words.get_str(READER).is_some() {
        return print_rules_for_sudo(rt, root, &asked, files);
    }
    let mut writer = Counted::new(open_standard_output(rt));
    run_convert(rt.alloc(), files, root, &asked, &mut writer)
}

/// Prints the rules of the policy `root`, as `asked`, spelled for sudo. Prints a line on standard error if visudo refuses some word of them
/// all the same.
fn print_rules_for_sudo(
    rt: &HostRuntime,
    root: &[u8],
    asked: &ConvertWords<'_>,
    files: &mut KeptDisk,
) -> Result<u8, ToolFault> {
    let alloc = rt.alloc();
    let mut printed = Vec::new(alloc);
    match run_convert(alloc, files, root, asked, &mut Counted::new(&mut printed)) {
        Ok(_) => {}
        Err(ToolFault::Write) => return Err(ToolFault::from(AllocError)),
        Err(fault) => return Err(fault),
    }
    let text = spell_for_sudo(alloc, printed.as_slice())?;
    let note = make_note_on_refused_place(alloc, text.as_slice())?;
    write_document(rt, text.as_slice())?;
    if !note.is_empty() {
        let _ = print_error_line(rt, &[note.as_slice()]);
    }
    Ok(0)
}

/// Returns the line that names the place of the first word that visudo refuses in the policy with the text `text`; no bytes if it refuses
/// none.
fn make_note_on_refused_place(alloc: Global, text: &[u8]) -> Result<Vec<u8>, ToolFault> {
    let mut note = Vec::new(alloc);
    if let Some(place) = find_refused_place(alloc, text)? {
        note.extend_from_slice(b"standard output:")?;
        note.extend_from_slice(place.as_slice())?;
        note.extend_from_slice(b": refused by visudo -c; `check --for sudo` says why")?;
    }
    Ok(note)
}
