//! What a command answers over files in memory that fail at one call.

use crate::ANSWER_ROOM;
use crate::answer_output::{push_display_format, push_escaped_text};
use crate::case_frames::{
    CaseCall, split_eight_byte_number, split_first_call, split_first_part_or_empty, words_of_parts,
};
use crate::conversion_calls::push_text_of_fault;
use crate::gathering_calls::FailingFiles;
use crate::loading_calls::named_files_of_parts;
use std::alloc::{AllocError, Global};
use sudoers_files::{Files, FilesInMemory};
use sudoers_run::{
    CheckWords, ConvertWords, Counted, ListWords, OutputForm, Sink, ToolFault, run_check,
    run_convert, run_edit, run_list, run_show,
};
use sudoers_tree::Items;

/// Adds what a command answers over the files that `parts` are: its status or its fault, what it writes, and how often it asks for files.
/// `body` has the number of the call that fails, from 1, and the command.
pub fn push_command_outcome(
    alloc: Global,
    body: &[u8],
    parts: &[u8],
    answers: &mut String,
) -> Result<(), AllocError> {
    let (failing, rest) = split_eight_byte_number(body);
    let Some((command, _)) = split_first_call(rest) else {
        return answers.push_str("unknown");
    };
    let files = FilesInMemory::new(named_files_of_parts(alloc, parts)?);
    let mut files = FailingFiles::new(files, failing);
    // A writer without room would fail where memory is refused.
    let mut written = Vec::with_capacity(alloc, ANSWER_ROOM)?;
    let outcome = run_command(alloc, &mut files, command, &mut Counted::new(&mut written));
    match outcome {
        Ok(status) => push_display_format(&status, answers)?,
        Err(fault) => push_text_of_fault(alloc, fault, answers)?,
    }
    answers.push('\t')?;
    push_escaped_text(written.as_slice(), answers)?;
    answers.push('\t')?;
    push_display_format(&files.calls(), answers)
}

/// Runs the command that `command` names. Its body is the name of the root, and then further parts; that of `edit` is its input.
fn run_command<F: Files, W: Sink>(
    alloc: Global,
    files: &mut F,
    command: CaseCall<'_>,
    writer: &mut W,
) -> Result<u8, ToolFault> {
    let (root, parts) = split_first_part_or_empty(command.body);
    match command.asked {
        b'c' => {
            let words = CheckWords {
                quiet: false,
                strict: false,
                skipped: true,
            };
            run_check(alloc, files, root, &words, writer)
        }
        b'v' => {
            let words = ConvertWords {
                form: OutputForm::Sudoers,
                filter: None,
                prune: false,
                expand: true,
            };
            run_convert(alloc, files, root, &words, writer)
        }
        b'l' => run_list_over_files(alloc, files, root, parts, writer),
        b'e' => run_edit(alloc, &mut Counted::new(command.body), 0, 0, writer),
        _ => run_show(alloc, files, root, writer),
    }
}

/// Runs `list`. The parts are passwd, group, the user, the host, the moment and the words, each a part.
fn run_list_over_files<F: Files, W: Sink>(
    alloc: Global,
    files: &mut F,
    root: &[u8],
    parts: &[u8],
    writer: &mut W,
) -> Result<u8, ToolFault> {
    let (passwd, rest) = split_first_part_or_empty(parts);
    let (group, rest) = split_first_part_or_empty(rest);
    let (user, rest) = split_first_part_or_empty(rest);
    let (host, rest) = split_first_part_or_empty(rest);
    let (moment, rest) = split_first_part_or_empty(rest);
    let (command, _) = split_first_part_or_empty(rest);
    let command = words_of_parts(alloc, command)?;
    let words = make_list_words(user, host, moment, command.as_slice());
    run_list(
        alloc,
        files,
        root,
        &mut Counted::new(passwd),
        &mut Counted::new(group),
        &words,
        writer,
    )
}

/// Returns the words of `list` that ask for the reason.
fn make_list_words<'a>(
    user: &'a [u8],
    host: &'a [u8],
    moment: &'a [u8],
    words: &'a [Items<u8>],
) -> ListWords<'a> {
    let unnamed: Option<&'a [u8]> = None;
    ListWords {
        user,
        host,
        moment,
        interfaces: b"",
        target: unnamed,
        group: unnamed,
        words,
        why: true,
    }
}
