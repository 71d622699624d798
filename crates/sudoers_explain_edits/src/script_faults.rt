//! The lines that explain why a text is no script.

use crate::commands::form_of_command_word;
use crate::edit_hints::{EditHint, append_advice, append_advice_with_word};
use crate::script_mistakes::{ScriptMistake, find_number_mistake, find_word_mistake};
use crate::script_rows::{ScriptRow, find_row};
use std::alloc::{AllocError, Global};
use sudoers_edit_script::{ScriptFault, read_script};
use sudoers_explain::PlaceInFile;
use sudoers_tree::{Items, NamedFile};

/// The name of a script where its lines are shown.
const SCRIPT_NAME: &[u8] = b"script";

/// Returns the script with the bytes `script` as a file whose lines are shown.
///
/// # Errors
///
/// Memory ran out.
pub fn make_script_file(alloc: Global, script: &[u8]) -> Result<NamedFile, AllocError> {
    Ok(NamedFile {
        name: Items::from_slice(alloc, SCRIPT_NAME)?,
        bytes: Items::from_slice(alloc, script)?,
    })
}

/// Returns the lines that explain `fault`, with which `edit` ended for the script `script`: the line, and what to do.
///
/// # Errors
///
/// Memory ran out.
pub fn explain_script_fault(
    alloc: Global,
    script: &[u8],
    fault: &ScriptFault,
) -> Result<Vec<u8>, AllocError> {
    let mut out = Vec::new(alloc);
    let file = make_script_file(alloc, script)?;
    match fault {
        ScriptFault::BadWord { line } => {
            let row = find_row(script, *line);
            let mistake = find_word_mistake(alloc, script, &row)?;
            append_mistake(alloc, &mut out, &file, &row, &mistake)?;
        }
        ScriptFault::BadNumber { line } => {
            let row = find_row(script, *line);
            append_mistake(alloc, &mut out, &file, &row, &find_number_mistake(&row))?;
        }
        ScriptFault::NoPayload { line } => append_missing_text(alloc, &mut out, &file, *line)?,
        ScriptFault::TooMany => append_limit(alloc, &mut out, script)?,
        ScriptFault::NoMemory => {}
    }
    Ok(out)
}

/// Appends the lines for the mistake `mistake` in the line `row` of the script `file`.
fn append_mistake(
    alloc: Global,
    out: &mut Vec<u8>,
    file: &NamedFile,
    row: &ScriptRow<'_>,
    mistake: &ScriptMistake,
) -> Result<(), AllocError> {
    let at = row.start.saturating_add(mistake.at);
    PlaceInFile { file, at }.append_excerpt(alloc, out, b"")?;
    if mistake.word.is_empty() {
        return append_advice(out, mistake.hint);
    }
    append_advice_with_word(alloc, out, mistake.hint, mistake.word.as_bytes())
}

/// Appends the lines for the command on the line `number` of the script `file`, behind which no text stands.
fn append_missing_text(
    alloc: Global,
    out: &mut Vec<u8>,
    file: &NamedFile,
    number: usize,
) -> Result<(), AllocError> {
    let script = file.bytes.as_slice();
    let row = find_row(script, number);
    let after = find_row(script, number.saturating_add(1));
    let next = after.text_of_word(0);
    if !next.is_empty() && form_of_command_word(next).is_none() {
        PlaceInFile {
            file,
            at: after.start,
        }
        .append_excerpt(alloc, out, b"")?;
    } else {
        PlaceInFile {
            file,
            at: row.stop(),
        }
        .append_excerpt(alloc, out, b"")?;
    }
    append_advice(out, hint_of_missing_text(row.text_of_word(0)))
}

/// Returns the hint for the command `word`, behind which no text stands.
fn hint_of_missing_text(word: &[u8]) -> EditHint {
    if word == b"add".as_slice() {
        EditHint::MemberText
    } else if word == b"adddef".as_slice() {
        EditHint::DefinitionText
    } else {
        EditHint::LineText
    }
}

/// Appends the advice for too many commands: of the script `script`, or else of its undo script.
fn append_limit(alloc: Global, out: &mut Vec<u8>, script: &[u8]) -> Result<(), AllocError> {
    match read_script(alloc, script) {
        Err(ScriptFault::NoMemory) => Err(AllocError),
        Err(_) => append_advice(out, EditHint::ScriptLimit),
        Ok(_) => append_advice(out, EditHint::UndoLimit),
    }
}
