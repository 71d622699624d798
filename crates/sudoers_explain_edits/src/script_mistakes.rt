//! What is wrong with a line of a script, and where.

use crate::commands::{
    COMMAND_FORMS, CommandForm, form_of_command_word, is_file_scoped_word, is_kind_word,
    is_script_number,
};
use crate::edit_hints::EditHint;
use crate::nearest::Nearest;
use crate::script_rows::{ScriptRow, find_row, is_payload_text};
use std::alloc::{AllocError, Global};

/// A mistake in a line of a script: the number of the byte of the line at which it is, the hint that fits it, and a word for that hint.
#[derive(Clone, Copy)]
pub struct ScriptMistake {
    pub at: usize,
    pub hint: EditHint,
    pub word: &'static str,
}

impl ScriptMistake {
    /// Returns the mistake at the byte `at` with the hint `hint`.
    fn new(at: usize, hint: EditHint) -> ScriptMistake {
        ScriptMistake { at, hint, word: "" }
    }

    /// Returns the mistake at the byte `at` with the hint `hint`, of which the word `word` is part.
    fn from_hint_and_word(at: usize, hint: EditHint, word: &'static str) -> ScriptMistake {
        ScriptMistake { at, hint, word }
    }
}

/// Returns what is wrong with the line `row` of the script `script`, which is the error BadWord.
///
/// # Errors
///
/// Memory ran out.
pub fn find_word_mistake(
    alloc: Global,
    script: &[u8],
    row: &ScriptRow<'_>,
) -> Result<ScriptMistake, AllocError> {
    if is_payload_text(row.text) {
        return Ok(find_text_line_mistake(script, row));
    }
    if let Some(mistake) = find_byte_mistake(row.text) {
        return Ok(mistake);
    }
    match form_of_command_word(row.text_of_word(0)) {
        Some(form) => Ok(find_form_mistake(script, row, &form)),
        None => find_command_mistake(alloc, script, row),
    }
}

/// Returns what is wrong with the bytes of the line `text`.
fn find_byte_mistake(text: &[u8]) -> Option<ScriptMistake> {
    match text {
        [] | [b'\r'] => return Some(ScriptMistake::new(0, EditHint::EmptyLine)),
        [b'#', ..] => return Some(ScriptMistake::new(0, EditHint::Comment)),
        [b' ' | b'\t', ..] => return Some(ScriptMistake::new(0, EditHint::BlankAtBeginning)),
        _ => {}
    }
    let last = text.len().saturating_sub(1);
    match text.last() {
        Some(b'\r') => return Some(ScriptMistake::new(last, EditHint::CarriageReturnAtEnd)),
        Some(b' ' | b'\t') => return Some(ScriptMistake::new(last, EditHint::BlankAtEnd)),
        _ => {}
    }
    if let Some(at) = text.iter().position(|byte| *byte == b'\t') {
        return Some(ScriptMistake::new(at, EditHint::Tab));
    }
    match offset_of_second_blank(text) {
        Some(at) => Some(ScriptMistake::new(at, EditHint::TwoBlanks)),
        None => None,
    }
}

/// Returns the number of the first byte of `text` that is a blank behind a blank.
fn offset_of_second_blank(text: &[u8]) -> Option<usize> {
    let mut is_after_blank = false;
    for (at, byte) in text.iter().enumerate() {
        if is_after_blank && *byte == b' ' {
            return Some(at);
        }
        is_after_blank = *byte == b' ';
    }
    None
}

/// Returns what is wrong with the line `row`, which begins as a text line.
fn find_text_line_mistake(script: &[u8], row: &ScriptRow<'_>) -> ScriptMistake {
    if !row.is_ended {
        return ScriptMistake::new(row.text.len(), EditHint::LineEnd);
    }
    let before = text_before(script, row);
    if before.starts_with(b"|") && row.text == b">".as_slice() {
        return ScriptMistake::new(0, EditHint::EmptyTextLine);
    }
    if before.starts_with(b">") {
        return ScriptMistake::new(0, EditHint::LastTextLine);
    }
    ScriptMistake::new(0, EditHint::TextLine)
}

/// Returns the bytes of the line before the line `row`; no bytes if that is the first.
fn text_before<'a>(script: &'a [u8], row: &ScriptRow<'_>) -> &'a [u8] {
    if row.number <= 1 {
        return b"";
    }
    find_row(script, row.number.saturating_sub(1)).text
}

/// Returns what is wrong with the words of the line `row`, of which the first is that of the command `form`.
fn find_form_mistake(script: &[u8], row: &ScriptRow<'_>, form: &CommandForm) -> ScriptMistake {
    let wanted = form.count.saturating_add(1);
    let extra = row.offset_of_word(wanted);
    if row.word_count() != wanted {
        return if row.text_of_word(wanted).starts_with(b"#") {
            ScriptMistake::new(extra, EditHint::Comment)
        } else {
            ScriptMistake::from_hint_and_word(extra, EditHint::Form, form.form)
        };
    }
    if form.has_kind() && !is_kind_word(row.text_of_word(1)) {
        return ScriptMistake::new(row.offset_of_word(1), EditHint::Kind);
    }
    if !row.is_ended {
        return ScriptMistake::new(row.text.len(), EditHint::LineEnd);
    }
    let after = find_row(script, row.number.saturating_add(1));
    if is_file_scoped_word(after.text_of_word(0)) {
        return ScriptMistake::new(row.offset_of_word(1), EditHint::FileIsSet);
    }
    ScriptMistake::new(0, EditHint::FileBeforeCommand)
}

/// Returns what is wrong with the first word of the line `row`, which is no command.
fn find_command_mistake(
    alloc: Global,
    script: &[u8],
    row: &ScriptRow<'_>,
) -> Result<ScriptMistake, AllocError> {
    let first = row.text_of_word(0);
    for form in &COMMAND_FORMS {
        if form.word.as_bytes().eq_ignore_ascii_case(first) {
            return Ok(ScriptMistake::from_hint_and_word(0, EditHint::SmallLetters, form.word));
        }
    }
    if first == b"undo".as_slice() || first == b"redo".as_slice() {
        return Ok(ScriptMistake::new(0, EditHint::Undo));
    }
    let nearest = find_nearest_command(alloc, first)?;
    if !nearest.is_empty() {
        return Ok(ScriptMistake::from_hint_and_word(0, EditHint::NearestCommand, nearest));
    }
    if is_payload_text(text_before(script, row)) {
        return Ok(ScriptMistake::new(0, EditHint::TextMark));
    }
    Ok(ScriptMistake::new(0, EditHint::Command))
}

/// Returns the command that is nearest to the word `word`; no bytes if none is near.
fn find_nearest_command(alloc: Global, word: &[u8]) -> Result<&'static str, AllocError> {
    let Ok(word) = str::from_utf8(word) else {
        return Ok("");
    };
    let mut nearest = Nearest::new();
    for form in &COMMAND_FORMS {
        nearest = nearest.choose_nearer(alloc, word, form.word)?;
    }
    Ok(nearest.name())
}

/// Returns what is wrong with the line `row`, which is the error BadNumber.
pub fn find_number_mistake(row: &ScriptRow<'_>) -> ScriptMistake {
    if row.text.ends_with(b"\r") {
        return ScriptMistake::new(
            row.text.len().saturating_sub(1),
            EditHint::CarriageReturnAtEnd,
        );
    }
    if let Some(form) = form_of_command_word(row.text_of_word(0)) {
        for number in form.first_number..form.count.saturating_add(1) {
            if !is_script_number(row.text_of_word(number)) {
                return ScriptMistake::new(row.offset_of_word(number), EditHint::Number);
            }
        }
    }
    ScriptMistake::new(0, EditHint::Number)
}
