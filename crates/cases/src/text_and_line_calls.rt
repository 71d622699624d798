//! What `sudoers_text`, `sudoers_grammar` and `sudoers_line_reader` say of a text.
//!
//! The body of a call is the text. Its answer is what `{:?}` writes.

use crate::answer_output::push_debug_format;
use crate::case_frames::CaseCall;
use std::alloc::{AllocError, Global};
use sudoers_line_reader::{ParsedLine, parse};
use sudoers_line_rows::find_alias_members;
use sudoers_text::{
    LINE_LIMIT, Lines, Mode, TEXT_LIMIT, begins_line_end, choose_line_mode, cut, ends_in_lf,
    is_logical_line, is_name, is_reserved, is_whole_argument, leading_blanks_len, line_end_len,
    tokens, value,
};

/// Adds what is said of the text of `call`; `unknown` if this is not known.
pub fn push_answer_of_text_and_line_call(
    alloc: Global,
    call: CaseCall<'_>,
    answers: &mut String,
) -> Result<(), AllocError> {
    let text = call.body;
    match call.asked {
        b'l' => push_logical_lines(alloc, text, answers),
        b'w' => push_line_tokens(alloc, text, Mode::Words, answers),
        b'c' => push_line_tokens(alloc, text, Mode::Commands, answers),
        b'p' => push_line_tokens(alloc, text, Mode::Parameters, answers),
        b'v' => push_word_value(alloc, text, answers),
        b'P' => push_debug_format(&parse(alloc, text), answers),
        b'O' => push_aliases_mentioned_in_line_text(alloc, text, answers),
        _ => push_text_test_answer(call, answers),
    }
}

/// Adds what a test or a measure of the text of `call` says; `unknown` if this is not known.
fn push_text_test_answer(call: CaseCall<'_>, answers: &mut String) -> Result<(), AllocError> {
    let text = call.body;
    match call.asked {
        b'm' => push_debug_format(&choose_line_mode(text), answers),
        b'n' => push_debug_format(&is_name(text), answers),
        b'r' => push_debug_format(&is_reserved(text), answers),
        b'i' => push_debug_format(&is_logical_line(text), answers),
        b'a' => push_debug_format(&is_whole_argument(text), answers),
        b'b' => push_debug_format(&leading_blanks_len(text), answers),
        b'e' => push_debug_format(&(line_end_len(text), begins_line_end(text)), answers),
        b'f' => push_debug_format(&ends_in_lf(text), answers),
        b's' => push_debug_format(&(LINE_LIMIT, TEXT_LIMIT), answers),
        _ => answers.push_str("unknown"),
    }
}

/// Adds what `word` stands for.
fn push_word_value(alloc: Global, word: &[u8], answers: &mut String) -> Result<(), AllocError> {
    push_debug_format(&value(alloc, word)?, answers)
}

/// Adds the tokens of `line`, or why it has none.
fn push_line_tokens(
    alloc: Global,
    line: &[u8],
    mode: Mode,
    answers: &mut String,
) -> Result<(), AllocError> {
    push_debug_format(&tokens(alloc, line, mode), answers)
}

/// Adds the aliases that are members of lists in `line`, or why it is refused.
fn push_aliases_mentioned_in_line_text(
    alloc: Global,
    line: &[u8],
    answers: &mut String,
) -> Result<(), AllocError> {
    let parsed = parse(alloc, line);
    match &parsed {
        Ok(reading) => push_aliases_mentioned_in_parsed_line(alloc, reading, answers),
        Err(fault) => write!(answers, "Err({fault:?})"),
    }
}

/// Adds the aliases that are members of lists in the line that was read.
fn push_aliases_mentioned_in_parsed_line(
    alloc: Global,
    reading: &ParsedLine,
    answers: &mut String,
) -> Result<(), AllocError> {
    let aliases = find_alias_members(alloc, &reading.node())?;
    write!(answers, "Ok({aliases:?})")
}

/// Adds the lines of `text`, or why it has none.
fn push_logical_lines(alloc: Global, text: &[u8], answers: &mut String) -> Result<(), AllocError> {
    match cut(alloc, text) {
        Ok(lines) => push_lines_and_count(&lines, answers),
        Err(fault) => push_debug_format(&fault, answers),
    }
}

/// Adds how many lines there are, whether there is none, each line, and what is at two places after the last.
fn push_lines_and_count(lines: &Lines<'_>, answers: &mut String) -> Result<(), AllocError> {
    push_debug_format(&(lines.len(), lines.is_empty()), answers)?;
    for i in 0..lines.len() {
        answers.push(' ')?;
        push_debug_format(&lines.get(i), answers)?;
    }
    let past = (lines.get(lines.len()), lines.get(usize::MAX));
    answers.push(' ')?;
    push_debug_format(&past, answers)
}
