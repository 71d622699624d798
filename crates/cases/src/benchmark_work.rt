//! What the benchmark times: the work on a text, done again and again.
//!
//! The body of a call is a number, how often, and the text. Its answer is the last count.

ghost use Rattle.std.specs.Prelude.{◌≡◌, ◌≤◌, ℕ, List, length, IfOk};
ghost use Rattle.sudoers_text.specs.Fault.{IsFaultlessCut};

use crate::answer_output::push_display_format;
use crate::case_frames::{CaseCall, split_eight_byte_number};
use std::alloc::{AllocError, Global};
use sudoers_line_reader::read_line;
use sudoers_line_rows::Tables;
use sudoers_text::{Lines, TextFault, choose_line_mode, cut, tokens};

/// Adds the last count; `unknown` if the work is not known.
pub fn push_answer_of_benchmark_call(
    alloc: Global,
    call: CaseCall<'_>,
    answers: &mut String,
) -> Result<(), AllocError> {
    let (times, text) = split_eight_byte_number(call.body);
    match call.asked {
        b'c' => push_display_format(
            &cut_text_repeatedly_and_get_last_line_count(alloc, text, times),
            answers,
        ),
        b't' => push_display_format(
            &count_tokens_repeatedly_and_get_last_count(alloc, text, times),
            answers,
        ),
        b'p' => push_display_format(
            &parse_lines_repeatedly_and_get_last_count(alloc, text, times),
            answers,
        ),
        _ => answers.push_str("unknown"),
    }
}

/// Cuts `text` into lines as often as `times`, and returns how many there are; 0 if it cannot be cut.
fn cut_text_repeatedly_and_get_last_line_count(alloc: Global, text: &[u8], times: u64) -> usize {
    let mut count = 0;
    for _ in 0..times {
        count = line_count_of_text(alloc, text).unwrap_or(0);
    }
    count
}

/// Cuts `text` into lines and these into tokens as often as `times`, and returns how many tokens there are; 0 if it cannot be cut.
fn count_tokens_repeatedly_and_get_last_count(alloc: Global, text: &[u8], times: u64) -> usize {
    let mut count = 0;
    for _ in 0..times {
        count = token_count_of_text(alloc, text).unwrap_or(0);
    }
    count
}

/// Cuts `text` into lines once, parses these as often as `times`, and returns how many parse; 0 if it cannot be cut.
fn parse_lines_repeatedly_and_get_last_count(alloc: Global, text: &[u8], times: u64) -> usize {
    let Ok(lines) = cut(alloc, text) else {
        return 0;
    };
    let mut count = 0;
    for _ in 0..times {
        count = parsed_line_count_of(alloc, &lines);
    }
    count
}

/// Returns the number of lines of `text`.
///
/// # Errors
///
/// Those of `cut`.
fn line_count_of_text(alloc: Global, text: &[u8]) -> Result<usize, TextFault>
    ensures { IfOk result (λ count. (lines : List (List ℕ)) × IsFaultlessCut text.now lines × (count ≡ length lines)) }
{
    let lines = cut(alloc, text)?;
    Ok(lines.len())
}

/// Returns the number of tokens that the lines of `text` have.
///
/// # Errors
///
/// Those of `cut` and `tokens`.
fn token_count_of_text(alloc: Global, text: &[u8]) -> Result<usize, TextFault> {
    let lines = cut(alloc, text)?;
    let mut count: usize = 0;
    for i in 0..lines.len() {
        if let Some(line) = lines.get(i) {
            count = count.wrapping_add(tokens(alloc, line, choose_line_mode(line))?.len());
        }
    }
    Ok(count)
}

/// Returns the number of `lines` that parse, as far as memory is found.
fn parsed_line_count_of(alloc: Global, lines: &Lines<'_>) -> usize
    ensures { result ≤ length lines.now }
{
    let mut count: usize = 0;
    let mut tables = Tables::new(alloc);
    for i in 0..lines.len() {
        if let Some(line) = lines.get(i) {
            if read_line(alloc, &mut tables, line, 0).is_ok() {
                count += 1;
            }
        }
    }
    count
}
