//! Changes of lines: those that calls are, and whether they bring lines.

ghost use Rattle.std.specs.Prelude.{◌≡◌, ◌≤◌, true, IfSome};
ghost use Rattle.std.specs.List.{AllByRecursion};
ghost use Rattle.sudoers_text.specs.Ended.{ends_in_lf};
ghost use Rattle.sudoers_text.specs.Whole.{IsLogicalLine};
ghost use Rattle.sudoers_tree.specs.Changed.{texts_of_changes, min_line_number_after_change, line_number_of_change, text_of_change};

use crate::case_frames::{CaseCall, split_eight_byte_number, split_first_call};
use std::alloc::{AllocError, Global};
use sudoers_text::{ends_in_lf, is_logical_line};
use sudoers_tree::{Items, LineChange};

/// Returns the first place that a change after `change` may have. `None` if its own is below `from`, or none of so many lines.
pub fn check_change_and_find_least_place_for_next(
    change: &LineChange,
    from: usize,
    count: usize,
) -> Option<usize>
    ensures { IfSome result (λ place. (from ≤ line_number_of_change change.now) × (place ≡ min_line_number_after_change change.now)) }
{
    match change {
        LineChange::Put { at, .. } if from <= *at => Some(*at),
        LineChange::Swap { at, .. } | LineChange::Take { at, .. } if from <= *at && *at < count => {
            Some(*at + 1)
        }
        _ => None,
    }
}

/// Returns whether each text that `changes` bring is a line that ends in LF.
pub fn are_all_texts_of_changes_ended_lines(changes: &[LineChange]) -> bool
    ensures lines { result ≡ true → AllByRecursion IsLogicalLine (texts_of_changes changes.now) }
    ensures ended { result ≡ true → AllByRecursion (λ line. ends_in_lf line ≡ true) (texts_of_changes changes.now) }
{
    for change in changes {
        if !is_text_of_change_ended_line(change) {
            return false;
        }
    }
    true
}

/// Returns whether the text that `change` brings, if it brings one, is a line that ends in LF.
#[tactic(auto, using(crate::proofs::WholeLines::logical_line_test_implies_logical_line))]
fn is_text_of_change_ended_line(change: &LineChange) -> bool
    ensures { result ≡ true → IfSome (text_of_change change.now) (λ text. IsLogicalLine text × (ends_in_lf text ≡ true)) }
{
    match change {
        LineChange::Put { text, .. } | LineChange::Swap { text, .. } => {
            is_logical_line(text.as_slice()) && ends_in_lf(text.as_slice())
        }
        LineChange::Take { .. } => true,
    }
}

/// Returns the changes that calls are: `p` puts a line, `s` replaces one, and another takes one out. The body is the number of the file,
/// the place and the line.
///
/// # Errors
///
/// Memory ran out.
pub fn line_changes_of_calls(alloc: Global, calls: &[u8]) -> Result<Vec<LineChange>, AllocError> {
    let mut changes = Vec::new(alloc);
    let mut left = calls;
    for _ in 0..calls.len() {
        let Some((call, rest)) = split_first_call(left) else {
            break;
        };
        changes.push(line_change_of_call(alloc, call)?)?;
        left = rest;
    }
    Ok(changes)
}

/// Returns the change that `call` is.
fn line_change_of_call(alloc: Global, call: CaseCall<'_>) -> Result<LineChange, AllocError> {
    let (file, rest) = split_eight_byte_number(call.body);
    let (number, line) = split_eight_byte_number(rest);
    let (file, at) = (file as usize, number as usize);
    let text = Items::from_slice(alloc, line)?;
    Ok(match call.asked {
        b'p' => LineChange::Put { file, at, text },
        b's' => LineChange::Swap { file, at, text },
        _ => LineChange::Take { file, at },
    })
}
