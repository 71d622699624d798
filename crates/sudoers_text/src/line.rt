//! The logical lines of a text.

ghost use Rattle.std.specs.Prelude.{◌≡◌, ◌<◌, ◌≤◌, ◌⊎◌, ◌==◌, ℕ, List, length, slice_get, slice_range, IfOk, IfErr, Option};
ghost use Rattle.std.specs.Option.{option_copied};
ghost use Rattle.sudoers_text.specs.Span.{texts_of_spans, AreContiguousSpans};
ghost use Rattle.sudoers_text.specs.Fault.{IsFaultlessCut, IsFaultOfText};
ghost use Rattle.sudoers_text.specs.Cut.{cut_outcome_of_text, IsOutcomeUnlessNoMemory};

use crate::cutting::{LineSpan, TEXT_LIMIT, find_first_fault, split_into_line_spans};
use crate::fault::TextFault;
use std::alloc::Global;
use std::marker::Model;

/// The logical lines of a text, as places in it. Contracts see the list of their texts.
#[derive(Drop)]
pub struct Lines<'a> {
    text: &'a [u8],
    spans: Vec<LineSpan>,
}

impl<'a> Model for Lines<'a> {
    ghost Value = { List (List ℕ) };

    ghost view = { λ lines. texts_of_spans lines.text.now lines.spans.items };

    ghost invariant = { λ lines. AreContiguousSpans 0 lines.spans.items (length lines.text.now) };
}

impl<'a> Lines<'a> {
    /// Returns how many lines there are.
    pub fn len(&self) -> usize
        ensures { result ≡ length self.now }
    {
        self.spans.len()
    }

    /// Returns whether there is none, as in the empty text.
    pub fn is_empty(&self) -> bool
        ensures { result ≡ (length self.now == 0) }
    {
        self.spans.is_empty()
    }

    /// Returns the text of a line, its line end included. Lines count from 0; none stands past the last.
    pub fn get(&self, i: usize) -> Option<&'a [u8]>
        ensures { option_copied result ≡ slice_get self.now i }
    {
        let span = self.spans.get(i)?;
        Some(slice_of_span(self.text, *span))
    }
}

/// Returns the logical lines of a text, or the first thing that is wrong with it.
///
/// Physical lines are joined by a backslash directly before a line end (sudoers(5), the rules of its grammar for long
/// lines); a comment, an ID and an include are told apart by what stands left of their `#`.
///
/// # Errors
///
/// [`TextFault`]: a text of more than 1,048,576 bytes first; else the fault at the least byte, where a line that is too long
/// stands at its 65,537th byte, before a NUL there, and an open continuation at the end.
pub fn cut(alloc: Global, text: &[u8]) -> Result<Lines<'_>, TextFault>
    // The lines are the definition's, and nothing is wrong with the text.
    ensures lines { IfOk result (λ lines. IsFaultlessCut text.now lines) }
    // The fault is the first that the text has, or memory ran out.
    ensures fault { IfErr result (λ fault. (fault ≡ TextFault.NoMemory) ⊎ IsFaultOfText text.now fault) }
    // In one word: the text's outcome, of which there is exactly one.
    ensures outcome { IsOutcomeUnlessNoMemory result (cut_outcome_of_text text.now) }
{
    if text.len() > TEXT_LIMIT {
        return Err(TextFault::TooLarge);
    }
    let pieces = split_into_line_spans(alloc, text)?;
    match find_first_fault(text, &pieces.spans, pieces.continues) {
        Some(fault) => Err(fault),
        None => Ok(Lines {
            text,
            spans: pieces.spans,
        }),
    }
}

/// Returns the part of a text that a span names.
fn slice_of_span(text: &[u8], span: LineSpan) -> &[u8]
    requires below { span.start ≤ span.stop }
    requires inside { span.stop ≤ length text.now }
    ensures { result.now ≡ slice_range text.now span.start span.stop }
{
    &text[span.start..span.stop]
}
