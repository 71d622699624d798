//! How a text is cut: its lines, whatever is wrong with it, and then its first fault.

ghost use Rattle.std.specs.Prelude.{◌≡◌, ◌<◌, ◌≤◌, ◌+◌, ◌==◌, ℕ, List, [], ◌∷◌, ◌++◌, length, drop, take, slice_range, slice_get, IsTrue, ◌↔◌, ◌≢◌, IfOk, IfSome, IfNone, IfErr, Some};
ghost use Rattle.sudoers_text.specs.Line.{IsLogicalLineBefore, IsUnfinishedLine, AreLinesOfText};
ghost use Rattle.sudoers_text.specs.Span.{texts_of_spans, AreContiguousSpans};
ghost use Rattle.sudoers_text.specs.internal.Clear.{HasNoBackslashFromTo};
ghost use Rattle.sudoers_text.specs.Fault.{LastLineIsUnfinished, IsFirstFaultOfLines, HasFaultAt, lf_count};

use crate::fault::TextFault;
use crate::text_units::{LeftContext, line_end_len, unit_at};
use memchr::{memchr, memchr2};
use std::alloc::{AllocError, Global};

/// How many bytes a text may have.
pub const TEXT_LIMIT: usize = 1_048_576;

/// How many bytes a logical line may have, its end included.
pub const LINE_LIMIT: usize = 65_536;

/// A part of a text.
#[derive(Clone, Copy)]
pub struct LineSpan {
    pub start: usize,
    pub stop: usize,
}

/// Where a line ends.
#[derive(Clone, Copy)]
pub struct LogicalLineEnd {
    /// The place behind the line end.
    pub stop: usize,
    /// The text ends there in a continuation or in a lone backslash.
    pub continues: bool,
}

/// The lines of a text, whatever is wrong with it.
#[derive(Drop)]
pub struct UncheckedLineSpans {
    pub spans: Vec<LineSpan>,
    /// The text ends in a continuation or in a lone backslash.
    pub continues: bool,
}

/// Returns the lines of a text, whatever is wrong with it.
pub fn split_into_line_spans(alloc: Global, text: &[u8]) -> Result<UncheckedLineSpans, AllocError>
    ensures cuts { IfOk result (λ pieces. AreLinesOfText text.now (texts_of_spans text.now pieces.spans.items)) }
    ensures follow { IfOk result (λ pieces. AreContiguousSpans 0 pieces.spans.items (length text.now)) }
    ensures continues { IfOk result (λ pieces. IsTrue pieces.continues ↔ LastLineIsUnfinished (texts_of_spans text.now pieces.spans.items)) }
{
    let mut spans = Vec::new(alloc);
    let mut start = 0;
    let mut backslash = 0;
    let mut continues = false;
    while start < text.len() {
        backslash = find_backslash_unless_known(text, start, backslash);
        let end = find_line_end_by_backslash(text, start, backslash);
        spans.push(LineSpan {
            start,
            stop: end.stop,
        })?;
        continues = end.continues;
        start = end.stop;
    }
    Ok(UncheckedLineSpans { spans, continues })
}

/// Returns the first fault of a text of these lines.
pub fn find_first_fault(text: &[u8], spans: &[LineSpan], continues: bool) -> Option<TextFault>
    requires cuts { AreLinesOfText text.now (texts_of_spans text.now spans.now) }
    requires follow { AreContiguousSpans 0 spans.now (length text.now) }
    requires continues { IsTrue continues ↔ LastLineIsUnfinished (texts_of_spans text.now spans.now) }
    ensures none { IfNone result ((fault : TextFault) (at : ℕ)
        → HasFaultAt (texts_of_spans text.now spans.now) fault at → ⊥) }
    ensures some { IfSome result (λ fault. IsFirstFaultOfLines (texts_of_spans text.now spans.now) fault) }
{
    let nul = find_first_nul(text);
    for span in spans {
        let long = span.stop - span.start > LINE_LIMIT;
        let reach = if long {
            span.start + LINE_LIMIT
        } else {
            span.stop
        };
        if nul < reach {
            return Some(TextFault::Nul { at: nul });
        }
        if long {
            return Some(TextFault::LineTooLong {
                line: physical_line_number_at(text, span.start),
            });
        }
    }
    if continues {
        Some(TextFault::OpenContinuation)
    } else {
        None
    }
}

/// Returns the place of the first NUL, or the text's end.
pub fn find_first_nul(text: &[u8]) -> usize
    ensures inside { result ≤ length text.now }
    ensures before { (k : ℕ) → k < result → slice_get text.now k ≢ Some 0 }
    ensures found { result < length text.now → slice_get text.now result ≡ Some 0 }
{
    memchr(0, text).unwrap_or(text.len())
}

/// Returns the number of the physical line at a place, from 1.
fn physical_line_number_at(text: &[u8], at: usize) -> usize
    requires { at < length text.now }
    ensures { result ≡ lf_count (take at text.now) + 1 }
{
    text[..at].iter().filter(|byte| **byte == b'\n').count() + 1
}

/// Returns the place of the first backslash from a place on, or the text's end.
fn find_backslash_from(text: &[u8], start: usize) -> usize
    requires { start ≤ length text.now }
    ensures { HasNoBackslashFromTo text.now start result }
{
    match memchr(b'\\', &text[start..]) {
        Some(at) => start + at,
        None => text.len(),
    }
}

/// Returns a place up to which no backslash stands from `start` on: the one that is known, if that lies behind `start`.
#[inline(always)]
fn find_backslash_unless_known(text: &[u8], start: usize, known: usize) -> usize
    requires inside { start ≤ length text.now }
    requires known { HasNoBackslashFromTo text.now start known }
    ensures { HasNoBackslashFromTo text.now start result }
{
    if start < known {
        known
    } else {
        find_backslash_from(text, start)
    }
}

/// Returns the end of the line that begins at a place. No backslash stands from there up to the place `backslash`.
#[inline(always)]
fn find_line_end_by_backslash(text: &[u8], start: usize, backslash: usize) -> LogicalLineEnd
    requires inside { start < length text.now }
    requires clear { HasNoBackslashFromTo text.now start backslash }
    ensures later { start < result.stop }
    ensures inside { result.stop ≤ length text.now }
    ensures line { IsLogicalLineBefore (slice_range text.now start result.stop) (drop result.stop text.now) }
    ensures open_text { result.stop ≡ length text.now
        → (IsTrue result.continues ↔ IsUnfinishedLine (slice_range text.now start result.stop)) }
{
    match memchr(b'\n', &text[start..]) {
        Some(lf) if start + lf < backslash => LogicalLineEnd {
            stop: start + lf + 1,
            continues: false,
        },
        _ => find_line_end_by_units(text, start),
    }
}

/// Returns the end of the line that begins at a place.
pub fn find_logical_line_end(text: &[u8], start: usize) -> LogicalLineEnd
    requires { start < length text.now }
    ensures later { start < result.stop }
    ensures inside { result.stop ≤ length text.now }
    ensures line { IsLogicalLineBefore (slice_range text.now start result.stop) (drop result.stop text.now) }
    ensures open_text { result.stop ≡ length text.now
        → (IsTrue result.continues ↔ IsUnfinishedLine (slice_range text.now start result.stop)) }
{
    let rest = &text[start..];
    match memchr2(b'\n', b'\\', rest) {
        Some(lf) if rest[lf] == b'\n' => LogicalLineEnd {
            stop: start + lf + 1,
            continues: false,
        },
        _ => find_line_end_by_units(text, start),
    }
}

/// Returns the end of the line that begins at a place. It is read unit by unit.
#[inline(never)]
fn find_line_end_by_units(text: &[u8], start: usize) -> LogicalLineEnd
    requires { start < length text.now }
    ensures later { start < result.stop }
    ensures inside { result.stop ≤ length text.now }
    ensures line { IsLogicalLineBefore (slice_range text.now start result.stop) (drop result.stop text.now) }
    ensures open_text { result.stop ≡ length text.now
        → (IsTrue result.continues ↔ IsUnfinishedLine (slice_range text.now start result.stop)) }
{
    let mut at = start;
    let mut left = LeftContext::left_of_line_start();
    while let Some(unit) = unit_at(left, &text[at..]) {
        left = left.pass_unit(text, at, &unit);
        at += unit.len();
        let run = left.find_plain_run_to_pass(&text[at..]);
        left = left.pass_plain_run(run);
        at += run.len();
    }
    if at < text.len() {
        LogicalLineEnd {
            stop: at + line_end_len(&text[at..]),
            continues: false,
        }
    } else {
        LogicalLineEnd {
            stop: at,
            continues: left.continues,
        }
    }
}
