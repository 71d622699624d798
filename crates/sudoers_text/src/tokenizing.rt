//! Where the next token of a line begins, and what stands left of it.

ghost use Rattle.std.specs.Prelude.{◌≡◌, ◌≤◌, ◌<◌, ◌+◌, ◌∷◌, ◌-◌, ◌==◌, ◌||◌, not, ℕ, List, [], length, drop, take, slice_range, true, false, IfSome, IfNone};
ghost use Rattle.sudoers_text.specs.Unit.{LineUnit, line_end_size};
ghost use Rattle.sudoers_text.specs.internal.Left.{LeftDescribesUnits, model_of_unit, ends_without_backslash_or_cr};
ghost use Rattle.sudoers_text.specs.internal.Reached.{DescribesLeftAtOffset};
ghost use Rattle.sudoers_text.specs.Piece.{TokenForm};
ghost use Rattle.sudoers_text.specs.Token.{byte_or_escape_unit, units_with_those_of_bytes, units_left_of_place, next_token_start, is_line_end_or_empty};
ghost use Rattle.sudoers_text.specs.Found.{kind_and_size_of_token, kind_and_size_after_units};

use crate::part::{ByteRunKind, leading_run_len};
use crate::text_units::{LeftContext, TextUnit, begins_hash_or_percent, unit_of_backslash};

/// Returns the unit that begins the bytes, where a quoted part and a comment are no units but their bytes.
#[inline(always)]
fn read_byte_or_escape_unit(bytes: &[u8]) -> TextUnit<'_>
    requires { 0 < length bytes.now }
    ensures { (b : ℕ) (rest : List ℕ) → bytes.now ≡ b ∷ rest → model_of_unit result ≡ byte_or_escape_unit b rest }
{
    match bytes {
        [b'\\', rest @ ..] => unit_of_backslash(rest),
        _ => TextUnit::Byte(bytes[0]),
    }
}

/// Returns whether nothing is left, or a line end alone.
#[inline(always)]
fn is_at_line_end(bytes: &[u8]) -> bool
    ensures { result ≡ is_line_end_or_empty bytes.now }
{
    matches!(bytes, [] | [b'\n'] | [b'\r', b'\n'])
}

/// Returns where the next token begins. None does where only blanks, continuations and the line end are left.
#[inline(always)]
pub fn find_next_token_start(line: &[u8], at: usize) -> Option<usize>
    requires { at ≤ length line.now }
    ensures some { IfSome result (λ start. (start ≡ next_token_start line.now at) × (is_line_end_or_empty (drop start line.now) ≡ false)) }
    ensures none { IfNone result (is_line_end_or_empty (drop (next_token_start line.now at) line.now) ≡ true) }
{
    let start = at + leading_run_len(ByteRunKind::Gap, &line[at..]);
    if is_at_line_end(&line[start..]) {
        None
    } else {
        Some(start)
    }
}

impl LeftContext {
    /// Returns what stands left of a place, by what stands left of one before it.
    fn advance_over_slice(self, text: &[u8], from: usize, to: usize) -> LeftContext
        requires below { from ≤ to }
        requires inside { to ≤ length text.now }
        requires known { (before : List LineUnit) × LeftDescribesUnits text.now from self before }
        ensures { (before : List LineUnit) → LeftDescribesUnits text.now from self before
            → LeftDescribesUnits text.now to result (units_with_those_of_bytes before (slice_range text.now from to)) }
    {
        let mut left = self;
        let mut at = from;
        while at < to {
            let run = left.find_plain_run_to_pass(&text[at..to]);
            left = left.pass_plain_run(run);
            at += run.len();
            if at < to {
                let unit = read_byte_or_escape_unit(&text[at..to]);
                left = left.pass_unit(text, at, &unit);
                at += unit.len();
            }
        }
        left
    }
}

/// Returns whether `byte` is neither a backslash nor a CR.
#[inline(always)]
fn is_no_backslash_or_cr(byte: u8) -> bool
    ensures { result ≡ not (byte == 92 || byte == 13) }
{
    !matches!(byte, b'\\' | b'\r')
}

/// Returns the last place behind no backslash and no CR, from one such place up to another place.
fn last_unescaped_offset_before(line: &[u8], from: usize, at: usize) -> usize
    requires below { from ≤ at }
    requires inside { at ≤ length line.now }
    requires apart { ends_without_backslash_or_cr (take from line.now) ≡ true }
    ensures not_before { from ≤ result }
    ensures not_behind { result ≤ at }
    ensures apart { ends_without_backslash_or_cr (take result line.now) ≡ true }
{
    let mut place = at;
    while from < place && !is_no_backslash_or_cr(line[place - 1]) {
        place -= 1;
    }
    place
}

/// What stands left of a place of a line, behind no backslash and no CR: what stands left of a later place goes on from there.
#[derive(Clone, Copy)]
pub struct LeftContextAtOffset {
    left: LeftContext,
    at: usize,
}

impl LeftContextAtOffset {
    /// Returns the state at a line's beginning, left of which nothing stands.
    pub fn start_of_line() -> Self
        ensures place { result.at ≡ 0 }
        ensures knows { (line : List ℕ) → DescribesLeftAtOffset line result }
    {
        LeftContextAtOffset {
            left: LeftContext::left_of_line_start(),
            at: 0,
        }
    }

    /// Returns what stands left of the last such place up to a later place.
    fn advance_to_unescaped_offset_before(self, line: &[u8], at: usize) -> Self
        requires below { self.at ≤ at }
        requires inside { at ≤ length line.now }
        requires knows { DescribesLeftAtOffset line.now self }
        ensures place { result.at ≤ at }
        ensures knows { DescribesLeftAtOffset line.now result }
    {
        let place = last_unescaped_offset_before(line, self.at, at);
        LeftContextAtOffset {
            left: self.left.advance_over_slice(line, self.at, place),
            at: place,
        }
    }

    /// Returns the context left of the token at `start`, to choose the token's form. Only a token that begins with `#` or `%` depends
    /// on it: for other tokens the scan stays where it is.
    #[inline(always)]
    pub fn advance_to_token(&mut self, line: &[u8], start: usize) -> LeftContext
        requires below { self.old.at ≤ start }
        requires inside { start ≤ length line.now }
        requires knows { DescribesLeftAtOffset line.now self.old }
        ensures place { self.new.at ≤ start }
        ensures knows { DescribesLeftAtOffset line.now self.new }
        ensures found { (fs : List TokenForm) → kind_and_size_of_token fs result.item (result.begun == 0) (drop start line.now)
            ≡ kind_and_size_after_units fs (units_left_of_place line.now start) (drop start line.now) }
    {
        if begins_hash_or_percent(&line[start..]) {
            let here = self.advance_to_unescaped_offset_before(line, start);
            *self = here;
            here.left.advance_over_slice(line, here.at, start)
        } else {
            self.left
        }
    }
}
