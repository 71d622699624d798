//! The dialect of sudo: a line in which each token that sudo alone reads is spelled so that both read it.

ghost use Rattle.std.specs.Prelude.{◌≡◌, ◌==◌, ◌&&◌, not, false, IfOk};
ghost use Rattle.sudoers_text.specs.Adapted.{is_byte_of_argument_word, begins_with_argument_word, ends_with_argument_word, leads_to_id, is_in_argument_word, is_equals_among_arguments, is_plain_equals, leads_to_closing_parenthesis, is_opening_parenthesis, is_colon_in_parentheses, is_lone_colon, token_before, respelling_of, prefix_of_respelled, text_of_respelled, context_after_respelled, respelled_token_before, IsRespelledLine, respelled_line, is_one_line_as, adapted_line};

use crate::context::TokenContext;
use crate::line_mode::choose_line_mode;
use crate::part::{ByteRunKind, begins_with_given_byte, leading_run_len};
use crate::single_logical_line::is_logical_line;
use crate::text_units::{begins_digit, begins_line_end, ends_in_lf, is_blank, is_sign_before_id};
use crate::token::TokenKind;
use crate::tokenizing::{LeftContextAtOffset, find_next_token_start};
use std::alloc::{AllocError, Global};

/// What a token is for the next one.
#[derive(Clone, Copy)]
pub enum TokenBefore {
    /// The path of a command.
    Path,
    /// The word `sudoedit`. Among arguments it is the command.
    Sudoedit,
    /// A piece of an argument. True: its last byte is of one word with what follows it.
    Argument(bool),
    /// `(`.
    OpeningParenthesis,
    Other,
}

/// How a token is spelled for both.
#[derive(Clone, Copy)]
pub enum Respelling {
    /// As it stands.
    Same,
    /// With a backslash before it.
    Escaped,
    /// As a blank.
    Blank,
}

/// Returns whether `byte` is of one word with the bytes at its sides, among arguments.
#[inline(always)]
fn is_byte_of_argument_word(byte: u8) -> bool
    ensures { result ≡ is_byte_of_argument_word byte }
{
    !matches!(
        byte,
        b'\n' | b'\r' | b' ' | b'\t' | b'#' | b'\\' | b',' | b':'
    )
}

/// Returns whether such a byte begins the bytes.
fn begins_with_argument_word(bytes: &[u8]) -> bool
    ensures { result ≡ begins_with_argument_word bytes.now }
{
    match bytes {
        [byte, ..] => is_byte_of_argument_word(*byte),
        [] => false,
    }
}

/// Returns whether `byte` is such a byte, and no second of a pair.
#[inline(always)]
fn is_unescaped_byte_of_argument_word(is_escaped: bool, byte: u8) -> bool
    ensures { result ≡ (not is_escaped && is_byte_of_argument_word byte) }
{
    !is_escaped && is_byte_of_argument_word(byte)
}

/// Returns whether `byte` is a backslash that begins a pair.
#[inline(always)]
fn is_escaping_backslash(is_escaped: bool, byte: u8) -> bool
    ensures { result ≡ (not is_escaped && byte == 92) }
{
    !is_escaped && byte == b'\\'
}

/// Returns whether `text` ends in a byte of a word of arguments that is no second of a pair.
fn ends_with_argument_word(text: &[u8]) -> bool
    ensures { result ≡ ends_with_argument_word false false text.now }
{
    let mut is_escaped = false;
    let mut is_joined = false;
    for byte in text {
        is_joined = is_unescaped_byte_of_argument_word(is_escaped, *byte);
        is_escaped = is_escaping_backslash(is_escaped, *byte);
    }
    is_joined
}

/// Returns whether an ID begins behind blanks, continuations and signs.
fn leads_to_id(bytes: &[u8]) -> bool
    ensures { result ≡ leads_to_id false bytes.now }
{
    let mut behind_backslash = false;
    for (i, byte) in bytes.iter().enumerate() {
        if behind_backslash {
            behind_backslash = *byte == b'\r';
        } else if is_blank(*byte) || is_sign_before_id(*byte) {
            continue;
        } else if *byte == b'\\' && begins_line_end(&bytes[i + 1..]) {
            behind_backslash = true;
        } else {
            return *byte == b'#' && begins_digit(&bytes[i + 1..]);
        }
    }
    false
}

/// Returns whether `)` follows behind blanks and continuations.
fn leads_to_closing_parenthesis(rest: &[u8]) -> bool
    ensures { result ≡ leads_to_closing_parenthesis rest.now }
{
    begins_with_given_byte(b')', &rest[leading_run_len(ByteRunKind::Gap, rest)..])
}

/// Returns whether the token is an `=` among arguments.
fn is_equals_among_arguments(here: TokenContext, kind: TokenKind, text: &[u8]) -> bool
    ensures { result ≡ is_equals_among_arguments here kind text.now }
{
    match (here, kind) {
        (TokenContext::Arguments, TokenKind::Punct)
        | (TokenContext::QuotedArgument, TokenKind::Bad) => text == b"=".as_slice(),
        _ => false,
    }
}

/// Returns whether the token is a `:` in parentheses.
fn is_colon_in_parentheses(here: TokenContext, kind: TokenKind, text: &[u8]) -> bool
    ensures { result ≡ is_colon_in_parentheses here kind text.now }
{
    match (here, kind) {
        (TokenContext::Parentheses, TokenKind::Punct) => text == b":".as_slice(),
        _ => false,
    }
}

impl TokenBefore {
    /// Returns what a token of this kind and text is for the next one.
    fn from_token(kind: TokenKind, text: &[u8]) -> TokenBefore
        ensures { result ≡ token_before kind text.now }
    {
        match kind {
            TokenKind::Path => TokenBefore::Path,
            TokenKind::Arg => TokenBefore::Argument(ends_with_argument_word(text)),
            TokenKind::Word if text == b"sudoedit".as_slice() => TokenBefore::Sudoedit,
            TokenKind::Punct if text == b"(".as_slice() => TokenBefore::OpeningParenthesis,
            _ => TokenBefore::Other,
        }
    }

    /// Returns whether an `=` behind it is of one word with a byte at its side.
    fn is_in_argument_word(self, is_apart: bool, rest: &[u8]) -> bool
        ensures { result ≡ is_in_argument_word self is_apart rest.now }
    {
        match self {
            TokenBefore::Path | TokenBefore::Sudoedit => begins_with_argument_word(rest),
            TokenBefore::Argument(joined) => begins_with_argument_word(rest)
                || (joined && !is_apart),
            _ => false,
        }
    }

    /// Returns whether it is `(`.
    fn is_opening_parenthesis(self) -> bool
        ensures { result ≡ is_opening_parenthesis self }
    {
        matches!(self, TokenBefore::OpeningParenthesis)
    }

    /// Returns what is put before a token behind it, if the token is spelled so.
    fn prefix_of_respelled(self, respelling: Respelling, is_apart: bool) -> &'static [u8]
        ensures { result.now ≡ prefix_of_respelled respelling self is_apart }
    {
        match (respelling, self) {
            (Respelling::Same, _) => b"".as_slice(),
            (Respelling::Blank, _) => b" ".as_slice(),
            (Respelling::Escaped, TokenBefore::Path | TokenBefore::Sudoedit) if !is_apart => {
                b" \\".as_slice()
            }
            (Respelling::Escaped, _) => b"\\".as_slice(),
        }
    }
}

/// Returns whether the token is an `=` that stands for itself in sudo.
fn is_plain_equals(
    here: TokenContext,
    left: TokenBefore,
    is_apart: bool,
    kind: TokenKind,
    text: &[u8],
    rest: &[u8],
) -> bool
    ensures { result ≡ is_plain_equals here left is_apart kind text.now rest.now }
{
    is_equals_among_arguments(here, kind, text)
        && left.is_in_argument_word(is_apart, rest)
        && !leads_to_id(rest)
}

/// Returns whether the token is the `:` of `(:)`.
fn is_lone_colon(
    here: TokenContext,
    left: TokenBefore,
    kind: TokenKind,
    text: &[u8],
    rest: &[u8],
) -> bool
    ensures { result ≡ is_lone_colon here left kind text.now rest.now }
{
    is_colon_in_parentheses(here, kind, text)
        && left.is_opening_parenthesis()
        && leads_to_closing_parenthesis(rest)
}

/// Returns how the token is spelled for both.
fn choose_respelling(
    here: TokenContext,
    left: TokenBefore,
    is_apart: bool,
    kind: TokenKind,
    text: &[u8],
    rest: &[u8],
) -> Respelling
    ensures { result ≡ respelling_of here left is_apart kind text.now rest.now }
{
    if is_plain_equals(here, left, is_apart, kind, text, rest) {
        Respelling::Escaped
    } else if is_lone_colon(here, left, kind, text, rest) {
        Respelling::Blank
    } else {
        Respelling::Same
    }
}

impl Respelling {
    /// Returns what is left of the text of a token that is spelled so.
    fn text_of_respelled(self, text: &[u8]) -> &[u8]
        ensures { result.now ≡ text_of_respelled self text.now }
    {
        match self {
            Respelling::Blank => b"".as_slice(),
            _ => text,
        }
    }

    /// Returns what may stand after a token that is spelled so.
    fn find_context_after_respelled(
        self,
        here: TokenContext,
        kind: TokenKind,
        text: &[u8],
        rest: &[u8],
    ) -> TokenContext
        ensures { result ≡ context_after_respelled self here kind text.now rest.now }
    {
        match self {
            Respelling::Same => here.find_context_after_token(kind, text, rest),
            _ => here,
        }
    }

    /// Returns what a token that is spelled so is for the next one.
    fn respelled_token_before(self, kind: TokenKind, text: &[u8]) -> TokenBefore
        ensures { result ≡ respelled_token_before self kind text.now }
    {
        match self {
            Respelling::Same => TokenBefore::from_token(kind, text),
            Respelling::Escaped => TokenBefore::Argument(true),
            Respelling::Blank => TokenBefore::Other,
        }
    }
}

/// Returns `line` with each token spelled as both spell it.
///
/// # Errors
///
/// Memory ran out.
fn respell_line(alloc: Global, line: &[u8]) -> Result<Vec<u8>, AllocError>
    ensures exact { IfOk result (λ respelled. IsRespelledLine line.now respelled.items) }
    ensures outcome { IfOk result (λ respelled. respelled.items ≡ respelled_line line.now) }
{
    let mut respelled = Vec::with_capacity(alloc, line.len())?;
    let mut here = TokenContext::First(choose_line_mode(line));
    let mut left = TokenBefore::Other;
    let mut reached = LeftContextAtOffset::start_of_line();
    let mut at = 0;
    while let Some(start) = find_next_token_start(line, at) {
        let known = reached.advance_to_token(line, start);
        let piece = here.find_token_in_context(known, &line[start..]);
        let kind = piece.kind;
        let stop = start + piece.len;
        let text = &line[start..stop];
        let rest = &line[stop..];
        let is_apart = start != at;
        let respelling = choose_respelling(here, left, is_apart, kind, text, rest);
        respelled.extend_from_slice(&line[at..start])?;
        respelled.extend_from_slice(left.prefix_of_respelled(respelling, is_apart))?;
        respelled.extend_from_slice(respelling.text_of_respelled(text))?;
        here = respelling.find_context_after_respelled(here, kind, text, rest);
        left = respelling.respelled_token_before(kind, text);
        at = stop;
    }
    respelled.extend_from_slice(&line[at..])?;
    Ok(respelled)
}

/// Returns whether `other` is one logical line, with a line end if `line` has one.
fn is_one_line_as(line: &[u8], other: &[u8]) -> bool
    ensures { result ≡ is_one_line_as line.now other.now }
{
    is_logical_line(other) && ends_in_lf(line) == ends_in_lf(other)
}

/// Returns the line that says what `line` says in the dialect of sudo: each `=` of arguments that stands for itself in sudo has a
/// backslash before it, and `(:)` has a blank in place of the `:`. What both read stays as it is (sudoers(5), Cmnd_Spec and Runas_Spec).
///
/// # Errors
///
/// Memory ran out.
#[tactic(auto, unfolding(crate::specs::Adapted::adapted_line))]
pub fn adapt_line(alloc: Global, line: &[u8]) -> Result<Vec<u8>, AllocError>
    ensures { IfOk result (λ adapted. adapted.items ≡ adapted_line line.now) }
{
    let respelled = respell_line(alloc, line)?;
    if is_one_line_as(line, respelled.as_slice()) {
        return Ok(respelled);
    }
    let mut same = Vec::new(alloc);
    same.extend_from_slice(line)?;
    Ok(same)
}
