//! Patterns without the escapes of the policy (sudoers(5), Wildcards; Other special characters and reserved words).

ghost use Rattle.sudoers_grammar.specs.declared.pattern.PatternSpelling.TheVariants as Spelling;
ghost use Rattle.std.specs.Prelude.{◌≡◌, ◌≢◌, ◌<◌, ◌≤◌, ◌++◌, ℕ, length, take, drop, slice_get, Some, IfOk, OnOk, true};
ghost use Rattle.sudoers_grammar.specs.Pattern.{is_special_in_patterns, pattern_of_literal_byte, is_escaped_for_policy_alone, pattern_of_byte, is_dropped_backslash_before, pattern_of_escaped_pair, pattern_escape_tail_size, pattern_of_escape, pattern_of_remaining_bytes, pattern_of_text};

use crate::token_text::TokenText;
use std::alloc::{AllocError, Global};
use sudoers_text::{begins_line_end, leading_blanks_len, line_end_len};

/// How a pattern is written.
#[derive(Clone, Copy)]
pub enum PatternSpelling {
    /// A command's path, or an argument.
    Command,
    /// A host's name.
    Host,
    /// A host's name in double quotes, in which no byte is a wildcard.
    QuotedHost,
}

/// Returns whether the byte has a meaning of its own in patterns.
fn is_pattern_special_byte(byte: u8) -> bool
    ensures { result ≡ is_special_in_patterns byte }
{
    byte == b'*' || byte == b'?' || byte == b'[' || byte == b'\\'
}

/// Returns whether a backslash before the byte is there for the policy alone.
fn is_byte_escaped_by_policy(byte: u8) -> bool
    ensures { result ≡ is_escaped_for_policy_alone byte }
{
    matches!(byte, b',' | b':' | b'=' | b'#' | b'"' | b' ' | b'\t')
}

/// Appends a byte that stands for itself.
fn push_pattern_literal(pattern: &mut Vec<u8>, byte: u8) -> Result<(), AllocError>
    ensures { OnOk result (pattern.new.items ≡ pattern.old.items ++ pattern_of_literal_byte byte) }
{
    if is_pattern_special_byte(byte) {
        pattern.extend_from_slice(&[b'\\', byte])
    } else {
        pattern.push(byte)?;
        Ok(())
    }
}

/// Appends the pattern that a byte is.
fn push_pattern_of_byte(
    pattern: &mut Vec<u8>,
    spelling: PatternSpelling,
    byte: u8,
) -> Result<(), AllocError>
    ensures { OnOk result (pattern.new.items ≡ pattern.old.items ++ pattern_of_byte spelling byte) }
{
    match spelling {
        PatternSpelling::Command | PatternSpelling::Host => {
            pattern.push(byte)?;
            Ok(())
        }
        PatternSpelling::QuotedHost if byte == b'"' => Ok(()),
        PatternSpelling::QuotedHost => push_pattern_literal(pattern, byte),
    }
}

/// Returns whether the byte stands for itself behind a backslash that the pattern loses.
fn is_backslash_dropped_before(spelling: PatternSpelling, byte: u8) -> bool
    ensures { result ≡ is_dropped_backslash_before spelling byte }
{
    match spelling {
        PatternSpelling::Command => is_byte_escaped_by_policy(byte),
        PatternSpelling::Host => is_byte_escaped_by_policy(byte)
            || matches!(byte, b'!' | b'(' | b')'),
        PatternSpelling::QuotedHost => byte == b'"',
    }
}

/// Appends the pattern that a backslash and a byte are.
fn push_pattern_of_pair(
    pattern: &mut Vec<u8>,
    spelling: PatternSpelling,
    byte: u8,
) -> Result<(), AllocError>
    ensures { OnOk result (pattern.new.items ≡ pattern.old.items ++ pattern_of_escaped_pair spelling byte) }
{
    if is_backslash_dropped_before(spelling, byte) {
        pattern.push(byte)?;
        return Ok(());
    }
    match spelling {
        PatternSpelling::Command | PatternSpelling::Host => pattern.extend_from_slice(&[
            b'\\', byte,
        ]),
        PatternSpelling::QuotedHost => {
            pattern.extend_from_slice(b"\\\\")?;
            push_pattern_literal(pattern, byte)
        }
    }
}

/// Returns how many of the bytes behind a backslash belong to it.
fn pattern_escape_tail_len(rest: &[u8]) -> usize
    ensures value { result ≡ pattern_escape_tail_size rest.now }
    ensures within { result ≤ length rest.now }
{
    if begins_line_end(rest) {
        let line_end = line_end_len(rest);
        line_end + leading_blanks_len(&rest[line_end..])
    } else {
        rest.len().min(1)
    }
}

/// Appends the pattern that a backslash is with the bytes that belong to it.
fn push_pattern_of_escape(
    pattern: &mut Vec<u8>,
    spelling: PatternSpelling,
    rest: &[u8],
) -> Result<(), AllocError>
    ensures { OnOk result (pattern.new.items ≡ pattern.old.items ++ pattern_of_escape spelling rest.now) }
{
    if begins_line_end(rest) {
        return Ok(());
    }
    match rest {
        [] => push_pattern_of_byte(pattern, spelling, b'\\'),
        [byte, ..] => push_pattern_of_pair(pattern, spelling, *byte),
    }
}

/// Returns the place of the first backslash, or the text's end.
fn find_first_backslash(text: &[u8]) -> usize
    ensures inside { result ≤ length text.now }
    ensures before { (k : ℕ) → k < result → slice_get text.now k ≢ Some 92 }
{
    for (i, byte) in text.iter().enumerate() {
        if *byte == b'\\' {
            return i;
        }
    }
    text.len()
}

/// Returns how many bytes begin the text that are their own pattern, up to the first backslash.
fn verbatim_prefix_len(spelling: PatternSpelling, text: &[u8]) -> usize
    ensures within { result ≤ length text.now }
    ensures plain { take result text.now ++ pattern_of_remaining_bytes spelling 0 (drop result text.now) ≡ pattern_of_remaining_bytes spelling 0 text.now }
{
    match spelling {
        PatternSpelling::Command | PatternSpelling::Host => find_first_backslash(text),
        PatternSpelling::QuotedHost => 0,
    }
}

/// Returns whether a path or an argument has no escapes, so that it is its own pattern.
#[tactic(auto, unfolding(crate::specs::Pattern::pattern_of_text))]
pub fn is_own_pattern(text: &[u8]) -> bool
    ensures { result ≡ true → pattern_of_text Spelling.Command text.now ≡ text.now }
{
    verbatim_prefix_len(PatternSpelling::Command, text) == text.len()
}

/// Returns the pattern that a text is.
///
/// # Errors
///
/// A growth of memory was refused.
#[tactic(auto, using(crate::proofs::Patterns::pattern_with_escape_appended_is_same), unfolding(crate::specs::Pattern::pattern_of_text))]
pub fn read_pattern_of_text<'a>(
    alloc: Global,
    spelling: PatternSpelling,
    text: &'a [u8],
) -> Result<TokenText<'a>, AllocError>
    ensures { IfOk result (λ pattern. pattern ≡ pattern_of_text spelling text.now) }
{
    let mut at = verbatim_prefix_len(spelling, text);
    if at == text.len() {
        return Ok(TokenText::from_slice(text));
    }
    let mut pattern = Vec::with_capacity(alloc, text.len())?;
    pattern.extend_from_slice(&text[..at])?;
    while at < text.len() {
        let byte = text[at];
        at += 1;
        if byte == b'\\' {
            push_pattern_of_escape(&mut pattern, spelling, &text[at..])?;
            at += pattern_escape_tail_len(&text[at..]);
        } else {
            push_pattern_of_byte(&mut pattern, spelling, byte)?;
        }
    }
    Ok(TokenText::from_vec(pattern))
}
