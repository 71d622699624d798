//! A line without a backslash before the quotes of its arguments.

ghost use Rattle.std.specs.Prelude.{◌≡◌, ◌&&◌, ◌==◌, ◌++◌, not, false, length, All, IfOk, OnOk};
ghost use Rattle.sudoers_text.specs.Token.{IsTokenWithinLine};
ghost use Rattle.sudoers_grammar.specs.Piece.{tokens_with_bytes};
ghost use Rattle.sudoers_cvt_sudo.specs.Quotes.{backslash_if, bare_bytes, line_with_bare_quotes, rest_with_bare_quotes, text_with_bare_quotes, token_text_with_bare_quotes};

use std::alloc::{AllocError, Global};
use sudoers_defaults::take_bytes_between;
use sudoers_grammar::add_text_to_token;
use sudoers_text::{Token, TokenKind, choose_line_mode, tokens};

/// Returns `line` without a backslash before the quotes of its arguments.
///
/// # Errors
///
/// Memory ran out.
pub fn strip_backslashes_before_quotes(alloc: Global, line: &[u8]) -> Result<Vec<u8>, AllocError>
    ensures { IfOk result (λ bare. bare.items ≡ line_with_bare_quotes line.now) }
{
    let Ok(tokens) = tokens(alloc, line, choose_line_mode(line)) else {
        return Err(AllocError);
    };
    join_tokens_with_bare_quotes(alloc, line, tokens.as_slice())
}

/// Returns `line`, whose tokens are `tokens`, without a backslash before the quotes of its arguments.
fn join_tokens_with_bare_quotes(
    alloc: Global,
    line: &[u8],
    tokens: &[Token],
) -> Result<Vec<u8>, AllocError>
    requires { All (IsTokenWithinLine (length line.now)) tokens.now }
    ensures { IfOk result (λ bare. bare.items ≡ rest_with_bare_quotes line.now 0 (tokens_with_bytes line.now tokens.now)) }
{
    let mut bare = Vec::with_capacity(alloc, line.len())?;
    let mut at = 0;
    for token in tokens {
        let here = add_text_to_token(line, token);
        bare.extend_from_slice(take_bytes_between(line, at, here.start))?;
        append_token_with_bare_quotes(here.kind, here.text, &mut bare)?;
        at = here.stop;
    }
    bare.extend_from_slice(&line[at..])?;
    Ok(bare)
}

/// Appends the text of a token, without a backslash before its quotes if it is an argument.
fn append_token_with_bare_quotes(
    kind: TokenKind,
    text: &[u8],
    out: &mut Vec<u8>,
) -> Result<(), AllocError>
    ensures { OnOk result (out.new.items ≡ out.old.items ++ token_text_with_bare_quotes kind text.now) }
{
    match kind {
        TokenKind::Arg => append_text_with_bare_quotes(text, out),
        _ => out.extend_from_slice(text),
    }
}

/// Appends `text` with `"` in place of each pair of a backslash and `"`.
fn append_text_with_bare_quotes(text: &[u8], out: &mut Vec<u8>) -> Result<(), AllocError>
    ensures { OnOk result (out.new.items ≡ out.old.items ++ text_with_bare_quotes false text.now) }
{
    let mut is_escaped = false;
    for byte in text {
        append_bare_bytes(is_escaped, *byte, out)?;
        is_escaped = begins_pair(is_escaped, *byte);
    }
    append_backslash_if(is_escaped, out)
}

/// Returns whether `byte` is a backslash that begins a pair.
pub fn begins_pair(is_escaped: bool, byte: u8) -> bool
    ensures { result ≡ (not is_escaped && byte == 92) }
{
    !is_escaped && byte == b'\\'
}

/// Appends what is written for `byte`.
fn append_bare_bytes(is_escaped: bool, byte: u8, out: &mut Vec<u8>) -> Result<(), AllocError>
    ensures { OnOk result (out.new.items ≡ out.old.items ++ bare_bytes is_escaped byte) }
{
    if is_escaped && byte != b'"' {
        out.extend_from_slice(b"\\")?;
    }
    if !is_escaped && byte == b'\\' {
        return Ok(());
    }
    out.extend_from_slice(&[byte])
}

/// Appends a backslash if `is_escaped`.
pub fn append_backslash_if(is_escaped: bool, out: &mut Vec<u8>) -> Result<(), AllocError>
    ensures { OnOk result (out.new.items ≡ out.old.items ++ backslash_if is_escaped) }
{
    if is_escaped {
        out.extend_from_slice(b"\\")?;
    }
    Ok(())
}
