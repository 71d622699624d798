//! The tokens of a line, found one after another.

ghost use Rattle.std.specs.Prelude.{◌≡◌, length, drop, slice_get, IfOk, IfErr, IfSome, All};
ghost use Rattle.sudoers_text.specs.Token.{HasTokens, IsTokenWithinLine};
ghost use Rattle.sudoers_text.specs.Found.{tokens_of_line};

use crate::context::TokenContext;
use crate::fault::TextFault;
use crate::plain_tokens::find_token_at;
use crate::token::{Mode, Token};
use crate::tokenizing::{LeftContextAtOffset, find_next_token_start};
use std::alloc::Global;
use std::marker::Model;

/// The tokens that are left of a line. Each is found when it is taken. Contracts see the line and these tokens.
#[derive(Drop)]
pub struct LineTokens<'a> {
    line: &'a [u8],
    here: TokenContext,
    reached: LeftContextAtOffset,
    at: usize,
}

impl<'a> Model for LineTokens<'a> {
    ghost use Rattle.std.specs.Prelude.{length};
    ghost use Rattle.sudoers_text.specs.Found.{tokens_from_offset};
    ghost use Rattle.sudoers_text.specs.LeftTokens.{LeftTokens};
    ghost use Rattle.sudoers_text.specs.internal.Reached.{HasReachedOffset};

    ghost Value = { LeftTokens };

    ghost view = { λ left. record { line = left.line.now; tokens = tokens_from_offset (length left.line.now) left.here left.line.now left.at } };

    ghost invariant = { λ left. HasReachedOffset left.line.now left.reached left.at };
}

impl<'a> LineTokens<'a> {
    /// Returns all tokens of the line `line`, which is read in the mode `mode`.
    pub fn from_line(line: &'a [u8], mode: Mode) -> Self
        ensures { result ≡ record { line = line.now; tokens = tokens_of_line mode line.now } }
    {
        LineTokens {
            line,
            here: TokenContext::First(mode),
            reached: LeftContextAtOffset::start_of_line(),
            at: 0,
        }
    }

    /// Returns the line.
    pub fn line(&self) -> &'a [u8]
        ensures { result.now ≡ self.now.line }
    {
        self.line
    }

    /// Takes the next token, if one is left. Blanks, continuations and the line end separate tokens and belong to none.
    #[inline(always)]
    pub fn take_next_token(&mut self) -> Option<Token>
        ensures next { result ≡ slice_get self.old.tokens 0 }
        ensures left { self.new ≡ record { line = self.old.line; tokens = drop 1 self.old.tokens } }
        ensures within { IfSome result (IsTokenWithinLine (length self.old.line)) }
    {
        let Some(start) = find_next_token_start(self.line, self.at) else {
            return None;
        };
        let found = find_token_at(self.here, &mut self.reached, self.line, start);
        let stop = start + found.len;
        self.here = found.behind;
        self.at = stop;
        Some(Token {
            kind: found.kind,
            start,
            stop,
        })
    }
}

/// Returns the tokens of `line` from left to right (sudoers(5), SUDOERS FILE FORMAT).
///
/// The forms of a token have an order. The first form that fits at a place decides, and takes the longest piece of that form.
/// Blanks, continuations and the line end separate tokens and belong to none.
///
/// # Errors
///
/// [`TextFault::NoMemory`] alone, where a growth of memory was refused: what begins no piece is a token that is Bad.
pub fn tokens(alloc: Global, line: &[u8], mode: Mode) -> Result<Vec<Token>, TextFault>
    // They are the line's tokens.
    ensures exact { IfOk result (λ tokens. HasTokens mode line.now tokens.items) }
    // In one word: the tokens that are computed, of which there is one list.
    ensures outcome { IfOk result (λ tokens. tokens.items ≡ tokens_of_line mode line.now) }
    // Each is a part of the line, and not empty.
    ensures within { IfOk result (λ tokens. All (IsTokenWithinLine (length line.now)) tokens.items) }
    // Nothing but want of memory is refused.
    ensures only_memory { IfErr result (λ fault. fault ≡ TextFault.NoMemory) }
{
    let mut tokens = Vec::with_capacity(alloc, line.len() / 4)?;
    let mut left = LineTokens::from_line(line, mode);
    while let Some(token) = left.take_next_token() {
        tokens.push(token)?;
    }
    Ok(tokens)
}
