//! Tokens and words of a text.

ghost use Rattle.std.specs.Prelude.{◌≡◌, IfOk};
ghost use Rattle.sudoers_text.specs.Adapted.{adapted_line};
ghost use Rattle.sudoers_text.specs.Found.{tokens_of_line};
ghost use Rattle.sudoers_text.specs.Value.{value_of_word};

use std::alloc::{AllocError, Global};
use sudoers_text::{Mode, TextFault, Token, adapt_line, tokens, value};

/// Returns the tokens of `line` in `mode`.
///
/// # Errors
///
/// Memory ran out.
pub fn line_tokens(alloc: Global, line: &[u8], mode: Mode) -> Result<Vec<Token>, TextFault>
    ensures { IfOk result (λ tokens. tokens.items ≡ tokens_of_line mode line.now) }
{
    tokens(alloc, line, mode)
}

/// Returns the value of `word`.
///
/// # Errors
///
/// Memory ran out.
pub fn word_value(alloc: Global, word: &[u8]) -> Result<Vec<u8>, AllocError>
    ensures { IfOk result (λ value. value.items ≡ value_of_word word.now) }
{
    value(alloc, word)
}

/// Returns the line that says what `line` says in the dialect of sudo.
///
/// # Errors
///
/// Memory ran out.
pub fn line_in_dialect_of_sudo(alloc: Global, line: &[u8]) -> Result<Vec<u8>, AllocError>
    ensures { IfOk result (λ adapted. adapted.items ≡ adapted_line line.now) }
{
    adapt_line(alloc, line)
}
