//! Where the parameters of a Defaults line begin.

ghost use Rattle.std.specs.Prelude.{◌≡◌, length, All, IfOk, None};
ghost use Rattle.sudoers_text.specs.Token.{IsTokenWithinLine};
ghost use Rattle.sudoers_grammar.specs.Piece.{tokens_with_bytes};
ghost use Rattle.sudoers_lint.specs.ParameterStarts.{parameter_starts, parameter_starts_in_tokens};

use std::alloc::{AllocError, Global};
use sudoers_grammar::add_text_to_token;
use sudoers_text::{Token, choose_line_mode, tokens};

/// Returns where the parameters begin whose names are among `tokens`, in their order. The tokens are those of the line `text`.
fn list_starts_in_tokens(
    alloc: Global,
    text: &[u8],
    tokens: &[Token],
) -> Result<Vec<usize>, AllocError>
    requires { All (IsTokenWithinLine (length text.now)) tokens.now }
    ensures { IfOk result (λ starts. starts.items ≡ parameter_starts_in_tokens None (tokens_with_bytes text.now tokens.now)) }
{
    let mut starts = Vec::new(alloc);
    let mut sign = None;
    for token in tokens {
        let token = add_text_to_token(text, token);
        let start = sign.unwrap_or(token.start);
        if token.is_parameter_name() {
            starts.push(start)?;
        }
        sign = if token.is_punct_mark(b'!') {
            Some(start)
        } else {
            None
        };
    }
    Ok(starts)
}

/// Returns where the parameters of the line `text` begin, in their order: each at its first `!`, or at its name.
pub fn list_parameter_starts(alloc: Global, text: &[u8]) -> Result<Vec<usize>, AllocError>
    ensures { IfOk result (λ starts. starts.items ≡ parameter_starts text.now) }
{
    let Ok(tokens) = tokens(alloc, text, choose_line_mode(text)) else {
        return Err(AllocError);
    };
    list_starts_in_tokens(alloc, text, tokens.as_slice())
}
