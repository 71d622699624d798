//! The words of a request.

ghost use Rattle.std.specs.Prelude.{◌≡◌, IfOk};
ghost use Rattle.sudoers_match.specs.Answer.{command_with_joined_arguments_of_request, words_joined_with_spaces};

use std::alloc::{AllocError, Global};
use sudoers_grammar::Items;
use sudoers_match_member::{CommandLine, Request};

/// Returns `words`, joined by single spaces.
///
/// # Errors
///
/// Memory ran out.
pub fn join_words(alloc: Global, words: &[Items<u8>]) -> Result<Vec<u8>, AllocError>
    ensures { IfOk result (λ text. text.items ≡ words_joined_with_spaces words.now) }
{
    let Some((first, rest)) = words.split_first() else {
        return Ok(Vec::new(alloc));
    };
    let mut text = Vec::from_slice(alloc, first.as_slice())?;
    for word in rest {
        text.push(b' ')?;
        text.extend_from_slice(word.as_slice())?;
    }
    Ok(text)
}

/// Returns the command of `request` with its arguments, joined by single spaces.
///
/// # Errors
///
/// Memory ran out.
pub fn make_command_with_joined_arguments(
    alloc: Global,
    request: &Request,
) -> Result<CommandLine, AllocError>
    ensures { IfOk result (λ command. command ≡ command_with_joined_arguments_of_request request.now) }
{
    let path = Items::from_slice(alloc, request.command.as_slice())?;
    let args = join_words(alloc, request.args.as_slice())?;
    Ok(CommandLine {
        path,
        args: Items::from_vec(args),
    })
}
