//! Commands with arguments.

ghost use Rattle.std.specs.Prelude.{◌≡◌, IfOk};
ghost use Rattle.sudoers_grammar.specs.declared.pattern.PatternSpelling.TheVariants as Spelling;
ghost use Rattle.sudoers_grammar.specs.declared.node.Args.TheVariants as ArgsOf;
ghost use Rattle.sudoers_grammar.specs.Pattern.{pattern_of_text};
ghost use Rattle.sudoers_grammar.specs.Atom.{is_argument_of_empty_quotes};
ghost use Rattle.sudoers_grammar.specs.Arguments.{args_with_one_more};

use crate::items::Items;
use crate::node::Args;
use crate::pattern::{PatternSpelling, is_own_pattern, read_pattern_of_text};
use crate::token_text::TokenText;
use crate::token_with_text::begins_with_byte;
use std::alloc::{AllocError, Global};

/// What is to be run with arguments.
#[derive(Drop)]
pub enum ArglessCommand {
    Path(Items<u8>),
    Sudoedit,
}

/// Returns whether the argument is `""`, with continuations in it or not.
fn is_empty_quotes_argument(text: &[u8], pattern: &[u8]) -> bool
    requires { pattern.now ≡ pattern_of_text Spelling.Command text.now }
    ensures { result ≡ is_argument_of_empty_quotes text.now }
{
    begins_with_byte(b'"', text) && pattern == b"\"\"".as_slice()
}

/// Appends an argument to the arguments.
pub fn append_argument_to_args<'a>(
    alloc: Global,
    args: Args<'a>,
    text: &'a [u8],
) -> Result<Args<'a>, AllocError>
    ensures { IfOk result (λ more. more ≡ args_with_one_more args.entry text.now) }
{
    let pattern = read_pattern_of_text(alloc, PatternSpelling::Command, text)?;
    match args {
        Args::Any if is_empty_quotes_argument(text, pattern.as_slice()) => Ok(Args::Nothing),
        Args::Any => Ok(Args::Pattern(pattern)),
        Args::Nothing => {
            let first = TokenText::from_slice(b"\"\"");
            Ok(Args::Pattern(first.join_with_blank(alloc, pattern.as_slice())?))
        }
        Args::Pattern(first) => Ok(Args::Pattern(first.join_with_blank(
            alloc,
            pattern.as_slice(),
        )?)),
    }
}

/// Returns the arguments of a command that has this one. Most are their own pattern.
#[inline(always)]
pub fn read_first_argument<'a>(alloc: Global, text: &'a [u8]) -> Result<Args<'a>, AllocError>
    ensures { IfOk result (λ args. args ≡ args_with_one_more ArgsOf.Any text.now) }
{
    if !begins_with_byte(b'"', text) && is_own_pattern(text) {
        return Ok(Args::Pattern(TokenText::from_slice(text)));
    }
    append_argument_to_args(alloc, Args::Any, text)
}
