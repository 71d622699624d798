//! The spellings of a command, where folders have two names.

ghost use Rattle.std.specs.Prelude.{◌≡◌, ◌++◌, IfOk, OnOk};
ghost use Rattle.std.specs.Option.{option_map};
ghost use Rattle.sudoers_list_people.specs.Asked.{argument_words_after_first, command_of_words as command_among};
ghost use Rattle.sudoers_match.specs.Answer.{words_joined_with_spaces};
ghost use Rattle.sudoers_ask.specs.Same.{command_below_folder, commands_by_pairs, rest_below_folder as rest_of, spelled_command_of_question};

use crate::question::{CommandQuestion, FolderPair};
use std::alloc::{AllocError, Global};
use sudoers_grammar::Items;
use sudoers_match::{CommandSpellings, join_words};
use sudoers_match_member::CommandLine;

/// Returns what stands behind `folder` in `path`, from its `/` on, if `path` is below it.
fn find_rest_below_folder<'a>(folder: &[u8], path: &'a [u8]) -> Option<&'a [u8]>
    ensures { option_map (λ rest. rest.now) result ≡ rest_of folder.now path.now }
{
    let rest = path.strip_prefix(folder)?;
    match rest.first() {
        Some(b'/') => Some(rest),
        _ => None,
    }
}

/// Returns the command with the path `folder` and `rest` behind it, and the arguments `args`.
fn make_command_line(
    alloc: Global,
    folder: &[u8],
    rest: &[u8],
    args: &[u8],
) -> Result<CommandLine, AllocError>
    ensures path { IfOk result (λ command. command.path ≡ folder.now ++ rest.now) }
    ensures args { IfOk result (λ command. command.args ≡ args.now) }
{
    let mut path = Items::from_slice(alloc, folder)?;
    path.extend_from_slice(rest)?;
    Ok(CommandLine {
        path,
        args: Items::from_slice(alloc, args)?,
    })
}

/// Appends to `others` the command `path` with `to` in place of `from`, if it is below `from`.
fn append_command_below_folder(
    alloc: Global,
    others: &mut Items<CommandLine>,
    from: &[u8],
    to: &[u8],
    path: &[u8],
    args: &[u8],
) -> Result<(), AllocError>
    ensures { OnOk result (others.new ≡ others.old ++ command_below_folder to.now args.now (rest_of from.now path.now)) }
{
    if let Some(rest) = find_rest_below_folder(from, path) {
        others.push(make_command_line(alloc, to, rest, args)?)?;
    }
    Ok(())
}

/// Returns the other spellings of the command `path` with the arguments `args`, by `pairs`.
fn list_commands_by_pairs(
    alloc: Global,
    pairs: &[FolderPair<'_>],
    path: &[u8],
    args: &[u8],
) -> Result<Items<CommandLine>, AllocError>
    ensures { IfOk result (λ others. others ≡ commands_by_pairs path.now args.now pairs.now) }
{
    let mut others = Items::new(alloc);
    for pair in pairs {
        append_command_below_folder(alloc, &mut others, pair.first, pair.second, path, args)?;
        append_command_below_folder(alloc, &mut others, pair.second, pair.first, path, args)?;
    }
    Ok(others)
}

/// Returns the command of `words`.
fn command_of_words(words: &[Items<u8>]) -> &[u8]
    ensures { result.now ≡ command_among words.now }
{
    match words.first() {
        Some(word) => word.as_slice(),
        None => b"",
    }
}

/// Returns the words of `words` behind the first.
pub fn arguments_of_words(words: &[Items<u8>]) -> &[Items<u8>]
    ensures { result.now ≡ argument_words_after_first words.now }
{
    match words.split_first() {
        Some((_, rest)) => rest,
        None => words,
    }
}

/// Returns the command of `question` with its arguments, joined by single spaces, and its other spellings.
///
/// # Errors
///
/// Memory ran out.
pub fn make_spelled_command(
    alloc: Global,
    question: &CommandQuestion<'_>,
) -> Result<CommandSpellings, AllocError>
    ensures { IfOk result (λ command. command ≡ spelled_command_of_question question.now) }
{
    let path = command_of_words(question.words);
    let args = join_words(alloc, arguments_of_words(question.words))?;
    let others = list_commands_by_pairs(alloc, question.same, path, args.as_slice())?;
    Ok(CommandSpellings {
        command: make_command_line(alloc, path, b"", args.as_slice())?,
        others,
    })
}
