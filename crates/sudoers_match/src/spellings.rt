//! The spellings of a command.

ghost use Rattle.std.specs.Prelude.{◌≡◌, [], IfOk};
ghost use Rattle.std.specs.List.{list_any};
ghost use Rattle.sudoers_line_rows.specs.View.{atom_of_view};
ghost use Rattle.sudoers_match_member.specs.Hits.{is_command_atom_match};
ghost use Rattle.sudoers_match.specs.Spellings.{atom_with_any_arguments};
ghost use Rattle.sudoers_match.specs.Answer.{command_with_joined_arguments_of_request};

use crate::request_words::make_command_with_joined_arguments;
use std::alloc::{AllocError, Global};
use sudoers_grammar::Items;
use sudoers_line_rows::{BorrowedArgs, BorrowedAtom};
use sudoers_match_list::MemberKind;
use sudoers_match_member::{CommandLine, Request, matches_command_atom};

/// A command, and other spellings of it. A member matches that matches one of them.
#[derive(Drop)]
pub struct CommandSpellings {
    pub command: CommandLine,
    pub others: Items<CommandLine>,
}

/// Lists of commands that are asked for a command with its spellings.
pub struct SpelledCommandListKind;

impl MemberKind for SpelledCommandListKind {
    type Asked = CommandSpellings;

    ghost use Rattle.sudoers_match.specs.Spellings.{is_spelled_command_match as test_of_spellings};

    ghost test = { test_of_spellings };

    fn hits(atom: &BorrowedAtom<'_>, asked: &CommandSpellings) -> bool {
        matches_one_of(atom, asked.others.as_slice()) || matches_command_atom(atom, &asked.command)
    }
}

/// Lists of commands that are asked for the path of a command, whatever its arguments are.
pub struct SpelledPathListKind;

impl MemberKind for SpelledPathListKind {
    type Asked = CommandSpellings;

    ghost use Rattle.sudoers_match.specs.Spellings.{is_spelled_path_match as test_of_paths};

    ghost test = { test_of_paths };

    fn hits(atom: &BorrowedAtom<'_>, asked: &CommandSpellings) -> bool {
        SpelledCommandListKind::hits(&without_arguments(atom), asked)
    }
}

/// Returns `atom` without what it says of arguments.
fn without_arguments<'a>(atom: &BorrowedAtom<'a>) -> BorrowedAtom<'a>
    ensures { atom_of_view result ≡ atom_with_any_arguments (atom_of_view atom.now) }
{
    match *atom {
        BorrowedAtom::Path { path, .. } => BorrowedAtom::Path {
            path,
            args: BorrowedArgs::Any,
        },
        BorrowedAtom::Sudoedit { .. } => BorrowedAtom::Sudoedit {
            args: BorrowedArgs::Any,
        },
        other => other,
    }
}

/// Returns whether `atom` matches one of `commands`.
fn matches_one_of(atom: &BorrowedAtom<'_>, commands: &[CommandLine]) -> bool
    ensures { result ≡ list_any (λ command. is_command_atom_match command (atom_of_view atom.now)) commands.now }
{
    commands
        .iter()
        .any(|command| matches_command_atom(atom, command))
}

/// Returns the command of `request` with its arguments, joined by single spaces. It has no other spelling.
///
/// # Errors
///
/// Memory ran out.
pub fn make_sole_spelling(alloc: Global, request: &Request) -> Result<CommandSpellings, AllocError>
    ensures command { IfOk result (λ spellings. spellings.command ≡ command_with_joined_arguments_of_request request.now) }
    ensures others { IfOk result (λ spellings. spellings.others ≡ []) }
{
    let command = make_command_with_joined_arguments(alloc, request)?;
    Ok(CommandSpellings {
        command,
        others: Items::from_vec(Vec::new(alloc)),
    })
}
