//! Commands that may match a member of a list. No proof relies on which they are.

use std::alloc::{AllocError, Global};
use sudoers_grammar::Items;
use sudoers_line_rows::{BorrowedArgs, BorrowedAtom};

/// A command and its arguments.
#[derive(Drop)]
pub struct ExampleCommand {
    pub command: Items<u8>,
    pub args: Items<Items<u8>>,
}

/// What stands for any text.
const ANYTHING: u8 = b'x';

/// The command that stands for any command.
const ANY_COMMAND: &[u8] = b"/usr/bin/id";

/// Returns how many bytes the set in brackets has with which `pattern` begins.
fn size_of_set(pattern: &[u8]) -> usize {
    for last in 2..pattern.len() {
        if pattern[last] == b']' {
            return last + 1;
        }
    }
    pattern.len()
}

/// Returns a byte of the set in brackets with which `pattern` begins.
fn choose_byte_of_set(pattern: &[u8]) -> u8 {
    match pattern.get(1) {
        Some(b'!' | b'^' | b'[' | b'\\') | None => ANYTHING,
        Some(byte) => *byte,
    }
}

/// Returns how many bytes the first item of `pattern` has.
fn size_of_first_item(pattern: &[u8]) -> usize {
    match pattern.first() {
        Some(b'\\') => pattern.len().min(2),
        Some(b'[') => size_of_set(pattern),
        _ => pattern.len().min(1),
    }
}

/// Returns a byte that the first item of `pattern` matches.
fn choose_byte_of_first_item(pattern: &[u8]) -> u8 {
    match (pattern.first(), pattern.get(1)) {
        (Some(b'\\'), Some(byte)) => *byte,
        (Some(b'['), _) => choose_byte_of_set(pattern),
        (Some(b'*' | b'?'), _) | (None, _) => ANYTHING,
        (Some(byte), _) => *byte,
    }
}

/// Returns a text that `pattern` may match: a byte for each of its items.
fn make_sample_of_pattern(alloc: Global, pattern: &[u8]) -> Result<Vec<u8>, AllocError> {
    let mut text = Vec::new(alloc);
    let mut rest = pattern;
    for _ in 0..pattern.len() {
        if rest.is_empty() {
            break;
        }
        text.push(choose_byte_of_first_item(rest))?;
        rest = &rest[size_of_first_item(rest).min(rest.len())..];
    }
    Ok(text)
}

/// Returns the words of `text`, which blanks separate.
fn split_words(alloc: Global, text: &[u8]) -> Result<Items<Items<u8>>, AllocError> {
    let mut words = Vec::new(alloc);
    for word in text.split(|byte| *byte == b' ' || *byte == b'\t') {
        if !word.is_empty() {
            words.push(Items::from_slice(alloc, word)?)?;
        }
    }
    Ok(Items::from_vec(words))
}

/// Returns whether `text` can be printed in one line.
fn is_printable(text: &[u8]) -> bool {
    text.iter().all(|byte| *byte >= b' ' && *byte != 127)
}

/// Adds the command `command` with the arguments `args` to `commands`, if it can be printed in one line.
fn add_command(
    alloc: Global,
    commands: &mut Vec<ExampleCommand>,
    command: &[u8],
    args: &[u8],
) -> Result<(), AllocError> {
    if is_printable(command) && is_printable(args) {
        commands.push(ExampleCommand {
            command: Items::from_slice(alloc, command)?,
            args: split_words(alloc, args)?,
        })?;
    }
    Ok(())
}

/// Adds the command `command` with arguments that `args` may match to `commands`.
fn add_command_with_arguments(
    alloc: Global,
    commands: &mut Vec<ExampleCommand>,
    command: &[u8],
    args: &BorrowedArgs<'_>,
) -> Result<(), AllocError> {
    match *args {
        BorrowedArgs::Any => {
            add_command(alloc, commands, command, b"")?;
            add_command(alloc, commands, command, b"x")
        }
        BorrowedArgs::Nothing => add_command(alloc, commands, command, b""),
        BorrowedArgs::Pattern(pattern) => {
            let text = make_sample_of_pattern(alloc, pattern)?;
            add_command(alloc, commands, command, text.as_slice())
        }
    }
}

/// Returns commands that `atom` may match.
///
/// # Errors
///
/// Memory ran out.
pub fn list_example_commands(
    alloc: Global,
    atom: &BorrowedAtom<'_>,
) -> Result<Vec<ExampleCommand>, AllocError> {
    let mut commands = Vec::new(alloc);
    match *atom {
        BorrowedAtom::All => {
            add_command(alloc, &mut commands, ANY_COMMAND, b"")?;
            add_command(alloc, &mut commands, b"/x", b"x")?;
        }
        BorrowedAtom::Listing => add_command(alloc, &mut commands, b"list", b"")?,
        BorrowedAtom::Sudoedit { args } => {
            add_command_with_arguments(alloc, &mut commands, b"sudoedit", &args)?;
        }
        BorrowedAtom::Path { path, args } => {
            let mut command = make_sample_of_pattern(alloc, path)?;
            if command.ends_with(b"/") {
                command.push(ANYTHING)?;
            }
            add_command_with_arguments(alloc, &mut commands, command.as_slice(), &args)?;
        }
        _ => {}
    }
    Ok(commands)
}
