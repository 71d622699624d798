//! What a line of a script says.
ghost use Rattle.std.specs.Prelude.{◌≡◌, ◌≤◌, ◌∷◌, ◌==◌, ◌||◌, [], length, take, drop, IfOk, MatchOption, MatchResult, Ok, Err};
ghost use Rattle.std.specs.List.{list_any};
ghost use Rattle.sudoers_grammar.specs.Piece.{value_of_matching_row};
ghost use Rattle.sudoers_edit_script.specs.Script.{is_spellable_word as has_word};
ghost use Rattle.sudoers_edit_script.specs.ScriptReading.{parsed_add_command, parsed_alias_and_word, parsed_command_without_arguments, parsed_drop_command, parsed_file_line, alias_kinds_by_word, is_line_with_file_scoped_command as has_line_word, parsed_single_place, place_of_word, parsed_rename_command, parsed_command_arguments, parsed_words_of_line, parsed_script_line, text_of_payload_line, parsed_two_places, line_without_final_lf as line_body, words_between_spaces};
ghost use Rattle.sudoers_edit_script.specs.internal.ScriptStanding.{words_behind_leading_space};

use crate::command_words::{EditCommand, command_of_word};
use crate::edit::{Edit, Text};
use crate::edit_awaiting_text::EditAwaitingText;
use memchr::memchr;
use std::alloc::{AllocError, Global};
use sudoers_grammar::Kind;
use sudoers_text::ends_in_lf;

/// The greatest number of a line.
const MAX_NUMBER: u64 = 4_294_967_296;

/// What a line of a script says.
#[derive(Drop)]
pub enum ParsedScriptLine {
    /// The command of an edit that wants a text.
    Begin(EditAwaitingText),
    /// The command of an edit, which is all of it.
    Whole(Edit),
    /// It begins with the word of a command, and is none.
    Flawed(CommandFlaw),
    /// A `file` line, with the file that it sets, or none if its number is none.
    File(Option<u32>),
    /// `|`, and a line of a text with its LF.
    More,
    /// `>`, and the rest of a text, without LF.
    Last,
    /// A line of a text, and the script ends without LF.
    Unended,
    /// Anything else.
    Other,
}

/// Why a line that begins with the word of a command is none.
#[derive(Clone, Copy)]
pub enum CommandFlaw {
    /// Words are too few or too many, a kind or a name is none, or the line does not end in LF.
    Word,
    /// It is right but for a number.
    Number,
}

/// Returns the kind that a word stands for.
fn alias_kind_of_word(word: &[u8]) -> Option<Kind>
    ensures { result ≡ value_of_matching_row alias_kinds_by_word word.now }
{
    if word == b"user".as_slice() {
        Some(Kind::User)
    } else if word == b"runas".as_slice() {
        Some(Kind::Runas)
    } else if word == b"host".as_slice() {
        Some(Kind::Host)
    } else if word == b"cmnd".as_slice() {
        Some(Kind::Cmnd)
    } else {
        None
    }
}

/// Returns whether a space or LF stands in a text.
fn has_space_or_lf(text: &[u8]) -> bool
    ensures { result ≡ list_any (λ byte. (byte == 32) || (byte == 10)) text.now }
{
    text.iter().any(|byte| *byte == b' ' || *byte == b'\n')
}

/// Returns whether a name has a spelling: one or more bytes other than space and LF.
pub fn is_script_word(name: &[u8]) -> bool
    ensures { result ≡ has_word name.now }
{
    !name.is_empty() && !has_space_or_lf(name)
}

/// Returns the place that a word stands for.
fn parse_place_number(word: &[u8]) -> Option<u32>
    ensures { result ≡ place_of_word word.now }
{
    let mut number: u64 = 0;
    for byte in word {
        if !byte.is_ascii_digit() {
            return None;
        }
        number = number * 10 + u64::from(*byte - b'0');
        if number == 0 || number > MAX_NUMBER {
            return None;
        }
    }
    if number == 0 {
        return None;
    }
    Some((number - 1) as u32)
}

/// Returns how many bytes stand before the first space.
fn first_word_len(text: &[u8]) -> usize
    ensures within { result ≤ length text.now }
    ensures first { words_between_spaces text.now ≡ take result text.now ∷ words_behind_leading_space (drop result text.now) }
{
    match memchr(b' ', text) {
        Some(at) => at,
        None => text.len(),
    }
}

/// Returns the word behind a space, and the rest behind that word; the whole is empty or begins with the space.
fn split_word_behind_leading_space(rest: &[u8]) -> Option<(&[u8], &[u8])>
    ensures { MatchOption result (words_behind_leading_space rest.now ≡ [])
        (λ next. words_behind_leading_space rest.now ≡ next.0.now ∷ words_behind_leading_space next.1.now) }
{
    let (_, text) = rest.split_first()?;
    Some(text.split_at(first_word_len(text)))
}

/// Returns the one place behind the first word of a command.
fn parse_one_place(rest: &[u8]) -> Result<u32, CommandFlaw>
    ensures { result ≡ parsed_single_place (words_behind_leading_space rest.now) }
{
    let Some((word, rest)) = split_word_behind_leading_space(rest) else {
        return Err(CommandFlaw::Word);
    };
    if split_word_behind_leading_space(rest).is_some() {
        return Err(CommandFlaw::Word);
    }
    parse_place_number(word).ok_or(CommandFlaw::Number)
}

/// Returns the two places behind the first word of a command.
fn parse_two_places(rest: &[u8]) -> Result<(u32, u32), CommandFlaw>
    ensures { result ≡ parsed_two_places (words_behind_leading_space rest.now) }
{
    let Some((word, rest)) = split_word_behind_leading_space(rest) else {
        return Err(CommandFlaw::Word);
    };
    let Some((next, rest)) = split_word_behind_leading_space(rest) else {
        return Err(CommandFlaw::Word);
    };
    if split_word_behind_leading_space(rest).is_some() {
        return Err(CommandFlaw::Word);
    }
    match (parse_place_number(word), parse_place_number(next)) {
        (Some(first), Some(second)) => Ok((first, second)),
        _ => Err(CommandFlaw::Number),
    }
}

/// Returns the kind and the name of an alias, and one word more, behind the first word of a command.
fn parse_alias_and_word(rest: &[u8]) -> Result<(Kind, &[u8], &[u8]), CommandFlaw>
    ensures { MatchResult result (λ alias. parsed_alias_and_word (words_behind_leading_space rest.now) ≡ Ok (alias.0, alias.1.now, alias.2.now))
        (λ flaw. parsed_alias_and_word (words_behind_leading_space rest.now) ≡ Err flaw) }
{
    let Some((word, rest)) = split_word_behind_leading_space(rest) else {
        return Err(CommandFlaw::Word);
    };
    let Some((name, rest)) = split_word_behind_leading_space(rest) else {
        return Err(CommandFlaw::Word);
    };
    let Some((more, rest)) = split_word_behind_leading_space(rest) else {
        return Err(CommandFlaw::Word);
    };
    if split_word_behind_leading_space(rest).is_some() {
        return Err(CommandFlaw::Word);
    }
    match alias_kind_of_word(word) {
        Some(kind) if is_script_word(name) => Ok((kind, name, more)),
        _ => Err(CommandFlaw::Word),
    }
}

/// Returns what `add` says, by the rest of its line.
fn parse_add_command(alloc: Global, rest: &[u8]) -> Result<ParsedScriptLine, AllocError>
    ensures { IfOk result (λ said. said ≡ parsed_add_command (words_behind_leading_space rest.now)) }
{
    match parse_alias_and_word(rest) {
        Ok((kind, name, word)) => match parse_place_number(word) {
            Some(at) => {
                let name = Text::from_slice(alloc, name)?;
                Ok(ParsedScriptLine::Begin(EditAwaitingText::AddMember { kind, name, at }))
            }
            None => Ok(ParsedScriptLine::Flawed(CommandFlaw::Number)),
        },
        Err(flaw) => Ok(ParsedScriptLine::Flawed(flaw)),
    }
}

/// Returns what `drop` says, by the rest of its line.
fn parse_drop_command(alloc: Global, rest: &[u8]) -> Result<ParsedScriptLine, AllocError>
    ensures { IfOk result (λ said. said ≡ parsed_drop_command (words_behind_leading_space rest.now)) }
{
    match parse_alias_and_word(rest) {
        Ok((kind, name, word)) => match parse_place_number(word) {
            Some(at) => {
                let name = Text::from_slice(alloc, name)?;
                Ok(ParsedScriptLine::Whole(Edit::DropMember { kind, name, at }))
            }
            None => Ok(ParsedScriptLine::Flawed(CommandFlaw::Number)),
        },
        Err(flaw) => Ok(ParsedScriptLine::Flawed(flaw)),
    }
}

/// Returns what `rename` says, by the rest of its line.
fn parse_rename_command(alloc: Global, rest: &[u8]) -> Result<ParsedScriptLine, AllocError>
    ensures { IfOk result (λ said. said ≡ parsed_rename_command (words_behind_leading_space rest.now)) }
{
    match parse_alias_and_word(rest) {
        Ok((kind, name, fresh)) => {
            if !is_script_word(fresh) {
                return Ok(ParsedScriptLine::Flawed(CommandFlaw::Word));
            }
            let name = Text::from_slice(alloc, name)?;
            let fresh = Text::from_slice(alloc, fresh)?;
            Ok(ParsedScriptLine::Whole(Edit::Rename { kind, name, fresh }))
        }
        Err(flaw) => Ok(ParsedScriptLine::Flawed(flaw)),
    }
}

/// Returns what a command of one word says, by the rest of its line.
fn parse_command_without_arguments(edit: Edit, rest: &[u8]) -> ParsedScriptLine
    ensures { result ≡ parsed_command_without_arguments edit (words_behind_leading_space rest.now) }
{
    if split_word_behind_leading_space(rest).is_some() {
        return ParsedScriptLine::Flawed(CommandFlaw::Word);
    }
    ParsedScriptLine::Whole(edit)
}

/// Returns what a command says where this file is set, by the rest of its line, which ends in LF.
fn parse_command_arguments(
    alloc: Global,
    file: u32,
    command: EditCommand,
    rest: &[u8],
) -> Result<ParsedScriptLine, AllocError>
    ensures { IfOk result (λ said. said ≡ parsed_command_arguments file command (words_behind_leading_space rest.now)) }
{
    match command {
        EditCommand::Insert => match parse_one_place(rest) {
            Ok(at) => Ok(ParsedScriptLine::Begin(EditAwaitingText::Insert { file, at })),
            Err(flaw) => Ok(ParsedScriptLine::Flawed(flaw)),
        },
        EditCommand::Delete => match parse_one_place(rest) {
            Ok(at) => Ok(ParsedScriptLine::Whole(Edit::Delete { file, at })),
            Err(flaw) => Ok(ParsedScriptLine::Flawed(flaw)),
        },
        EditCommand::Move => match parse_two_places(rest) {
            Ok((from, to)) => Ok(ParsedScriptLine::Whole(Edit::Move { file, from, to })),
            Err(flaw) => Ok(ParsedScriptLine::Flawed(flaw)),
        },
        EditCommand::AddDef => match parse_two_places(rest) {
            Ok((line, at)) => Ok(ParsedScriptLine::Begin(EditAwaitingText::AddDef {
                file,
                line,
                at,
            })),
            Err(flaw) => Ok(ParsedScriptLine::Flawed(flaw)),
        },
        EditCommand::DropDef => match parse_two_places(rest) {
            Ok((line, at)) => Ok(ParsedScriptLine::Whole(Edit::DropDef { file, line, at })),
            Err(flaw) => Ok(ParsedScriptLine::Flawed(flaw)),
        },
        EditCommand::AddMember => parse_add_command(alloc, rest),
        EditCommand::DropMember => parse_drop_command(alloc, rest),
        EditCommand::Rename => parse_rename_command(alloc, rest),
        EditCommand::EndLine => Ok(parse_command_without_arguments(Edit::EndLine { file }, rest)),
        EditCommand::OpenEnd => Ok(parse_command_without_arguments(Edit::OpenEnd { file }, rest)),
        EditCommand::Prune => Ok(parse_command_without_arguments(Edit::Prune, rest)),
    }
}

/// Returns what a `file` line says, by the rest of it.
fn parse_file_line(rest: &[u8], is_ended: bool) -> ParsedScriptLine
    ensures { result ≡ parsed_file_line is_ended (words_behind_leading_space rest.now) }
{
    match split_word_behind_leading_space(rest) {
        Some((word, rest)) if is_ended && split_word_behind_leading_space(rest).is_none() =>
            ParsedScriptLine::File(parse_place_number(word)),
        _ => ParsedScriptLine::Other,
    }
}

/// Returns what a line says where this file is set, by its words.
fn parse_words_of_line(
    alloc: Global,
    file: u32,
    text: &[u8],
    is_ended: bool,
) -> Result<ParsedScriptLine, AllocError>
    ensures { IfOk result (λ said. said ≡ parsed_words_of_line file is_ended (words_between_spaces text.now)) }
{
    let (word, rest) = text.split_at(first_word_len(text));
    if word == b"file".as_slice() {
        return Ok(parse_file_line(rest, is_ended));
    }
    match command_of_word(word) {
        Some(command) if is_ended => parse_command_arguments(alloc, file, command, rest),
        Some(_) => Ok(ParsedScriptLine::Flawed(CommandFlaw::Word)),
        None => Ok(ParsedScriptLine::Other),
    }
}

/// Returns the line without the LF at its end.
fn drop_final_lf(line: &[u8]) -> &[u8]
    ensures { result.now ≡ line_body line.now }
{
    if ends_in_lf(line) {
        &line[..line.len() - 1]
    } else {
        line
    }
}

/// Returns whether the first word of a line is that of a command whose edits name lines.
pub fn is_file_scoped_line(line: &[u8]) -> bool
    ensures { result ≡ has_line_word line.now }
{
    let text = drop_final_lf(line);
    match command_of_word(&text[..first_word_len(text)]) {
        Some(command) => command.is_file_scoped(),
        None => false,
    }
}

/// Returns what a line says where this file is set.
pub fn parse_script_line(
    alloc: Global,
    file: u32,
    line: &[u8],
) -> Result<ParsedScriptLine, AllocError>
    ensures { IfOk result (λ said. said ≡ parsed_script_line file line.now) }
{
    let is_ended = ends_in_lf(line);
    match line.first() {
        None => Ok(ParsedScriptLine::Other),
        Some(b'|' | b'>') if !is_ended => Ok(ParsedScriptLine::Unended),
        Some(b'|') => Ok(ParsedScriptLine::More),
        Some(b'>') => Ok(ParsedScriptLine::Last),
        Some(_) => parse_words_of_line(alloc, file, drop_final_lf(line), is_ended),
    }
}

/// Returns the bytes behind the first one.
fn drop_first_byte(text: &[u8]) -> &[u8]
    ensures { result.now ≡ drop 1 text.now }
{
    match text.split_first() {
        Some((_, rest)) => rest,
        None => &[],
    }
}

/// Returns the text that a line stands for.
pub fn payload_text_of_line<'a>(line: &'a [u8], said: &ParsedScriptLine) -> &'a [u8]
    ensures { result.now ≡ text_of_payload_line said.now line.now }
{
    match said {
        ParsedScriptLine::More => drop_first_byte(line),
        ParsedScriptLine::Last => drop_first_byte(drop_final_lf(line)),
        _ => &[],
    }
}
