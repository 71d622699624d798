//! The spelling of a list of edits, and the laws between spelling and reading.
ghost use Rattle.std.specs.Prelude.{◌≡◌, ◌+◌, ◌≤◌, ◌<◌, ◌++◌, ◌∷◌, [], true, length, MatchResult, IfOk, OnOk, Ok, Err};
ghost use Rattle.sudoers_edit_script.specs.Physical.{physical_lines};
ghost use Rattle.sudoers_edit_script.specs.Script.{one_based_decimal, word_for_alias_kind, command_words_of_edit, words_joined_by_spaces, payload_lines_of_edit, payload_of_text, payload_line_of_text_line, spelling_of_edit, file_number_named_by_edit, script_line_setting_file_number, file_number_set_after_edit, file_line_before_edit, has_word_names as has_names, script_or_first_fault};
ghost use Rattle.sudoers_edit_script.specs.ScriptReading.{edits_spelled_by_text, IsFaultOrNoMemory};
ghost use Rattle.sudoers_edit_script.specs.declared.edit.Edit.TheVariants.{Rename};

use crate::edit::Edit;
use crate::physical_lines::first_physical_line_len;
use crate::script_line::is_script_word;
use crate::script_reader::{MAX_EDITS, ScriptFault};
use std::alloc::{AllocError, Global};
use sudoers_grammar::Kind;
use sudoers_text::{append_decimal_number, ends_in_lf};

/// Appends a line of a text.
fn append_payload_line(out: &mut Vec<u8>, line: &[u8]) -> Result<(), AllocError>
    ensures { OnOk result (out.new.items ≡ out.old.items ++ payload_line_of_text_line line.now) }
{
    if ends_in_lf(line) {
        out.extend_from_slice(b"|")?;
        out.extend_from_slice(line)
    } else {
        out.extend_from_slice(b">")?;
        out.extend_from_slice(line)?;
        out.extend_from_slice(b"\n")
    }
}

/// Appends each line of a text.
fn append_payload_lines(out: &mut Vec<u8>, text: &[u8]) -> Result<(), AllocError>
    ensures { OnOk result (out.new.items ≡ out.old.items ++ payload_of_text text.now) }
{
    if text.is_empty() {
        return out.extend_from_slice(b">\n");
    }
    let mut rest = text;
    while !rest.is_empty() {
        let (line, behind) = rest.split_at(first_physical_line_len(rest));
        append_payload_line(out, line)?;
        rest = behind;
    }
    Ok(())
}

/// Appends a space and a word.
fn append_space_and_word(out: &mut Vec<u8>, word: &[u8]) -> Result<(), AllocError>
    ensures { OnOk result (out.new.items ≡ out.old.items ++ 32 ∷ word.now) }
{
    out.extend_from_slice(b" ")?;
    out.extend_from_slice(word)
}

/// Appends a space and a number.
fn append_space_and_one_based_number(
    alloc: Global,
    out: &mut Vec<u8>,
    at: u32,
) -> Result<(), AllocError>
    ensures { OnOk result (out.new.items ≡ out.old.items ++ 32 ∷ one_based_decimal at) }
{
    out.extend_from_slice(b" ")?;
    append_decimal_number(alloc, out, at as usize + 1)
}

/// Appends a word and a number.
fn append_word_and_one_based_number(
    alloc: Global,
    out: &mut Vec<u8>,
    word: &[u8],
    at: u32,
) -> Result<(), AllocError>
    ensures { OnOk result (out.new.items ≡ out.old.items ++ words_joined_by_spaces (word.now ∷ one_based_decimal at ∷ [])) }
{
    out.extend_from_slice(word)?;
    append_space_and_one_based_number(alloc, out, at)
}

/// Appends a word and two numbers.
fn append_word_and_two_one_based_numbers(
    alloc: Global,
    out: &mut Vec<u8>,
    word: &[u8],
    first: u32,
    second: u32,
) -> Result<(), AllocError>
    ensures { OnOk result (out.new.items ≡ out.old.items ++ words_joined_by_spaces (word.now ∷ one_based_decimal first ∷ one_based_decimal second ∷ [])) }
{
    append_word_and_one_based_number(alloc, out, word, first)?;
    append_space_and_one_based_number(alloc, out, second)
}

/// Returns the word for a kind.
fn script_word_of_alias_kind(kind: Kind) -> &'static [u8]
    ensures { result.now ≡ word_for_alias_kind kind }
{
    match kind {
        Kind::User => b"user",
        Kind::Runas => b"runas",
        Kind::Host => b"host",
        Kind::Cmnd => b"cmnd",
    }
}

/// Appends a word, a kind and a name.
fn append_word_kind_and_name(
    out: &mut Vec<u8>,
    word: &[u8],
    kind: Kind,
    name: &[u8],
) -> Result<(), AllocError>
    ensures { OnOk result (out.new.items ≡ out.old.items ++ words_joined_by_spaces (word.now ∷ word_for_alias_kind kind ∷ name.now ∷ [])) }
{
    out.extend_from_slice(word)?;
    append_space_and_word(out, script_word_of_alias_kind(kind))?;
    append_space_and_word(out, name)
}

/// Appends a word, a kind, a name and a number.
fn append_member_command(
    alloc: Global,
    out: &mut Vec<u8>,
    word: &[u8],
    kind: Kind,
    name: &[u8],
    at: u32,
) -> Result<(), AllocError>
    ensures { OnOk result (out.new.items ≡ out.old.items ++ words_joined_by_spaces (word.now ∷ word_for_alias_kind kind ∷ name.now ∷ one_based_decimal at ∷ [])) }
{
    append_word_kind_and_name(out, word, kind, name)?;
    append_space_and_one_based_number(alloc, out, at)
}

/// Appends the command of a renaming.
fn append_rename_command(
    out: &mut Vec<u8>,
    kind: Kind,
    name: &[u8],
    fresh: &[u8],
) -> Result<(), AllocError>
    ensures { OnOk result (out.new.items ≡ out.old.items ++ words_joined_by_spaces (command_words_of_edit (Rename kind name.now fresh.now))) }
{
    append_word_kind_and_name(out, b"rename", kind, name)?;
    append_space_and_word(out, fresh)
}

/// Appends the words of an edit's command.
fn append_command_words(alloc: Global, out: &mut Vec<u8>, edit: &Edit) -> Result<(), AllocError>
    ensures { OnOk result (out.new.items ≡ out.old.items ++ words_joined_by_spaces (command_words_of_edit edit.now)) }
{
    match edit {
        Edit::Insert { at, .. } => append_word_and_one_based_number(alloc, out, b"insert", *at),
        Edit::Delete { at, .. } => append_word_and_one_based_number(alloc, out, b"delete", *at),
        Edit::Move { from, to, .. } => append_word_and_two_one_based_numbers(
            alloc, out, b"move", *from, *to,
        ),
        Edit::AddMember { kind, name, at, .. } => {
            append_member_command(alloc, out, b"add", *kind, name.as_slice(), *at)
        }
        Edit::DropMember { kind, name, at } => {
            append_member_command(alloc, out, b"drop", *kind, name.as_slice(), *at)
        }
        Edit::AddDef { line, at, .. } => append_word_and_two_one_based_numbers(
            alloc, out, b"adddef", *line, *at,
        ),
        Edit::DropDef { line, at, .. } => append_word_and_two_one_based_numbers(
            alloc, out, b"dropdef", *line, *at,
        ),
        Edit::Rename { kind, name, fresh } => {
            append_rename_command(out, *kind, name.as_slice(), fresh.as_slice())
        }
        Edit::EndLine { .. } => out.extend_from_slice(b"endline"),
        Edit::OpenEnd { .. } => out.extend_from_slice(b"openend"),
        Edit::Prune => out.extend_from_slice(b"prune"),
    }
}

/// Appends the lines of the text that an edit brings.
fn append_payload_of_edit(out: &mut Vec<u8>, edit: &Edit) -> Result<(), AllocError>
    ensures { OnOk result (out.new.items ≡ out.old.items ++ payload_lines_of_edit edit.now) }
{
    match edit {
        Edit::Insert { text, .. } => append_payload_lines(out, text.as_slice()),
        Edit::AddMember { splice, .. } => append_payload_lines(out, splice.as_slice()),
        Edit::AddDef { splice, .. } => append_payload_lines(out, splice.as_slice()),
        _ => Ok(()),
    }
}

/// Appends an edit.
fn append_edit_spelling(alloc: Global, out: &mut Vec<u8>, edit: &Edit) -> Result<(), AllocError>
    ensures { OnOk result (out.new.items ≡ out.old.items ++ spelling_of_edit edit.now) }
{
    append_command_words(alloc, out, edit)?;
    out.extend_from_slice(b"\n")?;
    append_payload_of_edit(out, edit)
}

/// Returns the file whose lines an edit names, if it names any.
fn file_number_of_edit(edit: &Edit) -> Option<u32>
    ensures { result ≡ file_number_named_by_edit edit.now }
{
    match edit {
        Edit::Insert { file, .. }
        | Edit::Delete { file, .. }
        | Edit::Move { file, .. }
        | Edit::AddDef { file, .. }
        | Edit::DropDef { file, .. }
        | Edit::EndLine { file }
        | Edit::OpenEnd { file } => Some(*file),
        Edit::AddMember { .. } | Edit::DropMember { .. } | Edit::Rename { .. } | Edit::Prune =>
            None,
    }
}

/// Appends the `file` line that an edit needs where the file `last` is set. Returns the file that is set then.
fn append_file_line_if_changed(
    alloc: Global,
    out: &mut Vec<u8>,
    last: u32,
    edit: &Edit,
) -> Result<u32, AllocError>
    ensures out { OnOk result (out.new.items ≡ out.old.items ++ file_line_before_edit last (file_number_named_by_edit edit.now)) }
    ensures file { IfOk result (λ file. file ≡ file_number_set_after_edit last edit.now) }
{
    match file_number_of_edit(edit) {
        Some(file) if file != last => {
            append_word_and_one_based_number(alloc, out, b"file", file)?;
            out.extend_from_slice(b"\n")?;
            Ok(file)
        }
        _ => Ok(last),
    }
}

/// Returns whether the names in an edit have a spelling.
fn has_spellable_names(edit: &Edit) -> bool
    ensures { result ≡ has_names edit.now }
{
    match edit {
        Edit::AddMember { name, .. } => is_script_word(name.as_slice()),
        Edit::DropMember { name, .. } => is_script_word(name.as_slice()),
        Edit::Rename { name, fresh, .. } => is_script_word(name.as_slice())
            && is_script_word(fresh.as_slice()),
        _ => true,
    }
}

/// Returns how many physical lines a text has.
fn physical_line_count(text: &[u8]) -> usize
    ensures lines { result ≡ length (physical_lines text.now) }
    ensures within { result ≤ length text.now }
{
    let mut count = 0;
    let mut rest = text;
    while !rest.is_empty() {
        let (_, behind) = rest.split_at(first_physical_line_len(rest));
        rest = behind;
        count += 1;
    }
    count
}

/// Returns the text of a list of edits.
///
/// # Errors
///
/// BadWord for the first name without a spelling, with the line that its command would have; TooMany; want of memory.
pub fn write_script(alloc: Global, edits: &[Edit]) -> Result<Vec<u8>, ScriptFault>
    ensures { MatchResult result (λ text. script_or_first_fault edits.now ≡ Ok text.items) (λ fault. IsFaultOrNoMemory fault (script_or_first_fault edits.now)) }
{
    let mut out = Vec::new(alloc);
    let mut file = 0;
    for (count, edit) in edits.iter().enumerate() {
        if count >= MAX_EDITS {
            return Err(ScriptFault::TooMany);
        }
        if !has_spellable_names(edit) {
            let line = physical_line_count(out.as_slice()) + 1;
            return Err(ScriptFault::BadWord { line });
        }
        file = append_file_line_if_changed(alloc, &mut out, file, edit)?;
        append_edit_spelling(alloc, &mut out, edit)?;
    }
    Ok(out)
}
