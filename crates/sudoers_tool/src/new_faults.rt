//! Undefined and cyclic aliases that edits bring.

use crate::place_trouble::PlaceError;
use std::alloc::{AllocError, Global};
use sudoers_check::{Note, check};
use sudoers_grammar::alias_keyword_of_kind;
use sudoers_run::{LayerFault, OutputFiles, ToolFault};
use sudoers_text::append_decimal_number;
use sudoers_tree::{NamedFile, Policy, is_same_kind};

/// Returns the place and the name of the first alias that is undefined or cyclic after the edits of `files`, and was not before; nothing if
/// there is none.
pub fn find_new_alias_fault(
    alloc: Global,
    files: &OutputFiles,
) -> Result<Option<Vec<u8>>, PlaceError> {
    let old = check(alloc, &load_files(alloc, files.before.as_slice())?)?;
    let policy = load_files(alloc, files.after.as_slice())?;
    let new = check(alloc, &policy)?;
    if let Some(note) = find_new_note(old.undefined.as_slice(), new.undefined.as_slice()) {
        return Ok(Some(make_note_text(alloc, &policy, note, b"undefined")?));
    }
    if let Some(note) = find_new_note(old.cyclic.as_slice(), new.cyclic.as_slice()) {
        return Ok(Some(make_note_text(alloc, &policy, note, b"cyclic")?));
    }
    Ok(None)
}

/// Returns the policy of the files `files`.
fn load_files(alloc: Global, files: &[NamedFile]) -> Result<Policy, PlaceError> {
    match Policy::load(alloc, files) {
        Ok(policy) => Ok(policy),
        Err(fault) => Err(PlaceError::from(ToolFault::Layer(LayerFault::Load(fault)))),
    }
}

/// Returns the first of the notes `new` about a name of which none of `old` is.
fn find_new_note<'a>(old: &[Note], new: &'a [Note]) -> Option<&'a Note> {
    new.iter().find(|note| !old.iter().any(|other| is_about_same_name(other, note)))
}

/// Returns whether two notes are about one name.
fn is_about_same_name(note: &Note, other: &Note) -> bool {
    is_same_kind(note.kind, other.kind) && note.name.as_slice() == other.name.as_slice()
}

/// Returns the place of `note` in `policy`, the word `word` and the alias.
fn make_note_text(
    alloc: Global,
    policy: &Policy,
    note: &Note,
    word: &[u8],
) -> Result<Vec<u8>, AllocError> {
    let mut text = Vec::from_slice(alloc, policy.file_name(note.file))?;
    text.extend_from_slice(b":")?;
    append_decimal_number(alloc, &mut text, note.line)?;
    text.extend_from_slice(b":")?;
    append_decimal_number(alloc, &mut text, note.col)?;
    text.extend_from_slice(b": ")?;
    text.extend_from_slice(word)?;
    text.extend_from_slice(b" ")?;
    text.extend_from_slice(alias_keyword_of_kind(note.kind))?;
    text.extend_from_slice(b" ")?;
    text.extend_from_slice(note.name.as_slice())?;
    Ok(text)
}
