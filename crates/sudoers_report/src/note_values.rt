//! Notes on aliases as JSON.

use crate::json_document::JsonList;
use crate::json_texts::make_text_value;
use crate::place::{LineAndColumn, PlaceInPolicy};
use serde_json::{Value, json};
use std::alloc::{AllocError, Global};
use sudoers_check::Note;
use sudoers_grammar::alias_keyword_of_kind;
use sudoers_tree::Policy;

/// Returns the note `note` on `policy` as a value. Its place is that of the name.
fn make_note_value(alloc: Global, policy: &Policy, note: &Note) -> Result<Value, AllocError> {
    let name = note.name.as_slice();
    let place = PlaceInPolicy {
        file: policy.file_name(note.file),
        start: Some(LineAndColumn {
            line: note.line,
            column: note.col,
        }),
        end: Some(LineAndColumn {
            line: note.line,
            column: note.col.saturating_add(name.len()),
        }),
    };
    json!(in alloc; {
        "kind": make_text_value(alloc, alias_keyword_of_kind(note.kind))?,
        "name": make_text_value(alloc, name)?,
        "place": place.to_value(alloc)?
    })
}

/// Returns the notes `notes` on `policy` as a list.
///
/// # Errors
///
/// Memory ran out.
pub fn make_note_list(
    alloc: Global,
    policy: &Policy,
    notes: &[Note],
) -> Result<JsonList, AllocError> {
    let mut list = JsonList::new(alloc);
    for note in notes {
        list.add(&make_note_value(alloc, policy, note)?)?;
    }
    Ok(list)
}
