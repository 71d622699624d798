//! Edits that wait for their texts.
ghost use Rattle.std.specs.Prelude.{◌≡◌};
ghost use Rattle.sudoers_edit_script.specs.ScriptReading.{edit_completed_with_text};

use crate::edit::{Edit, Text};
use sudoers_grammar::Kind;

/// An edit whose command has been read, and whose text has not.
#[derive(Drop)]
pub enum EditAwaitingText {
    Insert { file: u32, at: u32 },
    AddMember { kind: Kind, name: Text, at: u32 },
    AddDef { file: u32, line: u32, at: u32 },
}

impl EditAwaitingText {
    /// Returns the edit with this text.
    pub fn into_edit_with_text(self, text: Text) -> Edit
        ensures { result ≡ edit_completed_with_text self text }
    {
        match self {
            EditAwaitingText::Insert { file, at } => Edit::Insert { file, at, text },
            EditAwaitingText::AddMember { kind, name, at } => Edit::AddMember {
                kind,
                name,
                at,
                splice: text,
            },
            EditAwaitingText::AddDef { file, line, at } => Edit::AddDef {
                file,
                line,
                at,
                splice: text,
            },
        }
    }
}
