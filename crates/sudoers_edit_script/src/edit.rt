//! The edits of a policy.
ghost use Rattle.std.specs.Prelude.{◌≡◌, IfOk};

use std::alloc::{AllocError, Global};
use sudoers_grammar::{Items, Kind};

/// An edit of a policy. Files, lines, and places of members and definitions count from 0. `file` is the file whose lines
/// an edit names.
#[derive(Debug, Drop)]
pub enum Edit {
    /// Puts a text of one logical line before the line `at`, or behind the last line.
    Insert {
        file: u32,
        at: u32,
        text: Text,
    },
    /// Takes the line `at` out.
    Delete {
        file: u32,
        at: u32,
    },
    /// Takes the line `from` out and puts it where it stands at `to`.
    Move {
        file: u32,
        from: u32,
        to: u32,
    },
    /// Puts a member into the list of an alias, at the place `at`; the splice is put in behind the member before it, or in front
    /// of the first.
    AddMember {
        kind: Kind,
        name: Text,
        at: u32,
        splice: Text,
    },
    /// Takes the member at the place `at` out of the list of an alias, with the bytes from the end of the member before it; the
    /// first with those up to the start of the next.
    DropMember {
        kind: Kind,
        name: Text,
        at: u32,
    },
    /// Puts a definition into a line of definitions, at the place `at`; the splice is put in behind the definition before it, or in
    /// front of the first.
    AddDef {
        file: u32,
        line: u32,
        at: u32,
        splice: Text,
    },
    /// Takes the definition at the place `at` out of a line of definitions, with the bytes from the end of the definition before
    /// it; the first with those up to the start of the next.
    DropDef {
        file: u32,
        line: u32,
        at: u32,
    },
    /// Gives an alias another name, where it is defined and where it is mentioned.
    Rename {
        kind: Kind,
        name: Text,
        fresh: Text,
    },
    /// Puts LF behind the last line, which does not end in it.
    EndLine {
        file: u32,
    },
    /// Takes the LF at the end of the last line away.
    OpenEnd {
        file: u32,
    },
    /// Takes out all definitions of aliases that are unused; a line of which none is left goes whole.
    Prune,
}

/// Owned bytes.
pub type Text = Items<u8>;

/// Edits, in their order.
pub type Edits = Items<Edit>;

impl Edit {
    /// Returns a copy of the edit.
    ///
    /// # Errors
    ///
    /// Want of memory alone.
    pub fn copy_edit(&self, alloc: Global) -> Result<Edit, AllocError>
        ensures { IfOk result (λ edit. edit ≡ self.now) }
    {
        match self {
            Edit::Insert { file, at, text } => Ok(Edit::Insert {
                file: *file,
                at: *at,
                text: Text::from_slice(alloc, text.as_slice())?,
            }),
            Edit::Delete { file, at } => Ok(Edit::Delete {
                file: *file,
                at: *at,
            }),
            Edit::Move { file, from, to } => Ok(Edit::Move {
                file: *file,
                from: *from,
                to: *to,
            }),
            Edit::AddMember {
                kind,
                name,
                at,
                splice,
            } => Ok(Edit::AddMember {
                kind: *kind,
                name: Text::from_slice(alloc, name.as_slice())?,
                at: *at,
                splice: Text::from_slice(alloc, splice.as_slice())?,
            }),
            Edit::DropMember { kind, name, at } => Ok(Edit::DropMember {
                kind: *kind,
                name: Text::from_slice(alloc, name.as_slice())?,
                at: *at,
            }),
            Edit::AddDef {
                file,
                line,
                at,
                splice,
            } => Ok(Edit::AddDef {
                file: *file,
                line: *line,
                at: *at,
                splice: Text::from_slice(alloc, splice.as_slice())?,
            }),
            Edit::DropDef { file, line, at } => Ok(Edit::DropDef {
                file: *file,
                line: *line,
                at: *at,
            }),
            Edit::Rename { kind, name, fresh } => Ok(Edit::Rename {
                kind: *kind,
                name: Text::from_slice(alloc, name.as_slice())?,
                fresh: Text::from_slice(alloc, fresh.as_slice())?,
            }),
            Edit::EndLine { file } => Ok(Edit::EndLine { file: *file }),
            Edit::OpenEnd { file } => Ok(Edit::OpenEnd { file: *file }),
            Edit::Prune => Ok(Edit::Prune),
        }
    }
}
