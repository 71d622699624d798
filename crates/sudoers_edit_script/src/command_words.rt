//! The words that begin commands.
ghost use Rattle.std.specs.Prelude.{◌≡◌};
ghost use Rattle.sudoers_grammar.specs.Piece.{value_of_matching_row};
ghost use Rattle.sudoers_edit_script.specs.ScriptReading.{commands_by_word, is_file_scoped_command as names_lines};

/// The first word of a command.
#[derive(Clone, Copy)]
pub enum EditCommand {
    Insert,
    Delete,
    Move,
    AddMember,
    DropMember,
    AddDef,
    DropDef,
    Rename,
    EndLine,
    OpenEnd,
    Prune,
}

impl EditCommand {
    /// Returns whether the edits of this command name lines.
    pub fn is_file_scoped(self) -> bool
        ensures { result ≡ names_lines self }
    {
        !matches!(
            self,
            EditCommand::AddMember
                | EditCommand::DropMember
                | EditCommand::Rename
                | EditCommand::Prune
        )
    }
}

/// Returns the command that a word begins.
pub fn command_of_word(word: &[u8]) -> Option<EditCommand>
    ensures { result ≡ value_of_matching_row commands_by_word word.now }
{
    if word == b"insert".as_slice() {
        Some(EditCommand::Insert)
    } else if word == b"delete".as_slice() {
        Some(EditCommand::Delete)
    } else if word == b"move".as_slice() {
        Some(EditCommand::Move)
    } else if word == b"add".as_slice() {
        Some(EditCommand::AddMember)
    } else if word == b"drop".as_slice() {
        Some(EditCommand::DropMember)
    } else if word == b"adddef".as_slice() {
        Some(EditCommand::AddDef)
    } else if word == b"dropdef".as_slice() {
        Some(EditCommand::DropDef)
    } else if word == b"rename".as_slice() {
        Some(EditCommand::Rename)
    } else if word == b"endline".as_slice() {
        Some(EditCommand::EndLine)
    } else if word == b"openend".as_slice() {
        Some(EditCommand::OpenEnd)
    } else if word == b"prune".as_slice() {
        Some(EditCommand::Prune)
    } else {
        None
    }
}
