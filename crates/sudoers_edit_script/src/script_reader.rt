//! Reading a script, the text of a list of edits.
ghost use Rattle.std.specs.Prelude.{◌≡◌, ◌+◌, ◌^◌, ◌<◌, ◌≤◌, ◌∷◌, ℕ, List, [], length, Option, IfOk, IfErr, OnOk};
ghost use Rattle.sudoers_edit_script.specs.Script.{spelling_of_edits, edit_limit};
ghost use Rattle.sudoers_edit_script.specs.ScriptReading.{edits_spelled_by_text, MatchesScriptReading, IsFaultOrNoMemory, ResultByPositionFileAndCount, Between, edit_before_result, result_within_edit_limit, result_at_command_line, result_at_file_line, result_at_first_payload_line, result_at_later_payload_line};
ghost use Rattle.sudoers_edit_script.specs.internal.ScriptStanding.{result_after_edits, result_from_reader_state, result_of_remaining_lines};

use crate::edit::{Edit, Edits, Text};
use crate::edit_awaiting_text::EditAwaitingText;
use crate::physical_lines::first_physical_line_len;
use crate::script_line::{
    CommandFlaw, ParsedScriptLine, is_file_scoped_line, parse_script_line, payload_text_of_line,
};
use std::alloc::{AllocError, AllocFailed, Global};
use std::mem::replace;
use thiserror::Error;

/// The most edits that a script has.
pub const MAX_EDITS: usize = 65_536;

/// Why a text is no script. Lines count from 1.
#[derive(Clone, Copy, Debug, PartialEq, Eq, Error)]
pub enum ScriptFault {
    /// This line is no command, no `file` line and no part of a text that may stand there. Or it is a `file` line, and no
    /// command that names lines follows.
    #[error("line {line}: BadWord")]
    BadWord { line: usize },
    /// A word in the place of a number of this line is no number from 1 to 4,294,967,296.
    #[error("line {line}: BadNumber")]
    BadNumber { line: usize },
    /// This command wants a text behind it, and none follows.
    #[error("line {line}: NoPayload")]
    NoPayload { line: usize },
    /// There are more than 65,536 edits.
    #[error("TooMany")]
    TooMany,
    /// A growth of memory was refused.
    #[error("NoMemory")]
    NoMemory,
}

impl From<AllocError> for ScriptFault {
    ghost use Rattle.std.specs.Prelude.{◌≡◌};
    ghost use Rattle.sudoers_edit_script.specs.declared.script_reader.ScriptFault.TheVariants.{NoMemory};

    ghost from_gives = { λ _ e. e ≡ NoMemory };

    fn from(_error: AllocError) -> ScriptFault {
        ScriptFault::NoMemory
    }
}

impl<T: Drop> From<AllocFailed<T>> for ScriptFault {
    ghost use Rattle.std.specs.Prelude.{◌≡◌};
    ghost use Rattle.sudoers_edit_script.specs.declared.script_reader.ScriptFault.TheVariants.{NoMemory};

    ghost from_gives = { λ _ e. e ≡ NoMemory };

    fn from(_error: AllocFailed<T>) -> ScriptFault {
        ScriptFault::NoMemory
    }
}

/// What may stand next in a script.
#[derive(Drop)]
enum ScriptReaderState {
    /// A command.
    Nothing,
    /// A command that names lines, behind the `file` line on this line: it sets this file, or its number is none.
    Filed {
        file: Option<u32>,
        line: usize,
    },
    /// The first line of the text that a command on this line wants.
    Begun {
        draft: EditAwaitingText,
        line: usize,
    },
    /// More of that text, or a command.
    Going {
        draft: EditAwaitingText,
        text: Text,
    },
}

/// What has been read of a script, the file that is set, and the number of the next line.
#[derive(Drop)]
struct ScriptReader {
    edits: Edits,
    pending: ScriptReaderState,
    file: u32,
    line: usize,
}

impl ScriptReader {
    /// Returns an error if there is no room for one more edit.
    fn check_edit_limit(&self) -> Result<(), ScriptFault>
        ensures ok { OnOk result (length self.now.edits < edit_limit) }
        ensures err { IfErr result (λ fault. (fault ≡ ScriptFault.TooMany)
            × (edit_limit ≤ length self.now.edits)) }
    {
        if self.edits.len() >= MAX_EDITS {
            return Err(ScriptFault::TooMany);
        }
        Ok(())
    }

    /// Takes an edit whose command is all of it.
    fn push_complete_edit(&mut self, edit: Edit) -> Result<(), ScriptFault>
        requires { self.old.pending ≡ ScriptReaderState.Nothing }
        ensures ok { OnOk result ((rest : ResultByPositionFileAndCount)
            → result_after_edits self.old.edits (result_within_edit_limit (length self.old.edits) (edit_before_result edit (rest Between self.old.file (length self.old.edits + 1))))
            ≡ result_from_reader_state rest self.new) }
        ensures err { IfErr result (λ fault. (rest : ResultByPositionFileAndCount)
            → IsFaultOrNoMemory fault (result_after_edits self.old.edits (result_within_edit_limit (length self.old.edits) (edit_before_result edit (rest Between self.old.file (length self.old.edits + 1)))))) }
        ensures line { self.new.line ≡ self.old.line }
    {
        self.check_edit_limit()?;
        self.edits.push(edit)?;
        Ok(())
    }

    /// Takes a `file` line.
    fn keep_file_line_pending(&mut self, file: Option<u32>) -> Result<(), ScriptFault>
        requires { self.old.pending ≡ ScriptReaderState.Nothing }
        ensures ok { OnOk result ((rest : ResultByPositionFileAndCount)
            → result_after_edits self.old.edits (result_at_file_line rest self.old.file self.old.line (length self.old.edits) file)
            ≡ result_from_reader_state rest self.new) }
        ensures err { IfErr result (λ fault. (rest : ResultByPositionFileAndCount)
            → IsFaultOrNoMemory fault (result_after_edits self.old.edits (result_at_file_line rest self.old.file self.old.line (length self.old.edits) file))) }
        ensures line { self.new.line ≡ self.old.line }
    {
        let line = self.line;
        if file == Some(self.file) {
            return Err(ScriptFault::BadWord { line });
        }
        self.pending = ScriptReaderState::Filed { file, line };
        Ok(())
    }

    /// Takes a line where a command has to come.
    fn take_parsed_command_line(&mut self, said: ParsedScriptLine) -> Result<(), ScriptFault>
        requires { self.old.pending ≡ ScriptReaderState.Nothing }
        ensures ok { OnOk result ((rest : ResultByPositionFileAndCount)
            → result_after_edits self.old.edits (result_at_command_line rest self.old.file self.old.line (length self.old.edits) said)
            ≡ result_from_reader_state rest self.new) }
        ensures err { IfErr result (λ fault. (rest : ResultByPositionFileAndCount)
            → IsFaultOrNoMemory fault (result_after_edits self.old.edits (result_at_command_line rest self.old.file self.old.line (length self.old.edits) said))) }
        ensures line { self.new.line ≡ self.old.line }
    {
        let line = self.line;
        match said {
            ParsedScriptLine::Begin(draft) => {
                self.check_edit_limit()?;
                self.pending = ScriptReaderState::Begun { draft, line };
                Ok(())
            }
            ParsedScriptLine::Whole(edit) => self.push_complete_edit(edit),
            ParsedScriptLine::Flawed(flaw) => {
                self.check_edit_limit()?;
                match flaw {
                    CommandFlaw::Word => Err(ScriptFault::BadWord { line }),
                    CommandFlaw::Number => Err(ScriptFault::BadNumber { line }),
                }
            }
            ParsedScriptLine::File(file) => self.keep_file_line_pending(file),
            ParsedScriptLine::More
            | ParsedScriptLine::Last
            | ParsedScriptLine::Unended
            | ParsedScriptLine::Other => { Err(ScriptFault::BadWord { line }) }
        }
    }

    /// Takes the line right behind a command that wants a text.
    fn take_first_payload_line(
        &mut self,
        alloc: Global,
        draft: EditAwaitingText,
        begun: usize,
        text: &[u8],
        said: ParsedScriptLine,
    ) -> Result<(), ScriptFault>
        requires { self.old.pending ≡ ScriptReaderState.Nothing }
        ensures ok { OnOk result ((rest : ResultByPositionFileAndCount)
            → result_after_edits self.old.edits (result_at_first_payload_line rest self.old.file self.old.line (length self.old.edits + 1) draft begun text.now said)
            ≡ result_from_reader_state rest self.new) }
        ensures err { IfErr result (λ fault. (rest : ResultByPositionFileAndCount)
            → IsFaultOrNoMemory fault (result_after_edits self.old.edits (result_at_first_payload_line rest self.old.file self.old.line (length self.old.edits + 1) draft begun text.now said))) }
        ensures line { self.new.line ≡ self.old.line }
    {
        match said {
            ParsedScriptLine::More => {
                let text = Text::from_slice(alloc, text)?;
                self.pending = ScriptReaderState::Going { draft, text };
            }
            ParsedScriptLine::Last => {
                let text = Text::from_slice(alloc, text)?;
                self.edits.push(draft.into_edit_with_text(text))?;
            }
            ParsedScriptLine::Unended => return Err(ScriptFault::BadWord { line: self.line }),
            _ => return Err(ScriptFault::NoPayload { line: begun }),
        }
        Ok(())
    }

    /// Takes a line behind the first part of a text.
    fn take_later_payload_line(
        &mut self,
        draft: EditAwaitingText,
        mut so_far: Text,
        text: &[u8],
        said: ParsedScriptLine,
    ) -> Result<(), ScriptFault>
        requires { self.old.pending ≡ ScriptReaderState.Nothing }
        ensures ok { OnOk result ((rest : ResultByPositionFileAndCount)
            → result_after_edits self.old.edits (result_at_later_payload_line rest self.old.file self.old.line (length self.old.edits + 1) draft so_far text.now said)
            ≡ result_from_reader_state rest self.new) }
        ensures err { IfErr result (λ fault. (rest : ResultByPositionFileAndCount)
            → IsFaultOrNoMemory fault (result_after_edits self.old.edits (result_at_later_payload_line rest self.old.file self.old.line (length self.old.edits + 1) draft so_far text.now said))) }
        ensures line { self.new.line ≡ self.old.line }
    {
        match said {
            ParsedScriptLine::More => {
                so_far.extend_from_slice(text)?;
                self.pending = ScriptReaderState::Going {
                    draft,
                    text: so_far,
                };
                Ok(())
            }
            ParsedScriptLine::Last if text.is_empty() => Err(ScriptFault::BadWord {
                line: self.line,
            }),
            ParsedScriptLine::Last => {
                so_far.extend_from_slice(text)?;
                self.edits.push(draft.into_edit_with_text(so_far))?;
                Ok(())
            }
            ParsedScriptLine::Unended => Err(ScriptFault::BadWord { line: self.line }),
            _ => {
                self.edits.push(draft.into_edit_with_text(so_far))?;
                self.take_parsed_command_line(said)
            }
        }
    }

    /// Sets the file of the `file` line before this line, if this line names lines.
    fn apply_pending_file_line(&mut self, line: &[u8]) -> Result<(), ScriptFault>
        ensures ok { OnOk result ((lines : List (List ℕ)) → result_of_remaining_lines self.old (line.now ∷ lines) ≡ result_of_remaining_lines self.new (line.now ∷ lines)) }
        ensures err { IfErr result (λ fault. (lines : List (List ℕ)) → IsFaultOrNoMemory fault (result_of_remaining_lines self.old (line.now ∷ lines))) }
        ensures line { self.new.line ≡ self.old.line }
        ensures pending { OnOk result ((file : Option ℕ) (at : ℕ) → self.new.pending ≡ ScriptReaderState.Filed file at → ⊥) }
    {
        let ScriptReaderState::Filed { file, line: at } = self.pending else {
            return Ok(());
        };
        if !is_file_scoped_line(line) {
            return Err(ScriptFault::BadWord { line: at });
        }
        self.file = file.ok_or(ScriptFault::BadNumber { line: at })?;
        self.pending = ScriptReaderState::Nothing;
        Ok(())
    }

    /// Takes the next line.
    fn take_script_line(&mut self, alloc: Global, line: &[u8]) -> Result<(), ScriptFault>
        requires { self.old.line < 2 ^ 63 }
        ensures ok { OnOk result ((lines : List (List ℕ)) → result_of_remaining_lines self.old (line.now ∷ lines)
            ≡ result_of_remaining_lines self.new lines) }
        ensures err { IfErr result (λ fault. (lines : List (List ℕ))
            → IsFaultOrNoMemory fault (result_of_remaining_lines self.old (line.now ∷ lines))) }
        ensures line { OnOk result (self.new.line ≡ self.old.line + 1) }
    {
        self.apply_pending_file_line(line)?;
        let said = parse_script_line(alloc, self.file, line)?;
        let text = payload_text_of_line(line, &said);
        match replace(&mut self.pending, ScriptReaderState::Nothing) {
            // `apply_pending_file_line` leaves no `file` line pending.
            ScriptReaderState::Nothing | ScriptReaderState::Filed { .. } =>
                self.take_parsed_command_line(said)?,
            ScriptReaderState::Begun { draft, line: begun } => {
                self.take_first_payload_line(alloc, draft, begun, text, said)?;
            }
            ScriptReaderState::Going {
                draft,
                text: so_far,
            } => self.take_later_payload_line(draft, so_far, text, said)?,
        }
        self.line += 1;
        Ok(())
    }

    /// Returns the edits, if no line is left.
    fn finish_script(self) -> Result<Edits, ScriptFault>
        ensures { MatchesScriptReading result (result_of_remaining_lines self []) }
    {
        let ScriptReader {
            mut edits,
            pending,
            ..
        } = self;
        match pending {
            ScriptReaderState::Nothing => {}
            ScriptReaderState::Filed { line, .. } => return Err(ScriptFault::BadWord { line }),
            ScriptReaderState::Begun { line, .. } => return Err(ScriptFault::NoPayload { line }),
            ScriptReaderState::Going { draft, text } => edits.push(draft.into_edit_with_text(
                text,
            ))?,
        }
        Ok(edits)
    }
}

/// Returns the edits that a text spells.
///
/// # Errors
///
/// The first cause of [`ScriptFault`], with the line where it is.
pub fn read_script(alloc: Global, text: &[u8]) -> Result<Edits, ScriptFault>
    ensures edits { IfOk result (λ edits. (text.now ≡ spelling_of_edits edits) × (length edits ≤ edit_limit)) }
    ensures reading { MatchesScriptReading result (edits_spelled_by_text text.now) }
{
    let mut reading = ScriptReader {
        edits: Edits::new(alloc),
        pending: ScriptReaderState::Nothing,
        file: 0,
        line: 1,
    };
    let mut rest = text;
    while !rest.is_empty() {
        let (line, behind) = rest.split_at(first_physical_line_len(rest));
        reading.take_script_line(alloc, line)?;
        rest = behind;
    }
    reading.finish_script()
}
