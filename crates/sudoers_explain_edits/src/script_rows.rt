//! The lines of a script, and their words.

/// A line of a script: its number, from 1, the number of the byte with which it begins, its bytes without LF, and whether LF follows.
#[derive(Clone, Copy)]
pub struct ScriptRow<'a> {
    pub number: usize,
    pub start: usize,
    pub text: &'a [u8],
    pub is_ended: bool,
}

/// A word of a line: the number of the byte of the line with which it begins, and its bytes.
#[derive(Clone, Copy)]
pub struct RowWord<'a> {
    pub at: usize,
    pub text: &'a [u8],
}

/// Returns the line with the number `number`, from 1, of the script `script`. Returns an empty line at the end if there is no such line.
pub fn find_row(script: &[u8], number: usize) -> ScriptRow<'_> {
    let mut start: usize = 0;
    for (before, text) in script.split(|byte| *byte == b'\n').enumerate() {
        if before.saturating_add(1) == number {
            return ScriptRow::from_split_text(script, number, start, text);
        }
        start = start.saturating_add(text.len()).saturating_add(1);
    }
    ScriptRow {
        number,
        start: script.len(),
        text: b"",
        is_ended: false,
    }
}

/// Returns the line of the command with the number `place`, from 0, of the script `script`, each line of which may stand where it stands.
pub fn row_of_command(script: &[u8], place: usize) -> ScriptRow<'_> {
    let mut start: usize = 0;
    let mut commands: usize = 0;
    for (before, text) in script.split(|byte| *byte == b'\n').enumerate() {
        if is_command_text(text) {
            if commands == place {
                return ScriptRow::from_split_text(script, before.saturating_add(1), start, text);
            }
            commands = commands.saturating_add(1);
        }
        start = start.saturating_add(text.len()).saturating_add(1);
    }
    find_row(script, 1)
}

/// Returns the last `file` line of the script `script` before the line with the number `number`.
pub fn last_file_row_before(script: &[u8], number: usize) -> Option<ScriptRow<'_>> {
    let mut start: usize = 0;
    let mut last = None;
    for (before, text) in script.split(|byte| *byte == b'\n').enumerate() {
        let here = before.saturating_add(1);
        if here < number && text.starts_with(b"file ") {
            last = Some(ScriptRow::from_split_text(script, here, start, text));
        }
        start = start.saturating_add(text.len()).saturating_add(1);
    }
    last
}

/// Returns whether the line `text` of a script is part of a text of an edit.
pub fn is_payload_text(text: &[u8]) -> bool {
    text.starts_with(b"|") || text.starts_with(b">")
}

/// Returns whether the line `text` of a script is a command.
fn is_command_text(text: &[u8]) -> bool {
    !text.is_empty() && !is_payload_text(text) && !text.starts_with(b"file ")
}

impl<'a> ScriptRow<'a> {
    /// Returns the line `text` of the script `script`, which begins at the byte `start` and has the number `number`.
    fn from_split_text(
        script: &'a [u8],
        number: usize,
        start: usize,
        text: &'a [u8],
    ) -> ScriptRow<'a> {
        ScriptRow {
            number,
            start,
            text,
            is_ended: start.saturating_add(text.len()) < script.len(),
        }
    }

    /// Returns the number of the byte of the script behind the last byte of the line.
    pub fn stop(&self) -> usize {
        self.start.saturating_add(self.text.len())
    }

    /// Returns the word with the number `number`, from 0; words stand between single blanks.
    pub fn find_word(&self, number: usize) -> Option<RowWord<'a>> {
        let mut at: usize = 0;
        for (before, text) in self.text.split(|byte| *byte == b' ').enumerate() {
            if before == number {
                return Some(RowWord { at, text });
            }
            at = at.saturating_add(text.len()).saturating_add(1);
        }
        None
    }

    /// Returns the bytes of the word with the number `number`, from 0; no bytes if there is none.
    pub fn text_of_word(&self, number: usize) -> &'a [u8] {
        match self.find_word(number) {
            Some(word) => word.text,
            None => b"",
        }
    }

    /// Returns the number of the byte of the line with which the word with the number `number`, from 0, begins. Without such a word it is the
    /// end of the line.
    pub fn offset_of_word(&self, number: usize) -> usize {
        match self.find_word(number) {
            Some(word) => word.at,
            None => self.text.len(),
        }
    }

    /// Returns how many words the line has.
    pub fn word_count(&self) -> usize {
        self.text.split(|byte| *byte == b' ').count()
    }
}
