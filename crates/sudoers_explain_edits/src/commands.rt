//! The commands of scripts, and their words.

/// A command of a script: its word, how many words follow, which of these is the first number, and its form.
#[derive(Clone, Copy)]
pub struct CommandForm {
    pub word: &'static str,
    pub count: usize,
    pub first_number: usize,
    pub form: &'static str,
}

/// The commands, and the `file` line.
pub const COMMAND_FORMS: [CommandForm; 12] = [
    CommandForm {
        word: "insert",
        count: 1,
        first_number: 1,
        form: "insert N",
    },
    CommandForm {
        word: "delete",
        count: 1,
        first_number: 1,
        form: "delete N",
    },
    CommandForm {
        word: "move",
        count: 2,
        first_number: 1,
        form: "move N M",
    },
    CommandForm {
        word: "add",
        count: 3,
        first_number: 3,
        form: "add KIND NAME N",
    },
    CommandForm {
        word: "drop",
        count: 3,
        first_number: 3,
        form: "drop KIND NAME N",
    },
    CommandForm {
        word: "adddef",
        count: 2,
        first_number: 1,
        form: "adddef N M",
    },
    CommandForm {
        word: "dropdef",
        count: 2,
        first_number: 1,
        form: "dropdef N M",
    },
    CommandForm {
        word: "rename",
        count: 3,
        first_number: 4,
        form: "rename KIND NAME FRESH",
    },
    CommandForm {
        word: "endline",
        count: 0,
        first_number: 1,
        form: "endline",
    },
    CommandForm {
        word: "openend",
        count: 0,
        first_number: 1,
        form: "openend",
    },
    CommandForm {
        word: "prune",
        count: 0,
        first_number: 1,
        form: "prune",
    },
    CommandForm {
        word: "file",
        count: 1,
        first_number: 1,
        form: "file K",
    },
];

/// The words of the kinds of aliases.
const KIND_WORDS: [&[u8]; 4] = [b"user", b"runas", b"host", b"cmnd"];

/// The commands that have no kind and that name lines.
const FILE_SCOPED_WORDS: [&[u8]; 7] = [
    b"insert", b"delete", b"move", b"adddef", b"dropdef", b"endline", b"openend",
];

/// Returns the form of the command that the word `word` begins.
pub fn form_of_command_word(word: &[u8]) -> Option<CommandForm> {
    for form in &COMMAND_FORMS {
        if form.word.as_bytes() == word {
            return Some(*form);
        }
    }
    None
}

/// Returns whether the word `word` is one of a kind of aliases.
pub fn is_kind_word(word: &[u8]) -> bool {
    KIND_WORDS.iter().any(|kind| *kind == word)
}

/// Returns whether the word `word` begins a command that names lines.
pub fn is_file_scoped_word(word: &[u8]) -> bool {
    FILE_SCOPED_WORDS.iter().any(|other| *other == word)
}

/// Returns whether the word `word` is a number of a script: decimal, from 1 to 4,294,967,296, without a leading zero.
pub fn is_script_number(word: &[u8]) -> bool {
    let mut number: u64 = 0;
    for byte in word {
        if !byte.is_ascii_digit() || (number == 0 && *byte == b'0') {
            return false;
        }
        let digit = byte.saturating_sub(b'0');
        number = number.saturating_mul(10).saturating_add(u64::from(digit));
    }
    !word.is_empty() && number <= 4_294_967_296
}

impl CommandForm {
    /// Returns whether the word after the command is a kind of aliases.
    pub fn has_kind(&self) -> bool {
        self.count == 3
    }
}
