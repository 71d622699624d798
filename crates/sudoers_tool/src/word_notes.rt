//! Notes on the words of a policy that are found for the program which reads it.

use crate::found_words::{Finding, FoundWord};
use crate::report_notes::ReportNotes;
use crate::target_notes::Target;
use std::alloc::{AllocError, Global};
use sudoers_check::{BytePlace, WalkCursor};
use sudoers_defaults::{ParameterFault, append_refusal_words};
use sudoers_explain_edits::Nearest;
use sudoers_forms::{
    Cause, Form, SudoRsForm, words_of_cause, words_of_form, words_of_sudo_rs_form,
};
use sudoers_text::append_decimal_number;
use sudoers_tree::{Policy, Span};

/// How many unknown names are compared with the known ones.
const MOST_COMPARED: usize = 32;

/// Notes on what a target finds in a policy.
#[derive(Drop)]
struct WordNotes<'a> {
    alloc: Global,
    cursor: WalkCursor<'a>,
    target: Target,
    notes: ReportNotes,
    /// How many names were compared with the known ones.
    compared: usize,
}

/// Returns the notes on the words `words` of `policy`, which `target` finds.
pub fn make_notes_on_words(
    alloc: Global,
    policy: &Policy,
    target: Target,
    words: &[FoundWord],
) -> Result<ReportNotes, AllocError> {
    let mut notes = WordNotes {
        alloc,
        cursor: WalkCursor::new(policy),
        target,
        notes: ReportNotes::new(alloc),
        compared: 0,
    };
    for word in words {
        notes.append_word(word)?;
    }
    Ok(notes.notes)
}

/// Returns the physical line and the column of a part of a line of `policy`, with a colon between them.
pub fn text_of_place(alloc: Global, policy: &Policy, at: Span) -> Result<Vec<u8>, AllocError> {
    let mut text = Vec::new(alloc);
    if let Some(place) = WalkCursor::new(policy).find_place_of_byte(at.line, at.start) {
        append_row_and_column(alloc, &mut text, place)?;
    }
    Ok(text)
}

/// Appends the physical line and the column of `place` to `out`, with a colon between them.
fn append_row_and_column(
    alloc: Global,
    out: &mut Vec<u8>,
    place: BytePlace,
) -> Result<(), AllocError> {
    append_decimal_number(alloc, out, place.row)?;
    out.extend_from_slice(b":")?;
    append_decimal_number(alloc, out, place.column)
}

impl WordNotes<'_> {
    /// Appends the note on the word `word`.
    fn append_word(&mut self, word: &FoundWord) -> Result<(), AllocError> {
        self.append_place(word.at)?;
        match word.finding {
            Finding::Parameter { name, fault } => self.append_parameter(name, fault)?,
            Finding::Form(form) => self.append_form(form)?,
            Finding::Answer(cause) => self.append_answer(cause)?,
            Finding::SudoRsForm(form) => self.append_sudo_rs_form(form)?,
        }
        self.append(b"\n")
    }

    /// Appends what is wrong with the form `form`.
    fn append_form(&mut self, form: Form) -> Result<(), AllocError> {
        let finding: &[u8] = if form.is_read_otherwise() {
            b": read otherwise by sudo: "
        } else {
            b": refused by visudo -c: "
        };
        self.append(finding)?;
        self.append(words_of_form(form).as_bytes())?;
        self.notes.is_refused = true;
        Ok(())
    }

    /// Appends what sudo does for the cause `cause`. It refuses nothing.
    fn append_answer(&mut self, cause: Cause) -> Result<(), AllocError> {
        self.append(b": answered otherwise by sudo: ")?;
        self.append(words_of_cause(cause).as_bytes())
    }

    /// Appends what is wrong with the form `form`, which sudo-rs refuses.
    fn append_sudo_rs_form(&mut self, form: SudoRsForm) -> Result<(), AllocError> {
        self.append(b": refused by visudo-rs -c: ")?;
        self.append(words_of_sudo_rs_form(form).as_bytes())?;
        self.notes.is_refused = true;
        Ok(())
    }

    /// Appends what is wrong with the parameter named at `name`, which has the fault `fault`.
    fn append_parameter(&mut self, name: Span, fault: ParameterFault) -> Result<(), AllocError> {
        let name = bytes_of_span(self.cursor.policy, name);
        if fault == ParameterFault::NotDecided {
            self.append(b": not decided")?;
        } else {
            self.append(b": refused by ")?;
            self.append(self.target.refuser.as_bytes())?;
            self.notes.is_refused = true;
        }
        self.append(b": Defaults ")?;
        self.append(name)?;
        self.append(b": ")?;
        append_refusal_words(&mut self.notes.text, self.target.known, name, fault)?;
        if fault == ParameterFault::Unknown {
            self.append_similar_name(name)?;
        }
        Ok(())
    }

    /// Appends the known name that is most like `name`, if one is like it. Only the first names are compared.
    fn append_similar_name(&mut self, name: &[u8]) -> Result<(), AllocError> {
        if self.compared >= MOST_COMPARED {
            return Ok(());
        }
        self.compared += 1;
        let Ok(name) = str::from_utf8(name) else {
            return Ok(());
        };
        let lower = name.to_ascii_lowercase(self.alloc)?;
        let mut nearest = Nearest::new();
        for group in self.target.known {
            for known_name in group.names {
                nearest = nearest.choose_nearer(self.alloc, lower.as_str(), known_name)?;
            }
        }
        if nearest.name().is_empty() {
            return Ok(());
        }
        self.append(b"; did you mean ")?;
        self.append(nearest.name().as_bytes())?;
        self.append(b"?")
    }

    /// Appends the file, the physical line and the column of a part of a line.
    fn append_place(&mut self, at: Span) -> Result<(), AllocError> {
        let Some(place) = self.cursor.find_place_of_byte(at.line, at.start) else {
            return Ok(());
        };
        self.append(self.cursor.policy.file_name(place.file))?;
        self.append(b":")?;
        append_row_and_column(self.alloc, &mut self.notes.text, place)
    }

    /// Appends `bytes`.
    fn append(&mut self, bytes: &[u8]) -> Result<(), AllocError> {
        self.notes.text.extend_from_slice(bytes)
    }
}

/// Returns the bytes of a part of a line of `policy`.
fn bytes_of_span(policy: &Policy, span: Span) -> &[u8] {
    let lines = policy.lines();
    match lines.rows.get(span.line) {
        Some(row) => lines
            .tables
            .bytes_of_text_row(row.text)
            .get(span.start..span.stop)
            .unwrap_or(b""),
        None => b"",
    }
}
