//! The lines that explain why a member or a definition cannot be added or dropped.

use crate::edit_hints::{EditHint, append_advice};
use crate::edited_files::{make_edited_file, make_edited_files, make_spliced_line};
use crate::refusals::Refusal;
use crate::splice_mistakes::Splice;
use crate::spliced_lines::{ItemList, find_item_list};
use std::alloc::{AllocError, Global};
use sudoers_edit_script::Edit;
use sudoers_explain::{PlaceInFile, explain_load_fault};
use sudoers_grammar::{Items, LineFault, Why};
use sudoers_line_reader::parse;
use sudoers_line_rows::Node;
use sudoers_tree::{
    AliasDefinitionRow, LoadFault, NamedFile, ReadFault, RowsOfTable, column_behind, lf_count,
};

/// What a line says that an edit would leave: that it does not parse, at a byte and for a cause, or how many items the changed list and how
/// many definitions the line has.
#[derive(Clone, Copy)]
enum Reading {
    Fault { at: usize, why: Why },
    Lists { items: usize, definitions: usize },
}

/// Returns what the line `text` says. Its list is that of its definitions, or the members of the definition that begins at the byte `start`.
fn read_changed_line(
    alloc: Global,
    text: &[u8],
    list: &ItemList<'_>,
) -> Result<Reading, AllocError> {
    let parsed = match parse(alloc, text) {
        Ok(parsed) => parsed,
        Err(LineFault::NoMemory) => return Err(AllocError),
        Err(LineFault::Syntax { at, why }) => return Ok(Reading::Fault { at, why }),
    };
    let Node::Alias { defs, .. } = parsed.node() else {
        return Ok(Reading::Lists {
            items: 0,
            definitions: 0,
        });
    };
    let definitions = defs.rows.len();
    let items = if list.are_definitions {
        definitions
    } else {
        count_members_around(&defs, list.owned_start_of_item(0))
    };
    Ok(Reading::Lists { items, definitions })
}

/// Returns how many members the definition of `defs` has in which the byte `at` stands.
fn count_members_around(defs: &RowsOfTable<'_, AliasDefinitionRow>, at: usize) -> usize {
    for row in defs.rows {
        let def = defs.tables.alias_definition_of_row(row);
        if def.start <= at && at < def.stop {
            return def.members.rows.len();
        }
    }
    0
}

impl Refusal<'_> {
    /// Appends the lines for a member or a definition that cannot be added or dropped.
    ///
    /// # Errors
    ///
    /// Memory ran out.
    pub fn append_bad_splice(&self, out: &mut Vec<u8>) -> Result<(), AllocError> {
        let Some(list) = find_item_list(self.alloc, self.policy, self.edit)? else {
            self.append_command(out, 0, b"")?;
            return append_advice(out, EditHint::PruneByHand);
        };
        match self.edit {
            Edit::AddMember { at, splice, .. } | Edit::AddDef { at, splice, .. } => {
                let splice = Splice {
                    text: splice.as_slice(),
                    is_first: *at == 0,
                    is_definition: list.are_definitions,
                };
                self.append_bad_addition(out, &list, &splice)
            }
            _ => {
                self.append_command(out, 0, b"after this edit:")?;
                self.append_changed_line(out, &list)
            }
        }
    }

    /// Appends the lines for the text `splice`, which cannot be added to `list`.
    fn append_bad_addition(
        &self,
        out: &mut Vec<u8>,
        list: &ItemList<'_>,
        splice: &Splice<'_>,
    ) -> Result<(), AllocError> {
        if let Some((at, hint)) = splice.find_mistake() {
            self.append_text_place(out, splice.text, at, b"")?;
            return append_advice(out, hint);
        }
        if let Some(text) = make_spliced_line(self.alloc, self.policy, self.edit)?
            && let Reading::Lists { items, definitions } = read_changed_line(
                self.alloc,
                text.as_slice(),
                list,
            )?
        {
            if items > list.len().saturating_add(1) {
                self.append_text_place(out, splice.text, splice.offset_of_second(), b"")?;
                return append_advice(out, splice.hint_of_several());
            }
            if !splice.is_definition && definitions > self.definition_count(list.file, list.line)? {
                self.append_text_place(out, splice.text, splice.offset_of_colon(), b"")?;
                return append_advice(out, EditHint::AddDefinition);
            }
        }
        self.append_text_place(out, splice.text, 0, b"after this edit:")?;
        self.append_changed_line(out, list)
    }

    /// Appends the line of `list` as it would stand: with its error if it does not parse, else with the mark where the edit changes it.
    fn append_changed_line(
        &self,
        out: &mut Vec<u8>,
        list: &ItemList<'_>,
    ) -> Result<(), AllocError> {
        let Some(text) = make_spliced_line(self.alloc, self.policy, self.edit)? else {
            return Ok(());
        };
        let edited = make_edited_file(self.alloc, self.policy, self.edit)?;
        let files = make_edited_files(self.policy, edited)?;
        let Some(file) = files.get(list.file) else {
            return Ok(());
        };
        let start = self.offset_of_line(list.file, list.line);
        match read_changed_line(self.alloc, text.as_slice(), list)? {
            Reading::Fault { at, why } => {
                let at = start.saturating_add(at);
                self.append_fault_of_line(out, files.as_slice(), PlaceInFile { file, at }, why)
            }
            Reading::Lists { .. } => {
                let at = start.saturating_add(list.owned_start_of_item(self.place_in_list()));
                PlaceInFile { file, at }.append_excerpt(self.alloc, out, b"")?;
                append_advice(out, self.hint_of_other_reading())
            }
        }
    }

    /// Appends the line that would not parse, at `place`, which is in one of `files`, and for the cause `why`: of an
    /// addition with what may stand there.
    fn append_fault_of_line(
        &self,
        out: &mut Vec<u8>,
        files: &[NamedFile],
        place: PlaceInFile<'_>,
        why: Why,
    ) -> Result<(), AllocError> {
        if !self.is_addition() {
            place.append_excerpt(self.alloc, out, b"")?;
            return append_advice(out, EditHint::OtherReading);
        }
        let PlaceInFile { file, at } = place;
        let fault = make_syntax_fault(self.alloc, file, at, why)?;
        let lines = explain_load_fault(self.alloc, files, &fault)?;
        out.extend_from_slice(lines.as_slice())
    }

    /// Returns whether the edit adds a member or a definition.
    fn is_addition(&self) -> bool {
        matches!(self.edit, Edit::AddMember { .. } | Edit::AddDef { .. })
    }

    /// Returns the hint for a line that would say something else.
    fn hint_of_other_reading(&self) -> EditHint {
        if self.is_addition() {
            EditHint::OtherText
        } else {
            EditHint::OtherReading
        }
    }

    /// Returns the place in its list that the edit names, from 0.
    fn place_in_list(&self) -> usize {
        match self.edit {
            Edit::AddMember { at, .. }
            | Edit::AddDef { at, .. }
            | Edit::DropMember { at, .. }
            | Edit::DropDef { at, .. } => *at as usize,
            _ => 0,
        }
    }
}

/// Returns the fault of the file `file` at its byte `at`, where a line does not parse for the cause `why`.
fn make_syntax_fault(
    alloc: Global,
    file: &NamedFile,
    at: usize,
    why: Why,
) -> Result<LoadFault, AllocError> {
    let bytes = file.bytes.as_slice();
    let (before, _) = bytes.split_at(at.min(bytes.len()));
    Ok(LoadFault::InFile {
        file: Items::from_slice(alloc, file.name.as_slice())?,
        fault: ReadFault::Syntax {
            line: lf_count(before).saturating_add(1),
            col: column_behind(before),
            why,
        },
    })
}
