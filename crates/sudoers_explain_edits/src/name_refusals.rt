//! The lines that explain the refusal of an edit that names an alias or a place in a list.

use crate::edit_hints::{EditHint, append_advice, append_advice_with_word};
use crate::lists::{append_name, append_names};
use crate::nearest::Nearest;
use crate::refusals::{Refusal, number_of_edited_file};
use crate::spliced_lines::{find_item_list, list_definition_extents};
use std::alloc::{AllocError, Global};
use sudoers_edit_script::Edit;
use sudoers_explain::PlaceInFile;
use sudoers_grammar::{Kind, alias_keyword_of_kind};
use sudoers_text::{append_decimal_number, is_reserved};
use sudoers_tree::{LineKind, Node, Policy, is_same_kind};

/// The kinds of aliases, and their words in a script.
const KINDS: [(Kind, &[u8]); 4] = [
    (Kind::User, b"user"),
    (Kind::Runas, b"runas"),
    (Kind::Host, b"host"),
    (Kind::Cmnd, b"cmnd"),
];

/// Returns the words for a line of the kind `kind`.
fn words_of_line_kind(kind: Option<LineKind>) -> &'static [u8] {
    match kind {
        Some(LineKind::Blank) => b"a blank line",
        Some(LineKind::Comment) => b"a comment",
        Some(LineKind::Include) => b"an include line",
        Some(LineKind::Defaults) => b"a Defaults line",
        Some(LineKind::Spec) => b"a rule",
        _ => b"",
    }
}

/// Returns the names of the aliases of the kind `kind` that the lines of the walk of `policy` define, in their order.
fn list_names<'a>(
    alloc: Global,
    policy: &'a Policy,
    kind: Kind,
) -> Result<Vec<&'a [u8]>, AllocError> {
    let mut names = Vec::new(alloc);
    for spot in policy.spots_of_walk_lines() {
        append_names_of_line(policy, spot.file, spot.line, kind, &mut names)?;
    }
    Ok(names)
}

/// Adds to `names` those of the aliases of the kind `kind` that the line `line` of the file `file` defines.
fn append_names_of_line<'a>(
    policy: &'a Policy,
    file: usize,
    line: usize,
    kind: Kind,
    names: &mut Vec<&'a [u8]>,
) -> Result<(), AllocError> {
    if let Some(
        Node::Alias {
            kind: defined,
            defs,
        },
    ) = policy.node(file, line)
        && is_same_kind(defined, kind)
    {
        for row in defs.rows {
            names.push(defs.tables.alias_definition_of_row(row).name)?;
        }
    }
    Ok(())
}

/// Returns the name of an alias of the kind `kind` that is nearest to `wanted`, of those that the lines of the walk of `policy` define; no
/// bytes if none is near.
///
/// # Errors
///
/// Memory ran out.
pub fn find_similar_alias_name<'a>(
    policy: &'a Policy,
    kind: Kind,
    wanted: &[u8],
) -> Result<&'a str, AllocError> {
    let alloc = policy.allocator();
    let names = list_names(alloc, policy, kind)?;
    find_nearest_name(alloc, wanted, names.as_slice())
}

/// Returns the name of `names` that is nearest to `wanted`; no bytes if none is near.
fn find_nearest_name<'a>(
    alloc: Global,
    wanted: &[u8],
    names: &[&'a [u8]],
) -> Result<&'a str, AllocError> {
    let mut nearest = Nearest::new();
    let Ok(wanted) = str::from_utf8(wanted) else {
        return Ok("");
    };
    for name in names {
        if let Ok(name) = str::from_utf8(*name) {
            nearest = nearest.choose_nearer(alloc, wanted, name)?;
        }
    }
    Ok(nearest.name())
}

impl Refusal<'_> {
    /// Appends the lines for an alias that is not defined, or for a line that defines none.
    ///
    /// # Errors
    ///
    /// Memory ran out.
    pub fn append_missing_alias(&self, out: &mut Vec<u8>) -> Result<(), AllocError> {
        match self.edit {
            Edit::AddMember { kind, name, .. }
            | Edit::DropMember { kind, name, .. }
            | Edit::Rename { kind, name, .. } => {
                self.append_missing_name(out, *kind, name.as_slice())
            }
            Edit::AddDef { file, line, .. } | Edit::DropDef { file, line, .. } => {
                self.append_other_line(out, *file as usize, *line as usize)
            }
            _ => Ok(()),
        }
    }

    /// Appends the lines for the name `name` of the kind `kind`, which no line of the walk defines: the nearest name, or the first ones.
    fn append_missing_name(
        &self,
        out: &mut Vec<u8>,
        kind: Kind,
        name: &[u8],
    ) -> Result<(), AllocError> {
        let names = list_names(self.alloc, self.policy, kind)?;
        let nearest = find_nearest_name(self.alloc, name, names.as_slice())?;
        let other = self.find_other_kind(kind, name);
        let mut label = Vec::from_slice(self.alloc, b"no ")?;
        label.extend_from_slice(alias_keyword_of_kind(kind))?;
        label.push(b' ')?;
        append_name(self.alloc, &mut label, name)?;
        if !nearest.is_empty() {
            label.extend_from_slice(b"; ")?;
            label.extend_from_slice(nearest.as_bytes())?;
            label.push(b'?')?;
        } else if other.is_none() && !names.is_empty() {
            label.extend_from_slice(b"; there are: ")?;
            append_names(self.alloc, &mut label, names.as_slice())?;
        }
        self.append_command(out, 2, label.as_slice())?;
        if let Some(word) = other {
            return append_advice_with_word(self.alloc, out, EditHint::OtherKind, word);
        }
        self.append_definition_off_walk(out, kind, name)
    }

    /// Returns the word of another kind than `kind` in which the name `name` is defined.
    fn find_other_kind(&self, kind: Kind, name: &[u8]) -> Option<&'static [u8]> {
        for (other, word) in &KINDS {
            if !is_same_kind(*other, kind) && self.policy.definition(*other, name).is_some() {
                return Some(*word);
            }
        }
        None
    }

    /// Appends the place in a file off the walk where the alias `name` of the kind `kind` is defined, or else the advice to look for names.
    fn append_definition_off_walk(
        &self,
        out: &mut Vec<u8>,
        kind: Kind,
        name: &[u8],
    ) -> Result<(), AllocError> {
        let files = self.policy.copy_named_files()?;
        for (number, file) in files.iter().enumerate() {
            if self.policy.numbers_of_files_on_walk().contains(&number) {
                continue;
            }
            if let Some(at) = self.find_definition_in_file(number, kind, name) {
                PlaceInFile { file, at }.append_excerpt(
                    self.alloc,
                    out,
                    b"no line includes this file",
                )?;
                return append_advice(out, EditHint::IncludeFile);
            }
        }
        append_advice(out, EditHint::ShowNames)
    }

    /// Returns the number of the byte of the file `file` with which the definition of the alias `name` of the kind `kind` begins.
    fn find_definition_in_file(&self, file: usize, kind: Kind, name: &[u8]) -> Option<usize> {
        for line in 0..self.policy.len(file) {
            if let Some(offset) = find_definition_in_line(self.policy, file, line, kind, name) {
                return Some(self.offset_of_line(file, line).saturating_add(offset));
            }
        }
        None
    }

    /// Appends the lines for the line `line` of the file `file`, both from 0, which defines no alias.
    fn append_other_line(
        &self,
        out: &mut Vec<u8>,
        file: usize,
        line: usize,
    ) -> Result<(), AllocError> {
        self.append_command(out, 1, b"no alias line")?;
        let files = self.policy.copy_named_files()?;
        if let Some(named) = files.get(file) {
            let words = words_of_line_kind(self.policy.line_kind(file, line));
            PlaceInFile {
                file: named,
                at: self.offset_of_line(file, line),
            }
            .append_excerpt(self.alloc, out, words)?;
        }
        append_advice(out, EditHint::AliasLine)
    }

    /// Appends the lines for a place that a list does not have: its members or definitions.
    ///
    /// # Errors
    ///
    /// Memory ran out.
    pub fn append_missing_place(&self, out: &mut Vec<u8>) -> Result<(), AllocError> {
        let Some(list) = find_item_list(self.alloc, self.policy, self.edit)? else {
            return Ok(());
        };
        let label = list.make_label(self.alloc)?;
        self.append_command(
            out,
            self.row.word_count().saturating_sub(1),
            label.as_slice(),
        )?;
        let count = match number_of_edited_file(self.edit) {
            Some(file) => self.policy.len(file),
            None => list.len(),
        };
        match self.edit {
            Edit::AddMember { .. } | Edit::AddDef { .. } => {
                self.append_range(out, count, list.len().saturating_add(1))
            }
            _ => self.append_range(out, count, list.len()),
        }
    }

    /// Appends the lines for the only one of a list, which cannot be dropped.
    ///
    /// # Errors
    ///
    /// Memory ran out.
    pub fn append_only_item(&self, out: &mut Vec<u8>) -> Result<(), AllocError> {
        let Some(list) = find_item_list(self.alloc, self.policy, self.edit)? else {
            return Ok(());
        };
        let mut label = list.make_label(self.alloc)?;
        label.extend_from_slice(b" (line ")?;
        append_decimal_number(self.alloc, &mut label, list.line.saturating_add(1))?;
        label.extend_from_slice(b" of ")?;
        append_name(self.alloc, &mut label, self.policy.file_name(list.file))?;
        label.push(b')')?;
        self.append_command(
            out,
            self.row.word_count().saturating_sub(1),
            label.as_slice(),
        )?;
        if list.are_definitions || self.definition_count(list.file, list.line)? == 1 {
            return append_advice(out, EditHint::DeleteLine);
        }
        append_advice(out, EditHint::DropDefinition)
    }

    /// Returns how many definitions the line `line` of the file `file` has, both from 0.
    ///
    /// # Errors
    ///
    /// Memory ran out.
    pub fn definition_count(&self, file: usize, line: usize) -> Result<usize, AllocError> {
        match self.policy.node(file, line) {
            Some(Node::Alias { defs, .. }) => {
                Ok(list_definition_extents(self.alloc, &defs)?.len())
            }
            _ => Ok(0),
        }
    }

    /// Appends the lines for a name that no alias may have.
    ///
    /// # Errors
    ///
    /// Memory ran out.
    pub fn append_bad_name(&self, out: &mut Vec<u8>) -> Result<(), AllocError> {
        let Edit::Rename { fresh, .. } = self.edit else {
            return Ok(());
        };
        self.append_command(out, 3, b"")?;
        let fresh = fresh.as_slice();
        if fresh.ends_with(b"\r") {
            append_advice(out, EditHint::CarriageReturnAtEnd)
        } else if is_reserved(fresh) {
            append_advice(out, EditHint::ReservedName)
        } else {
            append_advice(out, EditHint::FreshName)
        }
    }

    /// Appends the lines for a name that is defined or mentioned: the place of the definition, or of the first mention.
    ///
    /// # Errors
    ///
    /// Memory ran out.
    pub fn append_taken_name(&self, out: &mut Vec<u8>) -> Result<(), AllocError> {
        let Edit::Rename { kind, fresh, .. } = self.edit else {
            return Ok(());
        };
        self.append_command(out, 3, b"")?;
        let files = self.policy.copy_named_files()?;
        let (file, at, label) = self.find_name(*kind, fresh.as_slice())?;
        if let Some(named) = files.get(file) {
            PlaceInFile { file: named, at }.append_excerpt(self.alloc, out, label)?;
        }
        append_advice(out, EditHint::OtherName)
    }

    /// Returns where the name `name` of the kind `kind` is defined, or else mentioned: the number of the file, that of the byte there, and what
    /// is there.
    fn find_name(
        &self,
        kind: Kind,
        name: &[u8],
    ) -> Result<(usize, usize, &'static [u8]), AllocError> {
        if let Some(place) = self.policy.definition(kind, name) {
            let offset = find_definition_in_line(self.policy, place.file, place.line, kind, name);
            let start = self.offset_of_line(place.file, place.line);
            return Ok((
                place.file,
                start.saturating_add(offset.unwrap_or(0)),
                b"defined here",
            ));
        }
        let spans = self.policy.mentions(kind, name)?;
        match spans.first() {
            Some(span) => Ok((
                span.file,
                self.offset_of_line(span.file, span.line)
                    .saturating_add(span.start),
                b"used here",
            )),
            None => Ok((self.policy.files(), 0, b"")),
        }
    }
}

/// Returns the number of the byte of the line `line` of the file `file` with which the definition of the alias `name` of the kind `kind` begins.
fn find_definition_in_line(
    policy: &Policy,
    file: usize,
    line: usize,
    kind: Kind,
    name: &[u8],
) -> Option<usize> {
    if let Some(
        Node::Alias {
            kind: defined,
            defs,
        },
    ) = policy.node(file, line)
        && is_same_kind(defined, kind)
    {
        for row in defs.rows {
            let def = defs.tables.alias_definition_of_row(row);
            if def.name == name {
                return Some(def.start);
            }
        }
    }
    None
}
