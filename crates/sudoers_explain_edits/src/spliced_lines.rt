//! The members of an alias and the definitions of a line, with their places.

use crate::lists::{append_count, append_names};
use std::alloc::{AllocError, Global};
use sudoers_edit_script::Edit;
use sudoers_tree::{AliasDefinitionRow, Def, Kind, Node, Policy, RowsOfTable};

/// Where a member or a definition stands in its line, from `start` up to `stop`. It is told by its bytes up to `told`.
#[derive(Clone, Copy)]
pub struct ItemExtent {
    pub start: usize,
    pub stop: usize,
    told: usize,
}

/// The members of an alias, or the definitions of a line: the numbers of their file and line, from 0, the bytes of the line, and where
/// each stands.
#[derive(Drop)]
pub struct ItemList<'a> {
    pub file: usize,
    pub line: usize,
    pub text: &'a [u8],
    pub extents: Vec<ItemExtent>,
    pub are_definitions: bool,
}

/// Returns the list that the edit `edit` of the policy `policy` is to change.
///
/// # Errors
///
/// Memory ran out.
pub fn find_item_list<'a>(
    alloc: Global,
    policy: &'a Policy,
    edit: &Edit,
) -> Result<Option<ItemList<'a>>, AllocError> {
    match edit {
        Edit::AddMember { kind, name, .. } | Edit::DropMember { kind, name, .. } => {
            find_members(alloc, policy, *kind, name.as_slice())
        }
        Edit::AddDef { file, line, .. } | Edit::DropDef { file, line, .. } => {
            find_definitions(alloc, policy, *file as usize, *line as usize)
        }
        _ => Ok(None),
    }
}

/// Returns the members of the alias `name` of the kind `kind`.
fn find_members<'a>(
    alloc: Global,
    policy: &'a Policy,
    kind: Kind,
    name: &[u8],
) -> Result<Option<ItemList<'a>>, AllocError> {
    let Some(place) = policy.definition(kind, name) else {
        return Ok(None);
    };
    let Some(line) = policy.parsed_line(place.file, place.line) else {
        return Ok(None);
    };
    let Node::Alias { defs, .. } = line.node else {
        return Ok(None);
    };
    let Some(row) = defs.rows.get(place.def) else {
        return Ok(None);
    };
    let extents = list_member_extents(alloc, &defs.tables.alias_definition_of_row(row))?;
    Ok(Some(ItemList {
        file: place.file,
        line: place.line,
        text: line.text,
        extents,
        are_definitions: false,
    }))
}

/// Returns where the members of the definition `def` stand.
fn list_member_extents(alloc: Global, def: &Def<'_>) -> Result<Vec<ItemExtent>, AllocError> {
    let mut extents = Vec::new(alloc);
    for row in def.members.rows {
        let member = def.members.tables.member_of_row(row);
        extents.push(ItemExtent {
            start: member.start,
            stop: member.stop,
            told: member.stop,
        })?;
    }
    Ok(extents)
}

/// Returns the definitions of the line `line` of the file `file`.
fn find_definitions<'a>(
    alloc: Global,
    policy: &'a Policy,
    file: usize,
    line: usize,
) -> Result<Option<ItemList<'a>>, AllocError> {
    let Some(found) = policy.parsed_line(file, line) else {
        return Ok(None);
    };
    let Node::Alias { defs, .. } = found.node else {
        return Ok(None);
    };
    Ok(Some(ItemList {
        file,
        line,
        text: found.text,
        extents: list_definition_extents(alloc, &defs)?,
        are_definitions: true,
    }))
}

/// Returns where the definitions `defs` stand.
///
/// # Errors
///
/// Memory ran out.
pub fn list_definition_extents(
    alloc: Global,
    defs: &RowsOfTable<'_, AliasDefinitionRow>,
) -> Result<Vec<ItemExtent>, AllocError> {
    let mut extents = Vec::new(alloc);
    for row in defs.rows {
        let def = defs.tables.alias_definition_of_row(row);
        extents.push(ItemExtent {
            start: def.start,
            stop: def.stop,
            told: def.start.saturating_add(def.name.len()),
        })?;
    }
    Ok(extents)
}

impl<'a> ItemList<'a> {
    /// Returns how many there are.
    pub fn len(&self) -> usize {
        self.extents.len()
    }

    /// Returns the bytes by which the one at `extent` is told.
    fn told_bytes_of_item(&self, extent: &ItemExtent) -> &'a [u8] {
        let (front, _) = self.text.split_at(extent.told.min(self.text.len()));
        let (_, bytes) = front.split_at(extent.start.min(front.len()));
        bytes
    }

    /// Returns how many there are, and the first: `3 members: ann, bob, eve`.
    ///
    /// # Errors
    ///
    /// Memory ran out.
    pub fn make_label(&self, alloc: Global) -> Result<Vec<u8>, AllocError> {
        let word: &[u8] = if self.are_definitions {
            b"definition"
        } else {
            b"member"
        };
        let mut label = Vec::new(alloc);
        append_count(alloc, &mut label, self.len(), word)?;
        label.extend_from_slice(b": ")?;
        let mut names = Vec::new(alloc);
        for extent in &self.extents {
            names.push(self.told_bytes_of_item(extent))?;
        }
        append_names(alloc, &mut label, names.as_slice())?;
        Ok(label)
    }

    /// Returns the number of the byte of the line from which the one at the place `at` owns bytes.
    pub fn owned_start_of_item(&self, at: usize) -> usize {
        match at.checked_sub(1) {
            None => match self.extents.first() {
                Some(first) => first.start,
                None => 0,
            },
            Some(before) => match self.extents.get(before) {
                Some(extent) => extent.stop,
                None => self.text.len(),
            },
        }
    }

    /// Returns the number of the byte of the line up to which the one at the place `at` owns bytes.
    pub fn owned_stop_of_item(&self, at: usize) -> usize {
        if at == 0 {
            return match self.extents.get(1) {
                Some(second) => second.start,
                None => self.text.len(),
            };
        }
        match self.extents.get(at) {
            Some(extent) => extent.stop,
            None => self.text.len(),
        }
    }
}
