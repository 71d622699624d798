//! The lines that explain why an edit is refused.

use crate::script_faults::make_script_file;
use crate::script_rows::{ScriptRow, row_of_command};
use crate::spliced_lines::find_item_list;
use std::alloc::{AllocError, Global};
use sudoers_edit::{EditFault, Editor};
use sudoers_edit_script::{Edit, Edits, ScriptFault, read_script};
use sudoers_explain::PlaceInFile;
use sudoers_tree::{LoadFault, NamedFile, Policy, lf_count};

/// A refused edit: the script, the line of its command, the policy as it stands before the edit, and how many lines the file of the edit,
/// or members its list, had before the script.
#[derive(Clone, Copy)]
pub struct Refusal<'a> {
    pub alloc: Global,
    pub script: &'a NamedFile,
    pub row: ScriptRow<'a>,
    pub policy: &'a Policy,
    pub edit: &'a Edit,
    pub old_len: usize,
}

/// Returns the lines that explain `fault`, for which the edit with the number `place`, from 0, of the script `script` is refused, which is
/// applied to the policy of the files `files`: the command, what the policy has there, and what to do. The edits before it are made again.
/// Returns no bytes if `script` is no script, `files` are no policy, or an edit before is refused.
///
/// # Errors
///
/// Memory ran out.
pub fn explain_refused_edit(
    alloc: Global,
    script: &[u8],
    files: &[NamedFile],
    place: usize,
    fault: &EditFault,
) -> Result<Vec<u8>, AllocError> {
    let mut out = Vec::new(alloc);
    let Some(edits) = read_accepted_script(alloc, script)? else {
        return Ok(out);
    };
    let Some(policy) = load_accepted_files(alloc, files)? else {
        return Ok(out);
    };
    let (before, from) = edits.as_slice().split_at(place.min(edits.len()));
    let Some(edit) = from.first() else {
        return Ok(out);
    };
    let old_len = count_of_edit(alloc, &policy, edit)?;
    let mut editor = Editor::new(policy);
    match editor.apply_all(before) {
        Ok(()) => {}
        Err((_, EditFault::NoMemory)) => return Err(AllocError),
        Err(_) => return Ok(out),
    }
    let file = make_script_file(alloc, script)?;
    let refusal = Refusal {
        alloc,
        script: &file,
        row: row_of_command(file.bytes.as_slice(), place),
        policy: editor.policy(),
        edit,
        old_len,
    };
    refusal.append_explanation(&mut out, fault)?;
    Ok(out)
}

/// Returns the edits of the script `script`; nothing if it is none.
fn read_accepted_script(alloc: Global, script: &[u8]) -> Result<Option<Edits>, AllocError> {
    match read_script(alloc, script) {
        Ok(edits) => Ok(Some(edits)),
        Err(ScriptFault::NoMemory) => Err(AllocError),
        Err(_) => Ok(None),
    }
}

/// Returns the policy of the files `files`; nothing if they are none.
fn load_accepted_files(alloc: Global, files: &[NamedFile]) -> Result<Option<Policy>, AllocError> {
    match Policy::load(alloc, files) {
        Ok(policy) => Ok(Some(policy)),
        Err(LoadFault::NoMemory) => Err(AllocError),
        Err(_) => Ok(None),
    }
}

/// Returns how many lines the file of the edit `edit` has, or else how many members its list; 0 if it has neither.
fn count_of_edit(alloc: Global, policy: &Policy, edit: &Edit) -> Result<usize, AllocError> {
    if let Some(file) = number_of_edited_file(edit) {
        return Ok(policy.len(file));
    }
    match find_item_list(alloc, policy, edit)? {
        Some(list) => Ok(list.len()),
        None => Ok(0),
    }
}

/// Returns the number, from 0, of the file whose lines the edit `edit` names.
pub fn number_of_edited_file(edit: &Edit) -> Option<usize> {
    match edit {
        Edit::Insert { file, .. }
        | Edit::Delete { file, .. }
        | Edit::Move { file, .. }
        | Edit::AddDef { file, .. }
        | Edit::DropDef { file, .. }
        | Edit::EndLine { file }
        | Edit::OpenEnd { file } => Some(*file as usize),
        Edit::AddMember { .. } | Edit::DropMember { .. } | Edit::Rename { .. } | Edit::Prune =>
            None,
    }
}

impl Refusal<'_> {
    /// Appends the lines that explain `fault`.
    fn append_explanation(&self, out: &mut Vec<u8>, fault: &EditFault) -> Result<(), AllocError> {
        match fault {
            EditFault::NoFile => self.append_missing_file(out),
            EditFault::NoLine => self.append_missing_line(out),
            EditFault::NotOneLine => self.append_other_than_one_line(out),
            EditFault::OpenLine => self.append_open_line(out),
            EditFault::NoAlias => self.append_missing_alias(out),
            EditFault::NoPlace => self.append_missing_place(out),
            EditFault::OnlyOne => self.append_only_item(out),
            EditFault::BadName => self.append_bad_name(out),
            EditFault::NameTaken => self.append_taken_name(out),
            EditFault::BadSplice => self.append_bad_splice(out),
            EditFault::EndAsIs => self.append_end_as_is(out),
            EditFault::TooLarge => self.append_size(out),
            EditFault::NotPolicy(fault) => self.append_fault_of_result(out, fault),
            EditFault::NoMemory => Ok(()),
        }
    }

    /// Appends the line of the command, with the mark under its word with the number `word`, from 0, and `label` behind the mark.
    ///
    /// # Errors
    ///
    /// Memory ran out.
    pub fn append_command(
        &self,
        out: &mut Vec<u8>,
        word: usize,
        label: &[u8],
    ) -> Result<(), AllocError> {
        let at = self.row.start.saturating_add(self.row.offset_of_word(word));
        PlaceInFile {
            file: self.script,
            at,
        }
        .append_excerpt(self.alloc, out, label)
    }

    /// Appends the line of the script that has the byte `at` of the text `text` of the edit, with the mark under it and `label` behind the
    /// mark.
    ///
    /// # Errors
    ///
    /// Memory ran out.
    pub fn append_text_place(
        &self,
        out: &mut Vec<u8>,
        text: &[u8],
        at: usize,
        label: &[u8],
    ) -> Result<(), AllocError> {
        let most = if text.ends_with(b"\n") {
            text.len().saturating_sub(1)
        } else {
            text.len()
        };
        let (front, _) = text.split_at(at.min(most));
        // One byte of each line of the script is no part of the text.
        let marks = lf_count(front).saturating_add(1);
        let start = self.row.stop().saturating_add(1);
        PlaceInFile {
            file: self.script,
            at: start.saturating_add(front.len()).saturating_add(marks),
        }
        .append_excerpt(self.alloc, out, label)
    }

    /// Returns the number of the byte of the file `file` with which its line `line` begins, both from 0.
    pub fn offset_of_line(&self, file: usize, line: usize) -> usize {
        let mut offset: usize = 0;
        for number in 0..line.min(self.policy.len(file)) {
            if let Some(text) = self.policy.line(file, number) {
                offset = offset.saturating_add(text.len());
            }
        }
        offset
    }
}
