//! The files of a policy as they would stand after an edit that is refused.

use crate::refusals::number_of_edited_file;
use crate::spliced_lines::find_item_list;
use std::alloc::{AllocError, Global};
use sudoers_edit_script::Edit;
use sudoers_tree::{Items, NamedFile, Policy};

/// The bytes that a file would have: the number of the file, from 0, and the bytes.
#[derive(Drop)]
pub struct EditedFile {
    pub file: usize,
    pub bytes: Vec<u8>,
}

/// Returns the files of the policy `policy`, of which one has the bytes of `edited`.
///
/// # Errors
///
/// Memory ran out.
pub fn make_edited_files(
    policy: &Policy,
    edited: Option<EditedFile>,
) -> Result<Vec<NamedFile>, AllocError> {
    let mut files = policy.copy_named_files()?;
    if let Some(edited) = edited {
        let EditedFile { file, bytes } = edited;
        if let Some(named) = files.get_mut(file) {
            named.bytes = Items::from_vec(bytes);
        }
    }
    Ok(files)
}

/// Returns the file of the policy `policy` that the edit `edit` would change, with its bytes after the edit. Returns nothing for a rename and
/// a prune, which change several.
///
/// # Errors
///
/// Memory ran out.
pub fn make_edited_file(
    alloc: Global,
    policy: &Policy,
    edit: &Edit,
) -> Result<Option<EditedFile>, AllocError> {
    let Some(file) = number_of_edited_file(edit) else {
        return make_spliced_file(alloc, policy, edit);
    };
    let bytes = match edit {
        Edit::Insert { at, text, .. } => {
            let lines = LinesOfFile::from_start_and_count(file, *at as usize, 0);
            make_file_with_lines_replaced(alloc, policy, lines, text.as_slice())?
        }
        Edit::Delete { at, .. } => {
            let lines = LinesOfFile::from_start_and_count(file, *at as usize, 1);
            make_file_with_lines_replaced(alloc, policy, lines, b"")?
        }
        Edit::Move { from, to, .. } => {
            make_file_with_line_moved(alloc, policy, file, *from as usize, *to as usize)?
        }
        Edit::EndLine { .. } | Edit::OpenEnd { .. } => make_file_with_other_end(policy, file)?,
        _ => return make_spliced_file(alloc, policy, edit),
    };
    Ok(Some(EditedFile { file, bytes }))
}

/// Lines of the file with the number `file`: those with the numbers from `from` up to, but not with, `to`, from 0.
#[derive(Clone, Copy)]
struct LinesOfFile {
    file: usize,
    from: usize,
    to: usize,
}

impl LinesOfFile {
    /// Returns the `count` lines from the number `from` on of the file with the number `file`.
    fn from_start_and_count(file: usize, from: usize, count: usize) -> LinesOfFile {
        LinesOfFile {
            file,
            from,
            to: from.saturating_add(count),
        }
    }
}

/// Appends the lines `lines` of the policy `policy`.
fn append_lines(out: &mut Vec<u8>, policy: &Policy, lines: LinesOfFile) -> Result<(), AllocError> {
    for line in lines.from..lines.to.min(policy.len(lines.file)) {
        if let Some(text) = policy.line(lines.file, line) {
            out.extend_from_slice(text)?;
        }
    }
    Ok(())
}

/// Returns the bytes of a file with the bytes `text` in place of its lines `lines`.
fn make_file_with_lines_replaced(
    alloc: Global,
    policy: &Policy,
    lines: LinesOfFile,
    text: &[u8],
) -> Result<Vec<u8>, AllocError> {
    let mut out = Vec::new(alloc);
    let front = LinesOfFile {
        from: 0,
        to: lines.from,
        ..lines
    };
    let back = LinesOfFile {
        from: lines.to,
        to: policy.len(lines.file),
        ..lines
    };
    append_lines(&mut out, policy, front)?;
    out.extend_from_slice(text)?;
    append_lines(&mut out, policy, back)?;
    Ok(out)
}

/// Returns the bytes of the file `file` with its line `from` where it stands at `to`.
fn make_file_with_line_moved(
    alloc: Global,
    policy: &Policy,
    file: usize,
    from: usize,
    to: usize,
) -> Result<Vec<u8>, AllocError> {
    let mut out = Vec::new(alloc);
    for place in 0..policy.len(file) {
        let line = number_of_moved_line(place, from, to);
        if let Some(text) = policy.line(file, line) {
            out.extend_from_slice(text)?;
        }
    }
    Ok(out)
}

/// Returns the number of the line that stands at `place` once the line `from` stands at `to`.
fn number_of_moved_line(place: usize, from: usize, to: usize) -> usize {
    if place == to {
        from
    } else if from <= place && place < to {
        place.saturating_add(1)
    } else if to < place && place <= from {
        place.saturating_sub(1)
    } else {
        place
    }
}

/// Returns the bytes of the file `file` without the LF at its end, or with one.
fn make_file_with_other_end(policy: &Policy, file: usize) -> Result<Vec<u8>, AllocError> {
    let mut text = policy.text(file)?;
    if text.last() == Some(&b'\n') {
        let _ = text.pop();
    } else {
        text.push(b'\n')?;
    }
    Ok(text)
}

/// Returns the file in which the edit `edit` would change a list of members or definitions, with its bytes after it.
fn make_spliced_file(
    alloc: Global,
    policy: &Policy,
    edit: &Edit,
) -> Result<Option<EditedFile>, AllocError> {
    let Some(text) = make_spliced_line(alloc, policy, edit)? else {
        return Ok(None);
    };
    let Some(list) = find_item_list(alloc, policy, edit)? else {
        return Ok(None);
    };
    let lines = LinesOfFile::from_start_and_count(list.file, list.line, 1);
    Ok(Some(EditedFile {
        file: list.file,
        bytes: make_file_with_lines_replaced(alloc, policy, lines, text.as_slice())?,
    }))
}

/// Returns the line in which the edit `edit` would change a list of members or definitions, with its bytes after it.
///
/// # Errors
///
/// Memory ran out.
pub fn make_spliced_line(
    alloc: Global,
    policy: &Policy,
    edit: &Edit,
) -> Result<Option<Vec<u8>>, AllocError> {
    let Some(list) = find_item_list(alloc, policy, edit)? else {
        return Ok(None);
    };
    let (from, to, splice) = match edit {
        Edit::AddMember { at, splice, .. } | Edit::AddDef { at, splice, .. } => {
            let from = list.owned_start_of_item(*at as usize);
            (from, from, splice.as_slice())
        }
        Edit::DropMember { at, .. } | Edit::DropDef { at, .. } => {
            let empty: &[u8] = b"";
            (
                list.owned_start_of_item(*at as usize),
                list.owned_stop_of_item(*at as usize),
                empty,
            )
        }
        _ => return Ok(None),
    };
    let (front, _) = list.text.split_at(from.min(list.text.len()));
    let (_, back) = list.text.split_at(to.min(list.text.len()));
    let mut text = Vec::from_slice(alloc, front)?;
    text.extend_from_slice(splice)?;
    text.extend_from_slice(back)?;
    Ok(Some(text))
}
