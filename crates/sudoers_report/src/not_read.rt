//! What the include lines of a policy do not read, as JSON.

use crate::json_document::JsonList;
use crate::json_texts::make_text_value;
use serde_json::json;
use std::alloc::{AllocError, Global};
use sudoers_files::MissingFolderOrSkippedFile;
use sudoers_tree::{NamedFile, base_name_of_path, has_file_named, is_included_base_name};

/// Returns why an include of its folder does not read the file `name`.
fn reason_of_skipped_name(name: &[u8]) -> &'static str {
    let base = base_name_of_path(name);
    if is_included_base_name(base) {
        "no regular file"
    } else if base.contains(&b'.') {
        "its name contains '.'"
    } else {
        "its name ends in '~'"
    }
}

/// Returns the name of `one`, which is not read, and the reason; nothing if it is among the files `found`.
fn name_and_reason_of<'a>(
    found: &[NamedFile],
    one: &'a MissingFolderOrSkippedFile,
) -> Option<(&'a [u8], &'static str)> {
    match one {
        MissingFolderOrSkippedFile::Folder(dir) => Some((dir.as_slice(), "no such folder")),
        MissingFolderOrSkippedFile::File(name) if has_file_named(found, name.as_slice()) => None,
        MissingFolderOrSkippedFile::File(name) => Some((
            name.as_slice(),
            reason_of_skipped_name(name.as_slice()),
        )),
    }
}

/// Returns a list of the folders and files of `all`, which were not read, with the reasons, but for those among the files `found`.
///
/// # Errors
///
/// Memory ran out.
pub fn make_not_read_list(
    alloc: Global,
    found: &[NamedFile],
    all: &[MissingFolderOrSkippedFile],
) -> Result<JsonList, AllocError> {
    let mut list = JsonList::new(alloc);
    for one in all {
        if let Some((name, reason)) = name_and_reason_of(found, one) {
            list.add(&json!(in alloc; {
                "name": make_text_value(alloc, name)?,
                "reason": reason
            })?)?;
        }
    }
    Ok(list)
}
