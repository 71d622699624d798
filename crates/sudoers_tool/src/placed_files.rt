//! What is put in place of the files of an output.

use crate::place_trouble::PlaceError;
use crate::placed_paths::{PlacedPath, find_placed_path, make_temp_path, resolve_existing_name};
use crate::terminal::print_error_line;
use clap::ArgMatches;
use std::alloc::{AllocError, Global};
use std::fs;
use sudoers_grammar::Items;
use sudoers_place::{Change, Content};
use sudoers_run::{LayerFault, OutputFiles, ToolFault};
use sudoers_tree::{
    Lead, NamedFile, Policy, has_file_named, is_included_base_name, lead_of_include_node,
};

/// What is said of a new file that is left over.
const LEFT_OVER: &[u8] = b": left by a run that did not end; it may be removed";

/// Returns what is to be put in place of the files of an output, or back if `is_undo`. Names the new files that other runs have left. The
/// last file comes first, so that a file is there before the line that includes it; if `is_undo`, the first does.
pub fn make_changes(
    rt: &HostRuntime,
    words: &ArgMatches<'_>,
    files: &OutputFiles,
    is_undo: bool,
) -> Result<Vec<Change>, PlaceError> {
    let included = list_names_on_include_lines(rt.alloc(), files.before.as_slice())?;
    let count = files.before.len().min(files.after.len());
    let mut changes = Vec::new(rt.alloc());
    for step in 0..count {
        let number = if is_undo { step } else { count - 1 - step };
        let (before, after) = (&files.before[number], &files.after[number]);
        let name = after.name.as_slice();
        let place = find_placed_path(rt, words, name)?;
        print_leftovers(rt, name, place.leftovers, files.after.as_slice())?;
        let may_lack = number > 0 && is_empty_and_not_named(before, included.as_slice());
        let before = make_content(rt.alloc(), before, may_lack)?;
        let after = make_content(rt.alloc(), after, may_lack)?;
        changes.push(make_change(rt.alloc(), number, &place, before, after, is_undo)?)?;
    }
    Ok(changes)
}

/// Names the `count` new files that other runs have left beside the file `name`. A file of the policy is none.
fn print_leftovers(
    rt: &HostRuntime,
    name: &[u8],
    count: u32,
    files: &[NamedFile],
) -> Result<(), AllocError> {
    let name = str::from_utf8(name).unwrap_or("");
    for number in 0..count {
        let leftover = make_temp_path(rt.alloc(), name, number)?;
        if !has_file_named(files, leftover.as_bytes()) {
            print_error_line(rt, &[leftover.as_bytes(), LEFT_OVER])?;
        }
    }
    Ok(())
}

/// Returns whether the file `file` is empty, and not one of `included`, which include lines name: then it may be missing.
fn is_empty_and_not_named(file: &NamedFile, included: &[Items<u8>]) -> bool {
    file.bytes.len() == 0
        && !included
            .iter()
            .any(|name| name.as_slice() == file.name.as_slice())
}

/// Returns what is to be put at `place`: `after`, or `before` if `is_undo`.
fn make_change(
    alloc: Global,
    number: usize,
    place: &PlacedPath,
    before: Content,
    after: Content,
    is_undo: bool,
) -> Result<Change, AllocError> {
    let (before, after) = if is_undo {
        (after, before)
    } else {
        (before, after)
    };
    Ok(Change {
        number,
        path: Vec::from_slice(alloc, place.path.as_bytes())?,
        temp: Vec::from_slice(alloc, place.temp.as_bytes())?,
        before,
        after,
        is_done: false,
    })
}

/// Returns what stands where the file `file` is. An empty file may be missing if `may_lack`.
fn make_content(alloc: Global, file: &NamedFile, may_lack: bool) -> Result<Content, AllocError> {
    if may_lack && file.bytes.len() == 0 {
        return Ok(Content::NoFile);
    }
    Ok(Content::Bytes(Vec::from_slice(alloc, file.bytes.as_slice())?))
}

/// Returns whether an include line of the files `files` leads to the folder of the file `name`, and reads a file with this name there.
pub fn is_read_by_include_line(
    rt: &HostRuntime,
    words: &ArgMatches<'_>,
    name: &str,
    files: &[NamedFile],
) -> Result<bool, PlaceError> {
    let (folder, base) = match name.rsplit_once('/') {
        Some(("", base)) => ("/", base),
        Some((folder, base)) => (folder, base),
        None => (".", name),
    };
    if !is_included_base_name(base.as_bytes()) {
        return Ok(false);
    }
    let Ok(folder) = fs::canonicalize(rt, folder) else {
        return Ok(false);
    };
    for lead in list_leads(rt.alloc(), files)? {
        if let Lead::Dir(name) = lead
            && let Ok(name) = str::from_utf8(name.as_slice())
            && let Ok(path) = resolve_existing_name(rt, words, name)
            && path.as_str() == folder.as_os_str()
        {
            return Ok(true);
        }
    }
    Ok(false)
}

/// Returns the names of the files that include lines of the files `files` name, if one of these is empty.
fn list_names_on_include_lines(
    alloc: Global,
    files: &[NamedFile],
) -> Result<Vec<Items<u8>>, PlaceError> {
    let mut names = Vec::new(alloc);
    if files.iter().all(|file| file.bytes.len() > 0) {
        return Ok(names);
    }
    for lead in list_leads(alloc, files)? {
        if let Lead::File(name) = lead {
            names.push(name)?;
        }
    }
    Ok(names)
}

/// Returns where the include lines of the files `files` lead.
fn list_leads(alloc: Global, files: &[NamedFile]) -> Result<Vec<Lead>, PlaceError> {
    let mut leads = Vec::new(alloc);
    let policy = match Policy::load(alloc, files) {
        Ok(policy) => policy,
        Err(fault) => return Err(PlaceError::from(ToolFault::Layer(LayerFault::Load(fault)))),
    };
    for file in 0..policy.files() {
        append_leads_of_file(alloc, &mut leads, &policy, file)?;
    }
    Ok(leads)
}

/// Appends to `leads` where the include lines of the file with the number `file` lead.
fn append_leads_of_file(
    alloc: Global,
    leads: &mut Vec<Lead>,
    policy: &Policy,
    file: usize,
) -> Result<(), AllocError> {
    for line in 0..policy.len(file) {
        if let Some(node) = policy.node(file, line)
            && let Some(lead) = lead_of_include_node(alloc, policy.file_name(file), &node)?
        {
            leads.push(lead)?;
        }
    }
    Ok(())
}
