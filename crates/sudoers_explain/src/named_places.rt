//! Where files define an alias, and where they include a file.

use crate::excerpts::PlaceInFile;
use std::alloc::{AllocError, Global};
use sudoers_grammar::{Kind, LineFault};
use sudoers_line_reader::parse;
use sudoers_line_rows::Node;
use sudoers_text::{TextFault, cut};
use sudoers_tree::{Lead, NamedFile, folder_of, is_same_kind, leads};

/// Returns the logical lines of `file`, each with the number of the byte with which it begins. Returns none if the text cannot be cut.
fn list_lines_with_offsets<'a>(
    alloc: Global,
    file: &'a NamedFile,
) -> Result<Vec<(usize, &'a [u8])>, AllocError> {
    let mut all = Vec::new(alloc);
    let lines = match cut(alloc, file.bytes.as_slice()) {
        Ok(lines) => lines,
        Err(TextFault::NoMemory) => return Err(AllocError),
        Err(_) => return Ok(all),
    };
    let mut start: usize = 0;
    for number in 0..lines.len() {
        if let Some(line) = lines.get(number) {
            all.push((start, line))?;
            start = start.saturating_add(line.len());
        }
    }
    Ok(all)
}

/// Returns the places in `file` where the alias `name` of the kind `kind` is defined. Lines that do not parse define nothing.
///
/// # Errors
///
/// Memory ran out.
pub fn find_definitions<'a>(
    alloc: Global,
    file: &'a NamedFile,
    kind: Kind,
    name: &[u8],
) -> Result<Vec<PlaceInFile<'a>>, AllocError> {
    let mut places = Vec::new(alloc);
    for (start, line) in list_lines_with_offsets(alloc, file)?.as_slice() {
        for offset in find_definitions_in_line(alloc, line, kind, name)?.as_slice() {
            places.push(PlaceInFile {
                file,
                at: start.saturating_add(*offset),
            })?;
        }
    }
    Ok(places)
}

/// Returns the numbers of the bytes of `line` with which definitions of the alias `name` of the kind `kind` begin.
fn find_definitions_in_line(
    alloc: Global,
    line: &[u8],
    kind: Kind,
    name: &[u8],
) -> Result<Vec<usize>, AllocError> {
    let mut offsets = Vec::new(alloc);
    let parsed = match parse(alloc, line) {
        Ok(parsed) => parsed,
        Err(LineFault::NoMemory) => return Err(AllocError),
        Err(LineFault::Syntax { .. }) => return Ok(offsets),
    };
    if let Node::Alias {
        kind: defined,
        defs,
    } = parsed.node()
        && is_same_kind(defined, kind)
    {
        for row in defs.rows {
            let def = defs.tables.alias_definition_of_row(row);
            if def.name == name {
                offsets.push(def.start)?;
            }
        }
    }
    Ok(offsets)
}

/// Returns whether an include that leads to `lead` reads the file `name`.
fn leads_to(lead: &Lead, name: &[u8]) -> bool {
    match lead {
        Lead::File(file) => file.as_slice() == name,
        Lead::Dir(dir) => match folder_of(name).strip_suffix(b"/") {
            Some(folder) => folder == dir.as_slice(),
            None => false,
        },
    }
}

/// Returns the place of the first line of the files `files`, in their order, that includes the file `name`; but not `again`.
///
/// # Errors
///
/// Memory ran out.
pub fn find_first_include<'a>(
    alloc: Global,
    files: &'a [NamedFile],
    name: &[u8],
    again: PlaceInFile<'a>,
) -> Result<Option<PlaceInFile<'a>>, AllocError> {
    for file in files {
        for (start, line) in list_lines_with_offsets(alloc, file)?.as_slice() {
            if *start == again.at && file.name.as_slice() == again.file.name.as_slice() {
                continue;
            }
            if let Some(lead) = leads(alloc, file.name.as_slice(), line)?
                && leads_to(&lead, name)
            {
                return Ok(Some(PlaceInFile { file, at: *start }));
            }
        }
    }
    Ok(None)
}
