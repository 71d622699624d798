//! The paths at which files are put in place.

use crate::files::{TOP, words_of_error_kind};
use crate::place_trouble::{PlaceError, make_place_error};
use clap::ArgMatches;
use std::alloc::{AllocError, Global};
use std::{fs, io};
use sudoers_files::resolve_path_below;

/// What is behind the name of a new file that is not in place yet. sudo reads no file with such a name in a folder.
const NEW: &str = ".place";

/// What is behind the name of the file in which visudo edits.
const VISUDO: &str = ".tmp";

/// How many new files that were left over may stand beside a file.
const LEFTOVER_LIMIT: u32 = 100;

/// Where a file is put in place.
#[derive(Drop)]
pub struct PlacedPath {
    /// The path of the file, without links.
    pub path: String,
    /// The path at which the new file is written first.
    pub temp: String,
    /// How many new files another run left beside it.
    pub leftovers: u32,
}

/// Returns where the file `name` of an output is, below the folder that `words` name, if they name one. Of a file that is not there its folder
/// has to be there.
pub fn find_placed_path(
    rt: &HostRuntime,
    words: &ArgMatches<'_>,
    name: &[u8],
) -> Result<PlacedPath, PlaceError> {
    let alloc = rt.alloc();
    let Ok(text) = str::from_utf8(name) else {
        return Err(make_place_error(alloc, name, b"NotRead", &[b"its name is not UTF-8"]));
    };
    let path = match resolve_name(rt, words, text) {
        Ok(path) => path,
        Err(error) => return Err(make_error_of_file(alloc, name, b"NotRead", error.kind())),
    };
    let visudo = format!(in alloc; "{path}{VISUDO}")?;
    if is_there(rt, visudo.as_str()) {
        let advice = make_text_around(
            alloc,
            b"visudo edits it, or has left ",
            name,
            b".tmp; end visudo, or remove that file",
        )?;
        return Err(make_place_error(alloc, name, b"Busy", &[advice.as_slice()]));
    }
    for leftovers in 0..LEFTOVER_LIMIT {
        let temp = make_temp_path(alloc, path.as_str(), leftovers)?;
        if !is_there(rt, temp.as_str()) {
            return Ok(PlacedPath {
                path,
                temp,
                leftovers,
            });
        }
    }
    let advice = make_text_around(
        alloc,
        b"remove the files ",
        name,
        b".place and so on, which other runs have left",
    )?;
    Err(make_place_error(alloc, name, b"NotWritten", &[advice.as_slice()]))
}

/// Returns the error `word` of the file `name` with the system's reason.
pub fn make_error_of_file(
    alloc: Global,
    name: &[u8],
    word: &[u8],
    kind: io::ErrorKind,
) -> PlaceError {
    if kind == io::ErrorKind::OutOfMemory {
        return PlaceError::from(AllocError);
    }
    match make_reason_of_file(alloc, name, kind) {
        Ok(reason) => make_place_error(alloc, name, word, &[reason.as_slice()]),
        Err(error) => PlaceError::from(error),
    }
}

/// Returns the name `name` of a file and the system's reason.
pub fn make_reason_of_file(
    alloc: Global,
    name: &[u8],
    kind: io::ErrorKind,
) -> Result<Vec<u8>, AllocError> {
    make_text_around(alloc, name, b": ", words_of_error_kind(kind).as_bytes())
}

/// Returns the text `name` with one text before it and one behind it.
fn make_text_around(
    alloc: Global,
    before: &[u8],
    name: &[u8],
    behind: &[u8],
) -> Result<Vec<u8>, AllocError> {
    let mut text = Vec::from_slice(alloc, before)?;
    text.extend_from_slice(name)?;
    text.extend_from_slice(behind)?;
    Ok(text)
}

/// Returns the path at which the new file of `path` is written first, if `leftovers` others are there.
pub fn make_temp_path(alloc: Global, path: &str, leftovers: u32) -> Result<String, AllocError> {
    if leftovers == 0 {
        return format!(in alloc; "{path}{NEW}");
    }
    let number = leftovers.saturating_add(1);
    format!(in alloc; "{path}{NEW}{number}")
}

/// Returns whether something is at `path`, a link too. What cannot be looked up is taken to be there.
fn is_there(rt: &HostRuntime, path: &str) -> bool {
    match fs::symlink_metadata(rt, path) {
        Ok(_) => true,
        Err(error) => error.kind() != io::ErrorKind::NotFound,
    }
}

/// Returns the path of the file `name` without links. Of a file that is not there, that of its folder is looked up.
fn resolve_name(rt: &HostRuntime, words: &ArgMatches<'_>, name: &str) -> io::Result<String> {
    match resolve_existing_name(rt, words, name) {
        Ok(path) => Ok(path),
        Err(error) if error.kind() == io::ErrorKind::NotFound => {
            let (folder, base) = match name.rsplit_once('/') {
                Some(("", base)) => ("/", base),
                Some((folder, base)) => (folder, base),
                None => (".", name),
            };
            let folder = resolve_existing_name(rt, words, folder)?;
            Ok(format!(in rt.alloc(); "{folder}/{base}")?)
        }
        Err(error) => Err(error),
    }
}

/// Returns the path of the file or the folder `name`, which is there, without links.
pub fn resolve_existing_name(
    rt: &HostRuntime,
    words: &ArgMatches<'_>,
    name: &str,
) -> io::Result<String> {
    match words.get_str(TOP) {
        Some(top) => resolve_path_below(rt, rt.alloc(), top, name),
        None => Ok(fs::canonicalize(rt, name)?.into_string()),
    }
}
