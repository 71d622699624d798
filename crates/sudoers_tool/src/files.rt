//! Files that the command line names.

use crate::dialect_option::dialect_of_words;
use crate::kept_files::KeptFiles;
use clap::ArgMatches;
use std::alloc::{AllocError, Global};
use std::io::Stdin;
use std::{fs, io};
use sudoers_dialect::DialectFiles;
use sudoers_files::FilesOnDisk;
use sudoers_grammar::Items;
use sudoers_run::ToolFault;

/// The name of the standard input as a file.
pub const STDIN: &str = "-";

/// The descriptor of the standard input.
pub const STDIN_NUMBER: i32 = 0;

/// The files of the disk and the standard input.
pub type Disk = FilesOnDisk<HostRuntime, Stdin>;

/// The files of the disk and the standard input, each of which is read once, in a dialect.
pub type KeptDisk = DialectFiles<KeptFiles<Disk>>;

/// The option with the folder below which absolute names are read.
pub const TOP: &str = "DIR";

/// Returns the files of the disk for the policy `root`: those below the folder `top`, if one is given.
pub fn open_disk_files(rt: &HostRuntime, top: Option<&str>, root: &str) -> Result<Disk, ToolFault> {
    let top = match top {
        Some(dir) => Some(String::from_str(rt.alloc(), dir)?),
        None => None,
    };
    let root = file_name_of_text(rt.alloc(), root)?;
    Ok(FilesOnDisk::new(rt.alloc(), rt.clone()?, top, root, rt.stdin()))
}

/// Returns the files of the disk for the policy `root`, below the folder `top` if one is given, in the dialect that `words` name. Each is kept
/// when it is read, if `is_kept`.
pub fn open_kept_files(
    rt: &HostRuntime,
    words: &ArgMatches<'_>,
    top: Option<&str>,
    root: &str,
    is_kept: bool,
) -> Result<KeptDisk, ToolFault> {
    let disk = open_disk_files(rt, top, root)?;
    let kept = KeptFiles::new(rt.alloc(), disk, is_kept);
    Ok(DialectFiles::new(kept, dialect_of_words(words)))
}

/// Returns `name` as the name of a file.
pub fn file_name_of_text(alloc: Global, name: &str) -> Result<Items<u8>, AllocError> {
    Items::from_slice(alloc, name.as_bytes())
}

/// Opens a file. A file that cannot be opened is the error `Read`.
pub fn open_named_file(rt: &HostRuntime, file: &str) -> Result<fs::File, ToolFault> {
    match fs::open(rt, file) {
        Ok(opened) => Ok(opened),
        Err(error) if error.kind() == io::ErrorKind::OutOfMemory => Err(ToolFault::from(
            AllocError,
        )),
        Err(_) => Err(ToolFault::Read),
    }
}

/// Returns why `dir` is not a folder; nothing if it is one.
pub fn find_trouble_with_folder(
    rt: &HostRuntime,
    dir: &str,
) -> Result<Option<&'static str>, AllocError> {
    match fs::metadata(rt, dir) {
        Ok(metadata) if metadata.is_dir() => Ok(None),
        Ok(_) => Ok(Some("no such folder")),
        Err(error) if error.kind() == io::ErrorKind::OutOfMemory => Err(AllocError),
        Err(error) if is_kind_of_missing_file(error.kind()) => Ok(Some("no such folder")),
        Err(error) => Ok(Some(words_of_error_kind(error.kind()))),
    }
}

/// Returns whether an error of the kind `kind` says that there is no such file.
fn is_kind_of_missing_file(kind: io::ErrorKind) -> bool {
    kind == io::ErrorKind::NotFound || kind == io::ErrorKind::NotADirectory
}

/// Returns the system's reason for an error of the kind `kind`, in words.
pub fn words_of_error_kind(kind: io::ErrorKind) -> &'static str {
    match kind {
        io::ErrorKind::NotFound => "no such file",
        io::ErrorKind::PermissionDenied => "permission denied",
        io::ErrorKind::NotADirectory => "a part of its name is no folder",
        io::ErrorKind::IsADirectory => "it is a folder",
        io::ErrorKind::FilesystemLoop => "its links lead in a circle",
        io::ErrorKind::InvalidFilename => "its name is too long",
        io::ErrorKind::StorageFull => "no space is left",
        io::ErrorKind::ReadOnlyFilesystem => "the file system is read-only",
        io::ErrorKind::FileTooLarge => "it is too large",
        _ => "the device failed",
    }
}
