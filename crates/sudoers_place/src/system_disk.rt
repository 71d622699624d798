//! The disk of a system.

ghost use Rattle.std.specs.Prelude.{◌≡◌, ◌≤◌, OnErr, None};
ghost use Rattle.sudoers_place.specs.Disk.{HasRisen, unknown_story};

use crate::disk::{DiskError, WritableDisk};
use std::alloc::Global;
use std::fs::{Metadata, OpenFile, OpenOptions, Permissions};
use std::io::{ErrorKind, Read, Write};
use std::os::unix::fs::{MetadataExt, OpenOptionsExt, PermissionsExt, lchown};
use std::rt::Files as FileSystem;
use std::{fs, io};

/// How many bytes a file has at most. The byte after them is the last that is read.
const FILE_LIMIT: usize = 4_000_000;

/// Who may do what with a file, among the bits of its mode.
const ACCESS_BITS: u32 = 0o7777;

/// The disk of a system, of which nothing is known: its calls are taken to do what they say. A path is UTF-8, and a file is a regular one,
/// to which no link leads.
#[derive(Drop)]
pub struct SystemDisk<S> {
    system: S,
    failures: u64,
    reason: Option<io::Error>,
}

impl<S> SystemDisk<S> {
    /// Returns the disk of `system`. No call has failed yet.
    pub fn new(system: S) -> Self
        ensures { result ≡ record { system = system; failures = 0; reason = None } }
    {
        SystemDisk {
            system,
            failures: 0,
            reason: None,
        }
    }

    /// Returns why the last call that failed did so.
    pub fn reason(&self) -> Option<&io::Error> {
        self.reason.as_ref()
    }

    /// Counts a failure, and keeps why. The count stops at the greatest number.
    fn note<T>(&mut self, outcome: io::Result<T>) -> Result<T, DiskError>
        ensures counted { self.old.failures ≤ self.new.failures }
        ensures failed { OnErr result (HasRisen self.old.failures self.new.failures) }
    {
        match outcome {
            Ok(done) => Ok(done),
            Err(error) => {
                self.failures = self.failures.saturating_add(1);
                self.reason = Some(error);
                match error.kind() {
                    ErrorKind::OutOfMemory => Err(DiskError::NoMemory),
                    _ => Err(DiskError::Failed),
                }
            }
        }
    }
}

impl<S: FileSystem + Drop> WritableDisk for SystemDisk<S> {
    ghost story = { λ disk. unknown_story disk.failures };

    ghost seen_now = { λ disk. tt };

    ghost counts_now = { λ disk t c le now. tt };

    ghost only_now = { λ disk c left. tt };

    fn read(&mut self, alloc: Global, path: &[u8]) -> Result<Option<Vec<u8>>, DiskError> {
        let found = read_file(&self.system, alloc, path);
        self.note(found)
    }

    fn create(&mut self, path: &[u8], bytes: &[u8], like: &[u8]) -> Result<(), DiskError> {
        let created = create_file(&self.system, path, bytes, like);
        self.note(created)
    }

    fn rename(&mut self, from: &[u8], to: &[u8]) -> Result<(), DiskError> {
        let renamed = rename_file(&self.system, from, to);
        self.note(renamed)
    }

    fn remove(&mut self, path: &[u8]) -> Result<(), DiskError> {
        let removed = remove_file(&self.system, path);
        self.note(removed)
    }

    fn sync(&mut self, path: &[u8]) -> Result<(), DiskError> {
        let synced = sync_file(&self.system, path);
        self.note(synced)
    }
}

/// Returns a path as text.
fn text_of_path(path: &[u8]) -> io::Result<&str> {
    match str::from_utf8(path) {
        Ok(path) => Ok(path),
        Err(_) => Err(io::Error::new(ErrorKind::InvalidInput, "the path is not UTF-8")),
    }
}

/// Returns what was found, or nothing if it is missing.
fn turn_missing_into_none<T>(outcome: io::Result<T>) -> io::Result<Option<T>> {
    match outcome {
        Ok(found) => Ok(Some(found)),
        Err(error) if error.kind() == ErrorKind::NotFound => Ok(None),
        Err(error) => Err(error),
    }
}

/// Returns what the disk has of a regular file, if it is there.
fn find_regular_file<S: FileSystem>(system: &S, path: &str) -> io::Result<Option<Metadata>> {
    let metadata = turn_missing_into_none(fs::symlink_metadata(system, path))?;
    match &metadata {
        Some(metadata) if !metadata.is_file() => Err(io::Error::new(
            ErrorKind::InvalidInput,
            "it is not a regular file",
        )),
        _ => Ok(metadata),
    }
}

/// Returns the bytes of a file, if it is there.
fn read_file<S: FileSystem>(system: &S, alloc: Global, path: &[u8]) -> io::Result<Option<Vec<u8>>> {
    let path = text_of_path(path)?;
    if find_regular_file(system, path)?.is_none() {
        return Ok(None);
    }
    let Some(file) = turn_missing_into_none(fs::open(system, path))? else {
        return Ok(None);
    };
    let mut bytes = Vec::new(alloc);
    file.take(FILE_LIMIT as u64 + 1).read_to_end(&mut bytes)?;
    if bytes.len() > FILE_LIMIT {
        return Err(io::Error::from(ErrorKind::FileTooLarge));
    }
    Ok(Some(bytes))
}

/// Whose a file is, and who may do what with it.
#[derive(Clone, Copy)]
struct FileAccess {
    owner: u32,
    group: u32,
    mode: u32,
}

/// Returns the access of a file, or that of root where the file is missing.
fn find_access<S: FileSystem>(system: &S, path: &str) -> io::Result<FileAccess> {
    match find_regular_file(system, path)? {
        Some(metadata) => Ok(FileAccess {
            owner: metadata.uid(),
            group: metadata.gid(),
            mode: metadata.mode() & ACCESS_BITS,
        }),
        None => Ok(FileAccess {
            owner: 0,
            group: 0,
            mode: 0o440,
        }),
    }
}

/// Makes a file that is not there, with these bytes and the access of the file `like`. Removes it again if it cannot be finished.
fn create_file<S: FileSystem>(
    system: &S,
    path: &[u8],
    bytes: &[u8],
    like: &[u8],
) -> io::Result<()> {
    let path = text_of_path(path)?;
    let access = find_access(system, text_of_path(like)?)?;
    let mut options = OpenOptions::new();
    options.write(true).create_new(true).mode(0o600);
    let mut file = options.open(system, path)?;
    let filled = write_file(system, path, &mut file, bytes, access);
    if filled.is_err() {
        let _ = fs::remove_file(system, path);
    }
    filled
}

/// Fills a new file, and brings its bytes to the disk. Others get access once the file is whole.
fn write_file<S: FileSystem>(
    system: &S,
    path: &str,
    file: &mut S::File,
    bytes: &[u8],
    access: FileAccess,
) -> io::Result<()> {
    file.write_all(bytes)?;
    let made = file.metadata()?;
    if made.uid() != access.owner || made.gid() != access.group {
        lchown(system, path, Some(access.owner), Some(access.group))?;
    }
    // A change of the owner takes bits away, so the mode comes after it.
    file.set_permissions(Permissions::from_mode(access.mode))?;
    file.sync_all()
}

/// Moves a file to another path.
fn rename_file<S: FileSystem>(system: &S, from: &[u8], to: &[u8]) -> io::Result<()> {
    fs::rename(system, text_of_path(from)?, text_of_path(to)?)
}

/// Removes a file, if it is there.
fn remove_file<S: FileSystem>(system: &S, path: &[u8]) -> io::Result<()> {
    turn_missing_into_none(fs::remove_file(system, text_of_path(path)?))?;
    Ok(())
}

/// Brings the bytes of a file, if it is there, and then the names of its folder to the disk.
fn sync_file<S: FileSystem>(system: &S, path: &[u8]) -> io::Result<()> {
    let path = text_of_path(path)?;
    if let Some(file) = turn_missing_into_none(fs::open(system, path))? {
        file.sync_all()?;
    }
    fs::open(system, folder_of(path))?.sync_all()
}

/// Returns the folder of a path.
fn folder_of(path: &str) -> &str {
    match path.rsplit_once('/') {
        Some(("", _)) => "/",
        Some((folder, _)) => folder,
        None => ".",
    }
}
