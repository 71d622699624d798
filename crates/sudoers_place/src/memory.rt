//! A disk in memory, which keeps all that was done to it.

ghost use Rattle.std.specs.Prelude.{◌≡◌, ◌≤◌, [], ◌∷◌, IfOk, OnOk, OnErr, None, Some};
ghost use Rattle.std.proofs.Common.{refl};
ghost use Rattle.sudoers_place.specs.Disk.{HasRisen, IsReplacedOrNot, SameBut, file_with_access_of, free_paths};
ghost use Rattle.sudoers_place.specs.Memory.{LogGoesOn, counts, file_if, file_of, image_of, only, story_of};

use crate::disk::{DiskError, WritableDisk};
use std::alloc::{AllocError, Global};

/// A file: its bytes, its owner, its group and its mode.
#[derive(Drop)]
struct StoredFile {
    bytes: Vec<u8>,
    owner: u32,
    group: u32,
    mode: u32,
}

/// What became of a path: the file that was put there, or nothing if it was removed.
#[derive(Drop)]
struct Entry {
    path: Vec<u8>,
    file: Option<StoredFile>,
}

/// A disk in memory. It does each call at once, so a crash leaves what a reader finds.
#[derive(Drop)]
pub struct Memory {
    alloc: Global,
    log: Vec<Entry>,
    failures: u64,
}

impl Memory {
    /// Makes a disk with no files.
    pub fn new(alloc: Global) -> Self {
        Memory {
            alloc,
            log: Vec::new(alloc),
            failures: 0,
        }
    }
}

/// Returns a copy of a file, if there is one.
fn copy_if(alloc: Global, file: &Option<StoredFile>) -> Result<Option<StoredFile>, AllocError>
    ensures { IfOk result (λ copy. file_if copy ≡ file_if file.now) }
{
    match file {
        Some(file) => Ok(Some(StoredFile {
            bytes: file.bytes.to_vec(alloc)?,
            owner: file.owner,
            group: file.group,
            mode: file.mode,
        })),
        None => Ok(None),
    }
}

/// Returns the file that stands under a path, by the last entry of the path.
fn look_up(alloc: Global, log: &[Entry], path: &[u8]) -> Result<Option<StoredFile>, AllocError>
    ensures { IfOk result (λ found. file_if found ≡ image_of log.now path.now) }
{
    let Some((last, rest)) = log.split_last() else {
        return Ok(None);
    };
    let last_path = last.path.as_slice();
    if last_path == path {
        return copy_if(alloc, &last.file);
    }
    look_up(alloc, rest, path)
}

/// Returns a file with these bytes and the access of the file `like`, or of root where that is not there.
fn make_file(
    alloc: Global,
    log: &[Entry],
    bytes: &[u8],
    like: &[u8],
) -> Result<StoredFile, AllocError>
    ensures { IfOk result (λ file. Some (file_of file) ≡ file_with_access_of bytes.now (image_of log.now like.now)) }
{
    let bytes = bytes.to_vec(alloc)?;
    match look_up(alloc, log, like)? {
        Some(like) => Ok(StoredFile {
            bytes,
            owner: like.owner,
            group: like.group,
            mode: like.mode,
        }),
        None => Ok(StoredFile {
            bytes,
            owner: 0,
            group: 0,
            mode: 0o440,
        }),
    }
}

/// Writes down that this file stands under the path, or none.
fn record(
    alloc: Global,
    log: &mut Vec<Entry>,
    path: &[u8],
    file: Option<StoredFile>,
) -> Result<(), DiskError>
    ensures goes_on { LogGoesOn (IsReplacedOrNot (path.now ∷ []) path.now (file_if file)) log.old.items log.new.items }
    ensures said { OnOk result (image_of log.new.items path.now ≡ file_if file) }
{
    let Ok(copy) = path.to_vec(alloc) else {
        return Err(DiskError::NoMemory);
    };
    let entry = Entry { path: copy, file };
    let Ok(()) = log.push(entry) else {
        return Err(DiskError::NoMemory);
    };
    Ok(())
}

/// Makes a file that is not there. A file that is there stays as it is.
fn create(
    alloc: Global,
    log: &mut Vec<Entry>,
    path: &[u8],
    bytes: &[u8],
    like: &[u8],
) -> Result<(), DiskError>
    ensures absent { OnOk result (image_of log.old.items path.now ≡ None) }
    ensures written { OnOk result (image_of log.new.items path.now ≡ file_with_access_of bytes.now (image_of log.old.items like.now)) }
    ensures goes_on { LogGoesOn (SameBut (free_paths (image_of log.old.items) (path.now ∷ []))) log.old.items log.new.items }
{
    match look_up(alloc, log, path) {
        Ok(None) => match make_file(alloc, log, bytes, like) {
            Ok(file) => record(alloc, log, path, Some(file)),
            Err(_) => Err(DiskError::NoMemory),
        },
        Ok(Some(_)) => Err(DiskError::Failed),
        Err(_) => Err(DiskError::NoMemory),
    }
}

/// Moves a file that is there to another path.
fn rename(alloc: Global, log: &mut Vec<Entry>, from: &[u8], to: &[u8]) -> Result<(), DiskError>
    ensures moved { OnOk result (image_of log.new.items to.now ≡ image_of log.old.items from.now) }
    ensures goes_on { LogGoesOn (IsReplacedOrNot (from.now ∷ to.now ∷ []) to.now (image_of log.old.items from.now)) log.old.items log.new.items }
{
    if to == from {
        return Ok(());
    }
    match look_up(alloc, log, from) {
        Ok(Some(file)) => {
            record(alloc, log, to, Some(file))?;
            record(alloc, log, from, None)
        }
        Ok(None) => Err(DiskError::Failed),
        Err(_) => Err(DiskError::NoMemory),
    }
}

/// Counts a failure. The count stops at the greatest number.
fn count<T>(failures: &mut u64, outcome: Result<T, DiskError>) -> Result<T, DiskError>
    ensures same { result ≡ outcome }
    ensures counted { failures.old ≤ failures.new }
    ensures failed { OnErr result (HasRisen failures.old failures.new) }
{
    match outcome {
        Ok(done) => Ok(done),
        Err(error) => {
            *failures = failures.saturating_add(1);
            Err(error)
        }
    }
}

impl WritableDisk for Memory {
    ghost story = { λ m. story_of m.log.items m.failures };

    ghost seen_now = { λ m path. refl };

    ghost counts_now = { λ m t c le now. counts m.log.items t c le now };

    ghost only_now = { λ m c left. only m.log.items c left };

    fn read(&mut self, alloc: Global, path: &[u8]) -> Result<Option<Vec<u8>>, DiskError> {
        let found = match look_up(alloc, &self.log, path) {
            Ok(Some(file)) => Ok(Some(file.bytes)),
            Ok(None) => Ok(None),
            Err(_) => Err(DiskError::NoMemory),
        };
        count(&mut self.failures, found)
    }

    fn create(&mut self, path: &[u8], bytes: &[u8], like: &[u8]) -> Result<(), DiskError> {
        let created = create(self.alloc, &mut self.log, path, bytes, like);
        count(&mut self.failures, created)
    }

    fn rename(&mut self, from: &[u8], to: &[u8]) -> Result<(), DiskError> {
        let renamed = rename(self.alloc, &mut self.log, from, to);
        count(&mut self.failures, renamed)
    }

    fn remove(&mut self, path: &[u8]) -> Result<(), DiskError> {
        let removed = record(self.alloc, &mut self.log, path, None);
        count(&mut self.failures, removed)
    }

    fn sync(&mut self, _path: &[u8]) -> Result<(), DiskError> {
        Ok(())
    }
}
