//! Files of a disk.

ghost use Rattle.std.specs.Prelude.{◌≡◌, ◌+◌, ◌≤◌, [], None, length, IfOk, IfSome};
ghost use Rattle.sudoers_text.specs.Fault.{text_limit};

use crate::counting_devices::Counted;
use crate::device_counts::DeviceFailureAndEndlessFileCounts;
use crate::disk_path::{is_path_too_long, resolve_path_below};
use crate::fault::FileFault;
use crate::files_trait::Files;
use crate::reading::read_to_end_or_byte_past_limit;
use std::alloc::{AllocError, Global};
use std::fs::DirEntry;
use std::io::{ErrorKind, Read};
use std::rt::Files as FileSystem;
use std::{fs, io};
use sudoers_text::TEXT_LIMIT;
use sudoers_tree::{Items, is_included_base_name};

/// The name of the file that a reader gives.
pub const STREAM_NAME: &[u8] = b"-";

/// The files of a disk. One of them is the file that a command line names, the root. A root named `-` is what a reader gives. Any other
/// file has to be a regular file, once links are followed. A file whose name is not UTF-8 is missing.
#[derive(Drop)]
pub struct FilesOnDisk<S, R> {
    system: S,
    top: Option<String>,
    root: Items<u8>,
    input: R,
    asked: Items<u8>,
    counts: DeviceFailureAndEndlessFileCounts,
}

/// Which names of a folder are listed.
#[derive(Clone, Copy)]
enum FolderNameFilter {
    /// Those of regular files.
    Regular,
    /// Those of regular files that an include of the folder reads.
    Wanted,
    /// Those that an include of the folder does not read.
    Unread,
}

impl<S: FileSystem + AllocGlobal + Clone + Drop, R: Read + Drop> FilesOnDisk<S, R> {
    /// Returns the files of `system`, of which `root` is the root. With the folder `top` they are those of a system whose root and current
    /// folder are `top`. `input` gives the root if its name is `-`. No file was read yet.
    pub fn new(
        alloc: Global,
        system: S,
        top: Option<String>,
        root: Items<u8>,
        input: R,
    ) -> FilesOnDisk<S, R>
        ensures { result ≡ record {
          system = system;
          top = top;
          root = root;
          input = input;
          asked = [];
          counts = record { failures = 0; endless = 0 };
        } }
    {
        FilesOnDisk {
            system,
            top,
            root,
            input,
            asked: Items::new(alloc),
            counts: DeviceFailureAndEndlessFileCounts::new(),
        }
    }

    /// Returns the name of the file or the folder that was asked for last.
    pub fn last_requested_name(&self) -> &[u8]
        ensures { result.now ≡ self.now.asked }
    {
        self.asked.as_slice()
    }

    /// Returns the path on the disk of the file or the folder `name`.
    fn disk_path_of(&self, alloc: Global, name: &str) -> io::Result<String> {
        match &self.top {
            Some(top) => resolve_path_below(&self.system, alloc, top.as_str(), name),
            None => Ok(String::from_str(alloc, name)?),
        }
    }

    /// Returns the bytes of the file `name`, up to the first past the limit of a text. Returns nothing if the file is missing.
    // Inlined, it would hold the buffer of a read in each level of files.
    #[inline(never)]
    fn read_disk_file(&mut self, alloc: Global, name: &[u8]) -> Result<Option<Items<u8>>, FileFault>
        ensures most { IfOk result (λ bytes. IfSome bytes (λ bytes. length bytes ≤ text_limit + 1)) }
        ensures same { self.new.counts ≡ self.old.counts }
    {
        let is_root = name == self.root.as_slice();
        if is_root && name == STREAM_NAME {
            return Ok(Some(read_file(alloc, &mut self.input)?));
        }
        let Ok(name) = str::from_utf8(name) else {
            return Ok(None);
        };
        match self.open_disk_file(alloc, name, is_root) {
            Ok(file) => Ok(Some(read_file(alloc, file)?)),
            Err(error) => {
                turn_error_kind_into_fault_unless_missing(error.kind())?;
                Ok(None)
            }
        }
    }

    /// Opens the file `name`. Unless it is the root, it has to be a regular file.
    fn open_disk_file(&self, alloc: Global, name: &str, is_root: bool) -> io::Result<S::File> {
        let path = self.disk_path_of(alloc, name)?;
        if !is_root && !fs::metadata(&self.system, path.as_str())?.is_file() {
            return Err(io::Error::from(ErrorKind::Other));
        }
        fs::open(&self.system, path.as_str())
    }

    /// Returns those names in the folder `dir` that are `listed`, without the folder. Returns nothing if the folder is missing.
    // Inlined, it would hold the entries of a folder in each level of files.
    #[inline(never)]
    fn list_folder_names(
        &self,
        alloc: Global,
        dir: &[u8],
        listed: FolderNameFilter,
    ) -> Result<Option<Vec<Items<u8>>>, FileFault> {
        let Ok(dir) = str::from_utf8(dir) else {
            return Ok(None);
        };
        let mut folder = String::from_str(alloc, dir)?;
        folder.push('/')?;
        let entries = match self.open_folder(alloc, folder.as_str()) {
            Ok(entries) => entries,
            Err(error) => {
                turn_error_kind_into_fault_unless_missing(error.kind())?;
                return Ok(None);
            }
        };
        let mut names = Vec::new(alloc);
        for entry in entries {
            let entry = convert_error_of_folder_entry(entry)?;
            if self.is_entry_listed(alloc, folder.as_str(), &entry, listed)? {
                names.push(Items::from_slice(alloc, entry.file_name().as_bytes())?)?;
            }
        }
        Ok(Some(names))
    }

    /// Opens the folder `folder`, whose name ends in `/`.
    fn open_folder(&self, alloc: Global, folder: &str) -> io::Result<fs::ReadDir<S, Global>> {
        let path = self.disk_path_of(alloc, folder)?;
        fs::read_dir(&self.system, path.as_str())
    }

    /// Returns whether `entry` of the folder `folder` is `listed`. Looks at no file whose name decides that.
    fn is_entry_listed(
        &self,
        alloc: Global,
        folder: &str,
        entry: &DirEntry<S, Global>,
        listed: FolderNameFilter,
    ) -> Result<bool, FileFault> {
        let is_base = is_included_base_name(entry.file_name().as_bytes());
        match listed {
            FolderNameFilter::Wanted if !is_base => Ok(false),
            FolderNameFilter::Unread if !is_base => Ok(true),
            FolderNameFilter::Regular | FolderNameFilter::Wanted => self.is_regular_file_entry(
                alloc, folder, entry,
            ),
            FolderNameFilter::Unread => Ok(!self.is_regular_file_entry(alloc, folder, entry)?),
        }
    }

    /// Returns whether `entry` of the folder `folder` is a regular file, or a link that leads to one.
    fn is_regular_file_entry(
        &self,
        alloc: Global,
        folder: &str,
        entry: &DirEntry<S, Global>,
    ) -> Result<bool, FileFault> {
        match self.look_up_entry_metadata(alloc, folder, entry) {
            Ok(metadata) => Ok(metadata.is_file()),
            Err(error) if error.kind() == ErrorKind::FilesystemLoop => Ok(false),
            Err(error) => {
                turn_error_kind_into_fault_unless_missing(error.kind())?;
                Ok(false)
            }
        }
    }

    /// Returns what the disk has of `entry` of the folder `folder`, or of the file or folder to which it leads as a link.
    fn look_up_entry_metadata(
        &self,
        alloc: Global,
        folder: &str,
        entry: &DirEntry<S, Global>,
    ) -> io::Result<fs::Metadata> {
        if self.top.is_none() {
            return fs::metadata(&self.system, entry.path());
        }
        if is_path_too_long(entry.path().to_string_lossy()) {
            return Err(io::Error::from(ErrorKind::InvalidData));
        }
        let metadata = entry.metadata()?;
        if !metadata.is_symlink() {
            return Ok(metadata);
        }
        let mut name = String::from_str(alloc, folder)?;
        name.push_str(entry.file_name())?;
        let path = self.disk_path_of(alloc, name.as_str())?;
        fs::metadata(&self.system, path.as_str())
    }

    /// Keeps the name of the file or the folder that is asked for.
    fn note_requested_name(&mut self, alloc: Global, name: &[u8]) -> Result<(), AllocError>
        ensures { self.new.counts ≡ self.old.counts }
    {
        self.asked = Items::from_slice(alloc, name)?;
        Ok(())
    }
}

impl<S: FileSystem + AllocGlobal + Clone + Drop, R: Read + Drop> Files for FilesOnDisk<S, R> {
    ghost shelf = { λ disk. record { files = None; failures = disk.counts.failures; endless = disk.counts.endless } };

    fn read(&mut self, alloc: Global, name: &[u8]) -> Result<Option<Items<u8>>, FileFault> {
        self.note_requested_name(alloc, name)?;
        match self.read_disk_file(alloc, name) {
            Ok(bytes) => Ok(bytes),
            Err(fault) => Err(self.counts.count_device_fault(fault)),
        }
    }

    fn names(&mut self, alloc: Global, dir: &[u8]) -> Result<Vec<Items<u8>>, FileFault> {
        self.note_requested_name(alloc, dir)?;
        match self.list_folder_names(alloc, dir, FolderNameFilter::Regular) {
            Ok(Some(names)) => Ok(names),
            Ok(None) => Ok(Vec::new(alloc)),
            Err(fault) => Err(self.counts.count_device_fault(fault)),
        }
    }

    fn list_included_names(
        &mut self,
        alloc: Global,
        dir: &[u8],
    ) -> Result<Vec<Items<u8>>, FileFault> {
        self.note_requested_name(alloc, dir)?;
        match self.list_folder_names(alloc, dir, FolderNameFilter::Wanted) {
            Ok(Some(names)) => Ok(names),
            Ok(None) => Ok(Vec::new(alloc)),
            Err(fault) => Err(self.counts.count_device_fault(fault)),
        }
    }

    fn list_skipped_names(
        &mut self,
        alloc: Global,
        dir: &[u8],
    ) -> Result<Option<Vec<Items<u8>>>, FileFault> {
        self.note_requested_name(alloc, dir)?;
        match self.list_folder_names(alloc, dir, FolderNameFilter::Unread) {
            Ok(names) => Ok(names),
            Err(fault) => Err(self.counts.count_device_fault(fault)),
        }
    }

    fn failures(&self) -> u64 {
        self.counts.failures
    }
}

/// Returns `Ok` if an error of the kind `kind` means that a file or a folder is missing, and else the fault of that kind.
fn turn_error_kind_into_fault_unless_missing(kind: ErrorKind) -> Result<(), FileFault> {
    match kind {
        ErrorKind::NotFound
        | ErrorKind::NotADirectory
        | ErrorKind::InvalidInput
        | ErrorKind::InvalidFilename => Ok(()),
        ErrorKind::OutOfMemory => Err(FileFault::NoMemory),
        _ => Err(FileFault::Failed),
    }
}

/// Returns an entry of a folder, or why it cannot be read. A name that is not UTF-8 is `Failed`.
fn convert_error_of_folder_entry<S: FileSystem>(
    entry: io::Result<DirEntry<S, Global>>,
) -> Result<DirEntry<S, Global>, FileFault> {
    match entry {
        Ok(entry) => Ok(entry),
        Err(error) if error.kind() == ErrorKind::OutOfMemory => Err(FileFault::NoMemory),
        Err(_) => Err(FileFault::Failed),
    }
}

/// Returns the bytes of `file`, up to the first past the limit of a text.
fn read_file<F: Read + Drop>(alloc: Global, file: F) -> Result<Items<u8>, FileFault>
    ensures { IfOk result (λ bytes. length bytes ≤ text_limit + 1) }
{
    let mut reader = Counted::new(file);
    let bytes = read_to_end_or_byte_past_limit(alloc, &mut reader, TEXT_LIMIT)?;
    Ok(Items::from_vec(bytes))
}
