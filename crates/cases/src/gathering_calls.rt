//! What comes of files that are gathered.

ghost use Rattle.std.specs.Prelude.{◌≡◌};

use crate::answer_output::{push_debug_format, push_display_format};
use crate::case_frames::split_eight_byte_number;
use crate::loading_calls::named_files_of_parts;
use std::alloc::{AllocError, Global};
use sudoers_files::{
    DeviceFailureAndEndlessFileCounts, FileFault, Files, FilesInMemory, FilesOnDisk, GatherFault,
    gather,
};
use sudoers_tree::{Items, NamedFile};

/// Files whose device fails at one call.
#[derive(Drop)]
pub struct FailingFiles<F> {
    files: F,
    /// Which call fails, from 1; none if it is 0.
    failing: u64,
    calls: u64,
    counts: DeviceFailureAndEndlessFileCounts,
}

impl<F: Files> FailingFiles<F> {
    /// Returns `files` whose call `failing` fails, from 1; none if it is 0.
    pub fn new(files: F, failing: u64) -> FailingFiles<F> {
        FailingFiles {
            files,
            failing,
            calls: 0,
            counts: DeviceFailureAndEndlessFileCounts::new(),
        }
    }

    /// Returns how often the files were asked.
    pub fn calls(&self) -> u64 {
        self.calls
    }

    /// Counts a call, and returns whether it fails.
    fn count_call_and_tell_whether_it_fails(&mut self) -> bool
        ensures { (self.new.files ≡ self.old.files) × (self.new.counts ≡ self.old.counts) }
    {
        self.calls = self.calls.saturating_add(1);
        self.calls == self.failing
    }
}

impl<F: Files> Files for FailingFiles<F> {
    ghost shelf = { λ failing. record {
      files = (F.shelf failing.files).files;
      failures = failing.counts.failures;
      endless = failing.counts.endless;
    } };

    fn read(&mut self, alloc: Global, name: &[u8]) -> Result<Option<Items<u8>>, FileFault> {
        if self.count_call_and_tell_whether_it_fails() {
            return Err(self.counts.count_device_fault(FileFault::Failed));
        }
        match self.files.read(alloc, name) {
            Ok(bytes) => Ok(bytes),
            Err(fault) => Err(self.counts.count_device_fault(fault)),
        }
    }

    fn names(&mut self, alloc: Global, dir: &[u8]) -> Result<Vec<Items<u8>>, FileFault> {
        if self.count_call_and_tell_whether_it_fails() {
            return Err(self.counts.count_device_fault(FileFault::Failed));
        }
        match self.files.names(alloc, dir) {
            Ok(names) => Ok(names),
            Err(fault) => Err(self.counts.count_device_fault(fault)),
        }
    }

    fn list_included_names(
        &mut self,
        alloc: Global,
        dir: &[u8],
    ) -> Result<Vec<Items<u8>>, FileFault> {
        if self.count_call_and_tell_whether_it_fails() {
            return Err(self.counts.count_device_fault(FileFault::Failed));
        }
        match self.files.list_included_names(alloc, dir) {
            Ok(names) => Ok(names),
            Err(fault) => Err(self.counts.count_device_fault(fault)),
        }
    }

    fn list_skipped_names(
        &mut self,
        alloc: Global,
        dir: &[u8],
    ) -> Result<Option<Vec<Items<u8>>>, FileFault> {
        if self.count_call_and_tell_whether_it_fails() {
            return Err(self.counts.count_device_fault(FileFault::Failed));
        }
        match self.files.list_skipped_names(alloc, dir) {
            Ok(names) => Ok(names),
            Err(fault) => Err(self.counts.count_device_fault(fault)),
        }
    }

    fn failures(&self) -> u64 {
        self.counts.failures
    }
}

/// Adds what is gathered of the files that `parts` are.
pub fn push_gathered_from_memory(
    alloc: Global,
    body: &[u8],
    parts: &[u8],
    answers: &mut String,
) -> Result<(), AllocError> {
    let files = FilesInMemory::new(named_files_of_parts(alloc, parts)?);
    push_gather_outcome(alloc, body, files, answers)
}

/// Adds what is gathered of the files of the disk.
pub fn push_gathered_from_disk(
    rt: &HostRuntime,
    body: &[u8],
    answers: &mut String,
) -> Result<(), AllocError> {
    let (_, root) = split_eight_byte_number(body);
    let root = Items::from_slice(rt.alloc(), root)?;
    let files = FilesOnDisk::new(rt.alloc(), rt.clone()?, None, root, rt.stdin());
    push_gather_outcome(rt.alloc(), body, files, answers)
}

/// Adds the names of the files that are gathered, or the fault; and how often the files were asked. The body of the call has the
/// number of the call that fails, and the name of the root.
fn push_gather_outcome<F: Files + Drop>(
    alloc: Global,
    body: &[u8],
    files: F,
    answers: &mut String,
) -> Result<(), AllocError> {
    let (failing, root) = split_eight_byte_number(body);
    let mut files = FailingFiles::new(files, failing);
    match gather(alloc, root, &mut files) {
        Ok(found) => push_file_names_and_sizes(found.as_slice(), answers)?,
        Err(GatherFault::NoMemory) => return Err(AllocError),
        Err(fault) => push_debug_format(&fault, answers)?,
    }
    answers.push('\t')?;
    push_display_format(&files.calls(), answers)
}

/// Adds the names of files and how many bytes each has, with a tab between two files.
fn push_file_names_and_sizes(files: &[NamedFile], answers: &mut String) -> Result<(), AllocError> {
    for (number, file) in files.iter().enumerate() {
        if number > 0 {
            answers.push('\t')?;
        }
        push_debug_format(&file.name.as_slice(), answers)?;
        answers.push(':')?;
        push_display_format(&file.bytes.len(), answers)?;
    }
    Ok(())
}
