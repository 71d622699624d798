//! Files of which no more than a number of bytes is read.

ghost use Rattle.std.specs.Prelude.{◌≡◌, None};

use std::alloc::Global;
use sudoers_files::{DeviceFailureAndEndlessFileCounts, FileFault, Files};
use sudoers_grammar::Items;

/// Files that fail once the bundle of those that were read passes a number of bytes.
#[derive(Drop)]
pub struct FilesWithinByteBudget<F> {
    files: F,
    left: usize,
    is_used_up: bool,
    counts: DeviceFailureAndEndlessFileCounts,
}

impl<F: Files> FilesWithinByteBudget<F> {
    /// Returns the files `files`, of which a bundle of `left` bytes may be read.
    pub fn new(files: F, left: usize) -> FilesWithinByteBudget<F> {
        FilesWithinByteBudget {
            files,
            left,
            is_used_up: false,
            counts: DeviceFailureAndEndlessFileCounts::new(),
        }
    }

    /// Returns whether the files were larger than they may be.
    pub fn is_byte_budget_exceeded(&self) -> bool {
        self.is_used_up
    }

    /// Returns the files.
    pub fn files(&self) -> &F {
        &self.files
    }

    /// Takes `size` bytes of those that are left, and returns whether there are as many.
    fn spend_byte_budget(&mut self, size: usize) -> bool
        ensures { self.new.counts ≡ self.old.counts }
    {
        self.is_used_up = size > self.left;
        self.left = self.left.saturating_sub(size);
        !self.is_used_up
    }
}

impl<F: Files> Files for FilesWithinByteBudget<F> {
    ghost shelf = { λ budget. record { files = None; failures = budget.counts.failures; endless = budget.counts.endless } };

    fn read(&mut self, alloc: Global, name: &[u8]) -> Result<Option<Items<u8>>, FileFault> {
        let bytes = match self.files.read(alloc, name) {
            Ok(Some(bytes)) => bytes,
            Ok(None) => return Ok(None),
            Err(fault) => return Err(self.counts.count_device_fault(fault)),
        };
        if self.spend_byte_budget(bundled_file_len(name, bytes.as_slice())) {
            return Ok(Some(bytes));
        }
        Err(self.counts.count_device_fault(FileFault::Failed))
    }

    fn names(&mut self, alloc: Global, dir: &[u8]) -> Result<Vec<Items<u8>>, FileFault> {
        match self.files.names(alloc, dir) {
            Ok(names) => Ok(names),
            Err(fault) => Err(self.counts.count_device_fault(fault)),
        }
    }

    fn list_included_names(
        &mut self,
        alloc: Global,
        dir: &[u8],
    ) -> Result<Vec<Items<u8>>, FileFault> {
        match self.files.list_included_names(alloc, dir) {
            Ok(names) => Ok(names),
            Err(fault) => Err(self.counts.count_device_fault(fault)),
        }
    }

    fn list_skipped_names(
        &mut self,
        alloc: Global,
        dir: &[u8],
    ) -> Result<Option<Vec<Items<u8>>>, FileFault> {
        match self.files.list_skipped_names(alloc, dir) {
            Ok(names) => Ok(names),
            Err(fault) => Err(self.counts.count_device_fault(fault)),
        }
    }

    fn failures(&self) -> u64 {
        self.counts.failures
    }
}

/// Returns how many bytes the file `name` with the bytes `bytes` takes in a bundle. Its header is a line `%% LENGTH NAME`.
fn bundled_file_len(name: &[u8], bytes: &[u8]) -> usize {
    digit_count_of_file_size(bytes.len())
        .saturating_add(5)
        .saturating_add(name.len())
        .saturating_add(bytes.len())
}

/// Returns how many digits the size `size` of a file has. A file that is read has at most seven.
fn digit_count_of_file_size(size: usize) -> usize {
    match size {
        0..=9 => 1,
        10..=99 => 2,
        100..=999 => 3,
        1_000..=9_999 => 4,
        10_000..=99_999 => 5,
        100_000..=999_999 => 6,
        _ => 7,
    }
}
