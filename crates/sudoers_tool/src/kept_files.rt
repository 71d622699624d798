//! Files that are kept when they are read, so that each is read once.

ghost use Rattle.std.specs.Prelude.{◌≡◌, None};

use std::alloc::{AllocError, Global};
use sudoers_files::{DeviceFailureAndEndlessFileCounts, FileFault, Files};
use sudoers_grammar::Items;
use sudoers_text::TEXT_LIMIT;
use sudoers_tree::NamedFile;

/// Files of which each is read once: a second read gives the bytes of the first.
#[derive(Drop)]
pub struct KeptFiles<F> {
    files: F,
    is_kept: bool,
    kept: Vec<NamedFile>,
    counts: DeviceFailureAndEndlessFileCounts,
}

impl<F: Files> KeptFiles<F> {
    /// Returns the files `files`, of which each is kept when it is read, if `is_kept`.
    pub fn new(alloc: Global, files: F, is_kept: bool) -> KeptFiles<F> {
        KeptFiles {
            files,
            is_kept,
            kept: Vec::new(alloc),
            counts: DeviceFailureAndEndlessFileCounts::new(),
        }
    }

    /// Returns the files.
    pub fn files(&self) -> &F {
        &self.files
    }

    /// Returns the file `name`, if it was kept.
    fn find_kept_file(&self, name: &[u8]) -> Option<&NamedFile> {
        self.kept.iter().find(|file| file.name.as_slice() == name)
    }

    /// Keeps the bytes `bytes` of the file `name`, if files are kept.
    fn keep_bytes(&mut self, alloc: Global, name: &[u8], bytes: &[u8]) -> Result<(), AllocError>
        ensures { self.new.counts ≡ self.old.counts }
    {
        if self.is_kept {
            self.kept.push(NamedFile {
                name: Items::from_slice(alloc, name)?,
                bytes: Items::from_slice(alloc, bytes)?,
            })?;
        }
        Ok(())
    }
}

impl<F: Files> Files for KeptFiles<F> {
    ghost shelf = { λ kept. record { files = None; failures = kept.counts.failures; endless = kept.counts.endless } };

    fn read(&mut self, alloc: Global, name: &[u8]) -> Result<Option<Items<u8>>, FileFault> {
        if let Some(file) = self.find_kept_file(name) {
            let bytes = file.bytes.as_slice();
            if bytes.len() <= TEXT_LIMIT + 1 {
                return Ok(Some(Items::from_slice(alloc, bytes)?));
            }
        }
        let bytes = match self.files.read(alloc, name) {
            Ok(Some(bytes)) => bytes,
            Ok(None) => return Ok(None),
            Err(fault) => return Err(self.counts.count_device_fault(fault)),
        };
        self.keep_bytes(alloc, name, bytes.as_slice())?;
        Ok(Some(bytes))
    }

    fn names(&mut self, alloc: Global, dir: &[u8]) -> Result<Vec<Items<u8>>, FileFault> {
        match self.files.names(alloc, dir) {
            Ok(names) => Ok(names),
            Err(fault) => Err(self.counts.count_device_fault(fault)),
        }
    }

    fn list_included_names(
        &mut self,
        alloc: Global,
        dir: &[u8],
    ) -> Result<Vec<Items<u8>>, FileFault> {
        match self.files.list_included_names(alloc, dir) {
            Ok(names) => Ok(names),
            Err(fault) => Err(self.counts.count_device_fault(fault)),
        }
    }

    fn list_skipped_names(
        &mut self,
        alloc: Global,
        dir: &[u8],
    ) -> Result<Option<Vec<Items<u8>>>, FileFault> {
        match self.files.list_skipped_names(alloc, dir) {
            Ok(names) => Ok(names),
            Err(fault) => Err(self.counts.count_device_fault(fault)),
        }
    }

    fn failures(&self) -> u64 {
        self.counts.failures
    }
}
