//! Gathering the files of a policy.

ghost use Rattle.std.specs.Prelude.{◌≡◌, ◌⊎◌, List, Some, Ok, Err, MatchResult};
ghost use Rattle.sudoers_tree.specs.declared.named_files.NamedFile.{NamedFile as NamedFileOf};
ghost use Rattle.sudoers_files.specs.Gather.{IsFaultOfDeviceOrMemory, gathered_files_or_fault};

use std::alloc::Global;
use sudoers_files::{FileFault, Files, GatherFault, gather};
use sudoers_tree::{Items, NamedFile};

/// Files, each call of which is passed on.
#[derive(Drop)]
pub struct Passed<F> {
    files: F,
}

impl<F: Files> Passed<F> {
    /// Returns the files `files`.
    pub fn new(files: F) -> Passed<F>
        ensures { result.files ≡ files }
    {
        Passed { files }
    }
}

impl<F: Files> Files for Passed<F> {
    ghost shelf = { λ passed. F.shelf passed.files };

    fn read(&mut self, alloc: Global, name: &[u8]) -> Result<Option<Items<u8>>, FileFault> {
        self.files.read(alloc, name)
    }

    fn names(&mut self, alloc: Global, dir: &[u8]) -> Result<Vec<Items<u8>>, FileFault> {
        self.files.names(alloc, dir)
    }

    fn list_included_names(
        &mut self,
        alloc: Global,
        dir: &[u8],
    ) -> Result<Vec<Items<u8>>, FileFault> {
        self.files.list_included_names(alloc, dir)
    }

    fn list_skipped_names(
        &mut self,
        alloc: Global,
        dir: &[u8],
    ) -> Result<Option<Vec<Items<u8>>>, FileFault> {
        self.files.list_skipped_names(alloc, dir)
    }

    fn failures(&self) -> u64 {
        self.files.failures()
    }
}

/// Returns the files of the policy `root`.
///
/// # Errors
///
/// Those of `gather`.
pub fn gather_files<F: Files>(
    alloc: Global,
    files: &mut F,
    root: &[u8],
) -> Result<Vec<NamedFile>, GatherFault>
    ensures gathers { (known : List NamedFileOf) → (F.shelf files.old).files ≡ Some known
        → MatchResult result (λ found. gathered_files_or_fault known root.now ≡ Ok found.items) (λ fault. IsFaultOfDeviceOrMemory fault ⊎ (gathered_files_or_fault known root.now ≡ Err fault)) }
{
    match gather(alloc, root, files) {
        Ok(found) => Ok(found),
        Err(fault) => Err(fault),
    }
}
