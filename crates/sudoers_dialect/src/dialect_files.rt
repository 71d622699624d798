//! Files whose texts are read in a dialect.

ghost use Rattle.std.specs.Prelude.{◌≡◌};
ghost use Rattle.sudoers_dialect.specs.Files.{files_in_dialect};

use crate::dialect::Dialect;
use std::alloc::Global;
use sudoers_files::{FileFault, Files};
use sudoers_tree::Items;

/// The files of another source, each with what its text says in a dialect.
#[derive(Drop)]
pub struct DialectFiles<F> {
    files: F,
    dialect: Dialect,
}

impl<F: Files> DialectFiles<F> {
    /// Returns the files `files`, each with what its text says in the dialect `dialect`.
    pub fn new(files: F, dialect: Dialect) -> DialectFiles<F>
        ensures { result ≡ record { files = files; dialect = dialect } }
    {
        DialectFiles { files, dialect }
    }

    /// Sets the dialect to `dialect`.
    pub fn set_dialect(&mut self, dialect: Dialect)
        ensures { self.new ≡ record self.old { dialect = dialect } }
    {
        self.dialect = dialect;
    }

    /// Returns the files, whose texts are as they stand.
    pub fn files(&self) -> &F
        ensures { result.now ≡ self.now.files }
    {
        &self.files
    }
}

impl<F: Files> Files for DialectFiles<F> {
    ghost shelf = { λ all. files_in_dialect all.dialect (F.shelf all.files) };

    fn read(&mut self, alloc: Global, name: &[u8]) -> Result<Option<Items<u8>>, FileFault> {
        match self.files.read(alloc, name)? {
            Some(front) => {
                let adapted = self.dialect.adapt_front(alloc, front)?;
                Ok(Some(adapted))
            }
            None => Ok(None),
        }
    }

    fn names(&mut self, alloc: Global, dir: &[u8]) -> Result<Vec<Items<u8>>, FileFault> {
        self.files.names(alloc, dir)
    }

    fn list_included_names(
        &mut self,
        alloc: Global,
        dir: &[u8],
    ) -> Result<Vec<Items<u8>>, FileFault> {
        self.files.list_included_names(alloc, dir)
    }

    fn list_skipped_names(
        &mut self,
        alloc: Global,
        dir: &[u8],
    ) -> Result<Option<Vec<Items<u8>>>, FileFault> {
        self.files.list_skipped_names(alloc, dir)
    }

    fn failures(&self) -> u64 {
        self.files.failures()
    }
}
