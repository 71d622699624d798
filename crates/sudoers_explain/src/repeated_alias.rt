//! Where an alias is defined that is defined more than once.

use crate::excerpts::PlaceInFile;
use crate::named_places::find_definitions;
use std::alloc::{AllocError, Global};
use sudoers_grammar::Kind;
use sudoers_tree::{LoadFault, NamedFile, ReadFault, is_same_kind};

/// What is printed behind the mark under a definition.
const LABEL: &[u8] = b"defined here";

/// The files of a policy, all their faults, and those of them that stand before the fault that is explained.
#[derive(Clone, Copy)]
pub struct KnownFaults<'a> {
    pub files: &'a [NamedFile],
    pub faults: &'a [LoadFault],
    pub earlier: &'a [LoadFault],
}

/// An alias that is defined more than once: its kind and its name.
#[derive(Clone, Copy)]
pub struct RepeatedAlias<'a> {
    pub kind: Kind,
    pub name: &'a [u8],
}

impl RepeatedAlias<'_> {
    /// Returns how many of the faults `faults` say that the file `file` defines the alias again.
    fn count_faults(&self, faults: &[LoadFault], file: &NamedFile) -> usize {
        let mut count: usize = 0;
        for found in faults {
            if let LoadFault::InFile { file: other, fault } = found
                && let ReadFault::Duplicate { kind, name } = fault
                && other.as_slice() == file.name.as_slice()
                && is_same_kind(*kind, self.kind)
                && name.as_slice() == self.name
            {
                count = count.saturating_add(1);
            }
        }
        count
    }

    /// Returns the place of the definition in the files of `known` that is no fault, since none stands before it.
    fn find_first_definition<'a>(
        &self,
        alloc: Global,
        known: KnownFaults<'a>,
    ) -> Result<Option<PlaceInFile<'a>>, AllocError> {
        for file in known.files {
            let places = find_definitions(alloc, file, self.kind, self.name)?;
            if places.len() > self.count_faults(known.faults, file) {
                return Ok(places.first().copied());
            }
        }
        Ok(None)
    }

    /// Appends an excerpt for the first definition of the alias in the files of `known`, and one for the definition in the file `file` that is
    /// the fault.
    ///
    /// # Errors
    ///
    /// Memory ran out.
    pub fn append_definitions(
        &self,
        alloc: Global,
        out: &mut Vec<u8>,
        known: KnownFaults<'_>,
        file: &NamedFile,
    ) -> Result<(), AllocError> {
        let mut number = self.count_faults(known.earlier, file);
        if let Some(first) = self.find_first_definition(alloc, known)? {
            first.append_excerpt(alloc, out, LABEL)?;
            if first.file.name.as_slice() == file.name.as_slice() {
                number = number.saturating_add(1);
            }
        }
        match find_definitions(alloc, file, self.kind, self.name)?.get(number) {
            Some(place) => place.append_excerpt(alloc, out, LABEL),
            None => Ok(()),
        }
    }
}
