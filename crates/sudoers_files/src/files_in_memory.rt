//! Files in memory.

ghost use Rattle.std.specs.Prelude.{◌≡◌, ◌++◌, ◌∷◌, [], Some, IfOk, MatchOption, None, not, if◌then◌else◌};
ghost use Rattle.std.specs.Str.{bytes_eq};
ghost use Rattle.sudoers_files.specs.Shelf.{named_file_bytes_truncated_past_limit, base_names_in_folder, unread_base_names_in, included_base_names_in};
ghost use Rattle.sudoers_tree.specs.Targets.{is_includable_base_name};
ghost use Rattle.std.specs.List.{filter};
ghost use Rattle.std.specs.Option.{option_map};

use crate::fault::FileFault;
use crate::files_trait::Files;
use std::alloc::{AllocError, Global};
use sudoers_text::TEXT_LIMIT;
use sudoers_tree::{Items, NamedFile, base_name_of_path, folder_of, is_included_base_name};

/// Files in memory. The name of a file gives its folder. Of two files with one name, the first counts.
#[derive(Drop)]
pub struct FilesInMemory {
    files: Vec<NamedFile>,
}

impl FilesInMemory {
    /// Returns the files `files`.
    pub fn new(files: Vec<NamedFile>) -> FilesInMemory
        ensures { result.files ≡ files }
    {
        FilesInMemory { files }
    }
}

impl Files for FilesInMemory {
    ghost shelf = { λ memory. record { files = Some memory.files.items; failures = 0; endless = 0 } };

    fn read(&mut self, alloc: Global, name: &[u8]) -> Result<Option<Items<u8>>, FileFault> {
        match find_file_bytes_truncated_past_limit(self.files.as_slice(), name) {
            Some(front) => Ok(Some(Items::from_slice(alloc, front)?)),
            None => Ok(None),
        }
    }

    fn names(&mut self, alloc: Global, dir: &[u8]) -> Result<Vec<Items<u8>>, FileFault> {
        Ok(list_base_names_in_folder(alloc, self.files.as_slice(), dir)?)
    }

    fn list_included_names(
        &mut self,
        alloc: Global,
        dir: &[u8],
    ) -> Result<Vec<Items<u8>>, FileFault> {
        let names = list_base_names_in_folder(alloc, self.files.as_slice(), dir)?;
        Ok(select_names_by_inclusion(alloc, names, true)?)
    }

    fn list_skipped_names(
        &mut self,
        alloc: Global,
        dir: &[u8],
    ) -> Result<Option<Vec<Items<u8>>>, FileFault> {
        let names = list_base_names_in_folder(alloc, self.files.as_slice(), dir)?;
        if names.is_empty() {
            return Ok(None);
        }
        Ok(Some(select_names_by_inclusion(alloc, names, false)?))
    }

    fn failures(&self) -> u64 {
        0
    }
}

/// Returns the bytes of the file `name`, up to the first past the limit of a text. Returns nothing if the file is missing.
fn find_file_bytes_truncated_past_limit<'a>(files: &'a [NamedFile], name: &[u8]) -> Option<&'a [u8]>
    ensures { MatchOption result (named_file_bytes_truncated_past_limit name.now files.now ≡ None) (λ front. named_file_bytes_truncated_past_limit name.now files.now ≡ Some front.now) }
{
    for file in files {
        if name == file.name.as_slice() {
            let bytes = file.bytes.as_slice();
            return Some(&bytes[..bytes.len().min(TEXT_LIMIT + 1)]);
        }
    }
    None
}

/// Returns whether `folder` is `dir` followed by `/`.
fn is_folder_equal_to_dir_with_slash(folder: &[u8], dir: &[u8]) -> bool
    ensures { result ≡ bytes_eq folder.now (dir.now ++ 47 ∷ []) }
{
    match folder.split_last() {
        Some((last, front)) => *last == b'/' && front == dir,
        None => false,
    }
}

/// Returns the names, without their folder, of those files `files` that are in the folder `dir`.
fn list_base_names_in_folder(
    alloc: Global,
    files: &[NamedFile],
    dir: &[u8],
) -> Result<Vec<Items<u8>>, AllocError>
    ensures { IfOk result (λ names. names.items ≡ base_names_in_folder dir.now files.now) }
{
    let mut names = Vec::new(alloc);
    for file in files {
        let name = file.name.as_slice();
        if is_folder_equal_to_dir_with_slash(folder_of(name), dir) {
            names.push(Items::from_slice(alloc, base_name_of_path(name))?)?;
        }
    }
    Ok(names)
}

/// Returns those of the names `names` that an include of their folder reads, or with `read` false the others.
fn select_names_by_inclusion(
    alloc: Global,
    names: Vec<Items<u8>>,
    read: bool,
) -> Result<Vec<Items<u8>>, AllocError>
    ensures { IfOk result (λ bases. bases.items ≡ filter (λ base. if read then is_includable_base_name base else not (is_includable_base_name base)) names.items) }
{
    let mut bases = Vec::new(alloc);
    for name in names {
        if is_included_base_name(name.as_slice()) == read {
            bases.push(name)?;
        }
    }
    Ok(bases)
}
