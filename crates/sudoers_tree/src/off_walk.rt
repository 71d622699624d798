//! Files that are not on a walk.

ghost use Rattle.std.specs.Prelude.{◌≡◌, ◌⊎◌, nat_eq, MatchResult, Ok, Err};
ghost use Rattle.std.specs.List.{list_any};
ghost use Rattle.sudoers_tree.specs.declared.load_fault.LoadFault.TheVariants.{InFile, NoMemory};
ghost use Rattle.sudoers_tree.specs.Files.{name_of_numbered_file};
ghost use Rattle.sudoers_tree.specs.Load.{walk_or_unreached_file_fault};
ghost use Rattle.sudoers_tree.specs.Walk.{WalkState};
ghost use Rattle.sudoers_tree.specs.internal.Files.{parsed_files_of_view};

use crate::fault::ReadFault;
use crate::files::FilesInTables;
use crate::load_fault::LoadFault;
use std::alloc::Global;
use sudoers_grammar::Items;

/// Returns `fault` as a fault of the file with the number `file`. Returns `NoMemory` if memory ran out.
pub fn make_load_fault_in_file(
    alloc: Global,
    files: &FilesInTables<'_>,
    file: usize,
    fault: ReadFault,
) -> LoadFault
    ensures { (result ≡ NoMemory) ⊎ (result ≡ InFile (name_of_numbered_file (parsed_files_of_view files.now) file) fault) }
{
    match Items::from_slice(alloc, files.file_name_at(file)) {
        Ok(file) => LoadFault::InFile { file, fault },
        Err(_) => LoadFault::NoMemory,
    }
}

/// Returns whether the number `file` is one of `files`.
pub fn is_file_number_among(files: &[usize], file: usize) -> bool
    ensures { result ≡ list_any (nat_eq file) files.now }
{
    files.contains(&file)
}

/// Returns the first fault of those of the files `files` that are not on the walk, if there is one. The walk has the files `on`.
pub fn check_unreached_files(
    alloc: Global,
    files: &FilesInTables<'_>,
    on: &[usize],
) -> Result<(), LoadFault>
    ensures { (w : WalkState) → w.on ≡ on.now → MatchResult result
        (λ _. walk_or_unreached_file_fault w 0 (parsed_files_of_view files.now) ≡ Ok w)
        (λ fault. (fault ≡ NoMemory) ⊎ (walk_or_unreached_file_fault w 0 (parsed_files_of_view files.now) ≡ Err fault)) }
{
    for file in 0..files.len() {
        if is_file_number_among(on, file) {
            continue;
        }
        if let Some(fault) = files.fault_of_unreached_file(alloc, file)? {
            return Err(make_load_fault_in_file(alloc, files, file, fault));
        }
    }
    Ok(())
}
