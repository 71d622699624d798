//! Gathering the files of a policy, from its root on.

ghost use Rattle.std.specs.Prelude.{◌≡◌, ◌⊎◌, ◌++◌, ◌∷◌, [], List, Some, Ok, Err, IfErr, IfOk, MatchResult, OnOk};
ghost use Rattle.sudoers_tree.specs.declared.named_files.NamedFile.{NamedFile as NamedFileOf};
ghost use Rattle.sudoers_files.specs.Gather.{IsGatherDeviceOutcome, IsFaultOfDeviceOrMemory, gathered_files_or_fault, gathered_with_file_and_includes, gathered_after_file_visit, gathered_after_file_visits};
ghost use Rattle.sudoers_files.specs.Included.{file_names_included_by_lines, file_names_of_lead};
ghost use Rattle.sudoers_files.specs.Folder.{sorted_file_names_in_folder};
ghost use Rattle.sudoers_tree.specs.Lead.{include_lead_of_line};
ghost use Rattle.sudoers_files.specs.Shelf.{named_file_bytes_truncated_past_limit, included_base_names_in};
ghost use Rattle.sudoers_files.specs.internal.Gathering.{AreFilesOfFoldersFoundOrMissing, IsGatherStepOutcome};

use crate::fault::GatherFault;
use crate::files_trait::Files;
use crate::include_lines::cut_include_lines_or_none;
use crate::sorted_names_in_folder::sort_bases_and_join_folder;
use std::alloc::Global;
use std::collections::BTreeSet;
use sudoers_tree::{FILE_LIMIT, Items, Lead, NamedFile, has_file_named, leads};

/// Returns the policy file `root` and the files to which it leads, by itself or through others (sudoers(5), Including other files from
/// within sudoers). Each comes once, in the order of the include lines. Missing files are left out. A file that cannot be cut into
/// lines leads nowhere.
///
/// # Errors
///
/// `NoRoot`: the root is missing. `Device`: a file or a folder cannot be read. `TooManyFiles`: there are more than 256 files.
/// `NoMemory`: memory ran out.
pub fn gather<F: Files>(
    alloc: Global,
    root: &[u8],
    files: &mut F,
) -> Result<Vec<NamedFile>, GatherFault>
    // If the files are known, the result is what `gathered_files_or_fault` computes of them, or a fault of the device or of memory.
    ensures gathers { (known : List NamedFileOf) → (F.shelf files.old).files ≡ Some known
        → MatchResult result (λ found. gathered_files_or_fault known root.now ≡ Ok found.items) (λ fault. IsFaultOfDeviceOrMemory fault ⊎ (gathered_files_or_fault known root.now ≡ Err fault)) }
    // The files do not change. `Device` is returned only if a call of them failed, or reported no end.
    ensures asks { IsGatherDeviceOutcome result (F.shelf files.old) (F.shelf files.new) }
{
    let Some(bytes) = read_file_for_gathering(alloc, files, root)? else {
        return Err(GatherFault::NoRoot);
    };
    let mut gathered = GatheredFilesAndFolders::new(alloc);
    gather_file_and_includes(alloc, FILE_LIMIT, files, root, bytes, &mut gathered)?;
    Ok(gathered.found)
}

/// The files that are gathered so far.
#[derive(Drop)]
struct GatheredFilesAndFolders {
    found: Vec<NamedFile>,
    /// Folders each of whose files is among these, or missing.
    folders: BTreeSet<Vec<u8>>,
}

impl GatheredFilesAndFolders {
    /// Returns no files.
    fn new(alloc: Global) -> GatheredFilesAndFolders
        ensures { (result.found.items ≡ []) × (result.folders.keys ≡ []) }
    {
        GatheredFilesAndFolders {
            found: Vec::new(alloc),
            folders: BTreeSet::new(alloc),
        }
    }
}

/// Returns the bytes of the file `name`, as [`Files::read_file_for_gathering`] does.
fn read_file_for_gathering<F: Files>(
    alloc: Global,
    files: &mut F,
    name: &[u8],
) -> Result<Option<Items<u8>>, GatherFault>
    ensures told { (known : List NamedFileOf) → (F.shelf files.old).files ≡ Some known
        → IfOk result (λ bytes. bytes ≡ named_file_bytes_truncated_past_limit name.now known) }
    ensures asks { IsGatherDeviceOutcome result (F.shelf files.old) (F.shelf files.new) }
    ensures named { IfErr result IsFaultOfDeviceOrMemory }
{
    Ok(files.read(alloc, name)?)
}

#[cycle(gather)]
/// Appends the file `name` with the bytes `bytes` to the files that are gathered, and then the files to which it leads. Below it files may
/// be nested `left` levels deep.
fn gather_file_and_includes<F: Files>(
    alloc: Global,
    left: usize,
    files: &mut F,
    name: &[u8],
    bytes: Items<u8>,
    gathered: &mut GatheredFilesAndFolders,
) -> Result<(), GatherFault>
    ensures comes { (known : List NamedFileOf) → (F.shelf files.old).files ≡ Some known → AreFilesOfFoldersFoundOrMissing known gathered.old.found.items gathered.old.folders
        → IsGatherStepOutcome result gathered.new.found.items (gathered_with_file_and_includes (gathered_after_file_visit left known) known gathered.old.found.items (record { name = name.now; bytes = bytes })) }
    ensures settles { (known : List NamedFileOf) → (F.shelf files.old).files ≡ Some known → AreFilesOfFoldersFoundOrMissing known gathered.old.found.items gathered.old.folders
        → OnOk result (AreFilesOfFoldersFoundOrMissing known gathered.new.found.items gathered.new.folders) }
    ensures asks { IsGatherDeviceOutcome result (F.shelf files.old) (F.shelf files.new) }
{
    let lines = cut_include_lines_or_none(alloc, name, bytes.as_slice())?;
    gathered.found.push(NamedFile {
        name: Items::from_slice(alloc, name)?,
        bytes,
    })?;
    for line in lines.as_slice() {
        gather_includes_of_line(alloc, left, files, name, line.as_slice(), gathered)?;
    }
    Ok(())
}

#[cycle(gather)]
/// Appends the files to which the line `line` of the file `name` leads, and those to which they lead. They may be nested `left` levels
/// deep.
fn gather_includes_of_line<F: Files>(
    alloc: Global,
    left: usize,
    files: &mut F,
    name: &[u8],
    line: &[u8],
    gathered: &mut GatheredFilesAndFolders,
) -> Result<(), GatherFault>
    ensures comes { (known : List NamedFileOf) → (F.shelf files.old).files ≡ Some known → AreFilesOfFoldersFoundOrMissing known gathered.old.found.items gathered.old.folders
        → IsGatherStepOutcome result gathered.new.found.items (gathered_after_file_visits (gathered_after_file_visit left known) gathered.old.found.items (file_names_of_lead known (include_lead_of_line name.now line.now))) }
    ensures settles { (known : List NamedFileOf) → (F.shelf files.old).files ≡ Some known → AreFilesOfFoldersFoundOrMissing known gathered.old.found.items gathered.old.folders
        → OnOk result (AreFilesOfFoldersFoundOrMissing known gathered.new.found.items gathered.new.folders) }
    ensures asks { IsGatherDeviceOutcome result (F.shelf files.old) (F.shelf files.new) }
{
    match leads(alloc, name, line)? {
        None => Ok(()),
        Some(Lead::File(name)) => gather_named_file(alloc, left, files, name.as_slice(), gathered),
        Some(Lead::Dir(dir)) => gather_included_folder(
            alloc,
            left,
            files,
            dir.as_slice(),
            gathered,
        ),
    }
}

#[cycle(gather)]
/// Appends the files that an include of the folder `dir` reads, and those to which they lead. They may be nested `left` levels deep.
/// Does not list a folder of which no file is left.
fn gather_included_folder<F: Files>(
    alloc: Global,
    left: usize,
    files: &mut F,
    dir: &[u8],
    gathered: &mut GatheredFilesAndFolders,
) -> Result<(), GatherFault>
    ensures comes { (known : List NamedFileOf) → (F.shelf files.old).files ≡ Some known → AreFilesOfFoldersFoundOrMissing known gathered.old.found.items gathered.old.folders
        → IsGatherStepOutcome result gathered.new.found.items (gathered_after_file_visits (gathered_after_file_visit left known) gathered.old.found.items (sorted_file_names_in_folder dir.now (included_base_names_in dir.now known))) }
    ensures settles { (known : List NamedFileOf) → (F.shelf files.old).files ≡ Some known → AreFilesOfFoldersFoundOrMissing known gathered.old.found.items gathered.old.folders
        → OnOk result (AreFilesOfFoldersFoundOrMissing known gathered.new.found.items gathered.new.folders) }
    ensures asks { IsGatherDeviceOutcome result (F.shelf files.old) (F.shelf files.new) }
{
    let folder = Vec::from_slice(alloc, dir)?;
    if gathered.folders.contains(&folder) {
        return Ok(());
    }
    let bases = files.list_included_names(alloc, dir)?;
    let names = sort_bases_and_join_folder(alloc, dir, bases.as_slice())?;
    for name in names.as_slice() {
        gather_named_file(alloc, left, files, name.as_slice(), gathered)?;
    }
    gathered.folders.insert(folder)?;
    Ok(())
}

#[cycle(gather)]
/// Appends the file `name` and the files to which it leads, where files may be nested `left` levels deeper. Appends nothing if the file is
/// missing, or gathered already.
fn gather_named_file<F: Files>(
    alloc: Global,
    left: usize,
    files: &mut F,
    name: &[u8],
    gathered: &mut GatheredFilesAndFolders,
) -> Result<(), GatherFault>
    ensures comes { (known : List NamedFileOf) → (F.shelf files.old).files ≡ Some known → AreFilesOfFoldersFoundOrMissing known gathered.old.found.items gathered.old.folders
        → IsGatherStepOutcome result gathered.new.found.items (gathered_after_file_visit left known gathered.old.found.items name.now) }
    ensures settles { (known : List NamedFileOf) → (F.shelf files.old).files ≡ Some known → AreFilesOfFoldersFoundOrMissing known gathered.old.found.items gathered.old.folders
        → OnOk result (AreFilesOfFoldersFoundOrMissing known gathered.new.found.items gathered.new.folders) }
    ensures asks { IsGatherDeviceOutcome result (F.shelf files.old) (F.shelf files.new) }
{
    if has_file_named(gathered.found.as_slice(), name) {
        return Ok(());
    }
    let Some(bytes) = read_file_for_gathering(alloc, files, name)? else {
        return Ok(());
    };
    if left == 0 || gathered.found.len() >= FILE_LIMIT {
        return Err(GatherFault::TooManyFiles);
    }
    gather_file_and_includes(alloc, left - 1, files, name, bytes, gathered)
}
