//! What the include lines of a policy's files do not read.

ghost use Rattle.std.specs.Prelude.{◌≡◌, ◌++◌, List, Some, map, IfErr, IfOk, OnOk};
ghost use Rattle.sudoers_tree.specs.declared.named_files.NamedFile.{NamedFile as NamedFileOf};
ghost use Rattle.sudoers_tree.specs.Lead.{include_lead_of_line};
ghost use Rattle.sudoers_files.specs.Gather.{IsGatherDeviceOutcome, IsFaultOfDeviceOrMemory};
ghost use Rattle.sudoers_files.specs.Included.{names_from_include_leads_of_lines};
ghost use Rattle.sudoers_files.specs.Shelf.{unread_base_names_in};
ghost use Rattle.sudoers_files.specs.declared.unread_includes.MissingFolderOrSkippedFile.TheVariants.{File};
ghost use Rattle.sudoers_files.specs.Unread.{folder_of_lead, folders_included_by_files, unread_includes_of_files, unread_includes_of_folder_listing};

use crate::fault::GatherFault;
use crate::files_trait::Files;
use crate::include_lines::cut_include_lines_or_none;
use crate::sorted_names_in_folder::{sort_bases_and_join_folder, sort_unique_names};
use std::alloc::{AllocError, Global};
use sudoers_tree::{Items, Lead, NamedFile, leads};

/// What an include line does not read.
#[derive(Debug, Drop)]
pub enum MissingFolderOrSkippedFile {
    /// The folder of this name, because it is missing.
    Folder(Items<u8>),
    /// The file of this name, because an include of its folder skips it.
    File(Items<u8>),
}

/// Returns what the include lines of the policy files `found` do not read, folder by folder in the order of their names (sudoers(5),
/// Including other files from within sudoers). In an included folder these are the names that contain `.` or end in `~`, and those of no
/// regular file.
///
/// # Errors
///
/// `Device`: a folder cannot be read. `NoMemory`: memory ran out.
pub fn find_missing_folders_and_skipped_files<F: Files>(
    alloc: Global,
    files: &mut F,
    found: &[NamedFile],
) -> Result<Vec<MissingFolderOrSkippedFile>, GatherFault>
    // If the files are known, the result is what the definition `unread` computes of them.
    ensures lists { (known : List NamedFileOf) → (F.shelf files.old).files ≡ Some known → IfOk result (λ all. all.items ≡ unread_includes_of_files known found.now) }
    // The files do not change. `Device` is returned only if a call of them failed, or reported no end.
    ensures asks { IsGatherDeviceOutcome result (F.shelf files.old) (F.shelf files.new) }
    ensures named { IfErr result IsFaultOfDeviceOrMemory }
{
    let folders = included_folders_of(alloc, found)?;
    let mut order = sort_unique_names(alloc, folders.as_slice())?;
    let mut all = Vec::new(alloc);
    while let Some(dir) = order.pop_first() {
        append_unread_includes_of_folder(alloc, files, dir.as_slice(), &mut all)?;
    }
    Ok(all)
}

/// Returns the folders that the lines of the files `found` include.
fn included_folders_of(alloc: Global, found: &[NamedFile]) -> Result<Vec<Items<u8>>, AllocError>
    ensures { IfOk result (λ folders. folders.items ≡ folders_included_by_files found.now) }
{
    let mut folders = Vec::new(alloc);
    for file in found {
        let name = file.name.as_slice();
        let lines = cut_include_lines_or_none(alloc, name, file.bytes.as_slice())?;
        append_folders_of_lines(alloc, name, lines.as_slice(), &mut folders)?;
    }
    Ok(folders)
}

/// Appends to `folders` the folders that the lines `lines` of the file `name` include.
fn append_folders_of_lines(
    alloc: Global,
    name: &[u8],
    lines: &[Items<u8>],
    folders: &mut Vec<Items<u8>>,
) -> Result<(), AllocError>
    ensures { OnOk result (folders.new.items ≡ folders.old.items ++ names_from_include_leads_of_lines folder_of_lead name.now lines.now) }
{
    for line in lines {
        append_folder_of_line(alloc, name, line.as_slice(), folders)?;
    }
    Ok(())
}

/// Appends to `folders` the folder that the line `line` of the file `name` includes, if it includes one.
fn append_folder_of_line(
    alloc: Global,
    name: &[u8],
    line: &[u8],
    folders: &mut Vec<Items<u8>>,
) -> Result<(), AllocError>
    ensures { OnOk result (folders.new.items ≡ folders.old.items ++ folder_of_lead (include_lead_of_line name.now line.now)) }
{
    if let Some(Lead::Dir(dir)) = leads(alloc, name, line)? {
        folders.push(dir)?;
    }
    Ok(())
}

/// Appends to `all` what an include of the folder `dir` does not read.
fn append_unread_includes_of_folder<F: Files>(
    alloc: Global,
    files: &mut F,
    dir: &[u8],
    all: &mut Vec<MissingFolderOrSkippedFile>,
) -> Result<(), GatherFault>
    ensures lists { (known : List NamedFileOf) → (F.shelf files.old).files ≡ Some known
        → OnOk result (all.new.items ≡ all.old.items ++ unread_includes_of_folder_listing dir.now (unread_base_names_in dir.now known)) }
    ensures asks { IsGatherDeviceOutcome result (F.shelf files.old) (F.shelf files.new) }
    ensures named { IfErr result IsFaultOfDeviceOrMemory }
{
    let Some(bases) = files.list_skipped_names(alloc, dir)? else {
        all.push(MissingFolderOrSkippedFile::Folder(Items::from_slice(alloc, dir)?))?;
        return Ok(());
    };
    append_unread_files(
        sort_bases_and_join_folder(alloc, dir, bases.as_slice())?,
        all,
    )?;
    Ok(())
}

/// Appends the files `names` to `all`.
fn append_unread_files(
    names: Vec<Items<u8>>,
    all: &mut Vec<MissingFolderOrSkippedFile>,
) -> Result<(), AllocError>
    ensures { OnOk result (all.new.items ≡ all.old.items ++ map File names.items) }
{
    for name in names {
        all.push(MissingFolderOrSkippedFile::File(name))?;
    }
    Ok(())
}
