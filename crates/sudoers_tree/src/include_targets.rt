//! The files to which an include line leads.

ghost use Rattle.std.specs.Prelude.{◌≡◌, IfOk, MatchOption, OnOk, Some, None};
ghost use Rattle.sudoers_grammar.specs.Piece.{has_byte};
ghost use Rattle.sudoers_tree.specs.internal.Files.{parsed_files_of_view};
ghost use Rattle.sudoers_tree.specs.Targets.{base_name_of_file_name, ends_in_tilde, included_files_of_folder, is_includable_base_name, is_file_name_before, is_includable_from_folder, number_of_first_file_named, file_inserted_in_name_order, targets_of_lead};

use crate::files::FilesInTables;
use crate::include_leads::{Lead, folder_of};
use memchr::{memchr, memrchr};
use std::alloc::{AllocError, Global};
use std::cmp::Ordering;

/// Returns whether `byte` is among `bytes`.
fn has_byte(byte: u8, bytes: &[u8]) -> bool
    ensures { result ≡ has_byte byte bytes.now }
{
    memchr(byte, bytes).is_some()
}

/// Returns whether the last byte of `name` is `~`.
fn ends_in_tilde(name: &[u8]) -> bool
    ensures { result ≡ ends_in_tilde name.now }
{
    match name.split_last() {
        Some((last, _)) => *last == b'~',
        None => false,
    }
}

/// Returns whether an include of a folder leads to a file of the name `base` in it: one without `/` and `.` that does not end in `~`
/// (sudoers(5), Including other files from within sudoers).
pub fn is_included_base_name(base: &[u8]) -> bool
    ensures { result ≡ is_includable_base_name base.now }
{
    !has_byte(b'/', base) && !has_byte(b'.', base) && !ends_in_tilde(base)
}

/// Returns `name` without its folder, which ends in the last `/`.
pub fn base_name_of_path(name: &[u8]) -> &[u8]
    ensures { result.now ≡ base_name_of_file_name name.now }
{
    match memrchr(b'/', name) {
        Some(at) => &name[at + 1..],
        None => name,
    }
}

/// Returns whether an include of a folder leads to the file `name`. The name of the folder, `folder`, ends in `/`.
fn is_included_from_folder(folder: &[u8], name: &[u8]) -> bool
    ensures { result ≡ is_includable_from_folder folder.now name.now }
{
    folder_of(name) == folder && is_included_base_name(base_name_of_path(name))
}

/// Returns the number, from 0, of the first file with the name `name`. Returns nothing if there is none.
fn number_of_file_named(files: &FilesInTables<'_>, name: &[u8]) -> Option<usize>
    ensures { result ≡ number_of_first_file_named name.now 0 (parsed_files_of_view files.now) }
{
    for number in 0..files.len() {
        if name == files.file_name_at(number) {
            return Some(number);
        }
    }
    None
}

/// Returns whether the name of the file `file` stands before that of the file `other` in the order of their bytes.
fn has_file_name_before(files: &FilesInTables<'_>, file: usize, other: usize) -> bool
    ensures { result ≡ is_file_name_before (parsed_files_of_view files.now) file other }
{
    files.file_name_at(file).cmp(files.file_name_at(other)) == Ordering::Less
}

/// Inserts the file `file` into `order`, whose files are in the order of their names.
fn insert_file_by_name(
    files: &FilesInTables<'_>,
    file: usize,
    order: &mut Vec<usize>,
) -> Result<(), AllocError>
    ensures { OnOk result (order.new.items ≡ file_inserted_in_name_order (parsed_files_of_view files.now) file order.old.items) }
{
    for at in 0..order.len() {
        if has_file_name_before(files, file, order[at]) {
            order.insert(at, file)?;
            return Ok(());
        }
    }
    order.push(file)?;
    Ok(())
}

/// Returns the numbers of the files to which an include of the folder `folder` leads, in the order of their names. The name of the folder
/// ends in `/`.
fn find_files_included_from_folder(
    alloc: Global,
    files: &FilesInTables<'_>,
    folder: &[u8],
) -> Result<Vec<usize>, AllocError>
    ensures { IfOk result (λ inner. inner.items ≡ included_files_of_folder (parsed_files_of_view files.now) folder.now 0 (parsed_files_of_view files.now)) }
{
    let mut inner = Vec::new(alloc);
    let mut number = files.len();
    while number > 0 {
        number -= 1;
        if is_included_from_folder(folder, files.file_name_at(number)) {
            insert_file_by_name(files, number, &mut inner)?;
        }
    }
    Ok(inner)
}

/// Returns the numbers of the files to which `lead` leads. Returns nothing if a named file is missing.
///
/// # Errors
///
/// Memory ran out.
pub fn find_lead_targets(
    alloc: Global,
    files: &FilesInTables<'_>,
    lead: &Lead,
) -> Result<Option<Vec<usize>>, AllocError>
    ensures { IfOk result (λ inner. MatchOption inner (targets_of_lead (parsed_files_of_view files.now) lead.now ≡ None)
        (λ inner. targets_of_lead (parsed_files_of_view files.now) lead.now ≡ Some inner.items)) }
{
    match lead {
        Lead::File(name) => {
            let Some(file) = number_of_file_named(files, name.as_slice()) else {
                return Ok(None);
            };
            let mut inner = Vec::new(alloc);
            inner.push(file)?;
            Ok(Some(inner))
        }
        Lead::Dir(dir) => {
            let mut folder = Vec::from_slice(alloc, dir.as_slice())?;
            folder.push(b'/')?;
            Ok(Some(find_files_included_from_folder(alloc, files, folder.as_slice())?))
        }
    }
}
