//! The files of a policy, with their bytes.

ghost use Rattle.std.specs.Prelude.{◌≡◌, ◌⊎◌, [], List, ℕ, map, IfOk, MatchResult, Result, Ok, Err};
ghost use Rattle.std.specs.List.{All};
ghost use Rattle.sudoers_line_rows.specs.Tables.{TablesHaveGrown};
ghost use Rattle.sudoers_text.specs.Cut.{IsOutcomeUnlessNoMemory, cut_outcome_of_text};
ghost use Rattle.sudoers_text.specs.declared.fault.TextFault.{TextFault as TextFaultOf};
ghost use Rattle.sudoers_tree.specs.declared.load_fault.LoadFault.TheVariants.{NoMemory};
ghost use Rattle.sudoers_tree.specs.Load.{parsed_file_of_cut_or_fault, first_repeated_file_name, has_file_with_name, parsed_files_or_cut_fault};
ghost use Rattle.sudoers_tree.specs.internal.Files.{HasSoundFileRows, IsFileReadOutcome, parsed_file_of_rows};

use crate::fault::ReadFault;
use crate::files::ParsedFileRows;
use crate::load_fault::LoadFault;
use crate::reading::read_lines_until_fault;
use std::alloc::{AllocError, Global};
use sudoers_grammar::Items;
use sudoers_line_rows::Tables;
use sudoers_text::{TextFault, cut};

/// How many files a policy may have.
pub const FILE_LIMIT: usize = 256;

/// A file of a policy: its name and its bytes.
#[derive(Drop)]
pub struct NamedFile {
    pub name: Items<u8>,
    pub bytes: Items<u8>,
}

/// Returns a copy of the first name of the files `files` that an earlier file has too.
pub fn find_repeated_file_name(
    alloc: Global,
    files: &[NamedFile],
) -> Result<Option<Items<u8>>, AllocError>
    ensures { IfOk result (λ name. name ≡ first_repeated_file_name [] files.now) }
{
    for (number, file) in files.iter().enumerate() {
        let name = file.name.as_slice();
        if has_file_named(&files[..number], name) {
            return Ok(Some(Items::from_slice(alloc, name)?));
        }
    }
    Ok(None)
}

/// Returns whether one of the files `files` has the name `name`.
pub fn has_file_named(files: &[NamedFile], name: &[u8]) -> bool
    ensures { result ≡ has_file_with_name name.now files.now }
{
    for file in files {
        if name == file.name.as_slice() {
            return true;
        }
    }
    false
}

/// Reads the files `files` into `tables`. If the text of a file cannot be cut into lines, returns the fault of the first such file.
pub fn read_files_into_tables_until_fault(
    alloc: Global,
    tables: &mut Tables,
    files: &[NamedFile],
) -> Result<Vec<ParsedFileRows>, LoadFault>
    ensures { MatchResult result (λ read. (parsed_files_or_cut_fault [] files.now ≡ Ok (map (parsed_file_of_rows tables.new) read.items)) × All (HasSoundFileRows tables.new) read.items)
        (λ fault. (fault ≡ NoMemory) ⊎ (parsed_files_or_cut_fault [] files.now ≡ Err fault)) }
{
    let mut read = Vec::with_capacity(alloc, files.len())?;
    for file in files {
        read.push(read_file_into_tables(alloc, tables, file)?)?;
    }
    Ok(read)
}

/// Reads the file `file` into `tables`. Returns its fault, if its text cannot be cut into lines.
fn read_file_into_tables(
    alloc: Global,
    tables: &mut Tables,
    file: &NamedFile,
) -> Result<ParsedFileRows, LoadFault>
    ensures grown { TablesHaveGrown tables.old tables.new }
    ensures read { IsFileReadOutcome result tables.new (parsed_file_of_cut_or_fault file.now.name (cut_outcome_of_text file.now.bytes)) }
{
    let name = Items::from_slice(alloc, file.name.as_slice())?;
    match cut(alloc, file.bytes.as_slice()) {
        Ok(lines) => {
            let mut rows = Vec::with_capacity(alloc, lines.len())?;
            let fault = read_lines_until_fault(alloc, tables, &lines, &mut rows)?;
            Ok(ParsedFileRows {
                name,
                rows,
                fault,
                bytes: file.bytes.len(),
            })
        }
        Err(fault) => Err(load_fault_of_text_fault(name, fault)),
    }
}

/// Returns the fault `fault` of the cut of a text as one of the file `file`.
pub fn load_fault_of_text_fault(file: Items<u8>, fault: TextFault) -> LoadFault
    ensures { (outcome : Result (List (List ℕ)) TextFaultOf) → IsOutcomeUnlessNoMemory (Err fault) outcome
        → (result ≡ NoMemory) ⊎ (parsed_file_of_cut_or_fault file outcome ≡ Err result) }
{
    match fault {
        TextFault::NoMemory => LoadFault::NoMemory,
        fault => LoadFault::InFile {
            file,
            fault: ReadFault::Text(fault),
        },
    }
}
