//! The option `--also`: files that no line of the policy includes yet.

use crate::file_trouble::FileTrouble;
use crate::files::{Disk, file_name_of_text};
use crate::files_within_byte_budget::FilesWithinByteBudget;
use crate::terminal::print_error_line;
use clap::{Arg, ArgAction, ArgMatches};
use std::alloc::Global;
use sudoers_bundle::read_bundle;
use sudoers_files::{Files, FilesInMemory, GatherFault, gather};
use sudoers_grammar::Items;
use sudoers_run::{LayerFault, ToolFault};
use sudoers_tree::{LoadFault, NamedFile, has_file_named};

/// The option that names a further file.
pub const ALSO: &str = "NAME";

/// What is said of a file of `--also` that the edited policy does not read.
const OFF_WALK: &[u8] = b": no line of the edited policy includes this file";

/// Returns the option that names a file which no line includes yet.
pub fn make_also_option<'a>(alloc: Global) -> Arg<'a> {
    Arg::new(alloc, ALSO)
        .long("also")
        .action(ArgAction::Append)
        .help(
            "Add the file NAME, spelled as `show` spells it, behind the others, empty if it is missing; may stand more than once. A file that no line of the edited policy includes is named on standard error",
        )
}

/// Adds the files `names` to `found`, each empty if it is missing.
pub fn add_also_files(
    alloc: Global,
    files: &mut FilesWithinByteBudget<Disk>,
    names: &[&str],
    found: &mut Vec<NamedFile>,
) -> Result<(), FileTrouble> {
    for name in names {
        let file = read_also_file(alloc, files, name, found.as_slice())?;
        found.push(file)?;
    }
    Ok(())
}

/// Returns the file `name`, which is not among the files `found`.
fn read_also_file(
    alloc: Global,
    files: &mut FilesWithinByteBudget<Disk>,
    name: &str,
    found: &[NamedFile],
) -> Result<NamedFile, FileTrouble> {
    let name = file_name_of_text(alloc, name)?;
    if has_file_named(found, name.as_slice()) {
        let fault = LoadFault::SameName {
            file: Items::from_slice(alloc, name.as_slice())?,
        };
        let fault = ToolFault::Layer(LayerFault::Load(fault));
        return Err(FileTrouble::from_fault_in_file(alloc, name.as_slice(), fault));
    }
    let bytes = match files.read(alloc, name.as_slice()) {
        Ok(Some(bytes)) => bytes,
        Ok(None) => Items::new(alloc),
        Err(fault) => return Err(trouble_of_gather_fault(alloc, files, GatherFault::from(fault))),
    };
    Ok(NamedFile { name, bytes })
}

/// Tells of each file of `--also` to which no line of the edited policy `root` leads. `edited` is the inverse script and the bundle.
pub fn print_files_not_included(
    rt: &HostRuntime,
    words: &ArgMatches<'_>,
    root: &str,
    edited: &[u8],
) -> Result<(), FileTrouble> {
    let Some(names) = words.get_strs(ALSO) else {
        return Ok(());
    };
    let walked = gather_files_that_edited_policy_includes(rt.alloc(), root, edited)?;
    for name in names {
        if !has_file_named(walked.as_slice(), name.as_bytes()) {
            print_error_line(rt, &[name.as_bytes(), OFF_WALK])?;
        }
    }
    Ok(())
}

/// Returns the files of the edited policy `root` to which its lines lead. `edited` is the inverse script and the bundle.
fn gather_files_that_edited_policy_includes(
    alloc: Global,
    root: &str,
    edited: &[u8],
) -> Result<Vec<NamedFile>, FileTrouble> {
    let files = read_bundle(alloc, bundle_bytes_of_edit_output(edited)).map_err(ToolFault::from)?;
    let mut files = FilesInMemory::new(files);
    match gather(alloc, root.as_bytes(), &mut files) {
        Ok(walked) => Ok(walked),
        Err(fault) => Err(FileTrouble::from(LayerFault::from(fault))),
    }
}

/// Returns the bundle in `edited`, which has an inverse script before it. No line of a script begins with `%`.
fn bundle_bytes_of_edit_output(edited: &[u8]) -> &[u8] {
    let mut at: usize = 0;
    for line in edited.split(|byte| *byte == b'\n') {
        if line.starts_with(b"%") {
            break;
        }
        at = at.saturating_add(line.len()).saturating_add(1);
    }
    if at < edited.len() {
        &edited[at..]
    } else {
        b""
    }
}

/// Returns the error of files that cannot be gathered, with the name of the file or the folder that was asked for last.
pub fn trouble_of_gather_fault(
    alloc: Global,
    files: &FilesWithinByteBudget<Disk>,
    fault: GatherFault,
) -> FileTrouble {
    if files.is_byte_budget_exceeded() {
        return FileTrouble::from(ToolFault::InputTooLarge);
    }
    let named = matches!(fault, GatherFault::NoRoot | GatherFault::Device(_));
    let fault = ToolFault::Layer(LayerFault::from(fault));
    if named {
        return FileTrouble::from_fault_in_file(alloc, files.files().last_requested_name(), fault);
    }
    FileTrouble::from(fault)
}
