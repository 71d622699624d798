//! Writing of bundles.

ghost use Rattle.std.specs.Prelude.{◌≡◌, ◌++◌, OnOk};
ghost use Rattle.sudoers_bundle.specs.Bundle.{bundle_of_files, header_of_file};

use crate::header_parts::MARK;
use std::alloc::{AllocError, Global};
use sudoers_text::append_decimal_number;
use sudoers_tree::NamedFile;

/// Appends the bundle of the files `files` to `out`.
///
/// # Errors
///
/// Memory ran out.
pub fn append_bundle(
    alloc: Global,
    out: &mut Vec<u8>,
    files: &[NamedFile],
) -> Result<(), AllocError>
    ensures { OnOk result (out.new.items ≡ out.old.items ++ bundle_of_files files.now) }
{
    for file in files {
        append_file_header(alloc, out, file)?;
        out.extend_from_slice(file.bytes.as_slice())?;
    }
    Ok(())
}

/// Appends the header of a file.
fn append_file_header(alloc: Global, out: &mut Vec<u8>, file: &NamedFile) -> Result<(), AllocError>
    ensures { OnOk result (out.new.items ≡ out.old.items ++ header_of_file file.now) }
{
    out.extend_from_slice(MARK)?;
    append_decimal_number(alloc, out, file.bytes.len())?;
    out.extend_from_slice(b" ")?;
    out.extend_from_slice(file.name.as_slice())?;
    out.extend_from_slice(b"\n")
}
