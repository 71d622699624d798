//! The files of a policy that have to be spelled otherwise, so that this toolkit and sudo read them alike.

ghost use Rattle.std.specs.Prelude.{◌≡◌, ◌++◌, IfOk, OnOk, [], ◌∷◌};
ghost use Rattle.sudoers_bundle.specs.Bundle.{bundle_of_files};
ghost use Rattle.sudoers_dialect.specs.Output.{adapted_file, adapted_output, changed_files};

use crate::dialect::adapt_text;
use std::alloc::{AllocError, Global};
use sudoers_bundle::append_bundle;
use sudoers_tree::{Items, NamedFile};

/// Returns the file `file` with the text that says what its text says in the dialect of sudo.
fn adapt_file(alloc: Global, file: &NamedFile) -> Result<NamedFile, AllocError>
    ensures { IfOk result (λ adapted. adapted ≡ adapted_file file.now) }
{
    Ok(NamedFile {
        name: Items::from_slice(alloc, file.name.as_slice())?,
        bytes: Items::from_vec(adapt_text(alloc, file.bytes.as_slice())?),
    })
}

/// Returns the files `files` of a policy spelled so that both read them alike: of one file its text, of several the bundle of those that
/// change.
///
/// # Errors
///
/// Memory ran out.
pub fn make_adapted_output(alloc: Global, files: &[NamedFile]) -> Result<Vec<u8>, AllocError>
    ensures { IfOk result (λ out. out.items ≡ adapted_output files.now) }
{
    match files {
        [file] => adapt_text(alloc, file.bytes.as_slice()),
        _ => make_bundle_of_changed_files(alloc, files),
    }
}

/// Returns the bundle of those of the files `files` that change.
fn make_bundle_of_changed_files(alloc: Global, files: &[NamedFile]) -> Result<Vec<u8>, AllocError>
    ensures { IfOk result (λ out. out.items ≡ bundle_of_files (changed_files files.now)) }
{
    let mut out = Vec::new(alloc);
    for file in files {
        append_file_if_changed(alloc, file, &mut out)?;
    }
    Ok(out)
}

/// Appends the bundle of the file `file` alone to `out`, adapted, if it changes.
fn append_file_if_changed(
    alloc: Global,
    file: &NamedFile,
    out: &mut Vec<u8>,
) -> Result<(), AllocError>
    ensures { OnOk result (out.new.items ≡ out.old.items ++ bundle_of_files (changed_files (file.now ∷ []))) }
{
    let adapted = adapt_file(alloc, file)?;
    if adapted.bytes.as_slice() == file.bytes.as_slice() {
        return Ok(());
    }
    append_bundle(alloc, out, &[adapted])
}
