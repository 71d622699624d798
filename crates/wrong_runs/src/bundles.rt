//! Bundles that are read and written.

ghost use Rattle.std.specs.Prelude.{◌≡◌, ◌++◌, IfOk, OnOk, Ok};
ghost use Rattle.sudoers_bundle.specs.Bundle.{bundle_of_files, files_of_bundle_text};

use std::alloc::{AllocError, Global};
use sudoers_bundle::{BundleFault, append_bundle, read_bundle};
use sudoers_tree::NamedFile;

/// Returns the files of the bundle `text`.
///
/// # Errors
///
/// The first file that is not one, or memory ran out.
pub fn bundle_files(alloc: Global, text: &[u8]) -> Result<Vec<NamedFile>, BundleFault>
    ensures { IfOk result (λ files. files_of_bundle_text text.now ≡ Ok files.items) }
{
    read_bundle(alloc, text)
}

/// Appends the bundle of the files `files` to `out`.
///
/// # Errors
///
/// Memory ran out.
pub fn put_bundle(alloc: Global, out: &mut Vec<u8>, files: &[NamedFile]) -> Result<(), AllocError>
    ensures { OnOk result (out.new.items ≡ out.old.items ++ bundle_of_files files.now) }
{
    append_bundle(alloc, out, files)
}
