//! Texts and files in the dialect of sudo.

ghost use Rattle.std.specs.Prelude.{◌≡◌, ◌≤◌, ◌+◌, length, IfOk};
ghost use Rattle.sudoers_text.specs.Fault.{text_limit};
ghost use Rattle.sudoers_dialect.specs.Files.{front_in_dialect};
ghost use Rattle.sudoers_dialect.specs.Output.{adapted_output};
ghost use Rattle.sudoers_dialect.specs.Text.{adapted_text};

use std::alloc::{AllocError, Global};
use sudoers_dialect::{Dialect, adapt_text, make_adapted_output};
use sudoers_tree::{Items, NamedFile};

/// Returns the text that says what `text` says in the dialect of sudo.
///
/// # Errors
///
/// Memory ran out.
pub fn adapt_whole_text(alloc: Global, text: &[u8]) -> Result<Vec<u8>, AllocError>
    ensures { IfOk result (λ adapted. adapted.items ≡ adapted_text text.now) }
{
    adapt_text(alloc, text)
}

/// Returns the bytes that say what the text that begins with `front` says in `dialect`.
///
/// # Errors
///
/// Memory ran out.
pub fn front_of_text_in_dialect(
    dialect: Dialect,
    alloc: Global,
    front: Items<u8>,
) -> Result<Items<u8>, AllocError>
    requires { length front ≤ text_limit + 1 }
    ensures { IfOk result (λ adapted. adapted ≡ front_in_dialect dialect front) }
{
    dialect.adapt_front(alloc, front)
}

/// Returns the files `files` of a policy spelled so that this toolkit and sudo read them alike.
///
/// # Errors
///
/// Memory ran out.
pub fn print_adapted_files(alloc: Global, files: &[NamedFile]) -> Result<Vec<u8>, AllocError>
    ensures { IfOk result (λ out. out.items ≡ adapted_output files.now) }
{
    make_adapted_output(alloc, files)
}
