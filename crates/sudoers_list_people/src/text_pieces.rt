//! Texts, cut at a byte.

ghost use Rattle.std.specs.Prelude.{◌≡◌, IfOk};
ghost use Rattle.sudoers_list_people.specs.internal.Slices.{texts_of_view};
ghost use Rattle.sudoers_list_people.specs.Rows.{pieces_split_at_byte};

use std::alloc::{AllocError, Global};

/// Returns the pieces of `text` between the bytes `byte`.
///
/// # Errors
///
/// Memory ran out.
pub fn split_text_at_byte(alloc: Global, byte: u8, text: &[u8]) -> Result<Vec<&[u8]>, AllocError>
    ensures { IfOk result (λ parts. texts_of_view parts.items ≡ pieces_split_at_byte byte text.now) }
{
    text.split(|b| *b == byte).collect(alloc)
}
