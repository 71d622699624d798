//! What is appended to a text: bytes, a number. On an error the text still begins with what it had.

ghost use Rattle.std.specs.Prelude.{◌≡◌, ◌++◌, OnOk};
ghost use Rattle.std.specs.Fmt.{decimal};
ghost use Rattle.sudoers_cvt_spell.specs.internal.Fronts.{IsFront};

use std::alloc::{AllocError, Global};
use sudoers_text::append_decimal_number;

/// Appends bytes.
///
/// # Errors
///
/// Memory ran out.
#[tactic(auto, using(crate::proofs::Fronts::text_appended_or_not_keeps_front))]
pub fn append_bytes(out: &mut Vec<u8>, bytes: &[u8]) -> Result<(), AllocError>
    ensures appended { OnOk result (out.new.items ≡ out.old.items ++ bytes.now) }
    ensures front { IsFront out.old.items out.new.items }
{
    out.extend_from_slice(bytes)
}

/// Appends `number` in decimal.
///
/// # Errors
///
/// Memory ran out.
#[tactic(auto, using(crate::proofs::Fronts::text_with_number_or_not_keeps_front))]
pub fn append_number(alloc: Global, out: &mut Vec<u8>, number: usize) -> Result<(), AllocError>
    ensures appended { OnOk result (out.new.items ≡ out.old.items ++ decimal number) }
    ensures front { IsFront out.old.items out.new.items }
{
    append_decimal_number(alloc, out, number)
}
