//! Addresses and masks as they are printed.

ghost use Rattle.std.specs.Prelude.{◌≡◌, ◌++◌, codes, OnOk};
ghost use Rattle.std.specs.Fmt.{decimal};
ghost use Rattle.sudoers_cvt_spell.specs.internal.Fronts.{IsFront};
ghost use Rattle.sudoers_cvt_spell.specs.Hosts.{dotted_address, printed_mask_without_slash};

use crate::appending::{append_bytes, append_number};
use std::alloc::{AllocError, Global};
use sudoers_grammar::{Address, Mask};

/// Appends a number and a dot.
fn append_number_and_dot(alloc: Global, out: &mut Vec<u8>, number: usize) -> Result<(), AllocError>
    ensures appended { OnOk result (out.new.items ≡ out.old.items ++ decimal number ++ codes ".") }
    ensures front { IsFront out.old.items out.new.items }
{
    append_number(alloc, out, number)?;
    append_bytes(out, b".")
}

/// Appends an address.
pub fn append_address(alloc: Global, out: &mut Vec<u8>, address: Address) -> Result<(), AllocError>
    ensures appended { OnOk result (out.new.items ≡ out.old.items ++ dotted_address address.number) }
    ensures front { IsFront out.old.items out.new.items }
{
    let number = address.number as usize;
    append_number_and_dot(alloc, out, number / 16_777_216)?;
    append_number_and_dot(alloc, out, number / 65_536 % 256)?;
    append_number_and_dot(alloc, out, number / 256 % 256)?;
    append_number(alloc, out, number % 256)
}

/// Appends a mask as it was written.
pub fn append_mask_without_slash(
    alloc: Global,
    out: &mut Vec<u8>,
    mask: Mask,
) -> Result<(), AllocError>
    ensures appended { OnOk result (out.new.items ≡ out.old.items ++ printed_mask_without_slash mask) }
    ensures front { IsFront out.old.items out.new.items }
{
    match mask {
        Mask::Bits(bits) => append_number(alloc, out, bits as usize),
        Mask::Dotted(address) => append_address(alloc, out, address),
    }
}
