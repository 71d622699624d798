//! Numbers as they are written.

ghost use Rattle.std.specs.Prelude.{◌≡◌, ◌++◌, OnErr, OnOk};
ghost use Rattle.std.specs.Fmt.{decimal};

use itoa::Buffer;
use std::alloc::{AllocError, Global};

/// Appends `number` in decimal. Where memory runs out, the text stays as it was.
///
/// # Errors
///
/// Memory ran out.
pub fn append_decimal_number(
    _alloc: Global,
    out: &mut Vec<u8>,
    number: usize,
) -> Result<(), AllocError>
    ensures appended { OnOk result (out.new.items ≡ out.old.items ++ decimal number) }
    ensures kept { OnErr result (out.new.items ≡ out.old.items) }
{
    let mut digits = Buffer::new();
    out.extend_from_slice(digits.format(number).as_bytes())
}
