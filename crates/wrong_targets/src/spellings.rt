//! The text of rules, spelled for sudo.

ghost use Rattle.std.specs.Prelude.{◌≡◌, IfOk};
ghost use Rattle.sudoers_cvt_sudo.specs.Printed.{text_for_sudo};

use std::alloc::{AllocError, Global};
use sudoers_cvt_sudo::spell_for_sudo;

/// Returns `text`, which is printed of rules, spelled for sudo.
///
/// # Errors
///
/// Memory ran out.
pub fn respell_rules_for_sudo(alloc: Global, text: &[u8]) -> Result<Vec<u8>, AllocError>
    ensures { IfOk result (λ spelled. spelled.items ≡ text_for_sudo text.now) }
{
    spell_for_sudo(alloc, text)
}
