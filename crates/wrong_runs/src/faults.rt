//! The text of a fault.

ghost use Rattle.std.specs.Prelude.{◌≡◌, IfOk};
ghost use Rattle.sudoers_run.specs.FaultText.{tool_fault_message};

use std::alloc::{AllocError, Global};
use sudoers_run::{ToolFault, fault_text};

/// Returns the text of `fault`.
///
/// # Errors
///
/// Memory ran out.
pub fn text_of_fault(alloc: Global, fault: &ToolFault) -> Result<Vec<u8>, AllocError>
    ensures { IfOk result (λ text. text.items ≡ tool_fault_message fault.now) }
{
    fault_text(alloc, fault)
}
