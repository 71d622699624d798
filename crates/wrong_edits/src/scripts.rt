//! Scripts as text.

ghost use Rattle.std.specs.Prelude.{◌≡◌, ◌≤◌, length, Ok, IfOk, MatchResult};
ghost use Rattle.sudoers_edit_script.specs.Script.{spelling_of_edits, edit_limit, script_or_first_fault};
ghost use Rattle.sudoers_edit_script.specs.ScriptReading.{edits_spelled_by_text, MatchesScriptReading, IsFaultOrNoMemory};

use std::alloc::Global;
use sudoers_edit_script::{Edit, Edits, ScriptFault, read_script, write_script};

/// Returns the edits of the script `text`.
///
/// # Errors
///
/// The first fault of the script, or memory ran out.
pub fn edits_of_script(alloc: Global, text: &[u8]) -> Result<Edits, ScriptFault>
    ensures edits { IfOk result (λ edits. (text.now ≡ spelling_of_edits edits) × (length edits ≤ edit_limit)) }
    ensures reading { MatchesScriptReading result (edits_spelled_by_text text.now) }
{
    read_script(alloc, text)
}

/// Returns `edits` as a script.
///
/// # Errors
///
/// The first cause for which the edits have no spelling, or memory ran out.
pub fn script_of_edits(alloc: Global, edits: &[Edit]) -> Result<Vec<u8>, ScriptFault>
    ensures { MatchResult result (λ text. script_or_first_fault edits.now ≡ Ok text.items) (λ fault. IsFaultOrNoMemory fault (script_or_first_fault edits.now)) }
{
    write_script(alloc, edits)
}
