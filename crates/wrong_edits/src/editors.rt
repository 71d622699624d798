//! Edits applied and undone.

ghost use Rattle.std.specs.Prelude.{◌≡◌, ◌<◌, [], length, take, Some, Ok, IfOk, IfErr, OnOk, OnErr, MatchResult, true, false};
ghost use Rattle.sudoers_edit.specs.declared.fault.EditFault.TheVariants as EditFault;
ghost use Rattle.sudoers_edit.specs.Editing.{IsRefusalOrNoMemory, edits_of_entries, initial_policy_of_editor, inv_run, run, policy_or_first_refusal, step, StopsRunAt};
ghost use Rattle.sudoers_edit.specs.Undoing.{UndoesLastEdit};

use std::alloc::AllocError;
use sudoers_edit::{Edit, EditFault, Editor, Edits};

/// Applies `edit`.
///
/// # Errors
///
/// The first cause for which the edit is refused, or memory ran out.
pub fn apply_edit(editor: &mut Editor, edit: &Edit) -> Result<(), EditFault>
    ensures step { OnOk result (step edit.now editor.old.policy ≡ Ok editor.new.policy) }
    ensures refused { IfErr result (λ fault. IsRefusalOrNoMemory fault (step edit.now editor.old.policy)) }
{
    editor.apply(edit)
}

/// Applies `edits` in their order.
///
/// # Errors
///
/// The place of the first edit that is refused, with the cause. The edits before it stay.
pub fn apply_edits(editor: &mut Editor, edits: &[Edit]) -> Result<(), (usize, EditFault)>
    ensures policy { MatchResult result (λ _. run edits.now editor.old.policy ≡ Some editor.new.policy)
        (λ refused. run (take refused.0 edits.now) editor.old.policy ≡ Some editor.new.policy) }
    ensures accepted { OnOk result (policy_or_first_refusal 0 edits.now editor.old.policy ≡ Ok editor.new.policy) }
    ensures refused { IfErr result (λ refused. StopsRunAt refused.0 refused.1 edits.now editor.old.policy) }
    ensures place { IfErr result (λ refused. refused.0 < length edits.now) }
{
    editor.apply_all(edits)
}

/// Returns the edits that undo all accepted ones.
///
/// # Errors
///
/// Memory ran out.
pub fn edits_back(editor: &Editor) -> Result<Edits, AllocError>
    ensures exact { IfOk result (λ edits. edits ≡ inv_run (edits_of_entries editor.now.journal) (initial_policy_of_editor editor.now)) }
    ensures restores { IfOk result (λ edits. run edits editor.now.policy ≡ Some (initial_policy_of_editor editor.now)) }
{
    editor.inverse()
}

/// Undoes the last edit. Returns `false` if there is none.
///
/// # Errors
///
/// Memory ran out. The editor is then as it was.
pub fn undo_edit(editor: &mut Editor) -> Result<bool, EditFault>
    ensures taken { result ≡ Ok true → UndoesLastEdit editor.old editor.new }
    ensures none { result ≡ Ok false → (editor.old.journal ≡ []) × (editor.new ≡ editor.old) }
    ensures empty { editor.old.journal ≡ [] → result ≡ Ok false }
    ensures refused { IfErr result (λ fault. fault ≡ EditFault.NoMemory) }
    ensures unchanged { OnErr result (editor.new ≡ editor.old) }
{
    editor.undo()
}
