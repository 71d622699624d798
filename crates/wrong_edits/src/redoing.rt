//! Edits made again, and edits after which none can be made again.

ghost use Rattle.std.specs.Prelude.{◌≡◌, [], take, Ok, IfErr, OnOk, OnErr, MatchResult, true, false};
ghost use Rattle.sudoers_edit.specs.declared.fault.EditFault.TheVariants as EditFault;
ghost use Rattle.sudoers_edit.specs.Editing.{EditorState, initial_policy_of_editor};
ghost use Rattle.sudoers_edit.specs.Redoing.{RedoesLastUndone, undone_edits_after_edits};
ghost use Rattle.sudoers_edit.specs.Undoing.{UndoesLastEdit};

use sudoers_edit::{Edit, EditFault, Editor};

/// Makes the last undone edit again. Returns `false` if there is none.
///
/// # Errors
///
/// Memory ran out. The editor is then as it was.
pub fn redo_edit(editor: &mut Editor) -> Result<bool, EditFault>
    ensures made { result ≡ Ok true → RedoesLastUndone editor.old editor.new }
    ensures back { (begun : EditorState) → UndoesLastEdit begun editor.old → OnOk result (editor.new ≡ begun) }
    ensures none { result ≡ Ok false → (editor.old.undone ≡ []) × (editor.new ≡ editor.old) }
    ensures refused { IfErr result (λ fault. fault ≡ EditFault.NoMemory) }
    ensures unchanged { OnErr result (editor.new ≡ editor.old) }
{
    editor.redo()
}

/// Applies `edit`. After that, no edit can be made again.
///
/// # Errors
///
/// The first cause for which the edit is refused, or memory ran out. The editor is then as it was.
pub fn apply_anew(editor: &mut Editor, edit: &Edit) -> Result<(), EditFault>
    ensures begun { initial_policy_of_editor editor.new ≡ initial_policy_of_editor editor.old }
    ensures undone { OnOk result (editor.new.undone ≡ []) }
    ensures unchanged { OnErr result (editor.new ≡ editor.old) }
{
    editor.apply(edit)
}

/// Applies `edits` in their order. If one was accepted, no edit that was undone before can be made again.
///
/// # Errors
///
/// The place of the first edit that is refused, with the cause. The edits before it stay.
pub fn apply_edits_anew(editor: &mut Editor, edits: &[Edit]) -> Result<(), (usize, EditFault)>
    ensures { MatchResult result (λ _. editor.new.undone ≡ undone_edits_after_edits edits.now editor.old.undone)
        (λ refused. editor.new.undone ≡ undone_edits_after_edits (take refused.0 edits.now) editor.old.undone) }
{
    editor.apply_all(edits)
}
