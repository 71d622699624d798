//! Edits taken back and made again, up to a number.
ghost use Rattle.std.specs.Prelude.{◌≡◌, ◌+◌, ◌-◌, ◌++◌, length, min, OnOk};
ghost use Rattle.sudoers_edit.specs.Editing.{edits_of_entries, initial_policy_of_editor};

use std::alloc::AllocError;
use sudoers_edit::Editor;

/// Takes back up to `count` edits of `editor`, the last first.
///
/// # Errors
///
/// Want of memory alone. The edits that were taken back before stay so.
pub fn undo_up_to(editor: &mut Editor, count: u32) -> Result<(), AllocError>
    // As many edits fewer stand, or none.
    ensures count { OnOk result (length editor.new.journal ≡ length editor.old.journal - min count (length editor.old.journal)) }
    // The edits that stand, with the undone ones behind them, are the same.
    ensures edits { OnOk result (edits_of_entries editor.new.journal ++ editor.new.undone ≡ edits_of_entries editor.old.journal ++ editor.old.undone) }
    ensures begun { OnOk result (initial_policy_of_editor editor.new ≡ initial_policy_of_editor editor.old) }
{
    for _ in 0..count {
        match editor.undo() {
            Ok(true) => {}
            Ok(false) => return Ok(()),
            Err(_) => return Err(AllocError),
        }
    }
    Ok(())
}

/// Makes up to `count` undone edits of `editor` again, the last undone first.
///
/// # Errors
///
/// Want of memory alone. The edits that were made again before stay so.
pub fn redo_up_to(editor: &mut Editor, count: u32) -> Result<(), AllocError>
    // As many edits more stand, or all.
    ensures count { OnOk result (length editor.new.journal ≡ length editor.old.journal + min count (length editor.old.undone)) }
    // The edits that stand, with the undone ones behind them, are the same.
    ensures edits { OnOk result (edits_of_entries editor.new.journal ++ editor.new.undone ≡ edits_of_entries editor.old.journal ++ editor.old.undone) }
    ensures begun { OnOk result (initial_policy_of_editor editor.new ≡ initial_policy_of_editor editor.old) }
{
    for _ in 0..count {
        match editor.redo() {
            Ok(true) => {}
            Ok(false) => return Ok(()),
            Err(_) => return Err(AllocError),
        }
    }
    Ok(())
}
