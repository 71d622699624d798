//! What takes an edit back: edits, or the changes that do the same at once.
ghost use Rattle.std.specs.Prelude.{◌≡◌, ◌<◌, ◌+◌, ◌^◌, [], Ok, Some, IfOk, IfErr, OnOk, OnErr};
ghost use Rattle.sudoers_tree.specs.Changed.{file_number_of_change, line_number_of_change};
ghost use Rattle.sudoers_tree.specs.ChangedFiles.{AreApplicableChanges};
ghost use Rattle.sudoers_tree.specs.Files.{lines_of_numbered_file};
ghost use Rattle.sudoers_tree.specs.Load.{LoadedPolicy};
ghost use Rattle.sudoers_tree.specs.Policy.{texts_of_lines};
ghost use Rattle.sudoers_edit.specs.Editing.{line_text_in_file as the_line_at, run};
ghost use Rattle.sudoers_edit.specs.internal.Undone.{HasRestoringChangesOrAtMostOneInverseEdit, inverse_of_changes};
ghost use Rattle.sudoers_edit.specs.internal.UndoneLines.{inverse_of_one_change};

use crate::edit_plan::{allocator_of, file_number_of_line_change};
use crate::edits_in_place::make_edit_in_place;
use crate::fault::EditFault;
use std::alloc::AllocError;
use sudoers_edit_script::{Edits, Text};
use sudoers_tree::{Items, LineChange, Policy};

/// What takes an edit back: its inverse edits. A prune also has the changes that do the same at once.
#[derive(Drop)]
pub struct EditReversal {
    pub inverse: Edits,
    pub changes: Option<Items<LineChange>>,
}

/// Returns the changes that take `changes` back, which are made of the files of `policy`.
pub fn inverse_of_line_changes(
    policy: &Policy,
    changes: &[LineChange],
) -> Result<Items<LineChange>, AllocError>
    requires { AreApplicableChanges changes.now policy.now.files }
    ensures { IfOk result (λ back. back ≡ inverse_of_changes policy.now.files changes.now) }
{
    let alloc = allocator_of(policy);
    let mut back = Vec::with_capacity(alloc, changes.len())?;
    let (mut last, mut put, mut taken) = (0, 0, 0);
    for change in changes {
        let file = file_number_of_line_change(change);
        if file != last {
            (last, put, taken) = (file, 0, 0);
        }
        back.push(inverse_of_line_change(policy, change, put, taken)?)?;
        match change {
            LineChange::Put { .. } => put += 1,
            LineChange::Swap { .. } => {}
            LineChange::Take { .. } => taken += 1,
        }
    }
    Ok(Items::from_vec(back))
}

/// Returns the change that takes `change` back, where `put` lines were put into its file and `taken` lines taken out before.
fn inverse_of_line_change(
    policy: &Policy,
    change: &LineChange,
    put: usize,
    taken: usize,
) -> Result<LineChange, AllocError>
    requires { line_number_of_change change.now + put < 2 ^ 64 }
    ensures { IfOk result (λ back. back ≡ inverse_of_one_change put taken (texts_of_lines (lines_of_numbered_file policy.now.files (file_number_of_change change.now))) change.now) }
{
    let alloc = policy.allocator();
    match change {
        LineChange::Put { file, at, .. } => Ok(LineChange::Take {
            file: *file,
            at: (*at + put).saturating_sub(taken),
        }),
        LineChange::Swap { file, at, .. } => Ok(LineChange::Swap {
            file: *file,
            at: (*at + put).saturating_sub(taken),
            text: Text::from_slice(alloc, line_bytes_at(policy, *file, *at))?,
        }),
        LineChange::Take { file, at } => Ok(LineChange::Put {
            file: *file,
            at: (*at + put).saturating_sub(taken),
            text: Text::from_slice(alloc, line_bytes_at(policy, *file, *at))?,
        }),
    }
}

/// Returns the line with the number `at` of a file; no bytes if there is none.
fn line_bytes_at(policy: &Policy, file: usize, at: usize) -> &[u8]
    ensures { result.now ≡ the_line_at file at policy.now }
{
    match policy.line(file, at) {
        Some(line) => line,
        None => &[],
    }
}

/// Takes an edit back by its inverse edits, or by the changes that do the same at once.
pub fn take_back_edit(
    policy: &mut Policy,
    inverse: &Edits,
    changes: &Option<Items<LineChange>>,
) -> Result<(), EditFault>
    requires { (before : LoadedPolicy) × HasRestoringChangesOrAtMostOneInverseEdit changes.now inverse.now policy.old before × (run inverse.now policy.old ≡ Some before) }
    ensures made { OnOk result (run inverse.now policy.old ≡ Some policy.new) }
    ensures refused { IfErr result (λ fault. fault ≡ EditFault.NoMemory) }
    ensures unchanged { OnErr result (policy.new ≡ policy.old) }
{
    match changes {
        Some(changes) => policy.changed(changes.as_slice())?,
        None => {
            if let [edit] = inverse.as_slice() {
                let _ = make_edit_in_place(policy, edit)?;
            }
        }
    }
    Ok(())
}
