//! Plans of edits of the files of a policy: what changes of their lines an edit is, and the edits that take it back.
ghost use Rattle.std.specs.Prelude.{◌≡◌, ◌≤◌, ◌<◌, ◌∷◌, [], length, insert, remove, false, Ok, IfOk, OnOk, OnErr, MatchResult};
ghost use Rattle.sudoers_text.specs.Ended.{has_inner_line_without_lf};
ghost use Rattle.sudoers_text.specs.Whole.{IsLogicalLine};
ghost use Rattle.sudoers_tree.specs.Changed.{file_number_of_change, lines_with_one_replaced};
ghost use Rattle.sudoers_tree.specs.ChangedFiles.{AreApplicableChanges, files_after_changes};
ghost use Rattle.sudoers_tree.specs.Load.{LoadedPolicy, named_files_of_policy, policy_or_load_fault};
ghost use Rattle.sudoers_edit_script.specs.declared.edit.Edit.{Edit as AnEdit};
ghost use Rattle.sudoers_edit.specs.Editing.{IsRefusalOrNoMemory};
ghost use Rattle.sudoers_edit.specs.Landing.{policy_of_files_or_refusal, files_with_bytes_replaced as the_files_with};
ghost use Rattle.sudoers_edit.specs.internal.Leading.{AreChangesOfEdit};
ghost use Rattle.sudoers_edit.specs.internal.LeadingInFile.{EditSetsFileLines, line_texts_of_file};
ghost use Rattle.sudoers_edit.specs.internal.Made.{IsEditOutcome};

use crate::fault::EditFault;
use std::alloc::{AllocError, Global};
use sudoers_edit_script::{Edits, Text};
use sudoers_tree::{LineChange, NamedFile, Policy};

/// What an edit changes, and the edits that take it back.
#[derive(Drop)]
pub struct EditPlan {
    pub changes: Vec<LineChange>,
    pub inverse: Edits,
}

/// Returns the plan of one change.
fn plan_single_change(
    alloc: Global,
    change: LineChange,
    inverse: Edits,
) -> Result<EditPlan, AllocError>
    ensures changes { IfOk result (λ plan. plan.changes.items ≡ change ∷ []) }
    ensures inverse { IfOk result (λ plan. plan.inverse ≡ inverse) }
{
    let mut changes = Vec::with_capacity(alloc, 1)?;
    changes.push(change)?;
    Ok(EditPlan { changes, inverse })
}

/// Plans that the line `text` is put before the line `at` of a file.
pub fn plan_put_change(
    alloc: Global,
    file: usize,
    at: usize,
    text: Text,
    inverse: Edits,
) -> Result<EditPlan, AllocError>
    ensures { (edit back : AnEdit) (policy : LoadedPolicy) → policy_or_load_fault (named_files_of_policy policy) ≡ Ok policy → at ≤ length (line_texts_of_file policy file) → IsLogicalLine text
        → EditSetsFileLines edit back inverse policy file (insert (line_texts_of_file policy file) at text) → IfOk result (λ plan. AreChangesOfEdit edit plan.inverse policy plan.changes.items) }
{
    plan_single_change(alloc, LineChange::Put { file, at, text }, inverse)
}

/// Plans that the line `at` of a file is taken out.
pub fn plan_take_change(
    alloc: Global,
    file: usize,
    at: usize,
    inverse: Edits,
) -> Result<EditPlan, AllocError>
    ensures { (edit back : AnEdit) (policy : LoadedPolicy) → policy_or_load_fault (named_files_of_policy policy) ≡ Ok policy → at < length (line_texts_of_file policy file)
        → EditSetsFileLines edit back inverse policy file (remove (line_texts_of_file policy file) at) → IfOk result (λ plan. AreChangesOfEdit edit plan.inverse policy plan.changes.items) }
{
    plan_single_change(alloc, LineChange::Take { file, at }, inverse)
}

/// Plans that the line `text` stands in the place of the line `at` of a file.
pub fn plan_swap_change(
    alloc: Global,
    file: usize,
    at: usize,
    text: Text,
    inverse: Edits,
) -> Result<EditPlan, AllocError>
    ensures { (edit back : AnEdit) (policy : LoadedPolicy) → policy_or_load_fault (named_files_of_policy policy) ≡ Ok policy → at < length (line_texts_of_file policy file) → IsLogicalLine text
        → EditSetsFileLines edit back inverse policy file (lines_with_one_replaced at text (line_texts_of_file policy file)) → IfOk result (λ plan. AreChangesOfEdit edit plan.inverse policy plan.changes.items) }
{
    plan_single_change(alloc, LineChange::Swap { file, at, text }, inverse)
}

/// Makes the changes of a plan, and returns the edits that take them back.
pub fn carry_out_plan(plan: EditPlan, policy: &mut Policy) -> Result<Edits, EditFault>
    requires { AreApplicableChanges plan.changes.items policy.old.files }
    ensures made { (edit : AnEdit) → AreChangesOfEdit edit plan.inverse policy.old plan.changes.items → IsEditOutcome edit policy.old policy.new result }
    ensures loaded { OnOk result (policy_or_load_fault (files_after_changes plan.changes.items policy.old.files) ≡ Ok policy.new) }
    ensures unchanged { OnErr result (policy.new ≡ policy.old) }
{
    match policy.changed(plan.changes.as_slice()) {
        Ok(()) => Ok(plan.inverse),
        Err(fault) => Err(EditFault::from(fault)),
    }
}

/// Returns the files of `policy`, with the bytes `bytes` in the file `file`.
fn copy_files_with_bytes(
    policy: &Policy,
    file: usize,
    bytes: Vec<u8>,
) -> Result<Vec<NamedFile>, AllocError>
    ensures { IfOk result (λ files. files.items ≡ the_files_with file bytes.items (named_files_of_policy policy.now)) }
{
    let mut files = policy.copy_named_files()?;
    if let Some(named) = files.get_mut(file) {
        named.bytes = Text::from_vec(bytes);
    }
    Ok(files)
}

/// Returns the policy of the files of `policy`, with the bytes `bytes` in the file `file`.
fn load_policy_with_bytes(policy: &Policy, file: usize, bytes: Vec<u8>) -> Result<Policy, EditFault>
    ensures { MatchResult result (λ new. policy_of_files_or_refusal (the_files_with file bytes.items (named_files_of_policy policy.now)) ≡ Ok new)
        (λ fault. IsRefusalOrNoMemory fault (policy_of_files_or_refusal (the_files_with file bytes.items (named_files_of_policy policy.now)))) }
{
    let files = copy_files_with_bytes(policy, file, bytes)?;
    Ok(Policy::load(policy.allocator(), files.as_slice())?)
}

/// Returns why the files of `policy`, with the bytes `bytes` in the file `file`, are no policy.
pub fn refusal_of_bytes_that_make_no_policy(
    policy: &Policy,
    file: usize,
    bytes: Vec<u8>,
) -> EditFault
    requires { (new : LoadedPolicy) → policy_of_files_or_refusal (the_files_with file bytes.items (named_files_of_policy policy.now)) ≡ Ok new → ⊥ }
    ensures { IsRefusalOrNoMemory result (policy_of_files_or_refusal (the_files_with file bytes.items (named_files_of_policy policy.now))) }
{
    match load_policy_with_bytes(policy, file, bytes) {
        Ok(_) => unreachable!(),
        Err(fault) => fault,
    }
}

/// Returns the allocator of a policy. The files of the policy, loaded, are that policy.
pub fn allocator_of(policy: &Policy) -> Global
    ensures { policy_or_load_fault (named_files_of_policy policy.now) ≡ Ok policy.now }
{
    // laws
    policy.is_loaded();
    policy.allocator()
}

/// Returns how many lines a file of a policy has. All but the last end in LF.
pub fn line_count(policy: &Policy, file: usize) -> usize
    ensures count { result ≡ length (line_texts_of_file policy.now file) }
    ensures ended { has_inner_line_without_lf (line_texts_of_file policy.now file) ≡ false }
{
    // laws
    policy.is_loaded();
    policy.len(file)
}

/// Returns the number of the file of which `change` changes a line.
pub fn file_number_of_line_change(change: &LineChange) -> usize
    ensures { result ≡ file_number_of_change change.now }
{
    match change {
        LineChange::Put { file, .. }
        | LineChange::Swap { file, .. }
        | LineChange::Take { file, .. } => *file,
    }
}
