//! Edits of whole lines of a file of a policy, and of the end of its last line.
ghost use Rattle.std.specs.Prelude.{◌≡◌, ◌-◌, ◌<◌, ◌≤◌, length, insert, slice_get, true, IfOk};
ghost use Rattle.std.specs.Option.{option_copied};
ghost use Rattle.sudoers_text.specs.Ended.{has_inner_line_without_lf};
ghost use Rattle.sudoers_text.specs.Whole.{IsLogicalLine};
ghost use Rattle.sudoers_edit.specs.OneLine.{is_one_logical_line, SplitsIntoItselfAsOnlyLine};
ghost use Rattle.sudoers_edit.specs.LineEdits.{lines_with_one_moved};
ghost use Rattle.sudoers_edit.specs.internal.Leading.{IsPlanOutcome};
ghost use Rattle.sudoers_edit.specs.internal.LeadingInFile.{line_changes_of_move as the_move_changes, line_texts_of_file};

use crate::edit_plan::{
    EditPlan, allocator_of, line_count, plan_put_change, plan_swap_change, plan_take_change,
    refusal_of_bytes_that_make_no_policy,
};
use crate::fault::EditFault;
use std::alloc::{AllocError, Global};
use sudoers_edit_script::{Edit, Edits, Text};
use sudoers_text::{LINE_LIMIT, TextFault, cut, ends_in_lf};
use sudoers_tree::{LineChange, Policy};

/// Plans that the line `text` is put before the line `at` of the file `file`, or behind its last line.
pub fn plan_line_insertion(
    policy: &Policy,
    file: u32,
    at: u32,
    text: &[u8],
) -> Result<EditPlan, EditFault>
    ensures { IsPlanOutcome (Edit.Insert file at text.now) policy.now result }
{
    let alloc = allocator_of(policy);
    let (number, place) = (file as usize, at as usize);
    if number >= policy.files() {
        return Err(EditFault::NoFile);
    }
    if place > policy.len(number) {
        return Err(EditFault::NoLine);
    }
    if !is_single_logical_line(alloc, text)? {
        return Err(EditFault::NotOneLine);
    }
    if leaves_open_line_after_insert(policy, number, place, text) {
        return Err(EditFault::OpenLine);
    }
    let text = Text::from_slice(alloc, text)?;
    let inverse = Edits::list_of_one_item(alloc, Edit::Delete { file, at })?;
    Ok(plan_put_change(alloc, number, place, text, inverse)?)
}

/// Plans that the line `at` of the file `file` is taken out.
pub fn plan_line_deletion(policy: &Policy, file: u32, at: u32) -> Result<EditPlan, EditFault>
    ensures { IsPlanOutcome (Edit.Delete file at) policy.now result }
{
    let alloc = allocator_of(policy);
    let (number, place) = (file as usize, at as usize);
    if number >= policy.files() {
        return Err(EditFault::NoFile);
    }
    let Some(line) = policy.line(number, place) else {
        return Err(EditFault::NoLine);
    };
    let text = Text::from_slice(alloc, line)?;
    let inverse = Edits::list_of_one_item(alloc, Edit::Insert { file, at, text })?;
    Ok(plan_take_change(alloc, number, place, inverse)?)
}

/// Plans that the line `from` of the file `file` is taken out and put where it stands at `to`.
pub fn plan_line_move(policy: &Policy, file: u32, from: u32, to: u32) -> Result<EditPlan, EditFault>
    ensures { IsPlanOutcome (Edit.Move file from to) policy.now result }
{
    let alloc = allocator_of(policy);
    let (number, place, target) = (file as usize, from as usize, to as usize);
    if number >= policy.files() {
        return Err(EditFault::NoFile);
    }
    let Some(line) = policy.line(number, place) else {
        return Err(EditFault::NoLine);
    };
    if target >= policy.len(number) {
        return Err(EditFault::NoLine);
    }
    if leaves_open_line_after_move(policy, number, place, target) {
        return Err(EditFault::OpenLine);
    }
    let text = Text::from_slice(alloc, line)?;
    let changes = changes_of_line_move(alloc, file, from, to, text)?;
    let back = Edit::Move {
        file,
        from: to,
        to: from,
    };
    let inverse = Edits::list_of_one_item(alloc, back)?;
    Ok(EditPlan { changes, inverse })
}

/// Returns the changes that take out the line `from` of a file, which is `text`, and put it where it stands at `to`.
fn changes_of_line_move(
    alloc: Global,
    file: u32,
    from: u32,
    to: u32,
    text: Text,
) -> Result<Vec<LineChange>, AllocError>
    ensures { IfOk result (λ changes. changes.items ≡ the_move_changes file from to text) }
{
    let (file, from, to) = (file as usize, from as usize, to as usize);
    let mut changes = Vec::with_capacity(alloc, 2)?;
    if from < to {
        changes.push(LineChange::Take { file, at: from })?;
        changes.push(LineChange::Put {
            file,
            at: to + 1,
            text,
        })?;
    } else if to < from {
        changes.push(LineChange::Put { file, at: to, text })?;
        changes.push(LineChange::Take { file, at: from })?;
    }
    Ok(changes)
}

/// Plans that LF is put behind the last line of the file `file`.
pub fn plan_final_lf_addition(policy: &Policy, file: u32) -> Result<EditPlan, EditFault>
    ensures { IsPlanOutcome (Edit.EndLine file) policy.now result }
{
    let alloc = allocator_of(policy);
    let number = file as usize;
    if number >= policy.files() {
        return Err(EditFault::NoFile);
    }
    let Some(last) = last_line_of_file(policy, number) else {
        return Err(EditFault::EndAsIs);
    };
    if ends_in_lf(last) {
        return Err(EditFault::EndAsIs);
    }
    if last.len() >= LINE_LIMIT {
        return Err(EditFault::TooLarge);
    }
    let mut text = Vec::from_slice(alloc, last)?;
    text.push(b'\n')?;
    if !is_single_logical_line(alloc, text.as_slice())? {
        let mut whole = policy.text(number)?;
        whole.push(b'\n')?;
        return Err(refusal_of_bytes_that_make_no_policy(policy, number, whole));
    }
    let inverse = Edits::list_of_one_item(alloc, Edit::OpenEnd { file })?;
    let at = last_line_number_of_file_or_zero(policy, number);
    Ok(plan_swap_change(alloc, number, at, Text::from_vec(text), inverse)?)
}

/// Plans that the LF at the end of the last line of the file `file` is taken away.
pub fn plan_final_lf_removal(policy: &Policy, file: u32) -> Result<EditPlan, EditFault>
    ensures { IsPlanOutcome (Edit.OpenEnd file) policy.now result }
{
    let alloc = allocator_of(policy);
    let number = file as usize;
    if number >= policy.files() {
        return Err(EditFault::NoFile);
    }
    let Some(last) = last_line_of_file(policy, number) else {
        return Err(EditFault::EndAsIs);
    };
    if last.len() < 2 || !ends_in_lf(last) {
        return Err(EditFault::EndAsIs);
    }
    let text = Text::from_slice(alloc, &last[..last.len() - 1])?;
    if !is_single_logical_line(alloc, text.as_slice())? {
        let mut whole = policy.text(number)?;
        let _ = whole.pop();
        return Err(refusal_of_bytes_that_make_no_policy(policy, number, whole));
    }
    let inverse = Edits::list_of_one_item(alloc, Edit::EndLine { file })?;
    let at = last_line_number_of_file_or_zero(policy, number);
    Ok(plan_swap_change(alloc, number, at, text, inverse)?)
}

/// Returns whether a line without LF would stand before another of a file once the text stands at a place.
fn leaves_open_line_after_insert(policy: &Policy, file: usize, at: usize, text: &[u8]) -> bool
    requires { at ≤ length (line_texts_of_file policy.now file) }
    ensures { result ≡ has_inner_line_without_lf (insert (line_texts_of_file policy.now file) at text.now) }
{
    if at < line_count(policy, file) {
        !ends_in_lf(text)
    } else if at > 0 {
        match policy.line(file, at - 1) {
            Some(last) => !ends_in_lf(last),
            None => false,
        }
    } else {
        false
    }
}

/// Returns whether a line without LF would stand before another of a file once the line `from` stands at `to`.
fn leaves_open_line_after_move(policy: &Policy, file: usize, from: usize, to: usize) -> bool
    requires from { from < length (line_texts_of_file policy.now file) }
    requires to { to < length (line_texts_of_file policy.now file) }
    ensures { result ≡ has_inner_line_without_lf (lines_with_one_moved from to (line_texts_of_file policy.now file)) }
{
    let last = line_count(policy, file) - 1;
    if from == to {
        return false;
    }
    let before = if to < last { from } else { last };
    match policy.line(file, before) {
        Some(line) => !ends_in_lf(line),
        None => false,
    }
}

/// Returns the last line of a file, if there is one.
fn last_line_of_file(policy: &Policy, file: usize) -> Option<&[u8]>
    ensures { option_copied result ≡ slice_get (line_texts_of_file policy.now file) (length (line_texts_of_file policy.now file) - 1) }
{
    policy.line(file, last_line_number_of_file_or_zero(policy, file))
}

/// Returns the number of the last line of a file.
fn last_line_number_of_file_or_zero(policy: &Policy, file: usize) -> usize
    ensures { result ≡ length (line_texts_of_file policy.now file) - 1 }
{
    policy.len(file).saturating_sub(1)
}

/// Returns whether a text is exactly one logical line.
fn is_single_logical_line(alloc: Global, text: &[u8]) -> Result<bool, AllocError>
    ensures is { IfOk result (λ is. is ≡ is_one_logical_line text.now) }
    ensures alone { IfOk result (λ is. is ≡ true → SplitsIntoItselfAsOnlyLine text.now) }
    ensures whole { IfOk result (λ is. is ≡ true → IsLogicalLine text.now) }
{
    match cut(alloc, text) {
        Ok(lines) => Ok(lines.len() == 1),
        Err(TextFault::NoMemory) => Err(AllocError),
        Err(_) => Ok(false),
    }
}
