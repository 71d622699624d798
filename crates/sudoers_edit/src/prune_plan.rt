//! A prune of the files of a policy, as the changes that it makes at once.
ghost use Rattle.std.specs.Prelude.{◌≡◌, ◌≤◌, [], ◌∷◌, Bool, List, ℕ, length, reverse, slice_get, None, Ok, Some, IfOk, OnOk, MatchResult};
ghost use Rattle.std.specs.Option.{option_copied, option_or};
ghost use Rattle.sudoers_tree.specs.declared.line_change.LineChange.TheVariants.{Swap};
ghost use Rattle.sudoers_tree.specs.Files.{lines_of_numbered_file};
ghost use Rattle.sudoers_tree.specs.Line.{Line as LineOf};
ghost use Rattle.sudoers_tree.specs.Load.{LoadedPolicy};
ghost use Rattle.sudoers_tree.specs.Policy.{texts_of_lines};
ghost use Rattle.sudoers_tree.specs.Single.{reading_of_single_line};
ghost use Rattle.sudoers_edit.specs.internal.Drafts.{IsFileOrderOfChanges, IsResultOfChanges, LeavesLinesBelowLimitsUnchanged, IsRemovalBelowLimitsOnAliasLine, IsRemovalOutcome, replacement_text_by_first_change, changes_without_first_if_it_replaces_line};
ghost use Rattle.sudoers_edit.specs.Editing.{IsRefusalOrNoMemory};
ghost use Rattle.sudoers_edit.specs.SpliceEdits.{lines_with_definition_dropped};
ghost use Rattle.sudoers_edit.specs.declared.prune_plan.LastCutLine.{LastCutLine as CutLineOf};
ghost use Rattle.sudoers_edit.specs.internal.Leading.{IsPlanOutcome};
ghost use Rattle.sudoers_edit.specs.internal.LineCuts.{IsLastCutLineKnown, IsLineKnown};

use crate::edit_plan::{EditPlan, allocator_of, file_number_of_line_change};
use crate::fault::EditFault;
use crate::line_being_cut::{LineBeingCut, read_line_to_cut};
use crate::prune_removals::{PruneRemoval, list_prune_removals};
use std::alloc::{AllocError, Global};
use sudoers_edit_script::{Edit, Edits, Text};
use sudoers_tree::{LineChange, Policy};

/// The line from which a definition was taken out last, and what is known of it.
#[derive(Drop)]
struct LastCutLine {
    file: usize,
    line: usize,
    known: LineBeingCut,
}

/// Plans a prune: all definitions of aliases that are unused are taken out, one after another, each from what the one before left.
pub fn plan_prune(policy: &Policy) -> Result<EditPlan, EditFault>
    ensures { IsPlanOutcome Edit.Prune policy.now result }
{
    let alloc = allocator_of(policy);
    let removals = list_prune_removals(alloc, policy)?;
    let mut changes = Vec::new(alloc);
    let mut inverse = Vec::new(alloc);
    let mut last = None;
    for removal in removals.as_slice() {
        let edit = add_changes_of_removal_and_get_inverse(
            policy,
            &mut changes,
            &mut last,
            *removal,
        )?;
        inverse.push(edit)?;
    }
    changes.reverse();
    sort_changes_by_file(&mut changes)?;
    inverse.reverse();
    Ok(EditPlan {
        changes,
        inverse: Edits::from_vec(inverse),
    })
}

/// Puts the changes in the order of their files. Those of each file stay in their order.
fn sort_changes_by_file(changes: &mut Vec<LineChange>) -> Result<(), AllocError>
    ensures { OnOk result (IsFileOrderOfChanges changes.old.items changes.new.items) }
{
    changes.sort_by_key(|change| file_number_of_line_change(change))?;
    Ok(())
}

/// Adds to `changes` what takes `removal` out of the files that they make so far. They have the change of the last line first. Returns
/// the edit that puts it in again. `last` is the line from which a definition was taken out last.
fn add_changes_of_removal_and_get_inverse(
    policy: &Policy,
    changes: &mut Vec<LineChange>,
    last: &mut Option<LastCutLine>,
    removal: PruneRemoval,
) -> Result<Edit, EditFault>
    requires { IsLastCutLineKnown (reverse changes.old.items) last.old }
    ensures known { IfOk result (λ _. IsLastCutLineKnown (reverse changes.new.items) last.new) }
    ensures made { (now : LoadedPolicy) (below : ℕ → ℕ) (cut : ℕ → ℕ → Bool) → IsResultOfChanges policy.now (reverse changes.old.items) now
        → LeavesLinesBelowLimitsUnchanged policy.now below cut (reverse changes.old.items) → IsRemovalBelowLimitsOnAliasLine policy.now removal below cut
        → IsRemovalOutcome policy.now removal below now (reverse changes.new.items) result }
{
    match removal {
        PruneRemoval::Line { file, at } => {
            *last = None;
            add_line_removal_and_get_inverse(policy, changes, file, at)
        }
        PruneRemoval::Def { file, line, at } => add_definition_removal_and_get_inverse(
            policy, changes, last, file, line, at,
        ),
    }
}

/// Takes a line out.
fn add_line_removal_and_get_inverse(
    policy: &Policy,
    changes: &mut Vec<LineChange>,
    file: u32,
    at: u32,
) -> Result<Edit, EditFault>
    ensures { (now : LoadedPolicy) (below : ℕ → ℕ) (cut : ℕ → ℕ → Bool) → IsResultOfChanges policy.now (reverse changes.old.items) now
        → LeavesLinesBelowLimitsUnchanged policy.now below cut (reverse changes.old.items) → IsRemovalBelowLimitsOnAliasLine policy.now (PruneRemoval.Line file at) below cut
        → IsRemovalOutcome policy.now (PruneRemoval.Line file at) below now (reverse changes.new.items) result }
{
    let alloc = allocator_of(policy);
    let Some(line) = policy.line(file as usize, at as usize) else {
        return Err(EditFault::NoLine);
    };
    let text = Text::from_slice(alloc, line)?;
    changes.push(LineChange::Take {
        file: file as usize,
        at: at as usize,
    })?;
    Ok(Edit::Insert { file, at, text })
}

/// Takes a definition out of a line.
fn add_definition_removal_and_get_inverse(
    policy: &Policy,
    changes: &mut Vec<LineChange>,
    last: &mut Option<LastCutLine>,
    file: u32,
    line: u32,
    at: u32,
) -> Result<Edit, EditFault>
    requires { IsLastCutLineKnown (reverse changes.old.items) last.old }
    ensures known { IfOk result (λ _. IsLastCutLineKnown (reverse changes.new.items) last.new) }
    ensures made { (now : LoadedPolicy) (below : ℕ → ℕ) (cut : ℕ → ℕ → Bool) → IsResultOfChanges policy.now (reverse changes.old.items) now
        → LeavesLinesBelowLimitsUnchanged policy.now below cut (reverse changes.old.items) → IsRemovalBelowLimitsOnAliasLine policy.now (PruneRemoval.Def file line at) below cut
        → IsRemovalOutcome policy.now (PruneRemoval.Def file line at) below now (reverse changes.new.items) result }
{
    let alloc = policy.allocator();
    let Some(old) = text_of_line_after_changes(
        policy,
        changes.as_slice(),
        file as usize,
        line as usize,
    ) else {
        return Err(EditFault::NoLine);
    };
    let mut known = match take_known_line(alloc, last, file, line, old) {
        Ok(known) => known,
        Err(fault) => return Err(fault),
    };
    let (text, splice) = match known.cut_definition(alloc, old, at as usize) {
        Ok(cut) => cut,
        Err(fault) => return Err(fault),
    };
    add_line_replacement(changes, file as usize, line as usize, text)?;
    *last = Some(LastCutLine {
        file: file as usize,
        line: line as usize,
        known,
    });
    Ok(Edit::AddDef {
        file,
        line,
        at,
        splice,
    })
}

/// Returns the line `line` of the file `file` as the changes make it so far.
fn text_of_line_after_changes<'a>(
    policy: &'a Policy,
    changes: &'a [LineChange],
    file: usize,
    line: usize,
) -> Option<&'a [u8]>
    ensures { option_copied result
        ≡ option_or (replacement_text_by_first_change file line (reverse changes.now)) (slice_get (texts_of_lines (lines_of_numbered_file policy.now.files file)) line) }
{
    let Some((last, _)) = changes.split_last() else {
        return policy.line(file, line);
    };
    match replacement_text_of_change(last, file, line) {
        Some(text) => Some(text),
        None => policy.line(file, line),
    }
}

/// Returns the text that replaces the line `line` of the file `file`, if the change does that.
fn replacement_text_of_change(change: &LineChange, file: usize, line: usize) -> Option<&[u8]>
    ensures { option_copied result ≡ replacement_text_by_first_change file line (change.now ∷ []) }
{
    match change {
        LineChange::Swap { file: f, at, text } if *f == file && *at == line => {
            Some(text.as_slice())
        }
        _ => None,
    }
}

/// Adds the change that replaces the line `line` of the file `file` by `text`, in the place of the last change if that replaces the line too.
fn add_line_replacement(
    changes: &mut Vec<LineChange>,
    file: usize,
    line: usize,
    text: Text,
) -> Result<(), AllocError>
    ensures { OnOk result (reverse changes.new.items ≡ Swap file line text ∷ changes_without_first_if_it_replaces_line file line (reverse changes.old.items)) }
{
    let is_replaced = match changes.last() {
        Some(LineChange::Swap { file: f, at, .. }) => *f == file && *at == line,
        _ => false,
    };
    if is_replaced {
        let _ = changes.pop();
    }
    changes.push(LineChange::Swap {
        file,
        at: line,
        text,
    })?;
    Ok(())
}

/// Returns what is known of the line `line` of the file `file`, whose text is `text`: what `last` knows of it, or what is read of it.
fn take_known_line(
    alloc: Global,
    last: &mut Option<LastCutLine>,
    file: u32,
    line: u32,
    text: &[u8],
) -> Result<LineBeingCut, EditFault>
    requires { (l : CutLineOf) → last.old ≡ Some l → l.file ≡ file → l.line ≡ line → IsLineKnown l.known text.now }
    ensures { MatchResult result (λ known. IsLineKnown known text.now)
        (λ fault. (n at : ℕ) (lines : List LineOf) (line : LineOf) → reading_of_single_line line.text ≡ Some line.node → slice_get lines n ≡ Some line → line.text ≡ text.now
        → IsRefusalOrNoMemory fault (lines_with_definition_dropped n at lines)) }
{
    if let Some(cut) = last.take() {
        if cut.file == file as usize && cut.line == line as usize {
            return Ok(cut.known);
        }
    }
    read_line_to_cut(alloc, text)
}
