//! The editor: a policy, a journal of its edits, and the edits that were undone.
ghost use Rattle.std.specs.Prelude.{◌≡◌, ◌⊎◌, ◌<◌, ◌∷◌, [], ◌++◌, length, reverse, Some, None, Ok, Err, IfOk, IfErr, OnOk, OnErr, MatchResult, true, false, List, ℕ, take};
ghost use Rattle.std.specs.List.{flat_map};
ghost use Rattle.sudoers_tree.specs.Load.{LoadedPolicy, policy_or_load_fault, named_files_of_policy};

use crate::edit_reversal::{EditReversal, take_back_edit};
use crate::edits_in_place::make_edit_in_place;
use crate::fault::EditFault;
use std::alloc::{AllocError, Global};
use std::marker::Model;
use sudoers_edit_script::{Edit, Edits};
use sudoers_tree::{Items, LineChange, Policy};

/// An accepted edit, with the edits that take it back.
#[derive(Debug, Drop)]
pub struct AppliedEditWithInverse {
    pub edit: Edit,
    pub inverse: Edits,
}

/// An edit of the journal. A prune also has the changes that take it back at once.
#[derive(Drop)]
struct JournalStep {
    entry: AppliedEditWithInverse,
    changes: Option<Items<LineChange>>,
}

/// A policy, the accepted edits that stand, the oldest first, and those that were undone, the last undone at the end. The
/// policy that it began with is kept nowhere: the journal leads back to it.
#[derive(Drop)]
pub struct Editor {
    policy: Policy,
    journal: Vec<JournalStep>,
    undone: Vec<Edit>,
}

impl JournalStep {
    /// Returns the step of an edit, with what takes it back.
    fn from_edit_and_reversal(edit: Edit, back: EditReversal) -> JournalStep
        ensures entry { result.entry ≡ record { edit = edit; inverse = back.inverse } }
        ensures changes { result.changes ≡ back.changes }
    {
        JournalStep {
            entry: AppliedEditWithInverse {
                edit,
                inverse: back.inverse,
            },
            changes: back.changes,
        }
    }
}

impl Model for Editor {
    ghost use Rattle.std.specs.Prelude.{reverse};
    ghost use Rattle.sudoers_edit.specs.Editing.{EditorState, IsUndoableJournal, AreRedoableEdits};
    ghost use Rattle.sudoers_edit.specs.internal.Undone.{AreJournalReversals, entries_of_steps};

    ghost Value = { EditorState };

    ghost view = { λ editor. record { policy = editor.policy; journal = entries_of_steps editor.journal.items; undone = reverse editor.undone.items } };

    ghost invariant = { λ editor. IsUndoableJournal (reverse (entries_of_steps editor.journal.items)) editor.policy
        × AreJournalReversals (reverse editor.journal.items) editor.policy
        × AreRedoableEdits (reverse editor.undone.items) editor.policy };
}

impl Editor {
    ghost use Rattle.sudoers_edit.specs.Editing.{IsRefusalOrNoMemory, edits_of_entries, EditorState, step, inv, run, policy_or_first_refusal, inv_run, initial_policy_of_editor, StopsRunAt};
    ghost use Rattle.sudoers_edit.specs.Memory.{HasNoInnerMemoryFault};
    ghost use Rattle.sudoers_edit.specs.Undoing.{UndoesLastEdit};
    ghost use Rattle.sudoers_edit.specs.Redoing.{RedoesLastUndone, undone_edits_after_edits};

    /// Returns an editor of `policy` with an empty journal, and with nothing to make again.
    pub fn new(policy: Policy) -> Editor
        ensures policy { result.policy ≡ policy }
        ensures journal { result.journal ≡ [] }
        ensures undone { result.undone ≡ [] }
    {
        let alloc = policy.allocator();
        Editor {
            policy,
            journal: Vec::new(alloc),
            undone: Vec::new(alloc),
        }
    }

    /// Returns the policy as it stands. The edits of the journal, made one after another, lead to it from the policy with
    /// which the editor began.
    pub fn policy(&self) -> &Policy
        ensures policy { result.now ≡ self.now.policy }
        ensures forth { run (edits_of_entries self.now.journal) (initial_policy_of_editor self.now) ≡ Some result.now }
        ensures accepted { policy_or_first_refusal 0 (edits_of_entries self.now.journal) (initial_policy_of_editor self.now) ≡ Ok result.now }
    {
        &self.policy
    }

    /// Returns how many accepted edits stand.
    pub fn steps(&self) -> usize
        ensures { result ≡ length self.now.journal }
    {
        self.journal.len()
    }

    /// Returns how many undone edits can be made again.
    pub fn redos(&self) -> usize
        ensures { result ≡ length self.now.undone }
    {
        self.undone.len()
    }

    /// Makes `edit`. Once it is accepted, no undone edit can be made again.
    ///
    /// # Errors
    ///
    /// The first cause of [`EditFault`]; the editor is then as it was.
    pub fn apply(&mut self, edit: &Edit) -> Result<(), EditFault>
        // The policy is that of the definition.
        ensures step { OnOk result (step edit.now self.old.policy ≡ Ok self.new.policy) }
        // The journal grows by the edit with what takes it back.
        ensures journal { OnOk result (self.new.journal
            ≡ self.old.journal ++ record { edit = edit.now; inverse = inv edit.now self.old.policy } ∷ []) }
        // That is exactly what leads back to the policy before.
        ensures back { OnOk result (run (inv edit.now self.old.policy) self.new.policy ≡ Some self.old.policy) }
        // It still leads back to the same policy.
        ensures begun { initial_policy_of_editor self.new ≡ initial_policy_of_editor self.old }
        // No edit that was undone before can be made again.
        ensures undone { OnOk result (self.new.undone ≡ []) }
        // A refusal is the definition's, or want of memory. It changes neither policy, journal nor undone edits.
        ensures refused { IfErr result (λ fault. IsRefusalOrNoMemory fault (step edit.now self.old.policy)) }
        ensures unchanged { OnErr result (self.new ≡ self.old) }
        // Want of memory is `NoMemory` alone: no other fault holds it.
        ensures memory { IfErr result HasNoInnerMemoryFault }
    {
        let copy = edit.copy_edit(self.policy.allocator())?;
        self.journal.reserve(1)?;
        let back = make_edit_in_place(&mut self.policy, edit)?;
        self.journal
            .push(JournalStep::from_edit_and_reversal(copy, back))
            .unwrap();
        self.undone.clear();
        Ok(())
    }

    /// Takes back the last edit that stands, whole, keeps it to be made again, and returns true. Returns false if none stands.
    ///
    /// # Errors
    ///
    /// Want of memory alone; the editor is then as it was.
    pub fn undo(&mut self) -> Result<bool, EditFault>
        // The policy and the journal are those before the last edit of it, which comes first among the undone edits.
        ensures taken { result ≡ Ok true → UndoesLastEdit self.old self.new }
        // Nothing is taken back exactly where there is nothing.
        ensures none { result ≡ Ok false → (self.old.journal ≡ []) × (self.new ≡ self.old) }
        ensures empty { self.old.journal ≡ [] → result ≡ Ok false }
        ensures refused { IfErr result (λ fault. fault ≡ EditFault.NoMemory) }
        ensures unchanged { OnErr result (self.new ≡ self.old) }
        // What stands still leads back to the same policy.
        ensures begun { initial_policy_of_editor self.new ≡ initial_policy_of_editor self.old }
    {
        let Some(last) = self.journal.last() else {
            return Ok(false);
        };
        self.undone.reserve(1)?;
        take_back_edit(&mut self.policy, &last.entry.inverse, &last.changes)?;
        let step = self.journal.pop().unwrap();
        self.undone.push(step.entry.edit).unwrap();
        Ok(true)
    }

    /// Makes the last undone edit again, whole, and returns true. Returns false if there is none.
    ///
    /// # Errors
    ///
    /// Want of memory alone; the editor is then as it was.
    pub fn redo(&mut self) -> Result<bool, EditFault>
        // The policy is that of the edit, and the journal grows by it with what takes it back.
        ensures made { result ≡ Ok true → RedoesLastUndone self.old self.new }
        // A redo just after an undo gives back the policy, the journal and the undone edits before both.
        ensures back { (begun : EditorState) → UndoesLastEdit begun self.old → OnOk result (self.new ≡ begun) }
        // Nothing is made exactly where nothing is undone.
        ensures none { result ≡ Ok false → (self.old.undone ≡ []) × (self.new ≡ self.old) }
        ensures empty { self.old.undone ≡ [] → result ≡ Ok false }
        ensures refused { IfErr result (λ fault. fault ≡ EditFault.NoMemory) }
        ensures unchanged { OnErr result (self.new ≡ self.old) }
        // What stands still leads back to the same policy.
        ensures begun { initial_policy_of_editor self.new ≡ initial_policy_of_editor self.old }
    {
        let Some(undone) = self.undone.last() else {
            return Ok(false);
        };
        self.journal.reserve(1)?;
        let back = make_edit_in_place(&mut self.policy, undone)?;
        let edit = self.undone.pop().unwrap();
        self.journal
            .push(JournalStep::from_edit_and_reversal(edit, back))
            .unwrap();
        Ok(true)
    }

    /// Makes the edits `edits` in their order, up to the first that is refused.
    ///
    /// # Errors
    ///
    /// The place of the first refused edit, from 0, and why; the edits before it stay.
    pub fn apply_all(&mut self, edits: &[Edit]) -> Result<(), (usize, EditFault)>
        // Each policy on the way is the definition's: that of the edits made so far.
        ensures policy { MatchResult result (λ _. run edits.now self.old.policy ≡ Some self.new.policy)
            (λ refused. run (take refused.0 edits.now) self.old.policy ≡ Some self.new.policy) }
        ensures journal { MatchResult result (λ _. edits_of_entries self.new.journal ≡ edits_of_entries self.old.journal ++ edits.now)
            (λ refused. edits_of_entries self.new.journal ≡ edits_of_entries self.old.journal ++ take refused.0 edits.now) }
        // It stops exactly where the definition does.
        ensures accepted { OnOk result (policy_or_first_refusal 0 edits.now self.old.policy ≡ Ok self.new.policy) }
        ensures refused { IfErr result (λ refused. StopsRunAt refused.0 refused.1 edits.now self.old.policy) }
        ensures place { IfErr result (λ refused. refused.0 < length edits.now) }
        // Want of memory is `NoMemory` alone: no other fault holds it.
        ensures memory { IfErr result (λ refused. HasNoInnerMemoryFault refused.1) }
        ensures begun { initial_policy_of_editor self.new ≡ initial_policy_of_editor self.old }
        // After an edit that was made, no edit that was undone before can be made again. If none was made, the undone edits stay.
        ensures undone { MatchResult result (λ _. self.new.undone ≡ undone_edits_after_edits edits.now self.old.undone)
            (λ refused. self.new.undone ≡ undone_edits_after_edits (take refused.0 edits.now) self.old.undone) }
    {
        for (place, edit) in edits.iter().enumerate() {
            if let Err(fault) = self.apply(edit) {
                return Err((place, fault));
            }
        }
        Ok(())
    }

    /// Returns the edits that take back all that stand, those for the newest first.
    ///
    /// # Errors
    ///
    /// Want of memory alone.
    pub fn inverse(&self) -> Result<Edits, AllocError>
        // They are exactly the definition's, not just some that restore.
        ensures exact { IfOk result (λ edits. edits
            ≡ inv_run (edits_of_entries self.now.journal) (initial_policy_of_editor self.now)) }
        // The inverse edits lead back, byte for byte, and none of them is refused.
        ensures restores { IfOk result (λ edits. run edits self.now.policy ≡ Some (initial_policy_of_editor self.now)) }
        ensures accepted { IfOk result (λ edits. policy_or_first_refusal 0 edits self.now.policy ≡ Ok (initial_policy_of_editor self.now)) }
    {
        inverses_of_journal(self.policy.allocator(), self.journal.as_slice())
    }
}

/// Returns the inverses of the steps `journal`, the last step's first.
fn inverses_of_journal(alloc: Global, journal: &[JournalStep]) -> Result<Edits, AllocError>
    ensures { IfOk result (λ edits. edits ≡ flat_map (λ step. step.entry.inverse) (reverse journal.now)) }
{
    let mut edits = Edits::new(alloc);
    let mut left = journal;
    while let Some((step, before)) = left.split_last() {
        append_edit_copies(alloc, &mut edits, step.entry.inverse.as_slice())?;
        left = before;
    }
    Ok(edits)
}

fn append_edit_copies(alloc: Global, to: &mut Edits, from: &[Edit]) -> Result<(), AllocError>
    ensures { OnOk result (to.new ≡ to.old ++ from.now) }
{
    for edit in from {
        to.push(edit.copy_edit(alloc)?)?;
    }
    Ok(())
}
