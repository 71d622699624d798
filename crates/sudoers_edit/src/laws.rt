//! Laws of edits. Each is the contract of a function that does nothing.

ghost use Rattle.std.specs.Prelude.{◌≡◌, ◌+◌, ◌≤◌, ◌<◌, length, remove, slice_get, true, false, List, ℕ, None, Some, Ok, Err};
ghost use Rattle.sudoers_text.specs.Renamed.{IsDefinableName};
ghost use Rattle.sudoers_grammar.specs.Node.{Def as ADef};
ghost use Rattle.sudoers_grammar.specs.Node as node_of;
ghost use Rattle.sudoers_grammar.specs.declared.node.Kind.{Kind as AKind};
ghost use Rattle.sudoers_tree.specs.Definition.{definition_place_of_name};
ghost use Rattle.sudoers_tree.specs.Fault.{is_some};
ghost use Rattle.sudoers_tree.specs.Files.{lines_of_numbered_file};
ghost use Rattle.sudoers_tree.specs.Lead.{lead_of_parsed_line};
ghost use Rattle.sudoers_tree.specs.Line.{Line as LineOf};
ghost use Rattle.sudoers_tree.specs.Load.{LoadedPolicy, named_files_of_policy, policy_or_load_fault};
ghost use Rattle.sudoers_tree.specs.Policy.{texts_of_lines};
ghost use Rattle.sudoers_tree.specs.Walk.{is_file_on_walk};
ghost use Rattle.sudoers_edit.specs.Named.{HaveSpellableNames, spelling_or_too_many};
ghost use Rattle.sudoers_edit.specs.Payload.{inserted_byte_count_of_edits, is_removing_edit};
ghost use Rattle.sudoers_edit.specs.Pruned.{ArePrunedLines};
ghost use Rattle.sudoers_edit.specs.Renaming.{is_alias_name_in_use, named_files_after_rename};
ghost use Rattle.sudoers_edit.specs.declared.fault.EditFault.{EditFault as AFault};
ghost use Rattle.sudoers_edit.specs.Editing.{EditorState, step as step_of, inv, policy_or_first_refusal, inv_run, edits_of_prune, run_result_without_place};
ghost use Rattle.sudoers_edit.specs.Redoing.{RedoesLastUndone};
ghost use Rattle.sudoers_edit.specs.Renamed.{RenamedFilesAreWithinLimits, IsPolicyAfterRename};
ghost use Rattle.sudoers_edit.specs.Undoing.{UndoesLastEdit};
ghost use Rattle.sudoers_edit.specs.WayBack.{HasRestoringInverse, byte_count_of_files, names_of_named_files};
ghost use Rattle.sudoers_edit_script.specs.Script.{script_or_first_fault};
ghost use Rattle.sudoers_edit_script.specs.ScriptReading.{edits_spelled_by_text};
ghost use Rattle.sudoers_edit_script.specs.declared.edit.Edit.{Edit as AnEdit};

use crate::fault::EditFault;
use sudoers_edit_script::Edit;
use sudoers_edit_script::laws::read_is_spelling;

/// The names in edits that were read from a script have a spelling. So do the names in what takes such edits back. Edits whose names
/// have a spelling have a script, unless they are too many.
pub fn named_are_written()
    ensures read { (text : List ℕ) (edits : List AnEdit) → edits_spelled_by_text text ≡ Ok edits → HaveSpellableNames edits }
    ensures back { (edits : List AnEdit) (policy : LoadedPolicy) → HaveSpellableNames edits → HaveSpellableNames (inv_run edits policy) }
    ensures written { (edits : List AnEdit) → HaveSpellableNames edits → script_or_first_fault edits ≡ spelling_or_too_many edits }
{
    read_is_spelling();
}

/// Edits of a policy that are accepted lead to a policy, and their inverse edits lead from it to the policy before them; and the
/// inverse edits of inverse edits are as many as these.
pub fn inverse_leads_back()
    ensures back { (edits : List AnEdit) (policy new : LoadedPolicy) → policy_or_load_fault (named_files_of_policy policy) ≡ Ok policy → policy_or_first_refusal 0 edits policy ≡ Ok new
        → HasRestoringInverse edits policy new }
    ensures count { (edits : List AnEdit) (policy other : LoadedPolicy) → length (inv_run (inv_run edits policy) other) ≡ length (inv_run edits policy) }
{}

/// What takes an edit back carries exactly as many bytes as the edit took out, if it deleted a line or dropped members or definitions,
/// and none otherwise. The payload of the undo script shows how much is missing.
pub fn inverse_carries_what_was_taken_out()
    ensures taken { (edit : AnEdit) (policy new : LoadedPolicy) → is_removing_edit edit ≡ true → policy_or_load_fault (named_files_of_policy policy) ≡ Ok policy
        → step_of edit policy ≡ Ok new → byte_count_of_files (named_files_of_policy new) + inserted_byte_count_of_edits (inv edit policy) ≡ byte_count_of_files (named_files_of_policy policy) }
    ensures none { (edit : AnEdit) (policy : LoadedPolicy) → is_removing_edit edit ≡ false → inserted_byte_count_of_edits (inv edit policy) ≡ 0 }
{}

/// Edits that are accepted keep the names of the files, and their order.
pub fn edits_keep_names()
    ensures { (edits : List AnEdit) (policy new : LoadedPolicy) → policy_or_first_refusal 0 edits policy ≡ Ok new → names_of_named_files (named_files_of_policy new) ≡ names_of_named_files (named_files_of_policy policy) }
{}

/// A law: Prune is the edits of its list, made one after another: it is refused as the first of them that is, and its inverse is
/// theirs.
pub fn prune_is_its_list()
    ensures step { (policy : LoadedPolicy) → step_of Edit.Prune policy ≡ run_result_without_place (policy_or_first_refusal 0 (edits_of_prune policy) policy) }
    ensures inverse { (policy : LoadedPolicy) → inv Edit.Prune policy ≡ inv_run (edits_of_prune policy) policy }
{}

/// A policy without a line that leads nowhere, of a file on the walk, is a policy: what is left of it.
pub fn policy_without_line_is_one()
    ensures { (policy : LoadedPolicy) (f n : ℕ) (line : LineOf) → policy_or_load_fault (named_files_of_policy policy) ≡ Ok policy → is_file_on_walk policy.walk f ≡ true
        → slice_get (lines_of_numbered_file policy.files f) n ≡ Some line → ((name : List ℕ) → lead_of_parsed_line name line.node ≡ None)
        → (next : LoadedPolicy) × (step_of (Edit.Delete f n) policy ≡ Ok next)
        × (texts_of_lines (lines_of_numbered_file next.files f) ≡ remove (texts_of_lines (lines_of_numbered_file policy.files f)) n) }
{}

/// A drop of a definition that stands in its line with others, of a file on the walk, is refused for a splice alone. The line would not
/// read as before but for that definition, or this would not own exactly the bytes that go with it.
pub fn drop_is_refused_for_a_splice_alone()
    ensures { (policy : LoadedPolicy) (line : LineOf) (kind : AKind) (defs : List ADef) (f n at : ℕ) (fault : AFault)
        → policy_or_load_fault (named_files_of_policy policy) ≡ Ok policy → is_file_on_walk policy.walk f ≡ true → slice_get (lines_of_numbered_file policy.files f) n ≡ Some line
        → line.node ≡ node_of.Alias kind defs → at < length defs → 2 ≤ length defs
        → step_of (Edit.DropDef f n at) policy ≡ Err fault → fault ≡ EditFault.BadSplice }
{}

/// A prune is refused for a splice alone: a line would not read as before but for a definition that goes, or this would not own exactly the
/// bytes that go with it.
pub fn prune_is_refused_for_a_splice_alone()
    ensures { (policy : LoadedPolicy) (fault : AFault) → policy_or_load_fault (named_files_of_policy policy) ≡ Ok policy → step_of Edit.Prune policy ≡ Err fault → fault ≡ EditFault.BadSplice }
{}

/// A prune leaves of each line of the walk the definitions that are not unused, in their order, and each other line as it was.
pub fn prune_leaves_the_used()
    ensures { (policy new : LoadedPolicy) → policy_or_load_fault (named_files_of_policy policy) ≡ Ok policy → step_of Edit.Prune policy ≡ Ok new
        → ArePrunedLines policy.walk.lines 0 policy.walk.lines new.walk.lines }
{}

/// A law: an edit that is taken back and then made again leaves the policy, the journal and the undone edits as they were.
pub fn redo_takes_undo_back()
    ensures { (old mid new : EditorState) → UndoesLastEdit old mid → RedoesLastUndone mid new → new ≡ old }
{}

/// A policy with another name for an alias that it defines is a policy, while lines and files are within the limits. The new name may
/// define an alias, and defines none of the kind yet.
pub fn renamed_policy_is_one()
    ensures { (kind : AKind) (name fresh : List ℕ) (policy : LoadedPolicy) → policy_or_load_fault (named_files_of_policy policy) ≡ Ok policy
        → is_some (definition_place_of_name kind name policy.walk.lines) ≡ true → IsDefinableName fresh → is_some (definition_place_of_name kind fresh policy.walk.lines) ≡ false
        → RenamedFilesAreWithinLimits kind name fresh policy
        → (new : LoadedPolicy) × (policy_or_load_fault (named_files_after_rename kind name fresh policy) ≡ Ok new) × IsPolicyAfterRename kind name fresh policy new }
{}

/// A rename of a defined alias is refused for its size alone: a line of the walk or a file on it would be too long. The new name may
/// define an alias, and is neither defined nor mentioned in the kind.
pub fn rename_is_refused_for_its_size_alone()
    ensures { (kind : AKind) (name fresh : List ℕ) (policy : LoadedPolicy) (fault : AFault) → policy_or_load_fault (named_files_of_policy policy) ≡ Ok policy
        → is_some (definition_place_of_name kind name policy.walk.lines) ≡ true → IsDefinableName fresh → is_alias_name_in_use kind fresh policy.walk.lines ≡ false
        → step_of (Edit.Rename kind name fresh) policy ≡ Err fault → fault ≡ EditFault.TooLarge }
{}

/// Within the limits such a rename leads to the policy with the new name, and any rename that is made does. One rename takes it back:
/// the old name, given again, leads to the policy before.
pub fn rename_is_taken_back()
    ensures forth { (kind : AKind) (name fresh : List ℕ) (policy : LoadedPolicy) → policy_or_load_fault (named_files_of_policy policy) ≡ Ok policy
        → is_some (definition_place_of_name kind name policy.walk.lines) ≡ true → IsDefinableName fresh → is_alias_name_in_use kind fresh policy.walk.lines ≡ false
        → RenamedFilesAreWithinLimits kind name fresh policy
        → (new : LoadedPolicy) × (step_of (Edit.Rename kind name fresh) policy ≡ Ok new) × IsPolicyAfterRename kind name fresh policy new }
    ensures are { (kind : AKind) (name fresh : List ℕ) (policy new : LoadedPolicy) → policy_or_load_fault (named_files_of_policy policy) ≡ Ok policy
        → step_of (Edit.Rename kind name fresh) policy ≡ Ok new → IsPolicyAfterRename kind name fresh policy new }
    ensures back { (kind : AKind) (name fresh : List ℕ) (policy new : LoadedPolicy) → policy_or_load_fault (named_files_of_policy policy) ≡ Ok policy
        → step_of (Edit.Rename kind name fresh) policy ≡ Ok new → step_of (Edit.Rename kind fresh name) new ≡ Ok policy }
{}
