//! Laws of edits of policies. Each is the contract of a function that does nothing.

ghost use Rattle.std.specs.List.{filter};
ghost use Rattle.std.specs.Prelude.{◌≡◌, ◌↔◌, ◌⊎◌, ℕ, List, Option, Ok, true, false};
ghost use Rattle.sudoers_text.specs.Renamed.{IsDefinableName};
ghost use Rattle.sudoers_grammar.specs.declared.node.Kind.{Kind as KindOf};
ghost use Rattle.sudoers_tree.specs.Definition.{definition_place_of_name};
ghost use Rattle.sudoers_tree.specs.Fault.{is_some};
ghost use Rattle.sudoers_tree.specs.Files.{lines_of_numbered_file};
ghost use Rattle.sudoers_tree.specs.Line.{Line as LineOf};
ghost use Rattle.sudoers_tree.specs.Load.{LoadedPolicy, named_files_of_policy, policy_or_load_fault};
ghost use Rattle.sudoers_tree.specs.Policy.{AreValidWalkLines};
ghost use Rattle.sudoers_tree.specs.Walk.{is_file_on_walk};
ghost use Rattle.sudoers_check.specs.Chains.{HasCyclicAliasReachedFromSpecOrDefaults};
ghost use Rattle.sudoers_match_member.specs.declared.people_and_commands.Who.{Who as WhoOf};
ghost use Rattle.sudoers_match_member.specs.declared.request.Request.{Request as RequestOf};
ghost use Rattle.sudoers_match.specs.Answer.{Answer as AnswerOf, IsAnswerToRequest};
ghost use Rattle.sudoers_match.specs.Default.{IsRunasDefault};
ghost use Rattle.sudoers_match.specs.Groups.{ArePlacesOfMatchingHostGroups};
ghost use Rattle.sudoers_match.specs.declared.matching_host_groups.HostGroupPlace.{HostGroupPlace as GroupPlaceOf};
ghost use Rattle.sudoers_edit_script.specs.declared.edit.Edit.{Edit as EditOf};
ghost use Rattle.sudoers_edit_script.specs.declared.edit.Edit.TheVariants.{AddMember, DropMember, Rename};
ghost use Rattle.sudoers_edit.specs.Editing.{step as step_of};
ghost use Rattle.sudoers_edit.specs.Renaming.{is_alias_name_in_use};
ghost use Rattle.sudoers_edit.specs.Renamed.{lines_after_rename};
ghost use Rattle.laws_edit.specs.MayChange.{MayChangeFile};
ghost use Rattle.laws_edit.specs.MemberEdits.{ChangesLineOfAlias, KeepsOtherAliases, ListsOneMemberMore};
ghost use Rattle.laws_edit.specs.Pruned.{KeepsReachableAliasesOnly, has_no_alias_definition};

use sudoers_check::laws::chains_are;
use sudoers_edit::Edit;
use sudoers_edit::laws::{inverse_leads_back, prune_leaves_the_used, rename_is_taken_back};
use sudoers_grammar::laws::renamed_line;
use sudoers_match::laws::unreachable_definitions_change_no_answer;
use sudoers_match_list::laws::{alike_lists_lead_to_cycle, alike_lists_say_same};
use sudoers_tree::laws::loaded_is_walk;

/// A prune that is not refused leaves exactly the aliases to which a chain of mentions leads from a user specification or a Defaults line,
/// with their members. It leaves every line that defines no alias. All of this is said of the lines of the walk.
pub fn prune_leaves_the_reachable()
    ensures { (policy new : LoadedPolicy) → policy_or_load_fault (named_files_of_policy policy) ≡ Ok policy → step_of Edit.Prune policy ≡ Ok new
        → KeepsReachableAliasesOnly policy.walk.lines new.walk.lines }
{
    prune_leaves_the_used();
    chains_are();
}

/// A rename of a defined alias changes no answer, if the new name is neither defined nor mentioned in the kind. Each user has the same
/// runas_default, and rules at the same places. A reachable alias is cyclic in both policies, or in neither.
pub fn rename_changes_no_answer()
    ensures answer { (kind : KindOf) (name fresh : List ℕ) (lines : List LineOf) → is_some (definition_place_of_name kind name lines) ≡ true
        → is_alias_name_in_use kind fresh lines ≡ false
        → (request : RequestOf) (answer : Option AnswerOf)
        → IsAnswerToRequest lines request answer ↔ IsAnswerToRequest (lines_after_rename kind name fresh lines) request answer }
    ensures default { (kind : KindOf) (name fresh : List ℕ) (lines : List LineOf) → is_some (definition_place_of_name kind name lines) ≡ true
        → is_alias_name_in_use kind fresh lines ≡ false
        → (who : WhoOf) (user : List ℕ) → IsRunasDefault lines who user ↔ IsRunasDefault (lines_after_rename kind name fresh lines) who user }
    ensures groups { (kind : KindOf) (name fresh : List ℕ) (lines : List LineOf) → is_some (definition_place_of_name kind name lines) ≡ true
        → is_alias_name_in_use kind fresh lines ≡ false
        → (who : WhoOf) (places : List GroupPlaceOf)
        → ArePlacesOfMatchingHostGroups lines who places ↔ ArePlacesOfMatchingHostGroups (lines_after_rename kind name fresh lines) who places }
    ensures cycle { (kind : KindOf) (name fresh : List ℕ) (lines : List LineOf) → is_some (definition_place_of_name kind name lines) ≡ true
        → is_alias_name_in_use kind fresh lines ≡ false → AreValidWalkLines lines → IsDefinableName fresh
        → HasCyclicAliasReachedFromSpecOrDefaults lines ↔ HasCyclicAliasReachedFromSpecOrDefaults (lines_after_rename kind name fresh lines) }
{
    renamed_line();
    alike_lists_say_same();
    alike_lists_lead_to_cycle();
}

/// A rename that is not refused changes no answer. Each user has the same runas_default, and rules at the same places. A reachable alias
/// is cyclic in both policies, or in neither.
pub fn accepted_rename_changes_no_answer()
    ensures answer { (kind : KindOf) (name fresh : List ℕ) (policy new : LoadedPolicy) → policy_or_load_fault (named_files_of_policy policy) ≡ Ok policy
        → step_of (Rename kind name fresh) policy ≡ Ok new
        → (request : RequestOf) (answer : Option AnswerOf) → IsAnswerToRequest policy.walk.lines request answer ↔ IsAnswerToRequest new.walk.lines request answer }
    ensures default { (kind : KindOf) (name fresh : List ℕ) (policy new : LoadedPolicy) → policy_or_load_fault (named_files_of_policy policy) ≡ Ok policy
        → step_of (Rename kind name fresh) policy ≡ Ok new
        → (who : WhoOf) (user : List ℕ) → IsRunasDefault policy.walk.lines who user ↔ IsRunasDefault new.walk.lines who user }
    ensures groups { (kind : KindOf) (name fresh : List ℕ) (policy new : LoadedPolicy) → policy_or_load_fault (named_files_of_policy policy) ≡ Ok policy
        → step_of (Rename kind name fresh) policy ≡ Ok new
        → (who : WhoOf) (places : List GroupPlaceOf) → ArePlacesOfMatchingHostGroups policy.walk.lines who places ↔ ArePlacesOfMatchingHostGroups new.walk.lines who places }
    ensures cycle { (kind : KindOf) (name fresh : List ℕ) (policy new : LoadedPolicy) → policy_or_load_fault (named_files_of_policy policy) ≡ Ok policy
        → step_of (Rename kind name fresh) policy ≡ Ok new → HasCyclicAliasReachedFromSpecOrDefaults policy.walk.lines ↔ HasCyclicAliasReachedFromSpecOrDefaults new.walk.lines }
{
    rename_is_taken_back();
    loaded_is_walk();
    rename_changes_no_answer();
}

/// A prune that is not refused changes no answer. Each user has the same runas_default, and rules at the same places. A reachable alias
/// is cyclic in both policies, or in neither.
pub fn prune_changes_no_answer()
    ensures answer { (policy new : LoadedPolicy) → policy_or_load_fault (named_files_of_policy policy) ≡ Ok policy → step_of Edit.Prune policy ≡ Ok new
        → (request : RequestOf) (answer : Option AnswerOf) → IsAnswerToRequest policy.walk.lines request answer ↔ IsAnswerToRequest new.walk.lines request answer }
    ensures default { (policy new : LoadedPolicy) → policy_or_load_fault (named_files_of_policy policy) ≡ Ok policy → step_of Edit.Prune policy ≡ Ok new
        → (who : WhoOf) (user : List ℕ) → IsRunasDefault policy.walk.lines who user ↔ IsRunasDefault new.walk.lines who user }
    ensures groups { (policy new : LoadedPolicy) → policy_or_load_fault (named_files_of_policy policy) ≡ Ok policy → step_of Edit.Prune policy ≡ Ok new
        → (who : WhoOf) (places : List GroupPlaceOf) → ArePlacesOfMatchingHostGroups policy.walk.lines who places ↔ ArePlacesOfMatchingHostGroups new.walk.lines who places }
    ensures cycle { (policy new : LoadedPolicy) → policy_or_load_fault (named_files_of_policy policy) ≡ Ok policy → step_of Edit.Prune policy ≡ Ok new
        → HasCyclicAliasReachedFromSpecOrDefaults policy.walk.lines ↔ HasCyclicAliasReachedFromSpecOrDefaults new.walk.lines }
{
    prune_leaves_the_used();
    inverse_leads_back();
    loaded_is_walk();
    chains_are();
    unreachable_definitions_change_no_answer();
}

/// An edit that is not refused leaves the lines of each file that it does not change, byte for byte, with what they say.
pub fn edits_keep_other_files()
    ensures { (edit : EditOf) (policy new : LoadedPolicy) (f : ℕ) → policy_or_load_fault (named_files_of_policy policy) ≡ Ok policy → step_of edit policy ≡ Ok new
        → (MayChangeFile edit policy f → ⊥) → lines_of_numbered_file new.files f ≡ lines_of_numbered_file policy.files f }
{
    rename_is_taken_back();
}

/// A prune that is not refused leaves in each file every line that defines no alias, byte for byte and in its order. A file that is not on
/// the walk keeps all its lines.
pub fn prune_keeps_other_lines_of_each_file()
    ensures others { (policy new : LoadedPolicy) (f : ℕ) → policy_or_load_fault (named_files_of_policy policy) ≡ Ok policy → step_of Edit.Prune policy ≡ Ok new
        → filter has_no_alias_definition (lines_of_numbered_file new.files f) ≡ filter has_no_alias_definition (lines_of_numbered_file policy.files f) }
    ensures off { (policy new : LoadedPolicy) (f : ℕ) → policy_or_load_fault (named_files_of_policy policy) ≡ Ok policy → step_of Edit.Prune policy ≡ Ok new
        → is_file_on_walk policy.walk f ≡ false → lines_of_numbered_file new.files f ≡ lines_of_numbered_file policy.files f }
{
    edits_keep_other_files();
}

/// A member that an edit puts into the list of an alias, or takes out of it, leaves the other members as they were, in their order. Of all
/// lines of the files that one changes that defines the alias. The other aliases keep their members.
pub fn member_edits_change_one_member()
    ensures added { (kind : KindOf) (name splice : List ℕ) (at : ℕ) (policy new : LoadedPolicy) → policy_or_load_fault (named_files_of_policy policy) ≡ Ok policy
        → step_of (AddMember kind name at splice) policy ≡ Ok new → ListsOneMemberMore kind name at new policy × ChangesLineOfAlias kind name policy new }
    ensures dropped { (kind : KindOf) (name : List ℕ) (at : ℕ) (policy new : LoadedPolicy) → policy_or_load_fault (named_files_of_policy policy) ≡ Ok policy
        → step_of (DropMember kind name at) policy ≡ Ok new → ListsOneMemberMore kind name at policy new × ChangesLineOfAlias kind name policy new }
    ensures others { (kind : KindOf) (name splice : List ℕ) (at : ℕ) (policy new : LoadedPolicy) → policy_or_load_fault (named_files_of_policy policy) ≡ Ok policy
        → (step_of (AddMember kind name at splice) policy ≡ Ok new) ⊎ (step_of (DropMember kind name at) policy ≡ Ok new)
        → KeepsOtherAliases kind name policy new }
{}
