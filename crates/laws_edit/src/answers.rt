//! The answer of an editor's policy to a request.

ghost use Rattle.std.specs.Prelude.{◌≡◌, ◌⊎◌, ◌<◌, ◌≤◌, length, Some, IfOk, IfErr};
ghost use Rattle.std.specs.Option.{option_map};
ghost use Rattle.sudoers_check.specs.Chains.{HasCyclicAliasReachedFromSpecOrDefaults};
ghost use Rattle.sudoers_match_list.specs.declared.verdict.AskFault.TheVariants.{Cycle, TooLong, NoMemory};
ghost use Rattle.sudoers_edit.specs.Editing.{edits_of_entries, initial_policy_of_editor, run};
ghost use Rattle.sudoers_match.specs.Answer.{IsAnswerToRequest, answer_of_view, joined_arguments_limit, words_joined_with_spaces};

use std::alloc::Global;
use sudoers_edit::Editor;
use sudoers_match::{Answer, AskFault, Request, find_answer, find_runas_default_for};
use sudoers_match_list::AcyclicWalk;
use sudoers_tree::laws::loaded_is_walk;

/// Returns the answer to `request` of the policy of `editor`, as it stands: of the last row that fits. The edits of the journal lead to
/// that policy from the first one, whether they were applied one by one or in a list that was refused in the middle, and whether
/// some were undone and made again.
///
/// # Errors
///
/// `Cycle`: a reachable alias is cyclic. `TooLong`: the arguments, joined by single spaces, are longer than 65,536 bytes. `NoMemory`:
/// memory ran out.
pub fn answer_of_editor_policy<'a>(
    alloc: Global,
    editor: &'a Editor,
    request: &Request,
) -> Result<Option<Answer<'a>>, AskFault>
    ensures forth { run (edits_of_entries editor.now.journal) (initial_policy_of_editor editor.now) ≡ Some editor.now.policy }
    ensures answer { IfOk result (λ answer. IsAnswerToRequest editor.now.policy.walk.lines request.now (option_map answer_of_view answer)) }
    ensures straight { IfOk result (λ _. HasCyclicAliasReachedFromSpecOrDefaults editor.now.policy.walk.lines → ⊥) }
    ensures short { IfOk result (λ _. length (words_joined_with_spaces request.now.args) ≤ joined_arguments_limit) }
    ensures fault { IfErr result (λ fault. (fault ≡ NoMemory) ⊎ (((fault ≡ Cycle) × HasCyclicAliasReachedFromSpecOrDefaults editor.now.policy.walk.lines)
        ⊎ ((fault ≡ TooLong) × (HasCyclicAliasReachedFromSpecOrDefaults editor.now.policy.walk.lines → ⊥) × (joined_arguments_limit < length (words_joined_with_spaces request.now.args))))) }
{
    let policy = editor.policy();
    policy.is_loaded();
    loaded_is_walk();
    let acyclic = AcyclicWalk::new(alloc, policy.walk())?;
    let default = find_runas_default_for(alloc, &acyclic, &request.who)?;
    match find_answer(alloc, &acyclic, request, default)? {
        Some(found) => Ok(Some(found.answer)),
        None => Ok(None),
    }
}
