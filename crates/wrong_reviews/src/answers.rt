//! The answer of an editor's policy to a request.

ghost use Rattle.std.specs.Prelude.{IfOk};
ghost use Rattle.std.specs.Option.{option_map};
ghost use Rattle.sudoers_match.specs.Answer.{IsAnswerToRequest, answer_of_view};

use laws_edit::answer_of_editor_policy;
use std::alloc::Global;
use sudoers_edit::Editor;
use sudoers_match::{Answer, AskFault, Request};

/// Returns the answer to `request` of the policy of `editor`, as it stands.
///
/// # Errors
///
/// Those of `answer_of_editor_policy`.
pub fn answer_after_edits<'a>(
    alloc: Global,
    editor: &'a Editor,
    request: &Request,
) -> Result<Option<Answer<'a>>, AskFault>
    ensures answer { IfOk result (λ answer. IsAnswerToRequest editor.now.policy.walk.lines request.now (option_map answer_of_view answer)) }
{
    answer_of_editor_policy(alloc, editor, request)
}
