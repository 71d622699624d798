//! Forms of a policy for which sudo answers a request otherwise.

ghost use Rattle.std.specs.Prelude.{◌≡◌, IfOk};
ghost use Rattle.sudoers_forms.specs.Answers.{other_answers_of_lines};

use std::alloc::{AllocError, Global};
use sudoers_forms::{SudoForms, list_forms_for_sudo};
use sudoers_tree::Policy;

/// Returns the forms of `policy` for sudo, of which those for which it answers otherwise are in the order of the lines.
///
/// # Errors
///
/// Memory ran out.
pub fn find_forms_with_other_answers(
    alloc: Global,
    policy: &Policy,
) -> Result<SudoForms, AllocError>
    ensures answers { IfOk result (λ forms. forms.answers.items ≡ other_answers_of_lines 0 policy.now.walk.lines) }
{
    list_forms_for_sudo(alloc, policy)
}
