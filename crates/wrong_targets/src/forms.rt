//! Forms of a policy that sudo or sudo-rs refuses.

ghost use Rattle.std.specs.Prelude.{◌≡◌, IfOk};
ghost use Rattle.sudoers_forms.specs.Forms.{forms_of_lines};
ghost use Rattle.sudoers_forms.specs.SudoRs.{rs_forms_of_lines};

use std::alloc::{AllocError, Global};
use sudoers_forms::{
    RefusedBySudoRs, RefusedForm, SudoForms, list_forms_for_sudo, list_forms_for_sudo_rs,
    list_refused_forms,
};
use sudoers_tree::Policy;

/// Returns the forms of `policy` that sudo refuses or reads otherwise, in the order of the lines.
///
/// # Errors
///
/// Memory ran out.
pub fn list_forms_that_sudo_refuses(
    alloc: Global,
    policy: &Policy,
) -> Result<Vec<RefusedForm>, AllocError>
    ensures { IfOk result (λ refused. refused.items ≡ forms_of_lines 0 policy.now.walk.lines) }
{
    list_refused_forms(alloc, policy)
}

/// Returns the forms of `policy` for sudo, of which those that it refuses or reads otherwise are in the order of the lines.
///
/// # Errors
///
/// Memory ran out.
pub fn find_forms_for_sudo(alloc: Global, policy: &Policy) -> Result<SudoForms, AllocError>
    ensures refused { IfOk result (λ forms. forms.refused.items ≡ forms_of_lines 0 policy.now.walk.lines) }
{
    list_forms_for_sudo(alloc, policy)
}

/// Returns the forms of `policy` that sudo-rs refuses, in the order of the lines.
///
/// # Errors
///
/// Memory ran out.
pub fn list_forms_that_sudo_rs_refuses(
    alloc: Global,
    policy: &Policy,
) -> Result<Vec<RefusedBySudoRs>, AllocError>
    ensures { IfOk result (λ refused. refused.items ≡ rs_forms_of_lines 0 policy.now.walk.lines) }
{
    list_forms_for_sudo_rs(alloc, policy)
}
