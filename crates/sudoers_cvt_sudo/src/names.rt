//! A line in which the names that sudo refuses are spelled otherwise.

ghost use Rattle.std.specs.Prelude.{◌≡◌, IfOk};
ghost use Rattle.sudoers_cvt_sudo.specs.Names.{line_with_spelled_names, refused_forms_of_text, rest_with_spelled_names};

use crate::name_spelling::NameSpelling;
use std::alloc::{AllocError, Global};
use sudoers_defaults::take_bytes_between;
use sudoers_forms::{RefusedForm, list_refused_forms};
use sudoers_tree::{LoadFault, Policy};

/// Returns `line`, with each name that sudo refuses for its spelling as `spelling` says.
///
/// # Errors
///
/// Memory ran out.
pub fn spell_names(
    alloc: Global,
    spelling: NameSpelling,
    line: &[u8],
) -> Result<Vec<u8>, AllocError>
    ensures { IfOk result (λ spelled. spelled.items ≡ line_with_spelled_names spelling line.now) }
{
    let forms = list_refused_forms_of_text(alloc, line)?;
    join_spelled_names(alloc, spelling, line, forms.as_slice())
}

/// Returns the forms that sudo refuses in `text`, which is the only file of its policy; none if it is no policy.
///
/// # Errors
///
/// Memory ran out.
pub fn list_refused_forms_of_text(
    alloc: Global,
    text: &[u8],
) -> Result<Vec<RefusedForm>, AllocError>
    ensures { IfOk result (λ refused. refused.items ≡ refused_forms_of_text text.now) }
{
    match Policy::read(alloc, text) {
        Ok(policy) => list_refused_forms(alloc, &policy),
        Err(LoadFault::NoMemory) => Err(AllocError),
        Err(_) => Ok(Vec::new(alloc)),
    }
}

/// Returns `line`, with each text of the forms `forms` as `spelling` says.
fn join_spelled_names(
    alloc: Global,
    spelling: NameSpelling,
    line: &[u8],
    forms: &[RefusedForm],
) -> Result<Vec<u8>, AllocError>
    ensures { IfOk result (λ spelled. spelled.items ≡ rest_with_spelled_names spelling line.now 0 forms.now) }
{
    let mut spelled = Vec::with_capacity(alloc, line.len())?;
    let mut at = 0;
    for refused in forms {
        let place = refused.at;
        spelled.extend_from_slice(take_bytes_between(line, at, place.start))?;
        let text = take_bytes_between(line, place.start, place.stop);
        spelling.append_text(refused.form, text, &mut spelled)?;
        at = place.stop;
    }
    spelled.extend_from_slice(line.get(at..).unwrap_or(&[]))?;
    Ok(spelled)
}
