//! What a policy answers to a request after edits.

use crate::answer_output::push_deciding_row_or_fault;
use laws_edit::answer_of_editor_policy;
use std::alloc::{AllocError, Global};
use sudoers_edit::{Edit, EditFault, Editor, ScriptFault, read_script};
use sudoers_match::Request;
use sudoers_tree::{LoadFault, Policy};

/// Adds what the policy `text` answers to `request` after the edits of `script`; `no policy` or `no script` if it is none, `refused` if
/// an edit is.
pub fn push_row_of_request_after_script_on_policy_text(
    alloc: Global,
    text: &[u8],
    script: &[u8],
    request: &Request,
    answers: &mut String,
) -> Result<(), AllocError> {
    match Policy::read(alloc, text) {
        Ok(policy) => push_row_of_request_after_script_on_policy(
            alloc, policy, script, request, answers,
        ),
        Err(LoadFault::NoMemory) => Err(AllocError),
        Err(_) => answers.push_str("no policy"),
    }
}

/// Adds what `policy` answers to `request` after the edits of `script`; `no script` if it is none, `refused` if an edit is.
fn push_row_of_request_after_script_on_policy(
    alloc: Global,
    policy: Policy,
    script: &[u8],
    request: &Request,
    answers: &mut String,
) -> Result<(), AllocError> {
    let mut editor = Editor::new(policy);
    match read_script(alloc, script) {
        Ok(edits) => push_row_of_request_after_edits(
            alloc,
            &mut editor,
            edits.as_slice(),
            request,
            answers,
        ),
        Err(ScriptFault::NoMemory) => Err(AllocError),
        Err(_) => answers.push_str("no script"),
    }
}

/// Adds what the editor's policy answers to `request` after `edits`; `refused` if one is refused.
fn push_row_of_request_after_edits(
    alloc: Global,
    editor: &mut Editor,
    edits: &[Edit],
    request: &Request,
    answers: &mut String,
) -> Result<(), AllocError> {
    match editor.apply_all(edits) {
        Ok(()) => push_deciding_row_or_fault(
            answer_of_editor_policy(alloc, editor, request),
            answers,
        ),
        Err((_, EditFault::NoMemory)) => Err(AllocError),
        Err(_) => answers.push_str("refused"),
    }
}
