//! Calls of policies, of editors and of texts.
//!
//! The body of a case is a part, the text, and then calls. Its byte says what the calls are of.

use crate::answer_output::{push_debug_format, push_display_format};
use crate::case_frames::{CaseCall, split_first_call, split_first_part};
use crate::line_load_and_script_text_calls::{self, push_script_of_edits};
use crate::loading_calls::named_files_of_parts;
use crate::policy_calls;
use std::alloc::{AllocError, Global};
use sudoers_edit::{Editor, read_script};
use sudoers_tree::{LoadFault, Policy};

/// What calls are of.
#[derive(Drop)]
enum CallTarget<'a> {
    /// The text itself.
    Text(&'a [u8]),
    /// The policy of the one file, or of the files, that the text is.
    Files(Policy),
    /// An editor of the policy of the one file, or of the files, that the text is.
    Editor(Editor),
    /// They are no policy, and this answers each call.
    LoadFault(LoadFault),
}

impl CallTarget<'_> {
    /// Returns that of `text` which `sort` names.
    fn from_sort_and_text(
        alloc: Global,
        sort: u8,
        text: &[u8],
    ) -> Result<CallTarget<'_>, AllocError> {
        Ok(match sort {
            b'e' | b'f' | b'g' | b'p' => match policy_of_sort_and_text(alloc, sort, text)? {
                Ok(policy) if sort == b'f' || sort == b'p' => CallTarget::Files(policy),
                Ok(policy) => CallTarget::Editor(Editor::new(policy)),
                Err(fault) => CallTarget::LoadFault(fault),
            },
            _ => CallTarget::Text(text),
        })
    }

    /// Adds the answer to `call`.
    fn push_answer_of_call(
        &mut self,
        alloc: Global,
        call: CaseCall<'_>,
        answers: &mut String,
    ) -> Result<(), AllocError> {
        match self {
            CallTarget::Text(text) => line_load_and_script_text_calls::push_answer_of_any_text_call(
                alloc, text, call, answers,
            ),
            CallTarget::Files(policy) => policy_calls::push_answer_of_policy_call(
                alloc, policy, call, answers,
            ),
            CallTarget::Editor(editor) => push_editor_answer(alloc, editor, call, answers),
            CallTarget::LoadFault(fault) => push_debug_format(&fault, answers),
        }
    }
}

/// Returns the policy of the one file `text` with the sorts `e` and `p`, and else of the files that `text` is, or their fault.
fn policy_of_sort_and_text(
    alloc: Global,
    sort: u8,
    text: &[u8],
) -> Result<Result<Policy, LoadFault>, AllocError> {
    if sort == b'e' || sort == b'p' {
        Ok(Policy::read(alloc, text))
    } else {
        Ok(Policy::load(alloc, named_files_of_parts(alloc, text)?.as_slice()))
    }
}

/// Adds the answers to the calls in `case`, each a line.
pub fn push_call_answers(
    alloc: Global,
    case: CaseCall<'_>,
    answers: &mut String,
) -> Result<(), AllocError> {
    let Some((text, calls)) = split_first_part(case.body) else {
        return Ok(());
    };
    let mut target = CallTarget::from_sort_and_text(alloc, case.asked, text)?;
    let mut left = calls;
    for _ in 0..calls.len() {
        let Some((call, rest)) = split_first_call(left) else {
            break;
        };
        target.push_answer_of_call(alloc, call, answers)?;
        answers.push('\n')?;
        left = rest;
    }
    Ok(())
}

/// Adds the answer to a call of `editor`.
fn push_editor_answer(
    alloc: Global,
    editor: &mut Editor,
    call: CaseCall<'_>,
    answers: &mut String,
) -> Result<(), AllocError> {
    match call.asked {
        // A script of one edit.
        b'1' => push_first_edit_outcome(alloc, editor, call.body, answers),
        // A script.
        b'+' => push_success_or_fault_of_all_script_edits(alloc, editor, call.body, answers),
        b'-' => push_debug_format(&editor.undo(), answers),
        b'>' => push_debug_format(&editor.redo(), answers),
        b's' => push_display_format(&editor.steps(), answers),
        b'e' => push_display_format(&editor.redos(), answers),
        b'<' => push_script_of_edits(alloc, editor.inverse()?.as_slice(), answers),
        _ => policy_calls::push_answer_of_read_only_policy_call(editor.policy(), call, answers),
    }
}

/// Adds whether the first edit of `script` is made, or why it is refused.
fn push_first_edit_outcome(
    alloc: Global,
    editor: &mut Editor,
    script: &[u8],
    answers: &mut String,
) -> Result<(), AllocError> {
    match read_script(alloc, script) {
        Ok(edits) => match edits.as_slice().first() {
            Some(edit) => push_debug_format(&editor.apply(edit), answers),
            None => answers.push_str("no edit"),
        },
        Err(fault) => push_display_format(&fault, answers),
    }
}

/// Adds whether the edits of `script` are made, or which is refused and why.
fn push_success_or_fault_of_all_script_edits(
    alloc: Global,
    editor: &mut Editor,
    script: &[u8],
    answers: &mut String,
) -> Result<(), AllocError> {
    match read_script(alloc, script) {
        Ok(edits) => push_debug_format(&editor.apply_all(edits.as_slice()), answers),
        Err(fault) => push_display_format(&fault, answers),
    }
}
