//! Calls of a text that need not be a policy.

use crate::answer_output::{push_debug_format, push_display_format};
use crate::case_frames::{CaseCall, split_first_call};
use crate::loading_calls::{self, LoadedPolicyTopic, report_topic_of_strictness_bytes};
use crate::{command_calls, conversion_calls, gathering_calls};
use std::alloc::{AllocError, Global};
use sudoers_edit::{Edit, Edits, MAX_EDITS, ScriptFault, Text, read_script, write_script};
use sudoers_tree::{ALIAS_LIMIT, Kind, lead_of_include_node, leads, read_line};

/// Adds the answer to a call of `text`; `unknown` if this is not known.
pub fn push_answer_of_any_text_call(
    alloc: Global,
    text: &[u8],
    call: CaseCall<'_>,
    answers: &mut String,
) -> Result<(), AllocError> {
    match call.asked {
        // What the text says as one line.
        b'l' => push_debug_format(&read_line(alloc, text)?, answers),
        // The name of a file: where the text leads as a line of that file.
        b'i' => push_include_lead(alloc, call.body, text, answers),
        // The walk over the files that the text is, a name and a text each.
        b'f' => loading_calls::push_loaded_files_answer(
            alloc,
            text,
            LoadedPolicyTopic::Walk,
            answers,
        ),
        // Those files themselves.
        b'n' => loading_calls::push_loaded_files_answer(
            alloc,
            text,
            LoadedPolicyTopic::Files,
            answers,
        ),
        // `s` for a strict report: that on those files.
        b'p' => loading_calls::push_loaded_files_answer(
            alloc,
            text,
            report_topic_of_strictness_bytes(call.body),
            answers,
        ),
        // Which call fails, and the name of the root: what is gathered of the files that the text is.
        b'g' => gathering_calls::push_gathered_from_memory(alloc, call.body, text, answers),
        // Which call fails, and a command: what that answers over the files that the text is.
        b'c' => command_calls::push_command_outcome(alloc, call.body, text, answers),
        // A script: the text of the first of those files after its edits.
        b't' => conversion_calls::push_edited_text_or_fault(alloc, text, call.body, answers),
        // The bundle of the files of the bundle that the text is.
        b'b' => conversion_calls::push_bundle_of_read_files(alloc, text, answers),
        // The values of the filter that the text is.
        b'v' => conversion_calls::push_filter_values(alloc, text, answers),
        // How many edits the text spells as a script.
        b'r' => push_edit_count_of_script_text(alloc, text, answers),
        // Further edits: the script of the text's edits and of those.
        b'w' => push_script_with_further_edits(alloc, text, call.body, answers),
        // The most edits of a script, and the most aliases of a kind.
        b'm' => write!(answers, "{MAX_EDITS} {ALIAS_LIMIT}"),
        _ => answers.push_str("unknown"),
    }
}

/// Adds where `line` leads in the file `name`, and where what it says leads; `unread` if it says nothing.
fn push_include_lead(
    alloc: Global,
    name: &[u8],
    line: &[u8],
    answers: &mut String,
) -> Result<(), AllocError> {
    push_debug_format(&leads(alloc, name, line)?, answers)?;
    answers.push('\t')?;
    match read_line(alloc, line)? {
        Some(reading) => push_debug_format(
            &lead_of_include_node(alloc, name, &reading.node())?,
            answers,
        ),
        None => answers.push_str("unread"),
    }
}

/// Adds how many edits `text` spells, or why it spells none.
fn push_edit_count_of_script_text(
    alloc: Global,
    text: &[u8],
    answers: &mut String,
) -> Result<(), AllocError> {
    match read_script(alloc, text) {
        Ok(edits) => push_display_format(&edits.len(), answers),
        Err(fault) => push_display_format(&fault, answers),
    }
}

/// Adds the script of the edits that `text` spells and of `further` ones.
fn push_script_with_further_edits(
    alloc: Global,
    text: &[u8],
    further: &[u8],
    answers: &mut String,
) -> Result<(), AllocError> {
    match read_script_and_more_edits(alloc, text, further) {
        Ok(edits) => push_script_of_edits(alloc, edits.as_slice(), answers),
        Err(fault) => push_display_format(&fault, answers),
    }
}

/// Returns copies of the edits that `text` spells, and `further` edits.
fn read_script_and_more_edits(
    alloc: Global,
    text: &[u8],
    further: &[u8],
) -> Result<Edits, ScriptFault> {
    let mut edits = Edits::new(alloc);
    append_script_edit_copies(alloc, &mut edits, text)?;
    let mut left = further;
    for _ in 0..further.len() {
        let Some((more, rest)) = split_first_call(left) else {
            break;
        };
        append_edits_of_call(alloc, &mut edits, more)?;
        left = rest;
    }
    Ok(edits)
}

/// Appends the edits of one call to `edits`.
fn append_edits_of_call(
    alloc: Global,
    edits: &mut Edits,
    more: CaseCall<'_>,
) -> Result<(), ScriptFault> {
    match more.asked {
        // Those that a script spells.
        b's' => append_script_edit_copies(alloc, edits, more.body)?,
        // One that drops the first member of an alias of users with this name.
        b'd' => edits.push(make_edit_dropping_first_member_of_user_alias(alloc, more.body)?)?,
        // One that prunes, in place of the others.
        _ => *edits = Edits::list_of_one_item(alloc, Edit::Prune)?,
    }
    Ok(())
}

/// Appends copies of the edits that `script` spells to `edits`.
fn append_script_edit_copies(
    alloc: Global,
    edits: &mut Edits,
    script: &[u8],
) -> Result<(), ScriptFault> {
    for edit in read_script(alloc, script)?.as_slice() {
        edits.push(edit.copy_edit(alloc)?)?;
    }
    Ok(())
}

/// Returns the edit that drops the first member of the alias of users `name`. It makes the name of two pieces.
fn make_edit_dropping_first_member_of_user_alias(
    alloc: Global,
    name: &[u8],
) -> Result<Edit, AllocError> {
    let (front, back) = name.split_at(name.len() / 2);
    let mut name = Text::from_slice(alloc, front)?;
    name.extend_from_slice(back)?;
    Ok(Edit::DropMember {
        kind: Kind::User,
        name,
        at: 0,
    })
}

/// Adds the script of `edits`, or why they have none.
pub fn push_script_of_edits(
    alloc: Global,
    edits: &[Edit],
    answers: &mut String,
) -> Result<(), AllocError> {
    match write_script(alloc, edits) {
        Ok(script) => push_debug_format(&script, answers),
        Err(fault) => push_display_format(&fault, answers),
    }
}
