//! Calls of a policy of one file or of several.

use crate::allowed_line_changes::{
    change_lines_if_allowed, insert_line_if_allowed, replace_line_if_allowed,
    take_out_line_if_allowed,
};
use crate::answer_output::push_debug_format;
use crate::case_frames::{CaseCall, split_eight_byte_number, split_first_call};
use crate::conversion_calls::push_conversion_answer;
use crate::line_change_reading_and_checks::line_changes_of_calls;
use crate::loading_calls::{
    LoadedPolicyTopic, push_policy_files, push_topic_answer, push_walk_of_policy,
    report_topic_of_strictness_bytes,
};
use std::alloc::{AllocError, Global};
use sudoers_match_list::has_reachable_cycle_in_policy;
use sudoers_tree::{DefinitionFilePlace, Kind, Policy, append_texts_of_rows, lf_count};

/// Adds the answer to a call of `policy`.
pub fn push_answer_of_policy_call(
    alloc: Global,
    policy: &mut Policy,
    call: CaseCall<'_>,
    answers: &mut String,
) -> Result<(), AllocError> {
    let (file, at, line) = split_file_and_line_numbers(call.body);
    let changed = match call.asked {
        // A file, a place and a line, where that is one.
        b'w' => insert_line_if_allowed(policy, file, at, line)?,
        b'o' => take_out_line_if_allowed(policy, file, at)?,
        b'i' => replace_line_if_allowed(policy, file, at, line)?,
        // Changes of lines, each a call.
        b'c' => change_lines_if_allowed(
            policy,
            line_changes_of_calls(alloc, call.body)?.as_slice(),
        ),
        _ => return push_answer_of_read_only_policy_call(policy, call, answers),
    };
    push_debug_format(&changed, answers)
}

/// Adds the answer to a call that changes nothing.
pub fn push_answer_of_read_only_policy_call(
    policy: &Policy,
    call: CaseCall<'_>,
    answers: &mut String,
) -> Result<(), AllocError> {
    let (file, number, _) = split_file_and_line_numbers(call.body);
    match call.asked {
        b'r' => answers.push_str("read"),
        b'f' => push_walk_of_policy(policy, answers),
        b'n' => push_policy_files(policy, answers),
        b'N' => push_file_names_and_texts(policy, answers),
        // The number of a file, which is the first without one: its text, how many lines it has, its lines, and where these begin.
        b't' => push_debug_format(&policy.text(file)?, answers),
        b'L' => push_debug_format(&policy.len(file), answers),
        b'a' => push_file_lines(policy, file, answers),
        b'b' => push_physical_line_numbers(policy, file, answers),
        // The number of a file, and that of a line there.
        b'l' => push_text_kind_and_node_of_line(policy, file, number, answers),
        // A kind of alias and a name.
        b'd' => push_place_members_and_line_of_alias(policy, call.body, answers),
        b'm' => push_alias_mentions(policy, call.body, answers),
        // Bytes, and then the lines of the walk.
        b'A' => push_debug_format(&join_front_and_walk_text(policy, call.body)?, answers),
        // Whether an alias is cyclic to which a user specification or a Defaults line leads.
        b'C' => push_debug_format(
            &has_reachable_cycle_in_policy(policy.allocator(), policy)?,
            answers,
        ),
        _ => push_report_answer(policy, call, answers),
    }
}

/// Adds what is reported of `policy`, or what comes of its conversion.
fn push_report_answer(
    policy: &Policy,
    call: CaseCall<'_>,
    answers: &mut String,
) -> Result<(), AllocError> {
    let topic = match call.asked {
        b'k' => LoadedPolicyTopic::Notes,
        b'u' => LoadedPolicyTopic::Unused,
        // `s` for a strict report.
        b'p' => report_topic_of_strictness_bytes(call.body),
        b'F' => LoadedPolicyTopic::Fine,
        _ => return push_conversion_answer(policy, call, answers),
    };
    push_topic_answer(policy.allocator(), policy, topic, answers)
}

/// Adds the name of each file and its text, with a tab behind both.
fn push_file_names_and_texts(policy: &Policy, answers: &mut String) -> Result<(), AllocError> {
    let files = policy.copy_named_files()?;
    for file in files.as_slice() {
        push_debug_format(&file.name.as_slice(), answers)?;
        answers.push('\t')?;
        push_debug_format(&file.bytes.as_slice(), answers)?;
        answers.push('\t')?;
    }
    Ok(())
}

/// Adds the lines of a file, with a tab behind each.
fn push_file_lines(policy: &Policy, file: usize, answers: &mut String) -> Result<(), AllocError> {
    for number in 0..policy.len(file) {
        push_text_kind_and_node_of_line(policy, file, number, answers)?;
        answers.push('\t')?;
    }
    Ok(())
}

/// Adds the text of the line of a file, its kind, and what it says.
fn push_text_kind_and_node_of_line(
    policy: &Policy,
    file: usize,
    number: usize,
    answers: &mut String,
) -> Result<(), AllocError> {
    push_debug_format(&policy.line(file, number), answers)?;
    answers.push('\t')?;
    push_debug_format(&policy.line_kind(file, number), answers)?;
    answers.push('\t')?;
    push_debug_format(&policy.node(file, number), answers)
}

/// Adds the physical lines on which the lines of a file begin, with a space behind each.
fn push_physical_line_numbers(
    policy: &Policy,
    file: usize,
    answers: &mut String,
) -> Result<(), AllocError> {
    let mut row: usize = 1;
    for number in 0..policy.len(file) {
        write!(answers, "{row} ")?;
        if let Some(line) = policy.line(file, number) {
            row = row.saturating_add(lf_count(line));
        }
    }
    Ok(())
}

/// Adds where a name is defined, its members, and the text of the line.
fn push_place_members_and_line_of_alias(
    policy: &Policy,
    named: &[u8],
    answers: &mut String,
) -> Result<(), AllocError> {
    let (kind, name) = kind_and_name_of(named);
    let place = policy.definition(kind, name);
    push_debug_format(&place, answers)?;
    answers.push('\t')?;
    push_debug_format(&policy.members(kind, name), answers)?;
    answers.push('\t')?;
    push_debug_format(&definition_line_text_at(policy, place), answers)
}

/// Returns the text of the line of a definition.
fn definition_line_text_at(policy: &Policy, place: Option<DefinitionFilePlace>) -> Option<&[u8]> {
    let place = place?;
    policy.line(place.file, place.line)
}

/// Adds where a name is mentioned.
fn push_alias_mentions(
    policy: &Policy,
    named: &[u8],
    answers: &mut String,
) -> Result<(), AllocError> {
    let (kind, name) = kind_and_name_of(named);
    push_debug_format(&policy.mentions(kind, name)?, answers)
}

/// Returns `front`, and the texts of the lines of the walk after it.
fn join_front_and_walk_text(policy: &Policy, front: &[u8]) -> Result<Vec<u8>, AllocError> {
    let lines = policy.lines();
    let mut text = Vec::from_slice(policy.allocator(), front)?;
    append_texts_of_rows(lines.tables, lines.rows, &mut text)?;
    Ok(text)
}

/// Returns the kind of alias and the name with which `bytes` begin.
fn kind_and_name_of(bytes: &[u8]) -> (Kind, &[u8]) {
    match split_first_call(bytes) {
        Some((named, _)) => (alias_kind_of_byte(named.asked), named.body),
        None => (Kind::User, b""),
    }
}

/// Returns the kind of alias that `byte` names.
fn alias_kind_of_byte(byte: u8) -> Kind {
    match byte {
        b'r' => Kind::Runas,
        b'h' => Kind::Host,
        b'c' => Kind::Cmnd,
        _ => Kind::User,
    }
}

/// Returns the number of a file and that of a line with which `bytes` begin, and what follows them.
fn split_file_and_line_numbers(bytes: &[u8]) -> (usize, usize, &[u8]) {
    let (file, rest) = split_eight_byte_number(bytes);
    let (number, rest) = split_eight_byte_number(rest);
    (file as usize, number as usize, rest)
}
