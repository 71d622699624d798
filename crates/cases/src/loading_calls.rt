//! What comes of files that are loaded, and what is reported of their policy.

use crate::answer_output::push_debug_format;
use crate::case_frames::{split_first_part, split_first_part_or_empty};
use std::alloc::{AllocError, Global};
use sudoers_check::{check, report_text, unused};
use sudoers_tree::{Items, Line, LoadFault, NamedFile, Policy};

/// What is asked of the policy of files.
#[derive(Clone, Copy)]
pub enum LoadedPolicyTopic {
    /// Its walk.
    Walk,
    /// Its files.
    Files,
    /// The notes of its report.
    Notes,
    /// Its unused definitions.
    Unused,
    /// The text of its report.
    Report { strict: bool },
    /// Whether its report is fine.
    Fine,
}

/// Returns the topic of a report, which is a strict one if `asked` is `s`.
pub fn report_topic_of_strictness_bytes(asked: &[u8]) -> LoadedPolicyTopic {
    LoadedPolicyTopic::Report {
        strict: asked == b"s".as_slice(),
    }
}

/// Adds what the policy of the files that `parts` are answers, or their fault; `no file` if there is none.
pub fn push_loaded_files_answer(
    alloc: Global,
    parts: &[u8],
    topic: LoadedPolicyTopic,
    answers: &mut String,
) -> Result<(), AllocError> {
    let files = named_files_of_parts(alloc, parts)?;
    if files.is_empty() {
        return answers.push_str("no file");
    }
    push_topic_answer_or_load_fault(alloc, Policy::load(alloc, files.as_slice()), topic, answers)
}

/// Returns the files that `parts` are, a name and a text each.
pub fn named_files_of_parts(alloc: Global, parts: &[u8]) -> Result<Vec<NamedFile>, AllocError> {
    let mut files = Vec::new(alloc);
    let mut left = parts;
    for _ in 0..parts.len() {
        let Some((name, rest)) = split_first_part(left) else {
            break;
        };
        let (bytes, rest) = split_first_part_or_empty(rest);
        files.push(NamedFile {
            name: Items::from_slice(alloc, name)?,
            bytes: Items::from_slice(alloc, bytes)?,
        })?;
        left = rest;
    }
    Ok(files)
}

/// Adds what the policy that is loaded answers, or the fault in its place; an error if memory ran out.
fn push_topic_answer_or_load_fault(
    alloc: Global,
    loaded: Result<Policy, LoadFault>,
    topic: LoadedPolicyTopic,
    answers: &mut String,
) -> Result<(), AllocError> {
    match loaded {
        Ok(policy) => push_topic_answer(alloc, &policy, topic, answers),
        Err(LoadFault::NoMemory) => Err(AllocError),
        Err(fault) => push_debug_format(&fault, answers),
    }
}

/// Adds what `policy` answers.
pub fn push_topic_answer(
    alloc: Global,
    policy: &Policy,
    topic: LoadedPolicyTopic,
    answers: &mut String,
) -> Result<(), AllocError> {
    match topic {
        LoadedPolicyTopic::Walk => push_walk_of_policy(policy, answers),
        LoadedPolicyTopic::Files => push_policy_files(policy, answers),
        LoadedPolicyTopic::Notes => push_debug_format(&check(alloc, policy)?, answers),
        LoadedPolicyTopic::Unused => push_debug_format(&unused(alloc, policy)?, answers),
        LoadedPolicyTopic::Report { strict } => push_report_text(alloc, policy, strict, answers),
        LoadedPolicyTopic::Fine => push_whether_report_passes_and_text_len(alloc, policy, answers),
    }
}

/// Adds the numbers of the files on the walk, where its lines stand, and the text of each line, with a tab before each.
pub fn push_walk_of_policy(policy: &Policy, answers: &mut String) -> Result<(), AllocError> {
    push_debug_format(&policy.numbers_of_files_on_walk(), answers)?;
    answers.push('\t')?;
    push_debug_format(&policy.spots_of_walk_lines(), answers)?;
    let lines = policy.lines();
    for row in lines.rows {
        answers.push('\t')?;
        push_debug_format(&Line::from_line_row(lines.tables, row).text, answers)?;
    }
    Ok(())
}

/// Adds the name of each file, its text and its lines, with a tab behind each of the three.
pub fn push_policy_files(policy: &Policy, answers: &mut String) -> Result<(), AllocError> {
    for file in 0..policy.files() {
        push_debug_format(&policy.file_name(file), answers)?;
        answers.push('\t')?;
        push_debug_format(&policy.text(file)?, answers)?;
        answers.push('\t')?;
        push_texts_of_lines_in_file(policy, file, answers)?;
        answers.push('\t')?;
    }
    Ok(())
}

/// Adds the text of each line of a file, with a space behind each.
fn push_texts_of_lines_in_file(
    policy: &Policy,
    file: usize,
    answers: &mut String,
) -> Result<(), AllocError> {
    for number in 0..policy.len(file) {
        if let Some(line) = policy.line(file, number) {
            push_debug_format(&line, answers)?;
            answers.push(' ')?;
        }
    }
    Ok(())
}

/// Adds the text of the report, which is a strict one with `strict`.
fn push_report_text(
    alloc: Global,
    policy: &Policy,
    strict: bool,
    answers: &mut String,
) -> Result<(), AllocError> {
    let report = check(alloc, policy)?;
    push_debug_format(&report_text(alloc, policy, &report, strict)?, answers)
}

/// Adds whether the report is fine, and is with strictness, and how long its text is.
fn push_whether_report_passes_and_text_len(
    alloc: Global,
    policy: &Policy,
    answers: &mut String,
) -> Result<(), AllocError> {
    let report = check(alloc, policy)?;
    let text = report_text(alloc, policy, &report, false)?;
    push_debug_format(
        &(
            report.is_parsed_ok(false),
            report.is_parsed_ok(true),
            text.len(),
        ),
        answers,
    )
}
