//! Answers cases: what the libraries say of texts, lines, policies, people, edits and scripts.
//!
//! It reads the cases from standard input, and writes the answer to each call in one line.
#![tactic(auto)]

mod allowed_line_changes;
mod answer_output;
mod answers_after_edits;
mod benchmark_work;
mod case_frames;
mod command_calls;
mod conversion_calls;
mod edit_calls;
mod gathering_calls;
mod line_change_reading_and_checks;
mod line_load_and_script_text_calls;
mod loading_calls;
mod matching_calls;
mod people_calls;
mod policy_calls;
mod policy_questions;
mod request_parts;
mod text_and_line_calls;

use case_frames::{CaseSubject, SubjectAndCall, split_first_case};
use std::alloc::AllocError;
use std::io;
use std::io::{Read, Write};

/// How many bytes an answer may have before its text grows.
const ANSWER_ROOM: usize = 65_536;

fn main(rt: HostRuntime) -> io::Result<()> {
    let mut input = Vec::new(rt.alloc());
    rt.stdin().read_to_end(&mut input)?;
    write_answers_of_cases(&rt, &input)
}

/// Writes the answers to all cases of `input`.
fn write_answers_of_cases(rt: &HostRuntime, input: &[u8]) -> io::Result<()> {
    let mut left = input;
    for _ in 0..input.len() {
        let Some((case, rest)) = split_first_case(left) else {
            break;
        };
        write_answer_of_case(rt, case)?;
        left = rest;
    }
    Ok(())
}

/// Writes the answer to `case`. If a growth of memory is refused, the line `no memory` stands in its place.
fn write_answer_of_case(rt: &HostRuntime, case: SubjectAndCall<'_>) -> io::Result<()> {
    match answer_of_case(rt, case) {
        Ok(answers) => rt.stdout().write_all(answers.as_bytes()),
        Err(_) => rt.stdout().write_all(b"no memory\n"),
    }
}

/// Returns the answer to `case`. Its text has room from the start, so that the growths of a case are those of its calls.
fn answer_of_case(rt: &HostRuntime, case: SubjectAndCall<'_>) -> Result<String, AllocError> {
    let mut answers = String::with_capacity(rt.alloc(), ANSWER_ROOM)?;
    push_answer_of_case(rt, case, &mut answers)?;
    Ok(answers)
}

/// Adds the answer to `case`, a line; if it is about edits, a line for each of its calls.
fn push_answer_of_case(
    rt: &HostRuntime,
    case: SubjectAndCall<'_>,
    answers: &mut String,
) -> Result<(), AllocError> {
    let alloc = rt.alloc();
    match case.subject {
        Some(CaseSubject::Line) => text_and_line_calls::push_answer_of_text_and_line_call(
            alloc, case.call, answers,
        )?,
        Some(CaseSubject::Match) => matching_calls::push_answer_of_matching_call(
            alloc, case.call, answers,
        )?,
        Some(CaseSubject::People) => people_calls::push_answer_of_people_call(
            alloc, case.call, answers,
        )?,
        Some(CaseSubject::Edit) => return edit_calls::push_call_answers(alloc, case.call, answers),
        Some(CaseSubject::Work) => benchmark_work::push_answer_of_benchmark_call(
            alloc, case.call, answers,
        )?,
        Some(CaseSubject::Disk) => gathering_calls::push_gathered_from_disk(
            rt,
            case.call.body,
            answers,
        )?,
        None => answers.push_str("unknown")?,
    }
    answers.push('\n')
}
