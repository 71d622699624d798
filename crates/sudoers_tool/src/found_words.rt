//! The words of a policy that the program which reads it refuses, or for which it answers otherwise.

use std::alloc::{AllocError, Global};
use sudoers_defaults::{ParameterFault, ParameterGroup, RefusedParameter, list_refused_parameters};
use sudoers_forms::{
    Cause, Form, OtherAnswer, RefusedForm, SudoRsForm, list_forms_for_sudo, list_forms_for_sudo_rs,
};
use sudoers_tree::{Policy, Span};

/// What is found of a word.
#[derive(Clone, Copy)]
pub enum Finding {
    /// The parameter with this name has a fault.
    Parameter { name: Span, fault: ParameterFault },
    Form(Form),
    /// sudo answers a request otherwise.
    Answer(Cause),
    SudoRsForm(SudoRsForm),
}

/// A word of a policy of which something is found, and where it stands.
#[derive(Clone, Copy)]
pub struct FoundWord {
    pub at: Span,
    pub finding: Finding,
}

impl FoundWord {
    /// Returns whether the word stands before `at`.
    fn is_before(&self, at: Span) -> bool {
        (self.at.line, self.at.start) < (at.line, at.start)
    }
}

/// Returns what is found in `policy` of the parameters of Defaults where these are `known`, in the order of the places.
pub fn list_words_of_parameters(
    alloc: Global,
    policy: &Policy,
    known: &[ParameterGroup],
) -> Result<Vec<FoundWord>, AllocError> {
    let mut words = Vec::new(alloc);
    for parameter in &list_refused_parameters(alloc, policy, known)? {
        let finding = Finding::Parameter {
            name: parameter.name,
            fault: parameter.fault,
        };
        words.push(FoundWord {
            at: place_of_parameter(parameter),
            finding,
        })?;
    }
    Ok(words)
}

/// Returns what is found in `policy` of the forms that sudo refuses or for which it answers otherwise, in the order of the places.
pub fn list_words_for_sudo(alloc: Global, policy: &Policy) -> Result<Vec<FoundWord>, AllocError> {
    let forms = list_forms_for_sudo(alloc, policy)?;
    let refused = list_words_of_refused(alloc, forms.refused.as_slice())?;
    let answers = list_words_of_answers(alloc, forms.answers.as_slice())?;
    join_by_place(alloc, refused.as_slice(), answers.as_slice())
}

/// Returns what is found in `policy` of the forms that sudo-rs refuses, in the order of the places.
pub fn list_words_for_sudo_rs(
    alloc: Global,
    policy: &Policy,
) -> Result<Vec<FoundWord>, AllocError> {
    let mut words = Vec::new(alloc);
    for refused in &list_forms_for_sudo_rs(alloc, policy)? {
        words.push(FoundWord {
            at: refused.at,
            finding: Finding::SudoRsForm(refused.form),
        })?;
    }
    Ok(words)
}

/// Returns what is found of the refused forms `forms`.
fn list_words_of_refused(
    alloc: Global,
    forms: &[RefusedForm],
) -> Result<Vec<FoundWord>, AllocError> {
    let mut words = Vec::new(alloc);
    for form in forms {
        words.push(FoundWord {
            at: form.at,
            finding: Finding::Form(form.form),
        })?;
    }
    Ok(words)
}

/// Returns what is found of the forms `answers` for which sudo answers otherwise.
fn list_words_of_answers(
    alloc: Global,
    answers: &[OtherAnswer],
) -> Result<Vec<FoundWord>, AllocError> {
    let mut words = Vec::new(alloc);
    for answer in answers {
        words.push(FoundWord {
            at: answer.at,
            finding: Finding::Answer(answer.cause),
        })?;
    }
    Ok(words)
}

/// Returns the words of two lists in the order of their places, in which each list is. Of two at one place, that of `first` comes first.
pub fn join_by_place(
    alloc: Global,
    first: &[FoundWord],
    second: &[FoundWord],
) -> Result<Vec<FoundWord>, AllocError> {
    let mut joined = Vec::new(alloc);
    let mut left = second;
    for word in first {
        left = append_words_before(word.at, left, &mut joined)?;
        joined.push(*word)?;
    }
    joined.extend_from_slice(left)?;
    Ok(joined)
}

/// Appends those of `words` that stand before `at` to `joined`. Returns the others.
fn append_words_before<'a>(
    at: Span,
    words: &'a [FoundWord],
    joined: &mut Vec<FoundWord>,
) -> Result<&'a [FoundWord], AllocError> {
    for (place, word) in words.iter().enumerate() {
        if !word.is_before(at) {
            return Ok(&words[place..]);
        }
        joined.push(*word)?;
    }
    Ok(&[])
}

/// Returns where the refused part of `parameter` stands: its value, if that is refused, else its name.
pub fn place_of_parameter(parameter: &RefusedParameter) -> Span {
    match parameter.value {
        Some(value) if is_about_value(parameter.fault) => value,
        _ => parameter.name,
    }
}

/// Returns whether a fault is one of the value of a parameter, and not of its name or its use.
fn is_about_value(fault: ParameterFault) -> bool {
    !matches!(
        fault,
        ParameterFault::Unknown | ParameterFault::NoValue | ParameterFault::Operator
    )
}
