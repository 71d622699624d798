//! The document of `check`.

use crate::json_document::{JsonDocument, JsonList};
use crate::json_texts::make_text_value;
use crate::note_values::make_note_list;
use serde_json::Value;
use std::alloc::{AllocError, Global};
use sudoers_check::{Note, Report};
use sudoers_tree::Policy;

/// A policy, and what is noted of its aliases.
#[derive(Clone, Copy)]
pub struct PolicyAndReport<'a> {
    pub policy: &'a Policy,
    pub report: &'a Report,
}

/// What is found of the commands of a policy that never decide: each of them, and those that were not decided, as a value.
#[derive(Clone, Copy)]
pub struct OverruledValues<'a> {
    pub commands: &'a JsonList,
    pub not_decided: &'a Value,
}

/// What `check` found: the name of the first file, the errors of the policy, the notes on it if it was read, and whether it passes. What was
/// asked for only: the warnings of lint, the commands that never decide, and what the include lines do not read.
#[derive(Clone, Copy)]
pub struct CheckDocument<'a> {
    pub root: &'a [u8],
    pub errors: &'a JsonList,
    pub noted: Option<PolicyAndReport<'a>>,
    pub lint: Option<&'a JsonList>,
    pub overruled: Option<OverruledValues<'a>>,
    pub not_read: Option<&'a JsonList>,
    pub passed: bool,
}

/// The notes of one sort in a report.
fn notes_of_key<'a>(report: &'a Report, key: &str) -> &'a [Note] {
    match key {
        "cyclic" => report.cyclic.as_slice(),
        "undefined" => report.undefined.as_slice(),
        _ => report.unused.as_slice(),
    }
}

impl CheckDocument<'_> {
    /// Appends to `document` the notes of the sort `key`.
    fn add_notes(
        &self,
        alloc: Global,
        document: &mut JsonDocument,
        key: &str,
    ) -> Result<(), AllocError> {
        let list = match self.noted {
            Some(noted) => make_note_list(alloc, noted.policy, notes_of_key(noted.report, key))?,
            None => JsonList::new(alloc),
        };
        document.add_list(key, &list)
    }

    /// Returns the list of the commands that never decide, if it was asked for.
    fn list_overruled(&self) -> Option<&JsonList> {
        match &self.overruled {
            Some(values) => Some(values.commands),
            None => None,
        }
    }
}

/// Appends to `document` the list `list` as the member `key`; null if there is none.
fn add_optional_list(
    document: &mut JsonDocument,
    key: &str,
    list: Option<&JsonList>,
) -> Result<(), AllocError> {
    match list {
        Some(list) => document.add_list(key, list),
        None => document.add_member(key, &Value::Null),
    }
}

/// Returns the document of `check` for what it found, `found`: one line with its line end.
///
/// # Errors
///
/// Memory ran out.
pub fn make_check_document(
    alloc: Global,
    found: &CheckDocument<'_>,
) -> Result<Vec<u8>, AllocError> {
    let mut document = JsonDocument::new(alloc);
    document.add_member("command", &Value::try_from_str(alloc, "check")?)?;
    found.add_notes(alloc, &mut document, "cyclic")?;
    document.add_list("errors", found.errors)?;
    add_optional_list(&mut document, "lint", found.lint)?;
    match &found.overruled {
        Some(values) => document.add_member("not_decided", values.not_decided)?,
        None => document.add_member("not_decided", &Value::Null)?,
    }
    add_optional_list(&mut document, "not_read", found.not_read)?;
    add_optional_list(&mut document, "overruled", found.list_overruled())?;
    document.add_member("passed", &Value::Bool(found.passed))?;
    document.add_member("policy", &make_text_value(alloc, found.root)?)?;
    document.add_member("read", &Value::Bool(found.noted.is_some()))?;
    found.add_notes(alloc, &mut document, "undefined")?;
    found.add_notes(alloc, &mut document, "unused")?;
    document.make_text()
}
