//! Errors as JSON.

use crate::fault_causes::{word_of_fault_cause, word_of_fault_kind};
use crate::json_document::JsonList;
use crate::json_texts::{make_optional_text_value, make_text_value};
use crate::located_faults::{FaultLocator, LocatedFault};
use crate::piece_words::make_piece_words;
use crate::place::{PlaceInPolicy, make_optional_place_value};
use serde_json::{Value, json};
use std::alloc::{AllocError, Global};
use sudoers_grammar::{Kind, alias_keyword_of_kind};
use sudoers_tree::{LoadFault, NamedFile, ReadFault};

/// An error that is none of the lines of a policy: the word for its kind, its cause and its text as they are printed, the file that it is
/// about, the system's reason and an advice, where they are known.
#[derive(Clone, Copy)]
pub struct ErrorWords<'a> {
    pub kind: &'a str,
    pub cause: &'a [u8],
    pub text: &'a [u8],
    pub file: Option<&'a [u8]>,
    pub reason: Option<&'a [u8]>,
    pub advice: Option<&'a [u8]>,
}

/// Returns the error `words` as a value.
///
/// # Errors
///
/// Memory ran out.
pub fn make_error_value(alloc: Global, words: &ErrorWords<'_>) -> Result<Value, AllocError> {
    let place = match words.file {
        Some(file) => Some(PlaceInPolicy::from_file(file)),
        None => None,
    };
    let hint = match words.advice {
        Some(advice) => json!(in alloc; {
            "place": make_optional_place_value(alloc, place)?,
            "text": make_text_value(alloc, advice)?
        })?,
        None => Value::Null,
    };
    json!(in alloc; {
        "alias": null,
        "cause": make_text_value(alloc, words.cause)?,
        "expected": null,
        "first": null,
        "hint": hint,
        "kind": words.kind,
        "name": null,
        "place": make_optional_place_value(alloc, place)?,
        "reason": make_optional_text_value(alloc, words.reason)?,
        "text": make_text_value(alloc, words.text)?
    })
}

/// Returns the kind of the alias that the error `fault` is about, and the name of the alias or of the file.
fn alias_and_name_of_fault(fault: &LoadFault) -> (Option<Kind>, Option<&[u8]>) {
    match fault {
        LoadFault::SameName { file } => (None, Some(file.as_slice())),
        LoadFault::InFile { fault, .. } => alias_and_name_of_read_fault(fault),
        LoadFault::TooManyFiles | LoadFault::NoMemory => (None, None),
    }
}

/// Returns the kind of the alias that the error `fault` of a file is about, and the name of the alias or of the included file.
fn alias_and_name_of_read_fault(fault: &ReadFault) -> (Option<Kind>, Option<&[u8]>) {
    match fault {
        ReadFault::Reserved { kind, name } | ReadFault::Duplicate { kind, name } => {
            (Some(*kind), Some(name.as_slice()))
        }
        ReadFault::TooMany { kind } => (Some(*kind), None),
        ReadFault::NotLoaded { name, .. } | ReadFault::Twice { name, .. } => {
            (None, Some(name.as_slice()))
        }
        ReadFault::Text(_)
        | ReadFault::Syntax { .. }
        | ReadFault::TooDeep { .. }
        | ReadFault::NoMemory => (None, None),
    }
}

/// Returns the keyword of the kind `kind` as a value; null if there is none.
fn make_alias_kind_value(alloc: Global, kind: Option<Kind>) -> Result<Value, AllocError> {
    match kind {
        Some(kind) => make_text_value(alloc, alias_keyword_of_kind(kind)),
        None => Ok(Value::Null),
    }
}

/// Returns the error `fault`, of which `text` is printed and `located` is known, as a value.
fn make_load_error_value(
    alloc: Global,
    fault: &LoadFault,
    text: &[u8],
    located: &LocatedFault<'_>,
) -> Result<Value, AllocError> {
    let (alias, name) = alias_and_name_of_fault(fault);
    let expected = match &located.pieces {
        Some(pieces) => make_piece_words(alloc, pieces.as_slice())?,
        None => Value::Null,
    };
    let hint = match &located.hint {
        Some(hint) => hint.to_value(alloc)?,
        None => Value::Null,
    };
    json!(in alloc; {
        "alias": make_alias_kind_value(alloc, alias)?,
        "cause": word_of_fault_cause(fault),
        "expected": expected,
        "first": make_optional_place_value(alloc, located.first)?,
        "hint": hint,
        "kind": word_of_fault_kind(fault),
        "name": make_optional_text_value(alloc, name)?,
        "place": make_optional_place_value(alloc, located.place)?,
        "reason": null,
        "text": make_text_value(alloc, text)?
    })
}

/// The errors of the files of a policy as a list, which are added in the order in which they are found.
#[derive(Drop)]
pub struct LoadErrors<'a> {
    alloc: Global,
    locator: FaultLocator<'a>,
    list: JsonList,
}

impl<'a> LoadErrors<'a> {
    /// Returns an empty list of errors of the files `files`.
    ///
    /// # Errors
    ///
    /// Memory ran out.
    pub fn new(alloc: Global, files: &'a [NamedFile]) -> Result<LoadErrors<'a>, AllocError> {
        Ok(LoadErrors {
            alloc,
            locator: FaultLocator::new(alloc, files)?,
            list: JsonList::new(alloc),
        })
    }

    /// Appends the error `fault`, of which `text` is printed.
    ///
    /// # Errors
    ///
    /// Memory ran out.
    pub fn add(&mut self, fault: &LoadFault, text: &[u8]) -> Result<(), AllocError> {
        let located = self.locator.locate(fault)?;
        self.list
            .add(&make_load_error_value(self.alloc, fault, text, &located)?)
    }

    /// Returns the list of the errors.
    pub fn into_list(self) -> JsonList {
        self.list
    }
}
