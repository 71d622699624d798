//! Places in the files of a policy.

use crate::json_texts::make_text_value;
use serde_json::{Value, json};
use std::alloc::{AllocError, Global};

/// A physical line of a file and a byte of it, both from 1.
#[derive(Clone, Copy, Debug, PartialEq, Eq)]
pub struct LineAndColumn {
    pub line: usize,
    pub column: usize,
}

/// A place in the file `file` of a policy: where it starts, and the byte behind its last. An end that is the start is that of a place between
/// two bytes. What is not known is missing.
#[derive(Clone, Copy)]
pub struct PlaceInPolicy<'a> {
    pub file: &'a [u8],
    pub start: Option<LineAndColumn>,
    pub end: Option<LineAndColumn>,
}

impl<'a> PlaceInPolicy<'a> {
    /// Returns the place of the whole file `file`.
    pub fn from_file(file: &'a [u8]) -> PlaceInPolicy<'a> {
        PlaceInPolicy {
            file,
            start: None,
            end: None,
        }
    }

    /// Returns the place as a value.
    ///
    /// # Errors
    ///
    /// Memory ran out.
    pub fn to_value(&self, alloc: Global) -> Result<Value, AllocError> {
        let (line, column) = match self.start {
            Some(start) => (Value::from(start.line), Value::from(start.column)),
            None => (Value::Null, Value::Null),
        };
        let end = match self.end {
            Some(end) => json!(in alloc; {"column": end.column, "line": end.line})?,
            None => Value::Null,
        };
        json!(in alloc; {
            "column": column,
            "end": end,
            "file": make_text_value(alloc, self.file)?,
            "line": line
        })
    }
}

/// Returns the place `place` as a value; null if there is none.
///
/// # Errors
///
/// Memory ran out.
pub fn make_optional_place_value(
    alloc: Global,
    place: Option<PlaceInPolicy<'_>>,
) -> Result<Value, AllocError> {
    match place {
        Some(place) => place.to_value(alloc),
        None => Ok(Value::Null),
    }
}
