//! JSON documents that are written member by member.

use serde_json::Value;
use std::alloc::{AllocError, Global};

/// A list whose items are written one by one, so that a long one takes no more room than its text.
#[derive(Drop)]
pub struct JsonList {
    alloc: Global,
    items: Vec<u8>,
}

impl JsonList {
    /// Returns a list without items.
    pub fn new(alloc: Global) -> JsonList {
        JsonList {
            alloc,
            items: Vec::new(alloc),
        }
    }

    /// Appends the item `value`.
    ///
    /// # Errors
    ///
    /// Memory ran out.
    pub fn add(&mut self, value: &Value) -> Result<(), AllocError> {
        if !self.items.is_empty() {
            self.items.extend_from_slice(b",")?;
        }
        let text = value.to_vec(self.alloc)?;
        self.items.extend_from_slice(text.as_slice())
    }
}

/// A document: an object whose members are written one by one, in the order in which they are added. Each caller adds them in the order of
/// their keys, as they stand in the objects of `serde_json`.
#[derive(Drop)]
pub struct JsonDocument {
    alloc: Global,
    members: Vec<u8>,
}

impl JsonDocument {
    /// Returns a document without members.
    pub fn new(alloc: Global) -> JsonDocument {
        JsonDocument {
            alloc,
            members: Vec::new(alloc),
        }
    }

    /// Appends the key `key` and its colon.
    fn add_key(&mut self, key: &str) -> Result<(), AllocError> {
        if !self.members.is_empty() {
            self.members.extend_from_slice(b",")?;
        }
        let key = Value::try_from_str(self.alloc, key)?.to_vec(self.alloc)?;
        self.members.extend_from_slice(key.as_slice())?;
        self.members.extend_from_slice(b":")
    }

    /// Appends the member `key` with the value `value`.
    ///
    /// # Errors
    ///
    /// Memory ran out.
    pub fn add_member(&mut self, key: &str, value: &Value) -> Result<(), AllocError> {
        self.add_key(key)?;
        let text = value.to_vec(self.alloc)?;
        self.members.extend_from_slice(text.as_slice())
    }

    /// Appends the member `key` with the list `list`.
    ///
    /// # Errors
    ///
    /// Memory ran out.
    pub fn add_list(&mut self, key: &str, list: &JsonList) -> Result<(), AllocError> {
        self.add_key(key)?;
        self.members.extend_from_slice(b"[")?;
        self.members.extend_from_slice(list.items.as_slice())?;
        self.members.extend_from_slice(b"]")
    }

    /// Returns the text of the document: one line with its line end.
    ///
    /// # Errors
    ///
    /// Memory ran out.
    pub fn make_text(&self) -> Result<Vec<u8>, AllocError> {
        let mut text = Vec::from_slice(self.alloc, b"{")?;
        text.extend_from_slice(self.members.as_slice())?;
        text.extend_from_slice(b"}\n")?;
        Ok(text)
    }
}
