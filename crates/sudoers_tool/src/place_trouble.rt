//! Errors of `place`.

use crate::file_trouble::FileTrouble;
use std::alloc::{AllocError, AllocFailed, Global};
use sudoers_explain::append_help;
use sudoers_run::ToolFault;

/// An error of `place`: the file that it is about, a word, and what to do.
#[derive(Drop)]
pub struct PlaceTrouble {
    text: Vec<u8>,
    help: Vec<u8>,
}

/// An error of `place`, or of reading an output.
#[derive(Drop)]
pub enum PlaceError {
    /// What the output says is refused.
    Output(FileTrouble),
    /// No file is put in place.
    Place(PlaceTrouble),
    /// The same, where some files may be in place.
    BegunOutput(FileTrouble),
    /// Some files may be in place.
    Begun(PlaceTrouble),
}

impl PlaceTrouble {
    /// Returns the error `word` of the file `name`, with the advice `advice`.
    pub fn new(
        alloc: Global,
        name: &[u8],
        word: &[u8],
        advice: &[&[u8]],
    ) -> Result<PlaceTrouble, AllocError> {
        let mut text = Vec::from_slice(alloc, name)?;
        text.extend_from_slice(b": ")?;
        text.extend_from_slice(word)?;
        let mut help = Vec::new(alloc);
        append_help(&mut help, advice)?;
        Ok(PlaceTrouble { text, help })
    }

    /// Returns the error with the text `text`, without advice.
    pub fn from_text(alloc: Global, text: Vec<u8>) -> PlaceTrouble {
        PlaceTrouble {
            text,
            help: Vec::new(alloc),
        }
    }

    /// Returns the text of the error.
    pub fn text(&self) -> &[u8] {
        self.text.as_slice()
    }

    /// Returns the line that says what to do.
    pub fn help(&self) -> &[u8] {
        self.help.as_slice()
    }
}

impl PlaceError {
    /// Returns the same error, after which some files may be in place.
    pub fn into_begun(self) -> PlaceError {
        match self {
            PlaceError::Output(trouble) => PlaceError::BegunOutput(trouble),
            PlaceError::Place(trouble) => PlaceError::Begun(trouble),
            error => error,
        }
    }
}

/// Returns the error `word` of the file `name`, with the advice `advice`, or want of memory.
pub fn make_place_error(alloc: Global, name: &[u8], word: &[u8], advice: &[&[u8]]) -> PlaceError {
    match PlaceTrouble::new(alloc, name, word, advice) {
        Ok(trouble) => PlaceError::Place(trouble),
        Err(error) => PlaceError::from(error),
    }
}

impl From<FileTrouble> for PlaceError {
    fn from(trouble: FileTrouble) -> PlaceError {
        PlaceError::Output(trouble)
    }
}

impl From<ToolFault> for PlaceError {
    fn from(fault: ToolFault) -> PlaceError {
        PlaceError::Output(FileTrouble::from(fault))
    }
}

impl From<AllocError> for PlaceError {
    fn from(error: AllocError) -> PlaceError {
        PlaceError::Output(FileTrouble::from(error))
    }
}

impl<T: Drop> From<AllocFailed<T>> for PlaceError {
    fn from(_error: AllocFailed<T>) -> PlaceError {
        PlaceError::from(AllocError)
    }
}
