//! Errors of the program, and the files that they are about.

use std::alloc::{AllocError, AllocFailed, Global};
use sudoers_grammar::Items;
use sudoers_run::{LayerFault, ToolFault, fault_text};

/// An error, and the name of the file that it is about, if its text does not have it.
#[derive(Drop)]
pub struct FileTrouble {
    file: Option<Items<u8>>,
    fault: ToolFault,
}

impl FileTrouble {
    /// Returns the error `fault` of the file `name`, or want of memory.
    pub fn from_fault_in_file(alloc: Global, name: &[u8], fault: ToolFault) -> FileTrouble {
        match Items::from_slice(alloc, name) {
            Ok(name) => FileTrouble {
                file: Some(name),
                fault,
            },
            Err(error) => FileTrouble::from(error),
        }
    }

    /// Returns the error.
    pub fn fault(&self) -> &ToolFault {
        &self.fault
    }

    /// Returns the name of the file that the error is about, if its text does not have it.
    pub fn file(&self) -> Option<&[u8]> {
        match &self.file {
            Some(name) => Some(name.as_slice()),
            None => None,
        }
    }

    /// Returns the text of the error, with the name of the file before it.
    ///
    /// # Errors
    ///
    /// Memory ran out.
    pub fn text(&self, alloc: Global) -> Result<Vec<u8>, AllocError> {
        let mut text = Vec::new(alloc);
        if let Some(name) = &self.file {
            text.extend_from_slice(name.as_slice())?;
            text.extend_from_slice(b": ")?;
        }
        text.extend_from_slice(fault_text(alloc, &self.fault)?.as_slice())?;
        Ok(text)
    }
}

impl From<ToolFault> for FileTrouble {
    fn from(fault: ToolFault) -> FileTrouble {
        FileTrouble { file: None, fault }
    }
}

impl From<LayerFault> for FileTrouble {
    fn from(fault: LayerFault) -> FileTrouble {
        FileTrouble::from(ToolFault::from(fault))
    }
}

impl From<AllocError> for FileTrouble {
    fn from(error: AllocError) -> FileTrouble {
        FileTrouble::from(ToolFault::from(error))
    }
}

impl<T: Drop> From<AllocFailed<T>> for FileTrouble {
    fn from(_error: AllocFailed<T>) -> FileTrouble {
        FileTrouble::from(AllocError)
    }
}
