//! Why files are no policy.

ghost use Rattle.std.specs.Prelude.{◌≡◌};
ghost use Rattle.sudoers_tree.specs.declared.load_fault.LoadFault.TheVariants.{NoMemory};

use crate::fault::ReadFault;
use std::alloc::{AllocError, AllocFailed};
use sudoers_grammar::Items;
use thiserror::Error;

/// Why files are no policy. `file` is the name of the file that has the fault.
#[derive(Debug, Drop, Error)]
pub enum LoadFault {
    /// There are more than 256 files.
    #[error("too many files")]
    TooManyFiles,
    /// Two files have one name.
    #[error("two files have one name")]
    SameName { file: Items<u8> },
    /// A file has a fault.
    #[error("{fault}")]
    InFile { file: Items<u8>, fault: ReadFault },
    /// A growth of memory was refused.
    #[error("out of memory")]
    NoMemory,
}

impl From<AllocError> for LoadFault {
    ghost from_gives = { λ _ e. e ≡ NoMemory };

    fn from(_error: AllocError) -> LoadFault {
        LoadFault::NoMemory
    }
}

impl<T: Drop> From<AllocFailed<T>> for LoadFault {
    ghost from_gives = { λ _ e. e ≡ NoMemory };

    fn from(_error: AllocFailed<T>) -> LoadFault {
        LoadFault::NoMemory
    }
}
