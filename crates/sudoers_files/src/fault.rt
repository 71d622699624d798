//! Why files cannot be gathered.

ghost use Rattle.std.specs.Prelude.{◌≡◌};
ghost use Rattle.sudoers_files.specs.Gather.{gather_fault_of_file_fault};
ghost use Rattle.sudoers_files.specs.declared.fault.FileFault.TheVariants as file_fault;
ghost use Rattle.sudoers_files.specs.declared.fault.GatherFault.TheVariants as gather_fault;

use std::alloc::{AllocError, AllocFailed};
use thiserror::Error;

/// Why a file or a folder cannot be read.
#[derive(Clone, Copy, Debug, PartialEq, Eq, Error)]
pub enum FileFault {
    /// The device failed.
    #[error("a device failed")]
    Failed,
    /// A file did not end within the reads that are allowed.
    #[error("a file has no end")]
    NoEnd,
    /// A growth of memory was refused.
    #[error("out of memory")]
    NoMemory,
}

impl From<AllocError> for FileFault {
    ghost from_gives = { λ _ e. e ≡ file_fault.NoMemory };

    fn from(_error: AllocError) -> FileFault {
        FileFault::NoMemory
    }
}

impl<T: Drop> From<AllocFailed<T>> for FileFault {
    ghost from_gives = { λ _ e. e ≡ file_fault.NoMemory };

    fn from(_error: AllocFailed<T>) -> FileFault {
        FileFault::NoMemory
    }
}

/// Why the files of a policy cannot be gathered.
#[derive(Clone, Copy, Debug, PartialEq, Eq, Error)]
pub enum GatherFault {
    /// The root is missing.
    #[error("the policy file is not there")]
    NoRoot,
    /// A file or a folder cannot be read. Want of memory is [`GatherFault::NoMemory`].
    #[error("{0}")]
    Device(FileFault),
    /// There are more than 256 files.
    #[error("too many files")]
    TooManyFiles,
    /// A growth of memory was refused.
    #[error("out of memory")]
    NoMemory,
}

impl From<AllocError> for GatherFault {
    ghost from_gives = { λ _ e. e ≡ gather_fault.NoMemory };

    fn from(_error: AllocError) -> GatherFault {
        GatherFault::NoMemory
    }
}

impl<T: Drop> From<AllocFailed<T>> for GatherFault {
    ghost from_gives = { λ _ e. e ≡ gather_fault.NoMemory };

    fn from(_error: AllocFailed<T>) -> GatherFault {
        GatherFault::NoMemory
    }
}

impl From<FileFault> for GatherFault {
    ghost from_gives = { λ fault e. e ≡ gather_fault_of_file_fault fault };

    fn from(fault: FileFault) -> GatherFault {
        match fault {
            FileFault::NoMemory => GatherFault::NoMemory,
            fault => GatherFault::Device(fault),
        }
    }
}
