//! Why texts or words say nothing of people.

use std::alloc::{AllocError, AllocFailed};
use thiserror::Error;

/// A file of people.
#[derive(Clone, Copy, Debug, PartialEq, Eq)]
pub enum PeopleFile {
    Passwd,
    Group,
}

/// Why people are not read.
#[derive(Clone, Copy, Debug, PartialEq, Eq, Error)]
pub enum PeopleFault {
    /// The row with this number, from 1, is in no form that a row of the file may have.
    #[error("bad row {line}")]
    BadRow { file: PeopleFile, line: usize },
    /// A text is longer than 1,048,576 bytes.
    #[error("text too large")]
    TooLarge,
    /// Memory ran out.
    #[error("out of memory")]
    NoMemory,
}

/// Why words name nobody.
#[derive(Clone, Copy, Debug, PartialEq, Eq, Error)]
pub enum WhoFault {
    /// No user has the name.
    #[error("no such user")]
    NoUser,
    /// No group has the name.
    #[error("no such group")]
    NoGroup,
    /// An interface is no address with `/` and a number of bits.
    #[error("bad address")]
    BadAddress,
    /// The moment is no time stamp.
    #[error("bad moment")]
    BadMoment,
    /// Memory ran out.
    #[error("out of memory")]
    NoMemory,
}

impl From<AllocError> for PeopleFault {
    ghost use Rattle.std.specs.Prelude.{◌≡◌};
    ghost use Rattle.sudoers_list_people.specs.declared.fault.PeopleFault.TheVariants.{NoMemory};

    ghost from_gives = { λ _ e. e ≡ NoMemory };

    fn from(_: AllocError) -> PeopleFault {
        PeopleFault::NoMemory
    }
}

impl<T: Drop> From<AllocFailed<T>> for PeopleFault {
    ghost use Rattle.std.specs.Prelude.{◌≡◌};
    ghost use Rattle.sudoers_list_people.specs.declared.fault.PeopleFault.TheVariants.{NoMemory};

    ghost from_gives = { λ _ e. e ≡ NoMemory };

    fn from(_: AllocFailed<T>) -> PeopleFault {
        PeopleFault::NoMemory
    }
}

impl From<AllocError> for WhoFault {
    ghost use Rattle.std.specs.Prelude.{◌≡◌};
    ghost use Rattle.sudoers_list_people.specs.declared.fault.WhoFault.TheVariants.{NoMemory};

    ghost from_gives = { λ _ e. e ≡ NoMemory };

    fn from(_: AllocError) -> WhoFault {
        WhoFault::NoMemory
    }
}

impl<T: Drop> From<AllocFailed<T>> for WhoFault {
    ghost use Rattle.std.specs.Prelude.{◌≡◌};
    ghost use Rattle.sudoers_list_people.specs.declared.fault.WhoFault.TheVariants.{NoMemory};

    ghost from_gives = { λ _ e. e ≡ NoMemory };

    fn from(_: AllocFailed<T>) -> WhoFault {
        WhoFault::NoMemory
    }
}
