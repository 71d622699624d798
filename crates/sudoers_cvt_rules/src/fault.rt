//! Why rules are not converted.

use std::alloc::{AllocError, AllocFailed};
use sudoers_match_list::FlattenSizeFault;
use thiserror::Error;

/// Why rules are not converted.
#[derive(Clone, Copy, Debug, PartialEq, Eq, Error)]
pub enum CvtFault {
    /// A reachable alias is joined to itself by a chain of mentions.
    #[error("Cycle")]
    Cycle,
    /// The text, a line of it, or with aliases replaced the number of members passes its limit.
    #[error("TooLarge")]
    TooLarge,
    /// A text is no UTF-8.
    #[error("NotUtf8")]
    NotUtf8,
    /// Memory ran out.
    #[error("NoMemory")]
    NoMemory,
}

impl From<AllocError> for CvtFault {
    ghost use Rattle.std.specs.Prelude.{◌≡◌};
    ghost use Rattle.sudoers_cvt_rules.specs.declared.fault.CvtFault.TheVariants.{NoMemory};

    ghost from_gives = { λ _ e. e ≡ NoMemory };

    fn from(_: AllocError) -> CvtFault {
        CvtFault::NoMemory
    }
}

impl<T: Drop> From<AllocFailed<T>> for CvtFault {
    ghost use Rattle.std.specs.Prelude.{◌≡◌};
    ghost use Rattle.sudoers_cvt_rules.specs.declared.fault.CvtFault.TheVariants.{NoMemory};

    ghost from_gives = { λ _ e. e ≡ NoMemory };

    fn from(_: AllocFailed<T>) -> CvtFault {
        CvtFault::NoMemory
    }
}

impl From<FlattenSizeFault> for CvtFault {
    ghost use Rattle.std.specs.Prelude.{◌≡◌};
    ghost use Rattle.sudoers_cvt_rules.specs.Fault.{cvt_fault_of_flatten_fault};

    ghost from_gives = { λ fault e. e ≡ cvt_fault_of_flatten_fault fault };

    fn from(fault: FlattenSizeFault) -> CvtFault {
        match fault {
            FlattenSizeFault::TooLarge => CvtFault::TooLarge,
            FlattenSizeFault::NoMemory => CvtFault::NoMemory,
        }
    }
}
