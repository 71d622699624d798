//! Why the rights of a user are not listed.

use std::alloc::AllocError;
use sudoers_match_list::{AskFault, FlattenSizeFault};

/// Why the rights of a user are not listed.
#[derive(Clone, Copy, Debug, PartialEq, Eq)]
pub enum RightsFault {
    /// A reachable alias is cyclic.
    Cycle,
    /// A list has more than 65,536 members when its aliases are replaced.
    TooLarge,
    /// Memory ran out.
    NoMemory,
}

impl From<AllocError> for RightsFault {
    fn from(_: AllocError) -> RightsFault {
        RightsFault::NoMemory
    }
}

impl From<AskFault> for RightsFault {
    fn from(fault: AskFault) -> RightsFault {
        match fault {
            AskFault::Cycle => RightsFault::Cycle,
            AskFault::TooLong => RightsFault::TooLarge,
            AskFault::NoMemory => RightsFault::NoMemory,
        }
    }
}

impl From<FlattenSizeFault> for RightsFault {
    fn from(fault: FlattenSizeFault) -> RightsFault {
        match fault {
            FlattenSizeFault::TooLarge => RightsFault::TooLarge,
            FlattenSizeFault::NoMemory => RightsFault::NoMemory,
        }
    }
}
