//! Why policies are not compared.

use std::alloc::{AllocError, AllocFailed};
use sudoers_match_list::{AskFault, FlattenSizeFault};

/// Why policies are not compared.
#[derive(Clone, Copy, Debug, PartialEq, Eq)]
pub enum CompareFault {
    /// A reachable alias is cyclic.
    Cycle,
    /// More than 65,536 members come in the place of the aliases of a policy, or the text has more than 16 MiB.
    TooLarge,
    /// Memory ran out.
    NoMemory,
}

impl From<AllocError> for CompareFault {
    ghost use Rattle.std.specs.Prelude.{◌≡◌};
    ghost use Rattle.sudoers_review.specs.declared.compare_fault.CompareFault.TheVariants.{NoMemory};

    ghost from_gives = { λ _ e. e ≡ NoMemory };

    fn from(_: AllocError) -> CompareFault {
        CompareFault::NoMemory
    }
}

impl<T: Drop> From<AllocFailed<T>> for CompareFault {
    ghost use Rattle.std.specs.Prelude.{◌≡◌};
    ghost use Rattle.sudoers_review.specs.declared.compare_fault.CompareFault.TheVariants.{NoMemory};

    ghost from_gives = { λ _ e. e ≡ NoMemory };

    fn from(_: AllocFailed<T>) -> CompareFault {
        CompareFault::NoMemory
    }
}

impl From<AskFault> for CompareFault {
    ghost use Rattle.std.specs.Prelude.{◌≡◌};
    ghost use Rattle.sudoers_review.specs.Faults.{compare_fault_of_ask};

    ghost from_gives = { λ fault e. e ≡ compare_fault_of_ask fault };

    fn from(fault: AskFault) -> CompareFault {
        match fault {
            AskFault::Cycle => CompareFault::Cycle,
            AskFault::TooLong => CompareFault::TooLarge,
            AskFault::NoMemory => CompareFault::NoMemory,
        }
    }
}

impl From<FlattenSizeFault> for CompareFault {
    ghost use Rattle.std.specs.Prelude.{◌≡◌};
    ghost use Rattle.sudoers_review.specs.Faults.{compare_fault_of_flatten};

    ghost from_gives = { λ fault e. e ≡ compare_fault_of_flatten fault };

    fn from(fault: FlattenSizeFault) -> CompareFault {
        match fault {
            FlattenSizeFault::TooLarge => CompareFault::TooLarge,
            FlattenSizeFault::NoMemory => CompareFault::NoMemory,
        }
    }
}
