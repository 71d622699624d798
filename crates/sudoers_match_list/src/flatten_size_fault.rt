//! Why a list is not flattened.

use std::alloc::{AllocError, AllocFailed};

/// Why a list is not flattened.
#[derive(Clone, Copy, Debug, PartialEq, Eq)]
pub enum FlattenSizeFault {
    /// The list has more than 65,536 members when its aliases are replaced.
    TooLarge,
    /// Memory ran out.
    NoMemory,
}

impl From<AllocError> for FlattenSizeFault {
    ghost use Rattle.std.specs.Prelude.{◌≡◌};
    ghost use Rattle.sudoers_match_list.specs.declared.flatten_size_fault.FlattenSizeFault.TheVariants.{NoMemory};

    ghost from_gives = { λ _ e. e ≡ NoMemory };

    fn from(_: AllocError) -> FlattenSizeFault {
        FlattenSizeFault::NoMemory
    }
}

impl<T: Drop> From<AllocFailed<T>> for FlattenSizeFault {
    ghost use Rattle.std.specs.Prelude.{◌≡◌};
    ghost use Rattle.sudoers_match_list.specs.declared.flatten_size_fault.FlattenSizeFault.TheVariants.{NoMemory};

    ghost from_gives = { λ _ e. e ≡ NoMemory };

    fn from(_: AllocFailed<T>) -> FlattenSizeFault {
        FlattenSizeFault::NoMemory
    }
}
