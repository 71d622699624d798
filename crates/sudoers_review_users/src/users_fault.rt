//! Why policies are not compared for users.

use std::alloc::AllocError;
use sudoers_list_people::WhoFault;
use sudoers_review::CompareFault;

/// Why policies are not compared for users.
#[derive(Clone, Copy, Debug, PartialEq, Eq)]
pub enum UserChangesFault {
    /// The policies cannot be compared.
    Compare(CompareFault),
    /// A name is that of no user, or an address is in no form of one.
    Who(WhoFault),
}

impl From<CompareFault> for UserChangesFault {
    ghost use Rattle.std.specs.Prelude.{◌≡◌};
    ghost use Rattle.sudoers_review_users.specs.declared.users_fault.UserChangesFault.TheVariants.{Compare};

    ghost from_gives = { λ fault e. e ≡ Compare fault };

    fn from(fault: CompareFault) -> UserChangesFault {
        UserChangesFault::Compare(fault)
    }
}

impl From<AllocError> for UserChangesFault {
    ghost use Rattle.std.specs.Prelude.{◌≡◌};
    ghost use Rattle.sudoers_review.specs.declared.compare_fault.CompareFault.TheVariants.{NoMemory};
    ghost use Rattle.sudoers_review_users.specs.declared.users_fault.UserChangesFault.TheVariants.{Compare};

    ghost from_gives = { λ _ e. e ≡ Compare NoMemory };

    fn from(_: AllocError) -> UserChangesFault {
        UserChangesFault::Compare(CompareFault::NoMemory)
    }
}

impl From<WhoFault> for UserChangesFault {
    ghost use Rattle.std.specs.Prelude.{◌≡◌};
    ghost use Rattle.sudoers_review_users.specs.declared.users_fault.UserChangesFault.TheVariants.{Who};

    ghost from_gives = { λ fault e. e ≡ Who fault };

    fn from(fault: WhoFault) -> UserChangesFault {
        UserChangesFault::Who(fault)
    }
}
