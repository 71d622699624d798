//! Why nothing is planned.

use std::alloc::{AllocError, AllocFailed};
use sudoers_edit::EditFault;
use sudoers_tree::WalkLineSpot;
use thiserror::Error;

/// Why a wish cannot be made true.
#[derive(Debug, Drop, Error)]
pub enum PlanFault {
    /// The text is not exactly one member of lists of the kind.
    #[error("BadMember")]
    BadMember,
    /// The walk defines no such alias.
    #[error("NoAlias")]
    NoAlias,
    /// No file on the walk has this name.
    #[error("NoFile")]
    NoFile,
    /// The text with LF after it is not exactly one logical line.
    #[error("BadLine")]
    BadLine,
    /// An include line would be removed.
    #[error("IncludeLine")]
    IncludeLine,
    /// No line of the file is the text that says where the new line goes.
    #[error("NoAnchor")]
    NoAnchor,
    /// Several lines of the file are the text that says where the new line goes.
    #[error("SeveralAnchors")]
    SeveralAnchors,
    /// The line at `at` denies something to the user, or to an alias in which he stands. Without him it could let him in.
    #[error("Denial")]
    Denial { at: WalkLineSpot },
    /// The line at `at` is for aliases that would go, and would be for all users.
    #[error("EmptiedScope")]
    EmptiedScope { at: WalkLineSpot },
    /// Without the user, the line at `at` would be read as something else, as another kind of line.
    #[error("Misread")]
    Misread { at: WalkLineSpot },
    /// An edit that the wish wants is refused.
    #[error("{0}")]
    Refused(EditFault),
    /// After the edits of all wishes this one is not met.
    #[error("NotMet")]
    NotMet,
    /// A growth of memory was refused.
    #[error("NoMemory")]
    NoMemory,
}

/// The number of the wish that cannot be made true, from 0, and why.
#[derive(Debug, Drop)]
pub struct PlanRefusal {
    pub wish: usize,
    pub fault: PlanFault,
}

impl From<AllocError> for PlanFault {
    ghost use Rattle.std.specs.Prelude.{◌≡◌};
    ghost use Rattle.sudoers_plan.specs.declared.fault.PlanFault.TheVariants.{NoMemory};

    ghost from_gives = { λ _ e. e ≡ NoMemory };

    fn from(_error: AllocError) -> PlanFault {
        PlanFault::NoMemory
    }
}

impl<T: Drop> From<AllocFailed<T>> for PlanFault {
    ghost use Rattle.std.specs.Prelude.{◌≡◌};
    ghost use Rattle.sudoers_plan.specs.declared.fault.PlanFault.TheVariants.{NoMemory};

    ghost from_gives = { λ _ e. e ≡ NoMemory };

    fn from(_error: AllocFailed<T>) -> PlanFault {
        PlanFault::NoMemory
    }
}

impl From<EditFault> for PlanFault {
    ghost use Rattle.std.specs.Prelude.{◌≡◌};
    ghost use Rattle.sudoers_plan.specs.Plan.{plan_fault_of_refusal};

    ghost from_gives = { λ fault e. e ≡ plan_fault_of_refusal fault };

    fn from(fault: EditFault) -> PlanFault {
        match fault {
            EditFault::NoMemory => PlanFault::NoMemory,
            fault => PlanFault::Refused(fault),
        }
    }
}

impl From<AllocError> for PlanRefusal {
    ghost use Rattle.std.specs.Prelude.{◌≡◌};
    ghost use Rattle.sudoers_plan.specs.declared.fault.PlanFault.TheVariants.{NoMemory};

    ghost from_gives = { λ _ e. e.fault ≡ NoMemory };

    fn from(_error: AllocError) -> PlanRefusal {
        PlanRefusal {
            wish: 0,
            fault: PlanFault::NoMemory,
        }
    }
}
