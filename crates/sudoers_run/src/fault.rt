//! The faults of the program.

use std::alloc::AllocError;
use sudoers_bundle::BundleFault;
use sudoers_cvt_rewrite::FilterFault;
use sudoers_cvt_rules::CvtFault;
use sudoers_edit::{EditFault, ScriptFault};
use sudoers_files::GatherFault;
use sudoers_list_people::{PeopleFault, WhoFault};
use sudoers_match_list::AskFault;
use sudoers_tree::LoadFault;
use thiserror::Error;

/// A fault of a library. Want of memory is `NoMemory`, whichever library met it.
#[derive(Debug, Drop, Error)]
pub enum LayerFault {
    /// The files of a policy cannot be gathered.
    #[error("{0}")]
    Gather(GatherFault),
    /// The files are no policy.
    #[error("{0}")]
    Load(LoadFault),
    /// The text of the script is no script, or the inverse list is too long.
    #[error("{0}")]
    Script(ScriptFault),
    /// The edit at this place, from 0, is refused.
    #[error("edit at {0}: {1}")]
    Edit(usize, EditFault),
    /// The rules cannot be converted.
    #[error("{0}")]
    Convert(CvtFault),
    /// The text of a filter is no filter.
    #[error("{0}")]
    Filter(FilterFault),
    /// A row of passwd or of group does not have the form of its file, or one of these files is too large.
    #[error("{0}")]
    People(PeopleFault),
    /// The words name no user or group of these files, or are no addresses or no moment.
    #[error("{0}")]
    Who(WhoFault),
    /// The policy gives no answer.
    #[error("{0:?}")]
    Ask(AskFault),
    /// A growth of memory was refused.
    #[error("NoMemory")]
    NoMemory,
}

/// A fault of the program.
#[derive(Debug, Drop, Error)]
pub enum ToolFault {
    /// The reader failed.
    #[error("Read")]
    Read,
    /// The writer failed. A beginning of the output has been written.
    #[error("Write")]
    Write,
    /// The input has no end within the reads that are allowed.
    #[error("NoEnd")]
    NoEnd,
    /// A file, the script, an edit, the words or the result is at fault, or memory ran out.
    #[error("{0}")]
    Layer(LayerFault),
    /// No line of the input is the mark, and none begins a bundle.
    #[error("NoMark")]
    NoMark,
    /// The file with this number of the bundle, from 1, has no right header, or fewer bytes than that says.
    #[error("BadBundle")]
    BadBundle { file: usize },
    /// The input passes its limit.
    #[error("InputTooLarge")]
    InputTooLarge,
}

impl From<GatherFault> for LayerFault {
    ghost use Rattle.std.specs.Prelude.{◌≡◌};
    ghost use Rattle.sudoers_run.specs.internal.LayerOf.{layer_fault_of_gather};

    ghost from_gives = { λ fault e. e ≡ layer_fault_of_gather fault };

    fn from(fault: GatherFault) -> LayerFault {
        match fault {
            GatherFault::NoMemory => LayerFault::NoMemory,
            fault => LayerFault::Gather(fault),
        }
    }
}

impl From<LoadFault> for LayerFault {
    ghost use Rattle.std.specs.Prelude.{◌≡◌};
    ghost use Rattle.sudoers_run.specs.internal.LayerOf.{layer_fault_of_load};

    ghost from_gives = { λ fault e. e ≡ layer_fault_of_load fault };

    fn from(fault: LoadFault) -> LayerFault {
        match fault {
            LoadFault::NoMemory => LayerFault::NoMemory,
            fault => LayerFault::Load(fault),
        }
    }
}

impl From<ScriptFault> for LayerFault {
    ghost use Rattle.std.specs.Prelude.{◌≡◌};
    ghost use Rattle.sudoers_run.specs.internal.LayerOf.{layer_fault_of_script};

    ghost from_gives = { λ fault e. e ≡ layer_fault_of_script fault };

    fn from(fault: ScriptFault) -> LayerFault {
        match fault {
            ScriptFault::NoMemory => LayerFault::NoMemory,
            _ => LayerFault::Script(fault),
        }
    }
}

impl From<(usize, EditFault)> for LayerFault {
    ghost use Rattle.std.specs.Prelude.{◌≡◌};
    ghost use Rattle.sudoers_run.specs.internal.LayerOf.{layer_fault_of_edit};

    ghost from_gives = { λ refused e. e ≡ layer_fault_of_edit refused.0 refused.1 };

    fn from(refused: (usize, EditFault)) -> LayerFault {
        let (place, fault) = refused;
        match fault {
            EditFault::NoMemory => LayerFault::NoMemory,
            fault => LayerFault::Edit(place, fault),
        }
    }
}

impl From<CvtFault> for LayerFault {
    ghost use Rattle.std.specs.Prelude.{◌≡◌};
    ghost use Rattle.sudoers_run.specs.internal.LayerOf.{layer_fault_of_cvt};

    ghost from_gives = { λ fault e. e ≡ layer_fault_of_cvt fault };

    fn from(fault: CvtFault) -> LayerFault {
        match fault {
            CvtFault::NoMemory => LayerFault::NoMemory,
            fault => LayerFault::Convert(fault),
        }
    }
}

impl From<FilterFault> for LayerFault {
    ghost use Rattle.std.specs.Prelude.{◌≡◌};
    ghost use Rattle.sudoers_run.specs.internal.LayerOf.{layer_fault_of_filter};

    ghost from_gives = { λ fault e. e ≡ layer_fault_of_filter fault };

    fn from(fault: FilterFault) -> LayerFault {
        match fault {
            FilterFault::NoMemory => LayerFault::NoMemory,
            fault => LayerFault::Filter(fault),
        }
    }
}

impl From<PeopleFault> for LayerFault {
    ghost use Rattle.std.specs.Prelude.{◌≡◌};
    ghost use Rattle.sudoers_run.specs.internal.LayerOf.{layer_fault_of_people};

    ghost from_gives = { λ fault e. e ≡ layer_fault_of_people fault };

    fn from(fault: PeopleFault) -> LayerFault {
        match fault {
            PeopleFault::NoMemory => LayerFault::NoMemory,
            fault => LayerFault::People(fault),
        }
    }
}

impl From<WhoFault> for LayerFault {
    ghost use Rattle.std.specs.Prelude.{◌≡◌};
    ghost use Rattle.sudoers_run.specs.internal.LayerOf.{layer_fault_of_who};

    ghost from_gives = { λ fault e. e ≡ layer_fault_of_who fault };

    fn from(fault: WhoFault) -> LayerFault {
        match fault {
            WhoFault::NoMemory => LayerFault::NoMemory,
            fault => LayerFault::Who(fault),
        }
    }
}

impl From<AskFault> for LayerFault {
    ghost use Rattle.std.specs.Prelude.{◌≡◌};
    ghost use Rattle.sudoers_run.specs.internal.LayerOf.{layer_fault_of_ask};

    ghost from_gives = { λ fault e. e ≡ layer_fault_of_ask fault };

    fn from(fault: AskFault) -> LayerFault {
        match fault {
            AskFault::NoMemory => LayerFault::NoMemory,
            fault => LayerFault::Ask(fault),
        }
    }
}

impl From<AllocError> for LayerFault {
    ghost use Rattle.std.specs.Prelude.{◌≡◌};
    ghost use Rattle.sudoers_run.specs.declared.fault.LayerFault.TheVariants.{NoMemory};

    ghost from_gives = { λ _ e. e ≡ NoMemory };

    fn from(_error: AllocError) -> LayerFault {
        LayerFault::NoMemory
    }
}

impl From<LayerFault> for ToolFault {
    ghost use Rattle.std.specs.Prelude.{◌≡◌};
    ghost use Rattle.sudoers_run.specs.declared.fault.ToolFault.TheVariants.{Layer};

    ghost from_gives = { λ fault e. e ≡ Layer fault };

    fn from(fault: LayerFault) -> ToolFault {
        ToolFault::Layer(fault)
    }
}

impl From<AllocError> for ToolFault {
    ghost use Rattle.std.specs.Prelude.{◌≡◌};
    ghost use Rattle.sudoers_run.specs.declared.fault.LayerFault.TheVariants.{NoMemory};
    ghost use Rattle.sudoers_run.specs.declared.fault.ToolFault.TheVariants.{Layer};

    ghost from_gives = { λ _ e. e ≡ Layer NoMemory };

    fn from(_error: AllocError) -> ToolFault {
        ToolFault::Layer(LayerFault::NoMemory)
    }
}

impl From<BundleFault> for ToolFault {
    ghost use Rattle.std.specs.Prelude.{◌≡◌};
    ghost use Rattle.sudoers_run.specs.internal.LayerOf.{tool_fault_of_bundle};

    ghost from_gives = { λ fault e. e ≡ tool_fault_of_bundle fault };

    fn from(fault: BundleFault) -> ToolFault {
        match fault {
            BundleFault::BadFile { file } => ToolFault::BadBundle { file },
            BundleFault::NoMemory => ToolFault::Layer(LayerFault::NoMemory),
        }
    }
}
