//! Why an edit is refused.

use std::alloc::{AllocError, AllocFailed};
use sudoers_text::TextFault;
use sudoers_tree::{LoadFault, ReadFault};
use thiserror::Error;

/// Why an edit is refused, the first cause in this order.
#[derive(Debug, Drop, Error)]
pub enum EditFault {
    /// There is no file with this number.
    #[error("NoFile")]
    NoFile,
    /// The line is not there.
    #[error("NoLine")]
    NoLine,
    /// The text to insert is not exactly one logical line.
    #[error("NotOneLine")]
    NotOneLine,
    /// A line without LF would stand before another.
    #[error("OpenLine")]
    OpenLine,
    /// The alias is not defined in the kind, or the line defines none.
    #[error("NoAlias")]
    NoAlias,
    /// There is no such place in the list of members or definitions.
    #[error("NoPlace")]
    NoPlace,
    /// The only member or definition cannot be dropped.
    #[error("OnlyOne")]
    OnlyOne,
    /// The fresh name is no name of an alias, or is reserved.
    #[error("BadName")]
    BadName,
    /// The fresh name is defined or mentioned in the kind.
    #[error("NameTaken")]
    NameTaken,
    /// The line would not read as before but for the one member or definition, or this would not own exactly the splice.
    #[error("BadSplice")]
    BadSplice,
    /// `EndLine`: the last line already ends in LF. `OpenEnd`: it does not, or it is LF alone. Either: there is no line.
    #[error("EndAsIs")]
    EndAsIs,
    /// A file of the result would pass the limit of a text, or a changed line that of a line.
    #[error("TooLarge")]
    TooLarge,
    /// The result would be no policy.
    #[error("NotPolicy: {0}")]
    NotPolicy(LoadFault),
    /// A growth of memory was refused.
    #[error("NoMemory")]
    NoMemory,
}

impl From<AllocError> for EditFault {
    ghost use Rattle.std.specs.Prelude.{◌≡◌};
    ghost use Rattle.sudoers_edit.specs.declared.fault.EditFault.TheVariants.{NoMemory};

    ghost from_gives = { λ _ e. e ≡ NoMemory };

    fn from(_error: AllocError) -> EditFault {
        EditFault::NoMemory
    }
}

impl<T: Drop> From<AllocFailed<T>> for EditFault {
    ghost use Rattle.std.specs.Prelude.{◌≡◌};
    ghost use Rattle.sudoers_edit.specs.declared.fault.EditFault.TheVariants.{NoMemory};

    ghost from_gives = { λ _ e. e ≡ NoMemory };

    fn from(_error: AllocFailed<T>) -> EditFault {
        EditFault::NoMemory
    }
}

impl From<LoadFault> for EditFault {
    ghost use Rattle.std.specs.Prelude.{◌≡◌};
    ghost use Rattle.sudoers_edit.specs.Landing.{edit_fault_of_load_fault};

    ghost from_gives = { λ fault e. e ≡ edit_fault_of_load_fault fault };

    fn from(fault: LoadFault) -> EditFault {
        match fault {
            LoadFault::NoMemory => EditFault::NoMemory,
            LoadFault::InFile {
                fault: ReadFault::Text(TextFault::TooLarge),
                ..
            } => EditFault::TooLarge,
            fault => EditFault::NotPolicy(fault),
        }
    }
}
