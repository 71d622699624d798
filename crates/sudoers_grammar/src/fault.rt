//! Why a line says nothing.

ghost use Rattle.std.specs.Prelude.{◌≡◌};
ghost use Rattle.sudoers_grammar.specs.declared.fault.LineFault.TheVariants.{NoMemory};

use std::alloc::{AllocError, AllocFailed};
use thiserror::Error;

/// Why a line is in no form that a line may have.
#[derive(Clone, Copy, Debug, PartialEq, Eq)]
pub enum Why {
    /// A byte that begins nothing.
    UnexpectedByte,
    /// A token that may not stand there.
    UnexpectedToken,
    /// The line ends too early.
    EndOfLine,
    /// A `"` that is never closed.
    OpenQuote,
    /// A prefix, or quotes, with no name behind it.
    EmptyName,
    /// An ID above 4,294,967,295.
    BadId,
    /// Digits, `.` and `/` in a host's place that are no network.
    BadAddress,
    /// A value of NOTBEFORE or NOTAFTER that is no time stamp.
    BadStamp,
    /// A regular expression in the place of a command or of its first argument.
    Regex,
}

/// Why a line is not read.
#[derive(Clone, Copy, Debug, PartialEq, Eq, Error)]
pub enum LineFault {
    /// At this byte of the line, from 0, the first token begins with which the line's tokens begin nothing that a line may say;
    /// or there the line ends too early.
    #[error("syntax error at byte {at}")]
    Syntax { at: usize, why: Why },
    /// A growth of memory was refused.
    #[error("out of memory")]
    NoMemory,
}

impl From<AllocError> for LineFault {
    ghost from_gives = { λ _ e. e ≡ NoMemory };

    fn from(_e: AllocError) -> LineFault {
        LineFault::NoMemory
    }
}

impl<T: Drop> From<AllocFailed<T>> for LineFault {
    ghost from_gives = { λ _ e. e ≡ NoMemory };

    fn from(_e: AllocFailed<T>) -> LineFault {
        LineFault::NoMemory
    }
}
