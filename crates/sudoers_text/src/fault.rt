//! Why a text cannot be cut into lines.

ghost use Rattle.std.specs.Prelude.{◌≡◌};
ghost use Rattle.sudoers_text.specs.declared.fault.TextFault.TheVariants.{NoMemory};

use std::alloc::{AllocError, AllocFailed};
use thiserror::Error;

/// What is wrong with a text.
#[derive(Clone, Copy, Debug, PartialEq, Eq, Error)]
pub enum TextFault {
    /// The text has more than 1,048,576 bytes.
    #[error("text too large")]
    TooLarge,
    /// The logical line that begins on this physical line, from 1, has more than 65,536 bytes.
    #[error("line {line} too long")]
    LineTooLong { line: usize },
    /// The byte, from 0, is NUL.
    #[error("NUL at byte {at}")]
    Nul { at: usize },
    /// The text ends in a continuation, or in a lone backslash.
    #[error("the text ends in a continuation")]
    OpenContinuation,
    /// A growth of memory was refused.
    #[error("out of memory")]
    NoMemory,
}

impl From<AllocError> for TextFault {
    ghost from_gives = { λ _ e. e ≡ NoMemory };

    fn from(_e: AllocError) -> TextFault {
        TextFault::NoMemory
    }
}

impl<T: Drop> From<AllocFailed<T>> for TextFault {
    ghost from_gives = { λ _ e. e ≡ NoMemory };

    fn from(_e: AllocFailed<T>) -> TextFault {
        TextFault::NoMemory
    }
}
