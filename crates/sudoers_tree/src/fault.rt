//! Why a text is no policy.

ghost use Rattle.std.specs.Prelude.{◌≡◌};
ghost use Rattle.sudoers_tree.specs.declared.fault.ReadFault.TheVariants.{NoMemory};
ghost use Rattle.sudoers_tree.specs.Fault.{syntax_fault_as_read_fault};

use std::alloc::{AllocError, AllocFailed};
use sudoers_grammar::{Items, Kind, Why};
use sudoers_text::TextFault;
use thiserror::Error;

/// Where and why a line does not parse: the physical line and the byte in it of the first fault, both from 1.
#[derive(Clone, Copy)]
pub struct SyntaxFault {
    pub line: usize,
    pub col: usize,
    pub why: Why,
}

/// Why a text is no policy: the fault of its cut into lines, or else the first fault of the first line that has one.
#[derive(Debug, Drop, Error)]
pub enum ReadFault {
    /// The text cannot be cut into lines. Want of memory is [`ReadFault::NoMemory`].
    #[error("{0}")]
    Text(TextFault),
    /// A line does not parse. Its first fault is on this physical line and at this byte of it, both from 1.
    #[error("syntax error at {line}:{col}")]
    Syntax { line: usize, col: usize, why: Why },
    /// A reserved word is defined as an alias.
    #[error("a reserved word is defined")]
    Reserved { kind: Kind, name: Items<u8> },
    /// A name is defined twice in a kind.
    #[error("a name is defined twice")]
    Duplicate { kind: Kind, name: Items<u8> },
    /// There are more than 4,096 definitions of a kind.
    #[error("too many aliases of a kind")]
    TooMany { kind: Kind },
    /// A line includes the file `name`, which is not there. It begins on this physical line, from 1.
    #[error("an included file is not loaded")]
    NotLoaded { line: usize, name: Items<u8> },
    /// A line includes the file `name`, which is included already.
    #[error("a file is included twice")]
    Twice { line: usize, name: Items<u8> },
    /// A line includes a file at depth 129.
    #[error("includes are nested too deep")]
    TooDeep { line: usize },
    /// A growth of memory was refused.
    #[error("out of memory")]
    NoMemory,
}

impl From<AllocError> for ReadFault {
    ghost from_gives = { λ _ e. e ≡ NoMemory };

    fn from(_error: AllocError) -> ReadFault {
        ReadFault::NoMemory
    }
}

impl<T: Drop> From<AllocFailed<T>> for ReadFault {
    ghost from_gives = { λ _ e. e ≡ NoMemory };

    fn from(_error: AllocFailed<T>) -> ReadFault {
        ReadFault::NoMemory
    }
}

impl From<SyntaxFault> for ReadFault {
    ghost from_gives = { λ fault e. e ≡ syntax_fault_as_read_fault fault };

    fn from(fault: SyntaxFault) -> ReadFault {
        ReadFault::Syntax {
            line: fault.line,
            col: fault.col,
            why: fault.why,
        }
    }
}
