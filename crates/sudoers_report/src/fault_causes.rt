//! The words for the causes of errors of a policy.

use sudoers_grammar::Why;
use sudoers_text::TextFault;
use sudoers_tree::{LoadFault, ReadFault};

/// Returns the word for the kind of the error `fault`.
pub fn word_of_fault_kind(fault: &LoadFault) -> &'static str {
    match fault {
        LoadFault::TooManyFiles => "TooManyFiles",
        LoadFault::SameName { .. } => "SameName",
        LoadFault::InFile { .. } => "InFile",
        LoadFault::NoMemory => "NoMemory",
    }
}

/// Returns the word for the cause of the error `fault`.
pub fn word_of_fault_cause(fault: &LoadFault) -> &'static str {
    match fault {
        LoadFault::InFile { fault, .. } => word_of_read_fault(fault),
        fault => word_of_fault_kind(fault),
    }
}

/// Returns the word for the error `fault` of a file.
fn word_of_read_fault(fault: &ReadFault) -> &'static str {
    match fault {
        ReadFault::Text(fault) => word_of_text_fault(*fault),
        ReadFault::Syntax { why, .. } => word_of_syntax_cause(*why),
        ReadFault::Reserved { .. } => "Reserved",
        ReadFault::Duplicate { .. } => "Duplicate",
        ReadFault::TooMany { .. } => "TooMany",
        ReadFault::NotLoaded { .. } => "NotLoaded",
        ReadFault::Twice { .. } => "Twice",
        ReadFault::TooDeep { .. } => "TooDeep",
        ReadFault::NoMemory => "NoMemory",
    }
}

/// Returns the word for the error `fault` of a text.
fn word_of_text_fault(fault: TextFault) -> &'static str {
    match fault {
        TextFault::TooLarge => "TooLarge",
        TextFault::LineTooLong { .. } => "LineTooLong",
        TextFault::Nul { .. } => "Nul",
        TextFault::OpenContinuation => "OpenContinuation",
        TextFault::NoMemory => "NoMemory",
    }
}

/// Returns the word for the cause `why` of a line that does not parse, as the printed error has it.
fn word_of_syntax_cause(why: Why) -> &'static str {
    match why {
        Why::UnexpectedByte => "UnexpectedByte",
        Why::UnexpectedToken => "UnexpectedToken",
        Why::EndOfLine => "EndOfLine",
        Why::OpenQuote => "OpenQuote",
        Why::EmptyName => "EmptyName",
        Why::BadId => "BadId",
        Why::BadAddress => "BadAddress",
        Why::BadStamp => "BadStamp",
        Why::Regex => "Regex",
    }
}
