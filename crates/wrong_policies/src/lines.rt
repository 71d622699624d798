//! What one line says.

ghost use Rattle.sudoers_line_reader.specs.Outcome.{IsLineOutcomeOrNoMemory, outcome_of_line};

use std::alloc::Global;
use sudoers_grammar::LineFault;
use sudoers_line_reader::{ParsedLine, parse};

/// Returns what `line` says.
///
/// # Errors
///
/// The first fault of the line, or memory ran out.
pub fn reading_of_line(alloc: Global, line: &[u8]) -> Result<ParsedLine, LineFault>
    ensures { IsLineOutcomeOrNoMemory result (outcome_of_line line.now) }
{
    parse(alloc, line)
}
