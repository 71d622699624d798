//! What bytes say that are one line.

ghost use Rattle.std.specs.Prelude.{◌≡◌, IfOk};
ghost use Rattle.sudoers_tree.specs.Single.{reading_of_single_line, IsReadingOfSingleLine};

use std::alloc::{AllocError, Global};
use sudoers_grammar::LineFault;
use sudoers_line_reader::{ParsedLine, parse};
use sudoers_text::is_logical_line;

/// Returns what the bytes `text` say, if they are one logical line that parses. Their length does not matter.
///
/// # Errors
///
/// Want of memory alone.
pub fn read_line(alloc: Global, text: &[u8]) -> Result<Option<ParsedLine>, AllocError>
    // The result is what the line says. If it is nothing, the bytes are not one line that parses.
    ensures line { IfOk result (IsReadingOfSingleLine text.now) }
    // The result is what `reading_of_single_line` computes.
    ensures said { IfOk result (λ says. says ≡ reading_of_single_line text.now) }
{
    if !is_logical_line(text) {
        return Ok(None);
    }
    match parse(alloc, text) {
        Ok(reading) => Ok(Some(reading)),
        Err(LineFault::Syntax { .. }) => Ok(None),
        Err(LineFault::NoMemory) => Err(AllocError),
    }
}
