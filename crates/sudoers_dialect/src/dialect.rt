//! The texts of a policy in a dialect.

ghost use Rattle.std.specs.Prelude.{◌≡◌, ◌≤◌, ◌+◌, ◌++◌, length, map, IfOk, OnOk};
ghost use Rattle.sudoers_text.specs.Adapted.{adapted_line};
ghost use Rattle.sudoers_text.specs.Fault.{text_limit};
ghost use Rattle.sudoers_text.specs.Line.{join};
ghost use Rattle.sudoers_dialect.specs.Files.{front_in_dialect};
ghost use Rattle.sudoers_dialect.specs.Text.{adapted_text};

use std::alloc::{AllocError, Global};
use sudoers_text::{Lines, TEXT_LIMIT, TextFault, adapt_line, cut};
use sudoers_tree::Items;

/// How the texts of a policy are read.
#[derive(Clone, Copy, Debug, PartialEq, Eq)]
pub enum Dialect {
    /// As this toolkit reads them.
    Profile,
    /// As sudo reads an `=` among arguments, and `(:)`; and else as this toolkit does.
    Sudo,
}

/// Returns the text that says what `text` says in the dialect of sudo: each of its lines adapted. A text that cannot be cut into lines stays
/// as it is.
///
/// # Errors
///
/// Memory ran out.
#[tactic(auto, unfolding(crate::specs::Text::adapted_text))]
pub fn adapt_text(alloc: Global, text: &[u8]) -> Result<Vec<u8>, AllocError>
    ensures { IfOk result (λ adapted. adapted.items ≡ adapted_text text.now) }
{
    match cut(alloc, text) {
        Ok(lines) => join_adapted_lines(alloc, &lines),
        Err(TextFault::NoMemory) => Err(AllocError),
        Err(_) => Vec::from_slice(alloc, text),
    }
}

/// Returns the lines `lines`, each adapted, one behind another.
fn join_adapted_lines(alloc: Global, lines: &Lines<'_>) -> Result<Vec<u8>, AllocError>
    ensures { IfOk result (λ adapted. adapted.items ≡ join (map adapted_line lines.now)) }
{
    let mut adapted = Vec::new(alloc);
    for number in 0..lines.len() {
        let Some(line) = lines.get(number) else {
            return Ok(adapted);
        };
        append_adapted_line(alloc, line, &mut adapted)?;
    }
    Ok(adapted)
}

/// Appends `line`, adapted, to `out`.
fn append_adapted_line(alloc: Global, line: &[u8], out: &mut Vec<u8>) -> Result<(), AllocError>
    ensures { OnOk result (out.new.items ≡ out.old.items ++ adapted_line line.now) }
{
    let adapted = adapt_line(alloc, line)?;
    out.extend_from_slice(adapted.as_slice())
}

impl Dialect {
    /// Returns the bytes that say what the text that begins with `front` says in the dialect, up to the first past the limit of a text.
    /// `front` is the text up to there.
    ///
    /// # Errors
    ///
    /// Memory ran out.
    pub fn adapt_front(self, alloc: Global, front: Items<u8>) -> Result<Items<u8>, AllocError>
        requires { length front ≤ text_limit + 1 }
        ensures { IfOk result (λ adapted. adapted ≡ front_in_dialect self front) }
    {
        match self {
            Dialect::Profile => Ok(front),
            Dialect::Sudo => {
                let mut adapted = adapt_text(alloc, front.as_slice())?;
                adapted.truncate(TEXT_LIMIT + 1);
                Ok(Items::from_vec(adapted))
            }
        }
    }
}
