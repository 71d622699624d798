//! Numbers and names as they are told.

use std::alloc::{AllocError, Global};
use sudoers_explain::make_shown_row;
use sudoers_text::append_decimal_number;

/// How many names of a list are told.
const MOST_TOLD: usize = 4;

/// How many bytes of a name are told.
const LONGEST_TOLD: usize = 60;

/// Appends `count` and the word `word` for such things: `1 line`, `2 lines`.
///
/// # Errors
///
/// Memory ran out.
pub fn append_count(
    alloc: Global,
    out: &mut Vec<u8>,
    count: usize,
    word: &[u8],
) -> Result<(), AllocError> {
    append_decimal_number(alloc, out, count)?;
    out.push(b' ')?;
    out.extend_from_slice(word)?;
    if count != 1 {
        out.push(b's')?;
    }
    Ok(())
}

/// Appends the name `name`, of which control bytes are spelled and a long one is cut off.
///
/// # Errors
///
/// Memory ran out.
pub fn append_name(alloc: Global, out: &mut Vec<u8>, name: &[u8]) -> Result<(), AllocError> {
    let (front, rest) = name.split_at(LONGEST_TOLD.min(name.len()));
    out.extend_from_slice(make_shown_row(alloc, front)?.as_slice())?;
    if !rest.is_empty() {
        out.extend_from_slice(b"..")?;
    }
    Ok(())
}

/// Appends the first of the names `names`, and how many more there are.
///
/// # Errors
///
/// Memory ran out.
pub fn append_names(alloc: Global, out: &mut Vec<u8>, names: &[&[u8]]) -> Result<(), AllocError> {
    let mut between: &[u8] = b"";
    for name in names.iter().take(MOST_TOLD) {
        out.extend_from_slice(between)?;
        append_name(alloc, out, name)?;
        between = b", ";
    }
    let more = names.len().saturating_sub(MOST_TOLD);
    if more > 0 {
        out.extend_from_slice(b" and ")?;
        append_decimal_number(alloc, out, more)?;
        out.extend_from_slice(b" more")?;
    }
    Ok(())
}
