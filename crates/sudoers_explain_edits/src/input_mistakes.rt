//! What is wrong with an input of `edit`: a script, and behind it a mark and a policy, or a bundle.

use crate::edit_hints::{EditHint, append_advice, append_advice_with_number};
use std::alloc::{AllocError, Global};
use sudoers_bundle::read_bundle;
use sudoers_explain::PlaceInFile;
use sudoers_tree::{Items, NamedFile};

/// The name of the standard input where its lines are shown.
const INPUT_NAME: &[u8] = b"-";

/// The line between the script and the policy, without LF.
const MARK: &[u8] = b"%%";

/// What the first line of a bundle begins with.
const HEADER: &[u8] = b"%% ";

/// How many digits the length of a file of a bundle has at most.
const MOST_DIGITS: usize = 7;

/// An input of `edit`: the script, and the policy of one file or the bundle.
#[derive(Clone, Copy)]
pub struct EditInput<'a> {
    pub script: &'a [u8],
    pub policy: &'a [u8],
    pub is_bundle: bool,
}

/// Returns the parts of the input `input`; nothing if it has no mark and no bundle.
pub fn split_edit_input(input: &[u8]) -> Option<EditInput<'_>> {
    let mut start: usize = 0;
    for line in input.split(|byte| *byte == b'\n') {
        let stop = start.saturating_add(line.len());
        let is_bundle = line.starts_with(HEADER);
        if stop < input.len() && (is_bundle || line == MARK) {
            let (script, from_mark) = input.split_at(start.min(input.len()));
            let (_, behind) = input.split_at(stop.saturating_add(1).min(input.len()));
            return Some(EditInput {
                script,
                policy: if is_bundle { from_mark } else { behind },
                is_bundle,
            });
        }
        start = stop.saturating_add(1);
    }
    None
}

impl EditInput<'_> {
    /// Returns the files of the policy, of which one that is given alone is named `policy`; none if the bundle is at fault.
    ///
    /// # Errors
    ///
    /// Memory ran out.
    pub fn read_files(&self, alloc: Global) -> Result<Vec<NamedFile>, AllocError> {
        if self.is_bundle {
            return match read_bundle(alloc, self.policy) {
                Ok(files) => Ok(files),
                Err(_) => Ok(Vec::new(alloc)),
            };
        }
        let mut files = Vec::new(alloc);
        files.push(NamedFile {
            name: Items::from_slice(alloc, b"policy")?,
            bytes: Items::from_slice(alloc, self.policy)?,
        })?;
        Ok(files)
    }
}

/// Returns the input `input` as a file whose lines are shown.
fn make_input_file(alloc: Global, input: &[u8]) -> Result<NamedFile, AllocError> {
    Ok(NamedFile {
        name: Items::from_slice(alloc, INPUT_NAME)?,
        bytes: Items::from_slice(alloc, input)?,
    })
}

/// Returns the lines that explain why the input `input` has no mark: a line that is almost one, and what to do.
///
/// # Errors
///
/// Memory ran out.
pub fn explain_missing_mark(alloc: Global, input: &[u8]) -> Result<Vec<u8>, AllocError> {
    let mut out = Vec::new(alloc);
    if input.is_empty() {
        append_advice(&mut out, EditHint::EmptyInput)?;
        return Ok(out);
    }
    let Some((at, hint)) = find_mark_mistake(input) else {
        append_advice(&mut out, EditHint::Mark)?;
        return Ok(out);
    };
    let file = make_input_file(alloc, input)?;
    PlaceInFile { file: &file, at }.append_excerpt(alloc, &mut out, b"")?;
    append_advice(&mut out, hint)?;
    Ok(out)
}

/// Returns the first place of `input` that is almost a mark, and the hint for it.
fn find_mark_mistake(input: &[u8]) -> Option<(usize, EditHint)> {
    let mut start: usize = 0;
    for line in input.split(|byte| *byte == b'\n') {
        let stop = start.saturating_add(line.len());
        if line == MARK || line.starts_with(HEADER) {
            return Some((stop, EditHint::MarkLineEnd));
        }
        if line == b"%%\r".as_slice() {
            return Some((
                start.saturating_add(MARK.len()),
                EditHint::MarkCarriageReturn,
            ));
        }
        if line.ends_with(MARK) {
            return Some((stop.saturating_sub(MARK.len()), EditHint::MarkOwnLine));
        }
        start = stop.saturating_add(1);
    }
    None
}

/// Returns the lines that explain why the bundle of the input `input` is at fault: the place where a header is wrong, and what to do.
///
/// # Errors
///
/// Memory ran out.
pub fn explain_bad_bundle(alloc: Global, input: &[u8]) -> Result<Vec<u8>, AllocError> {
    let mut out = Vec::new(alloc);
    let Some(parts) = split_edit_input(input) else {
        return Ok(out);
    };
    let mut rest = parts.policy;
    for _ in 0..parts.policy.len() {
        match skip_bundled_file(rest) {
            Some(behind) if !behind.is_empty() => rest = behind,
            _ => break,
        }
    }
    let file = make_input_file(alloc, input)?;
    let at = input.len().saturating_sub(rest.len());
    append_header_mistake(alloc, &mut out, PlaceInFile { file: &file, at }, rest)?;
    Ok(out)
}

/// The header of a file of a bundle: its words, and the bytes behind its line.
#[derive(Clone, Copy)]
struct Header<'a> {
    length: &'a [u8],
    name: &'a [u8],
    behind: &'a [u8],
}

/// Returns the header with which `text` begins; nothing if no line with the mark and two words stands there.
fn read_header(text: &[u8]) -> Option<Header<'_>> {
    let line = text.split(|byte| *byte == b'\n').next()?;
    let (_, behind) = text.split_at_checked(line.len().saturating_add(1))?;
    let words = line.strip_prefix(HEADER)?;
    let length = words.split(|byte| *byte == b' ').next()?;
    let (_, name) = words.split_at_checked(length.len().saturating_add(1))?;
    if name.is_empty() {
        return None;
    }
    Some(Header {
        length,
        name,
        behind,
    })
}

/// Returns the number that the word `length` of a header is.
fn read_length(length: &[u8]) -> Option<usize> {
    if length.is_empty()
        || length.len() > MOST_DIGITS
        || (length.len() > 1 && length.starts_with(b"0"))
    {
        return None;
    }
    let mut number: usize = 0;
    for byte in length {
        if !byte.is_ascii_digit() {
            return None;
        }
        let digit = byte.saturating_sub(b'0') as usize;
        number = number.saturating_mul(10).saturating_add(digit);
    }
    Some(number)
}

/// Returns what comes after the first file of the bundle `text`; nothing if its header is wrong or its bytes are too few.
fn skip_bundled_file(text: &[u8]) -> Option<&[u8]> {
    let header = read_header(text)?;
    let (_, rest) = header.behind.split_at_checked(read_length(header.length)?)?;
    Some(rest)
}

/// Appends the lines for the wrong header at `place`, with which `text` begins.
fn append_header_mistake(
    alloc: Global,
    out: &mut Vec<u8>,
    place: PlaceInFile<'_>,
    text: &[u8],
) -> Result<(), AllocError> {
    let PlaceInFile { file, at } = place;
    if let Some(header) = read_header(text)
        && read_length(header.length).is_some()
    {
        let at = at.saturating_add(HEADER.len());
        PlaceInFile { file, at }.append_excerpt(alloc, out, b"")?;
        return append_advice_with_number(alloc, out, EditHint::HeaderLength, header.behind.len());
    }
    if text.starts_with(b"%% \n") {
        let at = at.saturating_add(MARK.len());
        PlaceInFile { file, at }.append_excerpt(alloc, out, b"")?;
        return append_advice(out, EditHint::MarkBlank);
    }
    place.append_excerpt(alloc, out, b"")?;
    append_advice(out, EditHint::Header)
}
