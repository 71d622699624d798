//! The lines that explain why files are no policy.

use crate::all_faults::list_load_faults;
use crate::excerpts::{PlaceInFile, append_help};
use crate::expected_pieces::{ExpectedPiece, list_pieces_that_may_stand};
use crate::expected_words::make_expected_words;
use crate::hints::{Hint, spelling_of_hint, words_of_hint};
use crate::mistake::Mistake;
use crate::named_places::{find_definitions, find_first_include};
use crate::repeated_alias::{KnownFaults, RepeatedAlias};
use std::alloc::{AllocError, Global};
use sudoers_grammar::{Why, alias_keyword_of_kind};
use sudoers_text::{Lines, TextFault, cut};
use sudoers_tree::{LoadFault, NamedFile, ReadFault};

/// Returns the lines that explain `fault`, with which loading the files `files` ended: where it is, what may stand there, and what to do.
/// Returns no bytes if there is nothing to add to the error.
///
/// # Errors
///
/// Memory ran out.
pub fn explain_load_fault(
    alloc: Global,
    files: &[NamedFile],
    fault: &LoadFault,
) -> Result<Vec<u8>, AllocError> {
    let mut out = Vec::new(alloc);
    let faults = match fault {
        LoadFault::InFile { fault, .. } if matches!(fault, ReadFault::Duplicate { .. }) => {
            list_load_faults(alloc, files)?
        }
        _ => Vec::new(alloc),
    };
    let known = KnownFaults {
        files,
        faults: faults.as_slice(),
        earlier: &[],
    };
    append_explanation(alloc, &mut out, known, fault)?;
    Ok(out)
}

/// Returns the lines that explain the first `most` of the faults `faults`, which [`list_load_faults`] found in the files `files`, in their
/// order.
///
/// # Errors
///
/// Memory ran out.
pub fn explain_load_faults(
    alloc: Global,
    files: &[NamedFile],
    faults: &[LoadFault],
    most: usize,
) -> Result<Vec<u8>, AllocError> {
    let mut out = Vec::new(alloc);
    for (number, fault) in faults.iter().take(most).enumerate() {
        let (earlier, _) = faults.split_at(number.min(faults.len()));
        let known = KnownFaults {
            files,
            faults,
            earlier,
        };
        append_explanation(alloc, &mut out, known, fault)?;
    }
    Ok(out)
}

/// Appends the lines that explain `fault` of the files of `known`.
fn append_explanation(
    alloc: Global,
    out: &mut Vec<u8>,
    known: KnownFaults<'_>,
    fault: &LoadFault,
) -> Result<(), AllocError> {
    match fault {
        LoadFault::InFile { file, fault } => match known
            .files
            .iter()
            .find(|found| found.name.as_slice() == file.as_slice())
        {
            Some(found) => append_explanation_in_file(alloc, out, known, found, fault),
            None => Ok(()),
        },
        LoadFault::SameName { .. } => append_help(
            out,
            &[b"give each file of the policy a name of its own"],
        ),
        LoadFault::TooManyFiles => append_help(out, &[b"a policy has at most 256 files"]),
        LoadFault::NoMemory => Ok(()),
    }
}

/// Appends the lines that explain the fault `fault` of `file`, one of the files of `known`.
fn append_explanation_in_file(
    alloc: Global,
    out: &mut Vec<u8>,
    known: KnownFaults<'_>,
    file: &NamedFile,
    fault: &ReadFault,
) -> Result<(), AllocError> {
    match fault {
        ReadFault::Text(fault) => append_text_explanation(alloc, out, file, fault),
        ReadFault::Syntax { line, col, why } => append_syntax_explanation(
            alloc,
            out,
            PlaceInFile::from_row_and_column(file, *line, *col),
            *why,
        ),
        ReadFault::Reserved { kind, name } => {
            for place in find_definitions(alloc, file, *kind, name.as_slice())?
                .iter()
                .take(2)
            {
                place.append_excerpt(alloc, out, b"a reserved word")?;
            }
            append_help(out, &[b"choose another name for the alias"])
        }
        ReadFault::Duplicate { kind, name } => {
            let alias = RepeatedAlias {
                kind: *kind,
                name: name.as_slice(),
            };
            alias.append_definitions(alloc, out, known, file)?;
            append_help(out, &[b"define each alias of a kind once"])
        }
        ReadFault::TooMany { kind } => append_help(
            out,
            &[
                b"a policy has at most 4096 definitions of each kind, as ",
                alias_keyword_of_kind(*kind),
            ],
        ),
        ReadFault::NotLoaded { line, .. } => {
            place_of_path(file, *line).append_excerpt(alloc, out, b"no such file")?;
            append_help(out, &[b"put the file there, or remove the line"])
        }
        ReadFault::Twice { line, name } => {
            append_first_include(alloc, out, known.files, file, *line, name.as_slice())
        }
        ReadFault::TooDeep { line } => {
            place_of_path(file, *line).append_excerpt(alloc, out, b"the 129th level")?;
            append_help(out, &[b"files include one another at most 128 levels deep"])
        }
        ReadFault::NoMemory => Ok(()),
    }
}

/// Appends the lines that explain a fault of the text of `file`.
fn append_text_explanation(
    alloc: Global,
    out: &mut Vec<u8>,
    file: &NamedFile,
    fault: &TextFault,
) -> Result<(), AllocError> {
    match fault {
        TextFault::TooLarge => append_help(out, &[b"a file has at most 1048576 bytes"]),
        TextFault::LineTooLong { .. } => append_help(
            out,
            &[b"a line has at most 65536 bytes, with the lines that continue it"],
        ),
        TextFault::Nul { at } => {
            PlaceInFile { file, at: *at }.append_excerpt(alloc, out, b"a NUL byte")?;
            append_help(out, &[b"remove the byte: a policy is text"])
        }
        TextFault::OpenContinuation => {
            place_of_last_backslash(file).append_excerpt(alloc, out, b"nothing follows")?;
            append_help(
                out,
                &[b"remove the backslash, or write the line that goes on"],
            )
        }
        TextFault::NoMemory => Ok(()),
    }
}

/// Returns the place of the last backslash of `file`.
fn place_of_last_backslash(file: &NamedFile) -> PlaceInFile<'_> {
    let mut last = 0;
    for (at, byte) in file.bytes.as_slice().iter().enumerate() {
        if *byte == b'\\' {
            last = at;
        }
    }
    PlaceInFile { file, at: last }
}

/// Returns the place of the path of the include line that begins on the row `row`, from 1, of `file`.
fn place_of_path(file: &NamedFile, row: usize) -> PlaceInFile<'_> {
    let start = PlaceInFile::from_row_and_column(file, row, 1);
    let (_, text) = file
        .bytes
        .as_slice()
        .split_at(start.at.min(file.bytes.len()));
    let mut is_in_word = false;
    let mut words: usize = 0;
    for (at, byte) in text.iter().enumerate() {
        let is_blank = *byte == b' ' || *byte == b'\t';
        if !is_blank && !is_in_word {
            words = words.saturating_add(1);
            if words == 2 {
                return PlaceInFile {
                    file,
                    at: start.at.saturating_add(at),
                };
            }
        }
        is_in_word = !is_blank;
        if *byte == b'\n' {
            break;
        }
    }
    start
}

/// Appends the lines for a file `name` that the line of the row `row` of `file` includes, although a line of the files `files` did before.
fn append_first_include(
    alloc: Global,
    out: &mut Vec<u8>,
    files: &[NamedFile],
    file: &NamedFile,
    row: usize,
    name: &[u8],
) -> Result<(), AllocError> {
    place_of_path(file, row).append_excerpt(alloc, out, b"included again")?;
    let again = PlaceInFile::from_row_and_column(file, row, 1);
    if let Some(first) = find_first_include(alloc, files, name, again)? {
        first.append_excerpt(alloc, out, b"included here")?;
    }
    append_help(out, &[b"include each file once"])
}

/// Returns the logical line of `lines` that holds the byte `at` of their text, and the number of the byte with which it begins.
fn find_logical_line<'a>(lines: &Lines<'a>, at: usize) -> Option<(usize, &'a [u8])> {
    let mut start: usize = 0;
    let mut last = None;
    for number in 0..lines.len() {
        let line = lines.get(number)?;
        last = Some((start, line));
        start = start.saturating_add(line.len());
        if at < start {
            break;
        }
    }
    last
}

/// Appends the lines that explain a line that does not parse, at `place` and for the cause `why`.
fn append_syntax_explanation(
    alloc: Global,
    out: &mut Vec<u8>,
    place: PlaceInFile<'_>,
    why: Why,
) -> Result<(), AllocError> {
    let lines = match cut(alloc, place.file.bytes.as_slice()) {
        Ok(lines) => lines,
        Err(TextFault::NoMemory) => return Err(AllocError),
        Err(_) => return Ok(()),
    };
    let Some((start, line)) = find_logical_line(&lines, place.at) else {
        return Ok(());
    };
    let at = place.at.saturating_sub(start);
    if at > line.len() {
        return Ok(());
    }
    let pieces = list_pieces_that_may_stand(alloc, line, at)?;
    let (before, behind) = line.split_at(at);
    let mistake = Mistake {
        before,
        behind,
        why,
        pieces: pieces.as_slice(),
    };
    let hint = mistake.find_hint(alloc)?;
    match hint {
        Some(hint) if let Some(offset) = mistake.offset_of_hint(hint) => PlaceInFile {
            file: place.file,
            at: start.saturating_add(offset),
        }
        .append_excerpt(alloc, out, b"")?,
        _ => place.append_excerpt(alloc, out, make_label(alloc, &mistake)?.as_slice())?,
    }
    append_hint(out, hint)
}

/// Returns what is printed behind the mark under the place of `mistake`: what may stand there, where the cause does not say more.
fn make_label(alloc: Global, mistake: &Mistake<'_>) -> Result<Vec<u8>, AllocError> {
    if mistake.is_include_line() && mistake.may_be(ExpectedPiece::Name) {
        return Vec::from_slice(alloc, b"expected a path");
    }
    match mistake.why {
        Why::UnexpectedToken | Why::EndOfLine | Why::BadStamp => make_expected_words(
            alloc,
            mistake.pieces,
        ),
        _ => Ok(Vec::new(alloc)),
    }
}

/// Appends the line with the advice of `hint`, if there is one.
fn append_hint(out: &mut Vec<u8>, hint: Option<Hint>) -> Result<(), AllocError> {
    let Some(hint) = hint else {
        return Ok(());
    };
    let words = words_of_hint(hint).as_bytes();
    match spelling_of_hint(hint) {
        Some(spelling) => append_help(out, &[words, b" `", spelling.as_bytes(), b"`"]),
        None => append_help(out, &[words]),
    }
}
