//! What is known of a line that does not parse: where its mistake ends, what may stand there, and what to do.

use crate::cut_files::FileLine;
use crate::error_hints::{Advice, ErrorHint};
use crate::place::{LineAndColumn, PlaceInPolicy};
use std::alloc::{AllocError, Global};
use sudoers_explain::{ExpectedPiece, Mistake, list_pieces_that_may_stand};
use sudoers_grammar::Why;
use sudoers_text::{TextFault, Token, choose_line_mode, tokens};

/// What is known of the first error of a line: its place, the pieces that may stand there, and what to do.
#[derive(Drop)]
pub struct SyntaxDetails<'a> {
    pub place: PlaceInPolicy<'a>,
    pub pieces: Vec<ExpectedPiece>,
    pub hint: Option<ErrorHint<'a>>,
}

/// Returns the tokens of the line `line`.
///
/// # Errors
///
/// Memory ran out.
pub fn tokens_of_line(alloc: Global, line: &[u8]) -> Result<Vec<Token>, AllocError> {
    match tokens(alloc, line, choose_line_mode(line)) {
        Ok(tokens) => Ok(tokens),
        Err(TextFault::NoMemory) => Err(AllocError),
        // There is no other error, and a line without tokens has no ends to tell.
        Err(_) => Ok(Vec::new(alloc)),
    }
}

/// Returns the number of the byte behind the token of the line `line` that holds its byte `at`; `at` if none does.
fn find_token_end(alloc: Global, line: &[u8], at: usize) -> Result<usize, AllocError> {
    let all = tokens_of_line(alloc, line)?;
    Ok(
        match all
            .iter()
            .find(|token| token.start <= at && at < token.stop)
        {
            Some(token) => token.stop,
            None => at,
        },
    )
}

/// Returns the advice for the mistake `mistake` at `place` of the line `line`, and where people look for it; nothing if there is none.
fn find_hint_with_place<'a>(
    alloc: Global,
    line: FileLine<'a>,
    mistake: &Mistake<'_>,
    place: PlaceInPolicy<'a>,
) -> Result<Option<ErrorHint<'a>>, AllocError> {
    let Some(hint) = mistake.find_hint(alloc)? else {
        return Ok(None);
    };
    let place = match mistake.offset_of_hint(hint) {
        Some(offset) => PlaceInPolicy {
            end: None,
            ..line.place_of(offset, offset)
        },
        None => place,
    };
    Ok(Some(ErrorHint {
        advice: Advice::OfHint(hint),
        place,
    }))
}

/// Returns what is known of the error of the line `line` that stands at `start` and has the cause `why`; nothing if that is not in the line.
///
/// # Errors
///
/// Memory ran out.
pub fn find_syntax_details<'a>(
    alloc: Global,
    line: FileLine<'a>,
    start: LineAndColumn,
    why: Why,
) -> Result<Option<SyntaxDetails<'a>>, AllocError> {
    let Some(at) = line.find_offset(start) else {
        return Ok(None);
    };
    if at > line.text.len() {
        return Ok(None);
    }
    let place = line.place_of(at, find_token_end(alloc, line.text, at)?);
    let pieces = list_pieces_that_may_stand(alloc, line.text, at)?;
    let (before, behind) = line.text.split_at(at);
    let mistake = Mistake {
        before,
        behind,
        why,
        pieces: pieces.as_slice(),
    };
    let hint = find_hint_with_place(alloc, line, &mistake, place)?;
    Ok(Some(SyntaxDetails {
        place,
        pieces,
        hint,
    }))
}
