//! The words for what may stand at a place.

use crate::expected_pieces::ExpectedPiece;
use std::alloc::{AllocError, Global};

/// What the place is of, in words for each kind of it, and the pieces that are named beside these words.
#[derive(Clone, Copy)]
struct PlaceWords {
    words: &'static [&'static [u8]],
    beside: &'static [ExpectedPiece],
}

/// The pieces that are named beside an argument.
const BESIDE_ARGUMENT: [ExpectedPiece; 3] = [
    ExpectedPiece::Comma,
    ExpectedPiece::Colon,
    ExpectedPiece::End,
];

/// The pieces that are named beside a user.
const BESIDE_USER: [ExpectedPiece; 5] = [
    ExpectedPiece::Not,
    ExpectedPiece::Equal,
    ExpectedPiece::Comma,
    ExpectedPiece::Colon,
    ExpectedPiece::Close,
];

/// The pieces that are named beside a host.
const BESIDE_HOST: [ExpectedPiece; 4] = [
    ExpectedPiece::Not,
    ExpectedPiece::Equal,
    ExpectedPiece::Comma,
    ExpectedPiece::Colon,
];

/// The pieces that are named beside a parameter.
const BESIDE_PARAMETER: [ExpectedPiece; 3] = [
    ExpectedPiece::Not,
    ExpectedPiece::Comma,
    ExpectedPiece::Scope,
];

/// The pieces that are named beside a command.
const BESIDE_COMMAND: [ExpectedPiece; 4] = [
    ExpectedPiece::Comma,
    ExpectedPiece::Open,
    ExpectedPiece::Tag,
    ExpectedPiece::Setting,
];

/// The piece that is named beside a path.
const BESIDE_PATH: [ExpectedPiece; 1] = [ExpectedPiece::Comma];

/// Returns whether each of the pieces `wanted` is among `pieces`.
fn has_all(pieces: &[ExpectedPiece], wanted: &[ExpectedPiece]) -> bool {
    wanted.iter().all(|piece| pieces.contains(piece))
}

/// Returns what a place is of where the pieces `pieces` may stand; nothing if each piece is named by itself.
fn choose_place_words(pieces: &[ExpectedPiece]) -> Option<PlaceWords> {
    let has_name = pieces.contains(&ExpectedPiece::Name);
    let has_path = pieces.contains(&ExpectedPiece::Path);
    if has_name && has_all(pieces, &[ExpectedPiece::Equal, ExpectedPiece::Path]) {
        return Some(PlaceWords {
            words: &[b"a value"],
            beside: &[],
        });
    }
    if has_path && has_all(pieces, &[ExpectedPiece::Argument, ExpectedPiece::Open]) {
        return Some(PlaceWords {
            words: &[b"an argument"],
            beside: &BESIDE_ARGUMENT,
        });
    }
    if has_name {
        return Some(choose_words_of_named_place(pieces));
    }
    choose_words_of_command_place(pieces.contains(&ExpectedPiece::Alias), has_path)
}

/// Returns what a place is of where names and the pieces `pieces` may stand.
fn choose_words_of_named_place(pieces: &[ExpectedPiece]) -> PlaceWords {
    if pieces.contains(&ExpectedPiece::Number) {
        PlaceWords {
            words: &[b"a user", b"`%group`", b"an alias in capitals"],
            beside: &BESIDE_USER,
        }
    } else if pieces.contains(&ExpectedPiece::Group) {
        PlaceWords {
            words: &[b"a host", b"an alias in capitals"],
            beside: &BESIDE_HOST,
        }
    } else {
        PlaceWords {
            words: &[b"a parameter"],
            beside: &BESIDE_PARAMETER,
        }
    }
}

/// Returns what a place is of where no name may stand, but an alias if `has_alias`, and a path if `has_path`.
fn choose_words_of_command_place(has_alias: bool, has_path: bool) -> Option<PlaceWords> {
    match (has_alias, has_path) {
        (true, true) => Some(PlaceWords {
            words: &[b"a command (a path from `/`, `ALL` or an alias in capitals)"],
            beside: &BESIDE_COMMAND,
        }),
        (false, true) => Some(PlaceWords {
            words: &[b"a path from `/`", b"`ALL`"],
            beside: &BESIDE_PATH,
        }),
        (true, false) => Some(PlaceWords {
            words: &[b"a name in capitals"],
            beside: &[],
        }),
        (false, false) => None,
    }
}

/// Returns the words for the piece `piece` by itself; nothing if it is not named.
fn words_of_piece(piece: ExpectedPiece) -> Option<&'static [u8]> {
    match piece {
        ExpectedPiece::Not => Some(b"`!`"),
        ExpectedPiece::Equal => Some(b"`=`"),
        ExpectedPiece::Comma => Some(b"`,`"),
        ExpectedPiece::Colon => Some(b"`:`"),
        ExpectedPiece::Open => Some(b"`(`"),
        ExpectedPiece::Close => Some(b"`)`"),
        ExpectedPiece::Tag => Some(b"a tag as `NOPASSWD:`"),
        ExpectedPiece::Setting => Some(b"an option as `CWD=/dir`"),
        ExpectedPiece::Digest => Some(b"a digest"),
        ExpectedPiece::Adding => Some(b"`+=`"),
        ExpectedPiece::Quoted => Some(b"a text in quotes"),
        ExpectedPiece::Stamp => Some(b"a time as `20301231235900Z`"),
        ExpectedPiece::End => Some(b"the end of the line"),
        ExpectedPiece::Scope => Some(b"`:` directly after the word"),
        _ => None,
    }
}

/// Returns whether the piece `piece` is named by itself where the pieces `pieces` may stand and `place` says what the place is of.
fn is_named_by_itself(
    piece: ExpectedPiece,
    pieces: &[ExpectedPiece],
    place: Option<PlaceWords>,
) -> bool {
    if piece == ExpectedPiece::Scope && pieces.contains(&ExpectedPiece::Colon) {
        return false;
    }
    match place {
        Some(place) => place.beside.contains(&piece),
        None => true,
    }
}

/// Returns the words for what may stand at a place, of which the pieces are `pieces`.
fn list_words_of_pieces(
    alloc: Global,
    pieces: &[ExpectedPiece],
) -> Result<Vec<&'static [u8]>, AllocError> {
    let place = choose_place_words(pieces);
    let mut all = Vec::new(alloc);
    if let Some(place) = place {
        all.extend_from_slice(place.words)?;
    }
    for piece in pieces {
        if is_named_by_itself(*piece, pieces, place)
            && let Some(words) = words_of_piece(*piece)
        {
            all.push(words)?;
        }
    }
    Ok(all)
}

/// Returns `expected ` and the words for what may stand at a place, of which the pieces are `pieces`. Returns no bytes if nothing may.
///
/// # Errors
///
/// Memory ran out.
pub fn make_expected_words(alloc: Global, pieces: &[ExpectedPiece]) -> Result<Vec<u8>, AllocError> {
    let all = list_words_of_pieces(alloc, pieces)?;
    let mut out = Vec::new(alloc);
    for (number, words) in all.iter().enumerate() {
        out.extend_from_slice(if number == 0 {
            b"expected "
        } else if number + 1 == all.len() {
            b" or "
        } else {
            b", "
        })?;
        out.extend_from_slice(words)?;
    }
    Ok(out)
}
