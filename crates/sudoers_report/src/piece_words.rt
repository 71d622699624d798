//! The words for the pieces that may stand at a place.

use serde_json::Value;
use std::alloc::{AllocError, Global};
use sudoers_explain::ExpectedPiece;

/// Returns the word for the piece `piece`.
fn word_of_piece(piece: ExpectedPiece) -> &'static str {
    match piece {
        ExpectedPiece::Name => "name",
        ExpectedPiece::Number => "number",
        ExpectedPiece::Group => "group",
        ExpectedPiece::Alias => "alias",
        ExpectedPiece::All => "all",
        ExpectedPiece::Network => "network",
        ExpectedPiece::Path => "path",
        ExpectedPiece::Not => "not",
        ExpectedPiece::Equal => "equal",
        ExpectedPiece::Comma => "comma",
        ExpectedPiece::Colon => "colon",
        ExpectedPiece::Open => "open",
        ExpectedPiece::Close => "close",
        ExpectedPiece::Tag => "tag",
        ExpectedPiece::Scope => "scope",
        ExpectedPiece::Setting => "setting",
        ExpectedPiece::Digest => "digest",
        ExpectedPiece::Argument => "argument",
        ExpectedPiece::Adding => "adding",
        ExpectedPiece::Quoted => "quoted",
        ExpectedPiece::Stamp => "stamp",
        ExpectedPiece::End => "end",
        ExpectedPiece::Comment => "comment",
    }
}

/// Returns the pieces `pieces` as a list of their words.
///
/// # Errors
///
/// Memory ran out.
pub fn make_piece_words(alloc: Global, pieces: &[ExpectedPiece]) -> Result<Value, AllocError> {
    let mut words = Vec::new(alloc);
    for piece in pieces {
        words.push(Value::try_from_str(alloc, word_of_piece(*piece))?)?;
    }
    Ok(Value::Array(words))
}
