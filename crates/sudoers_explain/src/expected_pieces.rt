//! What may stand at a place of a line.

ghost use Rattle.std.specs.Prelude.{◌≡◌, ◌≤◌, ◌+◌, ◌++◌, length, take, IfOk, IfErr, List};
ghost use Rattle.std.specs.List.{filter};
ghost use Rattle.sudoers_explain.specs.ExpectedPieces.{blanks_before_piece, sample_of_piece, may_piece_stand};

use std::alloc::{AllocError, Global};
use sudoers_grammar::LineFault;
use sudoers_line_reader::parse;

/// A kind of piece of a line, as people know it.
#[derive(Clone, Copy, Debug, PartialEq, Eq)]
pub enum ExpectedPiece {
    /// A user, or another name.
    Name,
    /// `#` and a number.
    Number,
    /// `%` and a group.
    Group,
    /// The name of an alias.
    Alias,
    /// `ALL`.
    All,
    /// An address with its mask.
    Network,
    /// The absolute path of a command, or of a file.
    Path,
    /// `!`.
    Not,
    /// `=`.
    Equal,
    /// `,`.
    Comma,
    /// `:`.
    Colon,
    /// `(`.
    Open,
    /// `)`.
    Close,
    /// A tag with its colon.
    Tag,
    /// The users of a Defaults line, right behind its word.
    Scope,
    /// An option with its value.
    Setting,
    /// A digest with its colon.
    Digest,
    /// A word among arguments.
    Argument,
    /// `+=` or `-=`.
    Adding,
    /// A text in quotes.
    Quoted,
    /// A time stamp.
    Stamp,
    /// The end of the line.
    End,
    /// A comment.
    Comment,
}

/// All kinds of pieces, in the order in which they are printed.
pub const EXPECTED_PIECES: [ExpectedPiece; 23] = [
    ExpectedPiece::Name,
    ExpectedPiece::Number,
    ExpectedPiece::Group,
    ExpectedPiece::Alias,
    ExpectedPiece::All,
    ExpectedPiece::Network,
    ExpectedPiece::Path,
    ExpectedPiece::Not,
    ExpectedPiece::Equal,
    ExpectedPiece::Comma,
    ExpectedPiece::Colon,
    ExpectedPiece::Open,
    ExpectedPiece::Close,
    ExpectedPiece::Tag,
    ExpectedPiece::Scope,
    ExpectedPiece::Setting,
    ExpectedPiece::Digest,
    ExpectedPiece::Argument,
    ExpectedPiece::Adding,
    ExpectedPiece::Quoted,
    ExpectedPiece::Stamp,
    ExpectedPiece::End,
    ExpectedPiece::Comment,
];

/// Returns a text of the kind `piece`, with a blank before it where one is needed.
fn sample_of_piece(piece: ExpectedPiece) -> &'static [u8]
    ensures { result.now ≡ sample_of_piece piece }
{
    match piece {
        ExpectedPiece::Name => b" h",
        ExpectedPiece::Number => b" #1",
        ExpectedPiece::Group => b" %h",
        ExpectedPiece::Alias => b" H",
        ExpectedPiece::All => b" ALL",
        ExpectedPiece::Network => b" 10.0.0.0/8",
        ExpectedPiece::Path => b" /h",
        ExpectedPiece::Not => b" !",
        ExpectedPiece::Equal => b" =",
        ExpectedPiece::Comma => b" ,",
        ExpectedPiece::Colon => b" :",
        ExpectedPiece::Open => b" (",
        ExpectedPiece::Close => b" )",
        ExpectedPiece::Tag => b" NOPASSWD:",
        ExpectedPiece::Scope => b":h",
        ExpectedPiece::Setting => b" CWD=\"\"",
        ExpectedPiece::Digest => b" sha224:",
        ExpectedPiece::Argument => b" -h",
        ExpectedPiece::Adding => b" +=",
        ExpectedPiece::Quoted => b" \"h h\"",
        ExpectedPiece::Stamp => b" 20300101000000Z",
        ExpectedPiece::End => b"",
        ExpectedPiece::Comment => b" # h",
    }
}

/// Returns how many blanks stand before the piece in the text of the kind `piece`.
fn count_blanks_before_piece(piece: ExpectedPiece) -> usize
    ensures value { result ≡ blanks_before_piece piece }
    ensures small { result ≤ 1 }
{
    match piece {
        ExpectedPiece::Scope | ExpectedPiece::End => 0,
        _ => 1,
    }
}

/// Returns whether a line that begins with `before` can go on with a piece of the kind `piece`.
fn may_piece_stand(alloc: Global, before: &[u8], piece: ExpectedPiece) -> Result<bool, AllocError>
    ensures { IfOk result (λ may. may ≡ may_piece_stand before.now piece) }
{
    let mut line = Vec::with_capacity(alloc, before.len())?;
    line.extend_from_slice(before)?;
    line.extend_from_slice(sample_of_piece(piece))?;
    let start = before.len() + count_blanks_before_piece(piece);
    let stop = line.len();
    match parse(alloc, line.as_slice()) {
        Ok(_) => Ok(true),
        Err(LineFault::Syntax { at, .. }) => Ok(start < at && at == stop),
        Err(LineFault::NoMemory) => Err(AllocError),
    }
}

/// Returns those of the kinds `pieces` that can stand behind `before`.
fn keep_pieces_that_may_stand(
    alloc: Global,
    before: &[u8],
    pieces: &[ExpectedPiece],
) -> Result<Vec<ExpectedPiece>, AllocError>
    ensures { IfOk result (λ possible. possible.items ≡ filter (may_piece_stand before.now) pieces.now) }
{
    let mut possible = Vec::new(alloc);
    for piece in pieces {
        if may_piece_stand(alloc, before, *piece)? {
            possible.push(*piece)?;
        }
    }
    Ok(possible)
}

/// Returns the kinds of [`EXPECTED_PIECES`] that can stand at the byte `at` of `line`, in their order. A piece of such a kind, put behind
/// the bytes before `at`, leaves no error, or only the error that the line ends too early behind it.
///
/// # Errors
///
/// Memory ran out.
pub fn list_pieces_that_may_stand(
    alloc: Global,
    line: &[u8],
    at: usize,
) -> Result<Vec<ExpectedPiece>, AllocError>
    requires { at ≤ length line.now }
    ensures { IfOk result (λ possible. possible.items ≡ filter (may_piece_stand (take at line.now)) EXPECTED_PIECES) }
{
    keep_pieces_that_may_stand(alloc, &line[..at], &EXPECTED_PIECES)
}
