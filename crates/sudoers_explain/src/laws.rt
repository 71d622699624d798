//! Laws of pieces that may stand at a place. Each is the contract of a function that does nothing.

ghost use Rattle.std.specs.Prelude.{◌≡◌, ◌↔◌, ◌≤◌, ℕ, List, length, true};
ghost use Rattle.sudoers_grammar.specs.declared.fault.Why.{Why as WhyOf};
ghost use Rattle.sudoers_grammar.specs.Line.{IsLineSyntaxFault};
ghost use Rattle.sudoers_explain.specs.declared.expected_pieces.ExpectedPiece.{ExpectedPiece as ExpectedOf};
ghost use Rattle.sudoers_explain.specs.ExpectedPieces.{MayPieceStand, may_piece_stand};

use sudoers_grammar::laws::{no_fault, one_fault};
use sudoers_line_reader::laws::{one_reading, outcome_is};
use sudoers_text::laws::tokens_ascend;

/// A piece may stand where the line with it says something, or has its first fault behind the piece's first byte.
pub fn expected_piece_may_stand()
    ensures { (before : List ℕ) (piece : ExpectedOf) → may_piece_stand before piece ≡ true ↔ MayPieceStand before piece }
{
    outcome_is();
    no_fault();
    one_fault();
    one_reading();
}

/// The first fault of a line stands in it, or at its end.
pub fn fault_is_within_line()
    ensures { (line : List ℕ) (at : ℕ) (why : WhyOf) → IsLineSyntaxFault line at why → at ≤ length line }
{
    tokens_ascend();
}
