//! Laws of printed lines. Each is the contract of a function that does nothing.

ghost use Rattle.std.specs.Prelude.{◌≡◌, ◌≢◌, ℕ, Bool, false, List, [], map};
ghost use Rattle.std.specs.List.{AllByRecursion, filter};
ghost use Rattle.sudoers_text.specs.Line.{IsLogicalLineBefore, AreLinesOfText};
ghost use Rattle.sudoers_text.specs.Whole.{IsLogicalLine};
ghost use Rattle.sudoers_grammar.specs.declared.node.Kind.{Kind as KindOf};
ghost use Rattle.sudoers_grammar.specs.Node.{Member as MemberOf, Node as NodeOf};
ghost use Rattle.sudoers_grammar.specs.Line.{LineReadsAsNode};
ghost use Rattle.sudoers_grammar.specs.Piece.{has_byte};
ghost use Rattle.sudoers_cvt_spell.specs.Lines.{printed_line, printed_lines};
ghost use Rattle.laws_print.specs.Writable.{IsWritableMemberOfKind, IsNonEmptyListOf, IsWritableNode};
ghost use Rattle.laws_print.specs.Readable.{IsReadableNode};
ghost use Rattle.laws_print.specs.Same.{LineReadsBackAs};

use sudoers_grammar::laws::words_agree;
use sudoers_text::laws::{inner_line_ends, tokens_are};

/// What is printed is read as what was printed: a Defaults line, a line of one definition of an alias, a user specification.
pub fn printed_line_is_read()
    ensures { (says : NodeOf) → IsWritableNode says → LineReadsBackAs (printed_line says) says }
{
    tokens_are();
}

/// A printed line is one logical line, whatever follows it, and nothing is wrong with it, limits aside.
pub fn printed_line_is_line()
    ensures within { (says : NodeOf) (rest : List ℕ) → IsWritableNode says → IsLogicalLineBefore (printed_line says) rest }
    ensures alone { (says : NodeOf) → IsWritableNode says → IsLogicalLine (printed_line says) }
{
    inner_line_ends();
}

/// Printed lines, one behind another, are cut into exactly these lines.
pub fn printed_lines_are_cut()
    ensures { (nodes : List NodeOf) → AllByRecursion IsWritableNode nodes → AreLinesOfText (printed_lines nodes) (map printed_line nodes) }
{}

/// What a line without NUL is read as can be written: a Defaults line, each definition of an alias line, a user specification.
pub fn read_can_be_written()
    ensures { (line : List ℕ) (says : NodeOf) → has_byte 0 line ≡ false → LineReadsAsNode line says → IsReadableNode says }
{
    words_agree();
}

/// What can be written stays so. A member may get the other sign; a list may lose members.
pub fn writable_is_kept()
    ensures sign { (kind : KindOf) (member : MemberOf) (negated : Bool) → IsWritableMemberOfKind kind member
        → IsWritableMemberOfKind kind (record member { negated = negated }) }
    ensures fewer { (kind : KindOf) (members : List MemberOf) (test : MemberOf → Bool) → IsNonEmptyListOf (IsWritableMemberOfKind kind) members
        → filter test members ≢ [] → IsNonEmptyListOf (IsWritableMemberOfKind kind) (filter test members) }
{}
