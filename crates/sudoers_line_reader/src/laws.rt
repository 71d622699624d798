//! Laws of the descent. Each is the contract of a function that does nothing.

ghost use Rattle.std.specs.Prelude.{◌≡◌, ◌⊎◌, ℕ, List, [], ◌++◌};
ghost use Rattle.sudoers_grammar.specs.Line.{LineReadsAsNode, HasSyntaxFault};
ghost use Rattle.sudoers_line_reader.specs.Outcome.{outcome_of_line, IsOutcomeOfLine};
ghost use Rattle.sudoers_grammar.specs.Node.{Node as NodeOf};
ghost use Rattle.sudoers_grammar.specs.Piece.{TokenWithBytes as PieceOf};
ghost use Rattle.sudoers_grammar.specs.Grammar.{Reads};
ghost use Rattle.sudoers_grammar.specs.Fault.{IsFirstSyntaxFault};
ghost use Rattle.sudoers_line_reader.specs.Reader.{Read, Halt};
ghost use Rattle.sudoers_line_reader.specs.Descent.{whole_line_reader, cause_at_first_token};

use sudoers_text::laws::{one_token_list, tokens_are};

/// The descent reads exactly what the grammar has. It halts at the first fault, and `cause_at_first_token` is the cause of that fault.
pub fn descent_is()
    // The tokens say what is read, and none of them is left.
    ensures sound { (ts : List PieceOf) (node : NodeOf) (rest : List PieceOf) → whole_line_reader ts ≡ Read node rest → (rest ≡ []) × Reads ts node }
    // What the tokens say is read.
    ensures complete { (ts : List PieceOf) (node : NodeOf) → Reads ts node → whole_line_reader ts ≡ Read node [] }
    // A halt is the first fault, with its cause.
    ensures fault { (ts rest : List PieceOf) → whole_line_reader ts ≡ Halt rest
        → (before : List PieceOf) × (ts ≡ before ++ rest) × IsFirstSyntaxFault ts rest (cause_at_first_token before rest) }
{}

/// A line says one thing at most.
pub fn one_reading()
    ensures { (line : List ℕ) (node other : NodeOf) → LineReadsAsNode line node → LineReadsAsNode line other → node ≡ other }
{
    one_token_list();
}

/// A line says something, or it has a first fault.
pub fn some_outcome()
    ensures { (line : List ℕ) → ((node : NodeOf) × LineReadsAsNode line node) ⊎ HasSyntaxFault line }
{
    tokens_are();
}

/// What a line says, or its first fault, is what is computed.
pub fn outcome_is()
    ensures { (line : List ℕ) → IsOutcomeOfLine line (outcome_of_line line) }
{
    tokens_are();
}
