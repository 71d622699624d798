//! The kinds of lists.

use sudoers_line_rows::BorrowedAtom;

/// A kind of list: what is asked of its members, and which of them match it.
///
/// A law holds of each implementation: `hits` is the stated test of the two values.
pub trait MemberKind {
    type Asked;

    ghost use Rattle.std.specs.Prelude.{Bool, ◌≡◌};
    ghost use Rattle.sudoers_grammar.specs.declared.node.Atom.{Atom as AtomOf};
    ghost use Rattle.sudoers_line_rows.specs.View.{atom_of_view};

    ghost test: { Self.Asked → AtomOf → Bool };

    /// Returns whether `atom` matches what is asked.
    fn hits(atom: &BorrowedAtom<'_>, asked: &Self::Asked) -> bool
        ensures { result ≡ test asked.now (atom_of_view atom.now) };
}
