//! The words for the kinds of aliases.

ghost use Rattle.std.specs.Prelude.{◌≡◌};
ghost use Rattle.sudoers_grammar.specs.Kind.{alias_line_keyword};

use crate::node::Kind;

/// Returns the word with which definitions of `kind` begin (sudoers(5), Aliases).
pub fn alias_keyword_of_kind(kind: Kind) -> &'static [u8]
    ensures { result.now ≡ alias_line_keyword kind }
{
    match kind {
        Kind::User => b"User_Alias",
        Kind::Runas => b"Runas_Alias",
        Kind::Host => b"Host_Alias",
        Kind::Cmnd => b"Cmnd_Alias",
    }
}
