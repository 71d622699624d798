//! Aliases as members of lists.

use crate::node::Kind;
use std::marker::Model;

/// An alias that is a member of a list of this kind, and where it ends in the line.
#[derive(Debug, Drop)]
pub struct AliasMember<'a> {
    pub kind: Kind,
    pub name: &'a [u8],
    pub stop: usize,
}

impl<'a> Model for AliasMember<'a> {
    ghost use Rattle.sudoers_grammar.specs.Listed.{AliasMember};

    ghost Value = { AliasMember };

    ghost view = { λ m. record { kind = m.kind; name = m.name.now; stop = m.stop } };
}
