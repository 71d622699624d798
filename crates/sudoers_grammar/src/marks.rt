//! What marks and signs say.

ghost use Rattle.std.specs.Prelude.{◌≡◌};
ghost use Rattle.sudoers_grammar.specs.Piece.{operators_by_mark, scope_kinds_by_sign, value_of_matching_row};

use crate::node::{Kind, Operator};

/// Returns the operator that a mark is.
pub fn operator_of_mark(mark: &[u8]) -> Option<Operator>
    ensures { result ≡ value_of_matching_row operators_by_mark mark.now }
{
    if mark == b"=".as_slice() {
        Some(Operator::Set)
    } else if mark == b"+=".as_slice() {
        Some(Operator::Add)
    } else if mark == b"-=".as_slice() {
        Some(Operator::Remove)
    } else {
        None
    }
}

/// Returns what a scope with this sign is a list of.
pub fn list_kind_of_scope_sign(sign: &[u8]) -> Option<Kind>
    ensures { result ≡ value_of_matching_row scope_kinds_by_sign sign.now }
{
    if sign == b"@".as_slice() {
        Some(Kind::Host)
    } else if sign == b":".as_slice() {
        Some(Kind::User)
    } else if sign == b"!".as_slice() {
        Some(Kind::Cmnd)
    } else if sign == b">".as_slice() {
        Some(Kind::Runas)
    } else {
        None
    }
}
