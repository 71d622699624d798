//! Members of lists whose token is their text, as most are: neither escapes nor signs stand in it.

ghost use Rattle.std.specs.Prelude.{◌≡◌, IfSome, Some};
ghost use Rattle.sudoers_grammar.specs.Atom.{user_atom_of_word, host_atom_of_token, command_atom_without_args, command_atom_of_word, atom_of_token};
ghost use Rattle.sudoers_grammar.specs.Plain.{atom_of_plain, has_first_byte_of_plain_name, has_first_byte_of_plain_host};
ghost use Rattle.sudoers_grammar.specs.Seen.{model_of_token_part};
ghost use Rattle.sudoers_text.specs.declared.token.TokenKind.TheVariants as kinds;

use crate::node::Kind;
use crate::pattern::is_own_pattern;
use crate::token_with_text::{TokenWithText, has_byte};
use sudoers_text::{TokenKind, is_name, is_own_value, is_reserved};

/// What a member of a list is whose token is its text.
#[derive(Clone, Copy)]
pub enum PlainAtom {
    /// The word `ALL`.
    All,
    /// The name of an alias.
    Alias,
    /// The name of a user.
    Name,
    /// The name of a host.
    Host,
    /// A command's path, with any arguments.
    Path,
}

/// Returns whether the text begins as the name of a user does.
#[inline(always)]
fn begins_plain_name(text: &[u8]) -> bool
    ensures { result ≡ has_first_byte_of_plain_name text.now }
{
    match text {
        [first, ..] => !matches!(*first, b'%' | b'+' | b'#'),
        [] => false,
    }
}

/// Returns whether the text begins as neither a netgroup nor an address or network does.
#[inline(always)]
fn begins_plain_host(text: &[u8]) -> bool
    ensures { result ≡ has_first_byte_of_plain_host text.now }
{
    match text {
        [first, ..] => !matches!(*first, b'+' | b'.' | b'/') && !first.is_ascii_digit(),
        [] => false,
    }
}

/// Returns what a user is that is a word, if that is its text.
#[tactic(auto, using(crate::proofs::PlainAtoms::word_without_sign_is_user_name), unfolding(crate::specs::Atom::user_atom_of_word))]
#[inline(always)]
fn plain_user_of_word(text: &[u8]) -> Option<PlainAtom>
    ensures { IfSome result (λ plain. user_atom_of_word text.now ≡ Some (atom_of_plain plain text.now)) }
{
    if text == b"ALL".as_slice() {
        Some(PlainAtom::All)
    } else if is_name(text) {
        Some(PlainAtom::Alias)
    } else if begins_plain_name(text) && is_own_value(text) {
        Some(PlainAtom::Name)
    } else {
        None
    }
}

/// Returns what a host is that is a word, if that is its text.
#[tactic(auto, using(crate::proofs::PlainAtoms::word_without_sign_and_digit_is_host), unfolding(crate::specs::Atom::host_atom_of_token, crate::specs::Atom::host_atom_without_escapes))]
#[inline(always)]
fn plain_host_of_word(text: &[u8]) -> Option<PlainAtom>
    ensures { IfSome result (λ plain. host_atom_of_token kinds.Word text.now ≡ Some (atom_of_plain plain text.now)) }
{
    if has_byte(b'\\', text) {
        None
    } else if text == b"ALL".as_slice() {
        Some(PlainAtom::All)
    } else if is_name(text) {
        Some(PlainAtom::Alias)
    } else if begins_plain_host(text) {
        Some(PlainAtom::Host)
    } else {
        None
    }
}

/// Returns what a command is that is a word, if that is its text.
#[inline(always)]
fn plain_command_of_word(text: &[u8]) -> Option<PlainAtom>
    ensures { IfSome result (λ plain. command_atom_of_word text.now ≡ Some (atom_of_plain plain text.now)) }
{
    if text == b"ALL".as_slice() {
        Some(PlainAtom::All)
    } else if text == b"list".as_slice() || text == b"sudoedit".as_slice() {
        None
    } else if is_name(text) && !is_reserved(text) {
        Some(PlainAtom::Alias)
    } else {
        None
    }
}

/// Returns what a command is, if that is its text.
#[tactic(auto, unfolding(crate::specs::Atom::command_atom_without_args))]
#[inline(always)]
fn plain_command_of_token(kind: TokenKind, text: &[u8]) -> Option<PlainAtom>
    ensures { IfSome result (λ plain. command_atom_without_args kind text.now ≡ Some (atom_of_plain plain text.now)) }
{
    match kind {
        TokenKind::Path if is_own_pattern(text) => Some(PlainAtom::Path),
        TokenKind::Word => plain_command_of_word(text),
        _ => None,
    }
}

/// Returns what a member of a list of this kind is that is one token, if that is its text.
#[tactic(auto, unfolding(crate::specs::Atom::atom_of_token, crate::specs::Atom::user_atom_of_token))]
#[inline(always)]
pub fn plain_atom_of_token(kind: Kind, part: &TokenWithText<'_>) -> Option<PlainAtom>
    ensures { IfSome result (λ plain. atom_of_token kind (model_of_token_part part.now) ≡ Some (atom_of_plain plain part.now.text.now)) }
{
    match (kind, part.kind) {
        (Kind::User | Kind::Runas, TokenKind::Word) => plain_user_of_word(part.text),
        (Kind::Host, TokenKind::Word) => plain_host_of_word(part.text),
        (Kind::Cmnd, kind) => plain_command_of_token(kind, part.text),
        _ => None,
    }
}
