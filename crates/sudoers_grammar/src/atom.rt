//! What a member of a list is, by its token, and the values that tokens have.

ghost use Rattle.std.specs.Prelude.{◌≡◌, ◌∷◌, List, ℕ, IfOk, false, option_map};
ghost use Rattle.std.specs.Str.{bytes_eq};
ghost use Rattle.sudoers_text.specs.Value.{value_of_word};
ghost use Rattle.sudoers_grammar.specs.Number.{number_of_decimal_digits, id_limit, number_if_within_limit, ipv4_number_of_text};
ghost use Rattle.sudoers_grammar.specs.Atom.{some_if_not_empty, word_value_or_bytes, group_atom_after_percent, uid_or_name_atom_after_hash, user_atom_by_prefix, user_atom_of_word, id_digits_after_hash, user_atom_of_id, is_id_number_above_limit, user_atom_of_bounded_id, user_atom_of_token, address_network_or_host_atom, host_atom_without_escapes, host_atom_of_token, unreserved_alias_atom_of_word, command_atom_of_word, command_atom_without_args, atom_of_token, is_command_allowing_digests, is_option_value_allowed, option_value_of_token, include_path_of_token};
ghost use Rattle.sudoers_grammar.specs.Seen.{model_of_token_part};

use crate::items::Items;
use crate::node::{Args, Atom, Kind, OptionName};
use crate::numbers_and_addresses::{
    ID_LIMIT, is_digit_string, is_network_like, is_time_stamp, number_up_to, parse_ipv4_address,
    parse_network_atom,
};
use crate::owned_atom::copy_atom;
use crate::pattern::{PatternSpelling, read_pattern_of_text};
use crate::token_text::TokenText;
use crate::token_with_text::{TokenWithText, begins_with_byte, has_byte};
use std::alloc::{AllocError, Global};
use sudoers_text::{TokenKind, is_name, is_own_value, is_reserved, value};

/// Returns the text, if it has any bytes.
fn take_if_not_empty<'a>(text: TokenText<'a>) -> Option<TokenText<'a>>
    ensures { result ≡ some_if_not_empty text.entry }
{
    if text.as_slice().is_empty() {
        None
    } else {
        Some(text)
    }
}

/// Returns the bytes, or the value of the word that they are.
fn read_bytes_or_word_value<'a>(
    alloc: Global,
    escaped: bool,
    text: &'a [u8],
) -> Result<TokenText<'a>, AllocError>
    ensures { IfOk result (λ read. read ≡ word_value_or_bytes escaped text.now) }
{
    if escaped && !is_own_value(text) {
        Ok(TokenText::from_vec(value(alloc, text)?))
    } else {
        Ok(TokenText::from_slice(text))
    }
}

/// Returns a name that is not empty.
fn read_nonempty_name<'a>(
    alloc: Global,
    escaped: bool,
    text: &'a [u8],
) -> Result<Option<TokenText<'a>>, AllocError>
    ensures { IfOk result (λ name. name ≡ some_if_not_empty (word_value_or_bytes escaped text.now)) }
{
    Ok(take_if_not_empty(read_bytes_or_word_value(alloc, escaped, text)?))
}

/// Returns what stands behind `%`: a non-Unix group, a number or a group's name.
fn parse_group_after_percent<'a>(
    alloc: Global,
    escaped: bool,
    text: &'a [u8],
) -> Result<Option<Atom<'a>>, AllocError>
    ensures { IfOk result (λ atom. atom ≡ group_atom_after_percent escaped text.now) }
{
    match text {
        [b':', rest @ ..] => Ok(read_nonempty_name(alloc, escaped, rest)?.map(Atom::NonUnix)),
        [b'#', digits @ ..] if is_digit_string(digits) => {
            match number_up_to(ID_LIMIT, digits) {
                Some(number) => Ok(Some(Atom::GroupId(number))),
                None => Ok(None),
            }
        }
        [_, ..] => Ok(read_nonempty_name(alloc, escaped, text)?.map(Atom::Group)),
        [] => Ok(None),
    }
}

/// Returns a user whose name begins with `#`: a number behind it, or all of the name.
fn parse_uid_or_name_after_hash<'a>(name: &'a [u8], digits: &[u8]) -> Option<Atom<'a>>
    requires { name.now ≡ 35 ∷ digits.now }
    ensures { result ≡ uid_or_name_atom_after_hash digits.now }
{
    if digits.is_empty() {
        None
    } else if is_digit_string(digits) {
        match number_up_to(ID_LIMIT, digits) {
            Some(number) => Some(Atom::Id(number)),
            None => None,
        }
    } else {
        Some(Atom::Name(TokenText::from_slice(name)))
    }
}

/// Returns a user by its prefix, and without one by name.
fn parse_user_by_prefix<'a>(
    alloc: Global,
    escaped: bool,
    text: &'a [u8],
) -> Result<Option<Atom<'a>>, AllocError>
    ensures { IfOk result (λ atom. atom ≡ user_atom_by_prefix escaped text.now) }
{
    match text {
        [b'%', rest @ ..] => parse_group_after_percent(alloc, escaped, rest),
        [b'+', rest @ ..] => Ok(read_nonempty_name(alloc, escaped, rest)?.map(Atom::Netgroup)),
        [b'#', rest @ ..] => Ok(parse_uid_or_name_after_hash(text, rest)),
        [_, ..] => Ok(read_nonempty_name(alloc, escaped, text)?.map(Atom::Name)),
        [] => Ok(None),
    }
}

/// Returns a user that is a word.
#[tactic(auto, unfolding(crate::specs::Atom::user_atom_of_word))]
fn parse_user_word<'a>(alloc: Global, text: &'a [u8]) -> Result<Option<Atom<'a>>, AllocError>
    ensures { IfOk result (λ atom. atom ≡ user_atom_of_word text.now) }
{
    if text == b"ALL".as_slice() {
        Ok(Some(Atom::All))
    } else if is_name(text) {
        Ok(Some(Atom::Alias(TokenText::from_slice(text))))
    } else {
        parse_user_by_prefix(alloc, true, text)
    }
}

/// Returns the digits of an ID, behind its `#`.
fn digits_of_id(text: &[u8]) -> &[u8]
    ensures { result.now ≡ id_digits_after_hash text.now }
{
    for (i, byte) in text.iter().enumerate() {
        if *byte == b'#' {
            return &text[i + 1..];
        }
    }
    &[]
}

/// Returns whether the number of an ID is above the limit.
pub fn is_id_above_limit(text: &[u8]) -> bool
    ensures { result ≡ is_id_number_above_limit text.now }
{
    number_up_to(ID_LIMIT, digits_of_id(text)).is_none()
}

/// Returns a user that is an ID: `#uid`, `%#gid`, or `%:#` and a name of digits.
#[tactic(auto, unfolding(crate::specs::Atom::user_atom_of_bounded_id))]
fn parse_user_atom_that_is_id(text: &[u8]) -> Option<Atom<'_>>
    ensures { result ≡ user_atom_of_bounded_id text.now }
{
    let number = number_up_to(ID_LIMIT, digits_of_id(text))?;
    match text {
        [] => None,
        [b'#', ..] => Some(Atom::Id(number)),
        [_, b'#', ..] => Some(Atom::GroupId(number)),
        [_, _, name @ ..] => Some(Atom::NonUnix(TokenText::from_slice(name))),
        [_] => Some(Atom::NonUnix(TokenText::from_slice(&[]))),
    }
}

/// Returns a user that stands in quotes.
fn parse_quoted_user<'a>(alloc: Global, text: &'a [u8]) -> Result<Option<Atom<'a>>, AllocError>
    ensures { IfOk result (λ atom. atom ≡ user_atom_by_prefix false (value_of_word text.now)) }
{
    let name = value(alloc, text)?;
    match parse_user_by_prefix(alloc, false, name.as_slice())? {
        Some(atom) => Ok(Some(copy_atom(alloc, &atom)?)),
        None => Ok(None),
    }
}

/// Returns a user or runas user.
#[tactic(auto, unfolding(crate::specs::Atom::user_atom_of_token))]
fn parse_user_atom<'a>(
    alloc: Global,
    kind: TokenKind,
    text: &'a [u8],
) -> Result<Option<Atom<'a>>, AllocError>
    ensures { IfOk result (λ atom. atom ≡ user_atom_of_token kind text.now) }
{
    match kind {
        TokenKind::Word => parse_user_word(alloc, text),
        TokenKind::Quoted => parse_quoted_user(alloc, text),
        TokenKind::Id => Ok(parse_user_atom_that_is_id(text)),
        _ => Ok(None),
    }
}

/// Returns a host that is a word without escapes, and neither `ALL` nor an alias nor a netgroup.
fn parse_address_network_or_host(text: &[u8]) -> Option<Atom<'_>>
    ensures { result ≡ address_network_or_host_atom text.now (ipv4_number_of_text text.now) }
{
    if let Some(address) = parse_ipv4_address(text) {
        Some(Atom::Address(address))
    } else if is_network_like(text) {
        parse_network_atom(text)
    } else {
        Some(Atom::Host(TokenText::from_slice(text)))
    }
}

/// Returns a host that is a word without escapes.
#[tactic(auto, unfolding(crate::specs::Atom::host_atom_without_escapes))]
fn parse_unescaped_host(text: &[u8]) -> Option<Atom<'_>>
    ensures { result ≡ host_atom_without_escapes text.now }
{
    if text == b"ALL".as_slice() {
        Some(Atom::All)
    } else if is_name(text) {
        Some(Atom::Alias(TokenText::from_slice(text)))
    } else if begins_with_byte(b'+', text) {
        take_if_not_empty(TokenText::from_slice(&text[1..])).map(Atom::Netgroup)
    } else {
        parse_address_network_or_host(text)
    }
}

/// Returns a host.
#[tactic(auto, unfolding(crate::specs::Atom::host_atom_of_token))]
fn parse_host_atom<'a>(
    alloc: Global,
    kind: TokenKind,
    text: &'a [u8],
) -> Result<Option<Atom<'a>>, AllocError>
    ensures { IfOk result (λ atom. atom ≡ host_atom_of_token kind text.now) }
{
    match kind {
        TokenKind::Word if has_byte(b'\\', text) => {
            Ok(Some(Atom::Host(read_pattern_of_text(alloc, PatternSpelling::Host, text)?)))
        }
        TokenKind::Word => Ok(parse_unescaped_host(text)),
        TokenKind::Quoted => Ok(take_if_not_empty(read_pattern_of_text(
            alloc,
            PatternSpelling::QuotedHost,
            text,
        )?).map(Atom::Host)),
        _ => Ok(None),
    }
}

/// Returns a command that is a word.
fn parse_command_word(text: &[u8]) -> Option<Atom<'_>>
    ensures { result ≡ command_atom_of_word text.now }
{
    if text == b"ALL".as_slice() {
        Some(Atom::All)
    } else if text == b"list".as_slice() {
        Some(Atom::Listing)
    } else if text == b"sudoedit".as_slice() {
        Some(Atom::Sudoedit { args: Args::Any })
    } else if is_name(text) && !is_reserved(text) {
        Some(Atom::Alias(TokenText::from_slice(text)))
    } else {
        None
    }
}

/// Returns a command without arguments.
#[tactic(auto, unfolding(crate::specs::Atom::command_atom_without_args))]
pub fn parse_command_without_args<'a>(
    alloc: Global,
    part: &TokenWithText<'a>,
) -> Result<Option<Atom<'a>>, AllocError>
    ensures { IfOk result (λ atom. atom ≡ command_atom_without_args part.now.kind part.now.text.now) }
{
    match part.kind {
        TokenKind::Word => Ok(parse_command_word(part.text)),
        TokenKind::Path => Ok(Some(Atom::Path {
            path: read_pattern_of_text(alloc, PatternSpelling::Command, part.text)?,
            args: Args::Any,
        })),
        _ => Ok(None),
    }
}

/// Returns a member of a list of this kind that is one token.
#[tactic(auto, unfolding(crate::specs::Atom::atom_of_token))]
pub fn parse_single_token_atom<'a>(
    alloc: Global,
    kind: Kind,
    part: &TokenWithText<'a>,
) -> Result<Option<Atom<'a>>, AllocError>
    ensures { IfOk result (λ atom. atom ≡ atom_of_token kind (model_of_token_part part.now)) }
{
    match kind {
        Kind::User | Kind::Runas => parse_user_atom(alloc, part.kind, part.text),
        Kind::Host => parse_host_atom(alloc, part.kind, part.text),
        Kind::Cmnd => parse_command_without_args(alloc, part),
    }
}

/// Returns whether digests may stand before the command.
pub fn may_have_digests(atom: &Atom<'_>) -> bool
    ensures { result ≡ is_command_allowing_digests atom.now }
{
    matches!(atom, Atom::All | Atom::Path { .. })
}

/// Returns whether the option may have the value.
fn is_valid_option_value(option: OptionName, value: &[u8]) -> bool
    ensures { result ≡ is_option_value_allowed option value.now }
{
    match option {
        OptionName::Notbefore | OptionName::Notafter => is_time_stamp(value),
        _ => true,
    }
}

/// Returns the value of an option.
#[tactic(auto, unfolding(crate::specs::Atom::option_value_of_token))]
pub fn parse_option_value(
    alloc: Global,
    option: OptionName,
    part: &TokenWithText<'_>,
) -> Result<Option<Items<u8>>, AllocError>
    ensures { IfOk result (λ value. value ≡ option_value_of_token option (model_of_token_part part.now)) }
{
    if !part.is_word() && !part.is_quoted() {
        return Ok(None);
    }
    let value = value(alloc, part.text)?;
    if is_valid_option_value(option, value.as_slice()) {
        Ok(Some(Items::from_vec(value)))
    } else {
        Ok(None)
    }
}

/// Returns the path of an include.
#[tactic(auto, unfolding(crate::specs::Atom::include_path_of_token))]
pub fn parse_include_path<'a>(
    alloc: Global,
    part: &TokenWithText<'a>,
) -> Result<Option<TokenText<'a>>, AllocError>
    ensures { IfOk result (λ path. path ≡ include_path_of_token (model_of_token_part part.now)) }
{
    if part.is_word() || part.is_quoted() {
        read_nonempty_name(alloc, true, part.text)
    } else {
        Ok(None)
    }
}
