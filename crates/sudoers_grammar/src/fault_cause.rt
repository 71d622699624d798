//! Why a token may not stand at a place.

ghost use Rattle.std.specs.Prelude.{◌≡◌, ◌||◌, ◌&&◌, IfOk};
ghost use Rattle.sudoers_text.specs.Value.{value_of_word};
ghost use Rattle.sudoers_grammar.specs.Atom.{is_id_number_above_limit};
ghost use Rattle.sudoers_grammar.specs.Fault.{is_lone_name_prefix, is_empty_quotes, name_without_percent, is_name_of_too_high_id, is_id_token_above_limit, is_quoted_id_above_limit, is_regex_where_command_stands, why_token_is_refused, syntax_fault_cause};
ghost use Rattle.sudoers_grammar.specs.Seen.{model_of_token_part};

use crate::atom::is_id_above_limit;
use crate::expected_tokens::ExpectedTokens;
use crate::fault::Why;
use crate::numbers_and_addresses::{is_digit_string, is_network_like};
use crate::token_with_text::{TokenWithText, begins_with_byte};
use std::alloc::{AllocError, Global};
use sudoers_text::{TokenKind, is_whole_argument, value};

/// Returns whether the token is a prefix with no name behind it. The name is what the text stands for.
fn is_prefix_without_name(kind: TokenKind, text: &[u8], name: &[u8]) -> bool
    requires { name.now ≡ value_of_word text.now }
    ensures { result ≡ is_lone_name_prefix kind text.now }
{
    match kind {
        TokenKind::Word => text == b"%".as_slice() || text == b"+".as_slice(),
        TokenKind::Quoted => {
            name == b"%".as_slice()
                || name == b"%:".as_slice()
                || name == b"+".as_slice()
                || name == b"#".as_slice()
        }
        _ => false,
    }
}

/// Returns whether the token is quotes with nothing in them, also as a whole argument.
fn is_empty_quotes(kind: TokenKind, text: &[u8], name: &[u8]) -> bool
    requires { name.now ≡ value_of_word text.now }
    ensures { result ≡ is_empty_quotes kind text.now }
{
    match kind {
        TokenKind::Quoted => name == b"".as_slice(),
        TokenKind::Arg => is_whole_argument(text) && name == b"".as_slice(),
        _ => false,
    }
}

/// Returns the name without a `%` before it.
fn strip_leading_percent(name: &[u8]) -> &[u8]
    ensures { result.now ≡ name_without_percent name.now }
{
    if begins_with_byte(b'%', name) {
        &name[1..]
    } else {
        name
    }
}

/// Returns whether the name is `#` or `%#` and a number above the limit.
fn is_id_name_above_limit(name: &[u8]) -> bool
    ensures { result ≡ is_name_of_too_high_id name.now }
{
    let number = strip_leading_percent(name);
    begins_with_byte(b'#', number) && is_digit_string(&number[1..]) && is_id_above_limit(number)
}

/// Returns whether the token is an ID above the limit, or, where names stand, such a name in quotes.
fn is_token_id_above_limit(word: bool, kind: TokenKind, text: &[u8], name: &[u8]) -> bool
    requires { name.now ≡ value_of_word text.now }
    ensures { result ≡ (is_id_token_above_limit kind text.now || (word && is_quoted_id_above_limit kind text.now)) }
{
    match kind {
        TokenKind::Id => is_id_above_limit(text),
        TokenKind::Quoted => word && is_id_name_above_limit(name),
        _ => false,
    }
}

/// Returns whether the token begins with `^` as a regular expression.
fn begins_regex_in_command(path: bool, kind: TokenKind, text: &[u8]) -> bool
    ensures { result ≡ is_regex_where_command_stands path kind text.now }
{
    match kind {
        TokenKind::Arg => begins_with_byte(b'^', text),
        TokenKind::Word => path && begins_with_byte(b'^', text),
        _ => false,
    }
}

/// Returns why a token that is neither Bad nor a comment is refused.
fn syntax_cause_of_token(place: ExpectedTokens, part: &TokenWithText<'_>, name: &[u8]) -> Why
    requires { name.now ≡ value_of_word part.now.text.now }
    ensures { result ≡ why_token_is_refused place part.now.kind part.now.text.now }
{
    if place.stamp && !place.word && (part.is_word() || part.is_quoted()) {
        Why::BadStamp
    } else if is_empty_quotes(part.kind, part.text, name)
        || (place.word && is_prefix_without_name(part.kind, part.text, name))
    {
        Why::EmptyName
    } else if is_token_id_above_limit(place.word, part.kind, part.text, name) {
        Why::BadId
    } else if place.word && part.is_word() && is_network_like(part.text) {
        Why::BadAddress
    } else if begins_regex_in_command(place.path, part.kind, part.text) {
        Why::Regex
    } else {
        Why::UnexpectedToken
    }
}

/// Returns why a token is refused in this context.
///
/// # Errors
///
/// A growth of memory was refused.
#[tactic(auto, unfolding(crate::specs::Fault::syntax_fault_cause))]
pub fn find_syntax_fault_cause(
    alloc: Global,
    place: ExpectedTokens,
    part: &TokenWithText<'_>,
) -> Result<Why, AllocError>
    ensures { IfOk result (λ why. why ≡ syntax_fault_cause place (model_of_token_part part.now)) }
{
    if part.is_bad() {
        if begins_with_byte(b'"', part.text) && part.last {
            return Ok(Why::OpenQuote);
        }
        return Ok(Why::UnexpectedByte);
    }
    if part.is_comment() {
        return Ok(Why::EndOfLine);
    }
    let name = value(alloc, part.text)?;
    Ok(syntax_cause_of_token(place, part, name.as_slice()))
}
