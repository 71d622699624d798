//! The token with which bytes begin, where neither `#` nor `%` does: it does not ask for what stands left of it.

ghost use Rattle.std.specs.Prelude.{◌≡◌, ◌≤◌, ◌∷◌, [], take, drop, true, false, length, nat_lt};
ghost use Rattle.sudoers_text.specs.Unit.{is_comma_colon_or_equals};
ghost use Rattle.sudoers_text.specs.Part.{size_of_one_matching_byte};
ghost use Rattle.sudoers_text.specs.declared.part.ByteRunKind.TheVariants as rules;
ghost use Rattle.sudoers_text.specs.declared.token.TokenKind.TheVariants as kinds;
ghost use Rattle.sudoers_text.specs.declared.token.Mode.TheVariants as modes;
ghost use Rattle.sudoers_text.specs.Piece.{Run, QuotedPart, CommentPart};
ghost use Rattle.sudoers_text.specs.declared.context.TokenContext.TheVariants as context;
ghost use Rattle.sudoers_text.specs.internal.Left.{has_leading_hash_or_percent};
ghost use Rattle.sudoers_text.specs.internal.Reached.{DescribesLeftAtOffset};
ghost use Rattle.sudoers_text.specs.internal.Plain.{IsTokenWithContextBehind, IsTokenOfLineAt};
ghost use Rattle.sudoers_text.specs.Context.{token_forms_in_word_lists, token_forms_in_command_lists, forms_of_first_token, token_forms_in_context, context_after_token};
ghost use Rattle.sudoers_text.specs.Found.{kind_and_size_of_token};

use crate::context::{
    TokenContext, find_context_after_command_token, find_context_after_first_of_commands,
    find_context_in_hosts, find_context_in_parentheses,
};
use crate::part::{ByteRunKind, argument_units_len, begins_with_given_byte, leading_run_len};
use crate::text_units::{LeftContext, begins_hash_or_percent};
use crate::token::{Mode, TokenKind};
use crate::token_finding::{TokenKindAndLen, begins_punct, find_quoted_or_comment_token};
use crate::token_lengths::{begins_comma_colon_or_equals, command_path_len};
use crate::tokenizing::LeftContextAtOffset;

/// What stands left of a token that does not ask for it: any answer would do.
const UNASKED: LeftContext = LeftContext {
    item: false,
    continues: false,
    begun: 1,
};

/// Finds a word, or what else may stand there.
#[inline(always)]
fn find_plain_word_or_quoted_token(bytes: &[u8]) -> TokenKindAndLen
    ensures found { (result.kind, result.len) ≡ kind_and_size_of_token (Run kinds.Word rules.Word ∷ QuotedPart kinds.Quoted ∷ CommentPart ∷ []) false false bytes.now }
    ensures within { result.len ≤ length bytes.now }
{
    let len = leading_run_len(ByteRunKind::Word, bytes);
    if len > 0 {
        TokenKindAndLen {
            kind: TokenKind::Word,
            len,
        }
    } else {
        find_quoted_or_comment_token(UNASKED, TokenKind::Quoted, bytes)
    }
}

/// Finds the token that begins the bytes among words.
#[inline(always)]
fn find_plain_token_among_words(bytes: &[u8]) -> TokenKindAndLen
    requires { has_leading_hash_or_percent bytes.now ≡ false }
    ensures found { (result.kind, result.len) ≡ kind_and_size_of_token token_forms_in_word_lists false false bytes.now }
    ensures within { result.len ≤ length bytes.now }
{
    if begins_punct(bytes) {
        TokenKindAndLen {
            kind: TokenKind::Punct,
            len: 1,
        }
    } else {
        find_plain_word_or_quoted_token(bytes)
    }
}

/// Finds the first token of a line that is read as commands.
#[inline(always)]
fn find_plain_first_token(bytes: &[u8]) -> TokenKindAndLen
    requires { has_leading_hash_or_percent bytes.now ≡ false }
    ensures found { (result.kind, result.len) ≡ kind_and_size_of_token (forms_of_first_token modes.Commands) false false bytes.now }
    ensures within { result.len ≤ length bytes.now }
{
    find_plain_token_among_words(bytes)
}

/// Finds the token that begins the bytes among commands.
#[inline(always)]
fn find_plain_token_among_commands(bytes: &[u8]) -> TokenKindAndLen
    requires { has_leading_hash_or_percent bytes.now ≡ false }
    ensures found { (result.kind, result.len) ≡ kind_and_size_of_token token_forms_in_command_lists false false bytes.now }
    ensures within { result.len ≤ length bytes.now }
{
    let len = command_path_len(bytes);
    if len > 0 {
        TokenKindAndLen {
            kind: TokenKind::Path,
            len,
        }
    } else {
        find_plain_token_among_words(bytes)
    }
}

/// A token, and what may stand behind it.
#[derive(Clone, Copy)]
pub struct TokenAndContextBehind {
    pub kind: TokenKind,
    pub len: usize,
    pub behind: TokenContext,
}

/// Returns the token that begins the bytes with what may stand behind it.
#[inline(always)]
fn add_context_behind(
    here: TokenContext,
    token: TokenKindAndLen,
    bytes: &[u8],
) -> TokenAndContextBehind
    requires { token.len ≤ length bytes.now }
    ensures kind { result.kind ≡ token.kind }
    ensures len { result.len ≡ token.len }
    ensures behind { result.behind ≡ context_after_token here token.kind (take token.len bytes.now) (drop token.len bytes.now) }
{
    let (text, rest) = bytes.split_at(token.len);
    TokenAndContextBehind {
        kind: token.kind,
        len: token.len,
        behind: here.find_context_after_token(token.kind, text, rest),
    }
}

/// Finds the token that begins the bytes, wherever they stand.
#[inline(never)]
fn find_other_plain_token(here: TokenContext, bytes: &[u8]) -> TokenAndContextBehind
    ensures found { IsTokenWithContextBehind here result false false bytes.now }
{
    add_context_behind(here, here.find_token_in_context(UNASKED, bytes), bytes)
}

/// Finds one of `,`, `:` and `=` among arguments.
#[inline(always)]
fn find_mark_among_arguments(bytes: &[u8]) -> TokenAndContextBehind
    requires { nat_lt 0 (size_of_one_matching_byte is_comma_colon_or_equals bytes.now) ≡ true }
    ensures found { IsTokenWithContextBehind context.Arguments result false false bytes.now }
{
    let mark = TokenKindAndLen {
        kind: TokenKind::Punct,
        len: 1,
    };
    add_context_behind(TokenContext::Arguments, mark, bytes)
}

/// Finds an argument, or what else may stand there. Most are units alone, with no quote behind them.
#[inline(always)]
fn find_plain_argument(bytes: &[u8]) -> TokenAndContextBehind
    requires { nat_lt 0 (size_of_one_matching_byte is_comma_colon_or_equals bytes.now) ≡ false }
    ensures found { IsTokenWithContextBehind context.Arguments result false false bytes.now }
{
    let len = argument_units_len(bytes);
    if len == 0 {
        return find_other_plain_token(TokenContext::Arguments, bytes);
    }
    if begins_with_given_byte(b'"', &bytes[len..]) {
        return find_other_plain_token(TokenContext::Arguments, bytes);
    }
    TokenAndContextBehind {
        kind: TokenKind::Arg,
        len,
        behind: TokenContext::Arguments,
    }
}

/// Finds the token that begins the bytes among arguments.
#[inline(always)]
fn find_plain_token_among_arguments(bytes: &[u8]) -> TokenAndContextBehind
    ensures found { IsTokenWithContextBehind context.Arguments result false false bytes.now }
{
    if begins_comma_colon_or_equals(bytes) {
        find_mark_among_arguments(bytes)
    } else {
        find_plain_argument(bytes)
    }
}

/// Finds the first token of a line that is read as commands.
#[inline(always)]
fn find_plain_first_of_commands(bytes: &[u8]) -> TokenAndContextBehind
    requires { has_leading_hash_or_percent bytes.now ≡ false }
    ensures found { IsTokenWithContextBehind (context.First modes.Commands) result false false bytes.now }
{
    let token = find_plain_first_token(bytes);
    TokenAndContextBehind {
        kind: token.kind,
        len: token.len,
        behind: find_context_after_first_of_commands(token.kind, &bytes[..token.len]),
    }
}

/// Finds the token that begins the bytes in a line of words.
#[inline(always)]
fn find_plain_token_in_words(bytes: &[u8]) -> TokenAndContextBehind
    requires { has_leading_hash_or_percent bytes.now ≡ false }
    ensures found { IsTokenWithContextBehind context.Words result false false bytes.now }
{
    let token = find_plain_token_among_words(bytes);
    TokenAndContextBehind {
        kind: token.kind,
        len: token.len,
        behind: TokenContext::Words,
    }
}

/// Finds the token that begins the bytes in a list of hosts before the `=`.
#[inline(always)]
fn find_plain_token_in_hosts(bytes: &[u8]) -> TokenAndContextBehind
    requires { has_leading_hash_or_percent bytes.now ≡ false }
    ensures found { IsTokenWithContextBehind context.Hosts result false false bytes.now }
{
    let token = find_plain_token_among_words(bytes);
    TokenAndContextBehind {
        kind: token.kind,
        len: token.len,
        behind: find_context_in_hosts(token.kind, &bytes[..token.len]),
    }
}

/// Finds the token that begins the bytes in parentheses.
#[inline(always)]
fn find_plain_token_in_parentheses(bytes: &[u8]) -> TokenAndContextBehind
    requires { has_leading_hash_or_percent bytes.now ≡ false }
    ensures found { IsTokenWithContextBehind context.Parentheses result false false bytes.now }
{
    let token = find_plain_token_among_words(bytes);
    TokenAndContextBehind {
        kind: token.kind,
        len: token.len,
        behind: find_context_in_parentheses(token.kind, &bytes[..token.len]),
    }
}

/// Finds the token that begins the bytes in a list of commands.
#[inline(always)]
fn find_plain_token_in_commands(bytes: &[u8]) -> TokenAndContextBehind
    requires { has_leading_hash_or_percent bytes.now ≡ false }
    ensures found { IsTokenWithContextBehind context.Commands result false false bytes.now }
{
    let token = find_plain_token_among_commands(bytes);
    TokenAndContextBehind {
        kind: token.kind,
        len: token.len,
        behind: find_context_after_command_token(
            TokenContext::Hosts,
            TokenContext::Commands,
            token.kind,
            &bytes[..token.len],
        ),
    }
}

/// Finds the token that begins the bytes directly behind a tag.
#[inline(always)]
fn find_plain_token_behind_tag(bytes: &[u8]) -> TokenAndContextBehind
    requires { has_leading_hash_or_percent bytes.now ≡ false }
    ensures found { IsTokenWithContextBehind context.BehindTag result false false bytes.now }
{
    let token = find_plain_token_among_commands(bytes);
    TokenAndContextBehind {
        kind: token.kind,
        len: token.len,
        behind: find_context_after_command_token(
            TokenContext::Commands,
            TokenContext::Commands,
            token.kind,
            &bytes[..token.len],
        ),
    }
}

/// Finds the token with which the bytes begin, where this may stand there. Lists of words and commands come first, as most tokens stand
/// in these.
#[inline(always)]
fn find_plain_token(here: TokenContext, bytes: &[u8]) -> TokenAndContextBehind
    requires { has_leading_hash_or_percent bytes.now ≡ false }
    ensures found { IsTokenWithContextBehind here result false false bytes.now }
{
    match here {
        TokenContext::First(Mode::Commands) => find_plain_first_of_commands(bytes),
        TokenContext::Words => find_plain_token_in_words(bytes),
        TokenContext::Hosts => find_plain_token_in_hosts(bytes),
        TokenContext::Parentheses => find_plain_token_in_parentheses(bytes),
        TokenContext::Commands => find_plain_token_in_commands(bytes),
        TokenContext::BehindTag => find_plain_token_behind_tag(bytes),
        TokenContext::Arguments => find_plain_token_among_arguments(bytes),
        _ => find_other_plain_token(here, bytes),
    }
}

/// Finds the token at the place `start` of the line by what stands left of it.
#[inline(never)]
fn find_token_by_left(
    here: TokenContext,
    reached: &mut LeftContextAtOffset,
    line: &[u8],
    start: usize,
) -> TokenAndContextBehind
    requires below { reached.old.at ≤ start }
    requires inside { start ≤ length line.now }
    requires knows { DescribesLeftAtOffset line.now reached.old }
    ensures place { reached.new.at ≤ start }
    ensures knows { DescribesLeftAtOffset line.now reached.new }
    ensures found { IsTokenOfLineAt line.now here start result }
{
    let left = reached.advance_to_token(line, start);
    let bytes = &line[start..];
    add_context_behind(here, here.find_token_in_context(left, bytes), bytes)
}

/// Finds the token at the place `start` of the line. Only a token that begins with `#` or `%` depends on what stands left of it: for
/// other tokens the scan of that stays where it is.
#[inline(always)]
pub fn find_token_at(
    here: TokenContext,
    reached: &mut LeftContextAtOffset,
    line: &[u8],
    start: usize,
) -> TokenAndContextBehind
    requires below { reached.old.at ≤ start }
    requires inside { start ≤ length line.now }
    requires knows { DescribesLeftAtOffset line.now reached.old }
    ensures place { reached.new.at ≤ start }
    ensures knows { DescribesLeftAtOffset line.now reached.new }
    ensures found { IsTokenOfLineAt line.now here start result }
{
    let bytes = &line[start..];
    if begins_hash_or_percent(bytes) {
        find_token_by_left(here, reached, line, start)
    } else {
        find_plain_token(here, bytes)
    }
}
