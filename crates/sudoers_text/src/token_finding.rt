//! The token with which bytes begin, by what may stand there.

ghost use Rattle.std.specs.Prelude.{◌≡◌, ◌<◌, ◌≤◌, List, [], ◌∷◌, ◌==◌, false, length, nat_lt, IsTrue};
ghost use Rattle.sudoers_text.specs.declared.part.ByteRunKind.TheVariants as rules;
ghost use Rattle.sudoers_text.specs.declared.token.TokenKind.TheVariants as kinds;
ghost use Rattle.sudoers_text.specs.Unit.{is_comma_colon_or_equals};
ghost use Rattle.sudoers_text.specs.Part.{is_punct, size_of_one_matching_byte};
ghost use Rattle.sudoers_text.specs.Piece.{TokenForm, Mark, Operator, Number, NonUnixGroup, Run, CommandPath, QuotedPart, CommentPart, IncludeWord, FirstWord, Argument, QuotedRest};
ghost use Rattle.sudoers_text.specs.Context.{is_scope_sign, is_parameter_mark, is_comma, token_forms_in_word_lists, token_forms_in_command_lists, token_forms_of_parameters, forms_of_first_token, token_forms_in_scope, token_forms_in_context};
ghost use Rattle.sudoers_text.specs.Token.{bad_token_size};
ghost use Rattle.sudoers_text.specs.Found.{kind_and_size_of_token};

use crate::context::{ScopeNamesOrCommands, TokenContext};
use crate::part::{ByteRunKind, closed_quote_len, is_punct, leading_run_len};
use crate::text_units::{LeftContext, begins_hash_or_percent};
use crate::token::{Mode, TokenKind};
use crate::token_lengths::{
    argument_len, bad_token_len, begins_comma_colon_or_equals, command_path_len, comment_len,
    defaults_or_at_include_word_len, hash_include_word_len, non_unix_group_len, numeric_id_len,
    plus_or_minus_equals_len, quoted_argument_rest_len,
};

/// The kind of a token, and how many bytes it has.
#[derive(Clone, Copy)]
pub struct TokenKindAndLen {
    pub kind: TokenKind,
    pub len: usize,
}

/// Returns the piece of bytes at which no other piece begins.
fn make_bad_token(bytes: &[u8]) -> TokenKindAndLen
    ensures kind { result.kind ≡ kinds.Bad }
    ensures len { result.len ≡ bad_token_size bytes.now }
    ensures within { result.len ≤ length bytes.now }
{
    TokenKindAndLen {
        kind: TokenKind::Bad,
        len: bad_token_len(bytes),
    }
}

/// Finds a token where only a comment may stand.
fn find_comment_or_bad_token(left: LeftContext, bytes: &[u8]) -> TokenKindAndLen
    ensures found { (result.kind, result.len) ≡ kind_and_size_of_token (CommentPart ∷ []) left.item (left.begun == 0) bytes.now }
    ensures within { result.len ≤ length bytes.now }
{
    let len = comment_len(left, bytes);
    if len > 0 {
        TokenKindAndLen {
            kind: TokenKind::Comment,
            len,
        }
    } else {
        make_bad_token(bytes)
    }
}

/// Finds a quoted part, or what else may stand there.
#[inline(never)]
pub fn find_quoted_or_comment_token(
    left: LeftContext,
    kind: TokenKind,
    bytes: &[u8],
) -> TokenKindAndLen
    ensures found { (result.kind, result.len) ≡ kind_and_size_of_token (QuotedPart kind ∷ CommentPart ∷ []) left.item (left.begun == 0) bytes.now }
    ensures within { result.len ≤ length bytes.now }
{
    let len = closed_quote_len(bytes);
    if len > 0 {
        TokenKindAndLen { kind, len }
    } else {
        find_comment_or_bad_token(left, bytes)
    }
}

/// Finds a word, or what else may stand there.
#[inline(always)]
fn find_word_or_quoted_token(left: LeftContext, bytes: &[u8]) -> TokenKindAndLen
    ensures found { (result.kind, result.len)
        ≡ kind_and_size_of_token (Run kinds.Word rules.Word ∷ QuotedPart kinds.Quoted ∷ CommentPart ∷ []) left.item (left.begun == 0) bytes.now }
    ensures within { result.len ≤ length bytes.now }
{
    let len = leading_run_len(ByteRunKind::Word, bytes);
    if len > 0 {
        TokenKindAndLen {
            kind: TokenKind::Word,
            len,
        }
    } else {
        find_quoted_or_comment_token(left, TokenKind::Quoted, bytes)
    }
}

/// Finds a number or a group, or what else may stand there.
#[inline(never)]
fn find_number_group_or_word_token(left: LeftContext, bytes: &[u8]) -> TokenKindAndLen
    ensures found { (result.kind, result.len)
        ≡ kind_and_size_of_token (Number ∷ NonUnixGroup ∷ Run kinds.Word rules.Word ∷ QuotedPart kinds.Quoted ∷ CommentPart ∷ []) left.item (left.begun == 0) bytes.now }
    ensures within { result.len ≤ length bytes.now }
{
    let number = numeric_id_len(left.item, bytes);
    if number > 0 {
        return TokenKindAndLen {
            kind: TokenKind::Id,
            len: number,
        };
    }
    let group = non_unix_group_len(bytes);
    if group > 0 {
        return TokenKindAndLen {
            kind: TokenKind::Word,
            len: group,
        };
    }
    find_word_or_quoted_token(left, bytes)
}

/// Finds the token that begins the bytes among words.
#[inline(always)]
fn find_token_among_words(left: LeftContext, bytes: &[u8]) -> TokenKindAndLen
    ensures found { (result.kind, result.len) ≡ kind_and_size_of_token token_forms_in_word_lists left.item (left.begun == 0) bytes.now }
    ensures within { result.len ≤ length bytes.now }
{
    if begins_punct(bytes) {
        TokenKindAndLen {
            kind: TokenKind::Punct,
            len: 1,
        }
    } else if begins_hash_or_percent(bytes) {
        find_number_group_or_word_token(left, bytes)
    } else {
        find_word_or_quoted_token(left, bytes)
    }
}

/// Returns whether one of `!`, `=`, `:`, `,`, `(` and `)` begins the bytes.
#[inline(always)]
pub fn begins_punct(bytes: &[u8]) -> bool
    ensures value { result ≡ nat_lt 0 (size_of_one_matching_byte is_punct bytes.now) }
    ensures some { IsTrue result → 0 < length bytes.now }
{
    match bytes {
        [byte, ..] => is_punct(*byte),
        [] => false,
    }
}

/// Finds the token that begins the bytes among commands.
#[inline(always)]
fn find_token_among_commands(left: LeftContext, bytes: &[u8]) -> TokenKindAndLen
    ensures found { (result.kind, result.len) ≡ kind_and_size_of_token token_forms_in_command_lists left.item (left.begun == 0) bytes.now }
    ensures within { result.len ≤ length bytes.now }
{
    let len = command_path_len(bytes);
    if len > 0 {
        TokenKindAndLen {
            kind: TokenKind::Path,
            len,
        }
    } else {
        find_token_among_words(left, bytes)
    }
}

/// Finds the token that begins the bytes among parameters.
fn find_token_among_parameters(left: LeftContext, bytes: &[u8]) -> TokenKindAndLen
    ensures found { (result.kind, result.len) ≡ kind_and_size_of_token token_forms_of_parameters left.item (left.begun == 0) bytes.now }
    ensures within { result.len ≤ length bytes.now }
{
    if begins_parameter_mark(bytes) {
        return TokenKindAndLen {
            kind: TokenKind::Punct,
            len: 1,
        };
    }
    let operator = plus_or_minus_equals_len(bytes);
    if operator > 0 {
        return TokenKindAndLen {
            kind: TokenKind::Punct,
            len: operator,
        };
    }
    let name = leading_run_len(ByteRunKind::Name, bytes);
    if name > 0 {
        return TokenKindAndLen {
            kind: TokenKind::Name,
            len: name,
        };
    }
    find_comment_or_bad_token(left, bytes)
}

/// Returns whether `!`, `,` or `=` begins the bytes.
fn begins_parameter_mark(bytes: &[u8]) -> bool
    ensures value { result ≡ nat_lt 0 (size_of_one_matching_byte is_parameter_mark bytes.now) }
    ensures some { IsTrue result → 0 < length bytes.now }
{
    matches!(bytes, [b'!' | b',' | b'=', ..])
}

/// Finds the first token of a line.
fn find_first_token_of_line(mode: Mode, left: LeftContext, bytes: &[u8]) -> TokenKindAndLen
    ensures found { (result.kind, result.len) ≡ kind_and_size_of_token (forms_of_first_token mode) left.item (left.begun == 0) bytes.now }
    ensures within { result.len ≤ length bytes.now }
{
    let include = hash_include_word_len(left, bytes);
    if include > 0 {
        return TokenKindAndLen {
            kind: TokenKind::Word,
            len: include,
        };
    }
    match mode {
        Mode::Words | Mode::Commands => find_token_among_words(left, bytes),
        Mode::Parameters => find_first_token_of_defaults_line(left, bytes),
    }
}

/// Finds the first token of a line of parameters that is no `#include`.
fn find_first_token_of_defaults_line(left: LeftContext, bytes: &[u8]) -> TokenKindAndLen
    ensures found { (result.kind, result.len)
        ≡ kind_and_size_of_token (FirstWord ∷ token_forms_of_parameters) left.item (left.begun == 0) bytes.now }
    ensures within { result.len ≤ length bytes.now }
{
    let len = defaults_or_at_include_word_len(bytes);
    if len > 0 {
        TokenKindAndLen {
            kind: TokenKind::Word,
            len,
        }
    } else {
        find_token_among_parameters(left, bytes)
    }
}

/// Finds the path of an include.
fn find_include_path_token(left: LeftContext, bytes: &[u8]) -> TokenKindAndLen
    ensures found { (result.kind, result.len)
        ≡ kind_and_size_of_token (QuotedPart kinds.Quoted ∷ Run kinds.Word rules.IncludePath ∷ CommentPart ∷ []) left.item (left.begun == 0) bytes.now }
    ensures within { result.len ≤ length bytes.now }
{
    let quoted = closed_quote_len(bytes);
    if quoted > 0 {
        return TokenKindAndLen {
            kind: TokenKind::Quoted,
            len: quoted,
        };
    }
    let path = leading_run_len(ByteRunKind::IncludePath, bytes);
    if path > 0 {
        return TokenKindAndLen {
            kind: TokenKind::Word,
            len: path,
        };
    }
    find_comment_or_bad_token(left, bytes)
}

/// Finds a digest or a command.
fn find_digest_or_command_token(left: LeftContext, bytes: &[u8]) -> TokenKindAndLen
    ensures found { (result.kind, result.len)
        ≡ kind_and_size_of_token (Run kinds.Digest rules.Digest ∷ token_forms_in_command_lists) left.item (left.begun == 0) bytes.now }
    ensures within { result.len ≤ length bytes.now }
{
    let len = leading_run_len(ByteRunKind::Digest, bytes);
    if len > 0 {
        TokenKindAndLen {
            kind: TokenKind::Digest,
            len,
        }
    } else {
        find_token_among_commands(left, bytes)
    }
}

/// Finds the token that begins the bytes among arguments.
fn find_token_among_arguments(left: LeftContext, bytes: &[u8]) -> TokenKindAndLen
    ensures found { (result.kind, result.len)
        ≡ kind_and_size_of_token (Mark is_comma_colon_or_equals ∷ Argument ∷ CommentPart ∷ []) left.item (left.begun == 0) bytes.now }
    ensures within { result.len ≤ length bytes.now }
{
    if begins_comma_colon_or_equals(bytes) {
        return TokenKindAndLen {
            kind: TokenKind::Punct,
            len: 1,
        };
    }
    let argument = argument_len(bytes);
    if argument > 0 {
        return TokenKindAndLen {
            kind: TokenKind::Arg,
            len: argument,
        };
    }
    find_comment_or_bad_token(left, bytes)
}

/// Finds the token that begins the bytes inside a quoted part of an argument.
fn find_token_in_quoted_argument(bytes: &[u8]) -> TokenKindAndLen
    ensures found { (result.kind, result.len) ≡ kind_and_size_of_token (QuotedRest ∷ []) false false bytes.now }
    ensures within { result.len ≤ length bytes.now }
{
    let len = quoted_argument_rest_len(bytes);
    if len > 0 {
        TokenKindAndLen {
            kind: TokenKind::Arg,
            len,
        }
    } else {
        make_bad_token(bytes)
    }
}

/// Finds the sign of a scope.
fn find_scope_sign_token(bytes: &[u8]) -> TokenKindAndLen
    ensures found { (result.kind, result.len) ≡ kind_and_size_of_token (Mark is_scope_sign ∷ []) false false bytes.now }
    ensures within { result.len ≤ length bytes.now }
{
    match bytes {
        [b'@' | b':' | b'!' | b'>', ..] => TokenKindAndLen {
            kind: TokenKind::Punct,
            len: 1,
        },
        _ => make_bad_token(bytes),
    }
}

/// Finds the value of a parameter.
fn find_parameter_value_token(left: LeftContext, bytes: &[u8]) -> TokenKindAndLen
    ensures found { (result.kind, result.len)
        ≡ kind_and_size_of_token (QuotedPart kinds.Value ∷ Run kinds.Value rules.Value ∷ Mark is_comma ∷ CommentPart ∷ []) left.item (left.begun == 0) bytes.now }
    ensures within { result.len ≤ length bytes.now }
{
    let quoted = closed_quote_len(bytes);
    if quoted > 0 {
        return TokenKindAndLen {
            kind: TokenKind::Value,
            len: quoted,
        };
    }
    let value = leading_run_len(ByteRunKind::Value, bytes);
    if value > 0 {
        return TokenKindAndLen {
            kind: TokenKind::Value,
            len: value,
        };
    }
    match bytes {
        [b',', ..] => TokenKindAndLen {
            kind: TokenKind::Punct,
            len: 1,
        },
        _ => find_comment_or_bad_token(left, bytes),
    }
}

impl TokenContext {
    /// Returns the token with which the bytes begin, where this may stand there.
    #[inline(always)]
    pub fn find_token_in_context(self, left: LeftContext, bytes: &[u8]) -> TokenKindAndLen
        ensures found { (result.kind, result.len) ≡ kind_and_size_of_token (token_forms_in_context self) left.item (left.begun == 0) bytes.now }
        ensures within { result.len ≤ length bytes.now }
    {
        match self {
            TokenContext::First(mode) => find_first_token_of_line(mode, left, bytes),
            TokenContext::IncludePath(_) => find_include_path_token(left, bytes),
            TokenContext::Words
            | TokenContext::Hosts
            | TokenContext::OptionValue
            | TokenContext::Parentheses
            | TokenContext::Scope(ScopeNamesOrCommands::Names) => find_token_among_words(
                left, bytes,
            ),
            TokenContext::Commands
            | TokenContext::BehindOption
            | TokenContext::BehindTag
            | TokenContext::BehindDigestKind
            | TokenContext::Scope(ScopeNamesOrCommands::Commands) => find_token_among_commands(
                left, bytes,
            ),
            TokenContext::Digest => find_digest_or_command_token(left, bytes),
            TokenContext::Arguments => find_token_among_arguments(left, bytes),
            TokenContext::QuotedArgument => find_token_in_quoted_argument(bytes),
            TokenContext::ScopeSign => find_scope_sign_token(bytes),
            TokenContext::BehindMember(_) | TokenContext::Parameter => find_token_among_parameters(
                left, bytes,
            ),
            TokenContext::ParameterValue => find_parameter_value_token(left, bytes),
        }
    }
}
