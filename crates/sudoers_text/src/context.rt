//! What may stand at a place of a line, by the tokens before it.

ghost use Rattle.std.specs.Prelude.{◌≡◌, ◌≤◌, ◌&&◌, List, length, if◌then◌else◌};
ghost use Rattle.sudoers_text.specs.Word.{is_among, include_words};
ghost use Rattle.sudoers_text.specs.declared.context.TokenContext.TheVariants as context;
ghost use Rattle.sudoers_text.specs.declared.token.Mode.TheVariants as modes;
ghost use Rattle.sudoers_text.specs.Unit.{LineUnit};
ghost use Rattle.sudoers_text.specs.internal.Left.{LeftAgreesWithUnits};
ghost use Rattle.sudoers_text.specs.Context.{is_scope_sign, is_parameter_mark, token_forms_in_word_lists, token_forms_in_command_lists, token_forms_of_parameters, forms_of_first_token, token_forms_in_scope, token_forms_in_context, is_given_punct_token, is_word_kind, context_after_command_mark, context_after_command_word, context_after_command_token, context_after_option_value, context_after_argument, context_after_quoted_argument, context_after_parameter_token, is_kind_of_list_member, context_after_include_path, context_after_first_token, context_after_token};

use crate::part::{ByteRunKind, begins_with_given_byte, is_whole_argument, leading_run_len};
use crate::token::{Mode, TokenKind};
use crate::token_lengths::begins_host_or_runas_sign;
use crate::word::{is_digest_kind, is_include_word, is_option_name, is_tag};

/// What the members of a `Defaults` scope are.
#[derive(Clone, Copy)]
pub enum ScopeNamesOrCommands {
    /// Users, runas users or hosts.
    Names,
    Commands,
}

/// What may stand at a place of a line.
#[derive(Clone, Copy)]
pub enum TokenContext {
    /// The first token of the line.
    First(Mode),
    /// The path of an include.
    IncludePath(Mode),
    /// Lists of users, runas users and hosts.
    Words,
    /// The same, before the `=` behind which commands stand.
    Hosts,
    Commands,
    /// Commands, directly behind an option's name.
    BehindOption,
    OptionValue,
    /// Commands, directly behind a tag.
    BehindTag,
    /// Commands, directly behind a kind of digest, as `sha256`.
    BehindDigestKind,
    Digest,
    /// The users and groups that a command runs as.
    Parentheses,
    Arguments,
    /// Inside a quoted part of an argument, behind a `,`, `:` or `=`.
    QuotedArgument,
    ScopeSign,
    Scope(ScopeNamesOrCommands),
    /// Behind a member of a scope.
    BehindMember(ScopeNamesOrCommands),
    Parameter,
    ParameterValue,
}

/// Returns whether the token is this mark.
#[inline(always)]
fn is_token_of_mark(mark: u8, kind: TokenKind, text: &[u8]) -> bool
    ensures { result ≡ is_given_punct_token mark kind text.now }
{
    matches!(kind, TokenKind::Punct) && text == [mark].as_slice()
}

/// Returns the context behind a mark that stands among commands.
#[inline(always)]
fn find_context_after_command_mark(
    colon: TokenContext,
    equals: TokenContext,
    text: &[u8],
) -> TokenContext
    ensures { result ≡ context_after_command_mark colon equals text.now }
{
    match text {
        [b'('] => TokenContext::Parentheses,
        [b':'] => colon,
        [b'='] => equals,
        _ => TokenContext::Commands,
    }
}

/// Returns what may stand after a word in the place of a command.
fn find_context_after_command_word(text: &[u8]) -> TokenContext
    ensures { result ≡ context_after_command_word text.now }
{
    if text == b"sudoedit".as_slice() {
        TokenContext::Arguments
    } else if is_option_name(text) {
        TokenContext::BehindOption
    } else if is_tag(text) {
        TokenContext::BehindTag
    } else if is_digest_kind(text) {
        TokenContext::BehindDigestKind
    } else {
        TokenContext::Commands
    }
}

/// Returns what may stand after a token in the place of a command.
#[inline(always)]
pub fn find_context_after_command_token(
    colon: TokenContext,
    equals: TokenContext,
    kind: TokenKind,
    text: &[u8],
) -> TokenContext
    ensures { result ≡ context_after_command_token colon equals kind text.now }
{
    match kind {
        TokenKind::Punct => find_context_after_command_mark(colon, equals, text),
        TokenKind::Word => find_context_after_command_word(text),
        TokenKind::Path => TokenContext::Arguments,
        _ => TokenContext::Commands,
    }
}

/// Returns what may stand after the value of an option.
fn find_context_after_option_value(kind: TokenKind, text: &[u8]) -> TokenContext
    ensures { result ≡ context_after_option_value kind text.now }
{
    match kind {
        TokenKind::Punct => find_context_after_command_mark(
            TokenContext::Hosts,
            TokenContext::Commands,
            text,
        ),
        _ => TokenContext::Commands,
    }
}

/// Returns what may stand after a token among arguments.
#[inline(always)]
fn find_context_after_argument(kind: TokenKind, text: &[u8]) -> TokenContext
    ensures { result ≡ context_after_argument kind text.now }
{
    match kind {
        TokenKind::Punct => find_context_after_command_mark(
            TokenContext::Hosts,
            TokenContext::Commands,
            text,
        ),
        TokenKind::Arg if !is_whole_argument(text) => TokenContext::QuotedArgument,
        _ => TokenContext::Arguments,
    }
}

/// Returns what may stand after a token inside a quoted part of an argument.
fn find_context_in_quoted_argument(kind: TokenKind, text: &[u8]) -> TokenContext
    ensures { result ≡ context_after_quoted_argument kind text.now }
{
    match kind {
        TokenKind::Arg if leading_run_len(ByteRunKind::Clean, text) != text.len() =>
            TokenContext::Arguments,
        _ => TokenContext::QuotedArgument,
    }
}

/// Returns what may stand after a token among parameters.
fn find_context_after_parameter(kind: TokenKind, text: &[u8]) -> TokenContext
    ensures { result ≡ context_after_parameter_token kind text.now }
{
    match (kind, text) {
        (TokenKind::Punct, [b'!'] | [b',']) => TokenContext::Parameter,
        (TokenKind::Punct, _) => TokenContext::ParameterValue,
        _ => TokenContext::Parameter,
    }
}

/// Returns whether a token is a member of a list.
#[inline(always)]
fn is_member_token_kind(kind: TokenKind) -> bool
    ensures { result ≡ is_kind_of_list_member kind }
{
    matches!(
        kind,
        TokenKind::Word | TokenKind::Quoted | TokenKind::Id | TokenKind::Path
    )
}

/// Returns what may stand after the path of an include.
fn find_context_after_include_path(mode: Mode) -> TokenContext
    ensures { result ≡ context_after_include_path mode }
{
    match mode {
        Mode::Words => TokenContext::Words,
        Mode::Commands => TokenContext::Hosts,
        Mode::Parameters => TokenContext::Parameter,
    }
}

/// Returns what may stand after the first token of a line, if that begins no include.
fn find_context_after_first_token(
    mode: Mode,
    kind: TokenKind,
    text: &[u8],
    rest: &[u8],
) -> TokenContext
    ensures { result ≡ context_after_first_token mode kind text.now rest.now }
{
    match (mode, kind) {
        (Mode::Words, _) => TokenContext::Words,
        (Mode::Commands, _) if is_token_of_mark(b'=', kind, text) => TokenContext::Commands,
        (Mode::Commands, _) => TokenContext::Hosts,
        (Mode::Parameters, TokenKind::Word)
            if begins_host_or_runas_sign(rest)
                || begins_with_given_byte(b':', rest)
                || begins_with_given_byte(b'!', rest) => { TokenContext::ScopeSign }
        (Mode::Parameters, TokenKind::Word) => TokenContext::Parameter,
        (Mode::Parameters, _) => find_context_after_parameter(kind, text),
    }
}

/// Returns what may stand after a token of a list of hosts before the `=`.
#[inline(always)]
pub fn find_context_in_hosts(kind: TokenKind, text: &[u8]) -> TokenContext
    ensures { result ≡ (if is_given_punct_token 61 kind text.now then context.Commands else context.Hosts) }
{
    if is_token_of_mark(b'=', kind, text) {
        TokenContext::Commands
    } else {
        TokenContext::Hosts
    }
}

/// Returns what may stand after the first token of a line that is read as commands.
#[inline(always)]
pub fn find_context_after_first_of_commands(kind: TokenKind, text: &[u8]) -> TokenContext
    ensures { result ≡ (if is_word_kind kind && is_among include_words text.now then context.IncludePath modes.Commands
        else (if is_given_punct_token 61 kind text.now then context.Commands else context.Hosts)) }
{
    match kind {
        TokenKind::Word if is_include_word(text) => TokenContext::IncludePath(Mode::Commands),
        _ => find_context_in_hosts(kind, text),
    }
}

/// Returns what may stand after a token in parentheses.
#[inline(always)]
pub fn find_context_in_parentheses(kind: TokenKind, text: &[u8]) -> TokenContext
    ensures { result ≡ (if is_given_punct_token 41 kind text.now then context.Commands else context.Parentheses) }
{
    if is_token_of_mark(b')', kind, text) {
        TokenContext::Commands
    } else {
        TokenContext::Parentheses
    }
}

impl TokenContext {
    /// Returns what may stand after a token of this kind and text, and before this rest.
    #[inline(always)]
    pub fn find_context_after_token(self, kind: TokenKind, text: &[u8], rest: &[u8]) -> TokenContext
        ensures { result ≡ context_after_token self kind text.now rest.now }
    {
        match self {
            TokenContext::First(mode) if matches!(kind, TokenKind::Word) && is_include_word(text) =>
                { TokenContext::IncludePath(mode) }
            TokenContext::First(mode) => find_context_after_first_token(mode, kind, text, rest),
            TokenContext::IncludePath(mode) => find_context_after_include_path(mode),
            TokenContext::Words => TokenContext::Words,
            TokenContext::Hosts if is_token_of_mark(b'=', kind, text) => TokenContext::Commands,
            TokenContext::Hosts => TokenContext::Hosts,
            TokenContext::Commands | TokenContext::Digest => {
                find_context_after_command_token(
                    TokenContext::Hosts,
                    TokenContext::Commands,
                    kind,
                    text,
                )
            }
            TokenContext::BehindOption => {
                find_context_after_command_token(
                    TokenContext::Hosts,
                    TokenContext::OptionValue,
                    kind,
                    text,
                )
            }
            TokenContext::OptionValue => find_context_after_option_value(kind, text),
            TokenContext::BehindTag => {
                find_context_after_command_token(
                    TokenContext::Commands,
                    TokenContext::Commands,
                    kind,
                    text,
                )
            }
            TokenContext::BehindDigestKind => {
                find_context_after_command_token(
                    TokenContext::Digest,
                    TokenContext::Commands,
                    kind,
                    text,
                )
            }
            TokenContext::Parentheses if is_token_of_mark(b')', kind, text) =>
                TokenContext::Commands,
            TokenContext::Parentheses => TokenContext::Parentheses,
            TokenContext::Arguments => find_context_after_argument(kind, text),
            TokenContext::QuotedArgument => find_context_in_quoted_argument(kind, text),
            TokenContext::ScopeSign if is_token_of_mark(b'!', kind, text) => TokenContext::Scope(
                ScopeNamesOrCommands::Commands,
            ),
            TokenContext::ScopeSign => TokenContext::Scope(ScopeNamesOrCommands::Names),
            TokenContext::Scope(list) if is_member_token_kind(kind) => TokenContext::BehindMember(
                list,
            ),
            TokenContext::Scope(list) => TokenContext::Scope(list),
            TokenContext::BehindMember(list) if is_token_of_mark(b',', kind, text) =>
                TokenContext::Scope(list),
            TokenContext::BehindMember(_) | TokenContext::Parameter => find_context_after_parameter(
                kind, text,
            ),
            TokenContext::ParameterValue => TokenContext::Parameter,
        }
    }
}
