//! A token with its text, and what it alone says.

ghost use Rattle.std.specs.Prelude.{◌≡◌, ◌==◌, if◌then◌else◌, nat_eq, ℕ, length, List, codes, Option, Some, None};
ghost use Rattle.std.specs.List.{starts_with};
ghost use Rattle.sudoers_text.specs.Word.{is_name};
ghost use Rattle.sudoers_text.specs.Token.{IsTokenWithinLine};
ghost use Rattle.sudoers_grammar.specs.Piece.{TokenWithBytes, token_with_bytes, begins_line_end_or_nothing, is_punct, is_word, is_quoted, is_arg, is_digest, is_parameter_name_kind, is_value, is_comment, is_bad, is_mark_of_byte, is_given_word, is_alias_name, alias_kinds_by_keyword, alias_kind_of_token, include_is_dir_by_word, include_is_dir_of_token, options_by_name, option_of_token, tags_by_word, tag_and_sign_of_word, tag_and_sign_of_token, digest_kinds_by_word, digest_kind_of_token, operator_of_token, scope_kind_of_sign_token_after, value_of_matching_row, meaning_of_token_word, has_first_byte, has_last_byte, has_byte};
ghost use Rattle.sudoers_grammar.specs.Grammar.{is_defaults};
ghost use Rattle.sudoers_grammar.specs.Seen.{model_of_token_part};

use crate::marks::{list_kind_of_scope_sign, operator_of_mark};
use crate::node::{DigestKind, Kind, Operator, OptionName, Tag};
use sudoers_text::{Token, TokenKind, begins_line_end, is_name};

/// A token and the text that it covers.
#[derive(Clone, Copy)]
pub struct TokenWithText<'a> {
    pub kind: TokenKind,
    pub text: &'a [u8],
    pub start: usize,
    pub stop: usize,
    /// Behind it the line ends.
    pub last: bool,
}

/// Returns whether nothing is left, or a line end comes. Most bytes are above those of a line end.
#[inline(always)]
fn is_empty_or_begins_line_end(rest: &[u8]) -> bool
    ensures { result ≡ begins_line_end_or_nothing rest.now }
{
    match rest {
        [] => true,
        [byte, ..] => *byte <= b'\r' && begins_line_end(rest),
    }
}

/// Returns a token with its text.
pub fn add_text_to_token<'a>(line: &'a [u8], token: &Token) -> TokenWithText<'a>
    requires { IsTokenWithinLine (length line.now) token.now }
    ensures { model_of_token_part result ≡ token_with_bytes line.now token.now }
{
    TokenWithText {
        kind: token.kind,
        text: &line[token.start..token.stop],
        start: token.start,
        stop: token.stop,
        last: is_empty_or_begins_line_end(&line[token.stop..]),
    }
}

/// Returns whether the byte begins the text.
pub fn begins_with_byte(byte: u8, text: &[u8]) -> bool
    ensures { result ≡ has_first_byte byte text.now }
{
    match text {
        [first, ..] => *first == byte,
        [] => false,
    }
}

/// Returns whether the text ends with the byte.
pub fn ends_with_byte(byte: u8, text: &[u8]) -> bool
    ensures { result ≡ has_last_byte byte text.now }
{
    match text.last() {
        Some(last) => *last == byte,
        None => false,
    }
}

/// Returns whether the byte stands in the text.
pub fn has_byte(byte: u8, text: &[u8]) -> bool
    ensures { result ≡ has_byte byte text.now }
{
    text.iter().any(|b| *b == byte)
}

/// Returns the kind of alias that the word begins a line of.
fn alias_kind_of_keyword(word: &[u8]) -> Option<Kind>
    ensures { result ≡ value_of_matching_row alias_kinds_by_keyword word.now }
{
    if word == b"User_Alias".as_slice() {
        Some(Kind::User)
    } else if word == b"Runas_Alias".as_slice() {
        Some(Kind::Runas)
    } else if word == b"Host_Alias".as_slice() {
        Some(Kind::Host)
    } else if word == b"Cmnd_Alias".as_slice() || word == b"Cmd_Alias".as_slice() {
        Some(Kind::Cmnd)
    } else {
        None
    }
}

/// Returns whether the word begins an include, of a directory or not.
fn include_is_dir_of_word(word: &[u8]) -> Option<bool>
    ensures { result ≡ value_of_matching_row include_is_dir_by_word word.now }
{
    if word == b"#include".as_slice() {
        Some(false)
    } else if word == b"#includedir".as_slice() {
        Some(true)
    } else if word == b"@include".as_slice() {
        Some(false)
    } else if word == b"@includedir".as_slice() {
        Some(true)
    } else {
        None
    }
}

/// Returns the option that the word names.
fn option_of_word(word: &[u8]) -> Option<OptionName>
    ensures { result ≡ value_of_matching_row options_by_name word.now }
{
    if word == b"ROLE".as_slice() {
        Some(OptionName::Role)
    } else if word == b"TYPE".as_slice() {
        Some(OptionName::Type)
    } else if word == b"APPARMOR_PROFILE".as_slice() {
        Some(OptionName::ApparmorProfile)
    } else if word == b"PRIVS".as_slice() {
        Some(OptionName::Privs)
    } else if word == b"LIMITPRIVS".as_slice() {
        Some(OptionName::Limitprivs)
    } else if word == b"NOTBEFORE".as_slice() {
        Some(OptionName::Notbefore)
    } else if word == b"NOTAFTER".as_slice() {
        Some(OptionName::Notafter)
    } else if word == b"TIMEOUT".as_slice() {
        Some(OptionName::Timeout)
    } else if word == b"CWD".as_slice() {
        Some(OptionName::Cwd)
    } else if word == b"CHROOT".as_slice() {
        Some(OptionName::Chroot)
    } else {
        None
    }
}

/// Returns the tag that the word is without `NO`.
fn tag_of_word_without_no(word: &[u8]) -> Option<Tag>
    ensures { result ≡ value_of_matching_row tags_by_word word.now }
{
    if word == b"EXEC".as_slice() {
        Some(Tag::Exec)
    } else if word == b"FOLLOW".as_slice() {
        Some(Tag::Follow)
    } else if word == b"INTERCEPT".as_slice() {
        Some(Tag::Intercept)
    } else if word == b"LOG_INPUT".as_slice() {
        Some(Tag::LogInput)
    } else if word == b"LOG_OUTPUT".as_slice() {
        Some(Tag::LogOutput)
    } else if word == b"MAIL".as_slice() {
        Some(Tag::Mail)
    } else if word == b"PASSWD".as_slice() {
        Some(Tag::Passwd)
    } else if word == b"SETENV".as_slice() {
        Some(Tag::Setenv)
    } else {
        None
    }
}

/// Returns the tag that the word is, and whether it stands without `NO`.
fn signed_tag_of_word(word: &[u8]) -> Option<(Tag, bool)>
    ensures { result ≡ tag_and_sign_of_word word.now }
{
    if word.starts_with(b"NO") {
        match tag_of_word_without_no(&word[2..]) {
            Some(tag) => Some((tag, false)),
            None => None,
        }
    } else {
        match tag_of_word_without_no(word) {
            Some(tag) => Some((tag, true)),
            None => None,
        }
    }
}

/// Returns how a digest behind the word is computed.
fn digest_kind_of_word(word: &[u8]) -> Option<DigestKind>
    ensures { result ≡ value_of_matching_row digest_kinds_by_word word.now }
{
    if word == b"sha224".as_slice() {
        Some(DigestKind::Sha224)
    } else if word == b"sha256".as_slice() {
        Some(DigestKind::Sha256)
    } else if word == b"sha384".as_slice() {
        Some(DigestKind::Sha384)
    } else if word == b"sha512".as_slice() {
        Some(DigestKind::Sha512)
    } else {
        None
    }
}

impl TokenWithText<'_> {
    /// Returns whether the token is a word.
    pub fn is_word(&self) -> bool
        ensures { result ≡ is_word self.now.kind }
    {
        matches!(self.kind, TokenKind::Word)
    }

    /// Returns whether the token is in quotes.
    pub fn is_quoted(&self) -> bool
        ensures { result ≡ is_quoted self.now.kind }
    {
        matches!(self.kind, TokenKind::Quoted)
    }

    /// Returns whether the token is a mark or a sign.
    fn is_punct(&self) -> bool
        ensures { result ≡ is_punct self.now.kind }
    {
        matches!(self.kind, TokenKind::Punct)
    }

    /// Returns whether the token is an argument of a command.
    pub fn is_arg(&self) -> bool
        ensures { result ≡ is_arg self.now.kind }
    {
        matches!(self.kind, TokenKind::Arg)
    }

    /// Returns whether the token is a digest.
    pub fn is_digest(&self) -> bool
        ensures { result ≡ is_digest self.now.kind }
    {
        matches!(self.kind, TokenKind::Digest)
    }

    /// Returns whether the token is the name of a parameter.
    pub fn is_parameter_name(&self) -> bool
        ensures { result ≡ is_parameter_name_kind self.now.kind }
    {
        matches!(self.kind, TokenKind::Name)
    }

    /// Returns whether the token is the value of a parameter.
    pub fn is_value(&self) -> bool
        ensures { result ≡ is_value self.now.kind }
    {
        matches!(self.kind, TokenKind::Value)
    }

    /// Returns whether the token is a comment.
    pub fn is_comment(&self) -> bool
        ensures { result ≡ is_comment self.now.kind }
    {
        matches!(self.kind, TokenKind::Comment)
    }

    /// Returns whether the token is bad: no piece begins at its place.
    pub fn is_bad(&self) -> bool
        ensures { result ≡ is_bad self.now.kind }
    {
        matches!(self.kind, TokenKind::Bad)
    }

    /// Returns whether the token is the mark `byte`.
    #[tactic(auto, unfolding(crate::specs::Piece::is_mark_of_byte))]
    #[inline(always)]
    pub fn is_punct_mark(&self, byte: u8) -> bool
        ensures { result ≡ is_mark_of_byte byte (model_of_token_part self.now) }
    {
        self.is_punct() && self.text == [byte].as_slice()
    }

    /// Returns whether the token is the word `Defaults`.
    #[tactic(auto, unfolding(crate::specs::Piece::is_given_word))]
    #[inline(always)]
    pub fn is_defaults_word(&self) -> bool
        ensures { result ≡ is_defaults (model_of_token_part self.now) }
    {
        self.is_word() && self.text == b"Defaults".as_slice()
    }

    /// Returns whether the token is a name that an alias can have.
    #[tactic(auto, unfolding(crate::specs::Piece::is_alias_name))]
    #[inline(always)]
    pub fn is_alias_name(&self) -> bool
        ensures { result ≡ is_alias_name (model_of_token_part self.now) }
    {
        self.is_word() && is_name(self.text)
    }

    /// Returns the kind of the aliases that a line defines which begins with the token.
    #[tactic(auto, unfolding(crate::specs::Piece::alias_kind_of_token))]
    #[inline(always)]
    pub fn alias_kind(&self) -> Option<Kind>
        ensures { result ≡ alias_kind_of_token (model_of_token_part self.now) }
    {
        if self.is_word() {
            alias_kind_of_keyword(self.text)
        } else {
            None
        }
    }

    /// Returns whether the include that the token begins is of a directory; nothing if it begins no include.
    #[tactic(auto, unfolding(crate::specs::Piece::include_is_dir_of_token))]
    #[inline(always)]
    pub fn include_is_dir(&self) -> Option<bool>
        ensures { result ≡ include_is_dir_of_token (model_of_token_part self.now) }
    {
        if self.is_word() {
            include_is_dir_of_word(self.text)
        } else {
            None
        }
    }

    /// Returns the option that the token names.
    #[tactic(auto, unfolding(crate::specs::Piece::option_of_token))]
    #[inline(always)]
    pub fn option_name(&self) -> Option<OptionName>
        ensures { result ≡ option_of_token (model_of_token_part self.now) }
    {
        if self.is_word() {
            option_of_word(self.text)
        } else {
            None
        }
    }

    /// Returns the tag that the token is, and whether it stands without `NO`.
    #[tactic(auto, unfolding(crate::specs::Piece::tag_and_sign_of_token))]
    #[inline(always)]
    pub fn tag_with_sign(&self) -> Option<(Tag, bool)>
        ensures { result ≡ tag_and_sign_of_token (model_of_token_part self.now) }
    {
        if self.is_word() {
            signed_tag_of_word(self.text)
        } else {
            None
        }
    }

    /// Returns the algorithm that the token names for the digest behind it.
    #[tactic(auto, unfolding(crate::specs::Piece::digest_kind_of_token))]
    #[inline(always)]
    pub fn digest_kind(&self) -> Option<DigestKind>
        ensures { result ≡ digest_kind_of_token (model_of_token_part self.now) }
    {
        if self.is_word() {
            digest_kind_of_word(self.text)
        } else {
            None
        }
    }

    /// Returns the operator that the token is.
    #[tactic(auto, unfolding(crate::specs::Piece::operator_of_token))]
    #[inline(always)]
    pub fn operator(&self) -> Option<Operator>
        ensures { result ≡ operator_of_token (model_of_token_part self.now) }
    {
        if self.is_punct() {
            operator_of_mark(self.text)
        } else {
            None
        }
    }

    /// Returns the kind of the scope of which the token is the sign, directly behind a word that ends at the byte `stop`.
    #[tactic(auto, unfolding(crate::specs::Piece::scope_kind_of_sign_token_after))]
    pub fn scope_kind_of_sign_after(&self, stop: usize) -> Option<Kind>
        ensures { result ≡ scope_kind_of_sign_token_after stop (model_of_token_part self.now) }
    {
        if self.is_punct() && self.start == stop {
            list_kind_of_scope_sign(self.text)
        } else {
            None
        }
    }
}
