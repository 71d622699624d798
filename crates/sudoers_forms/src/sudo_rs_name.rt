//! Why sudo-rs refuses a name.

ghost use Rattle.std.specs.Prelude.{◌≡◌, false};
ghost use Rattle.std.specs.List.{list_all};
ghost use Rattle.sudoers_forms.specs.SudoRs.{begins_quoted_name, begins_quoted_user, has_other_byte_of_name, is_byte_of_rs_name, is_escaped_in_rs_name, is_first_byte_of_quoted, is_letter_or_digit, is_users_of_rs, name_behind_group_sign, rs_form_of_bare_name, rs_form_of_group, rs_form_of_host, rs_form_of_name, rs_form_of_quoted_name, rs_form_of_quoted_user, rs_form_of_unsigned_name, rs_form_of_user};

use crate::line_part::LinePart;
use crate::names::content_of_token;
use crate::spelling::{begins_digit, has_byte};
use crate::sudo_rs_form::SudoRsForm;
use sudoers_grammar::begins_with_byte;
use sudoers_text::TokenKind;

/// Returns whether `byte` is a letter or a digit.
fn is_letter_or_digit(byte: u8) -> bool
    ensures { result ≡ is_letter_or_digit byte }
{
    byte.is_ascii_uppercase() || byte.is_ascii_lowercase() || byte.is_ascii_digit()
}

/// Returns whether `byte` stands for itself in a name.
fn is_byte_of_name(byte: u8) -> bool
    ensures { result ≡ is_byte_of_rs_name byte }
{
    is_letter_or_digit(byte) || byte == b'-' || byte == b'.' || byte == b'_'
}

/// Returns whether sudo-rs knows the escape of `byte` in a name.
fn is_escaped_in_name(byte: u8) -> bool
    ensures { result ≡ is_escaped_in_rs_name byte }
{
    byte == b','
        || byte == b':'
        || byte == b'='
        || byte == b'\\'
        || byte == b'!'
        || byte == b'"'
        || byte == b'('
        || byte == b')'
}

/// Returns whether another byte or escape stands in `text`.
fn has_other_byte_of_name(text: &[u8]) -> bool
    ensures { result ≡ has_other_byte_of_name false text.now }
{
    let mut is_escaped = false;
    for byte in text {
        if is_escaped {
            if !is_escaped_in_name(*byte) {
                return true;
            }
            is_escaped = false;
        } else if *byte == b'\\' {
            is_escaped = true;
        } else if !is_byte_of_name(*byte) {
            return true;
        }
    }
    false
}

/// Returns whether each byte of `text` stands for itself in a name.
fn are_bytes_of_name(text: &[u8]) -> bool
    ensures { result ≡ list_all is_byte_of_rs_name text.now }
{
    for byte in text {
        if !is_byte_of_name(*byte) {
            return false;
        }
    }
    true
}

/// Returns the name `text` without the sign of a group.
fn skip_group_sign(text: &[u8]) -> &[u8]
    ensures { result.now ≡ name_behind_group_sign text.now }
{
    match text {
        [b'%', b':', rest @ ..] => rest,
        [b'%', rest @ ..] => rest,
        _ => text,
    }
}

/// Returns why sudo-rs refuses the name `name` of a user or a group, without its sign and without quotes.
fn find_form_of_user(name: &[u8]) -> Option<SudoRsForm>
    ensures { result ≡ rs_form_of_user name.now }
{
    if begins_with_byte(b'_', name) || has_other_byte_of_name(name) {
        Some(SudoRsForm::NameByte)
    } else {
        None
    }
}

/// Returns why sudo-rs refuses the name `text` among groups, without quotes.
fn find_form_of_group(text: &[u8]) -> Option<SudoRsForm>
    ensures { result ≡ rs_form_of_group text.now }
{
    if begins_with_byte(b'%', text) {
        Some(SudoRsForm::GroupSign)
    } else {
        find_form_of_user(text)
    }
}

/// Returns why sudo-rs refuses the host `text`, without quotes.
fn find_form_of_host(text: &[u8]) -> Option<SudoRsForm>
    ensures { result ≡ rs_form_of_host text.now }
{
    if are_bytes_of_name(text) {
        None
    } else {
        Some(SudoRsForm::HostByte)
    }
}

/// Returns whether a user in quotes may begin with `byte`.
fn is_first_byte_of_quoted(byte: u8) -> bool
    ensures { result ≡ is_first_byte_of_quoted byte }
{
    is_letter_or_digit(byte) || has_byte(byte, b"!(),-.:=\\")
}

/// Returns whether `name` begins as a user in quotes without the sign of a group.
fn begins_quoted_name(name: &[u8]) -> bool
    ensures { result ≡ begins_quoted_name name.now }
{
    match name.split_first() {
        Some((first, rest)) => {
            is_first_byte_of_quoted(*first) || (*first == b'#' && begins_digit(rest))
        }
        None => false,
    }
}

/// Returns whether `content` begins as a user in quotes.
fn begins_quoted_user(content: &[u8]) -> bool
    ensures { result ≡ begins_quoted_user content.now }
{
    match content {
        [b'%', b':', ..] => true,
        [b'%', rest @ ..] => begins_quoted_name(rest),
        _ => begins_quoted_name(content),
    }
}

/// Returns why sudo-rs refuses the user `text`, which stands in quotes.
fn find_form_of_quoted_user(text: &[u8]) -> Option<SudoRsForm>
    ensures { result ≡ rs_form_of_quoted_user text.now }
{
    let content = content_of_token(TokenKind::Quoted, text);
    if has_byte(b'\t', text)
        || has_byte(b'\n', text)
        || has_byte(b'"', content)
        || !begins_quoted_user(content)
    {
        Some(SudoRsForm::QuotedUser)
    } else {
        None
    }
}

impl LinePart {
    /// Returns whether users stand in the part.
    pub fn has_users(self) -> bool
        ensures { result ≡ is_users_of_rs self }
    {
        matches!(
            self,
            LinePart::AliasUsers
                | LinePart::Users
                | LinePart::RunasUsers
                | LinePart::RunasAll
                | LinePart::RunasAliases
                | LinePart::UserScope
                | LinePart::RunasScope
        )
    }

    /// Returns why sudo-rs refuses the name `text`, which has no quotes and no `+`.
    fn find_sudo_rs_form_of_bare_name(self, text: &[u8]) -> Option<SudoRsForm>
        ensures { result ≡ rs_form_of_bare_name self text.now }
    {
        if self.has_hosts() {
            find_form_of_host(text)
        } else if self == LinePart::Groups {
            find_form_of_group(text)
        } else {
            find_form_of_user(skip_group_sign(text))
        }
    }

    /// Returns why sudo-rs refuses the name `text`, which stands in quotes and has no `+`.
    fn find_sudo_rs_form_of_quoted_name(self, text: &[u8]) -> Option<SudoRsForm>
        ensures { result ≡ rs_form_of_quoted_name self text.now }
    {
        if self.has_hosts() || self == LinePart::Groups {
            Some(SudoRsForm::QuotedName)
        } else {
            find_form_of_quoted_user(text)
        }
    }

    /// Returns why sudo-rs refuses the name `text`, a token of this kind without `+`.
    fn find_sudo_rs_form_of_unsigned_name(self, kind: TokenKind, text: &[u8]) -> Option<SudoRsForm>
        ensures { result ≡ rs_form_of_unsigned_name self kind text.now }
    {
        if kind == TokenKind::Quoted {
            self.find_sudo_rs_form_of_quoted_name(text)
        } else {
            self.find_sudo_rs_form_of_bare_name(text)
        }
    }

    /// Returns why sudo-rs refuses the name `text`, a token of this kind.
    pub fn find_sudo_rs_form_of_name(self, kind: TokenKind, text: &[u8]) -> Option<SudoRsForm>
        ensures { result ≡ rs_form_of_name self kind text.now }
    {
        if begins_with_byte(b'+', content_of_token(kind, text)) {
            Some(SudoRsForm::Netgroup)
        } else {
            self.find_sudo_rs_form_of_unsigned_name(kind, text)
        }
    }
}
