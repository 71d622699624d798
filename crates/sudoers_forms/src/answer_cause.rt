//! Why sudo answers a request otherwise for a token.

ghost use Rattle.std.specs.Prelude.{◌≡◌};
ghost use Rattle.sudoers_forms.specs.Seen.{model_of_judged_token};
ghost use Rattle.sudoers_forms.specs.Answers.{cause_of_argument, cause_of_bare_name, cause_of_group_colon, cause_of_mark, cause_of_name, cause_of_negated_parameter, cause_of_parameter, cause_of_plain_name, cause_of_quoted_name, cause_of_set_parameter, cause_of_sign, cause_of_token, cause_of_token_kind, cause_without_form, has_hosts_of_rules, has_users_of_rules, is_end_of_arguments, is_name_behind, is_scope_of_targets_or_commands, is_sole_empty_argument};

use crate::cause::Cause;
use crate::host_cause::{find_cause_of_host, has_escape_of, has_set_of_others, has_wildcard};
use crate::include_form::has_hex_escape;
use crate::judged_token::JudgedToken;
use crate::line_part::LinePart;
use crate::names::{choose_first_form, content_of_token};
use crate::token_form::is_gap_byte;
use sudoers_text::{TokenKind, is_name};

impl JudgedToken<'_> {
    /// Returns why sudo answers a request otherwise for the token, if it reads it.
    pub fn find_cause(&self) -> Option<Cause>
        ensures { result ≡ cause_of_token (model_of_judged_token self.now) }
    {
        match self.form {
            Some(_) => None,
            None => self.find_cause_of_kind(),
        }
    }

    /// Returns why sudo answers a request otherwise for the token, which it reads.
    fn find_cause_of_kind(&self) -> Option<Cause>
        ensures { result ≡ cause_of_token_kind (model_of_judged_token self.now) self.now.token.kind }
    {
        let token = &self.token;
        match token.kind {
            TokenKind::Word | TokenKind::Quoted | TokenKind::Id => {
                token.part.find_cause_of_name(token.kind, token.text)
            }
            TokenKind::Punct => token.part.find_cause_of_mark(token.before, token.text),
            TokenKind::Digest => Some(Cause::Digest),
            TokenKind::Arg => find_cause_of_argument(token.kind_before, token.rest, token.text),
            TokenKind::Name => token.part.find_cause_of_parameter(token.first, token.text),
            _ => None,
        }
    }
}

impl LinePart {
    /// Returns whether users of rules, aliases or Runas_Specs stand in the part.
    fn has_users_of_rules(self) -> bool
        ensures { result ≡ has_users_of_rules self }
    {
        matches!(
            self,
            LinePart::AliasUsers
                | LinePart::Users
                | LinePart::RunasUsers
                | LinePart::RunasAll
                | LinePart::RunasAliases
        )
    }

    /// Returns whether hosts of rules or aliases stand in the part.
    fn has_hosts_of_rules(self) -> bool
        ensures { result ≡ has_hosts_of_rules self }
    {
        matches!(self, LinePart::AliasHosts | LinePart::Hosts)
    }

    /// Returns whether the part is a scope of targets or commands.
    fn is_scope_of_targets_or_commands(self) -> bool
        ensures { result ≡ is_scope_of_targets_or_commands self }
    {
        matches!(self, LinePart::RunasScope | LinePart::CommandScope)
    }

    /// Returns why sudo has other members for `text` by its sign.
    fn find_cause_of_sign(self, text: &[u8]) -> Option<Cause>
        ensures { result ≡ cause_of_sign self text.now }
    {
        if (self.has_users_of_rules() || self.has_hosts_of_rules()) && is_name_behind(b"+", text) {
            Some(Cause::Netgroup)
        } else if self.has_users_of_rules() && is_name_behind(b"%:", text) {
            Some(Cause::NonUnixGroup)
        } else {
            None
        }
    }

    /// Returns why sudo matches otherwise by the name `text`, which has no quotes and no sign.
    fn find_cause_of_bare_name(self, text: &[u8]) -> Option<Cause>
        ensures { result ≡ cause_of_bare_name self text.now }
    {
        if self.has_hosts_of_rules() {
            find_cause_of_host(text)
        } else if self == LinePart::Groups && is_name(text) && text != b"ALL".as_slice() {
            Some(Cause::GroupAlias)
        } else {
            None
        }
    }

    /// Returns why sudo matches otherwise by `text`, a name in quotes without a sign.
    fn find_cause_of_quoted_name(self, text: &[u8]) -> Option<Cause>
        ensures { result ≡ cause_of_quoted_name self text.now }
    {
        if self.has_hosts_of_rules() {
            if has_wildcard(text) {
                Some(Cause::QuotedWildcard)
            } else {
                None
            }
        } else if (self.has_users_of_rules() || self == LinePart::Groups) && has_hex_escape(text) {
            Some(Cause::QuotedEscape)
        } else {
            None
        }
    }

    /// Returns why sudo matches otherwise by the name `text`, a token of this kind without a sign.
    fn find_cause_of_plain_name(self, kind: TokenKind, text: &[u8]) -> Option<Cause>
        ensures { result ≡ cause_of_plain_name self kind text.now }
    {
        if kind == TokenKind::Quoted {
            self.find_cause_of_quoted_name(text)
        } else {
            self.find_cause_of_bare_name(text)
        }
    }

    /// Returns why sudo matches otherwise by the name `text`, a token of this kind.
    fn find_cause_of_name(self, kind: TokenKind, text: &[u8]) -> Option<Cause>
        ensures { result ≡ cause_of_name self kind text.now }
    {
        choose_first_form(
            self.find_cause_of_sign(content_of_token(kind, text)),
            self.find_cause_of_plain_name(kind, text),
        )
    }

    /// Returns why sudo matches otherwise by the groups of a Runas_Spec whose `:` stands in this part behind `before`.
    fn find_cause_of_group_colon(self, before: &[u8]) -> Option<Cause>
        ensures { result ≡ cause_of_group_colon self before.now }
    {
        match self {
            LinePart::RunasUsers if before == b"(".as_slice() => Some(Cause::GroupAlone),
            LinePart::RunasUsers => Some(Cause::UserBesideGroup),
            LinePart::RunasAliases => Some(Cause::AliasBesideGroup),
            _ => None,
        }
    }

    /// Returns why sudo matches otherwise by the mark `text`, which stands in this part behind `before`.
    fn find_cause_of_mark(self, before: &[u8], text: &[u8]) -> Option<Cause>
        ensures { result ≡ cause_of_mark self before.now text.now }
    {
        if text == b":".as_slice() {
            self.find_cause_of_group_colon(before)
        } else if self == LinePart::RunasUsers
            && before == b"(".as_slice()
            && text == b")".as_slice()
        {
            Some(Cause::EmptyRunas)
        } else {
            None
        }
    }

    /// Returns why sudo answers otherwise by the parameter `text` of this part, in a line that begins with the part `first`.
    fn find_cause_of_parameter(self, first: LinePart, text: &[u8]) -> Option<Cause>
        ensures { result ≡ cause_of_parameter first self text.now }
    {
        if self == LinePart::NegatedParameters {
            find_cause_of_negated_parameter(text)
        } else {
            find_cause_of_set_parameter(first, text)
        }
    }
}

/// Returns whether `text` is a name behind `sign`.
fn is_name_behind(sign: &[u8], text: &[u8]) -> bool
    ensures { result ≡ is_name_behind sign.now text.now }
{
    text.starts_with(sign) && sign.len() < text.len()
}

/// Returns whether no argument follows in `bytes`, which go on behind one.
fn is_end_of_arguments(bytes: &[u8]) -> bool
    ensures { result ≡ is_end_of_arguments bytes.now }
{
    let mut rest = bytes;
    while let Some((first, behind)) = rest.split_first() {
        if !is_gap_byte(*first, behind) {
            return *first == b',' || *first == b':' || *first == b'#';
        }
        rest = behind;
    }
    true
}

/// Returns whether `text` is the one argument `""`, behind a token of the kind `before`. `rest` begins with it.
fn is_sole_empty_argument(before: TokenKind, rest: &[u8], text: &[u8]) -> bool
    ensures { result ≡ is_sole_empty_argument before rest.now text.now }
{
    text == b"\"\"".as_slice()
        && before != TokenKind::Arg
        && is_end_of_arguments(rest.get(2..).unwrap_or(&[]))
}

/// Returns why sudo matches other arguments by `text`, behind a token of the kind `before`. `rest` begins with it.
fn find_cause_of_argument(before: TokenKind, rest: &[u8], text: &[u8]) -> Option<Cause>
    ensures { result ≡ cause_of_argument before rest.now text.now }
{
    if is_sole_empty_argument(before, rest, text) {
        Some(Cause::EmptyArgument)
    } else if has_escape_of(b"\\", text) {
        Some(Cause::TwoBackslashes)
    } else if has_set_of_others(text) {
        Some(Cause::SetInArgument)
    } else {
        None
    }
}

/// Returns why sudo answers otherwise by the parameter `text`, which is on, in a line that begins with the part `first`.
fn find_cause_of_set_parameter(first: LinePart, text: &[u8]) -> Option<Cause>
    ensures { result ≡ cause_of_set_parameter first text.now }
{
    if text == b"requiretty".as_slice() {
        Some(Cause::Terminal)
    } else if text == b"runas_check_shell".as_slice() {
        Some(Cause::Shell)
    } else if text == b"runchroot".as_slice() {
        Some(Cause::OtherRoot)
    } else if text == b"match_group_by_gid".as_slice() {
        Some(Cause::GroupNumbers)
    } else if first.is_scope_of_targets_or_commands() && text == b"runas_default".as_slice() {
        Some(Cause::OtherTarget)
    } else {
        None
    }
}

/// Returns why sudo answers otherwise by the parameter `text`, which is off.
fn find_cause_of_negated_parameter(text: &[u8]) -> Option<Cause>
    ensures { result ≡ cause_of_negated_parameter text.now }
{
    if text == b"case_insensitive_user".as_slice() {
        Some(Cause::CaseOfUsers)
    } else if text == b"case_insensitive_group".as_slice() {
        Some(Cause::CaseOfGroups)
    } else if text == b"root_sudo".as_slice() {
        Some(Cause::RootUser)
    } else {
        None
    }
}
