//! The parts of a line in which its tokens stand.

ghost use Rattle.std.specs.Prelude.{◌≡◌};
ghost use Rattle.sudoers_line_rows.specs.View.{node_of_view};
ghost use Rattle.sudoers_forms.specs.Parts.{first_part, first_part_of_alias, first_part_of_scope, is_member_kind, is_scope, part_after_command_mark, part_after_command_token, part_after_command_word, part_after_parameter_token, part_after_runas_token, part_after_token, part_of_token};
ghost use Rattle.sudoers_forms.specs.Forms.{is_parameters};

use crate::include_form::has_host_mark;
use crate::words::{is_digest_kind, is_option, is_tag_word};
use sudoers_grammar::Kind;
use sudoers_line_rows::Node;
use sudoers_text::{TokenKind, is_name};

/// The part of a line in which a token stands.
#[derive(Clone, Copy, PartialEq, Eq)]
pub enum LinePart {
    /// Aliases of users and of runas users.
    AliasUsers,
    /// Aliases of hosts.
    AliasHosts,
    /// The users of a rule.
    Users,
    /// The hosts of a rule; the name of an alias of commands.
    Hosts,
    /// The users of a Runas_Spec.
    RunasUsers,
    /// The same behind `ALL`.
    RunasAll,
    /// The same behind an alias.
    RunasAliases,
    /// The groups of a Runas_Spec.
    Groups,
    /// Commands, with what stands before them.
    Commands,
    /// Directly behind the name of an option.
    OptionName,
    /// The value of an option.
    OptionValue,
    /// Directly behind a tag or a kind of digest.
    TagOrDigestKind,
    /// The users of Defaults.
    UserScope,
    /// The users as whom commands of Defaults run.
    RunasScope,
    /// The hosts of Defaults.
    HostScope,
    /// The commands of Defaults.
    CommandScope,
    /// Parameters of Defaults.
    Parameters,
    /// The same behind an odd number of `!`.
    NegatedParameters,
    /// An include line.
    IncludeLine,
    /// An include line whose name has `%h`.
    HostIncludeLine,
}

/// Returns the part in which a line begins that says `node`.
pub fn find_first_part(node: &Node<'_>) -> LinePart
    ensures { result ≡ first_part (node_of_view node.now) }
{
    match node {
        Node::Defaults {
            scope: Some(scope),
            ..
        } => find_first_part_of_scope(scope.kind),
        Node::Defaults { scope: None, .. } => LinePart::Parameters,
        Node::Alias { kind, .. } => find_first_part_of_alias(*kind),
        Node::Include { path, .. } if has_host_mark(path) => LinePart::HostIncludeLine,
        Node::Include { .. } => LinePart::IncludeLine,
        _ => LinePart::Users,
    }
}

/// Returns the part in which a line of aliases of this kind begins.
fn find_first_part_of_alias(kind: Kind) -> LinePart
    ensures { result ≡ first_part_of_alias kind }
{
    match kind {
        Kind::User | Kind::Runas => LinePart::AliasUsers,
        Kind::Host => LinePart::AliasHosts,
        Kind::Cmnd => LinePart::Hosts,
    }
}

/// Returns the part in which a line of Defaults begins whose scope is of this kind.
fn find_first_part_of_scope(kind: Kind) -> LinePart
    ensures { result ≡ first_part_of_scope kind }
{
    match kind {
        Kind::User => LinePart::UserScope,
        Kind::Runas => LinePart::RunasScope,
        Kind::Host => LinePart::HostScope,
        Kind::Cmnd => LinePart::CommandScope,
    }
}

/// Returns whether a token of this kind is a member of a list.
pub fn is_member_kind(kind: TokenKind) -> bool
    ensures { result ≡ is_member_kind kind }
{
    matches!(
        kind,
        TokenKind::Word | TokenKind::Quoted | TokenKind::Id | TokenKind::Path
    )
}

impl LinePart {
    /// Returns whether the part is a scope of Defaults.
    pub fn is_scope(self) -> bool
        ensures { result ≡ is_scope self }
    {
        matches!(
            self,
            LinePart::UserScope
                | LinePart::RunasScope
                | LinePart::HostScope
                | LinePart::CommandScope
        )
    }

    /// Returns whether parameters of Defaults stand in the part.
    pub fn has_parameters(self) -> bool
        ensures { result ≡ is_parameters self }
    {
        matches!(self, LinePart::Parameters | LinePart::NegatedParameters)
    }

    /// Returns the part of the token `text`, behind a token of the kind `before` and another one before that.
    pub fn find_part_of_token(
        self,
        second_before: &[u8],
        before: TokenKind,
        text: &[u8],
    ) -> LinePart
        ensures { result ≡ part_of_token self second_before.now before text.now }
    {
        if !is_member_kind(before) || text == b",".as_slice() {
            self
        } else if self == LinePart::Users {
            LinePart::Hosts
        } else if self.is_scope() && !second_before.is_empty() {
            LinePart::Parameters
        } else {
            self
        }
    }

    /// Returns the part behind a token of this kind and text, which stands in this part.
    pub fn find_part_after_token(self, kind: TokenKind, text: &[u8]) -> LinePart
        ensures { result ≡ part_after_token self kind text.now }
    {
        match self {
            LinePart::Hosts if text == b"=".as_slice() => LinePart::Commands,
            LinePart::RunasUsers => find_part_after_runas_token(
                LinePart::RunasAll,
                LinePart::RunasUsers,
                text,
            ),
            LinePart::RunasAll => find_part_after_runas_token(
                LinePart::RunasAll,
                LinePart::RunasAll,
                text,
            ),
            LinePart::RunasAliases => find_part_after_runas_token(
                LinePart::RunasAliases,
                LinePart::RunasAliases,
                text,
            ),
            LinePart::Groups if text == b")".as_slice() => LinePart::Commands,
            LinePart::Commands => find_part_after_command_token(kind, text),
            LinePart::OptionName => LinePart::OptionValue,
            LinePart::OptionValue | LinePart::TagOrDigestKind => LinePart::Commands,
            LinePart::Parameters => find_part_after_parameter_token(
                LinePart::NegatedParameters,
                text,
            ),
            LinePart::NegatedParameters => find_part_after_parameter_token(
                LinePart::Parameters,
                text,
            ),
            part => part,
        }
    }
}

/// Returns the part behind the token `text` among users of a Runas_Spec: `all` behind `ALL`, and `other` behind a user that is no alias.
fn find_part_after_runas_token(all: LinePart, other: LinePart, text: &[u8]) -> LinePart
    ensures { result ≡ part_after_runas_token all other text.now }
{
    if text == b":".as_slice() {
        LinePart::Groups
    } else if text == b")".as_slice() {
        LinePart::Commands
    } else if text == b"ALL".as_slice() {
        all
    } else if is_name(text) {
        LinePart::RunasAliases
    } else {
        other
    }
}

/// Returns the part behind the token `text` among parameters: `marked` behind `!`.
fn find_part_after_parameter_token(marked: LinePart, text: &[u8]) -> LinePart
    ensures { result ≡ part_after_parameter_token marked text.now }
{
    if text == b"!".as_slice() {
        marked
    } else {
        LinePart::Parameters
    }
}

/// Returns the part behind a token of this kind and text among commands.
fn find_part_after_command_token(kind: TokenKind, text: &[u8]) -> LinePart
    ensures { result ≡ part_after_command_token kind text.now }
{
    match kind {
        TokenKind::Punct => find_part_after_command_mark(text),
        TokenKind::Word => find_part_after_command_word(text),
        _ => LinePart::Commands,
    }
}

/// Returns the part behind a mark among commands.
fn find_part_after_command_mark(text: &[u8]) -> LinePart
    ensures { result ≡ part_after_command_mark text.now }
{
    if text == b"(".as_slice() {
        LinePart::RunasUsers
    } else if text == b":".as_slice() {
        LinePart::Hosts
    } else {
        LinePart::Commands
    }
}

/// Returns the part behind a word among commands.
fn find_part_after_command_word(text: &[u8]) -> LinePart
    ensures { result ≡ part_after_command_word text.now }
{
    if is_option(text) {
        LinePart::OptionName
    } else if is_tag_word(text) || is_digest_kind(text) {
        LinePart::TagOrDigestKind
    } else {
        LinePart::Commands
    }
}
