//! What one line of a policy says.

use crate::token_text::TokenText;

/// The kind of an alias, and of the members of a list (sudoers(5), Aliases).
#[derive(Clone, Copy, Debug, PartialEq, Eq)]
pub enum Kind {
    User,
    Runas,
    Host,
    Cmnd,
}

/// How a parameter is set.
#[derive(Clone, Copy, Debug, PartialEq, Eq)]
pub enum Operator {
    /// `=`
    Set,
    /// `+=`
    Add,
    /// `-=`
    Remove,
}

/// The options of a command (sudoers(5), Option_Spec).
#[derive(Clone, Copy, Debug, PartialEq, Eq)]
pub enum OptionName {
    Role,
    Type,
    ApparmorProfile,
    Privs,
    Limitprivs,
    Notbefore,
    Notafter,
    Timeout,
    Cwd,
    Chroot,
}

/// The tags of a command (sudoers(5), Tag_Spec).
#[derive(Clone, Copy, Debug, PartialEq, Eq)]
pub enum Tag {
    Exec,
    Follow,
    Intercept,
    LogInput,
    LogOutput,
    Mail,
    Passwd,
    Setenv,
}

/// How a digest is computed.
#[derive(Clone, Copy, Debug, PartialEq, Eq)]
pub enum DigestKind {
    Sha224,
    Sha256,
    Sha384,
    Sha512,
}

/// What a member is, its `!` aside. Names are without quotes and escapes, patterns keep the escapes that wildcards need.
#[derive(Drop)]
pub enum Atom<'a> {
    /// `ALL`
    All,
    /// The name of an alias.
    Alias(TokenText<'a>),
    /// A user, or in the groups of a runas part a group, by name.
    Name(TokenText<'a>),
    /// The same by number: `#uid`, `#gid`.
    Id(u32),
    /// The users of a group, or there the group: `%group`.
    Group(TokenText<'a>),
    /// The same by the group's number: `%#gid`.
    GroupId(u32),
    /// `%:group`
    NonUnix(TokenText<'a>),
    /// `+netgroup`
    Netgroup(TokenText<'a>),
    /// A host's name, with wildcards.
    Host(TokenText<'a>),
    /// A host by its address.
    Address(Address),
    /// The hosts of a network.
    Network(Address, Mask),
    /// The command `list`.
    Listing,
    /// A command or the commands of a directory, with wildcards.
    Path { path: TokenText<'a>, args: Args<'a> },
    /// The command `sudoedit`.
    Sudoedit { args: Args<'a> },
}

/// An IPv4 address as a number, the first part highest.
#[derive(Clone, Copy, Debug, PartialEq, Eq)]
pub struct Address {
    pub number: u32,
}

/// A network's mask as it was written.
#[derive(Clone, Copy, Debug, PartialEq, Eq)]
pub enum Mask {
    /// How many bits count, 0 to 32.
    Bits(u8),
    Dotted(Address),
}

/// What is said of a command's arguments.
#[derive(Drop)]
pub enum Args<'a> {
    /// Nothing: any arguments do.
    Any,
    /// `""`: there are none.
    Nothing,
    /// They match this, joined by single spaces.
    Pattern(TokenText<'a>),
}
