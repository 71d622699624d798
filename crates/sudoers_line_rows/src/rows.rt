//! Rows of tables: what lines say, each list a range of one table.

use sudoers_grammar::{Address, DigestKind, Kind, Mask, Operator, OptionName, Tag};

/// Bytes of the table of bytes.
#[derive(Clone, Copy)]
pub struct ByteRange {
    pub from: u32,
    pub to: u32,
}

/// Rows of one table.
#[derive(Clone, Copy)]
pub struct RowRange {
    pub from: u32,
    pub to: u32,
}

/// No rows.
pub const NONE: RowRange = RowRange { from: 0, to: 0 };

/// The arguments of a command.
#[derive(Clone, Copy)]
pub enum ArgsRow {
    Any,
    Nothing,
    Pattern(ByteRange),
}

/// What a member is.
#[derive(Clone, Copy)]
pub enum AtomRow {
    All,
    Alias(ByteRange),
    Name(ByteRange),
    Id(u32),
    Group(ByteRange),
    GroupId(u32),
    NonUnix(ByteRange),
    Netgroup(ByteRange),
    Host(ByteRange),
    Address(Address),
    Network(Address, Mask),
    Listing,
    Path { path: ByteRange, args: ArgsRow },
    Sudoedit { args: ArgsRow },
}

/// A digest of a command.
#[derive(Clone, Copy)]
pub struct DigestRow {
    pub kind: DigestKind,
    pub text: ByteRange,
}

/// A member of a list.
#[derive(Clone, Copy)]
pub struct MemberRow {
    pub start: u32,
    pub stop: u32,
    pub negated: bool,
    pub digests: RowRange,
    pub atom: AtomRow,
}

/// As whom a command may run.
#[derive(Clone, Copy)]
pub struct RunasRow {
    pub users: RowRange,
    pub groups: RowRange,
}

/// An option of a command.
#[derive(Clone, Copy)]
pub struct OptionRow {
    pub name: OptionName,
    pub value: ByteRange,
}

/// A tag of a command.
#[derive(Clone, Copy)]
pub struct TagRow {
    pub tag: Tag,
    pub on: bool,
}

/// A command of a user specification, with what stands before it.
#[derive(Clone, Copy)]
pub struct CommandRow {
    pub runas: Option<RunasRow>,
    pub options: RowRange,
    pub tags: RowRange,
    pub member: MemberRow,
}

/// Hosts and commands of a user specification.
#[derive(Clone, Copy)]
pub struct HostGroupRow {
    pub hosts: RowRange,
    pub commands: RowRange,
}

/// A definition of an alias. It ends where its last member ends.
#[derive(Clone, Copy)]
pub struct AliasDefinitionRow {
    pub name: ByteRange,
    pub start: u32,
    pub members: RowRange,
}

/// What a parameter is set to.
#[derive(Clone, Copy)]
pub struct SettingRow {
    pub operator: Operator,
    pub value: ByteRange,
}

/// A parameter of a Defaults line.
#[derive(Clone, Copy)]
pub struct ParamRow {
    pub negated: bool,
    pub name: ByteRange,
    pub setting: Option<SettingRow>,
}

/// The scope of a Defaults line.
#[derive(Clone, Copy)]
pub struct ScopeRow {
    pub kind: Kind,
    pub members: RowRange,
}

/// What a line says.
#[derive(Clone, Copy)]
pub enum NodeRow {
    Blank,
    Comment,
    Include {
        dir: bool,
        path: ByteRange,
    },
    Defaults {
        scope: Option<ScopeRow>,
        params: RowRange,
    },
    Alias {
        kind: Kind,
        defs: RowRange,
    },
    Spec {
        users: RowRange,
        groups: RowRange,
    },
}

/// The tables of a policy, one for each sort of row, and one of bytes.
#[derive(Drop)]
pub struct Tables {
    pub bytes: Vec<u8>,
    pub digests: Vec<DigestRow>,
    pub members: Vec<MemberRow>,
    pub options: Vec<OptionRow>,
    pub tags: Vec<TagRow>,
    pub commands: Vec<CommandRow>,
    pub groups: Vec<HostGroupRow>,
    pub defs: Vec<AliasDefinitionRow>,
    pub params: Vec<ParamRow>,
}
