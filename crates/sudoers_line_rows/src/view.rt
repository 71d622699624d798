//! What lines say, as views of tables.

ghost use Rattle.std.specs.Prelude.{◌≡◌, map, slice_range, option_map};
ghost use Rattle.sudoers_grammar.specs.Grammar.{stop_of_last_member};
ghost use Rattle.sudoers_line_rows.specs.declared.rows.Tables.{Tables as TablesOf};
ghost use Rattle.sudoers_line_rows.specs.Tables.{text_in_tables, args_in_tables, atom_in_tables, digest_in_tables, member_in_tables, members_of_range_in_tables, runas_in_tables, option_in_tables, tag_in_tables, command_in_tables, host_group_in_tables, alias_definition_in_tables, setting_in_tables, parameter_in_tables, scope_in_tables, node_in_tables};
ghost use Rattle.sudoers_line_rows.specs.View.{args_of_view, atom_of_view, digest_of_view, member_of_view, members_of_view, runas_of_view, command_of_view, host_group_of_view, alias_definition_of_view, setting_of_view, parameter_of_view, scope_of_view, node_of_view};

use crate::row_lists::{RowsOfTable, rows_in};
use crate::rows::{
    AliasDefinitionRow, ArgsRow, AtomRow, ByteRange, CommandRow, DigestRow, HostGroupRow,
    MemberRow, NodeRow, OptionRow, ParamRow, RowRange, RunasRow, ScopeRow, SettingRow, Tables,
    TagRow,
};
use sudoers_grammar::{Address, DigestKind, Kind, Mask, Operator};

/// What is said of a command's arguments.
#[derive(Clone, Copy, Debug)]
pub enum BorrowedArgs<'a> {
    /// Nothing: any arguments do.
    Any,
    /// `""`: there are none.
    Nothing,
    /// They match this, joined by single spaces.
    Pattern(&'a [u8]),
}

/// What a member is, its `!` aside. Names are without quotes and escapes, patterns keep the escapes that wildcards need.
#[derive(Clone, Copy, Debug)]
pub enum BorrowedAtom<'a> {
    /// `ALL`
    All,
    /// The name of an alias.
    Alias(&'a [u8]),
    /// A user, or in the groups of a runas part a group, by name.
    Name(&'a [u8]),
    /// The same by number: `#uid`, `#gid`.
    Id(u32),
    /// The users of a group, or there the group: `%group`.
    Group(&'a [u8]),
    /// The same by the group's number: `%#gid`.
    GroupId(u32),
    /// `%:group`
    NonUnix(&'a [u8]),
    /// `+netgroup`
    Netgroup(&'a [u8]),
    /// A host's name, with wildcards.
    Host(&'a [u8]),
    /// A host by its address.
    Address(Address),
    /// The hosts of a network.
    Network(Address, Mask),
    /// The command `list`.
    Listing,
    /// A command or the commands of a directory, with wildcards.
    Path {
        path: &'a [u8],
        args: BorrowedArgs<'a>,
    },
    /// The command `sudoedit`.
    Sudoedit {
        args: BorrowedArgs<'a>,
    },
}

/// A digest of a command's file; of several one is enough (sudoers(5), Digest_Spec).
#[derive(Clone, Copy, Debug)]
pub struct Digest<'a> {
    pub kind: DigestKind,
    pub text: &'a [u8],
}

/// A member of a list: from its first digest, `!` or other token up to its last token's end.
#[derive(Clone, Copy, Debug)]
pub struct Member<'a> {
    pub start: usize,
    pub stop: usize,
    /// An odd number of `!` stands before it.
    pub negated: bool,
    /// The digests of a command; other members have none.
    pub digests: RowsOfTable<'a, DigestRow>,
    pub atom: BorrowedAtom<'a>,
}

/// The users and groups as which a command may be run. A list without members is an absent one (sudoers(5), Runas_Spec).
#[derive(Clone, Copy, Debug)]
pub struct RunasSpec<'a> {
    pub users: RowsOfTable<'a, MemberRow>,
    pub groups: RowsOfTable<'a, MemberRow>,
}

/// A command with what stands before it (sudoers(5), User specification).
#[derive(Clone, Copy, Debug)]
pub struct CmdSpec<'a> {
    pub runas: Option<RunasSpec<'a>>,
    pub options: RowsOfTable<'a, OptionRow>,
    /// Each tag with whether it stands without `NO`.
    pub tags: RowsOfTable<'a, TagRow>,
    pub member: Member<'a>,
}

/// Hosts, and what may be run there (sudoers(5), User specification).
#[derive(Clone, Copy, Debug)]
pub struct HostGroup<'a> {
    pub hosts: RowsOfTable<'a, MemberRow>,
    pub commands: RowsOfTable<'a, CommandRow>,
}

/// A definition of an alias: from its name's first byte up to its last member's end.
#[derive(Clone, Copy, Debug)]
pub struct Def<'a> {
    pub name: &'a [u8],
    pub start: usize,
    pub stop: usize,
    pub members: RowsOfTable<'a, MemberRow>,
}

/// What a parameter is set to.
#[derive(Clone, Copy, Debug)]
pub struct Setting<'a> {
    pub operator: Operator,
    pub value: &'a [u8],
}

/// A parameter of a Defaults line; its value is without quotes and escapes.
#[derive(Clone, Copy, Debug)]
pub struct Param<'a> {
    /// An odd number of `!` stands before the name.
    pub negated: bool,
    pub name: &'a [u8],
    pub setting: Option<Setting<'a>>,
}

/// What a Defaults line is for: `@` hosts, `:` users, `!` commands, `>` runas users (sudoers(5), Defaults).
#[derive(Clone, Copy, Debug)]
pub struct Scope<'a> {
    pub kind: Kind,
    pub members: RowsOfTable<'a, MemberRow>,
}

/// What a line says (sudoers(5), SUDOERS FILE FORMAT).
#[derive(Clone, Copy, Debug)]
pub enum Node<'a> {
    /// Nothing.
    Blank,
    /// A comment alone.
    Comment,
    /// Another file, or all files of a directory, read in this place.
    Include {
        dir: bool,
        path: &'a [u8],
    },
    /// Settings of parameters, for all or for a list of users, runas users, hosts or commands.
    Defaults {
        scope: Option<Scope<'a>>,
        params: RowsOfTable<'a, ParamRow>,
    },
    /// Definitions of aliases of one kind.
    Alias {
        kind: Kind,
        defs: RowsOfTable<'a, AliasDefinitionRow>,
    },
    /// Who may run what, where, and as whom.
    Spec {
        users: RowsOfTable<'a, MemberRow>,
        groups: RowsOfTable<'a, HostGroupRow>,
    },
}

/// Returns where the last of these members ends; 0 of none.
fn stop_of_last_row(members: &[MemberRow]) -> usize
    ensures { (t : TablesOf) → result ≡ stop_of_last_member (map (member_in_tables t) members.now) }
{
    match members.last() {
        Some(last) => last.stop as usize,
        None => 0,
    }
}

impl Tables {
    /// Returns bytes that the tables hold.
    pub fn bytes_of_text_row(&self, text: ByteRange) -> &[u8]
        ensures { result.now ≡ text_in_tables self.now text }
    {
        let ByteRange { from, to } = text;
        rows_in(self.bytes.as_slice(), RowRange { from, to })
    }

    /// Returns the members of a list.
    pub fn members_of_row_range(&self, range: RowRange) -> RowsOfTable<'_, MemberRow>
        ensures { members_of_view result ≡ members_of_range_in_tables self.now range }
    {
        RowsOfTable {
            tables: self,
            rows: rows_in(self.members.as_slice(), range),
        }
    }

    fn args_of_row(&self, args: ArgsRow) -> BorrowedArgs<'_>
        ensures { args_of_view result ≡ args_in_tables self.now args }
    {
        match args {
            ArgsRow::Any => BorrowedArgs::Any,
            ArgsRow::Nothing => BorrowedArgs::Nothing,
            ArgsRow::Pattern(text) => BorrowedArgs::Pattern(self.bytes_of_text_row(text)),
        }
    }

    /// Returns what a member is.
    pub fn atom_of_row(&self, atom: AtomRow) -> BorrowedAtom<'_>
        ensures { atom_of_view result ≡ atom_in_tables self.now atom }
    {
        match atom {
            AtomRow::All => BorrowedAtom::All,
            AtomRow::Alias(name) => BorrowedAtom::Alias(self.bytes_of_text_row(name)),
            AtomRow::Name(name) => BorrowedAtom::Name(self.bytes_of_text_row(name)),
            AtomRow::Id(number) => BorrowedAtom::Id(number),
            AtomRow::Group(name) => BorrowedAtom::Group(self.bytes_of_text_row(name)),
            AtomRow::GroupId(number) => BorrowedAtom::GroupId(number),
            AtomRow::NonUnix(name) => BorrowedAtom::NonUnix(self.bytes_of_text_row(name)),
            AtomRow::Netgroup(name) => BorrowedAtom::Netgroup(self.bytes_of_text_row(name)),
            AtomRow::Host(name) => BorrowedAtom::Host(self.bytes_of_text_row(name)),
            AtomRow::Address(address) => BorrowedAtom::Address(address),
            AtomRow::Network(address, mask) => BorrowedAtom::Network(address, mask),
            AtomRow::Listing => BorrowedAtom::Listing,
            AtomRow::Path { path, args } => BorrowedAtom::Path {
                path: self.bytes_of_text_row(path),
                args: self.args_of_row(args),
            },
            AtomRow::Sudoedit { args } => BorrowedAtom::Sudoedit {
                args: self.args_of_row(args),
            },
        }
    }

    /// Returns a digest of a command.
    pub fn digest_of_row(&self, digest: DigestRow) -> Digest<'_>
        ensures { digest_of_view result ≡ digest_in_tables self.now digest }
    {
        Digest {
            kind: digest.kind,
            text: self.bytes_of_text_row(digest.text),
        }
    }

    /// Returns a member of a list.
    pub fn member_of_row(&self, member: &MemberRow) -> Member<'_>
        ensures { member_of_view result ≡ member_in_tables self.now member.now }
    {
        Member {
            start: member.start as usize,
            stop: member.stop as usize,
            negated: member.negated,
            digests: RowsOfTable {
                tables: self,
                rows: rows_in(self.digests.as_slice(), member.digests),
            },
            atom: self.atom_of_row(member.atom),
        }
    }

    fn runas_of_row(&self, runas: RunasRow) -> RunasSpec<'_>
        ensures { runas_of_view result ≡ runas_in_tables self.now runas }
    {
        RunasSpec {
            users: self.members_of_row_range(runas.users),
            groups: self.members_of_row_range(runas.groups),
        }
    }

    /// Returns a command of a user specification.
    pub fn command_of_row(&self, command: &CommandRow) -> CmdSpec<'_>
        ensures { command_of_view result ≡ command_in_tables self.now command.now }
    {
        let runas = match command.runas {
            Some(runas) => Some(self.runas_of_row(runas)),
            None => None,
        };
        CmdSpec {
            runas,
            options: RowsOfTable {
                tables: self,
                rows: rows_in(self.options.as_slice(), command.options),
            },
            tags: RowsOfTable {
                tables: self,
                rows: rows_in(self.tags.as_slice(), command.tags),
            },
            member: self.member_of_row(&command.member),
        }
    }

    /// Returns hosts with what may be run there.
    pub fn host_group_of_row(&self, group: &HostGroupRow) -> HostGroup<'_>
        ensures { host_group_of_view result ≡ host_group_in_tables self.now group.now }
    {
        HostGroup {
            hosts: self.members_of_row_range(group.hosts),
            commands: RowsOfTable {
                tables: self,
                rows: rows_in(self.commands.as_slice(), group.commands),
            },
        }
    }

    /// Returns a definition of an alias.
    pub fn alias_definition_of_row(&self, def: &AliasDefinitionRow) -> Def<'_>
        ensures { alias_definition_of_view result ≡ alias_definition_in_tables self.now def.now }
    {
        let members = self.members_of_row_range(def.members);
        Def {
            name: self.bytes_of_text_row(def.name),
            start: def.start as usize,
            stop: stop_of_last_row(members.rows),
            members,
        }
    }

    fn setting_of_row(&self, setting: SettingRow) -> Setting<'_>
        ensures { setting_of_view result ≡ setting_in_tables self.now setting }
    {
        Setting {
            operator: setting.operator,
            value: self.bytes_of_text_row(setting.value),
        }
    }

    /// Returns a parameter of a Defaults line.
    pub fn parameter_of_row(&self, param: &ParamRow) -> Param<'_>
        ensures { parameter_of_view result ≡ parameter_in_tables self.now param.now }
    {
        let setting = match param.setting {
            Some(setting) => Some(self.setting_of_row(setting)),
            None => None,
        };
        Param {
            negated: param.negated,
            name: self.bytes_of_text_row(param.name),
            setting,
        }
    }

    fn scope_of_row(&self, scope: ScopeRow) -> Scope<'_>
        ensures { scope_of_view result ≡ scope_in_tables self.now scope }
    {
        Scope {
            kind: scope.kind,
            members: self.members_of_row_range(scope.members),
        }
    }

    /// Returns what a line says.
    pub fn node_of_row(&self, node: &NodeRow) -> Node<'_>
        ensures { node_of_view result ≡ node_in_tables self.now node.now }
    {
        match *node {
            NodeRow::Blank => Node::Blank,
            NodeRow::Comment => Node::Comment,
            NodeRow::Include { dir, path } => Node::Include {
                dir,
                path: self.bytes_of_text_row(path),
            },
            NodeRow::Defaults { scope, params } => {
                let scope = match scope {
                    Some(scope) => Some(self.scope_of_row(scope)),
                    None => None,
                };
                Node::Defaults {
                    scope,
                    params: RowsOfTable {
                        tables: self,
                        rows: rows_in(self.params.as_slice(), params),
                    },
                }
            }
            NodeRow::Alias { kind, defs } => Node::Alias {
                kind,
                defs: RowsOfTable {
                    tables: self,
                    rows: rows_in(self.defs.as_slice(), defs),
                },
            },
            NodeRow::Spec { users, groups } => Node::Spec {
                users: self.members_of_row_range(users),
                groups: RowsOfTable {
                    tables: self,
                    rows: rows_in(self.groups.as_slice(), groups),
                },
            },
        }
    }
}
