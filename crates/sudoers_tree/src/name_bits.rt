//! Bits of names, by which lines are passed over that have no alias of a name.

ghost use Rattle.std.specs.Prelude.{◌≡◌, ◌==◌, ◌∷◌, [], map, option_map};
ghost use Rattle.std.specs.Int.Bits.{bit_and};
ghost use Rattle.std.specs.List.{flat_map};
ghost use Rattle.sudoers_grammar.specs.Node.{Def as DefOf};
ghost use Rattle.sudoers_line_rows.specs.Tables.{member_in_tables, optional_runas_in_tables};
ghost use Rattle.sudoers_line_rows.specs.View.{commands_of_view, alias_definitions_of_view, host_groups_of_view, members_of_view, node_of_view, scope_of_view};
ghost use Rattle.sudoers_tree.specs.NameBits.{bits_of_name};
ghost use Rattle.sudoers_tree.specs.internal.LineBits.{alias_names_in_atom, alias_names_in_command, alias_names_in_host_group, bits_with_names_added, bits_of_alias_names_in as bits_said, alias_names_in_members, alias_names_in_runas, alias_names_in_scope};

use sudoers_line_rows::{
    AliasDefinitionRow, AtomRow, CommandRow, HostGroupRow, MemberRow, Node, RowsOfTable, RunasRow,
    Scope, Tables,
};

/// The bits of all names: a line with them is never passed over.
pub const ALL_NAME_BITS: u64 = u64::MAX;

/// The bits of a name: one or two of 64 bits, by a sum of the name's bytes. Names may share bits.
#[derive(Clone, Copy)]
pub struct NameFilterBits {
    pub set: u64,
}

impl NameFilterBits {
    /// Returns the bits of the name `name`.
    pub fn from_alias_name(name: &[u8]) -> NameFilterBits
        ensures { result.set ≡ bits_of_name name.now }
    {
        let mut sum: u32 = 0;
        for byte in name {
            sum = (sum * 31 + u32::from(*byte)) % 65521;
        }
        NameFilterBits {
            set: 1 << (sum % 64) | 1 << (sum / 64 % 64),
        }
    }

    /// Returns whether `bits` has these bits.
    pub fn are_all_set_in(self, bits: u64) -> bool
        ensures { result ≡ (bit_and bits self.set == self.set) }
    {
        bits & self.set == self.set
    }
}

/// Returns the bits of the names of aliases that stand in a line: those that it defines, and those of its members. The line says `node`.
pub fn alias_name_bits_of_node(node: &Node<'_>) -> u64
    ensures { result ≡ bits_said (node_of_view node.now) }
{
    let mut bits = 0;
    match *node {
        Node::Blank | Node::Comment | Node::Include { .. } => {}
        Node::Defaults { scope, .. } => add_bits_of_scope(&scope, &mut bits),
        Node::Alias { defs, .. } => {
            add_bits_of_defined_names(&defs, &mut bits);
            add_bits_of_definition_members(&defs, &mut bits);
        }
        Node::Spec { users, groups } => {
            add_bits_of_members(&users, &mut bits);
            add_bits_of_host_groups(&groups, &mut bits);
        }
    }
    bits
}

/// Adds the bits of the name `name` to `bits`.
fn add_bits_of_name(name: &[u8], bits: &mut u64)
    ensures { bits.new ≡ bits_with_names_added bits.old (name.now ∷ []) }
{
    *bits |= NameFilterBits::from_alias_name(name).set;
}

/// Adds the bits of the names that `defs` define to `bits`.
fn add_bits_of_defined_names(defs: &RowsOfTable<'_, AliasDefinitionRow>, bits: &mut u64)
    ensures { bits.new ≡ bits_with_names_added bits.old (map (λ (d : DefOf). d.name) (alias_definitions_of_view defs.now)) }
{
    let tables = defs.tables;
    for row in defs.rows {
        add_bits_of_name(tables.bytes_of_text_row(row.name), bits);
    }
}

/// Adds the bits of the aliases among the members of a scope to `bits`.
fn add_bits_of_scope(scope: &Option<Scope<'_>>, bits: &mut u64)
    ensures { bits.new ≡ bits_with_names_added bits.old (alias_names_in_scope (option_map scope_of_view scope.now)) }
{
    if let Some(scope) = scope {
        add_bits_of_members(&scope.members, bits);
    }
}

/// Adds the bits of the aliases among the members of `defs` to `bits`.
#[tactic(auto, using(crate::proofs::AddedBits::bits_of_appended_names_are_added_in_turn))]
fn add_bits_of_definition_members(defs: &RowsOfTable<'_, AliasDefinitionRow>, bits: &mut u64)
    ensures { bits.new ≡ bits_with_names_added bits.old (flat_map (λ (d : DefOf). alias_names_in_members d.members) (alias_definitions_of_view defs.now)) }
{
    let tables = defs.tables;
    for row in defs.rows {
        add_bits_of_members(&tables.members_of_row_range(row.members), bits);
    }
}

/// Adds the bits of the aliases among the hosts and commands of `groups` to `bits`.
#[tactic(auto, using(crate::proofs::AddedBits::bits_of_appended_names_are_added_in_turn))]
fn add_bits_of_host_groups(groups: &RowsOfTable<'_, HostGroupRow>, bits: &mut u64)
    ensures { bits.new ≡ bits_with_names_added bits.old (flat_map alias_names_in_host_group (host_groups_of_view groups.now)) }
{
    let tables = groups.tables;
    for row in groups.rows {
        let group = tables.host_group_of_row(row);
        add_bits_of_members(&group.hosts, bits);
        add_bits_of_commands(&group.commands, bits);
    }
}

/// Adds the bits of the aliases among `commands`, and among those as whom they run, to `bits`.
#[tactic(auto, using(crate::proofs::AddedBits::bits_of_appended_names_are_added_in_turn))]
fn add_bits_of_commands(commands: &RowsOfTable<'_, CommandRow>, bits: &mut u64)
    ensures { bits.new ≡ bits_with_names_added bits.old (flat_map alias_names_in_command (commands_of_view commands.now)) }
{
    let tables = commands.tables;
    for row in commands.rows {
        add_bits_of_runas(tables, row.runas, bits);
        add_bits_of_alias_member(tables, &row.member, bits);
    }
}

/// Adds the bits of the aliases among those as whom a command runs to `bits`.
#[tactic(auto, using(crate::proofs::AddedBits::bits_of_appended_names_are_added_in_turn))]
fn add_bits_of_runas(tables: &Tables, runas: Option<RunasRow>, bits: &mut u64)
    ensures { bits.new ≡ bits_with_names_added bits.old (alias_names_in_runas (optional_runas_in_tables tables.now runas)) }
{
    if let Some(runas) = runas {
        add_bits_of_members(&tables.members_of_row_range(runas.users), bits);
        add_bits_of_members(&tables.members_of_row_range(runas.groups), bits);
    }
}

/// Adds the bits of the aliases among `members` to `bits`.
#[tactic(auto, using(crate::proofs::AddedBits::bits_of_appended_names_are_added_in_turn))]
fn add_bits_of_members(members: &RowsOfTable<'_, MemberRow>, bits: &mut u64)
    ensures { bits.new ≡ bits_with_names_added bits.old (alias_names_in_members (members_of_view members.now)) }
{
    let tables = members.tables;
    for row in members.rows {
        add_bits_of_alias_member(tables, row, bits);
    }
}

/// Adds the bits of the name of the member `row` to `bits`, if it is an alias. Only what is asked for is read of the row.
fn add_bits_of_alias_member(tables: &Tables, row: &MemberRow, bits: &mut u64)
    ensures { bits.new ≡ bits_with_names_added bits.old (alias_names_in_atom (member_in_tables tables.now row.now).atom) }
{
    if let AtomRow::Alias(name) = row.atom {
        add_bits_of_name(tables.bytes_of_text_row(name), bits);
    }
}
