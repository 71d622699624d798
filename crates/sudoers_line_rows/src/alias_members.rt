//! The aliases that are members of lists.

ghost use Rattle.std.specs.Prelude.{◌≡◌, ◌++◌, map, option_map, IfOk, OnOk};
ghost use Rattle.std.specs.List.{flat_map};
ghost use Rattle.sudoers_grammar.specs.Node.{Def as DefOf};
ghost use Rattle.sudoers_grammar.specs.Listed.{aliases_among_listed, aliases_in_node, alias_member_of_atom, members_listed_as_kind, listed_members_of_command, listed_members_of_host_group, listed_members_of_runas, listed_members_of_scope};
ghost use Rattle.sudoers_line_rows.specs.Tables.{member_in_tables, optional_runas_in_tables};
ghost use Rattle.sudoers_line_rows.specs.View.{commands_of_view, alias_definitions_of_view, host_groups_of_view, members_of_view, node_of_view, scope_of_view};

use crate::row_lists::RowsOfTable;
use crate::rows::{
    AliasDefinitionRow, AtomRow, CommandRow, HostGroupRow, MemberRow, RunasRow, Tables,
};
use crate::view::{Node, Scope};
use std::alloc::{AllocError, Global};
use sudoers_grammar::{AliasMember, Kind};

/// Returns the aliases that are members of lists in what a line says, in the order in which they stand there.
///
/// # Errors
///
/// Want of memory alone.
#[tactic(auto, using(crate::proofs::WalkLaws::aliases_among_appended_lists_are_appended))]
pub fn find_alias_members<'a>(
    alloc: Global,
    node: &Node<'a>,
) -> Result<Vec<AliasMember<'a>>, AllocError>
    ensures { IfOk result (λ found. found.items ≡ aliases_in_node (node_of_view node.now)) }
{
    let mut found = Vec::new(alloc);
    match *node {
        Node::Blank | Node::Comment | Node::Include { .. } => {}
        Node::Defaults { scope, .. } => append_aliases_of_scope(&scope, &mut found)?,
        Node::Alias { kind, defs } => append_aliases_of_definitions(kind, &defs, &mut found)?,
        Node::Spec { users, groups } => {
            append_aliases_of_list(Kind::User, &users, &mut found)?;
            append_aliases_of_host_groups(&groups, &mut found)?;
        }
    }
    Ok(found)
}

/// Returns the aliases that are members of a list of this kind, in the order in which they stand there.
///
/// # Errors
///
/// Want of memory alone.
pub fn find_aliases_in_list<'a>(
    alloc: Global,
    kind: Kind,
    members: &RowsOfTable<'a, MemberRow>,
) -> Result<Vec<AliasMember<'a>>, AllocError>
    ensures { IfOk result (λ found. found.items ≡ aliases_among_listed (members_listed_as_kind kind (members_of_view members.now))) }
{
    let mut found = Vec::new(alloc);
    append_aliases_of_list(kind, members, &mut found)?;
    Ok(found)
}

fn append_aliases_of_scope<'a>(
    scope: &Option<Scope<'a>>,
    found: &mut Vec<AliasMember<'a>>,
) -> Result<(), AllocError>
    ensures { OnOk result (found.new.items ≡ found.old.items ++ aliases_among_listed (listed_members_of_scope (option_map scope_of_view scope.now))) }
{
    match scope {
        Some(scope) => append_aliases_of_list(scope.kind, &scope.members, found),
        None => Ok(()),
    }
}

#[tactic(auto, using(crate::proofs::WalkLaws::aliases_among_appended_lists_are_appended))]
fn append_aliases_of_definitions<'a>(
    kind: Kind,
    defs: &RowsOfTable<'a, AliasDefinitionRow>,
    found: &mut Vec<AliasMember<'a>>,
) -> Result<(), AllocError>
    ensures { OnOk result (found.new.items ≡ found.old.items
        ++ aliases_among_listed (flat_map (λ (d : DefOf). members_listed_as_kind kind d.members) (alias_definitions_of_view defs.now))) }
{
    let tables = defs.tables;
    for row in defs.rows {
        append_aliases_of_list(kind, &tables.members_of_row_range(row.members), found)?;
    }
    Ok(())
}

#[tactic(auto, using(crate::proofs::WalkLaws::aliases_among_appended_lists_are_appended))]
fn append_aliases_of_host_groups<'a>(
    groups: &RowsOfTable<'a, HostGroupRow>,
    found: &mut Vec<AliasMember<'a>>,
) -> Result<(), AllocError>
    ensures { OnOk result (found.new.items ≡ found.old.items ++ aliases_among_listed (flat_map listed_members_of_host_group (host_groups_of_view groups.now))) }
{
    let tables = groups.tables;
    for row in groups.rows {
        let group = tables.host_group_of_row(row);
        append_aliases_of_list(Kind::Host, &group.hosts, found)?;
        append_aliases_of_commands(&group.commands, found)?;
    }
    Ok(())
}

#[tactic(auto, using(crate::proofs::WalkLaws::aliases_among_appended_lists_are_appended))]
fn append_aliases_of_commands<'a>(
    commands: &RowsOfTable<'a, CommandRow>,
    found: &mut Vec<AliasMember<'a>>,
) -> Result<(), AllocError>
    ensures { OnOk result (found.new.items ≡ found.old.items ++ aliases_among_listed (flat_map listed_members_of_command (commands_of_view commands.now))) }
{
    let tables = commands.tables;
    for row in commands.rows {
        append_aliases_of_runas(tables, row.runas, found)?;
        append_alias_of_member(tables, Kind::Cmnd, &row.member, found)?;
    }
    Ok(())
}

#[tactic(auto, using(crate::proofs::WalkLaws::aliases_among_appended_lists_are_appended))]
fn append_aliases_of_runas<'a>(
    tables: &'a Tables,
    runas: Option<RunasRow>,
    found: &mut Vec<AliasMember<'a>>,
) -> Result<(), AllocError>
    ensures { OnOk result (found.new.items ≡ found.old.items ++ aliases_among_listed (listed_members_of_runas (optional_runas_in_tables tables.now runas))) }
{
    if let Some(runas) = runas {
        append_aliases_of_list(
            Kind::Runas,
            &tables.members_of_row_range(runas.users),
            found,
        )?;
        append_aliases_of_list(
            Kind::Runas,
            &tables.members_of_row_range(runas.groups),
            found,
        )?;
    }
    Ok(())
}

fn append_aliases_of_list<'a>(
    kind: Kind,
    members: &RowsOfTable<'a, MemberRow>,
    found: &mut Vec<AliasMember<'a>>,
) -> Result<(), AllocError>
    ensures { OnOk result (found.new.items ≡ found.old.items ++ aliases_among_listed (members_listed_as_kind kind (members_of_view members.now))) }
{
    let tables = members.tables;
    for row in members.rows {
        append_alias_of_member(tables, kind, row, found)?;
    }
    Ok(())
}

/// Appends the alias that the member `row` of a list of `kind` is, if it is one. Only what is asked for is read of the row.
fn append_alias_of_member<'a>(
    tables: &'a Tables,
    kind: Kind,
    row: &MemberRow,
    found: &mut Vec<AliasMember<'a>>,
) -> Result<(), AllocError>
    ensures { OnOk result (found.new.items ≡ found.old.items ++ alias_member_of_atom kind (member_in_tables tables.now row.now) (member_in_tables tables.now row.now).atom) }
{
    if let AtomRow::Alias(name) = row.atom {
        found.push(AliasMember {
            kind,
            name: tables.bytes_of_text_row(name),
            stop: row.stop as usize,
        })?;
    }
    Ok(())
}
