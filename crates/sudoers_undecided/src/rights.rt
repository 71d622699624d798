//! The members that were not decided where the rights of a user are listed.

ghost use Rattle.std.specs.Prelude.{◌≡◌, IfOk, OnOk};
ghost use Rattle.sudoers_line_rows.specs.View.{host_groups_of_view, node_of_view};
ghost use Rattle.sudoers_match.specs.Specs.{user_specs_of_lines};
ghost use Rattle.sudoers_match_member.specs.declared.request.Request.{Request as RequestOf};
ghost use Rattle.sudoers_undecided.specs.FoundMembers.{AreUndecidedMembersOfRights, HasEachAtomOfRights};
ghost use Rattle.sudoers_undecided.specs.internal.Counted.{AreHostAliases, AreUserAliases};
ghost use Rattle.sudoers_undecided.specs.internal.Decided.{DecidesAllAliases};
ghost use Rattle.sudoers_undecided.specs.internal.Rights.{AddsListOfNode, AddsListsOfGroups, AddsListsOfLines, AddsListsOfSpecs};

use crate::decided_aliases::DecidedAliases;
use crate::default_scopes::standing_of_scope;
use crate::definitions::OrderedDefinitions;
use crate::member_question::MemberQuestion;
use crate::member_search::MemberSearch;
use crate::request_part::RequestPart;
use crate::undecided_member::UndecidedMember;
use crate::user_and_host_lists::{UserAndHostLists, append_list_if_it_could_turn};
use crate::wanted_members::CountedList;
use std::alloc::{AllocError, Global};
use sudoers_check::DefinitionNumbers;
use sudoers_match::list_specs_with_lines;
use sudoers_match_list::AcyclicWalk;
use sudoers_match_member::Who;
use sudoers_tree::{HostGroupRow, Kind, Node, RowsOfTable};

/// Returns the members of `policy` that were not decided where the rights of `who` are listed, and could have changed where he has rules,
/// or which Defaults lines hold of him: each once in each list, by lines, and by places in a line.
///
/// # Errors
///
/// Memory ran out.
pub fn list_undecided_members_of_rights<'a>(
    alloc: Global,
    policy: &AcyclicWalk<'a>,
    who: &Who,
) -> Result<Vec<UndecidedMember<'a>>, AllocError>
    ensures each { IfOk result (λ found. (r : RequestOf) → r.who ≡ who.now → HasEachAtomOfRights policy.now r found.items) }
    ensures only { IfOk result (λ found. (r : RequestOf) → r.who ≡ who.now → AreUndecidedMembersOfRights policy.now r found.items) }
{
    let ordered = OrderedDefinitions::new(alloc, policy)?;
    let numbers = policy.definition_numbers();
    let user = MemberQuestion::User(&who.user);
    let host = MemberQuestion::Host(who);
    let users = DecidedAliases::new(alloc, numbers, &ordered, Kind::User, user)?;
    let hosts = DecidedAliases::new(alloc, numbers, &ordered, Kind::Host, host)?;
    let mut lists = UserAndHostLists {
        users: Vec::new(alloc),
        hosts: Vec::new(alloc),
    };
    append_lists_of_specs(&mut lists, alloc, policy, &users, &hosts)?;
    append_lists_of_scopes(&mut lists, policy, &users, &hosts)?;
    let search = MemberSearch {
        policy,
        definitions: ordered.definitions.as_slice(),
    };
    let mut found = Vec::new(alloc);
    let in_users = lists.users.as_slice();
    search.append_members(&mut found, alloc, RequestPart::Users, &users, in_users)?;
    let in_hosts = lists.hosts.as_slice();
    search.append_members(&mut found, alloc, RequestPart::Hosts, &hosts, in_hosts)?;
    found.sort_by_key(|member| (member.line, member.member.start, member.part))?;
    Ok(found)
}

/// Appends to `lists` the lists of user specifications of `policy` that could be turned: of users, and of hosts where the users allow.
/// `users` and `hosts` say what the aliases of these kinds say.
fn append_lists_of_specs<'a>(
    lists: &mut UserAndHostLists<'a>,
    alloc: Global,
    policy: &AcyclicWalk<'a>,
    users: &DecidedAliases<'_>,
    hosts: &DecidedAliases<'_>,
) -> Result<(), AllocError>
    requires users { DecidesAllAliases policy.now users.now }
    requires hosts { DecidesAllAliases policy.now hosts.now }
    ensures { OnOk result ((r : RequestOf) → AreUserAliases policy.now r users.now → AreHostAliases policy.now r hosts.now
        → AddsListsOfSpecs policy.now r (user_specs_of_lines policy.now) lists.old lists.new) }
{
    let numbers = policy.definition_numbers();
    let specs = list_specs_with_lines(alloc, policy)?;
    for spec in specs.as_slice() {
        let standing = users.standing_of_list(numbers, &spec.users, false);
        append_list_if_it_could_turn(&mut lists.users, spec.line, &spec.users, standing)?;
        if standing.holds {
            append_lists_of_hosts(&mut lists.hosts, numbers, hosts, spec.line, &spec.groups)?;
        }
    }
    Ok(())
}

/// Appends to `lists` the lists of hosts of `groups` that could be turned, which stand on the line with the number `line`. `hosts` says what
/// the aliases of hosts say.
fn append_lists_of_hosts<'a>(
    lists: &mut Vec<CountedList<'a>>,
    numbers: &DefinitionNumbers<'_>,
    hosts: &DecidedAliases<'_>,
    line: usize,
    groups: &RowsOfTable<'a, HostGroupRow>,
) -> Result<(), AllocError>
    requires { DecidesAllAliases numbers.now.walk hosts.now }
    ensures { OnOk result ((r : RequestOf) → AreHostAliases numbers.now.walk r hosts.now
        → AddsListsOfGroups numbers.now.walk r (host_groups_of_view groups.now) lists.old.items lists.new.items) }
{
    let tables = groups.tables;
    for row in groups.rows {
        let group = tables.host_group_of_row(row);
        let standing = hosts.standing_of_list(numbers, &group.hosts, false);
        append_list_if_it_could_turn(lists, line, &group.hosts, standing)?;
    }
    Ok(())
}

/// Appends to `lists` the scopes of Defaults lines of `policy` that could be turned. `users` and `hosts` say what the aliases of these kinds
/// say.
fn append_lists_of_scopes<'a>(
    lists: &mut UserAndHostLists<'a>,
    policy: &AcyclicWalk<'a>,
    users: &DecidedAliases<'_>,
    hosts: &DecidedAliases<'_>,
) -> Result<(), AllocError>
    requires users { DecidesAllAliases policy.now users.now }
    requires hosts { DecidesAllAliases policy.now hosts.now }
    ensures { OnOk result ((r : RequestOf) → AreUserAliases policy.now r users.now → AreHostAliases policy.now r hosts.now
        → AddsListsOfLines policy.now r policy.now lists.old lists.new) }
{
    let numbers = policy.definition_numbers();
    let lines = policy.lines();
    for (line, row) in lines.rows.iter().enumerate() {
        let node = lines.tables.node_of_row(&row.node);
        append_list_of_node(lists, numbers, users, hosts, line, &node)?;
    }
    Ok(())
}

/// Appends to `lists` the scope of `node`, which the line with the number `line` says, if that is a Defaults line with a scope that could be
/// turned.
fn append_list_of_node<'a>(
    lists: &mut UserAndHostLists<'a>,
    numbers: &DefinitionNumbers<'_>,
    users: &DecidedAliases<'_>,
    hosts: &DecidedAliases<'_>,
    line: usize,
    node: &Node<'a>,
) -> Result<(), AllocError>
    requires users { DecidesAllAliases numbers.now.walk users.now }
    requires hosts { DecidesAllAliases numbers.now.walk hosts.now }
    ensures { OnOk result ((r : RequestOf) → AreUserAliases numbers.now.walk r users.now → AreHostAliases numbers.now.walk r hosts.now
        → AddsListOfNode numbers.now.walk r (node_of_view node.now) lists.old lists.new) }
{
    let Node::Defaults { scope, .. } = node else {
        return Ok(());
    };
    let Some(scope) = scope else {
        return Ok(());
    };
    let standing = standing_of_scope(numbers, users, hosts, scope);
    lists.add_scope_list(line, scope, standing)?;
    Ok(())
}
