//! Why a user cannot go from a line.

ghost use Rattle.std.specs.Prelude.{◌≡◌, IfOk};
ghost use Rattle.std.specs.List.{list_any};
ghost use Rattle.std.specs.Option.{option_copied};
ghost use Rattle.sudoers_grammar.specs.Node.{Def as DefOf};
ghost use Rattle.sudoers_line_rows.specs.View.{alias_definitions_of_view, members_of_view, node_of_view};
ghost use Rattle.sudoers_tree.specs.Line.{line_of_view};
ghost use Rattle.sudoers_plan.specs.User.{first_removal_fault, is_scope_emptied, is_user_denied_in_line, is_user_denied_in_list, removal_fault_of_line, scope_users_of_node};

use crate::fault::PlanFault;
use crate::user_lines::LeavingUser;
use crate::user_members::UserMembers;
use crate::user_misread::is_line_misread;
use crate::user_wish::spot_of_line;
use std::alloc::AllocError;
use sudoers_grammar::Kind;
use sudoers_line_rows::{AliasDefinitionRow, MemberRow, Node, RowsOfTable, Scope};
use sudoers_names::NameSet;
use sudoers_tree::{Line, WalkLineSpot};

/// Returns the fault of the first line from which the user cannot go.
///
/// # Errors
///
/// Memory ran out.
pub fn find_removal_fault(
    leaving: &LeavingUser<'_>,
    his: &NameSet,
    even_denials: bool,
) -> Result<Option<PlanFault>, AllocError>
    ensures { IfOk result (λ fault. fault ≡ first_removal_fault even_denials leaving.now.user.now leaving.now.policy.now.walk his.now leaving.now.emptied.now 0 leaving.now.policy.now.walk.lines) }
{
    let lines = leaving.policy.lines();
    for (number, row) in lines.rows.iter().enumerate() {
        let line = Line::from_line_row(lines.tables, row);
        let at = spot_of_line(leaving.policy, number);
        let fault = find_removal_fault_of_line(leaving, his, even_denials, at, &line)?;
        if fault.is_some() {
            return Ok(fault);
        }
    }
    Ok(None)
}

/// Returns why the user cannot go from the line at `at`.
fn find_removal_fault_of_line(
    leaving: &LeavingUser<'_>,
    his: &NameSet,
    even_denials: bool,
    at: WalkLineSpot,
    line: &Line<'_>,
) -> Result<Option<PlanFault>, AllocError>
    ensures { IfOk result (λ fault. fault
        ≡ removal_fault_of_line even_denials leaving.now.user.now leaving.now.policy.now.walk.lines his.now leaving.now.emptied.now at (line_of_view line.now)) }
{
    if !even_denials && is_denied_in_line(leaving, his, &line.node) {
        return Ok(Some(PlanFault::Denial { at }));
    }
    if is_scope_of_line_emptied(leaving, &line.node) {
        return Ok(Some(PlanFault::EmptiedScope { at }));
    }
    if is_line_misread(leaving, line.text, &line.node)? {
        return Ok(Some(PlanFault::Misread { at }));
    }
    Ok(None)
}

/// Returns whether the line is for aliases of users alone, and all of them go.
fn is_scope_of_line_emptied(leaving: &LeavingUser<'_>, node: &Node<'_>) -> bool
    ensures { result ≡ is_scope_emptied leaving.now.policy.now.walk.lines leaving.now.emptied.now (scope_users_of_node (node_of_view node.now)) }
{
    match node {
        Node::Defaults {
            scope: Some(
                Scope {
                    kind: Kind::User,
                    members,
                },
            ),
            ..
        } => is_scope_emptied_by(leaving, members),
        _ => false,
    }
}

/// Returns whether there is a member of a scope and all of them go.
fn is_scope_emptied_by(leaving: &LeavingUser<'_>, members: &RowsOfTable<'_, MemberRow>) -> bool
    ensures { result ≡ is_scope_emptied leaving.now.policy.now.walk.lines leaving.now.emptied.now (members_of_view members.now) }
{
    let going = leaving.scope_members();
    going.has_any(members) && going.has_all(members)
}

/// Returns whether the line denies something to the user, or to one of the aliases `his`.
fn is_denied_in_line(leaving: &LeavingUser<'_>, his: &NameSet, node: &Node<'_>) -> bool
    ensures { result ≡ is_user_denied_in_line leaving.now.user.now leaving.now.policy.now.walk.lines his.now (node_of_view node.now) }
{
    let members = UserMembers {
        policy: leaving.policy,
        user: Some(leaving.user),
        aliases: his,
    };
    match node {
        Node::Alias {
            kind: Kind::User,
            defs,
        } => is_denied_in_definitions(&members, defs),
        Node::Spec { users, .. } => members.has_negated(users),
        Node::Defaults {
            scope: Some(
                Scope {
                    kind: Kind::User,
                    members: users,
                },
            ),
            ..
        } => UserMembers {
            user: None,
            ..members
        }
        .has_negated(users),
        _ => false,
    }
}

/// Returns whether a negated member of a definition passes.
fn is_denied_in_definitions(
    members: &UserMembers<'_>,
    defs: &RowsOfTable<'_, AliasDefinitionRow>,
) -> bool
    ensures { result ≡ list_any (λ (d : DefOf). is_user_denied_in_list (option_copied members.now.user) members.now.policy.now.walk.lines members.now.aliases.now d.members) (alias_definitions_of_view defs.now) }
{
    let mut left = defs.rows;
    while let Some((row, behind)) = left.split_first() {
        if members.has_negated(&defs.tables.alias_definition_of_row(row).members) {
            return true;
        }
        left = behind;
    }
    false
}
