//! Lines that without a user would be read as something else.

ghost use Rattle.std.specs.Prelude.{◌≡◌, Some, IfOk};
ghost use Rattle.std.specs.Option.{option_copied};
ghost use Rattle.sudoers_line_rows.specs.View.{members_of_view, node_of_view};
ghost use Rattle.sudoers_plan.specs.User.{has_users, is_line_misread as misread_line, is_list_misread as misread_list, is_member_of_user};

use crate::user_lines::{LeavingUser, cut_members_out};
use crate::user_members::UserMembers;
use std::alloc::AllocError;
use sudoers_grammar::Kind;
use sudoers_line_rows::{MemberRow, Node, RowsOfTable, Scope, are_row_lists_alike};
use sudoers_tree::read_line;

/// A line that has a list of users.
#[derive(Clone, Copy)]
pub enum UserLineKind {
    /// A rule.
    Rule,
    /// A Defaults line for users.
    Scope,
}

/// Returns whether some users of a line go, and the rest of it, whose text was `text`, is no line of its kind with the others.
///
/// # Errors
///
/// Memory ran out.
pub fn is_line_misread(
    leaving: &LeavingUser<'_>,
    text: &[u8],
    node: &Node<'_>,
) -> Result<bool, AllocError>
    ensures { IfOk result (λ misread. misread ≡ misread_line leaving.now.user.now leaving.now.policy.now.walk.lines leaving.now.emptied.now text.now (node_of_view node.now)) }
{
    match node {
        Node::Spec { users, .. } => {
            is_list_misread(UserLineKind::Rule, &leaving.members(), text, users)
        }
        Node::Defaults {
            scope: Some(
                Scope {
                    kind: Kind::User,
                    members,
                },
            ),
            ..
        } => is_list_misread(UserLineKind::Scope, &leaving.scope_members(), text, members),
        _ => Ok(false),
    }
}

/// Returns whether some of `members` go, and the rest of the line `text` is no line of its kind with the others.
fn is_list_misread(
    kind: UserLineKind,
    going: &UserMembers<'_>,
    text: &[u8],
    members: &RowsOfTable<'_, MemberRow>,
) -> Result<bool, AllocError>
    ensures { IfOk result (λ misread. misread
        ≡ misread_list kind (is_member_of_user (option_copied going.now.user) going.now.policy.now.walk.lines going.now.aliases.now) text.now (members_of_view members.now)) }
{
    if !going.has_any(members) || going.has_all(members) {
        return Ok(false);
    }
    let alloc = going.policy.allocator();
    let others = going.list_others(alloc, members)?;
    let others = RowsOfTable {
        tables: members.tables,
        rows: others.as_slice(),
    };
    let line = cut_members_out(going, text, members)?;
    match read_line(alloc, line.as_slice())? {
        Some(reading) => Ok(!is_line_with_users(kind, &others, &reading.node())),
        None => Ok(true),
    }
}

/// Returns whether a line is of this kind, and its users say what `users` say.
fn is_line_with_users(
    kind: UserLineKind,
    users: &RowsOfTable<'_, MemberRow>,
    node: &Node<'_>,
) -> bool
    ensures { result ≡ has_users kind (members_of_view users.now) (Some (node_of_view node.now)) }
{
    match (kind, node) {
        (UserLineKind::Rule, Node::Spec { users: read, .. }) => are_row_lists_alike(users, read),
        (
            UserLineKind::Scope,
            Node::Defaults {
                scope: Some(
                    Scope {
                        kind: Kind::User,
                        members,
                    },
                ),
                ..
            },
        ) => are_row_lists_alike(users, members),
        (UserLineKind::Scope, Node::Defaults { .. }) => users.rows.is_empty(),
        _ => false,
    }
}
