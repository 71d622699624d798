//! Whether a member of a policy may be undecided, whoever asks. It is open if it could be undecided in a list of some kind.

ghost use Rattle.std.specs.Prelude.{◌≡◌, false};
ghost use Rattle.std.specs.List.{list_any};
ghost use Rattle.std.specs.Option.{option_map};
ghost use Rattle.sudoers_line_rows.specs.View.{alias_definitions_of_view, commands_of_view, host_groups_of_view, member_of_view, members_of_view, node_of_view, runas_of_view};
ghost use Rattle.sudoers_match_list.specs.Flat.{SignedAtom};
ghost use Rattle.sudoers_match_member.specs.declared.request.Request.{Request as RequestOf};
ghost use Rattle.sudoers_match.specs.Answer.{command_with_joined_arguments_of_request};
ghost use Rattle.sudoers_match.specs.Rows.{PrivilegeRow};
ghost use Rattle.sudoers_tree.specs.Line.{lines_of_rows};
ghost use Rattle.sudoers_undecided.specs.declared.request_part.RequestPart.{RequestPart as PartOf};
ghost use Rattle.sudoers_undecided.specs.MatchTests.{match_tests_of_request, undecided_by_files_or_paths};
ghost use Rattle.sudoers_undecided.specs.UndecidedAnswer.{IsUndecidedInAnswer};
ghost use Rattle.sudoers_undecided.specs.internal.Open.{is_command_open, is_definition_open, is_host_group_open, is_line_open, is_list_open, is_member_open, is_node_open, is_runas_open};

use crate::command_question::find_reason_of_command;
use crate::member_question::{find_reason_of_host_atom, find_reason_of_user_atom};
use sudoers_line_rows::RunasSpec;
use sudoers_match_list::AcyclicWalk;
use sudoers_match_member::{CommandLine, Who};
use sudoers_tree::{
    AliasDefinitionRow, CommandRow, HostGroupRow, LineRow, Member, MemberRow, Node, RowsOfTable,
};

/// Returns whether a member of `policy` may be undecided in the answer to a request for `command` on the host of `who`, whoever asks, and
/// as whom the command is to run. `command` has its arguments joined by single spaces.
pub fn may_have_undecided_members(
    policy: &AcyclicWalk<'_>,
    who: &Who,
    command: &CommandLine,
) -> bool
    ensures { result ≡ false → (r : RequestOf) → r.who.interfaces ≡ who.now.interfaces → command_with_joined_arguments_of_request r ≡ command.now
        → (row : PrivilegeRow) (p : PartOf) (s : SignedAtom) → IsUndecidedInAnswer policy.now (undecided_by_files_or_paths r) (match_tests_of_request r) r row p s → ⊥ }
{
    has_open_line(&policy.lines(), who, command)
}

/// Returns whether a member on one of `lines` is open.
fn has_open_line(lines: &RowsOfTable<'_, LineRow>, who: &Who, command: &CommandLine) -> bool
    ensures { result ≡ list_any (is_line_open who.now command.now) (lines_of_rows lines.now) }
{
    let tables = lines.tables;
    for row in lines.rows {
        if is_open_node(&tables.node_of_row(&row.node), who, command) {
            return true;
        }
    }
    false
}

/// Returns whether a member in what a line says is open.
fn is_open_node(node: &Node<'_>, who: &Who, command: &CommandLine) -> bool
    ensures { result ≡ is_node_open who.now command.now (node_of_view node.now) }
{
    match node {
        Node::Defaults {
            scope: Some(scope),
            ..
        } => has_open_member(&scope.members, who, command),
        Node::Alias { defs, .. } => has_open_definition(defs, who, command),
        Node::Spec { users, groups } => {
            has_open_member(users, who, command) || has_open_host_group(groups, who, command)
        }
        _ => false,
    }
}

/// Returns whether a member of one of `definitions` is open.
fn has_open_definition(
    definitions: &RowsOfTable<'_, AliasDefinitionRow>,
    who: &Who,
    command: &CommandLine,
) -> bool
    ensures { result ≡ list_any (is_definition_open who.now command.now) (alias_definitions_of_view definitions.now) }
{
    let tables = definitions.tables;
    for row in definitions.rows {
        let definition = tables.alias_definition_of_row(row);
        if has_open_member(&definition.members, who, command) {
            return true;
        }
    }
    false
}

/// Returns whether a member of one of `groups` is open.
fn has_open_host_group(
    groups: &RowsOfTable<'_, HostGroupRow>,
    who: &Who,
    command: &CommandLine,
) -> bool
    ensures { result ≡ list_any (is_host_group_open who.now command.now) (host_groups_of_view groups.now) }
{
    let tables = groups.tables;
    for row in groups.rows {
        let group = tables.host_group_of_row(row);
        if has_open_member(&group.hosts, who, command)
            || has_open_command(&group.commands, who, command)
        {
            return true;
        }
    }
    false
}

/// Returns whether one of `commands` is open, or a member of its Runas_Spec.
fn has_open_command(
    commands: &RowsOfTable<'_, CommandRow>,
    who: &Who,
    command: &CommandLine,
) -> bool
    ensures { result ≡ list_any (is_command_open who.now command.now) (commands_of_view commands.now) }
{
    let tables = commands.tables;
    for row in commands.rows {
        let written = tables.command_of_row(row);
        if is_open_runas(&written.runas, who, command)
            || is_open_member(&written.member, who, command)
        {
            return true;
        }
    }
    false
}

/// Returns whether a member of `runas` is open.
fn is_open_runas(runas: &Option<RunasSpec<'_>>, who: &Who, command: &CommandLine) -> bool
    ensures { result ≡ is_runas_open who.now command.now (option_map runas_of_view runas.now) }
{
    match runas {
        Some(spec) => {
            has_open_member(&spec.users, who, command)
                || has_open_member(&spec.groups, who, command)
        }
        None => false,
    }
}

/// Returns whether one of `members` is open.
fn has_open_member(members: &RowsOfTable<'_, MemberRow>, who: &Who, command: &CommandLine) -> bool
    ensures { result ≡ is_list_open who.now command.now (members_of_view members.now) }
{
    let tables = members.tables;
    for row in members.rows {
        if is_open_member(&tables.member_of_row(row), who, command) {
            return true;
        }
    }
    false
}

/// Returns whether `member` is open: it could be undecided in a list of some kind.
fn is_open_member(member: &Member<'_>, who: &Who, command: &CommandLine) -> bool
    ensures { result ≡ is_member_open who.now command.now (member_of_view member.now) }
{
    find_reason_of_user_atom(&member.atom).is_some()
        || find_reason_of_host_atom(&member.atom, who).is_some()
        || find_reason_of_command(member, command).is_some()
}
