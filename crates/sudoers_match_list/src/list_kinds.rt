//! The kinds of lists, and what is asked of each.

use crate::kind::MemberKind;
use sudoers_line_rows::BorrowedAtom;
use sudoers_match_member::{
    CommandLine, Group, Person, Who, matches_command_atom, matches_host_atom,
    matches_runas_group_atom, matches_user_atom,
};

/// Lists of users: those who may run something, and those as whom it may run.
pub struct UserListKind;

/// The lists of groups in a Runas_Spec.
pub struct RunasGroupListKind;

/// Lists of hosts.
pub struct HostListKind;

/// Lists of commands.
pub struct CommandListKind;

impl MemberKind for UserListKind {
    type Asked = Person;

    ghost use Rattle.sudoers_match_member.specs.Hits.{is_user_atom_match as test_of_users};

    ghost test = { test_of_users };

    fn hits(atom: &BorrowedAtom<'_>, asked: &Person) -> bool {
        matches_user_atom(atom, asked)
    }
}

impl MemberKind for RunasGroupListKind {
    type Asked = Group;

    ghost use Rattle.sudoers_match_member.specs.Hits.{is_runas_group_atom_match as test_of_groups};

    ghost test = { test_of_groups };

    fn hits(atom: &BorrowedAtom<'_>, asked: &Group) -> bool {
        matches_runas_group_atom(atom, asked)
    }
}

impl MemberKind for HostListKind {
    type Asked = Who;

    ghost use Rattle.sudoers_match_member.specs.Hits.{is_host_atom_match as test_of_hosts};

    ghost test = { test_of_hosts };

    fn hits(atom: &BorrowedAtom<'_>, asked: &Who) -> bool {
        matches_host_atom(atom, asked)
    }
}

impl MemberKind for CommandListKind {
    type Asked = CommandLine;

    ghost use Rattle.sudoers_match_member.specs.Hits.{is_command_atom_match as test_of_commands};

    ghost test = { test_of_commands };

    fn hits(atom: &BorrowedAtom<'_>, asked: &CommandLine) -> bool {
        matches_command_atom(atom, asked)
    }
}
