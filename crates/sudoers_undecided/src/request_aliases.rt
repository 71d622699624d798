//! What all aliases of a policy say of a request.

ghost use Rattle.std.specs.Prelude.{◌≡◌, Some, None, IfOk};
ghost use Rattle.sudoers_match.specs.Answer.{command_with_joined_arguments_of_request};
ghost use Rattle.sudoers_match.specs.Runas.{is_group_absent_or_among};
ghost use Rattle.sudoers_undecided.specs.declared.user_and_host_lists.UserAndHostLists.{UserAndHostLists as ScopesOf};
ghost use Rattle.sudoers_undecided.specs.internal.Counted.{AreAliasesOfRequest, IsGroupQuestion, IsRunasGroupsStanding, IsRunasUsersStanding};
ghost use Rattle.sudoers_undecided.specs.internal.Definitions.{HoldsDefinitions};

use crate::decided_aliases::{DecidedAliases, PartStanding};
use crate::definitions::OrderedDefinitions;
use crate::member_question::MemberQuestion;
use std::alloc::{AllocError, Global};
use sudoers_check::DefinitionNumbers;
use sudoers_line_rows::RunasSpec;
use sudoers_match_member::{CommandLine, Group, Groups, Request};
use sudoers_tree::Kind;

/// What the aliases say of the user, of the host, of the user and the group as whom a command is to run, and of the command.
#[derive(Drop)]
pub struct RequestAliases<'b> {
    pub users: DecidedAliases<'b>,
    pub hosts: DecidedAliases<'b>,
    pub targets: DecidedAliases<'b>,
    pub groups: DecidedAliases<'b>,
    pub commands: DecidedAliases<'b>,
}

/// Returns the question whether a list names the group that is asked for, if one is.
fn question_of_group(group: &Option<Group>) -> MemberQuestion<'_>
    ensures { IsGroupQuestion group.now result }
{
    match group {
        Some(group) => MemberQuestion::RunasGroup(group),
        None => MemberQuestion::Nobody,
    }
}

/// Returns whether no group is asked for, or it is one of `groups`.
pub fn is_group_absent_or_one_of(groups: &Groups, group: &Option<Group>) -> bool
    ensures { result ≡ is_group_absent_or_among groups.now group.now }
{
    match group {
        Some(group) => groups.has_number(group.gid),
        None => true,
    }
}

impl<'b> RequestAliases<'b> {
    /// Returns what the aliases of `definitions` say of `request`. Its command with its arguments, joined, is `command`.
    ///
    /// # Errors
    ///
    /// Memory ran out.
    pub fn new(
        alloc: Global,
        numbers: &DefinitionNumbers<'_>,
        definitions: &OrderedDefinitions<'_>,
        request: &'b Request,
        command: &'b CommandLine,
    ) -> Result<RequestAliases<'b>, AllocError>
        requires definitions { HoldsDefinitions numbers.now.walk definitions.now.definitions.items }
        requires command { command.now ≡ command_with_joined_arguments_of_request request.now }
        ensures { IfOk result (λ aliases. AreAliasesOfRequest numbers.now.walk request.now aliases) }
    {
        let user = MemberQuestion::User(&request.who.user);
        let host = MemberQuestion::Host(&request.who);
        let target = MemberQuestion::User(&request.target);
        let group = question_of_group(&request.target_group);
        let asked = MemberQuestion::Command(command);
        let users = DecidedAliases::new(alloc, numbers, definitions, Kind::User, user)?;
        let hosts = DecidedAliases::new(alloc, numbers, definitions, Kind::Host, host)?;
        let targets = DecidedAliases::new(alloc, numbers, definitions, Kind::Runas, target)?;
        let groups = DecidedAliases::new(alloc, numbers, definitions, Kind::Runas, group)?;
        let commands = DecidedAliases::new(alloc, numbers, definitions, Kind::Cmnd, asked)?;
        Ok(RequestAliases {
            users,
            hosts,
            targets,
            groups,
            commands,
        })
    }

    /// Returns whether the command may run as the user who is asked for, by a Runas_Spec, and whether that could be turned.
    pub fn standing_of_runas_users(
        &self,
        numbers: &DefinitionNumbers<'_>,
        request: &Request,
        runas: &RunasSpec<'_>,
    ) -> PartStanding
        requires { AreAliasesOfRequest numbers.now.walk request.now self.now }
        ensures { (scopes : ScopesOf) → IsRunasUsersStanding numbers.now.walk request.now scopes (Some runas.now) result }
    {
        if runas.users.rows.is_empty() {
            PartStanding::from_fact(request.target.uid == request.who.user.uid)
        } else {
            self.targets.standing_of_list(numbers, &runas.users, false)
        }
    }

    /// Returns whether the command may run as the group that is asked for, by a Runas_Spec, and whether that could be turned.
    pub fn standing_of_runas_groups(
        &self,
        numbers: &DefinitionNumbers<'_>,
        request: &Request,
        runas: &RunasSpec<'_>,
    ) -> PartStanding
        requires { AreAliasesOfRequest numbers.now.walk request.now self.now }
        ensures { IsRunasGroupsStanding numbers.now.walk request.now (Some runas.now) result }
    {
        let Some(group) = &request.target_group else {
            return PartStanding::from_fact(true);
        };
        if !runas.groups.rows.is_empty() {
            let own = request.target.groups.has_number(group.gid);
            self.groups.standing_of_list(numbers, &runas.groups, own)
        } else if runas.users.rows.is_empty() {
            PartStanding::from_fact(request.who.user.groups.has_number(group.gid))
        } else {
            PartStanding::from_fact(request.target.groups.has_number(group.gid))
        }
    }
}
