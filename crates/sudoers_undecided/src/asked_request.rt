//! A request to a policy, and how the parts of a row stand to it.

ghost use Rattle.std.specs.Prelude.{◌≡◌};
ghost use Rattle.sudoers_undecided.specs.internal.Counted.{IsAskedOfPolicy, IsRunasGroupsStanding, IsRunasUsersStanding};
ghost use Rattle.sudoers_undecided.specs.internal.Parts.{all_parts, does_row_hold, may_part_hold, may_row_hold, parts_without_hold_of};
ghost use Rattle.sudoers_match.specs.Moment.{is_in_option_time_bounds};
ghost use Rattle.sudoers_match.specs.Values.{option_values_of_view};

use crate::decided_aliases::PartStanding;
use crate::request_aliases::{RequestAliases, is_group_absent_or_one_of};
use crate::user_and_host_lists::UserAndHostLists;
use sudoers_line_rows::RunasSpec;
use sudoers_match::CommandOptions;
use sudoers_match_list::AcyclicWalk;
use sudoers_match_member::{
    Request, convert_stamp_to_zero_filled_number, is_same_name_ignoring_case,
};
use sudoers_tree::{MemberRow, RowsOfTable};

/// A request to a policy, and what is known of it.
#[derive(Clone, Copy)]
pub struct AskedRequest<'a, 'b> {
    pub policy: &'b AcyclicWalk<'a>,
    pub request: &'b Request,
    pub aliases: &'b RequestAliases<'b>,
    /// As whom a command runs without a Runas_Spec.
    pub default: &'b [u8],
    /// The scopes that could turn that.
    pub scopes: &'b UserAndHostLists<'a>,
}

/// How the parts of a row stand to a request, its command aside.
#[derive(Clone, Copy)]
pub struct RowStanding {
    pub users: PartStanding,
    pub hosts: PartStanding,
    pub runas_users: PartStanding,
    pub runas_groups: PartStanding,
    pub is_in_time: bool,
}

/// The lists that hold of a command on the line with the number `line`, from 0, and how they stand to a request.
#[derive(Clone, Copy)]
pub struct CommandLists<'a> {
    pub line: usize,
    pub users: RowsOfTable<'a, MemberRow>,
    pub hosts: RowsOfTable<'a, MemberRow>,
    pub runas: Option<RunasSpec<'a>>,
    pub standing: RowStanding,
}

/// Parts of a row whose undecided members count, its moment and its command aside.
#[derive(Clone, Copy)]
pub struct CountedParts {
    pub users: bool,
    pub hosts: bool,
    pub runas_users: bool,
    pub runas_groups: bool,
}

impl CountedParts {
    /// Returns all parts.
    pub fn make_all() -> CountedParts
        ensures { result ≡ all_parts }
    {
        CountedParts {
            users: true,
            hosts: true,
            runas_users: true,
            runas_groups: true,
        }
    }
}

impl PartStanding {
    /// Returns whether it holds, or could be turned.
    pub fn may_hold(&self) -> bool
        ensures { result ≡ may_part_hold self.now }
    {
        self.holds || self.could_turn
    }
}

impl RowStanding {
    /// Returns whether each part holds, or could be turned.
    pub fn may_hold(&self) -> bool
        ensures { result ≡ may_row_hold self.now }
    {
        self.users.may_hold()
            && self.hosts.may_hold()
            && self.runas_users.may_hold()
            && self.runas_groups.may_hold()
            && self.is_in_time
    }

    /// Returns whether each part holds.
    pub fn holds(&self) -> bool
        ensures { result ≡ does_row_hold self.now }
    {
        self.users.holds
            && self.hosts.holds
            && self.runas_users.holds
            && self.runas_groups.holds
            && self.is_in_time
    }

    /// Returns the parts that do not hold.
    pub fn parts_without_hold(&self) -> CountedParts
        ensures { result ≡ parts_without_hold_of self.now }
    {
        CountedParts {
            users: !self.users.holds,
            hosts: !self.hosts.holds,
            runas_users: !self.runas_users.holds,
            runas_groups: !self.runas_groups.holds,
        }
    }
}

/// Returns whether `moment` is not before NOTBEFORE and not after NOTAFTER.
pub fn is_within_time_bounds(moment: u64, options: &CommandOptions<'_>) -> bool
    ensures { result ≡ is_in_option_time_bounds moment (option_values_of_view options.now) }
{
    let begun = match options.notbefore {
        Some(stamp) => convert_stamp_to_zero_filled_number(stamp) <= moment,
        None => true,
    };
    let ended = match options.notafter {
        Some(stamp) => moment > convert_stamp_to_zero_filled_number(stamp),
        None => false,
    };
    begun && !ended
}

impl AskedRequest<'_, '_> {
    /// Returns whether the command may run as the user who is asked for, and whether that could be turned.
    pub fn standing_of_runas_users(&self, runas: &Option<RunasSpec<'_>>) -> PartStanding
        requires { IsAskedOfPolicy self.now }
        ensures { IsRunasUsersStanding self.now.policy.now self.now.request.now self.now.scopes.now runas.now result }
    {
        match runas {
            Some(runas) => self
                .aliases
                .standing_of_runas_users(self.policy.definition_numbers(), self.request, runas),
            None => PartStanding {
                holds: is_same_name_ignoring_case(
                    self.default,
                    self.request.target.name.as_slice(),
                ),
                could_turn: self.scopes.have_lists(),
            },
        }
    }

    /// Returns whether the command may run as the group that is asked for, and whether that could be turned.
    pub fn standing_of_runas_groups(&self, runas: &Option<RunasSpec<'_>>) -> PartStanding
        requires { IsAskedOfPolicy self.now }
        ensures { IsRunasGroupsStanding self.now.policy.now self.now.request.now runas.now result }
    {
        match runas {
            Some(runas) => self
                .aliases
                .standing_of_runas_groups(self.policy.definition_numbers(), self.request, runas),
            None => PartStanding::from_fact(is_group_absent_or_one_of(
                &self.request.target.groups,
                &self.request.target_group,
            )),
        }
    }
}
