//! The lists whose undecided members could have changed an answer, part by part.

ghost use Rattle.std.specs.Prelude.{◌≡◌, ◌⊎◌, true, false, [], ◌∷◌, OnOk};
ghost use Rattle.sudoers_check.specs.Chain.{ListHasElement};
ghost use Rattle.sudoers_undecided.specs.declared.wanted_members.CountedList.{CountedList as CountedListOf};
ghost use Rattle.sudoers_undecided.specs.declared.wanted_members.WantedMembers.TheVariants.{Allowing, Denying, All};
ghost use Rattle.sudoers_undecided.specs.internal.Counted.{AddsOnlyListsOfParts, AreNoLists, HasListsOfParts, HasNotedLists, HasOnlyListsOfParts, HasRunasGroups, HasRunasUsers, HaveGrown, command_list, counted_list, hosts_list, users_list};
ghost use Rattle.sudoers_undecided.specs.internal.Parts.{all_parts, hosts_part, no_parts, parts_without_hold_of, runas_groups_part, runas_users_part, users_part};

use crate::asked_request::{CommandLists, CountedParts};
use crate::wanted_members::{CountedList, WantedMembers};
use std::alloc::{AllocError, Global};
use sudoers_tree::{MemberRow, RowsOfTable};

/// The lists that count. Of the lists of the present user specification, host group and Runas_Spec it is known whether they are among
/// them.
#[derive(Drop)]
pub struct CountedLists<'a> {
    pub users: Vec<CountedList<'a>>,
    pub hosts: Vec<CountedList<'a>>,
    pub runas_users: Vec<CountedList<'a>>,
    pub runas_groups: Vec<CountedList<'a>>,
    pub commands: Vec<CountedList<'a>>,
    /// The scopes of settings of runas_default count.
    pub default: bool,
    pub has_users: bool,
    pub has_hosts: bool,
    pub has_runas_users: bool,
    pub has_runas_groups: bool,
}

/// Appends the list `members` on the line with the number `line` to `lists`, if it is not there. Its members count that are contrary to
/// what it says, as `holds` says.
fn append_once<'a>(
    lists: &mut Vec<CountedList<'a>>,
    is_there: bool,
    line: usize,
    members: RowsOfTable<'a, MemberRow>,
    holds: bool,
) -> Result<(), AllocError>
    requires { is_there ≡ true → ListHasElement lists.old.items (counted_list line members holds) }
    ensures has { OnOk result (ListHasElement lists.new.items (counted_list line members.entry holds)) }
    ensures kept { OnOk result ((l : CountedListOf) → ListHasElement lists.old.items l → ListHasElement lists.new.items l) }
    ensures only { OnOk result ((l : CountedListOf) → ListHasElement lists.new.items l
        → ListHasElement lists.old.items l ⊎ (l ≡ counted_list line members.entry holds)) }
{
    if is_there {
        return Ok(());
    }
    let wanted = WantedMembers::from_sign(!holds);
    lists.push(CountedList {
        line,
        members,
        wanted,
    })?;
    Ok(())
}

impl<'a> CountedLists<'a> {
    /// Returns no lists.
    pub fn new(alloc: Global) -> CountedLists<'a>
        ensures { AreNoLists result }
    {
        CountedLists {
            users: Vec::new(alloc),
            hosts: Vec::new(alloc),
            runas_users: Vec::new(alloc),
            runas_groups: Vec::new(alloc),
            commands: Vec::new(alloc),
            default: false,
            has_users: false,
            has_hosts: false,
            has_runas_users: false,
            has_runas_groups: false,
        }
    }

    /// Removes all lists.
    fn clear(&mut self)
        ensures users { self.new.has_users ≡ false }
        ensures hosts { self.new.has_hosts ≡ false }
        ensures runas_users { self.new.has_runas_users ≡ false }
        ensures runas_groups { self.new.has_runas_groups ≡ false }
        ensures empty { AreNoLists self.new }
    {
        self.users.clear();
        self.hosts.clear();
        self.runas_users.clear();
        self.runas_groups.clear();
        self.commands.clear();
        self.default = false;
        self.has_users = false;
        self.has_hosts = false;
        self.has_runas_users = false;
        self.has_runas_groups = false;
    }

    /// Adds the users of a command, if they are wanted.
    fn add_users(&mut self, command: &CommandLists<'a>, wanted: bool) -> Result<(), AllocError>
        requires { HasNotedLists self.old command.now }
        ensures noted { OnOk result (HasNotedLists self.new command.now) }
        ensures grown { OnOk result (HaveGrown self.old self.new) }
        ensures has { OnOk result (wanted ≡ true → ListHasElement self.new.users.items (users_list command.now)) }
        ensures only { OnOk result (AddsOnlyListsOfParts self.old self.new command.now (users_part wanted) []) }
    {
        if !wanted {
            return Ok(());
        }
        let holds = command.standing.users.holds;
        append_once(
            &mut self.users,
            self.has_users,
            command.line,
            command.users,
            holds,
        )?;
        self.has_users = true;
        Ok(())
    }

    /// Adds the hosts of a command, if they are wanted.
    fn add_hosts(&mut self, command: &CommandLists<'a>, wanted: bool) -> Result<(), AllocError>
        requires { HasNotedLists self.old command.now }
        ensures noted { OnOk result (HasNotedLists self.new command.now) }
        ensures grown { OnOk result (HaveGrown self.old self.new) }
        ensures has { OnOk result (wanted ≡ true → ListHasElement self.new.hosts.items (hosts_list command.now)) }
        ensures only { OnOk result (AddsOnlyListsOfParts self.old self.new command.now (hosts_part wanted) []) }
    {
        if !wanted {
            return Ok(());
        }
        let holds = command.standing.hosts.holds;
        append_once(
            &mut self.hosts,
            self.has_hosts,
            command.line,
            command.hosts,
            holds,
        )?;
        self.has_hosts = true;
        Ok(())
    }

    /// Adds the users as whom a command runs, if they are wanted: those of its Runas_Spec, or else the scopes of settings of runas_default.
    fn add_runas_users(
        &mut self,
        command: &CommandLists<'a>,
        wanted: bool,
    ) -> Result<(), AllocError>
        requires { HasNotedLists self.old command.now }
        ensures noted { OnOk result (HasNotedLists self.new command.now) }
        ensures grown { OnOk result (HaveGrown self.old self.new) }
        ensures has { OnOk result (wanted ≡ true → HasRunasUsers self.new command.now command.now.runas) }
        ensures only { OnOk result (AddsOnlyListsOfParts self.old self.new command.now (runas_users_part wanted) []) }
    {
        if !wanted {
            return Ok(());
        }
        let Some(runas) = command.runas else {
            self.default = true;
            return Ok(());
        };
        let holds = command.standing.runas_users.holds;
        let line = command.line;
        append_once(
            &mut self.runas_users,
            self.has_runas_users,
            line,
            runas.users,
            holds,
        )?;
        self.has_runas_users = true;
        Ok(())
    }

    /// Adds the groups as which a command runs, if they are wanted.
    fn add_runas_groups(
        &mut self,
        command: &CommandLists<'a>,
        wanted: bool,
    ) -> Result<(), AllocError>
        requires { HasNotedLists self.old command.now }
        ensures noted { OnOk result (HasNotedLists self.new command.now) }
        ensures grown { OnOk result (HaveGrown self.old self.new) }
        ensures has { OnOk result (wanted ≡ true → HasRunasGroups self.new command.now command.now.runas) }
        ensures only { OnOk result (AddsOnlyListsOfParts self.old self.new command.now (runas_groups_part wanted) []) }
    {
        if !wanted {
            return Ok(());
        }
        let Some(runas) = command.runas else {
            return Ok(());
        };
        let holds = command.standing.runas_groups.holds;
        let line = command.line;
        append_once(
            &mut self.runas_groups,
            self.has_runas_groups,
            line,
            runas.groups,
            holds,
        )?;
        self.has_runas_groups = true;
        Ok(())
    }

    /// Adds those lists of a command that are among `parts`.
    fn add_parts(
        &mut self,
        command: &CommandLists<'a>,
        parts: CountedParts,
    ) -> Result<(), AllocError>
        requires { HasNotedLists self.old command.now }
        ensures noted { OnOk result (HasNotedLists self.new command.now) }
        ensures grown { OnOk result (HaveGrown self.old self.new) }
        ensures has { OnOk result (HasListsOfParts self.new command.now parts) }
        ensures only { OnOk result (AddsOnlyListsOfParts self.old self.new command.now parts []) }
    {
        self.add_users(command, parts.users)?;
        self.add_hosts(command, parts.hosts)?;
        self.add_runas_users(command, parts.runas_users)?;
        self.add_runas_groups(command, parts.runas_groups)?;
        Ok(())
    }

    /// Adds a command on the line with the number `line`, those of whose members count that are wanted.
    fn add_command(
        &mut self,
        command: &CommandLists<'a>,
        members: &RowsOfTable<'a, MemberRow>,
        wanted: WantedMembers,
    ) -> Result<(), AllocError>
        requires { HasNotedLists self.old command.now }
        ensures noted { OnOk result (HasNotedLists self.new command.now) }
        ensures grown { OnOk result (HaveGrown self.old self.new) }
        ensures has { OnOk result (ListHasElement self.new.commands.items (command_list command.now.line members.now wanted)) }
        ensures only { OnOk result (AddsOnlyListsOfParts self.old self.new command.now no_parts
            (command_list command.now.line members.now wanted ∷ [])) }
    {
        self.commands.push(CountedList {
            line: command.line,
            members: *members,
            wanted,
        })?;
        Ok(())
    }

    /// Adds the lists of a command that decides, `member` alone, and removes those before it.
    ///
    /// # Errors
    ///
    /// Memory ran out.
    pub fn restart_at_command(
        &mut self,
        command: &CommandLists<'a>,
        member: &RowsOfTable<'a, MemberRow>,
    ) -> Result<(), AllocError>
        ensures noted { OnOk result (HasNotedLists self.new command.now) }
        ensures has { OnOk result (HasListsOfParts self.new command.now all_parts) }
        ensures allowing { OnOk result (ListHasElement self.new.commands.items (command_list command.now.line member.now Allowing)) }
        ensures denying { OnOk result (ListHasElement self.new.commands.items (command_list command.now.line member.now Denying)) }
        ensures only { OnOk result (HasOnlyListsOfParts self.new command.now all_parts
            (command_list command.now.line member.now Allowing ∷ command_list command.now.line member.now Denying ∷ [])) }
    {
        self.clear();
        self.add_parts(command, CountedParts::make_all())?;
        self.add_command(command, member, WantedMembers::Allowing)?;
        self.add_command(command, member, WantedMembers::Denying)?;
        Ok(())
    }

    /// Adds the lists of a command, `member` alone, that do not hold, and the command.
    ///
    /// # Errors
    ///
    /// Memory ran out.
    pub fn add_lists_of_command(
        &mut self,
        command: &CommandLists<'a>,
        member: &RowsOfTable<'a, MemberRow>,
    ) -> Result<(), AllocError>
        requires { HasNotedLists self.old command.now }
        ensures noted { OnOk result (HasNotedLists self.new command.now) }
        ensures grown { OnOk result (HaveGrown self.old self.new) }
        ensures has { OnOk result (HasListsOfParts self.new command.now (parts_without_hold_of command.now.standing)) }
        ensures all { OnOk result (ListHasElement self.new.commands.items (command_list command.now.line member.now All)) }
        ensures only { OnOk result (AddsOnlyListsOfParts self.old self.new command.now (parts_without_hold_of command.now.standing)
            (command_list command.now.line member.now All ∷ [])) }
    {
        self.add_parts(command, command.standing.parts_without_hold())?;
        self.add_command(command, member, WantedMembers::All)?;
        Ok(())
    }
}
