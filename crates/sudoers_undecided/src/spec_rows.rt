//! The lists of user specifications whose undecided members could have changed an answer.

ghost use Rattle.std.specs.Prelude.{◌≡◌, ◌&&◌, ℕ, List, true, false, [], ◌∷◌, IfOk, OnOk, Some, None};
ghost use Rattle.sudoers_check.specs.Chain.{ListHasElement};
ghost use Rattle.sudoers_grammar.specs.Node.{Member as MemberOf};
ghost use Rattle.sudoers_line_rows.specs.View.{commands_of_view, host_group_of_view, host_groups_of_view, member_of_view, members_of_view};
ghost use Rattle.std.specs.Option.{is_some, option_or};
ghost use Rattle.sudoers_match.specs.Heads.{AccumulatedCommandSettings as HeadOf, commands_with_settings, empty_command_settings};
ghost use Rattle.sudoers_match.specs.Moment.{is_in_option_time_bounds};
ghost use Rattle.sudoers_match.specs.Values.{option_values_of_view};
ghost use Rattle.sudoers_match.specs.IsHead.{HoldsCommandSettings};
ghost use Rattle.sudoers_match.specs.Rows.{AreRowsPerFlatAtomOfCommand, AreRowsPerFlatAtomOfHostGroup, AreRowsPerFlatAtomOfPolicy, AreRowsPerFlatAtomOfSpec, PrivilegeRow};
ghost use Rattle.sudoers_match.specs.Specs.{IsConcatenationOfParts, user_spec_of_users_and_groups};
ghost use Rattle.sudoers_match_list.specs.Flat.{SignedAtom};
ghost use Rattle.sudoers_undecided.specs.declared.request_part.RequestPart.{RequestPart as PartOf};
ghost use Rattle.sudoers_undecided.specs.declared.spec_rows.UsersAndHosts.{UsersAndHosts as WhoOf};
ghost use Rattle.sudoers_undecided.specs.internal.Counted.{AreCountedListsFlat, AreListsOfCommand, CouldChangeOneOfRows, CountsRows, CoversAtom, CoversRows, HasNotedLists, HaveSameLists, IsAskedOfPolicy, IsHostsStanding, IsRunasGroupsStanding, IsRunasUsersStanding, IsUsersStanding, counted_list};
ghost use Rattle.sudoers_undecided.specs.internal.Looped.{IsRunasStanding, IsWhoStanding, lists_of};
ghost use Rattle.sudoers_undecided.specs.internal.Parts.{does_row_hold};

use crate::asked_request::{AskedRequest, CommandLists, RowStanding, is_within_time_bounds};
use crate::counted_lists::CountedLists;
use crate::decided_aliases::PartStanding;
use crate::list_sway::ListSway;
use std::alloc::{AllocError, Global};
use sudoers_line_rows::{HostGroup, RunasSpec};
use sudoers_match::{CommandSettings, list_specs_with_lines};
use sudoers_tree::{CommandRow, HostGroupRow, MemberRow, RowsOfTable};

/// The users and the hosts of commands, and how they stand to a request.
#[derive(Clone, Copy)]
pub struct UsersAndHosts<'a> {
    pub line: usize,
    pub users: RowsOfTable<'a, MemberRow>,
    pub hosts: RowsOfTable<'a, MemberRow>,
    pub users_standing: PartStanding,
    pub hosts_standing: PartStanding,
}

/// The Runas_Spec of commands, and how its lists stand to a request.
#[derive(Clone, Copy)]
pub struct RunasOfCommands<'a> {
    pub runas: Option<RunasSpec<'a>>,
    pub users: PartStanding,
    pub groups: PartStanding,
}

/// Returns the lists that count in an answer: those of the last command that fits, and of commands behind it.
///
/// # Errors
///
/// Memory ran out.
pub fn count_lists_of_policy<'a>(
    alloc: Global,
    asked: &AskedRequest<'a, '_>,
) -> Result<CountedLists<'a>, AllocError>
    requires { IsAskedOfPolicy asked.now }
    ensures covers { IfOk result (λ counted. (rows : List PrivilegeRow) → AreRowsPerFlatAtomOfPolicy asked.now.policy.now rows → CoversRows asked.now.policy.now asked.now.request.now asked.now.scopes.now counted rows) }
    ensures flats { IfOk result (λ counted. (rows : List PrivilegeRow) → AreRowsPerFlatAtomOfPolicy asked.now.policy.now rows
        → AreCountedListsFlat asked.now.policy.now asked.now.request.now counted) }
    ensures only { IfOk result (λ counted. (rows : List PrivilegeRow) → AreRowsPerFlatAtomOfPolicy asked.now.policy.now rows → (p : PartOf) (s : SignedAtom)
        → CoversAtom asked.now.policy.now asked.now.request.now asked.now.scopes.now counted p s → CouldChangeOneOfRows asked.now.policy.now asked.now.request.now rows p s) }
{
    let specs = list_specs_with_lines(alloc, asked.policy)?;
    let mut counted = CountedLists::new(alloc);
    for spec in specs.as_slice() {
        count_lists_of_spec(&mut counted, asked, spec.line, &spec.users, &spec.groups)?;
    }
    Ok(counted)
}

/// Counts the lists of the user specification on the line with the number `line`.
fn count_lists_of_spec<'a>(
    counted: &mut CountedLists<'a>,
    asked: &AskedRequest<'a, '_>,
    line: usize,
    users: &RowsOfTable<'a, MemberRow>,
    groups: &RowsOfTable<'a, HostGroupRow>,
) -> Result<(), AllocError>
    requires { IsAskedOfPolicy asked.now }
    ensures { OnOk result ((i : ℕ) (rows : List PrivilegeRow) → AreRowsPerFlatAtomOfSpec asked.now.policy.now i (user_spec_of_users_and_groups (members_of_view users.now) (host_groups_of_view groups.now)) rows
        → CountsRows asked.now.policy.now asked.now.request.now asked.now.scopes.now counted.old counted.new rows) }
{
    let numbers = asked.policy.definition_numbers();
    let standing = asked.aliases.users.standing_of_list(numbers, users, false);
    counted.has_users = false;
    let tables = groups.tables;
    for row in groups.rows {
        let group = tables.host_group_of_row(row);
        count_lists_of_host_group(counted, asked, line, users, standing, &group)?;
    }
    Ok(())
}

/// Counts the lists of a host group, where `users` have the standing `standing`.
fn count_lists_of_host_group<'a>(
    counted: &mut CountedLists<'a>,
    asked: &AskedRequest<'a, '_>,
    line: usize,
    users: &RowsOfTable<'a, MemberRow>,
    standing: PartStanding,
    group: &HostGroup<'a>,
) -> Result<(), AllocError>
    requires asked { IsAskedOfPolicy asked.now }
    requires users { IsUsersStanding asked.now.policy.now asked.now.request.now users.now standing }
    requires noted { counted.old.has_users ≡ true → ListHasElement counted.old.users.items (counted_list line users.now standing.holds) }
    ensures noted { OnOk result (counted.new.has_users ≡ true → ListHasElement counted.new.users.items (counted_list line users.now standing.holds)) }
    ensures counts { OnOk result ((i j : ℕ) (rows : List PrivilegeRow) → AreRowsPerFlatAtomOfHostGroup asked.now.policy.now i (members_of_view users.now) j (host_group_of_view group.now) rows
        → CountsRows asked.now.policy.now asked.now.request.now asked.now.scopes.now counted.old counted.new rows) }
{
    let may_be_user = standing.may_hold();
    if !may_be_user {
        return Ok(());
    }
    let numbers = asked.policy.definition_numbers();
    let hosts = &group.hosts;
    let hosts_standing = asked.aliases.hosts.standing_of_list(numbers, hosts, false);
    let may_be_host = hosts_standing.may_hold();
    if !may_be_host {
        return Ok(());
    }
    let who = UsersAndHosts {
        line,
        users: *users,
        hosts: *hosts,
        users_standing: standing,
        hosts_standing,
    };
    counted.has_hosts = false;
    count_lists_of_commands(counted, asked, &who, &group.commands)?;
    Ok(())
}

/// Counts the lists of the commands of a host group.
fn count_lists_of_commands<'a>(
    counted: &mut CountedLists<'a>,
    asked: &AskedRequest<'a, '_>,
    who: &UsersAndHosts<'a>,
    commands: &RowsOfTable<'a, CommandRow>,
) -> Result<(), AllocError>
    requires asked { IsAskedOfPolicy asked.now }
    requires who { IsWhoStanding asked.now.policy.now asked.now.request.now who.now }
    requires users { counted.old.has_users ≡ true → ListHasElement counted.old.users.items (counted_list who.now.line who.now.users who.now.users_standing.holds) }
    requires hosts { counted.old.has_hosts ≡ true → ListHasElement counted.old.hosts.items (counted_list who.now.line who.now.hosts who.now.hosts_standing.holds) }
    ensures users { OnOk result (counted.new.has_users ≡ true → ListHasElement counted.new.users.items (counted_list who.now.line who.now.users who.now.users_standing.holds)) }
    ensures counts { OnOk result ((i j : ℕ) (rows : List PrivilegeRow)
        → IsConcatenationOfParts (AreRowsPerFlatAtomOfCommand asked.now.policy.now i j (members_of_view who.now.users) (members_of_view who.now.hosts)) 0 (commands_with_settings empty_command_settings (commands_of_view commands.now)) rows
        → CountsRows asked.now.policy.now asked.now.request.now asked.now.scopes.now counted.old counted.new rows) }
{
    let mut head = CommandSettings::make_empty_settings();
    let mut runas = start_runas(counted, asked, None);
    let tables = commands.tables;
    for row in commands.rows {
        let written = tables.command_of_row(row);
        head.apply_settings_of_command(&written);
        runas = go_on_to_runas(counted, asked, runas, written.runas);
        let member = RowsOfTable {
            tables,
            rows: std::slice::from_ref(&row.member),
        };
        let lists = lists_of_command(asked, who, &head, &runas);
        count_lists_of_command(counted, asked, &lists, &member)?;
    }
    Ok(())
}

/// Returns how the lists of a Runas_Spec that begins stand to the request.
fn start_runas<'a>(
    counted: &mut CountedLists<'a>,
    asked: &AskedRequest<'a, '_>,
    runas: Option<RunasSpec<'a>>,
) -> RunasOfCommands<'a>
    requires { IsAskedOfPolicy asked.now }
    ensures runas { result.runas ≡ runas.entry }
    ensures standing { IsRunasStanding asked.now.policy.now asked.now.request.now asked.now.scopes.now result }
    ensures same { HaveSameLists counted.old counted.new }
    ensures has_users { counted.new.has_users ≡ counted.old.has_users }
    ensures has_hosts { counted.new.has_hosts ≡ counted.old.has_hosts }
    ensures no_users { counted.new.has_runas_users ≡ false }
    ensures no_groups { counted.new.has_runas_groups ≡ false }
{
    counted.has_runas_users = false;
    counted.has_runas_groups = false;
    RunasOfCommands {
        runas,
        users: asked.standing_of_runas_users(&runas),
        groups: asked.standing_of_runas_groups(&runas),
    }
}

/// Returns how the lists of the Runas_Spec of a command stand to the request: that which is `written`, or that of the commands before it.
fn go_on_to_runas<'a>(
    counted: &mut CountedLists<'a>,
    asked: &AskedRequest<'a, '_>,
    runas: RunasOfCommands<'a>,
    written: Option<RunasSpec<'a>>,
) -> RunasOfCommands<'a>
    requires asked { IsAskedOfPolicy asked.now }
    requires standing { IsRunasStanding asked.now.policy.now asked.now.request.now asked.now.scopes.now runas }
    ensures runas { result.runas ≡ option_or written.entry runas.entry.runas }
    ensures standing { IsRunasStanding asked.now.policy.now asked.now.request.now asked.now.scopes.now result }
    ensures same { HaveSameLists counted.old counted.new }
    ensures noted { (who : WhoOf) → HasNotedLists counted.old (lists_of who runas.entry true) → HasNotedLists counted.new (lists_of who result true) }
{
    if written.is_some() {
        start_runas(counted, asked, written)
    } else {
        runas
    }
}

/// Returns the lists that hold of a command with these settings.
fn lists_of_command<'a>(
    asked: &AskedRequest<'_, '_>,
    who: &UsersAndHosts<'a>,
    head: &CommandSettings<'a>,
    runas: &RunasOfCommands<'a>,
) -> CommandLists<'a>
    ensures lists { result ≡ lists_of who.now runas.now result.standing.is_in_time }
    ensures time { result.standing.is_in_time ≡ is_in_option_time_bounds asked.now.request.now.moment (option_values_of_view head.now.options) }
{
    CommandLists {
        line: who.line,
        users: who.users,
        hosts: who.hosts,
        runas: runas.runas,
        standing: RowStanding {
            users: who.users_standing,
            hosts: who.hosts_standing,
            runas_users: runas.users,
            runas_groups: runas.groups,
            is_in_time: is_within_time_bounds(asked.request.moment, &head.options),
        },
    }
}

/// Returns whether a command decides, where its list has the sway `sway`, and no other behind it does.
fn does_command_decide(standing: &RowStanding, sway: &ListSway) -> bool
    ensures { result ≡ (does_row_hold standing.now && is_some sway.now.hit) }
{
    standing.holds() && sway.hit.is_some()
}

/// Counts the lists of a command, which is `member` alone.
fn count_lists_of_command<'a>(
    counted: &mut CountedLists<'a>,
    asked: &AskedRequest<'a, '_>,
    lists: &CommandLists<'a>,
    member: &RowsOfTable<'a, MemberRow>,
) -> Result<(), AllocError>
    requires asked { IsAskedOfPolicy asked.now }
    requires noted { HasNotedLists counted.old lists.now }
    ensures noted { OnOk result (HasNotedLists counted.new lists.now) }
    ensures counts { OnOk result ((head : HeadOf) → AreListsOfCommand asked.now.policy.now asked.now.request.now asked.now.scopes.now head lists.now
        → (m : MemberOf) → members_of_view member.now ≡ m ∷ [] → (i j k : ℕ) (rows : List PrivilegeRow)
        → AreRowsPerFlatAtomOfCommand asked.now.policy.now i j (members_of_view lists.now.users) (members_of_view lists.now.hosts) k (head, m) rows
        → CountsRows asked.now.policy.now asked.now.request.now asked.now.scopes.now counted.old counted.new rows) }
{
    let may_hold = lists.standing.may_hold();
    if !may_hold {
        return Ok(());
    }
    let numbers = asked.policy.definition_numbers();
    let Some(sway) = asked.aliases.commands.sway_of_list(numbers, member) else {
        return Ok(());
    };
    let decides = does_command_decide(&lists.standing, &sway);
    if decides {
        counted.restart_at_command(lists, member)?;
        return Ok(());
    }
    let may_match = sway.may_match();
    if !may_match {
        return Ok(());
    }
    counted.add_lists_of_command(lists, member)?;
    Ok(())
}
