//! User specifications, their lists flattened.

ghost use Rattle.std.specs.Prelude.{◌≡◌, ◌++◌, ◌∷◌, [], List, ℕ, map, IfOk, OnOk};
ghost use Rattle.std.specs.List.{flat_map};
ghost use Rattle.std.specs.Option.{option_map};
ghost use Rattle.sudoers_grammar.specs.Node.{Member as MemberOf};
ghost use Rattle.sudoers_grammar.specs.declared.node.Kind.TheVariants.{User as OfUsers, Host as OfHosts, Cmnd as OfCommands, Runas as OfRunas};
ghost use Rattle.sudoers_line_rows.specs.Tables.{commands_of_range_in_tables, host_group_in_tables, member_in_tables, members_of_range_in_tables, node_in_tables, runas_in_tables};
ghost use Rattle.sudoers_match.specs.Heads.{AccumulatedCommandSettings as HeadOf, commands_with_settings, empty_command_settings};
ghost use Rattle.sudoers_match.specs.IsHead.{HoldsCommandSettings};
ghost use Rattle.sudoers_match.specs.Specs.{user_spec_of_users_and_groups};
ghost use Rattle.laws_compare.specs.Computed.{flat_list_of_members, flat_rows_of_command, flat_runas_spec_of, optional_flat_list_of_members};
ghost use Rattle.sudoers_compare.specs.FlatSpecs.{flat_runas_spec_in_tables, optional_signed_atoms_in_tables, placed_rows_of_command, placed_rows_of_flat_command, placed_rows_of_flat_host_group, placed_rows_of_flat_specs, placed_rows_of_host_group, placed_rows_of_node, placed_rows_of_policy, rows_of_flat_command};

use crate::counted_lists::flatten_counted_list;
use crate::flat_specs::{FlatCommand, FlatHostGroup, FlatRunas, FlatSpec};
use std::alloc::Global;
use sudoers_line_rows::{
    CommandRow, HostGroupRow, MemberRow, NodeRow, RowRange, RunasRow, rows_in,
};
use sudoers_match::CommandSettings;
use sudoers_match_list::{ExpansionSource, FlattenSizeFault};
use sudoers_tree::Kind;

/// How many members of a list of a Runas_Spec are not counted. The others are counted for each command of which it holds.
const FREE_RUNAS_MEMBERS: usize = 1;

/// Returns a list of a Runas_Spec, flat. An empty one is absent. Its members are taken from `allowance`.
fn flatten_runas_list(
    alloc: Global,
    source: &ExpansionSource<'_, '_>,
    range: RowRange,
    allowance: &mut usize,
) -> Result<Option<Vec<MemberRow>>, FlattenSizeFault>
    ensures { IfOk result (λ flat. optional_signed_atoms_in_tables source.now.lines.tables.now flat
        ≡ optional_flat_list_of_members source.now.policy.now (members_of_range_in_tables source.now.lines.tables.now range)) }
{
    let rows = rows_in(source.lines.tables.members.as_slice(), range);
    if rows.is_empty() {
        return Ok(None);
    }
    Ok(Some(flatten_counted_list(
        alloc,
        source,
        Kind::Runas,
        rows,
        FREE_RUNAS_MEMBERS,
        allowance,
    )?))
}

/// Returns a Runas_Spec with its lists flat. Their members are taken from `allowance`.
fn flatten_runas(
    alloc: Global,
    source: &ExpansionSource<'_, '_>,
    runas: Option<RunasRow>,
    allowance: &mut usize,
) -> Result<Option<FlatRunas>, FlattenSizeFault>
    ensures { IfOk result (λ flat. option_map (flat_runas_spec_in_tables source.now.lines.tables.now) flat
        ≡ option_map (flat_runas_spec_of source.now.policy.now) (option_map (runas_in_tables source.now.lines.tables.now) runas)) }
{
    let Some(runas) = runas else {
        return Ok(None);
    };
    let users = flatten_runas_list(alloc, source, runas.users, allowance)?;
    let groups = flatten_runas_list(alloc, source, runas.groups, allowance)?;
    Ok(Some(FlatRunas { users, groups }))
}

/// Returns a command with its lists flat. `settings` and `runas` hold of it. Their members are taken from `allowance`.
fn flatten_command<'a>(
    alloc: Global,
    source: &ExpansionSource<'a, '_>,
    settings: &CommandSettings<'a>,
    runas: Option<RunasRow>,
    member: &'a MemberRow,
    allowance: &mut usize,
) -> Result<FlatCommand<'a>, FlattenSizeFault>
    ensures start { IfOk result (λ command. command.start ≡ member.now.start) }
    ensures rows { IfOk result (λ command. (head : HeadOf) → HoldsCommandSettings settings.now head → option_map (runas_in_tables source.now.lines.tables.now) runas ≡ head.runas
        → (users hosts : List MemberOf) → rows_of_flat_command source.now.lines.tables.now (flat_list_of_members OfUsers source.now.policy.now users) (flat_list_of_members OfHosts source.now.policy.now hosts) command
        ≡ flat_rows_of_command source.now.policy.now users hosts (head, member_in_tables source.now.lines.tables.now member.now)) }
{
    let runas = flatten_runas(alloc, source, runas, allowance)?;
    let member_row = std::slice::from_ref(member);
    let members = flatten_counted_list(
        alloc,
        source,
        Kind::Cmnd,
        member_row,
        member_row.len(),
        allowance,
    )?;
    Ok(FlatCommand {
        start: member.start,
        runas,
        options: settings.options,
        tags: settings.tags,
        members,
    })
}

/// Returns the commands of a host group, with their lists flat. Their members are taken from `allowance`.
fn flatten_commands<'a>(
    alloc: Global,
    source: &ExpansionSource<'a, '_>,
    range: RowRange,
    allowance: &mut usize,
) -> Result<Vec<FlatCommand<'a>>, FlattenSizeFault>
    ensures { IfOk result (λ commands. (number : ℕ) (users hosts : List MemberOf) → flat_map (placed_rows_of_flat_command source.now.lines.tables.now number
        (flat_list_of_members OfUsers source.now.policy.now users) (flat_list_of_members OfHosts source.now.policy.now hosts)) commands.items
        ≡ flat_map (placed_rows_of_command source.now.policy.now number users hosts) (commands_with_settings empty_command_settings (commands_of_range_in_tables source.now.lines.tables.now range))) }
{
    let tables = source.lines.tables;
    let mut left = rows_in(tables.commands.as_slice(), range);
    let mut commands = Vec::with_capacity(alloc, left.len())?;
    let mut settings = CommandSettings::make_empty_settings();
    let mut runas = None;
    while let Some((row, behind)) = left.split_first() {
        settings.apply_settings_of_command(&tables.command_of_row(row));
        runas = row.runas.or(runas);
        commands.push(flatten_command(alloc, source, &settings, runas, &row.member, allowance)?)?;
        left = behind;
    }
    Ok(commands)
}

/// Returns a host group with its lists flat. Their members are taken from `allowance`.
fn flatten_host_group<'a>(
    alloc: Global,
    source: &ExpansionSource<'a, '_>,
    row: &HostGroupRow,
    allowance: &mut usize,
) -> Result<FlatHostGroup<'a>, FlattenSizeFault>
    ensures { IfOk result (λ group. (number : ℕ) (users : List MemberOf) → placed_rows_of_flat_host_group source.now.lines.tables.now number (flat_list_of_members OfUsers source.now.policy.now users) group
        ≡ placed_rows_of_host_group source.now.policy.now number users (host_group_in_tables source.now.lines.tables.now row.now)) }
{
    let hosts = rows_in(source.lines.tables.members.as_slice(), row.hosts);
    let hosts = flatten_counted_list(alloc, source, Kind::Host, hosts, hosts.len(), allowance)?;
    let commands = flatten_commands(alloc, source, row.commands, allowance)?;
    Ok(FlatHostGroup { hosts, commands })
}

/// Appends a host group with its lists flat to `groups`. Their members are taken from `allowance`.
#[tactic(auto, using(crate::proofs::FlatCommands::rows_of_one_more))]
fn append_flat_host_group<'a>(
    alloc: Global,
    source: &ExpansionSource<'a, '_>,
    row: &HostGroupRow,
    allowance: &mut usize,
    groups: &mut Vec<FlatHostGroup<'a>>,
) -> Result<(), FlattenSizeFault>
    ensures { OnOk result ((number : ℕ) (users : List MemberOf) → flat_map (placed_rows_of_flat_host_group source.now.lines.tables.now number (flat_list_of_members OfUsers source.now.policy.now users)) groups.new.items
        ≡ flat_map (placed_rows_of_flat_host_group source.now.lines.tables.now number (flat_list_of_members OfUsers source.now.policy.now users)) groups.old.items
        ++ placed_rows_of_host_group source.now.policy.now number users (host_group_in_tables source.now.lines.tables.now row.now)) }
{
    groups.push(flatten_host_group(alloc, source, row, allowance)?)?;
    Ok(())
}

/// Returns the host groups of a user specification, with their lists flat. Their members are taken from `allowance`.
fn flatten_host_groups<'a>(
    alloc: Global,
    source: &ExpansionSource<'a, '_>,
    rows: &[HostGroupRow],
    allowance: &mut usize,
) -> Result<Vec<FlatHostGroup<'a>>, FlattenSizeFault>
    ensures { IfOk result (λ groups. (number : ℕ) (users : List MemberOf) → flat_map (placed_rows_of_flat_host_group source.now.lines.tables.now number (flat_list_of_members OfUsers source.now.policy.now users)) groups.items
        ≡ flat_map (placed_rows_of_host_group source.now.policy.now number users) (map (host_group_in_tables source.now.lines.tables.now) rows.now)) }
{
    let mut groups = Vec::with_capacity(alloc, rows.len())?;
    for row in rows {
        append_flat_host_group(alloc, source, row, allowance, &mut groups)?;
    }
    Ok(groups)
}

/// Returns the user specifications of the policy that `source` has, in file order, with their lists flat. What a list has more than is written
/// is taken from `allowance`. So are the members of a Runas_Spec but the first of each list, for each command of which it holds.
///
/// # Errors
///
/// `TooLarge`: these members are more than `allowance`, or a list has more than 65,536 then. `NoMemory`: memory ran out.
pub fn flatten_specs<'a>(
    alloc: Global,
    source: &ExpansionSource<'a, '_>,
    allowance: &mut usize,
) -> Result<Vec<FlatSpec<'a>>, FlattenSizeFault>
    ensures { IfOk result (λ specs. placed_rows_of_flat_specs source.now.lines.tables.now specs.items ≡ placed_rows_of_policy source.now.policy.now) }
{
    let mut specs = Vec::new(alloc);
    for (line, row) in source.lines.rows.iter().enumerate() {
        append_flat_spec(alloc, source, line, &row.node, allowance, &mut specs)?;
    }
    Ok(specs)
}

/// Appends the user specification that `row` is, if it is one, to `specs`. It stands on the line with the number `line`. Its members are taken
/// from `allowance`.
#[tactic(auto, using(crate::proofs::FlatCommands::rows_of_one_more))]
fn append_flat_spec<'a>(
    alloc: Global,
    source: &ExpansionSource<'a, '_>,
    line: usize,
    row: &NodeRow,
    allowance: &mut usize,
    specs: &mut Vec<FlatSpec<'a>>,
) -> Result<(), FlattenSizeFault>
    ensures { OnOk result (placed_rows_of_flat_specs source.now.lines.tables.now specs.new.items ≡ placed_rows_of_flat_specs source.now.lines.tables.now specs.old.items
        ++ placed_rows_of_node source.now.policy.now line (node_in_tables source.now.lines.tables.now row.now)) }
{
    let NodeRow::Spec { users, groups } = row else {
        return Ok(());
    };
    let tables = source.lines.tables;
    let users = rows_in(tables.members.as_slice(), *users);
    let users = flatten_counted_list(alloc, source, Kind::User, users, users.len(), allowance)?;
    let groups = rows_in(tables.groups.as_slice(), *groups);
    let groups = flatten_host_groups(alloc, source, groups, allowance)?;
    specs.push(FlatSpec {
        line,
        users,
        groups,
    })?;
    Ok(())
}
