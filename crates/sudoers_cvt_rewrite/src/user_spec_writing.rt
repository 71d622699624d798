//! Host groups and user specifications, written with their aliases replaced or not.

ghost use Rattle.std.specs.Prelude.{◌≡◌, ◌+◌, true, map, IfOk, IfErr, OnOk};
ghost use Rattle.sudoers_grammar.specs.Node.{Spec};
ghost use Rattle.sudoers_line_rows.specs.Tables.{commands_of_range_in_tables, host_group_in_tables, host_groups_of_range_in_tables, member_in_tables, node_in_tables};
ghost use Rattle.sudoers_cvt_rewrite.specs.Count.{host_group_member_count, host_groups_member_count, spec_or_defaults_member_count};
ghost use Rattle.sudoers_cvt_rewrite.specs.internal.Extended.{AreTablesAlikeButLists, IsTableExtension, RowKeepsMeaning};
ghost use Rattle.sudoers_cvt_rewrite.specs.internal.Selected.{host_group_of_filtered};
ghost use Rattle.sudoers_cvt_rewrite.specs.internal.Written.{IsTooManyMembersOrNoMemoryFault, host_group_expanded_if, host_group_of_lists, line_node_expanded_if};

use crate::commands::write_commands_with_aliases_expanded_if_wanted;
use crate::copied_tables::append_host_group_rows;
use crate::list_writing::count_and_write_list_expanded_if_wanted;
use crate::member_tally::MemberTally;
use crate::selecting::FilteredHostGroup;
use std::alloc::Global;
use sudoers_cvt_rules::CvtFault;
use sudoers_line_rows::{HostGroupRow, MemberRow, NodeRow, RowRange, Tables, rows_in};
use sudoers_match_list::ExpansionSource;
use sudoers_tree::Kind;

/// Writes a host group, its aliases replaced if that is wanted, and counts it.
#[tactic(auto, using(crate::proofs::Extending::table_is_extension_of_itself, crate::proofs::Extending::table_extension_is_transitive, crate::proofs::Extending::table_likeness_is_transitive))]
pub fn write_host_group_with_aliases_expanded_if_wanted(
    alloc: Global,
    source: &ExpansionSource<'_, '_>,
    tables: &mut Tables,
    tally: &mut MemberTally,
    hosts: &[MemberRow],
    commands: RowRange,
) -> Result<HostGroupRow, CvtFault>
    requires { AreTablesAlikeButLists source.now.lines.tables.now tables.old }
    ensures stays { IfOk result (λ row. RowKeepsMeaning host_group_in_tables tables.new row (host_group_expanded_if source.now.expand source.now.policy.now
        (host_group_of_lists (map (member_in_tables source.now.lines.tables.now) hosts.now) (commands_of_range_in_tables source.now.lines.tables.now commands)))) }
    ensures extended { OnOk result (IsTableExtension tables.old tables.new) }
    ensures counted { OnOk result (source.now.expand ≡ true → tally.new.count ≡ tally.old.count
        + host_group_member_count (host_group_expanded_if source.now.expand source.now.policy.now
        (host_group_of_lists (map (member_in_tables source.now.lines.tables.now) hosts.now) (commands_of_range_in_tables source.now.lines.tables.now commands)))) }
    ensures fault { IfErr result (IsTooManyMembersOrNoMemoryFault source.now.expand (tally.old.count
        + host_group_member_count (host_group_expanded_if source.now.expand source.now.policy.now
        (host_group_of_lists (map (member_in_tables source.now.lines.tables.now) hosts.now) (commands_of_range_in_tables source.now.lines.tables.now commands))))) }
{
    let hosts = count_and_write_list_expanded_if_wanted(
        alloc,
        source,
        tables,
        tally,
        Kind::Host,
        hosts,
    )?;
    let rows = rows_in(source.lines.tables.commands.as_slice(), commands);
    let commands = write_commands_with_aliases_expanded_if_wanted(
        alloc, source, tables, tally, rows,
    )?;
    Ok(HostGroupRow { hosts, commands })
}

/// Writes host groups, their aliases replaced if that is wanted, and counts them.
#[tactic(auto, using(crate::proofs::Extending::table_is_extension_of_itself, crate::proofs::Extending::table_extension_is_transitive, crate::proofs::Extending::table_likeness_is_transitive))]
fn write_host_groups_with_aliases_expanded_if_wanted(
    alloc: Global,
    source: &ExpansionSource<'_, '_>,
    tables: &mut Tables,
    tally: &mut MemberTally,
    groups: &[FilteredHostGroup],
) -> Result<RowRange, CvtFault>
    requires { AreTablesAlikeButLists source.now.lines.tables.now tables.old }
    ensures stays { IfOk result (λ range. RowKeepsMeaning host_groups_of_range_in_tables tables.new range
        (map (host_group_expanded_if source.now.expand source.now.policy.now) (map (host_group_of_filtered source.now.lines.tables.now) groups.now))) }
    ensures extended { OnOk result (IsTableExtension tables.old tables.new) }
    ensures counted { OnOk result (source.now.expand ≡ true → tally.new.count ≡ tally.old.count + host_groups_member_count
        (map (host_group_expanded_if source.now.expand source.now.policy.now) (map (host_group_of_filtered source.now.lines.tables.now) groups.now))) }
    ensures fault { IfErr result (IsTooManyMembersOrNoMemoryFault source.now.expand (tally.old.count + host_groups_member_count
        (map (host_group_expanded_if source.now.expand source.now.policy.now) (map (host_group_of_filtered source.now.lines.tables.now) groups.now)))) }
{
    let mut out = Vec::new(alloc);
    for group in groups {
        let hosts = group.hosts.as_slice();
        out.push(write_host_group_with_aliases_expanded_if_wanted(
            alloc,
            source,
            tables,
            tally,
            hosts,
            group.commands,
        )?)?;
    }
    Ok(append_host_group_rows(tables, out.as_slice())?)
}

/// Writes a user specification, its aliases replaced if that is wanted, and counts it.
#[tactic(auto, using(crate::proofs::Extending::table_is_extension_of_itself, crate::proofs::Extending::table_extension_is_transitive, crate::proofs::Extending::table_likeness_is_transitive))]
pub fn write_spec_with_aliases_expanded_if_wanted(
    alloc: Global,
    source: &ExpansionSource<'_, '_>,
    tables: &mut Tables,
    tally: &mut MemberTally,
    users: &[MemberRow],
    groups: &[FilteredHostGroup],
) -> Result<NodeRow, CvtFault>
    requires { AreTablesAlikeButLists source.now.lines.tables.now tables.old }
    ensures stays { IfOk result (λ row. RowKeepsMeaning node_in_tables tables.new row (line_node_expanded_if source.now.expand source.now.policy.now
        (Spec (map (member_in_tables source.now.lines.tables.now) users.now) (map (host_group_of_filtered source.now.lines.tables.now) groups.now)))) }
    ensures extended { OnOk result (IsTableExtension tables.old tables.new) }
    ensures counted { OnOk result (source.now.expand ≡ true → tally.new.count ≡ tally.old.count
        + spec_or_defaults_member_count (line_node_expanded_if source.now.expand source.now.policy.now
        (Spec (map (member_in_tables source.now.lines.tables.now) users.now) (map (host_group_of_filtered source.now.lines.tables.now) groups.now)))) }
    ensures fault { IfErr result (IsTooManyMembersOrNoMemoryFault source.now.expand (tally.old.count
        + spec_or_defaults_member_count (line_node_expanded_if source.now.expand source.now.policy.now
        (Spec (map (member_in_tables source.now.lines.tables.now) users.now) (map (host_group_of_filtered source.now.lines.tables.now) groups.now))))) }
{
    let users = count_and_write_list_expanded_if_wanted(
        alloc,
        source,
        tables,
        tally,
        Kind::User,
        users,
    )?;
    let groups = write_host_groups_with_aliases_expanded_if_wanted(
        alloc, source, tables, tally, groups,
    )?;
    Ok(NodeRow::Spec { users, groups })
}
