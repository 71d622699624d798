//! What a filter leaves of lines.

ghost use Rattle.std.specs.Prelude.{◌≡◌, map, IfOk, Some, None, if◌then◌else◌};
ghost use Rattle.sudoers_grammar.specs.declared.node.Kind.TheVariants.{User as OfUsers, Host as OfHosts};
ghost use Rattle.sudoers_grammar.specs.Node.{Spec as SpecOf};
ghost use Rattle.sudoers_line_rows.specs.declared.rows.NodeRow.{NodeRow as RowOf};
ghost use Rattle.sudoers_line_rows.specs.Tables.{host_group_in_tables, member_in_tables, node_in_tables};
ghost use Rattle.sudoers_line_rows.specs.View.{members_of_view};
ghost use Rattle.sudoers_match.specs.internal.Straight.{HostGroupsLeadToNoCycle, LeadsToNoCyclicAlias, ScopeLeadsToNoCycle};
ghost use Rattle.sudoers_cvt_rewrite.specs.Filter.{node_or_blank_left_by_filter, host_group_pruned_if_wanted, host_groups_left_by_filter, is_list_in_filter, is_host_list_in_filter, is_scope_in_filter};
ghost use Rattle.sudoers_cvt_rewrite.specs.internal.Matcher.{IsValidFilterMatcher};
ghost use Rattle.sudoers_cvt_rewrite.specs.internal.Pruned.{members_pruned_if_wanted};
ghost use Rattle.sudoers_cvt_rewrite.specs.internal.Selected.{node_of_filtered_line, optional_host_group_of_filtered, host_group_of_filtered, FilterListsLeadToNoCycle};
ghost use Rattle.sudoers_cvt_rewrite.specs.internal.Written.{optional_scope_of_row};

use crate::matching::{FilterContext, FilterMatcher};
use std::alloc::{AllocError, Global};
use sudoers_line_rows::{
    HostGroupRow, MemberRow, NodeRow, RowRange, RowsOfTable, ScopeRow, Tables, rows_in,
};
use sudoers_tree::Kind;

/// The hosts of a host group that are left, and its commands.
#[derive(Drop)]
pub struct FilteredHostGroup {
    pub hosts: Vec<MemberRow>,
    pub commands: RowRange,
}

/// What is left of a line: nothing, all of it, or some members and host groups.
#[derive(Drop)]
pub enum FilteredLine {
    Falls,
    Stays,
    Spec {
        users: Vec<MemberRow>,
        groups: Vec<FilteredHostGroup>,
    },
}

/// Returns the members of a list of this kind that are left, or all if none is to fall. The list leads to no cyclic alias.
fn prune_members_if_wanted<'a>(
    alloc: Global,
    asked: &FilterContext<'a, '_>,
    matcher: &mut FilterMatcher<'a>,
    kind: Kind,
    members: &RowsOfTable<'_, MemberRow>,
) -> Result<Vec<MemberRow>, AllocError>
    requires matcher { IsValidFilterMatcher asked.now.policy.now asked.now.filter.now matcher.old }
    requires straight { LeadsToNoCyclicAlias kind asked.now.policy.now (members_of_view members.now) }
    ensures kept { IfOk result (λ _. IsValidFilterMatcher asked.now.policy.now asked.now.filter.now matcher.new) }
    ensures left { IfOk result (λ left. map (member_in_tables members.now.tables.now) left.items
        ≡ members_pruned_if_wanted kind asked.now.policy.now asked.now.filter.now asked.now.prune (members_of_view members.now)) }
{
    if asked.prune {
        matcher.prune_members(alloc, asked, kind, members)
    } else {
        Vec::from_slice(alloc, members.rows)
    }
}

/// Returns what is left of a host group, if it matches. Its hosts lead to no cyclic alias.
fn select_matching_host_group<'a>(
    alloc: Global,
    asked: &FilterContext<'a, '_>,
    matcher: &mut FilterMatcher<'a>,
    base: &Tables,
    row: &HostGroupRow,
) -> Result<Option<FilteredHostGroup>, AllocError>
    requires matcher { IsValidFilterMatcher asked.now.policy.now asked.now.filter.now matcher.old }
    requires straight { LeadsToNoCyclicAlias OfHosts asked.now.policy.now (host_group_in_tables base.now row.now).hosts }
    ensures kept { IfOk result (λ _. IsValidFilterMatcher asked.now.policy.now asked.now.filter.now matcher.new) }
    ensures left { IfOk result (λ left. optional_host_group_of_filtered base.now left
        ≡ (if is_host_list_in_filter asked.now.policy.now asked.now.filter.now (host_group_in_tables base.now row.now).hosts
        then Some (host_group_pruned_if_wanted asked.now.policy.now asked.now.filter.now asked.now.prune (host_group_in_tables base.now row.now)) else None)) }
{
    let rows = rows_in(base.members.as_slice(), row.hosts);
    let members = RowsOfTable { tables: base, rows };
    if !matcher.matches_host_filter(asked, &members)? {
        return Ok(None);
    }
    let hosts = prune_members_if_wanted(alloc, asked, matcher, Kind::Host, &members)?;
    let commands = row.commands;
    Ok(Some(FilteredHostGroup { hosts, commands }))
}

/// Returns what is left of host groups. Their hosts lead to no cyclic alias.
fn select_matching_host_groups<'a>(
    alloc: Global,
    asked: &FilterContext<'a, '_>,
    matcher: &mut FilterMatcher<'a>,
    base: &Tables,
    rows: &[HostGroupRow],
) -> Result<Vec<FilteredHostGroup>, AllocError>
    requires matcher { IsValidFilterMatcher asked.now.policy.now asked.now.filter.now matcher.old }
    requires straight { HostGroupsLeadToNoCycle asked.now.policy.now (map (host_group_in_tables base.now) rows.now) }
    ensures kept { IfOk result (λ _. IsValidFilterMatcher asked.now.policy.now asked.now.filter.now matcher.new) }
    ensures left { IfOk result (λ left. map (host_group_of_filtered base.now) left.items
        ≡ host_groups_left_by_filter asked.now.policy.now asked.now.filter.now asked.now.prune (map (host_group_in_tables base.now) rows.now)) }
{
    let mut out = Vec::new(alloc);
    for row in rows {
        if let Some(group) = select_matching_host_group(alloc, asked, matcher, base, row)? {
            out.push(group)?;
        }
    }
    Ok(out)
}

/// Returns a host group of which all is left.
fn select_whole_host_group(
    alloc: Global,
    base: &Tables,
    row: &HostGroupRow,
) -> Result<FilteredHostGroup, AllocError>
    ensures { IfOk result (λ whole. host_group_of_filtered base.now whole ≡ host_group_in_tables base.now row.now) }
{
    let hosts = Vec::from_slice(alloc, rows_in(base.members.as_slice(), row.hosts))?;
    let commands = row.commands;
    Ok(FilteredHostGroup { hosts, commands })
}

/// Returns host groups of which all is left.
///
/// # Errors
///
/// Memory ran out.
pub fn select_all_host_groups(
    alloc: Global,
    base: &Tables,
    rows: &[HostGroupRow],
) -> Result<Vec<FilteredHostGroup>, AllocError>
    ensures { IfOk result (λ all. map (host_group_of_filtered base.now) all.items ≡ map (host_group_in_tables base.now) rows.now) }
{
    let mut all = Vec::new(alloc);
    for row in rows {
        all.push(select_whole_host_group(alloc, base, row)?)?;
    }
    Ok(all)
}

/// Returns what is left of a user specification. Its users and hosts lead to no cyclic alias.
fn select_filtered_spec<'a>(
    alloc: Global,
    asked: &FilterContext<'a, '_>,
    matcher: &mut FilterMatcher<'a>,
    users: &RowsOfTable<'_, MemberRow>,
    groups: &[HostGroupRow],
) -> Result<FilteredLine, AllocError>
    requires matcher { IsValidFilterMatcher asked.now.policy.now asked.now.filter.now matcher.old }
    requires users { LeadsToNoCyclicAlias OfUsers asked.now.policy.now (members_of_view users.now) }
    requires hosts { HostGroupsLeadToNoCycle asked.now.policy.now (map (host_group_in_tables users.now.tables.now) groups.now) }
    ensures kept { IfOk result (λ _. IsValidFilterMatcher asked.now.policy.now asked.now.filter.now matcher.new) }
    ensures left { IfOk result (λ left. (row : RowOf) → node_of_filtered_line users.now.tables.now row left ≡ node_or_blank_left_by_filter asked.now.policy.now asked.now.filter.now asked.now.prune
        (SpecOf (members_of_view users.now) (map (host_group_in_tables users.now.tables.now) groups.now))) }
{
    if !matcher.matches_user_filter(asked, users)? {
        return Ok(FilteredLine::Falls);
    }
    let groups = select_matching_host_groups(alloc, asked, matcher, users.tables, groups)?;
    if groups.is_empty() {
        return Ok(FilteredLine::Falls);
    }
    let users = prune_members_if_wanted(alloc, asked, matcher, Kind::User, users)?;
    Ok(FilteredLine::Spec { users, groups })
}

/// Returns whether the scope of a Defaults line matches. Its list leads to no cyclic alias.
fn matches_scope_filter<'a>(
    asked: &FilterContext<'a, '_>,
    matcher: &mut FilterMatcher<'a>,
    base: &Tables,
    scope: Option<ScopeRow>,
) -> Result<bool, AllocError>
    requires matcher { IsValidFilterMatcher asked.now.policy.now asked.now.filter.now matcher.old }
    requires straight { ScopeLeadsToNoCycle asked.now.policy.now (optional_scope_of_row base.now scope) }
    ensures kept { IfOk result (λ _. IsValidFilterMatcher asked.now.policy.now asked.now.filter.now matcher.new) }
    ensures matches { IfOk result (λ matches. matches ≡ is_scope_in_filter asked.now.policy.now asked.now.filter.now (optional_scope_of_row base.now scope)) }
{
    let Some(scope) = scope else {
        return Ok(true);
    };
    let rows = rows_in(base.members.as_slice(), scope.members);
    matches_list_filter(
        asked,
        matcher,
        scope.kind,
        &RowsOfTable { tables: base, rows },
    )
}

/// Returns whether a list of this kind matches. It leads to no cyclic alias.
fn matches_list_filter<'a>(
    asked: &FilterContext<'a, '_>,
    matcher: &mut FilterMatcher<'a>,
    kind: Kind,
    members: &RowsOfTable<'_, MemberRow>,
) -> Result<bool, AllocError>
    requires matcher { IsValidFilterMatcher asked.now.policy.now asked.now.filter.now matcher.old }
    requires straight { LeadsToNoCyclicAlias kind asked.now.policy.now (members_of_view members.now) }
    ensures kept { IfOk result (λ _. IsValidFilterMatcher asked.now.policy.now asked.now.filter.now matcher.new) }
    ensures matches { IfOk result (λ matches. matches ≡ is_list_in_filter asked.now.policy.now asked.now.filter.now kind (members_of_view members.now)) }
{
    match kind {
        Kind::User => matcher.matches_user_filter(asked, members),
        Kind::Host => matcher.matches_host_filter(asked, members),
        Kind::Runas | Kind::Cmnd => Ok(true),
    }
}

/// Returns what the filter leaves of a line. `row` is what the line says. No list that the filter reads leads to a cyclic alias.
pub fn select_filtered_node<'a>(
    alloc: Global,
    asked: &FilterContext<'a, '_>,
    matcher: &mut FilterMatcher<'a>,
    base: &Tables,
    row: &NodeRow,
) -> Result<FilteredLine, AllocError>
    requires matcher { IsValidFilterMatcher asked.now.policy.now asked.now.filter.now matcher.old }
    requires straight { FilterListsLeadToNoCycle asked.now.policy.now (node_in_tables base.now row.now) }
    ensures kept { IfOk result (λ _. IsValidFilterMatcher asked.now.policy.now asked.now.filter.now matcher.new) }
    ensures left { IfOk result (λ left. node_of_filtered_line base.now row.now left ≡ node_or_blank_left_by_filter asked.now.policy.now asked.now.filter.now asked.now.prune (node_in_tables base.now row.now)) }
{
    match *row {
        NodeRow::Spec { users, groups } => {
            let rows = rows_in(base.members.as_slice(), users);
            let users = RowsOfTable { tables: base, rows };
            let groups = rows_in(base.groups.as_slice(), groups);
            select_filtered_spec(alloc, asked, matcher, &users, groups)
        }
        NodeRow::Defaults { scope, .. } => {
            if matches_scope_filter(asked, matcher, base, scope)? {
                Ok(FilteredLine::Stays)
            } else {
                Ok(FilteredLine::Falls)
            }
        }
        NodeRow::Alias { .. } | NodeRow::Blank | NodeRow::Comment | NodeRow::Include { .. } => {
            Ok(FilteredLine::Stays)
        }
    }
}
