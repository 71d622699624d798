//! Members that match a filter.

ghost use Rattle.std.specs.Prelude.{◌≡◌, map, IfOk};
ghost use Rattle.std.specs.List.{filter as passing};
ghost use Rattle.sudoers_line_rows.specs.Tables.{member_in_tables};
ghost use Rattle.sudoers_line_rows.specs.View.{members_of_view};
ghost use Rattle.sudoers_match.specs.internal.Straight.{LeadsToNoCyclicAlias};
ghost use Rattle.sudoers_cvt_rewrite.specs.internal.Matcher.{IsValidFilterMatcher};
ghost use Rattle.sudoers_cvt_rewrite.specs.internal.Pruned.{is_list_matching_any_filter_value, is_member_kept_by_filter};

use crate::matching::{FilterContext, FilterMatcher};
use std::alloc::{AllocError, Global};
use std::slice;
use sudoers_tree::{Kind, MemberRow, RowsOfTable};

impl<'a> FilterMatcher<'a> {
    /// Returns whether a list of this kind names what the filter asks for. It leads to no cyclic alias.
    fn matches_any_filter_value(
        &mut self,
        asked: &FilterContext<'a, '_>,
        kind: Kind,
        members: &RowsOfTable<'_, MemberRow>,
    ) -> Result<bool, AllocError>
        requires matcher { IsValidFilterMatcher asked.now.policy.now asked.now.filter.now self.old }
        requires straight { LeadsToNoCyclicAlias kind asked.now.policy.now (members_of_view members.now) }
        ensures kept { IfOk result (λ _. IsValidFilterMatcher asked.now.policy.now asked.now.filter.now self.new) }
        ensures keeps { IfOk result (λ keeps_it. keeps_it ≡ is_list_matching_any_filter_value kind asked.now.policy.now asked.now.filter.now (members_of_view members.now)) }
    {
        match kind {
            Kind::User if !asked.filter.has_no_user_or_group() => {
                self.matches_or_allows_filter_users(asked, members, false)
            }
            Kind::Host if !asked.filter.has_no_filter_host() => {
                self.matches_or_allows_filter_hosts(asked, members, false)
            }
            _ => Ok(true),
        }
    }

    /// Returns the members of a list of this kind that match the filter, or all if it has no value of the kind. The list leads to no
    /// cyclic alias.
    ///
    /// # Errors
    ///
    /// Memory ran out. The matcher is of no use then.
    pub fn prune_members(
        &mut self,
        alloc: Global,
        asked: &FilterContext<'a, '_>,
        kind: Kind,
        members: &RowsOfTable<'_, MemberRow>,
    ) -> Result<Vec<MemberRow>, AllocError>
        requires matcher { IsValidFilterMatcher asked.now.policy.now asked.now.filter.now self.old }
        requires straight { LeadsToNoCyclicAlias kind asked.now.policy.now (members_of_view members.now) }
        ensures kept { IfOk result (λ _. IsValidFilterMatcher asked.now.policy.now asked.now.filter.now self.new) }
        ensures left { IfOk result (λ left. map (member_in_tables members.now.tables.now) left.items
            ≡ passing (is_member_kept_by_filter kind asked.now.policy.now asked.now.filter.now) (members_of_view members.now)) }
    {
        let mut left = Vec::new(alloc);
        let tables = members.tables;
        for row in members.rows {
            let rows = slice::from_ref(row);
            if self.matches_any_filter_value(asked, kind, &RowsOfTable { tables, rows })? {
                left.push(*row)?;
            }
        }
        Ok(left)
    }
}
