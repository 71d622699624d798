//! Lists that match a filter.

ghost use Rattle.std.specs.Prelude.{◌≡◌, IfOk, IfSome};
ghost use Rattle.sudoers_grammar.specs.declared.node.Kind.TheVariants.{User as OfUsers, Host as OfHosts};
ghost use Rattle.sudoers_line_rows.specs.View.{members_of_view};
ghost use Rattle.sudoers_match.specs.internal.Straight.{LeadsToNoCyclicAlias};
ghost use Rattle.sudoers_cvt_rewrite.specs.Filter.{is_user_list_in_filter, is_host_list_in_filter};
ghost use Rattle.sudoers_cvt_rewrite.specs.internal.Matcher.{is_filter_user_matched_or_allowed, is_filter_host_matched_or_allowed, IsValidFilterMatcher, IsValidValuesMatcher};
ghost use Rattle.sudoers_cvt_rewrite.specs.declared.filter_text.FilterKey.TheVariants.{User as UserKey, Group as GroupKey, Host as HostKey};

use crate::filter::Filter;
use crate::filter_text::FilterKey;
use crate::values_matcher::ValuesMatcher;
use std::alloc::{AllocError, Global};
use sudoers_grammar::Items;
use sudoers_match_list::AcyclicWalk;
use sudoers_tree::{Kind, MemberRow, RowsOfTable};

/// A filter, the policy whose lists it is asked of, and whether members that do not match it fall.
#[derive(Clone, Copy)]
pub struct FilterContext<'a, 'b> {
    pub policy: &'b AcyclicWalk<'a>,
    pub filter: &'b Filter,
    pub prune: bool,
}

/// The values of a filter, and what is known of the aliases for them. It is of no use after an error.
#[derive(Drop)]
pub struct FilterMatcher<'a> {
    users: ValuesMatcher<'a>,
    groups: ValuesMatcher<'a>,
    hosts: ValuesMatcher<'a>,
}

impl<'a> FilterMatcher<'a> {
    /// Returns a matcher of the lists of `policy` and of these values. It knows no alias yet.
    fn from_values(
        alloc: Global,
        policy: &AcyclicWalk<'a>,
        users: &[Items<u8>],
        groups: &[Items<u8>],
        hosts: &[Items<u8>],
    ) -> Result<FilterMatcher<'a>, AllocError>
        ensures users { IfOk result (λ matcher. IsValidValuesMatcher OfUsers policy.now UserKey users.now matcher.users) }
        ensures groups { IfOk result (λ matcher. IsValidValuesMatcher OfUsers policy.now GroupKey groups.now matcher.groups) }
        ensures hosts { IfOk result (λ matcher. IsValidValuesMatcher OfHosts policy.now HostKey hosts.now matcher.hosts) }
    {
        Ok(FilterMatcher {
            users: ValuesMatcher::new(alloc, policy, FilterKey::User, users)?,
            groups: ValuesMatcher::new(alloc, policy, FilterKey::Group, groups)?,
            hosts: ValuesMatcher::new(alloc, policy, FilterKey::Host, hosts)?,
        })
    }

    /// Returns a matcher of the lists of `policy` and of the values of a filter, if there is one. It knows no alias yet.
    ///
    /// # Errors
    ///
    /// Memory ran out.
    pub fn new(
        alloc: Global,
        policy: &AcyclicWalk<'a>,
        filter: Option<&Filter>,
    ) -> Result<FilterMatcher<'a>, AllocError>
        ensures { IfOk result (λ matcher. IfSome filter.entry (λ filter. IsValidFilterMatcher policy.now filter.now matcher)) }
    {
        match filter {
            None => FilterMatcher::from_values(alloc, policy, &[], &[], &[]),
            Some(filter) => {
                let users = filter.users.as_slice();
                let groups = filter.groups.as_slice();
                FilterMatcher::from_values(alloc, policy, users, groups, filter.hosts.as_slice())
            }
        }
    }

    /// Returns whether a list of users says what is wanted of a user or a group of the filter. It leads to no cyclic alias.
    pub(crate) fn matches_or_allows_filter_users(
        &mut self,
        asked: &FilterContext<'a, '_>,
        members: &RowsOfTable<'_, MemberRow>,
        allowing: bool,
    ) -> Result<bool, AllocError>
        requires matcher { IsValidFilterMatcher asked.now.policy.now asked.now.filter.now self.old }
        requires straight { LeadsToNoCyclicAlias OfUsers asked.now.policy.now (members_of_view members.now) }
        ensures kept { IfOk result (λ _. IsValidFilterMatcher asked.now.policy.now asked.now.filter.now self.new) }
        ensures says { IfOk result (λ says. says ≡ is_filter_user_matched_or_allowed allowing asked.now.policy.now asked.now.filter.now (members_of_view members.now)) }
    {
        let policy = asked.policy;
        if self
            .users
            .matches_or_allows_value(policy, Kind::User, members, allowing)?
        {
            return Ok(true);
        }
        self.groups
            .matches_or_allows_value(policy, Kind::User, members, allowing)
    }

    /// Returns whether a list of hosts says what is wanted of a host of the filter. It leads to no cyclic alias.
    pub(crate) fn matches_or_allows_filter_hosts(
        &mut self,
        asked: &FilterContext<'a, '_>,
        members: &RowsOfTable<'_, MemberRow>,
        allowing: bool,
    ) -> Result<bool, AllocError>
        requires matcher { IsValidFilterMatcher asked.now.policy.now asked.now.filter.now self.old }
        requires straight { LeadsToNoCyclicAlias OfHosts asked.now.policy.now (members_of_view members.now) }
        ensures kept { IfOk result (λ _. IsValidFilterMatcher asked.now.policy.now asked.now.filter.now self.new) }
        ensures says { IfOk result (λ says. says ≡ is_filter_host_matched_or_allowed allowing asked.now.policy.now asked.now.filter.now (members_of_view members.now)) }
    {
        self.hosts
            .matches_or_allows_value(asked.policy, Kind::Host, members, allowing)
    }

    /// Returns whether the list of users `members` matches the filter. It leads to no cyclic alias.
    ///
    /// # Errors
    ///
    /// Memory ran out. The matcher is of no use then.
    pub fn matches_user_filter(
        &mut self,
        asked: &FilterContext<'a, '_>,
        members: &RowsOfTable<'_, MemberRow>,
    ) -> Result<bool, AllocError>
        requires matcher { IsValidFilterMatcher asked.now.policy.now asked.now.filter.now self.old }
        requires straight { LeadsToNoCyclicAlias OfUsers asked.now.policy.now (members_of_view members.now) }
        ensures kept { IfOk result (λ _. IsValidFilterMatcher asked.now.policy.now asked.now.filter.now self.new) }
        ensures matches { IfOk result (λ matches. matches ≡ is_user_list_in_filter asked.now.policy.now asked.now.filter.now (members_of_view members.now)) }
    {
        if asked.filter.has_no_user_or_group() {
            return Ok(true);
        }
        self.matches_or_allows_filter_users(asked, members, true)
    }

    /// Returns whether the list of hosts `members` matches the filter. It leads to no cyclic alias.
    ///
    /// # Errors
    ///
    /// Memory ran out. The matcher is of no use then.
    pub fn matches_host_filter(
        &mut self,
        asked: &FilterContext<'a, '_>,
        members: &RowsOfTable<'_, MemberRow>,
    ) -> Result<bool, AllocError>
        requires matcher { IsValidFilterMatcher asked.now.policy.now asked.now.filter.now self.old }
        requires straight { LeadsToNoCyclicAlias OfHosts asked.now.policy.now (members_of_view members.now) }
        ensures kept { IfOk result (λ _. IsValidFilterMatcher asked.now.policy.now asked.now.filter.now self.new) }
        ensures matches { IfOk result (λ matches. matches ≡ is_host_list_in_filter asked.now.policy.now asked.now.filter.now (members_of_view members.now)) }
    {
        if asked.filter.has_no_filter_host() {
            return Ok(true);
        }
        self.matches_or_allows_filter_hosts(asked, members, true)
    }
}
