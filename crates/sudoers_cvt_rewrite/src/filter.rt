//! Filters: the users, groups and hosts that rules are to concern.

ghost use Rattle.std.specs.Prelude.{◌≡◌};
ghost use Rattle.sudoers_cvt_rewrite.specs.Filter.{is_list_without_items, is_filter_without_users};

use sudoers_grammar::Items;

/// The values of a filter, in their order (cvtsudoers(1), -m).
#[derive(Drop)]
pub struct Filter {
    pub users: Items<Items<u8>>,
    pub groups: Items<Items<u8>>,
    pub hosts: Items<Items<u8>>,
}

fn has_no_filter_values(values: &[Items<u8>]) -> bool
    ensures { result ≡ is_list_without_items values.now }
{
    values.is_empty()
}

impl Filter {
    /// Returns whether it has no user and no group.
    pub fn has_no_user_or_group(&self) -> bool
        ensures { result ≡ is_filter_without_users self.now }
    {
        has_no_filter_values(self.users.as_slice()) && has_no_filter_values(self.groups.as_slice())
    }

    /// Returns whether it has no host.
    pub fn has_no_filter_host(&self) -> bool
        ensures { result ≡ is_list_without_items self.now.hosts }
    {
        has_no_filter_values(self.hosts.as_slice())
    }
}
