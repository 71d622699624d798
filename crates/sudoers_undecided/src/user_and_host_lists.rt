//! Lists of users and of hosts whose undecided members count.

ghost use Rattle.std.specs.Prelude.{◌≡◌, ◌⊎◌, List, [], true, OnOk};
ghost use Rattle.sudoers_check.specs.Chain.{ListHasElement};
ghost use Rattle.sudoers_match_list.specs.Flat.{SignedAtom};
ghost use Rattle.sudoers_match_member.specs.declared.request.Request.{Request as RequestOf};
ghost use Rattle.sudoers_tree.specs.Line.{Line as LineOf};
ghost use Rattle.sudoers_undecided.specs.declared.wanted_members.CountedList.{CountedList as ListHeld};
ghost use Rattle.sudoers_undecided.specs.internal.Counted.{AreScopeListsTurned, IsWantedOfScopes, counted_list};
ghost use Rattle.sudoers_undecided.specs.internal.Settings.{AddsOnlyScopeList, HasScopeList, HaveScopesGrown};

use crate::decided_aliases::PartStanding;
use crate::wanted_members::{CountedList, WantedMembers};
use std::alloc::AllocError;
use sudoers_tree::{Kind, MemberRow, RowsOfTable, Scope};

/// Lists of users and of hosts that could be turned.
#[derive(Drop)]
pub struct UserAndHostLists<'a> {
    pub users: Vec<CountedList<'a>>,
    pub hosts: Vec<CountedList<'a>>,
}

impl<'a> UserAndHostLists<'a> {
    /// Returns whether there is a list.
    pub fn have_lists(&self) -> bool
        ensures wanted { (lines : List LineOf) (r : RequestOf) (s : SignedAtom) → IsWantedOfScopes lines r self.now s → result ≡ true }
        ensures turned { (lines : List LineOf) (r : RequestOf) → AreScopeListsTurned lines r self.now → result ≡ true
            → (s : SignedAtom) × IsWantedOfScopes lines r self.now s }
    {
        !self.users.is_empty() || !self.hosts.is_empty()
    }

    /// Removes all lists.
    pub fn clear(&mut self)
        ensures users { self.new.users.items ≡ [] }
        ensures hosts { self.new.hosts.items ≡ [] }
    {
        self.users.clear();
        self.hosts.clear();
    }

    /// Adds the list of the scope `scope` of a Defaults line with the number `line`, which has the standing `standing`, if it could be
    /// turned.
    pub fn add_scope_list(
        &mut self,
        line: usize,
        scope: &Scope<'a>,
        standing: PartStanding,
    ) -> Result<(), AllocError>
        ensures grown { OnOk result (HaveScopesGrown self.old self.new) }
        ensures has { OnOk result (standing.could_turn ≡ true → HasScopeList self.new line scope.now scope.now.kind standing) }
        ensures only { OnOk result (AddsOnlyScopeList self.old self.new line scope.now scope.now.kind standing) }
    {
        match scope.kind {
            Kind::User => {
                append_list_if_it_could_turn(&mut self.users, line, &scope.members, standing)?;
            }
            Kind::Host => {
                append_list_if_it_could_turn(&mut self.hosts, line, &scope.members, standing)?;
            }
            Kind::Runas | Kind::Cmnd => {}
        }
        Ok(())
    }
}

/// Appends to `lists` the list `members`, which has the standing `standing` and stands on the line with the number `line`, if it could be
/// turned.
pub fn append_list_if_it_could_turn<'a>(
    lists: &mut Vec<CountedList<'a>>,
    line: usize,
    members: &RowsOfTable<'a, MemberRow>,
    standing: PartStanding,
) -> Result<(), AllocError>
    ensures kept { OnOk result ((l : ListHeld) → ListHasElement lists.old.items l → ListHasElement lists.new.items l) }
    ensures has { OnOk result (standing.could_turn ≡ true → ListHasElement lists.new.items (counted_list line members.now standing.holds)) }
    ensures only { OnOk result ((l : ListHeld) → ListHasElement lists.new.items l
        → ListHasElement lists.old.items l ⊎ ((standing.could_turn ≡ true) × (l ≡ counted_list line members.now standing.holds))) }
{
    if standing.could_turn {
        lists.push(CountedList {
            line,
            members: *members,
            wanted: WantedMembers::from_sign(!standing.holds),
        })?;
    }
    Ok(())
}
