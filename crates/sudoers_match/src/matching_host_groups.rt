//! Where a user has rules.

ghost use Rattle.std.specs.Prelude.{◌≡◌, ◌⊎◌, ◌++◌, ◌∷◌, [], IfOk, IfErr, OnOk};
ghost use Rattle.sudoers_grammar.specs.declared.node.Kind.TheVariants.{Host as OfHosts};
ghost use Rattle.sudoers_line_rows.specs.View.{host_groups_of_view};
ghost use Rattle.sudoers_match_member.specs.Hits.{is_host_atom_match};
ghost use Rattle.sudoers_check.specs.Chains.{HasCyclicAliasReachedFromSpecOrDefaults};
ghost use Rattle.sudoers_match_list.specs.declared.verdict.AskFault.TheVariants.{Cycle, NoMemory};
ghost use Rattle.sudoers_match_list.specs.Search.{IsValidVerdictCache};
ghost use Rattle.sudoers_match.specs.Groups.{ArePlacesOfMatchingHostGroups, HoldsHostGroupPlaceIfHostsMatch};
ghost use Rattle.sudoers_match.specs.internal.Asked.{AddsAllParts};
ghost use Rattle.sudoers_match.specs.internal.Straight.{HostGroupsLeadToNoCycle};

use crate::allowing::is_allowed_by_list;
use std::alloc::{AllocError, Global};
use sudoers_match_list::{AcyclicWalk, AliasVerdictCache, AskFault, HostListKind, UserListKind};
use sudoers_match_member::Who;
use sudoers_tree::{HostGroupRow, Kind, Node, Policy, RowsOfTable};

/// Where a host group stands (sudoers(5), User specification).
#[derive(Clone, Copy, Debug, PartialEq, Eq)]
pub struct HostGroupPlace {
    /// The number of the user specification among all of them, from 0.
    pub spec: usize,
    /// The number of the host group in the user specification, from 0.
    pub host_group: usize,
}

/// Returns the places of the host groups, in file order, whose users and whose hosts match `who`.
///
/// # Errors
///
/// `Cycle`: a reachable alias is cyclic. `NoMemory`: memory ran out.
pub fn host_groups(
    alloc: Global,
    policy: &Policy,
    who: &Who,
) -> Result<Vec<HostGroupPlace>, AskFault>
    ensures groups { IfOk result (λ places. ArePlacesOfMatchingHostGroups policy.now.walk.lines who.now places.items) }
    ensures straight { IfOk result (λ _. HasCyclicAliasReachedFromSpecOrDefaults policy.now.walk.lines → ⊥) }
    ensures fault { IfErr result (λ fault. (fault ≡ NoMemory) ⊎ ((fault ≡ Cycle) × HasCyclicAliasReachedFromSpecOrDefaults policy.now.walk.lines)) }
{
    let policy = AcyclicWalk::new(alloc, policy.walk())?;
    Ok(find_places_of_matching_host_groups(alloc, &policy, who)?)
}

/// Returns the places of the host groups whose users and whose hosts match `who`, as [`host_groups`] does.
///
/// # Errors
///
/// Memory ran out.
pub fn find_places_of_matching_host_groups(
    alloc: Global,
    policy: &AcyclicWalk<'_>,
    who: &Who,
) -> Result<Vec<HostGroupPlace>, AllocError>
    ensures { IfOk result (λ places. ArePlacesOfMatchingHostGroups policy.now who.now places.items) }
{
    // laws
    policy.is_acyclic();
    let mut users_said = policy.make_verdict_cache(alloc)?;
    let mut hosts_said = policy.make_verdict_cache(alloc)?;
    let mut places = Vec::new(alloc);
    let mut spec = 0;
    let lines = policy.lines();
    for row in lines.rows {
        if let Node::Spec { users, groups } = lines.tables.node_of_row(&row.node) {
            if is_allowed_by_list::<UserListKind>(
                &mut users_said,
                policy,
                Kind::User,
                &users,
                &who.user,
            )? {
                add_places_of_host_groups_with_matching_hosts(
                    &mut places,
                    &mut hosts_said,
                    policy,
                    who,
                    spec,
                    &groups,
                )?;
            }
            spec += 1;
        }
    }
    Ok(places)
}

/// Adds the places of the host groups of a user specification whose hosts match.
fn add_places_of_host_groups_with_matching_hosts<'a>(
    places: &mut Vec<HostGroupPlace>,
    verdicts: &mut AliasVerdictCache<'a>,
    policy: &AcyclicWalk<'a>,
    who: &Who,
    spec: usize,
    groups: &RowsOfTable<'_, HostGroupRow>,
) -> Result<(), AllocError>
    requires verdicts { IsValidVerdictCache OfHosts policy.now (is_host_atom_match who.now) verdicts.old }
    requires straight { HostGroupsLeadToNoCycle policy.now (host_groups_of_view groups.now) }
    ensures kept { IfOk result (λ _. IsValidVerdictCache OfHosts policy.now (is_host_atom_match who.now) verdicts.new) }
    ensures added { IfOk result (λ _. AddsAllParts (HoldsHostGroupPlaceIfHostsMatch policy.now who.now spec) (host_groups_of_view groups.now) places.old.items places.new.items) }
{
    let tables = groups.tables;
    for (host_group, row) in groups.rows.iter().enumerate() {
        let group = tables.host_group_of_row(row);
        if is_allowed_by_list::<HostListKind>(verdicts, policy, Kind::Host, &group.hosts, who)? {
            push_host_group_place(places, HostGroupPlace { spec, host_group })?;
        }
    }
    Ok(())
}

/// Adds `place` after `places`.
fn push_host_group_place(
    places: &mut Vec<HostGroupPlace>,
    place: HostGroupPlace,
) -> Result<(), AllocError>
    ensures { OnOk result (places.new.items ≡ places.old.items ++ place ∷ []) }
{
    places.push(place)?;
    Ok(())
}
