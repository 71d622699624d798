//! The listing of a user.

ghost use Rattle.std.specs.Prelude.{◌≡◌, ◌⊎◌, ◌++◌, map, OnOk, IfOk, IfErr};
ghost use Rattle.sudoers_line_rows.specs.View.{host_group_of_view};
ghost use Rattle.sudoers_check.specs.Chains.{HasCyclicAliasReachedFromSpecOrDefaults};
ghost use Rattle.sudoers_match_list.specs.declared.verdict.AskFault.TheVariants.{Cycle, NoMemory};
ghost use Rattle.sudoers_match.specs.Default.{IsRunasDefault};
ghost use Rattle.sudoers_list.specs.Listing.{IsListingOfUser, listing_heading, text_after_host_name, text_before_host_name};

use crate::groups::collect_host_groups_at;
use crate::listed_commands::{
    UserAndRunasDefaultNames, append_host_groups_commands, append_runas_name,
};
use std::alloc::{AllocError, Global};
use sudoers_line_rows::{HostGroup, Tables};
use sudoers_match::{find_places_of_matching_host_groups, find_runas_default_for};
use sudoers_match_list::{AcyclicWalk, AskFault};
use sudoers_match_member::Who;
use sudoers_tree::Policy;

/// Returns what stands before the name of the host.
fn choose_text_before_host(groups: &[HostGroup<'_>]) -> &'static [u8]
    ensures { result.now ≡ text_before_host_name (map host_group_of_view groups.now) }
{
    if groups.is_empty() {
        return b" may run nothing on ";
    }
    b" on "
}

/// Returns what stands after the name of the host.
fn choose_text_after_host(groups: &[HostGroup<'_>]) -> &'static [u8]
    ensures { result.now ≡ text_after_host_name (map host_group_of_view groups.now) }
{
    if groups.is_empty() {
        return b".\n";
    }
    b":\n"
}

/// Appends the first line.
fn append_listing_heading(
    alloc: Global,
    out: &mut Vec<u8>,
    tables: &Tables,
    who: &Who,
    groups: &[HostGroup<'_>],
) -> Result<(), AllocError>
    ensures { OnOk result (out.new.items ≡ out.old.items ++ listing_heading who.now.user.name who.now.long_host (map host_group_of_view groups.now)) }
{
    append_runas_name(alloc, out, tables, who.user.name.as_slice())?;
    out.extend_from_slice(choose_text_before_host(groups))?;
    out.extend_from_slice(who.long_host.as_slice())?;
    out.extend_from_slice(choose_text_after_host(groups))
}

/// Returns what `who` may run, as a text: a heading, and a line for each command of the host groups whose users and hosts match.
/// Each line says as whom the command runs, its options and its tags.
///
/// # Errors
///
/// `Cycle`: a reachable alias is cyclic. `NoMemory`: memory ran out.
pub fn list(alloc: Global, policy: &Policy, who: &Who) -> Result<Vec<u8>, AskFault>
    ensures text { IfOk result (λ text. IsListingOfUser policy.now.walk.lines who.now text.items) }
    ensures straight { IfOk result (λ _. HasCyclicAliasReachedFromSpecOrDefaults policy.now.walk.lines → ⊥) }
    ensures fault { IfErr result (λ fault. (fault ≡ NoMemory) ⊎ ((fault ≡ Cycle) × HasCyclicAliasReachedFromSpecOrDefaults policy.now.walk.lines)) }
{
    let policy = AcyclicWalk::new(alloc, policy.walk())?;
    let default = find_runas_default_for(alloc, &policy, who)?;
    Ok(list_rules_as_text(alloc, &policy, who, default)?)
}

/// Returns what `who` may run, as [`list`] does. `default` is the user as whom a command runs where nothing else is said.
///
/// # Errors
///
/// Memory ran out.
pub fn list_rules_as_text(
    alloc: Global,
    policy: &AcyclicWalk<'_>,
    who: &Who,
    default: &[u8],
) -> Result<Vec<u8>, AllocError>
    requires { IsRunasDefault policy.now who.now default.now }
    ensures { IfOk result (λ text. IsListingOfUser policy.now who.now text.items) }
{
    let places = find_places_of_matching_host_groups(alloc, policy, who)?;
    let groups = collect_host_groups_at(alloc, policy, places.as_slice())?;
    let names = UserAndRunasDefaultNames {
        user: who.user.name.as_slice(),
        default,
    };
    let mut out = Vec::new(alloc);
    append_listing_heading(
        alloc,
        &mut out,
        policy.lines().tables,
        who,
        groups.as_slice(),
    )?;
    append_host_groups_commands(alloc, &mut out, &names, groups.as_slice())?;
    Ok(out)
}
