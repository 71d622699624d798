//! Host groups by their places.

ghost use Rattle.std.specs.Prelude.{◌≡◌, map, IfOk};
ghost use Rattle.std.specs.Option.{option_map};
ghost use Rattle.sudoers_line_rows.specs.View.{host_group_of_view, host_groups_of_view};
ghost use Rattle.sudoers_list.specs.Listing.{host_group_at_spec_and_group_number, host_groups_at_places, host_groups_of_each_user_spec};

use std::alloc::{AllocError, Global};
use sudoers_line_rows::{HostGroup, HostGroupRow, Node, RowsOfTable};
use sudoers_match::HostGroupPlace;
use sudoers_match_list::AcyclicWalk;

/// Returns the host groups of each user specification.
fn list_host_groups_of_each_user_spec<'a>(
    alloc: Global,
    policy: &AcyclicWalk<'a>,
) -> Result<Vec<RowsOfTable<'a, HostGroupRow>>, AllocError>
    ensures { IfOk result (λ specs. map host_groups_of_view specs.items ≡ host_groups_of_each_user_spec policy.now) }
{
    let mut specs = Vec::new(alloc);
    let lines = policy.lines();
    for row in lines.rows {
        if let Node::Spec { groups, .. } = lines.tables.node_of_row(&row.node) {
            specs.push(groups)?;
        }
    }
    Ok(specs)
}

/// Returns the host group at `place`.
fn find_host_group_at_spec_and_group_number<'a>(
    specs: &[RowsOfTable<'a, HostGroupRow>],
    place: HostGroupPlace,
) -> Option<HostGroup<'a>>
    ensures { option_map host_group_of_view result ≡ host_group_at_spec_and_group_number (map host_groups_of_view specs.now) place }
{
    let groups = specs.get(place.spec)?;
    let row = groups.rows.get(place.host_group)?;
    Some(groups.tables.host_group_of_row(row))
}

/// Returns the host groups at `places`.
///
/// # Errors
///
/// Memory ran out.
pub fn collect_host_groups_at<'a>(
    alloc: Global,
    policy: &AcyclicWalk<'a>,
    places: &[HostGroupPlace],
) -> Result<Vec<HostGroup<'a>>, AllocError>
    ensures { IfOk result (λ groups. map host_group_of_view groups.items ≡ host_groups_at_places policy.now places.now) }
{
    let specs = list_host_groups_of_each_user_spec(alloc, policy)?;
    let mut groups = Vec::new(alloc);
    for place in places {
        if let Some(group) = find_host_group_at_spec_and_group_number(specs.as_slice(), *place) {
            groups.push(group)?;
        }
    }
    Ok(groups)
}
