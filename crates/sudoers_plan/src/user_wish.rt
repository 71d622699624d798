//! The edits after which a user stands nowhere by name.

ghost use Rattle.std.specs.Prelude.{◌≡◌, IfOk};
ghost use Rattle.sudoers_tree.specs.Walk.{spot_of_walk_line};
ghost use Rattle.sudoers_plan.specs.Plan.{IsOutcomeUnlessNoMemory};
ghost use Rattle.sudoers_plan.specs.User.{edits_of_user_lines, edits_to_lose_user};

use crate::fault::PlanFault;
use crate::user_aliases::find_aliases_of_user;
use crate::user_definitions::UserDefinitions;
use crate::user_lines::LeavingUser;
use crate::user_members::ListPart;
use crate::user_refusals::find_removal_fault;
use std::alloc::AllocError;
use sudoers_edit_script::Edits;
use sudoers_tree::{Policy, WalkLineSpot};

/// Returns the edits after which no rule and no alias names the user `user`. `even_denials` says whether members may go that deny him
/// something.
#[tactic(auto, unfolding(crate::specs::User::edits_to_lose_user))]
pub fn find_edits_to_lose_user(
    policy: &Policy,
    user: &[u8],
    even_denials: bool,
) -> Result<Edits, PlanFault>
    ensures { IsOutcomeUnlessNoMemory result (edits_to_lose_user user.now even_denials policy.now) }
{
    let definitions = UserDefinitions::from_policy(policy)?;
    let his = find_aliases_of_user(policy, &definitions, ListPart::Any, user)?;
    let emptied = find_aliases_of_user(policy, &definitions, ListPart::All, user)?;
    let leaving = LeavingUser {
        policy,
        user,
        emptied: &emptied,
    };
    if let Some(fault) = find_removal_fault(&leaving, &his, even_denials)? {
        return Err(fault);
    }
    Ok(list_edits_of_lines(&leaving)?)
}

/// Returns the edits of all lines of the walk, the last first.
fn list_edits_of_lines(leaving: &LeavingUser<'_>) -> Result<Edits, AllocError>
    ensures { IfOk result (λ edits. edits ≡ edits_of_user_lines leaving.now.user.now leaving.now.policy.now.walk leaving.now.emptied.now 0 leaving.now.policy.now.walk.lines) }
{
    let mut edits = Edits::new(leaving.policy.allocator());
    let lines = leaving.policy.lines();
    let mut left = lines.rows;
    while let Some((row, before)) = left.split_last() {
        leaving.append_edits_of_line(
            spot_of_line(leaving.policy, before.len()),
            lines.tables.bytes_of_text_row(row.text),
            &lines.tables.node_of_row(&row.node),
            &mut edits,
        )?;
        left = before;
    }
    Ok(edits)
}

/// Returns where the line of the walk with the number `number` stands.
pub fn spot_of_line(policy: &Policy, number: usize) -> WalkLineSpot
    ensures { result ≡ spot_of_walk_line policy.now.walk number }
{
    match policy.spots_of_walk_lines().get(number) {
        Some(spot) => *spot,
        None => WalkLineSpot {
            file: 0,
            line: 0,
            row: 1,
        },
    }
}
