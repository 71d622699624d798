//! What a prune takes out of the files on the walk.
ghost use Rattle.std.specs.Prelude.{◌≡◌, ◌≤◌, ◌<◌, ◌^◌, ◌++◌, length, ℕ, IfOk, OnOk};
ghost use Rattle.std.specs.List.{All};
ghost use Rattle.sudoers_grammar.specs.declared.node.Kind.{Kind as AKind};
ghost use Rattle.sudoers_line_rows.specs.View.{node_of_view};
ghost use Rattle.sudoers_tree.specs.declared.place.Place.{Place as APlace};
ghost use Rattle.sudoers_tree.specs.Definition.{definitions_of_lines, definitions_in_line};
ghost use Rattle.sudoers_tree.specs.Walk.{spot_of_walk_line as the_spot};
ghost use Rattle.sudoers_edit.specs.Pruning.{prune_removals_of_walk as the_removals};
ghost use Rattle.sudoers_edit.specs.internal.PruneOrder.{leading_place_count_in_line, removals_of_spot_and_places};

use std::alloc::{AllocError, Global};
use sudoers_check::list_unused_definitions_of_walk;
use sudoers_tree::{Kind, Node, Place, Policy, WalkLineSpot};

/// What Prune takes out.
#[derive(Clone, Copy)]
pub enum PruneRemoval {
    /// A line of definitions of the file, none of which is left.
    Line { file: u32, at: u32 },
    /// A definition of a line of the file.
    Def { file: u32, line: u32, at: u32 },
}

/// Returns what Prune takes out of a policy, in its order.
pub fn list_prune_removals(alloc: Global, policy: &Policy) -> Result<Vec<PruneRemoval>, AllocError>
    ensures { IfOk result (λ removals. removals.items ≡ the_removals policy.now.walk) }
{
    // laws
    policy.is_loaded();
    let places = list_unused_definitions_of_walk(alloc, policy.walk())?;
    let mut removals = Vec::new(alloc);
    let mut rest = places.as_slice();
    let lines = policy.lines();
    for (number, row) in lines.rows.iter().enumerate() {
        let (here, behind) = rest.split_at(count_leading_places_in_line(rest, number));
        append_removals_of_line(
            policy_walk_spot_at(policy, number),
            definition_count_of_node(&lines.tables.node_of_row(&row.node)),
            here,
            &mut removals,
        )?;
        rest = behind;
    }
    removals.reverse();
    Ok(removals)
}

/// Returns where a line of the walk stands.
fn policy_walk_spot_at(policy: &Policy, number: usize) -> WalkLineSpot
    ensures { result ≡ the_spot policy.now.walk number }
{
    match policy.spots_of_walk_lines().get(number) {
        Some(spot) => *spot,
        None => WalkLineSpot {
            file: 0,
            line: 0,
            row: 1,
        },
    }
}

/// Returns how many of the first places are in the line.
fn count_leading_places_in_line(places: &[(Kind, Place)], line: usize) -> usize
    ensures is { result ≡ leading_place_count_in_line line places.now }
    ensures within { result ≤ length places.now }
{
    let mut count: usize = 0;
    for (_, place) in places {
        if place.line != line {
            break;
        }
        count += 1;
    }
    count
}

/// Returns how many definitions a line has.
fn definition_count_of_node(node: &Node<'_>) -> usize
    ensures { (n : ℕ) → result ≡ length (definitions_in_line n (node_of_view node.now)) }
{
    match node {
        Node::Alias { defs, .. } => defs.rows.len(),
        _ => 0,
    }
}

/// Appends the removals of one line: the line if all its definitions are unused, or else each of those at these places.
fn append_removals_of_line(
    at: WalkLineSpot,
    count: usize,
    here: &[(Kind, Place)],
    removals: &mut Vec<PruneRemoval>,
) -> Result<(), AllocError>
    requires file { at.file < 2 ^ 32 }
    requires line { at.line < 2 ^ 32 }
    requires defs { All (λ (p : AKind × APlace). p.1.def < 2 ^ 32) here.now }
    ensures { OnOk result (removals.new.items ≡ removals.old.items ++ removals_of_spot_and_places at count here.now) }
{
    if here.is_empty() {
        return Ok(());
    }
    if here.len() == count {
        removals.push(PruneRemoval::Line {
            file: at.file as u32,
            at: at.line as u32,
        })?;
        return Ok(());
    }
    for (_, place) in here {
        removals.push(PruneRemoval::Def {
            file: at.file as u32,
            line: at.line as u32,
            at: place.def as u32,
        })?;
    }
    Ok(())
}
