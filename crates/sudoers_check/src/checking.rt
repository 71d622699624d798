//! The checks.

ghost use Rattle.std.specs.Prelude.{◌≡◌, ◌++◌, true, false, length, map, IfOk, OnOk};
ghost use Rattle.sudoers_line_rows.specs.View.{node_of_view};
ghost use Rattle.sudoers_tree.specs.FilePlaces.{file_place_of_walk_place};
ghost use Rattle.sudoers_tree.specs.Line.{lines_of_rows};
ghost use Rattle.sudoers_tree.specs.Definition.{definitions_of_lines, PlacedDefinition};
ghost use Rattle.sudoers_check.specs.Led.{is_used, is_cyclic, unused_definitions_of_lines, cyclic_definitions_of_lines};
ghost use Rattle.sudoers_check.specs.Numbers.{definitions_with_mark, mention_graph_of_definitions, root_numbers_in_lines_numbered_from};
ghost use Rattle.sudoers_check.specs.internal.Noting.{unmarked_places_in_line_counted_from, unmarked_places_in_line_node};
ghost use Rattle.sudoers_check.specs.Report.{report_of_walk};

use crate::cycles::find_nodes_on_cycles;
use crate::definition_counts_and_line_kinds::{count_definitions_in_line, find_defined_alias_kind};
use crate::definition_numbers::{DefinitionNumbers, MentionLinks};
use crate::graph::Graph;
use crate::notes::{make_notes_of_definitions, make_notes_of_undefined_names};
use crate::report::Report;
use std::alloc::{AllocError, Global};
use sudoers_tree::{DefinitionFilePlace, Kind, LineRow, Node, Place, Policy, RowsOfTable, Walk};

/// Returns what is to be noted of the aliases of a policy (visudo(8)).
///
/// # Errors
///
/// Memory ran out.
pub fn check(alloc: Global, policy: &Policy) -> Result<Report, AllocError>
    ensures { IfOk result (λ report. report ≡ report_of_walk policy.now.walk) }
{
    let numbers = DefinitionNumbers::new(alloc, policy.walk())?;
    let lines = policy.lines();
    let links = numbers.make_mention_links(alloc, &lines)?;
    let reached = mark_reached_definitions(alloc, &numbers, &links, &lines)?;
    let cyclic = mark_cyclic_definitions(alloc, &numbers, &links.graph)?;
    Ok(Report {
        undefined: make_notes_of_undefined_names(alloc, policy, links.undefined.as_slice())?,
        cyclic: make_notes_of_definitions(alloc, policy, cyclic.as_slice(), true)?,
        unused: make_notes_of_definitions(alloc, policy, reached.as_slice(), false)?,
    })
}

/// Returns the places of the definitions to which no user specification and no Defaults line leads, with their kinds, in the order of
/// the walk.
///
/// # Errors
///
/// Memory ran out.
pub fn unused(
    alloc: Global,
    policy: &Policy,
) -> Result<Vec<(Kind, DefinitionFilePlace)>, AllocError>
    ensures { IfOk result (λ places. places.items
        ≡ map (λ (d : PlacedDefinition). (d.kind, file_place_of_walk_place policy.now.walk d.place)) (unused_definitions_of_lines policy.now.walk.lines)) }
{
    let on_walk = list_unused_definitions_of_walk(alloc, policy.walk())?;
    let mut places = Vec::with_capacity(alloc, on_walk.len())?;
    for found in on_walk.as_slice() {
        places.push((found.0, policy.file_place_of_walk_place(found.1)))?;
    }
    Ok(places)
}

/// Returns the definitions of a walk to which no user specification and no Defaults line leads, as [`unused`] does. The line of a
/// place is its number on the walk.
///
/// # Errors
///
/// Memory ran out.
pub fn list_unused_definitions_of_walk(
    alloc: Global,
    walk: Walk<'_>,
) -> Result<Vec<(Kind, Place)>, AllocError>
    ensures { IfOk result (λ places. places.items ≡ map (λ (d : PlacedDefinition). (d.kind, d.place)) (unused_definitions_of_lines walk.entry)) }
{
    let numbers = DefinitionNumbers::new(alloc, walk)?;
    let reached = mark_used_definitions(alloc, &numbers, &numbers.walk.lines())?;
    find_unmarked_definitions(alloc, &numbers.walk, reached.as_slice())
}

/// Returns the places of the definitions that have no mark, with their kinds.
fn find_unmarked_definitions(
    alloc: Global,
    walk: &Walk<'_>,
    marks: &[bool],
) -> Result<Vec<(Kind, Place)>, AllocError>
    requires { length marks.now ≡ length (definitions_of_lines walk.now) }
    ensures { IfOk result (λ places. places.items
        ≡ map (λ (d : PlacedDefinition). (d.kind, d.place)) (definitions_with_mark false marks.now (definitions_of_lines walk.now))) }
{
    let mut places = Vec::new(alloc);
    let mut rest = marks;
    let lines = walk.lines();
    for (number, row) in lines.rows.iter().enumerate() {
        let node = lines.tables.node_of_row(&row.node);
        let (here, behind) = rest.split_at(count_definitions_in_line(&node));
        append_unmarked_of_line(number, &node, here, &mut places)?;
        rest = behind;
    }
    Ok(places)
}

/// Returns a mark for each numbered definition: whether a user specification or a Defaults line among `lines` leads to it. The lines
/// define what the walk of `numbers` defines.
///
/// # Errors
///
/// Memory ran out.
pub fn mark_used_definitions(
    alloc: Global,
    numbers: &DefinitionNumbers<'_>,
    lines: &RowsOfTable<'_, LineRow>,
) -> Result<Vec<bool>, AllocError>
    requires { definitions_of_lines (lines_of_rows lines.now) ≡ definitions_of_lines numbers.now.walk }
    ensures { IfOk result (λ marks. marks.items ≡ map (is_used (lines_of_rows lines.now)) (definitions_of_lines (lines_of_rows lines.now))) }
{
    let links = numbers.make_mention_links(alloc, lines)?;
    mark_reached_definitions(alloc, numbers, &links, lines)
}

/// Returns a mark for each definition: whether a user specification or a Defaults line among `lines` leads to it. The lines define what
/// the walk of `numbers` defines.
fn mark_reached_definitions(
    alloc: Global,
    numbers: &DefinitionNumbers<'_>,
    links: &MentionLinks,
    lines: &RowsOfTable<'_, LineRow>,
) -> Result<Vec<bool>, AllocError>
    requires graph { links.now.graph ≡ mention_graph_of_definitions (definitions_of_lines numbers.now.walk) }
    requires roots { links.now.roots.items ≡ root_numbers_in_lines_numbered_from (definitions_of_lines numbers.now.walk) 0 (lines_of_rows lines.now) }
    requires same { definitions_of_lines (lines_of_rows lines.now) ≡ definitions_of_lines numbers.now.walk }
    ensures { IfOk result (λ marks. marks.items ≡ map (is_used (lines_of_rows lines.now)) (definitions_of_lines (lines_of_rows lines.now))) }
{
    // laws
    numbers.walk.is_walk();
    let marks = links
        .graph
        .find_reached_nodes(alloc, links.roots.as_slice())?;
    Ok(marks)
}

/// Returns a mark for each definition: whether it is joined to itself.
fn mark_cyclic_definitions(
    alloc: Global,
    numbers: &DefinitionNumbers<'_>,
    graph: &Graph,
) -> Result<Vec<bool>, AllocError>
    requires { graph.now ≡ mention_graph_of_definitions (definitions_of_lines numbers.now.walk) }
    ensures { IfOk result (λ marks. marks.items ≡ map (is_cyclic numbers.now.walk) (definitions_of_lines numbers.now.walk)) }
{
    // laws
    numbers.walk.is_walk();
    let marks = find_nodes_on_cycles(alloc, graph)?;
    Ok(marks)
}

/// Adds the places of those of a line's definitions that have no mark.
fn append_unmarked_of_line(
    number: usize,
    node: &Node<'_>,
    marks: &[bool],
    places: &mut Vec<(Kind, Place)>,
) -> Result<(), AllocError>
    ensures { OnOk result (places.new.items ≡ places.old.items ++ unmarked_places_in_line_node number marks.now (node_of_view node.now)) }
{
    match find_defined_alias_kind(node) {
        Some(kind) => append_unmarked_places_in_line(number, kind, marks, places),
        None => Ok(()),
    }
}

fn append_unmarked_places_in_line(
    line: usize,
    kind: Kind,
    marks: &[bool],
    places: &mut Vec<(Kind, Place)>,
) -> Result<(), AllocError>
    ensures { OnOk result (places.new.items ≡ places.old.items ++ unmarked_places_in_line_counted_from line kind 0 marks.now) }
{
    for (def, mark) in marks.iter().enumerate() {
        if !*mark {
            places.push((kind, Place { line, def }))?;
        }
    }
    Ok(())
}
