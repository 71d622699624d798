//! Notes of names with their places.

ghost use Rattle.std.specs.Prelude.{◌≡◌, ◌<◌, ◌++◌, ◌∷◌, [], List, Some, length, map, slice_get, IfOk, OnOk};
ghost use Rattle.sudoers_line_rows.specs.View.{alias_definitions_of_view, node_of_view};
ghost use Rattle.sudoers_tree.specs.Definition.{definitions_of_lines};
ghost use Rattle.sudoers_tree.specs.Line.{Line as LineOf, line_of_view};
ghost use Rattle.sudoers_tree.specs.Walk.{spot_of_walk_line};
ghost use Rattle.sudoers_check.specs.Report.{note_in_line_text, note_of_mention, note_of_definition, undefined_mentions_of_lines, new_undefined_mentions, is_first_mention_of_undefined};
ghost use Rattle.sudoers_check.specs.Mentioned.{Mention as MentionOf, mentions_in_node};
ghost use Rattle.sudoers_check.specs.Numbers.{definitions_with_mark};
ghost use Rattle.sudoers_check.specs.internal.Noting.{has_undefined_alias_in_line, notes_of_definitions_in_line_with_mark, notes_of_definitions_in_line_node_with_mark, notes_of_mentions, AreKeysOfUndefinedMentions};

use crate::definition_counts_and_line_kinds::count_definitions_in_row;
use crate::line_mentions::{Mention, find_mentions_in_line};
use crate::physical_line_cursor::{PhysicalLineCursor, make_cursor_at_line};
use crate::report::Note;
use crate::seen_names::SeenAliasNames;
use std::alloc::{AllocError, Global};
use sudoers_tree::{AliasDefinitionRow, Items, Kind, Line, Node, Policy, RowsOfTable, Walk};

/// Returns the notes of the definitions with the mark `wanted`; there is a mark for each definition.
///
/// # Errors
///
/// Memory ran out.
pub fn make_notes_of_definitions(
    alloc: Global,
    policy: &Policy,
    marks: &[bool],
    wanted: bool,
) -> Result<Items<Note>, AllocError>
    requires { length marks.now ≡ length (definitions_of_lines policy.now.walk.lines) }
    ensures { IfOk result (λ notes. notes
        ≡ map (note_of_definition policy.now.walk) (definitions_with_mark wanted marks.now (definitions_of_lines policy.now.walk.lines))) }
{
    let mut notes = Vec::new(alloc);
    if !marks.contains(&wanted) {
        return Ok(Items::from_vec(notes));
    }
    let mut rest = marks;
    let lines = policy.lines();
    for (number, line_row) in lines.rows.iter().enumerate() {
        let (here, behind) = rest.split_at(count_definitions_in_row(lines.tables, &line_row.node));
        if here.contains(&wanted) {
            let line = Line::from_line_row(lines.tables, line_row);
            let mut cursor = make_cursor_at_line(policy, number, &line);
            append_notes_of_line(alloc, &mut cursor, &line.node, here, wanted, &mut notes)?;
        }
        rest = behind;
    }
    Ok(Items::from_vec(notes))
}

/// Adds the notes of those of a line's definitions that have the mark `wanted`.
fn append_notes_of_line(
    alloc: Global,
    cursor: &mut PhysicalLineCursor<'_>,
    node: &Node<'_>,
    marks: &[bool],
    wanted: bool,
    notes: &mut Vec<Note>,
) -> Result<(), AllocError>
    ensures { OnOk result (notes.new.items ≡ notes.old.items
        ++ notes_of_definitions_in_line_node_with_mark wanted cursor.old.spot cursor.old.text.now marks.now (node_of_view node.now)) }
{
    match node {
        Node::Alias { kind, defs } => append_notes_of_definitions(
            alloc, cursor, *kind, defs, marks, wanted, notes,
        ),
        _ => Ok(()),
    }
}

/// Adds the notes of those of the definitions that have the mark `wanted`.
fn append_notes_of_definitions(
    alloc: Global,
    cursor: &mut PhysicalLineCursor<'_>,
    kind: Kind,
    defs: &RowsOfTable<'_, AliasDefinitionRow>,
    marks: &[bool],
    wanted: bool,
    notes: &mut Vec<Note>,
) -> Result<(), AllocError>
    ensures { OnOk result (notes.new.items ≡ notes.old.items
        ++ notes_of_definitions_in_line_with_mark wanted cursor.old.spot cursor.old.text.now kind marks.now (alias_definitions_of_view defs.now)) }
{
    let mut rest = marks;
    let tables = defs.tables;
    for row in defs.rows {
        let Some((mark, behind)) = rest.split_first() else {
            break;
        };
        let def = tables.alias_definition_of_row(row);
        if *mark == wanted {
            notes.push(make_note_at(alloc, cursor, kind, def.name, def.start)?)?;
        }
        rest = behind;
    }
    Ok(())
}

/// Returns the notes of the names that are mentioned and not defined, each where it is first mentioned. `marks` has a mark for each line:
/// whether it mentions such a name.
///
/// # Errors
///
/// Memory ran out.
pub fn make_notes_of_undefined_names(
    alloc: Global,
    policy: &Policy,
    marks: &[bool],
) -> Result<Items<Note>, AllocError>
    requires { marks.now ≡ map (has_undefined_alias_in_line (definitions_of_lines policy.now.walk.lines)) policy.now.walk.lines }
    ensures { IfOk result (λ notes. notes ≡ map (note_of_mention policy.now.walk) (undefined_mentions_of_lines policy.now.walk.lines)) }
{
    let mut notes = Vec::new(alloc);
    let mut seen = SeenAliasNames::new(alloc);
    for (number, mark) in marks.iter().enumerate() {
        if *mark {
            append_notes_of_undefined_in_line(alloc, policy, number, &mut seen, &mut notes)?;
        }
    }
    Ok(Items::from_vec(notes))
}

/// Adds the notes of the undefined names of the line with the number `number` of the walk that were not seen yet.
fn append_notes_of_undefined_in_line(
    alloc: Global,
    policy: &Policy,
    number: usize,
    seen: &mut SeenAliasNames,
    notes: &mut Vec<Note>,
) -> Result<(), AllocError>
    requires { number < length policy.now.walk.lines }
    ensures notes { OnOk result ((line : LineOf) → slice_get policy.now.walk.lines number ≡ Some line → (before : List MentionOf)
        → AreKeysOfUndefinedMentions (definitions_of_lines policy.now.walk.lines) seen.old before
        → notes.new.items ≡ notes.old.items ++ notes_of_mentions (spot_of_walk_line policy.now.walk number) line.text
        (new_undefined_mentions (definitions_of_lines policy.now.walk.lines) before (mentions_in_node number line.node))) }
    ensures seen { OnOk result ((line : LineOf) → slice_get policy.now.walk.lines number ≡ Some line → (before : List MentionOf)
        → AreKeysOfUndefinedMentions (definitions_of_lines policy.now.walk.lines) seen.old before
        → AreKeysOfUndefinedMentions (definitions_of_lines policy.now.walk.lines) seen.new (before ++ mentions_in_node number line.node)) }
{
    let lines = policy.lines();
    let line = Line::from_line_row(lines.tables, &lines.rows[number]);
    let mentions = find_mentions_in_line(alloc, number, &line.node)?;
    let mut cursor = make_cursor_at_line(policy, number, &line);
    let walk = policy.walk();
    append_notes_of_undefined(alloc, &walk, mentions.as_slice(), &mut cursor, seen, notes)
}

/// Adds the notes of the undefined names of a line that were not seen yet.
fn append_notes_of_undefined(
    alloc: Global,
    walk: &Walk<'_>,
    mentions: &[Mention<'_>],
    cursor: &mut PhysicalLineCursor<'_>,
    seen: &mut SeenAliasNames,
    notes: &mut Vec<Note>,
) -> Result<(), AllocError>
    ensures notes { OnOk result ((before : List MentionOf) → AreKeysOfUndefinedMentions (definitions_of_lines walk.now) seen.old before
        → notes.new.items ≡ notes.old.items ++ notes_of_mentions cursor.old.spot cursor.old.text.now
        (new_undefined_mentions (definitions_of_lines walk.now) before mentions.now)) }
    ensures seen { OnOk result ((before : List MentionOf) → AreKeysOfUndefinedMentions (definitions_of_lines walk.now) seen.old before
        → AreKeysOfUndefinedMentions (definitions_of_lines walk.now) seen.new (before ++ mentions.now)) }
{
    for mention in mentions {
        if is_first_undefined_mention(alloc, walk, mention, seen)? {
            let start = mention.span.start;
            notes.push(make_note_at(alloc, cursor, mention.kind, mention.name, start)?)?;
        }
    }
    Ok(())
}

/// Returns whether the name is not defined, and was not seen before.
fn is_first_undefined_mention(
    alloc: Global,
    walk: &Walk<'_>,
    mention: &Mention<'_>,
    seen: &mut SeenAliasNames,
) -> Result<bool, AllocError>
    ensures is { IfOk result (λ first. (before : List MentionOf) → AreKeysOfUndefinedMentions (definitions_of_lines walk.now) seen.old before
        → first ≡ is_first_mention_of_undefined (definitions_of_lines walk.now) before mention.now) }
    ensures seen { OnOk result ((before : List MentionOf) → AreKeysOfUndefinedMentions (definitions_of_lines walk.now) seen.old before
        → AreKeysOfUndefinedMentions (definitions_of_lines walk.now) seen.new (before ++ mention.now ∷ [])) }
{
    if walk
        .place_of_definition(mention.kind, mention.name)
        .is_some()
    {
        return Ok(false);
    }
    seen.add_alias_name(alloc, mention.kind, mention.name)
}

/// Returns the note of a name that begins at this byte of the cursor's line.
fn make_note_at(
    alloc: Global,
    cursor: &mut PhysicalLineCursor<'_>,
    kind: Kind,
    name: &[u8],
    start: usize,
) -> Result<Note, AllocError>
    ensures note { IfOk result (λ note. note ≡ note_in_line_text cursor.old.spot cursor.old.text.now kind name.now start) }
    ensures text { cursor.new.text.now ≡ cursor.old.text.now }
    ensures spot { cursor.new.spot ≡ cursor.old.spot }
{
    let (line, col) = cursor.find_line_and_column(start);
    let name = Items::from_slice(alloc, name)?;
    Ok(Note {
        kind,
        name,
        file: cursor.spot.file,
        line,
        col,
    })
}
