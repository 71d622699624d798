//! The definitions of a policy in file order, as rows.

ghost use Rattle.std.specs.Prelude.{◌≡◌, ◌++◌, map, slice_get, IfOk, OnOk};
ghost use Rattle.sudoers_line_rows.specs.Tables.{alias_definition_in_tables, node_in_tables};
ghost use Rattle.sudoers_tree.specs.Definition.{definitions_of_lines};
ghost use Rattle.sudoers_tree.specs.Line.{lines_of_rows};
ghost use Rattle.sudoers_match_list.specs.internal.Shortcuts.{kind_and_members_of_def, kinds_and_members_in_node, kinds_and_members_in_line, kind_and_members_of_row, kind_and_members_of_definition};

use crate::acyclic::AcyclicWalk;
use std::alloc::{AllocError, Global};
use sudoers_line_rows::{AliasDefinitionRow, MemberRow, NodeRow, RowsOfTable, Tables, rows_in};
use sudoers_tree::{Kind, LineRow};

/// A definition: its kind, and its members.
#[derive(Clone, Copy)]
pub struct DefinitionKindAndMembers<'a> {
    pub kind: Kind,
    pub members: &'a [MemberRow],
}

/// Appends definitions of this kind.
fn append_rows_as_definitions_of_kind<'a>(
    tables: &'a Tables,
    kind: Kind,
    rows: &[AliasDefinitionRow],
    out: &mut Vec<DefinitionKindAndMembers<'a>>,
) -> Result<(), AllocError>
    ensures { OnOk result (map (kind_and_members_of_row tables.now) out.new.items
        ≡ map (kind_and_members_of_row tables.now) out.old.items ++ map (kind_and_members_of_def kind) (map (alias_definition_in_tables tables.now) rows.now)) }
{
    for row in rows {
        let members = rows_in(tables.members.as_slice(), row.members);
        out.push(DefinitionKindAndMembers { kind, members })?;
    }
    Ok(())
}

/// Appends the definitions of a line that says `row`.
#[tactic(auto, using(crate::proofs::DefinitionLines::definitions_from_place_have_kinds_and_members))]
fn append_definitions_of_line<'a>(
    tables: &'a Tables,
    row: &NodeRow,
    out: &mut Vec<DefinitionKindAndMembers<'a>>,
) -> Result<(), AllocError>
    ensures { OnOk result (map (kind_and_members_of_row tables.now) out.new.items
        ≡ map (kind_and_members_of_row tables.now) out.old.items ++ kinds_and_members_in_node (node_in_tables tables.now row.now)) }
{
    match *row {
        NodeRow::Alias { kind, defs } => {
            append_rows_as_definitions_of_kind(
                tables,
                kind,
                rows_in(tables.defs.as_slice(), defs),
                out,
            )
        }
        _ => Ok(()),
    }
}

/// Appends the definitions of the line with this number, if there is one.
fn append_definitions_at_line<'a>(
    lines: &RowsOfTable<'a, LineRow>,
    line: usize,
    out: &mut Vec<DefinitionKindAndMembers<'a>>,
) -> Result<(), AllocError>
    ensures { OnOk result (map (kind_and_members_of_row lines.now.tables.now) out.new.items
        ≡ map (kind_and_members_of_row lines.now.tables.now) out.old.items ++ kinds_and_members_in_line (slice_get (lines_of_rows lines.now) line)) }
{
    match lines.rows.get(line) {
        Some(row) => append_definitions_of_line(lines.tables, &row.node, out),
        None => Ok(()),
    }
}

/// Returns the definitions of the policy that has these lines. It looks at the lines alone that define aliases.
///
/// # Errors
///
/// Memory ran out.
pub fn list_definitions<'a>(
    alloc: Global,
    policy: &AcyclicWalk<'_>,
    lines: &RowsOfTable<'a, LineRow>,
) -> Result<Vec<DefinitionKindAndMembers<'a>>, AllocError>
    requires { lines_of_rows lines.now ≡ policy.now }
    ensures { IfOk result (λ all. map (kind_and_members_of_row lines.now.tables.now) all.items ≡ map kind_and_members_of_definition (definitions_of_lines policy.now)) }
{
    let mut all = Vec::new(alloc);
    let firsts = policy.definition_numbers().alias_lines();
    for first in firsts {
        append_definitions_at_line(lines, first.line, &mut all)?;
    }
    Ok(all)
}
