//! What the checks ask of a line, of what it says.

ghost use Rattle.std.specs.Prelude.{◌≡◌};
ghost use Rattle.sudoers_line_rows.specs.Tables.{node_in_tables};
ghost use Rattle.sudoers_line_rows.specs.View.{node_of_view};
ghost use Rattle.sudoers_check.specs.Numbers.{definition_count_in_node};
ghost use Rattle.sudoers_check.specs.internal.Noting.{alias_kind_in_node};

use sudoers_tree::{Kind, Node, NodeRow, Tables};

/// Returns how many definitions the line has that says what the row `row` of `tables` holds. Of a line without definitions, only the kind
/// is read.
pub fn count_definitions_in_row(tables: &Tables, row: &NodeRow) -> usize
    ensures { result ≡ definition_count_in_node (node_in_tables tables.now row.now) }
{
    match row {
        NodeRow::Alias { .. } => count_definitions_in_line(&tables.node_of_row(row)),
        _ => 0,
    }
}

/// Returns how many definitions the line has.
pub fn count_definitions_in_line(node: &Node<'_>) -> usize
    ensures { result ≡ definition_count_in_node (node_of_view node.now) }
{
    match node {
        Node::Alias { defs, .. } => defs.rows.len(),
        _ => 0,
    }
}

/// Returns the kind of which the line defines aliases, if it does.
pub fn find_defined_alias_kind(node: &Node<'_>) -> Option<Kind>
    ensures { result ≡ alias_kind_in_node (node_of_view node.now) }
{
    match node {
        Node::Alias { kind, .. } => Some(*kind),
        _ => None,
    }
}
