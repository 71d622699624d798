//! Where include lines lead.

ghost use Rattle.std.specs.Prelude.{◌≡◌, ◌++◌, ℕ, List, None, codes, false, true, IfOk};
ghost use Rattle.sudoers_line_rows.specs.View.{node_of_view};
ghost use Rattle.sudoers_tree.specs.Lead.{lead_of_parsed_line, include_lead_of_line};

use std::alloc::{AllocError, Global};
use sudoers_tree::{Lead, Node};

/// Returns where a line of the file `name` leads that says `node`.
///
/// # Errors
///
/// Memory ran out.
pub fn lead_of_node(alloc: Global, name: &[u8], node: &Node<'_>) -> Result<Option<Lead>, AllocError>
    ensures { IfOk result (λ lead. lead ≡ lead_of_parsed_line name.now (node_of_view node.now)) }
{
    sudoers_tree::lead_of_include_node(alloc, name, node)
}

/// Returns where the line `line` of the file `name` leads.
///
/// # Errors
///
/// Memory ran out.
pub fn lead_of_line(alloc: Global, name: &[u8], line: &[u8]) -> Result<Option<Lead>, AllocError>
    ensures { IfOk result (λ lead. lead ≡ include_lead_of_line name.now line.now) }
{
    sudoers_tree::leads(alloc, name, line)
}

/// Returns whether a part of `text` may lead somewhere.
pub fn may_lead_somewhere(text: &[u8]) -> bool
    ensures nowhere { result ≡ false → (name before line after : List ℕ) → text.now ≡ before ++ (line ++ after) → include_lead_of_line name line ≡ None }
    ensures held { result ≡ true → (before : List ℕ) × (after : List ℕ) × (text.now ≡ before ++ (codes "include" ++ after)) }
{
    sudoers_tree::may_include_files(text)
}
