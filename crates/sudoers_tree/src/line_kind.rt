//! The kinds of lines.

ghost use Rattle.std.specs.Prelude.{◌≡◌};
ghost use Rattle.sudoers_line_rows.specs.View.{node_of_view};
ghost use Rattle.sudoers_tree.specs.Kind.{line_kind};

use sudoers_line_rows::Node;

/// The kind of a line (sudoers(5), SUDOERS FILE FORMAT).
#[derive(Clone, Copy, Debug, PartialEq, Eq)]
pub enum LineKind {
    /// Blanks alone, or nothing.
    Blank,
    /// A comment alone.
    Comment,
    /// An include of a file or of a folder.
    Include,
    /// Settings of parameters.
    Defaults,
    /// Definitions of aliases.
    Alias,
    /// A user specification.
    Spec,
}

impl LineKind {
    /// Returns the kind of a line that says `node`.
    pub fn from_parsed_node(node: &Node<'_>) -> LineKind
        ensures { result ≡ line_kind (node_of_view node.now) }
    {
        match node {
            Node::Blank => LineKind::Blank,
            Node::Comment => LineKind::Comment,
            Node::Include { .. } => LineKind::Include,
            Node::Defaults { .. } => LineKind::Defaults,
            Node::Alias { .. } => LineKind::Alias,
            Node::Spec { .. } => LineKind::Spec,
        }
    }
}
