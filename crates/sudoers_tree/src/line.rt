//! Lines with what they say.

ghost use Rattle.std.specs.Prelude.{◌≡◌, ◌==◌, true};
ghost use Rattle.std.specs.Int.Bits.{bit_and};
ghost use Rattle.sudoers_line_rows.specs.declared.rows.Tables.{Tables as TablesOf};
ghost use Rattle.sudoers_line_rows.specs.Tables.{node_in_tables};
ghost use Rattle.sudoers_tree.specs.Kind.{line_kind};
ghost use Rattle.sudoers_tree.specs.Line.{line_of_row, line_of_view};

use crate::line_kind::LineKind;
use crate::name_bits::NameFilterBits;
use sudoers_line_rows::{ByteRange, Node, NodeRow, Tables};

/// A row of the table of lines: where the line's text stands in the tables, and what it says.
#[derive(Clone, Copy)]
pub struct LineRow {
    pub text: ByteRange,
    pub node: NodeRow,
    /// How many LF the text has.
    pub lfs: u32,
    /// The bits of the names of aliases that stand in the line.
    pub bits: u64,
}

impl LineRow {
    /// Returns whether the text of the line stands at the same bytes of the tables as that of the row `other`.
    pub(crate) fn shares_text_bytes_with(&self, other: &LineRow) -> bool
        ensures { result ≡ true → self.now.text ≡ other.now.text }
    {
        self.text.from == other.text.from && self.text.to == other.text.to
    }

    /// Returns whether an alias of a name with the bits `bits` may stand in the line.
    pub fn may_have_alias_with_bits(&self, bits: NameFilterBits) -> bool
        ensures { result ≡ (bit_and self.now.bits bits.set == bits.set) }
    {
        bits.are_all_set_in(self.bits)
    }

    /// Returns the kind of the line.
    pub(crate) fn kind_of_line_row(&self) -> LineKind
        ensures { (tables : TablesOf) → result ≡ line_kind (node_in_tables tables self.now.node) }
    {
        match self.node {
            NodeRow::Blank => LineKind::Blank,
            NodeRow::Comment => LineKind::Comment,
            NodeRow::Include { .. } => LineKind::Include,
            NodeRow::Defaults { .. } => LineKind::Defaults,
            NodeRow::Alias { .. } => LineKind::Alias,
            NodeRow::Spec { .. } => LineKind::Spec,
        }
    }
}

/// A logical line, its line end included, and what it says.
#[derive(Clone, Copy)]
pub struct Line<'a> {
    pub text: &'a [u8],
    pub node: Node<'a>,
}

impl<'a> Line<'a> {
    /// Returns the line that a row holds.
    pub fn from_line_row(tables: &'a Tables, row: &LineRow) -> Line<'a>
        ensures { line_of_view result ≡ line_of_row tables.now row.now }
    {
        Line {
            text: tables.bytes_of_text_row(row.text),
            node: tables.node_of_row(&row.node),
        }
    }
}
