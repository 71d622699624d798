//! The lines of a policy in the order of the walk, with the names that they define.

ghost use Rattle.std.specs.Prelude.{◌≡◌, ◌≤◌, ◌*◌, length, slice_get, IfOk};
ghost use Rattle.std.specs.List.{All};
ghost use Rattle.std.specs.Option.{option_map};
ghost use Rattle.sudoers_text.specs.Line.{join};
ghost use Rattle.sudoers_text.specs.Fault.{text_limit};
ghost use Rattle.sudoers_grammar.specs.Node.{Def as DefOf};
ghost use Rattle.sudoers_line_rows.specs.View.{alias_definitions_of_view, members_of_view, node_of_view};
ghost use Rattle.sudoers_tree.specs.Line.{Line as LineOf, line_of_view, lines_of_rows};
ghost use Rattle.sudoers_tree.specs.Definition.{definitions_of_lines, definition_place_of_name, members_of_alias_definition};
ghost use Rattle.sudoers_tree.specs.internal.Index.{IsIndexOfDefinitions};
ghost use Rattle.sudoers_tree.specs.Mention.{mentions_in_lines};
ghost use Rattle.sudoers_tree.specs.Load.{file_limit};
ghost use Rattle.sudoers_tree.specs.Policy.{AreValidWalkLines, texts_of_lines};
ghost use Rattle.sudoers_tree.specs.internal.Tree.{IsLastingLineRow};

use crate::alias_index::AliasNameIndex;
use crate::alias_mentions::append_mentions_in_line;
use crate::line::{Line, LineRow};
use crate::name_bits::NameFilterBits;
use crate::place::{Place, Span};
use std::alloc::{AllocError, Global};
use std::marker::Model;
use sudoers_grammar::Kind;
use sudoers_line_rows::{AliasDefinitionRow, MemberRow, Node, RowsOfTable};

/// Lines in the order of the walk with what they say, and the names that they define. Contracts see the list of the lines.
#[derive(Drop)]
pub struct Walk<'a> {
    lines: RowsOfTable<'a, LineRow>,
    index: &'a AliasNameIndex,
}

impl<'a> Model for Walk<'a> {
    ghost use Rattle.std.specs.Prelude.{List, length, ◌≤◌, ◌*◌};
    ghost use Rattle.std.specs.List.{All};
    ghost use Rattle.sudoers_text.specs.Line.{join};
    ghost use Rattle.sudoers_text.specs.Fault.{text_limit};
    ghost use Rattle.sudoers_tree.specs.Line.{Line, lines_of_rows};
    ghost use Rattle.sudoers_tree.specs.Definition.{definitions_of_lines};
    ghost use Rattle.sudoers_tree.specs.Load.{file_limit};
    ghost use Rattle.sudoers_tree.specs.Policy.{AreValidWalkLines, texts_of_lines};
    ghost use Rattle.sudoers_tree.specs.internal.Index.{IsIndexOfDefinitions};
    ghost use Rattle.sudoers_tree.specs.internal.Tree.{IsLastingLineRow};

    ghost Value = { List Line };

    ghost view = { λ walk. lines_of_rows walk.lines };

    ghost invariant = { λ walk. AreValidWalkLines (lines_of_rows walk.lines) × IsIndexOfDefinitions walk.index.now (definitions_of_lines (lines_of_rows walk.lines))
        × (length (join (texts_of_lines (lines_of_rows walk.lines))) ≤ file_limit * text_limit)
        × All (IsLastingLineRow walk.lines.tables.now) walk.lines.rows.now };
}

impl<'a> Walk<'a> {
    /// Returns the walk of the lines `lines`. `index` has the names that they define.
    pub(crate) fn from_rows_and_index(
        lines: RowsOfTable<'a, LineRow>,
        index: &'a AliasNameIndex,
    ) -> Walk<'a>
        requires walk { AreValidWalkLines (lines_of_rows lines) }
        requires index { IsIndexOfDefinitions index.now (definitions_of_lines (lines_of_rows lines)) }
        requires within { length (join (texts_of_lines (lines_of_rows lines))) ≤ file_limit * text_limit }
        requires stand { All (IsLastingLineRow lines.tables.now) lines.rows.now }
        ensures { result ≡ lines_of_rows lines.entry }
    {
        Walk { lines, index }
    }

    /// A law: the lines are a walk.
    pub fn is_walk(&self)
        ensures { AreValidWalkLines self.now }
    {
        let _ = &self.lines;
    }

    /// A law: the texts together are at most as long as the limit of a text times the limit of files.
    pub fn is_within_limit(&self)
        ensures { length (join (texts_of_lines self.now)) ≤ file_limit * text_limit }
    {
        let _ = &self.lines;
    }

    /// Returns the rows of the lines, which have their bits.
    fn walk_line_rows(&self) -> RowsOfTable<'a, LineRow>
        ensures shown { lines_of_rows result ≡ self.now }
        ensures stand { All (IsLastingLineRow result.tables.now) result.rows.now }
    {
        self.lines
    }

    /// Returns the lines with what they say.
    pub fn lines(&self) -> RowsOfTable<'a, LineRow>
        ensures { lines_of_rows result ≡ self.now }
    {
        self.lines
    }

    /// Returns the line with the number `i`, from 0.
    pub(crate) fn line_on_walk_at(&self, i: usize) -> Option<Line<'a>>
        ensures { option_map line_of_view result ≡ slice_get self.now i }
    {
        match self.lines.rows.get(i) {
            Some(row) => Some(Line::from_line_row(self.lines.tables, row)),
            None => None,
        }
    }

    /// Returns what the line with the number `i`, from 0, says.
    pub(crate) fn node_on_walk_at(&self, i: usize) -> Option<Node<'a>>
        ensures { option_map node_of_view result ≡ option_map (λ (line : LineOf). line.node) (slice_get self.now i) }
    {
        Some(self.line_on_walk_at(i)?.node)
    }

    /// Returns where the alias `name` of the kind `kind` is defined (sudoers(5), Aliases).
    pub fn place_of_definition(&self, kind: Kind, name: &[u8]) -> Option<Place>
        ensures { result ≡ definition_place_of_name kind name.now self.now }
    {
        self.index.names_of_alias_kind(kind).get(name)
    }

    /// Returns where the name `name` stands as a member of a list of the kind `kind`, in the order of the lines.
    ///
    /// # Errors
    ///
    /// Memory ran out.
    pub fn find_mentions_of(
        &self,
        alloc: Global,
        kind: Kind,
        name: &[u8],
    ) -> Result<Vec<Span>, AllocError>
        ensures { IfOk result (λ spans. spans.items ≡ mentions_in_lines kind name.now self.now) }
    {
        let bits = NameFilterBits::from_alias_name(name);
        let mut spans = Vec::new(alloc);
        let lines = self.walk_line_rows();
        for (number, row) in lines.rows.iter().enumerate() {
            if row.may_have_alias_with_bits(bits) {
                let line = Line::from_line_row(lines.tables, row);
                append_mentions_in_line(alloc, kind, name, number, &line.node, &mut spans)?;
            }
        }
        Ok(spans)
    }

    /// Returns the members of the alias `name` of the kind `kind`.
    pub fn members_of_alias(&self, kind: Kind, name: &[u8]) -> Option<RowsOfTable<'a, MemberRow>>
        ensures { option_map members_of_view result ≡ members_of_alias_definition kind name.now self.now }
    {
        let place = self.place_of_definition(kind, name)?;
        let Node::Alias { defs, .. } = self.node_on_walk_at(place.line)? else {
            return None;
        };
        members_of_definition_at(&defs, place.def)
    }
}

/// Returns the members of the definition with the number `at`, from 0, of `defs`.
fn members_of_definition_at<'a>(
    defs: &RowsOfTable<'a, AliasDefinitionRow>,
    at: usize,
) -> Option<RowsOfTable<'a, MemberRow>>
    ensures { option_map members_of_view result ≡ option_map (λ (d : DefOf). d.members) (slice_get (alias_definitions_of_view defs.now) at) }
{
    match defs.rows.get(at) {
        Some(row) => Some(defs.tables.members_of_row_range(row.members)),
        None => None,
    }
}
