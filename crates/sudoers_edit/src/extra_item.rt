//! Whether a line of definitions reads as another but for one member or definition more.
ghost use Rattle.std.specs.Prelude.{◌≡◌, ◌≤◌, ℕ, Some, length, take, drop, map, remove, slice_get};
ghost use Rattle.std.specs.Option.{option_copied};
ghost use Rattle.sudoers_line_rows.specs.Alike.{are_lists_alike as alike_lists, is_same_def as same_def};
ghost use Rattle.sudoers_edit.specs.SpliceEdits.{has_one_item_more};
ghost use Rattle.sudoers_line_rows.specs.View.{alias_definition_of_view, alias_definitions_of_view, members_of_view, node_of_view};
ghost use Rattle.sudoers_edit.specs.internal.Plain.{owns_bytes_from_to as owns_these};
ghost use Rattle.sudoers_edit.specs.Splice.{ByteExtent, owned_bytes_start as the_start, is_option_equal_to as stands_at, are_owned_byte_offsets_in_both_lists as owns, definition_without_member, definitions_with_one_changed, has_one_member_more as one_member_more, has_one_definition_more as one_def_more, extents_of_members, extents_of_definition_members};

use crate::owned_bytes::{HasByteExtent, owned_start_of_item, owned_stop_of_item};
use sudoers_line_rows::{ComparableRow, are_row_lists_alike};
use sudoers_tree::{AliasDefinitionRow, Def, MemberRow, Node, RowsOfTable, is_same_kind};

/// What a member or definition more has to be: where it stands, and which bytes of the longer line it owns.
#[derive(Clone, Copy)]
pub struct ExtraItem {
    pub at: usize,
    pub from: usize,
    pub to: usize,
}

/// Among what there is one more in a line of definitions.
#[derive(Clone, Copy)]
pub enum ItemListKind {
    Definitions,
    /// The members of this definition.
    Members { def: usize },
}

impl ExtraItem {
    /// Returns whether the first line reads as the second but for this one.
    pub fn is_only_difference(self, among: ItemListKind, more: &Node<'_>, less: &Node<'_>) -> bool
        ensures { result ≡ has_one_item_more among self.at self.from self.to (Some (node_of_view more.now)) (Some (node_of_view less.now)) }
    {
        match among {
            ItemListKind::Definitions => self.is_only_extra_definition(more, less),
            ItemListKind::Members { def } => self.is_only_extra_member(def, more, less),
        }
    }

    /// Returns whether the first line reads as the second but for this definition.
    fn is_only_extra_definition(self, more: &Node<'_>, less: &Node<'_>) -> bool
        ensures { result ≡ one_def_more self.at self.from self.to (Some (node_of_view more.now)) (Some (node_of_view less.now)) }
    {
        match (*more, *less) {
            (
                Node::Alias { kind, defs: more },
                Node::Alias {
                    kind: other,
                    defs: less,
                },
            ) => {
                let same = is_same_kind(kind, other);
                let alike = are_lists_alike_without(&more, self.at, &less);
                let owned = self.has_owned_byte_offsets_in_both_lists(&more, &less);
                same & alike & owned
            }
            _ => false,
        }
    }

    /// Returns whether the first line reads as the second but for this member of a definition.
    fn is_only_extra_member(self, def: usize, more: &Node<'_>, less: &Node<'_>) -> bool
        ensures { result ≡ one_member_more def self.at self.from self.to (Some (node_of_view more.now)) (Some (node_of_view less.now)) }
    {
        match (*more, *less) {
            (
                Node::Alias { kind, defs: more },
                Node::Alias {
                    kind: other,
                    defs: less,
                },
            ) => {
                let same = is_same_kind(kind, other);
                let alike = self.are_definitions_alike_without_member(def, &more, &less);
                let owned = self.has_owned_byte_offsets_in_both_lists(
                    &members_of_nth_definition(&more, def),
                    &members_of_nth_definition(&less, def),
                );
                same & alike & owned
            }
            _ => false,
        }
    }

    /// Returns whether it owns exactly these bytes, with it and without it.
    fn has_owned_byte_offsets_in_both_lists<T: HasByteExtent>(
        self,
        more: &RowsOfTable<'_, T>,
        less: &RowsOfTable<'_, T>,
    ) -> bool
        ensures { result ≡ owns self.at self.from self.to (map T.extent (map (T.said more.now.tables.now) more.now.rows.now))
            (map T.extent (map (T.said less.now.tables.now) less.now.rows.now)) }
    {
        let begins = is_optional_offset_equal_to(self.from, owned_start_of_item(more, self.at));
        let stops = is_optional_offset_equal_to(self.to, owned_stop_of_item(more, self.at));
        let fits = is_optional_offset_equal_to(self.from, owned_start_of_item(less, self.at));
        begins & stops & fits
    }

    /// Returns whether it owns exactly these bytes.
    pub fn owns_its_bytes<T: HasByteExtent>(self, items: &RowsOfTable<'_, T>) -> bool
        ensures { result ≡ owns_these self.at self.from self.to (map T.extent (map (T.said items.now.tables.now) items.now.rows.now)) }
    {
        let begins = is_optional_offset_equal_to(self.from, owned_start_of_item(items, self.at));
        let stops = is_optional_offset_equal_to(self.to, owned_stop_of_item(items, self.at));
        begins & stops
    }

    /// Returns whether definitions say the same but for this member of one of them.
    fn are_definitions_alike_without_member(
        self,
        def: usize,
        more: &RowsOfTable<'_, AliasDefinitionRow>,
        less: &RowsOfTable<'_, AliasDefinitionRow>,
    ) -> bool
        ensures { result ≡ alike_lists same_def (definitions_with_one_changed def (definition_without_member self.at) (alias_definitions_of_view more.now)) (alias_definitions_of_view less.now) }
    {
        if def >= more.rows.len() || def >= less.rows.len() {
            return are_row_lists_alike(more, less);
        }
        let here = self.is_definition_alike_without(
            &more.tables.alias_definition_of_row(&more.rows[def]),
            &less.tables.alias_definition_of_row(&less.rows[def]),
        );
        are_row_lists_alike(&take_first_rows(more, def), &take_first_rows(less, def))
            & here
            & are_row_lists_alike(
                &drop_first_rows(more, def + 1),
                &drop_first_rows(less, def + 1),
            )
    }

    /// Returns whether two definitions say the same but for this member.
    fn is_definition_alike_without(self, longer: &Def<'_>, shorter: &Def<'_>) -> bool
        ensures { result ≡ same_def (definition_without_member self.at (alias_definition_of_view longer.now)) (alias_definition_of_view shorter.now) }
    {
        let same = longer.name == shorter.name;
        let alike = are_lists_alike_without(&longer.members, self.at, &shorter.members);
        same & alike
    }
}

/// Returns the members of the definition at a place.
pub fn members_of_nth_definition<'a>(
    defs: &RowsOfTable<'a, AliasDefinitionRow>,
    at: usize,
) -> RowsOfTable<'a, MemberRow>
    ensures { extents_of_members (members_of_view result) ≡ extents_of_definition_members (slice_get (alias_definitions_of_view defs.now) at) }
{
    match defs.rows.get(at) {
        Some(def) => defs.tables.members_of_row_range(def.members),
        None => RowsOfTable {
            tables: defs.tables,
            rows: &[],
        },
    }
}

/// Returns the first `count` rows of `items`.
fn take_first_rows<'a, T>(items: &RowsOfTable<'a, T>, count: usize) -> RowsOfTable<'a, T>
    requires { count ≤ length items.now.rows.now }
    ensures rows { result.rows.now ≡ take count items.now.rows.now }
    ensures tables { result.tables.now ≡ items.now.tables.now }
{
    let (rows, _) = items.rows.split_at(count);
    RowsOfTable {
        tables: items.tables,
        rows,
    }
}

/// Returns the rows of `items` behind the first `count`.
fn drop_first_rows<'a, T>(items: &RowsOfTable<'a, T>, count: usize) -> RowsOfTable<'a, T>
    requires { count ≤ length items.now.rows.now }
    ensures rows { result.rows.now ≡ drop count items.now.rows.now }
    ensures tables { result.tables.now ≡ items.now.tables.now }
{
    let (_, rows) = items.rows.split_at(count);
    RowsOfTable {
        tables: items.tables,
        rows,
    }
}

/// Returns whether one more comes in at this offset at the place `at`.
pub fn starts_at<T: HasByteExtent>(items: &RowsOfTable<'_, T>, at: usize, from: usize) -> bool
    ensures { result ≡ stands_at from (the_start at (map T.extent (map (T.said items.now.tables.now) items.now.rows.now))) }
{
    is_optional_offset_equal_to(from, owned_start_of_item(items, at))
}

fn is_optional_offset_equal_to(place: usize, found: Option<usize>) -> bool
    ensures { result ≡ stands_at place found }
{
    match found {
        Some(other) => place == other,
        None => false,
    }
}

/// Returns whether the lists are alike once the item at a place of the first is taken out.
#[tactic(auto, using(crate::proofs::AlikeLemmas::removal_past_end_keeps_list, crate::proofs::AlikeLemmas::longer_list_without_item_is_not_alike))]
fn are_lists_alike_without<T: ComparableRow>(
    more: &RowsOfTable<'_, T>,
    at: usize,
    less: &RowsOfTable<'_, T>,
) -> bool
    ensures { result ≡ alike_lists T.alike (remove (map (T.said more.now.tables.now) more.now.rows.now) at)
        (map (T.said less.now.tables.now) less.now.rows.now) }
{
    if at >= more.rows.len() {
        return are_row_lists_alike(more, less);
    }
    if at > less.rows.len() {
        return false;
    }
    are_row_lists_alike(&take_first_rows(more, at), &take_first_rows(less, at))
        & are_row_lists_alike(&drop_first_rows(more, at + 1), &drop_first_rows(less, at))
}
