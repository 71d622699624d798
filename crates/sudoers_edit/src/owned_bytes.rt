//! Which bytes of its line a member or a definition owns, and the line without them or with others.
ghost use Rattle.std.specs.Prelude.{◌≡◌, ◌≤◌, ◌+◌, ℕ, List, map, length, Some, Result, Err, IfOk, MatchResult};
ghost use Rattle.sudoers_grammar.specs.Node.{Def as DefOf, Member as MemberOf};
ghost use Rattle.sudoers_line_rows.specs.declared.rows.Tables.{Tables as TablesOf};
ghost use Rattle.sudoers_line_rows.specs.Tables.{alias_definition_in_tables, member_in_tables};
ghost use Rattle.sudoers_edit.specs.declared.fault.EditFault.{EditFault as Refusal};
ghost use Rattle.sudoers_edit.specs.Landing.{LineTexts};
ghost use Rattle.sudoers_edit.specs.SpliceEdits.{result_with_offset_to_add_item as to_add, result_with_bytes_to_drop_item as to_drop};
ghost use Rattle.sudoers_edit.specs.Splice.{ByteExtent, owned_bytes_start as the_seam, owned_bytes_stop as the_stop, line_with_splice as with_splice, line_without_bytes as without_slice, bytes_between};

use crate::fault::EditFault;
use std::alloc::{AllocError, Global};
use sudoers_tree::{AliasDefinitionRow, MemberRow, RowsOfTable, Tables};

/// What stands in a line: a row, by what it says in its tables.
pub trait HasByteExtent {
    ghost Said: { Type 0 };

    ghost said: { TablesOf → Self → Said };

    ghost extent: { Said → ByteExtent };

    /// Returns its first byte, and the byte behind its last.
    fn byte_extent_of_row(&self, tables: &Tables) -> (usize, usize)
        ensures { result ≡ extent (said tables.now self.now) };
}

impl HasByteExtent for MemberRow {
    ghost Said = { MemberOf };

    ghost said = { member_in_tables };

    ghost extent = { λ member. (member.start, member.stop) };

    fn byte_extent_of_row(&self, tables: &Tables) -> (usize, usize) {
        let member = tables.member_of_row(self);
        (member.start, member.stop)
    }
}

impl HasByteExtent for AliasDefinitionRow {
    ghost Said = { DefOf };

    ghost said = { alias_definition_in_tables };

    ghost extent = { λ def. (def.start, def.stop) };

    fn byte_extent_of_row(&self, tables: &Tables) -> (usize, usize) {
        let def = tables.alias_definition_of_row(self);
        (def.start, def.stop)
    }
}

/// Returns the offset from which the item at the place `at` of `items` owns bytes: the end of the item before it. For the first item it is
/// its own start.
pub fn owned_start_of_item<T: HasByteExtent>(items: &RowsOfTable<'_, T>, at: usize) -> Option<usize>
    ensures { result ≡ the_seam at (map T.extent (map (T.said items.now.tables.now) items.now.rows.now)) }
{
    if at == 0 {
        Some(items.rows.first()?.byte_extent_of_row(items.tables).0)
    } else {
        Some(items.rows.get(at - 1)?.byte_extent_of_row(items.tables).1)
    }
}

/// Returns the offset up to which the item at the place `at` of `items` owns bytes: its end. For the first item it is the start of the
/// next.
pub fn owned_stop_of_item<T: HasByteExtent>(items: &RowsOfTable<'_, T>, at: usize) -> Option<usize>
    ensures { result ≡ the_stop at (map T.extent (map (T.said items.now.tables.now) items.now.rows.now)) }
{
    if at == 0 {
        Some(items.rows.get(1)?.byte_extent_of_row(items.tables).0)
    } else {
        Some(items.rows.get(at)?.byte_extent_of_row(items.tables).1)
    }
}

/// Returns the offset at which one more item may come in at the place `at` of `items`.
pub fn find_offset_to_add_item<T: HasByteExtent>(
    items: &RowsOfTable<'_, T>,
    at: usize,
) -> Result<usize, EditFault>
    ensures { (next : ℕ → Result LineTexts Refusal) → MatchResult result
        (λ from. (to_add at (map T.extent (map (T.said items.now.tables.now) items.now.rows.now)) next ≡ next from) × (the_seam at (map T.extent (map (T.said items.now.tables.now) items.now.rows.now)) ≡ Some from))
        (λ fault. to_add at (map T.extent (map (T.said items.now.tables.now) items.now.rows.now)) next ≡ Err fault) }
{
    if at > items.rows.len() {
        return Err(EditFault::NoPlace);
    }
    match owned_start_of_item(items, at) {
        Some(from) => Ok(from),
        None => Err(EditFault::BadSplice),
    }
}

/// Returns the offsets from which and up to which the item at the place `at` of `items` owns bytes, if it may be taken out.
pub fn find_bytes_to_drop_item<T: HasByteExtent>(
    items: &RowsOfTable<'_, T>,
    at: usize,
) -> Result<(usize, usize), EditFault>
    ensures { (next : ℕ → ℕ → Result LineTexts Refusal) → MatchResult result
        (λ bytes. (to_drop at (map T.extent (map (T.said items.now.tables.now) items.now.rows.now)) next ≡ next bytes.0 bytes.1)
        × (the_seam at (map T.extent (map (T.said items.now.tables.now) items.now.rows.now)) ≡ Some bytes.0) × (the_stop at (map T.extent (map (T.said items.now.tables.now) items.now.rows.now)) ≡ Some bytes.1))
        (λ fault. to_drop at (map T.extent (map (T.said items.now.tables.now) items.now.rows.now)) next ≡ Err fault) }
{
    if at >= items.rows.len() {
        return Err(EditFault::NoPlace);
    }
    if items.rows.len() == 1 {
        return Err(EditFault::OnlyOne);
    }
    let Some(from) = owned_start_of_item(items, at) else {
        return Err(EditFault::BadSplice);
    };
    match owned_stop_of_item(items, at) {
        Some(to) => Ok((from, to)),
        None => Err(EditFault::BadSplice),
    }
}

/// Returns the line `line` with the bytes `splice` at the offset `at`.
pub fn insert_splice_into_line(
    alloc: Global,
    line: &[u8],
    at: usize,
    splice: &[u8],
) -> Result<Vec<u8>, AllocError>
    requires { at ≤ length line.now }
    ensures { IfOk result (λ text. text.items ≡ with_splice at splice.now line.now) }
{
    let (front, back) = line.split_at(at);
    let mut text = Vec::from_slice(alloc, front)?;
    text.extend_from_slice(splice)?;
    text.extend_from_slice(back)?;
    Ok(text)
}

/// Returns the line `line` without the bytes from `from` up to `to`.
pub fn drop_bytes_from_line(
    alloc: Global,
    line: &[u8],
    from: usize,
    to: usize,
) -> Result<Vec<u8>, AllocError>
    requires { (from ≤ to) × (to ≤ length line.now) }
    ensures { IfOk result (λ text. text.items ≡ without_slice from to line.now) }
{
    let mut text = Vec::from_slice(alloc, &line[..from])?;
    text.extend_from_slice(&line[to..])?;
    Ok(text)
}

/// A law: a splice put in and taken out, and a slice taken out and put in.
pub fn splices_are_undone()
    ensures taken { (line splice : List ℕ) (at : ℕ) → at ≤ length line → without_slice at (at + length splice) (with_splice at splice line) ≡ line }
    ensures put { (line : List ℕ) (from to : ℕ) → from ≤ to → to ≤ length line → with_splice from (bytes_between from to line) (without_slice from to line) ≡ line }
{}
