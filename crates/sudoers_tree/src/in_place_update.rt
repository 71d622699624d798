//! A walk that stays where lines change in their places.

ghost use Rattle.std.specs.Prelude.{◌≡◌, ℕ, List, length, map, slice_get, Some, true, IfOk, IfSome};
ghost use Rattle.std.specs.List.{All};
ghost use Rattle.sudoers_tree.specs.Line.{Line as LineOf, line_of_row};
ghost use Rattle.sudoers_tree.specs.Mapped.{file_names};
ghost use Rattle.sudoers_tree.specs.declared.place.WalkLineSpot.{WalkLineSpot as SpotOf};
ghost use Rattle.sudoers_tree.specs.internal.Files.{HaveSoundFileRows, parsed_files_of_view};
ghost use Rattle.sudoers_tree.specs.internal.KeptLines.{IsInPlaceWalkUpdate, KeepsLineCountWithoutFault, IsSoundWalkBeforeChange, ReplaceLinesAtSpots, ReplacesLineAtSpot, IsAcceptedAliasName, IsAcceptedNamesChange, files_before_change};
ghost use Rattle.sudoers_tree.specs.internal.KeptWalk.{HasSameLeadAndLineEnds};
ghost use Rattle.sudoers_tree.specs.internal.Tree.{IsLastingLineRow};

use crate::alias_index::AliasNameIndex;
use crate::defined_names_change::{DefinedNamesChange, change_of_defined_names};
use crate::files::{FilesInTables, ParsedFileRows};
use crate::line::LineRow;
use crate::line_kind::LineKind;
use crate::place::WalkLineSpot;
use std::alloc::{AllocError, Global};
use sudoers_grammar::Kind;
use sudoers_line_rows::Tables;
use sudoers_text::is_reserved;

/// The walk over files before lines of them change: the files, the rows of its lines, the spot of each, the numbers of its files, and the
/// names that its lines define.
#[derive(Clone, Copy)]
pub struct WalkBeforeChange<'a> {
    pub files: &'a [ParsedFileRows],
    pub lines: &'a [LineRow],
    pub spots: &'a [WalkLineSpot],
    pub on: &'a [usize],
    pub index: &'a AliasNameIndex,
}

/// What is new of a walk that stays: the rows of its lines, and another name of one alias, if there is one.
#[derive(Drop)]
pub struct InPlaceWalkUpdate {
    pub lines: Vec<LineRow>,
    pub fresh: Option<NewAliasName>,
}

/// Another name of an alias: its kind, its number among the names of that kind, from 0, and the name.
#[derive(Drop)]
pub struct NewAliasName {
    pub kind: Kind,
    pub number: usize,
    pub name: Vec<u8>,
}

/// Returns what is new of the walk `before` over the files `files`, of which lines were changed. Returns nothing if it does not stay: as many
/// lines have to stand at its spots, with as many line ends, and no include line may change. At most one alias may have another name.
///
/// # Errors
///
/// Memory ran out.
pub fn find_in_place_walk_update(
    alloc: Global,
    before: &WalkBeforeChange<'_>,
    files: &FilesInTables<'_>,
) -> Result<Option<InPlaceWalkUpdate>, AllocError>
    requires before { IsSoundWalkBeforeChange files.now.tables.now before.now }
    requires files { HaveSoundFileRows files.now }
    requires names { file_names (parsed_files_of_view files.now) ≡ file_names (files_before_change files.now.tables.now before.now) }
    ensures { IfOk result (λ kept. IfSome kept (IsInPlaceWalkUpdate files.now.tables.now before.now (parsed_files_of_view files.now))) }
{
    let old = FilesInTables {
        tables: files.tables,
        files: before.files,
    };
    if !are_line_counts_kept_without_fault(&old, files, before.on) {
        return Ok(None);
    }
    let Some(lines) = gather_rows_at_spots(alloc, files, before.lines, before.spots)? else {
        return Ok(None);
    };
    let change = change_of_defined_names(files.tables, before.lines, lines.as_slice());
    Ok(into_walk_update_with_names(alloc, files.tables, before.index, lines, change)?)
}

/// Returns whether each of the files with the numbers `on` has as many lines in `new` as in `old`, and no fault.
fn are_line_counts_kept_without_fault(
    old: &FilesInTables<'_>,
    new: &FilesInTables<'_>,
    on: &[usize],
) -> bool
    ensures { result ≡ true → All (KeepsLineCountWithoutFault (parsed_files_of_view old.now) (parsed_files_of_view new.now)) on.now }
{
    for file in on {
        if new.line_count(*file) != old.line_count(*file)
            || new.syntax_fault_of_file(*file).is_some()
        {
            return false;
        }
    }
    true
}

/// Returns the rows of the lines at the spots `spots` of the files `files`. Returns nothing if one of them does not stand beside that of
/// `lines`, which stood there.
///
/// # Errors
///
/// Memory ran out.
fn gather_rows_at_spots(
    alloc: Global,
    files: &FilesInTables<'_>,
    lines: &[LineRow],
    spots: &[WalkLineSpot],
) -> Result<Option<Vec<LineRow>>, AllocError>
    requires files { HaveSoundFileRows files.now }
    requires lines { All (IsLastingLineRow files.now.tables.now) lines.now }
    ensures stand { IfOk result (λ kept. IfSome kept (λ rows. All (IsLastingLineRow files.now.tables.now) rows.items)) }
    ensures count { IfOk result (λ kept. IfSome kept (λ rows. length rows.items ≡ length spots.now)) }
    ensures stay { IfOk result (λ kept. IfSome kept (λ rows.
        ReplaceLinesAtSpots (parsed_files_of_view files.now) (map (line_of_row files.now.tables.now) lines.now) spots.now (map (line_of_row files.now.tables.now) rows.items))) }
{
    let mut rows = Vec::with_capacity(alloc, spots.len())?;
    for number in 0..spots.len() {
        let Some(row) = find_matching_row_at(files, lines, spots, number) else {
            return Ok(None);
        };
        rows.push(*row)?;
    }
    Ok(Some(rows))
}

/// Returns the row of the line at the spot with the number `number`, from 0, of `spots` in the files `files`. Returns nothing if it does not
/// stand beside the line with that number of `lines`.
fn find_matching_row_at<'a>(
    files: &FilesInTables<'a>,
    lines: &[LineRow],
    spots: &[WalkLineSpot],
    number: usize,
) -> Option<&'a LineRow>
    requires files { HaveSoundFileRows files.now }
    requires lines { All (IsLastingLineRow files.now.tables.now) lines.now }
    ensures stands { IfSome result (λ row. IsLastingLineRow files.now.tables.now row.now) }
    ensures stays { IfSome result (λ row. (at : SpotOf) (old : LineOf) → slice_get spots.now number ≡ Some at
        → slice_get (map (line_of_row files.now.tables.now) lines.now) number ≡ Some old
        → ReplacesLineAtSpot (parsed_files_of_view files.now) at old (line_of_row files.now.tables.now row.now)) }
{
    let at = item_at(spots, number)?;
    let old = item_at(lines, number)?;
    let new = files.line_row_at(at.file, at.line)?;
    if has_same_lead_and_line_ends(files.tables, &old, new) {
        return Some(new);
    }
    None
}

/// Returns the item with the number `number`, from 0, of `items`.
fn item_at<T: Copy>(items: &[T], number: usize) -> Option<T>
    ensures { result ≡ slice_get items.now number }
{
    items.get(number).copied()
}

/// Returns whether the line of the row `new` leads where that of the row `old` leads, and has as many line ends. Returns false, too, of
/// include lines that are not the same.
fn has_same_lead_and_line_ends(tables: &Tables, old: &LineRow, new: &LineRow) -> bool
    requires old { IsLastingLineRow tables.now old.now }
    requires new { IsLastingLineRow tables.now new.now }
    ensures { result ≡ true → (name : List ℕ) → HasSameLeadAndLineEnds name (line_of_row tables.now old.now) (line_of_row tables.now new.now) }
{
    if old.shares_text_bytes_with(new) {
        return true;
    }
    old.kind_of_line_row() != LineKind::Include
        && new.kind_of_line_row() != LineKind::Include
        && old.lfs == new.lfs
}

/// Returns the walk that stays with the lines `lines`, whose names changed by `change`. Returns nothing if they cannot.
///
/// # Errors
///
/// Memory ran out.
fn into_walk_update_with_names(
    alloc: Global,
    tables: &Tables,
    known: &AliasNameIndex,
    lines: Vec<LineRow>,
    change: DefinedNamesChange,
) -> Result<Option<InPlaceWalkUpdate>, AllocError>
    ensures lines { IfOk result (λ kept. IfSome kept (λ walk. walk.lines ≡ lines)) }
    ensures names { IfOk result (λ kept. IfSome kept (λ walk. IsAcceptedNamesChange tables.now known.now change walk.fresh)) }
{
    match change {
        DefinedNamesChange::Nothing => Ok(Some(InPlaceWalkUpdate { lines, fresh: None })),
        DefinedNamesChange::One {
            kind,
            name,
            fresh,
            ..
        } => match make_new_alias_name_if_free(
            alloc,
            known,
            kind,
            tables.bytes_of_text_row(name),
            tables.bytes_of_text_row(fresh),
        )? {
            Some(fresh) => Ok(Some(InPlaceWalkUpdate {
                lines,
                fresh: Some(fresh),
            })),
            None => Ok(None),
        },
        DefinedNamesChange::Other => Ok(None),
    }
}

/// Returns the name `fresh` for the alias `name` of the kind `kind`, which is one of `known`. Returns nothing if it cannot have that name.
///
/// # Errors
///
/// Memory ran out.
fn make_new_alias_name_if_free(
    alloc: Global,
    known: &AliasNameIndex,
    kind: Kind,
    name: &[u8],
    fresh: &[u8],
) -> Result<Option<NewAliasName>, AllocError>
    ensures { IfOk result (λ found. IfSome found (λ f. IsAcceptedAliasName known.now kind name.now fresh.now f)) }
{
    let names = known.names_of_alias_kind(kind);
    let Some(number) = names.number_of_name(name) else {
        return Ok(None);
    };
    if is_reserved(fresh) || names.number_of_name(fresh).is_some() {
        return Ok(None);
    }
    Ok(Some(NewAliasName {
        kind,
        number,
        name: Vec::from_slice(alloc, fresh)?,
    }))
}
