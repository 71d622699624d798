//! Changes of one line of files, and of the walk over them, that are made in their places.

ghost use Rattle.std.specs.Prelude.{◌≡◌, ◌<◌, ◌≤◌, ◌+◌, ℕ, List, [], ◌∷◌, map, remove, insert, set, length, slice_get, Some, IfOk, IfSome, Ok, true, false, is_ok, if◌then◌else◌};
ghost use Rattle.std.specs.List.{All};
ghost use Rattle.sudoers_line_rows.specs.declared.rows.Tables.{Tables as TablesOf};
ghost use Rattle.sudoers_line_rows.specs.Tables.{TablesHaveGrown, node_in_tables, text_in_tables};
ghost use Rattle.sudoers_text.specs.Fault.{text_limit};
ghost use Rattle.sudoers_tree.specs.ChangedFiles.{AreApplicableChanges};
ghost use Rattle.sudoers_tree.specs.declared.line_change.LineChange.TheVariants.{Put, Swap, Take};
ghost use Rattle.sudoers_tree.specs.Line.{Line as LineOf, line_of_row};
ghost use Rattle.sudoers_tree.specs.Load.{named_files_of_policy, policy_or_load_fault};
ghost use Rattle.sudoers_tree.specs.internal.Files.{HaveSoundFileRows, HasSoundFileRows, parsed_file_of_rows};
ghost use Rattle.sudoers_tree.specs.internal.InPlace.{IsChangeInPlace, IsChangeInPlaceUnlessNoMemory, IsLineOnWalk, IsNoIncludeNode, IsPlainNode, IsReadLineRow, IsShortLineRow, HasRoomInFile, files_with_other_lines};
ghost use Rattle.sudoers_tree.specs.internal.Loading.{AreSoundWalkedFiles, policy_of_walked_files};

use crate::defined_names_change::{DefinedNamesChange, name_change_of_line};
use crate::files::{FilesInTables, ParsedFileRows};
use crate::files_and_walk::WalkedFiles;
use crate::line::LineRow;
use crate::line_change::LineChange;
use crate::line_kind::LineKind;
use crate::moved_lines::{LineMove, move_spots, number_of_only_spot};
use crate::off_walk::is_file_number_among;
use crate::row_reading::read_line_into_row;
use std::alloc::{AllocError, Global};
use sudoers_grammar::LineFault;
use sudoers_line_rows::Tables;
use sudoers_text::{LINE_LIMIT, TEXT_LIMIT};

/// Where a line stands on the walk: its number there, from 0, and its row.
#[derive(Clone, Copy)]
pub struct LineOnWalk {
    pub number: usize,
    pub row: LineRow,
}

/// Returns whether the line of `row` is no include and defines no alias.
fn is_plain_line(row: &LineRow) -> bool
    ensures { result ≡ true → (tables : TablesOf) → IsPlainNode (node_in_tables tables row.now.node) }
{
    match row.kind_of_line_row() {
        LineKind::Include | LineKind::Alias => false,
        LineKind::Blank | LineKind::Comment | LineKind::Defaults | LineKind::Spec => true,
    }
}

impl ParsedFileRows {
    /// Puts the row `row`, whose line has `size` bytes, before that with the number `line`, from 0.
    ///
    /// # Errors
    ///
    /// Memory ran out. The rows then are as they were.
    fn put_row(&mut self, line: usize, row: LineRow, size: usize) -> Result<(), AllocError>
        requires line { line < length self.old.rows.items }
        requires room { self.old.bytes + size ≤ text_limit }
        ensures name { self.new.name ≡ self.old.name }
        ensures fault { self.new.fault ≡ self.old.fault }
        ensures rows { self.new.rows.items ≡ (if is_ok result then insert self.old.rows.items line row else self.old.rows.items) }
        ensures bytes { self.new.bytes ≡ (if is_ok result then self.old.bytes + size else self.old.bytes) }
    {
        self.rows.insert(line, row)?;
        self.bytes += size;
        Ok(())
    }

    /// Puts the row `row`, whose line has `size` bytes, in the place of that with the number `line`, from 0.
    fn set_row(&mut self, line: usize, row: LineRow, size: usize)
        requires line { line < length self.old.rows.items }
        requires room { self.old.bytes + size ≤ text_limit }
        ensures name { self.new.name ≡ self.old.name }
        ensures fault { self.new.fault ≡ self.old.fault }
        ensures rows { self.new.rows.items ≡ set self.old.rows.items line row }
        ensures bytes { self.new.bytes ≡ self.old.bytes + size }
    {
        self.rows[line] = row;
        self.bytes += size;
    }
}

/// Takes the line with the number `line` out of the file with the number `file`, both from 0.
fn take_row_out(files: &mut [ParsedFileRows], file: usize, line: usize)
    requires file { file < length files.old }
    requires line { (row : ParsedFileRows) → slice_get files.old file ≡ Some row → line < length row.rows.items }
    ensures files { (t : TablesOf) → map (parsed_file_of_rows t) files.new ≡ files_with_other_lines file (λ (lines : List LineOf). remove lines line) (map (parsed_file_of_rows t) files.old) }
    ensures sound { (t : TablesOf) → All (HasSoundFileRows t) files.old → All (HasSoundFileRows t) files.new }
{
    files[file].rows.remove(line);
}

/// Puts the line of `row`, which has `size` bytes, before the line with the number `line` of the file with the number `file`, both from 0.
///
/// # Errors
///
/// Memory ran out. The files then are as they were.
fn put_row_in(
    files: &mut [ParsedFileRows],
    file: usize,
    line: usize,
    row: LineRow,
    size: usize,
) -> Result<(), AllocError>
    requires file { file < length files.old }
    requires line { (rows : ParsedFileRows) → slice_get files.old file ≡ Some rows → line < length rows.rows.items }
    requires room { HasRoomInFile files.old file size }
    ensures files { (t : TablesOf) → map (parsed_file_of_rows t) files.new
        ≡ (if is_ok result then files_with_other_lines file (λ (lines : List LineOf). insert lines line (line_of_row t row)) (map (parsed_file_of_rows t) files.old) else map (parsed_file_of_rows t) files.old) }
    ensures sound { (t : TablesOf) → All (HasSoundFileRows t) files.old → IsShortLineRow t size row → All (HasSoundFileRows t) files.new }
{
    files[file].put_row(line, row, size)
}

/// Puts the line of `row`, which has `size` bytes, in the place of the line `line` of the file `file`, both numbered from 0.
fn set_row_in(files: &mut [ParsedFileRows], file: usize, line: usize, row: LineRow, size: usize)
    requires file { file < length files.old }
    requires line { (rows : ParsedFileRows) → slice_get files.old file ≡ Some rows → line < length rows.rows.items }
    requires room { HasRoomInFile files.old file size }
    ensures files { (t : TablesOf) → map (parsed_file_of_rows t) files.new ≡ files_with_other_lines file (λ (lines : List LineOf). set lines line (line_of_row t row)) (map (parsed_file_of_rows t) files.old) }
    ensures sound { (t : TablesOf) → All (HasSoundFileRows t) files.old → IsShortLineRow t size row → All (HasSoundFileRows t) files.new }
{
    files[file].set_row(line, row, size);
}

/// Reads the line `text` into `tables`. Returns its row, if the line parses and is within the limit.
///
/// # Errors
///
/// Memory ran out.
fn read_short_line(
    alloc: Global,
    tables: &mut Tables,
    text: &[u8],
) -> Result<Option<LineRow>, AllocError>
    ensures row { IfOk result (λ found. IfSome found (IsReadLineRow tables.new text.now)) }
    ensures grown { TablesHaveGrown tables.old tables.new }
{
    if text.len() > LINE_LIMIT {
        return Ok(None);
    }
    match read_line_into_row(alloc, tables, text) {
        Ok(row) => Ok(Some(row)),
        Err(LineFault::NoMemory) => Err(AllocError),
        Err(LineFault::Syntax { .. }) => Ok(None),
    }
}

/// Returns whether the line of `row` is no include.
fn is_no_include(row: &LineRow) -> bool
    ensures { result ≡ true → (tables : TablesOf) → IsNoIncludeNode (node_in_tables tables row.now.node) }
{
    match row.kind_of_line_row() {
        LineKind::Include => false,
        LineKind::Blank
        | LineKind::Comment
        | LineKind::Defaults
        | LineKind::Spec
        | LineKind::Alias => true,
    }
}

impl WalkedFiles {
    /// Returns the files with the tables of their lines.
    fn files_in_tables(&self) -> FilesInTables<'_>
        ensures tables { result.tables.now ≡ self.now.tables }
        ensures files { result.files.now ≡ self.now.files.items }
    {
        FilesInTables {
            tables: &self.tables,
            files: self.files.as_slice(),
        }
    }

    /// Returns where the line with the number `line` of the file with the number `file` stands, both from 0. Returns nothing if it is not on the
    /// walk.
    fn find_line_on_walk(&self, file: usize, line: usize) -> Option<LineOnWalk>
        requires { AreSoundWalkedFiles self.now }
        ensures { IfSome result (IsLineOnWalk self.now file line) }
    {
        let row = *self.files_in_tables().line_row_at(file, line)?;
        if !is_file_number_among(self.on.as_slice(), file) {
            return None;
        }
        let number = number_of_only_spot(self.spots.as_slice(), file, line)?;
        Some(LineOnWalk { number, row })
    }

    /// Takes the line `line` out of the file `file`, both numbered from 0, if it is a plain line on the walk. Returns whether it did.
    fn take_line_in_place(&mut self, file: usize, line: usize) -> bool
        requires walked { AreSoundWalkedFiles self.old }
        requires loaded { policy_or_load_fault (named_files_of_policy (policy_of_walked_files self.old)) ≡ Ok (policy_of_walked_files self.old) }
        requires can { AreApplicableChanges (Take file line ∷ []) (policy_of_walked_files self.old).files }
        ensures walked { AreSoundWalkedFiles self.new }
        ensures made { IsChangeInPlace result (Take file line ∷ []) self.old self.new }
    {
        let Some(place) = self.find_line_on_walk(file, line) else {
            return false;
        };
        if !is_plain_line(&place.row) {
            return false;
        }
        let by = LineMove {
            up: 0,
            down: 1,
            more: 0,
            less: place.row.lfs as usize,
        };
        take_row_out(self.files.as_mut_slice(), file, line);
        self.lines.remove(place.number);
        move_spots(self.spots.as_mut_slice(), file, line + 1, by);
        self.spots.remove(place.number);
        self.index.move_places(place.number + 1, by);
        true
    }

    /// Returns whether the file with the number `file`, from 0, may have `size` bytes more.
    fn has_room_in_file(&self, file: usize, size: usize) -> bool
        ensures { result ≡ true → HasRoomInFile self.now.files.items file size }
    {
        match self.files.get(file) {
            Some(parsed) => parsed.bytes <= TEXT_LIMIT && size <= TEXT_LIMIT - parsed.bytes,
            None => false,
        }
    }

    /// Returns how many bytes the text of `row` has.
    fn size_of_row(&self, row: &LineRow) -> usize
        ensures { result ≡ length (text_in_tables self.now.tables row.now.text) }
    {
        self.tables.bytes_of_text_row(row.text).len()
    }

    /// Puts the line of `row` before the line with the number `line` of the file with the number `file`, both from 0, if that is on the walk
    /// and no include, and the new line is plain. Returns whether it did.
    ///
    /// # Errors
    ///
    /// Memory ran out. The files then are as they were.
    fn put_row_in_place(
        &mut self,
        file: usize,
        line: usize,
        row: LineRow,
    ) -> Result<bool, AllocError>
        requires walked { AreSoundWalkedFiles self.old }
        requires loaded { policy_or_load_fault (named_files_of_policy (policy_of_walked_files self.old)) ≡ Ok (policy_of_walked_files self.old) }
        requires row { IsReadLineRow self.old.tables (text_in_tables self.old.tables row.text) row }
        requires can { AreApplicableChanges (Put file line (text_in_tables self.old.tables row.text) ∷ []) (policy_of_walked_files self.old).files }
        ensures walked { AreSoundWalkedFiles self.new }
        ensures made { IsChangeInPlaceUnlessNoMemory result (Put file line (text_in_tables self.old.tables row.text) ∷ []) self.old self.new }
    {
        let Some(place) = self.find_line_on_walk(file, line) else {
            return Ok(false);
        };
        let size = self.size_of_row(&row);
        if !is_plain_line(&row)
            || !is_no_include(&place.row)
            || !self.has_room_in_file(file, size)
        {
            return Ok(false);
        }
        let by = LineMove {
            up: 1,
            down: 0,
            more: row.lfs as usize,
            less: 0,
        };
        self.lines.reserve(1)?;
        self.spots.reserve(1)?;
        if let Err(error) = put_row_in(self.files.as_mut_slice(), file, line, row, size) {
            return Err(error);
        }
        self.lines.insert(place.number, row).unwrap();
        let spot = self.spots[place.number];
        move_spots(self.spots.as_mut_slice(), file, line, by);
        self.spots.insert(place.number, spot).unwrap();
        self.index.move_places(place.number, by);
        Ok(true)
    }

    /// Puts the line of `row` in the place of the line with the number `line` of the file with the number `file`, both from 0, if that is on
    /// the walk, neither is an include, and both define the same names. Returns whether it did.
    fn set_row_in_place(&mut self, file: usize, line: usize, row: LineRow) -> bool
        requires walked { AreSoundWalkedFiles self.old }
        requires loaded { policy_or_load_fault (named_files_of_policy (policy_of_walked_files self.old)) ≡ Ok (policy_of_walked_files self.old) }
        requires row { IsReadLineRow self.old.tables (text_in_tables self.old.tables row.text) row }
        requires can { AreApplicableChanges (Swap file line (text_in_tables self.old.tables row.text) ∷ []) (policy_of_walked_files self.old).files }
        ensures walked { AreSoundWalkedFiles self.new }
        ensures made { IsChangeInPlace result (Swap file line (text_in_tables self.old.tables row.text) ∷ []) self.old self.new }
    {
        let Some(place) = self.find_line_on_walk(file, line) else {
            return false;
        };
        let size = self.size_of_row(&row);
        if !is_no_include(&row)
            || !is_no_include(&place.row)
            || !self.has_room_in_file(file, size)
        {
            return false;
        }
        let DefinedNamesChange::Nothing = name_change_of_line(
            &self.tables,
            place.number,
            &place.row.node,
            &row.node,
        ) else {
            return false;
        };
        let by = LineMove {
            up: 0,
            down: 0,
            more: row.lfs as usize,
            less: place.row.lfs as usize,
        };
        set_row_in(self.files.as_mut_slice(), file, line, row, size);
        self.lines[place.number] = row;
        move_spots(self.spots.as_mut_slice(), file, line + 1, by);
        true
    }

    /// Puts the line `text` before the line `line` of the file `file`, both numbered from 0, if only lines behind it move. Returns whether it did.
    ///
    /// # Errors
    ///
    /// Memory ran out. The files then are as they were.
    fn put_line_in_place(
        &mut self,
        alloc: Global,
        file: usize,
        line: usize,
        text: &[u8],
    ) -> Result<bool, AllocError>
        requires walked { AreSoundWalkedFiles self.old }
        requires loaded { policy_or_load_fault (named_files_of_policy (policy_of_walked_files self.old)) ≡ Ok (policy_of_walked_files self.old) }
        requires can { AreApplicableChanges (Put file line text.now ∷ []) (policy_of_walked_files self.old).files }
        ensures walked { AreSoundWalkedFiles self.new }
        ensures made { IsChangeInPlaceUnlessNoMemory result (Put file line text.now ∷ []) self.old self.new }
    {
        match read_short_line(alloc, &mut self.tables, text)? {
            Some(row) => self.put_row_in_place(file, line, row),
            None => Ok(false),
        }
    }

    /// Puts `text` in the place of the line `line` of the file `file`, both numbered from 0, if only lines behind it move. Returns whether it did.
    ///
    /// # Errors
    ///
    /// Memory ran out. The files then are as they were.
    fn set_line_in_place(
        &mut self,
        alloc: Global,
        file: usize,
        line: usize,
        text: &[u8],
    ) -> Result<bool, AllocError>
        requires walked { AreSoundWalkedFiles self.old }
        requires loaded { policy_or_load_fault (named_files_of_policy (policy_of_walked_files self.old)) ≡ Ok (policy_of_walked_files self.old) }
        requires can { AreApplicableChanges (Swap file line text.now ∷ []) (policy_of_walked_files self.old).files }
        ensures walked { AreSoundWalkedFiles self.new }
        ensures made { IsChangeInPlaceUnlessNoMemory result (Swap file line text.now ∷ []) self.old self.new }
    {
        match read_short_line(alloc, &mut self.tables, text)? {
            Some(row) => Ok(self.set_row_in_place(file, line, row)),
            None => Ok(false),
        }
    }

    /// Makes the change `change` in its place, if nothing but the lines behind it moves. Returns whether it did.
    ///
    /// # Errors
    ///
    /// Memory ran out. The files then are as they were.
    pub fn change_line_in_place(
        &mut self,
        alloc: Global,
        change: &LineChange,
    ) -> Result<bool, AllocError>
        requires walked { AreSoundWalkedFiles self.old }
        requires loaded { policy_or_load_fault (named_files_of_policy (policy_of_walked_files self.old)) ≡ Ok (policy_of_walked_files self.old) }
        requires can { AreApplicableChanges (change.now ∷ []) (policy_of_walked_files self.old).files }
        ensures walked { AreSoundWalkedFiles self.new }
        ensures made { IsChangeInPlaceUnlessNoMemory result (change.now ∷ []) self.old self.new }
    {
        match change {
            LineChange::Put { file, at, text } => self.put_line_in_place(
                alloc,
                *file,
                *at,
                text.as_slice(),
            ),
            LineChange::Swap { file, at, text } => self.set_line_in_place(
                alloc,
                *file,
                *at,
                text.as_slice(),
            ),
            LineChange::Take { file, at } => Ok(self.take_line_in_place(*file, *at)),
        }
    }
}
