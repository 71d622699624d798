//! Files that are read.

ghost use Rattle.std.specs.Prelude.{◌≡◌, ◌+◌, ℕ, List, false, length, slice_get, option_map, IfOk, IfSome, Some};
ghost use Rattle.std.specs.Option.{option_copied};
ghost use Rattle.sudoers_tree.specs.Files.{fault_of_numbered_file, lines_of_numbered_file, name_of_numbered_file, physical_line_of_file_line};
ghost use Rattle.sudoers_tree.specs.Fault.{syntax_fault_as_read_fault};
ghost use Rattle.sudoers_tree.specs.Kind.{line_kind};
ghost use Rattle.sudoers_tree.specs.Line.{Line as LineOf, line_of_row, line_of_view, lines_of_rows};
ghost use Rattle.sudoers_tree.specs.Load.{reserved_name_fault_in_lines};
ghost use Rattle.sudoers_tree.specs.NameBits.{bits_of_name};
ghost use Rattle.sudoers_tree.specs.Reading.{first_of_two_faults};
ghost use Rattle.sudoers_tree.specs.Standing.{IsAliasNameAbsent};
ghost use Rattle.sudoers_tree.specs.internal.Files.{HaveSoundFileRows, parsed_files_of_view};
ghost use Rattle.sudoers_tree.specs.internal.Tree.{IsLastingLineRow};

use crate::alias_index::find_reserved_name_fault_in_line;
use crate::fault::{ReadFault, SyntaxFault};
use crate::line::{Line, LineRow};
use crate::line_kind::LineKind;
use crate::name_bits::NameFilterBits;
use std::alloc::{AllocError, Global};
use sudoers_grammar::Items;
use sudoers_line_rows::{RowsOfTable, Tables};

/// A file that is read: its name, the rows of its lines up to the first that does not parse, and the fault of that line, if there is one.
#[derive(Drop)]
pub struct ParsedFileRows {
    pub name: Items<u8>,
    pub rows: Vec<LineRow>,
    pub fault: Option<SyntaxFault>,
    /// How many bytes the lines have at most.
    pub bytes: usize,
}

/// Files that are read, and the tables in which their lines say something.
#[derive(Clone, Copy)]
pub struct FilesInTables<'a> {
    pub tables: &'a Tables,
    pub files: &'a [ParsedFileRows],
}

impl<'a> FilesInTables<'a> {
    /// Returns how many files there are.
    pub fn len(&self) -> usize
        ensures { result ≡ length (parsed_files_of_view self.now) }
    {
        self.files.len()
    }

    /// Returns the name of the file with the number `file`, from 0; no bytes if there is none.
    pub fn file_name_at(&self, file: usize) -> &'a [u8]
        ensures { result.now ≡ name_of_numbered_file (parsed_files_of_view self.now) file }
    {
        match self.files.get(file) {
            Some(file) => file.name.as_slice(),
            None => &[],
        }
    }

    /// Returns the fault of the line of the file with the number `file` that does not parse, if there is one.
    pub fn syntax_fault_of_file(&self, file: usize) -> Option<SyntaxFault>
        ensures { result ≡ fault_of_numbered_file (parsed_files_of_view self.now) file }
    {
        self.files.get(file)?.fault
    }

    /// Returns the lines of the file with the number `file`, from 0, that are read; none if there is no such file.
    pub fn parsed_lines_of_file(&self, file: usize) -> RowsOfTable<'a, LineRow>
        ensures { lines_of_rows result ≡ lines_of_numbered_file (parsed_files_of_view self.now) file }
    {
        RowsOfTable {
            tables: self.tables,
            rows: match self.files.get(file) {
                Some(file) => file.rows.as_slice(),
                None => &[],
            },
        }
    }

    /// Returns how many lines of the file with the number `file` are read.
    pub fn line_count(&self, file: usize) -> usize
        ensures { result ≡ length (lines_of_numbered_file (parsed_files_of_view self.now) file) }
    {
        self.parsed_lines_of_file(file).rows.len()
    }

    /// Returns the row of the line with the number `number` of the file with the number `file`, both from 0.
    pub fn line_row_at(&self, file: usize, number: usize) -> Option<&'a LineRow>
        ensures line { option_map (λ row. line_of_row self.now.tables.now row.now) result ≡ slice_get (lines_of_numbered_file (parsed_files_of_view self.now) file) number }
        ensures stands { HaveSoundFileRows self.now → IfSome result (λ row. IsLastingLineRow self.now.tables.now row.now) }
    {
        self.files.get(file)?.rows.get(number)
    }

    /// Returns the line with the number `number` of the file with the number `file`, both from 0.
    pub fn parsed_line_at(&self, file: usize, number: usize) -> Option<Line<'a>>
        ensures { option_map line_of_view result ≡ slice_get (lines_of_numbered_file (parsed_files_of_view self.now) file) number }
    {
        Some(Line::from_line_row(self.tables, self.line_row_at(file, number)?))
    }

    /// Returns the kind of the line with the number `number` of a file, both from 0.
    pub fn line_kind_at(&self, file: usize, number: usize) -> Option<LineKind>
        ensures { result ≡ option_map (λ (line : LineOf). line_kind line.node) (slice_get (lines_of_numbered_file (parsed_files_of_view self.now) file) number) }
    {
        Some(self.line_row_at(file, number)?.kind_of_line_row())
    }

    /// Returns whether an alias of a name with the bits `bits` may stand in the line with the number `number` of the file with the number
    /// `file`, both from 0. If it returns false, none stands there.
    pub fn may_have_alias_in_file_line(
        &self,
        file: usize,
        number: usize,
        bits: NameFilterBits,
    ) -> bool
        requires { HaveSoundFileRows self.now }
        ensures { (name : List ℕ) (says : LineOf) → bits.set ≡ bits_of_name name → result ≡ false
            → slice_get (lines_of_numbered_file (parsed_files_of_view self.now) file) number ≡ Some says → IsAliasNameAbsent name says.node }
    {
        match self.line_row_at(file, number) {
            Some(row) => row.may_have_alias_with_bits(bits),
            None => false,
        }
    }

    /// Returns the first fault that the file with the number `file` has if it is not on the walk.
    ///
    /// # Errors
    ///
    /// Memory ran out.
    pub fn fault_of_unreached_file(
        &self,
        alloc: Global,
        file: usize,
    ) -> Result<Option<ReadFault>, AllocError>
        ensures { IfOk result (λ fault. fault
            ≡ first_of_two_faults (reserved_name_fault_in_lines (lines_of_numbered_file (parsed_files_of_view self.now) file)) (option_map syntax_fault_as_read_fault (fault_of_numbered_file (parsed_files_of_view self.now) file))) }
    {
        for line in 0..self.line_count(file) {
            let Some(line) = self.parsed_line_at(file, line) else {
                return Ok(None);
            };
            if let Some(fault) = find_reserved_name_fault_in_line(alloc, &line.node)? {
                return Ok(Some(fault));
            }
        }
        match self.syntax_fault_of_file(file) {
            Some(fault) => Ok(Some(fault.into())),
            None => Ok(None),
        }
    }

    /// Returns the physical line, from 1, on which the line begins that follows the line with the number `number` of the file with the
    /// number `file`. That line begins on the physical line `row`.
    pub fn physical_line_of_next_file_line(&self, file: usize, number: usize, row: usize) -> usize
        requires files { HaveSoundFileRows self.now }
        requires row { row ≡ physical_line_of_file_line (lines_of_numbered_file (parsed_files_of_view self.now) file) number }
        ensures { (line : LineOf) → slice_get (lines_of_numbered_file (parsed_files_of_view self.now) file) number ≡ Some line
            → result ≡ physical_line_of_file_line (lines_of_numbered_file (parsed_files_of_view self.now) file) (number + 1) }
    {
        match self.line_row_at(file, number) {
            Some(line) => row + line.lfs as usize,
            None => row,
        }
    }

    /// Returns the physical line, from 1, on which the line with the number `number` of the file with the number `file` begins.
    pub fn physical_line_of_line(&self, file: usize, number: usize) -> usize
        requires { HaveSoundFileRows self.now }
        ensures { result ≡ physical_line_of_file_line (lines_of_numbered_file (parsed_files_of_view self.now) file) number }
    {
        let mut row = 1;
        for line in 0..number.min(self.line_count(file)) {
            row = self.physical_line_of_next_file_line(file, line, row);
        }
        row
    }
}
