//! The errors of files that are not on the walk.

use crate::all_faults::FaultSearch;
use std::alloc::{AllocError, Global};
use sudoers_grammar::{Items, LineFault, Why};
use sudoers_line_reader::parse;
use sudoers_line_rows::Node;
use sudoers_text::is_reserved;
use sudoers_tree::{ReadFault, column_behind, lf_count};

/// Returns the error of the line `line`, which begins on the row `row`, from 1, and has a fault at its byte `at` for the cause `why`.
pub fn syntax_fault_at(row: usize, line: &[u8], at: usize, why: Why) -> ReadFault {
    let (before, _) = line.split_at(at.min(line.len()));
    ReadFault::Syntax {
        line: row.saturating_add(lf_count(before)),
        col: column_behind(before),
        why,
    }
}

impl FaultSearch<'_> {
    /// Searches the lines of the files that are not on the walk: for those that do not parse, and for reserved words.
    ///
    /// # Errors
    ///
    /// Memory ran out.
    pub fn search_files_off_walk(&mut self, alloc: Global) -> Result<(), AllocError> {
        for file in 0..self.files.len() {
            if self.on_walk.contains(&file) {
                continue;
            }
            self.search_file_off_walk(alloc, file)?;
        }
        Ok(())
    }

    /// Searches the lines of the file with the number `file`, which is not on the walk. Includes of it lead nowhere, and its names are no
    /// definitions.
    fn search_file_off_walk(&mut self, alloc: Global, file: usize) -> Result<(), AllocError> {
        let count = match self.lines.get(file) {
            Some(lines) => lines.len(),
            None => 0,
        };
        let mut row: usize = 1;
        for number in 0..count {
            let Some(line) = self.line_at(file, number) else {
                break;
            };
            self.search_line_off_walk(alloc, file, row, line)?;
            row = row.saturating_add(lf_count(line));
        }
        Ok(())
    }

    /// Searches the line `line`, which begins on the row `row`, of the file with the number `file`, which is not on the walk.
    fn search_line_off_walk(
        &mut self,
        alloc: Global,
        file: usize,
        row: usize,
        line: &[u8],
    ) -> Result<(), AllocError> {
        match parse(alloc, line) {
            Ok(parsed) => {
                if let Node::Alias { kind, defs } = parsed.node() {
                    for def in defs.rows {
                        let name = defs.tables.alias_definition_of_row(def).name;
                        if is_reserved(name) {
                            let name = Items::from_slice(alloc, name)?;
                            let fault = ReadFault::Reserved { kind, name };
                            return self.add_fault(alloc, file, fault);
                        }
                    }
                }
                Ok(())
            }
            Err(LineFault::NoMemory) => Err(AllocError),
            Err(LineFault::Syntax { at, why }) => {
                self.add_fault(alloc, file, syntax_fault_at(row, line, at, why))
            }
        }
    }
}
