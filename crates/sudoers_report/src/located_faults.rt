//! Where the errors of a policy stand.

use crate::cut_files::{CutFile, FileLine, cut_files};
use crate::error_hints::{ErrorHint, advice_of_fault};
use crate::name_faults::{NameFault, list_name_faults};
use crate::place::{LineAndColumn, PlaceInPolicy};
use crate::syntax_faults::{find_syntax_details, tokens_of_line};
use crate::walked_lines::WalkedLines;
use memchr::memrchr;
use std::alloc::{AllocError, Global};
use sudoers_explain::ExpectedPiece;
use sudoers_grammar::Why;
use sudoers_text::TextFault;
use sudoers_tree::{LoadFault, NamedFile, ReadFault, column_behind, lf_count};

/// What is known of an error: its place; the place before it that it repeats; of a line that does not parse the pieces that may stand there;
/// and what to do.
#[derive(Drop)]
pub struct LocatedFault<'a> {
    pub place: Option<PlaceInPolicy<'a>>,
    pub first: Option<PlaceInPolicy<'a>>,
    pub pieces: Option<Vec<ExpectedPiece>>,
    pub hint: Option<ErrorHint<'a>>,
}

impl<'a> LocatedFault<'a> {
    /// Returns what is known of an error at `place`.
    fn from_place(place: PlaceInPolicy<'a>) -> LocatedFault<'a> {
        LocatedFault {
            place: Some(place),
            first: None,
            pieces: None,
            hint: None,
        }
    }
}

/// The files of a policy with errors, the walk over them, and their names that may not be defined, of which the first `next` belong to errors
/// that were located.
#[derive(Drop)]
pub struct FaultLocator<'a> {
    alloc: Global,
    files: Vec<CutFile<'a>>,
    walk: WalkedLines<'a>,
    names: Vec<NameFault<'a>>,
    next: usize,
}

/// Returns the place of the byte `at` of the file `file`.
fn place_of_byte(file: &NamedFile, at: usize) -> PlaceInPolicy<'_> {
    let bytes = file.bytes.as_slice();
    let (before, _) = bytes.split_at(at.min(bytes.len()));
    let column = column_behind(before);
    let line = lf_count(before).saturating_add(1);
    PlaceInPolicy {
        file: file.name.as_slice(),
        start: Some(LineAndColumn { line, column }),
        end: Some(LineAndColumn {
            line,
            column: column.saturating_add(1),
        }),
    }
}

/// Returns the place of the error `fault` of the text of the file `file`.
fn place_of_text_fault(file: &NamedFile, fault: TextFault) -> PlaceInPolicy<'_> {
    let whole = PlaceInPolicy::from_file(file.name.as_slice());
    match fault {
        TextFault::LineTooLong { line } => PlaceInPolicy {
            start: Some(LineAndColumn { line, column: 1 }),
            ..whole
        },
        TextFault::Nul { at } => place_of_byte(file, at),
        TextFault::OpenContinuation => match memrchr(b'\\', file.bytes.as_slice()) {
            Some(at) => place_of_byte(file, at),
            None => whole,
        },
        TextFault::TooLarge | TextFault::NoMemory => whole,
    }
}

/// Returns the place of the include line `line`: from its first byte up to the end of its path.
fn place_of_include<'a>(
    alloc: Global,
    line: FileLine<'a>,
) -> Result<PlaceInPolicy<'a>, AllocError> {
    let tokens = tokens_of_line(alloc, line.text)?;
    let stop = match tokens.get(1) {
        Some(path) => path.stop,
        None => 0,
    };
    Ok(line.place_of(0, stop))
}

impl<'a> FaultLocator<'a> {
    /// Returns the locator of the errors of the files `files`.
    ///
    /// # Errors
    ///
    /// Memory ran out.
    pub fn new(alloc: Global, files: &'a [NamedFile]) -> Result<FaultLocator<'a>, AllocError> {
        let files = cut_files(alloc, files)?;
        let walk = WalkedLines::new(alloc, files.as_slice())?;
        let names = list_name_faults(alloc, files.as_slice(), &walk)?;
        Ok(FaultLocator {
            alloc,
            files,
            walk,
            names,
            next: 0,
        })
    }

    /// Returns what is known of the error `fault`. The errors of a policy are located in the order in which they are found.
    ///
    /// # Errors
    ///
    /// Memory ran out.
    pub fn locate(&mut self, fault: &LoadFault) -> Result<LocatedFault<'a>, AllocError> {
        let mut located = match fault {
            LoadFault::InFile { file, fault } => self.locate_in_file(file.as_slice(), fault)?,
            LoadFault::SameName { file } => self.locate_whole_file(file.as_slice()),
            LoadFault::TooManyFiles | LoadFault::NoMemory => LocatedFault {
                place: None,
                first: None,
                pieces: None,
                hint: None,
            },
        };
        if let Some(advice) = advice_of_fault(fault)
            && let Some(place) = located.place
        {
            located.hint = Some(ErrorHint { advice, place });
        }
        Ok(located)
    }

    /// Returns the file `name`.
    fn find_file(&self, name: &[u8]) -> Option<&CutFile<'a>> {
        self.files
            .iter()
            .find(|file| file.file.name.as_slice() == name)
    }

    /// Returns what is known of an error of the whole file `name`.
    fn locate_whole_file(&self, name: &[u8]) -> LocatedFault<'a> {
        LocatedFault {
            place: match self.find_file(name) {
                Some(file) => Some(PlaceInPolicy::from_file(file.file.name.as_slice())),
                None => None,
            },
            first: None,
            pieces: None,
            hint: None,
        }
    }

    /// Returns what is known of the error `fault` of the file `name`.
    fn locate_in_file(
        &mut self,
        name: &[u8],
        fault: &ReadFault,
    ) -> Result<LocatedFault<'a>, AllocError> {
        match fault {
            ReadFault::Text(fault) => match self.find_file(name) {
                Some(file) => Ok(LocatedFault::from_place(place_of_text_fault(file.file, *fault))),
                None => Ok(self.locate_whole_file(name)),
            },
            ReadFault::Syntax { line, col, why } => {
                let start = LineAndColumn {
                    line: *line,
                    column: *col,
                };
                self.locate_syntax_fault(name, start, *why)
            }
            ReadFault::Reserved { .. } | ReadFault::Duplicate { .. } | ReadFault::TooMany { .. } =>
                Ok(self.locate_name_fault(name, fault)),
            ReadFault::NotLoaded { line, .. } | ReadFault::TooDeep { line } => {
                self.locate_include(name, *line)
            }
            ReadFault::Twice { line, name: again } => {
                self.locate_second_include(name, *line, again.as_slice())
            }
            ReadFault::NoMemory => Ok(self.locate_whole_file(name)),
        }
    }

    /// Returns what is known of a line of the file `name` that does not parse: at `start`, for the cause `why`.
    fn locate_syntax_fault(
        &self,
        name: &[u8],
        start: LineAndColumn,
        why: Why,
    ) -> Result<LocatedFault<'a>, AllocError> {
        let mut located = self.locate_whole_file(name);
        if let Some(place) = located.place {
            located.place = Some(PlaceInPolicy {
                start: Some(start),
                ..place
            });
        }
        let Some(file) = self.find_file(name) else {
            return Ok(located);
        };
        let Some(line) = file.find_line_of_row(start.line) else {
            return Ok(located);
        };
        if let Some(details) = find_syntax_details(self.alloc, line, start, why)? {
            located.place = Some(details.place);
            located.pieces = Some(details.pieces);
            located.hint = details.hint;
        }
        Ok(located)
    }

    /// Returns what is known of the include line of the file `name` that begins on the row `row`.
    fn locate_include(&self, name: &[u8], row: usize) -> Result<LocatedFault<'a>, AllocError> {
        let Some(file) = self.find_file(name) else {
            return Ok(self.locate_whole_file(name));
        };
        match file.find_line_of_row(row) {
            Some(line) => Ok(LocatedFault::from_place(place_of_include(self.alloc, line)?)),
            None => Ok(self.locate_whole_file(name)),
        }
    }

    /// Returns what is known of the include line of the file `name` that begins on the row `row`, and of the line that included the file
    /// `again` before it.
    fn locate_second_include(
        &self,
        name: &[u8],
        row: usize,
        again: &[u8],
    ) -> Result<LocatedFault<'a>, AllocError> {
        let mut located = self.locate_include(name, row)?;
        if let Some(line) = self.walk.find_first_include(self.files.as_slice(), again) {
            located.first = Some(place_of_include(self.alloc, line)?);
        }
        Ok(located)
    }

    /// Returns what is known of the error `fault` of the file `name`, which is about a name that may not be defined there. Only the whole file
    /// is known if this is not the next such name.
    fn locate_name_fault(&mut self, name: &[u8], fault: &ReadFault) -> LocatedFault<'a> {
        let mut located = self.locate_whole_file(name);
        if let Some(found) = self.names.get(self.next)
            && found.is_fault_of_file(name, fault)
        {
            located.place = Some(found.place);
            located.first = found.first;
            self.next = self.next.saturating_add(1);
        }
        located
    }
}
