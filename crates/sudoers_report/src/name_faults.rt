//! The lines of a policy that define a name which they may not define, and where.

use crate::cut_files::{CutFile, FileLine};
use crate::place::PlaceInPolicy;
use crate::walked_lines::WalkedLines;
use std::alloc::{AllocError, Global};
use std::collections::BTreeMap;
use sudoers_grammar::{Kind, LineFault, alias_keyword_of_kind};
use sudoers_line_reader::parse;
use sudoers_line_rows::{AliasDefinitionRow, Def, Node, RowsOfTable};
use sudoers_text::is_reserved;
use sudoers_tree::{ALIAS_LIMIT, ReadFault, is_same_kind};

/// Why a name may not be defined.
#[derive(Clone, Copy, Debug, PartialEq, Eq)]
enum NameCause {
    /// It is a reserved word.
    Reserved,
    /// It is defined already.
    Duplicate,
    /// There are too many definitions of its kind.
    TooMany,
}

/// A definition that is an error: the place of its name, and the place of the definition before it that has the name.
#[derive(Clone, Copy)]
pub struct NameFault<'a> {
    cause: NameCause,
    kind: Kind,
    name: &'a [u8],
    pub place: PlaceInPolicy<'a>,
    pub first: Option<PlaceInPolicy<'a>>,
}

impl<'a> NameFault<'a> {
    /// Returns whether this is the error `fault` of the file `file`.
    pub fn is_fault_of_file(&self, file: &[u8], fault: &ReadFault) -> bool {
        if self.place.file != file {
            return false;
        }
        match fault {
            ReadFault::Reserved { kind, name } => {
                self.is_of_name(NameCause::Reserved, *kind, name.as_slice())
            }
            ReadFault::Duplicate { kind, name } => {
                self.is_of_name(NameCause::Duplicate, *kind, name.as_slice())
            }
            ReadFault::TooMany { kind } => { self.is_of_name(NameCause::TooMany, *kind, self.name) }
            _ => false,
        }
    }

    /// Returns whether the error has the cause `cause`, and is that of the name `name` of the kind `kind`.
    fn is_of_name(&self, cause: NameCause, kind: Kind, name: &[u8]) -> bool {
        self.cause == cause && is_same_kind(self.kind, kind) && self.name == name
    }
}

/// The search for names that may not be defined: the names so far, how many there are of each kind, and what was found.
#[derive(Drop)]
struct NameSearch<'a> {
    alloc: Global,
    names: BTreeMap<Vec<u8>, PlaceInPolicy<'a>>,
    counts: [usize; 4],
    faults: Vec<NameFault<'a>>,
}

/// Returns the number of the kind `kind` among the four.
fn number_of_kind(kind: Kind) -> usize {
    match kind {
        Kind::User => 0,
        Kind::Runas => 1,
        Kind::Host => 2,
        Kind::Cmnd => 3,
    }
}

/// Returns the definitions of the files `files` that are errors, the first of each line: on the walk `walk`, then reserved words in other
/// files.
///
/// # Errors
///
/// Memory ran out.
pub fn list_name_faults<'a>(
    alloc: Global,
    files: &[CutFile<'a>],
    walk: &WalkedLines<'a>,
) -> Result<Vec<NameFault<'a>>, AllocError> {
    let mut search = NameSearch {
        alloc,
        names: BTreeMap::new(alloc),
        counts: [0; 4],
        faults: Vec::new(alloc),
    };
    for line in &walk.lines {
        search.search_line(*line, true)?;
    }
    for (file, is_on_walk) in files.iter().zip(walk.is_on_walk.iter()) {
        if !*is_on_walk {
            search.search_lines_off_walk(file.lines.as_slice())?;
        }
    }
    Ok(search.faults)
}

impl<'a> NameSearch<'a> {
    /// Searches the lines `lines` of a file that is not on the walk.
    fn search_lines_off_walk(&mut self, lines: &[FileLine<'a>]) -> Result<(), AllocError> {
        for line in lines {
            self.search_line(*line, false)?;
        }
        Ok(())
    }

    /// Adds the first error of the names that the line `line` defines. Off the walk, which `is_on_walk` says, only reserved words are errors.
    fn search_line(&mut self, line: FileLine<'a>, is_on_walk: bool) -> Result<(), AllocError> {
        let parsed = match parse(self.alloc, line.text) {
            Ok(parsed) => parsed,
            Err(LineFault::NoMemory) => return Err(AllocError),
            Err(LineFault::Syntax { .. }) => return Ok(()),
        };
        match parsed.node() {
            Node::Alias { kind, defs } => self.search_definitions(line, kind, &defs, is_on_walk),
            _ => Ok(()),
        }
    }

    /// Adds the first error of the definitions `defs` of the kind `kind` of the line `line`.
    fn search_definitions(
        &mut self,
        line: FileLine<'a>,
        kind: Kind,
        defs: &RowsOfTable<'_, AliasDefinitionRow>,
        is_on_walk: bool,
    ) -> Result<(), AllocError> {
        let mut first = None;
        for row in defs.rows {
            let def = defs.tables.alias_definition_of_row(row);
            let fault = self.enter_definition(line, kind, &def, is_on_walk)?;
            if first.is_none() {
                first = fault;
            }
        }
        if let Some(fault) = first {
            self.faults.push(fault)?;
        }
        Ok(())
    }

    /// Enters the name of the definition `def` of the kind `kind` of the line `line`, and returns its error, if it is one.
    fn enter_definition(
        &mut self,
        line: FileLine<'a>,
        kind: Kind,
        def: &Def<'_>,
        is_on_walk: bool,
    ) -> Result<Option<NameFault<'a>>, AllocError> {
        let Some(name) = line
            .text
            .get(def.start..def.start.saturating_add(def.name.len()))
        else {
            return Ok(None);
        };
        let stop = def.start.saturating_add(def.name.len());
        let place = line.place_of(def.start, stop);
        let (cause, first) = match self.enter_name(kind, name, place, is_on_walk)? {
            Some(found) => found,
            None => return Ok(None),
        };
        Ok(Some(NameFault {
            cause,
            kind,
            name,
            place,
            first,
        }))
    }

    /// Enters the name `name` of the kind `kind`, which stands at `place`. Returns why it may not be defined, with the place of the definition
    /// that has it already; nothing if it may.
    fn enter_name(
        &mut self,
        kind: Kind,
        name: &[u8],
        place: PlaceInPolicy<'a>,
        is_on_walk: bool,
    ) -> Result<Option<(NameCause, Option<PlaceInPolicy<'a>>)>, AllocError> {
        if is_reserved(name) {
            return Ok(Some((NameCause::Reserved, None)));
        }
        if !is_on_walk {
            return Ok(None);
        }
        let mut key = Vec::from_slice(self.alloc, alias_keyword_of_kind(kind))?;
        key.extend_from_slice(name)?;
        if let Some(first) = self.names.get(&key) {
            return Ok(Some((NameCause::Duplicate, Some(*first))));
        }
        self.names.insert(key, place)?;
        let Some(count) = self.counts.get_mut(number_of_kind(kind)) else {
            return Ok(None);
        };
        *count = count.saturating_add(1);
        if *count == ALIAS_LIMIT.saturating_add(1) {
            return Ok(Some((NameCause::TooMany, None)));
        }
        Ok(None)
    }
}
