//! All errors of a policy: the first of each logical line, over all files.

use crate::off_walk_faults::syntax_fault_at;
use std::alloc::{AllocError, Global};
use std::collections::BTreeSet;
use sudoers_grammar::{Items, Kind, LineFault, alias_keyword_of_kind};
use sudoers_line_reader::parse;
use sudoers_line_rows::{AliasDefinitionRow, Node, RowsOfTable};
use sudoers_text::{TextFault, cut, is_reserved};
use sudoers_tree::{
    ALIAS_LIMIT, FILE_LIMIT, Lead, LoadFault, NamedFile, ReadFault, base_name_of_path,
    column_behind, folder_of, has_file_named, is_included_base_name, lead_of_include_node,
    lf_count,
};

/// How many levels deep files may include one another.
const INCLUDE_DEPTH_LIMIT: usize = 128;

/// A place on the walk over files: the line with the number `line`, from 0, of the file with the number `file`, which begins on the
/// row `row`, from 1. `depth` is how many include lines lead to the file, and `included_at` the last of them, if the file was not begun.
#[derive(Clone, Copy)]
struct WalkPlace {
    file: usize,
    line: usize,
    row: usize,
    depth: usize,
    included_at: Option<(usize, usize)>,
}

/// The search for errors: the files, the lines of each that can be cut, the files on the walk, the names that are defined, and the errors.
#[derive(Drop)]
pub struct FaultSearch<'a> {
    pub files: &'a [NamedFile],
    pub lines: Vec<Vec<&'a [u8]>>,
    pub on_walk: Vec<usize>,
    names: BTreeSet<Vec<u8>>,
    counts: [usize; 4],
    pub faults: Vec<LoadFault>,
}

/// Returns all errors of the policy of `files`, in the order in which [`sudoers_tree::Policy::load`] looks for its first: of the list of files,
/// of the texts, of the lines on the walk from the first file on, and of the lines of other files. Of a file that cannot be cut into lines
/// and of a line it returns the first error alone. The first is that of `load`.
///
/// # Errors
///
/// Memory ran out.
pub fn list_load_faults(alloc: Global, files: &[NamedFile]) -> Result<Vec<LoadFault>, AllocError> {
    let mut search = FaultSearch::new(alloc, files)?;
    if !search.faults.is_empty() {
        return Ok(search.faults);
    }
    search.cut_files(alloc)?;
    search.search_walk(alloc)?;
    search.search_files_off_walk(alloc)?;
    Ok(search.faults)
}

/// Returns the number of the kind `kind` among the four.
fn number_of_kind(kind: Kind) -> usize {
    match kind {
        Kind::User => 0,
        Kind::Runas => 1,
        Kind::Host => 2,
        Kind::Cmnd => 3,
    }
}

/// Returns whether an include of the folder `dir` reads the file `name`.
fn is_in_folder(dir: &[u8], name: &[u8]) -> bool {
    match folder_of(name).strip_suffix(b"/") {
        Some(folder) => folder == dir && is_included_base_name(base_name_of_path(name)),
        None => false,
    }
}

impl<'a> FaultSearch<'a> {
    /// Returns the search in `files`, with the error of their list, if it has one.
    fn new(alloc: Global, files: &'a [NamedFile]) -> Result<FaultSearch<'a>, AllocError> {
        let mut faults = Vec::new(alloc);
        if files.len() > FILE_LIMIT {
            faults.push(LoadFault::TooManyFiles)?;
        }
        for (number, file) in files.iter().enumerate() {
            let (before, _) = files.split_at(number.min(files.len()));
            if faults.is_empty() && has_file_named(before, file.name.as_slice()) {
                faults.push(LoadFault::SameName {
                    file: Items::from_slice(alloc, file.name.as_slice())?,
                })?;
            }
        }
        Ok(FaultSearch {
            files,
            lines: Vec::new(alloc),
            on_walk: Vec::new(alloc),
            names: BTreeSet::new(alloc),
            counts: [0; 4],
            faults,
        })
    }

    /// Adds the error `fault` of the file with the number `file`.
    ///
    /// # Errors
    ///
    /// Memory ran out.
    pub fn add_fault(
        &mut self,
        alloc: Global,
        file: usize,
        fault: ReadFault,
    ) -> Result<(), AllocError> {
        if let Some(found) = self.files.get(file) {
            self.faults.push(LoadFault::InFile {
                file: Items::from_slice(alloc, found.name.as_slice())?,
                fault,
            })?;
        }
        Ok(())
    }

    /// Cuts each file into its lines. A file that cannot be cut has no lines here, and its error is added.
    fn cut_files(&mut self, alloc: Global) -> Result<(), AllocError> {
        for (number, file) in self.files.iter().enumerate() {
            let mut lines = Vec::new(alloc);
            match cut(alloc, file.bytes.as_slice()) {
                Ok(found) => {
                    for line in 0..found.len() {
                        if let Some(text) = found.get(line) {
                            lines.push(text)?;
                        }
                    }
                }
                Err(TextFault::NoMemory) => return Err(AllocError),
                Err(fault) => self.add_fault(alloc, number, ReadFault::Text(fault))?,
            }
            self.lines.push(lines)?;
        }
        Ok(())
    }

    /// Returns the line `line` of the file with the number `file`.
    pub fn line_at(&self, file: usize, line: usize) -> Option<&'a [u8]> {
        let lines = self.lines.get(file)?;
        let text = lines.get(line)?;
        Some(*text)
    }

    /// Returns how many steps the walk takes at most: one for each line, and two for each file.
    fn count_steps(&self) -> usize {
        let mut steps: usize = 1;
        for lines in &self.lines {
            steps = steps.saturating_add(lines.len()).saturating_add(2);
        }
        steps.saturating_add(self.files.len().saturating_mul(self.files.len()))
    }

    /// Searches the lines on the walk.
    fn search_walk(&mut self, alloc: Global) -> Result<(), AllocError> {
        let mut places = Vec::new(alloc);
        places.push(WalkPlace {
            file: 0,
            line: 0,
            row: 1,
            depth: 0,
            included_at: None,
        })?;
        self.on_walk.push(0)?;
        for _ in 0..self.count_steps() {
            let Some(place) = places.pop() else {
                break;
            };
            if let Some((file, row)) = place.included_at {
                if self.on_walk.contains(&place.file) {
                    self.add_repeated_include(alloc, file, row, place.file)?;
                    continue;
                }
                self.on_walk.push(place.file)?;
            }
            self.search_line(alloc, place, &mut places)?;
        }
        Ok(())
    }

    /// Searches the line at `place`, and puts onto `places` the line after it, and before that the files to which the line leads.
    fn search_line(
        &mut self,
        alloc: Global,
        place: WalkPlace,
        places: &mut Vec<WalkPlace>,
    ) -> Result<(), AllocError> {
        let Some(line) = self.line_at(place.file, place.line) else {
            return Ok(());
        };
        places.push(WalkPlace {
            line: place.line.saturating_add(1),
            row: place.row.saturating_add(lf_count(line)),
            included_at: None,
            ..place
        })?;
        let parsed = match parse(alloc, line) {
            Ok(parsed) => parsed,
            Err(LineFault::NoMemory) => return Err(AllocError),
            Err(LineFault::Syntax { at, why }) => {
                return self.add_fault(alloc, place.file, syntax_fault_at(place.row, line, at, why));
            }
        };
        match parsed.node() {
            Node::Alias { kind, defs } => self.enter_names(alloc, place.file, kind, &defs),
            Node::Include { .. } => {
                let name = match self.files.get(place.file) {
                    Some(file) => file.name.as_slice(),
                    None => b"",
                };
                match lead_of_include_node(alloc, name, &parsed.node())? {
                    Some(lead) => self.follow_lead(alloc, place, &lead, places),
                    None => Ok(()),
                }
            }
            _ => Ok(()),
        }
    }

    /// Enters the names of the definitions `defs` of the kind `kind` of a line of the file with the number `file`, and adds the line's first
    /// error.
    fn enter_names(
        &mut self,
        alloc: Global,
        file: usize,
        kind: Kind,
        defs: &RowsOfTable<'_, AliasDefinitionRow>,
    ) -> Result<(), AllocError> {
        let mut first = None;
        for row in defs.rows {
            let name = defs.tables.alias_definition_of_row(row).name;
            let fault = self.enter_name(alloc, kind, name)?;
            if first.is_none() {
                first = fault;
            }
        }
        match first {
            Some(fault) => self.add_fault(alloc, file, fault),
            None => Ok(()),
        }
    }

    /// Enters the name `name` of the kind `kind`, and returns why it cannot be defined; nothing if it can.
    fn enter_name(
        &mut self,
        alloc: Global,
        kind: Kind,
        name: &[u8],
    ) -> Result<Option<ReadFault>, AllocError> {
        let owned = Items::from_slice(alloc, name)?;
        if is_reserved(name) {
            return Ok(Some(ReadFault::Reserved { kind, name: owned }));
        }
        let mut key = Vec::from_slice(alloc, alias_keyword_of_kind(kind))?;
        key.extend_from_slice(name)?;
        if !self.names.insert(key)? {
            return Ok(Some(ReadFault::Duplicate { kind, name: owned }));
        }
        let Some(count) = self.counts.get_mut(number_of_kind(kind)) else {
            return Ok(None);
        };
        *count = count.saturating_add(1);
        if *count == ALIAS_LIMIT.saturating_add(1) {
            return Ok(Some(ReadFault::TooMany { kind }));
        }
        Ok(None)
    }

    /// Puts onto `places` the files to which the line at `place` leads by `lead`, the first on top. Adds the error of a missing file, of one
    /// that is on the walk already, and of one that is nested too deep.
    fn follow_lead(
        &mut self,
        alloc: Global,
        place: WalkPlace,
        lead: &Lead,
        places: &mut Vec<WalkPlace>,
    ) -> Result<(), AllocError> {
        let targets = self.list_targets(alloc, lead)?;
        if targets.is_empty() {
            return self.add_missing_include(alloc, place, lead);
        }
        if let Some(file) = self.find_target_on_walk(targets.as_slice()) {
            return self.add_repeated_include(alloc, place.file, place.row, file);
        }
        if place.depth >= INCLUDE_DEPTH_LIMIT {
            return self.add_fault(alloc, place.file, ReadFault::TooDeep { line: place.row });
        }
        for number in 0..targets.len() {
            if let Some(file) = targets.get(
                targets.len().saturating_sub(number).saturating_sub(1),
            ) {
                places.push(WalkPlace {
                    file: *file,
                    line: 0,
                    row: 1,
                    depth: place.depth.saturating_add(1),
                    included_at: Some((place.file, place.row)),
                })?;
            }
        }
        Ok(())
    }

    /// Adds the error of the line at `place`, which leads by `lead` to no file: a folder may have none.
    fn add_missing_include(
        &mut self,
        alloc: Global,
        place: WalkPlace,
        lead: &Lead,
    ) -> Result<(), AllocError> {
        let Lead::File(name) = lead else {
            return Ok(());
        };
        let fault = ReadFault::NotLoaded {
            line: place.row,
            name: Items::from_slice(alloc, name.as_slice())?,
        };
        self.add_fault(alloc, place.file, fault)
    }

    /// Returns the first of the files with the numbers `targets` that is on the walk.
    fn find_target_on_walk(&self, targets: &[usize]) -> Option<usize> {
        for file in targets {
            if self.on_walk.contains(file) {
                return Some(*file);
            }
        }
        None
    }

    /// Returns the numbers of the files to which `lead` leads, those of a folder in the order of their names.
    fn list_targets(&self, alloc: Global, lead: &Lead) -> Result<Vec<usize>, AllocError> {
        let mut targets: Vec<usize> = Vec::new(alloc);
        for (number, file) in self.files.iter().enumerate() {
            let name = file.name.as_slice();
            let is_target = match lead {
                Lead::File(wanted) => wanted.as_slice() == name,
                Lead::Dir(dir) => is_in_folder(dir.as_slice(), name),
            };
            if is_target {
                let at = targets
                    .iter()
                    .take_while(|other| self.name_of(**other) < name)
                    .count();
                targets.insert(at.min(targets.len()), number)?;
            }
        }
        Ok(targets)
    }

    /// Returns the name of the file with the number `file`.
    fn name_of(&self, file: usize) -> &'a [u8] {
        match self.files.get(file) {
            Some(found) => found.name.as_slice(),
            None => b"",
        }
    }

    /// Adds the error of the line of the row `row` of the file with the number `file`: it includes the file `again`, which is on the walk.
    fn add_repeated_include(
        &mut self,
        alloc: Global,
        file: usize,
        row: usize,
        again: usize,
    ) -> Result<(), AllocError> {
        let name = Items::from_slice(alloc, self.name_of(again))?;
        self.add_fault(alloc, file, ReadFault::Twice { line: row, name })
    }
}
