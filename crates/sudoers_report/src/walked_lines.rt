//! The lines of files in the order of their policy, also where some have errors.

use crate::cut_files::{CutFile, FileLine};
use std::alloc::{AllocError, Global};
use sudoers_tree::{Lead, base_name_of_path, folder_of, is_included_base_name, leads};

/// How many levels deep files may include one another.
const INCLUDE_DEPTH_LIMIT: usize = 128;

/// A place on the walk over files: the line with the number `line`, from 0, of the file with the number `file`. `depth` is how many include
/// lines lead to the file, and `included_at` the last of them, if the file was not begun.
#[derive(Clone, Copy)]
struct WalkPlace<'a> {
    file: usize,
    line: usize,
    depth: usize,
    included_at: Option<FileLine<'a>>,
}

/// The walk over the files of a policy: its lines in their order, and for each file the include line by which it came onto the walk, and
/// whether it is there. Include lines that are errors lead nowhere.
#[derive(Drop)]
pub struct WalkedLines<'a> {
    pub lines: Vec<FileLine<'a>>,
    pub is_on_walk: Vec<bool>,
    pub included_at: Vec<Option<FileLine<'a>>>,
}

/// Returns whether an include of the folder `dir` reads the file `name`.
fn is_in_folder(dir: &[u8], name: &[u8]) -> bool {
    match folder_of(name).strip_suffix(b"/") {
        Some(folder) => folder == dir && is_included_base_name(base_name_of_path(name)),
        None => false,
    }
}

/// Returns how many steps the walk over `files` takes at most.
fn count_steps(files: &[CutFile<'_>]) -> usize {
    let mut steps: usize = files.len().saturating_mul(files.len()).saturating_add(1);
    for file in files {
        steps = steps.saturating_add(file.lines.len()).saturating_add(2);
    }
    steps
}

/// Returns the name of the file with the number `file` of `files`.
fn name_of_file<'a>(files: &[CutFile<'a>], file: usize) -> &'a [u8] {
    match files.get(file) {
        Some(found) => found.file.name.as_slice(),
        None => b"",
    }
}

/// Returns the numbers of those of the files `files` to which `lead` leads, those of a folder in the order of their names.
fn list_targets(
    alloc: Global,
    files: &[CutFile<'_>],
    lead: &Lead,
) -> Result<Vec<usize>, AllocError> {
    let mut targets: Vec<usize> = Vec::new(alloc);
    for (number, file) in files.iter().enumerate() {
        let name = file.file.name.as_slice();
        let is_target = match lead {
            Lead::File(wanted) => wanted.as_slice() == name,
            Lead::Dir(dir) => is_in_folder(dir.as_slice(), name),
        };
        if is_target {
            let at = targets
                .iter()
                .take_while(|other| name_of_file(files, **other) < name)
                .count();
            targets.insert(at.min(targets.len()), number)?;
        }
    }
    Ok(targets)
}

impl<'a> WalkedLines<'a> {
    /// Returns the walk over the files `files` from the first on.
    ///
    /// # Errors
    ///
    /// Memory ran out.
    pub fn new(alloc: Global, files: &[CutFile<'a>]) -> Result<WalkedLines<'a>, AllocError> {
        let mut walk = WalkedLines {
            lines: Vec::new(alloc),
            is_on_walk: Vec::with_capacity(alloc, files.len())?,
            included_at: Vec::with_capacity(alloc, files.len())?,
        };
        for number in 0..files.len() {
            walk.is_on_walk.push(number == 0)?;
            walk.included_at.push(None)?;
        }
        walk.walk_files(alloc, files)?;
        Ok(walk)
    }

    /// Walks over the files `files`.
    fn walk_files(&mut self, alloc: Global, files: &[CutFile<'a>]) -> Result<(), AllocError> {
        let mut places = Vec::new(alloc);
        places.push(WalkPlace {
            file: 0,
            line: 0,
            depth: 0,
            included_at: None,
        })?;
        for _ in 0..count_steps(files) {
            let Some(place) = places.pop() else {
                break;
            };
            if self.may_go_on(place) {
                self.walk_line(alloc, files, place, &mut places)?;
            }
        }
        Ok(())
    }

    /// Returns whether the line at `place` is walked: its file is not one that came onto the walk before.
    fn may_go_on(&mut self, place: WalkPlace<'a>) -> bool {
        let Some(line) = place.included_at else {
            return true;
        };
        if self.is_file_on_walk(place.file) {
            return false;
        }
        if let Some(mark) = self.is_on_walk.get_mut(place.file) {
            *mark = true;
        }
        if let Some(included_at) = self.included_at.get_mut(place.file) {
            *included_at = Some(line);
        }
        true
    }

    /// Returns whether the file with the number `file` is on the walk.
    fn is_file_on_walk(&self, file: usize) -> bool {
        match self.is_on_walk.get(file) {
            Some(mark) => *mark,
            None => false,
        }
    }

    /// Walks over the line at `place`, and puts onto `places` the line after it, and before that the files to which the line leads.
    fn walk_line(
        &mut self,
        alloc: Global,
        files: &[CutFile<'a>],
        place: WalkPlace<'a>,
        places: &mut Vec<WalkPlace<'a>>,
    ) -> Result<(), AllocError> {
        let Some(file) = files.get(place.file) else {
            return Ok(());
        };
        let Some(line) = file.lines.get(place.line) else {
            return Ok(());
        };
        self.lines.push(*line)?;
        places.push(WalkPlace {
            line: place.line.saturating_add(1),
            included_at: None,
            ..place
        })?;
        match leads(alloc, file.file.name.as_slice(), line.text)? {
            Some(lead) if place.depth < INCLUDE_DEPTH_LIMIT => {
                let targets = list_targets(alloc, files, &lead)?;
                self.follow_targets(place, *line, targets.as_slice(), places)
            }
            _ => Ok(()),
        }
    }

    /// Puts onto `places` the files with the numbers `targets`, to which the line `line` at `place` leads, the first on top. A line that leads
    /// to a file on the walk leads nowhere.
    fn follow_targets(
        &self,
        place: WalkPlace<'a>,
        line: FileLine<'a>,
        targets: &[usize],
        places: &mut Vec<WalkPlace<'a>>,
    ) -> Result<(), AllocError> {
        if targets.iter().any(|file| self.is_file_on_walk(*file)) {
            return Ok(());
        }
        for file in targets.iter().rev() {
            places.push(WalkPlace {
                file: *file,
                line: 0,
                depth: place.depth.saturating_add(1),
                included_at: Some(line),
            })?;
        }
        Ok(())
    }

    /// Returns the include line by which the file `name` of the files `files` came onto the walk.
    pub fn find_first_include(&self, files: &[CutFile<'a>], name: &[u8]) -> Option<FileLine<'a>> {
        let number = files
            .iter()
            .position(|file| file.file.name.as_slice() == name)?;
        *self.included_at.get(number)?
    }
}
