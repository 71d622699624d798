//! The walk over files: the lines of the first, each include line followed by the walk of the files to which it leads.

ghost use Rattle.std.specs.Prelude.{◌≡◌, ◌⊎◌, slice_get, option_map, IfOk, OnOk, MatchResult, None, Some, Ok, Err};
ghost use Rattle.sudoers_tree.specs.Files.{fault_of_numbered_file, lines_of_numbered_file, name_of_numbered_file as the_name};
ghost use Rattle.sudoers_tree.specs.Fault.{syntax_fault_as_read_fault};
ghost use Rattle.sudoers_tree.specs.Line.{Line as LineOf};
ghost use Rattle.sudoers_tree.specs.Load.{walk_or_first_fault};
ghost use Rattle.sudoers_tree.specs.declared.fault.ReadFault.TheVariants.{NotLoaded, TooDeep};
ghost use Rattle.sudoers_tree.specs.declared.load_fault.LoadFault.TheVariants.{InFile, NoMemory};
ghost use Rattle.sudoers_tree.specs.Targets.{name_of_lead};
ghost use Rattle.sudoers_tree.specs.Walk.{walk_with_file_entered, first_file_on_walk, is_file_on_walk, lead_of_file_line, empty_walk, files_opened_by_lead, include_site_of_line, walk_with_line_appended, repeated_include_fault, value_unless_file_fault, walk_after_file_visit, walk_after_file_lines};
ghost use Rattle.sudoers_tree.specs.internal.Files.{HaveSoundFileRows, parsed_files_of_view};
ghost use Rattle.sudoers_tree.specs.internal.Walking.{IsWalkStepOutcome, IsSoundWalkBuilder, walk_after_included_files, walk_state_of_builder};

use crate::alias_index::{AliasIndexUpdate, AliasNameIndex};
use crate::fault::ReadFault;
use crate::files::FilesInTables;
use crate::include_leads::{Lead, lead_of_include_node};
use crate::include_targets::find_lead_targets;
use crate::line::LineRow;
use crate::line_kind::LineKind;
use crate::load_fault::LoadFault;
use crate::name_entering::enter_names_of_row;
use crate::off_walk::{check_unreached_files, is_file_number_among, make_load_fault_in_file};
use crate::place::WalkLineSpot;
use std::alloc::{AllocError, Global};
use sudoers_grammar::Items;

/// How deep files may be nested below the first.
const DEPTH_LIMIT: usize = 128;

/// A walk over files: the rows of its lines, the spot of each, the numbers of its files in their order, and the names that its lines
/// define, beside known ones.
#[derive(Drop)]
pub struct WalkBuilder {
    pub lines: Vec<LineRow>,
    pub spots: Vec<WalkLineSpot>,
    pub on: Vec<usize>,
    pub names: AliasIndexUpdate,
}

/// Returns the walk over the files `files` from the first on, and the names that its lines define, beside those of `known`.
///
/// # Errors
///
/// The first fault of the walk, or else the first of the files that are not on it. `NoMemory`: memory ran out.
pub fn walk_from_first_file(
    alloc: Global,
    files: &FilesInTables<'_>,
    known: &AliasNameIndex,
) -> Result<WalkBuilder, LoadFault>
    requires { HaveSoundFileRows files.now }
    ensures { MatchResult result
        (λ walking. (walk_or_first_fault (parsed_files_of_view files.now) ≡ Ok (walk_state_of_builder files.now.tables.now walking)) × IsSoundWalkBuilder files.now known.now walking)
        (λ fault. (fault ≡ NoMemory) ⊎ (walk_or_first_fault (parsed_files_of_view files.now) ≡ Err fault)) }
{
    let mut walking = WalkBuilder::new(alloc, files, known)?;
    walking.walk_lines_of_file(alloc, files, known, DEPTH_LIMIT, 0)?;
    check_unreached_files(alloc, files, walking.on.as_slice())?;
    Ok(walking)
}

/// Returns how many lines the files `files` have.
fn line_count_of_files(files: &FilesInTables<'_>) -> usize {
    let mut count: usize = 0;
    for file in files.files {
        count = count.saturating_add(file.rows.len());
    }
    count
}

/// Returns a copy of the name of the file with the number `file`.
fn copy_name_of_file(
    alloc: Global,
    files: &FilesInTables<'_>,
    file: usize,
) -> Result<Items<u8>, AllocError>
    ensures { IfOk result (λ name. name ≡ the_name (parsed_files_of_view files.now) file) }
{
    Items::from_slice(alloc, files.file_name_at(file))
}

/// Returns the fault of the line at `at`: it includes the file with the number `file`, which is on the walk already.
fn fault_of_repeated_include(
    alloc: Global,
    files: &FilesInTables<'_>,
    at: WalkLineSpot,
    file: usize,
) -> Result<LoadFault, AllocError>
    requires { HaveSoundFileRows files.now }
    ensures { IfOk result (λ fault. fault ≡ repeated_include_fault (parsed_files_of_view files.now) (include_site_of_line (parsed_files_of_view files.now) at.file at.line) file) }
{
    Ok(LoadFault::InFile {
        file: copy_name_of_file(alloc, files, at.file)?,
        fault: ReadFault::Twice {
            line: files.physical_line_of_line(at.file, at.line),
            name: copy_name_of_file(alloc, files, file)?,
        },
    })
}

/// Returns the fault of the line at `at`: it leads by `lead` to a file that is missing.
fn fault_of_missing_include(
    alloc: Global,
    files: &FilesInTables<'_>,
    at: WalkLineSpot,
    lead: Lead,
) -> Result<LoadFault, AllocError>
    requires { HaveSoundFileRows files.now }
    ensures { IfOk result (λ fault. fault
        ≡ InFile (the_name (parsed_files_of_view files.now) at.file) (NotLoaded (include_site_of_line (parsed_files_of_view files.now) at.file at.line).row (name_of_lead lead))) }
{
    let (Lead::File(name) | Lead::Dir(name)) = lead;
    Ok(LoadFault::InFile {
        file: copy_name_of_file(alloc, files, at.file)?,
        fault: ReadFault::NotLoaded {
            line: files.physical_line_of_line(at.file, at.line),
            name,
        },
    })
}

/// Returns the fault of the line at `at`: it includes a file that is nested too deep.
fn fault_of_deep_include(
    alloc: Global,
    files: &FilesInTables<'_>,
    at: WalkLineSpot,
) -> Result<LoadFault, AllocError>
    requires { HaveSoundFileRows files.now }
    ensures { IfOk result (λ fault. fault
        ≡ InFile (the_name (parsed_files_of_view files.now) at.file) (TooDeep (include_site_of_line (parsed_files_of_view files.now) at.file at.line).row)) }
{
    Ok(LoadFault::InFile {
        file: copy_name_of_file(alloc, files, at.file)?,
        fault: ReadFault::TooDeep {
            line: files.physical_line_of_line(at.file, at.line),
        },
    })
}

impl WalkBuilder {
    /// Returns an empty walk, with room for all lines of the files `files`.
    ///
    /// # Errors
    ///
    /// Memory ran out.
    fn new(
        alloc: Global,
        files: &FilesInTables<'_>,
        known: &AliasNameIndex,
    ) -> Result<WalkBuilder, AllocError>
        ensures { IfOk result (λ walking. IsSoundWalkBuilder files.now known.now walking × (walk_state_of_builder files.now.tables.now walking ≡ empty_walk)) }
    {
        let count = line_count_of_files(files);
        Ok(WalkBuilder {
            lines: Vec::with_capacity(alloc, count)?,
            spots: Vec::with_capacity(alloc, count)?,
            on: Vec::new(alloc),
            names: AliasIndexUpdate::new(alloc, known)?,
        })
    }

    /// Returns whether the file with the number `file` is on the walk.
    fn has_visited_file(&self, files: &FilesInTables<'_>, file: usize) -> bool
        ensures { result ≡ is_file_on_walk (walk_state_of_builder files.now.tables.now self.now) file }
    {
        is_file_number_among(self.on.as_slice(), file)
    }

    /// Returns the first of the files `inner` that is on the walk.
    fn find_visited_file(&self, files: &FilesInTables<'_>, inner: &[usize]) -> Option<usize>
        ensures { result ≡ first_file_on_walk (walk_state_of_builder files.now.tables.now self.now) inner.now }
    {
        for file in inner {
            if self.has_visited_file(files, *file) {
                return Some(*file);
            }
        }
        None
    }

    /// Appends the line at `at` to the walk, and enters the names that it defines.
    fn append_walk_line_at(
        &mut self,
        alloc: Global,
        files: &FilesInTables<'_>,
        known: &AliasNameIndex,
        at: WalkLineSpot,
    ) -> Result<(), LoadFault>
        requires files { HaveSoundFileRows files.now }
        requires walking { IsSoundWalkBuilder files.now known.now self.old }
        ensures kept { OnOk result (IsSoundWalkBuilder files.now known.now self.new) }
        ensures comes { (line : LineOf) → slice_get (lines_of_numbered_file (parsed_files_of_view files.now) at.file) at.line ≡ Some line
            → IsWalkStepOutcome result files.now known.now self.new (walk_with_line_appended (the_name (parsed_files_of_view files.now) at.file) at line (walk_state_of_builder files.now.tables.now self.old)) }
    {
        let Some(row) = files.line_row_at(at.file, at.line) else {
            return Ok(());
        };
        let number = self.lines.as_slice().len();
        match enter_names_of_row(alloc, known, files.tables, number, row, &mut self.names) {
            Ok(()) => {}
            Err(ReadFault::NoMemory) => return Err(LoadFault::NoMemory),
            Err(fault) => return Err(make_load_fault_in_file(alloc, files, at.file, fault)),
        }
        self.lines.push(*row)?;
        self.spots.push(at)?;
        Ok(())
    }

    /// Returns the files to which the line at `at` leads. A file that is missing or on the walk already is a fault.
    fn find_files_included_at(
        &self,
        alloc: Global,
        files: &FilesInTables<'_>,
        at: WalkLineSpot,
    ) -> Result<Vec<usize>, LoadFault>
        requires { HaveSoundFileRows files.now }
        ensures { (line : LineOf) → slice_get (lines_of_numbered_file (parsed_files_of_view files.now) at.file) at.line ≡ Some line
            → MatchResult result
            (λ inner. files_opened_by_lead (parsed_files_of_view files.now) (include_site_of_line (parsed_files_of_view files.now) at.file at.line) (walk_state_of_builder files.now.tables.now self.now)
            (lead_of_file_line (parsed_files_of_view files.now) at.file line) ≡ Ok inner.items)
            (λ fault. (fault ≡ NoMemory) ⊎ (files_opened_by_lead (parsed_files_of_view files.now) (include_site_of_line (parsed_files_of_view files.now) at.file at.line) (walk_state_of_builder files.now.tables.now self.now)
            (lead_of_file_line (parsed_files_of_view files.now) at.file line) ≡ Err fault)) }
    {
        let Some(line) = files.parsed_line_at(at.file, at.line) else {
            return Ok(Vec::new(alloc));
        };
        let Some(lead) = lead_of_include_node(alloc, files.file_name_at(at.file), &line.node)?
        else {
            return Ok(Vec::new(alloc));
        };
        let Some(inner) = find_lead_targets(alloc, files, &lead)? else {
            return Err(fault_of_missing_include(alloc, files, at, lead)?);
        };
        if let Some(file) = self.find_visited_file(files, inner.as_slice()) {
            return Err(fault_of_repeated_include(alloc, files, at, file)?);
        }
        Ok(inner)
    }

    /// Returns `Ok` if each line of the file with the number `file` parses, and else the fault of the first line that does not.
    fn check_parse_of_file(
        &self,
        alloc: Global,
        files: &FilesInTables<'_>,
        file: usize,
    ) -> Result<(), LoadFault>
        ensures { MatchResult result
            (λ _. fault_of_numbered_file (parsed_files_of_view files.now) file ≡ None)
            (λ fault. (fault ≡ NoMemory)
            ⊎ (value_unless_file_fault (the_name (parsed_files_of_view files.now) file) (walk_state_of_builder files.now.tables.now self.now)
            (option_map syntax_fault_as_read_fault (fault_of_numbered_file (parsed_files_of_view files.now) file)) ≡ Err fault)) }
    {
        match files.syntax_fault_of_file(file) {
            Some(fault) => Err(make_load_fault_in_file(alloc, files, file, fault.into())),
            None => Ok(()),
        }
    }

    #[cycle(walk)]
    /// Appends the lines of the file `file` to the walk, each include line followed by the lines of the files to which it leads. Below the
    /// file `file` files may be nested `left` levels deep.
    fn walk_lines_of_file(
        &mut self,
        alloc: Global,
        files: &FilesInTables<'_>,
        known: &AliasNameIndex,
        left: usize,
        file: usize,
    ) -> Result<(), LoadFault>
        requires files { HaveSoundFileRows files.now }
        requires walking { IsSoundWalkBuilder files.now known.now self.old }
        ensures { IsWalkStepOutcome result files.now known.now self.new
            (walk_after_file_lines (walk_after_file_visit left (parsed_files_of_view files.now)) (parsed_files_of_view files.now) file 0 (lines_of_numbered_file (parsed_files_of_view files.now) file)
            (walk_with_file_entered file (walk_state_of_builder files.now.tables.now self.old))) }
    {
        self.on.push(file)?;
        let mut row = 1;
        for line in 0..files.line_count(file) {
            let at = WalkLineSpot { file, line, row };
            self.append_walk_line_at(alloc, files, known, at)?;
            self.follow_include_at(alloc, files, known, left, at)?;
            row = files.physical_line_of_next_file_line(file, line, row);
        }
        self.check_parse_of_file(alloc, files, file)
    }

    #[cycle(walk)]
    /// Appends to the walk the lines of the files to which the line at `at` leads. Below the file of that line, files may be nested `left`
    /// levels deep.
    fn follow_include_at(
        &mut self,
        alloc: Global,
        files: &FilesInTables<'_>,
        known: &AliasNameIndex,
        left: usize,
        at: WalkLineSpot,
    ) -> Result<(), LoadFault>
        requires files { HaveSoundFileRows files.now }
        requires walking { IsSoundWalkBuilder files.now known.now self.old }
        ensures { (line : LineOf) → slice_get (lines_of_numbered_file (parsed_files_of_view files.now) at.file) at.line ≡ Some line
            → IsWalkStepOutcome result files.now known.now self.new
            (walk_after_included_files (walk_after_file_visit left (parsed_files_of_view files.now)) (parsed_files_of_view files.now) at.file at.line line (walk_state_of_builder files.now.tables.now self.old)) }
    {
        if files.line_kind_at(at.file, at.line) != Some(LineKind::Include) {
            return Ok(());
        }
        let inner = self.find_files_included_at(alloc, files, at)?;
        for file in inner.as_slice() {
            if self.has_visited_file(files, *file) {
                return Err(fault_of_repeated_include(alloc, files, at, *file)?);
            }
            self.visit_included_file(alloc, files, known, left, at, *file)?;
        }
        Ok(())
    }

    #[tactic(auto, using(crate::proofs::Visits::visit_below_limit_is_walk_of_file_lines))]
    #[cycle(walk)]
    /// Appends to the walk the lines of the file `file`, to which the line at `at` leads. Below the file of that line, files may be nested
    /// `left` levels deep.
    fn visit_included_file(
        &mut self,
        alloc: Global,
        files: &FilesInTables<'_>,
        known: &AliasNameIndex,
        left: usize,
        at: WalkLineSpot,
        file: usize,
    ) -> Result<(), LoadFault>
        requires files { HaveSoundFileRows files.now }
        requires walking { IsSoundWalkBuilder files.now known.now self.old }
        ensures { IsWalkStepOutcome result files.now known.now self.new
            (walk_after_file_visit left (parsed_files_of_view files.now) (include_site_of_line (parsed_files_of_view files.now) at.file at.line) file (walk_state_of_builder files.now.tables.now self.old)) }
    {
        if left == 0 {
            return Err(fault_of_deep_include(alloc, files, at)?);
        }
        self.walk_lines_of_file(alloc, files, known, left - 1, file)
    }
}
