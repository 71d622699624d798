//! Files with the walk over them, as a policy keeps them.

ghost use Rattle.std.specs.Prelude.{◌≡◌, ◌⊎◌, [], map, MatchResult, OnOk, OnErr, Ok, Err};
ghost use Rattle.std.specs.List.{All};
ghost use Rattle.sudoers_line_rows.specs.Tables.{TablesHaveGrown};
ghost use Rattle.sudoers_tree.specs.ChangedFiles.{AreApplicableChanges, files_after_changes};
ghost use Rattle.sudoers_tree.specs.declared.load_fault.LoadFault.TheVariants.{NoMemory};
ghost use Rattle.sudoers_tree.specs.internal.Index.{index_after_update};
ghost use Rattle.sudoers_tree.specs.Load.{named_files_of_policy, policy_or_load_fault, policy_of_parsed_files, parsed_files_or_cut_fault, walk_or_first_fault};
ghost use Rattle.sudoers_tree.specs.Mapped.{file_names};
ghost use Rattle.sudoers_tree.specs.Walk.{load_result_and_then};
ghost use Rattle.sudoers_tree.specs.internal.Files.{HaveSoundFileRows, HasSoundFileRows, parsed_files_of_view, parsed_file_of_rows};
ghost use Rattle.sudoers_tree.specs.internal.KeptLines.{IsNewAliasNameFree, HasAliasRenamed, IsSoundWalkBeforeChange, files_before_change};
ghost use Rattle.sudoers_tree.specs.internal.Loading.{AreSoundWalkedFiles, IsWalkAfterChange, IsChangedWalkOutcome, policy_of_walked_files};

use crate::alias_index::AliasNameIndex;
use crate::files::{FilesInTables, ParsedFileRows};
use crate::files_with_changes::read_files_with_changes;
use crate::in_place_update::{
    InPlaceWalkUpdate, NewAliasName, WalkBeforeChange, find_in_place_walk_update,
};
use crate::line::LineRow;
use crate::line_change::LineChange;
use crate::load_fault::LoadFault;
use crate::off_walk::check_unreached_files;
use crate::place::WalkLineSpot;
use crate::walking::{WalkBuilder, walk_from_first_file};
use std::alloc::{AllocError, Global};
use sudoers_line_rows::Tables;

/// Twice as many bytes of unused texts are little, however few the files have.
const FEW_TABLE_BYTES: usize = 131_072;

/// Files with the walk over them: the rows of its lines, the spot of each, the numbers of its files in their order, and the names that its
/// lines define. The lines say something in the tables, which had `begun` bytes when the files were loaded.
#[derive(Drop)]
pub struct WalkedFiles {
    pub tables: Tables,
    pub files: Vec<ParsedFileRows>,
    pub lines: Vec<LineRow>,
    pub spots: Vec<WalkLineSpot>,
    pub on: Vec<usize>,
    pub index: AliasNameIndex,
    pub begun: usize,
}

/// The walk over files after a change of their lines: what is new of it if it stays, or else the walk anew.
#[derive(Drop)]
enum WalkAfterChange {
    Kept(InPlaceWalkUpdate),
    Anew(WalkBuilder),
}

/// Files that are read, and the walk over them after a change of their lines.
#[derive(Drop)]
struct FilesAndWalkAfterChange {
    files: Vec<ParsedFileRows>,
    walk: WalkAfterChange,
}

/// Returns the files `files` with the walk over them. Their lines say something in `tables`.
///
/// # Errors
///
/// The first fault of the walk, or else the first of the files that are not on it. `NoMemory`: memory ran out.
pub fn walk_files(
    alloc: Global,
    tables: Tables,
    files: Vec<ParsedFileRows>,
) -> Result<WalkedFiles, LoadFault>
    requires { All (HasSoundFileRows tables) files.items }
    ensures { MatchResult result
        (λ walked. (policy_of_parsed_files (map (parsed_file_of_rows tables) files.items) ≡ Ok (policy_of_walked_files walked)) × AreSoundWalkedFiles walked)
        (λ fault. (fault ≡ NoMemory) ⊎ (policy_of_parsed_files (map (parsed_file_of_rows tables) files.items) ≡ Err fault)) }
{
    let mut index = AliasNameIndex::new(alloc);
    let read = FilesInTables {
        tables: &tables,
        files: files.as_slice(),
    };
    let WalkBuilder {
        lines,
        spots,
        on,
        names,
    } = walk_from_first_file(alloc, &read, &index)?;
    index.apply_index_update(names);
    let begun = tables.bytes.len();
    Ok(WalkedFiles {
        tables,
        files,
        lines,
        spots,
        on,
        index,
        begun,
    })
}

impl WalkedFiles {
    /// Returns whether the tables have more than twice the bytes that they had when the files were loaded, and more than 256 KiB. Then many
    /// may be unused.
    pub fn has_doubled_tables(&self) -> bool {
        self.tables.bytes.len() / 2 > self.begun.max(FEW_TABLE_BYTES)
    }

    /// Makes the changes `changes` of the lines of the files at once.
    ///
    /// # Errors
    ///
    /// The fault of the first file whose text then cannot be cut into lines; else the first fault of the walk; else the first of the
    /// files that are not on it. `NoMemory`: memory ran out. The files then are as they were.
    pub fn change_lines(&mut self, alloc: Global, changes: &[LineChange]) -> Result<(), LoadFault>
        requires walked { AreSoundWalkedFiles self.old }
        requires loaded { policy_or_load_fault (named_files_of_policy (policy_of_walked_files self.old)) ≡ Ok (policy_of_walked_files self.old) }
        requires changes { AreApplicableChanges changes.now (policy_of_walked_files self.old).files }
        ensures walked { AreSoundWalkedFiles self.new }
        ensures outcome { MatchResult result
            (λ _. load_result_and_then (parsed_files_or_cut_fault [] (files_after_changes changes.now (policy_of_walked_files self.old).files)) policy_of_parsed_files ≡ Ok (policy_of_walked_files self.new))
            (λ fault. (fault ≡ NoMemory) ⊎ (load_result_and_then (parsed_files_or_cut_fault [] (files_after_changes changes.now (policy_of_walked_files self.old).files)) policy_of_parsed_files ≡ Err fault)) }
        ensures unchanged { OnErr result (policy_of_walked_files self.new ≡ policy_of_walked_files self.old) }
    {
        if let [change] = changes {
            if self.change_line_in_place(alloc, change)? {
                return Ok(());
            }
        }
        self.change_lines_anew(alloc, changes)
    }

    /// Makes the changes `changes` of the lines of the files at once. All files are made anew, and the walk too if it does not stay.
    ///
    /// # Errors
    ///
    /// Those of [`WalkedFiles::change_lines`]. The files then are as they were.
    fn change_lines_anew(&mut self, alloc: Global, changes: &[LineChange]) -> Result<(), LoadFault>
        requires walked { AreSoundWalkedFiles self.old }
        requires loaded { policy_or_load_fault (named_files_of_policy (policy_of_walked_files self.old)) ≡ Ok (policy_of_walked_files self.old) }
        requires changes { AreApplicableChanges changes.now (policy_of_walked_files self.old).files }
        ensures walked { AreSoundWalkedFiles self.new }
        ensures outcome { MatchResult result
            (λ _. load_result_and_then (parsed_files_or_cut_fault [] (files_after_changes changes.now (policy_of_walked_files self.old).files)) policy_of_parsed_files ≡ Ok (policy_of_walked_files self.new))
            (λ fault. (fault ≡ NoMemory) ⊎ (load_result_and_then (parsed_files_or_cut_fault [] (files_after_changes changes.now (policy_of_walked_files self.old).files)) policy_of_parsed_files ≡ Err fault)) }
        ensures unchanged { OnErr result (policy_of_walked_files self.new ≡ policy_of_walked_files self.old) }
    {
        let counts = self.tables.row_counts();
        let before = WalkBeforeChange {
            files: self.files.as_slice(),
            lines: self.lines.as_slice(),
            spots: self.spots.as_slice(),
            on: self.on.as_slice(),
            index: &self.index,
        };
        match read_and_walk_changed_files(alloc, &mut self.tables, &before, changes) {
            Ok(anew) => match self.replace_files_and_walk(anew) {
                Ok(()) => Ok(()),
                Err(_) => {
                    self.tables.cut_back_to_counts(counts);
                    Err(LoadFault::NoMemory)
                }
            },
            Err(fault) => {
                self.tables.cut_back_to_counts(counts);
                Err(fault)
            }
        }
    }

    /// Puts the files `anew`, which are read in the same tables, and the walk over them in the place of these.
    ///
    /// # Errors
    ///
    /// Memory ran out. The files then are as they were.
    fn replace_files_and_walk(&mut self, anew: FilesAndWalkAfterChange) -> Result<(), AllocError>
        requires files { All (HasSoundFileRows self.old.tables) anew.files.items }
        requires walk { IsWalkAfterChange self.old.tables self.old.spots.items self.old.on.items self.old.index
            (map (parsed_file_of_rows self.old.tables) anew.files.items) anew.walk }
        ensures walked { OnOk result (AreSoundWalkedFiles self.new) }
        ensures loaded { OnOk result (policy_of_parsed_files (map (parsed_file_of_rows self.old.tables) anew.files.items) ≡ Ok (policy_of_walked_files self.new)) }
        ensures unchanged { OnErr result (self.new ≡ self.old) }
    {
        let FilesAndWalkAfterChange { files, walk } = anew;
        match walk {
            WalkAfterChange::Anew(walking) => self.replace_walk(walking),
            WalkAfterChange::Kept(kept) => self.apply_in_place_update(kept)?,
        }
        self.files = files;
        Ok(())
    }

    /// Puts the walk `walking` in the place of this one.
    fn replace_walk(&mut self, walking: WalkBuilder)
        ensures { self.new ≡ record {
          tables = self.old.tables;
          files = self.old.files;
          lines = walking.lines;
          spots = walking.spots;
          on = walking.on;
          index = index_after_update self.old.index walking.names;
          begun = self.old.begun;
        } }
    {
        let WalkBuilder {
            lines,
            spots,
            on,
            names,
        } = walking;
        self.lines = lines;
        self.spots = spots;
        self.on = on;
        self.index.apply_index_update(names);
    }

    /// Puts the lines of `kept`, and the name that it has, in the place of those of this walk.
    ///
    /// # Errors
    ///
    /// Memory ran out. The walk then is as it was.
    fn apply_in_place_update(&mut self, kept: InPlaceWalkUpdate) -> Result<(), AllocError>
        requires { IsNewAliasNameFree self.old.index kept.fresh }
        ensures tables { self.new.tables ≡ self.old.tables }
        ensures files { self.new.files ≡ self.old.files }
        ensures lines { OnOk result (self.new.lines ≡ kept.lines) }
        ensures spots { self.new.spots ≡ self.old.spots }
        ensures on { self.new.on ≡ self.old.on }
        ensures index { OnOk result (HasAliasRenamed self.old.index kept.fresh self.new.index) }
        ensures unchanged { OnErr result (self.new ≡ self.old) }
    {
        let InPlaceWalkUpdate { lines, fresh } = kept;
        if let Some(NewAliasName { kind, number, name }) = fresh {
            self.index.rename_alias_at(kind, number, name)?;
        }
        self.lines = lines;
        Ok(())
    }
}

/// Reads the files of `before` after the changes `changes` of their lines, and returns them with the walk over them. The new lines are read
/// into `tables`.
fn read_and_walk_changed_files(
    alloc: Global,
    tables: &mut Tables,
    before: &WalkBeforeChange<'_>,
    changes: &[LineChange],
) -> Result<FilesAndWalkAfterChange, LoadFault>
    requires files { All (HasSoundFileRows tables.old) before.now.files.now }
    requires before { IsSoundWalkBeforeChange tables.old before.now }
    requires changes { AreApplicableChanges changes.now (files_before_change tables.old before.now) }
    ensures grown { TablesHaveGrown tables.old tables.new }
    ensures walks { IsChangedWalkOutcome result tables.new before.now (parsed_files_or_cut_fault [] (files_after_changes changes.now (files_before_change tables.old before.now))) }
{
    let files = read_files_with_changes(alloc, tables, before.files, changes)?;
    let read = FilesInTables {
        tables: &*tables,
        files: files.as_slice(),
    };
    let walk = find_walk_after_change(alloc, before, &read)?;
    Ok(FilesAndWalkAfterChange { files, walk })
}

/// Returns the walk over the files `files`, which have the names of those of `before`.
///
/// # Errors
///
/// The first fault of the walk, or else the first of the files that are not on it. `NoMemory`: memory ran out.
fn find_walk_after_change(
    alloc: Global,
    before: &WalkBeforeChange<'_>,
    files: &FilesInTables<'_>,
) -> Result<WalkAfterChange, LoadFault>
    requires before { IsSoundWalkBeforeChange files.now.tables.now before.now }
    requires files { HaveSoundFileRows files.now }
    requires names { file_names (parsed_files_of_view files.now) ≡ file_names (files_before_change files.now.tables.now before.now) }
    ensures { MatchResult result
        (IsWalkAfterChange files.now.tables.now before.now.spots.now before.now.on.now before.now.index.now (parsed_files_of_view files.now))
        (λ fault. (fault ≡ NoMemory) ⊎ (walk_or_first_fault (parsed_files_of_view files.now) ≡ Err fault)) }
{
    if let Some(kept) = find_in_place_walk_update(alloc, before, files)? {
        check_unreached_files(alloc, files, before.on)?;
        return Ok(WalkAfterChange::Kept(kept));
    }
    Ok(WalkAfterChange::Anew(walk_from_first_file(alloc, files, before.index)?))
}
