//! Reading files of which lines are changed.

ghost use Rattle.std.specs.Prelude.{◌≡◌, ◌≤◌, ◌⊎◌, [], false, length, map, MatchResult, Ok, Err};
ghost use Rattle.std.specs.List.{All, AllByRecursion};
ghost use Rattle.sudoers_line_rows.specs.Tables.{TablesHaveGrown};
ghost use Rattle.sudoers_text.specs.Cut.{cut_outcome_of_text};
ghost use Rattle.sudoers_text.specs.Ended.{has_inner_line_without_lf};
ghost use Rattle.sudoers_text.specs.Line.{join};
ghost use Rattle.sudoers_text.specs.Whole.{IsLogicalLine};
ghost use Rattle.sudoers_tree.specs.Changed.{AreChangesInOrder, texts_of_changes, lines_after_changes};
ghost use Rattle.sudoers_tree.specs.ChangedFiles.{AreApplicableChanges, files_after_changes};
ghost use Rattle.sudoers_tree.specs.declared.load_fault.LoadFault.TheVariants.{NoMemory};
ghost use Rattle.sudoers_tree.specs.Line.{line_of_row};
ghost use Rattle.sudoers_tree.specs.Load.{parsed_file_of_cut_or_fault, parsed_files_or_cut_fault};
ghost use Rattle.sudoers_tree.specs.Policy.{texts_of_lines};
ghost use Rattle.sudoers_tree.specs.internal.Changing.{leading_change_count_of_file};
ghost use Rattle.sudoers_tree.specs.internal.Files.{HasSoundFileRows, IsFileReadOutcome, parsed_file_of_rows};

use crate::change_reading::read_file_of_pieces;
use crate::files::ParsedFileRows;
use crate::line_change::LineChange;
use crate::load_fault::LoadFault;
use crate::old_and_new_lines::pieces_of_changed_lines;
use std::alloc::Global;
use sudoers_grammar::Items;
use sudoers_line_rows::Tables;

/// Reads the files `files` after the changes `changes` of their lines. The new lines are read into `tables`.
///
/// # Errors
///
/// The fault of the first file whose text then cannot be cut into lines. `NoMemory`: memory ran out.
pub fn read_files_with_changes(
    alloc: Global,
    tables: &mut Tables,
    files: &[ParsedFileRows],
    changes: &[LineChange],
) -> Result<Vec<ParsedFileRows>, LoadFault>
    requires files { All (HasSoundFileRows tables.old) files.now }
    requires changes { AreApplicableChanges changes.now (map (parsed_file_of_rows tables.old) files.now) }
    ensures grown { TablesHaveGrown tables.old tables.new }
    ensures read { MatchResult result
        (λ new. (parsed_files_or_cut_fault [] (files_after_changes changes.now (map (parsed_file_of_rows tables.old) files.now)) ≡ Ok (map (parsed_file_of_rows tables.new) new.items))
        × All (HasSoundFileRows tables.new) new.items)
        (λ fault. (fault ≡ NoMemory) ⊎ (parsed_files_or_cut_fault [] (files_after_changes changes.now (map (parsed_file_of_rows tables.old) files.now)) ≡ Err fault)) }
{
    let mut new = Vec::with_capacity(alloc, files.len())?;
    let mut rest = changes;
    for (number, file) in files.iter().enumerate() {
        let (here, behind) = rest.split_at(count_leading_changes_of_file(rest, number));
        new.push(read_file_with_changes(alloc, tables, file, here)?)?;
        rest = behind;
    }
    Ok(new)
}

/// Returns how many of the first changes `changes` are of the file with the number `file`.
fn count_leading_changes_of_file(changes: &[LineChange], file: usize) -> usize
    ensures is { result ≡ leading_change_count_of_file file changes.now }
    ensures within { result ≤ length changes.now }
{
    let mut count: usize = 0;
    for change in changes {
        if change.file_number() != file {
            break;
        }
        count += 1;
    }
    count
}

/// Reads the file `file` after the changes `changes` of its lines. The new lines are read into `tables`.
///
/// # Errors
///
/// The fault of the cut of its text, or want of memory.
fn read_file_with_changes(
    alloc: Global,
    tables: &mut Tables,
    file: &ParsedFileRows,
    changes: &[LineChange],
) -> Result<ParsedFileRows, LoadFault>
    requires file { HasSoundFileRows tables.old file.now }
    requires order { AreChangesInOrder 0 changes.now (length file.now.rows.items) }
    requires lines { AllByRecursion IsLogicalLine (texts_of_changes changes.now) }
    requires ended { has_inner_line_without_lf (lines_after_changes changes.now (texts_of_lines (map (line_of_row tables.old) file.now.rows.items))) ≡ false }
    ensures grown { TablesHaveGrown tables.old tables.new }
    ensures read { IsFileReadOutcome result tables.new
        (parsed_file_of_cut_or_fault file.now.name (cut_outcome_of_text (join (lines_after_changes changes.now (texts_of_lines (map (line_of_row tables.old) file.now.rows.items)))))) }
{
    let name = Items::from_slice(alloc, file.name.as_slice())?;
    let pieces = pieces_of_changed_lines(alloc, file.rows.as_slice(), changes)?;
    read_file_of_pieces(alloc, tables, name, pieces.as_slice())
}
