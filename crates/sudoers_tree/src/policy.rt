//! Policies of several files.

ghost use Rattle.std.specs.Prelude.{◌≡◌, ◌⊎◌, ◌≤◌, ◌∷◌, [], ℕ, List, Some, false, length, option_map, slice_get, IfOk, OnOk, OnErr, MatchResult, Ok, Err};
ghost use Rattle.std.specs.List.{All};
ghost use Rattle.std.specs.Option.{option_copied};
ghost use Rattle.sudoers_text.specs.Fault.{text_limit};
ghost use Rattle.sudoers_text.specs.Line.{join};
ghost use Rattle.sudoers_tree.specs.declared.load_fault.LoadFault.TheVariants.{NoMemory};
ghost use Rattle.sudoers_line_rows.specs.View.{node_of_view};
ghost use Rattle.sudoers_tree.specs.declared.line_change.LineChange.TheVariants.{Put, Swap, Take};
ghost use Rattle.sudoers_tree.specs.ChangedFiles.{AreApplicableChanges, files_after_changes};
ghost use Rattle.sudoers_tree.specs.Files.{lines_of_numbered_file, name_of_numbered_file};
ghost use Rattle.sudoers_tree.specs.Kind.{line_kind};
ghost use Rattle.sudoers_tree.specs.Line.{Line as LineOf, line_of_view, lines_of_rows};
ghost use Rattle.sudoers_tree.specs.Load.{IsLineAtBoundedSpot, named_files_of_policy, policy_or_load_fault, single_file_named_policy};
ghost use Rattle.sudoers_tree.specs.NameBits.{bits_of_name};
ghost use Rattle.sudoers_tree.specs.Policy.{texts_of_lines};
ghost use Rattle.sudoers_tree.specs.Standing.{IsAliasNameAbsent};
ghost use Rattle.sudoers_tree.specs.internal.Files.{HaveSoundFileRows, parsed_files_of_view};
ghost use Rattle.sudoers_tree.specs.internal.Tree.{IsLastingLineRow};

use crate::files::FilesInTables;
use crate::files_and_walk::{WalkedFiles, walk_files};
use crate::line::{Line, LineRow};
use crate::line_change::LineChange;
use crate::line_kind::LineKind;
use crate::line_texts::append_texts_of_rows;
use crate::load_fault::LoadFault;
use crate::name_bits::NameFilterBits;
use crate::named_files::{
    FILE_LIMIT, NamedFile, find_repeated_file_name, read_files_into_tables_until_fault,
};
use crate::place::WalkLineSpot;
use crate::walk::Walk;
use std::alloc::{AllocError, Global};
use std::boxed::Box;
use std::marker::Model;
use sudoers_grammar::Items;
use sudoers_line_rows::{Node, RowsOfTable, Tables};

/// A policy of several files, and the walk over them: the lines of the first, each include line followed by the walk of the files to
/// which it leads. Contracts see each file as it is read, the lines of the walk with what they say, where each stands, and the
/// numbers of the files on the walk.
#[derive(Drop)]
pub struct Policy {
    walked: Box<WalkedFiles>,
    alloc: Global,
}

impl Model for Policy {
    ghost use Rattle.std.specs.Prelude.{◌≡◌, Ok};
    ghost use Rattle.sudoers_tree.specs.Load.{LoadedPolicy, named_files_of_policy, policy_or_load_fault};
    ghost use Rattle.sudoers_tree.specs.internal.Loading.{AreSoundWalkedFiles, policy_of_walked_files};

    ghost Value = { LoadedPolicy };

    ghost view = { λ policy. policy_of_walked_files policy.walked.value };

    ghost invariant = { λ policy. AreSoundWalkedFiles policy.walked.value × (policy_or_load_fault (named_files_of_policy (policy_of_walked_files policy.walked.value)) ≡ Ok (policy_of_walked_files policy.walked.value)) };
}

impl Policy {
    /// Returns the policy of `files`, and the walk over them from the first on (sudoers(5), Including other files from within sudoers).
    /// Without files it has no line.
    ///
    /// # Errors
    ///
    /// The first fault: `TooManyFiles`, `SameName`, a file that cannot be cut into lines, then the first line of the walk with a
    /// fault, then the first fault of a file that is not on the walk. `NoMemory`: memory ran out.
    pub fn load(alloc: Global, files: &[NamedFile]) -> Result<Policy, LoadFault>
        ensures { MatchResult result (λ policy. policy_or_load_fault files.now ≡ Ok policy)
            (λ fault. (fault ≡ NoMemory) ⊎ (policy_or_load_fault files.now ≡ Err fault)) }
    {
        if files.len() > FILE_LIMIT {
            return Err(LoadFault::TooManyFiles);
        }
        if let Some(file) = find_repeated_file_name(alloc, files)? {
            return Err(LoadFault::SameName { file });
        }
        let mut tables = Tables::new(alloc);
        let files = read_files_into_tables_until_fault(alloc, &mut tables, files)?;
        let walked = walk_files(alloc, tables, files)?;
        Ok(Policy {
            walked: Box::new(alloc, walked)?,
            alloc,
        })
    }

    /// Returns the policy of one file, whose name is `policy` and whose text is `text`.
    ///
    /// # Errors
    ///
    /// Those of [`Policy::load`]. A file that a line includes is not there.
    pub fn read(alloc: Global, text: &[u8]) -> Result<Policy, LoadFault>
        ensures { MatchResult result (λ policy. policy_or_load_fault (single_file_named_policy text.now) ≡ Ok policy)
            (λ fault. (fault ≡ NoMemory) ⊎ (policy_or_load_fault (single_file_named_policy text.now) ≡ Err fault)) }
    {
        let mut files = Vec::with_capacity(alloc, 1)?;
        files.push(NamedFile {
            name: Items::from_slice(alloc, b"policy")?,
            bytes: Items::from_slice(alloc, text)?,
        })?;
        Policy::load(alloc, files.as_slice())
    }

    /// A law: the policy is that of its files, which have their names and bytes.
    pub fn is_loaded(&self)
        ensures { policy_or_load_fault (named_files_of_policy self.now) ≡ Ok self.now }
    {
        let _ = &self.walked;
    }

    /// Returns the files as they are read.
    fn parsed_files(&self) -> FilesInTables<'_>
        ensures shown { parsed_files_of_view result ≡ self.now.files }
        ensures are { HaveSoundFileRows result }
    {
        FilesInTables {
            tables: &self.walked.tables,
            files: self.walked.files.as_slice(),
        }
    }

    /// Returns the allocator of the lines.
    pub fn allocator(&self) -> Global {
        self.alloc
    }

    /// Returns the lines of the walk with what they say.
    pub fn lines(&self) -> RowsOfTable<'_, LineRow>
        ensures { lines_of_rows result ≡ self.now.walk.lines }
    {
        self.rows_of_walk()
    }

    /// Returns the rows of the lines of the walk, which have their bits.
    fn rows_of_walk(&self) -> RowsOfTable<'_, LineRow>
        ensures shown { lines_of_rows result ≡ self.now.walk.lines }
        ensures stand { All (IsLastingLineRow result.tables.now) result.rows.now }
    {
        RowsOfTable {
            tables: &self.walked.tables,
            rows: self.walked.lines.as_slice(),
        }
    }

    /// Returns the lines of the walk, with the names that they define.
    pub fn walk(&self) -> Walk<'_>
        ensures { result ≡ self.now.walk.lines }
    {
        Walk::from_rows_and_index(self.rows_of_walk(), &self.walked.index)
    }

    /// Returns where each line of the walk stands.
    pub fn spots_of_walk_lines(&self) -> &[WalkLineSpot]
        ensures { result.now ≡ self.now.walk.spots }
    {
        self.walked.spots.as_slice()
    }

    /// A law: the lines of each file are within the limit of a text.
    pub fn files_fit(&self)
        ensures { (file : ℕ) → length (join (texts_of_lines (lines_of_numbered_file self.now.files file))) ≤ text_limit }
    {
        let _ = &self.walked;
    }

    /// A law: each line of the walk stands at its spot. Its row and the length of its text together are at most twice the limit of a text,
    /// plus one.
    pub fn lines_stand(&self)
        ensures count { length self.now.walk.spots ≡ length self.now.walk.lines }
        ensures stand { (number : ℕ) (line : LineOf) → slice_get self.now.walk.lines number ≡ Some line → IsLineAtBoundedSpot self.now number line }
    {
        let _ = &self.walked;
    }

    /// Returns the numbers of the files on the walk, in the order in which they came onto it.
    pub fn numbers_of_files_on_walk(&self) -> &[usize]
        ensures { result.now ≡ self.now.walk.on }
    {
        self.walked.on.as_slice()
    }

    /// Returns how many files there are.
    pub fn files(&self) -> usize
        ensures { result ≡ length self.now.files }
    {
        self.parsed_files().len()
    }

    /// Returns the name of the file with the number `file`, from 0; no bytes if there is none.
    pub fn file_name(&self, file: usize) -> &[u8]
        ensures { result.now ≡ name_of_numbered_file self.now.files file }
    {
        self.parsed_files().file_name_at(file)
    }

    /// Returns the lines of the file with the number `file`, from 0, with what they say; no lines if there is no such file.
    pub fn lines_of_file(&self, file: usize) -> RowsOfTable<'_, LineRow>
        ensures { lines_of_rows result ≡ lines_of_numbered_file self.now.files file }
    {
        self.parsed_files().parsed_lines_of_file(file)
    }

    /// Returns the text of the file with the number `file`, from 0, byte for byte.
    ///
    /// # Errors
    ///
    /// Memory ran out.
    pub fn text(&self, file: usize) -> Result<Vec<u8>, AllocError>
        ensures { IfOk result (λ text. text.items ≡ join (texts_of_lines (lines_of_numbered_file self.now.files file))) }
    {
        let mut text = Vec::new(self.alloc);
        let lines = self.lines_of_file(file);
        append_texts_of_rows(lines.tables, lines.rows, &mut text)?;
        Ok(text)
    }

    /// Makes the changes `changes` of the lines at once. It reads the new lines alone. One plain line changes in its place. Else the walk
    /// stays if lines change in their places alone, or is made anew.
    ///
    /// # Errors
    ///
    /// Those of loading the changed files; the policy is then as it was.
    pub fn changed(&mut self, changes: &[LineChange]) -> Result<(), LoadFault>
        requires { AreApplicableChanges changes.now self.old.files }
        // The result is the policy of the changed files, or their first fault, unless memory ran out.
        ensures outcome { MatchResult result (λ _. policy_or_load_fault (files_after_changes changes.now self.old.files) ≡ Ok self.new)
            (λ fault. (fault ≡ NoMemory) ⊎ (policy_or_load_fault (files_after_changes changes.now self.old.files) ≡ Err fault)) }
        ensures files { OnOk result (named_files_of_policy self.new ≡ files_after_changes changes.now self.old.files) }
        ensures unchanged { OnErr result (self.new ≡ self.old) }
    {
        self.renew_overgrown_tables()?;
        self.walked.change_lines(self.alloc, changes)
    }

    /// Loads the files again if their tables may hold many texts that are gone.
    fn renew_overgrown_tables(&mut self) -> Result<(), AllocError>
        ensures { self.new ≡ self.old }
    {
        if self.walked.has_doubled_tables() {
            let files = self.copy_named_files()?;
            match Policy::load(self.alloc, files.as_slice()) {
                Ok(policy) => *self = policy,
                Err(_) => return Err(AllocError),
            }
        }
        Ok(())
    }

    /// Returns the files with their bytes.
    ///
    /// # Errors
    ///
    /// Memory ran out.
    pub fn copy_named_files(&self) -> Result<Vec<NamedFile>, AllocError>
        ensures { IfOk result (λ files. files.items ≡ named_files_of_policy self.now) }
    {
        let mut files = Vec::with_capacity(self.alloc, self.files())?;
        for file in 0..self.files() {
            files.push(self.copy_named_file(file)?)?;
        }
        Ok(files)
    }

    /// Returns the file with the number `file`, from 0, with its bytes.
    fn copy_named_file(&self, file: usize) -> Result<NamedFile, AllocError>
        ensures { IfOk result (λ named. named ≡ record { name = name_of_numbered_file self.now.files file; bytes = join (texts_of_lines (lines_of_numbered_file self.now.files file)) }) }
    {
        Ok(NamedFile {
            name: Items::from_slice(self.alloc, self.file_name(file))?,
            bytes: Items::from_vec(self.text(file)?),
        })
    }

    /// Puts the line `line` before the line with the number `at` of the file with the number `file`, both from 0, or after its last line.
    ///
    /// # Errors
    ///
    /// Those of [`Policy::changed`]; the policy is then as it was.
    pub fn with_line(&mut self, file: usize, at: usize, line: &[u8]) -> Result<(), LoadFault>
        requires { AreApplicableChanges (Put file at line.now ∷ []) self.old.files }
        ensures outcome { MatchResult result (λ _. policy_or_load_fault (files_after_changes (Put file at line.now ∷ []) self.old.files) ≡ Ok self.new)
            (λ fault. (fault ≡ NoMemory) ⊎ (policy_or_load_fault (files_after_changes (Put file at line.now ∷ []) self.old.files) ≡ Err fault)) }
        ensures unchanged { OnErr result (self.new ≡ self.old) }
    {
        let text = Items::from_slice(self.alloc, line)?;
        let changes = Items::list_of_one_item(self.alloc, LineChange::Put { file, at, text })?;
        self.changed(changes.as_slice())
    }

    /// Removes the line with the number `at` of the file with the number `file`, both from 0.
    ///
    /// # Errors
    ///
    /// Those of [`Policy::changed`]; the policy is then as it was.
    pub fn without_line(&mut self, file: usize, at: usize) -> Result<(), LoadFault>
        requires { AreApplicableChanges (Take file at ∷ []) self.old.files }
        ensures outcome { MatchResult result (λ _. policy_or_load_fault (files_after_changes (Take file at ∷ []) self.old.files) ≡ Ok self.new)
            (λ fault. (fault ≡ NoMemory) ⊎ (policy_or_load_fault (files_after_changes (Take file at ∷ []) self.old.files) ≡ Err fault)) }
        ensures unchanged { OnErr result (self.new ≡ self.old) }
    {
        let changes = Items::list_of_one_item(self.alloc, LineChange::Take { file, at })?;
        self.changed(changes.as_slice())
    }

    /// Replaces the line with the number `at` of the file with the number `file`, both from 0, by the line `line`.
    ///
    /// # Errors
    ///
    /// Those of [`Policy::changed`]; the policy is then as it was.
    pub fn replaced(&mut self, file: usize, at: usize, line: &[u8]) -> Result<(), LoadFault>
        requires { AreApplicableChanges (Swap file at line.now ∷ []) self.old.files }
        ensures outcome { MatchResult result (λ _. policy_or_load_fault (files_after_changes (Swap file at line.now ∷ []) self.old.files) ≡ Ok self.new)
            (λ fault. (fault ≡ NoMemory) ⊎ (policy_or_load_fault (files_after_changes (Swap file at line.now ∷ []) self.old.files) ≡ Err fault)) }
        ensures unchanged { OnErr result (self.new ≡ self.old) }
    {
        let text = Items::from_slice(self.alloc, line)?;
        let changes = Items::list_of_one_item(self.alloc, LineChange::Swap { file, at, text })?;
        self.changed(changes.as_slice())
    }

    /// Returns how many lines the file with the number `file`, from 0, has.
    pub fn len(&self, file: usize) -> usize
        ensures { result ≡ length (lines_of_numbered_file self.now.files file) }
    {
        self.parsed_files().line_count(file)
    }

    /// Returns the bytes of the line with the number `line` of the file with the number `file`, both from 0.
    pub fn line(&self, file: usize, line: usize) -> Option<&[u8]>
        ensures { option_copied result ≡ slice_get (texts_of_lines (lines_of_numbered_file self.now.files file)) line }
    {
        Some(self.parsed_line(file, line)?.text)
    }

    /// Returns the line with the number `line` of the file with the number `file`, both from 0: its bytes, and what they say.
    pub fn parsed_line(&self, file: usize, line: usize) -> Option<Line<'_>>
        ensures { option_map line_of_view result ≡ slice_get (lines_of_numbered_file self.now.files file) line }
    {
        self.parsed_files().parsed_line_at(file, line)
    }

    /// Returns the kind of the line with the number `line` of the file with the number `file`, both from 0.
    pub fn line_kind(&self, file: usize, line: usize) -> Option<LineKind>
        ensures { result ≡ option_map (λ (line : LineOf). line_kind line.node) (slice_get (lines_of_numbered_file self.now.files file) line) }
    {
        self.parsed_files().line_kind_at(file, line)
    }

    /// Returns whether an alias of a name with the bits `bits` may stand in the line with the number `line` of the file with the number
    /// `file`, both from 0. If it returns false, none stands there.
    pub fn may_have_alias_with_bits_in_line(
        &self,
        file: usize,
        line: usize,
        bits: NameFilterBits,
    ) -> bool
        ensures { (name : List ℕ) (says : LineOf) → bits.set ≡ bits_of_name name → result ≡ false
            → slice_get (lines_of_numbered_file self.now.files file) line ≡ Some says → IsAliasNameAbsent name says.node }
    {
        self.parsed_files()
            .may_have_alias_in_file_line(file, line, bits)
    }

    /// Returns what the line with the number `line` of the file with the number `file` says, both from 0.
    pub fn node(&self, file: usize, line: usize) -> Option<Node<'_>>
        ensures { option_map node_of_view result ≡ option_map (λ (line : LineOf). line.node) (slice_get (lines_of_numbered_file self.now.files file) line) }
    {
        Some(self.parsed_line(file, line)?.node)
    }
}
