//! Policies of several files.

ghost use Rattle.std.specs.Prelude.{◌≡◌, ◌⊎◌, ◌∷◌, [], MatchResult, IfOk, OnOk, OnErr, Ok, Err};
ghost use Rattle.sudoers_text.specs.Line.{join};
ghost use Rattle.sudoers_tree.specs.declared.line_change.LineChange.TheVariants.{Put};
ghost use Rattle.sudoers_tree.specs.declared.load_fault.LoadFault.TheVariants.{NoMemory};
ghost use Rattle.sudoers_tree.specs.ChangedFiles.{AreApplicableChanges, files_after_changes};
ghost use Rattle.sudoers_tree.specs.Files.{lines_of_numbered_file};
ghost use Rattle.sudoers_tree.specs.Load.{named_files_of_policy, policy_or_load_fault, single_file_named_policy};
ghost use Rattle.sudoers_tree.specs.Policy.{texts_of_lines};

use std::alloc::{AllocError, Global};
use sudoers_text::cut;
use sudoers_tree::{Items, LineChange, LoadFault, NamedFile, Policy, WalkLineSpot, leads};

/// Whether the include lines of a file come behind its other lines. A wrong body says that they do.
const INCLUDED_LAST: bool = false;

/// Whether the files of a folder come in the order of the list. A wrong body says that they do.
const FOLDER_IN_LIST_ORDER: bool = false;

/// Returns the policy of `files`, from the first on.
///
/// # Errors
///
/// The first fault of the files, or memory ran out.
pub fn load_files(alloc: Global, files: &[NamedFile]) -> Result<Policy, LoadFault>
    ensures { MatchResult result (λ policy. policy_or_load_fault files.now ≡ Ok policy)
        (λ fault. (fault ≡ NoMemory) ⊎ (policy_or_load_fault files.now ≡ Err fault)) }
{
    if INCLUDED_LAST {
        let moved = files_included_last(alloc, files)?;
        return Policy::load(alloc, moved.as_slice());
    }
    if FOLDER_IN_LIST_ORDER {
        let moved = swap_names_of_last_files(alloc, files)?;
        return Policy::load(alloc, moved.as_slice());
    }
    Policy::load(alloc, files)
}

/// Returns the policy of the one file whose text is `text`.
///
/// # Errors
///
/// The first fault of the file, or memory ran out.
pub fn load_text(alloc: Global, text: &[u8]) -> Result<Policy, LoadFault>
    ensures { MatchResult result (λ policy. policy_or_load_fault (single_file_named_policy text.now) ≡ Ok policy)
        (λ fault. (fault ≡ NoMemory) ⊎ (policy_or_load_fault (single_file_named_policy text.now) ≡ Err fault)) }
{
    Policy::read(alloc, text)
}

/// Returns where each line of the walk stands.
pub fn walk_spots(policy: &Policy) -> &[WalkLineSpot]
    ensures { result.now ≡ policy.now.walk.spots }
{
    policy.spots_of_walk_lines()
}

/// Returns the text of the file with the number `file`.
///
/// # Errors
///
/// Memory ran out.
pub fn file_text(policy: &Policy, file: usize) -> Result<Vec<u8>, AllocError>
    ensures { IfOk result (λ text. text.items ≡ join (texts_of_lines (lines_of_numbered_file policy.now.files file))) }
{
    policy.text(file)
}

/// Makes the changes `changes` of the lines of the files of `policy` at once.
///
/// # Errors
///
/// The first fault of the changed files, or memory ran out. The policy is then as it was.
pub fn change_files(policy: &mut Policy, changes: &[LineChange]) -> Result<(), LoadFault>
    requires { AreApplicableChanges changes.now policy.old.files }
    ensures outcome { MatchResult result (λ _. policy_or_load_fault (files_after_changes changes.now policy.old.files) ≡ Ok policy.new)
        (λ fault. (fault ≡ NoMemory) ⊎ (policy_or_load_fault (files_after_changes changes.now policy.old.files) ≡ Err fault)) }
    ensures files { OnOk result (named_files_of_policy policy.new ≡ files_after_changes changes.now policy.old.files) }
    ensures unchanged { OnErr result (policy.new ≡ policy.old) }
{
    policy.changed(changes)
}

/// Puts `line` before the line with the number `at` of the file with the number `file`, or after its last line.
///
/// # Errors
///
/// The first fault of the changed files, or memory ran out. The policy is then as it was.
pub fn insert_line(
    policy: &mut Policy,
    file: usize,
    at: usize,
    line: &[u8],
) -> Result<(), LoadFault>
    requires { AreApplicableChanges (Put file at line.now ∷ []) policy.old.files }
    ensures outcome { MatchResult result (λ _. policy_or_load_fault (files_after_changes (Put file at line.now ∷ []) policy.old.files) ≡ Ok policy.new)
        (λ fault. (fault ≡ NoMemory) ⊎ (policy_or_load_fault (files_after_changes (Put file at line.now ∷ []) policy.old.files) ≡ Err fault)) }
    ensures unchanged { OnErr result (policy.new ≡ policy.old) }
{
    policy.with_line(file, at, line)
}

/// Returns `files` with the include lines of each behind its other lines.
fn files_included_last(alloc: Global, files: &[NamedFile]) -> Result<Vec<NamedFile>, AllocError> {
    let mut moved = Vec::new(alloc);
    for file in files {
        let text = text_included_last(alloc, file)?;
        moved.push(make_file(alloc, file.name.as_slice(), text.as_slice())?)?;
    }
    Ok(moved)
}

/// Returns `files`, of which the last two have each other's name: if they are in one folder, it is read in the order of the list.
fn swap_names_of_last_files(
    alloc: Global,
    files: &[NamedFile],
) -> Result<Vec<NamedFile>, AllocError> {
    let mut moved = Vec::new(alloc);
    for (number, file) in files.iter().enumerate() {
        let other = match files.len().saturating_sub(number) {
            1 => number.saturating_sub(1),
            2 => number.saturating_add(1),
            _ => number,
        };
        let name = match files.get(other) {
            Some(other) => other.name.as_slice(),
            None => file.name.as_slice(),
        };
        moved.push(make_file(alloc, name, file.bytes.as_slice())?)?;
    }
    Ok(moved)
}

/// Returns the file `name` with the bytes `bytes`.
fn make_file(alloc: Global, name: &[u8], bytes: &[u8]) -> Result<NamedFile, AllocError>
    ensures { IfOk result (λ file. file ≡ record { name = name.now; bytes = bytes.now }) }
{
    Ok(NamedFile {
        name: Items::from_slice(alloc, name)?,
        bytes: Items::from_slice(alloc, bytes)?,
    })
}

/// Returns the text of `file` with its include lines behind its other lines.
fn text_included_last(alloc: Global, file: &NamedFile) -> Result<Items<u8>, AllocError> {
    let text = file.bytes.as_slice();
    let Ok(lines) = cut(alloc, text) else {
        return Items::from_slice(alloc, text);
    };
    let mut others = Items::new(alloc);
    let mut includes = Vec::new(alloc);
    for number in 0..lines.len() {
        let Some(line) = lines.get(number) else {
            break;
        };
        if leads(alloc, file.name.as_slice(), line)?.is_some() {
            includes.extend_from_slice(line)?;
        } else {
            others.extend_from_slice(line)?;
        }
    }
    others.extend_from_slice(includes.as_slice())?;
    Ok(others)
}
