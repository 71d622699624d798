//! Puts files in place that may be in place already.

ghost use Rattle.std.specs.Prelude.{◌≡◌, ◌⊎◌, ◌↔◌, ℕ, [], ◌++◌, IsTrue, OnOk, IfErr};
ghost use Rattle.std.specs.List.{AllByRecursion};
ghost use Rattle.sudoers_place.specs.declared.change.Output.{Output as OutputOf};
ghost use Rattle.sudoers_place.specs.Disk.{AreDistinct, GoesOn, HasFailed, IsNotIn, KeepsSynced, SameBut, SameWhereSeen};
ghost use Rattle.sudoers_place.specs.Placing.{AreApart, AreSameChanges, AtEveryMoment, HasCauseOfPlacing, HasNewContent, IsAsBefore, IsBeforeOrAfter, IsBeforeOrBegun, IsEarly, IsKeptInPlace, IsSameChange, OutputStands, paths_of, temps_of};
ghost use Rattle.sudoers_place.specs.internal.Stages.{IsAsExpected};

use crate::change::{Change, Output, PlaceFault};
use crate::disk::WritableDisk;
use crate::placing::{has_content, put_in_place};
use std::alloc::Global;

/// Puts the files of `changes` in place. A file that is in place already stays as it is. So this also finishes what a crash has left.
///
/// Whatever happens, and wherever a crash ends it, each file is whole, as it was or as it is to be. Before the first file is replaced, the
/// output is on the disk, from which the files can be put back.
///
/// # Errors
///
/// [`PlaceFault`].
pub fn place<D: WritableDisk>(
    disk: &mut D,
    alloc: Global,
    changes: &mut [Change],
    output: &Output,
) -> Result<(), PlaceFault>
    ensures same { AreSameChanges changes.old changes.new }
    // At every moment, and after a crash at any moment, the files are as before, or the output stands and each file is old or new.
    ensures any_moment { AtEveryMoment (IsBeforeOrBegun changes.new output.now (D.story disk.old).seen) (D.story disk.old) (D.story disk.new) }
    // A fault from before the first file is replaced: all files are as before.
    ensures early { IfErr result (λ fault. IsEarly fault → AtEveryMoment (IsAsBefore changes.new (D.story disk.old).seen) (D.story disk.old) (D.story disk.new)) }
    // Every file that was there stays, but for those of `changes`: one beside them, too, that an earlier crash has left.
    ensures kept { (D.story disk.old).is_known → SameWhereSeen (paths_of changes.new) (D.story disk.old).seen (D.story disk.old).seen (D.story disk.new).seen }
    ensures always_kept { AtEveryMoment (SameWhereSeen (paths_of changes.new) (D.story disk.old).seen) (D.story disk.old) (D.story disk.new) }
    // Only what the edits were made from is replaced.
    ensures unchanged { OnOk result ((D.story disk.old).is_known → AllByRecursion (IsBeforeOrAfter (D.story disk.old).seen) changes.old) }
    ensures late { IfErr result (λ fault. IsEarly fault ⊎ ((D.story disk.old).is_known → AllByRecursion (IsBeforeOrAfter (D.story disk.old).seen) changes.old)) }
    // If nothing is refused, all files are new, with the access that they had, and each crash leaves them so.
    ensures done { OnOk result ((D.story disk.old).is_known → AllByRecursion (IsKeptInPlace (D.story disk.old).seen (D.story disk.new)) changes.old) }
    // At the fault `NotKept` too all files are new, as a reader finds them.
    ensures placed { (number : ℕ) → result ≡ Err (PlaceFault.NotKept number) → (D.story disk.old).is_known → AllByRecursion (HasNewContent (D.story disk.old).seen (D.story disk.new).seen) changes.old }
    ensures output_stands { OnOk result ((D.story disk.old).is_known → OutputStands output.now (D.story disk.new)) }
    // It is refused for a cause alone.
    ensures cause { IfErr result (λ fault. HasCauseOfPlacing changes.old output.now fault (D.story disk.old) (D.story disk.new)) }
{
    if !are_apart(changes, output) {
        return Err(PlaceFault::SamePath);
    }
    note_done(disk, alloc, changes)?;
    put_in_place(disk, alloc, changes, output)
}

/// Returns whether no path of the output, of a file or of a file that is written first comes twice.
fn are_apart(changes: &[Change], output: &Output) -> bool
    ensures { IsTrue result ↔ AreApart changes.now output.now }
{
    is_path_apart(&output.path, changes) && are_files_apart(changes)
}

/// Returns whether no path of a file or of a file that is written first comes twice.
fn are_files_apart(changes: &[Change]) -> bool
    ensures { IsTrue result ↔ AreDistinct (temps_of changes.now ++ paths_of changes.now) }
{
    let Some((change, rest)) = changes.split_first() else {
        return true;
    };
    let temp = change.temp.as_slice();
    let path = change.path.as_slice();
    if temp == path {
        return false;
    }
    is_path_apart(temp, rest) && is_path_apart(path, rest) && are_files_apart(rest)
}

/// Returns whether `path` is neither that of a file nor that of a file that is written first.
fn is_path_apart(path: &[u8], changes: &[Change]) -> bool
    ensures { IsTrue result ↔ IsNotIn path.now (temps_of changes.now ++ paths_of changes.now) }
{
    let Some((change, rest)) = changes.split_first() else {
        return true;
    };
    let temp = change.temp.as_slice();
    let other = change.path.as_slice();
    if path == temp || path == other {
        return false;
    }
    is_path_apart(path, rest)
}

/// Notes of each file whether it is in place already.
fn note_done<D: WritableDisk>(
    disk: &mut D,
    alloc: Global,
    changes: &mut [Change],
) -> Result<(), PlaceFault>
    ensures same { AreSameChanges changes.old changes.new }
    ensures noted { OnOk result ((D.story disk.old).is_known → AllByRecursion (IsAsExpected (D.story disk.old).seen) changes.new) }
    ensures early { IfErr result IsEarly }
    ensures cause { (output : OutputOf) → IfErr result (λ fault. HasCauseOfPlacing changes.old output fault (D.story disk.old) (D.story disk.new)) }
    ensures goes_on { GoesOn (SameBut []) (D.story disk.old) (D.story disk.new) }
    ensures synced { KeepsSynced [] (D.story disk.old) (D.story disk.new) }
{
    let Some((change, rest)) = changes.split_first_mut() else {
        return Ok(());
    };
    note_one(disk, alloc, change)?;
    note_done(disk, alloc, rest)
}

/// Notes of a file whether it is in place already.
fn note_one<D: WritableDisk>(
    disk: &mut D,
    alloc: Global,
    change: &mut Change,
) -> Result<(), PlaceFault>
    ensures same { IsSameChange change.old change.new }
    ensures noted { OnOk result ((D.story disk.old).is_known → IsAsExpected (D.story disk.old).seen change.new) }
    ensures early { IfErr result IsEarly }
    ensures cause { IfErr result (λ fault. (fault ≡ PlaceFault.NotRead change.old.number) × HasFailed (D.story disk.old) (D.story disk.new) ⊎ (fault ≡ PlaceFault.Changed change.old.number) × ((D.story disk.old).is_known → IsBeforeOrAfter (D.story disk.old).seen change.old → ⊥)) }
    ensures goes_on { GoesOn (SameBut []) (D.story disk.old) (D.story disk.new) }
    ensures synced { KeepsSynced [] (D.story disk.old) (D.story disk.new) }
{
    let Ok(found) = disk.read(alloc, &change.path) else {
        return Err(PlaceFault::NotRead(change.number));
    };
    change.is_done = has_content(&found, &change.after);
    if change.is_done || has_content(&found, &change.before) {
        return Ok(());
    }
    Err(PlaceFault::Changed(change.number))
}
