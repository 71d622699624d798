//! Puts edited files in place.

ghost use Rattle.std.specs.Prelude.{◌≡◌, ◌⊎◌, ◌↔◌, ℕ, List, [], ◌∷◌, ◌++◌, Option, IsTrue, OnOk, OnErr, IfOk, IfErr};
ghost use Rattle.std.specs.List.{AllByRecursion};
ghost use Rattle.sudoers_place.specs.declared.change.Change.{Change as ChangeOf};
ghost use Rattle.sudoers_place.specs.Disk.{AreBytesOf, AreDistinct, File, GoesOn, HasFailed, IsReplacedOrNot, KeepsSynced, SameBut, Stands, free_paths};
ghost use Rattle.sudoers_place.specs.Placing.{AreApart, HasContent, IsAsBefore, IsBeforeOrBegun, IsEarly, OutputStands, paths_of, placed_file, temps_of};
ghost use Rattle.sudoers_place.specs.internal.Causes.{HasCause, HasCauseInFiles};
ghost use Rattle.sudoers_place.specs.internal.Stages.{ArePlacedInPart, IsAsExpected, IsFree, IsInPlace, IsPlaced, IsReady, with_temp_if_written, written_temps};

use crate::change::{Change, Content, Output, PlaceFault};
use crate::disk::{DiskError, WritableDisk};
use std::alloc::Global;

/// Puts the files of `changes` in place. The output of the edits is brought to the disk first. Then each new file is written beside its own.
/// All files are compared with what is expected. Only then they are moved in place, in order, and brought to the disk.
///
/// # Errors
///
/// [`PlaceFault`].
pub fn put_in_place<D: WritableDisk>(
    disk: &mut D,
    alloc: Global,
    changes: &[Change],
    output: &Output,
) -> Result<(), PlaceFault>
    requires { AreApart changes.now output.now }
    ensures goes_on { GoesOn (IsBeforeOrBegun changes.now output.now (D.story disk.old).seen) (D.story disk.old) (D.story disk.new) }
    ensures early { IfErr result (λ fault. IsEarly fault → GoesOn (IsAsBefore changes.now (D.story disk.old).seen) (D.story disk.old) (D.story disk.new)) }
    ensures expected { OnOk result ((D.story disk.old).is_known → AllByRecursion (IsAsExpected (D.story disk.old).seen) changes.now) }
    ensures late { IfErr result (λ fault. IsEarly fault ⊎ ((D.story disk.old).is_known → AllByRecursion (IsAsExpected (D.story disk.old).seen) changes.now)) }
    ensures done { OnOk result ((D.story disk.old).is_known → AllByRecursion (IsInPlace (D.story disk.old).seen (D.story disk.new)) changes.now) }
    ensures placed { (number : ℕ) → result ≡ Err (PlaceFault.NotKept number) → (D.story disk.old).is_known → AllByRecursion (IsPlaced (D.story disk.old).seen (D.story disk.new)) changes.now }
    ensures output_stands { OnOk result ((D.story disk.old).is_known → OutputStands output.now (D.story disk.new)) }
    ensures cause { IfErr result (λ fault. HasCause changes.now output.now fault (D.story disk.old) (D.story disk.new)) }
{
    prepare(disk, alloc, changes, output)?;
    move_all(disk, changes)?;
    keep_all(disk, changes)
}

/// Does all that is done before the first file is moved.
fn prepare<D: WritableDisk>(
    disk: &mut D,
    alloc: Global,
    changes: &[Change],
    output: &Output,
) -> Result<(), PlaceFault>
    requires { AreApart changes.now output.now }
    ensures ready { OnOk result (AllByRecursion (IsReady (D.story disk.new)) changes.now) }
    ensures stands { OnOk result ((D.story disk.new).is_known → OutputStands output.now (D.story disk.new)) }
    ensures expected { OnOk result ((D.story disk.old).is_known → AllByRecursion (IsAsExpected (D.story disk.old).seen) changes.now) }
    ensures early { IfErr result IsEarly }
    ensures cause { IfErr result (λ fault. HasCause changes.now output.now fault (D.story disk.old) (D.story disk.new)) }
    ensures free { OnOk result ((D.story disk.old).is_known → AllByRecursion (IsFree (D.story disk.old).seen) changes.now) }
    ensures goes_on { GoesOn (IsAsBefore changes.now (D.story disk.old).seen) (D.story disk.old) (D.story disk.new) }
{
    settle_output(disk, alloc, output)?;
    write_temps(disk, changes)?;
    let compared = compare(disk, alloc, changes);
    if compared.is_err() {
        remove_temps(disk, changes);
    }
    compared
}

/// Brings the output to the disk, if it has its bytes.
fn settle_output<D: WritableDisk>(
    disk: &mut D,
    alloc: Global,
    output: &Output,
) -> Result<(), PlaceFault>
    ensures stands { OnOk result ((D.story disk.new).is_known → OutputStands output.now (D.story disk.new)) }
    ensures early { IfErr result IsEarly }
    ensures cause { (changes : List ChangeOf) → IfErr result (λ fault. HasCause changes output.now fault (D.story disk.old) (D.story disk.new)) }
    ensures goes_on { GoesOn (SameBut []) (D.story disk.old) (D.story disk.new) }
    ensures synced { KeepsSynced [] (D.story disk.old) (D.story disk.new) }
{
    let Ok(found) = disk.read(alloc, &output.path) else {
        return Err(PlaceFault::OutputNotKept);
    };
    if !is_file_with_bytes(&found, &output.bytes) {
        return Err(PlaceFault::OutputChanged);
    }
    let Ok(()) = disk.sync(&output.path) else {
        return Err(PlaceFault::OutputNotKept);
    };
    Ok(())
}

/// Returns whether `found` are these bytes.
fn is_file_with_bytes(found: &Option<Vec<u8>>, bytes: &Vec<u8>) -> bool
    ensures { (file : Option File) → AreBytesOf found.now file → IsTrue result ↔ HasContent (Content.Bytes bytes.now) file }
{
    match found {
        Some(found) => found.as_slice() == bytes.as_slice(),
        None => false,
    }
}

/// Returns whether `found` is this content.
pub fn has_content(found: &Option<Vec<u8>>, content: &Content) -> bool
    ensures { (file : Option File) → AreBytesOf found.now file → IsTrue result ↔ HasContent content.now file }
{
    match content {
        Content::Bytes(bytes) => is_file_with_bytes(found, bytes),
        Content::NoFile => match found {
            Some(found) => found.is_empty(),
            None => true,
        },
    }
}

/// Writes each new file beside its own. Removes all again if one cannot be written.
fn write_temps<D: WritableDisk>(disk: &mut D, changes: &[Change]) -> Result<(), PlaceFault>
    requires { AreDistinct (temps_of changes.now ++ paths_of changes.now) }
    ensures ready { OnOk result (AllByRecursion (IsReady (D.story disk.new)) changes.now) }
    ensures free { OnOk result ((D.story disk.old).is_known → AllByRecursion (IsFree (D.story disk.old).seen) changes.now) }
    ensures early { IfErr result IsEarly }
    ensures cause { IfErr result (λ fault. HasCauseInFiles changes.now fault (D.story disk.old) (D.story disk.new)) }
    ensures goes_on { GoesOn (SameBut (free_paths (D.story disk.old).seen (temps_of changes.now))) (D.story disk.old) (D.story disk.new) }
    ensures synced { KeepsSynced (temps_of changes.now) (D.story disk.old) (D.story disk.new) }
{
    let Some((change, rest)) = changes.split_first() else {
        return Ok(());
    };
    let Ok(()) = write_temp(disk, change) else {
        return Err(PlaceFault::NotWritten(change.number));
    };
    let written = write_temps(disk, rest);
    if written.is_err() {
        remove_temp(disk, change);
    }
    written
}

/// Writes a new file beside its own, if it is to be moved there.
fn write_temp<D: WritableDisk>(disk: &mut D, change: &Change) -> Result<(), DiskError>
    requires { AreDistinct (change.now.temp.items ∷ change.now.path.items ∷ []) }
    ensures ready { OnOk result (IsReady (D.story disk.new) change.now) }
    ensures free { OnOk result ((D.story disk.old).is_known → IsFree (D.story disk.old).seen change.now) }
    ensures failed { OnErr result (HasFailed (D.story disk.old) (D.story disk.new)) }
    ensures goes_on { GoesOn (SameBut (free_paths (D.story disk.old).seen (change.now.temp.items ∷ []))) (D.story disk.old) (D.story disk.new) }
    ensures synced { KeepsSynced (change.now.temp.items ∷ []) (D.story disk.old) (D.story disk.new) }
{
    if change.is_done {
        return Ok(());
    }
    match &change.after {
        Content::Bytes(bytes) => disk.create(&change.temp, bytes, &change.path),
        Content::NoFile => Ok(()),
    }
}

/// Removes what was written beside the files, where it can.
fn remove_temps<D: WritableDisk>(disk: &mut D, changes: &[Change])
    ensures goes_on { GoesOn (SameBut (written_temps changes.now)) (D.story disk.old) (D.story disk.new) }
{
    if let Some((change, rest)) = changes.split_first() {
        remove_temp(disk, change);
        remove_temps(disk, rest);
    }
}

/// Removes what was written beside a file, if it can.
fn remove_temp<D: WritableDisk>(disk: &mut D, change: &Change)
    ensures goes_on { GoesOn (SameBut (with_temp_if_written change.now.is_done change.now.after change.now.temp.items [])) (D.story disk.old) (D.story disk.new) }
    ensures synced { KeepsSynced (change.now.temp.items ∷ []) (D.story disk.old) (D.story disk.new) }
{
    if change.is_done {
        return;
    }
    match &change.after {
        Content::Bytes(_) => {
            let _ = disk.remove(&change.temp);
        }
        Content::NoFile => {}
    }
}

/// Compares each file with what is expected.
fn compare<D: WritableDisk>(
    disk: &mut D,
    alloc: Global,
    changes: &[Change],
) -> Result<(), PlaceFault>
    ensures expected { OnOk result ((D.story disk.old).is_known → AllByRecursion (IsAsExpected (D.story disk.old).seen) changes.now) }
    ensures early { IfErr result IsEarly }
    ensures cause { IfErr result (λ fault. HasCauseInFiles changes.now fault (D.story disk.old) (D.story disk.new)) }
    ensures goes_on { GoesOn (SameBut []) (D.story disk.old) (D.story disk.new) }
    ensures synced { KeepsSynced [] (D.story disk.old) (D.story disk.new) }
{
    let Some((change, rest)) = changes.split_first() else {
        return Ok(());
    };
    match is_as_expected(disk, alloc, change) {
        Ok(true) => compare(disk, alloc, rest),
        Ok(false) => Err(PlaceFault::Changed(change.number)),
        Err(_) => Err(PlaceFault::NotRead(change.number)),
    }
}

/// Returns whether what is expected stands where the file is.
fn is_as_expected<D: WritableDisk>(
    disk: &mut D,
    alloc: Global,
    change: &Change,
) -> Result<bool, DiskError>
    ensures expected { IfOk result (λ same. (D.story disk.old).is_known → IsTrue same ↔ IsAsExpected (D.story disk.old).seen change.now) }
    ensures failed { OnErr result (HasFailed (D.story disk.old) (D.story disk.new)) }
    ensures goes_on { GoesOn (SameBut []) (D.story disk.old) (D.story disk.new) }
    ensures synced { KeepsSynced [] (D.story disk.old) (D.story disk.new) }
{
    let found = disk.read(alloc, &change.path)?;
    if change.is_done {
        Ok(has_content(&found, &change.after))
    } else {
        Ok(has_content(&found, &change.before))
    }
}

/// Moves the new files in place, in order.
fn move_all<D: WritableDisk>(disk: &mut D, changes: &[Change]) -> Result<(), PlaceFault>
    requires ready { AllByRecursion (IsReady (D.story disk.old)) changes.now }
    requires distinct { AreDistinct (temps_of changes.now ++ paths_of changes.now) }
    ensures placed { OnOk result (AllByRecursion (IsPlaced (D.story disk.old).seen (D.story disk.new)) changes.now) }
    ensures late { IfErr result (λ fault. IsEarly fault → ⊥) }
    ensures kept_later { (number : ℕ) → result ≡ Err (PlaceFault.NotKept number) → ⊥ }
    ensures cause { IfErr result (λ fault. HasCauseInFiles changes.now fault (D.story disk.old) (D.story disk.new)) }
    ensures goes_on { GoesOn (ArePlacedInPart changes.now (D.story disk.old).seen) (D.story disk.old) (D.story disk.new) }
{
    let Some((change, rest)) = changes.split_first() else {
        return Ok(());
    };
    let Ok(()) = move_one(disk, change) else {
        return Err(PlaceFault::NotMoved(change.number));
    };
    move_all(disk, rest)
}

/// Moves a new file in place, or removes the file if there is to be none.
fn move_one<D: WritableDisk>(disk: &mut D, change: &Change) -> Result<(), DiskError>
    requires { IsReady (D.story disk.old) change.now }
    ensures placed { OnOk result (IsPlaced (D.story disk.old).seen (D.story disk.new) change.now) }
    ensures failed { OnErr result (HasFailed (D.story disk.old) (D.story disk.new)) }
    ensures goes_on { GoesOn (IsReplacedOrNot (with_temp_if_written change.now.is_done change.now.after change.now.temp.items (change.now.path.items ∷ [])) change.now.path.items (placed_file change.now ((D.story disk.old).seen change.now.path.items))) (D.story disk.old) (D.story disk.new) }
    ensures synced { KeepsSynced (change.now.temp.items ∷ change.now.path.items ∷ []) (D.story disk.old) (D.story disk.new) }
{
    if change.is_done {
        return Ok(());
    }
    match &change.after {
        Content::Bytes(_) => disk.rename(&change.temp, &change.path),
        Content::NoFile => disk.remove(&change.path),
    }
}

/// Brings each file to the disk.
fn keep_all<D: WritableDisk>(disk: &mut D, changes: &[Change]) -> Result<(), PlaceFault>
    ensures stand { OnOk result (AllByRecursion (λ (change : ChangeOf). Stands change.path.items ((D.story disk.old).seen change.path.items) (D.story disk.new)) changes.now) }
    ensures late { IfErr result (λ fault. IsEarly fault → ⊥) }
    ensures cause { IfErr result (λ fault. HasCauseInFiles changes.now fault (D.story disk.old) (D.story disk.new)) }
    ensures goes_on { GoesOn (SameBut []) (D.story disk.old) (D.story disk.new) }
{
    let Some((change, rest)) = changes.split_first() else {
        return Ok(());
    };
    let Ok(()) = disk.sync(&change.path) else {
        return Err(PlaceFault::NotKept(change.number));
    };
    keep_all(disk, rest)
}
