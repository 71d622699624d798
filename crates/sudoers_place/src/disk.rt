//! A disk: what a reader finds on it, and what a crash may leave of it.

ghost use Rattle.std.specs.Prelude.{◌≡◌, ◌≤◌, ℕ, [], ◌∷◌, IfOk, OnErr, OnOk, None};
ghost use Rattle.sudoers_place.specs.Disk.{AreBytesOf, GoesOn, HasFailed, Image, IsReplacedOrNot, IsWritten, KeepsSynced, SameBut, Stands, Story, file_with_access_of, free_paths};

use std::alloc::Global;

/// Why a call of a disk did nothing, or not all.
#[derive(Clone, Copy, PartialEq, Eq)]
pub enum DiskError {
    /// Memory ran out.
    NoMemory,
    /// The disk failed, or refused.
    Failed,
}

/// A disk with its files, each under its path. At an error a call may have been done in part, as its clauses say.
pub trait WritableDisk {
    /// What stands on the disk, and what a crash may leave of it.
    ghost story: { Self → Story };

    /// Returns the bytes of the file `path`, or nothing if there is no such file.
    ///
    /// # Errors
    ///
    /// [`DiskError`].
    fn read(&mut self, alloc: Global, path: &[u8]) -> Result<Option<Vec<u8>>, DiskError>
        ensures bytes { IfOk result (λ found. (story self.old).is_known → AreBytesOf found ((story self.old).seen path.now)) }
        ensures goes_on { GoesOn (SameBut []) (story self.old) (story self.new) }
        ensures synced { KeepsSynced [] (story self.old) (story self.new) }
        ensures failed { OnErr result (HasFailed (story self.old) (story self.new)) };

    /// Makes the file `path`, which must not be there, with `bytes` and with the owner, the group and the mode of the file `like`. Where that
    /// is not there, root owns it and may read it, and so may root's group. Brings its bytes to the disk, but not its name.
    ///
    /// # Errors
    ///
    /// [`DiskError`]. A file that was there stays as it is. If none was there, a part of the new file may remain.
    fn create(&mut self, path: &[u8], bytes: &[u8], like: &[u8]) -> Result<(), DiskError>
        ensures absent { OnOk result ((story self.old).is_known → (story self.old).seen path.now ≡ None) }
        ensures written { OnOk result (IsWritten path.now (file_with_access_of bytes.now ((story self.old).seen like.now)) (story self.new)) }
        ensures goes_on { GoesOn (SameBut (free_paths (story self.old).seen (path.now ∷ []))) (story self.old) (story self.new) }
        ensures synced { KeepsSynced (path.now ∷ []) (story self.old) (story self.new) }
        ensures failed { OnErr result (HasFailed (story self.old) (story self.new)) };

    /// Moves the file `from` to the path `to`, over a file that is there. Its bytes have to be on the disk.
    ///
    /// # Errors
    ///
    /// [`DiskError`].
    fn rename(&mut self, from: &[u8], to: &[u8]) -> Result<(), DiskError>
        requires { (story self.old).is_known → (story self.old).is_synced from.now }
        ensures moved { OnOk result ((story self.old).is_known → (story self.new).seen to.now ≡ (story self.old).seen from.now) }
        ensures goes_on { GoesOn (IsReplacedOrNot (from.now ∷ to.now ∷ []) to.now ((story self.old).seen from.now)) (story self.old) (story self.new) }
        ensures synced { KeepsSynced (from.now ∷ to.now ∷ []) (story self.old) (story self.new) }
        ensures failed { OnErr result (HasFailed (story self.old) (story self.new)) };

    /// Removes the file `path`, if it is there.
    ///
    /// # Errors
    ///
    /// [`DiskError`].
    fn remove(&mut self, path: &[u8]) -> Result<(), DiskError>
        ensures removed { OnOk result ((story self.old).is_known → (story self.new).seen path.now ≡ None) }
        ensures goes_on { GoesOn (IsReplacedOrNot (path.now ∷ []) path.now None) (story self.old) (story self.new) }
        ensures synced { KeepsSynced (path.now ∷ []) (story self.old) (story self.new) }
        ensures failed { OnErr result (HasFailed (story self.old) (story self.new)) };

    /// Brings the bytes of the file `path`, if it is there, and then the names of its folder to the disk: what a reader finds under `path`
    /// stands.
    ///
    /// # Errors
    ///
    /// [`DiskError`].
    fn sync(&mut self, path: &[u8]) -> Result<(), DiskError>
        ensures stands { OnOk result (Stands path.now ((story self.old).seen path.now) (story self.new)) }
        ensures goes_on { GoesOn (SameBut []) (story self.old) (story self.new) }
        ensures synced { KeepsSynced [] (story self.old) (story self.new) }
        ensures failed { OnErr result (HasFailed (story self.old) (story self.new)) };

    /// What is seen is one of the outcomes of a crash.
    ghost seen_now: { (disk : Self) → (story disk).may_leave (story disk).seen };

    /// This moment is one of those since an earlier one.
    ghost counts_now: { (disk : Self) (t : ℕ) (c : Image) → t ≤ (story disk).moment → (story disk).may_leave c → (story disk).left_since t c };

    /// Since this moment there is no other.
    ghost only_now: { (disk : Self) (c : Image) → (story disk).left_since (story disk).moment c → (story disk).may_leave c };
}
