//! Files by their names.

ghost use Rattle.std.specs.Prelude.{◌≡◌};
ghost use Rattle.sudoers_files.specs.Shelf.{IsFolderListing, IsUnreadListing, IsFileReadResult, FileDeviceState, base_names_in_folder, included_base_names_in};

use crate::fault::FileFault;
use std::alloc::Global;
use sudoers_tree::Items;

/// Files by their names, and the folders in which they are.
pub trait Files {
    /// The files, if they are known, and the counts of their device.
    ghost shelf: { Self → FileDeviceState };

    /// Returns the bytes of the file `name`, up to the first past the limit of a text. Returns nothing if the file is missing.
    ///
    /// # Errors
    ///
    /// [`FileFault`].
    fn read(&mut self, alloc: Global, name: &[u8]) -> Result<Option<Items<u8>>, FileFault>
        ensures { IsFileReadResult result name.now (shelf self.old) (shelf self.new) };

    /// Returns the names, without their folder, of the regular files in the folder `dir`. Returns no name if the folder is missing. The
    /// name `dir` does not end in `/`; that of the folder `/` is empty.
    ///
    /// # Errors
    ///
    /// [`FileFault`].
    fn names(&mut self, alloc: Global, dir: &[u8]) -> Result<Vec<Items<u8>>, FileFault>
        ensures { IsFolderListing result (base_names_in_folder dir.now) (shelf self.old) (shelf self.new) };

    /// Returns those of the names [`Files::names`] that an include of the folder `dir` reads: they have no `.` and do not end in `~`. Looks
    /// at no other files. The name `dir` does not end in `/`; that of the folder `/` is empty.
    ///
    /// # Errors
    ///
    /// [`FileFault`].
    fn list_included_names(
        &mut self,
        alloc: Global,
        dir: &[u8],
    ) -> Result<Vec<Items<u8>>, FileFault>
        ensures { IsFolderListing result (included_base_names_in dir.now) (shelf self.old) (shelf self.new) };

    /// Returns the other names in the folder `dir`, without their folder: those that contain `.` or end in `~`, and those of links, folders
    /// and devices that are no regular file. Returns nothing if the folder is missing. The name `dir` does not end in `/`; that of the
    /// folder `/` is empty.
    ///
    /// # Errors
    ///
    /// [`FileFault`].
    fn list_skipped_names(
        &mut self,
        alloc: Global,
        dir: &[u8],
    ) -> Result<Option<Vec<Items<u8>>>, FileFault>
        ensures { IsUnreadListing result dir.now (shelf self.old) (shelf self.new) };

    /// Returns how often the device failed. The count stops at the greatest number.
    fn failures(&self) -> u64
        ensures { result ≡ (shelf self.now).failures };
}
