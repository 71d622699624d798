//! Owners and modes of the files of a policy, and who refuses them.

use std::fs::Metadata;
use std::os::unix::fs::MetadataExt;

/// The bits of a mode that say who may do what.
const ACCESS_BITS: u32 = 0o7777;

/// The bit of a mode that lets everybody write.
const OTHERS_WRITE: u32 = 0o002;

/// The bit of a mode that lets the group write.
const GROUP_WRITES: u32 = 0o020;

/// The mode that `visudo -c` wants of a file.
pub const FILE_MODE: u32 = 0o440;

/// Who refuses a file or a folder.
#[derive(Clone, Copy)]
pub enum Refuser {
    /// sudo, which then reads nothing of it.
    Sudo,
    /// `visudo -c` alone: sudo reads it.
    Visudo,
}

/// Whose a file or a folder is, and who may do what with it.
#[derive(Clone, Copy)]
pub struct Access {
    pub owner: u32,
    pub group: u32,
    pub mode: u32,
}

impl Refuser {
    /// Returns what is said of a file or a folder that is refused.
    pub fn words(&self) -> &'static str {
        match self {
            Refuser::Sudo => "not read by sudo",
            Refuser::Visudo => "refused by visudo -c",
        }
    }
}

impl Access {
    /// Returns the access that the disk has in `metadata`.
    pub fn from_metadata(metadata: &Metadata) -> Access {
        Access {
            owner: metadata.uid(),
            group: metadata.gid(),
            mode: metadata.mode() & ACCESS_BITS,
        }
    }

    /// Returns whether the mode lets everybody write, or a group that is not that of root.
    pub fn may_be_changed_by_others(&self) -> bool {
        self.mode & OTHERS_WRITE != 0 || (self.mode & GROUP_WRITES != 0 && self.group != 0)
    }

    /// Returns the mode without the bits that let a group or everybody write.
    pub fn mode_without_writing(&self) -> u32 {
        self.mode & !(GROUP_WRITES | OTHERS_WRITE)
    }

    /// Returns who refuses a file for its owner and its group; nothing if nobody does.
    pub fn refuser_for_owner(&self) -> Option<Refuser> {
        if self.owner != 0 {
            Some(Refuser::Sudo)
        } else if self.group != 0 {
            Some(Refuser::Visudo)
        } else {
            None
        }
    }

    /// Returns who refuses a file for its mode; nothing if nobody does.
    pub fn refuser_for_mode(&self) -> Option<Refuser> {
        if self.may_be_changed_by_others() {
            Some(Refuser::Sudo)
        } else if self.mode != FILE_MODE {
            Some(Refuser::Visudo)
        } else {
            None
        }
    }
}
