//! Notes about the disk that has a policy, for `check --installed`: its links, and what sudo or `visudo -c` refuses for an owner or a mode.

use crate::access::{Access, FILE_MODE, Refuser};
use crate::files::{KeptDisk, STDIN, TOP, words_of_error_kind};
use crate::json_output::JSON;
use crate::placed_paths::resolve_existing_name;
use crate::report_notes::ReportNotes;
use clap::{Arg, ArgAction, ArgMatches};
use std::alloc::{AllocError, Global};
use std::collections::BTreeSet;
use std::fs::Metadata;
use std::{fs, io};
use sudoers_files::{gather, resolve_path_below};
use sudoers_run::{LayerFault, ToolFault};
use sudoers_text::{Lines, TextFault, cut};
use sudoers_tree::{Lead, NamedFile, leads, may_include_files};

/// The flag that asks for the notes.
const INSTALLED: &str = "installed";

/// The notes about the disk that has a policy.
#[derive(Drop)]
pub struct InstalledNotes {
    pub notes: ReportNotes,
    /// The folders that were looked at.
    folders: BTreeSet<Vec<u8>>,
}

/// A disk that has a policy: that of the system, or the part of it that the words of a command name.
#[derive(Clone, Copy)]
struct PolicyDisk<'a, 'b, 'c> {
    rt: &'a HostRuntime,
    words: &'b ArgMatches<'c>,
}

/// Returns the flag that asks for notes about the disk.
pub fn make_installed_flag<'a>(alloc: Global) -> Result<Arg<'a>, AllocError> {
    Arg::new(alloc, INSTALLED)
        .long(INSTALLED)
        .action(ArgAction::SetTrue)
        .help(
            "After the report, do what --skipped does, and list links, and files and folders that sudo or visudo refuses for their owner or mode",
        )
        .conflicts_with(JSON)
}

/// Returns whether `words` ask for notes about the disk.
pub fn are_installed_notes_asked(words: &ArgMatches<'_>) -> bool {
    words.get_flag(INSTALLED)
}

/// Returns the notes about the disk that has the policy `root`, if `words` ask for them. `files` are those of the policy.
pub fn find_installed_notes(
    rt: &HostRuntime,
    words: &ArgMatches<'_>,
    root: &str,
    files: &mut KeptDisk,
) -> Result<InstalledNotes, ToolFault> {
    let alloc = rt.alloc();
    let mut notes = InstalledNotes {
        notes: ReportNotes::new(alloc),
        folders: BTreeSet::new(alloc),
    };
    if !are_installed_notes_asked(words) {
        return Ok(notes);
    }
    let disk = PolicyDisk { rt, words };
    let found = gather(alloc, root.as_bytes(), files).map_err(LayerFault::from)?;
    for file in found.as_slice() {
        notes.append_file(&disk, file, root == STDIN)?;
    }
    Ok(notes)
}

impl InstalledNotes {
    /// Appends the notes on the file `file`, and then those on the folders that its lines include. With `has_stdin` the file `-` is the
    /// standard input.
    fn append_file(
        &mut self,
        disk: &PolicyDisk<'_, '_, '_>,
        file: &NamedFile,
        has_stdin: bool,
    ) -> Result<(), AllocError> {
        let name = str::from_utf8(file.name.as_slice()).unwrap_or("");
        if has_stdin && name == STDIN {
            self.append_not_looked_at(disk.alloc(), name, "standard input")?;
        } else {
            self.append_notes_on_file(disk, name)?;
        }
        self.append_folders_of_file(disk, file)
    }

    /// Appends the notes on the file `name`.
    fn append_notes_on_file(
        &mut self,
        disk: &PolicyDisk<'_, '_, '_>,
        name: &str,
    ) -> Result<(), AllocError> {
        let alloc = disk.alloc();
        let metadata = match disk.metadata_of(name) {
            Ok(metadata) => metadata,
            Err(error) => return self.append_not_looked_at(alloc, name, words_of_error(&error)?),
        };
        self.append_link(disk, name)?;
        if !metadata.is_file() {
            return self.append_refusal(alloc, name, Refuser::Sudo, "no regular file");
        }
        let access = Access::from_metadata(&metadata);
        if let Some(refuser) = access.refuser_for_owner() {
            self.append_wrong_owner(alloc, name, refuser, &access)?;
        }
        if let Some(refuser) = access.refuser_for_mode() {
            self.append_wrong_mode(alloc, name, refuser, access.mode, FILE_MODE)?;
        }
        Ok(())
    }

    /// Appends the notes on the folders that the lines of the file `file` include. A text that has no lines includes none.
    fn append_folders_of_file(
        &mut self,
        disk: &PolicyDisk<'_, '_, '_>,
        file: &NamedFile,
    ) -> Result<(), AllocError> {
        let bytes = file.bytes.as_slice();
        if !may_include_files(bytes) {
            return Ok(());
        }
        match cut(disk.alloc(), bytes) {
            Ok(lines) => self.append_folders_of_lines(disk, file.name.as_slice(), &lines),
            Err(TextFault::NoMemory) => Err(AllocError),
            Err(_) => Ok(()),
        }
    }

    /// Appends the notes on the folders that the lines `lines` of the file `name` include.
    fn append_folders_of_lines(
        &mut self,
        disk: &PolicyDisk<'_, '_, '_>,
        name: &[u8],
        lines: &Lines<'_>,
    ) -> Result<(), AllocError> {
        for number in 0..lines.len() {
            if let Some(line) = lines.get(number)
                && let Some(Lead::Dir(dir)) = leads(disk.alloc(), name, line)?
            {
                self.append_folder_once(disk, dir.as_slice())?;
            }
        }
        Ok(())
    }

    /// Appends the notes on the folder `dir`, unless it was looked at. The name of the folder `/` is empty. A name that is not UTF-8 counts as
    /// missing.
    fn append_folder_once(
        &mut self,
        disk: &PolicyDisk<'_, '_, '_>,
        dir: &[u8],
    ) -> Result<(), AllocError> {
        let is_new = self.folders.insert(Vec::from_slice(disk.alloc(), dir)?)?;
        if !is_new {
            return Ok(());
        }
        match str::from_utf8(dir) {
            Ok("") => self.append_notes_on_folder(disk, "/"),
            Ok(name) => self.append_notes_on_folder(disk, name),
            Err(_) => Ok(()),
        }
    }

    /// Appends the notes on the folder `name`. There is none on a folder that is missing.
    fn append_notes_on_folder(
        &mut self,
        disk: &PolicyDisk<'_, '_, '_>,
        name: &str,
    ) -> Result<(), AllocError> {
        let alloc = disk.alloc();
        let metadata = match disk.metadata_of(name) {
            Ok(metadata) => metadata,
            Err(error) if is_kind_of_missing_folder(error.kind()) => return Ok(()),
            Err(error) => return self.append_not_looked_at(alloc, name, words_of_error(&error)?),
        };
        if !metadata.is_dir() {
            return Ok(());
        }
        self.append_link(disk, name)?;
        let access = Access::from_metadata(&metadata);
        if access.owner != 0 {
            self.append_wrong_owner(alloc, name, Refuser::Sudo, &access)?;
        }
        if access.may_be_changed_by_others() {
            let wanted = access.mode_without_writing();
            self.append_wrong_mode(alloc, name, Refuser::Sudo, access.mode, wanted)?;
        }
        Ok(())
    }

    /// Appends a note on the link `name`: where it leads. Appends nothing if it is no link.
    fn append_link(&mut self, disk: &PolicyDisk<'_, '_, '_>, name: &str) -> Result<(), AllocError> {
        let alloc = disk.alloc();
        match disk.find_target_of_link(name) {
            Ok(Some(target)) => {
                let note = format!(in alloc; "{name}: symbolic link to {target}\n")?;
                self.notes.text.extend_from_slice(note.as_bytes())
            }
            Ok(None) => Ok(()),
            Err(error) => self.append_not_looked_at(alloc, name, words_of_error(&error)?),
        }
    }

    /// Appends the note that `name` could not be looked at, for the reason `reason`.
    fn append_not_looked_at(
        &mut self,
        alloc: Global,
        name: &str,
        reason: &str,
    ) -> Result<(), AllocError> {
        self.notes.is_refused = true;
        let note = format!(in alloc; "{name}: not looked at: {reason}\n")?;
        self.notes.text.extend_from_slice(note.as_bytes())
    }

    /// Appends the note that `refuser` refuses `name` for its owner and its group.
    fn append_wrong_owner(
        &mut self,
        alloc: Global,
        name: &str,
        refuser: Refuser,
        access: &Access,
    ) -> Result<(), AllocError> {
        let (owner, group) = (access.owner, access.group);
        let reason = format!(in alloc; "owner {owner}:{group}, should be 0:0")?;
        self.append_refusal(alloc, name, refuser, reason.as_str())
    }

    /// Appends the note that `refuser` refuses `name` for the mode `mode`, and wants the mode `wanted`.
    fn append_wrong_mode(
        &mut self,
        alloc: Global,
        name: &str,
        refuser: Refuser,
        mode: u32,
        wanted: u32,
    ) -> Result<(), AllocError> {
        let reason = format!(in alloc; "mode {mode:04o}, should be {wanted:04o}")?;
        self.append_refusal(alloc, name, refuser, reason.as_str())
    }

    /// Appends the note that `refuser` refuses `name` for the reason `reason`.
    fn append_refusal(
        &mut self,
        alloc: Global,
        name: &str,
        refuser: Refuser,
        reason: &str,
    ) -> Result<(), AllocError> {
        self.notes.is_refused = true;
        let refused = refuser.words();
        let note = format!(in alloc; "{name}: {refused}: {reason}\n")?;
        self.notes.text.extend_from_slice(note.as_bytes())
    }
}

impl PolicyDisk<'_, '_, '_> {
    /// Returns what makes memory grow.
    fn alloc(&self) -> Global {
        self.rt.alloc()
    }

    /// Returns what the disk has of the file or the folder `name`, or of that to which it leads as a link.
    fn metadata_of(&self, name: &str) -> io::Result<Metadata> {
        match self.words.get_str(TOP) {
            Some(top) => {
                let path = resolve_path_below(self.rt, self.alloc(), top, name)?;
                fs::metadata(self.rt, path.as_str())
            }
            None => fs::metadata(self.rt, name),
        }
    }

    /// Returns where the link `name` leads, as the policy calls it; nothing if it is no link.
    fn find_target_of_link(&self, name: &str) -> io::Result<Option<String>> {
        if !self.is_link(name)? {
            return Ok(None);
        }
        let path = resolve_existing_name(self.rt, self.words, name)?;
        let top = self.words.get_str(TOP).unwrap_or("");
        match path.as_str().strip_prefix(top) {
            Some("") => Ok(Some(String::from_str(self.alloc(), "/")?)),
            Some(target) => Ok(Some(String::from_str(self.alloc(), target)?)),
            None => Ok(Some(path)),
        }
    }

    /// Returns whether `name` is a link. The folder in which it stands may be one.
    fn is_link(&self, name: &str) -> io::Result<bool> {
        let Some(top) = self.words.get_str(TOP) else {
            return Ok(fs::symlink_metadata(self.rt, name)?.is_symlink());
        };
        let (folder, base) = match name.rsplit_once('/') {
            Some(("", base)) => ("/", base),
            Some((folder, base)) => (folder, base),
            None => (".", name),
        };
        let folder = resolve_path_below(self.rt, self.alloc(), top, folder)?;
        let path = format!(in self.alloc(); "{folder}/{base}")?;
        Ok(fs::symlink_metadata(self.rt, path.as_str())?.is_symlink())
    }
}

/// Returns whether an error of the kind `kind` says that a folder is missing.
fn is_kind_of_missing_folder(kind: io::ErrorKind) -> bool {
    matches!(
        kind,
        io::ErrorKind::NotFound
            | io::ErrorKind::NotADirectory
            | io::ErrorKind::InvalidInput
            | io::ErrorKind::InvalidFilename
    )
}

/// Returns the system's reason for the error `error`, in words.
///
/// # Errors
///
/// Memory ran out.
fn words_of_error(error: &io::Error) -> Result<&'static str, AllocError> {
    match error.kind() {
        io::ErrorKind::OutOfMemory => Err(AllocError),
        kind => Ok(words_of_error_kind(kind)),
    }
}
