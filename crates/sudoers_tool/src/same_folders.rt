//! Folders that have two names, as on a machine whose /bin is a link to /usr/bin.

use crate::file_trouble::FileTrouble;
use crate::machine::name_of_machine_file;
use clap::{Arg, ArgAction, ArgMatches};
use std::alloc::{AllocError, Global};
use std::{fs, io};
use sudoers_ask::FolderPair;
use sudoers_grammar::Items;
use sudoers_run::ToolFault;

/// The option that names two folders that are one.
const SAME: &str = "same";

/// The option that takes the folders of /usr for those of the root.
const USR_MERGE: &str = "usr-merge";

/// The option that leaves the links of the machine aside.
const NO_SAME: &str = "no-same";

/// Folders that are links to others where /usr is merged.
const MERGED: [(&str, &str); 2] = [("/bin", "/usr/bin"), ("/sbin", "/usr/sbin")];

/// What is wrong with a pair of folders.
const WRONG_PAIR: &str = "--same takes two absolute folders, as /bin=/usr/bin";

/// Pairs of folders that are one.
#[derive(Drop)]
pub struct SameFolders {
    pairs: Vec<OwnedPair>,
    /// How many of the pairs, the last ones, are links of the machine that nobody named.
    found: usize,
}

/// Two names of one folder.
#[derive(Drop)]
struct OwnedPair {
    first: Items<u8>,
    second: Items<u8>,
}

/// Returns the option with two folders that are one.
pub fn make_same_option<'a>(alloc: Global) -> Arg<'a> {
    Arg::new(alloc, SAME)
        .long(SAME)
        .value_name("DIR=DIR")
        .action(ArgAction::Append)
        .help("A command below one of the two folders is the command below the other too")
}

/// Returns the flag that takes the folders of /usr for those of the root.
pub fn make_usr_merge_flag<'a>(alloc: Global) -> Arg<'a> {
    Arg::new(alloc, USR_MERGE)
        .long(USR_MERGE)
        .action(ArgAction::SetTrue)
        .help("Do what --same /bin=/usr/bin --same /sbin=/usr/sbin does")
}

/// Returns the flag that leaves the links of the machine aside.
pub fn make_no_same_flag<'a>(alloc: Global) -> Arg<'a> {
    Arg::new(alloc, NO_SAME)
        .long(NO_SAME)
        .action(ArgAction::SetTrue)
        .help("Do not look whether /bin and /sbin are links to the folders of /usr")
}

/// Returns whether `words` name folders that are one.
pub fn has_same_folders(words: &ArgMatches<'_>) -> bool {
    words.get_strs(SAME).is_some() || words.get_flag(USR_MERGE)
}

/// Returns what is wrong with the pairs of folders that `words` name.
pub fn find_mistake_in_same_folders(words: &ArgMatches<'_>) -> Option<&'static str> {
    for word in words.get_strs(SAME)? {
        match word.split_once('=') {
            Some((first, second)) if first.starts_with('/') && second.starts_with('/') => {}
            _ => return Some(WRONG_PAIR),
        }
    }
    None
}

/// Returns the folders that are one by `words`. Where the machine is asked, the links below its root are among them.
///
/// # Errors
///
/// `Read`: a link cannot be looked at. Memory ran out.
pub fn read_same_folders(
    rt: &HostRuntime,
    words: &ArgMatches<'_>,
    is_machine_asked: bool,
) -> Result<SameFolders, FileTrouble> {
    let alloc = rt.alloc();
    let mut same = SameFolders {
        pairs: Vec::new(alloc),
        found: 0,
    };
    for word in words.get_strs(SAME).unwrap_or(&[]) {
        if let Some((first, second)) = word.split_once('=') {
            same.push_pair(alloc, first, second)?;
        }
    }
    if words.get_flag(USR_MERGE) {
        for (first, second) in MERGED {
            same.push_pair(alloc, first, second)?;
        }
    } else if is_machine_asked && !words.get_flag(NO_SAME) {
        same.push_links_of_machine(rt, words)?;
    }
    Ok(same)
}

/// Returns whether the folder `name` of the machine is a link to `target`.
fn is_link_of_machine(
    rt: &HostRuntime,
    words: &ArgMatches<'_>,
    name: &str,
    target: &str,
) -> Result<bool, FileTrouble> {
    let path = name_of_machine_file(rt.alloc(), words, name)?;
    match fs::read_link(rt, path.as_str()) {
        Ok(link) => {
            let link = link.as_os_str().trim_end_matches('/');
            Ok(is_link_to_folder(link, target))
        }
        Err(error) if error.kind() == io::ErrorKind::OutOfMemory => {
            Err(FileTrouble::from(AllocError))
        }
        Err(error) if is_kind_without_link(error.kind()) => Ok(false),
        Err(_) => Err(FileTrouble::from_fault_in_file(
            rt.alloc(),
            path.as_bytes(),
            ToolFault::Read,
        )),
    }
}

/// Returns whether the text `link` of a link in the root leads to the folder `target`: it is the name, with or without its `/`, or `./` or
/// `../` in place of this.
fn is_link_to_folder(link: &str, target: &str) -> bool {
    let name = target.trim_start_matches('/');
    link == target
        || link == name
        || link.strip_prefix("./") == Some(name)
        || link.strip_prefix("../") == Some(name)
}

/// Returns whether an error of the kind `kind` says that there is no link, or one to a name that is not UTF-8.
fn is_kind_without_link(kind: io::ErrorKind) -> bool {
    matches!(
        kind,
        io::ErrorKind::NotFound
            | io::ErrorKind::NotADirectory
            | io::ErrorKind::InvalidInput
            | io::ErrorKind::InvalidFilename
    )
}

impl SameFolders {
    /// Appends the pair of `first` and `second`, without slashes at their ends.
    fn push_pair(&mut self, alloc: Global, first: &str, second: &str) -> Result<(), AllocError> {
        self.pairs.push(OwnedPair {
            first: Items::from_slice(alloc, first.trim_end_matches('/').as_bytes())?,
            second: Items::from_slice(alloc, second.trim_end_matches('/').as_bytes())?,
        })?;
        Ok(())
    }

    /// Appends the folders of the machine that are links to those of /usr.
    fn push_links_of_machine(
        &mut self,
        rt: &HostRuntime,
        words: &ArgMatches<'_>,
    ) -> Result<(), FileTrouble> {
        for (first, second) in MERGED {
            if is_link_of_machine(rt, words, first, second)? {
                self.push_pair(rt.alloc(), first, second)?;
                self.found = self.found.saturating_add(1);
            }
        }
        Ok(())
    }

    /// Returns the pairs for the library.
    ///
    /// # Errors
    ///
    /// Memory ran out.
    pub fn list_borrowed_pairs(&self, alloc: Global) -> Result<Vec<FolderPair<'_>>, AllocError> {
        let mut pairs = Vec::new(alloc);
        for pair in self.pairs.as_slice() {
            pairs.push(FolderPair {
                first: pair.first.as_slice(),
                second: pair.second.as_slice(),
            })?;
        }
        Ok(pairs)
    }

    /// Appends to `out` a line with the pairs that are links of the machine, if there are any.
    ///
    /// # Errors
    ///
    /// Memory ran out.
    pub fn append_note_of_links(&self, out: &mut Vec<u8>) -> Result<(), AllocError> {
        if self.found == 0 {
            return Ok(());
        }
        let named = self.pairs.len().saturating_sub(self.found);
        let mut before: &[u8] = b"same folders: ";
        for pair in self.pairs.iter().skip(named) {
            out.extend_from_slice(before)?;
            out.extend_from_slice(pair.first.as_slice())?;
            out.extend_from_slice(b"=")?;
            out.extend_from_slice(pair.second.as_slice())?;
            before = b", ";
        }
        out.extend_from_slice(b"\n")
    }
}
