//! The machine that is asked about: its users and groups, its name, and the moment.

use crate::file_trouble::FileTrouble;
use crate::files::{TOP, file_name_of_text, open_disk_files, open_named_file};
use clap::ArgMatches;
use jiff::Timestamp;
use std::alloc::{AllocError, Global};
use sudoers_files::{FileFault, Files};
use sudoers_grammar::{Items, Why};
use sudoers_list_people::{People, PeopleFault};
use sudoers_run::{Counted, LayerFault, ToolFault, read_all_within_limit};
use sudoers_text::TEXT_LIMIT;
use sudoers_tree::{LoadFault, ReadFault};

/// The option that names the file of users, and the file of a machine.
const PASSWD: (&str, &str) = ("PASSWD", "/etc/passwd");

/// The option that names the file of groups, and the file of a machine.
const GROUP: (&str, &str) = ("GROUPS", "/etc/group");

/// The file with the name of a machine.
const HOSTNAME_FILE: &str = "/etc/hostname";

/// Returns the name `name` below the folder that `words` name, if they name one.
///
/// # Errors
///
/// Memory ran out.
pub fn name_of_machine_file(
    alloc: Global,
    words: &ArgMatches<'_>,
    name: &str,
) -> Result<String, AllocError> {
    let dir = words.get_str(TOP).unwrap_or("");
    let mut path = String::from_str(alloc, dir.trim_end_matches('/'))?;
    path.push_str(name)?;
    Ok(path)
}

/// Returns the name of the file of users that `words` name, or that of the machine.
pub fn name_of_passwd_file(alloc: Global, words: &ArgMatches<'_>) -> Result<String, AllocError> {
    name_of_people_file(alloc, words, PASSWD)
}

/// Returns the name of the file of groups that `words` name, or that of the machine.
pub fn name_of_group_file(alloc: Global, words: &ArgMatches<'_>) -> Result<String, AllocError> {
    name_of_people_file(alloc, words, GROUP)
}

/// Returns the name of the file that the option `option.0` of `words` names; without it that of the file `option.1` of the machine.
fn name_of_people_file(
    alloc: Global,
    words: &ArgMatches<'_>,
    option: (&str, &str),
) -> Result<String, AllocError> {
    match words.get_str(option.0) {
        Some(name) => String::from_str(alloc, name),
        None => name_of_machine_file(alloc, words, option.1),
    }
}

/// Returns the bytes of the file `name`, which is the caller's own.
fn read_named_file(rt: &HostRuntime, name: &str) -> Result<Vec<u8>, FileTrouble> {
    let read = match open_named_file(rt, name) {
        Ok(file) => read_all_within_limit(rt.alloc(), &mut Counted::new(file), TEXT_LIMIT),
        Err(fault) => Err(fault),
    };
    let fault = match read {
        Ok(bytes) => return Ok(bytes),
        Err(ToolFault::Layer(LayerFault::NoMemory)) => return Err(FileTrouble::from(AllocError)),
        Err(ToolFault::InputTooLarge) => make_fault_of_large_file(),
        Err(fault) => fault,
    };
    Err(FileTrouble::from_fault_in_file(rt.alloc(), name.as_bytes(), fault))
}

/// Returns the fault of a file with more bytes than a text may have.
fn make_fault_of_large_file() -> ToolFault {
    ToolFault::from(LayerFault::from(PeopleFault::TooLarge))
}

/// Returns the bytes of the file `name` of the machine, whose root is the folder that `words` name, if they name one.
fn read_machine_file(
    rt: &HostRuntime,
    words: &ArgMatches<'_>,
    name: &str,
) -> Result<Vec<u8>, FileTrouble> {
    let alloc = rt.alloc();
    let mut disk = open_disk_files(rt, words.get_str(TOP), name)?;
    let fault = match disk.read(alloc, name.as_bytes()) {
        Ok(Some(bytes)) => {
            if bytes.len() <= TEXT_LIMIT {
                return Ok(Vec::from_slice(alloc, bytes.as_slice())?);
            }
            make_fault_of_large_file()
        }
        Ok(None) | Err(FileFault::Failed) => ToolFault::Read,
        Err(FileFault::NoEnd) => ToolFault::NoEnd,
        Err(FileFault::NoMemory) => return Err(FileTrouble::from(AllocError)),
    };
    let path = name_of_machine_file(alloc, words, name)?;
    Err(FileTrouble::from_fault_in_file(alloc, path.as_bytes(), fault))
}

/// Returns the bytes of the file that the option `option.0` of `words` names; without it those of the file `option.1` of the machine.
fn read_people_file(
    rt: &HostRuntime,
    words: &ArgMatches<'_>,
    option: (&str, &str),
) -> Result<Vec<u8>, FileTrouble> {
    match words.get_str(option.0) {
        Some(name) => read_named_file(rt, name),
        None => read_machine_file(rt, words, option.1),
    }
}

/// Returns the users and groups of the files that `words` name, or of the machine.
pub fn read_people(rt: &HostRuntime, words: &ArgMatches<'_>) -> Result<People, FileTrouble> {
    let passwd = read_people_file(rt, words, PASSWD)?;
    let group = read_people_file(rt, words, GROUP)?;
    match People::read(rt.alloc(), passwd.as_slice(), group.as_slice()) {
        Ok(people) => Ok(people),
        Err(fault) => Err(FileTrouble::from(LayerFault::from(fault))),
    }
}

/// Returns the name of the host that `words` name, or that of the machine, which its hostname(5) has.
pub fn read_host_name(rt: &HostRuntime, words: &ArgMatches<'_>) -> Result<Items<u8>, FileTrouble> {
    let alloc = rt.alloc();
    if let Some(host) = words.get_str("HOST") {
        return Ok(Items::from_slice(alloc, host.as_bytes())?);
    }
    let text = read_machine_file(rt, words, HOSTNAME_FILE)?;
    match find_host_name(text.as_slice()) {
        Some(name) => Ok(Items::from_slice(alloc, name)?),
        None => {
            let name = name_of_machine_file(alloc, words, HOSTNAME_FILE)?;
            Err(FileTrouble::from(make_fault_of_empty_name(alloc, name.as_str())?))
        }
    }
}

/// Returns the fault that the file `name` has no name where one has to be: at its beginning.
fn make_fault_of_empty_name(alloc: Global, name: &str) -> Result<LayerFault, AllocError> {
    Ok(LayerFault::from(LoadFault::InFile {
        file: file_name_of_text(alloc, name)?,
        fault: ReadFault::Syntax {
            line: 1,
            col: 1,
            why: Why::EmptyName,
        },
    }))
}

/// Returns the name that stands in `text`, which is that of a hostname(5): the first line that is no comment and not blank. Returns nothing
/// if there is none.
fn find_host_name(text: &[u8]) -> Option<&[u8]> {
    for line in text.split(|byte| *byte == b'\n') {
        let name = line.trim_ascii();
        if !name.is_empty() && !name.starts_with(b"#") {
            return Some(name);
        }
    }
    None
}

/// Returns the moment that `words` name, or the present, as a time stamp in UTC.
pub fn read_moment(rt: &HostRuntime, words: &ArgMatches<'_>) -> Result<Items<u8>, FileTrouble> {
    let alloc = rt.alloc();
    if let Some(stamp) = words.get_str("STAMP") {
        return Ok(Items::from_slice(alloc, stamp.as_bytes())?);
    }
    let Ok(now) = Timestamp::now(rt) else {
        return Err(FileTrouble::from(ToolFault::Read));
    };
    match now.strftime(alloc, "%Y%m%d%H%M%SZ") {
        Ok(stamp) => Ok(Items::from_slice(alloc, stamp.as_bytes())?),
        Err(_) => Err(FileTrouble::from(AllocError)),
    }
}
