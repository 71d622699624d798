//! What `diff` prints of the users of a machine.

use crate::ask_subcommands::add_people_options;
use crate::file_trouble::FileTrouble;
use crate::list_command::{make_interfaces_option, make_text_or_empty};
use crate::machine::{read_host_name, read_moment, read_people};
use clap::{Arg, ArgMatches, Command};
use std::alloc::{AllocError, Global};
use sudoers_grammar::{Items, is_time_stamp};
use sudoers_list_people::{People, WhoFault};
use sudoers_match_member::convert_stamp_to_zero_filled_number;
use sudoers_review::CompareFault;
use sudoers_review_users::{AskedUsers, UserChanges, UserChangesFault, list_user_changes};
use sudoers_run::{LayerFault, ToolFault};
use sudoers_tree::Policy;

/// The users who are asked about.
const USERS: &str = "USER";

/// The options that name a machine or a moment, each of which asks for the users of the machine.
static MACHINE_OPTIONS: [&str; 5] = ["PASSWD", "GROUPS", "HOST", "INTERFACES", "STAMP"];

/// Why policies are not compared for the users of a machine.
#[derive(Drop)]
pub enum UserDiffTrouble {
    /// The machine cannot be read, or a name is that of no user.
    Machine(FileTrouble),
    /// The policies cannot be compared.
    Policies(CompareFault),
}

impl From<FileTrouble> for UserDiffTrouble {
    fn from(trouble: FileTrouble) -> UserDiffTrouble {
        UserDiffTrouble::Machine(trouble)
    }
}

impl From<AllocError> for UserDiffTrouble {
    fn from(error: AllocError) -> UserDiffTrouble {
        UserDiffTrouble::Machine(FileTrouble::from(error))
    }
}

/// Returns `command` with the options that name a machine.
pub fn add_user_options<'a>(
    alloc: Global,
    command: Command<'a>,
) -> Result<Command<'a>, AllocError> {
    add_people_options(alloc, command)?.arg(make_interfaces_option(alloc))
}

/// Returns the argument with the users who are asked about.
pub fn make_users_argument<'a>(alloc: Global) -> Arg<'a> {
    Arg::new(alloc, USERS).num_args(1..).help(
        "Users for whom the policies are compared on the host; with an option on a machine and without USER, all users of passwd",
    )
}

/// Returns `arg`, which does not go with users.
pub fn add_conflicts_with_users<'a>(arg: Arg<'a>) -> Result<Arg<'a>, AllocError> {
    let mut arg = arg.conflicts_with(USERS)?;
    for option in MACHINE_OPTIONS.iter() {
        arg = arg.conflicts_with(option)?;
    }
    Ok(arg)
}

/// Returns whether `words` ask what users may run.
pub fn are_users_asked(words: &ArgMatches<'_>) -> bool {
    words.get_strs(USERS).is_some()
        || MACHINE_OPTIONS
            .iter()
            .any(|option| words.get_str(option).is_some())
}

/// Returns the names of the users of `words`, or of all users of `people`.
fn list_user_names(
    alloc: Global,
    words: &ArgMatches<'_>,
    people: &People,
) -> Result<Vec<Items<u8>>, AllocError> {
    let mut names = Vec::new(alloc);
    match words.get_strs(USERS) {
        Some(users) => {
            for user in users {
                names.push(Items::from_slice(alloc, user.as_bytes())?)?;
            }
        }
        None => {
            for account in people.accounts() {
                names.push(Items::from_slice(alloc, account.name.as_slice())?)?;
            }
        }
    }
    Ok(names)
}

/// Returns the first of `names` that is that of no user of `people`, if there is one.
fn find_unknown_name<'a>(people: &People, names: &'a [Items<u8>]) -> Option<&'a [u8]> {
    for name in names {
        let name = name.as_slice();
        if !people
            .accounts()
            .iter()
            .any(|account| account.name.as_slice() == name)
        {
            return Some(name);
        }
    }
    None
}

/// Returns the moment of `words`, as a number of 14 digits.
fn read_moment_number(rt: &HostRuntime, words: &ArgMatches<'_>) -> Result<u64, FileTrouble> {
    let stamp = read_moment(rt, words)?;
    if is_time_stamp(stamp.as_slice()) {
        Ok(convert_stamp_to_zero_filled_number(stamp.as_slice()))
    } else {
        Err(FileTrouble::from(LayerFault::from(WhoFault::BadMoment)))
    }
}

/// Returns what `old` and `new` grant the users of `words` otherwise.
pub fn list_user_changes_of_words(
    rt: &HostRuntime,
    words: &ArgMatches<'_>,
    old: &Policy,
    new: &Policy,
) -> Result<UserChanges, UserDiffTrouble> {
    let alloc = rt.alloc();
    let people = read_people(rt, words)?;
    let names = list_user_names(alloc, words, &people)?;
    if let Some(name) = find_unknown_name(&people, names.as_slice()) {
        let fault = LayerFault::from(WhoFault::NoUser);
        let trouble = FileTrouble::from_fault_in_file(alloc, name, ToolFault::from(fault));
        return Err(UserDiffTrouble::Machine(trouble));
    }
    let host = read_host_name(rt, words)?;
    let interfaces = make_text_or_empty(alloc, words, "INTERFACES")?;
    let asked = AskedUsers {
        names: names.as_slice(),
        are_all: words.get_strs(USERS).is_none(),
        host: host.as_slice(),
        interfaces: interfaces.as_slice(),
        moment: read_moment_number(rt, words)?,
    };
    match list_user_changes(alloc, old, new, &people, &asked) {
        Ok(changes) => Ok(changes),
        Err(UserChangesFault::Who(fault)) => {
            Err(UserDiffTrouble::Machine(FileTrouble::from(LayerFault::from(fault))))
        }
        Err(UserChangesFault::Compare(fault)) => Err(UserDiffTrouble::Policies(fault)),
    }
}
