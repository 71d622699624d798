//! The subcommand `list`: its command line, and its run.

use crate::dialect_option::make_dialect_option;
use crate::files::{KeptDisk, STDIN, STDIN_NUMBER, open_named_file};
use crate::same_folders::{make_same_option, make_usr_merge_flag};
use crate::terminal::open_standard_output;
use clap::{Arg, ArgAction, ArgMatches, Command};
use std::alloc::{AllocError, Global};
use std::fs;
use std::os::fd::AsRawFd;
use sudoers_files::{FileFault, GatherFault};
use sudoers_grammar::Items;
use sudoers_run::{Counted, LayerFault, ListWords, ToolFault, run_list};

/// Returns the command line of `list`.
pub fn make_list_subcommand<'a>(
    alloc: Global,
    top: Arg<'a>,
    file: Arg<'a>,
) -> Result<Command<'a>, AllocError> {
    let command = Command::new(alloc, "list")
        .about("Print what a user may run on a host, or whether he may run a command there")
        .arg(make_other_user_option(alloc))?
        .arg(
            make_required_option(alloc, "PASSWD", "passwd")
                .value_name("FILE")
                .help("File with the users, as passwd(5)"),
        )?
        .arg(
            make_required_option(alloc, "GROUPS", "group-file")
                .value_name("FILE")
                .help("File with the groups, as group(5)"),
        )?
        .arg(
            make_required_option(alloc, "HOST", "host")
                .value_name("NAME")
                .help("Long name of the host"),
        )?;
    add_moment_runas_and_command_arguments(alloc, command.arg(top)?, file)
}

/// Returns the command line with what a question asks.
fn add_moment_runas_and_command_arguments<'a>(
    alloc: Global,
    command: Command<'a>,
    file: Arg<'a>,
) -> Result<Command<'a>, AllocError> {
    command
        .arg(make_required_option(alloc, "STAMP", "moment").help(
            "Moment in UTC, as 20300131120000Z; now is $(date -u +%Y%m%d%H%M%SZ)",
        ))?
        .arg(make_interfaces_option(alloc))?
        .arg(make_dialect_option(alloc))?
        .arg(make_target_option(alloc))?
        .arg(make_group_option(alloc))?
        .arg(make_same_option(alloc))?
        .arg(make_usr_merge_flag(alloc))?
        .arg(make_why_flag(alloc)?)?
        .arg(file)?
        .arg(make_command_argument(alloc))
}

/// Returns an option that has to be there.
fn make_required_option<'a>(alloc: Global, id: &'a str, long: &'a str) -> Arg<'a> {
    Arg::new(alloc, id).long(long).required(true)
}

/// Returns the option with the user who is asked about.
fn make_other_user_option<'a>(alloc: Global) -> Arg<'a> {
    make_required_option(alloc, "USER", "other-user")
        .short('U')
        .help("User who is asked about")
}

/// Returns the option with the interfaces of the host.
pub fn make_interfaces_option<'a>(alloc: Global) -> Arg<'a> {
    Arg::new(alloc, "INTERFACES")
        .long("interfaces")
        .value_name("LIST")
        .help(
            "Addresses of the host with their bits, as 10.1.2.9/24,192.168.0.1/16; without it no network matches",
        )
}

/// Returns the option with the user as whom a command is to run.
pub fn make_target_option<'a>(alloc: Global) -> Arg<'a> {
    Arg::new(alloc, "TARGET").short('u').long("user").help(
        "User as whom the command is to run; without it runas_default, or USER if -g is there",
    )
}

/// Returns the option with the group as which a command is to run.
pub fn make_group_option<'a>(alloc: Global) -> Arg<'a> {
    Arg::new(alloc, "GROUP")
        .short('g')
        .long("group")
        .help("Group as which the command is to run")
}

/// Returns the option that asks for the rule that decides.
fn make_why_flag<'a>(alloc: Global) -> Result<Arg<'a>, AllocError> {
    Arg::new(alloc, "why")
        .long("why")
        .action(ArgAction::SetTrue)
        .help("With a command, print the rule that allows or denies it")
        .requires_arg("WORD")
}

/// Returns the argument with a command and its arguments. Each word after the command is an argument of it.
pub fn make_command_argument<'a>(alloc: Global) -> Arg<'a> {
    Arg::new(alloc, "WORD")
        .num_args(0..)
        .trailing_var_arg(true)
        .help("Command and its arguments; without a command the rules of the user are listed")
}

/// What the command line asks for.
#[derive(Drop)]
pub struct ListQuestion {
    user: Items<u8>,
    host: Items<u8>,
    moment: Items<u8>,
    interfaces: Items<u8>,
    target: Option<Items<u8>>,
    group: Option<Items<u8>>,
    command: Vec<Items<u8>>,
    why: bool,
    file: Items<u8>,
}

impl ListQuestion {
    /// Returns what `words` ask of the policy `file`.
    fn from_matches(
        alloc: Global,
        file: &str,
        words: &ArgMatches<'_>,
    ) -> Result<ListQuestion, AllocError> {
        Ok(ListQuestion {
            user: make_text_or_empty(alloc, words, "USER")?,
            host: make_text_or_empty(alloc, words, "HOST")?,
            moment: make_text_or_empty(alloc, words, "STAMP")?,
            interfaces: make_text_or_empty(alloc, words, "INTERFACES")?,
            target: text_of_option(alloc, words, "TARGET")?,
            group: text_of_option(alloc, words, "GROUP")?,
            command: command_words_of_matches(alloc, words)?,
            why: words.get_flag("why"),
            file: Items::from_slice(alloc, file.as_bytes())?,
        })
    }

    /// Returns the words for the library.
    fn as_borrowed_list_question(&self) -> ListWords<'_> {
        ListWords {
            user: self.user.as_slice(),
            host: self.host.as_slice(),
            moment: self.moment.as_slice(),
            interfaces: self.interfaces.as_slice(),
            target: optional_slice_of_optional_text(&self.target),
            group: optional_slice_of_optional_text(&self.group),
            words: self.command.as_slice(),
            why: self.why,
        }
    }
}

/// Returns the text of an option, if it is there.
pub fn text_of_option(
    alloc: Global,
    words: &ArgMatches<'_>,
    id: &str,
) -> Result<Option<Items<u8>>, AllocError> {
    match words.get_str(id) {
        Some(text) => Ok(Some(Items::from_slice(alloc, text.as_bytes())?)),
        None => Ok(None),
    }
}

/// Returns the text of an option, empty if it is not there.
pub fn make_text_or_empty(
    alloc: Global,
    words: &ArgMatches<'_>,
    id: &str,
) -> Result<Items<u8>, AllocError> {
    match text_of_option(alloc, words, id)? {
        Some(text) => Ok(text),
        None => Ok(Items::new(alloc)),
    }
}

/// Returns the bytes of a text, if it is there.
pub fn optional_slice_of_optional_text(text: &Option<Items<u8>>) -> Option<&[u8]> {
    match text {
        Some(text) => Some(text.as_slice()),
        None => None,
    }
}

/// Returns the command and its arguments.
pub fn command_words_of_matches(
    alloc: Global,
    words: &ArgMatches<'_>,
) -> Result<Vec<Items<u8>>, AllocError> {
    let mut command = Vec::new(alloc);
    if let Some(given) = words.get_strs("WORD") {
        for word in given {
            command.push(Items::from_slice(alloc, word.as_bytes())?)?;
        }
    }
    Ok(command)
}

/// Lists by a policy, or by the standard input.
pub fn run_list_command(
    rt: &HostRuntime,
    file: &str,
    words: &ArgMatches<'_>,
    files: &mut KeptDisk,
) -> Result<u8, ToolFault> {
    let asked = ListQuestion::from_matches(rt.alloc(), file, words)?;
    let (passwd, group) = open_passwd_and_group_files(rt, words)?;
    // Had the standard input been closed, the first file that was opened would be it.
    if file == STDIN && passwd.as_raw_fd() == STDIN_NUMBER {
        let closed = GatherFault::Device(FileFault::Failed);
        return Err(ToolFault::Layer(LayerFault::Gather(closed)));
    }
    run_list(
        rt.alloc(),
        files,
        asked.file.as_slice(),
        &mut Counted::new(passwd),
        &mut Counted::new(group),
        &asked.as_borrowed_list_question(),
        &mut Counted::new(open_standard_output(rt)),
    )
}

/// Opens the files of users and of groups that `words` name.
fn open_passwd_and_group_files(
    rt: &HostRuntime,
    words: &ArgMatches<'_>,
) -> Result<(fs::File, fs::File), ToolFault> {
    let passwd = open_named_file(rt, words.get_str("PASSWD").unwrap_or(""))?;
    let group = open_named_file(rt, words.get_str("GROUPS").unwrap_or(""))?;
    Ok((passwd, group))
}
