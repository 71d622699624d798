//! The command lines of `who`, `what` and `why`, which ask the policy of this machine unless another is named.

use crate::dialect_option::make_dialect_option;
use crate::explaining::add_explaining_options;
use crate::json_output::make_json_flag;
use crate::list_command::{make_group_option, make_interfaces_option, make_target_option};
use crate::same_folders::{make_no_same_flag, make_same_option, make_usr_merge_flag};
use clap::{Arg, ArgAction, ArgMatches, Command};
use std::alloc::{AllocError, Global};

/// The command that prints who may run a command.
pub const WHO: &str = "who";

/// The command that prints what a user may run.
pub const WHAT: &str = "what";

/// The command that prints why a user may run a command, or may not.
pub const WHY: &str = "why";

/// The option that names the policy.
pub const POLICY: &str = "POLICY";

/// The option that asks for users whom a rule denies.
pub const DENIED: &str = "denied";

/// The option that asks for the members of aliases.
pub const EXPAND: &str = "expand";

/// The policy of a machine.
const POLICY_FILE: &str = "/etc/sudoers";

/// What help prints last.
const EXIT_STATUS: &str =
    "Exit status: 0 if a user may run the command or has rules; 1 if not; 2 a wrong command line; 3 an error. See sudoers_tool(8).";

/// Returns whether `name` is the name of a command that asks the policy of this machine.
pub fn is_ask_command(name: &str) -> bool {
    name == WHO || name == WHAT || name == WHY
}

/// Returns the name of the policy that `words` name, or that of a machine.
pub fn policy_name_of_ask_words<'a>(words: &ArgMatches<'a>) -> &'a str {
    words.get_str(POLICY).unwrap_or(POLICY_FILE)
}

/// Returns the command line of `who`.
pub fn make_who_subcommand<'a>(alloc: Global, top: Arg<'a>) -> Result<Command<'a>, AllocError> {
    let denied = Arg::new(alloc, DENIED)
        .long(DENIED)
        .action(ArgAction::SetTrue)
        .help("Print also the users whom a rule denies");
    let command = Command::new(alloc, WHO)
        .about("Print each user who may run a command on a host, with the rule that says so")
        .arg(make_target_option(alloc))?
        .arg(make_group_option(alloc))?
        .arg(denied)?;
    let command = add_same_folders_options(alloc, command)?;
    add_machine_options(alloc, command, top)?.arg(make_asked_command_argument(alloc))
}

/// Returns the command line of `what`.
pub fn make_what_subcommand<'a>(alloc: Global, top: Arg<'a>) -> Result<Command<'a>, AllocError> {
    let expand = Arg::new(alloc, EXPAND)
        .short('e')
        .long("expand-aliases")
        .action(ArgAction::SetTrue)
        .help("Print the members of aliases in place of their names");
    let command = Command::new(alloc, WHAT)
        .about(
            "Print what a user may run on a host, with the place of each command, and the Defaults that hold of him",
        )
        .arg(expand)?;
    add_machine_options(alloc, command, top)?.arg(make_user_argument(alloc))
}

/// Returns the command line of `why`.
pub fn make_why_subcommand<'a>(alloc: Global, top: Arg<'a>) -> Result<Command<'a>, AllocError> {
    let command = Command::new(alloc, WHY)
        .about(
            "Print whether a user may run a command on a host, and the rule that says so, or the rules that match but for one thing",
        )
        .arg(make_target_option(alloc))?
        .arg(make_group_option(alloc))?;
    let command = add_same_folders_options(alloc, command)?;
    add_machine_options(alloc, command, top)?
        .arg(make_user_argument(alloc))?
        .arg(make_asked_command_argument(alloc))
}

/// Returns `command` with the options that name folders that are one.
fn add_same_folders_options<'a>(
    alloc: Global,
    command: Command<'a>,
) -> Result<Command<'a>, AllocError> {
    command
        .arg(make_same_option(alloc))?
        .arg(make_usr_merge_flag(alloc))?
        .arg(make_no_same_flag(alloc))
}

/// Returns the argument with the user who is asked about.
fn make_user_argument<'a>(alloc: Global) -> Arg<'a> {
    Arg::new(alloc, "USER")
        .required(true)
        .help("User who is asked about")
}

/// Returns the argument with the command that is asked about. Each word after it is an argument of it.
fn make_asked_command_argument<'a>(alloc: Global) -> Arg<'a> {
    Arg::new(alloc, "WORD")
        .required(true)
        .num_args(1..)
        .trailing_var_arg(true)
        .help("Command with its full path, and its arguments")
}

/// Returns `command` with the options that name a machine, and those that say how its errors are reported.
fn add_machine_options<'a>(
    alloc: Global,
    command: Command<'a>,
    top: Arg<'a>,
) -> Result<Command<'a>, AllocError> {
    let command = command.after_help(EXIT_STATUS).arg(make_machine_option(
        alloc, POLICY, "policy", "FILE",
    ).help("Policy file, or `-` for standard input; without it /etc/sudoers"))?;
    let command = add_people_options(alloc, command)?
        .arg(make_interfaces_option(alloc))?
        .arg(make_dialect_option(alloc))?
        .arg(make_json_flag(alloc))?
        .arg(top)?;
    add_explaining_options(alloc, command)
}

/// Returns `command` with the options that name the users and groups of a machine, its name, and a moment.
pub fn add_people_options<'a>(
    alloc: Global,
    command: Command<'a>,
) -> Result<Command<'a>, AllocError> {
    command
        .arg(make_machine_option(alloc, "PASSWD", "passwd", "FILE").help(
            "File with the users, as passwd(5); without it /etc/passwd",
        ))?
        .arg(make_machine_option(alloc, "GROUPS", "group-file", "FILE").help(
            "File with the groups, as group(5); without it /etc/group",
        ))?
        .arg(make_machine_option(alloc, "HOST", "host", "NAME").help(
            "Long name of the host; without it the name in /etc/hostname",
        ))?
        .arg(make_machine_option(alloc, "STAMP", "moment", "STAMP").help(
            "Moment in UTC, as 20300131120000Z; without it now",
        ))
}

/// Returns the option `long`, whose value is called `value`.
fn make_machine_option<'a>(alloc: Global, id: &'a str, long: &'a str, value: &'a str) -> Arg<'a> {
    Arg::new(alloc, id).long(long).value_name(value)
}
