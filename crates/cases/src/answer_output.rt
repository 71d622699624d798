//! How answers are written, each in one line.

use std::alloc::AllocError;
use std::fmt::{Debug, Display};
use sudoers_grammar::{Address, Mask};
use sudoers_list_people::{GroupFileRow, PasswdAccount, People, PeopleFault, PeopleFile, WhoFault};
use sudoers_match::{Answer, AskFault, CommandOptions, CommandTags, HostGroupPlace, Request};
use sudoers_match_member::{Group, Interface, Person, Who};

/// Adds `value` as `{:?}` writes it.
pub fn push_debug_format(value: &impl Debug, answers: &mut String) -> Result<(), AllocError> {
    write!(answers, "{value:?}")
}

/// Adds `value` as `{}` writes it.
pub fn push_display_format(value: &impl Display, answers: &mut String) -> Result<(), AllocError> {
    write!(answers, "{value}")
}

/// Adds a text: each byte as it is from `␠` to `~`, but `\` and two hexadecimal digits for `\` and for all others.
pub fn push_escaped_text(text: &[u8], answers: &mut String) -> Result<(), AllocError> {
    for byte in text {
        if matches!(*byte, b' '..=b'~') && *byte != b'\\' {
            answers.push(char::from(*byte))?;
        } else {
            write!(answers, "\\{:02x}", *byte)?;
        }
    }
    Ok(())
}

/// Adds a name, and a number behind `:`.
fn push_name_and_number(name: &[u8], number: u32, answers: &mut String) -> Result<(), AllocError> {
    push_escaped_text(name, answers)?;
    write!(answers, ":{}", number)
}

/// Adds `users`, each as `NAME:UID:GID`, and `groups`, each as `NAME:GID:MEMBERS`.
pub fn push_users_and_groups(people: &People, answers: &mut String) -> Result<(), AllocError> {
    answers.push_str("users")?;
    push_user_accounts(people.accounts(), answers)?;
    answers.push_str(" groups")?;
    push_group_rows(people.groups(), answers)
}

fn push_user_accounts(accounts: &[PasswdAccount], answers: &mut String) -> Result<(), AllocError> {
    for account in accounts {
        answers.push(' ')?;
        push_name_and_number(account.name.as_slice(), account.uid, answers)?;
        write!(answers, ":{}", account.gid)?;
    }
    Ok(())
}

fn push_group_rows(rows: &[GroupFileRow], answers: &mut String) -> Result<(), AllocError> {
    for row in rows {
        answers.push(' ')?;
        push_name_and_number(row.name.as_slice(), row.gid, answers)?;
        answers.push(':')?;
        push_escaped_text(row.members.as_slice(), answers)?;
    }
    Ok(())
}

/// Adds a user `NAME:UID` and his groups `NAME:GID`.
fn push_user_and_groups(person: &Person, answers: &mut String) -> Result<(), AllocError> {
    push_name_and_number(person.name.as_slice(), person.uid, answers)?;
    for group in person.groups.as_slice() {
        answers.push(' ')?;
        push_group_name_and_id(group, answers)?;
    }
    Ok(())
}

fn push_group_name_and_id(group: &Group, answers: &mut String) -> Result<(), AllocError> {
    push_name_and_number(group.name.as_slice(), group.gid, answers)
}

/// Adds a user, and behind ` @ ` the short name of his host, its long name and its interfaces.
pub fn push_user_groups_host_and_interfaces(
    who: &Who,
    answers: &mut String,
) -> Result<(), AllocError> {
    push_user_and_groups(&who.user, answers)?;
    answers.push_str(" @ ")?;
    push_escaped_text(who.short_host.as_slice(), answers)?;
    answers.push(' ')?;
    push_escaped_text(who.long_host.as_slice(), answers)?;
    for interface in who.interfaces.as_slice() {
        answers.push(' ')?;
        push_address_and_mask(*interface, answers)?;
    }
    Ok(())
}

/// Adds an interface `ADDRESS/MASK`.
fn push_address_and_mask(interface: Interface, answers: &mut String) -> Result<(), AllocError> {
    push_address(interface.address, answers)?;
    answers.push('/')?;
    match interface.mask {
        Mask::Bits(bits) => push_display_format(&bits, answers),
        Mask::Dotted(address) => push_address(address, answers),
    }
}

fn push_address(address: Address, answers: &mut String) -> Result<(), AllocError> {
    let [a, b, c, d] = address.number.to_be_bytes();
    write!(answers, "{}.{}.{}.{}", a, b, c, d)
}

/// Adds a request: `as TARGET group GROUP at MOMENT runs [WORD] [WORD]`.
pub fn push_target_moment_and_command_of_request(
    request: &Request,
    answers: &mut String,
) -> Result<(), AllocError> {
    answers.push_str("as ")?;
    push_user_and_groups(&request.target, answers)?;
    if let Some(group) = &request.target_group {
        answers.push_str(" group ")?;
        push_group_name_and_id(group, answers)?;
    }
    write!(answers, " at {} runs", request.moment)?;
    push_bracketed_word(request.command.as_slice(), answers)?;
    for arg in request.args.as_slice() {
        push_bracketed_word(arg.as_slice(), answers)?;
    }
    Ok(())
}

fn push_bracketed_word(word: &[u8], answers: &mut String) -> Result<(), AllocError> {
    answers.push_str(" [")?;
    push_escaped_text(word, answers)?;
    answers.push(']')
}

/// Adds why people are not read: `TooLarge`, or `BadRow`, the file and the number of the row; an error if memory ran out.
pub fn push_people_fault(fault: PeopleFault, answers: &mut String) -> Result<(), AllocError> {
    match fault {
        PeopleFault::TooLarge => answers.push_str("TooLarge"),
        PeopleFault::BadRow { file, line } => {
            let file = match file {
                PeopleFile::Passwd => "passwd",
                PeopleFile::Group => "group",
            };
            write!(answers, "BadRow {file} {line}")
        }
        PeopleFault::NoMemory => Err(AllocError),
    }
}

/// Adds why words name nobody; an error if memory ran out.
pub fn push_who_fault(fault: WhoFault, answers: &mut String) -> Result<(), AllocError> {
    match fault {
        WhoFault::NoMemory => Err(AllocError),
        _ => push_debug_format(&fault, answers),
    }
}

/// Adds why a question has no answer; an error if memory ran out.
pub fn push_ask_fault(fault: AskFault, answers: &mut String) -> Result<(), AllocError> {
    match fault {
        AskFault::NoMemory => Err(AllocError),
        _ => push_debug_format(&fault, answers),
    }
}

/// Adds `places` as `SPEC.GROUP`, with a space between; `none` if there is none.
pub fn push_spec_and_host_group_numbers_of_places(
    places: &[HostGroupPlace],
    answers: &mut String,
) -> Result<(), AllocError> {
    if places.is_empty() {
        return answers.push_str("none");
    }
    for (index, place) in places.iter().enumerate() {
        if index > 0 {
            answers.push(' ')?;
        }
        write!(answers, "{}.{}", place.spec, place.host_group)?;
    }
    Ok(())
}

/// Returns the word for a command that may run, or that may not.
pub fn allow_or_deny_word_of(allow: bool) -> &'static str {
    if allow { "allow" } else { "deny" }
}

/// Adds the row that decides a request; `none` if no row fits, or why there is no answer; an error if memory ran out.
pub fn push_deciding_row_or_fault(
    answered: Result<Option<Answer<'_>>, AskFault>,
    answers: &mut String,
) -> Result<(), AllocError> {
    match answered {
        Ok(Some(answer)) => push_deciding_row(&answer, answers),
        Ok(None) => answers.push_str("none"),
        Err(fault) => push_ask_fault(fault, answers),
    }
}

/// Adds `allow` or `deny`, the place of the row, its tags and its options.
fn push_deciding_row(answer: &Answer<'_>, answers: &mut String) -> Result<(), AllocError> {
    write!(
        answers,
        "{} {}.{}.{}",
        allow_or_deny_word_of(answer.allow),
        answer.spec,
        answer.host_group,
        answer.command
    )?;
    push_set_tags(&answer.tags, answers)?;
    push_set_options(&answer.options, answers)
}

/// Adds each tag that is said, with a space before it.
fn push_set_tags(tags: &CommandTags, answers: &mut String) -> Result<(), AllocError> {
    push_tag_if_set(tags.exec, "EXEC", answers)?;
    push_tag_if_set(tags.follow, "FOLLOW", answers)?;
    push_tag_if_set(tags.intercept, "INTERCEPT", answers)?;
    push_tag_if_set(tags.log_input, "LOG_INPUT", answers)?;
    push_tag_if_set(tags.log_output, "LOG_OUTPUT", answers)?;
    push_tag_if_set(tags.mail, "MAIL", answers)?;
    push_tag_if_set(tags.passwd, "PASSWD", answers)?;
    push_tag_if_set(tags.setenv, "SETENV", answers)
}

/// Adds a tag if it is said, with a space before it, and `NO` if it is off.
fn push_tag_if_set(said: Option<bool>, name: &str, answers: &mut String) -> Result<(), AllocError> {
    match said {
        Some(true) => write!(answers, " {name}"),
        Some(false) => write!(answers, " NO{name}"),
        None => Ok(()),
    }
}

/// Adds each option that is set, with a space before it.
fn push_set_options(options: &CommandOptions<'_>, answers: &mut String) -> Result<(), AllocError> {
    push_option_if_set(options.role, "ROLE", answers)?;
    push_option_if_set(options.kind, "TYPE", answers)?;
    push_option_if_set(options.apparmor_profile, "APPARMOR_PROFILE", answers)?;
    push_option_if_set(options.privs, "PRIVS", answers)?;
    push_option_if_set(options.limitprivs, "LIMITPRIVS", answers)?;
    push_option_if_set(options.notbefore, "NOTBEFORE", answers)?;
    push_option_if_set(options.notafter, "NOTAFTER", answers)?;
    push_option_if_set(options.timeout, "TIMEOUT", answers)?;
    push_option_if_set(options.cwd, "CWD", answers)?;
    push_option_if_set(options.chroot, "CHROOT", answers)
}

/// Adds ` NAME=VALUE` if the option is set.
fn push_option_if_set(
    set: Option<&[u8]>,
    name: &str,
    answers: &mut String,
) -> Result<(), AllocError> {
    let Some(value) = set else {
        return Ok(());
    };
    write!(answers, " {name}=")?;
    push_escaped_text(value, answers)
}
