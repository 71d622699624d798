//! Why a parameter is refused, in words.

use crate::parameter_fault::ParameterFault;
use crate::parameter_group::{
    ParameterGroup, ParameterType, UseWithoutValue, WordSet, find_group_of_name,
};
use std::alloc::AllocError;

/// Appends why the parameter `name` is refused with the fault `fault`, where these parameters are `known`.
///
/// # Errors
///
/// Memory ran out.
pub fn append_refusal_words(
    out: &mut Vec<u8>,
    known: &[ParameterGroup],
    name: &[u8],
    fault: ParameterFault,
) -> Result<(), AllocError> {
    match fault {
        ParameterFault::Unknown => out.extend_from_slice(words_of_unknown_name(name).as_bytes()),
        ParameterFault::NoValue => {
            let verb = words_of_missing_value(find_group_of_name(known, name));
            append_taken_value(out, verb.as_bytes(), known, name)
        }
        ParameterFault::Operator => out.extend_from_slice(b"+= and -= are for lists"),
        ParameterFault::NeedlessValue => out.extend_from_slice(b"takes no value"),
        ParameterFault::EmptyValue => out.extend_from_slice(b"empty value"),
        ParameterFault::NeedsQuotes => out.extend_from_slice(b"the value needs quotes"),
        ParameterFault::BadValue | ParameterFault::BadPath => {
            append_taken_value(out, b"takes ", known, name)
        }
        ParameterFault::NotDecided => out.extend_from_slice(
            b"the machine may not have this locale",
        ),
    }
}

/// Returns what is wrong with the name `name`. A value that goes on behind a comma looks like a name.
fn words_of_unknown_name(name: &[u8]) -> &'static str {
    match name.first() {
        Some(byte) if byte.is_ascii_digit() => "unknown name; a value with a comma needs quotes",
        _ => "unknown name",
    }
}

/// Returns what is wrong with a parameter of the group `group` that has no value.
fn words_of_missing_value(group: Option<&ParameterGroup>) -> &'static str {
    match group {
        Some(
            ParameterGroup {
                without_value: UseWithoutValue::Negated,
                ..
            },
        ) => "needs a value, or ! before it: ",
        _ => "needs a value, and takes no !: ",
    }
}

/// Appends `verb` and what the parameter `name` takes.
fn append_taken_value(
    out: &mut Vec<u8>,
    verb: &[u8],
    known: &[ParameterGroup],
    name: &[u8],
) -> Result<(), AllocError> {
    out.extend_from_slice(verb)?;
    match find_group_of_name(known, name) {
        Some(group) => out.extend_from_slice(words_of_type(group.takes).as_bytes()),
        None => Ok(()),
    }
}

/// Returns what a parameter of the type `takes` takes, in words.
fn words_of_type(takes: ParameterType) -> &'static str {
    match takes {
        ParameterType::Flag => "nothing",
        ParameterType::Text | ParameterType::FreeText => "a text",
        ParameterType::Path => "a path that begins with /, shorter than 4096 bytes",
        ParameterType::PathOrStar =>
            "a path that begins with / or ~, shorter than 4096 bytes, or *",
        ParameterType::Integer => "a number from -2147483648 to 2147483647",
        ParameterType::Unsigned => "a number up to 4294967295",
        ParameterType::Mode => "an octal mode up to 0777",
        ParameterType::Minutes => "minutes, as 5, 2.5 or -1",
        ParameterType::PlainMinutes => "minutes, as 5 or 2.5",
        ParameterType::SmallNumber => "a number up to 1000",
        ParameterType::Time => "a time below 2147483648 seconds, as 90 or 1h30m",
        ParameterType::ResourceLimit => {
            "a number, infinity, or two of them with a comma, or user or default"
        }
        ParameterType::OneOf(set) => words_of_set(set),
        ParameterType::List => "one or more words",
        ParameterType::Locale => "a locale",
    }
}

/// Returns the words of `set`, one after another.
fn words_of_set(set: WordSet) -> &'static str {
    match set {
        WordSet::Lecture => "never, once or always",
        WordSet::Commands => "never, any, all or always",
        WordSet::Execution => "never, digest_only or always",
        WordSet::Tickets => "global, ppid, tty or kernel",
        WordSet::LogFormat => "sudo or json",
        WordSet::Interception => "dso or trace",
        WordSet::Facility => "authpriv, auth, daemon, user, or local0 to local7",
        WordSet::Priority => { "alert, crit, debug, emerg, err, info, notice, warning or none" }
    }
}
