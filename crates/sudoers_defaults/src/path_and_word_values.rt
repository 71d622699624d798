//! Values that are paths, or words of a set.

ghost use Rattle.std.specs.Prelude.{◌≡◌};
ghost use Rattle.sudoers_text.specs.Word.{is_among};
ghost use Rattle.sudoers_defaults.specs.Parameter.{locales_of_each_machine};
ghost use Rattle.sudoers_defaults.specs.Values.{is_path, is_path_or_star, words_of_set};

use crate::parameter_group::WordSet;

/// The number of bytes that no path of the system has: PATH_MAX of Linux.
const PATH_SIZE_LIMIT: usize = 4096;

/// Returns whether `value` is a path from the root.
pub fn is_path(value: &[u8]) -> bool
    ensures { result ≡ is_path value.now }
{
    value.first() == Some(&b'/') && value.len() < PATH_SIZE_LIMIT
}

/// Returns whether `value` is a path from the root or from a home, or `*`.
pub fn is_path_or_star(value: &[u8]) -> bool
    ensures { result ≡ is_path_or_star value.now }
{
    let begins_path = value.first() == Some(&b'/') || value.first() == Some(&b'~');
    (begins_path || value == b"*".as_slice()) && value.len() < PATH_SIZE_LIMIT
}

/// Returns whether `value` is a locale that each machine has.
pub fn is_locale_of_each_machine(value: &[u8]) -> bool
    ensures { result ≡ is_among locales_of_each_machine value.now }
{
    value == b"C".as_slice() || value == b"POSIX".as_slice()
}

/// Returns whether `value` is a word of `set`.
pub fn is_word_of_set(set: WordSet, value: &[u8]) -> bool
    ensures { result ≡ is_among (words_of_set set) value.now }
{
    match set {
        WordSet::Lecture => {
            value == b"never".as_slice()
                || value == b"once".as_slice()
                || value == b"always".as_slice()
        }
        WordSet::Commands => {
            value == b"never".as_slice()
                || value == b"any".as_slice()
                || value == b"all".as_slice()
                || value == b"always".as_slice()
        }
        WordSet::Execution => {
            value == b"never".as_slice()
                || value == b"digest_only".as_slice()
                || value == b"always".as_slice()
        }
        WordSet::Tickets => {
            value == b"global".as_slice()
                || value == b"ppid".as_slice()
                || value == b"tty".as_slice()
                || value == b"kernel".as_slice()
        }
        WordSet::LogFormat => value == b"sudo".as_slice() || value == b"json".as_slice(),
        WordSet::Interception => value == b"dso".as_slice() || value == b"trace".as_slice(),
        WordSet::Facility => is_facility(value),
        WordSet::Priority => is_priority(value),
    }
}

/// Returns whether `value` is a facility of syslog.
fn is_facility(value: &[u8]) -> bool
    ensures { result ≡ is_among (words_of_set WordSet.Facility) value.now }
{
    value == b"authpriv".as_slice()
        || value == b"auth".as_slice()
        || value == b"daemon".as_slice()
        || value == b"user".as_slice()
        || value == b"local0".as_slice()
        || value == b"local1".as_slice()
        || value == b"local2".as_slice()
        || value == b"local3".as_slice()
        || value == b"local4".as_slice()
        || value == b"local5".as_slice()
        || value == b"local6".as_slice()
        || value == b"local7".as_slice()
}

/// Returns whether `value` is a priority of syslog, or `none`.
fn is_priority(value: &[u8]) -> bool
    ensures { result ≡ is_among (words_of_set WordSet.Priority) value.now }
{
    value == b"alert".as_slice()
        || value == b"crit".as_slice()
        || value == b"debug".as_slice()
        || value == b"emerg".as_slice()
        || value == b"err".as_slice()
        || value == b"info".as_slice()
        || value == b"notice".as_slice()
        || value == b"warning".as_slice()
        || value == b"none".as_slice()
}
