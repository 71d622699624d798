//! Names, and the words that have a meaning of their own.

ghost use Rattle.std.specs.Prelude.{◌≡◌, ◌||◌, codes};
ghost use Rattle.std.specs.List.{list_all};
ghost use Rattle.std.specs.Str.{bytes_eq};
ghost use Rattle.sudoers_text.specs.Word.{is_among, is_tag, is_option_name, is_reserved, is_alias_byte, is_name, digest_kinds, at_include_words, include_words};

use crate::part::is_upper;

/// Returns whether the word is a tag of commands.
pub fn is_tag(word: &[u8]) -> bool
    ensures { result ≡ is_tag word.now }
{
    word == b"EXEC".as_slice()
        || word == b"NOEXEC".as_slice()
        || word == b"FOLLOW".as_slice()
        || word == b"NOFOLLOW".as_slice()
        || word == b"INTERCEPT".as_slice()
        || word == b"NOINTERCEPT".as_slice()
        || word == b"LOG_INPUT".as_slice()
        || word == b"NOLOG_INPUT".as_slice()
        || word == b"LOG_OUTPUT".as_slice()
        || word == b"NOLOG_OUTPUT".as_slice()
        || word == b"MAIL".as_slice()
        || word == b"NOMAIL".as_slice()
        || word == b"PASSWD".as_slice()
        || word == b"NOPASSWD".as_slice()
        || word == b"SETENV".as_slice()
        || word == b"NOSETENV".as_slice()
}

/// Returns whether the word is the name of a command's option.
pub fn is_option_name(word: &[u8]) -> bool
    ensures { result ≡ is_option_name word.now }
{
    word == b"ROLE".as_slice()
        || word == b"TYPE".as_slice()
        || word == b"APPARMOR_PROFILE".as_slice()
        || word == b"PRIVS".as_slice()
        || word == b"LIMITPRIVS".as_slice()
        || word == b"NOTBEFORE".as_slice()
        || word == b"NOTAFTER".as_slice()
        || word == b"TIMEOUT".as_slice()
        || word == b"CWD".as_slice()
        || word == b"CHROOT".as_slice()
}

/// Returns whether the word is a kind of digest.
pub fn is_digest_kind(word: &[u8]) -> bool
    ensures { result ≡ is_among digest_kinds word.now }
{
    word == b"sha224".as_slice()
        || word == b"sha256".as_slice()
        || word == b"sha384".as_slice()
        || word == b"sha512".as_slice()
}

/// Returns whether the word is `@include` or `@includedir`.
pub fn is_at_sign_include_word(word: &[u8]) -> bool
    ensures { result ≡ is_among at_include_words word.now }
{
    word == b"@include".as_slice() || word == b"@includedir".as_slice()
}

/// Returns whether the word begins an include.
pub fn is_include_word(word: &[u8]) -> bool
    ensures { result ≡ is_among include_words word.now }
{
    word == b"#include".as_slice()
        || word == b"#includedir".as_slice()
        || is_at_sign_include_word(word)
}

/// Returns whether the word is reserved: `ALL`, a tag (as `NOPASSWD`) or the name of an option (as `CWD`), by which no alias may be
/// defined (sudoers(5), Tag_Spec and Option_Spec).
pub fn is_reserved(word: &[u8]) -> bool
    ensures { result ≡ is_reserved word.now }
{
    word == b"ALL".as_slice() || is_tag(word) || is_option_name(word)
}

/// Returns whether `byte` can stand in an alias's name.
fn is_alias_byte(byte: u8) -> bool
    ensures { result ≡ is_alias_byte byte }
{
    is_upper(byte) || byte.is_ascii_digit() || byte == b'_'
}

/// Returns whether each byte of `bytes` can stand in an alias's name.
fn are_alias_bytes(bytes: &[u8]) -> bool
    ensures { result ≡ list_all is_alias_byte bytes.now }
{
    bytes.iter().all(|byte| is_alias_byte(*byte))
}

/// Returns whether the word can name an alias: an upper-case letter, and then upper-case letters, digits and `_` (sudoers(5),
/// Aliases).
pub fn is_name(word: &[u8]) -> bool
    ensures { result ≡ is_name word.now }
{
    match word {
        [first, rest @ ..] => is_upper(*first) && are_alias_bytes(rest),
        [] => false,
    }
}
