//! Words with a meaning of their own, for sudo 1.9.13 as Debian builds it.

ghost use Rattle.std.specs.Prelude.{◌≡◌, drop};
ghost use Rattle.sudoers_forms.specs.Words.{begins_blank, begins_with_first_word, begins_word_and_blank, is_at_include, is_command_word, is_comment_of_include, is_digest_kind, is_first_word, is_hash_include, is_known_option, is_option, is_tag_word, is_unknown_option};

use sudoers_grammar::begins_with_byte;
use sudoers_text::is_reserved;

/// Returns whether `word` is the name of an option that sudo knows.
pub fn is_known_option(word: &[u8]) -> bool
    ensures { result ≡ is_known_option word.now }
{
    word == b"ROLE".as_slice()
        || word == b"TYPE".as_slice()
        || word == b"NOTBEFORE".as_slice()
        || word == b"NOTAFTER".as_slice()
        || word == b"TIMEOUT".as_slice()
        || word == b"CWD".as_slice()
        || word == b"CHROOT".as_slice()
}

/// Returns whether `word` is the name of an option that sudo was built without.
pub fn is_unknown_option(word: &[u8]) -> bool
    ensures { result ≡ is_unknown_option word.now }
{
    word == b"APPARMOR_PROFILE".as_slice()
        || word == b"PRIVS".as_slice()
        || word == b"LIMITPRIVS".as_slice()
}

/// Returns whether `word` is the name of an option.
pub fn is_option(word: &[u8]) -> bool
    ensures { result ≡ is_option word.now }
{
    is_known_option(word) || is_unknown_option(word)
}

/// Returns whether `word` is a tag.
pub fn is_tag_word(word: &[u8]) -> bool
    ensures { result ≡ is_tag_word word.now }
{
    is_reserved(word) && word != b"ALL".as_slice() && !is_option(word)
}

/// Returns whether `word` is a kind of digest.
pub fn is_digest_kind(word: &[u8]) -> bool
    ensures { result ≡ is_digest_kind word.now }
{
    word == b"sha224".as_slice()
        || word == b"sha256".as_slice()
        || word == b"sha384".as_slice()
        || word == b"sha512".as_slice()
}

/// Returns whether `word` begins a command for sudo.
pub fn is_command_word(word: &[u8]) -> bool
    ensures { result ≡ is_command_word word.now }
{
    word == b"sudoedit".as_slice() || is_digest_kind(word)
}

/// Returns whether a line of Defaults or aliases begins with `word`.
pub fn is_first_word(word: &[u8]) -> bool
    ensures { result ≡ is_first_word word.now }
{
    word == b"Defaults".as_slice()
        || word == b"User_Alias".as_slice()
        || word == b"Runas_Alias".as_slice()
        || word == b"Host_Alias".as_slice()
        || word == b"Cmnd_Alias".as_slice()
        || word == b"Cmd_Alias".as_slice()
}

/// Returns whether `word` begins with a word with which a line of Defaults or aliases begins.
pub fn begins_with_first_word(word: &[u8]) -> bool
    ensures { result ≡ begins_with_first_word word.now }
{
    word.starts_with(b"Defaults")
        || word.starts_with(b"User_Alias")
        || word.starts_with(b"Runas_Alias")
        || word.starts_with(b"Host_Alias")
        || word.starts_with(b"Cmnd_Alias")
        || word.starts_with(b"Cmd_Alias")
}

/// Returns whether an include line begins with `word`, which begins with `@`.
pub fn is_at_include(word: &[u8]) -> bool
    ensures { result ≡ is_at_include word.now }
{
    word == b"@include".as_slice() || word == b"@includedir".as_slice()
}

/// Returns whether an include line begins with `word`, which begins with `#`.
pub fn is_hash_include(word: &[u8]) -> bool
    ensures { result ≡ is_hash_include word.now }
{
    word == b"#include".as_slice() || word == b"#includedir".as_slice()
}

/// Returns whether `text` begins with a blank.
fn begins_with_blank(text: &[u8]) -> bool
    ensures { result ≡ begins_blank text.now }
{
    begins_with_byte(b' ', text) || begins_with_byte(b'\t', text)
}

/// Returns whether `text` begins with `word` and a blank.
fn begins_with_word_and_blank(word: &[u8], text: &[u8]) -> bool
    ensures { result ≡ begins_word_and_blank word.now text.now }
{
    text.starts_with(word) && begins_with_blank(skip_bytes(word.len(), text))
}

/// Returns the bytes of `text` behind the first `size`.
fn skip_bytes(size: usize, text: &[u8]) -> &[u8]
    ensures { result.now ≡ drop size text.now }
{
    text.get(size..).unwrap_or(&[])
}

/// Returns whether the comment `text` begins like an include line.
pub fn is_comment_of_include(text: &[u8]) -> bool
    ensures { result ≡ is_comment_of_include text.now }
{
    begins_with_word_and_blank(b"#include", text)
        || begins_with_word_and_blank(b"#includedir", text)
}
