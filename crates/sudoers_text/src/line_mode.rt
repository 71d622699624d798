//! How a line is read, by what it begins with.

ghost use Rattle.std.specs.Prelude.{◌≡◌};
ghost use Rattle.sudoers_text.specs.Word.{is_among};
ghost use Rattle.sudoers_text.specs.LineMode.{leading_word_of_bytes, words_mode_keywords, begins_hash_include, mode_by_line_start, line_mode};
ghost use Rattle.sudoers_text.specs.internal.Mode.{has_first_byte_of_mode_word};

use crate::part::{ByteRunKind, leading_run_len};
use crate::text_units::is_hash_include_tail;
use crate::token::Mode;
use crate::token_lengths::begins_defaults;
use crate::word::is_at_sign_include_word;

/// Returns the word with which the bytes begin.
fn leading_word_of(bytes: &[u8]) -> &[u8]
    ensures { result.now ≡ leading_word_of_bytes bytes.now }
{
    &bytes[..leading_run_len(ByteRunKind::Word, bytes)]
}

/// Returns whether the word begins an include, or a line of aliases of users, runas users or hosts.
fn is_words_mode_keyword(word: &[u8]) -> bool
    ensures { result ≡ is_among words_mode_keywords word.now }
{
    word == b"User_Alias".as_slice()
        || word == b"Runas_Alias".as_slice()
        || word == b"Host_Alias".as_slice()
        || is_at_sign_include_word(word)
}

/// Returns whether `#include` or `#includedir` begins the bytes, with a path behind it.
fn begins_hash_include(bytes: &[u8]) -> bool
    ensures { result ≡ begins_hash_include bytes.now }
{
    match bytes {
        [b'#', rest @ ..] => is_hash_include_tail(rest),
        _ => false,
    }
}

/// Returns whether the bytes begin with the first byte of a word that chooses a mode.
#[inline(always)]
fn begins_with_byte_of_mode_word(bytes: &[u8]) -> bool
    ensures { result ≡ has_first_byte_of_mode_word bytes.now }
{
    matches!(bytes, [b'#' | b'@' | b'D' | b'H' | b'R' | b'U', ..])
}

/// Returns the mode of a line that begins so, blanks and continuations aside. Most lines tell it by their first byte.
#[tactic(auto, using(crate::proofs::FirstBytes::line_with_other_first_byte_is_of_commands))]
fn mode_of_line_start(bytes: &[u8]) -> Mode
    ensures { result ≡ mode_by_line_start bytes.now }
{
    if !begins_with_byte_of_mode_word(bytes) {
        Mode::Commands
    } else if begins_defaults(bytes) {
        Mode::Parameters
    } else if begins_hash_include(bytes) || is_words_mode_keyword(leading_word_of(bytes)) {
        Mode::Words
    } else {
        Mode::Commands
    }
}

/// Returns the mode in which a line is read: `Defaults` lines by parameters; includes and the aliases of users, runas users and hosts by
/// words; aliases of commands, user specifications and all others as commands (sudoers(5), SUDOERS FILE FORMAT).
#[tactic(auto, unfolding(crate::specs::LineMode::line_mode))]
pub fn choose_line_mode(line: &[u8]) -> Mode
    ensures { result ≡ line_mode line.now }
{
    mode_of_line_start(&line[leading_run_len(ByteRunKind::Gap, line)..])
}
