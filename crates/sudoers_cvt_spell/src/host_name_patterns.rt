//! Hosts as they are printed (sudoers(5), Host_List).

ghost use Rattle.std.specs.Prelude.{◌≡◌, ◌++◌, IfOk, OnOk};
ghost use Rattle.sudoers_cvt_spell.specs.internal.Fronts.{IsFront};
ghost use Rattle.sudoers_cvt_spell.specs.Hosts.{is_read_as_host_name, printed_host_name_pattern};

use crate::words_and_patterns::{append_escaped_pattern, insert_backslash_if_misread};
use std::alloc::{AllocError, Global};
use sudoers_grammar::{Atom, Kind, PatternSpelling, TokenWithText, parse_single_token_atom};
use sudoers_text::TokenKind;

/// Returns whether the word `text` is read as the name of a host.
#[tactic(auto, unfolding(sudoers_grammar::specs::Atom::atom_of_token))]
fn reads_as_host_name(alloc: Global, text: &[u8]) -> Result<bool, AllocError>
    ensures { IfOk result (λ reads. reads ≡ is_read_as_host_name text.now) }
{
    let word = TokenWithText {
        kind: TokenKind::Word,
        text,
        start: 0,
        stop: text.len(),
        last: true,
    };
    match parse_single_token_atom(alloc, Kind::Host, &word)? {
        Some(Atom::Host(_)) => Ok(true),
        _ => Ok(false),
    }
}

/// Appends the host with this pattern. A backslash stands before a first byte with which it would be read as something else.
///
/// # Errors
///
/// Memory ran out.
pub fn append_host_name_pattern(
    alloc: Global,
    out: &mut Vec<u8>,
    pattern: &[u8],
) -> Result<(), AllocError>
    ensures appended { OnOk result (out.new.items ≡ out.old.items ++ printed_host_name_pattern pattern.now) }
    ensures front { IsFront out.old.items out.new.items }
{
    let start = out.len();
    append_escaped_pattern(out, PatternSpelling::Host, pattern)?;
    let reads_else = !reads_as_host_name(alloc, &out[start..])?;
    insert_backslash_if_misread(out, start, reads_else)
}
