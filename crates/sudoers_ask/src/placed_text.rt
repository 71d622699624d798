//! Printed texts of a policy, and where they stand.

use std::alloc::{AllocError, Global};
use sudoers_cvt_spell::append_member;
use sudoers_grammar::Kind;
use sudoers_line_rows::Member;
use sudoers_list::{UserAndRunasDefaultNames, append_listed_command, append_place_on_walk_line};
use sudoers_match::CommandSettings;
use sudoers_tree::Policy;

/// Bytes of the walk: the number of their line there, and the bytes of the line from `start` up to, but not with, `stop`, all from 0. A
/// `stop` behind the line is its end.
#[derive(Clone, Copy)]
pub struct WalkPlace {
    pub line: usize,
    pub start: usize,
    pub stop: usize,
}

/// What stands at a place, as it is printed.
#[derive(Drop)]
pub struct PlacedText {
    pub place: WalkPlace,
    pub text: Vec<u8>,
}

/// Returns the place of the member `member` on the line with the number `line`.
pub fn place_of_member(line: usize, member: &Member<'_>) -> WalkPlace {
    WalkPlace {
        line,
        start: member.start,
        stop: member.stop,
    }
}

/// Returns the command `member` of the line with the number `line` as it is listed. What stands before it is `head`.
///
/// # Errors
///
/// Memory ran out.
pub fn make_placed_command(
    alloc: Global,
    line: usize,
    names: &UserAndRunasDefaultNames<'_>,
    head: &CommandSettings<'_>,
    member: &Member<'_>,
) -> Result<PlacedText, AllocError> {
    let mut text = Vec::new(alloc);
    append_listed_command(alloc, &mut text, names, head, member)?;
    let place = place_of_member(line, member);
    Ok(PlacedText { place, text })
}

/// Returns the member `member` of a list of the kind `kind` as it is printed. It stands on the line with the number `line`.
///
/// # Errors
///
/// Memory ran out.
pub fn make_placed_member(
    alloc: Global,
    line: usize,
    kind: Kind,
    member: &Member<'_>,
) -> Result<PlacedText, AllocError> {
    let mut text = Vec::new(alloc);
    append_member(alloc, &mut text, false, kind, member)?;
    let place = place_of_member(line, member);
    Ok(PlacedText { place, text })
}

/// Appends to `out` the text of `before` and `behind`, which stands at `place`.
///
/// # Errors
///
/// Memory ran out.
pub fn append_joined_text(
    alloc: Global,
    out: &mut Vec<PlacedText>,
    place: WalkPlace,
    before: &[u8],
    behind: &[u8],
) -> Result<(), AllocError> {
    let mut text = Vec::from_slice(alloc, before)?;
    text.extend_from_slice(behind)?;
    out.push(PlacedText { place, text })?;
    Ok(())
}

/// Appends to `out` a line for each of `texts`: four blanks, its place in `policy`, and the text.
///
/// # Errors
///
/// Memory ran out.
pub fn append_placed_lines(
    alloc: Global,
    out: &mut Vec<u8>,
    policy: &Policy,
    texts: &[PlacedText],
) -> Result<(), AllocError> {
    for text in texts {
        out.extend_from_slice(b"    ")?;
        append_place_on_walk_line(alloc, out, policy, text.place.line, text.place.start)?;
        out.extend_from_slice(b": ")?;
        out.extend_from_slice(text.text.as_slice())?;
        out.extend_from_slice(b"\n")?;
    }
    Ok(())
}
