//! What was not decided in an answer, as text.

ghost use Rattle.sudoers_match.specs.Default.{IsRunasDefault};

use crate::asked_question::AskedQuestion;
use crate::question::CommandQuestion;
use crate::same::arguments_of_words;
use crate::user_answer::{UserAnswer, make_user_request};
use std::alloc::{AllocError, Global};
use sudoers_cvt_spell::append_member;
use sudoers_grammar::Items;
use sudoers_line_rows::{AtomRow, MemberRow, Tables};
use sudoers_list::append_place_on_walk_line;
use sudoers_match::{CommandSpellings, SpelledCommandListKind};
use sudoers_match_list::MemberKind;
use sudoers_match_member::CommandLine;
use sudoers_tree::{Policy, base_name_of_path};
use sudoers_undecided::{UndecidedMember, WhyUndecided, list_undecided_members};

/// Returns what is printed behind a member that was not decided.
fn words_of_reason(reason: WhyUndecided) -> &'static [u8] {
    match reason {
        WhyUndecided::Digest => b"the digest of the file is not compared",
        WhyUndecided::Netgroup => b"netgroups are not looked up",
        WhyUndecided::NonUnixGroup => b"non-Unix groups are not looked up",
        WhyUndecided::Network => b"no interface of the host is named",
        WhyUndecided::OtherPath => b"both paths may be one file",
    }
}

/// Returns the members that were not decided in `answer`, which is that of the user `name` to `asked`, and could have changed it, by lines
/// and by places in a line. Where the command has other spellings, the members of each are there.
///
/// # Errors
///
/// Memory ran out.
pub fn list_undecided_members_of_answer<'a>(
    alloc: Global,
    asked: &AskedQuestion<'a>,
    name: &[u8],
    answer: &UserAnswer<'a>,
) -> Result<Vec<UndecidedMember<'a>>, AllocError>
    requires { IsRunasDefault asked.now.walk answer.now.request.who answer.now.default.now }
{
    if !asked.is_open {
        return Ok(Vec::new(alloc));
    }
    let walk = &asked.walk;
    let mut members = list_undecided_members(alloc, walk, &answer.request, answer.default)?;
    if asked.command.others.as_slice().is_empty() {
        return Ok(members);
    }
    for other in asked.command.others.as_slice() {
        let more = list_undecided_members_of_spelling(alloc, asked, name, other)?;
        members.extend_from_slice(more.as_slice())?;
    }
    keep_members_without_match(alloc, &asked.command, members)
}

/// Returns `words` with `path` in place of the first.
fn make_words_with_path(
    alloc: Global,
    path: &[u8],
    words: &[Items<u8>],
) -> Result<Vec<Items<u8>>, AllocError> {
    let mut spelled = Vec::new(alloc);
    spelled.push(Items::from_slice(alloc, path)?)?;
    for word in arguments_of_words(words) {
        spelled.push(Items::from_slice(alloc, word.as_slice())?)?;
    }
    Ok(spelled)
}

/// Returns the undecided members where the user `name` asks for the spelling `other` of the command.
fn list_undecided_members_of_spelling<'a>(
    alloc: Global,
    asked: &AskedQuestion<'a>,
    name: &[u8],
    other: &CommandLine,
) -> Result<Vec<UndecidedMember<'a>>, AllocError> {
    let words = make_words_with_path(alloc, other.path.as_slice(), asked.question.words)?;
    let question = CommandQuestion {
        words: words.as_slice(),
        ..*asked.question
    };
    // The words are those of a request that was made, so its one fault is want of memory.
    let walk = &asked.walk;
    let Ok(made) = make_user_request(alloc, walk, true, asked.people, name, &question) else {
        return Err(AllocError);
    };
    list_undecided_members(alloc, walk, &made.request, made.default)
}

/// Returns those of `members` that match no spelling of `command`, by lines and by places in a line.
fn keep_members_without_match<'a>(
    alloc: Global,
    command: &CommandSpellings,
    members: Vec<UndecidedMember<'a>>,
) -> Result<Vec<UndecidedMember<'a>>, AllocError> {
    let mut kept = Vec::new(alloc);
    for undecided in members.as_slice() {
        if undecided.reason != WhyUndecided::OtherPath
            || !SpelledCommandListKind::hits(&undecided.member.atom, command)
        {
            kept.push(*undecided)?;
        }
    }
    kept.sort_by_key(|undecided| (undecided.line, undecided.member.start))?;
    Ok(kept)
}

/// Appends to `out` a line for each of `undecided`: `prefix`, its place, its text, and why it was not decided. A member that stands there
/// twice has one line.
///
/// # Errors
///
/// Memory ran out.
pub fn append_undecided_lines(
    alloc: Global,
    out: &mut Vec<u8>,
    policy: &Policy,
    undecided: &[UndecidedMember<'_>],
    prefix: &[u8],
) -> Result<(), AllocError> {
    let mut before: Option<UndecidedMember<'_>> = None;
    for member in undecided {
        if !is_of_same_place(&before, member) {
            append_undecided_line(alloc, out, policy, member, prefix)?;
        }
        before = Some(*member);
    }
    Ok(())
}

/// Returns whether `before` is a member that stands where `member` stands.
pub fn is_of_same_place(
    before: &Option<UndecidedMember<'_>>,
    member: &UndecidedMember<'_>,
) -> bool {
    match before {
        Some(before) => { before.line == member.line && before.member.start == member.member.start }
        None => false,
    }
}

/// Appends the line of a member that was not decided.
fn append_undecided_line(
    alloc: Global,
    out: &mut Vec<u8>,
    policy: &Policy,
    member: &UndecidedMember<'_>,
    prefix: &[u8],
) -> Result<(), AllocError> {
    out.extend_from_slice(b"not decided: ")?;
    out.extend_from_slice(prefix)?;
    append_place_on_walk_line(alloc, out, policy, member.line, member.member.start)?;
    out.extend_from_slice(b": ")?;
    append_member(alloc, out, false, member.kind, &member.member)?;
    out.extend_from_slice(b": ")?;
    out.extend_from_slice(words_of_reason(member.reason))?;
    out.extend_from_slice(b"\n")
}

/// Appends to `out` the lines of what was not decided in `answer`, which is that of the user `name` to `asked`, with his name before each.
///
/// # Errors
///
/// Memory ran out.
pub fn append_undecided_lines_of_user<'a>(
    alloc: Global,
    out: &mut Vec<u8>,
    policy: &Policy,
    asked: &AskedQuestion<'a>,
    name: &[u8],
    answer: &UserAnswer<'a>,
) -> Result<(), AllocError>
    requires { IsRunasDefault asked.now.walk answer.now.request.who answer.now.default.now }
{
    let undecided = list_undecided_members_of_answer(alloc, asked, name, answer)?;
    let mut prefix = Vec::from_slice(alloc, name)?;
    prefix.extend_from_slice(b": ")?;
    append_undecided_lines(alloc, out, policy, undecided.as_slice(), prefix.as_slice())
}
