//! Wishes as they are written in a command line.

use crate::wish::{LinePlace, Wish};
use std::alloc::{AllocError, AllocFailed, Global};
use sudoers_edit_script::Text;
use sudoers_grammar::Kind;
use thiserror::Error;

/// What holds for all wishes of lines of a call.
#[derive(Clone, Copy, Debug)]
pub struct WishOptions<'a> {
    /// A new line goes after the line with this text.
    pub after: Option<&'a str>,
    /// A new line goes before the line with this text.
    pub before: Option<&'a str>,
    /// Whether an include line may be removed.
    pub even_includes: bool,
    /// Whether members may be removed that deny a user something.
    pub even_denials: bool,
}

/// A part of a wish.
#[derive(Clone, Copy, Debug)]
pub enum WishPart {
    Alias,
    Member,
    File,
    Text,
    User,
}

/// Why a text is no wish.
#[derive(Debug, Drop, Error)]
pub enum WishFault {
    /// The first word begins no wish.
    #[error("UnknownWish")]
    UnknownWish,
    /// The second word is no kind of aliases.
    #[error("UnknownKind")]
    UnknownKind,
    /// This part is not there.
    #[error("MissingPart: {0:?}")]
    MissingPart(WishPart),
    /// A growth of memory was refused.
    #[error("NoMemory")]
    NoMemory,
}

impl From<AllocError> for WishFault {
    fn from(_error: AllocError) -> WishFault {
        WishFault::NoMemory
    }
}

impl<T: Drop> From<AllocFailed<T>> for WishFault {
    fn from(_error: AllocFailed<T>) -> WishFault {
        WishFault::NoMemory
    }
}

/// Reads one wish: `has KIND ALIAS MEMBER`, `lacks KIND ALIAS MEMBER`, `has-line FILE TEXT`, `lacks-line FILE TEXT` or `no-user NAME`. One
/// blank stands between two parts, and the last part goes to the end.
///
/// # Errors
///
/// [`WishFault`], of the first part that is wrong.
pub fn read_wish(alloc: Global, text: &[u8], options: &WishOptions<'_>) -> Result<Wish, WishFault> {
    let (word, rest) = split_at_first_blank(text);
    let rest = rest.unwrap_or(b"");
    if word == b"has".as_slice() {
        let (kind, alias, member) = read_member_parts(alloc, rest)?;
        Ok(Wish::HasMember {
            kind,
            alias,
            member,
        })
    } else if word == b"lacks".as_slice() {
        let (kind, alias, member) = read_member_parts(alloc, rest)?;
        Ok(Wish::LacksMember {
            kind,
            alias,
            member,
        })
    } else if word == b"has-line".as_slice() {
        let (file, text) = read_line_parts(alloc, rest)?;
        let place = make_line_place(alloc, options)?;
        Ok(Wish::HasLine { file, text, place })
    } else if word == b"lacks-line".as_slice() {
        let (file, text) = read_line_parts(alloc, rest)?;
        let even_includes = options.even_includes;
        Ok(Wish::LacksLine {
            file,
            text,
            even_includes,
        })
    } else if word == b"no-user".as_slice() {
        let user = read_user_part(alloc, rest)?;
        let even_denials = options.even_denials;
        Ok(Wish::NoUser { user, even_denials })
    } else {
        Err(WishFault::UnknownWish)
    }
}

/// Reads the part `NAME`.
fn read_user_part(alloc: Global, text: &[u8]) -> Result<Text, WishFault> {
    if text.is_empty() {
        return Err(WishFault::MissingPart(WishPart::User));
    }
    Ok(Text::from_slice(alloc, text)?)
}

/// Reads the parts `KIND ALIAS MEMBER`.
fn read_member_parts(alloc: Global, text: &[u8]) -> Result<(Kind, Text, Text), WishFault> {
    let (word, rest) = split_at_first_blank(text);
    let Some(kind) = kind_of_word(word) else {
        return Err(WishFault::UnknownKind);
    };
    let (alias, member) = split_at_first_blank(rest.unwrap_or(b""));
    if alias.is_empty() {
        return Err(WishFault::MissingPart(WishPart::Alias));
    }
    match member {
        None | Some([]) => Err(WishFault::MissingPart(WishPart::Member)),
        Some(member) => Ok((
            kind,
            Text::from_slice(alloc, alias)?,
            Text::from_slice(alloc, member)?,
        )),
    }
}

/// Reads the parts `FILE TEXT`. The text may have no bytes.
fn read_line_parts(alloc: Global, text: &[u8]) -> Result<(Text, Text), WishFault> {
    let (file, line) = split_at_given_byte(text, offset_of_open_blank(text));
    if file.is_empty() {
        return Err(WishFault::MissingPart(WishPart::File));
    }
    match line {
        None => Err(WishFault::MissingPart(WishPart::Text)),
        Some(line) => Ok((
            file_name_of_word(alloc, file)?,
            Text::from_slice(alloc, line)?,
        )),
    }
}

/// Returns the kind of aliases with the word `word`.
fn kind_of_word(word: &[u8]) -> Option<Kind> {
    if word == b"user".as_slice() {
        Some(Kind::User)
    } else if word == b"runas".as_slice() {
        Some(Kind::Runas)
    } else if word == b"host".as_slice() {
        Some(Kind::Host)
    } else if word == b"cmnd".as_slice() {
        Some(Kind::Cmnd)
    } else {
        None
    }
}

/// Returns where new lines go.
fn make_line_place(alloc: Global, options: &WishOptions<'_>) -> Result<LinePlace, AllocError> {
    if let Some(text) = options.after {
        return Ok(LinePlace::After(Text::from_slice(alloc, text.as_bytes())?));
    }
    if let Some(text) = options.before {
        return Ok(LinePlace::Before(Text::from_slice(alloc, text.as_bytes())?));
    }
    Ok(LinePlace::End)
}

/// Returns the bytes of `text` before its first blank, and those behind it, if there is one.
fn split_at_first_blank(text: &[u8]) -> (&[u8], Option<&[u8]>) {
    split_at_given_byte(text, text.iter().position(|byte| *byte == b' '))
}

/// Returns the bytes of `text` before the byte `at`, and those behind it; all bytes if there is no such byte.
fn split_at_given_byte(text: &[u8], at: Option<usize>) -> (&[u8], Option<&[u8]>) {
    let Some(at) = at else {
        return (text, None);
    };
    let (front, rest) = text.split_at(at.min(text.len()));
    match rest.split_first() {
        Some((_, behind)) => (front, Some(behind)),
        None => (front, None),
    }
}

/// Returns the number of the first blank of `text` that has no backslash before it.
fn offset_of_open_blank(text: &[u8]) -> Option<usize> {
    let mut before = b'/';
    for (at, byte) in text.iter().enumerate() {
        if *byte == b' ' && before != b'\\' {
            return Some(at);
        }
        before = *byte;
    }
    None
}

/// Returns the name of a file that is written as `word`: a backslash before a blank does not belong to it.
fn file_name_of_word(alloc: Global, word: &[u8]) -> Result<Text, AllocError> {
    let mut name = Text::new(alloc);
    for (at, byte) in word.iter().enumerate() {
        if *byte != b'\\' || word.get(at.saturating_add(1)) != Some(&b' ') {
            name.push(*byte)?;
        }
    }
    Ok(name)
}
