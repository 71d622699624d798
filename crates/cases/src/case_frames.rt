//! The frames of cases.
//!
//! A case is one byte that names its subject, and a call. A call is one byte that says what is asked, the length of the body in
//! eight bytes (most significant first), and the body. A part is a length in eight bytes, and then the bytes. A body holds a text, or
//! parts, or parts and then further calls.

use std::alloc::{AllocError, Global};
use sudoers_grammar::Items;

/// What a case is about.
#[derive(Clone, Copy)]
pub enum CaseSubject {
    /// Texts and lines.
    Line,
    /// Patterns, networks, lists and requests.
    Match,
    /// People and their listings.
    People,
    /// Policies, editors and scripts.
    Edit,
    /// What the benchmark times.
    Work,
    /// The files of the disk.
    Disk,
}

impl CaseSubject {
    /// Returns the subject that `byte` names.
    fn from_subject_byte(byte: u8) -> Option<CaseSubject> {
        match byte {
            b'l' => Some(CaseSubject::Line),
            b'm' => Some(CaseSubject::Match),
            b'p' => Some(CaseSubject::People),
            b'e' => Some(CaseSubject::Edit),
            b'w' => Some(CaseSubject::Work),
            b'd' => Some(CaseSubject::Disk),
            _ => None,
        }
    }
}

/// What is asked, and of which bytes.
#[derive(Clone, Copy)]
pub struct CaseCall<'a> {
    /// The byte that says what is asked.
    pub asked: u8,
    pub body: &'a [u8],
}

/// A call about a subject.
#[derive(Clone, Copy)]
pub struct SubjectAndCall<'a> {
    /// `None` if no subject has the byte.
    pub subject: Option<CaseSubject>,
    pub call: CaseCall<'a>,
}

/// Splits the first case off `bytes`. `None` if they begin with no whole case.
pub fn split_first_case(bytes: &[u8]) -> Option<(SubjectAndCall<'_>, &[u8])> {
    let (subject, rest) = bytes.split_first()?;
    let (call, rest) = split_first_call(rest)?;
    let case = SubjectAndCall {
        subject: CaseSubject::from_subject_byte(*subject),
        call,
    };
    Some((case, rest))
}

/// Splits the first call off `bytes`. `None` if they begin with no whole call.
pub fn split_first_call(bytes: &[u8]) -> Option<(CaseCall<'_>, &[u8])> {
    let (asked, rest) = bytes.split_first()?;
    let (body, rest) = split_first_part(rest)?;
    let call = CaseCall {
        asked: *asked,
        body,
    };
    Some((call, rest))
}

/// Splits the first part off `bytes`. `None` if they begin with no whole part.
pub fn split_first_part(bytes: &[u8]) -> Option<(&[u8], &[u8])> {
    let (len, rest) = bytes.split_first_chunk::<8>()?;
    rest.split_at_checked(u64::from_be_bytes(*len) as usize)
}

/// Splits the first part off `bytes`: an empty part if they begin with no whole one.
pub fn split_first_part_or_empty(bytes: &[u8]) -> (&[u8], &[u8]) {
    split_first_part(bytes).unwrap_or((b"", b""))
}

/// Splits a number of eight bytes off `bytes`, the first highest: 0 if there are fewer.
pub fn split_eight_byte_number(bytes: &[u8]) -> (u64, &[u8]) {
    match bytes.split_first_chunk::<8>() {
        Some((number, rest)) => (u64::from_be_bytes(*number), rest),
        None => (0, bytes),
    }
}

/// Returns the words that parts are.
///
/// # Errors
///
/// Memory ran out.
pub fn words_of_parts(alloc: Global, bytes: &[u8]) -> Result<Vec<Items<u8>>, AllocError> {
    let mut words = Vec::new(alloc);
    let mut left = bytes;
    for _ in 0..bytes.len() {
        let Some((word, rest)) = split_first_part(left) else {
            break;
        };
        words.push(Items::from_slice(alloc, word)?)?;
        left = rest;
    }
    Ok(words)
}
