//! What to do about an error.

use crate::json_texts::make_text_value;
use crate::place::PlaceInPolicy;
use serde_json::{Value, json};
use std::alloc::{AllocError, Global};
use sudoers_explain::{Hint, spelling_of_hint, words_of_hint};
use sudoers_grammar::{Kind, alias_keyword_of_kind};
use sudoers_text::TextFault;
use sudoers_tree::{LoadFault, ReadFault};

/// An advice.
#[derive(Clone, Copy)]
pub enum Advice {
    /// The advice of a hint on a line that does not parse.
    OfHint(Hint),
    /// These words.
    Words(&'static str),
    /// At most so many definitions of a kind, as this, are read.
    FewerAliases(Kind),
}

/// An advice, and the place where to follow it.
#[derive(Clone, Copy)]
pub struct ErrorHint<'a> {
    pub advice: Advice,
    pub place: PlaceInPolicy<'a>,
}

impl Advice {
    /// Returns the words of the advice.
    fn make_words(self, alloc: Global) -> Result<Vec<u8>, AllocError> {
        match self {
            Advice::OfHint(hint) => {
                let mut text = Vec::from_slice(alloc, words_of_hint(hint).as_bytes())?;
                if let Some(spelling) = spelling_of_hint(hint) {
                    text.extend_from_slice(b" `")?;
                    text.extend_from_slice(spelling.as_bytes())?;
                    text.extend_from_slice(b"`")?;
                }
                Ok(text)
            }
            Advice::Words(words) => Vec::from_slice(alloc, words.as_bytes()),
            Advice::FewerAliases(kind) => {
                let mut text = Vec::from_slice(
                    alloc,
                    b"a policy has at most 4096 definitions of each kind, as ",
                )?;
                text.extend_from_slice(alias_keyword_of_kind(kind))?;
                Ok(text)
            }
        }
    }
}

impl ErrorHint<'_> {
    /// Returns the hint as a value.
    ///
    /// # Errors
    ///
    /// Memory ran out.
    pub fn to_value(&self, alloc: Global) -> Result<Value, AllocError> {
        let words = self.advice.make_words(alloc)?;
        json!(in alloc; {
            "place": self.place.to_value(alloc)?,
            "text": make_text_value(alloc, words.as_slice())?
        })
    }
}

/// Returns the advice for the error `fault`, if its line parses; nothing if there is none.
pub fn advice_of_fault(fault: &LoadFault) -> Option<Advice> {
    match fault {
        LoadFault::TooManyFiles => Some(Advice::Words("a policy has at most 256 files")),
        LoadFault::SameName { .. } => Some(Advice::Words(
            "give each file of the policy a name of its own",
        )),
        LoadFault::InFile { fault, .. } => advice_of_read_fault(fault),
        LoadFault::NoMemory => None,
    }
}

/// Returns the advice for the error `fault` of a file.
fn advice_of_read_fault(fault: &ReadFault) -> Option<Advice> {
    match fault {
        ReadFault::Text(fault) => advice_of_text_fault(*fault),
        ReadFault::Reserved { .. } => Some(Advice::Words("choose another name for the alias")),
        ReadFault::Duplicate { .. } => Some(Advice::Words("define each alias of a kind once")),
        ReadFault::TooMany { kind } => Some(Advice::FewerAliases(*kind)),
        ReadFault::NotLoaded { .. } => Some(Advice::Words(
            "put the file there, or remove the line",
        )),
        ReadFault::Twice { .. } => Some(Advice::Words("include each file once")),
        ReadFault::TooDeep { .. } => Some(Advice::Words(
            "files include one another at most 128 levels deep",
        )),
        ReadFault::Syntax { .. } | ReadFault::NoMemory => None,
    }
}

/// Returns the advice for the error `fault` of a text.
fn advice_of_text_fault(fault: TextFault) -> Option<Advice> {
    match fault {
        TextFault::TooLarge => Some(Advice::Words("a file has at most 1048576 bytes")),
        TextFault::LineTooLong { .. } => Some(Advice::Words(
            "a line has at most 65536 bytes, with the lines that continue it",
        )),
        TextFault::Nul { .. } => Some(Advice::Words("remove the byte: a policy is text")),
        TextFault::OpenContinuation => Some(Advice::Words(
            "remove the backslash, or write the line that goes on",
        )),
        TextFault::NoMemory => None,
    }
}
