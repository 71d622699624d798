//! Texts that are part of a line, or made of one.

ghost use Rattle.std.specs.Prelude.{◌≡◌, ◌∷◌, ◌++◌, IfOk};

use std::alloc::{AllocError, Global};
use std::borrow::CowSlice;
use std::marker::Model;

/// Bytes that stand in a line, or that are made of what stands there. Contracts see the bytes.
#[derive(Drop)]
pub struct TokenText<'a> {
    bytes: CowSlice<'a, u8>,
}

impl<'a> Model for TokenText<'a> {
    ghost use Rattle.std.specs.Prelude.{ℕ, List};
    ghost use Rattle.std.specs.Cow.{cow_slice_items};

    ghost Value = { List ℕ };

    ghost view = { λ text. cow_slice_items text.bytes };
}

impl<'a> TokenText<'a> {
    /// Returns `bytes` where they stand, without taking memory.
    pub fn from_slice(bytes: &'a [u8]) -> Self
        ensures { result ≡ bytes.now }
    {
        TokenText {
            bytes: CowSlice::Borrowed(bytes),
        }
    }

    /// Returns `bytes` as a text.
    pub fn from_vec(bytes: Vec<u8>) -> Self
        ensures { result ≡ bytes.items }
    {
        TokenText {
            bytes: CowSlice::Owned(bytes),
        }
    }

    /// Returns the bytes.
    pub fn as_slice(&self) -> &[u8]
        ensures { result.now ≡ self.now }
    {
        self.bytes.as_slice()
    }

    /// Returns a copy of the text that stands in no line.
    ///
    /// # Errors
    ///
    /// Memory ran out.
    pub fn to_owned_text<'b>(&self, alloc: Global) -> Result<TokenText<'b>, AllocError>
        ensures { IfOk result (λ text. text ≡ self.now) }
    {
        Ok(TokenText::from_vec(Vec::from_slice(alloc, self.as_slice())?))
    }

    /// Returns the text with a blank and the bytes `more` behind it.
    ///
    /// # Errors
    ///
    /// Memory ran out.
    pub fn join_with_blank(self, alloc: Global, more: &[u8]) -> Result<Self, AllocError>
        ensures { IfOk result (λ text. text ≡ self.entry ++ 32 ∷ more.now) }
    {
        let mut bytes = match self.bytes {
            CowSlice::Borrowed(bytes) => Vec::from_slice(alloc, bytes)?,
            CowSlice::Owned(bytes) => bytes,
        };
        bytes.push(b' ')?;
        bytes.extend_from_slice(more)?;
        Ok(TokenText::from_vec(bytes))
    }
}
