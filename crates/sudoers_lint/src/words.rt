//! Words of a text, and lists of names.

ghost use Rattle.std.specs.Prelude.{◌≡◌, IfOk};
ghost use Rattle.std.specs.List.{slice_split};
ghost use Rattle.sudoers_text.specs.Unit.{is_blank};
ghost use Rattle.sudoers_lint.specs.Names.{is_among_names, is_blank_or_comma, nonempty_pieces, texts_of_view, words_of_comment, words_of_value};

use std::alloc::{AllocError, Global};

/// Returns whether `byte` is a space or a tab.
fn is_blank(byte: u8) -> bool
    ensures { result ≡ is_blank byte }
{
    byte == b' ' || byte == b'\t'
}

/// Returns whether `byte` is a space, a tab or a comma.
fn is_blank_or_comma(byte: u8) -> bool
    ensures { result ≡ is_blank_or_comma byte }
{
    is_blank(byte) || byte == b','
}

/// Returns those of `pieces` that are not empty.
fn list_nonempty_pieces<'a>(alloc: Global, pieces: &[&'a [u8]]) -> Result<Vec<&'a [u8]>, AllocError>
    ensures { IfOk result (λ words. texts_of_view words.items ≡ nonempty_pieces (texts_of_view pieces.now)) }
{
    let mut words = Vec::new(alloc);
    for piece in pieces {
        if !piece.is_empty() {
            words.push(*piece)?;
        }
    }
    Ok(words)
}

/// Returns the pieces of `value` between blanks.
fn split_at_blanks(alloc: Global, value: &[u8]) -> Result<Vec<&[u8]>, AllocError>
    ensures { IfOk result (λ pieces. texts_of_view pieces.items ≡ slice_split is_blank value.now) }
{
    value.split(|b| is_blank(*b)).collect(alloc)
}

/// Returns the pieces of `text` between blanks and commas.
fn split_at_blanks_and_commas(alloc: Global, text: &[u8]) -> Result<Vec<&[u8]>, AllocError>
    ensures { IfOk result (λ pieces. texts_of_view pieces.items ≡ slice_split is_blank_or_comma text.now) }
{
    text.split(|b| is_blank_or_comma(*b)).collect(alloc)
}

/// Returns the words of a value, between blanks.
///
/// # Errors
///
/// Memory ran out.
pub fn list_words_of_value(alloc: Global, value: &[u8]) -> Result<Vec<&[u8]>, AllocError>
    ensures { IfOk result (λ words. texts_of_view words.items ≡ words_of_value value.now) }
{
    let pieces = split_at_blanks(alloc, value)?;
    list_nonempty_pieces(alloc, pieces.as_slice())
}

/// Returns the words of a comment, between blanks and commas.
///
/// # Errors
///
/// Memory ran out.
pub fn list_words_of_comment(alloc: Global, text: &[u8]) -> Result<Vec<&[u8]>, AllocError>
    ensures { IfOk result (λ words. texts_of_view words.items ≡ words_of_comment text.now) }
{
    let pieces = split_at_blanks_and_commas(alloc, text)?;
    list_nonempty_pieces(alloc, pieces.as_slice())
}

/// Returns whether `word` is one of `names`.
pub fn is_among_names(names: &[&[u8]], word: &[u8]) -> bool
    ensures { result ≡ is_among_names names.now word.now }
{
    for name in names {
        if *name == word {
            return true;
        }
    }
    false
}
