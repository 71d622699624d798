//! The text of a filter.

ghost use Rattle.std.specs.Prelude.{◌≡◌, ◌==◌, ◌⊎◌, map, drop, take, length, Ok, Err, IfOk, IfErr};
ghost use Rattle.std.specs.List.{slice_split};
ghost use Rattle.sudoers_grammar.specs.Number.{parts_around_first_byte};
ghost use Rattle.sudoers_cvt_rewrite.specs.declared.filter_text.FilterFault.TheVariants.{NoMemory};
ghost use Rattle.sudoers_cvt_rewrite.specs.FilterText.{is_blank, text_without_leading_blanks, text_without_trailing_blanks, text_without_outer_blanks, filter_key_named, filter_pair_of_piece, filter_pairs_of_pieces, is_same_key, values_with_filter_key, filter_read_from_text};
ghost use Rattle.sudoers_cvt_rewrite.specs.internal.FilterSeen.{text_parts_of_view, filter_pair_of_view, filter_pair_result_of_view};

use crate::filter::Filter;
use std::alloc::{AllocError, AllocFailed, Global};
use sudoers_grammar::Items;
use thiserror::Error;

/// Why the text of a filter is refused. The first bad pair counts.
#[derive(Clone, Copy, Debug, PartialEq, Eq, Error)]
pub enum FilterFault {
    /// A pair has no `=`, or its key is none of `user`, `group` and `host`.
    #[error("BadKey")]
    BadKey,
    /// A value is empty.
    #[error("Empty")]
    Empty,
    /// Memory ran out.
    #[error("NoMemory")]
    NoMemory,
}

impl From<AllocError> for FilterFault {
    ghost use Rattle.std.specs.Prelude.{◌≡◌};
    ghost use Rattle.sudoers_cvt_rewrite.specs.declared.filter_text.FilterFault.TheVariants.{NoMemory};

    ghost from_gives = { λ _ e. e ≡ NoMemory };

    fn from(_: AllocError) -> FilterFault {
        FilterFault::NoMemory
    }
}

impl<T: Drop> From<AllocFailed<T>> for FilterFault {
    ghost use Rattle.std.specs.Prelude.{◌≡◌};
    ghost use Rattle.sudoers_cvt_rewrite.specs.declared.filter_text.FilterFault.TheVariants.{NoMemory};

    ghost from_gives = { λ _ e. e ≡ NoMemory };

    fn from(_: AllocFailed<T>) -> FilterFault {
        FilterFault::NoMemory
    }
}

/// What a value names.
#[derive(Clone, Copy)]
pub enum FilterKey {
    User,
    Group,
    Host,
}

/// A key and its value.
#[derive(Clone, Copy)]
struct FilterPair<'a> {
    key: FilterKey,
    value: &'a [u8],
}

fn is_blank(byte: u8) -> bool
    ensures { result ≡ is_blank byte }
{
    byte == b' ' || byte == b'\t'
}

/// Returns `text` without the blanks that it begins with.
fn drop_leading_blanks(text: &[u8]) -> &[u8]
    ensures { result.now ≡ text_without_leading_blanks text.now }
{
    for (i, byte) in text.iter().enumerate() {
        if !is_blank(*byte) {
            return &text[i..];
        }
    }
    &[]
}

/// Returns `text` without the blanks that it ends with.
fn drop_trailing_blanks(text: &[u8]) -> &[u8]
    ensures { result.now ≡ text_without_trailing_blanks text.now }
{
    let mut n = text.len();
    while n > 0 && is_blank(text[n - 1]) {
        n -= 1;
    }
    &text[..n]
}

/// Returns `text` without the blanks around it.
fn drop_surrounding_blanks(text: &[u8]) -> &[u8]
    ensures { result.now ≡ text_without_outer_blanks text.now }
{
    drop_trailing_blanks(drop_leading_blanks(text))
}

/// Returns the bytes before the first such byte, and those after it.
fn split_at_first_such_byte(byte: u8, text: &[u8]) -> Option<(&[u8], &[u8])>
    ensures { text_parts_of_view result ≡ parts_around_first_byte byte text.now }
{
    for (i, b) in text.iter().enumerate() {
        if *b == byte {
            return Some((&text[..i], &text[i + 1..]));
        }
    }
    None
}

fn filter_key_of_word(word: &[u8]) -> Option<FilterKey>
    ensures { result ≡ filter_key_named word.now }
{
    if word == b"user".as_slice() {
        Some(FilterKey::User)
    } else if word == b"group".as_slice() {
        Some(FilterKey::Group)
    } else if word == b"host".as_slice() {
        Some(FilterKey::Host)
    } else {
        None
    }
}

/// Returns the pair that `piece` says.
fn read_filter_pair(piece: &[u8]) -> Result<FilterPair<'_>, FilterFault>
    ensures { filter_pair_result_of_view result ≡ filter_pair_of_piece piece.now }
{
    let Some((word, text)) = split_at_first_such_byte(b'=', piece) else {
        return Err(FilterFault::BadKey);
    };
    let Some(key) = filter_key_of_word(drop_surrounding_blanks(word)) else {
        return Err(FilterFault::BadKey);
    };
    let value = drop_surrounding_blanks(text);
    if value.is_empty() {
        return Err(FilterFault::Empty);
    }
    Ok(FilterPair { key, value })
}

/// Returns the pairs that stand between the commas of `text`.
fn read_filter_pairs(alloc: Global, text: &[u8]) -> Result<Vec<FilterPair<'_>>, FilterFault>
    ensures pairs { IfOk result (λ pairs. filter_pairs_of_pieces (slice_split (λ b. b == 44) text.now) ≡ Ok (map filter_pair_of_view pairs.items)) }
    ensures fault { IfErr result (λ fault. (fault ≡ NoMemory) ⊎ (filter_pairs_of_pieces (slice_split (λ b. b == 44) text.now) ≡ Err fault)) }
{
    let mut pairs = Vec::new(alloc);
    for piece in text.split(|byte| *byte == b',') {
        pairs.push(read_filter_pair(piece)?)?;
    }
    Ok(pairs)
}

fn is_same_key(a: FilterKey, b: FilterKey) -> bool
    ensures { result ≡ is_same_key a b }
{
    matches!(
        (a, b),
        (FilterKey::User, FilterKey::User)
            | (FilterKey::Group, FilterKey::Group)
            | (FilterKey::Host, FilterKey::Host)
    )
}

/// Returns the values of the pairs that have this key.
fn filter_values_of_key(
    alloc: Global,
    key: FilterKey,
    pairs: &[FilterPair<'_>],
) -> Result<Items<Items<u8>>, AllocError>
    ensures { IfOk result (λ values. values ≡ values_with_filter_key key (map filter_pair_of_view pairs.now)) }
{
    let mut values = Items::new(alloc);
    for pair in pairs {
        if is_same_key(key, pair.key) {
            values.push(Items::from_slice(alloc, pair.value)?)?;
        }
    }
    Ok(values)
}

/// Returns the filter that `text` says: pairs `key=value` with commas between them, blanks around each part (cvtsudoers(1), -m).
///
/// # Errors
///
/// `BadKey`, `Empty`: the first bad pair is so. `NoMemory`: memory ran out.
pub fn read_filter(alloc: Global, text: &[u8]) -> Result<Filter, FilterFault>
    ensures filter { IfOk result (λ filter. filter_read_from_text text.now ≡ Ok filter) }
    ensures fault { IfErr result (λ fault. (fault ≡ NoMemory) ⊎ (filter_read_from_text text.now ≡ Err fault)) }
{
    let pairs = read_filter_pairs(alloc, text)?;
    Ok(Filter {
        users: filter_values_of_key(alloc, FilterKey::User, pairs.as_slice())?,
        groups: filter_values_of_key(alloc, FilterKey::Group, pairs.as_slice())?,
        hosts: filter_values_of_key(alloc, FilterKey::Host, pairs.as_slice())?,
    })
}
