//! Reading of bundles.

ghost use Rattle.std.specs.Prelude.{◌≡◌, ◌⊎◌, ◌<◌, ℕ, length, IfOk, MatchOption, MatchResult, None, Some, Ok, Err};
ghost use Rattle.sudoers_bundle.specs.Bundle.{named_file_and_rest, files_of_bundle_text, first_file_of_bundle, file_after_header_mark};
ghost use Rattle.sudoers_bundle.specs.declared.fault.BundleFault.TheVariants.{BadFile, NoMemory};

use crate::fault::BundleFault;
use crate::header_parts::{MARK, parse_short_decimal, split_around_byte};
use std::alloc::{AllocError, Global};
use sudoers_tree::{Items, NamedFile};

/// Reads the bundle `text`. Returns its files in their order.
///
/// # Errors
///
/// `BadFile`: the first file that has no right header, or fewer bytes than that says. `NoMemory`: memory ran out.
#[tactic(auto, using(crate::proofs::FileLemmas::whole_text_is_unread_at_start, crate::proofs::FileLemmas::reading_next_file_keeps_unread_rest, crate::proofs::FileLemmas::broken_rest_is_fault_of_next_number, crate::proofs::FileLemmas::empty_rest_ends_with_files_read, crate::proofs::FileLemmas::rest_after_first_file_is_shorter))]
pub fn read_bundle(alloc: Global, text: &[u8]) -> Result<Vec<NamedFile>, BundleFault>
    ensures { MatchResult result (λ files. files_of_bundle_text text.now ≡ Ok files.items)
        (λ fault. (fault ≡ NoMemory) ⊎ ((file : ℕ) × (fault ≡ BadFile file) × (files_of_bundle_text text.now ≡ Err file))) }
{
    let mut files = Vec::new(alloc);
    let mut rest = text;
    while !rest.is_empty() {
        let Some((file, behind)) = parse_first_file_of_bundle(alloc, rest)? else {
            return Err(BundleFault::BadFile {
                file: files.len() + 1,
            });
        };
        files.push(file)?;
        rest = behind;
    }
    Ok(files)
}

/// Returns the first file of `text`, and what comes after it.
fn parse_first_file_of_bundle(
    alloc: Global,
    text: &[u8],
) -> Result<Option<(NamedFile, &[u8])>, AllocError>
    ensures { IfOk result (λ found. MatchOption found (first_file_of_bundle text.now ≡ None) (λ parts. first_file_of_bundle text.now ≡ Some (parts.0, parts.1.now))) }
{
    let Some((line, bytes)) = split_around_byte(b'\n', text) else {
        return Ok(None);
    };
    if !line.starts_with(MARK) {
        return Ok(None);
    }
    parse_file_after_header_mark(alloc, &line[MARK.len()..], bytes)
}

/// Returns the file of a header, of which `rest` stands after the mark, and of the bytes after it, and what comes after the file.
fn parse_file_after_header_mark<'a>(
    alloc: Global,
    rest: &'a [u8],
    bytes: &'a [u8],
) -> Result<Option<(NamedFile, &'a [u8])>, AllocError>
    ensures { IfOk result (λ found. MatchOption found (file_after_header_mark rest.now bytes.now ≡ None) (λ parts. file_after_header_mark rest.now bytes.now ≡ Some (parts.0, parts.1.now))) }
{
    let Some((word, name)) = split_around_byte(b' ', rest) else {
        return Ok(None);
    };
    let Some(count) = parse_short_decimal(alloc, word)? else {
        return Ok(None);
    };
    if name.is_empty() || count > bytes.len() {
        return Ok(None);
    }
    let (front, behind) = bytes.split_at(count);
    let file = NamedFile {
        name: Items::from_slice(alloc, name)?,
        bytes: Items::from_slice(alloc, front)?,
    };
    Ok(Some((file, behind)))
}
