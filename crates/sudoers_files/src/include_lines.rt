//! The lines of a file that lead somewhere.

ghost use Rattle.std.specs.Prelude.{◌≡◌, ◌++◌, [], ℕ, List, Option, None, IfOk, OnOk};
ghost use Rattle.sudoers_text.specs.Cut.{cut_outcome_of_text};
ghost use Rattle.sudoers_tree.specs.declared.include_leads.Lead.{Lead as LeadOf};
ghost use Rattle.sudoers_tree.specs.Lead.{include_lead_of_line};
ghost use Rattle.sudoers_files.specs.Included.{names_from_include_leads_of_lines, lines_of_cut_or_none};

use std::alloc::{AllocError, Global};
use sudoers_text::{Lines, TextFault, cut};
use sudoers_tree::{Items, leads, may_include_files};

/// Returns those lines of the file `name` with the bytes `bytes` that lead somewhere. If the bytes cannot be cut into lines, returns none.
///
/// # Errors
///
/// Memory ran out.
pub fn cut_include_lines_or_none(
    alloc: Global,
    name: &[u8],
    bytes: &[u8],
) -> Result<Vec<Items<u8>>, AllocError>
    ensures { (names_of : Option LeadOf → List (List ℕ)) → names_of None ≡ []
        → IfOk result (λ kept. names_from_include_leads_of_lines names_of name.now kept.items ≡ names_from_include_leads_of_lines names_of name.now (lines_of_cut_or_none (cut_outcome_of_text bytes.now))) }
{
    if !may_include_files(bytes) {
        return Ok(Vec::new(alloc));
    }
    match cut(alloc, bytes) {
        Ok(lines) => select_include_lines(alloc, name, &lines),
        Err(TextFault::NoMemory) => Err(AllocError),
        Err(_) => Ok(Vec::new(alloc)),
    }
}

/// Returns those of the lines `lines` of the file `name` that lead somewhere.
fn select_include_lines(
    alloc: Global,
    name: &[u8],
    lines: &Lines<'_>,
) -> Result<Vec<Items<u8>>, AllocError>
    ensures { (names_of : Option LeadOf → List (List ℕ)) → names_of None ≡ []
        → IfOk result (λ kept. names_from_include_leads_of_lines names_of name.now kept.items ≡ names_from_include_leads_of_lines names_of name.now lines.now) }
{
    let mut kept = Vec::new(alloc);
    for number in 0..lines.len() {
        let Some(line) = lines.get(number) else {
            return Ok(kept);
        };
        append_if_include_line(alloc, name, line, &mut kept)?;
    }
    Ok(kept)
}

/// Appends the line `line` of the file `name` to `kept`, if it leads somewhere.
fn append_if_include_line(
    alloc: Global,
    name: &[u8],
    line: &[u8],
    kept: &mut Vec<Items<u8>>,
) -> Result<(), AllocError>
    ensures { (names_of : Option LeadOf → List (List ℕ)) → names_of None ≡ []
        → OnOk result (names_from_include_leads_of_lines names_of name.now kept.new.items ≡ names_from_include_leads_of_lines names_of name.now kept.old.items ++ names_of (include_lead_of_line name.now line.now)) }
{
    let Some(_) = leads(alloc, name, line)? else {
        return Ok(());
    };
    kept.push(Items::from_slice(alloc, line)?)?;
    Ok(())
}
