//! The edits that wishes of lines want.

ghost use Rattle.std.specs.Prelude.{◌≡◌, ◌++◌, ◌∷◌, ◌-◌, [], length, map, reverse, slice_get, IfOk, MatchResult};
ghost use Rattle.std.specs.Option.{option_map_or};
ghost use Rattle.sudoers_plan.specs.GivenText.{is_line_of_text};
ghost use Rattle.sudoers_plan.specs.Plan.{IsFaultOrNoMemory, IsOutcomeUnlessNoMemory, edits_putting_line, edits_to_have_line, edits_to_lack_line, is_line_without_lf, line_texts_of_file, number_of_file_on_walk, number_of_new_line, only_anchor_number};
ghost use Rattle.sudoers_plan.specs.Numbers.{numbers_of_passing};

use crate::fault::PlanFault;
use crate::line_text::GivenLine;
use crate::wish::LinePlace;
use std::alloc::{AllocError, Global};
use sudoers_edit_script::{Edit, Edits};
use sudoers_line_rows::convert_offset_to_u32;
use sudoers_text::ends_in_lf;
use sudoers_tree::Policy;

/// Returns the edits after which a line of the file `name` is `text`. `place` says where a new one goes.
#[tactic(auto, using(crate::proofs::Numbers::any_passes_if_numbered))]
pub fn find_edits_to_have_line(
    policy: &Policy,
    name: &[u8],
    text: &[u8],
    place: &LinePlace,
) -> Result<Edits, PlanFault>
    ensures { IsOutcomeUnlessNoMemory result (edits_to_have_line name.now text.now place.now policy.now) }
{
    let alloc = policy.allocator();
    let Some(file) = find_file_on_walk(policy, name) else {
        return Err(PlanFault::NoFile);
    };
    let line = GivenLine::from_text(alloc, text)?;
    if !line.is_one_line() {
        return Err(PlanFault::BadLine);
    }
    if !find_equal_lines(policy, file, &line)?.is_empty() {
        return Ok(Edits::new(alloc));
    }
    let at = find_number_of_new_line(policy, file, place)?;
    Ok(make_line_addition(policy, file, at, line)?)
}

/// Returns the edits after which no line of the file `name` is `text`. `even_includes` says whether an include line may be removed.
#[tactic(auto, using(crate::proofs::Numbers::any_passes_if_numbered))]
pub fn find_edits_to_lack_line(
    policy: &Policy,
    name: &[u8],
    text: &[u8],
    even_includes: bool,
) -> Result<Edits, PlanFault>
    ensures { IsOutcomeUnlessNoMemory result (edits_to_lack_line name.now text.now even_includes policy.now) }
{
    let alloc = policy.allocator();
    let Some(file) = find_file_on_walk(policy, name) else {
        return Err(PlanFault::NoFile);
    };
    let line = GivenLine::from_text(alloc, text)?;
    if !line.is_one_line() {
        return Err(PlanFault::BadLine);
    }
    let numbers = find_equal_lines(policy, file, &line)?;
    if !numbers.is_empty() && !even_includes && line.is_include_line(alloc)? {
        return Err(PlanFault::IncludeLine);
    }
    Ok(make_line_removals(alloc, file, numbers)?)
}

/// Returns the number of the file on the walk that has the name `name`.
fn find_file_on_walk(policy: &Policy, name: &[u8]) -> Option<usize>
    ensures { result ≡ number_of_file_on_walk name.now policy.now }
{
    let mut left = policy.numbers_of_files_on_walk();
    while let Some((file, behind)) = left.split_first() {
        if policy.file_name(*file) == name {
            return Some(*file);
        }
        left = behind;
    }
    None
}

/// Returns the numbers, from 0, of the lines of the file `file` that are `wanted`, but for their line ends.
///
/// # Errors
///
/// Memory ran out.
fn find_equal_lines(
    policy: &Policy,
    file: usize,
    wanted: &GivenLine,
) -> Result<Vec<u32>, AllocError>
    ensures { IfOk result (λ numbers. numbers.items ≡ numbers_of_passing (is_line_of_text wanted.now) 0 (line_texts_of_file policy.now file)) }
{
    let lines = policy.lines_of_file(file);
    let mut numbers = Vec::new(policy.allocator());
    for (number, row) in lines.rows.iter().enumerate() {
        if wanted.is_text_of(lines.tables.bytes_of_text_row(row.text)) {
            numbers.push(convert_offset_to_u32(number)?)?;
        }
    }
    Ok(numbers)
}

/// Returns how many lines of the file `name` are `text`, but for their line ends; 0 if no file on the walk has the name.
///
/// # Errors
///
/// Memory ran out.
pub fn count_equal_lines(policy: &Policy, name: &[u8], text: &[u8]) -> Result<usize, AllocError>
    ensures { IfOk result (λ count. count ≡ option_map_or (λ f. length (numbers_of_passing (is_line_of_text text.now) 0 (line_texts_of_file policy.now f))) (number_of_file_on_walk name.now policy.now) 0) }
{
    let Some(file) = find_file_on_walk(policy, name) else {
        return Ok(0);
    };
    let line = GivenLine::from_text(policy.allocator(), text)?;
    Ok(find_equal_lines(policy, file, &line)?.as_slice().len())
}

/// Returns the number of the line of the file `file` before which a new line goes.
fn find_number_of_new_line(
    policy: &Policy,
    file: usize,
    place: &LinePlace,
) -> Result<usize, PlanFault>
    ensures { IsOutcomeUnlessNoMemory result (number_of_new_line place.now (line_texts_of_file policy.now file)) }
{
    match place {
        LinePlace::End => Ok(policy.len(file)),
        LinePlace::After(anchor) => Ok(find_anchor(policy, file, anchor.as_slice())? as usize + 1),
        LinePlace::Before(anchor) => Ok(find_anchor(policy, file, anchor.as_slice())? as usize),
    }
}

/// Returns the number of the only line of the file `file` that is `anchor`.
fn find_anchor(policy: &Policy, file: usize, anchor: &[u8]) -> Result<u32, PlanFault>
    ensures { IsOutcomeUnlessNoMemory result (only_anchor_number (numbers_of_passing (is_line_of_text anchor.now) 0 (line_texts_of_file policy.now file))) }
{
    let line = GivenLine::from_text(policy.allocator(), anchor)?;
    let numbers = find_equal_lines(policy, file, &line)?;
    match numbers.as_slice() {
        [] => Err(PlanFault::NoAnchor),
        [number] => Ok(*number),
        _ => Err(PlanFault::SeveralAnchors),
    }
}

/// Returns the edits that put `line` before the line `at` of the file `file`, or behind its last line.
fn make_line_addition(
    policy: &Policy,
    file: usize,
    at: usize,
    line: GivenLine,
) -> Result<Edits, AllocError>
    ensures { IfOk result (λ edits. edits ≡ edits_putting_line file at line (line_texts_of_file policy.now file)) }
{
    let mut edits = Edits::new(policy.allocator());
    let number = convert_offset_to_u32(file)?;
    if at == policy.len(file) && is_last_line_open(policy, file) {
        edits.push(Edit::EndLine { file: number })?;
    }
    edits.push(Edit::Insert {
        file: number,
        at: convert_offset_to_u32(at)?,
        text: line.into_text_with_lf(),
    })?;
    Ok(edits)
}

/// Returns whether the file `file` has a last line that does not end in LF.
fn is_last_line_open(policy: &Policy, file: usize) -> bool
    ensures { result ≡ is_line_without_lf (slice_get (line_texts_of_file policy.now file) (length (line_texts_of_file policy.now file) - 1)) }
{
    match policy.line(file, policy.len(file).saturating_sub(1)) {
        Some(line) => !ends_in_lf(line),
        None => false,
    }
}

/// Returns the edits that take out the lines of the file `file` with these numbers, which ascend, the last first.
fn make_line_removals(alloc: Global, file: usize, numbers: Vec<u32>) -> Result<Edits, AllocError>
    ensures { IfOk result (λ edits. edits ≡ map (λ at. Edit.Delete file at) (reverse numbers.items)) }
{
    let mut edits = Edits::new(alloc);
    let mut numbers = numbers;
    let file = convert_offset_to_u32(file)?;
    while let Some(at) = numbers.pop() {
        edits.push(Edit::Delete { file, at })?;
    }
    Ok(edits)
}
