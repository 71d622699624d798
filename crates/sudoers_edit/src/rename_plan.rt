//! An alias given another name in the files of a policy, where it is defined and where it is mentioned.
ghost use Rattle.std.specs.Prelude.{◌≡◌, ◌∷◌, ◌++◌, [], length, take, drop, option_to_list, true, false, if◌then◌else◌, Ok, IfOk, OnOk};
ghost use Rattle.std.specs.List.{list_any};
ghost use Rattle.sudoers_tree.specs.Changed.{texts_of_changes};
ghost use Rattle.sudoers_tree.specs.Fault.{is_some};
ghost use Rattle.sudoers_tree.specs.Files.{lines_of_numbered_file};
ghost use Rattle.sudoers_tree.specs.Line.{line_of_view};
ghost use Rattle.sudoers_tree.specs.Walk.{is_file_on_walk};
ghost use Rattle.sudoers_edit.specs.Landing.{is_line_too_long};
ghost use Rattle.sudoers_edit.specs.Renaming.{is_alias_name_in_use as taken};
ghost use Rattle.sudoers_edit.specs.internal.NameOffsets.{line_replaced_at_offsets, name_offsets_in_line};
ghost use Rattle.sudoers_edit.specs.internal.Leading.{IsPlanOutcome, rename_change_in_line, rename_changes_in_file, rename_changes_in_files};

use crate::edit_plan::{EditPlan, allocator_of};
use crate::fault::EditFault;
use crate::name_places::find_alias_name_offsets;
use std::alloc::{AllocError, Global};
use sudoers_edit_script::{Edit, Edits, Text};
use sudoers_text::{LINE_LIMIT, is_name, is_reserved};
use sudoers_tree::{Kind, Line, LineChange, NameFilterBits, Policy, Walk};

/// Plans that the alias `name` of the kind `kind` gets the name `fresh`.
pub fn plan_alias_rename(
    policy: &Policy,
    kind: Kind,
    name: &[u8],
    fresh: &[u8],
) -> Result<EditPlan, EditFault>
    ensures { IsPlanOutcome (Edit.Rename kind name.now fresh.now) policy.now result }
{
    let walk = policy.walk();
    if walk.place_of_definition(kind, name).is_none() {
        return Err(EditFault::NoAlias);
    }
    if !is_name(fresh) || is_reserved(fresh) {
        return Err(EditFault::BadName);
    }
    let alloc = allocator_of(policy);
    if is_alias_name_taken(alloc, &walk, kind, fresh)? {
        return Err(EditFault::NameTaken);
    }
    let changes = list_rename_changes(policy, kind, name, fresh)?;
    if has_change_with_too_long_line(changes.as_slice()) {
        return Err(EditFault::TooLarge);
    }
    let inverse = inverse_of_rename(alloc, kind, name, fresh)?;
    Ok(EditPlan { changes, inverse })
}

/// Returns the edit that gives the old name back.
fn inverse_of_rename(
    alloc: Global,
    kind: Kind,
    name: &[u8],
    fresh: &[u8],
) -> Result<Edits, AllocError>
    ensures { IfOk result (λ edits. edits ≡ Edit.Rename kind fresh.now name.now ∷ []) }
{
    let back = Edit::Rename {
        kind,
        name: Text::from_slice(alloc, fresh)?,
        fresh: Text::from_slice(alloc, name)?,
    };
    Edits::list_of_one_item(alloc, back)
}

/// Returns whether the name is defined or mentioned in the kind.
fn is_alias_name_taken(
    alloc: Global,
    walk: &Walk<'_>,
    kind: Kind,
    fresh: &[u8],
) -> Result<bool, AllocError>
    ensures { IfOk result (λ is. is ≡ taken kind fresh.now walk.now) }
{
    if walk.place_of_definition(kind, fresh).is_some() {
        return Ok(true);
    }
    Ok(!walk.find_mentions_of(alloc, kind, fresh)?.is_empty())
}

/// Returns the changes of the lines in which the name stands, file by file, in their order. Each puts another name in its place.
fn list_rename_changes(
    policy: &Policy,
    kind: Kind,
    name: &[u8],
    fresh: &[u8],
) -> Result<Vec<LineChange>, AllocError>
    ensures { IfOk result (λ changes. changes.items ≡ rename_changes_in_files 0 kind name.now fresh.now policy.now.walk policy.now.files) }
{
    let mut changes = Vec::new(policy.allocator());
    for file in 0..policy.files() {
        append_rename_changes_if_on_walk(policy, file, kind, name, fresh, &mut changes)?;
    }
    Ok(changes)
}

/// Adds the changes of a file, if it is on the walk.
fn append_rename_changes_if_on_walk(
    policy: &Policy,
    file: usize,
    kind: Kind,
    name: &[u8],
    fresh: &[u8],
    changes: &mut Vec<LineChange>,
) -> Result<(), AllocError>
    ensures { OnOk result (changes.new.items ≡ changes.old.items
        ++ (if is_file_on_walk policy.now.walk file then rename_changes_in_file file 0 kind name.now fresh.now (lines_of_numbered_file policy.now.files file) else [])) }
{
    if policy.numbers_of_files_on_walk().contains(&file) {
        append_rename_changes_of_file(policy, file, kind, name, fresh, changes)?;
    }
    Ok(())
}

/// Adds the changes of the lines of a file. It passes over lines that lack the bits of the name.
fn append_rename_changes_of_file(
    policy: &Policy,
    file: usize,
    kind: Kind,
    name: &[u8],
    fresh: &[u8],
    changes: &mut Vec<LineChange>,
) -> Result<(), AllocError>
    ensures { OnOk result (changes.new.items ≡ changes.old.items ++ rename_changes_in_file file 0 kind name.now fresh.now (lines_of_numbered_file policy.now.files file)) }
{
    let bits = NameFilterBits::from_alias_name(name);
    let alloc = policy.allocator();
    let lines = policy.lines_of_file(file);
    for (at, row) in lines.rows.iter().enumerate() {
        if policy.may_have_alias_with_bits_in_line(file, at, bits) {
            let line = Line::from_line_row(lines.tables, row);
            let swap = rename_change_of_line(alloc, file, at, &line, kind, name, fresh)?;
            append_optional_change(swap, changes)?;
        }
    }
    Ok(())
}

/// Adds a change, if there is one.
fn append_optional_change(
    change: Option<LineChange>,
    changes: &mut Vec<LineChange>,
) -> Result<(), AllocError>
    ensures { OnOk result (changes.new.items ≡ changes.old.items ++ option_to_list change) }
{
    if let Some(change) = change {
        changes.push(change)?;
    }
    Ok(())
}

/// Returns the change of a line, if the name stands in it.
fn rename_change_of_line(
    alloc: Global,
    file: usize,
    at: usize,
    line: &Line<'_>,
    kind: Kind,
    name: &[u8],
    fresh: &[u8],
) -> Result<Option<LineChange>, AllocError>
    ensures { IfOk result (λ swap. option_to_list swap ≡ rename_change_in_line file at (length name.now) fresh.now (name_offsets_in_line kind name.now (line_of_view line.now).node) (line_of_view line.now).text) }
{
    let starts = find_alias_name_offsets(alloc, kind, name, &line.node)?;
    if starts.is_empty() {
        return Ok(None);
    }
    let text = replace_bytes_at_offsets(alloc, line.text, starts.as_slice(), name.len(), fresh)?;
    Ok(Some(LineChange::Swap {
        file,
        at,
        text: Text::from_vec(text),
    }))
}

/// Returns the line `line` with the bytes `others` in place of the `size` bytes at each offset of `starts`.
fn replace_bytes_at_offsets(
    alloc: Global,
    line: &[u8],
    starts: &[usize],
    size: usize,
    others: &[u8],
) -> Result<Vec<u8>, AllocError>
    ensures { IfOk result (λ text. text.items ≡ line_replaced_at_offsets 0 size others.now starts.now line.now) }
{
    let mut text = Vec::new(alloc);
    let mut from: usize = 0;
    for start in starts {
        text.extend_from_slice(take_first_bytes(
            drop_leading_bytes(line, from),
            start.saturating_sub(from),
        ))?;
        text.extend_from_slice(others)?;
        from = start.saturating_add(size);
    }
    text.extend_from_slice(drop_leading_bytes(line, from))?;
    Ok(text)
}

/// Returns the first `size` bytes of `bytes`, or all if there are fewer.
fn take_first_bytes(bytes: &[u8], size: usize) -> &[u8]
    ensures { result.now ≡ take size bytes.now }
{
    let (front, _) = bytes.split_at(size.min(bytes.len()));
    front
}

/// Returns the bytes of `bytes` behind the first `size`.
fn drop_leading_bytes(bytes: &[u8], size: usize) -> &[u8]
    ensures { result.now ≡ drop size bytes.now }
{
    let (_, behind) = bytes.split_at(size.min(bytes.len()));
    behind
}

/// Returns whether a line that the changes bring is past the limit.
fn has_change_with_too_long_line(changes: &[LineChange]) -> bool
    ensures { result ≡ list_any is_line_too_long (texts_of_changes changes.now) }
{
    for change in changes {
        if let LineChange::Put { text, .. } | LineChange::Swap { text, .. } = change
            && text.len() > LINE_LIMIT
        {
            return true;
        }
    }
    false
}
