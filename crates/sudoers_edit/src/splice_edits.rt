//! Members and definitions put in and taken out.
ghost use Rattle.std.specs.Prelude.{◌≡◌, ◌≤◌, ◌<◌, ◌∷◌, [], length, option_map, slice_get, Some, Result, Ok, Err, List, ℕ, IfErr, IfOk, MatchResult};
ghost use Rattle.sudoers_text.specs.Ended.{has_inner_line_without_lf};
ghost use Rattle.sudoers_grammar.specs.Node.{Def as DefOf};
ghost use Rattle.sudoers_line_rows.specs.View.{alias_definition_of_view, alias_definitions_of_view, node_of_view};
ghost use Rattle.sudoers_tree.specs.Changed.{lines_with_one_replaced};
ghost use Rattle.sudoers_tree.specs.Files.{lines_of_numbered_file};
ghost use Rattle.sudoers_tree.specs.Line.{Line as LineOf, line_of_view, lines_of_rows};
ghost use Rattle.sudoers_tree.specs.Policy.{texts_of_lines};
ghost use Rattle.sudoers_tree.specs.Single.{reading_of_single_line};
ghost use Rattle.sudoers_tree.specs.declared.place.Place.{Place as PlaceOf};
ghost use Rattle.sudoers_edit.specs.Editing.{IsRefusalOrNoMemory, policy_with_file_defining_alias_edited};
ghost use Rattle.sudoers_edit.specs.SpliceEdits.{definitions_of_alias_line, result_with_definition_at, result_with_line_definitions, lines_with_item_cut_out as with_less, lines_with_item_put_in as with_more, replaced_lines_unless_too_long};
ghost use Rattle.sudoers_edit.specs.declared.fault.EditFault.{EditFault as Refusal};
ghost use Rattle.sudoers_edit.specs.Landing.{LineTexts};
ghost use Rattle.sudoers_edit.specs.internal.Leading.{IsPlanOutcome};
ghost use Rattle.sudoers_edit.specs.internal.Splicing.{IsAliasDefinedAt, EditReplacesFileLine};
ghost use Rattle.sudoers_edit.specs.internal.OneMore.{IsLineTextWithItemCutOut, IsLineTextWithItemPutIn};
ghost use Rattle.sudoers_edit.specs.internal.LeadingInFile.{line_texts_of_file};
ghost use Rattle.sudoers_edit_script.specs.declared.edit.Edit.{Edit as AnEdit};

use crate::edit_plan::{EditPlan, allocator_of, line_count, plan_swap_change};
use crate::extra_item::{ExtraItem, ItemListKind};
use crate::fault::EditFault;
use crate::owned_bytes::{
    drop_bytes_from_line, find_bytes_to_drop_item, find_offset_to_add_item, insert_splice_into_line,
};
use crate::plain_cuts::{is_sure_cut, is_sure_put};
use std::alloc::{AllocError, Global};
use sudoers_edit_script::{Edit, Edits, Text};
use sudoers_text::{LINE_LIMIT, ends_in_lf};
use sudoers_tree::{
    AliasDefinitionRow, Def, DefinitionFilePlace, Kind, Line, LineRow, Node, Policy, RowsOfTable,
    read_line,
};

/// Plans that the bytes `splice` bring a definition, at the place `at` of the line `line` of the file `file`.
pub fn plan_definition_addition(
    policy: &Policy,
    file: u32,
    line: u32,
    at: u32,
    splice: &[u8],
) -> Result<EditPlan, EditFault>
    ensures { IsPlanOutcome (Edit.AddDef file line at splice.now) policy.now result }
{
    if file as usize >= policy.files() {
        return Err(EditFault::NoFile);
    }
    let alloc = allocator_of(policy);
    let lines = policy.lines_of_file(file as usize);
    let (old, defs) = match find_definitions_of_line(&lines, line as usize) {
        Ok(found) => found,
        Err(fault) => return Err(fault),
    };
    let from = match find_offset_to_add_item(&defs, at as usize) {
        Ok(from) => from,
        Err(fault) => return Err(fault),
    };
    let text = match add_item_to_line(
        alloc,
        ItemListKind::Definitions,
        at as usize,
        from,
        splice,
        &old,
    ) {
        Ok(text) => text,
        Err(fault) => return Err(fault),
    };
    let inverse = Edits::list_of_one_item(alloc, Edit::DropDef { file, line, at })?;
    plan_line_replacement(policy, file as usize, line as usize, text, inverse)
}

/// Plans that the definition at the place `at` of the line `line` of the file `file` is taken out.
pub fn plan_drop_of_definition_unless_only_one(
    policy: &Policy,
    file: u32,
    line: u32,
    at: u32,
) -> Result<EditPlan, EditFault>
    ensures { IsPlanOutcome (Edit.DropDef file line at) policy.now result }
{
    if file as usize >= policy.files() {
        return Err(EditFault::NoFile);
    }
    let alloc = allocator_of(policy);
    let lines = policy.lines_of_file(file as usize);
    let (old, defs) = match find_definitions_of_line(&lines, line as usize) {
        Ok(found) => found,
        Err(fault) => return Err(fault),
    };
    let (from, to) = match find_bytes_to_drop_item(&defs, at as usize) {
        Ok(bytes) => bytes,
        Err(fault) => return Err(fault),
    };
    let among = ItemListKind::Definitions;
    let text = match cut_item_from_line(alloc, among, at as usize, from, to, old.text, &old.node) {
        Ok(text) => text,
        Err(fault) => return Err(fault),
    };
    let splice = Text::from_slice(alloc, &old.text[from..to])?;
    let back = Edit::AddDef {
        file,
        line,
        at,
        splice,
    };
    let inverse = Edits::list_of_one_item(alloc, back)?;
    plan_line_replacement(policy, file as usize, line as usize, text, inverse)
}

/// Plans that the bytes `splice` bring a member, at the place `at` of the list of the alias `name` of the kind `kind`.
pub fn plan_member_addition(
    policy: &Policy,
    kind: Kind,
    name: &[u8],
    at: u32,
    splice: &[u8],
) -> Result<EditPlan, EditFault>
    ensures { IsPlanOutcome (Edit.AddMember kind name.now at splice.now) policy.now result }
{
    let alloc = allocator_of(policy);
    let (place, old, def) = match find_definition_of_named_alias(policy, kind, name) {
        Ok(found) => found,
        Err(fault) => return Err(fault),
    };
    let from = match find_offset_to_add_item(&def.members, at as usize) {
        Ok(from) => from,
        Err(fault) => return Err(fault),
    };
    let among = ItemListKind::Members { def: place.def };
    let text = match add_item_to_line(alloc, among, at as usize, from, splice, &old) {
        Ok(text) => text,
        Err(fault) => return Err(fault),
    };
    let name = Text::from_slice(alloc, name)?;
    let inverse = Edits::list_of_one_item(alloc, Edit::DropMember { kind, name, at })?;
    plan_line_replacement(policy, place.file, place.line, text, inverse)
}

/// Plans that the member at the place `at` of the list of the alias `name` of the kind `kind` is taken out.
pub fn plan_member_drop(
    policy: &Policy,
    kind: Kind,
    name: &[u8],
    at: u32,
) -> Result<EditPlan, EditFault>
    ensures { IsPlanOutcome (Edit.DropMember kind name.now at) policy.now result }
{
    let alloc = allocator_of(policy);
    let (place, old, def) = match find_definition_of_named_alias(policy, kind, name) {
        Ok(found) => found,
        Err(fault) => return Err(fault),
    };
    let (from, to) = match find_bytes_to_drop_item(&def.members, at as usize) {
        Ok(bytes) => bytes,
        Err(fault) => return Err(fault),
    };
    let among = ItemListKind::Members { def: place.def };
    let text = match cut_item_from_line(alloc, among, at as usize, from, to, old.text, &old.node) {
        Ok(text) => text,
        Err(fault) => return Err(fault),
    };
    let inverse = inverse_of_member_drop(alloc, kind, name, at, &old.text[from..to])?;
    plan_line_replacement(policy, place.file, place.line, text, inverse)
}

/// Returns the edit that puts a member in again.
fn inverse_of_member_drop(
    alloc: Global,
    kind: Kind,
    name: &[u8],
    at: u32,
    splice: &[u8],
) -> Result<Edits, AllocError>
    ensures { IfOk result (λ edits. edits ≡ Edit.AddMember kind name.now at splice.now ∷ []) }
{
    let name = Text::from_slice(alloc, name)?;
    let splice = Text::from_slice(alloc, splice)?;
    let back = Edit::AddMember {
        kind,
        name,
        at,
        splice,
    };
    Edits::list_of_one_item(alloc, back)
}

/// Returns where an alias is defined on the walk: its place in a file, its line and its definition.
fn find_definition_of_named_alias<'a>(
    policy: &'a Policy,
    kind: Kind,
    name: &[u8],
) -> Result<(DefinitionFilePlace, Line<'a>, Def<'a>), EditFault>
    ensures found { IfOk result (λ found. IsAliasDefinedAt kind name.now policy.now found.0 (line_of_view found.1) (alias_definition_of_view found.2)) }
    ensures refused { IfErr result (λ fault. (next : List LineOf → PlaceOf → LineOf → DefOf → Result LineTexts Refusal)
        → policy_with_file_defining_alias_edited kind name.now policy.now (λ place lines. result_with_definition_at (Some place) lines (next lines)) ≡ Err fault) }
{
    let Some(place) = policy.definition(kind, name) else {
        return Err(EditFault::NoAlias);
    };
    let Some(line) = policy.parsed_line(place.file, place.line) else {
        return Err(EditFault::NoAlias);
    };
    let Node::Alias { defs, .. } = line.node else {
        return Err(EditFault::NoAlias);
    };
    match defs.rows.get(place.def) {
        Some(row) => Ok((place, line, defs.tables.alias_definition_of_row(row))),
        None => Err(EditFault::NoAlias),
    }
}

/// Returns the line of a number, and its definitions.
fn find_definitions_of_line<'a>(
    lines: &RowsOfTable<'a, LineRow>,
    number: usize,
) -> Result<(Line<'a>, RowsOfTable<'a, AliasDefinitionRow>), EditFault>
    ensures outcome { (next : LineOf → List DefOf → Result LineTexts Refusal) → MatchResult result
        (λ found. result_with_line_definitions number (lines_of_rows lines.now) next ≡ next (line_of_view found.0) (alias_definitions_of_view found.1))
        (λ fault. result_with_line_definitions number (lines_of_rows lines.now) next ≡ Err fault) }
    ensures found { IfOk result (λ found. (slice_get (lines_of_rows lines.now) number ≡ Some (line_of_view found.0))
        × (definitions_of_alias_line (line_of_view found.0).node ≡ Some (alias_definitions_of_view found.1))) }
{
    let Some(line) = find_line_with_number_in_rows(lines, number) else {
        return Err(EditFault::NoLine);
    };
    match line.node {
        Node::Alias { defs, .. } => Ok((line, defs)),
        _ => Err(EditFault::NoAlias),
    }
}

/// Returns the line of a number.
fn find_line_with_number_in_rows<'a>(
    lines: &RowsOfTable<'a, LineRow>,
    number: usize,
) -> Option<Line<'a>>
    ensures { option_map line_of_view result ≡ slice_get (lines_of_rows lines.now) number }
{
    match lines.rows.get(number) {
        Some(row) => Some(Line::from_line_row(lines.tables, row)),
        None => None,
    }
}

/// Returns the line `old` with one more member or definition at the place `at`. That one owns the bytes `splice`, which are put in at the
/// offset `from`.
fn add_item_to_line(
    alloc: Global,
    among: ItemListKind,
    at: usize,
    from: usize,
    splice: &[u8],
    old: &Line<'_>,
) -> Result<Vec<u8>, EditFault>
    requires { (from ≤ length (line_of_view old.now).text) × (reading_of_single_line (line_of_view old.now).text ≡ Some (line_of_view old.now).node) }
    ensures put { IfOk result (λ text. IsLineTextWithItemPutIn among at from splice.now (line_of_view old.now) text.items) }
    ensures outcome { (n : ℕ) (lines : List LineOf) → MatchResult result
        (λ text. with_more among at from n splice.now (line_of_view old.now) lines ≡ replaced_lines_unless_too_long n text.items (texts_of_lines lines))
        (λ fault. IsRefusalOrNoMemory fault (with_more among at from n splice.now (line_of_view old.now) lines)) }
{
    let text = insert_splice_into_line(alloc, old.text, from, splice)?;
    if let ItemListKind::Members { def } = among {
        if is_sure_put(alloc, def, at, from, splice, old)? {
            return Ok(text);
        }
    }
    let Some(new) = read_line(alloc, text.as_slice())? else {
        return Err(EditFault::BadSplice);
    };
    let to = from + splice.len();
    let one = ExtraItem { at, from, to };
    if !one.is_only_difference(among, &new.node(), &old.node) {
        return Err(EditFault::BadSplice);
    }
    Ok(text)
}

/// Returns the line `old`, which says `says`, without the member or definition at the place `at`, which owns the bytes from `from` up
/// to `to`.
pub fn cut_item_from_line(
    alloc: Global,
    among: ItemListKind,
    at: usize,
    from: usize,
    to: usize,
    old: &[u8],
    says: &Node<'_>,
) -> Result<Vec<u8>, EditFault>
    requires { (from ≤ to) × (to ≤ length old.now) × (reading_of_single_line old.now ≡ Some (node_of_view says.now)) }
    ensures cut { IfOk result (λ text. IsLineTextWithItemCutOut among at from to (record { text = old.now; node = node_of_view says.now }) text.items) }
    ensures outcome { (n : ℕ) (lines : List LineOf) → MatchResult result
        (λ text. with_less among at from to n (record { text = old.now; node = node_of_view says.now }) lines ≡ replaced_lines_unless_too_long n text.items (texts_of_lines lines))
        (λ fault. IsRefusalOrNoMemory fault (with_less among at from to n (record { text = old.now; node = node_of_view says.now }) lines)) }
{
    let text = drop_bytes_from_line(alloc, old, from, to)?;
    let one = ExtraItem { at, from, to };
    if is_sure_cut(one, among, old, says) {
        return Ok(text);
    }
    let Some(new) = read_line(alloc, text.as_slice())? else {
        return Err(EditFault::BadSplice);
    };
    if !one.is_only_difference(among, says, &new.node()) {
        return Err(EditFault::BadSplice);
    }
    Ok(text)
}

/// Plans that `text`, which reads as it should, stands in the place of the line `at` of the file `file`.
fn plan_line_replacement(
    policy: &Policy,
    file: usize,
    at: usize,
    text: Vec<u8>,
    inverse: Edits,
) -> Result<EditPlan, EditFault>
    requires { at < length (lines_of_numbered_file policy.now.files file) }
    ensures { (edit back : AnEdit) → EditReplacesFileLine edit back inverse policy.now file at text.items → IsPlanOutcome edit policy.now result }
{
    if text.len() > LINE_LIMIT {
        return Err(EditFault::TooLarge);
    }
    if leaves_open_line_after_replace(policy, file, at, text.as_slice()) {
        return Err(EditFault::OpenLine);
    }
    let text = Text::from_vec(text);
    Ok(plan_swap_change(allocator_of(policy), file, at, text, inverse)?)
}

/// Returns whether a line without LF would stand before another once the text stands in the place of a line of a file.
fn leaves_open_line_after_replace(policy: &Policy, file: usize, at: usize, text: &[u8]) -> bool
    requires { at < length (lines_of_numbered_file policy.now.files file) }
    ensures { result ≡ has_inner_line_without_lf (lines_with_one_replaced at text.now (line_texts_of_file policy.now file)) }
{
    let count = line_count(policy, file);
    if ends_in_lf(text) {
        return false;
    }
    count - at > 1
}
