//! What is printed of the rows in which two policies differ.

ghost use Rattle.std.specs.Prelude.{◌≡◌, ◌++◌, drop, get_or, false, map, OnOk, IfOk, IfErr};
ghost use Rattle.std.specs.List.{flat_map};
ghost use Rattle.sudoers_compare.specs.FlatSpecs.{placed_row_of_view};
ghost use Rattle.sudoers_review.specs.ChangedText.{changed_row_line, changed_row_lines, line_of_new_row, line_of_old_row, marked_rows, marked_rows_in_front, rows_behind_first_unmarked, rows_with_marks, sign_of_change};
ghost use Rattle.sudoers_review.specs.Faults.{IsMemoryOrSizeFault};
ghost use Rattle.sudoers_review.specs.Views.{marked_rows_of_view};

use crate::change_lines::{
    ChangeLine, ChangeLines, PlaceOnWalk, RuleChange, TextPart, append_line_end, sign_of,
};
use crate::compare_fault::CompareFault;
use crate::row_text::{TEXT_LIMIT, append_row, has_long_lists};
use std::alloc::Global;
use sudoers_compare::{CountedChanges, PlacedFlatRow};
use sudoers_tree::Policy;

/// The rows of a policy, and which of them are marked. A row without a mark is not marked.
#[derive(Clone, Copy)]
pub struct MarkedRows<'p, 'r, 'f, 'm> {
    pub policy: &'p Policy,
    pub rows: &'r [PlacedFlatRow<'f>],
    pub marks: &'m [bool],
}

/// Returns whether the row with this number is marked.
pub fn is_marked(marks: &[bool], number: usize) -> bool
    ensures { result ≡ get_or marks.now number false }
{
    match marks.get(number) {
        Some(mark) => *mark,
        None => false,
    }
}

/// Returns where the command of `placed` stands.
pub fn place_of_row(placed: &PlacedFlatRow<'_>) -> PlaceOnWalk
    ensures line { result.line ≡ placed.now.line }
    ensures start { result.start ≡ placed.now.start }
{
    PlaceOnWalk {
        line: placed.line,
        start: placed.start as usize,
    }
}

/// Appends to `out` the line on `placed`, a row of `policy` to which `change` happened.
///
/// # Errors
///
/// `TooLarge`: the text or the lists of the row have more than 16 MiB. `NoMemory`: memory ran out.
pub fn append_changed_row(
    alloc: Global,
    out: &mut ChangeLines,
    change: RuleChange,
    policy: &Policy,
    placed: &PlacedFlatRow<'_>,
) -> Result<(), CompareFault>
    ensures line { OnOk result (out.new.text.items ≡ out.old.text.items ++ changed_row_line (sign_of_change change) policy.now (placed_row_of_view placed.now)) }
    ensures fault { IfErr result IsMemoryOrSizeFault }
{
    if has_long_lists(&placed.row) || out.text.len() > TEXT_LIMIT {
        return Err(CompareFault::TooLarge);
    }
    out.text.extend_from_slice(sign_of(change))?;
    let start = out.text.len();
    append_row(alloc, &mut out.text, &placed.row)?;
    let stop = out.text.len();
    let rule = TextPart { start, stop };
    let line = ChangeLine::from_rule(change, rule, place_of_row(placed));
    append_line_end(alloc, out, policy, line)?;
    Ok(())
}

/// Appends to `out` the line on `placed`, a row of `policy` that went, if it counts.
fn append_old_row(
    alloc: Global,
    out: &mut ChangeLines,
    counted: CountedChanges,
    policy: &Policy,
    placed: &PlacedFlatRow<'_>,
) -> Result<(), CompareFault>
    ensures line { OnOk result (out.new.text.items ≡ out.old.text.items ++ line_of_old_row counted policy.now (placed_row_of_view placed.now)) }
    ensures fault { IfErr result IsMemoryOrSizeFault }
{
    match counted {
        CountedChanges::Granting if !placed.row.member.negated => Ok(()),
        _ => append_changed_row(alloc, out, RuleChange::Went, policy, placed),
    }
}

/// Appends to `out` the line on `placed`, a row of `policy` that came, if it counts.
fn append_new_row(
    alloc: Global,
    out: &mut ChangeLines,
    counted: CountedChanges,
    policy: &Policy,
    placed: &PlacedFlatRow<'_>,
) -> Result<(), CompareFault>
    ensures line { OnOk result (out.new.text.items ≡ out.old.text.items ++ line_of_new_row counted policy.now (placed_row_of_view placed.now)) }
    ensures fault { IfErr result IsMemoryOrSizeFault }
{
    match counted {
        CountedChanges::Granting if placed.row.member.negated => Ok(()),
        _ => append_changed_row(alloc, out, RuleChange::Came, policy, placed),
    }
}

/// Appends to `out` the lines on the marked rows of `new` that count, from row `from` on up to the first row that has no mark. Returns the number
/// of the row behind that one.
fn append_rows_in_front(
    alloc: Global,
    out: &mut ChangeLines,
    counted: CountedChanges,
    new: &MarkedRows<'_, '_, '_, '_>,
    from: usize,
) -> Result<usize, CompareFault>
    ensures lines { OnOk result (out.new.text.items ≡ out.old.text.items
        ++ flat_map (line_of_new_row counted new.now.policy.now) (marked_rows_in_front (drop from (marked_rows_of_view new.now)))) }
    ensures behind { IfOk result (λ number. drop number (marked_rows_of_view new.now) ≡ rows_behind_first_unmarked (drop from (marked_rows_of_view new.now))) }
    ensures fault { IfErr result IsMemoryOrSizeFault }
{
    let mut number = from;
    while number < new.rows.len() && is_marked(new.marks, number) {
        append_new_row(alloc, out, counted, new.policy, &new.rows[number])?;
        number += 1;
    }
    if number < new.rows.len() {
        number += 1;
    }
    Ok(number)
}

/// Appends to `out` the lines on the marked rows of `new` that count, from row `from` on.
fn append_marked_rows(
    alloc: Global,
    out: &mut ChangeLines,
    counted: CountedChanges,
    new: &MarkedRows<'_, '_, '_, '_>,
    from: usize,
) -> Result<(), CompareFault>
    ensures lines { OnOk result (out.new.text.items ≡ out.old.text.items
        ++ flat_map (line_of_new_row counted new.now.policy.now) (marked_rows (drop from (marked_rows_of_view new.now)))) }
    ensures fault { IfErr result IsMemoryOrSizeFault }
{
    for number in from..new.rows.len() {
        if is_marked(new.marks, number) {
            append_new_row(alloc, out, counted, new.policy, &new.rows[number])?;
        }
    }
    Ok(())
}

/// Appends to `out` the lines on the marked rows of `old` and `new` that count. Of the rows without a mark, each is one in both.
pub fn append_changed_rows(
    alloc: Global,
    out: &mut ChangeLines,
    counted: CountedChanges,
    old: &MarkedRows<'_, '_, '_, '_>,
    new: &MarkedRows<'_, '_, '_, '_>,
) -> Result<(), CompareFault>
    ensures lines { OnOk result (out.new.text.items ≡ out.old.text.items
        ++ changed_row_lines counted old.now.policy.now new.now.policy.now (marked_rows_of_view old.now) (marked_rows_of_view new.now)) }
    ensures fault { IfErr result IsMemoryOrSizeFault }
{
    let mut reached = 0;
    for number in 0..old.rows.len() {
        if is_marked(old.marks, number) {
            append_old_row(alloc, out, counted, old.policy, &old.rows[number])?;
        } else {
            reached = append_rows_in_front(alloc, out, counted, new, reached)?;
        }
    }
    append_marked_rows(alloc, out, counted, new, reached)
}
