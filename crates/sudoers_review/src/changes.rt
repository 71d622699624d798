//! What is printed of two policies that differ.

ghost use Rattle.std.specs.Prelude.{◌≡◌, ◌⊎◌, ◌++◌, map, IfOk, IfErr, OnOk};
ghost use Rattle.sudoers_check.specs.Chains.{HasCyclicAliasReachedFromSpecOrDefaults};
ghost use Rattle.sudoers_review.specs.declared.compare_fault.CompareFault.TheVariants.{Cycle, NoMemory, TooLarge};
ghost use Rattle.sudoers_compare.specs.FlatSpecs.{placed_row_of_view};
ghost use Rattle.sudoers_review.specs.ChangedText.{changed_row_lines, rows_with_marks, IsChangesText};
ghost use Rattle.sudoers_review.specs.Faults.{IsMemoryOrSizeFault};

use crate::change_lines::ChangeLines;
use crate::changed_rows::{MarkedRows, append_changed_rows};
use crate::changed_settings::append_changed_settings;
use crate::compare_fault::CompareFault;
use crate::flat_policy::FlatPolicy;
use crate::other_defaults::list_changed_other_defaults;
use std::alloc::Global;
use sudoers_compare::{
    CountedChanges, PlacedFlatRow, RowMarks, RowsOfSpecs, mark_changed_rows_of_specs,
};
use sudoers_tree::Policy;

/// Appends to `out` the lines on the rows of `old` and `new` that are marked.
fn append_rows_with_marks(
    alloc: Global,
    out: &mut ChangeLines,
    counted: CountedChanges,
    old: &Policy,
    old_rows: &[PlacedFlatRow<'_>],
    new: &Policy,
    new_rows: &[PlacedFlatRow<'_>],
    marks: &RowMarks,
) -> Result<(), CompareFault>
    ensures lines { OnOk result (out.new.text.items ≡ out.old.text.items ++ changed_row_lines counted old.now new.now
        (rows_with_marks marks.now.gone.items (map placed_row_of_view old_rows.now)) (rows_with_marks marks.now.came.items (map placed_row_of_view new_rows.now))) }
    ensures fault { IfErr result IsMemoryOrSizeFault }
{
    let gone = MarkedRows {
        policy: old,
        rows: old_rows,
        marks: marks.gone.as_slice(),
    };
    let came = MarkedRows {
        policy: new,
        rows: new_rows,
        marks: marks.came.as_slice(),
    };
    append_changed_rows(alloc, out, counted, &gone, &came)
}

/// What is printed of two policies that differ.
#[derive(Drop)]
pub struct PolicyChanges {
    /// The lines on rows and on settings of runas_default. On these the answers depend.
    pub answers: ChangeLines,
    /// The lines on other parameters of Defaults, behind a heading. No answer depends on them.
    pub others: ChangeLines,
}

/// Returns the lines on what `old` and `new` grant otherwise, the aliases replaced: each row that went behind `-`, and each that came behind `+`,
/// with its place, as far as it counts; then their settings of runas_default, if they differ. Apart come the lines on the other parameters of
/// Defaults, on which no answer depends. If all changes count, then without a line each request has the same answer, tags and options in both. If
/// only those count that may grant something, then without a line `old` allows each request that `new` allows.
///
/// # Errors
///
/// `Cycle`: a reachable alias of one of them is cyclic. `TooLarge`: in one of them more than 65,536 members come in the place of
/// aliases, or the lines have more than 16 MiB. `NoMemory`: memory ran out.
pub fn list_changes(
    alloc: Global,
    counted: CountedChanges,
    old: &Policy,
    new: &Policy,
) -> Result<PolicyChanges, CompareFault>
    ensures text { IfOk result (λ changes. IsChangesText counted old.now new.now changes.answers.text.items) }
    ensures straight { IfOk result (λ _. (HasCyclicAliasReachedFromSpecOrDefaults old.now.walk.lines → ⊥) × (HasCyclicAliasReachedFromSpecOrDefaults new.now.walk.lines → ⊥)) }
    ensures fault { IfErr result (λ fault. (fault ≡ NoMemory) ⊎ ((fault ≡ TooLarge) ⊎ ((fault ≡ Cycle)
        × (HasCyclicAliasReachedFromSpecOrDefaults old.now.walk.lines ⊎ HasCyclicAliasReachedFromSpecOrDefaults new.now.walk.lines)))) }
{
    let old_flat = FlatPolicy::new(alloc, old)?;
    let new_flat = FlatPolicy::new(alloc, new)?;
    let old_rows = old_flat.list_rows(alloc)?;
    let new_rows = new_flat.list_rows(alloc)?;
    let olds = RowsOfSpecs {
        tables: old_flat.tables,
        specs: old_flat.specs.as_slice(),
        rows: old_rows.as_slice(),
    };
    let news = RowsOfSpecs {
        tables: new_flat.tables,
        specs: new_flat.specs.as_slice(),
        rows: new_rows.as_slice(),
    };
    let marks = mark_changed_rows_of_specs(alloc, counted, olds, news)?;
    let mut answers = ChangeLines::new(alloc);
    append_rows_with_marks(
        alloc,
        &mut answers,
        counted,
        old,
        old_rows.as_slice(),
        new,
        new_rows.as_slice(),
        &marks,
    )?;
    append_changed_settings(alloc, &mut answers, &old_flat, &new_flat)?;
    let others = list_changed_other_defaults(alloc, &old_flat, &new_flat)?;
    Ok(PolicyChanges { answers, others })
}
