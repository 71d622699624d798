//! Rows that changed and are of no user who is asked about, or are not decided.

ghost use Rattle.std.specs.Prelude.{IfErr};
ghost use Rattle.sudoers_review.specs.Faults.{IsMemoryOrSizeFault};

use crate::changed_rules::{ChangedRules, is_row_of_user};
use crate::compared_policies::ComparedPolicies;
use std::alloc::{AllocError, Global};
use sudoers_compare::{FlatRow, PlacedFlatRow};
use sudoers_line_rows::{BorrowedAtom, MemberRow, RowsOfTable};
use sudoers_match::Who;
use sudoers_review::{ChangeLines, CompareFault, RuleChange, append_changed_row};
use sudoers_tree::Policy;

/// What stands before the lines.
const HEADING: &[u8] = b"Changed rules that may be of other users or hosts:\n";

/// Which of the rows that changed a user has.
#[derive(Drop)]
pub struct TakenRules {
    old: Vec<bool>,
    new: Vec<bool>,
}

/// Which rows are left: all that no user has, or only those that are not decided.
#[derive(Clone, Copy)]
pub struct LeftRulesAsked {
    /// Whether all users of a machine are asked about.
    pub is_everyone_asked: bool,
    /// Whether the interfaces of the host are known.
    pub has_interfaces: bool,
}

/// Sets each of `taken` whose row has a mark, and is for the user and the host of `who`.
fn take_rows_of_user(rows: &[PlacedFlatRow<'_>], marks: &[bool], taken: &mut Vec<bool>, who: &Who) {
    for number in 0..rows.len().min(marks.len()).min(taken.len()) {
        if marks[number] && !taken[number] && is_row_of_user(&rows[number].row, who) {
            taken[number] = true;
        }
    }
}

impl TakenRules {
    /// Returns that no user has one of `rules` yet.
    ///
    /// # Errors
    ///
    /// Memory ran out.
    pub fn new(alloc: Global, rules: &ChangedRules<'_>) -> Result<TakenRules, AllocError> {
        Ok(TakenRules {
            old: Vec::from_elem(alloc, false, rules.old_rows.len())?,
            new: Vec::from_elem(alloc, false, rules.new_rows.len())?,
        })
    }

    /// Takes those of `rules` that are for the user and the host of `who`.
    pub fn take_rules_of(&mut self, rules: &ChangedRules<'_>, who: &Who) {
        let (gone, came) = (rules.marks.gone.as_slice(), rules.marks.came.as_slice());
        take_rows_of_user(rules.old_rows.as_slice(), gone, &mut self.old, who);
        take_rows_of_user(rules.new_rows.as_slice(), came, &mut self.new, who);
    }
}

/// Returns whether no file decides what `atom` matches. With `has_interfaces` the addresses of the host are known.
fn is_atom_undecided(atom: &BorrowedAtom<'_>, has_interfaces: bool) -> bool {
    match *atom {
        BorrowedAtom::Netgroup(_) | BorrowedAtom::NonUnix(_) => true,
        BorrowedAtom::Address(_) | BorrowedAtom::Network(_, _) => !has_interfaces,
        _ => false,
    }
}

/// Returns whether no file decides what a member of `list` matches.
fn has_undecided_member(list: &RowsOfTable<'_, MemberRow>, has_interfaces: bool) -> bool {
    for row in list.rows {
        if is_atom_undecided(&list.tables.member_of_row(row).atom, has_interfaces) {
            return true;
        }
    }
    false
}

/// Returns whether a row is left that a user has or not, as `is_taken` says.
fn is_row_left(row: &FlatRow<'_>, is_taken: bool, asked: LeftRulesAsked) -> bool {
    (asked.is_everyone_asked && !is_taken)
        || has_undecided_member(&row.users, asked.has_interfaces)
        || has_undecided_member(&row.hosts, asked.has_interfaces)
}

/// Appends to `out` the lines on the marked rows of `policy` that are left, to which `change` happened.
fn append_left_rows(
    alloc: Global,
    out: &mut ChangeLines,
    change: RuleChange,
    policy: &Policy,
    rows: &[PlacedFlatRow<'_>],
    marks: &[bool],
    taken: &[bool],
    asked: LeftRulesAsked,
) -> Result<(), CompareFault>
    ensures { IfErr result IsMemoryOrSizeFault }
{
    for number in 0..rows.len().min(marks.len()).min(taken.len()) {
        if marks[number] && is_row_left(&rows[number].row, taken[number], asked) {
            append_changed_row(alloc, out, change, policy, &rows[number])?;
        }
    }
    Ok(())
}

/// Returns a heading and the lines on those of `rules`, of `compared`, that are left, or nothing.
///
/// # Errors
///
/// `TooLarge`: the lines have more than 16 MiB. `NoMemory`: memory ran out.
pub fn list_left_rules(
    alloc: Global,
    compared: &ComparedPolicies<'_>,
    rules: &ChangedRules<'_>,
    taken: &TakenRules,
    asked: LeftRulesAsked,
) -> Result<ChangeLines, CompareFault>
    ensures { IfErr result IsMemoryOrSizeFault }
{
    let mut out = ChangeLines::new(alloc);
    out.text.extend_from_slice(HEADING)?;
    append_left_rows(
        alloc,
        &mut out,
        RuleChange::Went,
        compared.old.policy,
        rules.old_rows.as_slice(),
        rules.marks.gone.as_slice(),
        taken.old.as_slice(),
        asked,
    )?;
    append_left_rows(
        alloc,
        &mut out,
        RuleChange::Came,
        compared.new.policy,
        rules.new_rows.as_slice(),
        rules.marks.came.as_slice(),
        taken.new.as_slice(),
        asked,
    )?;
    if out.lines.is_empty() {
        out.text.truncate(0);
    }
    Ok(out)
}
