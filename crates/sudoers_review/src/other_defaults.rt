//! What is printed of the parameters of Defaults that no answer depends on, where two policies differ.

ghost use Rattle.std.specs.Prelude.{IfErr};
ghost use Rattle.sudoers_review.specs.Faults.{IsMemoryOrSizeFault};

use crate::change_lines::{
    ChangeLine, ChangeLines, PlaceOnWalk, RuleChange, TextPart, append_line_end, sign_of,
};
use crate::changed_settings::append_flat_scope;
use crate::compare_fault::CompareFault;
use crate::flat_policy::FlatPolicy;
use crate::row_text::{TEXT_LIMIT, count_member_bytes};
use std::alloc::{AllocError, Global};
use sudoers_compare::{ComparedLists, FlatScope, choose_marks, find_unmarked, flatten_scope};
use sudoers_cvt_spell::append_param;
use sudoers_line_rows::{NodeRow, ParamRow, RowRange, ScopeRow, Tables, rows_in};
use sudoers_match::read_runas_default_param;
use sudoers_match_list::ExpansionSource;
use sudoers_tree::Policy;

/// A parameter of a Defaults line that does not set runas_default, as it is printed, and the number of its line on the walk, from 0.
#[derive(Drop)]
pub struct OtherDefault {
    line: usize,
    text: Vec<u8>,
}

/// The texts of the parameters of two policies.
#[derive(Clone, Copy)]
struct ComparedDefaults<'o, 'n> {
    old: &'o [OtherDefault],
    new: &'n [OtherDefault],
}

impl<'o, 'n> ComparedLists for ComparedDefaults<'o, 'n> {
    fn is_same_at(&self, i: usize, j: usize) -> bool {
        match (self.old.get(i), self.new.get(j)) {
            (Some(default), Some(other)) => default.text.as_slice() == other.text.as_slice(),
            _ => false,
        }
    }
}

/// Appends the text of the parameter `row` to `out`, behind `scope` as it is printed.
fn make_default_text(
    alloc: Global,
    tables: &Tables,
    scope: &[u8],
    row: &ParamRow,
) -> Result<Vec<u8>, AllocError> {
    let mut text = Vec::from_slice(alloc, b"Defaults")?;
    text.extend_from_slice(scope)?;
    text.extend_from_slice(b" ")?;
    append_param(alloc, &mut text, &tables.parameter_of_row(row))?;
    Ok(text)
}

/// Returns `scope` as it is printed, its list flat. Its members are taken from `allowance`.
fn make_scope_text(
    alloc: Global,
    source: &ExpansionSource<'_, '_>,
    scope: Option<ScopeRow>,
    allowance: &mut usize,
) -> Result<Vec<u8>, CompareFault>
    ensures { IfErr result IsMemoryOrSizeFault }
{
    let scope: Option<FlatScope> = flatten_scope(alloc, source, scope, allowance)?;
    if let Some(scope) = &scope
        && count_member_bytes(0, scope.members.as_slice()) > TEXT_LIMIT
    {
        return Err(CompareFault::TooLarge);
    }
    let mut text = Vec::new(alloc);
    append_flat_scope(alloc, &mut text, source.lines.tables, &scope)?;
    Ok(text)
}

/// The parameters of Defaults of a policy that do not set runas_default, and how many bytes their texts may still have.
#[derive(Drop)]
pub struct OtherDefaults {
    pub list: Vec<OtherDefault>,
    left: usize,
}

impl OtherDefaults {
    /// Returns those of the policy that `source` has, in file order. Their members are taken from `allowance`.
    pub fn new(
        alloc: Global,
        source: &ExpansionSource<'_, '_>,
        allowance: &mut usize,
    ) -> Result<OtherDefaults, CompareFault>
        ensures { IfErr result IsMemoryOrSizeFault }
    {
        let mut others = OtherDefaults {
            list: Vec::new(alloc),
            left: TEXT_LIMIT,
        };
        for (line, row) in source.lines.rows.iter().enumerate() {
            if let NodeRow::Defaults { scope, params } = &row.node {
                let scope = make_scope_text(alloc, source, *scope, allowance)?;
                others.add_params(alloc, source.lines.tables, line, scope.as_slice(), *params)?;
            }
        }
        Ok(others)
    }

    /// Adds the parameters of the line with the number `line`, but for those that set runas_default.
    fn add_params(
        &mut self,
        alloc: Global,
        tables: &Tables,
        line: usize,
        scope: &[u8],
        params: RowRange,
    ) -> Result<(), CompareFault>
        ensures { IfErr result IsMemoryOrSizeFault }
    {
        for row in rows_in(tables.params.as_slice(), params) {
            if read_runas_default_param(&tables.parameter_of_row(row)).is_none() {
                let text = make_default_text(alloc, tables, scope, row)?;
                let Some(left) = self.left.checked_sub(text.len()) else {
                    return Err(CompareFault::TooLarge);
                };
                self.left = left;
                self.list.push(OtherDefault { line, text })?;
            }
        }
        Ok(())
    }
}

/// Appends to `out` the line on `default`, of `policy`, to which `change` happened.
fn append_default_line(
    alloc: Global,
    out: &mut ChangeLines,
    change: RuleChange,
    policy: &Policy,
    default: &OtherDefault,
) -> Result<(), AllocError> {
    out.text.extend_from_slice(sign_of(change))?;
    let start = out.text.len();
    out.text.extend_from_slice(default.text.as_slice())?;
    let stop = out.text.len();
    let rule = TextPart { start, stop };
    let line = ChangeLine::from_rule(change, rule, PlaceOnWalk::from_line(default.line));
    append_line_end(alloc, out, policy, line)
}

/// Appends to `out` the lines on the parameters from number `from` up to `to`, to which `change` happened.
fn append_default_lines(
    alloc: Global,
    out: &mut ChangeLines,
    change: RuleChange,
    flat: &FlatPolicy<'_>,
    from: usize,
    to: usize,
) -> Result<(), AllocError> {
    for number in from..to {
        if let Some(default) = flat.others.list.get(number) {
            append_default_line(alloc, out, change, flat.policy, default)?;
        }
    }
    Ok(())
}

/// Returns a heading and the lines on the parameters in which the policies differ, or nothing if these are the same in both.
pub fn list_changed_other_defaults(
    alloc: Global,
    old: &FlatPolicy<'_>,
    new: &FlatPolicy<'_>,
) -> Result<ChangeLines, AllocError> {
    let lists = ComparedDefaults {
        old: old.others.list.as_slice(),
        new: new.others.list.as_slice(),
    };
    let marks = choose_marks(alloc, &lists, lists.old.len(), lists.new.len())?;
    let mut out = ChangeLines::new(alloc);
    out.text
        .extend_from_slice(b"Defaults that this program does not weigh:\n")?;
    let (mut i, mut j) = (0, 0);
    while i < lists.old.len() || j < lists.new.len() {
        let old_end = find_unmarked(marks.gone.as_slice(), i);
        let new_end = find_unmarked(marks.came.as_slice(), j);
        append_default_lines(alloc, &mut out, RuleChange::Went, old, i, old_end)?;
        append_default_lines(alloc, &mut out, RuleChange::Came, new, j, new_end)?;
        i = old_end.saturating_add(1);
        j = new_end.saturating_add(1);
    }
    if out.lines.is_empty() {
        out.text.truncate(0);
    }
    Ok(out)
}
