//! What lint finds in Defaults lines.

ghost use Rattle.std.specs.Prelude.{◌≡◌, ◌++◌, map, IfErr, IfOk, OnOk};
ghost use Rattle.std.specs.List.{list_any};
ghost use Rattle.std.specs.Option.{option_map};
ghost use Rattle.sudoers_line_rows.specs.Tables.{node_in_tables, parameters_of_range_in_tables};
ghost use Rattle.sudoers_line_rows.specs.View.{parameter_of_view, setting_of_view};
ghost use Rattle.sudoers_tree.specs.Line.{lines_of_rows};
ghost use Rattle.sudoers_review.specs.Faults.{IsMemoryOrSizeFault};
ghost use Rattle.sudoers_lint.specs.Findings.{findings_of_lines, findings_of_node, findings_of_param, findings_of_params, first_start};
ghost use Rattle.sudoers_lint.specs.Lint.{does_set_risky_variable, is_param_with_environment};
ghost use Rattle.sudoers_lint.specs.Names.{is_risky_variable, texts_of_view};
ghost use Rattle.sudoers_lint.specs.Views.{findings_of_view};

use crate::finding_list::FindingList;
use crate::parameter_starts::list_parameter_starts;
use crate::rule_set::RuleSet;
use crate::variables::is_risky_variable;
use crate::words::list_words_of_value;
use std::alloc::{AllocError, Global};
use sudoers_cvt_spell::append_param;
use sudoers_line_rows::{NodeRow, Param, RowRange, RowsOfTable, Setting, Tables, rows_in};
use sudoers_review::CompareFault;
use sudoers_tree::{LineRow, Operator};

/// Returns whether one of `words` can name a variable that can change what a command does.
fn has_risky_variable(words: &[&[u8]]) -> bool
    ensures { result ≡ list_any is_risky_variable (texts_of_view words.now) }
{
    for word in words {
        if is_risky_variable(word) {
            return true;
        }
    }
    false
}

/// Returns whether `setting`, if there is one, is `=` or `+=` and has a word that can name a variable that can change what a command does.
fn does_set_risky_variable(alloc: Global, setting: &Option<Setting<'_>>) -> Result<bool, AllocError>
    ensures { IfOk result (λ sets. sets ≡ does_set_risky_variable (option_map setting_of_view setting.now)) }
{
    let Some(setting) = setting else {
        return Ok(false);
    };
    if setting.operator == Operator::Remove {
        return Ok(false);
    }
    let words = list_words_of_value(alloc, setting.value)?;
    Ok(has_risky_variable(words.as_slice()))
}

/// Returns whether `param` lets users set variables that can change what a command does.
fn is_param_with_environment(alloc: Global, param: &Param<'_>) -> Result<bool, AllocError>
    ensures { IfOk result (λ lets. lets ≡ is_param_with_environment (parameter_of_view param.now)) }
{
    if param.name == b"setenv".as_slice() {
        return Ok(!param.negated);
    }
    if param.name == b"env_reset".as_slice() {
        return Ok(param.negated);
    }
    if param.name == b"env_keep".as_slice() {
        return does_set_risky_variable(alloc, &param.setting);
    }
    Ok(false)
}

/// Adds to `found` what is found of `param`, which begins at the byte `start` of the line with the number `line`.
fn add_findings_of_param(
    alloc: Global,
    line: usize,
    start: usize,
    param: &Param<'_>,
    found: &mut FindingList,
) -> Result<(), CompareFault>
    ensures added { OnOk result (findings_of_view found.new.findings.items ≡ findings_of_view found.old.findings.items ++ findings_of_param line start (parameter_of_view param.now)) }
    ensures fault { IfErr result IsMemoryOrSizeFault }
{
    if !is_param_with_environment(alloc, param)? {
        return Ok(());
    }
    let mut subject = Vec::new(alloc);
    append_param(alloc, &mut subject, param)?;
    let mut rules = RuleSet::new();
    rules.environment = true;
    found.add_findings(alloc, rules, line, start, subject.as_slice())
}

/// Returns the first of `starts`, or 0.
fn find_first_start(starts: &[usize]) -> usize
    ensures { result ≡ first_start starts.now }
{
    match starts {
        [start, ..] => *start,
        [] => 0,
    }
}

/// Adds to `found` what is found of the parameters `params`, rows of `tables`. They begin at the bytes `starts` of the line with the number
/// `line`.
fn add_findings_of_params(
    alloc: Global,
    tables: &Tables,
    line: usize,
    starts: &[usize],
    params: RowRange,
    found: &mut FindingList,
) -> Result<(), CompareFault>
    ensures added { OnOk result (findings_of_view found.new.findings.items ≡ findings_of_view found.old.findings.items ++ findings_of_params line starts.now (parameters_of_range_in_tables tables.now params)) }
    ensures fault { IfErr result IsMemoryOrSizeFault }
{
    let mut left = starts;
    for row in rows_in(tables.params.as_slice(), params) {
        let param = tables.parameter_of_row(row);
        add_findings_of_param(alloc, line, find_first_start(left), &param, found)?;
        left = left.get(1..).unwrap_or(&[]);
    }
    Ok(())
}

/// Adds to `found` what is found of a Defaults line that `row` says, if it is one. It has the number `line` and the text `text`.
fn add_findings_of_node(
    alloc: Global,
    tables: &Tables,
    line: usize,
    text: &[u8],
    row: &NodeRow,
    found: &mut FindingList,
) -> Result<(), CompareFault>
    ensures added { OnOk result (findings_of_view found.new.findings.items ≡ findings_of_view found.old.findings.items ++ findings_of_node line text.now (node_in_tables tables.now row.now)) }
    ensures fault { IfErr result IsMemoryOrSizeFault }
{
    match row {
        NodeRow::Defaults { params, .. } => {
            let starts = list_parameter_starts(alloc, text)?;
            add_findings_of_params(alloc, tables, line, starts.as_slice(), *params, found)
        }
        _ => Ok(()),
    }
}

/// Adds to `found` what is found of the Defaults lines among `lines`, in their order.
pub fn add_findings_of_lines(
    alloc: Global,
    lines: &RowsOfTable<'_, LineRow>,
    found: &mut FindingList,
) -> Result<(), CompareFault>
    ensures added { OnOk result (findings_of_view found.new.findings.items ≡ findings_of_view found.old.findings.items ++ findings_of_lines 0 (lines_of_rows lines.now)) }
    ensures fault { IfErr result IsMemoryOrSizeFault }
{
    for (line, row) in lines.rows.iter().enumerate() {
        let text = lines.tables.bytes_of_text_row(row.text);
        add_findings_of_node(alloc, lines.tables, line, text, &row.node, found)?;
    }
    Ok(())
}
