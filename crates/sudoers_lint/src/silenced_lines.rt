//! Lines on which comments allow rules to be broken.

ghost use Rattle.std.specs.Prelude.{◌≡◌, ◌||◌, option_and_then, slice_get, IfOk, OnOk};
ghost use Rattle.std.specs.List.{list_any};
ghost use Rattle.std.specs.Option.{option_map};
ghost use Rattle.sudoers_tree.specs.Files.{lines_of_numbered_file};
ghost use Rattle.sudoers_tree.specs.Line.{line_of_view};
ghost use Rattle.sudoers_lint.specs.declared.lint_rule.LintRule.{LintRule as LintRuleOf};
ghost use Rattle.sudoers_lint.specs.RuleSets.{is_in_rule_set};
ghost use Rattle.sudoers_lint.specs.Rules.{is_same_rule};
ghost use Rattle.sudoers_lint.specs.Silenced.{is_silenced_on_line, line_before_spot, rules_allowed_by_comment_line, rules_allowed_by_line};

use crate::comments::add_rules_allowed_by_text;
use crate::rule_set::RuleSet;
use std::alloc::{AllocError, Global};
use sudoers_line_rows::Node;
use sudoers_tree::{Line, Policy, WalkLineSpot};

/// Returns the line with the number `number` of the walk.
fn find_walk_line(policy: &Policy, number: usize) -> Option<Line<'_>>
    ensures { option_map line_of_view result ≡ slice_get policy.now.walk.lines number }
{
    let lines = policy.lines();
    Some(Line::from_line_row(lines.tables, lines.rows.get(number)?))
}

/// Returns the line with the number `number` of the file with the number `file`.
fn find_file_line(policy: &Policy, file: usize, number: usize) -> Option<Line<'_>>
    ensures { option_map line_of_view result ≡ slice_get (lines_of_numbered_file policy.now.files file) number }
{
    let lines = policy.lines_of_file(file);
    Some(Line::from_line_row(lines.tables, lines.rows.get(number)?))
}

/// Returns the line directly before `spot` in its file.
fn find_line_before_spot(policy: &Policy, spot: WalkLineSpot) -> Option<Line<'_>>
    ensures { option_map line_of_view result ≡ line_before_spot policy.now spot }
{
    if spot.line == 0 {
        return None;
    }
    find_file_line(policy, spot.file, spot.line - 1)
}

/// Returns the line that stands in its file directly before the line with the number `number` of the walk.
fn find_line_before(policy: &Policy, number: usize) -> Option<Line<'_>>
    ensures { option_map line_of_view result ≡ option_and_then (line_before_spot policy.now) (slice_get policy.now.walk.spots number) }
{
    match policy.spots_of_walk_lines().get(number) {
        Some(spot) => find_line_before_spot(policy, *spot),
        None => None,
    }
}

/// Adds to `allowed` the rules that `line`, if there is one, allows to break.
fn add_rules_allowed_by_line(
    alloc: Global,
    line: Option<Line<'_>>,
    allowed: &mut RuleSet,
) -> Result<(), AllocError>
    ensures { OnOk result ((rule : LintRuleOf) → is_in_rule_set allowed.new rule ≡ (is_in_rule_set allowed.old rule || list_any (is_same_rule rule) (rules_allowed_by_line (option_map line_of_view line.entry)))) }
{
    match line {
        Some(line) => add_rules_allowed_by_text(alloc, line.text, allowed),
        None => Ok(()),
    }
}

/// Adds to `allowed` the rules that `line`, if it is a comment, allows to break.
fn add_rules_allowed_by_comment_line(
    alloc: Global,
    line: Option<Line<'_>>,
    allowed: &mut RuleSet,
) -> Result<(), AllocError>
    ensures { OnOk result ((rule : LintRuleOf) → is_in_rule_set allowed.new rule ≡ (is_in_rule_set allowed.old rule || list_any (is_same_rule rule) (rules_allowed_by_comment_line (option_map line_of_view line.entry)))) }
{
    match line {
        Some(
            Line {
                text,
                node: Node::Comment,
            },
        ) => add_rules_allowed_by_text(alloc, text, allowed),
        _ => Ok(()),
    }
}

/// Returns the rules that may be broken on the line with the number `number` of the walk: its own comment allows them, or a line before it
/// that is a comment.
///
/// # Errors
///
/// Memory ran out.
pub fn find_rules_allowed_on_line(
    alloc: Global,
    policy: &Policy,
    number: usize,
) -> Result<RuleSet, AllocError>
    ensures { IfOk result (λ allowed. (rule : LintRuleOf) → is_in_rule_set allowed rule ≡ is_silenced_on_line policy.now number rule) }
{
    let mut allowed = RuleSet::new();
    add_rules_allowed_by_line(alloc, find_walk_line(policy, number), &mut allowed)?;
    add_rules_allowed_by_comment_line(alloc, find_line_before(policy, number), &mut allowed)?;
    Ok(allowed)
}
