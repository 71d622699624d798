//! Findings that no comment silences.

ghost use Rattle.std.specs.Prelude.{◌≡◌, IfOk};
ghost use Rattle.sudoers_lint.specs.Findings.{unsilenced_findings};
ghost use Rattle.sudoers_lint.specs.Views.{findings_of_view};
ghost use Rattle.sudoers_lint.specs.Known.{AreRulesKnown, AreRulesOfLine};

use crate::finding_list::LintFinding;
use crate::rule_set::RuleSet;
use crate::silenced_lines::find_rules_allowed_on_line;
use std::alloc::{AllocError, Global};
use sudoers_tree::Policy;

/// The rules that may be broken on the line of the walk with the number `line`.
#[derive(Clone, Copy)]
struct AllowedOnLine {
    line: usize,
    rules: RuleSet,
}

/// Returns the rules that may be broken on the line with the number `line`. `last` has those of another line, or of this one.
fn find_allowed_on_line(
    alloc: Global,
    policy: &Policy,
    last: Option<AllowedOnLine>,
    line: usize,
) -> Result<AllowedOnLine, AllocError>
    ensures { IfOk result (λ here. AreRulesKnown policy.now last → (here.line ≡ line) × AreRulesOfLine policy.now here) }
{
    if let Some(last) = last
        && last.line == line
    {
        return Ok(last);
    }
    Ok(AllowedOnLine {
        line,
        rules: find_rules_allowed_on_line(alloc, policy, line)?,
    })
}

/// Returns those of `findings` that no comment of `policy` silences.
pub fn keep_unsilenced(
    alloc: Global,
    policy: &Policy,
    findings: Vec<LintFinding>,
) -> Result<Vec<LintFinding>, AllocError>
    ensures { IfOk result (λ kept. findings_of_view kept.items ≡ unsilenced_findings policy.now (findings_of_view findings.items)) }
{
    let mut kept = Vec::new(alloc);
    let mut last: Option<AllowedOnLine> = None;
    for finding in findings {
        let here = find_allowed_on_line(alloc, policy, last, finding.line)?;
        if !here.rules.has_rule(finding.rule) {
            kept.push(finding)?;
        }
        last = Some(here);
    }
    Ok(kept)
}
