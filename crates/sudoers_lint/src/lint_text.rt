//! What is printed of what lint finds.

ghost use Rattle.std.specs.Prelude.{◌≡◌, ◌⊎◌, ◌++◌, IfErr, IfOk, OnOk};
ghost use Rattle.std.specs.List.{flat_map};
ghost use Rattle.sudoers_check.specs.Chains.{HasCyclicAliasReachedFromSpecOrDefaults};
ghost use Rattle.sudoers_review.specs.Faults.{IsMemoryOrSizeFault};
ghost use Rattle.sudoers_review.specs.declared.compare_fault.CompareFault.TheVariants.{Cycle, NoMemory, TooLarge};
ghost use Rattle.sudoers_lint.specs.LintText.{lint_line, lint_text};
ghost use Rattle.sudoers_lint.specs.Views.{finding_of_view, findings_of_view};

use crate::finding_list::LintFinding;
use crate::findings::find_lint_findings;
use std::alloc::{AllocError, Global};
use sudoers_check::WalkCursor;
use sudoers_list::append_place_at_cursor;
use sudoers_review::CompareFault;
use sudoers_tree::Policy;

/// How many bytes a text may have before another line is appended.
const TEXT_LIMIT: usize = 16_777_216;

/// Appends the line on `finding` to `out`. `cursor` goes over the walk of the policy.
fn append_finding_line(
    alloc: Global,
    out: &mut Vec<u8>,
    cursor: &mut WalkCursor<'_>,
    finding: &LintFinding,
) -> Result<(), AllocError>
    ensures line { OnOk result (out.new.items ≡ out.old.items ++ lint_line cursor.old.policy.now (finding_of_view finding.now)) }
    ensures policy { cursor.new.policy.now ≡ cursor.old.policy.now }
{
    append_place_at_cursor(alloc, out, cursor, finding.line, finding.start)?;
    out.extend_from_slice(b": warning: ")?;
    out.extend_from_slice(finding.rule.name())?;
    out.extend_from_slice(b": ")?;
    out.extend_from_slice(finding.subject.as_slice())?;
    out.extend_from_slice(b": ")?;
    out.extend_from_slice(finding.rule.words())?;
    out.extend_from_slice(b"\n")
}

/// Appends the lines on `findings` to `out`.
fn append_finding_lines(
    alloc: Global,
    out: &mut Vec<u8>,
    policy: &Policy,
    findings: &[LintFinding],
) -> Result<(), CompareFault>
    ensures lines { OnOk result (out.new.items ≡ out.old.items ++ flat_map (lint_line policy.now) (findings_of_view findings.now)) }
    ensures fault { IfErr result IsMemoryOrSizeFault }
{
    let mut cursor = WalkCursor::new(policy);
    for finding in findings {
        append_finding_line(alloc, out, &mut cursor, finding)?;
        if out.len() > TEXT_LIMIT {
            return Err(CompareFault::TooLarge);
        }
    }
    Ok(())
}

/// Returns a line for each finding of `policy`: where it stands, the rule, the command or parameter, and what is said of it.
///
/// # Errors
///
/// Those of [`find_lint_findings`]. `TooLarge`: the lines have more than 16 MiB, too.
pub fn make_lint_text(alloc: Global, policy: &Policy) -> Result<Vec<u8>, CompareFault>
    ensures text { IfOk result (λ text. text.items ≡ lint_text policy.now) }
    ensures straight { IfOk result (λ _. HasCyclicAliasReachedFromSpecOrDefaults policy.now.walk.lines → ⊥) }
    ensures fault { IfErr result (λ fault. (fault ≡ NoMemory) ⊎ ((fault ≡ TooLarge) ⊎ ((fault ≡ Cycle) × HasCyclicAliasReachedFromSpecOrDefaults policy.now.walk.lines))) }
{
    let findings = find_lint_findings(alloc, policy)?;
    let mut text = Vec::new(alloc);
    append_finding_lines(alloc, &mut text, policy, findings.as_slice())?;
    Ok(text)
}
