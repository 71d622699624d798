//! What lint finds, in a list of bounded size.

ghost use Rattle.std.specs.Prelude.{◌≡◌, ◌++◌, ◌∷◌, [], map, IfErr, OnOk};
ghost use Rattle.sudoers_review.specs.Faults.{IsMemoryOrSizeFault};
ghost use Rattle.sudoers_lint.specs.Findings.{finding_at};
ghost use Rattle.sudoers_lint.specs.RuleSets.{rules_in_set};
ghost use Rattle.sudoers_lint.specs.Rules.{rule_if};
ghost use Rattle.sudoers_lint.specs.Views.{findings_of_view};

use crate::lint_rule::LintRule;
use crate::rule_set::RuleSet;
use std::alloc::Global;
use sudoers_review::CompareFault;

/// How many bytes the findings have at most: their subjects, and `FINDING_BYTES` more of each.
const SIZE_LIMIT: usize = 16_777_216;

/// How many bytes a finding counts beside its subject.
const FINDING_BYTES: usize = 32;

/// A rule that is broken.
#[derive(Drop)]
pub struct LintFinding {
    /// The number of the line on the walk, from 0.
    pub line: usize,
    /// The byte of the line, from 0, at which the command or the parameter begins.
    pub start: usize,
    pub rule: LintRule,
    /// The command or the parameter, as it is printed.
    pub subject: Vec<u8>,
}

/// Findings, and how many bytes more they may have.
#[derive(Drop)]
pub struct FindingList {
    pub findings: Vec<LintFinding>,
    left: usize,
}

impl FindingList {
    /// Returns the list without a finding.
    pub fn new(alloc: Global) -> FindingList
        ensures { result.findings.items ≡ [] }
    {
        FindingList {
            findings: Vec::new(alloc),
            left: SIZE_LIMIT,
        }
    }

    /// Adds the finding that `rule` is broken at this place.
    fn add_finding(
        &mut self,
        alloc: Global,
        line: usize,
        start: usize,
        rule: LintRule,
        subject: &[u8],
    ) -> Result<(), CompareFault>
        ensures added { OnOk result (findings_of_view self.new.findings.items ≡ findings_of_view self.old.findings.items ++ finding_at line start subject.now rule ∷ []) }
        ensures fault { IfErr result IsMemoryOrSizeFault }
    {
        let size = subject.len().saturating_add(FINDING_BYTES);
        let Some(left) = self.left.checked_sub(size) else {
            return Err(CompareFault::TooLarge);
        };
        self.left = left;
        self.findings.push(LintFinding {
            line,
            start,
            rule,
            subject: Vec::from_slice(alloc, subject)?,
        })?;
        Ok(())
    }

    /// Adds the finding that `rule` is broken at this place, if it is.
    fn add_finding_if(
        &mut self,
        alloc: Global,
        is_broken: bool,
        line: usize,
        start: usize,
        rule: LintRule,
        subject: &[u8],
    ) -> Result<(), CompareFault>
        ensures added { OnOk result (findings_of_view self.new.findings.items ≡ findings_of_view self.old.findings.items ++ map (finding_at line start subject.now) (rule_if is_broken rule)) }
        ensures fault { IfErr result IsMemoryOrSizeFault }
    {
        if is_broken {
            return self.add_finding(alloc, line, start, rule, subject);
        }
        Ok(())
    }

    /// Adds the findings that the rules `rules` are broken at this place, in their order.
    pub fn add_findings(
        &mut self,
        alloc: Global,
        rules: RuleSet,
        line: usize,
        start: usize,
        subject: &[u8],
    ) -> Result<(), CompareFault>
        ensures added { OnOk result (findings_of_view self.new.findings.items ≡ findings_of_view self.old.findings.items ++ map (finding_at line start subject.now) (rules_in_set rules)) }
        ensures fault { IfErr result IsMemoryOrSizeFault }
    {
        self.add_finding_if(
            alloc,
            rules.everyone,
            line,
            start,
            LintRule::Everyone,
            subject,
        )?;
        self.add_finding_if(alloc, rules.all_but, line, start, LintRule::AllBut, subject)?;
        self.add_finding_if(
            alloc,
            rules.nopasswd_any,
            line,
            start,
            LintRule::NopasswdAny,
            subject,
        )?;
        self.add_finding_if(
            alloc,
            rules.deny_list,
            line,
            start,
            LintRule::DenyList,
            subject,
        )?;
        self.add_finding_if(
            alloc,
            rules.environment,
            line,
            start,
            LintRule::Environment,
            subject,
        )?;
        self.add_finding_if(alloc, rules.way_out, line, start, LintRule::WayOut, subject)
    }
}
