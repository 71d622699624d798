//! Sets of rules.

ghost use Rattle.std.specs.Prelude.{◌≡◌, ◌||◌, [], false, true};
ghost use Rattle.sudoers_lint.specs.declared.lint_rule.LintRule.{LintRule as LintRuleOf};
ghost use Rattle.sudoers_lint.specs.RuleSets.{is_in_rule_set, rules_in_set};
ghost use Rattle.sudoers_lint.specs.Rules.{is_same_rule};

use crate::lint_rule::LintRule;

/// A set of rules: of each whether it is in the set.
#[derive(Clone, Copy, PartialEq, Eq)]
pub struct RuleSet {
    pub everyone: bool,
    pub all_but: bool,
    pub nopasswd_any: bool,
    pub deny_list: bool,
    pub environment: bool,
    pub way_out: bool,
}

impl RuleSet {
    /// Returns the set without a rule.
    pub fn new() -> RuleSet
        ensures each { (rule : LintRuleOf) → is_in_rule_set result rule ≡ false }
        ensures none { rules_in_set result ≡ [] }
    {
        RuleSet {
            everyone: false,
            all_but: false,
            nopasswd_any: false,
            deny_list: false,
            environment: false,
            way_out: false,
        }
    }

    /// Returns whether `rule` is in the set.
    pub fn has_rule(&self, rule: LintRule) -> bool
        ensures { result ≡ is_in_rule_set self.now rule }
    {
        match rule {
            LintRule::Everyone => self.everyone,
            LintRule::AllBut => self.all_but,
            LintRule::NopasswdAny => self.nopasswd_any,
            LintRule::DenyList => self.deny_list,
            LintRule::Environment => self.environment,
            LintRule::WayOut => self.way_out,
        }
    }

    /// Returns whether no rule is in the set.
    pub fn is_empty(&self) -> bool
        ensures { result ≡ true → rules_in_set self.now ≡ [] }
    {
        !(self.everyone
            || self.all_but
            || self.nopasswd_any
            || self.deny_list
            || self.environment
            || self.way_out)
    }

    /// Adds `rule` to the set.
    pub fn add_rule(&mut self, rule: LintRule)
        ensures { (other : LintRuleOf) → is_in_rule_set self.new other ≡ (is_in_rule_set self.old other || is_same_rule other rule) }
    {
        match rule {
            LintRule::Everyone => self.everyone = true,
            LintRule::AllBut => self.all_but = true,
            LintRule::NopasswdAny => self.nopasswd_any = true,
            LintRule::DenyList => self.deny_list = true,
            LintRule::Environment => self.environment = true,
            LintRule::WayOut => self.way_out = true,
        }
    }
}
