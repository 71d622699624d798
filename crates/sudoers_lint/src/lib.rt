//! Rules of a policy that give away more than they seem to.
#![tactic(auto)]

mod broken_rules;
mod comments;
mod default_findings;
mod finding_list;
mod findings;
mod lint_rule;
mod lint_text;
mod parameter_starts;
mod programs;
mod row_findings;
mod rule_set;
mod silenced_lines;
mod unsilenced;
mod user_lists;
mod variables;
mod words;

pub use finding_list::LintFinding;
pub use findings::find_lint_findings;
pub use lint_rule::LintRule;
pub use lint_text::make_lint_text;
