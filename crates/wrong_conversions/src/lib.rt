//! Calls of the libraries that convert a policy, each with the clauses that its library promises.
#![tactic(auto)]

mod filters;
mod printing;
mod rules;

pub use filters::{filter_of_text, rewrite_policy, rules_of_lines};
pub use printing::{print_defaults, print_list};
pub use rules::{command_text, json_of_rules, text_of_rules};
