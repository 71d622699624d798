//! The rules of a policy as JSON.
#![tactic(auto)]

mod lists;
mod objects;
mod output;
mod rule_entries;
mod rules;

pub use rules::json;
