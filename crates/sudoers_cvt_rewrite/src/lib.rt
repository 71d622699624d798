//! Lines of a policy, filtered and with their aliases replaced.
#![tactic(auto)]

mod changing;
mod commands;
mod copied_tables;
mod filter;
mod filter_atom_matching;
mod filter_text;
mod filter_values;
mod filtered_line_writing;
mod list_writing;
mod matching;
mod member_effects;
mod member_tally;
mod node_writing;
mod pruning;
mod rewriting;
mod selecting;
mod user_spec_writing;
mod values_matcher;

pub use changing::{
    RewriteChanges, RewrittenPolicy, rewrite_lines_of_acyclic_policy, rewrite_policy_lines,
};
pub use filter::Filter;
pub use filter_text::{FilterFault, read_filter};
