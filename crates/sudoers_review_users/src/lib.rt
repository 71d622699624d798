//! What a change of a policy grants each user on a host, or takes from him.
#![tactic(auto)]

mod answers;
mod changed_rules;
mod compared_policies;
mod deciding_rows;
mod example_commands;
mod example_requests;
mod examples;
mod flat_verdicts;
pub mod laws;
mod left_rules;
mod user_changes;
mod user_lines;
mod user_rows;
mod users;
mod users_fault;

pub use users::{AskedUsers, UserChanges, list_user_changes};
pub use users_fault::UserChangesFault;
