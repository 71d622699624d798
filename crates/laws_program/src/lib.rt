//! Laws of the program: what `convert` prints is a policy that means the same, what `edit` writes leads back, a run of `list` has one
//! outcome, and the files that are gathered come onto the walk of their policy in their order.
#![tactic(auto)]

mod answers;
mod convert_and_list_runs;
mod dialect_runs;
mod gathered_files_on_walk;
mod printing;
mod rewriting;
mod rewritten_answers;
mod way_back;

pub use answers::{printed_rules_answer, read_member_matches_same};
pub use convert_and_list_runs::{
    converted_policy_answers, expanded_policy_is_printed, filtered_policy_is_printed,
    one_list_outcome, same_expansions_answer_same,
};
pub use dialect_runs::{policy_in_dialect_is_converted, policy_in_dialect_is_expanded};
pub use gathered_files_on_walk::gathered_files_are_walked;
pub use printing::{printed_rules_are_read, rules_can_be_written, second_printing_is_same};
pub use rewriting::{
    expanded_rules_are_read, expanded_rules_can_be_written, filtered_rules_are_read,
    second_printing_of_expansion_is_same,
};
pub use rewritten_answers::{expanded_policy_answers, printed_expansion_answers};
pub use way_back::edit_leads_back;
