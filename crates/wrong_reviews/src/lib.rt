//! Calls of the libraries that compare and review policies, each with a clause that its library promises.
#![tactic(auto)]

mod answers;
mod findings;
mod reviews;
mod rows;
mod users;

pub use answers::answer_after_edits;
pub use findings::findings_of_policy;
pub use reviews::{changes_of_policy, overruled_commands_of_policy};
pub use rows::{is_row_covered, marks_of_changes, overruling_rows_of_list};
pub use users::changes_of_users;
