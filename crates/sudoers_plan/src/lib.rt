//! Wishes of a policy, and the edits that make them true.
#![tactic(auto)]

mod fault;
mod line_text;
mod line_wishes;
mod member_text;
mod member_wishes;
mod planning;
mod user_aliases;
mod user_definitions;
mod user_lines;
mod user_members;
mod user_misread;
mod user_refusals;
mod user_wish;
mod wish;
mod wish_words;

pub use fault::{PlanFault, PlanRefusal};
pub use line_wishes::count_equal_lines;
pub use planning::plan;
pub use sudoers_edit::{Edit, EditFault, Edits, Text};
pub use wish::{LinePlace, Wish};
pub use wish_words::{WishFault, WishOptions, WishPart, read_wish};
