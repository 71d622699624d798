//! What is wrong with an edit script, one of its edits or a wish, for people: the line, what the policy has there, and what to do.
#![tactic(auto)]

mod bad_splices;
mod commands;
mod edit_hints;
mod edited_files;
mod input_mistakes;
mod line_refusals;
mod lists;
mod member_finder;
mod name_refusals;
mod nearest;
mod refusals;
mod script_faults;
mod script_mistakes;
mod script_rows;
mod shown_lines;
mod splice_mistakes;
mod spliced_lines;
mod user_notes;
mod wish_refusals;

pub use edit_hints::{EditHint, words_of_edit_hint};
pub use input_mistakes::{explain_bad_bundle, explain_missing_mark, split_edit_input};
pub use nearest::Nearest;
pub use refusals::explain_refused_edit;
pub use script_faults::explain_script_fault;
pub use shown_lines::ShownLine;
pub use user_notes::make_user_notes;
pub use wish_refusals::append_refusal_text;
