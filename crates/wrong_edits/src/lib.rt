//! Calls of the libraries that edit a policy and read scripts, each with the clauses that its library promises.
#![tactic(auto)]

mod editors;
mod plans;
mod redoing;
mod scripts;

pub use editors::{apply_edit, apply_edits, edits_back, undo_edit};
pub use plans::plan_wishes;
pub use redoing::{apply_anew, apply_edits_anew, redo_edit};
pub use scripts::{edits_of_script, script_of_edits};
