//! Calls of the libraries that read and check a policy, each with a clause that its library promises.
#![tactic(auto)]

mod checks;
mod leads;
mod lines;
mod loads;
mod names;
mod texts;

pub use checks::{check_policy, is_fine_report, place_of_byte, report_of_policy, unused_aliases};
pub use leads::{lead_of_line, lead_of_node, may_lead_somewhere};
pub use lines::reading_of_line;
pub use loads::{change_files, file_text, insert_line, load_files, load_text, walk_spots};
pub use names::{definition_of, find_definition_after_changes, may_stand, mentions_of};
pub use texts::{line_in_dialect_of_sudo, line_tokens, word_value};
