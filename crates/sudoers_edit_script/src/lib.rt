//! Scripts: the edits of a sudoers policy, and the text that spells a list of them.
#![tactic(auto)]

mod command_words;
mod edit;
mod edit_awaiting_text;
pub mod laws;
mod physical_lines;
mod script_line;
mod script_reader;
mod spelling;

pub use edit::{Edit, Edits, Text};
pub use physical_lines::first_physical_line_len;
pub use script_reader::{MAX_EDITS, ScriptFault, read_script};
pub use spelling::write_script;
