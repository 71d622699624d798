//! Calls of the libraries that find what sudo refuses and spell texts for it, each with a clause that its library promises.
#![tactic(auto)]

mod answers;
mod dialects;
mod forms;
mod parameters;
mod spellings;

pub use answers::find_forms_with_other_answers;
pub use dialects::{adapt_whole_text, front_of_text_in_dialect, print_adapted_files};
pub use forms::{
    find_forms_for_sudo, list_forms_that_sudo_refuses, list_forms_that_sudo_rs_refuses,
};
pub use parameters::{find_fault_of_one, is_some_time, list_faulty_parameters};
pub use spellings::respell_rules_for_sudo;
