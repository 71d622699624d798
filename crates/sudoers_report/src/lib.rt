//! What is found in a policy as JSON documents: its errors and notes, its lines, and where each stands.
#![tactic(auto)]

mod check_document;
mod cut_files;
mod error_hints;
mod error_values;
mod fault_causes;
mod json_document;
mod json_texts;
mod loading;
mod located_faults;
mod name_faults;
mod not_read;
mod note_values;
mod piece_words;
mod place;
mod show_document;
mod syntax_faults;
mod walked_lines;

pub use check_document::{CheckDocument, OverruledValues, PolicyAndReport, make_check_document};
pub use cut_files::FileLine;
pub use error_values::{ErrorWords, LoadErrors, make_error_value};
pub use json_document::{JsonDocument, JsonList};
pub use json_texts::{make_optional_text_value, make_text_value};
pub use loading::load_or_list_faults;
pub use not_read::make_not_read_list;
pub use place::{LineAndColumn, PlaceInPolicy, make_optional_place_value};
pub use show_document::{make_show_document, make_show_error_document};
