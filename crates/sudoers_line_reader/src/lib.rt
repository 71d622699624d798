//! The reader of one line as a descent: one function for each rule of the grammar.
#![tactic(auto)]

mod alias_lines;
mod command_words;
mod commands;
mod cursor;
mod defaults;
mod defaults_params;
mod digests;
mod includes;
pub mod laws;
mod lists;
mod members;
mod options;
mod parameter_cursor;
mod reading;
mod row_reader;
mod runas;
mod specs_of_users;
mod table_rows;
mod whole_lines;

pub use reading::{ParsedLine, parse, read_line};
