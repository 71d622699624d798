//! Policies in the dialect of sudo.
#![tactic(auto)]

mod dialect;
mod dialect_files;
mod output;

pub use dialect::{Dialect, adapt_text};
pub use dialect_files::DialectFiles;
pub use output::make_adapted_output;
