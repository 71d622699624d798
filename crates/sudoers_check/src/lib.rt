//! The checks of a sudoers policy: names that are undefined, and aliases that are cyclic or unused.
#![tactic(auto)]

mod checking;
mod cycles;
mod definition_counts_and_line_kinds;
mod definition_numbers;
mod graph;
pub mod laws;
mod line_mentions;
mod notes;
mod physical_line_cursor;
mod report;
mod seen_names;
mod walk_cursor;

pub use checking::{check, list_unused_definitions_of_walk, mark_used_definitions, unused};
pub use definition_numbers::{AliasLineFirstNumber, DefinitionNumbers};
pub use report::{Note, Report, report_text};
pub use walk_cursor::{BytePlace, WalkCursor};
