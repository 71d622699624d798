//! What is printed of rows that never decide, and of two policies that differ.
#![tactic(auto)]

mod change_lines;
mod changed_rows;
mod changed_settings;
mod changes;
mod compare_fault;
mod flat_policy;
pub mod laws;
mod other_defaults;
mod overruled;
mod row_text;

pub use change_lines::{
    ChangeLine, ChangeLines, PlaceOnWalk, RuleChange, TextPart, append_line_end, sign_of,
};
pub use changed_rows::{append_changed_row, is_marked, place_of_row};
pub use changes::{PolicyChanges, list_changes};
pub use compare_fault::CompareFault;
pub use flat_policy::FlatPolicy;
pub use other_defaults::list_changed_other_defaults;
pub use overruled::{
    OverruledCommand, OverruledCommands, UndecidedCommands, append_place_of_row,
    list_overruled_commands,
};
pub use row_text::{TEXT_LIMIT, append_command_of_row, append_row, has_long_lists};
