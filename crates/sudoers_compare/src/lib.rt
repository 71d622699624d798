//! Policies as rows and as settings of runas_default, with their lists flat, and which rows cover others.
#![tactic(auto)]

mod command_atoms;
mod counted_lists;
mod covering;
mod flat_defaults;
mod flat_lists;
mod flat_row;
mod flat_rows;
mod flat_specs;
mod flattening;
mod known_answers;
pub mod laws;
mod list_bits;
mod marks;
mod member_index;
mod narrowed_rows;
mod next_rows;
mod overruled;
mod proposed_marks;
mod related_lists;
mod row_lists;
mod runas_specs;
mod same_row;
mod unchanged_rows;

pub use covering::{covers_grant, covers_row};
pub use flat_defaults::{
    FlatRunasDefault, FlatScope, flatten_runas_defaults, flatten_scope, is_same_runas_default,
};
pub use flat_row::{FlatRow, FlatRunasView};
pub use flat_rows::{PlacedFlatRow, append_rows_of_command, list_flat_rows};
pub use flat_specs::{FlatCommand, FlatHostGroup, FlatRunas, FlatSpec};
pub use flattening::flatten_specs;
pub use marks::{RowMarks, find_unmarked, mark_changed_rows, mark_changed_rows_of_specs};
pub use overruled::{Overruling, find_overrulings, find_overrulings_of_specs};
pub use proposed_marks::{ComparedLists, choose_marks};
pub use row_lists::RowsOfSpecs;
pub use same_row::{CountedChanges, are_same_options, are_same_tags, has_same_effect, is_same_row};
