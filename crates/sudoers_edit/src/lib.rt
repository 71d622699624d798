//! The editor of a sudoers policy: its edits, and the journal that takes them back.
#![tactic(auto)]

mod edit_plan;
mod edit_reversal;
mod editor;
mod edits_in_place;
mod extra_item;
mod fault;
pub mod laws;
mod line_being_cut;
mod line_edits;
mod name_places;
mod owned_bytes;
mod plain_cuts;
mod prune_plan;
mod prune_removals;
mod rename_plan;
mod splice_edits;

pub use editor::{AppliedEditWithInverse, Editor};
pub use fault::EditFault;
pub use sudoers_edit_script::{
    Edit, Edits, MAX_EDITS, ScriptFault, Text, first_physical_line_len, read_script, write_script,
};
