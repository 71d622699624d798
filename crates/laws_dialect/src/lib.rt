//! Laws of lines, texts and policies in the dialect of sudo. Each is the contract of a function that does nothing.
#![tactic(auto)]

mod laws;

pub use laws::{
    adapted_line_keeps_rows, policy_is_adapted, read_line_is_adapted, read_text_is_adapted,
    respelled_line_is_slashed,
};
