//! Laws of printed lines: what is printed is read back as what was printed.
#![tactic(auto)]

mod laws;

pub use laws::{
    printed_line_is_line, printed_line_is_read, printed_lines_are_cut, read_can_be_written,
    writable_is_kept,
};
