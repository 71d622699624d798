//! Conversion of sudoers policies: their rules, printed anew.
#![tactic(auto)]

mod fault;
mod printed_commands;
mod printed_lines;
mod printing;
mod rule;
mod rules;

pub use fault::CvtFault;
pub use printing::{print, print_command};
pub use rule::Rule;
pub use rules::Rules;
