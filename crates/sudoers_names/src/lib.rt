//! Names, each once.
#![tactic(auto)]

mod names;
mod numbers;

pub use names::NameSet;
pub use numbers::NumbersByName;
