//! Laws of plans. Each is the contract of a function that does nothing.
#![tactic(auto)]

mod laws;

pub use laws::aliases_of_user_are_fewest;
