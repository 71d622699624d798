//! Laws of policies that are compared: when two of them answer the same, and which rows never decide.
#![tactic(auto)]

pub mod laws;
