//! Bundles: the files of a policy as one text.
#![tactic(auto)]

mod fault;
mod header_parts;
pub mod laws;
mod reading;
mod writing;

pub use fault::BundleFault;
pub use reading::read_bundle;
pub use writing::append_bundle;
