//! The commands, each with clauses that its library promises.
//!
//! A function has only the clauses that its wrong bodies break. So the prover gives up soon on a wrong body.
#![tactic(auto)]

mod asking;
mod before_errors;
mod bundles;
mod checking;
mod converting;
mod devices;
mod editing;
mod failing;
mod faults;
mod gathering;
mod listing;
mod quiet;
mod showing;
mod stopping;
mod told_errors;

pub use asking::list_rules;
pub use before_errors::{
    check_before_errors, convert_before_errors, edit_before_errors, list_before_errors,
};
pub use bundles::{bundle_files, put_bundle};
pub use checking::{check_and_keep_policy, check_policy};
pub use converting::convert_policy;
pub use devices::list_devices;
pub use editing::edit_policy;
pub use failing::show_or_fail;
pub use faults::text_of_fault;
pub use gathering::{Passed, gather_files};
pub use listing::list_status;
pub use quiet::check_quietly;
pub use showing::show_policy;
pub use stopping::{edit_within_limit, read_front};
pub use told_errors::{
    check_told_errors, convert_told_errors, edit_told_errors, list_told_errors, show_told_errors,
};
