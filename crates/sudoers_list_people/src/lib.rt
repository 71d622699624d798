//! The users and groups of a machine, from the texts of passwd and group, and what is asked of them.
#![tactic(auto)]

mod account_and_group_row_types;
mod fault;
mod interfaces;
mod making_person_with_groups;
mod passwd_and_group_row_reading;
mod people;
mod reading;
mod request;
mod text_pieces;
mod who;

pub use account_and_group_row_types::{GroupFileRow, PasswdAccount};
pub use fault::{PeopleFault, PeopleFile, WhoFault};
pub use people::People;
pub use request::request_for;
pub use who::who_for;
