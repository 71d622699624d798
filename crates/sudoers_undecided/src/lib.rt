//! What was not decided in an answer or in a listing, and could have changed it.
#![tactic(auto)]

mod alias_collector;
mod asked_request;
mod command_question;
mod counted_lists;
mod decided_aliases;
mod default_scopes;
mod definitions;
pub mod laws;
mod list_sway;
mod listing;
mod member_question;
mod member_search;
mod mention_order;
mod open_members;
mod request_aliases;
mod request_part;
mod rights;
mod spec_rows;
mod undecided_member;
mod user_and_host_lists;
mod wanted_members;

pub use listing::list_undecided_members;
pub use open_members::may_have_undecided_members;
pub use request_part::RequestPart;
pub use rights::list_undecided_members_of_rights;
pub use undecided_member::{UndecidedMember, WhyUndecided};
