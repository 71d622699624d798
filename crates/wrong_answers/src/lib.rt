//! Calls of the libraries that answer who may run what, each with the clauses that its library promises.
#![tactic(auto)]

mod answers;
mod listings;
mod matches;
mod people;

pub use answers::{
    answer_request, decide_list, default_user, find_cycle, find_rule, groups_of_hosts,
};
pub use listings::{explain_answer, list_rules};
pub use matches::{
    hits_network, matches_command, matches_group, matches_host, matches_pattern, matches_user,
};
pub use people::{make_request, read_people, who_asks};
