//! What matches a member of a list: names, numbers, networks, and patterns with wildcards.
#![tactic(auto)]

mod atom_matches;
mod byte_classes;
mod byte_sets;
mod first_pattern_item;
mod groups;
mod item_set;
pub mod laws;
mod network;
mod numbers;
mod people_and_commands;
mod place_search;
mod request;
mod set_cache;
mod time_stamp;
mod unclosed_places;
mod wildcards;

pub use atom_matches::{
    is_same_name_ignoring_case, matches_command_atom, matches_host_atom, matches_runas_group_atom,
    matches_user_atom,
};
pub use groups::Groups;
pub use network::{Interface, Interfaces, network_hits};
pub use numbers::NumberSet;
pub use people_and_commands::{CommandLine, Group, Person, Who};
pub use request::Request;
pub use time_stamp::convert_stamp_to_zero_filled_number;
pub use wildcards::{GlobMode, glob, matches_glob_folding_case_if_wanted};
