//! Who may run what, and where.
#![tactic(auto)]

mod allowing;
mod answer_of_row;
mod answering;
mod command_settings;
mod last_row;
pub mod laws;
mod matching_host_groups;
mod near_misses;
mod options;
mod request_verdicts;
mod request_words;
mod runas_default_user;
mod specs_for_users;
mod spellings;
mod tags;
mod time_bounds;

pub use answer_of_row::{Answer, AnswerWithMemberAndSettings};
pub use answering::{answer, find_answer, find_answer_in_specs, find_answer_without_args_limit};
pub use command_settings::CommandSettings;
pub use matching_host_groups::{HostGroupPlace, find_places_of_matching_host_groups, host_groups};
pub use near_misses::{MissedPart, NearMiss, list_near_misses};
pub use options::CommandOptions;
pub use request_words::{join_words, make_command_with_joined_arguments};
pub use runas_default_user::{
    find_runas_default_for, has_runas_default, read_runas_default_param, runas_default,
};
pub use specs_for_users::{SpecOnLine, find_specs_for_users, list_specs_with_lines};
pub use spellings::{CommandSpellings, SpelledCommandListKind, make_sole_spelling};
pub use sudoers_match_list::{
    AskFault, CommandListKind, HostListKind, LastHitOrCycle, MemberHit, MemberKind,
    RunasGroupListKind, UserListKind, Verdict, decide,
};
pub use sudoers_match_member::{
    CommandLine, GlobMode, Group, Groups, Interface, Interfaces, Person, Request, Who, glob,
    network_hits,
};
pub use tags::CommandTags;
