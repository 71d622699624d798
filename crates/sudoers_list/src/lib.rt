//! What a user may run on a host, and why, as texts.
#![tactic(auto)]

mod answer_reason;
mod byte_place;
mod deciding_member;
mod deciding_rule;
mod groups;
pub mod laws;
mod listed_commands;
mod listing;

pub use answer_reason::{
    AnswerReason, explain, explain_found_answer, explain_spelled_answer, find_answer_reason,
};
pub use byte_place::{append_place_at_cursor, append_place_on_walk_line};
pub use deciding_member::DecidingAliasMember;
pub use deciding_rule::{CommandWithSettings, DecidingRule, NumberedLine};
pub use listed_commands::{UserAndRunasDefaultNames, append_listed_command, append_runas_name};
pub use listing::{list, list_rules_as_text};
pub use sudoers_list_people::{People, PeopleFault, WhoFault, request_for, who_for};
