//! How the parts of a sudoers policy are printed.
#![tactic(auto, using(crate::proofs::Fronts::front_of_front_is_front, crate::proofs::Fronts::text_is_its_own_front))]

mod addresses;
mod all_or_nothing_appends;
mod appending;
mod host_name_patterns;
mod lists;
mod members;
mod options_and_tags;
mod parameters;
mod runas;
mod words_and_patterns;

pub use all_or_nothing_appends::{
    append_defaults, append_member, append_option, append_param, append_printed_member_list,
    append_runas,
};
pub use options_and_tags::append_keyword_of_tag_or_negated;
pub use parameters::mark_of_defaults_scope;
