//! The grammar of a line of a sudoers policy, and what its tokens say one by one.
#![tactic(auto)]

mod alias_keyword;
mod alias_member;
mod atom;
mod command_arguments;
mod expected_tokens;
mod fault;
mod fault_cause;
mod items;
pub mod laws;
mod marks;
mod node;
mod numbers_and_addresses;
mod owned_atom;
mod pattern;
mod plain_atom;
mod token_text;
mod token_with_text;

pub use alias_keyword::alias_keyword_of_kind;
pub use alias_member::AliasMember;
pub use atom::{
    may_have_digests, parse_command_without_args, parse_include_path, parse_option_value,
    parse_single_token_atom,
};
pub use command_arguments::{ArglessCommand, append_argument_to_args, read_first_argument};
pub use expected_tokens::ExpectedTokens;
pub use fault::{LineFault, Why};
pub use fault_cause::find_syntax_fault_cause as cause_of;
pub use items::Items;
pub use node::{Address, Args, Atom, DigestKind, Kind, Mask, Operator, OptionName, Tag};
pub use numbers_and_addresses::{
    is_digit_string, is_time_stamp, number_up_to, parse_network_atom as network_of,
};
pub use pattern::PatternSpelling;
pub use plain_atom::{PlainAtom, plain_atom_of_token};
pub use token_text::TokenText;
pub use token_with_text::{TokenWithText, add_text_to_token, begins_with_byte, ends_with_byte};
