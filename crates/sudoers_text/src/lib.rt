//! The text of a sudoers policy: its logical lines, and the tokens of each.
#![tactic(auto)]

mod adapting;
mod context;
mod cutting;
mod fault;
pub mod laws;
mod line;
mod line_mode;
mod line_tokens;
mod numbers;
mod part;
mod plain_runs;
mod plain_tokens;
mod single_logical_line;
mod text_units;
mod token;
mod token_finding;
mod token_lengths;
mod tokenizing;
mod word;
mod word_value;

pub use adapting::adapt_line;
pub use cutting::{LINE_LIMIT, TEXT_LIMIT};
pub use fault::TextFault;
pub use line::{Lines, cut};
pub use line_mode::choose_line_mode;
pub use line_tokens::{LineTokens, tokens};
pub use numbers::append_decimal_number;
pub use part::is_whole_argument;
pub use single_logical_line::is_logical_line;
pub use text_units::{begins_line_end, ends_in_lf, line_end_len};
pub use token::{Mode, Token, TokenKind};
pub use word::{is_name, is_reserved};
pub use word_value::{is_own_value, leading_blanks_len, value};
