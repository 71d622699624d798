//! The option that says in which dialect a policy is read.

use clap::{Arg, ArgMatches};
use std::alloc::Global;
use sudoers_dialect::Dialect;

/// The option that names the dialect.
const DIALECT: &str = "DIALECT";

/// The dialects that have a name.
static DIALECTS: [&str; 1] = ["sudo"];

/// Returns the option that names the dialect in which the policy is read.
pub fn make_dialect_option<'a>(alloc: Global) -> Arg<'a> {
    Arg::new(alloc, DIALECT)
        .long("dialect")
        .value_parser(DIALECTS.as_slice())
        .hide_possible_values(true)
        .help(
            "Read the policy in this dialect: sudo, which takes a `=` among arguments without a backslash, and `(:)`",
        )
}

/// Returns the dialect that `words` name.
pub fn dialect_of_words(words: &ArgMatches<'_>) -> Dialect {
    match words.get_str(DIALECT) {
        Some(_) => Dialect::Sudo,
        None => Dialect::Profile,
    }
}
