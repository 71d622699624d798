//! Printed rules, spelled so that sudo reads them where another spelling says the same.
#![tactic(auto)]

mod bare_quotes;
mod name_spelling;
mod names;
mod spelling;

pub use spelling::spell_for_sudo;
