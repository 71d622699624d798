//! Who may run a command, why, and what a user may run, with the places of the rules.
#![tactic(auto)]

mod answer_facts;
mod asked_question;
mod defaults_of_user;
pub mod laws;
mod list_allowing;
mod near_lines;
mod placed_text;
mod question;
mod rights;
mod rights_fault;
mod same;
mod undecided_lines;
mod user_answer;
mod user_facts;
mod users;
mod why;

pub use answer_facts::{AliasMemberFact, RuleFact, UserFacts, WordedText, make_undecided_facts};
pub use defaults_of_user::DefaultsOfUser;
pub use placed_text::{PlacedText, WalkPlace};
pub use question::{CommandQuestion, FolderPair, QuestionFault};
pub use rights::{Rights, RightsText, list_rights, list_rights_with_places};
pub use rights_fault::RightsFault;
pub use user_facts::{UsersFacts, find_user_facts, list_user_facts};
pub use users::{UsersText, list_users_who_may_run};
pub use why::{WhyText, explain_user_answer};
