//! What the policy of an editor answers, whatever edits it took. Why a prune and a rename are refused, and what they leave as it was.
#![tactic(auto)]

mod answers;
pub mod laws;

pub use answers::answer_of_editor_policy;
