//! What is wrong with a policy, for people: the place, what may stand there, and what to do.
#![tactic(auto)]

mod all_faults;
mod excerpts;
mod expected_pieces;
mod expected_words;
mod explanation;
mod form_hints;
mod hints;
pub mod laws;
mod mistake;
mod named_places;
mod off_walk_faults;
mod repeated_alias;
mod shown_rows;
mod tag_hints;

pub use all_faults::list_load_faults;
pub use excerpts::{PlaceInFile, append_help};
pub use expected_pieces::{EXPECTED_PIECES, ExpectedPiece, list_pieces_that_may_stand};
pub use expected_words::make_expected_words;
pub use explanation::{explain_load_fault, explain_load_faults};
pub use hints::{Hint, spelling_of_hint, words_of_hint};
pub use mistake::Mistake;
pub use shown_rows::{make_pointer_row, make_shown_row};
