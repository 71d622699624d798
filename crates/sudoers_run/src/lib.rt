//! The commands of the program over any files, readers and writers: `edit`, `show`, `check`, `convert`, `list`, and the text of each error.
#![tactic(auto)]

mod check;
mod command_words;
mod convert;
mod edit;
mod fault;
mod fault_texts;
mod input;
mod input_shape;
mod list;
mod loading;
mod output;
mod output_files;
mod output_form;
mod show;
mod undo_and_redo;

pub use check::{CheckedPolicy, run_check, run_check_and_keep_policy};
pub use command_words::{CheckWords, ConvertWords, ListWords};
pub use convert::run_convert;
pub use edit::{INPUT_LIMIT, make_edit_output_of_files, run_edit};
pub use fault::{LayerFault, ToolFault};
pub use fault_texts::fault_text;
pub use input::read_all_within_limit;
pub use input_shape::EditInputShape;
pub use list::run_list;
pub use output_files::{OutputFiles, read_output_files};
pub use output_form::OutputForm;
pub use show::run_show;
pub use sudoers_files::{Counted, DeviceFailed, PulledBytesOrInterrupted, Sink, Source};
