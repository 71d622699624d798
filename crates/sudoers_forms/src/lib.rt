//! Forms of lines that sudo refuses or answers otherwise, and this toolkit reads.
#![tactic(auto)]

mod address;
mod answer_cause;
mod cause;
mod digest_size;
mod form;
mod host_cause;
mod include_form;
mod judged_token;
mod line_part;
mod member_form;
mod names;
mod other_answer;
mod refused_form;
mod row_form;
mod spelling;
mod sudo_forms;
mod sudo_rs_command;
mod sudo_rs_form;
mod sudo_rs_name;
mod sudo_rs_refusal;
mod text_form;
mod token_form;
mod words;

pub use cause::{Cause, words_of_cause};
pub use form::{Form, words_of_form};
pub use other_answer::OtherAnswer;
pub use refused_form::RefusedForm;
pub use sudo_forms::{SudoForms, list_forms_for_sudo, list_refused_forms};
pub use sudo_rs_form::{SudoRsForm, words_of_sudo_rs_form};
pub use sudo_rs_refusal::{RefusedBySudoRs, list_forms_for_sudo_rs};
