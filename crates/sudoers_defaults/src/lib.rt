//! What sudo refuses in the Defaults lines of a policy: names that it does not know, and values that they do not take.
#![tactic(auto)]

mod number_values;
mod parameter_fault;
mod parameter_group;
mod path_and_word_values;
mod refusal_words;
mod refused;
mod sudo_parameters;
mod sudo_rs_parameters;
mod time_values;
mod value_spelling;

pub use number_values::split_at_byte;
pub use parameter_fault::{ParameterFault, find_fault_of_parameter};
pub use parameter_group::{ParameterGroup, ParameterType, UseWithoutValue, WordSet};
pub use refusal_words::append_refusal_words;
pub use refused::{RefusedParameter, list_refused_parameters, take_bytes_between};
pub use sudo_parameters::parameters_of_sudo;
pub use sudo_rs_parameters::parameters_of_sudo_rs;
pub use time_values::is_time;
