//! The parameters of sudo-rs 0.2.5.
//!
//! `scripts/parameters --write` makes this file of parameters.csv.

use crate::parameter_group::{ParameterGroup, ParameterType, UseWithoutValue, WordSet};

/// The 21 parameters, by what they take.
static PARAMETERS: [ParameterGroup; 6] = [
    ParameterGroup {
        takes: ParameterType::Flag,
        without_value: UseWithoutValue::Both,
        names: &[
            "mail_badpass",
            "lecture",
            "always_set_home",
            "fqdn",
            "env_editor",
            "rootpw",
            "targetpw",
            "env_reset",
            "visiblepw",
            "pwfeedback",
            "use_pty",
            "always_query_group_plugin",
            "match_group_by_gid",
        ],
    },
    ParameterGroup {
        takes: ParameterType::FreeText,
        without_value: UseWithoutValue::Negated,
        names: &["mailerpath", "secure_path"],
    },
    ParameterGroup {
        takes: ParameterType::SmallNumber,
        without_value: UseWithoutValue::Never,
        names: &["passwd_tries"],
    },
    ParameterGroup {
        takes: ParameterType::PlainMinutes,
        without_value: UseWithoutValue::Negated,
        names: &["timestamp_timeout"],
    },
    ParameterGroup {
        takes: ParameterType::List,
        without_value: UseWithoutValue::Negated,
        names: &["env_check", "env_delete", "env_keep"],
    },
    ParameterGroup {
        takes: ParameterType::OneOf(WordSet::Commands),
        without_value: UseWithoutValue::Negated,
        names: &["verifypw"],
    },
];

/// Returns the parameters that sudo-rs 0.2.5 knows.
pub fn parameters_of_sudo_rs() -> &'static [ParameterGroup] {
    &PARAMETERS
}
