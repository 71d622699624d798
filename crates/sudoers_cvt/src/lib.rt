//! Conversion of policies: their rules, filtered or expanded, and printed as one policy or as JSON.
#![tactic(auto)]

mod changed;

pub use changed::{expand_policy, filter_policy};
pub use sudoers_cvt_json::json;
pub use sudoers_cvt_rewrite::{
    Filter, FilterFault, RewriteChanges, RewrittenPolicy, read_filter, rewrite_policy_lines,
};
pub use sudoers_cvt_rules::{CvtFault, Rule, Rules, print, print_command};
