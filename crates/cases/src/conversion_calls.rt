//! Policies that are converted, bundles, filters, and the texts of faults.

use crate::answer_output::{push_debug_format, push_escaped_text};
use crate::case_frames::{CaseCall, split_first_call};
use crate::loading_calls::named_files_of_parts;
use std::alloc::{AllocError, Global};
use sudoers_bundle::{append_bundle, read_bundle};
use sudoers_cvt::{
    Filter, RewrittenPolicy, Rules, expand_policy, filter_policy, json, print, read_filter,
};
use sudoers_edit::{Editor, read_script};
use sudoers_run::{LayerFault, ToolFault, fault_text};
use sudoers_tree::Policy;

/// Adds the rules of `policy` as `call` asks for them, or their fault; `unknown` if it asks for something else.
pub fn push_conversion_answer(
    policy: &Policy,
    call: CaseCall<'_>,
    answers: &mut String,
) -> Result<(), AllocError> {
    let alloc = policy.allocator();
    let text = match call.asked {
        b'P' => print_policy_rules(alloc, policy),
        b'J' => print_policy_rules_as_json(alloc, policy),
        b'E' => print_expanded_rules(alloc, policy),
        b'M' => print_filtered_rules(alloc, policy, call.body),
        _ => return answers.push_str("unknown"),
    };
    match text {
        Ok(text) => push_escaped_text(text.as_slice(), answers),
        Err(fault) => push_text_of_fault(alloc, ToolFault::from(fault), answers),
    }
}

/// Adds the text of `fault` behind `fault: `; an error if memory ran out.
pub fn push_text_of_fault(
    alloc: Global,
    fault: ToolFault,
    answers: &mut String,
) -> Result<(), AllocError> {
    if let ToolFault::Layer(LayerFault::NoMemory) = fault {
        return Err(AllocError);
    }
    answers.push_str("fault: ")?;
    push_escaped_text(fault_text(alloc, &fault)?.as_slice(), answers)
}

/// Returns the rules of `policy` as the text of a policy.
fn print_policy_rules(alloc: Global, policy: &Policy) -> Result<Vec<u8>, LayerFault> {
    let rules = Rules::from_policy_lines(alloc, &policy.lines())?;
    Ok(print(alloc, &rules)?)
}

/// Returns the rules of `policy` as JSON.
fn print_policy_rules_as_json(alloc: Global, policy: &Policy) -> Result<Vec<u8>, LayerFault> {
    let rules = Rules::from_policy_lines(alloc, &policy.lines())?;
    Ok(json(alloc, &rules)?)
}

/// Returns the rules of `policy` with their aliases replaced.
fn print_expanded_rules(alloc: Global, policy: &Policy) -> Result<Vec<u8>, LayerFault> {
    print_used_rules(alloc, &expand_policy(alloc, policy)?)
}

/// Returns the rules of `policy` that match a filter. `asked` is a call, whose body is the text of the filter; `p` prunes.
fn print_filtered_rules(
    alloc: Global,
    policy: &Policy,
    asked: &[u8],
) -> Result<Vec<u8>, LayerFault> {
    let (prune, text) = match split_first_call(asked) {
        Some((filter, _)) => (filter.asked == b'p', filter.body),
        None => (false, asked),
    };
    let filter = read_filter(alloc, text)?;
    print_used_rules(alloc, &filter_policy(alloc, policy, &filter, prune)?)
}

/// Returns the rules of a policy that was rewritten.
fn print_used_rules(alloc: Global, rewritten: &RewrittenPolicy) -> Result<Vec<u8>, LayerFault> {
    let rules = rewritten.collect_used_rules(alloc)?;
    Ok(print(alloc, &rules)?)
}

/// Adds the users, the groups and the hosts of the filter that `text` is, or its fault.
pub fn push_filter_values(
    alloc: Global,
    text: &[u8],
    answers: &mut String,
) -> Result<(), AllocError> {
    match read_filter(alloc, text) {
        Ok(filter) => push_values_of_filter(&filter, answers),
        Err(fault) => push_text_of_fault(alloc, ToolFault::Layer(LayerFault::from(fault)), answers),
    }
}

/// Adds the users, the groups and the hosts of `filter`, with a tab between.
fn push_values_of_filter(filter: &Filter, answers: &mut String) -> Result<(), AllocError> {
    push_debug_format(&filter.users.as_slice(), answers)?;
    answers.push('\t')?;
    push_debug_format(&filter.groups.as_slice(), answers)?;
    answers.push('\t')?;
    push_debug_format(&filter.hosts.as_slice(), answers)
}

/// Adds the bundle of the files of the bundle that `text` is, or its fault.
pub fn push_bundle_of_read_files(
    alloc: Global,
    text: &[u8],
    answers: &mut String,
) -> Result<(), AllocError> {
    match read_bundle(alloc, text) {
        Ok(files) => {
            let mut bundle = Vec::new(alloc);
            append_bundle(alloc, &mut bundle, files.as_slice())?;
            push_escaped_text(bundle.as_slice(), answers)
        }
        Err(fault) => push_text_of_fault(alloc, ToolFault::from(fault), answers),
    }
}

/// Adds the text of the first of the files that `parts` are, after the edits of `script`, or the fault.
pub fn push_edited_text_or_fault(
    alloc: Global,
    parts: &[u8],
    script: &[u8],
    answers: &mut String,
) -> Result<(), AllocError> {
    match edit_files_of_parts(alloc, parts, script) {
        Ok(text) => push_escaped_text(text.as_slice(), answers),
        Err(fault) => push_text_of_fault(alloc, ToolFault::from(fault), answers),
    }
}

/// Returns the text of the first of the files that `parts` are, after the edits of `script`.
fn edit_files_of_parts(alloc: Global, parts: &[u8], script: &[u8]) -> Result<Vec<u8>, LayerFault> {
    let files = named_files_of_parts(alloc, parts)?;
    let mut editor = Editor::new(Policy::load(alloc, files.as_slice())?);
    let edits = read_script(alloc, script)?;
    editor.apply_all(edits.as_slice())?;
    Ok(editor.policy().text(0)?)
}
