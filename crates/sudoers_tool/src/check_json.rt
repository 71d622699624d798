//! What a document of `check` has of the commands that never decide, and of the warnings of lint.

use crate::ask_values::find_start_on_walk;
use crate::lint_notes::are_lint_notes_asked;
use crate::overruled_notes::{are_overruled_notes_asked, fault_of_comparison};
use clap::ArgMatches;
use serde_json::{Value, json};
use std::alloc::{AllocError, Global};
use sudoers_lint::{LintFinding, find_lint_findings};
use sudoers_report::{JsonList, make_optional_place_value, make_text_value};
use sudoers_review::{
    OverruledCommand, OverruledCommands, PlaceOnWalk, UndecidedCommands, list_overruled_commands,
};
use sudoers_run::ToolFault;
use sudoers_tree::Policy;

/// The commands of a policy that never decide, and those that were not decided.
#[derive(Drop)]
pub struct OverruledNotes {
    pub commands: JsonList,
    pub not_decided: Value,
}

/// Returns `place` of `policy` as a value.
fn make_place_value(
    alloc: Global,
    policy: &Policy,
    place: PlaceOnWalk,
) -> Result<Value, AllocError> {
    make_optional_place_value(alloc, find_start_on_walk(policy, place.line, place.start))
}

/// Returns `command` of `policy` as a value. `text` has it as it is printed.
fn make_overruled_value(
    alloc: Global,
    policy: &Policy,
    text: &[u8],
    command: &OverruledCommand,
) -> Result<Value, AllocError> {
    let printed = text
        .get(command.command.start..command.command.stop)
        .unwrap_or(b"");
    let kind = if command.is_useless {
        "useless"
    } else {
        "overruled"
    };
    json!(in alloc; {
        "command": make_text_value(alloc, printed)?,
        "decider": make_place_value(alloc, policy, command.decider)?,
        "kind": kind,
        "place": make_place_value(alloc, policy, command.place)?
    })
}

/// Returns the commands of `policy` that were not decided as a value; null if there is none.
fn make_not_decided_value(
    alloc: Global,
    policy: &Policy,
    undecided: Option<UndecidedCommands>,
) -> Result<Value, AllocError> {
    let Some(commands) = undecided else {
        return Ok(Value::Null);
    };
    json!(in alloc; {
        "count": commands.count,
        "first": make_place_value(alloc, policy, commands.first)?
    })
}

/// Returns `found` of `policy` as values.
fn make_overruled_notes(
    alloc: Global,
    policy: &Policy,
    found: &OverruledCommands,
) -> Result<OverruledNotes, AllocError> {
    let mut commands = JsonList::new(alloc);
    for command in found.commands.as_slice() {
        commands.add(&make_overruled_value(alloc, policy, found.text.as_slice(), command)?)?;
    }
    Ok(OverruledNotes {
        commands,
        not_decided: make_not_decided_value(alloc, policy, found.undecided)?,
    })
}

/// Returns the commands of `policy` that never decide, if `words` ask for them.
pub fn list_overruled_values(
    alloc: Global,
    words: &ArgMatches<'_>,
    policy: &Policy,
) -> Result<Option<OverruledNotes>, ToolFault> {
    if !are_overruled_notes_asked(words) {
        return Ok(None);
    }
    let found = list_overruled_commands(alloc, policy).map_err(fault_of_comparison)?;
    Ok(Some(make_overruled_notes(alloc, policy, &found)?))
}

/// Returns `finding` of `policy` as a value.
fn make_lint_value(
    alloc: Global,
    policy: &Policy,
    finding: &LintFinding,
) -> Result<Value, AllocError> {
    let place = find_start_on_walk(policy, finding.line, finding.start);
    json!(in alloc; {
        "place": make_optional_place_value(alloc, place)?,
        "reason": make_text_value(alloc, finding.rule.words())?,
        "rule": make_text_value(alloc, finding.rule.name())?,
        "text": make_text_value(alloc, finding.subject.as_slice())?
    })
}

/// The warnings of lint, and whether there is one.
#[derive(Drop)]
pub struct LintWarnings {
    pub list: JsonList,
    pub is_any: bool,
}

/// Returns the warnings of lint about `policy`, if `words` ask for them.
pub fn list_lint_values(
    alloc: Global,
    words: &ArgMatches<'_>,
    policy: &Policy,
) -> Result<Option<LintWarnings>, ToolFault> {
    if !are_lint_notes_asked(words) {
        return Ok(None);
    }
    let findings = find_lint_findings(alloc, policy).map_err(fault_of_comparison)?;
    let mut list = JsonList::new(alloc);
    for finding in findings.as_slice() {
        list.add(&make_lint_value(alloc, policy, finding)?)?;
    }
    Ok(Some(LintWarnings {
        list,
        is_any: !findings.is_empty(),
    }))
}
