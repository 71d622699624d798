//! What `who`, `what` and `why` find, as JSON.

use serde_json::{Value, json};
use std::alloc::{AllocError, Global};
use sudoers_ask::{FolderPair, PlacedText, RuleFact, UserFacts, WalkPlace, WordedText};
use sudoers_report::{
    FileLine, JsonDocument, JsonList, PlaceInPolicy, make_optional_place_value, make_text_value,
};
use sudoers_tree::{Line, Policy};

/// What each document has: the command, the first file of its policy, the errors, and whether the answer is yes, if there is one.
#[derive(Clone, Copy)]
pub struct AskHead<'a> {
    pub command: &'a str,
    pub root: &'a [u8],
    pub errors: &'a JsonList,
    pub allowed: Option<bool>,
}

/// What a user may run: his commands, the Defaults lines that hold of all of them, and those that hold of some; and the members that were
/// not decided, as a list.
#[derive(Drop)]
pub struct RightsLists {
    pub commands: JsonList,
    pub of_all: JsonList,
    pub of_some: JsonList,
    pub undecided: Value,
}

/// Returns the line on the walk of `policy` with the number `number`, from 0.
fn find_line_on_walk<'a>(policy: &'a Policy, number: usize) -> Option<FileLine<'a>> {
    let spot = policy.spots_of_walk_lines().get(number)?;
    let lines = policy.lines();
    let row = lines.rows.get(number)?;
    Some(FileLine {
        file: policy.file_name(spot.file),
        row: spot.row,
        text: Line::from_line_row(lines.tables, row).text,
    })
}

/// Returns where byte `start` of the line with the number `number`, from 0, on the walk of `policy` stands.
pub fn find_start_on_walk<'a>(
    policy: &'a Policy,
    number: usize,
    start: usize,
) -> Option<PlaceInPolicy<'a>> {
    let place = find_line_on_walk(policy, number)?.place_of(start, start);
    Some(PlaceInPolicy { end: None, ..place })
}

/// Returns where `place` of the walk of `policy` stands.
fn find_place_on_walk<'a>(policy: &'a Policy, place: WalkPlace) -> Option<PlaceInPolicy<'a>> {
    let line = find_line_on_walk(policy, place.line)?;
    Some(line.place_of(place.start, place.stop))
}

/// Returns the text `placed` of `policy` as a value.
fn make_placed_value(
    alloc: Global,
    policy: &Policy,
    placed: &PlacedText,
) -> Result<Value, AllocError> {
    json!(in alloc; {
        "place": make_optional_place_value(alloc, find_place_on_walk(policy, placed.place))?,
        "text": make_text_value(alloc, placed.text.as_slice())?
    })
}

/// Returns the texts `texts` of `policy` as values. The word of each is the part of a request in which a rule does not match, if `is_near`, and
/// else the reason why a member was not decided.
pub fn make_worded_values(
    alloc: Global,
    policy: &Policy,
    texts: &[WordedText],
    is_near: bool,
) -> Result<Value, AllocError> {
    let mut values = Vec::new(alloc);
    for text in texts {
        let place = find_place_on_walk(policy, text.placed.place);
        let place = make_optional_place_value(alloc, place)?;
        let printed = make_text_value(alloc, text.placed.text.as_slice())?;
        values.push(if is_near {
            json!(in alloc; {"part": text.word, "place": place, "text": printed})?
        } else {
            json!(in alloc; {"place": place, "reason": text.word, "text": printed})?
        })?;
    }
    Ok(Value::Array(values))
}

/// Returns the member of an alias that decides for `rule`, as a value; null if there is none.
fn make_member_value(
    alloc: Global,
    policy: &Policy,
    rule: &Option<RuleFact>,
) -> Result<Value, AllocError> {
    let Some(rule) = rule else {
        return Ok(Value::Null);
    };
    let Some(fact) = &rule.member else {
        return Ok(Value::Null);
    };
    let place = find_place_on_walk(policy, fact.member.place);
    json!(in alloc; {
        "alias": make_text_value(alloc, fact.alias.as_slice())?,
        "place": make_optional_place_value(alloc, place)?,
        "text": make_text_value(alloc, fact.member.text.as_slice())?
    })
}

/// Returns the answer of `policy` to a user as a value.
pub fn make_user_value(
    alloc: Global,
    policy: &Policy,
    user: &UserFacts,
) -> Result<Value, AllocError> {
    let (answer, rule) = match &user.rule {
        Some(told) => {
            let answer = if told.allows { "allowed" } else { "denied" };
            (answer, make_placed_value(alloc, policy, &told.rule)?)
        }
        None => ("no_rule", Value::Null),
    };
    let near = match &user.near {
        Some(near) => make_worded_values(alloc, policy, near.as_slice(), true)?,
        None => Value::Null,
    };
    json!(in alloc; {
        "answer": answer,
        "member": make_member_value(alloc, policy, &user.rule)?,
        "near": near,
        "rule": rule,
        "undecided": make_worded_values(alloc, policy, user.undecided.as_slice(), false)?,
        "user": make_text_value(alloc, user.name.as_slice())?
    })
}

/// Returns the texts `texts` of `policy` as a list.
pub fn make_placed_list(
    alloc: Global,
    policy: &Policy,
    texts: &[PlacedText],
) -> Result<JsonList, AllocError> {
    let mut list = JsonList::new(alloc);
    for text in texts {
        list.add(&make_placed_value(alloc, policy, text)?)?;
    }
    Ok(list)
}

/// Returns the folder `folder` as a value, which has no `/` at its end.
fn make_folder_value(alloc: Global, folder: &[u8]) -> Result<Value, AllocError> {
    make_text_value(alloc, if folder.is_empty() { b"/" } else { folder })
}

/// Returns the pairs `pairs` of folders as a list.
pub fn make_same_list(alloc: Global, pairs: &[FolderPair<'_>]) -> Result<JsonList, AllocError> {
    let mut list = JsonList::new(alloc);
    for pair in pairs {
        let mut both = Vec::new(alloc);
        both.push(make_folder_value(alloc, pair.first)?)?;
        both.push(make_folder_value(alloc, pair.second)?)?;
        list.add(&Value::Array(both))?;
    }
    Ok(list)
}

/// Returns whether the answer is yes, as a value; null if there is none.
fn make_allowed_value(head: &AskHead<'_>) -> Value {
    match head.allowed {
        Some(allowed) => Value::Bool(allowed),
        None => Value::Null,
    }
}

/// Returns the document of `who` or `why` with the answers `users`, where the folders of each of `same` are one: one line with its line end.
///
/// # Errors
///
/// Memory ran out.
pub fn make_users_document(
    alloc: Global,
    head: &AskHead<'_>,
    same: &JsonList,
    users: &JsonList,
) -> Result<Vec<u8>, AllocError> {
    let mut document = JsonDocument::new(alloc);
    document.add_member("allowed", &make_allowed_value(head))?;
    document.add_member("command", &Value::try_from_str(alloc, head.command)?)?;
    document.add_list("errors", head.errors)?;
    document.add_member("policy", &make_text_value(alloc, head.root)?)?;
    document.add_list("same", same)?;
    document.add_list("users", users)?;
    document.make_text()
}

/// Returns the document of `what` with what the user `user` may run on the host `host`, if it is known: one line with its line end.
///
/// # Errors
///
/// Memory ran out.
pub fn make_rights_document(
    alloc: Global,
    head: &AskHead<'_>,
    lists: &RightsLists,
    host: Option<&[u8]>,
    user: &[u8],
) -> Result<Vec<u8>, AllocError> {
    let host = match host {
        Some(host) => make_text_value(alloc, host)?,
        None => Value::Null,
    };
    let mut document = JsonDocument::new(alloc);
    document.add_member("allowed", &make_allowed_value(head))?;
    document.add_member("command", &Value::try_from_str(alloc, head.command)?)?;
    document.add_list("commands", &lists.commands)?;
    document.add_list("defaults", &lists.of_all)?;
    document.add_list("defaults_of_some", &lists.of_some)?;
    document.add_list("errors", head.errors)?;
    document.add_member("host", &host)?;
    document.add_member("policy", &make_text_value(alloc, head.root)?)?;
    document.add_member("undecided", &lists.undecided)?;
    document.add_member("user", &make_text_value(alloc, user)?)?;
    document.make_text()
}
