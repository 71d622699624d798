//! The document of `show`.

use crate::cut_files::FileLine;
use crate::json_document::{JsonDocument, JsonList};
use crate::json_texts::make_text_value;
use serde_json::{Value, json};
use std::alloc::{AllocError, Global};
use sudoers_grammar::{Kind, alias_keyword_of_kind};
use sudoers_tree::{
    AliasDefinitionRow, Def, Line, LineKind, LineRow, Node, Policy, RowsOfTable, lf_count,
};

/// Returns the word for the kind `kind` of a line.
fn word_of_line_kind(kind: LineKind) -> &'static str {
    match kind {
        LineKind::Blank => "blank",
        LineKind::Comment => "comment",
        LineKind::Include => "include",
        LineKind::Defaults => "defaults",
        LineKind::Alias => "alias",
        LineKind::Spec => "spec",
    }
}

/// Returns the definition `def` of the kind `kind`, the one with the number `number`, from 1, of the line `line`, as a value.
fn make_definition_value(
    alloc: Global,
    line: FileLine<'_>,
    kind: Kind,
    number: usize,
    def: &Def<'_>,
) -> Result<Value, AllocError> {
    json!(in alloc; {
        "kind": make_text_value(alloc, alias_keyword_of_kind(kind))?,
        "members": def.members.rows.len(),
        "name": make_text_value(alloc, def.name)?,
        "number": number,
        "place": line.place_of(def.start, def.stop).to_value(alloc)?
    })
}

/// Returns the definitions `defs` of the kind `kind` of the line `line` as a list.
fn make_definition_values(
    alloc: Global,
    line: FileLine<'_>,
    kind: Kind,
    defs: &RowsOfTable<'_, AliasDefinitionRow>,
) -> Result<Value, AllocError> {
    let mut values = Vec::new(alloc);
    for (place, row) in defs.rows.iter().enumerate() {
        let def = defs.tables.alias_definition_of_row(row);
        let number = place.saturating_add(1);
        values.push(make_definition_value(alloc, line, kind, number, &def)?)?;
    }
    Ok(Value::Array(values))
}

/// Returns the line `line`, which has the number `number`, from 1, in its file and says `node`, as a value.
fn make_line_value(
    alloc: Global,
    line: FileLine<'_>,
    number: usize,
    node: &Node<'_>,
) -> Result<Value, AllocError> {
    let definitions = match node {
        Node::Alias { kind, defs } => make_definition_values(alloc, line, *kind, defs)?,
        _ => Value::Array(Vec::new(alloc)),
    };
    json!(in alloc; {
        "definitions": definitions,
        "kind": word_of_line_kind(LineKind::from_parsed_node(node)),
        "number": number,
        "place": line.place_of(0, line.text.len()).to_value(alloc)?,
        "text": make_text_value(alloc, line.text)?
    })
}

/// Appends to `list` the lines `lines` of the file `name`.
fn add_lines_of_file(
    alloc: Global,
    list: &mut JsonList,
    name: &[u8],
    lines: &RowsOfTable<'_, LineRow>,
) -> Result<(), AllocError> {
    let mut row: usize = 1;
    for (place, line_row) in lines.rows.iter().enumerate() {
        let says = Line::from_line_row(lines.tables, line_row);
        let line = FileLine {
            file: name,
            row,
            text: says.text,
        };
        list.add(&make_line_value(alloc, line, place.saturating_add(1), &says.node)?)?;
        row = row.saturating_add(lf_count(says.text));
    }
    Ok(())
}

/// Returns the document of `show` for the policy `root`, which has the files `files` and the lines `lines`. With `errors`, which are those of
/// the policy, it was not read.
fn make_document_of_lists(
    alloc: Global,
    root: &[u8],
    errors: Option<&JsonList>,
    files: &JsonList,
    lines: &JsonList,
) -> Result<Vec<u8>, AllocError> {
    let none = JsonList::new(alloc);
    let mut document = JsonDocument::new(alloc);
    document.add_member("command", &Value::try_from_str(alloc, "show")?)?;
    document.add_list("errors", errors.unwrap_or(&none))?;
    document.add_list("files", files)?;
    document.add_list("lines", lines)?;
    document.add_member("policy", &make_text_value(alloc, root)?)?;
    document.add_member("read", &Value::Bool(errors.is_none()))?;
    document.make_text()
}

/// Returns the document of `show` for the policy `policy`, of which the first file is `root`: one line with its line end.
///
/// # Errors
///
/// Memory ran out.
pub fn make_show_document(
    alloc: Global,
    root: &[u8],
    policy: &Policy,
) -> Result<Vec<u8>, AllocError> {
    let mut files = JsonList::new(alloc);
    let mut lines = JsonList::new(alloc);
    for file in 0..policy.files() {
        let name = policy.file_name(file);
        files.add(&json!(in alloc; {
            "name": make_text_value(alloc, name)?,
            "number": file.saturating_add(1)
        })?)?;
        add_lines_of_file(alloc, &mut lines, name, &policy.lines_of_file(file))?;
    }
    make_document_of_lists(alloc, root, None, &files, &lines)
}

/// Returns the document of `show` for the policy `root`, which has the errors `errors`: one line with its line end.
///
/// # Errors
///
/// Memory ran out.
pub fn make_show_error_document(
    alloc: Global,
    root: &[u8],
    errors: &JsonList,
) -> Result<Vec<u8>, AllocError> {
    let none = JsonList::new(alloc);
    make_document_of_lists(alloc, root, Some(errors), &none, &none)
}
