//! Showing the files of a policy, and their lines with numbers and kinds.
ghost use Rattle.std.specs.Prelude.{◌≡◌, ◌≢◌, ◌+◌, ◌<◌, ◌≤◌, ◌++◌, codes, length, Ok, Err, IfOk, IfErr, OnOk, IfSome, IsOkAnd, MatchResult, min, ◌-◌, ◌^◌};
ghost use Rattle.std.specs.Io.KnownBytes.{Keeps, Appends};
ghost use Rattle.sudoers_text.specs.Fault.{text_limit};
ghost use Rattle.sudoers_text.specs.Line.{join};
ghost use Rattle.sudoers_tree.specs.Line.{lines_of_rows};
ghost use Rattle.sudoers_tree.specs.Policy.{texts_of_lines};
ghost use Rattle.sudoers_files.specs.Device.{AppendsPrefixOfBytes};
ghost use Rattle.sudoers_run.specs.Writing.{IsWriterStateAfterCommand};
ghost use Rattle.sudoers_edit.specs.Memory.{IsMemoryFreeLoadFault};
ghost use Rattle.sudoers_run.specs.Policy.{CommandLeavesFilesUnchanged};
ghost use Rattle.sudoers_run.specs.Edit.{IsStatedLayerFaultOrMemory};
ghost use Rattle.sudoers_line_rows.specs.View.{alias_definition_of_view, alias_definitions_of_view, node_of_view};
ghost use Rattle.sudoers_run.specs.Shown.{file_heading_text, line_kind_word as word_of_kind, shown_policy_text as shown_policy, shown_alias_definition, shown_alias_definitions, shown_line, shown_lines_of_file};
ghost use Rattle.sudoers_run.specs.Show.{show_output, show_output_or_load_fault, IsStatedOrOutsideShowFault, IsLoadOrMemoryFault, IsShowFault};

use crate::fault::{LayerFault, ToolFault};
use crate::loading::gather_and_load_policy;
use crate::output::write_all_to_sink;
use std::alloc::{AllocError, Global};
use sudoers_files::{Files, Sink};
use sudoers_grammar::alias_keyword_of_kind;
use sudoers_text::append_decimal_number;
use sudoers_tree::{
    AliasDefinitionRow, Def, Kind, Line, LineKind, LineRow, LoadFault, Node, Policy, RowsOfTable,
    lf_count,
};

/// Reads the policy `root` with the files that it includes. Writes for each line its number, its kind and the number of its first
/// physical line, and for each definition of an alias its numbers, its kind, its name and how many members it has. Writes the number
/// and the name of each file before its lines, if there are several files. All numbers count from 1.
///
/// # Errors
///
/// [`ToolFault`]: of gathering the files, then of the policy, then of writing. Nothing is written before a fault other than `Write`.
pub fn run_show<F: Files, W: Sink>(
    alloc: Global,
    files: &mut F,
    root: &[u8],
    writer: &mut W,
) -> Result<u8, ToolFault>
    // Status 0, and what is written is the stated function of the files.
    ensures ok { IfOk result (λ status. (status ≡ 0) × IfSome (F.shelf files.old).files (λ known.
        IsOkAnd (show_output root.now known) (Appends (W.contents writer.old) (W.contents writer.new)))) }
    // A fault of the files is the stated one.
    ensures fault { IfErr result (λ fault. IfSome (F.shelf files.old).files (IsStatedOrOutsideShowFault root.now fault)) }
    // There are no other faults.
    ensures named { IfErr result IsShowFault }
    // After `Write`, what was written is a beginning of the output.
    ensures front { result ≡ Err ToolFault.Write → IfSome (F.shelf files.old).files (λ known.
        IsOkAnd (show_output root.now known) (AppendsPrefixOfBytes (W.contents writer.old) (W.contents writer.new))) }
    // What the counts of the files show, and that nothing is written before a fault, as the counts of the writer show.
    ensures searches { CommandLeavesFilesUnchanged result (F.shelf files.old) (F.shelf files.new) }
    ensures writes { IsWriterStateAfterCommand result (W.Sink.failures writer.old) (W.Sink.failures writer.new)
        (W.contents writer.old) (W.contents writer.new) }
{
    let policy = gather_and_load_policy(alloc, files, root)?;
    let text = make_show_output_or_load_fault(alloc, policy)?;
    write_all_to_sink(writer, text.as_slice())?;
    Ok(0)
}

/// Returns what is shown of `policy`, or its error.
fn make_show_output_or_load_fault(
    alloc: Global,
    policy: Result<Policy, LoadFault>,
) -> Result<Vec<u8>, LayerFault>
    requires { IfErr policy IsMemoryFreeLoadFault }
    ensures { MatchResult result (λ text. show_output_or_load_fault policy ≡ Ok text.items)
        (λ fault. IsStatedLayerFaultOrMemory fault (show_output_or_load_fault policy) × IsLoadOrMemoryFault fault) }
{
    let policy = policy?;
    Ok(make_shown_policy_text(alloc, &policy)?)
}

/// Returns what is shown of `policy`.
fn make_shown_policy_text(alloc: Global, policy: &Policy) -> Result<Vec<u8>, AllocError>
    ensures { IfOk result (λ out. out.items ≡ shown_policy policy.now.files) }
{
    // laws
    policy.files_fit();
    let mut out = Vec::new(alloc);
    if policy.files() < 2 {
        append_shown_lines(alloc, &mut out, &policy.lines_of_file(0))?;
        return Ok(out);
    }
    for file in 0..policy.files() {
        append_file_heading(alloc, &mut out, file + 1, policy.file_name(file))?;
        append_shown_lines(alloc, &mut out, &policy.lines_of_file(file))?;
    }
    Ok(out)
}

/// Appends to `out` the line with the number `number` and the name `name` of a file.
fn append_file_heading(
    alloc: Global,
    out: &mut Vec<u8>,
    number: usize,
    name: &[u8],
) -> Result<(), AllocError>
    ensures { OnOk result (out.new.items ≡ out.old.items ++ file_heading_text number name.now) }
{
    out.extend_from_slice(b"file ")?;
    append_decimal_number(alloc, out, number)?;
    out.extend_from_slice(b" ")?;
    out.extend_from_slice(name)?;
    out.extend_from_slice(b"\n")
}

/// Appends to `out` what is shown of the lines `lines` of a file.
fn append_shown_lines(
    alloc: Global,
    out: &mut Vec<u8>,
    lines: &RowsOfTable<'_, LineRow>,
) -> Result<(), AllocError>
    requires { length (join (texts_of_lines (lines_of_rows lines.now))) ≤ text_limit }
    ensures { OnOk result (out.new.items ≡ out.old.items ++ shown_lines_of_file (lines_of_rows lines.now)) }
{
    let mut row = 1;
    for (place, line_row) in lines.rows.iter().enumerate() {
        let line = Line::from_line_row(lines.tables, line_row);
        append_shown_line(alloc, out, place + 1, row, &line.node)?;
        row += lf_count(line.text);
    }
    Ok(())
}

/// Appends to `out` what is shown of a line that says `node`: its number, its kind, the number of its first physical line `row`, and its
/// definitions.
fn append_shown_line(
    alloc: Global,
    out: &mut Vec<u8>,
    number: usize,
    row: usize,
    node: &Node<'_>,
) -> Result<(), AllocError>
    ensures { OnOk result (out.new.items ≡ out.old.items ++ shown_line number row (node_of_view node.now)) }
{
    append_decimal_number(alloc, out, number)?;
    append_between_blanks(out, word_of_line_kind(LineKind::from_parsed_node(node)))?;
    append_decimal_number(alloc, out, row)?;
    out.extend_from_slice(b"\n")?;
    match node {
        Node::Alias { kind, defs } => append_shown_definitions(alloc, out, *kind, number, defs),
        _ => Ok(()),
    }
}

/// Appends to `out` what is shown of the definitions `defs` of the line with the number `line`.
fn append_shown_definitions(
    alloc: Global,
    out: &mut Vec<u8>,
    kind: Kind,
    line: usize,
    defs: &RowsOfTable<'_, AliasDefinitionRow>,
) -> Result<(), AllocError>
    ensures { OnOk result (out.new.items ≡ out.old.items ++ shown_alias_definitions kind line 1 (alias_definitions_of_view defs.now)) }
{
    let tables = defs.tables;
    for (place, row) in defs.rows.iter().enumerate() {
        append_shown_definition(
            alloc,
            out,
            kind,
            (line, place + 1),
            &tables.alias_definition_of_row(row),
        )?;
    }
    Ok(())
}

/// Appends to `out` what is shown of the definition `def`. `numbers` has the number of its line and its own.
fn append_shown_definition(
    alloc: Global,
    out: &mut Vec<u8>,
    kind: Kind,
    numbers: (usize, usize),
    def: &Def<'_>,
) -> Result<(), AllocError>
    ensures { OnOk result (out.new.items ≡ out.old.items ++ shown_alias_definition kind numbers.0 numbers.1 (alias_definition_of_view def.now)) }
{
    append_decimal_number(alloc, out, numbers.0)?;
    out.extend_from_slice(b".")?;
    append_decimal_number(alloc, out, numbers.1)?;
    append_between_blanks(out, alias_keyword_of_kind(kind))?;
    out.extend_from_slice(def.name)?;
    out.extend_from_slice(b" ")?;
    append_decimal_number(alloc, out, def.members.rows.len())?;
    out.extend_from_slice(b"\n")
}

/// Appends `word` to `out`, between two blanks.
fn append_between_blanks(out: &mut Vec<u8>, word: &[u8]) -> Result<(), AllocError>
    ensures { OnOk result (out.new.items ≡ out.old.items ++ codes " " ++ word.now ++ codes " ") }
{
    out.extend_from_slice(b" ")?;
    out.extend_from_slice(word)?;
    out.extend_from_slice(b" ")
}

/// Returns the word for the kind `kind` of a line.
fn word_of_line_kind(kind: LineKind) -> &'static [u8]
    ensures { result.now ≡ word_of_kind kind }
{
    match kind {
        LineKind::Blank => b"blank",
        LineKind::Comment => b"comment",
        LineKind::Include => b"include",
        LineKind::Defaults => b"defaults",
        LineKind::Alias => b"alias",
        LineKind::Spec => b"spec",
    }
}
