//! What is noted of a policy, and the text of it.

ghost use Rattle.std.specs.Prelude.{◌≡◌, ◌++◌, IfOk, OnOk};
ghost use Rattle.std.specs.List.{flat_map};
ghost use Rattle.std.specs.Fmt.{decimal};
ghost use Rattle.sudoers_check.specs.Report.{note_place_text, note_finding_and_alias_text, note_text, is_report_parsed_ok as is_fine_report, parsed_ok_or_faults_found_ending, report_text as text_of_report};

use std::alloc::{AllocError, Global};
use sudoers_grammar::alias_keyword_of_kind;
use sudoers_text::append_decimal_number;
use sudoers_tree::{Items, Kind, Policy};

/// A name in a policy, and where it stands.
#[derive(Debug, Drop)]
pub struct Note {
    pub kind: Kind,
    pub name: Items<u8>,
    /// The number of its file, from 0.
    pub file: usize,
    /// Its physical line in that file, from 1.
    pub line: usize,
    /// Its column there in bytes, from 1.
    pub col: usize,
}

/// What is noted of the aliases of a policy (visudo(8)).
#[derive(Debug, Drop)]
pub struct Report {
    /// Names that are mentioned and not defined, each once, where it is first mentioned and in the order of these mentions.
    pub undefined: Items<Note>,
    /// Aliases that mention themselves, or lead to themselves by others, where and in the order in which they are defined.
    pub cyclic: Items<Note>,
    /// Aliases to which neither a user specification nor a Defaults line leads, where and in the order in which they are
    /// defined.
    pub unused: Items<Note>,
}

impl Report {
    /// Returns whether there are no undefined names and no cyclic aliases, or they are not looked at.
    pub fn is_parsed_ok(&self, strict: bool) -> bool
        ensures { result ≡ is_fine_report strict self.now }
    {
        !strict || (self.undefined.len() == 0 && self.cyclic.len() == 0)
    }
}

/// Returns the text of `report`, a report on `policy`. Each note has a line, which begins with the name of its file. The last line
/// begins with the name of the first file, and says whether the policy is fine. With `strict`, undefined names and cyclic aliases are
/// faults.
///
/// # Errors
///
/// Memory ran out.
pub fn report_text(
    alloc: Global,
    policy: &Policy,
    report: &Report,
    strict: bool,
) -> Result<Vec<u8>, AllocError>
    ensures { IfOk result (λ text. text.items ≡ text_of_report policy.now strict report.now) }
{
    let mut text = Vec::new(alloc);
    let undefined = report.undefined.as_slice();
    append_note_lines(alloc, &mut text, policy, b"undefined", undefined)?;
    let cyclic = report.cyclic.as_slice();
    append_note_lines(alloc, &mut text, policy, b"cyclic", cyclic)?;
    let unused = report.unused.as_slice();
    append_note_lines(alloc, &mut text, policy, b"unused", unused)?;
    text.extend_from_slice(policy.file_name(0))?;
    text.extend_from_slice(choose_parsed_ok_or_faults_found_ending(report.is_parsed_ok(strict)))?;
    Ok(text)
}

fn choose_parsed_ok_or_faults_found_ending(fine: bool) -> &'static [u8]
    ensures { result.now ≡ parsed_ok_or_faults_found_ending fine }
{
    if fine {
        b": parsed OK\n"
    } else {
        b": faults found\n"
    }
}

fn append_note_lines(
    alloc: Global,
    text: &mut Vec<u8>,
    policy: &Policy,
    word: &[u8],
    notes: &[Note],
) -> Result<(), AllocError>
    ensures { OnOk result (text.new.items ≡ text.old.items ++ flat_map (note_text policy.now word.now) notes.now) }
{
    for note in notes {
        append_note_place(alloc, text, policy, note)?;
        append_note_finding_and_alias(text, word, note)?;
    }
    Ok(())
}

/// Adds the file, the line and the column.
fn append_note_place(
    alloc: Global,
    text: &mut Vec<u8>,
    policy: &Policy,
    note: &Note,
) -> Result<(), AllocError>
    ensures { OnOk result (text.new.items ≡ text.old.items ++ note_place_text policy.now note.now) }
{
    text.extend_from_slice(policy.file_name(note.file))?;
    text.extend_from_slice(b":")?;
    append_decimal_number(alloc, text, note.line)?;
    text.extend_from_slice(b":")?;
    append_decimal_number(alloc, text, note.col)?;
    text.extend_from_slice(b": ")
}

/// Adds the word, the kind and the name.
fn append_note_finding_and_alias(
    text: &mut Vec<u8>,
    word: &[u8],
    note: &Note,
) -> Result<(), AllocError>
    ensures { OnOk result (text.new.items ≡ text.old.items ++ note_finding_and_alias_text word.now note.now) }
{
    text.extend_from_slice(word)?;
    text.extend_from_slice(b" ")?;
    text.extend_from_slice(alias_keyword_of_kind(note.kind))?;
    text.extend_from_slice(b" ")?;
    text.extend_from_slice(note.name.as_slice())?;
    text.extend_from_slice(b"\n")
}
