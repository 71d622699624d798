//! Members that are given as text.

ghost use Rattle.std.specs.Prelude.{◌≡◌, ◌≤◌, ◌==◌, ◌++◌, Some, length, IfOk, OnOk, option_map};
ghost use Rattle.std.specs.List.{list_all};
ghost use Rattle.sudoers_grammar.specs.Node.{Member as MemberOf};
ghost use Rattle.sudoers_line_rows.specs.Alike.{is_same_member};
ghost use Rattle.sudoers_line_rows.specs.Tables.{member_in_tables};
ghost use Rattle.sudoers_line_rows.specs.View.{alias_definitions_of_view, members_of_view, node_of_view};
ghost use Rattle.sudoers_tree.specs.Single.{reading_of_single_line};
ghost use Rattle.sudoers_plan.specs.GivenText.{head_of_lone_list, is_member_listed, line_of_lone_list, only_member_between, only_member_of_definitions as of_definitions, only_member_of_line as of_line, text_with_percents_quoted};
ghost use Rattle.sudoers_plan.specs.Numbers.{numbers_of_passing};

use std::alloc::{AllocError, Global};
use sudoers_edit_script::Text;
use sudoers_grammar::{Kind, alias_keyword_of_kind};
use sudoers_line_reader::ParsedLine;
use sudoers_line_rows::{
    AliasDefinitionRow, ComparableRow, MemberRow, Node, RowsOfTable, Tables, convert_offset_to_u32,
};
use sudoers_tree::read_line;

/// What stands between the keyword of a line and its list.
const BEFORE_LIST: &[u8] = b" A = ";

/// A member, in its tables.
#[derive(Clone, Copy)]
pub struct MemberInTables<'a> {
    tables: &'a Tables,
    row: &'a MemberRow,
}

/// Returns how many bytes stand before a list of the kind `kind` that is alone in its line.
pub fn head_len_of_lone_list(kind: Kind) -> usize
    ensures value { result ≡ length (head_of_lone_list kind) }
    ensures small { result ≤ 16 }
{
    match kind {
        Kind::User => 15,
        Kind::Runas => 16,
        Kind::Host => 15,
        Kind::Cmnd => 15,
    }
}

/// Returns what the line says whose one definition has the text `text` for its list.
pub fn read_lone_list(
    alloc: Global,
    kind: Kind,
    text: &[u8],
) -> Result<Option<ParsedLine>, AllocError>
    ensures { IfOk result (λ says. says ≡ reading_of_single_line (line_of_lone_list kind text.now)) }
{
    let mut line = Vec::from_slice(alloc, alias_keyword_of_kind(kind))?;
    line.extend_from_slice(BEFORE_LIST)?;
    line.extend_from_slice(text)?;
    line.extend_from_slice(b"\n")?;
    read_line(alloc, line.as_slice())
}

/// Returns the only member of the only definition of a line, if it stands from the byte `from` to the byte `to`.
pub fn only_member_of_line<'a>(
    node: &Node<'a>,
    from: usize,
    to: usize,
) -> Option<MemberInTables<'a>>
    ensures { option_map (λ member. member_in_tables member.tables.now member.row.now) result ≡ of_line from to (Some (node_of_view node.now)) }
{
    match node {
        Node::Alias { defs, .. } => only_member_of_definitions(defs, from, to),
        _ => None,
    }
}

fn only_member_of_definitions<'a>(
    defs: &RowsOfTable<'a, AliasDefinitionRow>,
    from: usize,
    to: usize,
) -> Option<MemberInTables<'a>>
    ensures { option_map (λ member. member_in_tables member.tables.now member.row.now) result ≡ of_definitions from to (alias_definitions_of_view defs.now) }
{
    match defs.rows {
        [row] => {
            let def = defs.tables.alias_definition_of_row(row);
            find_only_member_between(&def.members, from, to)
        }
        _ => None,
    }
}

fn find_only_member_between<'a>(
    members: &RowsOfTable<'a, MemberRow>,
    from: usize,
    to: usize,
) -> Option<MemberInTables<'a>>
    ensures { option_map (λ member. member_in_tables member.tables.now member.row.now) result ≡ only_member_between from to (members_of_view members.now) }
{
    match members.rows {
        [row] => {
            let member = members.tables.member_of_row(row);
            if member.start == from && member.stop == to {
                Some(MemberInTables {
                    tables: members.tables,
                    row,
                })
            } else {
                None
            }
        }
        _ => None,
    }
}

impl MemberInTables<'_> {
    /// Returns whether one of `members` says the same.
    pub fn is_listed_in(&self, members: &RowsOfTable<'_, MemberRow>) -> bool
        ensures { result ≡ is_member_listed (member_in_tables self.now.tables.now self.now.row.now) (members_of_view members.now) }
    {
        let mut left = members.rows;
        while let Some((row, behind)) = left.split_first() {
            if self
                .row
                .is_alike_across_tables(self.tables, row, members.tables)
            {
                return true;
            }
            left = behind;
        }
        false
    }

    /// Returns the numbers, from 0, of those of `members` that say the same.
    pub fn numbers_of_alike(
        &self,
        alloc: Global,
        members: &RowsOfTable<'_, MemberRow>,
    ) -> Result<Vec<u32>, AllocError>
        ensures { IfOk result (λ numbers. numbers.items
            ≡ numbers_of_passing (is_same_member (member_in_tables self.now.tables.now self.now.row.now)) 0 (members_of_view members.now)) }
    {
        let mut numbers = Vec::new(alloc);
        for (number, row) in members.rows.iter().enumerate() {
            if self
                .row
                .is_alike_across_tables(self.tables, row, members.tables)
            {
                numbers.push(convert_offset_to_u32(number)?)?;
            }
        }
        Ok(numbers)
    }
}

/// Appends the text of a member. A word of `%` alone, behind its signs, is put in quotes.
pub fn append_member_text(out: &mut Text, text: &[u8]) -> Result<(), AllocError>
    ensures { OnOk result (out.new ≡ out.old ++ text_with_percents_quoted text.now) }
{
    let mut rest = text;
    while let Some((b'!', behind)) = rest.split_first() {
        out.extend_from_slice(b"!")?;
        rest = behind;
    }
    if rest.is_empty() || !are_percents(rest) {
        return out.extend_from_slice(rest);
    }
    out.extend_from_slice(b"\"")?;
    out.extend_from_slice(rest)?;
    out.extend_from_slice(b"\"")
}

/// Returns whether each byte is `%`.
fn are_percents(bytes: &[u8]) -> bool
    ensures { result ≡ list_all (λ byte. byte == 37) bytes.now }
{
    bytes.iter().all(|byte| *byte == b'%')
}
