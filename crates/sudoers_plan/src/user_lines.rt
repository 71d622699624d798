//! What a line loses with a user.

ghost use Rattle.std.specs.Prelude.{◌≡◌, ◌++◌, ◌∷◌, [], None, Some, drop, map, if◌then◌else◌, IfOk, OnOk};
ghost use Rattle.std.specs.List.{list_all, list_any};
ghost use Rattle.std.specs.Option.{option_copied};
ghost use Rattle.std.specs.Str.{bytes_eq};
ghost use Rattle.sudoers_grammar.specs.Node.{Def as DefOf};
ghost use Rattle.sudoers_line_rows.specs.Tables.{alias_definition_in_tables};
ghost use Rattle.sudoers_line_rows.specs.View.{alias_definition_of_view, alias_definitions_of_view, members_of_view, node_of_view};
ghost use Rattle.sudoers_edit.specs.Splice.{bytes_between};
ghost use Rattle.sudoers_plan.specs.User.{are_definitions_emptied, edits_of_user_definition, edits_of_user_definitions, edits_of_user_list, edits_of_user_node, is_member_of_user, line_without_members, start_of_first_member};

use crate::member_wishes::append_member_drops;
use crate::user_members::UserMembers;
use std::alloc::AllocError;
use sudoers_edit_script::{Edit, Edits, Text};
use sudoers_grammar::Kind;
use sudoers_line_rows::{
    AliasDefinitionRow, Def, MemberRow, Node, RowsOfTable, Scope, Tables, convert_offset_to_u32,
};
use sudoers_names::NameSet;
use sudoers_tree::{Policy, WalkLineSpot};

/// A user who goes, with the aliases that he leaves without a member.
#[derive(Clone, Copy)]
pub struct LeavingUser<'a> {
    pub policy: &'a Policy,
    pub user: &'a [u8],
    pub emptied: &'a NameSet,
}

impl<'a> LeavingUser<'a> {
    /// Returns the test of the members that go from rules and aliases.
    pub fn members(&self) -> UserMembers<'a>
        ensures policy { result.policy.now ≡ self.now.policy.now }
        ensures user { option_copied result.user ≡ Some self.now.user.now }
        ensures aliases { result.aliases.now ≡ self.now.emptied.now }
    {
        UserMembers {
            policy: self.policy,
            user: Some(self.user),
            aliases: self.emptied,
        }
    }

    /// Returns the test of the members that go from scopes of Defaults lines.
    pub fn scope_members(&self) -> UserMembers<'a>
        ensures policy { result.policy.now ≡ self.now.policy.now }
        ensures user { option_copied result.user ≡ None }
        ensures aliases { result.aliases.now ≡ self.now.emptied.now }
    {
        UserMembers {
            policy: self.policy,
            user: None,
            aliases: self.emptied,
        }
    }

    /// Appends the edits of the line at `at`, which has the text `text`.
    pub fn append_edits_of_line(
        &self,
        at: WalkLineSpot,
        text: &[u8],
        node: &Node<'_>,
        edits: &mut Edits,
    ) -> Result<(), AllocError>
        ensures { OnOk result (edits.new ≡ edits.old ++ edits_of_user_node self.now.user.now self.now.policy.now.walk.lines self.now.emptied.now at text.now (node_of_view node.now)) }
    {
        match node {
            Node::Alias {
                kind: Kind::User,
                defs,
            } => self.append_edits_of_alias_line(at, defs, edits),
            Node::Spec { users, .. } => {
                append_edits_of_list(&self.members(), at, text, users, edits)
            }
            Node::Defaults {
                scope: Some(
                    Scope {
                        kind: Kind::User,
                        members,
                    },
                ),
                ..
            } => append_edits_of_list(&self.scope_members(), at, text, members, edits),
            _ => Ok(()),
        }
    }

    /// Appends the edits of a line of definitions. It goes if all definitions do.
    fn append_edits_of_alias_line(
        &self,
        at: WalkLineSpot,
        defs: &RowsOfTable<'_, AliasDefinitionRow>,
        edits: &mut Edits,
    ) -> Result<(), AllocError>
        ensures { OnOk result (edits.new ≡ edits.old ++ (if are_definitions_emptied self.now.emptied.now (alias_definitions_of_view defs.now)
            then Edit.Delete at.file at.line ∷ [] else edits_of_user_definitions self.now.user.now self.now.policy.now.walk.lines self.now.emptied.now at 0 (alias_definitions_of_view defs.now))) }
    {
        if are_all_emptied(self.emptied, defs) {
            return push_deletion(at, edits);
        }
        let mut left = defs.rows;
        while let Some((row, before)) = left.split_last() {
            let def = defs.tables.alias_definition_of_row(row);
            self.append_edits_of_definition(at, before.len(), &def, edits)?;
            left = before;
        }
        Ok(())
    }

    /// Appends the edits of the definition with the number `number` of its line.
    fn append_edits_of_definition(
        &self,
        at: WalkLineSpot,
        number: usize,
        def: &Def<'_>,
        edits: &mut Edits,
    ) -> Result<(), AllocError>
        ensures { OnOk result (edits.new ≡ edits.old ++ edits_of_user_definition self.now.user.now self.now.policy.now.walk.lines self.now.emptied.now at number (alias_definition_of_view def.now)) }
    {
        if self.emptied.has(def.name) {
            return Ok(edits.push(Edit::DropDef {
                file: convert_offset_to_u32(at.file)?,
                line: convert_offset_to_u32(at.line)?,
                at: convert_offset_to_u32(number)?,
            })?);
        }
        let alloc = self.policy.allocator();
        let numbers = self.members().list_numbers(alloc, &def.members)?;
        append_member_drops(alloc, Kind::User, def.name, numbers, edits)
    }
}

/// Returns whether there is a definition and each one is of an emptied alias.
fn are_all_emptied(emptied: &NameSet, defs: &RowsOfTable<'_, AliasDefinitionRow>) -> bool
    ensures { result ≡ are_definitions_emptied emptied.now (alias_definitions_of_view defs.now) }
{
    match defs.rows.split_first() {
        Some((first, others)) => {
            emptied.has(defs.tables.alias_definition_of_row(first).name)
                && are_others_emptied(emptied, defs.tables, others)
        }
        None => false,
    }
}

/// Returns whether each definition is of an emptied alias.
fn are_others_emptied(emptied: &NameSet, tables: &Tables, rows: &[AliasDefinitionRow]) -> bool
    ensures { result ≡ list_all (λ (d : DefOf). list_any (bytes_eq d.name) emptied.now) (map (alias_definition_in_tables tables.now) rows.now) }
{
    let mut left = rows;
    while let Some((row, behind)) = left.split_first() {
        if !emptied.has(tables.alias_definition_of_row(row).name) {
            return false;
        }
        left = behind;
    }
    true
}

/// Appends the edit that takes the line at `at` out.
fn push_deletion(at: WalkLineSpot, edits: &mut Edits) -> Result<(), AllocError>
    ensures { OnOk result (edits.new ≡ edits.old ++ Edit.Delete at.file at.line ∷ []) }
{
    Ok(edits.push(Edit::Delete {
        file: convert_offset_to_u32(at.file)?,
        at: convert_offset_to_u32(at.line)?,
    })?)
}

/// Appends the edits after which the line at `at` has none of `members` that go. It goes itself if all do.
fn append_edits_of_list(
    going: &UserMembers<'_>,
    at: WalkLineSpot,
    text: &[u8],
    members: &RowsOfTable<'_, MemberRow>,
    edits: &mut Edits,
) -> Result<(), AllocError>
    ensures { OnOk result (edits.new ≡ edits.old
        ++ edits_of_user_list (is_member_of_user (option_copied going.now.user) going.now.policy.now.walk.lines going.now.aliases.now) at text.now (members_of_view members.now)) }
{
    if !going.has_any(members) {
        return Ok(());
    }
    push_deletion(at, edits)?;
    if going.has_all(members) {
        return Ok(());
    }
    Ok(edits.push(Edit::Insert {
        file: convert_offset_to_u32(at.file)?,
        at: convert_offset_to_u32(at.line)?,
        text: cut_members_out(going, text, members)?,
    })?)
}

/// Returns the line `text` without those of `members` that go.
pub fn cut_members_out(
    going: &UserMembers<'_>,
    text: &[u8],
    members: &RowsOfTable<'_, MemberRow>,
) -> Result<Text, AllocError>
    ensures { IfOk result (λ line. line
        ≡ line_without_members (is_member_of_user (option_copied going.now.user) going.now.policy.now.walk.lines going.now.aliases.now) text.now (members_of_view members.now)) }
{
    let mut from = start_of_first(members);
    let mut line = Text::from_slice(going.policy.allocator(), cut_slice_between(text, 0, from))?;
    let mut has_stayed = false;
    let mut left = members.rows;
    while let Some((row, behind)) = left.split_first() {
        let member = members.tables.member_of_row(row);
        if !going.has(members.tables, row) {
            let start = if has_stayed { from } else { member.start };
            line.extend_from_slice(cut_slice_between(text, start, member.stop))?;
            has_stayed = true;
        }
        from = member.stop;
        left = behind;
    }
    line.extend_from_slice(cut_slice_behind(text, from))?;
    Ok(line)
}

/// Returns where the first member starts; 0 of none.
fn start_of_first(members: &RowsOfTable<'_, MemberRow>) -> usize
    ensures { result ≡ start_of_first_member (members_of_view members.now) }
{
    match members.rows.first() {
        Some(row) => members.tables.member_of_row(row).start,
        None => 0,
    }
}

/// Returns the bytes of `text` from the offset `from` on.
#[tactic(auto, using(crate::proofs::UserEdits::drop_by_least))]
fn cut_slice_behind(text: &[u8], from: usize) -> &[u8]
    ensures { result.now ≡ drop from text.now }
{
    text.split_at(from.min(text.len())).1
}

/// Returns the bytes of `text` from the offset `from` up to `to`.
#[tactic(auto, using(crate::proofs::UserEdits::take_by_least))]
fn cut_slice_between(text: &[u8], from: usize, to: usize) -> &[u8]
    ensures { result.now ≡ bytes_between from to text.now }
{
    let behind = cut_slice_behind(text, from);
    behind.split_at(to.saturating_sub(from).min(behind.len())).0
}
