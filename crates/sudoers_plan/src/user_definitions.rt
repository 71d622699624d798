//! The definitions of aliases of users, and which of them mention which aliases.

ghost use Rattle.std.specs.Prelude.{◌≡◌, ◌++◌, ◌∷◌, [], ℕ, List, map, if◌then◌else◌, IfOk, OnOk};
ghost use Rattle.sudoers_line_rows.specs.Tables.{alias_definition_in_tables, node_in_tables};
ghost use Rattle.sudoers_line_rows.specs.View.{alias_definitions_of_view, atom_of_view, members_of_view};
ghost use Rattle.sudoers_names.specs.Numbers.{numbers_of_name};
ghost use Rattle.sudoers_tree.specs.Line.{lines_of_rows};
ghost use Rattle.sudoers_plan.specs.Mentions.{AreMentionsListed, is_alias_atom_of_name, numbers_with_mentioning_definitions, numbers_with_mentions};
ghost use Rattle.sudoers_plan.specs.User.{user_definitions_of_lines, user_definitions_of_node};

use std::alloc::{AllocError, Global};
use sudoers_grammar::Kind;
use sudoers_line_rows::{
    AliasDefinitionRow, BorrowedAtom, MemberRow, NodeRow, RowsOfTable, Tables, rows_in,
};
use sudoers_names::NumbersByName;
use sudoers_tree::{LineRow, Policy};

/// The definitions of aliases of users in a walk, in its order, and for each name the numbers of those that mention it.
#[derive(Drop)]
pub struct UserDefinitions<'a> {
    pub tables: &'a Tables,
    pub rows: Vec<AliasDefinitionRow>,
    pub mentions: NumbersByName,
    ghost listed: { AreMentionsListed (map (alias_definition_in_tables tables.now) rows.items) mentions },
}

impl<'a> UserDefinitions<'a> {
    /// Returns the definitions in `policy`.
    ///
    /// # Errors
    ///
    /// Memory ran out.
    pub fn from_policy(policy: &'a Policy) -> Result<UserDefinitions<'a>, AllocError>
        ensures { IfOk result (λ definitions. map (alias_definition_in_tables definitions.tables.now) definitions.rows.items ≡ user_definitions_of_lines policy.now.walk.lines) }
    {
        let alloc = policy.allocator();
        let lines = policy.lines();
        let rows = list_user_definitions(alloc, &lines)?;
        let defs = RowsOfTable {
            tables: lines.tables,
            rows: rows.as_slice(),
        };
        let mentions = list_mentions(alloc, &defs)?;
        Ok(UserDefinitions {
            tables: lines.tables,
            rows,
            mentions,
        })
    }
}

/// Returns the definitions of aliases of users in `lines`, in their order.
fn list_user_definitions(
    alloc: Global,
    lines: &RowsOfTable<'_, LineRow>,
) -> Result<Vec<AliasDefinitionRow>, AllocError>
    ensures { IfOk result (λ rows. map (alias_definition_in_tables lines.now.tables.now) rows.items ≡ user_definitions_of_lines (lines_of_rows lines.now)) }
{
    let mut rows = Vec::new(alloc);
    for line in lines.rows {
        append_user_definitions(lines.tables, &line.node, &mut rows)?;
    }
    Ok(rows)
}

/// Appends the definitions of aliases of users in a line that says `node`.
fn append_user_definitions(
    tables: &Tables,
    node: &NodeRow,
    rows: &mut Vec<AliasDefinitionRow>,
) -> Result<(), AllocError>
    ensures { OnOk result (map (alias_definition_in_tables tables.now) rows.new.items
        ≡ map (alias_definition_in_tables tables.now) rows.old.items ++ user_definitions_of_node (node_in_tables tables.now node.now)) }
{
    match *node {
        NodeRow::Alias {
            kind: Kind::User,
            defs,
        } => rows.extend_from_slice(rows_in(tables.defs.as_slice(), defs)),
        _ => Ok(()),
    }
}

/// Returns for each name the numbers of those of `defs` that mention it.
fn list_mentions(
    alloc: Global,
    defs: &RowsOfTable<'_, AliasDefinitionRow>,
) -> Result<NumbersByName, AllocError>
    ensures { IfOk result (λ mentions. (name : List ℕ) → numbers_of_name name mentions ≡ numbers_with_mentioning_definitions name 0 (alias_definitions_of_view defs.now) []) }
{
    let mut mentions = NumbersByName::new(alloc);
    for (number, row) in defs.rows.iter().enumerate() {
        let def = defs.tables.alias_definition_of_row(row);
        add_mentions_of_members(alloc, &mut mentions, number, &def.members)?;
    }
    Ok(mentions)
}

/// Adds `number` to `mentions` under each name that `members` mention.
fn add_mentions_of_members(
    alloc: Global,
    mentions: &mut NumbersByName,
    number: usize,
    members: &RowsOfTable<'_, MemberRow>,
) -> Result<(), AllocError>
    ensures { OnOk result ((name : List ℕ) → numbers_of_name name mentions.new ≡ numbers_with_mentions name number (members_of_view members.now) (numbers_of_name name mentions.old)) }
{
    for row in members.rows {
        add_mention_of_atom(
            alloc,
            mentions,
            number,
            &members.tables.member_of_row(row).atom,
        )?;
    }
    Ok(())
}

/// Adds `number` to `mentions` under the name that `atom` mentions, if it mentions one.
fn add_mention_of_atom(
    alloc: Global,
    mentions: &mut NumbersByName,
    number: usize,
    atom: &BorrowedAtom<'_>,
) -> Result<(), AllocError>
    ensures { OnOk result ((name : List ℕ) → numbers_of_name name mentions.new
        ≡ (if is_alias_atom_of_name name (atom_of_view atom.now) then numbers_of_name name mentions.old ++ number ∷ [] else numbers_of_name name mentions.old)) }
{
    match *atom {
        BorrowedAtom::Alias(name) => mentions.add_number(alloc, name, number),
        _ => Ok(()),
    }
}
