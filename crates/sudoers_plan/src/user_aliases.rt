//! The aliases in which a user stands.

ghost use Rattle.std.specs.Prelude.{◌≡◌, ◌<◌, ℕ, List, true, false, nat_eq, map, length, slice_index_or, IfOk, OnOk};
ghost use Rattle.std.specs.List.{list_any};
ghost use Rattle.sudoers_line_rows.specs.Tables.{alias_definition_in_tables};
ghost use Rattle.sudoers_line_rows.specs.View.{alias_definition_of_view, members_of_view};
ghost use Rattle.sudoers_names.specs.Numbers.{numbers_of_name};
ghost use Rattle.sudoers_plan.specs.Mentions.{AreUnmarkedSettled, is_definition_settled, names_with_definition};
ghost use Rattle.sudoers_plan.specs.User.{aliases_of_user, is_list_of_user, names_with_definitions_of_user, user_definitions_of_lines};

use crate::user_definitions::UserDefinitions;
use crate::user_members::{ListPart, UserMembers};
use std::alloc::AllocError;
use sudoers_line_rows::{Def, MemberRow, RowsOfTable};
use sudoers_names::{NameSet, NumbersByName};
use sudoers_tree::{ALIAS_LIMIT, Policy};

/// Returns the aliases of users in which the user stands, by name or by such an alias: in any member, or in all. `definitions` are those of
/// `policy`.
///
/// # Errors
///
/// Memory ran out.
#[tactic(auto, unfolding(crate::specs::User::aliases_of_user))]
pub fn find_aliases_of_user(
    policy: &Policy,
    definitions: &UserDefinitions<'_>,
    part: ListPart,
    user: &[u8],
) -> Result<NameSet, AllocError>
    requires { map (alias_definition_in_tables definitions.now.tables.now) definitions.now.rows.items ≡ user_definitions_of_lines policy.now.walk.lines }
    ensures { IfOk result (λ names. names ≡ aliases_of_user part user.now policy.now.walk.lines) }
{
    let alloc = policy.allocator();
    let mut names = NameSet::new(alloc);
    let mut marked = Vec::from_elem(alloc, true, definitions.rows.len())?;
    let marks = marked.as_mut_slice();
    for _ in 0..ALIAS_LIMIT {
        let before = names.len();
        add_marked_aliases(policy, definitions, part, user, marks, &mut names)?;
        if names.len() == before {
            return Ok(names);
        }
    }
    Ok(names)
}

/// Adds the aliases that are the user's. Looks at the marked definitions alone, in their order, and uses what it has added so far. The aliases
/// of the others are there already, or are not the user's. Marks the definitions that have to be looked at again.
fn add_marked_aliases(
    policy: &Policy,
    definitions: &UserDefinitions<'_>,
    part: ListPart,
    user: &[u8],
    marks: &mut [bool],
    names: &mut NameSet,
) -> Result<(), AllocError>
    requires each { length marks.old ≡ length definitions.now.rows.items }
    requires settled { AreUnmarkedSettled part user.now policy.now.walk.lines names.old (map (alias_definition_in_tables definitions.now.tables.now) definitions.now.rows.items) marks.old }
    ensures names { OnOk result (names.new ≡ names_with_definitions_of_user part user.now policy.now.walk.lines names.old (map (alias_definition_in_tables definitions.now.tables.now) definitions.now.rows.items)) }
    ensures settled { OnOk result (AreUnmarkedSettled part user.now policy.now.walk.lines names.new (map (alias_definition_in_tables definitions.now.tables.now) definitions.now.rows.items) marks.new) }
{
    for (number, row) in definitions.rows.as_slice().iter().enumerate() {
        if marks[number] {
            marks[number] = false;
            let def = definitions.tables.alias_definition_of_row(row);
            add_alias_of_user(
                policy,
                part,
                user,
                &def,
                &definitions.mentions,
                marks,
                names,
            )?;
        }
    }
    Ok(())
}

/// Adds the alias that `def` defines, if it is the user's. Marks the definitions that mention it.
fn add_alias_of_user(
    policy: &Policy,
    part: ListPart,
    user: &[u8],
    def: &Def<'_>,
    mentions: &NumbersByName,
    marks: &mut [bool],
    names: &mut NameSet,
) -> Result<(), AllocError>
    ensures names { OnOk result (names.new ≡ names_with_definition part user.now policy.now.walk.lines names.old (alias_definition_of_view def.now)) }
    ensures kept { OnOk result ((j : ℕ) → slice_index_or marks.old j false ≡ true → slice_index_or marks.new j false ≡ true) }
    ensures marked { OnOk result (is_definition_settled part user.now policy.now.walk.lines names.old (alias_definition_of_view def.now) ≡ false
        → (j : ℕ) → j < length marks.old → list_any (nat_eq j) (numbers_of_name def.now.name.now mentions.now) ≡ true → slice_index_or marks.new j false ≡ true) }
{
    if !names.has(def.name) && is_list_of_user_part(policy, part, user, &def.members, names) {
        names.add(policy.allocator(), def.name)?;
        set_marks_at(marks, mentions.numbers_of_name(def.name));
    }
    Ok(())
}

/// Marks the definitions with these numbers.
fn set_marks_at(marks: &mut [bool], numbers: &[usize])
    ensures kept { (j : ℕ) → slice_index_or marks.old j false ≡ true → slice_index_or marks.new j false ≡ true }
    ensures marked { (j : ℕ) → j < length marks.old → list_any (nat_eq j) numbers.now ≡ true → slice_index_or marks.new j false ≡ true }
{
    for number in numbers {
        if *number < marks.len() {
            marks[*number] = true;
        }
    }
}

/// Returns whether any member of the list is the user's, or all are.
fn is_list_of_user_part(
    policy: &Policy,
    part: ListPart,
    user: &[u8],
    members: &RowsOfTable<'_, MemberRow>,
    names: &NameSet,
) -> bool
    ensures { result ≡ is_list_of_user part user.now policy.now.walk.lines names.now (members_of_view members.now) }
{
    let his = UserMembers {
        policy,
        user: Some(user),
        aliases: names,
    };
    match part {
        ListPart::Any => his.has_any(members),
        ListPart::All => his.has_any(members) && his.has_all(members),
    }
}
