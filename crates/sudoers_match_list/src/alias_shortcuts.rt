//! Shortcuts through chains of aliases that have one member each.

ghost use Rattle.std.specs.Prelude.{◌≡◌, ◌<◌, ℕ, List, length, map, IfOk};
ghost use Rattle.sudoers_line_rows.specs.Tables.{member_in_tables};
ghost use Rattle.sudoers_tree.specs.Definition.{definitions_of_lines};
ghost use Rattle.sudoers_tree.specs.Line.{Line};
ghost use Rattle.sudoers_match_list.specs.Flat.{flipped_if_negated};
ghost use Rattle.sudoers_match_list.specs.Search.{members_of_definition_number};
ghost use Rattle.sudoers_match_list.specs.internal.Shortcuts.{AreDefinitionShortcuts, IsDefinitionShortcut, kind_and_members_of_row, kind_and_members_of_definition, kind_of_definition_at};

use crate::acyclic::AcyclicWalk;
use crate::definition_rows::DefinitionKindAndMembers;
use std::alloc::{AllocError, Global};
use sudoers_line_rows::{AtomRow, Tables};

/// How often shortcuts are joined: each time they get twice as long, and no chain has more than 4,096 definitions.
const ROUNDS: usize = 12;

/// The number of the definition to which a chain of aliases leads, how many replacements lead there, and whether they turn the sign.
#[derive(Clone, Copy)]
pub struct AliasShortcut {
    pub to: usize,
    pub times: usize,
    pub negated: bool,
}

/// Returns the sign, turned if `negated`.
pub fn flip_sign_if_negated(negated: bool, sign: bool) -> bool
    ensures { result ≡ flipped_if_negated negated sign }
{
    if negated { !sign } else { sign }
}

/// Returns the shortcut of the definition with this number: to the alias that is its one member, or to itself.
fn find_one_step_or_self_shortcut(
    policy: &AcyclicWalk<'_>,
    tables: &Tables,
    number: usize,
    definition: &DefinitionKindAndMembers<'_>,
) -> AliasShortcut
    requires within { number < length (definitions_of_lines policy.now) }
    requires kind { definition.now.kind ≡ kind_of_definition_at policy.now number }
    requires members { map (member_in_tables tables.now) definition.now.members.now ≡ members_of_definition_number policy.now number }
    ensures { IsDefinitionShortcut policy.now number result }
{
    let stays = AliasShortcut {
        to: number,
        times: 0,
        negated: false,
    };
    let [row] = definition.members else {
        return stays;
    };
    let AtomRow::Alias(name) = row.atom else {
        return stays;
    };
    match policy
        .definition_numbers()
        .of(definition.kind, tables.bytes_of_text_row(name))
    {
        None => stays,
        Some(to) => AliasShortcut {
            to,
            times: 1,
            negated: row.negated,
        },
    }
}

/// Returns the shortcut of each definition: to the alias that is its one member, or to itself.
fn find_one_step_or_self_shortcuts(
    alloc: Global,
    policy: &AcyclicWalk<'_>,
    tables: &Tables,
    rows: &[DefinitionKindAndMembers<'_>],
) -> Result<Vec<AliasShortcut>, AllocError>
    requires { map (kind_and_members_of_row tables.now) rows.now ≡ map kind_and_members_of_definition (definitions_of_lines policy.now) }
    ensures { IfOk result (λ all. AreDefinitionShortcuts policy.now all.items) }
{
    let mut all = Vec::new(alloc);
    for (number, row) in rows.iter().enumerate() {
        all.push(find_one_step_or_self_shortcut(policy, tables, number, row))?;
    }
    Ok(all)
}

/// Returns a shortcut with the one behind it, unless it comes to more replacements than there are definitions: then it goes round.
fn join_shortcut_with_next(shortcuts: &[AliasShortcut], first: AliasShortcut) -> AliasShortcut
    ensures { (lines : List Line) (n : ℕ) → AreDefinitionShortcuts lines shortcuts.now → IsDefinitionShortcut lines n first → IsDefinitionShortcut lines n result }
{
    let Some(next) = shortcuts.get(first.to) else {
        return first;
    };
    let times = first.times.saturating_add(next.times);
    if times >= shortcuts.len() {
        return first;
    }
    AliasShortcut {
        to: next.to,
        times,
        negated: flip_sign_if_negated(first.negated, next.negated),
    }
}

/// Joins each shortcut with the one behind it.
fn join_each_shortcut_with_next(shortcuts: &mut [AliasShortcut])
    ensures { (lines : List Line) → AreDefinitionShortcuts lines shortcuts.old → AreDefinitionShortcuts lines shortcuts.new }
{
    for i in 0..shortcuts.len() {
        shortcuts[i] = join_shortcut_with_next(shortcuts, shortcuts[i]);
    }
}

/// Returns for each definition the shortcut to the end of the chain of aliases that begins with it.
///
/// # Errors
///
/// Memory ran out.
pub fn find_chain_end_shortcuts(
    alloc: Global,
    policy: &AcyclicWalk<'_>,
    tables: &Tables,
    rows: &[DefinitionKindAndMembers<'_>],
) -> Result<Vec<AliasShortcut>, AllocError>
    requires { map (kind_and_members_of_row tables.now) rows.now ≡ map kind_and_members_of_definition (definitions_of_lines policy.now) }
    ensures { IfOk result (λ all. AreDefinitionShortcuts policy.now all.items) }
{
    let mut all = find_one_step_or_self_shortcuts(alloc, policy, tables, rows)?;
    for round in 0..ROUNDS {
        join_each_shortcut_with_next(all.as_mut_slice());
    }
    Ok(all)
}
