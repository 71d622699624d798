//! Policies whose lists are flattened, and their aliases.

ghost use Rattle.std.specs.Prelude.{◌≡◌, None, map, IfOk, MatchOption};
ghost use Rattle.sudoers_line_rows.specs.Tables.{atom_in_tables};
ghost use Rattle.sudoers_tree.specs.Definition.{definitions_of_lines as policy_definitions};
ghost use Rattle.sudoers_tree.specs.Line.{lines_of_rows};
ghost use Rattle.sudoers_match_list.specs.Flat.{alias_members_of_atom};
ghost use Rattle.sudoers_match_list.specs.internal.Shortcuts.{AreDefinitionShortcuts, AreEndsOfAliasChainOfAtom, kind_and_members_of_row, kind_and_members_of_definition};

use crate::acyclic::AcyclicWalk;
use crate::alias_shortcuts::{AliasShortcut, find_chain_end_shortcuts};
use crate::definition_rows::{DefinitionKindAndMembers, list_definitions};
use std::alloc::{AllocError, Global};
use sudoers_line_rows::{AtomRow, MemberRow, RowsOfTable};
use sudoers_tree::{Kind, LineRow};

/// The members of an alias, and the last members of the chain of aliases that begins with it. So many replacements lead from the first
/// to the last, and they turn signs if `negated`.
#[derive(Clone, Copy)]
pub struct AliasChainEnds<'a> {
    pub first: &'a [MemberRow],
    pub last: &'a [MemberRow],
    pub times: usize,
    pub negated: bool,
}

/// A policy whose lists are flattened, with its definitions and shortcuts by their numbers, and whether aliases are replaced.
#[derive(Drop)]
pub struct ExpansionSource<'a, 'b> {
    pub policy: &'b AcyclicWalk<'a>,
    pub lines: RowsOfTable<'a, LineRow>,
    pub definitions: Vec<DefinitionKindAndMembers<'a>>,
    shortcuts: Vec<AliasShortcut>,
    pub expand: bool,
    ghost same: { lines_of_rows lines ≡ policy.now },
    ghost definitions_are: { map (kind_and_members_of_row lines.tables.now) definitions.items ≡ map kind_and_members_of_definition (policy_definitions policy.now) },
    ghost shortcuts_are: { AreDefinitionShortcuts policy.now shortcuts.items },
}

impl<'a, 'b> ExpansionSource<'a, 'b> {
    /// Returns `policy` as a source of lists.
    ///
    /// # Errors
    ///
    /// Memory ran out.
    pub fn new(
        alloc: Global,
        policy: &'b AcyclicWalk<'a>,
        expand: bool,
    ) -> Result<ExpansionSource<'a, 'b>, AllocError>
        ensures policy { IfOk result (λ source. source.policy.now ≡ policy.now) }
        ensures expand { IfOk result (λ source. source.expand ≡ expand) }
    {
        let lines = policy.lines();
        let definitions = list_definitions(alloc, policy, &lines)?;
        let shortcuts = find_chain_end_shortcuts(
            alloc,
            policy,
            lines.tables,
            definitions.as_slice(),
        )?;
        Ok(ExpansionSource {
            policy,
            lines,
            definitions,
            shortcuts,
            expand,
        })
    }

    /// Returns the chain of the alias that `atom` names in a list of this kind, if it is defined.
    pub(crate) fn find_alias_chain_ends_of_atom(
        &self,
        kind: Kind,
        atom: AtomRow,
    ) -> Option<AliasChainEnds<'a>>
        ensures { MatchOption result (alias_members_of_atom kind self.now.policy.now (atom_in_tables self.now.lines.tables.now atom) ≡ None)
            (λ chain. AreEndsOfAliasChainOfAtom kind self.now.policy.now self.now.lines.tables.now (atom_in_tables self.now.lines.tables.now atom) chain) }
    {
        let AtomRow::Alias(name) = atom else {
            return None;
        };
        let number = self
            .policy
            .definition_numbers()
            .of(kind, self.lines.tables.bytes_of_text_row(name))?;
        let shortcut = self.shortcuts.get(number)?;
        let first = self.definitions.get(number)?;
        let last = self.definitions.get(shortcut.to)?;
        Some(AliasChainEnds {
            first: first.members,
            last: last.members,
            times: shortcut.times,
            negated: shortcut.negated,
        })
    }
}
