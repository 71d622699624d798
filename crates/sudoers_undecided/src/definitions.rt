//! The definitions of a policy.

ghost use Rattle.std.specs.Prelude.{◌≡◌, ◌++◌, map, IfOk, OnOk};
ghost use Rattle.sudoers_line_rows.specs.View.{alias_definitions_of_view, atom_of_view, node_of_view};
ghost use Rattle.sudoers_match_list.specs.Search.{alias_number_of_atom};
ghost use Rattle.sudoers_tree.specs.Definition.{definitions_in_line};
ghost use Rattle.sudoers_tree.specs.Line.{lines_of_rows};
ghost use Rattle.sudoers_undecided.specs.internal.Definitions.{HoldsDefinitions, kind_and_members_held, kind_and_members_of_def, kind_and_members_of_definition};

use crate::mention_order::sort_definitions_by_mentions;
use std::alloc::{AllocError, Global};
use sudoers_check::DefinitionNumbers;
use sudoers_match_list::AcyclicWalk;
use sudoers_tree::{AliasDefinitionRow, BorrowedAtom, Kind, LineRow, MemberRow, Node, RowsOfTable};

/// A definition of an alias, and the number of the line on which it stands, from 0.
#[derive(Clone, Copy)]
pub struct DefinitionOnLine<'a> {
    pub kind: Kind,
    pub name: &'a [u8],
    pub line: usize,
    pub members: RowsOfTable<'a, MemberRow>,
}

/// The definitions of a policy by their numbers, and an order in which they are best decided.
#[derive(Drop)]
pub struct OrderedDefinitions<'a> {
    pub definitions: Vec<DefinitionOnLine<'a>>,
    pub order: Vec<usize>,
}

/// Returns the number of the definition that `atom` names in a list of this kind, if it names one.
pub fn find_number_of_alias_atom(
    numbers: &DefinitionNumbers<'_>,
    kind: Kind,
    atom: &BorrowedAtom<'_>,
) -> Option<usize>
    ensures { result ≡ alias_number_of_atom kind numbers.now.walk (atom_of_view atom.now) }
{
    match *atom {
        BorrowedAtom::Alias(name) => numbers.of(kind, name),
        _ => None,
    }
}

/// Appends the definitions of the line with the number `line`.
fn append_definitions_on_line<'a>(
    line: usize,
    kind: Kind,
    defs: &RowsOfTable<'a, AliasDefinitionRow>,
    definitions: &mut Vec<DefinitionOnLine<'a>>,
) -> Result<(), AllocError>
    ensures { OnOk result (map kind_and_members_held definitions.new.items ≡ map kind_and_members_held definitions.old.items ++ map (kind_and_members_of_def kind) (alias_definitions_of_view defs.now)) }
{
    let tables = defs.tables;
    for row in defs.rows {
        let def = tables.alias_definition_of_row(row);
        definitions.push(DefinitionOnLine {
            kind,
            name: def.name,
            line,
            members: def.members,
        })?;
    }
    Ok(())
}

/// Appends the definitions of the line with the number `line`, which says `node`.
#[tactic(auto, using(crate::proofs::DefinitionLines::definitions_on_line_are_its_definitions))]
fn append_definitions_of_node<'a>(
    line: usize,
    node: &Node<'a>,
    definitions: &mut Vec<DefinitionOnLine<'a>>,
) -> Result<(), AllocError>
    ensures { OnOk result (map kind_and_members_held definitions.new.items ≡ map kind_and_members_held definitions.old.items ++ map kind_and_members_of_definition (definitions_in_line line (node_of_view node.now))) }
{
    match node {
        Node::Alias { kind, defs } => append_definitions_on_line(line, *kind, defs, definitions),
        _ => Ok(()),
    }
}

/// Returns the definitions on `lines`, by their numbers.
fn list_definitions_on_lines<'a>(
    alloc: Global,
    lines: &RowsOfTable<'a, LineRow>,
) -> Result<Vec<DefinitionOnLine<'a>>, AllocError>
    ensures { IfOk result (λ ds. HoldsDefinitions (lines_of_rows lines.now) ds.items) }
{
    let mut definitions = Vec::new(alloc);
    for (line, row) in lines.rows.iter().enumerate() {
        let node = lines.tables.node_of_row(&row.node);
        append_definitions_of_node(line, &node, &mut definitions)?;
    }
    Ok(definitions)
}

impl<'a> OrderedDefinitions<'a> {
    /// Returns the definitions of `policy`.
    ///
    /// # Errors
    ///
    /// Memory ran out.
    pub fn new(
        alloc: Global,
        policy: &AcyclicWalk<'a>,
    ) -> Result<OrderedDefinitions<'a>, AllocError>
        ensures { IfOk result (λ ds. HoldsDefinitions policy.now ds.definitions.items) }
    {
        let definitions = list_definitions_on_lines(alloc, &policy.lines())?;
        let order = sort_definitions_by_mentions(
            alloc,
            policy.definition_numbers(),
            definitions.as_slice(),
        )?;
        Ok(OrderedDefinitions { definitions, order })
    }
}
