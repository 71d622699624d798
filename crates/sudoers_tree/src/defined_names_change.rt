//! How the names that lines define change where the lines change in their places.

ghost use Rattle.std.specs.Prelude.{◌≡◌, [], ◌∷◌, ◌++◌, List, length, map};
ghost use Rattle.std.specs.List.{All};
ghost use Rattle.sudoers_line_rows.specs.declared.rows.Tables.{Tables as TablesOf};
ghost use Rattle.sudoers_line_rows.specs.Tables.{alias_definition_in_tables, node_in_tables};
ghost use Rattle.sudoers_tree.specs.Definition.{PlacedDefinition, definitions_of_lines, definitions_from_place, definitions_in_line};
ghost use Rattle.sudoers_tree.specs.Line.{line_of_row};
ghost use Rattle.sudoers_tree.specs.internal.Keys.{ChangesDefinedNames};
ghost use Rattle.sudoers_tree.specs.internal.Tree.{IsLastingLineRow};

use crate::alias_mentions::is_same_kind;
use crate::line::LineRow;
use crate::place::Place;
use sudoers_grammar::Kind;
use sudoers_line_rows::{AliasDefinitionRow, ByteRange, NodeRow, Tables, rows_in};

/// How the names that lines define change. The tables of the lines hold the texts of names.
#[derive(Clone, Copy)]
pub enum DefinedNamesChange {
    /// The lines define the same names at the same places.
    Nothing,
    /// The definition at `place`, of the kind `kind`, has the name `fresh` instead of `name`.
    One {
        place: Place,
        kind: Kind,
        name: ByteRange,
        fresh: ByteRange,
    },
    /// The names may change otherwise.
    Other,
}

impl DefinedNamesChange {
    /// Returns the change of definitions of which the first change like this, and those behind them by `next`.
    fn join_with_next_change(self, next: DefinedNamesChange) -> DefinedNamesChange
        ensures { (t : TablesOf) (ds es more others : List PlacedDefinition) → ChangesDefinedNames t self ds es → ChangesDefinedNames t next more others
            → ChangesDefinedNames t result (ds ++ more) (es ++ others) }
    {
        match self {
            DefinedNamesChange::Nothing => next,
            DefinedNamesChange::One { .. } => match next {
                DefinedNamesChange::Nothing => self,
                _ => DefinedNamesChange::Other,
            },
            DefinedNamesChange::Other => DefinedNamesChange::Other,
        }
    }
}

/// Returns how the names that the lines `old` define become those of the lines `new`, of which there are as many.
pub fn change_of_defined_names(
    tables: &Tables,
    old: &[LineRow],
    new: &[LineRow],
) -> DefinedNamesChange
    requires count { length old.now ≡ length new.now }
    requires olds { All (IsLastingLineRow tables.now) old.now }
    requires news { All (IsLastingLineRow tables.now) new.now }
    ensures { ChangesDefinedNames tables.now result (definitions_of_lines (map (line_of_row tables.now) old.now)) (definitions_of_lines (map (line_of_row tables.now) new.now)) }
{
    let mut change = DefinedNamesChange::Nothing;
    for line in 0..old.len() {
        if old[line].shares_text_bytes_with(&new[line]) {
            continue;
        }
        change = change.join_with_next_change(name_change_of_line(
            tables,
            line,
            &old[line].node,
            &new[line].node,
        ));
        if let DefinedNamesChange::Other = change {
            return DefinedNamesChange::Other;
        }
    }
    change
}

/// Returns how the names change that the line with the number `line`, from 0, defines. It said `old`, and says `new`.
pub fn name_change_of_line(
    tables: &Tables,
    line: usize,
    old: &NodeRow,
    new: &NodeRow,
) -> DefinedNamesChange
    ensures { ChangesDefinedNames tables.now result (definitions_in_line line (node_in_tables tables.now old.now)) (definitions_in_line line (node_in_tables tables.now new.now)) }
{
    let table = tables.defs.as_slice();
    match (*old, *new) {
        (
            NodeRow::Alias { kind, defs },
            NodeRow::Alias {
                kind: other,
                defs: others,
            },
        ) => {
            if is_same_kind(kind, other) {
                name_change_of_definitions(
                    tables,
                    kind,
                    line,
                    rows_in(table, defs),
                    rows_in(table, others),
                )
            } else {
                DefinedNamesChange::Other
            }
        }
        (NodeRow::Alias { .. }, _) | (_, NodeRow::Alias { .. }) => DefinedNamesChange::Other,
        _ => DefinedNamesChange::Nothing,
    }
}

/// Returns how the names change that the line with the number `line`, from 0, defines in the kind `kind`. Its definitions were `old`,
/// and are `new`.
fn name_change_of_definitions(
    tables: &Tables,
    kind: Kind,
    line: usize,
    old: &[AliasDefinitionRow],
    new: &[AliasDefinitionRow],
) -> DefinedNamesChange
    ensures { ChangesDefinedNames tables.now result (definitions_from_place kind line 0 (map (alias_definition_in_tables tables.now) old.now))
        (definitions_from_place kind line 0 (map (alias_definition_in_tables tables.now) new.now)) }
{
    if old.len() != new.len() {
        return DefinedNamesChange::Other;
    }
    let mut change = DefinedNamesChange::Nothing;
    for def in 0..old.len() {
        let place = Place { line, def };
        change = change.join_with_next_change(name_change_of_definition(
            tables, kind, place, &old[def], &new[def],
        ));
    }
    change
}

/// Returns how the name changes of the definition at `place`, of the kind `kind`. The definition was `old`, and is `new`.
fn name_change_of_definition(
    tables: &Tables,
    kind: Kind,
    place: Place,
    old: &AliasDefinitionRow,
    new: &AliasDefinitionRow,
) -> DefinedNamesChange
    ensures { ChangesDefinedNames tables.now result (record { kind = kind; place = place; def = alias_definition_in_tables tables.now old.now } ∷ [])
        (record { kind = kind; place = place; def = alias_definition_in_tables tables.now new.now } ∷ []) }
{
    if tables.bytes_of_text_row(old.name) == tables.bytes_of_text_row(new.name) {
        return DefinedNamesChange::Nothing;
    }
    DefinedNamesChange::One {
        place,
        kind,
        name: old.name,
        fresh: new.name,
    }
}
