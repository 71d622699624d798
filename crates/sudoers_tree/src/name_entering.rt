//! Entering the names that lines define.

ghost use Rattle.std.specs.Prelude.{List};
ghost use Rattle.sudoers_tree.specs.Definition.{PlacedDefinition, definitions_in_line};
ghost use Rattle.sudoers_tree.specs.internal.Index.{index_after_update, IsIndexEntryOutcome, IsIndexOfDefinitions};
ghost use Rattle.sudoers_tree.specs.Line.{line_of_row};

use crate::alias_index::{AliasIndexUpdate, AliasNameIndex};
use crate::fault::ReadFault;
use crate::line::LineRow;
use crate::line_kind::LineKind;
use std::alloc::Global;
use sudoers_line_rows::Tables;

/// Enters the names that the line of the row `row`, which has the number `number`, defines into `names`, beside those of `known`.
///
/// # Errors
///
/// The fault of the first name that cannot be entered. `NoMemory`: memory ran out.
pub fn enter_names_of_row(
    alloc: Global,
    known: &AliasNameIndex,
    tables: &Tables,
    number: usize,
    row: &LineRow,
    names: &mut AliasIndexUpdate,
) -> Result<(), ReadFault>
    ensures { (before : List PlacedDefinition) → IsIndexOfDefinitions (index_after_update known.now names.old) before
        → IsIndexEntryOutcome result (index_after_update known.now names.new) before (definitions_in_line number (line_of_row tables.now row.now).node) }
{
    if row.kind_of_line_row() != LineKind::Alias {
        return Ok(());
    }
    names.enter_names_of_line(alloc, known, number, &tables.node_of_row(&row.node))
}
