//! Reading lines into tables.

ghost use Rattle.std.specs.Prelude.{◌≡◌, IfOk};
ghost use Rattle.sudoers_line_rows.specs.Tables.{TablesHaveGrown};
ghost use Rattle.sudoers_tree.specs.internal.Tree.{IsLineReadOutcome};

use crate::line::LineRow;
use crate::name_bits::alias_name_bits_of_node;
use crate::physical_position::lf_count;
use std::alloc::{AllocError, Global};
use sudoers_grammar::LineFault;
use sudoers_line_reader::read_line;
use sudoers_line_rows::{Tables, convert_offset_to_u32, store_text};

/// Reads the line `line` into `tables`, and returns its row.
///
/// # Errors
///
/// The first fault of the line, or want of memory.
pub fn read_line_into_row(
    alloc: Global,
    tables: &mut Tables,
    line: &[u8],
) -> Result<LineRow, LineFault>
    ensures gives { IsLineReadOutcome tables.new result line.now }
    ensures grown { TablesHaveGrown tables.old tables.new }
{
    let text = store_text(tables, line)?;
    let node = read_line(alloc, tables, line, text.from as usize)?;
    let bits = alias_name_bits_of_node(&tables.node_of_row(&node));
    let lfs = convert_offset_to_u32(lf_count(line))?;
    Ok(LineRow {
        text,
        node,
        bits,
        lfs,
    })
}
