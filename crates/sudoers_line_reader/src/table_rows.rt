//! Rows that stand in tables, each kind in its own.

ghost use Rattle.std.specs.Prelude.{◌≡◌, [], ◌∷◌, ◌++◌, List, length, IfOk};
ghost use Rattle.sudoers_line_rows.specs.declared.rows.Tables.{Tables as TablesOf};
ghost use Rattle.sudoers_line_rows.specs.Tables.{TablesHaveGrown, IsExtendedList, IsRowRangeFromTo};

use std::alloc::AllocError;
use sudoers_line_rows::{
    AliasDefinitionRow, CommandRow, DigestRow, HostGroupRow, MemberRow, OptionRow, ParamRow,
    RowRange, Tables, TagRow, convert_offset_to_u32,
};

/// Appends a row to a table, and returns where it stands. More than 2^32 rows are want of memory.
fn push_table_row<T: Copy + Drop>(table: &mut Vec<T>, row: T) -> Result<RowRange, AllocError>
    ensures kept { IfOk result (λ r. (table.new.items ≡ table.old.items ++ row ∷ []) × IsRowRangeFromTo r (length table.old.items) (length table.new.items)) }
    ensures grown { IsExtendedList table.old.items table.new.items }
{
    let from = convert_offset_to_u32(table.len())?;
    table.push(row)?;
    let to = convert_offset_to_u32(table.len())?;
    Ok(RowRange { from, to })
}

/// A row that stands in a table of its kind.
pub trait TableRow: Copy + Drop {
    ghost table: { TablesOf → List Self };

    /// Appends a row to its table.
    fn keep_one(tables: &mut Tables, row: Self) -> Result<RowRange, AllocError>
        ensures kept { IfOk result (λ r. (table tables.new ≡ table tables.old ++ row ∷ []) × IsRowRangeFromTo r (length (table tables.old)) (length (table tables.new))) }
        ensures grown { TablesHaveGrown tables.old tables.new };

    ghost grows: { (t u : TablesOf) → TablesHaveGrown t u → IsExtendedList (table t) (table u) };
}

impl TableRow for DigestRow {
    ghost table = { λ t. t.digests.items };

    ghost grows = { λ t u g. g.digests };

    fn keep_one(tables: &mut Tables, row: Self) -> Result<RowRange, AllocError> {
        push_table_row(&mut tables.digests, row)
    }
}

impl TableRow for MemberRow {
    ghost table = { λ t. t.members.items };

    ghost grows = { λ t u g. g.members };

    fn keep_one(tables: &mut Tables, row: Self) -> Result<RowRange, AllocError> {
        push_table_row(&mut tables.members, row)
    }
}

impl TableRow for OptionRow {
    ghost table = { λ t. t.options.items };

    ghost grows = { λ t u g. g.options };

    fn keep_one(tables: &mut Tables, row: Self) -> Result<RowRange, AllocError> {
        push_table_row(&mut tables.options, row)
    }
}

impl TableRow for TagRow {
    ghost table = { λ t. t.tags.items };

    ghost grows = { λ t u g. g.tags };

    fn keep_one(tables: &mut Tables, row: Self) -> Result<RowRange, AllocError> {
        push_table_row(&mut tables.tags, row)
    }
}

impl TableRow for CommandRow {
    ghost table = { λ t. t.commands.items };

    ghost grows = { λ t u g. g.commands };

    fn keep_one(tables: &mut Tables, row: Self) -> Result<RowRange, AllocError> {
        push_table_row(&mut tables.commands, row)
    }
}

impl TableRow for HostGroupRow {
    ghost table = { λ t. t.groups.items };

    ghost grows = { λ t u g. g.groups };

    fn keep_one(tables: &mut Tables, row: Self) -> Result<RowRange, AllocError> {
        push_table_row(&mut tables.groups, row)
    }
}

impl TableRow for AliasDefinitionRow {
    ghost table = { λ t. t.defs.items };

    ghost grows = { λ t u g. g.defs };

    fn keep_one(tables: &mut Tables, row: Self) -> Result<RowRange, AllocError> {
        push_table_row(&mut tables.defs, row)
    }
}

impl TableRow for ParamRow {
    ghost table = { λ t. t.params.items };

    ghost grows = { λ t u g. g.params };

    fn keep_one(tables: &mut Tables, row: Self) -> Result<RowRange, AllocError> {
        push_table_row(&mut tables.params, row)
    }
}
