//! Lists of rows.

ghost use Rattle.std.specs.Prelude.{◌≡◌, slice_range};

use crate::rows::{RowRange, Tables};

/// Rows of one table, with the tables in which they say something.
#[derive(Clone, Copy)]
pub struct RowsOfTable<'a, R> {
    pub tables: &'a Tables,
    pub rows: &'a [R],
}

/// Returns the rows of a range.
pub fn rows_in<R>(table: &[R], range: RowRange) -> &[R]
    ensures { result.now ≡ slice_range table.now range.from range.to }
{
    let (from, to) = (range.from as usize, range.to as usize);
    let (_, behind) = table.split_at(from.min(table.len()));
    let (rows, _) = behind.split_at(to.saturating_sub(from).min(behind.len()));
    rows
}
