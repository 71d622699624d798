//! Readers of rows, and of lists of rows.

ghost use Rattle.std.specs.Prelude.{◌≡◌, ◌∷◌, [], Bool, IfOk};
ghost use Rattle.sudoers_grammar.specs.Piece.{TokenWithBytes, is_mark_of_byte};
ghost use Rattle.sudoers_line_rows.specs.declared.rows.Tables.{Tables as TablesOf};
ghost use Rattle.sudoers_line_rows.specs.Tables.{TablesHaveGrown, RowMeaningLasts, values_of_row_range};
ghost use Rattle.sudoers_line_reader.specs.Reader.{TokenReader, ReaderConsumesTokens, reader_after_mark, is_next_token, repetition_reader, separated_list_reader, snoc};
ghost use Rattle.sudoers_line_reader.specs.internal.Answer.{RowReadsAsOutcome};

use crate::cursor::{ReadResult, TokenCursor};
use crate::table_rows::TableRow;
use std::alloc::{AllocError, Global};
use sudoers_line_rows::{NONE, RowRange, Tables};

/// A reader of rows of one kind.
pub trait RowReader: Copy {
    type Row: TableRow;

    ghost Said: { Type 0 };

    ghost said: { TablesOf → Self.Row → Said };

    ghost rule: { Self → TokenReader Said };

    /// Reads a row.
    fn read(
        self,
        alloc: Global,
        cursor: &mut TokenCursor<'_>,
        tables: &mut Tables,
    ) -> ReadResult<Self::Row>
        ensures reads { RowReadsAsOutcome (rule self cursor.old) said tables.new result cursor.new }
        ensures grown { TablesHaveGrown tables.old tables.new };
}

/// A reader that tells by the next token whether it reads a row.
pub trait LookaheadRowReader: RowReader {
    ghost begins: { Self → TokenWithBytes → Bool };

    /// Returns whether a row comes next.
    fn comes(self, cursor: &TokenCursor<'_>) -> bool
        ensures { result ≡ is_next_token (begins self) cursor.now };
}

/// A reader of this mark and of what another reader reads behind it.
#[derive(Clone, Copy)]
struct AfterMarkReader<R> {
    mark: u8,
    reader: R,
}

impl<R: RowReader> RowReader for AfterMarkReader<R> {
    type Row = R::Row;

    ghost Said = { R.Said };

    ghost said = { R.said };

    ghost rule = { λ it. reader_after_mark it.mark (R.rule it.reader) };

    fn read(
        self,
        alloc: Global,
        cursor: &mut TokenCursor<'_>,
        tables: &mut Tables,
    ) -> ReadResult<R::Row> {
        cursor.expect_mark(self.mark)?;
        self.reader.read(alloc, cursor, tables)
    }
}

impl<R: RowReader> LookaheadRowReader for AfterMarkReader<R> {
    ghost begins = { λ it. is_mark_of_byte it.mark };

    fn comes(self, cursor: &TokenCursor<'_>) -> bool {
        cursor.is_at_mark(self.mark)
    }
}

/// Returns the range of rows and of those directly behind them. No reader of a row leaves another row of its table before it: where one
/// did, that would be told as want of memory.
#[inline(always)]
fn join_row_ranges(rows: RowRange, behind: RowRange) -> Result<RowRange, AllocError>
    ensures { IfOk result (λ all. (rows.to ≡ behind.from) × (all.from ≡ rows.from) × (all.to ≡ behind.to)) }
{
    if rows.to == behind.from {
        Ok(RowRange {
            from: rows.from,
            to: behind.to,
        })
    } else {
        Err(AllocError)
    }
}

/// Reads rows while they come, and keeps each behind `first`.
fn read_further_rows<R: LookaheadRowReader>(
    reader: R,
    first: R::Row,
    alloc: Global,
    cursor: &mut TokenCursor<'_>,
    tables: &mut Tables,
) -> ReadResult<RowRange>
    requires shrinks { ReaderConsumesTokens (R.rule reader) }
    requires lasts { RowMeaningLasts (R.said) tables.now first }
    ensures reads { RowReadsAsOutcome (repetition_reader snoc (R.begins reader) (R.rule reader) (R.said tables.old first ∷ []) cursor.old) (λ t. values_of_row_range (R.Row.table t) (R.said t)) tables.new result cursor.new }
    ensures grown { TablesHaveGrown tables.old tables.new }
{
    let mut rows = R::Row::keep_one(tables, first)?;
    while reader.comes(cursor) {
        let row = reader.read(alloc, cursor, tables)?;
        let kept = R::Row::keep_one(tables, row)?;
        rows = join_row_ranges(rows, kept)?;
    }
    Ok(rows)
}

/// Reads rows while they come, and keeps them.
pub fn read_repeated_rows<R: LookaheadRowReader>(
    reader: R,
    alloc: Global,
    cursor: &mut TokenCursor<'_>,
    tables: &mut Tables,
) -> ReadResult<RowRange>
    requires { ReaderConsumesTokens (R.rule reader) }
    ensures reads { RowReadsAsOutcome (repetition_reader snoc (R.begins reader) (R.rule reader) [] cursor.old) (λ t. values_of_row_range (R.Row.table t) (R.said t)) tables.new result cursor.new }
    ensures grown { TablesHaveGrown tables.old tables.new }
{
    if !reader.comes(cursor) {
        return Ok(NONE);
    }
    let first = reader.read(alloc, cursor, tables)?;
    read_further_rows(reader, first, alloc, cursor, tables)
}

/// Reads rows with this mark between two, and keeps them.
pub fn read_separated_rows<R: RowReader>(
    reader: R,
    mark: u8,
    alloc: Global,
    cursor: &mut TokenCursor<'_>,
    tables: &mut Tables,
) -> ReadResult<RowRange>
    requires { ReaderConsumesTokens (reader_after_mark mark (R.rule reader)) }
    ensures reads { RowReadsAsOutcome (separated_list_reader mark (R.rule reader) cursor.old) (λ t. values_of_row_range (R.Row.table t) (R.said t)) tables.new result cursor.new }
    ensures grown { TablesHaveGrown tables.old tables.new }
{
    let first = reader.read(alloc, cursor, tables)?;
    read_further_rows(
        AfterMarkReader { mark, reader },
        first,
        alloc,
        cursor,
        tables,
    )
}
