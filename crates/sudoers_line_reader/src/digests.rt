//! Digests of commands.

ghost use Rattle.sudoers_line_reader.specs.Reader.{separated_list_reader};
ghost use Rattle.sudoers_line_reader.specs.Descent.{digest_reader, optional_digests_reader};
ghost use Rattle.sudoers_line_rows.specs.Tables.{TablesHaveGrown, digest_in_tables, digests_of_range_in_tables};
ghost use Rattle.sudoers_grammar.specs.Node.{Digest as DigestOf};
ghost use Rattle.sudoers_line_reader.specs.internal.Answer.{RowReadsAsOutcome};

use crate::cursor::{ReadResult, TokenCursor};
use crate::row_reader::{RowReader, read_separated_rows};
use std::alloc::Global;
use sudoers_line_rows::{DigestRow, NONE, RowRange, Tables, store_text};

/// Reads digests.
#[derive(Clone, Copy)]
pub struct DigestReader;

impl RowReader for DigestReader {
    type Row = DigestRow;

    ghost Said = { DigestOf };

    ghost said = { digest_in_tables };

    ghost rule = { λ _. digest_reader };

    #[tactic(auto, unfolding(crate::specs::Descent::digest_reader))]
    fn read(
        self,
        _alloc: Global,
        cursor: &mut TokenCursor<'_>,
        tables: &mut Tables,
    ) -> ReadResult<DigestRow> {
        let kind = cursor.expect_digest_kind()?;
        cursor.expect_mark(b':')?;
        let part = cursor.expect_digest_text()?;
        let text = store_text(tables, part.text)?;
        Ok(DigestRow { kind, text })
    }
}

/// Reads a list of digests.
#[tactic(auto, using(crate::proofs::Loops::next_digest_reader_consumes_tokens))]
pub fn read_digest_list(
    alloc: Global,
    cursor: &mut TokenCursor<'_>,
    tables: &mut Tables,
) -> ReadResult<RowRange>
    ensures reads { RowReadsAsOutcome (separated_list_reader 44 digest_reader cursor.old) digests_of_range_in_tables tables.new result cursor.new }
    ensures grown { TablesHaveGrown tables.old tables.new }
{
    read_separated_rows(DigestReader, b',', alloc, cursor, tables)
}

/// Reads the digests before a command, if any.
#[tactic(auto, unfolding(crate::specs::Descent::optional_digests_reader))]
#[inline(always)]
pub fn read_optional_digests(
    alloc: Global,
    cursor: &mut TokenCursor<'_>,
    tables: &mut Tables,
) -> ReadResult<RowRange>
    ensures reads { RowReadsAsOutcome (optional_digests_reader cursor.old) digests_of_range_in_tables tables.new result cursor.new }
    ensures grown { TablesHaveGrown tables.old tables.new }
{
    if cursor.is_at_digest_kind() {
        read_digest_list(alloc, cursor, tables)
    } else {
        Ok(NONE)
    }
}
