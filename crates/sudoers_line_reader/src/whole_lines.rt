//! Whole lines.

ghost use Rattle.std.specs.Prelude.{◌≡◌, []};
ghost use Rattle.sudoers_line_reader.specs.Reader.{end_of_line_reader};
ghost use Rattle.sudoers_line_reader.specs.Descent.{optional_comment_end_reader, whole_line_reader};
ghost use Rattle.sudoers_line_rows.specs.Tables.{TablesHaveGrown, RowMeaningLasts, node_in_tables};
ghost use Rattle.sudoers_line_reader.specs.internal.Answer.{RowReadsAsOutcome};

use crate::alias_lines::read_alias_line;
use crate::cursor::{HaltCause, ReadResult, TokenCursor};
use crate::defaults::read_defaults_line;
use crate::includes::read_include_line;
use crate::specs_of_users::read_user_specification;
use std::alloc::Global;
use sudoers_line_rows::{NodeRow, Tables};

/// Finds that no token is left behind what was read.
fn expect_line_end(
    cursor: &mut TokenCursor<'_>,
    tables: &Tables,
    row: NodeRow,
) -> ReadResult<NodeRow>
    requires { RowMeaningLasts node_in_tables tables.now row }
    ensures { RowReadsAsOutcome (end_of_line_reader (node_in_tables tables.now row) cursor.old) node_in_tables tables.now result cursor.new }
{
    match cursor.peek() {
        None => Ok(row),
        Some(_) => Err(HaltCause::Fault),
    }
}

/// Finds that no token is left behind what was read, but for a comment.
#[tactic(auto, unfolding(crate::specs::Descent::optional_comment_end_reader))]
fn expect_line_end_or_comment(
    cursor: &mut TokenCursor<'_>,
    tables: &Tables,
    row: NodeRow,
) -> ReadResult<NodeRow>
    requires { RowMeaningLasts node_in_tables tables.now row }
    ensures { RowReadsAsOutcome (optional_comment_end_reader (node_in_tables tables.now row) cursor.old) node_in_tables tables.now result cursor.new }
{
    if cursor.is_at_comment() {
        cursor.pass_next_token();
    }
    expect_line_end(cursor, tables, row)
}

/// Reads the tokens of a line.
#[tactic(auto, unfolding(crate::specs::Descent::whole_line_reader))]
pub fn read_line_tokens(
    alloc: Global,
    cursor: &mut TokenCursor<'_>,
    tables: &mut Tables,
) -> ReadResult<NodeRow>
    ensures reads { RowReadsAsOutcome (whole_line_reader cursor.old) node_in_tables tables.new result cursor.new }
    ensures grown { TablesHaveGrown tables.old tables.new }
{
    if cursor.has_no_tokens_left() {
        return expect_line_end(cursor, tables, NodeRow::Blank);
    }
    if cursor.is_at_comment() {
        cursor.expect_comment()?;
        return expect_line_end(cursor, tables, NodeRow::Comment);
    }
    if cursor.is_at_alias_keyword() {
        let row = read_alias_line(alloc, cursor, tables)?;
        return expect_line_end_or_comment(cursor, tables, row);
    }
    if cursor.is_at_include_word() {
        let row = read_include_line(alloc, cursor, tables)?;
        return expect_line_end_or_comment(cursor, tables, row);
    }
    if cursor.is_at_defaults_word() {
        let row = read_defaults_line(alloc, cursor, tables)?;
        return expect_line_end_or_comment(cursor, tables, row);
    }
    let row = read_user_specification(alloc, cursor, tables)?;
    expect_line_end_or_comment(cursor, tables, row)
}
