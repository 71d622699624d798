//! Includes of other files.

ghost use Rattle.sudoers_grammar.specs.Atom.{include_path_of_token};
ghost use Rattle.sudoers_line_reader.specs.Reader.{one_token_reader};
ghost use Rattle.sudoers_line_reader.specs.Descent.{include_node_reader};
ghost use Rattle.sudoers_line_rows.specs.Tables.{TablesHaveGrown, node_in_tables, text_in_tables};
ghost use Rattle.sudoers_line_reader.specs.internal.Answer.{RowReadsAsOutcome};

use crate::cursor::{HaltCause, ReadResult, TokenCursor};
use std::alloc::Global;
use sudoers_grammar::parse_include_path;
use sudoers_line_rows::{ByteRange, NodeRow, Tables, store_text};

/// Reads a path.
fn read_include_path_token(
    alloc: Global,
    cursor: &mut TokenCursor<'_>,
    tables: &mut Tables,
) -> ReadResult<ByteRange>
    ensures reads { RowReadsAsOutcome (one_token_reader include_path_of_token cursor.old) text_in_tables tables.new result cursor.new }
    ensures grown { TablesHaveGrown tables.old tables.new }
{
    let Some(part) = cursor.peek() else {
        return Err(HaltCause::Fault);
    };
    let found = parse_include_path(alloc, &part)?;
    let path = cursor.pass_token_with_meaning_or_halt(found)?;
    Ok(store_text(tables, path.as_slice())?)
}

/// Reads an include.
#[tactic(auto, unfolding(crate::specs::Descent::include_node_reader))]
pub fn read_include_line(
    alloc: Global,
    cursor: &mut TokenCursor<'_>,
    tables: &mut Tables,
) -> ReadResult<NodeRow>
    ensures reads { RowReadsAsOutcome (include_node_reader cursor.old) node_in_tables tables.new result cursor.new }
    ensures grown { TablesHaveGrown tables.old tables.new }
{
    let dir = cursor.expect_include_word()?;
    let path = read_include_path_token(alloc, cursor, tables)?;
    Ok(NodeRow::Include { dir, path })
}
