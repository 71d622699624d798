//! Lines of aliases.

ghost use Rattle.sudoers_grammar.specs.Node.{Def as DefOf};
ghost use Rattle.sudoers_line_reader.specs.Reader.{separated_list_reader};
ghost use Rattle.sudoers_line_reader.specs.Descent.{alias_node_reader, alias_definition_reader};
ghost use Rattle.sudoers_line_rows.specs.Tables.{TablesHaveGrown, alias_definition_in_tables, alias_definitions_of_range_in_tables, node_in_tables};
ghost use Rattle.sudoers_line_reader.specs.internal.Answer.{RowReadsAsOutcome};

use crate::cursor::{ReadResult, TokenCursor};
use crate::lists::read_alias_member_list;
use crate::row_reader::{RowReader, read_separated_rows};
use std::alloc::Global;
use sudoers_grammar::Kind;
use sudoers_line_rows::{
    AliasDefinitionRow, NodeRow, RowRange, Tables, convert_offset_to_u32, store_token_text,
};

/// Reads definitions of aliases of a kind.
#[derive(Clone, Copy)]
pub struct AliasDefinitionReader {
    kind: Kind,
}

impl RowReader for AliasDefinitionReader {
    type Row = AliasDefinitionRow;

    ghost Said = { DefOf };

    ghost said = { alias_definition_in_tables };

    ghost rule = { λ it. alias_definition_reader it.kind };

    #[tactic(auto, unfolding(crate::specs::Descent::alias_definition_reader))]
    fn read(
        self,
        alloc: Global,
        cursor: &mut TokenCursor<'_>,
        tables: &mut Tables,
    ) -> ReadResult<AliasDefinitionRow> {
        let part = cursor.expect_alias_name()?;
        cursor.expect_mark(b'=')?;
        let start = convert_offset_to_u32(part.start)?;
        let end = cursor.find_end_in_bytes(part.stop);
        let name = store_token_text(tables, end, part.text)?;
        let members = read_alias_member_list(alloc, cursor, tables, self.kind)?;
        Ok(AliasDefinitionRow {
            name,
            start,
            members,
        })
    }
}

/// Reads a list of definitions.
pub fn read_alias_definitions(
    alloc: Global,
    cursor: &mut TokenCursor<'_>,
    tables: &mut Tables,
    kind: Kind,
) -> ReadResult<RowRange>
    ensures reads { RowReadsAsOutcome (separated_list_reader 58 (alias_definition_reader kind) cursor.old) alias_definitions_of_range_in_tables tables.new result cursor.new }
    ensures grown { TablesHaveGrown tables.old tables.new }
{
    read_separated_rows(AliasDefinitionReader { kind }, b':', alloc, cursor, tables)
}

/// Reads a line of aliases.
#[tactic(auto, unfolding(crate::specs::Descent::alias_node_reader))]
pub fn read_alias_line(
    alloc: Global,
    cursor: &mut TokenCursor<'_>,
    tables: &mut Tables,
) -> ReadResult<NodeRow>
    ensures reads { RowReadsAsOutcome (alias_node_reader cursor.old) node_in_tables tables.new result cursor.new }
    ensures grown { TablesHaveGrown tables.old tables.new }
{
    let kind = cursor.expect_alias_keyword()?;
    let defs = read_alias_definitions(alloc, cursor, tables, kind)?;
    Ok(NodeRow::Alias { kind, defs })
}
