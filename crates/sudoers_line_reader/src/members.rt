//! Signs, and lists of members.

ghost use Rattle.sudoers_grammar.specs.Node.{Member as MemberOf};
ghost use Rattle.sudoers_line_reader.specs.Reader.{one_token_reader};
ghost use Rattle.sudoers_line_reader.specs.Descent.{negation_reader, member_of_single_token, member_reader, member_list_reader};
ghost use Rattle.sudoers_line_reader.specs.internal.Cursor.{ReadsAsOutcome, SignsReadAs};
ghost use Rattle.sudoers_line_rows.specs.Tables.{TablesHaveGrown, member_in_tables, members_of_range_in_tables};
ghost use Rattle.sudoers_line_reader.specs.internal.Answer.{RowReadsAsOutcome};

use crate::cursor::{HaltCause, ReadResult, TokenCursor};
use crate::row_reader::{RowReader, read_separated_rows};
use std::alloc::Global;
use sudoers_grammar::Kind;
use sudoers_line_rows::{
    MemberRow, NONE, RowRange, Tables, convert_offset_to_u32, store_atom_of_member_token,
};

/// Passes signs, and returns whether their number is odd.
pub fn read_negation_signs(cursor: &mut TokenCursor<'_>) -> bool
    ensures { SignsReadAs (negation_reader cursor.old) result cursor.new }
{
    let mut negated = false;
    while cursor.is_at_mark(b'!') {
        cursor.pass_next_token();
        negated = !negated;
    }
    negated
}

/// Reads one token as a member of a list of this kind, without its place and its signs.
#[tactic(auto, unfolding(crate::specs::Reader::one_token_reader))]
fn read_single_token_member(
    alloc: Global,
    cursor: &mut TokenCursor<'_>,
    tables: &mut Tables,
    kind: Kind,
    negated: bool,
) -> ReadResult<MemberRow>
    ensures reads { RowReadsAsOutcome (one_token_reader (member_of_single_token kind negated) cursor.old) member_in_tables tables.new result cursor.new }
    ensures grown { TablesHaveGrown tables.old tables.new }
{
    let Some(part) = cursor.peek() else {
        return Err(HaltCause::Fault);
    };
    let stop = convert_offset_to_u32(part.stop)?;
    let end = cursor.find_end_in_bytes(part.stop);
    let Some(atom) = store_atom_of_member_token(alloc, tables, kind, &part, end)? else {
        return Err(HaltCause::Fault);
    };
    cursor.pass_next_token();
    Ok(MemberRow {
        start: 0,
        stop,
        negated,
        digests: NONE,
        atom,
    })
}

/// Reads members of a list of a kind.
#[derive(Clone, Copy)]
pub struct MemberReader {
    kind: Kind,
}

impl RowReader for MemberReader {
    type Row = MemberRow;

    ghost Said = { MemberOf };

    ghost said = { member_in_tables };

    ghost rule = { λ it. member_reader it.kind };

    #[tactic(auto, unfolding(crate::specs::Descent::member_reader))]
    fn read(
        self,
        alloc: Global,
        cursor: &mut TokenCursor<'_>,
        tables: &mut Tables,
    ) -> ReadResult<MemberRow> {
        let start = convert_offset_to_u32(cursor.start_of_next_token_or_zero())?;
        let negated = read_negation_signs(cursor);
        let row = read_single_token_member(alloc, cursor, tables, self.kind, negated)?;
        Ok(MemberRow { start, ..row })
    }
}

/// Reads a list of members of this kind.
#[tactic(auto, unfolding(crate::specs::Descent::member_list_reader))]
pub fn read_member_list(
    alloc: Global,
    cursor: &mut TokenCursor<'_>,
    tables: &mut Tables,
    kind: Kind,
) -> ReadResult<RowRange>
    ensures reads { RowReadsAsOutcome (member_list_reader kind cursor.old) members_of_range_in_tables tables.new result cursor.new }
    ensures grown { TablesHaveGrown tables.old tables.new }
{
    read_separated_rows(MemberReader { kind }, b',', alloc, cursor, tables)
}
