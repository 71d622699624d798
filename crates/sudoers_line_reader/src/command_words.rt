//! The word of a command.

ghost use Rattle.std.specs.Prelude.{◌≡◌, List};
ghost use Rattle.sudoers_grammar.specs.Node.{Digest as DigestOf};
ghost use Rattle.sudoers_grammar.specs.Atom.{is_command_allowing_digests};
ghost use Rattle.sudoers_grammar.specs.Arguments.{has_digests_only_if_allowed};
ghost use Rattle.sudoers_line_rows.specs.declared.rows.Tables.{Tables as TablesOf};
ghost use Rattle.sudoers_line_reader.specs.Reader.{one_token_reader};
ghost use Rattle.sudoers_line_reader.specs.Descent.{command_start_of_token};
ghost use Rattle.sudoers_line_rows.specs.Tables.{TablesHaveGrown, RowMeaningLasts, atom_in_tables, digests_of_range_in_tables};
ghost use Rattle.sudoers_line_reader.specs.internal.Answer.{RowReadsAsOutcome, ReportsDigestPresence, command_start_of_word_row};

use crate::cursor::{HaltCause, ReadResult, TokenCursor};
use std::alloc::Global;
use sudoers_grammar::{Kind, ends_with_byte};
use sudoers_line_rows::{
    AtomRow, MemberRow, RowRange, Tables, convert_offset_to_u32, store_atom_of_member_token,
};

/// A command by its word; whether the word leaves room for arguments.
#[derive(Clone, Copy)]
pub struct CommandStartRow {
    pub member: MemberRow,
    pub has_room: bool,
}

/// Returns whether digests may stand before the command.
fn is_row_allowing_digests(atom: AtomRow) -> bool
    ensures { (t : TablesOf) → result ≡ is_command_allowing_digests (atom_in_tables t atom) }
{
    matches!(atom, AtomRow::All | AtomRow::Path { .. })
}

/// Returns whether the command may stand behind the digests, if there are any.
fn may_follow_digests(has_digests: bool, atom: AtomRow) -> bool
    ensures { (t : TablesOf) (ds : List DigestOf) → ReportsDigestPresence has_digests ds → result ≡ has_digests_only_if_allowed ds (atom_in_tables t atom) }
{
    if has_digests {
        is_row_allowing_digests(atom)
    } else {
        true
    }
}

/// Reads the word of a command behind these digests, if there are any.
#[inline(always)]
pub fn read_command_word(
    alloc: Global,
    cursor: &mut TokenCursor<'_>,
    tables: &mut Tables,
    negated: bool,
    digests: RowRange,
    has_digests: bool,
) -> ReadResult<CommandStartRow>
    requires tells { ReportsDigestPresence has_digests (digests_of_range_in_tables tables.now digests) }
    requires lasts { RowMeaningLasts digests_of_range_in_tables tables.now digests }
    ensures reads { RowReadsAsOutcome (one_token_reader (command_start_of_token negated (digests_of_range_in_tables tables.old digests)) cursor.old) command_start_of_word_row tables.new result cursor.new }
    ensures grown { TablesHaveGrown tables.old tables.new }
{
    let Some(part) = cursor.peek() else {
        return Err(HaltCause::Fault);
    };
    let stop = convert_offset_to_u32(part.stop)?;
    let end = cursor.find_end_in_bytes(part.stop);
    let Some(atom) = store_atom_of_member_token(alloc, tables, Kind::Cmnd, &part, end)? else {
        return Err(HaltCause::Fault);
    };
    if !may_follow_digests(has_digests, atom) {
        return Err(HaltCause::Fault);
    }
    cursor.pass_next_token();
    Ok(CommandStartRow {
        member: MemberRow {
            start: 0,
            stop,
            negated,
            digests,
            atom,
        },
        has_room: !ends_with_byte(b'/', part.text),
    })
}
