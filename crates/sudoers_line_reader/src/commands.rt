//! Commands.

ghost use Rattle.std.specs.Prelude.{◌≡◌, Some};
ghost use Rattle.sudoers_grammar.specs.declared.node.Args.TheVariants.{Any};
ghost use Rattle.sudoers_grammar.specs.declared.command_arguments.ArglessCommand.{ArglessCommand as ProgramOf};
ghost use Rattle.sudoers_grammar.specs.Arguments.{args_with_one_more, argless_command_of_atom, atom_of_command_and_args};
ghost use Rattle.sudoers_line_rows.specs.declared.rows.Tables.{Tables as TablesOf};
ghost use Rattle.sudoers_grammar.specs.Node.{Member as MemberOf};
ghost use Rattle.sudoers_line_reader.specs.Reader.{repetition_reader, separated_list_reader, passing_token_reader};
ghost use Rattle.sudoers_grammar.specs.Piece.{is_some};
ghost use Rattle.sudoers_line_reader.specs.Descent.{args_and_stop_with_one_more, is_argument_token, member_with_arguments_reader, command_after_digests_reader, member_with_optional_arguments_reader, command_reader, digestless_scope_command_reader};
ghost use Rattle.sudoers_line_reader.specs.internal.Cursor.{value_itself, ReadsAsOutcome};
ghost use Rattle.sudoers_line_rows.specs.Tables.{TablesHaveGrown, RowMeaningLasts, args_in_tables, atom_in_tables, digests_of_range_in_tables, member_in_tables, members_of_range_in_tables};
ghost use Rattle.sudoers_line_reader.specs.internal.Answer.{RowReadsAsOutcome, ReportsDigestPresence, command_start_of_word_row};

use crate::command_words::{CommandStartRow, read_command_word};
use crate::cursor::{ReadResult, TokenCursor};
use crate::digests::read_optional_digests;
use crate::members::read_negation_signs;
use crate::row_reader::{RowReader, read_separated_rows};
use std::alloc::Global;
use sudoers_grammar::{Args, TokenWithText, append_argument_to_args, read_first_argument};
use sudoers_line_rows::{
    ArgsRow, AtomRow, MemberRow, NONE, RowRange, Tables, convert_offset_to_u32, store_command_args,
};

/// Reads the arguments behind the first, and returns all of them, and where the last ends.
#[inline(always)]
fn add_further_arguments_to_first<'a>(
    alloc: Global,
    cursor: &mut TokenCursor<'a>,
    first: &TokenWithText<'a>,
) -> ReadResult<(Args<'a>, usize)>
    ensures { ReadsAsOutcome (repetition_reader args_and_stop_with_one_more is_argument_token (passing_token_reader is_argument_token) (args_with_one_more Any first.now.text.now, first.now.stop) cursor.old) value_itself result cursor.new }
{
    let mut args = read_first_argument(alloc, first.text)?;
    let mut stop = first.stop;
    while cursor.is_at_argument() {
        let part = cursor.expect_argument()?;
        args = append_argument_to_args(alloc, args, part.text)?;
        stop = part.stop;
    }
    Ok((args, stop))
}

/// Returns the command with these arguments, if it can have any.
fn replace_command_args(atom: AtomRow, args: ArgsRow) -> AtomRow
    ensures { (t : TablesOf) (p : ProgramOf) → argless_command_of_atom (atom_in_tables t atom) ≡ Some p → atom_in_tables t result ≡ atom_of_command_and_args p (args_in_tables t args) }
{
    match atom {
        AtomRow::Path { path, .. } => AtomRow::Path { path, args },
        AtomRow::Sudoedit { .. } => AtomRow::Sudoedit { args },
        other => other,
    }
}

/// Reads the arguments of this command, which can have some.
#[tactic(auto, unfolding(crate::specs::Descent::member_with_arguments_reader))]
#[inline(never)]
fn read_arguments_into_member(
    alloc: Global,
    cursor: &mut TokenCursor<'_>,
    tables: &mut Tables,
    member: MemberRow,
) -> ReadResult<MemberRow>
    requires { RowMeaningLasts member_in_tables tables.now member }
    ensures reads { (p : ProgramOf) → argless_command_of_atom (atom_in_tables tables.old member.atom) ≡ Some p
        → RowReadsAsOutcome (member_with_arguments_reader p (member_in_tables tables.old member) cursor.old) member_in_tables tables.new result cursor.new }
    ensures grown { TablesHaveGrown tables.old tables.new }
{
    let first = cursor.expect_argument_that_is_no_regex()?;
    let (args, stop) = add_further_arguments_to_first(alloc, cursor, &first)?;
    let end = cursor.find_end_in_bytes(stop);
    let args = store_command_args(tables, end, &args)?;
    let stop = convert_offset_to_u32(stop)?;
    Ok(MemberRow {
        stop,
        atom: replace_command_args(member.atom, args),
        ..member
    })
}

/// Returns whether the command can have arguments.
fn may_have_arguments(word: CommandStartRow) -> bool
    ensures { (t : TablesOf) → result ≡ is_some (command_start_of_word_row t word).0 }
{
    word.has_room
        && matches!(
            word.member.atom,
            AtomRow::Path { .. } | AtomRow::Sudoedit { .. }
        )
}

/// Reads the arguments behind the word of a command, if there are any.
#[inline(always)]
fn read_optional_arguments_into_member(
    alloc: Global,
    cursor: &mut TokenCursor<'_>,
    tables: &mut Tables,
    word: CommandStartRow,
) -> ReadResult<MemberRow>
    requires { RowMeaningLasts command_start_of_word_row tables.now word }
    ensures reads { RowReadsAsOutcome (member_with_optional_arguments_reader (command_start_of_word_row tables.old word) cursor.old) member_in_tables tables.new result cursor.new }
    ensures grown { TablesHaveGrown tables.old tables.new }
{
    if !may_have_arguments(word) {
        return Ok(word.member);
    }
    if !cursor.is_at_argument() {
        return Ok(word.member);
    }
    read_arguments_into_member(alloc, cursor, tables, word.member)
}

/// Reads a command behind these digests, without its place.
#[tactic(auto, unfolding(crate::specs::Descent::command_after_digests_reader))]
#[inline(always)]
fn read_command_after_digests(
    alloc: Global,
    cursor: &mut TokenCursor<'_>,
    tables: &mut Tables,
    digests: RowRange,
    has_digests: bool,
) -> ReadResult<MemberRow>
    requires tells { ReportsDigestPresence has_digests (digests_of_range_in_tables tables.now digests) }
    requires lasts { RowMeaningLasts digests_of_range_in_tables tables.now digests }
    ensures reads { RowReadsAsOutcome (command_after_digests_reader (digests_of_range_in_tables tables.old digests) cursor.old) member_in_tables tables.new result cursor.new }
    ensures grown { TablesHaveGrown tables.old tables.new }
{
    let negated = read_negation_signs(cursor);
    let word = read_command_word(alloc, cursor, tables, negated, digests, has_digests)?;
    read_optional_arguments_into_member(alloc, cursor, tables, word)
}

/// Reads commands.
#[derive(Clone, Copy)]
pub struct CommandReader;

impl RowReader for CommandReader {
    type Row = MemberRow;

    ghost Said = { MemberOf };

    ghost said = { member_in_tables };

    ghost rule = { λ _. command_reader };

    #[tactic(auto, unfolding(crate::specs::Descent::command_reader))]
    #[inline(always)]
    fn read(
        self,
        alloc: Global,
        cursor: &mut TokenCursor<'_>,
        tables: &mut Tables,
    ) -> ReadResult<MemberRow> {
        let start = convert_offset_to_u32(cursor.start_of_next_token_or_zero())?;
        let has_digests = cursor.is_at_digest_kind();
        let digests = read_optional_digests(alloc, cursor, tables)?;
        let row = read_command_after_digests(alloc, cursor, tables, digests, has_digests)?;
        Ok(MemberRow { start, ..row })
    }
}

/// Reads commands of a scope, which have no digests.
#[derive(Clone, Copy)]
pub struct DigestlessScopeCommandReader;

impl RowReader for DigestlessScopeCommandReader {
    type Row = MemberRow;

    ghost Said = { MemberOf };

    ghost said = { member_in_tables };

    ghost rule = { λ _. digestless_scope_command_reader };

    #[tactic(auto, unfolding(crate::specs::Descent::digestless_scope_command_reader))]
    fn read(
        self,
        alloc: Global,
        cursor: &mut TokenCursor<'_>,
        tables: &mut Tables,
    ) -> ReadResult<MemberRow> {
        let start = convert_offset_to_u32(cursor.start_of_next_token_or_zero())?;
        let row = read_command_after_digests(alloc, cursor, tables, NONE, false)?;
        Ok(MemberRow { start, ..row })
    }
}

/// Reads a list of commands.
#[tactic(auto, using(crate::proofs::Loops::next_command_reader_consumes_tokens))]
pub fn read_command_list(
    alloc: Global,
    cursor: &mut TokenCursor<'_>,
    tables: &mut Tables,
) -> ReadResult<RowRange>
    ensures reads { RowReadsAsOutcome (separated_list_reader 44 command_reader cursor.old) members_of_range_in_tables tables.new result cursor.new }
    ensures grown { TablesHaveGrown tables.old tables.new }
{
    read_separated_rows(CommandReader, b',', alloc, cursor, tables)
}

/// Reads a list of commands of a scope.
#[tactic(auto, using(crate::proofs::Loops::next_scope_command_reader_consumes_tokens))]
pub fn read_scope_command_list(
    alloc: Global,
    cursor: &mut TokenCursor<'_>,
    tables: &mut Tables,
) -> ReadResult<RowRange>
    ensures reads { RowReadsAsOutcome (separated_list_reader 44 digestless_scope_command_reader cursor.old) members_of_range_in_tables tables.new result cursor.new }
    ensures grown { TablesHaveGrown tables.old tables.new }
{
    read_separated_rows(DigestlessScopeCommandReader, b',', alloc, cursor, tables)
}
