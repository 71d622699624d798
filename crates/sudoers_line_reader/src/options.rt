//! Options and tags of commands.

ghost use Rattle.std.specs.Prelude.{ℕ, Bool, List, []};
ghost use Rattle.sudoers_grammar.specs.declared.node.OptionName.{OptionName as OptionNameOf};
ghost use Rattle.sudoers_grammar.specs.Piece.{option_of_token, tag_and_sign_of_token};
ghost use Rattle.sudoers_grammar.specs.Atom.{option_value_of_token};
ghost use Rattle.sudoers_grammar.specs.declared.node.Tag.{Tag as TagOf};
ghost use Rattle.sudoers_line_reader.specs.Reader.{repetition_reader, one_token_reader, snoc};
ghost use Rattle.sudoers_line_reader.specs.Descent.{option_reader, has_meaning_by, tag_reader};
ghost use Rattle.sudoers_line_rows.specs.Tables.{TablesHaveGrown, option_in_tables, options_of_range_in_tables, tag_in_tables, tags_of_range_in_tables, text_in_tables};
ghost use Rattle.sudoers_line_reader.specs.internal.Answer.{RowReadsAsOutcome};

use crate::cursor::{HaltCause, ReadResult, TokenCursor};
use crate::row_reader::{LookaheadRowReader, RowReader, read_repeated_rows};
use std::alloc::Global;
use sudoers_grammar::{OptionName, parse_option_value};
use sudoers_line_rows::{ByteRange, OptionRow, RowRange, Tables, TagRow, store_text};

/// Reads the value of this option.
fn read_option_value(
    alloc: Global,
    cursor: &mut TokenCursor<'_>,
    tables: &mut Tables,
    name: OptionName,
) -> ReadResult<ByteRange>
    ensures reads { RowReadsAsOutcome (one_token_reader (option_value_of_token name) cursor.old) text_in_tables tables.new result cursor.new }
    ensures grown { TablesHaveGrown tables.old tables.new }
{
    let Some(part) = cursor.peek() else {
        return Err(HaltCause::Fault);
    };
    let found = parse_option_value(alloc, name, &part)?;
    let value = cursor.pass_token_with_meaning_or_halt(found)?;
    Ok(store_text(tables, value.as_slice())?)
}

/// Reads options.
#[derive(Clone, Copy)]
pub struct OptionReader;

impl RowReader for OptionReader {
    type Row = OptionRow;

    ghost Said = { OptionNameOf × List ℕ };

    ghost said = { option_in_tables };

    ghost rule = { λ _. option_reader };

    #[tactic(auto, unfolding(crate::specs::Descent::option_reader))]
    fn read(
        self,
        alloc: Global,
        cursor: &mut TokenCursor<'_>,
        tables: &mut Tables,
    ) -> ReadResult<OptionRow> {
        let name = cursor.expect_option_name()?;
        cursor.expect_mark(b'=')?;
        let value = read_option_value(alloc, cursor, tables, name)?;
        Ok(OptionRow { name, value })
    }
}

impl LookaheadRowReader for OptionReader {
    ghost begins = { λ _. has_meaning_by option_of_token };

    fn comes(self, cursor: &TokenCursor<'_>) -> bool {
        cursor.is_at_option_name()
    }
}

/// Reads tags.
#[derive(Clone, Copy)]
pub struct TagReader;

impl RowReader for TagReader {
    type Row = TagRow;

    ghost Said = { TagOf × Bool };

    ghost said = { tag_in_tables };

    ghost rule = { λ _. tag_reader };

    #[tactic(auto, unfolding(crate::specs::Descent::tag_reader))]
    fn read(
        self,
        _alloc: Global,
        cursor: &mut TokenCursor<'_>,
        tables: &mut Tables,
    ) -> ReadResult<TagRow> {
        let (tag, on) = cursor.expect_tag()?;
        cursor.expect_mark(b':')?;
        Ok(TagRow { tag, on })
    }
}

impl LookaheadRowReader for TagReader {
    ghost begins = { λ _. has_meaning_by tag_and_sign_of_token };

    fn comes(self, cursor: &TokenCursor<'_>) -> bool {
        cursor.is_at_tag()
    }
}

/// Reads the options of a command.
#[tactic(auto, using(crate::proofs::SpecLaws::option_reader_consumes_tokens))]
pub fn read_command_options(
    alloc: Global,
    cursor: &mut TokenCursor<'_>,
    tables: &mut Tables,
) -> ReadResult<RowRange>
    ensures reads { RowReadsAsOutcome (repetition_reader snoc (has_meaning_by option_of_token) option_reader [] cursor.old) options_of_range_in_tables tables.new result cursor.new }
    ensures grown { TablesHaveGrown tables.old tables.new }
{
    read_repeated_rows(OptionReader, alloc, cursor, tables)
}

/// Reads the tags of a command.
#[tactic(auto, using(crate::proofs::SpecLaws::tag_reader_consumes_tokens))]
pub fn read_command_tags(
    alloc: Global,
    cursor: &mut TokenCursor<'_>,
    tables: &mut Tables,
) -> ReadResult<RowRange>
    ensures reads { RowReadsAsOutcome (repetition_reader snoc (has_meaning_by tag_and_sign_of_token) tag_reader [] cursor.old) tags_of_range_in_tables tables.new result cursor.new }
    ensures grown { TablesHaveGrown tables.old tables.new }
{
    read_repeated_rows(TagReader, alloc, cursor, tables)
}
