//! Parameters of Defaults lines.

ghost use Rattle.std.specs.Prelude.{IfOk};
ghost use Rattle.sudoers_text.specs.Value.{value_of_word};
ghost use Rattle.sudoers_grammar.specs.Seen.{model_of_token_part};
ghost use Rattle.sudoers_grammar.specs.Node.{Param as ParamOf};
ghost use Rattle.sudoers_line_reader.specs.Reader.{reader_after_mark, separated_list_reader};
ghost use Rattle.sudoers_line_reader.specs.Descent.{flag_parameter, negatable_flag_reader, named_parameter_reader, parameter_reader, parameter_setting_reader};
ghost use Rattle.sudoers_line_rows.specs.Tables.{TablesHaveGrown, RowMeansForGood, parameter_in_tables, parameters_of_range_in_tables, text_in_tables};
ghost use Rattle.sudoers_line_reader.specs.internal.Answer.{RowReadsAsOutcome};

use crate::cursor::{ReadResult, TokenCursor};
use crate::members::read_negation_signs;
use crate::row_reader::{RowReader, read_separated_rows};
use std::alloc::{AllocError, Global};
use sudoers_grammar::TokenWithText;
use sudoers_line_rows::{ByteRange, ParamRow, RowRange, SettingRow, Tables, store_text};

/// Keeps the value that the token writes.
fn store_parameter_value(
    alloc: Global,
    tables: &mut Tables,
    part: &TokenWithText<'_>,
) -> Result<ByteRange, AllocError>
    ensures keeps { IfOk result (λ text. RowMeansForGood text_in_tables tables.new text (value_of_word part.now.text.now)) }
    ensures grown { TablesHaveGrown tables.old tables.new }
{
    let value = sudoers_text::value(alloc, part.text)?;
    store_text(tables, value.as_slice())
}

/// Keeps a flag of this name.
fn store_flag_parameter(
    tables: &mut Tables,
    negated: bool,
    part: &TokenWithText<'_>,
) -> Result<ParamRow, AllocError>
    ensures keeps { IfOk result (λ row. RowMeansForGood parameter_in_tables tables.new row (flag_parameter negated (model_of_token_part part.now))) }
    ensures grown { TablesHaveGrown tables.old tables.new }
{
    let name = store_text(tables, part.text)?;
    Ok(ParamRow {
        negated,
        name,
        setting: None,
    })
}

/// Reads the operator and the value behind this name.
#[tactic(auto, unfolding(crate::specs::Descent::parameter_setting_reader))]
fn read_parameter_setting(
    alloc: Global,
    cursor: &mut TokenCursor<'_>,
    tables: &mut Tables,
    part: &TokenWithText<'_>,
) -> ReadResult<ParamRow>
    ensures reads { RowReadsAsOutcome (parameter_setting_reader (model_of_token_part part.now) cursor.old) parameter_in_tables tables.new result cursor.new }
    ensures grown { TablesHaveGrown tables.old tables.new }
{
    let operator = cursor.expect_operator()?;
    let written = cursor.expect_parameter_value()?;
    let name = store_text(tables, part.text)?;
    let value = store_parameter_value(alloc, tables, &written)?;
    Ok(ParamRow {
        negated: false,
        name,
        setting: Some(SettingRow { operator, value }),
    })
}

/// Reads signs and the name of a flag.
#[tactic(auto, unfolding(crate::specs::Descent::negatable_flag_reader))]
fn read_negated_flag(cursor: &mut TokenCursor<'_>, tables: &mut Tables) -> ReadResult<ParamRow>
    ensures reads { RowReadsAsOutcome (negatable_flag_reader cursor.old) parameter_in_tables tables.new result cursor.new }
    ensures grown { TablesHaveGrown tables.old tables.new }
{
    let negated = read_negation_signs(cursor);
    let part = cursor.expect_parameter_name()?;
    let row = store_flag_parameter(tables, negated, &part)?;
    Ok(row)
}

/// Reads a name, and the operator and the value behind it, if any.
#[tactic(auto, unfolding(crate::specs::Descent::named_parameter_reader))]
fn read_named_parameter(
    alloc: Global,
    cursor: &mut TokenCursor<'_>,
    tables: &mut Tables,
) -> ReadResult<ParamRow>
    ensures reads { RowReadsAsOutcome (named_parameter_reader cursor.old) parameter_in_tables tables.new result cursor.new }
    ensures grown { TablesHaveGrown tables.old tables.new }
{
    let part = cursor.expect_parameter_name()?;
    if cursor.is_at_operator() {
        read_parameter_setting(alloc, cursor, tables, &part)
    } else {
        let row = store_flag_parameter(tables, false, &part)?;
        Ok(row)
    }
}

/// Reads parameters.
#[derive(Clone, Copy)]
pub struct ParamReader;

impl RowReader for ParamReader {
    type Row = ParamRow;

    ghost Said = { ParamOf };

    ghost said = { parameter_in_tables };

    ghost rule = { λ _. parameter_reader };

    #[tactic(auto, unfolding(crate::specs::Descent::parameter_reader))]
    fn read(
        self,
        alloc: Global,
        cursor: &mut TokenCursor<'_>,
        tables: &mut Tables,
    ) -> ReadResult<ParamRow> {
        if cursor.is_at_mark(b'!') {
            read_negated_flag(cursor, tables)
        } else {
            read_named_parameter(alloc, cursor, tables)
        }
    }
}

/// Reads a list of parameters.
#[tactic(auto, using(crate::proofs::Loops::next_parameter_reader_consumes_tokens))]
pub fn read_parameter_list(
    alloc: Global,
    cursor: &mut TokenCursor<'_>,
    tables: &mut Tables,
) -> ReadResult<RowRange>
    ensures reads { RowReadsAsOutcome (separated_list_reader 44 parameter_reader cursor.old) parameters_of_range_in_tables tables.new result cursor.new }
    ensures grown { TablesHaveGrown tables.old tables.new }
{
    read_separated_rows(ParamReader, b',', alloc, cursor, tables)
}
