//! Lines of Defaults.

ghost use Rattle.std.specs.Prelude.{◌≡◌, None};
ghost use Rattle.sudoers_grammar.specs.Piece.{scope_kind_of_sign_token_after};
ghost use Rattle.sudoers_line_reader.specs.Reader.{one_token_reader, optional_reader};
ghost use Rattle.sudoers_line_reader.specs.Descent.{defaults_node_reader, defaults_parameters_node_reader, defaults_scope_reader, scoped_defaults_reader};
ghost use Rattle.sudoers_line_reader.specs.internal.Cursor.{value_itself, ReadsAsOutcome};
ghost use Rattle.sudoers_line_rows.specs.Tables.{TablesHaveGrown, RowMeaningLasts, node_in_tables, scope_in_tables};
ghost use Rattle.sudoers_line_reader.specs.internal.Answer.{RowReadsAsOutcome};

use crate::cursor::{ReadResult, TokenCursor};
use crate::defaults_params::read_parameter_list;
use crate::lists::read_scope_member_list;
use std::alloc::Global;
use sudoers_line_rows::{NodeRow, ScopeRow, Tables};

/// Reads a scope, directly behind the word that ends at this byte.
#[tactic(auto, unfolding(crate::specs::Descent::defaults_scope_reader))]
fn read_defaults_scope(
    alloc: Global,
    cursor: &mut TokenCursor<'_>,
    tables: &mut Tables,
    stop: usize,
) -> ReadResult<ScopeRow>
    ensures reads { RowReadsAsOutcome (defaults_scope_reader stop cursor.old) scope_in_tables tables.new result cursor.new }
    ensures grown { TablesHaveGrown tables.old tables.new }
{
    let kind = cursor.expect_scope_sign(stop)?;
    let members = read_scope_member_list(alloc, cursor, tables, kind)?;
    Ok(ScopeRow { kind, members })
}

/// Reads a scope and parameters.
#[tactic(auto, unfolding(crate::specs::Descent::scoped_defaults_reader, crate::specs::Descent::defaults_parameters_node_reader))]
fn read_scoped_parameters(
    alloc: Global,
    cursor: &mut TokenCursor<'_>,
    tables: &mut Tables,
    stop: usize,
) -> ReadResult<NodeRow>
    ensures reads { RowReadsAsOutcome (scoped_defaults_reader stop cursor.old) node_in_tables tables.new result cursor.new }
    ensures grown { TablesHaveGrown tables.old tables.new }
{
    let scope = read_defaults_scope(alloc, cursor, tables, stop)?;
    let params = read_parameter_list(alloc, cursor, tables)?;
    Ok(NodeRow::Defaults {
        scope: Some(scope),
        params,
    })
}

/// Reads parameters that have no scope.
#[tactic(auto, unfolding(crate::specs::Descent::defaults_parameters_node_reader))]
fn read_unscoped_parameters(
    alloc: Global,
    cursor: &mut TokenCursor<'_>,
    tables: &mut Tables,
) -> ReadResult<NodeRow>
    ensures reads { RowReadsAsOutcome (defaults_parameters_node_reader None cursor.old) node_in_tables tables.new result cursor.new }
    ensures grown { TablesHaveGrown tables.old tables.new }
{
    let params = read_parameter_list(alloc, cursor, tables)?;
    Ok(NodeRow::Defaults {
        scope: None,
        params,
    })
}

/// Reads a line of Defaults.
#[tactic(auto, unfolding(crate::specs::Descent::defaults_node_reader))]
pub fn read_defaults_line(
    alloc: Global,
    cursor: &mut TokenCursor<'_>,
    tables: &mut Tables,
) -> ReadResult<NodeRow>
    ensures reads { RowReadsAsOutcome (defaults_node_reader cursor.old) node_in_tables tables.new result cursor.new }
    ensures grown { TablesHaveGrown tables.old tables.new }
{
    let word = cursor.expect_defaults_word()?;
    if cursor.is_at_scope_sign(word.stop) {
        read_scoped_parameters(alloc, cursor, tables, word.stop)
    } else {
        read_unscoped_parameters(alloc, cursor, tables)
    }
}
