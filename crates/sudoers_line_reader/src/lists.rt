//! Lists of commands, and lists of an alias or a scope.

ghost use Rattle.sudoers_line_reader.specs.Descent.{alias_member_list_reader, scope_member_list_reader};
ghost use Rattle.sudoers_line_rows.specs.Tables.{TablesHaveGrown, members_of_range_in_tables};
ghost use Rattle.sudoers_line_reader.specs.internal.Answer.{RowReadsAsOutcome};

use crate::commands::{read_command_list, read_scope_command_list};
use crate::cursor::{ReadResult, TokenCursor};
use crate::members::read_member_list;
use std::alloc::Global;
use sudoers_grammar::Kind;
use sudoers_line_rows::{RowRange, Tables};

/// Reads the list of an alias of this kind.
#[tactic(auto, unfolding(crate::specs::Descent::alias_member_list_reader, crate::specs::Descent::member_list_reader))]
pub fn read_alias_member_list(
    alloc: Global,
    cursor: &mut TokenCursor<'_>,
    tables: &mut Tables,
    kind: Kind,
) -> ReadResult<RowRange>
    ensures reads { RowReadsAsOutcome (alias_member_list_reader kind cursor.old) members_of_range_in_tables tables.new result cursor.new }
    ensures grown { TablesHaveGrown tables.old tables.new }
{
    match kind {
        Kind::User | Kind::Runas | Kind::Host => read_member_list(alloc, cursor, tables, kind),
        Kind::Cmnd => read_command_list(alloc, cursor, tables),
    }
}

/// Reads the list of a scope of this kind.
#[tactic(auto, unfolding(crate::specs::Descent::scope_member_list_reader, crate::specs::Descent::member_list_reader))]
pub fn read_scope_member_list(
    alloc: Global,
    cursor: &mut TokenCursor<'_>,
    tables: &mut Tables,
    kind: Kind,
) -> ReadResult<RowRange>
    ensures reads { RowReadsAsOutcome (scope_member_list_reader kind cursor.old) members_of_range_in_tables tables.new result cursor.new }
    ensures grown { TablesHaveGrown tables.old tables.new }
{
    match kind {
        Kind::User | Kind::Runas | Kind::Host => read_member_list(alloc, cursor, tables, kind),
        Kind::Cmnd => read_scope_command_list(alloc, cursor, tables),
    }
}
