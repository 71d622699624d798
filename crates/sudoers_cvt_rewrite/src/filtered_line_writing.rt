//! What is left of lines, written with its aliases replaced or not.

ghost use Rattle.std.specs.Prelude.{◌≡◌, ◌+◌, true, IfOk, IfErr, OnOk};
ghost use Rattle.sudoers_line_rows.specs.Tables.{node_in_tables};
ghost use Rattle.sudoers_cvt_rewrite.specs.Count.{spec_or_defaults_member_count};
ghost use Rattle.sudoers_cvt_rewrite.specs.internal.Extended.{AreTablesAlikeButLists, IsTableExtension, RowKeepsMeaning};
ghost use Rattle.sudoers_cvt_rewrite.specs.internal.Selected.{node_of_filtered_line};
ghost use Rattle.sudoers_cvt_rewrite.specs.internal.Written.{IsTooManyMembersOrNoMemoryFault, line_node_expanded_if};

use crate::member_tally::MemberTally;
use crate::node_writing::write_node_with_aliases_expanded_if_wanted;
use crate::selecting::FilteredLine;
use crate::user_spec_writing::write_spec_with_aliases_expanded_if_wanted;
use std::alloc::Global;
use sudoers_cvt_rules::CvtFault;
use sudoers_line_rows::{NodeRow, Tables};
use sudoers_match_list::ExpansionSource;

/// Writes what is left of a line that says `row`, its aliases replaced if that is wanted, and counts its members.
#[tactic(auto, using(crate::proofs::Extending::table_is_extension_of_itself))]
pub fn write_filtered_line(
    alloc: Global,
    source: &ExpansionSource<'_, '_>,
    tables: &mut Tables,
    tally: &mut MemberTally,
    row: &NodeRow,
    choice: &FilteredLine,
) -> Result<NodeRow, CvtFault>
    requires { AreTablesAlikeButLists source.now.lines.tables.now tables.old }
    ensures stays { IfOk result (λ new. RowKeepsMeaning node_in_tables tables.new new
        (line_node_expanded_if source.now.expand source.now.policy.now (node_of_filtered_line source.now.lines.tables.now row.now choice.now))) }
    ensures extended { OnOk result (IsTableExtension tables.old tables.new) }
    ensures counted { OnOk result (source.now.expand ≡ true → tally.new.count ≡ tally.old.count
        + spec_or_defaults_member_count (line_node_expanded_if source.now.expand source.now.policy.now (node_of_filtered_line source.now.lines.tables.now row.now choice.now))) }
    ensures fault { IfErr result (IsTooManyMembersOrNoMemoryFault source.now.expand (tally.old.count
        + spec_or_defaults_member_count (line_node_expanded_if source.now.expand source.now.policy.now (node_of_filtered_line source.now.lines.tables.now row.now choice.now)))) }
{
    match choice {
        FilteredLine::Falls => Ok(NodeRow::Blank),
        FilteredLine::Stays => write_node_with_aliases_expanded_if_wanted(
            alloc, source, tables, tally, row,
        ),
        FilteredLine::Spec { users, groups } => {
            let groups = groups.as_slice();
            write_spec_with_aliases_expanded_if_wanted(
                alloc,
                source,
                tables,
                tally,
                users.as_slice(),
                groups,
            )
        }
    }
}
