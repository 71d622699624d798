//! Policies whose lines are written anew.

ghost use Rattle.std.specs.Prelude.{◌≡◌, true, IfOk, IfErr, IfSome};
ghost use Rattle.sudoers_line_rows.specs.Tables.{node_in_tables};
ghost use Rattle.sudoers_tree.specs.Line.{lines_of_rows};
ghost use Rattle.sudoers_cvt_rewrite.specs.Changed.{changes_of_view};
ghost use Rattle.sudoers_cvt_rewrite.specs.Count.{specs_and_defaults_member_count};
ghost use Rattle.sudoers_cvt_rewrite.specs.internal.Matcher.{IsValidFilterMatcher};
ghost use Rattle.sudoers_cvt_rewrite.specs.Rewrite.{node_filtered_if_any};
ghost use Rattle.sudoers_cvt_rewrite.specs.internal.Selected.{node_of_filtered_line, FilterListsLeadToNoCycle};
ghost use Rattle.sudoers_cvt_rewrite.specs.internal.Written.{IsTooManyMembersOrNoMemoryFault, line_node_expanded_if, textless_lines_with_nodes_mapped};

use crate::changing::RewriteChanges;
use crate::copied_tables::copy_tables_without_lists;
use crate::filtered_line_writing::write_filtered_line;
use crate::matching::{FilterContext, FilterMatcher};
use crate::member_tally::MemberTally;
use crate::selecting::{FilteredLine, select_filtered_node};
use std::alloc::{AllocError, Global};
use std::marker::Model;
use sudoers_cvt_rules::CvtFault;
use sudoers_line_rows::{ByteRange, NodeRow, RowsOfTable, Tables};
use sudoers_match_list::{AcyclicWalk, ExpansionSource};
use sudoers_tree::{ALL_NAME_BITS, LineRow};

/// Lines that are written anew. Contracts see the list of the lines with what they say; they have no text.
#[derive(Drop)]
pub struct RewrittenLines {
    tables: Tables,
    rows: Vec<LineRow>,
}

impl Model for RewrittenLines {
    ghost use Rattle.std.specs.Prelude.{List, map};
    ghost use Rattle.sudoers_tree.specs.Line.{Line, line_of_row};

    ghost Value = { List Line };

    ghost view = { λ new. map (line_of_row new.tables) new.rows.items };
}

impl RewrittenLines {
    /// Returns the lines, as rows.
    pub fn as_rows(&self) -> RowsOfTable<'_, LineRow>
        ensures { lines_of_rows result ≡ self.now }
    {
        RowsOfTable {
            tables: &self.tables,
            rows: self.rows.as_slice(),
        }
    }
}

/// Returns what is left of a line that says `row`: all of it if there is no filter.
fn select_line_by_optional_filter<'a>(
    alloc: Global,
    policy: &AcyclicWalk<'a>,
    changes: &RewriteChanges<'_>,
    matcher: &mut FilterMatcher<'a>,
    base: &Tables,
    row: &NodeRow,
) -> Result<FilteredLine, AllocError>
    requires matcher { IfSome changes.now.filter (λ filter. IsValidFilterMatcher policy.now filter.now matcher.old) }
    requires straight { FilterListsLeadToNoCycle policy.now (node_in_tables base.now row.now) }
    ensures kept { IfOk result (λ _. IfSome changes.now.filter (λ filter. IsValidFilterMatcher policy.now filter.now matcher.new)) }
    ensures left { IfOk result (λ left. node_of_filtered_line base.now row.now left
        ≡ node_filtered_if_any policy.now (changes_of_view changes.now).filter changes.now.prune (node_in_tables base.now row.now)) }
{
    let Some(filter) = changes.filter else {
        return Ok(FilteredLine::Stays);
    };
    let prune = changes.prune;
    let asked = FilterContext {
        policy,
        filter,
        prune,
    };
    select_filtered_node(alloc, &asked, matcher, base, row)
}

/// Returns what [`write_rewritten_lines`] does. The matcher is that of the filter, and of no use after an error.
#[tactic(auto, using(crate::proofs::Extending::table_is_extension_of_itself, crate::proofs::Extending::table_likeness_is_transitive))]
fn write_lines_with_matcher<'a>(
    alloc: Global,
    source: &ExpansionSource<'a, '_>,
    changes: &RewriteChanges<'_>,
    matcher: &mut FilterMatcher<'a>,
) -> Result<(RewrittenLines, MemberTally), CvtFault>
    requires { IfSome changes.now.filter (λ filter. IsValidFilterMatcher source.now.policy.now filter.now matcher.old) }
    ensures lines { IfOk result (λ new. new.0 ≡ textless_lines_with_nodes_mapped (λ n. line_node_expanded_if source.now.expand source.now.policy.now
        (node_filtered_if_any source.now.policy.now (changes_of_view changes.now).filter changes.now.prune n)) source.now.policy.now) }
    ensures counted { IfOk result (λ new. source.now.expand ≡ true → new.1.count ≡ specs_and_defaults_member_count new.0) }
    ensures fault { IfErr result (IsTooManyMembersOrNoMemoryFault source.now.expand
        (specs_and_defaults_member_count (textless_lines_with_nodes_mapped (λ n. line_node_expanded_if source.now.expand source.now.policy.now
        (node_filtered_if_any source.now.policy.now (changes_of_view changes.now).filter changes.now.prune n)) source.now.policy.now))) }
{
    let policy = source.policy;
    // laws
    policy.is_acyclic();
    let base = source.lines.tables;
    let mut tables = copy_tables_without_lists(alloc, base)?;
    let mut tally = MemberTally {
        count: 0,
        inherited: 0,
    };
    let mut rows = Vec::new(alloc);
    for row in source.lines.rows {
        let choice = select_line_by_optional_filter(
            alloc, policy, changes, matcher, base, &row.node,
        )?;
        let node = write_filtered_line(alloc, source, &mut tables, &mut tally, &row.node, &choice)?;
        let text = ByteRange { from: 0, to: 0 };
        rows.push(LineRow {
            text,
            node,
            bits: ALL_NAME_BITS,
            lfs: 0,
        })?;
    }
    Ok((RewrittenLines { tables, rows }, tally))
}

/// Returns the lines of a policy, filtered and with their aliases replaced, and how many members they have if aliases are replaced.
pub fn write_rewritten_lines(
    alloc: Global,
    source: &ExpansionSource<'_, '_>,
    changes: &RewriteChanges<'_>,
) -> Result<(RewrittenLines, MemberTally), CvtFault>
    ensures lines { IfOk result (λ new. new.0 ≡ textless_lines_with_nodes_mapped (λ n. line_node_expanded_if source.now.expand source.now.policy.now
        (node_filtered_if_any source.now.policy.now (changes_of_view changes.now).filter changes.now.prune n)) source.now.policy.now) }
    ensures counted { IfOk result (λ new. source.now.expand ≡ true → new.1.count ≡ specs_and_defaults_member_count new.0) }
    ensures fault { IfErr result (IsTooManyMembersOrNoMemoryFault source.now.expand
        (specs_and_defaults_member_count (textless_lines_with_nodes_mapped (λ n. line_node_expanded_if source.now.expand source.now.policy.now
        (node_filtered_if_any source.now.policy.now (changes_of_view changes.now).filter changes.now.prune n)) source.now.policy.now))) }
{
    let mut matcher = FilterMatcher::new(alloc, source.policy, changes.filter)?;
    write_lines_with_matcher(alloc, source, changes, &mut matcher)
}
