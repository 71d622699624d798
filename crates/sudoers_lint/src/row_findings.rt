//! What lint finds in the rows of user specifications.

ghost use Rattle.std.specs.Prelude.{◌≡◌, ◌∷◌, [], ◌++◌, List, IfErr, IfOk, None, Option, OnOk};
ghost use Rattle.sudoers_line_rows.specs.View.{member_of_view};
ghost use Rattle.sudoers_match_list.specs.Flat.{SignedAtom, signed_atom_of_member};
ghost use Rattle.sudoers_compare.specs.FlatRow.{signed_atoms_of_view};
ghost use Rattle.sudoers_compare.specs.FlatSpecs.{PlacedRow, placed_rows_of_flat_command, placed_rows_of_flat_host_group, placed_rows_of_flat_spec, placed_rows_of_flat_specs, row_at_place, row_of_flat_command};
ghost use Rattle.sudoers_review.specs.Faults.{IsMemoryOrSizeFault};
ghost use Rattle.sudoers_lint.specs.Findings.{findings_of_row, findings_of_rows};
ghost use Rattle.sudoers_lint.specs.Lint.{AllowedAll, is_behind_all};
ghost use Rattle.sudoers_lint.specs.Views.{AreFactsOfRow, allowed_all_of_view, findings_of_view};
ghost use Rattle.sudoers_lint.specs.Walked.{AreFactsOfUsers, AreRowsVisited, IsWalkOnLineForHosts};

use crate::broken_rules::{CommandFacts, allows_any_command, find_broken_rules};
use crate::finding_list::FindingList;
use crate::user_lists::{
    is_list_of_root, is_open_list, is_open_list_but_some, is_runas_spec_but_some, is_same_flat_list,
};
use std::alloc::Global;
use sudoers_compare::{FlatCommand, FlatHostGroup, FlatSpec};
use sudoers_cvt_spell::append_member;
use sudoers_line_rows::{Member, MemberRow, RowsOfTable, Tables};
use sudoers_review::CompareFault;
use sudoers_tree::Kind;

/// Where a row stands that allows any command: the number of its line on the walk, from 0, and its hosts.
#[derive(Clone, Copy)]
struct LastAllowedAll<'f> {
    line: usize,
    hosts: RowsOfTable<'f, MemberRow>,
}

/// Users, as they are the same for all rows of a user specification, and the number of its line.
#[derive(Clone, Copy)]
struct UserFacts {
    line: usize,
    is_for_root: bool,
    is_open: bool,
    is_but_some: bool,
}

/// Returns what holds of the users `users`. They stand on the line with the number `line`.
fn find_user_facts(line: usize, users: &RowsOfTable<'_, MemberRow>) -> UserFacts
    ensures line { result.line ≡ line }
    ensures facts { AreFactsOfUsers result (signed_atoms_of_view users.now) }
{
    UserFacts {
        line,
        is_for_root: is_list_of_root(users),
        is_open: is_open_list(users),
        is_but_some: is_open_list_but_some(users),
    }
}

/// Returns what holds of all rows of `command`, behind these users. Its lists are rows of `tables`.
fn find_command_facts(tables: &Tables, users: &UserFacts, command: &FlatCommand<'_>) -> CommandFacts
    ensures { (us hosts : List SignedAtom) (s : SignedAtom) → AreFactsOfUsers users.now us
        → AreFactsOfRow result (row_at_place users.now.line command.now.start (row_of_flat_command tables.now us hosts command.now s)) }
{
    CommandFacts {
        line: users.line,
        start: command.start as usize,
        is_for_root: users.is_for_root,
        is_open: users.is_open,
        is_but_some: users.is_but_some || is_runas_spec_but_some(tables, &command.runas),
        tags: command.tags,
    }
}

/// Returns whether the row `last`, if there is one, stands on the line with the number `line`, for these hosts.
fn is_behind_all(
    last: &Option<LastAllowedAll<'_>>,
    line: usize,
    hosts: &RowsOfTable<'_, MemberRow>,
) -> bool
    ensures { result ≡ is_behind_all (allowed_all_of_view last.now) line (signed_atoms_of_view hosts.now) }
{
    match last {
        Some(last) => last.line == line && is_same_flat_list(&last.hosts, hosts),
        None => false,
    }
}

/// Rows that are visited in file order: what is found of them, and the last that allows any command.
#[derive(Drop)]
struct RowWalk<'f> {
    found: FindingList,
    last: Option<LastAllowedAll<'f>>,
    /// The last one stands on the line of the next row, for the same hosts.
    is_behind: bool,
}

/// Adds to `found` what is found of the row of `member`, of which `facts` hold. With `is_behind`, the last row that allows any command stands
/// on its line for the same hosts.
fn add_findings_of_member(
    alloc: Global,
    facts: &CommandFacts,
    is_behind: bool,
    member: &Member<'_>,
    found: &mut FindingList,
) -> Result<(), CompareFault>
    ensures added { OnOk result ((before : Option AllowedAll) (placed : PlacedRow) → AreFactsOfRow facts.now placed → is_behind ≡ is_behind_all before placed.line placed.row.hosts
        → placed.row.grant.atom ≡ signed_atom_of_member (member_of_view member.now)
        → findings_of_view found.new.findings.items ≡ findings_of_view found.old.findings.items ++ findings_of_row before placed) }
    ensures fault { IfErr result IsMemoryOrSizeFault }
{
    let rules = find_broken_rules(facts, is_behind, member);
    if rules.is_empty() {
        return Ok(());
    }
    let mut subject = Vec::new(alloc);
    append_member(alloc, &mut subject, false, Kind::Cmnd, member)?;
    found.add_findings(alloc, rules, facts.line, facts.start, subject.as_slice())
}

impl<'f> RowWalk<'f> {
    /// Visits the row of `member`, of which `facts` hold, on these hosts.
    fn visit_member(
        &mut self,
        alloc: Global,
        facts: &CommandFacts,
        hosts: RowsOfTable<'f, MemberRow>,
        member: &Member<'_>,
    ) -> Result<(), CompareFault>
        ensures visited { OnOk result ((placed : PlacedRow) → AreFactsOfRow facts.now placed → placed.row.hosts ≡ signed_atoms_of_view hosts.entry
            → placed.row.grant.atom ≡ signed_atom_of_member (member_of_view member.now) → IsWalkOnLineForHosts self.old placed.line placed.row.hosts
            → AreRowsVisited self.old self.new (placed ∷ []) × IsWalkOnLineForHosts self.new placed.line placed.row.hosts) }
        ensures fault { IfErr result IsMemoryOrSizeFault }
    {
        add_findings_of_member(alloc, facts, self.is_behind, member, &mut self.found)?;
        if allows_any_command(member) {
            self.last = Some(LastAllowedAll {
                line: facts.line,
                hosts,
            });
            self.is_behind = true;
        }
        Ok(())
    }

    /// Visits the rows of `command`, behind these users and hosts.
    fn visit_command(
        &mut self,
        alloc: Global,
        users: &UserFacts,
        hosts: RowsOfTable<'f, MemberRow>,
        command: &FlatCommand<'_>,
    ) -> Result<(), CompareFault>
        ensures visited { OnOk result ((us : List SignedAtom) → AreFactsOfUsers users.now us → IsWalkOnLineForHosts self.old users.now.line (signed_atoms_of_view hosts.entry)
            → AreRowsVisited self.old self.new (placed_rows_of_flat_command hosts.entry.tables.now users.now.line us (signed_atoms_of_view hosts.entry) command.now)
            × IsWalkOnLineForHosts self.new users.now.line (signed_atoms_of_view hosts.entry)) }
        ensures fault { IfErr result IsMemoryOrSizeFault }
    {
        let tables = hosts.tables;
        let facts = find_command_facts(tables, users, command);
        for row in command.members.as_slice() {
            self.visit_member(alloc, &facts, hosts, &tables.member_of_row(row))?;
        }
        Ok(())
    }

    /// Visits the rows of `group`, whose lists are rows of `tables`, behind these users.
    fn visit_host_group(
        &mut self,
        alloc: Global,
        tables: &'f Tables,
        users: &UserFacts,
        group: &'f FlatHostGroup<'f>,
    ) -> Result<(), CompareFault>
        ensures visited { OnOk result ((us : List SignedAtom) → AreFactsOfUsers users.now us
            → AreRowsVisited self.old self.new (placed_rows_of_flat_host_group tables.now users.now.line us group.now)) }
        ensures fault { IfErr result IsMemoryOrSizeFault }
    {
        let hosts = RowsOfTable {
            tables,
            rows: group.hosts.as_slice(),
        };
        self.is_behind = is_behind_all(&self.last, users.line, &hosts);
        for command in group.commands.as_slice() {
            self.visit_command(alloc, users, hosts, command)?;
        }
        Ok(())
    }

    /// Visits the rows of `spec`, whose lists are rows of `tables`.
    fn visit_spec(
        &mut self,
        alloc: Global,
        tables: &'f Tables,
        spec: &'f FlatSpec<'f>,
    ) -> Result<(), CompareFault>
        ensures visited { OnOk result (AreRowsVisited self.old self.new (placed_rows_of_flat_spec tables.now spec.now)) }
        ensures fault { IfErr result IsMemoryOrSizeFault }
    {
        let users = RowsOfTable {
            tables,
            rows: spec.users.as_slice(),
        };
        let facts = find_user_facts(spec.line, &users);
        for group in spec.groups.as_slice() {
            self.visit_host_group(alloc, tables, &facts, group)?;
        }
        Ok(())
    }
}

/// Returns what is found of the rows of `specs`, whose lists are rows of `tables`, in file order.
pub fn list_findings_of_specs<'f>(
    alloc: Global,
    tables: &'f Tables,
    specs: &'f [FlatSpec<'f>],
) -> Result<FindingList, CompareFault>
    ensures found { IfOk result (λ found. findings_of_view found.findings.items ≡ findings_of_rows None (placed_rows_of_flat_specs tables.now specs.now)) }
    ensures fault { IfErr result IsMemoryOrSizeFault }
{
    let mut walk = RowWalk {
        found: FindingList::new(alloc),
        last: None,
        is_behind: false,
    };
    for spec in specs {
        walk.visit_spec(alloc, tables, spec)?;
    }
    Ok(walk.found)
}
