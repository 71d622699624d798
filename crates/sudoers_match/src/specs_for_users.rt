//! The user specifications of a policy, and those of which a row may fit a request.

ghost use Rattle.std.specs.Prelude.{◌≡◌, ◌∷◌, [], ℕ, Bool, List, map, true, false, IfOk};
ghost use Rattle.std.specs.List.{AllByRecursion};
ghost use Rattle.std.specs.Option.{option_map};
ghost use Rattle.sudoers_grammar.specs.declared.node.Kind.TheVariants.{Cmnd as OfCommands};
ghost use Rattle.sudoers_grammar.specs.Node.{Member as MemberOf};
ghost use Rattle.sudoers_line_rows.specs.View.{host_group_of_view, host_groups_of_view, members_of_view, runas_of_view};
ghost use Rattle.sudoers_match_member.specs.declared.request.Request.{Request as RequestOf};
ghost use Rattle.sudoers_match.specs.declared.specs_for_users.SpecOnLine.{SpecOnLine as SpecHeld};
ghost use Rattle.sudoers_match.specs.Default.{IsRunasDefault};
ghost use Rattle.sudoers_match.specs.ForRequest.{AreRequestsOfTwoUsers, AreSpecsForRequest, numbered_spec_of_view};
ghost use Rattle.sudoers_match.specs.Found.{specs_with_line_numbers};
ghost use Rattle.sudoers_match.specs.Heads.{AccumulatedCommandSettings as HeadOf};
ghost use Rattle.sudoers_match.specs.IsHead.{HoldsCommandSettings};
ghost use Rattle.sudoers_match.specs.Rows.{PrivilegeRow, AreRowsPerFlatAtomOfCommand, AreRowsPerFlatAtomOfHostGroup, AreRowsPerFlatAtomOfSpec};
ghost use Rattle.sudoers_match.specs.Specs.{user_spec_of_users_and_groups};
ghost use Rattle.sudoers_match.specs.Spellings.{is_spelled_command_match};
ghost use Rattle.sudoers_match.specs.internal.AnyUser.{IsRowForNoUser, MayRunAsTarget};
ghost use Rattle.sudoers_match.specs.internal.Question.{IsValidCacheForContext, command_test_of_context};
ghost use Rattle.sudoers_match.specs.internal.Straight.{HostGroupLeadsToNoCycle, HostGroupsLeadToNoCycle, LeadsToNoCyclicAlias, RunasSpecLeadsToNoCycle};

use crate::allowing::find_last_hit_in_list;
use crate::command_settings::CommandSettings;
use crate::last_row::allows_host;
use crate::request_verdicts::{RequestContext, RequestVerdictCache};
use crate::spellings::{CommandSpellings, SpelledCommandListKind};
use crate::time_bounds::is_within_time_bounds;
use std::alloc::{AllocError, Global};
use sudoers_line_rows::{HostGroup, RunasSpec};
use sudoers_match_list::AcyclicWalk;
use sudoers_match_member::Request;
use sudoers_tree::{HostGroupRow, Kind, MemberRow, Node, RowsOfTable};

/// A user specification: the number of its line on the walk, from 0, what it says, and whether a row of it may fit a request.
#[derive(Clone, Copy)]
pub struct SpecOnLine<'a> {
    pub line: usize,
    pub users: RowsOfTable<'a, MemberRow>,
    pub groups: RowsOfTable<'a, HostGroupRow>,
    pub matters: bool,
}

/// Returns the user specifications of `policy`. A row of each may fit.
///
/// # Errors
///
/// Memory ran out.
pub fn list_specs_with_lines<'a>(
    alloc: Global,
    policy: &AcyclicWalk<'a>,
) -> Result<Vec<SpecOnLine<'a>>, AllocError>
    ensures all { IfOk result (λ specs. map numbered_spec_of_view specs.items ≡ specs_with_line_numbers 0 policy.now) }
    ensures matter { IfOk result (λ specs. AllByRecursion (λ (s : SpecHeld). s.matters ≡ true) specs.items) }
{
    let mut specs = Vec::new(alloc);
    let lines = policy.lines();
    for (line, row) in lines.rows.iter().enumerate() {
        if let Node::Spec { users, groups } = lines.tables.node_of_row(&row.node) {
            specs.push(SpecOnLine {
                line,
                users,
                groups,
                matters: true,
            })?;
        }
    }
    Ok(specs)
}

/// Returns the user specifications of `policy`, and of which of them a row may fit `request`, whoever makes it, where `command` is its
/// command in each spelling. With `of_target` all users make it for its target. `default` is the user as whom a command runs where nothing
/// else is said.
///
/// # Errors
///
/// Memory ran out.
pub fn find_specs_for_users<'a>(
    alloc: Global,
    policy: &AcyclicWalk<'a>,
    request: &Request,
    command: &CommandSpellings,
    default: &'a [u8],
    of_target: bool,
) -> Result<Vec<SpecOnLine<'a>>, AllocError>
    requires { IsRunasDefault policy.now request.now.who default.now }
    ensures { IfOk result (λ specs. (other : RequestOf) → AreRequestsOfTwoUsers of_target request.now other
        → AreSpecsForRequest policy.now (is_spelled_command_match command.now) other specs.items) }
{
    // laws
    policy.is_acyclic();
    let mut question = RequestVerdictCache::new(alloc, policy, request, default)?;
    let asked = RequestContext {
        policy,
        request,
        command,
    };
    let all = list_specs_with_lines(alloc, policy)?;
    let mut specs = Vec::new(alloc);
    for spec in all.as_slice() {
        let matters = has_group_for_some_user(&mut question, &asked, of_target, &spec.groups)?;
        specs.push(SpecOnLine { matters, ..*spec })?;
    }
    Ok(specs)
}

/// Returns whether a row of `groups` may fit the request that is asked, whoever makes it. With `of_target` all make it for one target.
fn has_group_for_some_user<'a>(
    question: &mut RequestVerdictCache<'a>,
    asked: &RequestContext<'a, '_>,
    of_target: bool,
    groups: &RowsOfTable<'a, HostGroupRow>,
) -> Result<bool, AllocError>
    requires question { IsValidCacheForContext asked.now question.old }
    requires straight { HostGroupsLeadToNoCycle asked.now.policy.now (host_groups_of_view groups.now) }
    ensures kept { IfOk result (λ _. IsValidCacheForContext asked.now question.new) }
    ensures idle { IfOk result (λ has. has ≡ false → (i : ℕ) (users : List MemberOf) (rows : List PrivilegeRow)
        → AreRowsPerFlatAtomOfSpec asked.now.policy.now i (user_spec_of_users_and_groups users (host_groups_of_view groups.now)) rows
        → AllByRecursion (IsRowForNoUser asked.now.policy.now (command_test_of_context asked.now) of_target asked.now.request.now) rows) }
{
    let tables = groups.tables;
    for row in groups.rows {
        let group = tables.host_group_of_row(row);
        let has = is_group_for_some_user(question, asked, of_target, &group)?;
        if has {
            return Ok(true);
        }
    }
    Ok(false)
}

/// Returns whether a row of `group` may fit the request that is asked, whoever makes it. With `of_target` all make it for one target.
fn is_group_for_some_user<'a>(
    question: &mut RequestVerdictCache<'a>,
    asked: &RequestContext<'a, '_>,
    of_target: bool,
    group: &HostGroup<'a>,
) -> Result<bool, AllocError>
    requires question { IsValidCacheForContext asked.now question.old }
    requires straight { HostGroupLeadsToNoCycle asked.now.policy.now (host_group_of_view group.now) }
    ensures kept { IfOk result (λ _. IsValidCacheForContext asked.now question.new) }
    ensures idle { IfOk result (λ has. has ≡ false → (i j : ℕ) (users : List MemberOf) (rows : List PrivilegeRow)
        → AreRowsPerFlatAtomOfHostGroup asked.now.policy.now i users j (host_group_of_view group.now) rows
        → AllByRecursion (IsRowForNoUser asked.now.policy.now (command_test_of_context asked.now) of_target asked.now.request.now) rows) }
{
    if !allows_host(question, asked, &group.hosts)? {
        return Ok(false);
    }
    let mut head = CommandSettings::make_empty_settings();
    let mut may_run = true;
    let tables = group.commands.tables;
    for row in group.commands.rows {
        let written = tables.command_of_row(row);
        head.apply_settings_of_command(&written);
        if written.runas.is_some() {
            may_run = may_run_as_target(question, asked, of_target, &head.runas)?;
        }
        let member = RowsOfTable {
            tables,
            rows: std::slice::from_ref(&row.member),
        };
        if is_command_for_some_user(question, asked, may_run, &head, &member)? {
            return Ok(true);
        }
    }
    Ok(false)
}

/// Returns whether a Runas_Spec may allow the target that is asked for, whoever asks. It may if `of_target` is false.
fn may_run_as_target<'a>(
    question: &mut RequestVerdictCache<'a>,
    asked: &RequestContext<'a, '_>,
    of_target: bool,
    runas: &Option<RunasSpec<'a>>,
) -> Result<bool, AllocError>
    requires question { IsValidCacheForContext asked.now question.old }
    requires straight { RunasSpecLeadsToNoCycle asked.now.policy.now (option_map runas_of_view runas.now) }
    ensures kept { IfOk result (λ _. IsValidCacheForContext asked.now question.new) }
    ensures other { IfOk result (λ may. may ≡ false → MayRunAsTarget asked.now.policy.now of_target asked.now.request.now.target (option_map runas_of_view runas.now) → ⊥) }
{
    if !of_target {
        return Ok(true);
    }
    let Some(runas) = runas else {
        return Ok(true);
    };
    if runas.users.rows.is_empty() {
        return Ok(true);
    }
    question.allows_requested_user(asked, &runas.users)
}

/// Returns whether a row of a command may fit the request that is asked, whoever makes it. `head` holds of the command, `member` is the
/// command alone, and `may_run` says whether its Runas_Spec may allow the target.
fn is_command_for_some_user<'a>(
    question: &mut RequestVerdictCache<'a>,
    asked: &RequestContext<'a, '_>,
    may_run: bool,
    head: &CommandSettings<'a>,
    member: &RowsOfTable<'a, MemberRow>,
) -> Result<bool, AllocError>
    requires question { IsValidCacheForContext asked.now question.old }
    requires straight { LeadsToNoCyclicAlias OfCommands asked.now.policy.now (members_of_view member.now) }
    ensures kept { IfOk result (λ _. IsValidCacheForContext asked.now question.new) }
    ensures idle { IfOk result (λ is. is ≡ false → (of_target : Bool) (h : HeadOf) → HoldsCommandSettings head.now h
        → (may_run ≡ false → MayRunAsTarget asked.now.policy.now of_target asked.now.request.now.target h.runas → ⊥)
        → (m : MemberOf) → members_of_view member.now ≡ m ∷ [] → (i j k : ℕ) (users hosts : List MemberOf) (rows : List PrivilegeRow)
        → AreRowsPerFlatAtomOfCommand asked.now.policy.now i j users hosts k (h, m) rows
        → AllByRecursion (IsRowForNoUser asked.now.policy.now (command_test_of_context asked.now) of_target asked.now.request.now) rows) }
{
    if !may_run || !is_within_time_bounds(asked.request.moment, &head.options) {
        return Ok(false);
    }
    let hit = find_last_hit_in_list::<SpelledCommandListKind>(
        &mut question.commands,
        asked.policy,
        Kind::Cmnd,
        member,
        asked.command,
    )?;
    Ok(hit.is_some())
}
