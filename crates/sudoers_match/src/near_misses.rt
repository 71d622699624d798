//! The rules that match a request in all parts but one.

ghost use Rattle.std.specs.Prelude.{◌∷◌, [], IfOk};
ghost use Rattle.std.specs.Option.{option_map};
ghost use Rattle.sudoers_grammar.specs.declared.node.Kind.TheVariants.{Cmnd as OfCommands};
ghost use Rattle.sudoers_line_rows.specs.View.{host_group_of_view, host_groups_of_view, members_of_view, runas_of_view};
ghost use Rattle.sudoers_match.specs.Default.{IsRunasDefault};
ghost use Rattle.sudoers_match.specs.internal.Misses.{IsValidMissSearch};
ghost use Rattle.sudoers_match.specs.internal.Straight.{HostGroupLeadsToNoCycle, HostGroupsLeadToNoCycle, LeadsToNoCyclicAlias, RunasSpecLeadsToNoCycle};

use crate::allowing::find_last_hit_in_list;
use crate::command_settings::CommandSettings;
use crate::last_row::{allows_host, allows_user};
use crate::request_verdicts::{RequestContext, RequestVerdictCache};
use crate::specs_for_users::list_specs_with_lines;
use crate::spellings::{CommandSpellings, SpelledCommandListKind, SpelledPathListKind};
use crate::time_bounds::is_within_time_bounds;
use std::alloc::{AllocError, Global};
use sudoers_line_rows::{HostGroup, Member};
use sudoers_match_list::{AcyclicWalk, AliasVerdictCache};
use sudoers_match_member::Request;
use sudoers_tree::{HostGroupRow, Kind, MemberRow, RowsOfTable};

/// The part of a request in which a rule does not match it.
#[derive(Clone, Copy, Debug, PartialEq, Eq)]
pub enum MissedPart {
    /// The rule is for other hosts.
    Host,
    /// The rule lets the command run as other users or groups.
    Runas,
    /// The rule holds at other moments.
    Moment,
    /// The rule asks for other arguments.
    Arguments,
}

/// A command of a rule that matches a request in all parts but one.
#[derive(Clone, Copy)]
pub struct NearMiss<'a> {
    /// The number of the line of its user specification, from 0.
    pub line: usize,
    /// What holds of the command beside its member.
    pub head: CommandSettings<'a>,
    pub member: Member<'a>,
    pub part: MissedPart,
}

/// What is known while near misses are sought, and those that are found.
#[derive(Drop)]
pub struct MissSearch<'a> {
    question: RequestVerdictCache<'a>,
    paths: AliasVerdictCache<'a>,
    found: Vec<NearMiss<'a>>,
}

/// Returns the commands of the rules of `policy` that match `request` in all parts but one, in the order of the lines. Their users match,
/// and the path of `command`, which is the command of `request` in each spelling. `default` is the user as whom a command runs where
/// nothing else is said.
///
/// # Errors
///
/// Memory ran out.
pub fn list_near_misses<'a>(
    alloc: Global,
    policy: &AcyclicWalk<'a>,
    request: &Request,
    command: &CommandSpellings,
    default: &'a [u8],
) -> Result<Vec<NearMiss<'a>>, AllocError>
    requires { IsRunasDefault policy.now request.now.who default.now }
{
    // laws
    policy.is_acyclic();
    let asked = RequestContext {
        policy,
        request,
        command,
    };
    let mut search = MissSearch {
        question: RequestVerdictCache::new(alloc, policy, request, default)?,
        paths: policy.make_verdict_cache(alloc)?,
        found: Vec::new(alloc),
    };
    let specs = list_specs_with_lines(alloc, policy)?;
    for spec in specs.as_slice() {
        if allows_user(&mut search.question, &asked, &spec.users)? {
            search.append_misses_of_groups(&asked, spec.line, &spec.groups)?;
        }
    }
    Ok(search.found)
}

impl<'a> MissSearch<'a> {
    /// Appends the near misses among `groups`, which stand on the line with the number `line`.
    fn append_misses_of_groups(
        &mut self,
        asked: &RequestContext<'a, '_>,
        line: usize,
        groups: &RowsOfTable<'a, HostGroupRow>,
    ) -> Result<(), AllocError>
        requires valid { IsValidMissSearch asked.now self.old }
        requires straight { HostGroupsLeadToNoCycle asked.now.policy.now (host_groups_of_view groups.now) }
        ensures { IfOk result (λ _. IsValidMissSearch asked.now self.new) }
    {
        let tables = groups.tables;
        for row in groups.rows {
            let group = tables.host_group_of_row(row);
            self.append_misses_of_group(asked, line, &group)?;
        }
        Ok(())
    }

    /// Appends the near misses among the commands of `group`.
    fn append_misses_of_group(
        &mut self,
        asked: &RequestContext<'a, '_>,
        line: usize,
        group: &HostGroup<'a>,
    ) -> Result<(), AllocError>
        requires valid { IsValidMissSearch asked.now self.old }
        requires straight { HostGroupLeadsToNoCycle asked.now.policy.now (host_group_of_view group.now) }
        ensures { IfOk result (λ _. IsValidMissSearch asked.now self.new) }
    {
        let on_host = allows_host(&mut self.question, asked, &group.hosts)?;
        let mut head = CommandSettings::make_empty_settings();
        let tables = group.commands.tables;
        for row in group.commands.rows {
            let written = tables.command_of_row(row);
            head.apply_settings_of_command(&written);
            let member = RowsOfTable {
                tables,
                rows: std::slice::from_ref(&row.member),
            };
            if let Some(part) = self.find_missed_part(asked, on_host, &head, &member)? {
                self.found.push(NearMiss {
                    line,
                    head,
                    member: written.member,
                    part,
                })?;
            }
        }
        Ok(())
    }

    /// Returns the one part in which the command `member` with the head `head` does not match the request, if it is one. Its users match,
    /// and if `on_host` its hosts.
    fn find_missed_part(
        &mut self,
        asked: &RequestContext<'a, '_>,
        on_host: bool,
        head: &CommandSettings<'a>,
        member: &RowsOfTable<'_, MemberRow>,
    ) -> Result<Option<MissedPart>, AllocError>
        requires valid { IsValidMissSearch asked.now self.old }
        requires runas { RunasSpecLeadsToNoCycle asked.now.policy.now (option_map runas_of_view head.now.runas) }
        requires member { LeadsToNoCyclicAlias OfCommands asked.now.policy.now (members_of_view member.now) }
        ensures { IfOk result (λ _. IsValidMissSearch asked.now self.new) }
    {
        let as_user = self.question.allows_requested_runas(asked, &head.runas)?;
        let in_time = is_within_time_bounds(asked.request.moment, &head.options);
        let part = match (on_host, as_user, in_time) {
            (true, true, true) => return self.find_missed_arguments(asked, member),
            (false, true, true) => MissedPart::Host,
            (true, false, true) => MissedPart::Runas,
            (true, true, false) => MissedPart::Moment,
            _ => return Ok(None),
        };
        let hit = self.matches_command(asked, member)?;
        Ok(if hit { Some(part) } else { None })
    }

    /// Returns whether the command `member` matches that of the request.
    fn matches_command(
        &mut self,
        asked: &RequestContext<'a, '_>,
        member: &RowsOfTable<'_, MemberRow>,
    ) -> Result<bool, AllocError>
        requires valid { IsValidMissSearch asked.now self.old }
        requires member { LeadsToNoCyclicAlias OfCommands asked.now.policy.now (members_of_view member.now) }
        ensures { IfOk result (λ _. IsValidMissSearch asked.now self.new) }
    {
        let hit = find_last_hit_in_list::<SpelledCommandListKind>(
            &mut self.question.commands,
            asked.policy,
            Kind::Cmnd,
            member,
            asked.command,
        )?;
        Ok(hit.is_some())
    }

    /// Returns that the arguments are missed, if the path of the command `member` matches and the command does not.
    fn find_missed_arguments(
        &mut self,
        asked: &RequestContext<'a, '_>,
        member: &RowsOfTable<'_, MemberRow>,
    ) -> Result<Option<MissedPart>, AllocError>
        requires valid { IsValidMissSearch asked.now self.old }
        requires member { LeadsToNoCyclicAlias OfCommands asked.now.policy.now (members_of_view member.now) }
        ensures { IfOk result (λ _. IsValidMissSearch asked.now self.new) }
    {
        if self.matches_command(asked, member)? {
            return Ok(None);
        }
        let hit = find_last_hit_in_list::<SpelledPathListKind>(
            &mut self.paths,
            asked.policy,
            Kind::Cmnd,
            member,
            asked.command,
        )?;
        Ok(hit.map(|_| MissedPart::Arguments))
    }
}
