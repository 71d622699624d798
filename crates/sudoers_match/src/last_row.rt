//! The last row that fits a request: from the last user specification back.

ghost use Rattle.std.specs.Prelude.{◌≡◌, ◌∷◌, [], List, Some, IfOk, IfSome};
ghost use Rattle.std.specs.Option.{option_map};
ghost use Rattle.sudoers_grammar.specs.declared.node.Kind.TheVariants.{User as OfUsers, Host as OfHosts, Cmnd as OfCommands};
ghost use Rattle.sudoers_grammar.specs.Node.{Member as MemberOf};
ghost use Rattle.sudoers_line_rows.specs.View.{host_group_of_view, host_groups_of_view, members_of_view, runas_of_view};
ghost use Rattle.sudoers_match_member.specs.Hits.{is_user_atom_match, is_host_atom_match};
ghost use Rattle.sudoers_match.specs.Allows.{DecidesWhetherListAllows, ListAllows};
ghost use Rattle.sudoers_match.specs.Answer.{IsAnswerByCommandTest, answer_of_view};
ghost use Rattle.sudoers_match.specs.ForRequest.{AreSpecsForRequest};
ghost use Rattle.sudoers_match.specs.Found.{HasMemberAndSettingsFromLines, answer_without_member_and_settings};
ghost use Rattle.sudoers_match.specs.Heads.{AccumulatedCommandSettings as HeadOf, empty_command_settings};
ghost use Rattle.sudoers_match.specs.IsHead.{HoldsCommandSettings};
ghost use Rattle.sudoers_match.specs.internal.Question.{DecidesWhetherRunasSpecAllows, HasMemberAndSettingsFromGroupAtPlace, HasMemberAndSettingsFromSpecAtNumber, IsAnswerOfRowsForContext, IsKnownRunasDecision, IsValidCacheForContext, command_test_of_context, spec_group_command_numbers_of_answer};
ghost use Rattle.sudoers_match.specs.Rows.{PrivilegeRow, AreRowsPerFlatAtomOfCommand, AreRowsPerFlatAtomOfHostGroup, AreRowsPerFlatAtomOfSpec};
ghost use Rattle.sudoers_match.specs.Specs.{user_spec_of_users_and_groups};
ghost use Rattle.sudoers_match.specs.internal.Straight.{LeadsToNoCyclicAlias, RunasSpecLeadsToNoCycle, HostGroupLeadsToNoCycle, HostGroupsLeadToNoCycle};

use crate::allowing::{find_last_hit_in_list, is_allowed_by_list};
use crate::answer_of_row::{
    Answer, AnswerWithMemberAndSettings, SpecGroupCommandNumbers,
    add_member_and_settings_to_answer, make_row_answer,
};
use crate::command_settings::CommandSettings;
use crate::matching_host_groups::HostGroupPlace;
use crate::request_verdicts::{RequestContext, RequestVerdictCache};
use crate::specs_for_users::SpecOnLine;
use crate::spellings::SpelledCommandListKind;
use crate::time_bounds::is_within_time_bounds;
use std::alloc::AllocError;
use sudoers_line_rows::HostGroup;
use sudoers_match_list::{HostListKind, UserListKind};
use sudoers_tree::{HostGroupRow, Kind, MemberRow, RowsOfTable};

/// Returns the last row of `specs` that fits. They are the user specifications of the policy that is asked.
pub fn find_last_fitting_row<'a>(
    question: &mut RequestVerdictCache<'a>,
    asked: &RequestContext<'a, '_>,
    specs: &[SpecOnLine<'a>],
) -> Result<Option<AnswerWithMemberAndSettings<'a>>, AllocError>
    requires question { IsValidCacheForContext asked.now question.old }
    requires specs { AreSpecsForRequest asked.now.policy.now (command_test_of_context asked.now) asked.now.request.now specs.now }
    ensures answer { IfOk result (λ found. IsAnswerByCommandTest asked.now.policy.now (command_test_of_context asked.now) asked.now.request.now (option_map answer_without_member_and_settings found)) }
    ensures found { IfOk result (λ found. IfSome found (HasMemberAndSettingsFromLines asked.now.policy.now)) }
{
    // laws
    asked.policy.is_acyclic();
    for number in (0..specs.len()).rev() {
        let spec = &specs[number];
        if spec.matters && allows_user(question, asked, &spec.users)? {
            let found = find_last_fit_in_host_groups(
                question,
                asked,
                spec.line,
                number,
                &spec.groups,
            )?;
            if found.is_some() {
                return Ok(found);
            }
        }
    }
    Ok(None)
}

/// Returns whether the list `users` allows the user who asks.
///
/// # Errors
///
/// Memory ran out.
pub fn allows_user<'a>(
    question: &mut RequestVerdictCache<'a>,
    asked: &RequestContext<'a, '_>,
    users: &RowsOfTable<'_, MemberRow>,
) -> Result<bool, AllocError>
    requires question { IsValidCacheForContext asked.now question.old }
    requires straight { LeadsToNoCyclicAlias OfUsers asked.now.policy.now (members_of_view users.now) }
    ensures kept { IfOk result (λ _. IsValidCacheForContext asked.now question.new) }
    ensures allowed { IfOk result (λ allowed. DecidesWhetherListAllows OfUsers asked.now.policy.now (is_user_atom_match asked.now.request.now.who.user) (members_of_view users.now) allowed) }
{
    is_allowed_by_list::<UserListKind>(
        &mut question.users,
        asked.policy,
        Kind::User,
        users,
        &asked.request.who.user,
    )
}

/// Returns whether the list `hosts` allows the host of the request.
///
/// # Errors
///
/// Memory ran out.
pub fn allows_host<'a>(
    question: &mut RequestVerdictCache<'a>,
    asked: &RequestContext<'a, '_>,
    hosts: &RowsOfTable<'_, MemberRow>,
) -> Result<bool, AllocError>
    requires question { IsValidCacheForContext asked.now question.old }
    requires straight { LeadsToNoCyclicAlias OfHosts asked.now.policy.now (members_of_view hosts.now) }
    ensures kept { IfOk result (λ _. IsValidCacheForContext asked.now question.new) }
    ensures allowed { IfOk result (λ allowed. DecidesWhetherListAllows OfHosts asked.now.policy.now (is_host_atom_match asked.now.request.now.who) (members_of_view hosts.now) allowed) }
{
    is_allowed_by_list::<HostListKind>(
        &mut question.hosts,
        asked.policy,
        Kind::Host,
        hosts,
        &asked.request.who,
    )
}

/// Returns the last row that fits of the user specification with the number `spec`, whose host groups are `groups`, where its users allow.
/// It stands on the line with the number `line`.
fn find_last_fit_in_host_groups<'a>(
    question: &mut RequestVerdictCache<'a>,
    asked: &RequestContext<'a, '_>,
    line: usize,
    spec: usize,
    groups: &RowsOfTable<'a, HostGroupRow>,
) -> Result<Option<AnswerWithMemberAndSettings<'a>>, AllocError>
    requires question { IsValidCacheForContext asked.now question.old }
    requires groups { HostGroupsLeadToNoCycle asked.now.policy.now (host_groups_of_view groups.now) }
    ensures kept { IfOk result (λ _. IsValidCacheForContext asked.now question.new) }
    ensures answer { IfOk result (λ found. (users : List MemberOf)
        → ListAllows OfUsers asked.now.policy.now (is_user_atom_match asked.now.request.now.who.user) users
        → (rows : List PrivilegeRow) → AreRowsPerFlatAtomOfSpec asked.now.policy.now spec (user_spec_of_users_and_groups users (host_groups_of_view groups.now)) rows
        → IsAnswerOfRowsForContext asked.now rows (option_map answer_without_member_and_settings found)) }
    ensures found { IfOk result (λ found. IfSome found (HasMemberAndSettingsFromSpecAtNumber line spec (host_groups_of_view groups.now))) }
{
    let mut latest = None;
    let tables = groups.tables;
    for (host_group, row) in groups.rows.iter().enumerate() {
        let mut head = CommandSettings::make_empty_settings();
        let group = tables.host_group_of_row(row);
        let at = HostGroupPlace { spec, host_group };
        let in_group = find_last_fit_in_host_group(question, asked, line, at, &group, &mut head)?;
        latest = in_group.or(latest);
    }
    Ok(latest)
}

/// Returns the last row of the host group at `at` that fits, where the users allow. It stands on the line with the number `line`. `head`
/// is that of a command before which nothing stands, and becomes that of the last command.
fn find_last_fit_in_host_group<'a>(
    question: &mut RequestVerdictCache<'a>,
    asked: &RequestContext<'a, '_>,
    line: usize,
    at: HostGroupPlace,
    group: &HostGroup<'a>,
    head: &mut CommandSettings<'a>,
) -> Result<Option<AnswerWithMemberAndSettings<'a>>, AllocError>
    requires question { IsValidCacheForContext asked.now question.old }
    requires straight { HostGroupLeadsToNoCycle asked.now.policy.now (host_group_of_view group.now) }
    requires head { HoldsCommandSettings head.old empty_command_settings }
    ensures kept { IfOk result (λ _. IsValidCacheForContext asked.now question.new) }
    ensures answer { IfOk result (λ found. (users : List MemberOf)
        → ListAllows OfUsers asked.now.policy.now (is_user_atom_match asked.now.request.now.who.user) users
        → (rows : List PrivilegeRow) → AreRowsPerFlatAtomOfHostGroup asked.now.policy.now at.spec users at.host_group (host_group_of_view group.now) rows
        → IsAnswerOfRowsForContext asked.now rows (option_map answer_without_member_and_settings found)) }
    ensures found { IfOk result (λ found. IfSome found (HasMemberAndSettingsFromGroupAtPlace line at (host_group_of_view group.now))) }
{
    if !allows_host(question, asked, &group.hosts)? {
        return Ok(None);
    }
    let mut latest = None;
    let mut permitted = None;
    let tables = group.commands.tables;
    for (command, row) in group.commands.rows.iter().enumerate() {
        let written = tables.command_of_row(row);
        if written.runas.is_some() {
            permitted = None;
        }
        head.apply_settings_of_command(&written);
        let member = RowsOfTable {
            tables,
            rows: std::slice::from_ref(&row.member),
        };
        let place = SpecGroupCommandNumbers {
            spec: at.spec,
            host_group: at.host_group,
            command,
        };
        let answer = find_answer_of_command_if_it_fits(
            question,
            asked,
            place,
            head,
            &mut permitted,
            &member,
        )?;
        latest = add_member_and_settings_to_answer(answer, line, head, written.member).or(latest);
    }
    Ok(latest)
}

/// Returns whether a command may run as the user and the group that are asked for, by the Runas_Spec of `head`. `permitted` is what is
/// known of that, and is known then.
fn permits_runas_cached<'a>(
    question: &mut RequestVerdictCache<'a>,
    asked: &RequestContext<'a, '_>,
    head: &CommandSettings<'a>,
    permitted: &mut Option<bool>,
) -> Result<bool, AllocError>
    requires question { IsValidCacheForContext asked.now question.old }
    requires straight { RunasSpecLeadsToNoCycle asked.now.policy.now (option_map runas_of_view head.now.runas) }
    requires permitted { IsKnownRunasDecision asked.now.policy.now asked.now.request.now (option_map runas_of_view head.now.runas) permitted.old }
    ensures kept { IfOk result (λ _. IsValidCacheForContext asked.now question.new) }
    ensures permits { IfOk result (λ allowed. DecidesWhetherRunasSpecAllows asked.now.policy.now asked.now.request.now.who asked.now.request.now.target asked.now.request.now.target_group (option_map runas_of_view head.now.runas) allowed) }
    ensures permitted { IfOk result (λ allowed. permitted.new ≡ Some allowed) }
{
    if let Some(allowed) = *permitted {
        return Ok(allowed);
    }
    let allowed = question.allows_requested_runas(asked, &head.runas)?;
    *permitted = Some(allowed);
    Ok(allowed)
}

/// Returns the answer of the last row of a command that fits, where the users and the hosts allow. `member` is the command alone.
/// `permitted` is what is known of the Runas_Spec of `head`.
fn find_answer_of_command_if_it_fits<'a>(
    question: &mut RequestVerdictCache<'a>,
    asked: &RequestContext<'a, '_>,
    place: SpecGroupCommandNumbers,
    head: &CommandSettings<'a>,
    permitted: &mut Option<bool>,
    member: &RowsOfTable<'_, MemberRow>,
) -> Result<Option<Answer<'a>>, AllocError>
    requires question { IsValidCacheForContext asked.now question.old }
    requires runas { RunasSpecLeadsToNoCycle asked.now.policy.now (option_map runas_of_view head.now.runas) }
    requires permitted { IsKnownRunasDecision asked.now.policy.now asked.now.request.now (option_map runas_of_view head.now.runas) permitted.old }
    requires member { LeadsToNoCyclicAlias OfCommands asked.now.policy.now (members_of_view member.now) }
    ensures kept { IfOk result (λ _. IsValidCacheForContext asked.now question.new) }
    ensures permitted { IfOk result (λ _. IsKnownRunasDecision asked.now.policy.now asked.now.request.now (option_map runas_of_view head.now.runas) permitted.new) }
    ensures answer { IfOk result (λ answer. (users hosts : List MemberOf)
        → ListAllows OfUsers asked.now.policy.now (is_user_atom_match asked.now.request.now.who.user) users
        → ListAllows OfHosts asked.now.policy.now (is_host_atom_match asked.now.request.now.who) hosts
        → (h : HeadOf) → HoldsCommandSettings head.now h → (m : MemberOf) → members_of_view member.now ≡ m ∷ []
        → (rows : List PrivilegeRow) → AreRowsPerFlatAtomOfCommand asked.now.policy.now place.spec place.host_group users hosts place.command (h, m) rows
        → IsAnswerOfRowsForContext asked.now rows (option_map answer_of_view answer)) }
    ensures place { IfOk result (λ answer. IfSome answer (λ a. spec_group_command_numbers_of_answer a ≡ place)) }
{
    if !is_within_time_bounds(asked.request.moment, &head.options) {
        return Ok(None);
    }
    if !permits_runas_cached(question, asked, head, permitted)? {
        return Ok(None);
    }
    let hit = find_last_hit_in_list::<SpelledCommandListKind>(
        &mut question.commands,
        asked.policy,
        Kind::Cmnd,
        member,
        asked.command,
    )?;
    match hit {
        Some(hit) => Ok(Some(make_row_answer(place, head, hit))),
        None => Ok(None),
    }
}
