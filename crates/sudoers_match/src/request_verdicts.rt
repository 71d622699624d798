//! What is known of the aliases for one request.

ghost use Rattle.std.specs.Prelude.{◌≡◌, Bool, IfOk};
ghost use Rattle.sudoers_grammar.specs.declared.node.Atom.{Atom as AtomOf};
ghost use Rattle.sudoers_grammar.specs.declared.node.Kind.TheVariants.{Runas as OfRunas};
ghost use Rattle.sudoers_line_rows.specs.View.{members_of_view, runas_of_view};
ghost use Rattle.std.specs.Option.{option_map};
ghost use Rattle.sudoers_match_member.specs.Hits.{is_user_atom_match};
ghost use Rattle.sudoers_match.specs.Allows.{DecidesWhetherListAllows};
ghost use Rattle.sudoers_match.specs.Default.{IsRunasDefault};
ghost use Rattle.sudoers_match.specs.internal.Question.{IsValidCacheForContext, IsValidRequestCache, DecidesWhetherRunasGroupsAllow, DecidesWhetherRunasSpecAllows};
ghost use Rattle.sudoers_match.specs.Runas.{is_group_absent_or_among};
ghost use Rattle.sudoers_match.specs.internal.Straight.{LeadsToNoCyclicAlias, RunasSpecLeadsToNoCycle};

use crate::allowing::{find_last_hit_in_list, is_allowed_by_list};
use crate::spellings::CommandSpellings;
use std::alloc::{AllocError, Global};
use sudoers_line_rows::RunasSpec;
use sudoers_match_list::{
    AcyclicWalk, AliasVerdictCache, RunasGroupListKind, UserListKind, Verdict,
};
use sudoers_match_member::{Group, Groups, Request, is_same_name_ignoring_case};
use sudoers_tree::{Kind, MemberRow, RowsOfTable};

/// A request to a policy.
#[derive(Clone, Copy)]
pub struct RequestContext<'a, 'b> {
    pub policy: &'b AcyclicWalk<'a>,
    pub request: &'b Request,
    /// The command with its arguments, joined, in each of its spellings.
    pub command: &'b CommandSpellings,
}

/// What is known for one request: the verdicts on its user, on its host, on the user and the group as whom the command is to run, and
/// on the command.
#[derive(Drop)]
pub struct RequestVerdictCache<'a> {
    /// As whom a command runs without a Runas_Spec.
    pub default: &'a [u8],
    pub users: AliasVerdictCache<'a>,
    pub hosts: AliasVerdictCache<'a>,
    pub targets: AliasVerdictCache<'a>,
    pub groups: AliasVerdictCache<'a>,
    pub commands: AliasVerdictCache<'a>,
    /// Whether no group is asked for, or it is one of the target's.
    pub own: bool,
}

impl<'a> RequestVerdictCache<'a> {
    /// Returns a question of which no verdict is known. `default` is the user as whom a command runs where nothing else is said.
    ///
    /// # Errors
    ///
    /// Memory ran out.
    pub fn new(
        alloc: Global,
        policy: &AcyclicWalk<'a>,
        request: &Request,
        default: &'a [u8],
    ) -> Result<RequestVerdictCache<'a>, AllocError>
        requires { IsRunasDefault policy.now request.now.who default.now }
        ensures { IfOk result (λ question. (test : AtomOf → Bool) → IsValidRequestCache policy.now test request.now question) }
    {
        let own = is_requested_group_absent_or_among(&request.target.groups, &request.target_group);
        let users = policy.make_verdict_cache(alloc)?;
        let hosts = policy.make_verdict_cache(alloc)?;
        let targets = policy.make_verdict_cache(alloc)?;
        let groups = policy.make_verdict_cache(alloc)?;
        let commands = policy.make_verdict_cache(alloc)?;
        Ok(RequestVerdictCache {
            default,
            users,
            hosts,
            targets,
            groups,
            commands,
            own,
        })
    }

    /// Returns whether the command may run as the user and the group that are asked for, by its Runas_Spec.
    ///
    /// # Errors
    ///
    /// Memory ran out.
    pub fn allows_requested_runas(
        &mut self,
        asked: &RequestContext<'a, '_>,
        runas: &Option<RunasSpec<'_>>,
    ) -> Result<bool, AllocError>
        requires question { IsValidCacheForContext asked.now self.old }
        requires straight { RunasSpecLeadsToNoCycle asked.now.policy.now (option_map runas_of_view runas.now) }
        ensures kept { IfOk result (λ _. IsValidCacheForContext asked.now self.new) }
        ensures permits { IfOk result (λ allowed. DecidesWhetherRunasSpecAllows asked.now.policy.now asked.now.request.now.who asked.now.request.now.target asked.now.request.now.target_group (option_map runas_of_view runas.now) allowed) }
    {
        let request = asked.request;
        let own = self.own;
        let Some(runas) = runas else {
            return Ok(
                own && is_same_name_ignoring_case(self.default, request.target.name.as_slice()),
            );
        };
        if runas.users.rows.is_empty() {
            let user = &request.who.user;
            if request.target.uid != user.uid {
                Ok(false)
            } else if runas.groups.rows.is_empty() {
                Ok(is_requested_group_absent_or_among(&user.groups, &request.target_group))
            } else {
                self.allows_requested_group(asked, &runas.groups)
            }
        } else if !self.allows_requested_user(asked, &runas.users)? {
            Ok(false)
        } else if runas.groups.rows.is_empty() {
            Ok(own)
        } else {
            self.allows_requested_group(asked, &runas.groups)
        }
    }

    /// Returns whether the list `users` of a Runas_Spec allows the user who is asked for.
    ///
    /// # Errors
    ///
    /// Memory ran out.
    pub fn allows_requested_user(
        &mut self,
        asked: &RequestContext<'a, '_>,
        users: &RowsOfTable<'_, MemberRow>,
    ) -> Result<bool, AllocError>
        requires question { IsValidCacheForContext asked.now self.old }
        requires straight { LeadsToNoCyclicAlias OfRunas asked.now.policy.now (members_of_view users.now) }
        ensures kept { IfOk result (λ _. IsValidCacheForContext asked.now self.new) }
        ensures permits { IfOk result (λ allowed. DecidesWhetherListAllows OfRunas asked.now.policy.now (is_user_atom_match asked.now.request.now.target) (members_of_view users.now) allowed) }
    {
        is_allowed_by_list::<UserListKind>(
            &mut self.targets,
            asked.policy,
            Kind::Runas,
            users,
            &asked.request.target,
        )
    }

    /// Returns whether the list `groups` of a Runas_Spec allows the group that is asked for, if one is. Where the list says nothing,
    /// the group has to be one of the target's.
    fn allows_requested_group(
        &mut self,
        asked: &RequestContext<'a, '_>,
        groups: &RowsOfTable<'_, MemberRow>,
    ) -> Result<bool, AllocError>
        requires question { IsValidCacheForContext asked.now self.old }
        requires straight { LeadsToNoCyclicAlias OfRunas asked.now.policy.now (members_of_view groups.now) }
        ensures kept { IfOk result (λ _. IsValidCacheForContext asked.now self.new) }
        ensures permits { IfOk result (λ allowed. DecidesWhetherRunasGroupsAllow asked.now.policy.now asked.now.request.now.target asked.now.request.now.target_group (members_of_view groups.now) allowed) }
    {
        let request = asked.request;
        let Some(group) = &request.target_group else {
            return Ok(true);
        };
        let hit = find_last_hit_in_list::<RunasGroupListKind>(
            &mut self.groups,
            asked.policy,
            Kind::Runas,
            groups,
            group,
        )?;
        match Verdict::from_last_hit(hit) {
            Verdict::Allow => Ok(true),
            Verdict::Deny => Ok(false),
            Verdict::Unsaid => Ok(self.own),
        }
    }
}

/// Returns whether no group is asked for, or it is one of `groups`.
fn is_requested_group_absent_or_among(groups: &Groups, group: &Option<Group>) -> bool
    ensures { result ≡ is_group_absent_or_among groups.now group.now }
{
    match group {
        Some(group) => groups.has_number(group.gid),
        None => true,
    }
}
