//! As whom a command runs where nothing else is said.

ghost use Rattle.std.specs.Prelude.{◌≡◌, ◌⊎◌, [], false, ℕ, List, IfOk, IfErr};
ghost use Rattle.std.specs.Option.{option_map};
ghost use Rattle.std.specs.Borrow.{Bor};
ghost use Rattle.sudoers_grammar.specs.declared.node.Kind.TheVariants.{User as OfUsers, Host as OfHosts};
ghost use Rattle.sudoers_line_rows.specs.View.{node_of_view, parameter_of_view, parameters_of_view, scope_of_view};
ghost use Rattle.sudoers_match_member.specs.Hits.{is_user_atom_match, is_host_atom_match};
ghost use Rattle.sudoers_check.specs.Chains.{HasCyclicAliasReachedFromSpecOrDefaults};
ghost use Rattle.sudoers_match_list.specs.declared.verdict.AskFault.TheVariants.{Cycle, NoMemory};
ghost use Rattle.sudoers_match_list.specs.Search.{IsValidVerdictCache};
ghost use Rattle.sudoers_match.specs.Last.{last_item_of};
ghost use Rattle.sudoers_match.specs.Default.{IsRunasDefault, runas_default_in_param, runas_defaults_in_node, runas_defaults_in_params, runas_defaults_of_lines};
ghost use Rattle.sudoers_match.specs.internal.Asked.{DecidesWhetherScopeApplies, IsLastRunasDefaultOfLine};
ghost use Rattle.sudoers_match.specs.internal.Straight.{ScopeLeadsToNoCycle};

use crate::allowing::is_allowed_by_list;
use std::alloc::{AllocError, Global};
use sudoers_match_list::{AcyclicWalk, AliasVerdictCache, AskFault, HostListKind, UserListKind};
use sudoers_match_member::Who;
use sudoers_tree::{Kind, Node, Operator, Param, ParamRow, Policy, RowsOfTable, Scope, Setting};

/// Returns the value to which `param` sets runas_default, if it sets it.
pub fn read_runas_default_param<'a>(param: &Param<'a>) -> Option<&'a [u8]>
    ensures { option_map (λ (name : Bor (List ℕ)). name.now) result ≡ runas_default_in_param (parameter_of_view param.now) }
{
    if param.name != b"runas_default".as_slice() {
        return None;
    }
    if param.negated {
        return Some(b"root");
    }
    match param.setting {
        Some(
            Setting {
                operator: Operator::Set,
                value,
            },
        ) => Some(value),
        _ => None,
    }
}

/// Returns the value of the last setting of runas_default.
fn find_last_runas_default_in_params<'a>(params: &RowsOfTable<'a, ParamRow>) -> Option<&'a [u8]>
    ensures { option_map (λ (name : Bor (List ℕ)). name.now) result ≡ last_item_of (runas_defaults_in_params (parameters_of_view params.now)) }
{
    let mut latest = None;
    let tables = params.tables;
    for row in params.rows {
        latest = read_runas_default_param(&tables.parameter_of_row(row)).or(latest);
    }
    latest
}

/// Returns the name of the user as whom a command runs for `who` where nothing else is said: the last setting of runas_default
/// that is for this user and host, or `root` (sudoers(5), runas_default).
///
/// # Errors
///
/// `Cycle`: a reachable alias is cyclic. `NoMemory`: memory ran out.
pub fn runas_default<'a>(alloc: Global, policy: &'a Policy, who: &Who) -> Result<&'a [u8], AskFault>
    ensures name { IfOk result (λ name. IsRunasDefault policy.now.walk.lines who.now name.now) }
    ensures straight { IfOk result (λ _. HasCyclicAliasReachedFromSpecOrDefaults policy.now.walk.lines → ⊥) }
    ensures fault { IfErr result (λ fault. (fault ≡ NoMemory) ⊎ ((fault ≡ Cycle) × HasCyclicAliasReachedFromSpecOrDefaults policy.now.walk.lines)) }
{
    let policy = AcyclicWalk::new(alloc, policy.walk())?;
    Ok(find_runas_default_for(alloc, &policy, who)?)
}

/// Returns whether a Defaults line of `policy` sets runas_default, for whomever.
pub fn has_runas_default(policy: &AcyclicWalk<'_>) -> bool
    ensures { result ≡ false → runas_defaults_of_lines policy.now ≡ [] }
{
    let lines = policy.lines();
    for row in lines.rows {
        if sets_runas_default(&lines.tables.node_of_row(&row.node)) {
            return true;
        }
    }
    false
}

/// Returns whether `node` is a Defaults line that sets runas_default.
fn sets_runas_default(node: &Node<'_>) -> bool
    ensures { result ≡ false → runas_defaults_in_node (node_of_view node.now) ≡ [] }
{
    match node {
        Node::Defaults { params, .. } => find_last_runas_default_in_params(params).is_some(),
        _ => false,
    }
}

/// Returns the name of the user as whom a command runs for `who` where nothing else is said, as [`runas_default`] does.
///
/// # Errors
///
/// Memory ran out.
pub fn find_runas_default_for<'a>(
    alloc: Global,
    policy: &AcyclicWalk<'a>,
    who: &Who,
) -> Result<&'a [u8], AllocError>
    ensures { IfOk result (λ name. IsRunasDefault policy.now who.now name.now) }
{
    // laws
    policy.is_acyclic();
    let mut users = policy.make_verdict_cache(alloc)?;
    let mut hosts = policy.make_verdict_cache(alloc)?;
    let mut name: &[u8] = b"root";
    let lines = policy.lines();
    for row in lines.rows {
        if let Node::Defaults { scope, params } = lines.tables.node_of_row(&row.node) {
            let latest = find_line_runas_default(
                &mut users, &mut hosts, policy, who, &scope, &params,
            )?;
            name = latest.unwrap_or(name);
        }
    }
    Ok(name)
}

/// Returns the value of the last setting of runas_default in a Defaults line, if the line is for `who`.
fn find_line_runas_default<'a>(
    users: &mut AliasVerdictCache<'a>,
    hosts: &mut AliasVerdictCache<'a>,
    policy: &AcyclicWalk<'a>,
    who: &Who,
    scope: &Option<Scope<'_>>,
    params: &RowsOfTable<'a, ParamRow>,
) -> Result<Option<&'a [u8]>, AllocError>
    requires users { IsValidVerdictCache OfUsers policy.now (is_user_atom_match who.now.user) users.old }
    requires hosts { IsValidVerdictCache OfHosts policy.now (is_host_atom_match who.now) hosts.old }
    requires straight { ScopeLeadsToNoCycle policy.now (option_map scope_of_view scope.now) }
    ensures users { IfOk result (λ _. IsValidVerdictCache OfUsers policy.now (is_user_atom_match who.now.user) users.new) }
    ensures hosts { IfOk result (λ _. IsValidVerdictCache OfHosts policy.now (is_host_atom_match who.now) hosts.new) }
    ensures latest { IfOk result (λ latest. IsLastRunasDefaultOfLine policy.now who.now (option_map scope_of_view scope.now) (parameters_of_view params.now) (option_map (λ (name : Bor (List ℕ)). name.now) latest)) }
{
    let Some(name) = find_last_runas_default_in_params(params) else {
        return Ok(None);
    };
    if is_defaults_scope_for_user(users, hosts, policy, who, scope)? {
        Ok(Some(name))
    } else {
        Ok(None)
    }
}

/// Returns whether a setting with this scope applies to `who`.
fn is_defaults_scope_for_user<'a>(
    users: &mut AliasVerdictCache<'a>,
    hosts: &mut AliasVerdictCache<'a>,
    policy: &AcyclicWalk<'a>,
    who: &Who,
    scope: &Option<Scope<'_>>,
) -> Result<bool, AllocError>
    requires users { IsValidVerdictCache OfUsers policy.now (is_user_atom_match who.now.user) users.old }
    requires hosts { IsValidVerdictCache OfHosts policy.now (is_host_atom_match who.now) hosts.old }
    requires straight { ScopeLeadsToNoCycle policy.now (option_map scope_of_view scope.now) }
    ensures users { IfOk result (λ _. IsValidVerdictCache OfUsers policy.now (is_user_atom_match who.now.user) users.new) }
    ensures hosts { IfOk result (λ _. IsValidVerdictCache OfHosts policy.now (is_host_atom_match who.now) hosts.new) }
    ensures counted { IfOk result (λ counted. DecidesWhetherScopeApplies policy.now who.now (option_map scope_of_view scope.now) counted) }
{
    let Some(scope) = scope else {
        return Ok(true);
    };
    match scope.kind {
        Kind::User => is_allowed_by_list::<UserListKind>(
            users,
            policy,
            Kind::User,
            &scope.members,
            &who.user,
        ),
        Kind::Host => is_allowed_by_list::<HostListKind>(
            hosts,
            policy,
            Kind::Host,
            &scope.members,
            who,
        ),
        Kind::Runas | Kind::Cmnd => Ok(false),
    }
}
