//! The scopes of Defaults lines that set runas_default, and whether a scope could be turned.

ghost use Rattle.std.specs.Prelude.{◌≡◌, List, OnOk, IfOk, Some};
ghost use Rattle.sudoers_line_rows.specs.View.{parameter_of_view, parameters_of_view, scope_of_view};
ghost use Rattle.sudoers_match_list.specs.Flat.{SignedAtom};
ghost use Rattle.sudoers_match_member.specs.declared.request.Request.{Request as RequestOf};
ghost use Rattle.std.specs.Prelude.{◌∷◌, ℕ, map};
ghost use Rattle.std.specs.Option.{is_some};
ghost use Rattle.sudoers_line_rows.specs.View.{node_of_view};
ghost use Rattle.sudoers_match.specs.Default.{runas_default_in_param, runas_defaults_in_node, runas_defaults_in_params, setting_with_scope};
ghost use Rattle.sudoers_undecided.specs.MatchTests.{match_tests_of_request, undecided_by_files_or_paths};
ghost use Rattle.sudoers_undecided.specs.RowParts.{CouldTurnRunasDefault};
ghost use Rattle.sudoers_undecided.specs.internal.Counted.{AreAliasesOfRequest, AreHostAliases, AreScopeListsTurned, AreUserAliases, IsWantedOfScopes};
ghost use Rattle.sudoers_undecided.specs.internal.Decided.{DecidesAllAliases};
ghost use Rattle.sudoers_undecided.specs.internal.Settings.{CountsSettings, IsScopeStanding, has_item};

use crate::decided_aliases::{DecidedAliases, PartStanding};
use crate::request_aliases::RequestAliases;
use crate::user_and_host_lists::UserAndHostLists;
use std::alloc::{AllocError, Global};
use sudoers_check::DefinitionNumbers;
use sudoers_match_list::AcyclicWalk;
use sudoers_tree::{Kind, Node, Operator, Param, ParamRow, RowsOfTable, Scope, Setting};

/// Returns whether `param` sets runas_default.
fn is_runas_default_setting(param: &Param<'_>) -> bool
    ensures { result ≡ is_some (runas_default_in_param (parameter_of_view param.now)) }
{
    if param.name != b"runas_default".as_slice() {
        return false;
    }
    if param.negated {
        return true;
    }
    match param.setting {
        Some(
            Setting {
                operator: Operator::Set,
                ..
            },
        ) => true,
        _ => false,
    }
}

/// Returns whether one of `params` sets runas_default.
fn has_runas_default_setting(params: &RowsOfTable<'_, ParamRow>) -> bool
    ensures { result ≡ has_item (runas_defaults_in_params (parameters_of_view params.now)) }
{
    let tables = params.tables;
    for row in params.rows {
        if is_runas_default_setting(&tables.parameter_of_row(row)) {
            return true;
        }
    }
    false
}

/// Returns whether a Defaults line with the scope `scope` is for the user on the host, and whether that could be turned. `users` and
/// `hosts` say what the aliases of these kinds say.
pub fn standing_of_scope(
    numbers: &DefinitionNumbers<'_>,
    users: &DecidedAliases<'_>,
    hosts: &DecidedAliases<'_>,
    scope: &Scope<'_>,
) -> PartStanding
    requires users { DecidesAllAliases numbers.now.walk users.now }
    requires hosts { DecidesAllAliases numbers.now.walk hosts.now }
    ensures { (r : RequestOf) → AreUserAliases numbers.now.walk r users.now → AreHostAliases numbers.now.walk r hosts.now
        → IsScopeStanding numbers.now.walk r scope.now result }
{
    match scope.kind {
        Kind::User => users.standing_of_list(numbers, &scope.members, false),
        Kind::Host => hosts.standing_of_list(numbers, &scope.members, false),
        Kind::Runas | Kind::Cmnd => PartStanding::from_fact(false),
    }
}

/// Takes a setting with the scope `scope` into account: removes the lists before it from `lists` if it counts, and adds its own if that
/// could be turned.
fn add_setting<'a>(
    lists: &mut UserAndHostLists<'a>,
    numbers: &DefinitionNumbers<'_>,
    aliases: &RequestAliases<'_>,
    line: usize,
    scope: &Scope<'a>,
) -> Result<(), AllocError>
    requires users { DecidesAllAliases numbers.now.walk aliases.now.users }
    requires hosts { DecidesAllAliases numbers.now.walk aliases.now.hosts }
    ensures { OnOk result ((r : RequestOf) → AreAliasesOfRequest numbers.now.walk r aliases.now → (name : List ℕ) (names : List (List ℕ))
        → CountsSettings numbers.now.walk r lists.old lists.new (map (setting_with_scope (Some (scope_of_view scope.now))) (name ∷ names))) }
{
    let standing = standing_of_scope(numbers, &aliases.users, &aliases.hosts, scope);
    if standing.holds {
        lists.clear();
    }
    lists.add_scope_list(line, scope, standing)?;
    Ok(())
}

/// Takes the settings of the line with the number `line` into account, which says `node`.
fn add_settings_of_node<'a>(
    lists: &mut UserAndHostLists<'a>,
    numbers: &DefinitionNumbers<'_>,
    aliases: &RequestAliases<'_>,
    line: usize,
    node: &Node<'a>,
) -> Result<(), AllocError>
    requires users { DecidesAllAliases numbers.now.walk aliases.now.users }
    requires hosts { DecidesAllAliases numbers.now.walk aliases.now.hosts }
    ensures { OnOk result ((r : RequestOf) → AreAliasesOfRequest numbers.now.walk r aliases.now
        → CountsSettings numbers.now.walk r lists.old lists.new (runas_defaults_in_node (node_of_view node.now))) }
{
    let Node::Defaults { scope, params } = node else {
        return Ok(());
    };
    let sets = has_runas_default_setting(params);
    if !sets {
        return Ok(());
    }
    match scope {
        Some(scope) => {
            add_setting(lists, numbers, aliases, line, scope)?;
            Ok(())
        }
        None => {
            lists.clear();
            Ok(())
        }
    }
}

/// Returns the scopes that undecided members could turn, of settings of runas_default behind which none counts.
///
/// # Errors
///
/// Memory ran out.
pub fn find_scopes_that_could_turn<'a>(
    alloc: Global,
    policy: &AcyclicWalk<'a>,
    aliases: &RequestAliases<'_>,
) -> Result<UserAndHostLists<'a>, AllocError>
    requires users { DecidesAllAliases policy.now aliases.now.users }
    requires hosts { DecidesAllAliases policy.now aliases.now.hosts }
    ensures scopes { IfOk result (λ scopes. (r : RequestOf) → AreAliasesOfRequest policy.now r aliases.now
        → (s : SignedAtom) → CouldTurnRunasDefault policy.now (undecided_by_files_or_paths r) (match_tests_of_request r) s → IsWantedOfScopes policy.now r scopes s) }
    ensures only { IfOk result (λ scopes. (r : RequestOf) → AreAliasesOfRequest policy.now r aliases.now
        → (s : SignedAtom) → IsWantedOfScopes policy.now r scopes s → CouldTurnRunasDefault policy.now (undecided_by_files_or_paths r) (match_tests_of_request r) s) }
    ensures turned { IfOk result (λ scopes. (r : RequestOf) → AreAliasesOfRequest policy.now r aliases.now → AreScopeListsTurned policy.now r scopes) }
{
    let numbers = policy.definition_numbers();
    let mut scopes = UserAndHostLists {
        users: Vec::new(alloc),
        hosts: Vec::new(alloc),
    };
    let lines = policy.lines();
    for (line, row) in lines.rows.iter().enumerate() {
        let node = lines.tables.node_of_row(&row.node);
        add_settings_of_node(&mut scopes, numbers, aliases, line, &node)?;
    }
    Ok(scopes)
}
