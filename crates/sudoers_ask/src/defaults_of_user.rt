//! The Defaults lines that hold of a user on a host.

ghost use Rattle.std.specs.Prelude.{IfOk};
ghost use Rattle.sudoers_grammar.specs.declared.node.Kind.TheVariants.{User as OfUsers, Host as OfHosts};
ghost use Rattle.sudoers_match_member.specs.Hits.{is_user_atom_match, is_host_atom_match};
ghost use Rattle.sudoers_match_list.specs.Search.{IsValidVerdictCache};

use crate::list_allowing::is_list_allowing;
use crate::placed_text::{PlacedText, WalkPlace, append_placed_lines};
use crate::rights_fault::RightsFault;
use std::alloc::{AllocError, Global};
use sudoers_cvt_spell::append_defaults;
use sudoers_line_rows::{Node, ParamRow, RowsOfTable, Scope};
use sudoers_match_list::{AcyclicWalk, AliasVerdictCache, AskFault, HostListKind, UserListKind};
use sudoers_match_member::Who;
use sudoers_tree::{Kind, Policy};

/// Of which runs of a user a Defaults line holds.
#[derive(Clone, Copy, PartialEq, Eq)]
enum DefaultsReach {
    /// Of all.
    All,
    /// Of those of some commands, or as some users.
    Some,
    /// Of none.
    None,
}

/// The Defaults lines that hold of a user: those of all his commands, and those of some commands, or as some users.
#[derive(Drop)]
pub struct DefaultsOfUser {
    pub of_all: Vec<PlacedText>,
    pub of_some: Vec<PlacedText>,
}

/// Returns the Defaults lines of the walk `acyclic` that hold of `who`.
///
/// # Errors
///
/// `Cycle`: a list leads to a cyclic alias. `NoMemory`: memory ran out.
pub fn list_defaults_of_user<'a>(
    alloc: Global,
    acyclic: &AcyclicWalk<'a>,
    who: &Who,
) -> Result<DefaultsOfUser, RightsFault> {
    Ok(DefaultsOfUser {
        of_all: list_defaults_with_reach(alloc, acyclic, who, DefaultsReach::All)?,
        of_some: list_defaults_with_reach(alloc, acyclic, who, DefaultsReach::Some)?,
    })
}

/// Appends the Defaults lines `defaults` of `policy`, each with its place, in two lists.
///
/// # Errors
///
/// Memory ran out.
pub fn append_defaults_of_user(
    alloc: Global,
    out: &mut Vec<u8>,
    policy: &Policy,
    defaults: &DefaultsOfUser,
) -> Result<(), AllocError> {
    if !defaults.of_all.is_empty() {
        out.extend_from_slice(b"Defaults:\n")?;
        append_placed_lines(alloc, out, policy, defaults.of_all.as_slice())?;
    }
    if !defaults.of_some.is_empty() {
        out.extend_from_slice(b"Defaults for some commands or runas users:\n")?;
        append_placed_lines(alloc, out, policy, defaults.of_some.as_slice())?;
    }
    Ok(())
}

/// Returns the Defaults lines with the reach `wanted` for `who`.
fn list_defaults_with_reach<'a>(
    alloc: Global,
    acyclic: &AcyclicWalk<'a>,
    who: &Who,
    wanted: DefaultsReach,
) -> Result<Vec<PlacedText>, RightsFault> {
    let mut out = Vec::new(alloc);
    let mut users = acyclic.make_verdict_cache(alloc)?;
    let mut hosts = acyclic.make_verdict_cache(alloc)?;
    let lines = acyclic.lines();
    for (line, row) in lines.rows.iter().enumerate() {
        if let Node::Defaults { scope, params } = lines.tables.node_of_row(&row.node) {
            let reach = find_reach_of_scope(&mut users, &mut hosts, acyclic, who, &scope)?;
            if reach == wanted {
                append_defaults_line(alloc, &mut out, line, &scope, &params)?;
            }
        }
    }
    Ok(out)
}

/// Appends a Defaults line, which has the number `line`.
fn append_defaults_line(
    alloc: Global,
    out: &mut Vec<PlacedText>,
    line: usize,
    scope: &Option<Scope<'_>>,
    params: &RowsOfTable<'_, ParamRow>,
) -> Result<(), AllocError> {
    let place = WalkPlace {
        line,
        start: 0,
        stop: usize::MAX,
    };
    let mut text = Vec::new(alloc);
    append_defaults(alloc, &mut text, scope, params)?;
    out.push(PlacedText { place, text })?;
    Ok(())
}

/// Returns of which runs of `who` a setting with this scope holds.
fn find_reach_of_scope<'a>(
    users: &mut AliasVerdictCache<'a>,
    hosts: &mut AliasVerdictCache<'a>,
    policy: &AcyclicWalk<'a>,
    who: &Who,
    scope: &Option<Scope<'_>>,
) -> Result<DefaultsReach, AskFault>
    requires users { IsValidVerdictCache OfUsers policy.now (is_user_atom_match who.now.user) users.old }
    requires hosts { IsValidVerdictCache OfHosts policy.now (is_host_atom_match who.now) hosts.old }
    ensures users { IfOk result (λ _. IsValidVerdictCache OfUsers policy.now (is_user_atom_match who.now.user) users.new) }
    ensures hosts { IfOk result (λ _. IsValidVerdictCache OfHosts policy.now (is_host_atom_match who.now) hosts.new) }
{
    let Some(scope) = scope else {
        return Ok(DefaultsReach::All);
    };
    match scope.kind {
        Kind::User => {
            let user = &who.user;
            Ok(reach_if(is_list_allowing::<UserListKind>(
                users,
                policy,
                Kind::User,
                &scope.members,
                user,
            )?))
        }
        Kind::Host => Ok(reach_if(is_list_allowing::<HostListKind>(
            hosts,
            policy,
            Kind::Host,
            &scope.members,
            who,
        )?)),
        Kind::Runas | Kind::Cmnd => Ok(DefaultsReach::Some),
    }
}

/// Returns the reach of a setting whose list of users or hosts allows, if `allows`.
fn reach_if(allows: bool) -> DefaultsReach {
    if allows {
        DefaultsReach::All
    } else {
        DefaultsReach::None
    }
}
