//! The members that were not decided in an answer: from the row that decides on, part by part.

ghost use Rattle.std.specs.Prelude.{◌≡◌, ◌⊎◌, List, true, IfOk, OnOk};
ghost use Rattle.sudoers_check.specs.Chain.{ListHasElement};
ghost use Rattle.sudoers_match_list.specs.Flat.{SignedAtom};
ghost use Rattle.sudoers_match.specs.Default.{IsRunasDefault};
ghost use Rattle.sudoers_undecided.specs.declared.request_part.RequestPart.{RequestPart as PartOf};
ghost use Rattle.sudoers_undecided.specs.declared.request_part.RequestPart.TheVariants.{RunasUsers as OfRunasUsers};
ghost use Rattle.sudoers_undecided.specs.declared.undecided_member.UndecidedMember.{UndecidedMember as MemberFound};
ghost use Rattle.sudoers_undecided.specs.FoundMembers.{AreUndecidedMembers, HasAtomInPart, HasEachUndecidedAtom, IsAtomInPart};
ghost use Rattle.sudoers_undecided.specs.internal.Counted.{AreCountedListsFlat, CoversAtom, IsAskedOfPolicy, IsWantedOfScopes};
ghost use Rattle.sudoers_undecided.specs.internal.Definitions.{HoldsDefinitions};

use crate::asked_request::AskedRequest;
use crate::counted_lists::CountedLists;
use crate::default_scopes::find_scopes_that_could_turn;
use crate::definitions::{DefinitionOnLine, OrderedDefinitions};
use crate::member_search::MemberSearch;
use crate::request_aliases::RequestAliases;
use crate::request_part::RequestPart;
use crate::spec_rows::count_lists_of_policy;
use crate::undecided_member::UndecidedMember;
use std::alloc::{AllocError, Global};
use sudoers_match::make_command_with_joined_arguments;
use sudoers_match_list::AcyclicWalk;
use sudoers_match_member::Request;

/// Returns the members of `policy` that were not decided in the answer to `request`, and could have changed it: each once in each part that
/// it could turn, by lines, and by places in a line. `default` is the user as whom a command runs where nothing else is said.
///
/// # Errors
///
/// Memory ran out.
pub fn list_undecided_members<'a>(
    alloc: Global,
    policy: &AcyclicWalk<'a>,
    request: &Request,
    default: &'a [u8],
) -> Result<Vec<UndecidedMember<'a>>, AllocError>
    requires { IsRunasDefault policy.now request.now.who default.now }
    ensures each { IfOk result (λ found. HasEachUndecidedAtom policy.now request.now found.items) }
    ensures only { IfOk result (λ found. AreUndecidedMembers policy.now request.now found.items) }
{
    let command = make_command_with_joined_arguments(alloc, request)?;
    let definitions = OrderedDefinitions::new(alloc, policy)?;
    let numbers = policy.definition_numbers();
    let aliases = RequestAliases::new(alloc, numbers, &definitions, request, &command)?;
    let scopes = find_scopes_that_could_turn(alloc, policy, &aliases)?;
    let asked = AskedRequest {
        policy,
        request,
        aliases: &aliases,
        default,
        scopes: &scopes,
    };
    let definitions = definitions.definitions.as_slice();
    let mut found = collect_members(alloc, &asked, definitions)?;
    found.sort_by_key(|member| (member.line, member.member.start, member.part))?;
    Ok(found)
}

/// Returns the members that were not decided in the answer to a request, in no order.
fn collect_members<'a>(
    alloc: Global,
    asked: &AskedRequest<'a, '_>,
    definitions: &[DefinitionOnLine<'a>],
) -> Result<Vec<UndecidedMember<'a>>, AllocError>
    requires definitions { HoldsDefinitions asked.now.policy.now definitions.now }
    requires asked { IsAskedOfPolicy asked.now }
    ensures each { IfOk result (λ found. HasEachUndecidedAtom asked.now.policy.now asked.now.request.now found.items) }
    ensures only { IfOk result (λ found. AreUndecidedMembers asked.now.policy.now asked.now.request.now found.items) }
{
    // laws
    asked.policy.is_acyclic();
    let counted = count_lists_of_policy(alloc, asked)?;
    let mut found = Vec::new(alloc);
    append_members_of_counted(&mut found, alloc, asked, definitions, &counted)?;
    Ok(found)
}

/// Appends the undecided members of the lists that count.
fn append_members_of_counted<'a>(
    found: &mut Vec<UndecidedMember<'a>>,
    alloc: Global,
    asked: &AskedRequest<'a, '_>,
    definitions: &[DefinitionOnLine<'a>],
    counted: &CountedLists<'a>,
) -> Result<(), AllocError>
    requires definitions { HoldsDefinitions asked.now.policy.now definitions.now }
    requires asked { IsAskedOfPolicy asked.now }
    ensures found { OnOk result ((p : PartOf) (s : SignedAtom) → CoversAtom asked.now.policy.now asked.now.request.now asked.now.scopes.now counted.now p s → HasAtomInPart found.new.items p s) }
    ensures only { OnOk result (AreCountedListsFlat asked.now.policy.now asked.now.request.now counted.now → (u : MemberFound) → ListHasElement found.new.items u
        → ListHasElement found.old.items u ⊎ ((s : SignedAtom) × CoversAtom asked.now.policy.now asked.now.request.now asked.now.scopes.now counted.now u.part s × IsAtomInPart u.part s u)) }
{
    let aliases = asked.aliases;
    let search = MemberSearch {
        policy: asked.policy,
        definitions,
    };
    let lists = counted.users.as_slice();
    search.append_members(found, alloc, RequestPart::Users, &aliases.users, lists)?;
    let lists = counted.hosts.as_slice();
    search.append_members(found, alloc, RequestPart::Hosts, &aliases.hosts, lists)?;
    let lists = counted.runas_users.as_slice();
    search.append_members(
        found,
        alloc,
        RequestPart::RunasUsers,
        &aliases.targets,
        lists,
    )?;
    let lists = counted.runas_groups.as_slice();
    search.append_members(
        found,
        alloc,
        RequestPart::RunasGroups,
        &aliases.groups,
        lists,
    )?;
    let lists = counted.commands.as_slice();
    search.append_members(found, alloc, RequestPart::Command, &aliases.commands, lists)?;
    append_members_of_scopes(found, alloc, asked, definitions, counted.default)?;
    Ok(())
}

/// Appends the undecided members of the scopes of settings of runas_default, if they are wanted.
fn append_members_of_scopes<'a>(
    found: &mut Vec<UndecidedMember<'a>>,
    alloc: Global,
    asked: &AskedRequest<'a, '_>,
    definitions: &[DefinitionOnLine<'a>],
    wanted: bool,
) -> Result<(), AllocError>
    requires definitions { HoldsDefinitions asked.now.policy.now definitions.now }
    requires asked { IsAskedOfPolicy asked.now }
    ensures kept { OnOk result ((u : MemberFound) → ListHasElement found.old.items u → ListHasElement found.new.items u) }
    ensures found { OnOk result (wanted ≡ true → (s : SignedAtom) → IsWantedOfScopes asked.now.policy.now asked.now.request.now asked.now.scopes.now s → HasAtomInPart found.new.items OfRunasUsers s) }
    ensures only { OnOk result ((u : MemberFound) → ListHasElement found.new.items u
        → ListHasElement found.old.items u ⊎ ((wanted ≡ true) × ((s : SignedAtom) × IsWantedOfScopes asked.now.policy.now asked.now.request.now asked.now.scopes.now s × IsAtomInPart OfRunasUsers s u))) }
{
    if !wanted {
        return Ok(());
    }
    let aliases = asked.aliases;
    let search = MemberSearch {
        policy: asked.policy,
        definitions,
    };
    let part = RequestPart::RunasUsers;
    let users = asked.scopes.users.as_slice();
    search.append_members(found, alloc, part, &aliases.users, users)?;
    let hosts = asked.scopes.hosts.as_slice();
    search.append_members(found, alloc, part, &aliases.hosts, hosts)?;
    Ok(())
}
