//! Which member decides where a rule names an alias.

ghost use Rattle.std.specs.Prelude.{◌≡◌, ◌↔◌, ◌∷◌, [], IsTrue, length, Some, IfOk, IfSome};
ghost use Rattle.std.specs.Option.{option_map};
ghost use Rattle.sudoers_grammar.specs.declared.node.Atom.TheVariants.{Alias as AliasOf};
ghost use Rattle.sudoers_grammar.specs.declared.node.Kind.TheVariants.{Cmnd as OfCommands};
ghost use Rattle.sudoers_line_rows.specs.Tables.{member_in_tables};
ghost use Rattle.sudoers_line_rows.specs.View.{atom_of_view, member_of_view, members_of_view};
ghost use Rattle.sudoers_tree.specs.Definition.{definitions_of_lines, members_of_alias_definition};
ghost use Rattle.sudoers_match_list.specs.Flat.{alias_members_of_atom};
ghost use Rattle.sudoers_match_list.specs.Search.{IsValidVerdictCache};
ghost use Rattle.sudoers_match.specs.Last.{IsLastItemWith};
ghost use Rattle.sudoers_match.specs.Spellings.{is_spelled_command_match};
ghost use Rattle.sudoers_list.specs.internal.Going.{IsFlattenableCommandList, IsAliasGoneAfterExpansions};
ghost use Rattle.sudoers_list.specs.Inner.{IsDecidingAliasMember, IsInnermostDecidingMember, ListMatchesCommand, MemberMatchesCommand};
ghost use Rattle.sudoers_list.specs.internal.Inside.{alias_member_of_view};

use std::alloc::{AllocError, Global};
use sudoers_grammar::Kind;
use sudoers_line_rows::{BorrowedAtom, Member, MemberRow, RowsOfTable, Tables};
use sudoers_match::{CommandSpellings, SpelledCommandListKind};
use sudoers_match_list::{AcyclicWalk, AliasVerdictCache, LastHitOrCycle};

/// A member of an alias.
#[derive(Clone, Copy)]
pub struct DecidingAliasMember<'a> {
    pub name: &'a [u8],
    pub member: Member<'a>,
}

/// An alias of commands, and its members.
#[derive(Clone, Copy)]
struct CommandAlias<'a> {
    name: &'a [u8],
    members: RowsOfTable<'a, MemberRow>,
}

/// Returns the alias of commands that `member` names, if it is defined.
fn find_command_alias<'a>(policy: &AcyclicWalk<'a>, member: &Member<'a>) -> Option<CommandAlias<'a>>
    ensures members { option_map (λ alias. members_of_view alias.members) result ≡ alias_members_of_atom OfCommands policy.now (atom_of_view member.now.atom) }
    ensures name { IfSome result (λ alias. atom_of_view member.now.atom ≡ AliasOf alias.name.now) }
{
    let BorrowedAtom::Alias(name) = member.atom else {
        return None;
    };
    let members = policy.walk().members_of_alias(Kind::Cmnd, name)?;
    Some(CommandAlias { name, members })
}

/// Returns whether the member of `row` says something of `command`.
fn is_member_matching_command<'a>(
    verdicts: &mut AliasVerdictCache<'a>,
    policy: &AcyclicWalk<'a>,
    tables: &'a Tables,
    row: &MemberRow,
    command: &CommandSpellings,
) -> Result<bool, AllocError>
    requires verdicts { IsValidVerdictCache OfCommands policy.now (is_spelled_command_match command.now) verdicts.old }
    requires flat { IsFlattenableCommandList policy.now (member_in_tables tables.now row.now ∷ []) }
    ensures kept { IfOk result (λ _. IsValidVerdictCache OfCommands policy.now (is_spelled_command_match command.now) verdicts.new) }
    ensures speaks { IfOk result (λ speaks. IsTrue speaks ↔ MemberMatchesCommand policy.now (is_spelled_command_match command.now) (member_in_tables tables.now row.now)) }
{
    // laws
    policy.is_acyclic();
    let member = RowsOfTable {
        tables,
        rows: std::slice::from_ref(row),
    };
    match verdicts.find_last_hit::<SpelledCommandListKind>(
        policy.definition_numbers(),
        Kind::Cmnd,
        &member,
        command,
    )? {
        LastHitOrCycle::Latest(hit) => Ok(hit.is_some()),
        LastHitOrCycle::Cyclic => unreachable!(),
    }
}

/// Returns the last member of `members` that says something of `command`, if there is one.
fn find_last_matching_member<'a>(
    verdicts: &mut AliasVerdictCache<'a>,
    policy: &AcyclicWalk<'a>,
    members: &RowsOfTable<'a, MemberRow>,
    command: &CommandSpellings,
) -> Result<Option<Member<'a>>, AllocError>
    requires verdicts { IsValidVerdictCache OfCommands policy.now (is_spelled_command_match command.now) verdicts.old }
    requires flat { IsFlattenableCommandList policy.now (members_of_view members.now) }
    ensures kept { IfOk result (λ _. IsValidVerdictCache OfCommands policy.now (is_spelled_command_match command.now) verdicts.new) }
    ensures last { IfOk result (λ last. IsLastItemWith (MemberMatchesCommand policy.now (is_spelled_command_match command.now)) (members_of_view members.now) (option_map member_of_view last)) }
{
    let mut last = None;
    let tables = members.tables;
    for row in members.rows {
        let member = tables.member_of_row(row);
        if is_member_matching_command(verdicts, policy, tables, row, command)? {
            last = Some(member);
        }
    }
    Ok(last)
}

/// Returns the member that decides of `command`, and the innermost alias in which it stands, where a rule names the alias `outer`.
fn find_innermost_member<'a>(
    verdicts: &mut AliasVerdictCache<'a>,
    policy: &AcyclicWalk<'a>,
    outer: &CommandAlias<'a>,
    command: &CommandSpellings,
) -> Result<DecidingAliasMember<'a>, AllocError>
    requires verdicts { IsValidVerdictCache OfCommands policy.now (is_spelled_command_match command.now) verdicts.old }
    requires defined { members_of_alias_definition OfCommands outer.now.name.now policy.now ≡ Some (members_of_view outer.now.members) }
    requires says { ListMatchesCommand policy.now (is_spelled_command_match command.now) (members_of_view outer.now.members) }
    requires within { IsAliasGoneAfterExpansions policy.now (length (definitions_of_lines policy.now)) outer.now.name.now }
    ensures { IfOk result (λ inner. IsInnermostDecidingMember policy.now (is_spelled_command_match command.now) outer.now.name.now (alias_member_of_view inner)) }
{
    let mut alias = *outer;
    let mut times = policy.definition_numbers().len();
    while times > 0 {
        let Some(member) = find_last_matching_member(verdicts, policy, &alias.members, command)?
        else {
            unreachable!()
        };
        let Some(next) = find_command_alias(policy, &member) else {
            return Ok(DecidingAliasMember {
                name: alias.name,
                member,
            });
        };
        alias = next;
        times -= 1;
    }
    unreachable!()
}

/// Returns the member that decides of `command`, and the innermost alias in which it stands, if `member` names an alias.
///
/// # Errors
///
/// Memory ran out.
pub fn find_deciding_alias_member<'a>(
    alloc: Global,
    policy: &AcyclicWalk<'a>,
    command: &CommandSpellings,
    member: &Member<'a>,
) -> Result<Option<DecidingAliasMember<'a>>, AllocError>
    requires { MemberMatchesCommand policy.now (is_spelled_command_match command.now) (member_of_view member.now) }
    ensures { IfOk result (λ inner. IsDecidingAliasMember policy.now (is_spelled_command_match command.now) (member_of_view member.now) (option_map alias_member_of_view inner)) }
{
    // laws
    policy.is_acyclic();
    let Some(outer) = find_command_alias(policy, member) else {
        return Ok(None);
    };
    let mut verdicts = policy.make_verdict_cache(alloc)?;
    Ok(Some(find_innermost_member(&mut verdicts, policy, &outer, command)?))
}
