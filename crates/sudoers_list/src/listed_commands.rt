//! Commands as they are listed.

ghost use Rattle.std.specs.Prelude.{◌≡◌, ◌++◌, codes, false, map, OnOk};
ghost use Rattle.std.specs.List.{flat_map};
ghost use Rattle.std.specs.Option.{option_map};
ghost use Rattle.sudoers_grammar.specs.declared.node.Kind.TheVariants.{Runas as RunasKind};
ghost use Rattle.sudoers_line_rows.specs.View.{commands_of_view, host_group_of_view, member_of_view, members_of_view, runas_of_view};
ghost use Rattle.sudoers_match.specs.Heads.{AccumulatedCommandSettings as HeadOf};
ghost use Rattle.sudoers_match.specs.IsHead.{HoldsCommandSettings};
ghost use Rattle.sudoers_cvt_spell.specs.Members.{printed_member_list};
ghost use Rattle.sudoers_cvt_spell.specs.Commands.{printed_runas_options_tags_and_command, printed_runas};
ghost use Rattle.sudoers_cvt_rules.specs.Effective.{effective_command, effective_commands};
ghost use Rattle.sudoers_list.specs.Listing.{listed_command_text_line, listed_host_group_lines, command_with_runas_users_filled_in, runas_spec_with_users_filled_in, printed_runas_name, runas_users_or_self};
ghost use Rattle.sudoers_list.specs.internal.Inside.{printed_runas_groups_part};

use std::alloc::{AllocError, Global};
use sudoers_cvt_rules::print_command;
use sudoers_cvt_spell::{append_member, append_printed_member_list};
use sudoers_grammar::Kind;
use sudoers_line_rows::{
    BorrowedAtom, CommandRow, HostGroup, Member, MemberRow, RowsOfTable, RunasSpec, Tables,
};
use sudoers_match::CommandSettings;

/// A user who may run something, and the user as whom he runs it where nothing else is said.
#[derive(Clone, Copy)]
pub struct UserAndRunasDefaultNames<'a> {
    pub user: &'a [u8],
    pub default: &'a [u8],
}

/// Appends a name, spelled as in a list of runas users.
///
/// # Errors
///
/// Memory ran out.
pub fn append_runas_name(
    alloc: Global,
    out: &mut Vec<u8>,
    tables: &Tables,
    name: &[u8],
) -> Result<(), AllocError>
    ensures { OnOk result (out.new.items ≡ out.old.items ++ printed_runas_name name.now) }
{
    let member = Member {
        start: 0,
        stop: 0,
        negated: false,
        digests: RowsOfTable { tables, rows: &[] },
        atom: BorrowedAtom::Name(name),
    };
    append_member(alloc, out, false, Kind::Runas, &member)
}

/// Appends the users of a Runas_Spec; the user himself if there are none.
fn append_runas_users_or_self(
    alloc: Global,
    out: &mut Vec<u8>,
    user: &[u8],
    users: &RowsOfTable<'_, MemberRow>,
) -> Result<(), AllocError>
    ensures { OnOk result (out.new.items ≡ out.old.items ++ printed_member_list false RunasKind (runas_users_or_self user.now (members_of_view users.now))) }
{
    if users.rows.is_empty() {
        return append_runas_name(alloc, out, users.tables, user);
    }
    append_printed_member_list(alloc, out, false, Kind::Runas, users)
}

/// Appends the groups of a Runas_Spec, with what stands before them.
fn append_runas_groups(
    alloc: Global,
    out: &mut Vec<u8>,
    groups: &RowsOfTable<'_, MemberRow>,
) -> Result<(), AllocError>
    ensures { OnOk result (out.new.items ≡ out.old.items ++ printed_runas_groups_part (members_of_view groups.now)) }
{
    if groups.rows.is_empty() {
        return Ok(());
    }
    out.extend_from_slice(b" : ")?;
    append_printed_member_list(alloc, out, false, Kind::Runas, groups)
}

/// Appends as whom a command is listed.
fn append_listed_runas_spec(
    alloc: Global,
    out: &mut Vec<u8>,
    tables: &Tables,
    names: &UserAndRunasDefaultNames<'_>,
    runas: &Option<RunasSpec<'_>>,
) -> Result<(), AllocError>
    ensures { OnOk result (out.new.items ≡ out.old.items ++ printed_runas (runas_spec_with_users_filled_in names.now.user.now names.now.default.now (option_map runas_of_view runas.now))) }
{
    out.extend_from_slice(b"(")?;
    match runas {
        None => append_runas_name(alloc, out, tables, names.default)?,
        Some(runas) => {
            append_runas_users_or_self(alloc, out, names.user, &runas.users)?;
            append_runas_groups(alloc, out, &runas.groups)?;
        }
    }
    out.extend_from_slice(b")")
}

/// Appends a command as it is listed: as whom it runs, and what holds of it.
///
/// # Errors
///
/// Memory ran out.
pub fn append_listed_command(
    alloc: Global,
    out: &mut Vec<u8>,
    names: &UserAndRunasDefaultNames<'_>,
    head: &CommandSettings<'_>,
    member: &Member<'_>,
) -> Result<(), AllocError>
    ensures { OnOk result ((h : HeadOf) → HoldsCommandSettings head.now h
        → out.new.items ≡ out.old.items ++ printed_runas_options_tags_and_command (command_with_runas_users_filled_in names.now.user.now names.now.default.now (effective_command (h, member_of_view member.now)))) }
{
    append_listed_runas_spec(alloc, out, member.digests.tables, names, &head.runas)?;
    out.extend_from_slice(b" ")?;
    let bare = CommandSettings {
        runas: None,
        options: head.options,
        tags: head.tags,
    };
    let command = print_command(alloc, &bare, member)?;
    out.extend_from_slice(command.as_slice())
}

/// Appends the line of a command, of which `head` holds.
fn append_listed_command_line(
    alloc: Global,
    out: &mut Vec<u8>,
    names: &UserAndRunasDefaultNames<'_>,
    head: &CommandSettings<'_>,
    member: &Member<'_>,
) -> Result<(), AllocError>
    ensures { OnOk result ((h : HeadOf) → HoldsCommandSettings head.now h
        → out.new.items ≡ out.old.items ++ listed_command_text_line names.now.user.now names.now.default.now (effective_command (h, member_of_view member.now))) }
{
    out.extend_from_slice(b"    ")?;
    append_listed_command(alloc, out, names, head, member)?;
    out.extend_from_slice(b"\n")
}

/// Appends the lines of the commands of a host group.
fn append_host_group_commands(
    alloc: Global,
    out: &mut Vec<u8>,
    names: &UserAndRunasDefaultNames<'_>,
    commands: &RowsOfTable<'_, CommandRow>,
) -> Result<(), AllocError>
    ensures { OnOk result (out.new.items ≡ out.old.items ++ flat_map (listed_command_text_line names.now.user.now names.now.default.now) (effective_commands (commands_of_view commands.now))) }
{
    let mut head = CommandSettings::make_empty_settings();
    let tables = commands.tables;
    for row in commands.rows {
        let command = tables.command_of_row(row);
        head.apply_settings_of_command(&command);
        append_listed_command_line(alloc, out, names, &head, &command.member)?;
    }
    Ok(())
}

/// Appends the lines of the commands of host groups.
///
/// # Errors
///
/// Memory ran out.
pub fn append_host_groups_commands(
    alloc: Global,
    out: &mut Vec<u8>,
    names: &UserAndRunasDefaultNames<'_>,
    groups: &[HostGroup<'_>],
) -> Result<(), AllocError>
    ensures { OnOk result (out.new.items ≡ out.old.items ++ flat_map (listed_host_group_lines names.now.user.now names.now.default.now) (map host_group_of_view groups.now)) }
{
    for group in groups {
        append_host_group_commands(alloc, out, names, &group.commands)?;
    }
    Ok(())
}
