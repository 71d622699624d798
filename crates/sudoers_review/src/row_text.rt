//! Rows as they are printed.

ghost use Rattle.std.specs.Prelude.{◌≡◌, ◌++◌, map, IfOk, OnOk};
ghost use Rattle.std.specs.Option.{option_map};
ghost use Rattle.sudoers_line_rows.specs.View.{members_of_view, runas_of_view};
ghost use Rattle.sudoers_cvt_spell.specs.Commands.{printed_runas_options_tags_and_command};
ghost use Rattle.sudoers_compare.specs.FlatRow.{flat_row_of_view, grant_of_view};
ghost use Rattle.sudoers_review.specs.RowText.{command_of_grant, printed_row};
ghost use Rattle.sudoers_review.specs.RowViews.{members_of_optional_view, runas_of_flat_view};

use std::alloc::{AllocError, Global};
use sudoers_compare::{FlatRow, FlatRunasView};
use sudoers_cvt_rules::print_command;
use sudoers_cvt_spell::append_printed_member_list;
use sudoers_line_rows::{MemberRow, RowsOfTable, RunasSpec, Tables};
use sudoers_match::CommandSettings;
use sudoers_tree::Kind;

/// How many bytes a text may have before another row is printed. The members of a row that is printed have at most as many.
pub const TEXT_LIMIT: usize = 16_777_216;

/// Returns how many bytes the members of `rows` have where they are written, and `before` more.
pub fn count_member_bytes(before: usize, rows: &[MemberRow]) -> usize {
    let mut count = before;
    for row in rows {
        count = count.saturating_add(row.stop.saturating_sub(row.start) as usize);
    }
    count
}

/// Returns how many bytes the members of a list of a Runas_Spec have, and `before` more.
fn count_bytes_of_optional_list(before: usize, list: &Option<RowsOfTable<'_, MemberRow>>) -> usize {
    match list {
        Some(members) => count_member_bytes(before, members.rows),
        None => before,
    }
}

/// Returns whether the members of `row` have too many bytes to be printed.
pub fn has_long_lists(row: &FlatRow<'_>) -> bool {
    let mut count = count_member_bytes(0, row.users.rows);
    count = count_member_bytes(count, row.hosts.rows);
    if let Some(runas) = &row.runas {
        count = count_bytes_of_optional_list(count, &runas.users);
        count = count_bytes_of_optional_list(count, &runas.groups);
    }
    count > TEXT_LIMIT
}

/// Returns a list of a Runas_Spec. An absent one has no members.
fn members_of_optional_list<'a>(
    tables: &'a Tables,
    list: Option<RowsOfTable<'a, MemberRow>>,
) -> RowsOfTable<'a, MemberRow>
    ensures { members_of_view result ≡ members_of_optional_view list.entry }
{
    match list {
        Some(members) => members,
        None => RowsOfTable { tables, rows: &[] },
    }
}

/// Returns a flat Runas_Spec as one.
fn runas_spec_of_flat<'a>(tables: &'a Tables, runas: FlatRunasView<'a>) -> RunasSpec<'a>
    ensures { runas_of_view result ≡ runas_of_flat_view runas.entry }
{
    RunasSpec {
        users: members_of_optional_list(tables, runas.users),
        groups: members_of_optional_list(tables, runas.groups),
    }
}

/// Returns what holds of the command of `row`.
fn settings_of_row<'a>(row: &FlatRow<'a>) -> CommandSettings<'a>
    ensures runas { option_map runas_of_view result.runas ≡ option_map runas_of_flat_view row.now.runas }
    ensures options { result.options ≡ row.now.options }
    ensures tags { result.tags ≡ row.now.tags }
{
    let runas = match row.runas {
        Some(runas) => Some(runas_spec_of_flat(row.users.tables, runas)),
        None => None,
    };
    CommandSettings {
        runas,
        options: row.options,
        tags: row.tags,
    }
}

/// Appends the command of `row` with all that is said of it to `out`.
///
/// # Errors
///
/// Memory ran out.
pub fn append_command_of_row(
    alloc: Global,
    out: &mut Vec<u8>,
    row: &FlatRow<'_>,
) -> Result<(), AllocError>
    ensures { OnOk result (out.new.items ≡ out.old.items ++ printed_runas_options_tags_and_command (command_of_grant (grant_of_view row.now))) }
{
    let command = print_command(alloc, &settings_of_row(row), &row.member)?;
    out.extend_from_slice(command.as_slice())
}

/// Appends `row` to `out` as a rule: its users, its hosts, and its command with all that is said of it.
///
/// # Errors
///
/// Memory ran out.
pub fn append_row(alloc: Global, out: &mut Vec<u8>, row: &FlatRow<'_>) -> Result<(), AllocError>
    ensures { OnOk result (out.new.items ≡ out.old.items ++ printed_row (flat_row_of_view row.now)) }
{
    append_printed_member_list(alloc, out, true, Kind::User, &row.users)?;
    out.extend_from_slice(b" ")?;
    append_printed_member_list(alloc, out, false, Kind::Host, &row.hosts)?;
    out.extend_from_slice(b" = ")?;
    append_command_of_row(alloc, out, row)
}
