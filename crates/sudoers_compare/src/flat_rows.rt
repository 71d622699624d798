//! The rows of flat user specifications.

ghost use Rattle.std.specs.Prelude.{◌≡◌, ◌++◌, [], map, IfOk, OnOk};
ghost use Rattle.std.specs.List.{flat_map};
ghost use Rattle.std.specs.Option.{option_map};
ghost use Rattle.sudoers_compare.specs.FlatRow.{flat_runas_spec_of_view, optional_signed_atoms_of_view, signed_atoms_of_view};
ghost use Rattle.sudoers_compare.specs.FlatSpecs.{flat_runas_spec_in_tables, optional_signed_atoms_in_tables, placed_row_of_view, placed_rows_of_flat_command, placed_rows_of_flat_host_group, placed_rows_of_flat_spec, placed_rows_of_flat_specs};

use crate::flat_row::{FlatRow, FlatRunasView};
use crate::flat_specs::{FlatCommand, FlatHostGroup, FlatRunas, FlatSpec};
use std::alloc::{AllocError, Global};
use sudoers_line_rows::{MemberRow, RowsOfTable, Tables};

/// A row, and the place of its command: the number of the line on the walk, from 0, and the byte at which the command begins there.
#[derive(Clone, Copy)]
pub struct PlacedFlatRow<'a> {
    pub line: usize,
    pub start: u32,
    pub row: FlatRow<'a>,
}

/// Returns a flat list of a Runas_Spec as rows of `tables`.
fn view_of_flat_list<'f>(
    tables: &'f Tables,
    list: &'f Option<Vec<MemberRow>>,
) -> Option<RowsOfTable<'f, MemberRow>>
    ensures { optional_signed_atoms_of_view result ≡ optional_signed_atoms_in_tables tables.now list.now }
{
    let rows = list.as_ref()?;
    Some(RowsOfTable {
        tables,
        rows: rows.as_slice(),
    })
}

/// Returns a flat Runas_Spec as rows of `tables`.
fn view_of_flat_runas<'f>(
    tables: &'f Tables,
    runas: &'f Option<FlatRunas>,
) -> Option<FlatRunasView<'f>>
    ensures { option_map flat_runas_spec_of_view result ≡ option_map (flat_runas_spec_in_tables tables.now) runas.now }
{
    let runas = runas.as_ref()?;
    Some(FlatRunasView {
        users: view_of_flat_list(tables, &runas.users),
        groups: view_of_flat_list(tables, &runas.groups),
    })
}

/// Appends the rows of `command` to `out`. It stands on the line with the number `line`, behind these users and hosts.
///
/// # Errors
///
/// Memory ran out.
pub fn append_rows_of_command<'f>(
    line: usize,
    users: RowsOfTable<'f, MemberRow>,
    hosts: RowsOfTable<'f, MemberRow>,
    command: &'f FlatCommand<'f>,
    out: &mut Vec<PlacedFlatRow<'f>>,
) -> Result<(), AllocError>
    ensures { OnOk result (map placed_row_of_view out.new.items ≡ map placed_row_of_view out.old.items
        ++ placed_rows_of_flat_command users.entry.tables.now line (signed_atoms_of_view users.entry) (signed_atoms_of_view hosts.entry) command.now) }
{
    let tables = users.tables;
    let runas = view_of_flat_runas(tables, &command.runas);
    for member in command.members.as_slice() {
        out.push(PlacedFlatRow {
            line,
            start: command.start,
            row: FlatRow {
                users,
                hosts,
                runas,
                options: command.options,
                tags: command.tags,
                member: tables.member_of_row(member),
            },
        })?;
    }
    Ok(())
}

/// Appends the rows of `group` to `out`. It stands on the line with the number `line`, behind these users.
fn append_rows_of_host_group<'f>(
    line: usize,
    users: RowsOfTable<'f, MemberRow>,
    group: &'f FlatHostGroup<'f>,
    out: &mut Vec<PlacedFlatRow<'f>>,
) -> Result<(), AllocError>
    ensures { OnOk result (map placed_row_of_view out.new.items ≡ map placed_row_of_view out.old.items
        ++ placed_rows_of_flat_host_group users.entry.tables.now line (signed_atoms_of_view users.entry) group.now) }
{
    let hosts = RowsOfTable {
        tables: users.tables,
        rows: group.hosts.as_slice(),
    };
    for command in group.commands.as_slice() {
        append_rows_of_command(line, users, hosts, command, out)?;
    }
    Ok(())
}

/// Appends the rows of `spec`, whose lists are rows of `tables`, to `out`.
fn append_rows_of_spec<'f>(
    tables: &'f Tables,
    spec: &'f FlatSpec<'f>,
    out: &mut Vec<PlacedFlatRow<'f>>,
) -> Result<(), AllocError>
    ensures { OnOk result (map placed_row_of_view out.new.items ≡ map placed_row_of_view out.old.items ++ placed_rows_of_flat_spec tables.now spec.now) }
{
    let users = RowsOfTable {
        tables,
        rows: spec.users.as_slice(),
    };
    for group in spec.groups.as_slice() {
        append_rows_of_host_group(spec.line, users, group, out)?;
    }
    Ok(())
}

/// Returns the rows of `specs`, whose lists are rows of `tables`, in file order.
///
/// # Errors
///
/// Memory ran out.
pub fn list_flat_rows<'f>(
    alloc: Global,
    tables: &'f Tables,
    specs: &'f [FlatSpec<'f>],
) -> Result<Vec<PlacedFlatRow<'f>>, AllocError>
    ensures { IfOk result (λ rows. map placed_row_of_view rows.items ≡ placed_rows_of_flat_specs tables.now specs.now) }
{
    let mut rows = Vec::new(alloc);
    for spec in specs {
        append_rows_of_spec(tables, spec, &mut rows)?;
    }
    Ok(rows)
}
