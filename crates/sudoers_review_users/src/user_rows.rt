//! The rows of a policy for a user on a host.

ghost use Rattle.std.specs.Prelude.{◌≡◌, ◌++◌, map, IfOk, OnOk};
ghost use Rattle.sudoers_compare.specs.FlatSpecs.{placed_row_of_view};
ghost use Rattle.sudoers_review_users.specs.FlatRows.{own_rows_of_flat_host_group, own_rows_of_flat_spec, own_rows_of_flat_specs};

use crate::flat_verdicts::is_allowed_by_flat_list;
use std::alloc::{AllocError, Global};
use sudoers_compare::{FlatHostGroup, FlatSpec, PlacedFlatRow, append_rows_of_command};
use sudoers_line_rows::{RowsOfTable, Tables};
use sudoers_match::{HostListKind, UserListKind, Who};

/// Appends the rows of `group`, whose lists are rows of `tables`, to `out`, if it is for the host of `who`. They have no users and no hosts. The
/// group stands on the line with the number `line`.
fn append_own_rows_of_host_group<'f>(
    tables: &'f Tables,
    line: usize,
    group: &'f FlatHostGroup<'f>,
    who: &Who,
    out: &mut Vec<PlacedFlatRow<'f>>,
) -> Result<(), AllocError>
    ensures { OnOk result (map placed_row_of_view out.new.items ≡ map placed_row_of_view out.old.items ++ own_rows_of_flat_host_group who.now tables.now line group.now) }
{
    let hosts = RowsOfTable {
        tables,
        rows: group.hosts.as_slice(),
    };
    if !is_allowed_by_flat_list::<HostListKind>(&hosts, who) {
        return Ok(());
    }
    let nobody = RowsOfTable { tables, rows: &[] };
    for command in group.commands.as_slice() {
        append_rows_of_command(line, nobody, nobody, command, out)?;
    }
    Ok(())
}

/// Appends the rows of `spec`, whose lists are rows of `tables`, for the user and the host of `who` to `out`. They have no users and no hosts.
fn append_own_rows_of_spec<'f>(
    tables: &'f Tables,
    spec: &'f FlatSpec<'f>,
    who: &Who,
    out: &mut Vec<PlacedFlatRow<'f>>,
) -> Result<(), AllocError>
    ensures { OnOk result (map placed_row_of_view out.new.items ≡ map placed_row_of_view out.old.items ++ own_rows_of_flat_spec who.now tables.now spec.now) }
{
    let users = RowsOfTable {
        tables,
        rows: spec.users.as_slice(),
    };
    if !is_allowed_by_flat_list::<UserListKind>(&users, &who.user) {
        return Ok(());
    }
    for group in spec.groups.as_slice() {
        append_own_rows_of_host_group(tables, spec.line, group, who, out)?;
    }
    Ok(())
}

/// Returns the rows of `specs`, whose lists are rows of `tables`, for the user and the host of `who`, in file order. They have no users and no
/// hosts.
///
/// # Errors
///
/// Memory ran out.
pub fn list_own_rows<'f>(
    alloc: Global,
    tables: &'f Tables,
    specs: &'f [FlatSpec<'f>],
    who: &Who,
) -> Result<Vec<PlacedFlatRow<'f>>, AllocError>
    ensures { IfOk result (λ rows. map placed_row_of_view rows.items ≡ own_rows_of_flat_specs who.now tables.now specs.now) }
{
    let mut rows = Vec::new(alloc);
    for spec in specs {
        append_own_rows_of_spec(tables, spec, who, &mut rows)?;
    }
    Ok(rows)
}
