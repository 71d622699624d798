//! Where the users and hosts of rows stand, with their bits.

ghost use Rattle.std.specs.Prelude.{◌≡◌, ◌++◌, ℕ, List, Some, map, slice_get, IfOk, OnOk};
ghost use Rattle.laws_compare.specs.Content.{FlatPrivilegeRow};
ghost use Rattle.sudoers_line_rows.specs.declared.rows.Tables.{Tables as TablesOf};
ghost use Rattle.sudoers_match_list.specs.Flat.{SignedAtom};
ghost use Rattle.sudoers_compare.specs.AtomNumbers.{given_bits, needed_bits};
ghost use Rattle.sudoers_compare.specs.FlatSpecs.{placed_rows_of_flat_command, placed_rows_of_flat_host_group, placed_rows_of_flat_spec, placed_rows_of_flat_specs, signed_atoms_in_tables};
ghost use Rattle.sudoers_compare.specs.RowLists.{AreListsKept, AreListsKeptIfAny, NumberedLists, hosts_of_optional_group, lists_of_kept, lists_of_placed_row, lists_with_bits, numbered_lists_of_specs};

use crate::flat_rows::PlacedFlatRow;
use crate::flat_specs::{FlatCommand, FlatHostGroup, FlatSpec};
use crate::list_bits::{ListBits, bits_of_list};
use std::alloc::{AllocError, Global};
use sudoers_line_rows::{MemberRow, RowsOfTable, Tables};

/// Where the users and hosts of a row stand: in the host group with the number `group` of the user specification with the number `spec`. And
/// their bits.
#[derive(Clone, Copy)]
pub struct RowLists {
    pub spec: usize,
    pub group: usize,
    pub users: ListBits,
    pub hosts: ListBits,
}

/// The rows of user specifications, whose lists are rows of `tables`.
#[derive(Clone, Copy)]
pub struct RowsOfSpecs<'r, 'f> {
    pub tables: &'f Tables,
    pub specs: &'f [FlatSpec<'f>],
    pub rows: &'r [PlacedFlatRow<'f>],
}

/// Rows, and where the lists of each stand, as far as it is known.
#[derive(Clone, Copy)]
pub struct RowsWithLists<'r, 'f, 'l> {
    pub rows: &'r [PlacedFlatRow<'f>],
    pub lists: &'l [RowLists],
}

/// Returns the bits of the list `rows` of `tables`.
fn bits_of_rows(tables: &Tables, rows: &[MemberRow]) -> ListBits
    ensures needed { result.needed ≡ needed_bits (signed_atoms_in_tables tables.now rows.now) }
    ensures given { result.given ≡ given_bits (signed_atoms_in_tables tables.now rows.now) }
{
    bits_of_list(&RowsOfTable { tables, rows })
}

/// Appends `lists` to `out` for each row of `command`.
fn append_lists_of_command(
    lists: RowLists,
    command: &FlatCommand<'_>,
    out: &mut Vec<RowLists>,
) -> Result<(), AllocError>
    ensures { OnOk result ((all : NumberedLists) (t : TablesOf) (line : ℕ) (users hosts : List SignedAtom) → lists_of_kept all lists ≡ lists_with_bits users hosts
        → map (lists_of_kept all) out.new.items ≡ map (lists_of_kept all) out.old.items ++ map lists_of_placed_row (placed_rows_of_flat_command t line users hosts command.now)) }
{
    for _member in command.members.as_slice() {
        out.push(lists)?;
    }
    Ok(())
}

/// Appends to `out` where the lists of each row of `group` stand. It has the number `number` in the user specification with the number
/// `spec`, whose users have the bits `users`.
fn append_lists_of_host_group(
    tables: &Tables,
    spec: usize,
    users: ListBits,
    number: usize,
    group: &FlatHostGroup<'_>,
    out: &mut Vec<RowLists>,
) -> Result<(), AllocError>
    ensures { OnOk result ((all : NumberedLists) (line : ℕ) (said : List SignedAtom) → all.users spec ≡ said → users.needed ≡ needed_bits said → users.given ≡ given_bits said
        → all.hosts spec number ≡ signed_atoms_in_tables tables.now group.now.hosts.items
        → map (lists_of_kept all) out.new.items ≡ map (lists_of_kept all) out.old.items ++ map lists_of_placed_row (placed_rows_of_flat_host_group tables.now line said group.now)) }
{
    let lists = RowLists {
        spec,
        group: number,
        users,
        hosts: bits_of_rows(tables, group.hosts.as_slice()),
    };
    for command in group.commands.as_slice() {
        append_lists_of_command(lists, command, out)?;
    }
    Ok(())
}

/// Appends to `out` where the lists of each row of `spec` stand. It has the number `number`.
fn append_lists_of_spec(
    tables: &Tables,
    number: usize,
    spec: &FlatSpec<'_>,
    out: &mut Vec<RowLists>,
) -> Result<(), AllocError>
    ensures { OnOk result ((all : NumberedLists) → all.users number ≡ signed_atoms_in_tables tables.now spec.now.users.items
        → ((group : ℕ) → all.hosts number group ≡ hosts_of_optional_group tables.now (slice_get spec.now.groups.items group))
        → map (lists_of_kept all) out.new.items ≡ map (lists_of_kept all) out.old.items ++ map lists_of_placed_row (placed_rows_of_flat_spec tables.now spec.now)) }
{
    let users = bits_of_rows(tables, spec.users.as_slice());
    for (group, row) in spec.groups.as_slice().iter().enumerate() {
        append_lists_of_host_group(tables, number, users, group, row, out)?;
    }
    Ok(())
}

/// Returns where the lists of each row of `specs` stand, in file order.
///
/// # Errors
///
/// Memory ran out.
pub fn list_row_lists(
    alloc: Global,
    tables: &Tables,
    specs: &[FlatSpec<'_>],
) -> Result<Vec<RowLists>, AllocError>
    ensures { IfOk result (λ lists. map (lists_of_kept (numbered_lists_of_specs tables.now specs.now)) lists.items ≡ map lists_of_placed_row (placed_rows_of_flat_specs tables.now specs.now)) }
{
    let mut lists = Vec::new(alloc);
    for (number, spec) in specs.iter().enumerate() {
        append_lists_of_spec(tables, number, spec, &mut lists)?;
    }
    Ok(lists)
}

/// Returns where the lists of the row with the number `number` stand, if it is known.
pub fn find_lists_of_row(lists: &[RowLists], number: usize) -> Option<&RowLists>
    ensures { (all : NumberedLists) (rows : List FlatPrivilegeRow) (row : FlatPrivilegeRow) → AreListsKept all lists.now rows → slice_get rows number ≡ Some row → AreListsKeptIfAny all result row }
{
    lists.get(number)
}
