//! Flat lists: of users, in which `ALL` or root stands, and of hosts.

ghost use Rattle.std.specs.Prelude.{◌≡◌};
ghost use Rattle.std.specs.Option.{option_map};
ghost use Rattle.sudoers_line_rows.specs.View.{atom_of_view};
ghost use Rattle.laws_compare.specs.Decided.{has_no_negation, is_same_flat_list};
ghost use Rattle.sudoers_compare.specs.FlatRow.{signed_atoms_of_view};
ghost use Rattle.sudoers_compare.specs.FlatSpecs.{flat_runas_spec_in_tables};
ghost use Rattle.sudoers_lint.specs.Lint.{is_list_of_root, is_open_list, is_open_list_but_some, is_root_atom, is_runas_spec_but_some};

use sudoers_compare::FlatRunas;
use sudoers_line_rows::{BorrowedAtom, MemberRow, RowsOfTable, Tables, are_row_lists_alike};

/// Returns whether the flat lists `members` and `others` are the same.
pub fn is_same_flat_list(
    members: &RowsOfTable<'_, MemberRow>,
    others: &RowsOfTable<'_, MemberRow>,
) -> bool
    ensures { result ≡ is_same_flat_list (signed_atoms_of_view members.now) (signed_atoms_of_view others.now) }
{
    are_row_lists_alike(members, others)
}

/// Returns whether `ALL` stands in the flat list `members` without `!`.
pub fn is_open_list(members: &RowsOfTable<'_, MemberRow>) -> bool
    ensures { result ≡ is_open_list (signed_atoms_of_view members.now) }
{
    let mut rest = members.rows;
    while let Some((row, behind)) = rest.split_first() {
        if !row.negated && matches!(members.tables.member_of_row(row).atom, BorrowedAtom::All) {
            return true;
        }
        rest = behind;
    }
    false
}

/// Returns whether no member of the flat list `members` is negated.
fn has_no_negation(members: &RowsOfTable<'_, MemberRow>) -> bool
    ensures { result ≡ has_no_negation (signed_atoms_of_view members.now) }
{
    let mut rest = members.rows;
    while let Some((row, behind)) = rest.split_first() {
        if row.negated {
            return false;
        }
        rest = behind;
    }
    true
}

/// Returns whether the flat list `members` is `ALL` but some.
pub fn is_open_list_but_some(members: &RowsOfTable<'_, MemberRow>) -> bool
    ensures { result ≡ is_open_list_but_some (signed_atoms_of_view members.now) }
{
    is_open_list(members) && !has_no_negation(members)
}

/// Returns whether `atom` is `root` or `#0`.
fn is_root_atom(atom: &BorrowedAtom<'_>) -> bool
    ensures { result ≡ is_root_atom (atom_of_view atom.now) }
{
    match *atom {
        BorrowedAtom::Name(name) => name == b"root".as_slice(),
        BorrowedAtom::Id(number) => number == 0,
        _ => false,
    }
}

/// Returns whether each member of the flat list `members` without `!` is root.
pub fn is_list_of_root(members: &RowsOfTable<'_, MemberRow>) -> bool
    ensures { result ≡ is_list_of_root (signed_atoms_of_view members.now) }
{
    let mut rest = members.rows;
    while let Some((row, behind)) = rest.split_first() {
        if !row.negated && !is_root_atom(&members.tables.member_of_row(row).atom) {
            return false;
        }
        rest = behind;
    }
    true
}

/// Returns whether the users of a flat Runas_Spec, whose lists are rows of `tables`, are `ALL` but some.
pub fn is_runas_spec_but_some(tables: &Tables, runas: &Option<FlatRunas>) -> bool
    ensures { result ≡ is_runas_spec_but_some (option_map (flat_runas_spec_in_tables tables.now) runas.now) }
{
    let Some(runas) = runas else {
        return false;
    };
    let Some(users) = &runas.users else {
        return false;
    };
    is_open_list_but_some(&RowsOfTable {
        tables,
        rows: users.as_slice(),
    })
}
