//! A number for each member, and bits for each list. Most lists that differ have other bits.

ghost use Rattle.std.specs.Prelude.{◌≡◌, ◌==◌, ◌<◌, ◌^◌};
ghost use Rattle.std.specs.Int.Bits.{bit_and};
ghost use Rattle.sudoers_line_rows.specs.View.{atom_of_view};
ghost use Rattle.sudoers_compare.specs.AtomNumbers.{atom_bits, atom_number, bits_with_unnegated, given_bits, needed_bits, text_number_after};
ghost use Rattle.sudoers_compare.specs.FlatRow.{signed_atoms_of_view};

use crate::flat_lists::has_all_in_force;
use sudoers_line_rows::{BorrowedAtom, MemberRow, RowsOfTable};

/// Numbers of texts are below this one.
const TEXT_NUMBER_LIMIT: u64 = 36_028_797_018_963_913;

/// Bits of a flat list. One that is wider gives the bits that this one needs.
#[derive(Clone, Copy)]
pub struct ListBits {
    pub needed: u64,
    pub given: u64,
}

/// Returns the number that the bytes of `text` lead to from `first`.
fn number_of_text(first: u64, text: &[u8]) -> u64
    requires { first < 36028797018963913 }
    ensures { result ≡ text_number_after first text.now }
{
    let mut number = first;
    for byte in text {
        number = (number * 257 + u64::from(*byte)) % TEXT_NUMBER_LIMIT;
    }
    number
}

/// Returns a number of the member `atom`. Members that are not the same may share it.
pub fn number_of_atom(atom: &BorrowedAtom<'_>) -> u64
    ensures { result ≡ atom_number (atom_of_view atom.now) }
{
    match *atom {
        BorrowedAtom::Alias(name) => number_of_text(1, name),
        BorrowedAtom::Name(name) => number_of_text(2, name),
        BorrowedAtom::Group(name) => number_of_text(3, name),
        BorrowedAtom::NonUnix(name) => number_of_text(4, name),
        BorrowedAtom::Netgroup(name) => number_of_text(5, name),
        BorrowedAtom::Host(name) => number_of_text(6, name),
        BorrowedAtom::Path { path, args: _ } => number_of_text(7, path),
        BorrowedAtom::Id(number) | BorrowedAtom::GroupId(number) => u64::from(number),
        BorrowedAtom::Address(address) | BorrowedAtom::Network(address, _) => u64::from(
            address.number,
        ),
        _ => 0,
    }
}

/// Returns the bits of the member `atom`.
fn bits_of_atom(atom: &BorrowedAtom<'_>) -> u64
    ensures { result ≡ atom_bits (atom_of_view atom.now) }
{
    let number = number_of_atom(atom);
    1 << (number % 64) | 1 << (number / 64 % 64)
}

/// Returns the bits of the members of `members` that are not negated.
fn bits_of_unnegated(members: &RowsOfTable<'_, MemberRow>) -> u64
    ensures { result ≡ bits_with_unnegated 0 (signed_atoms_of_view members.now) }
{
    let mut bits = 0;
    let mut rest = members.rows;
    while let Some((row, behind)) = rest.split_first() {
        if !row.negated {
            bits |= bits_of_atom(&members.tables.atom_of_row(row.atom));
        }
        rest = behind;
    }
    bits
}

/// Returns the bits of the first member of `members` that is not negated.
fn bits_of_first_unnegated(members: &RowsOfTable<'_, MemberRow>) -> u64
    ensures { result ≡ needed_bits (signed_atoms_of_view members.now) }
{
    let mut rest = members.rows;
    while let Some((row, behind)) = rest.split_first() {
        if !row.negated {
            return bits_of_atom(&members.tables.atom_of_row(row.atom));
        }
        rest = behind;
    }
    0
}

/// Returns the bits of the flat list `members`.
pub fn bits_of_list(members: &RowsOfTable<'_, MemberRow>) -> ListBits
    ensures needed { result.needed ≡ needed_bits (signed_atoms_of_view members.now) }
    ensures given { result.given ≡ given_bits (signed_atoms_of_view members.now) }
{
    let needed = bits_of_first_unnegated(members);
    let given = if has_all_in_force(members) {
        u64::MAX
    } else {
        bits_of_unnegated(members)
    };
    ListBits { needed, given }
}

/// Returns whether `wide` gives the bits that `narrow` needs.
pub fn has_needed_bits(wide: ListBits, narrow: ListBits) -> bool
    ensures same { result ≡ (bit_and wide.given narrow.needed == narrow.needed) }
    ensures small { narrow.needed < 2 ^ 64 }
{
    wide.given & narrow.needed == narrow.needed
}
