//! Members and definitions that say the same, wherever in their lines they stand.
ghost use Rattle.std.specs.Prelude.{◌≡◌, Bool, map};
ghost use Rattle.sudoers_grammar.specs.Node.{Def as DefOf, Digest as DigestOf, Member as MemberOf};
ghost use Rattle.sudoers_line_rows.specs.declared.rows.Tables.{Tables as TablesOf};
ghost use Rattle.sudoers_line_rows.specs.Tables.{alias_definition_in_tables, digest_in_tables, member_in_tables};
ghost use Rattle.sudoers_line_rows.specs.View.{args_of_view, atom_of_view};
ghost use Rattle.sudoers_line_rows.specs.Alike.{are_lists_alike as alike_lists, is_same_digest as same_digest, is_same_mask as same_mask, is_same_args as same_args, is_same_atom as same_atom, is_same_member as same_member, is_same_def as same_def};

use crate::row_lists::RowsOfTable;
use crate::rows::{AliasDefinitionRow, DigestRow, MemberRow, Tables};
use crate::view::{BorrowedArgs, BorrowedAtom};
use sudoers_grammar::Mask;

/// What can say the same as another: a row, by what it says in its tables.
pub trait ComparableRow {
    ghost Said: { Type 0 };

    ghost said: { TablesOf → Self → Said };

    ghost alike: { Said → Said → Bool };

    /// Returns whether it says the same in these tables as another in those.
    fn is_alike_across_tables(&self, tables: &Tables, other: &Self, others: &Tables) -> bool
        ensures { result ≡ alike (said tables.now self.now) (said others.now other.now) };
}

impl ComparableRow for AliasDefinitionRow {
    ghost Said = { DefOf };

    ghost said = { alias_definition_in_tables };

    ghost alike = { same_def };

    fn is_alike_across_tables(
        &self,
        tables: &Tables,
        other: &AliasDefinitionRow,
        others: &Tables,
    ) -> bool {
        let (def, another) = (
            tables.alias_definition_of_row(self),
            others.alias_definition_of_row(other),
        );
        def.name == another.name && are_row_lists_alike(&def.members, &another.members)
    }
}

impl ComparableRow for MemberRow {
    ghost Said = { MemberOf };

    ghost said = { member_in_tables };

    ghost alike = { same_member };

    fn is_alike_across_tables(&self, tables: &Tables, other: &MemberRow, others: &Tables) -> bool {
        let (member, another) = (tables.member_of_row(self), others.member_of_row(other));
        member.negated == another.negated
            && are_row_lists_alike(&member.digests, &another.digests)
            && is_same_atom(&member.atom, &another.atom)
    }
}

impl ComparableRow for DigestRow {
    ghost Said = { DigestOf };

    ghost said = { digest_in_tables };

    ghost alike = { same_digest };

    fn is_alike_across_tables(&self, tables: &Tables, other: &DigestRow, others: &Tables) -> bool {
        self.kind == other.kind
            && tables.bytes_of_text_row(self.text) == others.bytes_of_text_row(other.text)
    }
}

/// Returns whether lists have the same length, and each two items that stand at one place are alike.
pub fn are_row_lists_alike<T: ComparableRow>(
    items: &RowsOfTable<'_, T>,
    others: &RowsOfTable<'_, T>,
) -> bool
    ensures { result ≡ alike_lists T.alike (map (T.said items.now.tables.now) items.now.rows.now)
        (map (T.said others.now.tables.now) others.now.rows.now) }
{
    let mut rest = items.rows;
    let mut left = others.rows;
    while let Some((item, behind)) = rest.split_first() {
        let Some((other, after)) = left.split_first() else {
            return false;
        };
        if !item.is_alike_across_tables(items.tables, other, others.tables) {
            return false;
        }
        rest = behind;
        left = after;
    }
    left.is_empty()
}

/// Returns whether `atom` and `other` are the same, wherever they stand.
pub fn is_same_atom(atom: &BorrowedAtom<'_>, other: &BorrowedAtom<'_>) -> bool
    ensures { result ≡ same_atom (atom_of_view atom.now) (atom_of_view other.now) }
{
    match (atom, other) {
        (BorrowedAtom::All, BorrowedAtom::All) => true,
        (BorrowedAtom::Alias(a), BorrowedAtom::Alias(b)) => a == b,
        (BorrowedAtom::Name(a), BorrowedAtom::Name(b)) => a == b,
        (BorrowedAtom::Id(a), BorrowedAtom::Id(b)) => a == b,
        (BorrowedAtom::Group(a), BorrowedAtom::Group(b)) => a == b,
        (BorrowedAtom::GroupId(a), BorrowedAtom::GroupId(b)) => a == b,
        (BorrowedAtom::NonUnix(a), BorrowedAtom::NonUnix(b)) => a == b,
        (BorrowedAtom::Netgroup(a), BorrowedAtom::Netgroup(b)) => a == b,
        (BorrowedAtom::Host(a), BorrowedAtom::Host(b)) => a == b,
        (BorrowedAtom::Address(a), BorrowedAtom::Address(b)) => a.number == b.number,
        (BorrowedAtom::Network(a, m), BorrowedAtom::Network(b, n)) => a.number == b.number
            && is_same_mask(*m, *n),
        (BorrowedAtom::Listing, BorrowedAtom::Listing) => true,
        (BorrowedAtom::Path { path: a, args: m }, BorrowedAtom::Path { path: b, args: n }) => {
            a == b && is_same_args(m, n)
        }
        (BorrowedAtom::Sudoedit { args: m }, BorrowedAtom::Sudoedit { args: n }) => is_same_args(
            m, n,
        ),
        _ => false,
    }
}

/// Returns whether `mask` and `other` are written the same: bits and a dotted mask are two.
fn is_same_mask(mask: Mask, other: Mask) -> bool
    ensures { result ≡ same_mask mask other }
{
    match (mask, other) {
        (Mask::Bits(a), Mask::Bits(b)) => a == b,
        (Mask::Dotted(a), Mask::Dotted(b)) => a.number == b.number,
        _ => false,
    }
}

/// Returns whether `args` and `other` say the same of a command's arguments.
fn is_same_args(args: &BorrowedArgs<'_>, other: &BorrowedArgs<'_>) -> bool
    ensures { result ≡ same_args (args_of_view args.now) (args_of_view other.now) }
{
    match (args, other) {
        (BorrowedArgs::Any, BorrowedArgs::Any) | (BorrowedArgs::Nothing, BorrowedArgs::Nothing) =>
            true,
        (BorrowedArgs::Pattern(a), BorrowedArgs::Pattern(b)) => a == b,
        _ => false,
    }
}
