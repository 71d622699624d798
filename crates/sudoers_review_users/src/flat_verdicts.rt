//! What flat lists say.

ghost use Rattle.std.specs.Prelude.{◌≡◌};
ghost use Rattle.sudoers_line_rows.specs.View.{member_of_view};
ghost use Rattle.sudoers_match_list.specs.Flat.{signed_atom_of_member};
ghost use Rattle.laws_compare.specs.Effective.{is_allowed_by_flat_list};
ghost use Rattle.sudoers_compare.specs.FlatRow.{signed_atoms_of_view};
ghost use Rattle.sudoers_review_users.specs.FlatRows.{is_allowed_with_member};

use sudoers_line_rows::{Member, MemberRow, RowsOfTable};
use sudoers_match_list::MemberKind;

/// Returns whether the flat list `members` allows `asked`: the last member that matches decides.
pub fn is_allowed_by_flat_list<K: MemberKind>(
    members: &RowsOfTable<'_, MemberRow>,
    asked: &K::Asked,
) -> bool
    ensures { result ≡ is_allowed_by_flat_list (K.test asked.now) (signed_atoms_of_view members.now) }
{
    let mut allowed = false;
    let mut rest = members.rows;
    while let Some((row, behind)) = rest.split_first() {
        allowed = is_allowed_with_member::<K>(allowed, &members.tables.member_of_row(row), asked);
        rest = behind;
    }
    allowed
}

/// Returns whether a list allows `asked` that ends with `member`. `so_far` says whether it does without that one.
fn is_allowed_with_member<K: MemberKind>(
    so_far: bool,
    member: &Member<'_>,
    asked: &K::Asked,
) -> bool
    ensures { result ≡ is_allowed_with_member (K.test asked.now) so_far (signed_atom_of_member (member_of_view member.now)) }
{
    if K::hits(&member.atom, asked) && member.digests.rows.is_empty() {
        !member.negated
    } else {
        so_far
    }
}
