//! Aliases that members name.

ghost use Rattle.std.specs.Prelude.{◌≡◌, IfSome};
ghost use Rattle.std.specs.Option.{option_map};
ghost use Rattle.sudoers_line_rows.specs.View.{atom_of_view, members_of_view};
ghost use Rattle.sudoers_match_list.specs.declared.numbered_alias.AliasNumberAndMembers.{AliasNumberAndMembers as AliasOf};
ghost use Rattle.sudoers_match_list.specs.Search.{alias_number_of_atom, AreNumberAndMembersOfAlias};

use sudoers_check::DefinitionNumbers;
use sudoers_tree::{BorrowedAtom, Kind, MemberRow, RowsOfTable};

/// An alias: the number of its definition, and its members.
#[derive(Clone, Copy)]
pub struct AliasNumberAndMembers<'a> {
    pub number: usize,
    pub members: RowsOfTable<'a, MemberRow>,
}

/// Returns the alias that `atom` names in a list of this kind, if it is defined.
pub fn find_alias_of_atom<'a>(
    numbers: &DefinitionNumbers<'a>,
    kind: Kind,
    atom: &BorrowedAtom<'_>,
) -> Option<AliasNumberAndMembers<'a>>
    ensures number { option_map (λ (alias : AliasOf). alias.number) result ≡ alias_number_of_atom kind numbers.now.walk (atom_of_view atom.now) }
    ensures alias { IfSome result (λ alias. AreNumberAndMembersOfAlias numbers.now.walk alias.number (members_of_view alias.members)) }
{
    let BorrowedAtom::Alias(name) = *atom else {
        return None;
    };
    let number = numbers.of(kind, name)?;
    let members = numbers.walk.members_of_alias(kind, name)?;
    Some(AliasNumberAndMembers { number, members })
}
