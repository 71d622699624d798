//! What members say of the values of a filter.

ghost use Rattle.std.specs.Prelude.{◌≡◌, ◌∷◌, [], Some, IfOk, IfSome};
ghost use Rattle.sudoers_line_rows.specs.View.{atom_of_view, member_of_view};
ghost use Rattle.sudoers_cvt_rewrite.specs.Filter.{last_hit_in_expanded_list};
ghost use Rattle.sudoers_cvt_rewrite.specs.internal.Values.{IsEffectOfLastAtoms, IsPlainNameOfAtom, is_atom_matching_any_value, signed_atoms_of_expanded_list};

use crate::filter_text::FilterKey;
use crate::filter_values::FilterValues;
use std::alloc::AllocError;
use sudoers_match_list::{AcyclicWalk, MemberHit};
use sudoers_names::NameSet;
use sudoers_tree::{BorrowedAtom, Kind, Member};

/// What a member of a list says of those values that no later member denies.
#[derive(Clone, Copy)]
pub enum MemberEffect {
    /// It allows none of them. The members before it decide.
    Nothing,
    /// The list allows one of the values, or none.
    Answer(bool),
    /// Each value has to be asked for.
    Unknown,
}

/// Returns the name with which values of this key are compared, if `atom` is one and no defined alias.
fn find_plain_name<'b>(
    policy: &AcyclicWalk<'_>,
    kind: Kind,
    key: FilterKey,
    atom: &BorrowedAtom<'b>,
) -> Option<&'b [u8]>
    ensures { IfSome result (λ name. IsPlainNameOfAtom kind policy.now key (atom_of_view atom.now) name.now) }
{
    match key {
        FilterKey::User => match *atom {
            BorrowedAtom::Name(name) => Some(name),
            BorrowedAtom::Alias(name) if policy.walk().members_of_alias(kind, name).is_none() => {
                Some(name)
            }
            _ => None,
        },
        FilterKey::Group => match *atom {
            BorrowedAtom::Group(name) => Some(name),
            _ => None,
        },
        FilterKey::Host => None,
    }
}

impl FilterValues {
    /// Returns what the last member of a list says of the values outside `denied`, where `hit` is what it says of any value, and not by
    /// `ALL`. Adds the values that it denies to `denied`.
    fn decide_last_named_member(
        &self,
        policy: &AcyclicWalk<'_>,
        kind: Kind,
        member: &Member<'_>,
        hit: MemberHit,
        denied: &mut NameSet,
    ) -> Result<MemberEffect, AllocError>
        requires { last_hit_in_expanded_list policy.now kind (is_atom_matching_any_value self.now) (member_of_view member.now ∷ []) ≡ Some hit }
        ensures { IfOk result (λ effect. IsEffectOfLastAtoms self.now.key self.now.names.items denied.old denied.new
            (signed_atoms_of_expanded_list policy.now kind (member_of_view member.now ∷ [])) effect) }
    {
        let Some(name) = find_plain_name(policy, kind, self.key, &member.atom) else {
            return Ok(MemberEffect::Unknown);
        };
        let folded = name.to_ascii_lowercase(self.alloc)?;
        if !hit.allow {
            denied.add(self.alloc, folded.as_slice())?;
            return Ok(MemberEffect::Nothing);
        }
        if denied.has(folded.as_slice()) {
            return Ok(MemberEffect::Nothing);
        }
        Ok(MemberEffect::Answer(true))
    }

    /// Returns what the last member of a list says of the values outside `denied`, where `hit` is what it says of any value. Adds the
    /// values that it denies to `denied`.
    ///
    /// # Errors
    ///
    /// Memory ran out.
    pub fn decide_last_member(
        &self,
        policy: &AcyclicWalk<'_>,
        kind: Kind,
        member: &Member<'_>,
        hit: MemberHit,
        denied: &mut NameSet,
    ) -> Result<MemberEffect, AllocError>
        requires { last_hit_in_expanded_list policy.now kind (is_atom_matching_any_value self.now) (member_of_view member.now ∷ []) ≡ Some hit }
        ensures { IfOk result (λ effect. IsEffectOfLastAtoms self.now.key self.now.names.items denied.old denied.new
            (signed_atoms_of_expanded_list policy.now kind (member_of_view member.now ∷ [])) effect) }
    {
        if hit.by_all {
            let has_other = self.has_name_outside(denied)?;
            return Ok(MemberEffect::Answer(hit.allow && has_other));
        }
        if hit.allow && denied.len() == 0 {
            return Ok(MemberEffect::Answer(true));
        }
        self.decide_last_named_member(policy, kind, member, hit, denied)
    }
}
