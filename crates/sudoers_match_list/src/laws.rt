//! Laws of flat lists and verdicts. Each is the contract of a function that does nothing.

ghost use Rattle.std.specs.Prelude.{◌≡◌, ◌↔◌, Bool, None, List, map, ◌⊎◌, ◌++◌, ◌∷◌, [], true, Some};
ghost use Rattle.std.specs.List.{AllByRecursion};
ghost use Rattle.sudoers_match_list.specs.Alike.{IsPointwiseRelated, HaveSameFlatListAfterRewrite, HaveMappedAliasesMappedMembers, IsMemberWithAtomMapped, signed_atom_with_atom_mapped};
ghost use Rattle.sudoers_match_list.specs.Flat.{IsFlatListOf, IsListVerdict, SignedAtom, alias_members_of_atom, is_all_atom, signed_atom_of_member, hit_of_signed_atom, later_verdict_unless_unsaid, opposite_verdict};
ghost use Rattle.sudoers_grammar.specs.declared.node.Atom.{Atom as AtomOf};
ghost use Rattle.sudoers_check.specs.Chain.{ListHasElement};
ghost use Rattle.sudoers_match_list.specs.declared.verdict.Verdict.{Verdict as VerdictOf};
ghost use Rattle.sudoers_match_list.specs.declared.verdict.Verdict.TheVariants.{Unsaid};
ghost use Rattle.sudoers_grammar.specs.declared.node.Kind.{Kind as KindOf};
ghost use Rattle.sudoers_grammar.specs.Node.{Member as MemberOf};
ghost use Rattle.sudoers_tree.specs.Line.{Line as LineOf};
ghost use Rattle.sudoers_tree.specs.Policy.{AreValidWalkLines};
ghost use Rattle.sudoers_match_list.specs.Flattened.{fully_expanded_list};
ghost use Rattle.sudoers_match_list.specs.Cycle.{ListLeadsToCyclicAlias};

/// A list has a flat list, or leads to a cyclic alias.
pub fn flat_or_cycle()
    ensures { (k : KindOf) (lines : List LineOf) (ms : List MemberOf) → ((fs : List SignedAtom) × IsFlatListOf k lines ms fs) ⊎ ListLeadsToCyclicAlias k lines ms }
{}

/// In a policy it does not do both.
pub fn flat_then_no_cycle()
    ensures { (k : KindOf) (lines : List LineOf) → AreValidWalkLines lines → (ms : List MemberOf) (fs : List SignedAtom) → IsFlatListOf k lines ms fs → ListLeadsToCyclicAlias k lines ms → ⊥ }
{}

/// In a policy the flat list of a list is what replacing its aliases comes to.
pub fn flattened_is_flat()
    ensures { (k : KindOf) (lines : List LineOf) → AreValidWalkLines lines → (ms : List MemberOf) (fs : List SignedAtom) → IsFlatListOf k lines ms fs → fs ≡ map signed_atom_of_member (fully_expanded_list k lines ms) }
{}

/// A list has one flat list.
pub fn one_flat()
    ensures { (k : KindOf) (lines : List LineOf) (ms : List MemberOf) (fs others : List SignedAtom) → IsFlatListOf k lines ms fs → IsFlatListOf k lines ms others → fs ≡ others }
{}

/// A list in which no atom matches says nothing.
pub fn no_hit_is_unsaid()
    ensures { (k : KindOf) (lines : List LineOf) (test : AtomOf → Bool) (ms : List MemberOf) (fs : List SignedAtom) → IsFlatListOf k lines ms fs
        → ((s : SignedAtom) → ListHasElement fs s → hit_of_signed_atom test s ≡ None) → IsListVerdict k lines test ms Unsaid }
{}

/// A `!` before an alias turns what it allows and denies, and leaves what it says nothing of.
pub fn negated_is_opposite()
    ensures { (k : KindOf) (lines : List LineOf) (test : AtomOf → Bool) (m : MemberOf) (members : List MemberOf) (verdict : VerdictOf)
        → alias_members_of_atom k lines m.atom ≡ Some members → m.negated ≡ true → IsListVerdict k lines test members verdict
        → IsListVerdict k lines test (m ∷ []) (opposite_verdict verdict) }
{}

/// Of two lists, one after the other, the second decides, unless it says nothing.
pub fn later_list_decides()
    ensures { (k : KindOf) (lines : List LineOf) (test : AtomOf → Bool) (ms ns : List MemberOf) (first second : VerdictOf)
        → IsListVerdict k lines test ms first → IsListVerdict k lines test ns second → IsListVerdict k lines test (ms ++ ns) (later_verdict_unless_unsaid first second) }
{}

/// A list has one verdict.
pub fn one_verdict()
    ensures { (k : KindOf) (lines : List LineOf) (test : AtomOf → Bool) (ms : List MemberOf) (verdict other : VerdictOf)
        → IsListVerdict k lines test ms verdict → IsListVerdict k lines test ms other → verdict ≡ other }
{}

/// A list none of whose atoms is a defined alias is its own flat list.
pub fn alias_free_list_is_flat()
    ensures { (k : KindOf) (lines : List LineOf) (ms : List MemberOf) → AllByRecursion (λ (m : MemberOf). alias_members_of_atom k lines m.atom ≡ None) ms
        → IsFlatListOf k lines ms (map signed_atom_of_member ms) }
{}

/// Where the aliases of two policies have the same members, lists of the same members have the same flat lists. The second policy may
/// write an atom otherwise.
pub fn rewritten_lists_are_alike()
    ensures { (write : AtomOf → AtomOf) (k : KindOf) (lines others : List LineOf) → HaveMappedAliasesMappedMembers write k lines others → (ms ns : List MemberOf)
        → IsPointwiseRelated (IsMemberWithAtomMapped write) ms ns → HaveSameFlatListAfterRewrite write k lines others ms ns }
{}

/// Lists are alike where the flat list of the first, its atoms as they are written in the second policy, is that of the second.
pub fn same_flat_lists_are_alike()
    ensures { (write : AtomOf → AtomOf) (k : KindOf) (lines others : List LineOf) (ms ns : List MemberOf) (fs : List SignedAtom)
        → IsFlatListOf k lines ms fs → IsFlatListOf k others ns (map (signed_atom_with_atom_mapped write) fs) → HaveSameFlatListAfterRewrite write k lines others ms ns }
{}

/// Lists with the same flat lists have the same verdicts, where the test holds of the same atoms.
pub fn alike_lists_say_same()
    ensures { (write : AtomOf → AtomOf) (test : AtomOf → Bool) → ((a : AtomOf) → test (write a) ≡ test a)
        → ((a : AtomOf) → is_all_atom (write a) ≡ is_all_atom a) → (k : KindOf) (lines others : List LineOf) (ms ns : List MemberOf)
        → HaveSameFlatListAfterRewrite write k lines others ms ns → (verdict : VerdictOf)
        → IsListVerdict k lines test ms verdict ↔ IsListVerdict k others test ns verdict }
{}

/// Both or neither of two such lists lead to a cyclic alias.
pub fn alike_lists_lead_to_cycle()
    ensures { (write : AtomOf → AtomOf) (k : KindOf) (lines others : List LineOf) (ms ns : List MemberOf) → AreValidWalkLines lines → AreValidWalkLines others
        → HaveSameFlatListAfterRewrite write k lines others ms ns → ListLeadsToCyclicAlias k lines ms ↔ ListLeadsToCyclicAlias k others ns }
{}
