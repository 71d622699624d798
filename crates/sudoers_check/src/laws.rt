//! Laws of chains, mentions and numbers. Each is the contract of a function that does nothing.

ghost use Rattle.std.specs.Prelude.{◌≡◌, ℕ, List, true, false, map, slice_get, Some};
ghost use Rattle.std.specs.List.{filter};
ghost use Rattle.sudoers_grammar.specs.declared.node.Kind.{Kind as KindOf};
ghost use Rattle.sudoers_tree.specs.Line.{Line as LineOf};
ghost use Rattle.sudoers_tree.specs.Definition.{PlacedDefinition, definitions_of_lines};
ghost use Rattle.sudoers_tree.specs.Policy.{AreValidWalkLines};
ghost use Rattle.sudoers_tree.specs.Mention.{mentions_in_lines};
ghost use Rattle.sudoers_check.specs.Chain.{ListHasElement};
ghost use Rattle.sudoers_check.specs.Chains.{IsReachedFromSpecOrDefaults, IsCyclic};
ghost use Rattle.sudoers_check.specs.Led.{is_unused, is_cyclic};
ghost use Rattle.sudoers_check.specs.Numbers.{number_of_definition};
ghost use Rattle.sudoers_check.specs.Mentioned.{Mention, all_mentions_in_lines, is_mention_of_name};

/// What is computed tells which definitions are unused: those to which no chain of mentions leads from a user specification
/// or a Defaults line; and which are cyclic: those joined to themselves.
pub fn chains_are()
    ensures unused { (lines : List LineOf) (d : PlacedDefinition) → ListHasElement (definitions_of_lines lines) d → is_unused lines d ≡ true
        → IsReachedFromSpecOrDefaults d.kind lines d.def.name → ⊥ }
    ensures used { (lines : List LineOf) (d : PlacedDefinition) → ListHasElement (definitions_of_lines lines) d → is_unused lines d ≡ false
        → IsReachedFromSpecOrDefaults d.kind lines d.def.name }
    ensures cyclic { (lines : List LineOf) (d : PlacedDefinition) → ListHasElement (definitions_of_lines lines) d → is_cyclic lines d ≡ true
        → IsCyclic lines d }
    ensures straight { (lines : List LineOf) (d : PlacedDefinition) → ListHasElement (definitions_of_lines lines) d → is_cyclic lines d ≡ false
        → IsCyclic lines d → ⊥ }
{}

/// The mentions of all names, in the order of the lines, hold those of each name in each kind.
pub fn mentions_are()
    ensures { (lines : List LineOf) (k : KindOf) (name : List ℕ) → mentions_in_lines k name lines
        ≡ map (λ (m : Mention). m.span) (filter (is_mention_of_name k name) (all_mentions_in_lines lines)) }
{}

/// In a walk each definition has the number of its name.
pub fn numbers_are()
    ensures { (lines : List LineOf) → AreValidWalkLines lines → (d : PlacedDefinition) → ListHasElement (definitions_of_lines lines) d
        → (n : ℕ) × (number_of_definition d.kind d.def.name (definitions_of_lines lines) ≡ Some n) × (slice_get (definitions_of_lines lines) n ≡ Some d) }
{}
