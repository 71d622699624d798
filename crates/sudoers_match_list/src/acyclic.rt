//! Walks none of whose reachable aliases is cyclic.

ghost use Rattle.std.specs.Prelude.{◌≡◌, ◌⊎◌, Bool, IfOk, IfErr};
ghost use Rattle.sudoers_grammar.specs.declared.node.Atom.{Atom as AtomOf};
ghost use Rattle.sudoers_grammar.specs.declared.node.Kind.{Kind as KindOf};
ghost use Rattle.sudoers_tree.specs.Line.{lines_of_rows};
ghost use Rattle.sudoers_tree.specs.Policy.{AreValidWalkLines};
ghost use Rattle.sudoers_check.specs.Chains.{HasCyclicAliasReachedFromSpecOrDefaults};
ghost use Rattle.sudoers_match_list.specs.declared.verdict.AskFault.TheVariants.{Cycle, NoMemory};
ghost use Rattle.sudoers_match_list.specs.Search.{IsValidVerdictCache};

use crate::alias_cycles::has_reachable_cycle_in_numbered_walk;
use crate::alias_verdicts::AliasVerdictCache;
use crate::verdict::AskFault;
use std::alloc::{AllocError, Global};
use std::marker::Model;
use sudoers_check::DefinitionNumbers;
use sudoers_tree::{LineRow, RowsOfTable, Walk};

/// The walk of a policy none of whose reachable aliases is cyclic, with the numbers of its definitions. Contracts see the list of its lines with
/// what they say.
#[derive(Drop)]
pub struct AcyclicWalk<'a> {
    numbers: DefinitionNumbers<'a>,
}

impl<'a> Model for AcyclicWalk<'a> {
    ghost use Rattle.std.specs.Prelude.{List};
    ghost use Rattle.sudoers_tree.specs.Line.{Line};
    ghost use Rattle.sudoers_check.specs.Chains.{HasCyclicAliasReachedFromSpecOrDefaults};

    ghost Value = { List Line };

    ghost view = { λ acyclic. acyclic.numbers.walk };

    ghost invariant = { λ acyclic. HasCyclicAliasReachedFromSpecOrDefaults acyclic.numbers.walk → ⊥ };
}

impl<'a> AcyclicWalk<'a> {
    /// Returns `walk` with the numbers of its definitions, if none of its reachable aliases is cyclic.
    ///
    /// # Errors
    ///
    /// `Cycle`: a reachable alias is cyclic. `NoMemory`: memory ran out.
    pub fn new(alloc: Global, walk: Walk<'a>) -> Result<AcyclicWalk<'a>, AskFault>
        ensures walk { IfOk result (λ acyclic. acyclic ≡ walk.entry) }
        ensures straight { IfOk result (λ _. HasCyclicAliasReachedFromSpecOrDefaults walk.entry → ⊥) }
        ensures fault { IfErr result (λ fault. (fault ≡ NoMemory) ⊎ ((fault ≡ Cycle) × HasCyclicAliasReachedFromSpecOrDefaults walk.entry)) }
    {
        let numbers = DefinitionNumbers::new(alloc, walk)?;
        if has_reachable_cycle_in_numbered_walk(alloc, &numbers)? {
            return Err(AskFault::Cycle);
        }
        Ok(AcyclicWalk { numbers })
    }

    /// A law: the lines are a walk, and no reachable alias is cyclic.
    pub fn is_acyclic(&self)
        ensures walk { AreValidWalkLines self.now }
        ensures straight { HasCyclicAliasReachedFromSpecOrDefaults self.now → ⊥ }
    {
        // laws
        self.numbers.walk.is_walk();
    }

    /// Returns the walk.
    pub fn walk(&self) -> &Walk<'a>
        ensures { result.now ≡ self.now }
    {
        &self.numbers.walk
    }

    /// Returns the numbers of the definitions.
    pub fn definition_numbers(&self) -> &DefinitionNumbers<'a>
        ensures { result.now.walk ≡ self.now }
    {
        &self.numbers
    }

    /// Returns the lines with what they say.
    pub fn lines(&self) -> RowsOfTable<'a, LineRow>
        ensures { lines_of_rows result ≡ self.now }
    {
        self.numbers.walk.lines()
    }

    /// Returns verdicts that hold no alias of the policy yet, as [`Verdicts::new`] does.
    ///
    /// # Errors
    ///
    /// Memory ran out.
    pub fn make_verdict_cache(&self, alloc: Global) -> Result<AliasVerdictCache<'a>, AllocError>
        ensures { IfOk result (λ verdicts. (kind : KindOf) (test : AtomOf → Bool) → IsValidVerdictCache kind self.now test verdicts) }
    {
        AliasVerdictCache::new(alloc, &self.numbers)
    }
}
