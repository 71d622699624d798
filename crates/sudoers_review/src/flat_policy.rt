//! Policies whose lists are flat.

ghost use Rattle.std.specs.Prelude.{◌≡◌, ◌⊎◌, map, IfOk, IfErr};
ghost use Rattle.sudoers_check.specs.Chains.{HasCyclicAliasReachedFromSpecOrDefaults};
ghost use Rattle.laws_compare.specs.Computed.{content_of_lines};
ghost use Rattle.sudoers_compare.specs.FlatDefaults.{flat_runas_default_in_tables};
ghost use Rattle.sudoers_compare.specs.FlatSpecs.{placed_row_of_view, placed_rows_of_flat_specs, placed_rows_of_policy};
ghost use Rattle.sudoers_review.specs.declared.compare_fault.CompareFault.TheVariants.{Cycle, NoMemory, TooLarge};

use crate::compare_fault::CompareFault;
use crate::other_defaults::OtherDefaults;
use std::alloc::{AllocError, Global};
use sudoers_compare::{
    FlatRunasDefault, FlatSpec, PlacedFlatRow, flatten_runas_defaults, flatten_specs,
    list_flat_rows,
};
use sudoers_line_rows::Tables;
use sudoers_match_list::{AcyclicWalk, ExpansionSource, MEMBER_LIMIT};
use sudoers_tree::Policy;

/// A policy with its user specifications and its settings of runas_default, whose lists are flat, rows of `tables`, and its other
/// parameters of Defaults.
#[derive(Drop)]
pub struct FlatPolicy<'a> {
    pub policy: &'a Policy,
    pub tables: &'a Tables,
    pub specs: Vec<FlatSpec<'a>>,
    pub settings: Vec<FlatRunasDefault<'a>>,
    pub others: OtherDefaults,
}

impl<'a> FlatPolicy<'a> {
    /// Returns `policy` with its lists flat.
    ///
    /// # Errors
    ///
    /// `Cycle`: a reachable alias is cyclic. `TooLarge`: more than 65,536 members come in the place of aliases.
    /// `NoMemory`: memory ran out.
    pub fn new(alloc: Global, policy: &'a Policy) -> Result<FlatPolicy<'a>, CompareFault>
        ensures policy { IfOk result (λ flat. flat.policy ≡ policy.entry) }
        ensures rows { IfOk result (λ flat. placed_rows_of_flat_specs flat.tables.now flat.specs.items ≡ placed_rows_of_policy policy.now.walk.lines) }
        ensures settings { IfOk result (λ flat. map (flat_runas_default_in_tables flat.tables.now) flat.settings.items ≡ (content_of_lines policy.now.walk.lines).runas_defaults) }
        ensures straight { IfOk result (λ flat. HasCyclicAliasReachedFromSpecOrDefaults policy.now.walk.lines → ⊥) }
        ensures fault { IfErr result (λ fault. (fault ≡ NoMemory) ⊎ ((fault ≡ TooLarge) ⊎ ((fault ≡ Cycle) × HasCyclicAliasReachedFromSpecOrDefaults policy.now.walk.lines))) }
    {
        let acyclic = AcyclicWalk::new(alloc, policy.walk())?;
        let source = ExpansionSource::new(alloc, &acyclic, true)?;
        let mut allowance = MEMBER_LIMIT;
        let specs = flatten_specs(alloc, &source, &mut allowance)?;
        let settings = flatten_runas_defaults(alloc, &source, &mut allowance)?;
        let others = OtherDefaults::new(alloc, &source, &mut allowance)?;
        Ok(FlatPolicy {
            policy,
            tables: source.lines.tables,
            specs,
            settings,
            others,
        })
    }

    /// Returns the rows, in file order.
    pub fn list_rows(&self, alloc: Global) -> Result<Vec<PlacedFlatRow<'_>>, AllocError>
        ensures { IfOk result (λ rows. map placed_row_of_view rows.items ≡ placed_rows_of_flat_specs self.now.tables.now self.now.specs.items) }
    {
        list_flat_rows(alloc, self.tables, self.specs.as_slice())
    }
}
