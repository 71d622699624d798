//! Whether a reachable alias is cyclic.

ghost use Rattle.std.specs.Prelude.{◌↔◌, IsTrue, false, IfOk};
ghost use Rattle.sudoers_line_rows.specs.View.{node_of_view};
ghost use Rattle.sudoers_check.specs.Chains.{HasCyclicAliasReachedFromSpecOrDefaults};
ghost use Rattle.sudoers_match_list.specs.Cycle.{ListLeadsToCyclicAlias};
ghost use Rattle.sudoers_match_list.specs.Search.{IsValidVerdictCache};
ghost use Rattle.sudoers_match_list.specs.internal.Roots.{single_member_list_naming_alias, aliases_in_spec_or_defaults, SomeAliasLeadsToCycle, AreCachesOfAllKindsValid, DecidesWhetherAliasLeadsToCycle, DecidesConditionAndKeepsCaches};

use crate::alias_verdicts::AliasVerdictCache;
use crate::kind::MemberKind;
use crate::numbered_alias::find_alias_of_atom;
use crate::verdict::LastHitOrCycle;
use std::alloc::{AllocError, Global};
use sudoers_check::DefinitionNumbers;
use sudoers_tree::{AliasMember, BorrowedAtom, Kind, Node, Policy, find_alias_members};

/// Lists of which no member matches.
struct NeverMatchingKind;

impl MemberKind for NeverMatchingKind {
    type Asked = ();

    ghost use Rattle.std.specs.Prelude.{false};

    ghost test = { λ _ _. false };

    fn hits(_atom: &BorrowedAtom<'_>, _asked: &()) -> bool {
        false
    }
}

/// What is known of the aliases of each kind.
#[derive(Drop)]
struct CycleSearchByKind<'a> {
    users: AliasVerdictCache<'a>,
    runas: AliasVerdictCache<'a>,
    hosts: AliasVerdictCache<'a>,
    commands: AliasVerdictCache<'a>,
}

/// Returns whether the alias `name` of this kind leads to a cyclic alias.
fn is_cycle_reached_from_name<'a>(
    verdicts: &mut AliasVerdictCache<'a>,
    numbers: &DefinitionNumbers<'a>,
    kind: Kind,
    name: &[u8],
) -> Result<bool, AllocError>
    requires { IsValidVerdictCache kind numbers.now.walk (λ _. false) verdicts.old }
    ensures { IfOk result (λ cycle. DecidesWhetherAliasLeadsToCycle kind numbers.now.walk name.now verdicts.new cycle) }
{
    // laws
    numbers.walk.is_walk();
    let Some(alias) = find_alias_of_atom(numbers, kind, &BorrowedAtom::Alias(name)) else {
        return Ok(false);
    };
    match verdicts.decide_alias::<NeverMatchingKind>(numbers, kind, &alias, &())? {
        LastHitOrCycle::Latest(_) => Ok(false),
        LastHitOrCycle::Cyclic => Ok(true),
    }
}

impl<'a> CycleSearchByKind<'a> {
    fn new(
        alloc: Global,
        numbers: &DefinitionNumbers<'a>,
    ) -> Result<CycleSearchByKind<'a>, AllocError>
        ensures { IfOk result (λ known. AreCachesOfAllKindsValid numbers.now.walk known) }
    {
        Ok(CycleSearchByKind {
            users: AliasVerdictCache::new(alloc, numbers)?,
            runas: AliasVerdictCache::new(alloc, numbers)?,
            hosts: AliasVerdictCache::new(alloc, numbers)?,
            commands: AliasVerdictCache::new(alloc, numbers)?,
        })
    }

    /// Returns whether the alias `name` of this kind leads to a cyclic alias.
    fn is_cycle_reached_from_alias(
        &mut self,
        numbers: &DefinitionNumbers<'a>,
        kind: Kind,
        name: &[u8],
    ) -> Result<bool, AllocError>
        requires { AreCachesOfAllKindsValid numbers.now.walk self.old }
        ensures { IfOk result (λ cycle. DecidesConditionAndKeepsCaches numbers.now.walk (ListLeadsToCyclicAlias kind numbers.now.walk (single_member_list_naming_alias name.now)) self.new cycle) }
    {
        match kind {
            Kind::User => is_cycle_reached_from_name(&mut self.users, numbers, Kind::User, name),
            Kind::Runas => is_cycle_reached_from_name(&mut self.runas, numbers, Kind::Runas, name),
            Kind::Host => is_cycle_reached_from_name(&mut self.hosts, numbers, Kind::Host, name),
            Kind::Cmnd => is_cycle_reached_from_name(&mut self.commands, numbers, Kind::Cmnd, name),
        }
    }

    /// Returns whether one of `aliases` leads to a cyclic alias.
    fn is_cycle_reached_from_any(
        &mut self,
        numbers: &DefinitionNumbers<'a>,
        aliases: &[AliasMember<'_>],
    ) -> Result<bool, AllocError>
        requires { AreCachesOfAllKindsValid numbers.now.walk self.old }
        ensures { IfOk result (λ cycle. DecidesConditionAndKeepsCaches numbers.now.walk (SomeAliasLeadsToCycle numbers.now.walk aliases.now) self.new cycle) }
    {
        for alias in aliases {
            let cycle = self.is_cycle_reached_from_alias(numbers, alias.kind, alias.name)?;
            if cycle {
                return Ok(true);
            }
        }
        Ok(false)
    }

    /// Returns whether a list of a user specification or of a Defaults line leads to a cyclic alias. Other lines have no such list.
    fn is_cycle_reached_from_spec_or_defaults(
        &mut self,
        alloc: Global,
        numbers: &DefinitionNumbers<'a>,
        node: &Node<'_>,
    ) -> Result<bool, AllocError>
        requires { AreCachesOfAllKindsValid numbers.now.walk self.old }
        ensures { IfOk result (λ cycle. DecidesConditionAndKeepsCaches numbers.now.walk (SomeAliasLeadsToCycle numbers.now.walk (aliases_in_spec_or_defaults (node_of_view node.now))) self.new cycle) }
    {
        match node {
            Node::Spec { .. } | Node::Defaults { .. } => {
                let aliases = find_alias_members(alloc, node)?;
                self.is_cycle_reached_from_any(numbers, aliases.as_slice())
            }
            _ => Ok(false),
        }
    }
}

/// Returns whether some alias is cyclic to which a user specification or a Defaults line leads (sudoers(5), Aliases).
///
/// # Errors
///
/// Memory ran out.
pub fn has_reachable_cycle_in_policy(alloc: Global, policy: &Policy) -> Result<bool, AllocError>
    ensures { IfOk result (λ cycle. IsTrue cycle ↔ HasCyclicAliasReachedFromSpecOrDefaults policy.now.walk.lines) }
{
    has_reachable_cycle_in_numbered_walk(alloc, &DefinitionNumbers::new(alloc, policy.walk())?)
}

/// Returns whether such an alias of the walk that `numbers` number is cyclic.
///
/// # Errors
///
/// Memory ran out.
pub fn has_reachable_cycle_in_numbered_walk(
    alloc: Global,
    numbers: &DefinitionNumbers<'_>,
) -> Result<bool, AllocError>
    ensures { IfOk result (λ cycle. IsTrue cycle ↔ HasCyclicAliasReachedFromSpecOrDefaults numbers.now.walk) }
{
    let mut known = CycleSearchByKind::new(alloc, numbers)?;
    let lines = numbers.walk.lines();
    for row in lines.rows {
        let node = lines.tables.node_of_row(&row.node);
        let cycle = known.is_cycle_reached_from_spec_or_defaults(alloc, numbers, &node)?;
        if cycle {
            return Ok(true);
        }
    }
    Ok(false)
}
