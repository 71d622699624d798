//! What lint finds in a policy.

ghost use Rattle.std.specs.Prelude.{◌≡◌, ◌⊎◌, IfErr, IfOk, None};
ghost use Rattle.sudoers_check.specs.Chains.{HasCyclicAliasReachedFromSpecOrDefaults};
ghost use Rattle.sudoers_compare.specs.FlatSpecs.{placed_rows_of_flat_specs};
ghost use Rattle.sudoers_review.specs.Faults.{IsMemoryOrSizeFault};
ghost use Rattle.sudoers_review.specs.declared.compare_fault.CompareFault.TheVariants.{Cycle, NoMemory, TooLarge};
ghost use Rattle.sudoers_lint.specs.Findings.{all_findings, findings_of_rows, lint_findings};
ghost use Rattle.sudoers_lint.specs.Views.{findings_of_view};

use crate::default_findings::add_findings_of_lines;
use crate::finding_list::{FindingList, LintFinding};
use crate::row_findings::list_findings_of_specs;
use crate::unsilenced::keep_unsilenced;
use std::alloc::Global;
use sudoers_compare::{FlatSpec, flatten_specs};
use sudoers_line_rows::Tables;
use sudoers_match_list::{AcyclicWalk, ExpansionSource, MEMBER_LIMIT};
use sudoers_review::CompareFault;
use sudoers_tree::Policy;

/// User specifications, whose flat lists are rows of `tables`.
#[derive(Drop)]
struct FlatSpecsInTables<'a> {
    tables: &'a Tables,
    specs: Vec<FlatSpec<'a>>,
}

impl<'a> FlatSpecsInTables<'a> {
    /// Returns what is found of their rows, in file order.
    fn list_findings(&self, alloc: Global) -> Result<FindingList, CompareFault>
        ensures found { IfOk result (λ found. findings_of_view found.findings.items ≡ findings_of_rows None (placed_rows_of_flat_specs self.now.tables.now self.now.specs.items)) }
        ensures fault { IfErr result IsMemoryOrSizeFault }
    {
        list_findings_of_specs(alloc, self.tables, self.specs.as_slice())
    }
}

/// Returns what is found of `policy`, whether comments silence it or not.
fn list_all_findings(alloc: Global, policy: &Policy) -> Result<FindingList, CompareFault>
    ensures found { IfOk result (λ found. findings_of_view found.findings.items ≡ all_findings policy.now.walk.lines) }
    ensures straight { IfOk result (λ _. HasCyclicAliasReachedFromSpecOrDefaults policy.now.walk.lines → ⊥) }
    ensures fault { IfErr result (λ fault. (fault ≡ NoMemory) ⊎ ((fault ≡ TooLarge) ⊎ ((fault ≡ Cycle) × HasCyclicAliasReachedFromSpecOrDefaults policy.now.walk.lines))) }
{
    let acyclic = AcyclicWalk::new(alloc, policy.walk())?;
    let source = ExpansionSource::new(alloc, &acyclic, true)?;
    let mut allowance = MEMBER_LIMIT;
    let flat = FlatSpecsInTables {
        tables: source.lines.tables,
        specs: flatten_specs(alloc, &source, &mut allowance)?,
    };
    let mut found = flat.list_findings(alloc)?;
    add_findings_of_lines(alloc, &source.lines, &mut found)?;
    Ok(found)
}

/// Returns what lint finds in `policy`: the rules that its rows break, in file order, and then those that its Defaults lines break. A comment
/// `# lint: allow RULE...` at the end of a line, or alone on the line before it, silences these rules there.
///
/// # Errors
///
/// `Cycle`: a reachable alias is cyclic. `TooLarge`: more than 65,536 members come in the place of aliases, or there are more than 16 MiB of
/// findings, with and without comments. `NoMemory`: memory ran out.
pub fn find_lint_findings(alloc: Global, policy: &Policy) -> Result<Vec<LintFinding>, CompareFault>
    ensures findings { IfOk result (λ findings. findings_of_view findings.items ≡ lint_findings policy.now) }
    ensures straight { IfOk result (λ _. HasCyclicAliasReachedFromSpecOrDefaults policy.now.walk.lines → ⊥) }
    ensures fault { IfErr result (λ fault. (fault ≡ NoMemory) ⊎ ((fault ≡ TooLarge) ⊎ ((fault ≡ Cycle) × HasCyclicAliasReachedFromSpecOrDefaults policy.now.walk.lines))) }
{
    let found = list_all_findings(alloc, policy)?;
    Ok(keep_unsilenced(alloc, policy, found.findings)?)
}
