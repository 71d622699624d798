//! What lint finds in a policy.

ghost use Rattle.std.specs.Prelude.{◌≡◌, IfOk};
ghost use Rattle.sudoers_lint.specs.Findings.{lint_findings};
ghost use Rattle.sudoers_lint.specs.Views.{findings_of_view};

use std::alloc::Global;
use sudoers_lint::{LintFinding, find_lint_findings};
use sudoers_review::CompareFault;
use sudoers_tree::Policy;

/// Returns what lint finds in `policy`, without what comments silence.
///
/// # Errors
///
/// Those of `find_lint_findings`.
pub fn findings_of_policy(alloc: Global, policy: &Policy) -> Result<Vec<LintFinding>, CompareFault>
    ensures findings { IfOk result (λ findings. findings_of_view findings.items ≡ lint_findings policy.now) }
{
    find_lint_findings(alloc, policy)
}
