//! The exit status of `check`, and the policy.

ghost use Rattle.std.specs.Prelude.{◌≡◌, Ok, IfOk, IfSome};
ghost use Rattle.sudoers_run.specs.Check.{check_status_from_root, policy_if_loaded_from_root};

use std::alloc::Global;
use sudoers_files::Files;
use sudoers_run::{
    CheckWords, CheckedPolicy, Sink, ToolFault, run_check, run_check_and_keep_policy,
};

/// Reads a policy file, and returns whether it passes.
///
/// # Errors
///
/// Those of `run_check`.
pub fn check_policy<F: Files, W: Sink>(
    alloc: Global,
    files: &mut F,
    root: &[u8],
    words: &CheckWords,
    writer: &mut W,
) -> Result<u8, ToolFault>
    ensures status { IfOk result (λ status. IfSome (F.shelf files.old).files (λ known. check_status_from_root words.now.strict root.now known ≡ Ok status)) }
{
    run_check(alloc, files, root, words, writer)
}

/// Reads a policy file, and returns the policy.
///
/// # Errors
///
/// Those of `run_check`.
pub fn check_and_keep_policy<F: Files, W: Sink>(
    alloc: Global,
    files: &mut F,
    root: &[u8],
    words: &CheckWords,
    writer: &mut W,
) -> Result<CheckedPolicy, ToolFault>
    ensures policy { IfOk result (λ checked. IfSome (F.shelf files.old).files (λ known. policy_if_loaded_from_root root.now known ≡ Ok checked.policy)) }
{
    run_check_and_keep_policy(alloc, files, root, words, writer)
}
