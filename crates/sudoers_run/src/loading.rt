//! Loading the policy of a command: its files, from a root on.

ghost use Rattle.std.specs.Prelude.{◌≡◌, false, Ok, IfErr, IfOk, IfSome, MatchResult};
ghost use Rattle.sudoers_files.specs.Gather.{gathered_files_or_fault};
ghost use Rattle.sudoers_tree.specs.Load.{policy_or_load_fault};
ghost use Rattle.sudoers_edit.specs.Memory.{IsMemoryFreeLoadFault};
ghost use Rattle.sudoers_run.specs.Policy.{IsPolicyFromRoot, IsFaultBeforeLoading, CommandLeavesFilesUnchanged, IsStatedOrOutsideGatherFault};
ghost use Rattle.sudoers_run.specs.Edit.{layer_result_with_tool_fault};

use crate::fault::LayerFault;
use std::alloc::{AllocError, Global};
use sudoers_files::{Files, gather};
use sudoers_text::TextFault;
use sudoers_tree::{LoadFault, NamedFile, Policy, ReadFault};

/// Gathers the files of a policy from `root` on, loads them, and returns the policy or its error.
///
/// # Errors
///
/// `Gather`: the files cannot be gathered. `NoMemory`: memory ran out.
pub fn gather_and_load_policy<F: Files>(
    alloc: Global,
    files: &mut F,
    root: &[u8],
) -> Result<Result<Policy, LoadFault>, LayerFault>
    ensures policy { IfOk result (λ policy. IfSome (F.shelf files.old).files (IsPolicyFromRoot root.now policy)) }
    ensures fault { IfErr result (λ fault. IfSome (F.shelf files.old).files (IsStatedOrOutsideGatherFault root.now fault)) }
    ensures named { MatchResult result (λ policy. IfErr policy IsMemoryFreeLoadFault) IsFaultBeforeLoading }
    ensures searches { CommandLeavesFilesUnchanged (layer_result_with_tool_fault result) (F.shelf files.old) (F.shelf files.new) }
{
    let found = gather_policy_files(alloc, files, root)?;
    Ok(load_gathered_files(alloc, found.as_slice())?)
}

/// Gathers the files of a policy from `root` on, and returns them.
///
/// # Errors
///
/// `Gather`: the files cannot be gathered. `NoMemory`: memory ran out.
pub fn gather_policy_files<F: Files>(
    alloc: Global,
    files: &mut F,
    root: &[u8],
) -> Result<Vec<NamedFile>, LayerFault>
    ensures found { IfOk result (λ found. IfSome (F.shelf files.old).files (λ known. gathered_files_or_fault known root.now ≡ Ok found.items)) }
    ensures fault { IfErr result (λ fault. IfSome (F.shelf files.old).files (IsStatedOrOutsideGatherFault root.now fault)) }
    ensures named { IfErr result IsFaultBeforeLoading }
    ensures searches { CommandLeavesFilesUnchanged (layer_result_with_tool_fault result) (F.shelf files.old) (F.shelf files.new) }
{
    Ok(gather(alloc, root, files)?)
}

/// Returns the policy of the files `found`, or its error.
///
/// # Errors
///
/// Memory ran out.
pub fn load_gathered_files(
    alloc: Global,
    found: &[NamedFile],
) -> Result<Result<Policy, LoadFault>, AllocError>
    ensures policy { IfOk result (λ policy. policy_or_load_fault found.now ≡ policy) }
    ensures named { IfOk result (λ policy. IfErr policy IsMemoryFreeLoadFault) }
{
    match Policy::load(alloc, found) {
        Ok(policy) => Ok(Ok(policy)),
        Err(fault) if is_memory_fault(&fault) => Err(AllocError),
        Err(fault) => Ok(Err(fault)),
    }
}

/// Returns whether the error `fault` is want of memory, or holds it.
fn is_memory_fault(fault: &LoadFault) -> bool
    ensures { result ≡ false → IsMemoryFreeLoadFault fault.now }
{
    match fault {
        LoadFault::NoMemory => true,
        LoadFault::InFile { fault, .. } => matches!(
            fault,
            ReadFault::NoMemory | ReadFault::Text(TextFault::NoMemory)
        ),
        LoadFault::TooManyFiles | LoadFault::SameName { .. } => false,
    }
}
