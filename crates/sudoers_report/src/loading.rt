//! Loading the files of a policy, with its first error or all of them.

use std::alloc::{AllocError, Global};
use sudoers_explain::list_load_faults;
use sudoers_text::TextFault;
use sudoers_tree::{LoadFault, NamedFile, Policy, ReadFault};

/// Returns the policy of the files `files`; or its errors, the first of each line if `all`, and else the first alone.
///
/// # Errors
///
/// Memory ran out.
pub fn load_or_list_faults(
    alloc: Global,
    files: &[NamedFile],
    all: bool,
) -> Result<Result<Policy, Vec<LoadFault>>, AllocError> {
    let fault = match Policy::load(alloc, files) {
        Ok(policy) => return Ok(Ok(policy)),
        Err(fault) => fault,
    };
    if is_memory_fault(&fault) {
        return Err(AllocError);
    }
    if all {
        let faults = list_load_faults(alloc, files)?;
        if !faults.is_empty() {
            return Ok(Err(faults));
        }
    }
    let mut faults = Vec::with_capacity(alloc, 1)?;
    faults.push(fault)?;
    Ok(Err(faults))
}

/// Returns whether the error `fault` is want of memory, or holds it.
fn is_memory_fault(fault: &LoadFault) -> bool {
    match fault {
        LoadFault::NoMemory => true,
        LoadFault::InFile { fault, .. } => matches!(
            fault,
            ReadFault::NoMemory | ReadFault::Text(TextFault::NoMemory)
        ),
        LoadFault::TooManyFiles | LoadFault::SameName { .. } => false,
    }
}
