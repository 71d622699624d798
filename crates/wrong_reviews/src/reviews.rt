//! What is printed of two policies that differ, and of commands that never decide.

ghost use Rattle.std.specs.Prelude.{◌≡◌, IfOk};
ghost use Rattle.sudoers_review.specs.ChangedText.{IsChangesText};
ghost use Rattle.sudoers_review.specs.OverruledText.{overruled_text};

use std::alloc::Global;
use sudoers_compare::CountedChanges;
use sudoers_review::{
    CompareFault, OverruledCommands, PolicyChanges, list_changes, list_overruled_commands,
};
use sudoers_tree::Policy;

/// Returns the lines on what `old` and `new` grant otherwise.
///
/// # Errors
///
/// Those of `list_changes`.
pub fn changes_of_policy(
    alloc: Global,
    counted: CountedChanges,
    old: &Policy,
    new: &Policy,
) -> Result<PolicyChanges, CompareFault>
    ensures text { IfOk result (λ changes. IsChangesText counted old.now new.now changes.answers.text.items) }
{
    list_changes(alloc, counted, old, new)
}

/// Returns a line for each command of `policy` that never decides.
///
/// # Errors
///
/// Those of `list_overruled_commands`.
pub fn overruled_commands_of_policy(
    alloc: Global,
    policy: &Policy,
) -> Result<OverruledCommands, CompareFault>
    ensures text { IfOk result (λ found. found.text.items ≡ overruled_text policy.now) }
{
    list_overruled_commands(alloc, policy)
}
