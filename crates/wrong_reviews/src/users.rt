//! What two policies grant users otherwise.

ghost use Rattle.std.specs.Prelude.{IfOk};
ghost use Rattle.sudoers_review_users.specs.AllUsers.{IsTextOfNamedUsers};

use std::alloc::Global;
use sudoers_list_people::People;
use sudoers_review_users::{AskedUsers, UserChanges, UserChangesFault, list_user_changes};
use sudoers_tree::Policy;

/// Returns what `old` and `new` grant users of `people` otherwise on a host.
///
/// # Errors
///
/// Those of `list_user_changes`.
pub fn changes_of_users(
    alloc: Global,
    old: &Policy,
    new: &Policy,
    people: &People,
    asked: &AskedUsers<'_>,
) -> Result<UserChanges, UserChangesFault>
    ensures users { IfOk result (λ changes. IsTextOfNamedUsers old.now new.now asked.now.moment people.now asked.now.host.now asked.now.interfaces.now asked.now.names.now changes.users.text.items) }
{
    list_user_changes(alloc, old, new, people, asked)
}
