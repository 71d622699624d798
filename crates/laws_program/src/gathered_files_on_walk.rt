//! The law of gathered files: the walk of their policy has each of them, in their order.

ghost use Rattle.std.specs.List.{range_with_len};
ghost use Rattle.std.specs.Prelude.{◌≡◌, List, ℕ, Ok, length};
ghost use Rattle.sudoers_tree.specs.declared.named_files.NamedFile.{NamedFile as NamedFileOf};
ghost use Rattle.sudoers_tree.specs.Load.{LoadedPolicy, policy_or_load_fault};
ghost use Rattle.sudoers_files.specs.Gather.{gathered_files_or_fault};

use sudoers_text::laws::{line_alone_is_whole, lines_stand_alone};
use sudoers_tree::laws::reads_is;

/// A law: the files that are gathered come onto the walk of their policy in their order, each once, if they are a policy.
pub fn gathered_files_are_walked()
    ensures { (known : List NamedFileOf) (root : List ℕ) (found : List NamedFileOf) (policy : LoadedPolicy) → gathered_files_or_fault known root ≡ Ok found
        → policy_or_load_fault found ≡ Ok policy → policy.walk.on ≡ range_with_len 0 (length found) }
{
    reads_is();
    lines_stand_alone();
    line_alone_is_whole();
}
