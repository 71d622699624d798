//! Laws of what the program writes for a policy in the dialect of sudo. Each is the contract of a function that does nothing.

ghost use Rattle.std.specs.Prelude.{◌≡◌, ℕ, Bool, List, Ok, map};
ghost use Rattle.sudoers_tree.specs.declared.named_files.NamedFile.{NamedFile as NamedFileOf};
ghost use Rattle.sudoers_dialect.specs.Output.{adapted_file};
ghost use Rattle.sudoers_dialect.specs.Text.{adapted_text};
ghost use Rattle.sudoers_run.specs.Convert.{convert_output};
ghost use Rattle.laws_program.specs.Converted.{IsConvertedTextWithSameAnswers, IsExpandedTextWithSameAnswers, convert_words_with_expand, convert_words_without_changes};

use crate::convert_and_list_runs::{converted_policy_answers, expanded_policy_is_printed};
use crate::printing::printed_rules_are_read;
use crate::rewriting::expanded_rules_are_read;
use laws_dialect::policy_is_adapted;
use sudoers_tree::laws::{loaded_is_walk, loaded_lines_are_whole};

/// What `convert --dialect sudo -f sudoers` prints without `-e` and `-m` is a policy without the option. It answers each request as the
/// files do in the dialect, as `converted_policy_answers` says. In the dialect it is the same text.
pub fn policy_in_dialect_is_converted()
    ensures answers { (prune : Bool) (root : List ℕ) (known : List NamedFileOf) (out : List ℕ) → convert_output (convert_words_without_changes prune) root (map adapted_file known) ≡ Ok out
        → IsConvertedTextWithSameAnswers prune root (map adapted_file known) out }
    ensures stays { (prune : Bool) (root : List ℕ) (known : List NamedFileOf) (out : List ℕ) → convert_output (convert_words_without_changes prune) root (map adapted_file known) ≡ Ok out
        → adapted_text out ≡ out }
{
    converted_policy_answers();
    loaded_is_walk();
    loaded_lines_are_whole();
    printed_rules_are_read();
    policy_is_adapted();
}

/// The same of `convert --dialect sudo -f sudoers -e` without `-m`, as `expanded_policy_is_printed` says.
pub fn policy_in_dialect_is_expanded()
    ensures answers { (prune : Bool) (root : List ℕ) (known : List NamedFileOf) (out : List ℕ) → convert_output (convert_words_with_expand prune) root (map adapted_file known) ≡ Ok out
        → IsExpandedTextWithSameAnswers root (map adapted_file known) out }
    ensures stays { (prune : Bool) (root : List ℕ) (known : List NamedFileOf) (out : List ℕ) → convert_output (convert_words_with_expand prune) root (map adapted_file known) ≡ Ok out
        → adapted_text out ≡ out }
{
    expanded_policy_is_printed();
    loaded_is_walk();
    loaded_lines_are_whole();
    expanded_rules_are_read();
    policy_is_adapted();
}
