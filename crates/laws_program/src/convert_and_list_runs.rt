//! Laws of what the program writes. Each is the contract of a function that does nothing.

ghost use Rattle.std.specs.Prelude.{◌≡◌, ℕ, Bool, List, Ok};
ghost use Rattle.std.specs.Borrow.{Bor};
ghost use Rattle.sudoers_run.specs.declared.command_words.ListWords.{ListWords as WordsOf};
ghost use Rattle.sudoers_tree.specs.declared.named_files.NamedFile.{NamedFile as NamedFileOf};
ghost use Rattle.sudoers_run.specs.Convert.{convert_output};
ghost use Rattle.sudoers_run.specs.List.{IsListOutcome, ListCommandOutcome};
ghost use Rattle.laws_program.specs.Converted.{IsConvertedTextWithSameAnswers, IsExpandedTextWithSameAnswers, IsFaithfulFilteredText, convert_words_with_expand, convert_words_with_filter, convert_words_without_changes};
ghost use Rattle.laws_program.specs.SameText.{HaveSameAnswers};

use crate::answers::printed_rules_answer;
use crate::printing::{printed_rules_are_read, second_printing_is_same};
use crate::rewriting::{
    expanded_rules_are_read, filtered_rules_are_read, second_printing_of_expansion_is_same,
};
use crate::rewritten_answers::printed_expansion_answers;
use laws_load::{text_is_gathered, text_loads};
use sudoers_check::laws::chains_are;
use sudoers_list::laws::{one_listing, one_reason};
use sudoers_match::laws::{one_answer, one_runas_default};
use sudoers_tree::laws::{loaded_is_walk, loaded_lines_are_whole};

/// What `convert -f sudoers` prints is a policy, which answers each request as the policy that was read, and no request otherwise. Each
/// user has the same runas_default, and rules at the same places. A reachable alias is cyclic in both, or in neither. A run of
/// `convert` on what is printed, as the only file, prints it again.
pub fn converted_policy_answers()
    ensures { (prune : Bool) (root : List ℕ) (known : List NamedFileOf) (out : List ℕ) → convert_output (convert_words_without_changes prune) root known ≡ Ok out
        → IsConvertedTextWithSameAnswers prune root known out }
{
    loaded_is_walk();
    loaded_lines_are_whole();
    printed_rules_are_read();
    printed_rules_answer();
    second_printing_is_same();
    text_loads();
    text_is_gathered();
}

/// What `convert -f sudoers -e` prints is a policy, which answers each request as the policy that was read, numbers aside. Each user has
/// the same runas_default, and rules at the same places. No reachable alias is cyclic, neither there nor in what was read. A
/// run of `convert` without `-e` on what is printed, as the only file, prints it again.
pub fn expanded_policy_is_printed()
    ensures { (prune : Bool) (root : List ℕ) (known : List NamedFileOf) (out : List ℕ) → convert_output (convert_words_with_expand prune) root known ≡ Ok out
        → IsExpandedTextWithSameAnswers root known out }
{
    loaded_is_walk();
    loaded_lines_are_whole();
    chains_are();
    expanded_rules_are_read();
    printed_expansion_answers();
    second_printing_of_expansion_is_same();
    text_loads();
    text_is_gathered();
}

/// Two policies of which `convert -f sudoers -e` prints the same text answer each request the same, numbers aside. Each user has the same
/// runas_default, and rules at the same places. No reachable alias is cyclic in either.
pub fn same_expansions_answer_same()
    ensures { (prune other_prune : Bool) (root : List ℕ) (known : List NamedFileOf) (other_root : List ℕ) (other_known : List NamedFileOf) (out : List ℕ)
        → convert_output (convert_words_with_expand prune) root known ≡ Ok out → convert_output (convert_words_with_expand other_prune) other_root other_known ≡ Ok out
        → HaveSameAnswers root known other_root other_known }
{
    expanded_policy_is_printed();
}

/// What `convert -f sudoers -m` prints, with or without `-p` and `-e`, is a policy. Its lines say what the rules say that the filter
/// leaves. No reachable alias of what was read is cyclic.
pub fn filtered_policy_is_printed()
    ensures { (text : Bor (List ℕ)) (prune expand : Bool) (root : List ℕ) (known : List NamedFileOf) (out : List ℕ)
        → convert_output (convert_words_with_filter text prune expand) root known ≡ Ok out → IsFaithfulFilteredText text.now prune expand root known out }
{
    loaded_is_walk();
    loaded_lines_are_whole();
    chains_are();
    filtered_rules_are_read();
    text_loads();
    text_is_gathered();
}

/// The files of the policy, passwd, group and the words determine what `list` writes and its status, or its fault.
pub fn one_list_outcome()
    ensures { (words : WordsOf) (root : List ℕ) (known : List NamedFileOf) (passwd group : List ℕ) (outcome other : ListCommandOutcome)
        → IsListOutcome words root known passwd group outcome → IsListOutcome words root known passwd group other → outcome ≡ other }
{
    one_listing();
    one_reason();
    one_answer();
    one_runas_default();
}
