//! Laws of rewritten rules that are printed. Each is the contract of a function that does nothing.

ghost use Rattle.std.specs.Prelude.{◌≡◌, true, List, Ok};
ghost use Rattle.std.specs.List.{AllByRecursion};
ghost use Rattle.sudoers_tree.specs.Line.{Line as LineOf};
ghost use Rattle.laws_program.specs.Sound.{AreWalkLinesWithoutNul};
ghost use Rattle.sudoers_tree.specs.Load.{LoadedPolicy};
ghost use Rattle.laws_print.specs.Writable.{IsWritableNode};
ghost use Rattle.sudoers_cvt_rules.specs.Rules.{rule_nodes_in_print_order, rules_of_policy_lines, printed_rules, is_printed_within_limits};
ghost use Rattle.laws_program.specs.ReadAs.{IsPolicyOfPrintedRules, IsTextReadAsNodes};
ghost use Rattle.sudoers_cvt_rewrite.specs.Rewrite.{rewritten_lines_of_policy, rules_with_used_definitions, PolicyChanges as ChangesOf};
ghost use Rattle.laws_program.specs.Expanded.{lines_with_aliases_replaced};

use laws_load::text_loads;
use laws_print::{
    printed_line_is_line, printed_line_is_read, printed_lines_are_cut, read_can_be_written,
    writable_is_kept,
};
use sudoers_tree::laws::{one_outcome, read_is};

/// Each line of the rules of a policy can be written with its aliases replaced.
pub fn expanded_rules_can_be_written()
    ensures { (lines : List LineOf) → AreWalkLinesWithoutNul lines → AllByRecursion IsWritableNode (rule_nodes_in_print_order (rules_with_used_definitions (lines_with_aliases_replaced lines))) }
{
    read_can_be_written();
    writable_is_kept();
}

/// The text that is printed of the rules of a policy with its aliases replaced, if it is within the limits, is a policy. Its lines say
/// the same as those of the rules, one by one.
pub fn expanded_rules_are_read()
    ensures { (lines : List LineOf) → AreWalkLinesWithoutNul lines → is_printed_within_limits (rules_with_used_definitions (lines_with_aliases_replaced lines)) ≡ true
        → IsTextReadAsNodes (printed_rules (rules_with_used_definitions (lines_with_aliases_replaced lines))) (rule_nodes_in_print_order (rules_with_used_definitions (lines_with_aliases_replaced lines))) }
{
    expanded_rules_can_be_written();
    printed_line_is_read();
    printed_line_is_line();
    printed_lines_are_cut();
    read_is();
    one_outcome();
    text_loads();
}

/// The text that is printed of the rules that a filter leaves, if it is within the limits, is a policy. Its lines say the same as those
/// of the rules, one by one.
pub fn filtered_rules_are_read()
    ensures { (changes : ChangesOf) (lines : List LineOf) → AreWalkLinesWithoutNul lines → is_printed_within_limits (rules_with_used_definitions (rewritten_lines_of_policy changes lines)) ≡ true
        → IsTextReadAsNodes (printed_rules (rules_with_used_definitions (rewritten_lines_of_policy changes lines))) (rule_nodes_in_print_order (rules_with_used_definitions (rewritten_lines_of_policy changes lines))) }
{
    read_can_be_written();
    writable_is_kept();
    printed_line_is_read();
    printed_line_is_line();
    printed_lines_are_cut();
    read_is();
    one_outcome();
    text_loads();
}

/// What is read of the printed rules of a policy with its aliases replaced gives rules that are printed as the same text, which is within
/// the limits again.
pub fn second_printing_of_expansion_is_same()
    ensures text { (lines : List LineOf) (policy : LoadedPolicy) → AreWalkLinesWithoutNul lines
        → IsPolicyOfPrintedRules (rules_with_used_definitions (lines_with_aliases_replaced lines)) policy → printed_rules (rules_of_policy_lines policy.walk.lines) ≡ printed_rules (rules_with_used_definitions (lines_with_aliases_replaced lines)) }
    ensures size { (lines : List LineOf) (policy : LoadedPolicy) → AreWalkLinesWithoutNul lines
        → IsPolicyOfPrintedRules (rules_with_used_definitions (lines_with_aliases_replaced lines)) policy → is_printed_within_limits (rules_of_policy_lines policy.walk.lines) ≡ true }
{
    expanded_rules_are_read();
    text_loads();
}
