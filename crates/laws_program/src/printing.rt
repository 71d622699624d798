//! Laws of printed rules. Each is the contract of a function that does nothing.

ghost use Rattle.std.specs.Prelude.{◌≡◌, true, List, Ok};
ghost use Rattle.std.specs.List.{AllByRecursion};
ghost use Rattle.sudoers_tree.specs.Line.{Line as LineOf};
ghost use Rattle.laws_program.specs.Sound.{AreWalkLinesWithoutNul};
ghost use Rattle.sudoers_tree.specs.Load.{LoadedPolicy};
ghost use Rattle.laws_print.specs.Writable.{IsWritableNode};
ghost use Rattle.sudoers_cvt_rules.specs.Rules.{rules_of_policy_lines, rule_nodes_in_print_order, printed_rules, is_printed_within_limits};
ghost use Rattle.laws_program.specs.ReadAs.{IsPolicyOfPrintedRules, IsTextReadAsNodes};

use laws_load::text_loads;
use laws_print::{
    printed_line_is_line, printed_line_is_read, printed_lines_are_cut, read_can_be_written,
};
use sudoers_tree::laws::{one_outcome, read_is};

/// Each line of the rules of a policy can be written.
pub fn rules_can_be_written()
    ensures { (lines : List LineOf) → AreWalkLinesWithoutNul lines → AllByRecursion IsWritableNode (rule_nodes_in_print_order (rules_of_policy_lines lines)) }
{
    read_can_be_written();
}

/// The text that is printed of the rules of a policy, if it is within the limits, is a policy. Its lines say the same as those of the
/// rules, one by one.
pub fn printed_rules_are_read()
    ensures { (lines : List LineOf) → AreWalkLinesWithoutNul lines → is_printed_within_limits (rules_of_policy_lines lines) ≡ true
        → IsTextReadAsNodes (printed_rules (rules_of_policy_lines lines)) (rule_nodes_in_print_order (rules_of_policy_lines lines)) }
{
    rules_can_be_written();
    printed_line_is_read();
    printed_line_is_line();
    printed_lines_are_cut();
    read_is();
    one_outcome();
    text_loads();
}

/// What is read of the printed rules of a policy gives rules that are printed as the same text, which is within the limits again.
pub fn second_printing_is_same()
    ensures text { (lines : List LineOf) (policy : LoadedPolicy) → AreWalkLinesWithoutNul lines
        → IsPolicyOfPrintedRules (rules_of_policy_lines lines) policy → printed_rules (rules_of_policy_lines policy.walk.lines) ≡ printed_rules (rules_of_policy_lines lines) }
    ensures size { (lines : List LineOf) (policy : LoadedPolicy) → AreWalkLinesWithoutNul lines
        → IsPolicyOfPrintedRules (rules_of_policy_lines lines) policy → is_printed_within_limits (rules_of_policy_lines policy.walk.lines) ≡ true }
{
    printed_rules_are_read();
    text_loads();
}
