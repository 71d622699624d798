//! Rules, printed as the text of a policy.

ghost use Rattle.std.specs.Prelude.{◌≡◌, ◌⊎◌, true, false, ◌≤◌, ◌<◌, ◌++◌, length, map, IfOk, OnOk, IfErr};
ghost use Rattle.std.specs.List.{AllByRecursion};
ghost use Rattle.sudoers_text.specs.Fault.{text_limit, line_limit};
ghost use Rattle.sudoers_line_rows.specs.View.{member_of_view};
ghost use Rattle.sudoers_match.specs.Heads.{AccumulatedCommandSettings as HeadOf};
ghost use Rattle.sudoers_match.specs.IsHead.{HoldsCommandSettings};
ghost use Rattle.sudoers_cvt_spell.specs.Commands.{printed_runas_options_tags_and_command};
ghost use Rattle.sudoers_cvt_spell.specs.Lines.{printed_line, printed_lines};
ghost use Rattle.sudoers_cvt_rules.specs.declared.fault.CvtFault.TheVariants.{TooLarge, NoMemory};
ghost use Rattle.sudoers_cvt_rules.specs.Effective.{effective_command};
ghost use Rattle.sudoers_cvt_rules.specs.Rules.{is_printed_within_limits, printed_rules};
ghost use Rattle.sudoers_cvt_rules.specs.Rule.{node_of_rule_view};
ghost use Rattle.sudoers_cvt_rules.specs.internal.Long.{PrintedRulesFitLimits, IsPrintFault, IsFaultOfAppendingLines};

use crate::fault::CvtFault;
use crate::printed_commands::append_effective_command;
use crate::printed_lines::make_rule_line_within_limit;
use crate::rule::Rule;
use crate::rules::Rules;
use std::alloc::{AllocError, Global};
use sudoers_line_rows::Member;
use sudoers_match::CommandSettings;
use sudoers_text::TEXT_LIMIT;

/// Appends rules, a line each.
fn append_rule_lines(alloc: Global, text: &mut Vec<u8>, rules: &[Rule<'_>]) -> Result<(), CvtFault>
    ensures appended { OnOk result (text.new.items ≡ text.old.items ++ printed_lines (map node_of_rule_view rules.now)) }
    ensures fits { OnOk result (length text.old.items ≤ text_limit → length text.new.items ≤ text_limit) }
    ensures lines { OnOk result (AllByRecursion (λ n. length (printed_line n) ≤ line_limit) (map node_of_rule_view rules.now)) }
    ensures fault { IfErr result (IsFaultOfAppendingLines text.old.items (map node_of_rule_view rules.now)) }
{
    for rule in rules {
        let line = make_rule_line_within_limit(alloc, rule)?;
        text.extend_from_slice(line.as_slice())?;
        if text.len() > TEXT_LIMIT {
            return Err(CvtFault::TooLarge);
        }
    }
    Ok(())
}

/// Returns `rules` as the text of a policy: all Defaults lines, then all definitions, then all user specifications.
///
/// # Errors
///
/// `TooLarge`: the text passes 1,048,576 bytes, or one of its lines 65,536. `NoMemory`: memory ran out.
pub fn print(alloc: Global, rules: &Rules<'_>) -> Result<Vec<u8>, CvtFault>
    ensures text { IfOk result (λ text. text.items ≡ printed_rules rules.now) }
    ensures fits { OnOk result (is_printed_within_limits rules.now ≡ true) }
    ensures fault { IfErr result (λ fault. (fault ≡ NoMemory) ⊎ ((fault ≡ TooLarge) × (is_printed_within_limits rules.now ≡ false))) }
{
    match print_rule_lines(alloc, rules) {
        Ok(text) => Ok(text),
        Err(fault) => Err(fault),
    }
}

/// Returns the lines of `rules`, one after another.
fn print_rule_lines(alloc: Global, rules: &Rules<'_>) -> Result<Vec<u8>, CvtFault>
    ensures text { IfOk result (λ text. text.items ≡ printed_rules rules.now) }
    ensures fits { OnOk result (PrintedRulesFitLimits rules.now) }
    ensures fault { IfErr result (IsPrintFault rules.now) }
{
    let mut text = Vec::new(alloc);
    append_rule_lines(alloc, &mut text, rules.defaults())?;
    append_rule_lines(alloc, &mut text, rules.alias_definitions())?;
    append_rule_lines(alloc, &mut text, rules.user_specs())?;
    Ok(text)
}

/// Returns a command as it is printed: the Runas_Spec, the options and the tags that hold of it, and the command.
///
/// # Errors
///
/// Memory ran out.
pub fn print_command(
    alloc: Global,
    head: &CommandSettings<'_>,
    command: &Member<'_>,
) -> Result<Vec<u8>, AllocError>
    // Any settings that `head` holds give the text; and it holds some.
    ensures text { IfOk result (λ text. (h : HeadOf) → HoldsCommandSettings head.now h
        → text.items ≡ printed_runas_options_tags_and_command (effective_command (h, member_of_view command.now))) }
    ensures every { IfOk result (λ text. (h : HeadOf) × HoldsCommandSettings head.now h
        × (text.items ≡ printed_runas_options_tags_and_command (effective_command (h, member_of_view command.now)))) }
{
    let mut out = Vec::new(alloc);
    append_effective_command(alloc, &mut out, head, command)?;
    Ok(out)
}
