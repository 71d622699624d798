//! The rules of a policy as a policy and as JSON.

ghost use Rattle.std.specs.Prelude.{◌≡◌, ◌⊎◌, false, true, IfOk, OnOk, IfErr};
ghost use Rattle.sudoers_cvt_rules.specs.declared.fault.CvtFault.TheVariants.{TooLarge, NotUtf8, NoMemory};
ghost use Rattle.sudoers_cvt_rules.specs.Effective.{effective_command};
ghost use Rattle.sudoers_cvt_rules.specs.Rules.{is_printed_within_limits, printed_rules};
ghost use Rattle.sudoers_cvt_json.specs.Unicode.{are_texts_of_value_unicode};
ghost use Rattle.sudoers_cvt_json.specs.Value.{rules_object_value, json_text_of_rules};
ghost use Rattle.sudoers_match.specs.Heads.{AccumulatedCommandSettings as HeadOf};
ghost use Rattle.sudoers_match.specs.IsHead.{HoldsCommandSettings};
ghost use Rattle.sudoers_cvt_spell.specs.Commands.{printed_runas_options_tags_and_command};
ghost use Rattle.sudoers_line_rows.specs.View.{member_of_view};

use std::alloc::{AllocError, Global};
use sudoers_cvt_json::json;
use sudoers_cvt_rules::{CvtFault, Rules, print, print_command};
use sudoers_line_rows::Member;
use sudoers_match::CommandSettings;

/// Returns the text of `rules` as a policy.
///
/// # Errors
///
/// `TooLarge`: the text or one of its lines passes its limit. Or memory ran out.
pub fn text_of_rules(alloc: Global, rules: &Rules<'_>) -> Result<Vec<u8>, CvtFault>
    ensures text { IfOk result (λ text. text.items ≡ printed_rules rules.now) }
    ensures fits { OnOk result (is_printed_within_limits rules.now ≡ true) }
    ensures fault { IfErr result (λ fault. (fault ≡ NoMemory) ⊎ ((fault ≡ TooLarge) × (is_printed_within_limits rules.now ≡ false))) }
{
    print(alloc, rules)
}

/// Returns the text of a command with what it inherits.
///
/// # Errors
///
/// Memory ran out.
pub fn command_text(
    alloc: Global,
    head: &CommandSettings<'_>,
    command: &Member<'_>,
) -> Result<Vec<u8>, AllocError>
    ensures { IfOk result (λ text. (h : HeadOf) → HoldsCommandSettings head.now h
        → text.items ≡ printed_runas_options_tags_and_command (effective_command (h, member_of_view command.now))) }
{
    print_command(alloc, head, command)
}

/// Returns `rules` as JSON.
///
/// # Errors
///
/// `NotUtf8`: one of their texts is not UTF-8. Or memory ran out.
pub fn json_of_rules(alloc: Global, rules: &Rules<'_>) -> Result<Vec<u8>, CvtFault>
    ensures text { IfOk result (λ text. text.items ≡ json_text_of_rules rules.now) }
    ensures unicode { OnOk result (are_texts_of_value_unicode (rules_object_value rules.now) ≡ true) }
    ensures fault { IfErr result (λ fault. (fault ≡ NoMemory) ⊎ ((fault ≡ NotUtf8) × (are_texts_of_value_unicode (rules_object_value rules.now) ≡ false))) }
{
    json(alloc, rules)
}
