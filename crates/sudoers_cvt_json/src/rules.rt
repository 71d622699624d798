//! The rules of a policy as JSON.

ghost use Rattle.std.specs.Prelude.{◌≡◌, ◌⊎◌, false, true, map, IfOk, OnOk, IfErr};
ghost use Rattle.sudoers_cvt_rules.specs.declared.fault.CvtFault.TheVariants.{NotUtf8, NoMemory};
ghost use Rattle.sudoers_cvt_rules.specs.Rules.{Rules as RulesOf};
ghost use Rattle.sudoers_cvt_json.specs.Value.{rules_object_value, json_text_of_rules};
ghost use Rattle.sudoers_cvt_json.specs.Unicode.{are_texts_of_value_unicode};
ghost use Rattle.sudoers_cvt_json.specs.internal.Built.{IsJsonFault, WritesTokens, tokens_of_value};

use crate::output::JsonOutput;
use std::alloc::Global;
use sudoers_cvt_rules::{CvtFault, Rules};

/// Returns `rules` as JSON, in one line with its line end.
///
/// # Errors
///
/// `NotUtf8`: one of the texts is no UTF-8. `NoMemory`: memory ran out.
pub fn json(alloc: Global, rules: &Rules<'_>) -> Result<Vec<u8>, CvtFault>
    ensures text { IfOk result (λ text. text.items ≡ json_text_of_rules rules.now) }
    ensures unicode { OnOk result (are_texts_of_value_unicode (rules_object_value rules.now) ≡ true) }
    ensures fault { IfErr result (λ fault. (fault ≡ NoMemory) ⊎ ((fault ≡ NotUtf8) × (are_texts_of_value_unicode (rules_object_value rules.now) ≡ false))) }
{
    let mut output = JsonOutput::new(alloc);
    output.write_rules_object(rules)?;
    let mut text = output.into_bytes();
    text.push(b'\n')?;
    Ok(text)
}

impl JsonOutput {
    /// Writes the rules of a policy.
    fn write_rules_object(&mut self, rules: &Rules<'_>) -> Result<(), CvtFault>
        ensures written { OnOk result (WritesTokens self.old.writer self.new.writer (tokens_of_value (rules_object_value rules.now))) }
        ensures unicode { OnOk result (are_texts_of_value_unicode (rules_object_value rules.now) ≡ true) }
        ensures fault { IfErr result (IsJsonFault (are_texts_of_value_unicode (rules_object_value rules.now))) }
    {
        self.writer.begin_object()?;
        self.writer.key("aliases")?;
        self.write_rules(rules.alias_definitions())?;
        self.writer.key("defaults")?;
        self.write_rules(rules.defaults())?;
        self.writer.key("specs")?;
        self.write_rules(rules.user_specs())?;
        Ok(self.writer.end_object()?)
    }
}
