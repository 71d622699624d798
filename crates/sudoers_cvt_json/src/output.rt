//! The JSON that is written, and its texts.

ghost use Rattle.std.specs.Prelude.{◌≡◌, [], ◌++◌, true, OnOk, IfErr};
ghost use Rattle.json.specs.Print.{print};
ghost use Rattle.serde_json.specs.Data.{string};
ghost use Rattle.sudoers_line_rows.specs.View.{member_of_view, parameter_of_view};
ghost use Rattle.sudoers_cvt_spell.specs.Commands.{printed_option, tag_keyword_or_negated};
ghost use Rattle.sudoers_cvt_spell.specs.Members.{printed_member};
ghost use Rattle.sudoers_cvt_spell.specs.Parameters.{printed_param};
ghost use Rattle.sudoers_cvt_json.specs.Unicode.{are_texts_of_value_unicode};
ghost use Rattle.sudoers_cvt_json.specs.internal.Built.{IsJsonFault, WritesTokens, tokens_of_value};

use json::Writer;
use std::alloc::Global;
use sudoers_cvt_rules::CvtFault;
use sudoers_cvt_spell::{
    append_keyword_of_tag_or_negated, append_member, append_option, append_param,
};
use sudoers_grammar::{Kind, OptionName, Tag};
use sudoers_line_rows::{Member, Param};

/// JSON that is written, and room for a text that is printed before it is written.
#[derive(Drop)]
pub struct JsonOutput {
    pub alloc: Global,
    pub writer: Writer,
    pub printed: Vec<u8>,
}

/// Writes `text` as a string.
fn write_string(writer: &mut Writer, text: &[u8]) -> Result<(), CvtFault>
    ensures written { OnOk result (WritesTokens writer.old writer.new (tokens_of_value (string text.now))) }
    ensures unicode { OnOk result (are_texts_of_value_unicode (string text.now) ≡ true) }
    ensures fault { IfErr result (IsJsonFault (are_texts_of_value_unicode (string text.now))) }
{
    match str::from_utf8(text) {
        Ok(text) => Ok(writer.string(text)?),
        Err(_) => Err(CvtFault::NotUtf8),
    }
}

impl JsonOutput {
    /// Returns an output in which nothing stands.
    pub fn new(alloc: Global) -> JsonOutput
        ensures before { result.writer.before ≡ [] }
        ensures tokens { result.writer.tokens ≡ [] }
    {
        JsonOutput {
            alloc,
            writer: Writer::new(Vec::new(alloc)),
            printed: Vec::new(alloc),
        }
    }

    /// Returns what was written.
    pub fn into_bytes(self) -> Vec<u8>
        ensures { result.items ≡ self.writer.before ++ print self.writer.tokens }
    {
        let JsonOutput { writer, .. } = self;
        writer.into_inner()
    }

    /// Writes `text` as a string.
    pub fn write_text(&mut self, text: &[u8]) -> Result<(), CvtFault>
        ensures written { OnOk result (WritesTokens self.old.writer self.new.writer (tokens_of_value (string text.now))) }
        ensures unicode { OnOk result (are_texts_of_value_unicode (string text.now) ≡ true) }
        ensures fault { IfErr result (IsJsonFault (are_texts_of_value_unicode (string text.now))) }
    {
        write_string(&mut self.writer, text)
    }

    /// Writes a member of a list of `kind`. With `first`, a line begins with it.
    pub fn write_member(
        &mut self,
        first: bool,
        kind: Kind,
        member: &Member<'_>,
    ) -> Result<(), CvtFault>
        ensures written { OnOk result (WritesTokens self.old.writer self.new.writer (tokens_of_value (string (printed_member first kind (member_of_view member.now))))) }
        ensures unicode { OnOk result (are_texts_of_value_unicode (string (printed_member first kind (member_of_view member.now))) ≡ true) }
        ensures fault { IfErr result (IsJsonFault (are_texts_of_value_unicode (string (printed_member first kind (member_of_view member.now))))) }
    {
        self.printed.clear();
        append_member(self.alloc, &mut self.printed, first, kind, member)?;
        write_string(&mut self.writer, self.printed.as_slice())
    }

    /// Writes a parameter.
    pub fn write_parameter(&mut self, param: &Param<'_>) -> Result<(), CvtFault>
        ensures written { OnOk result (WritesTokens self.old.writer self.new.writer (tokens_of_value (string (printed_param (parameter_of_view param.now))))) }
        ensures unicode { OnOk result (are_texts_of_value_unicode (string (printed_param (parameter_of_view param.now))) ≡ true) }
        ensures fault { IfErr result (IsJsonFault (are_texts_of_value_unicode (string (printed_param (parameter_of_view param.now))))) }
    {
        self.printed.clear();
        append_param(self.alloc, &mut self.printed, param)?;
        write_string(&mut self.writer, self.printed.as_slice())
    }

    /// Writes the option `name` with its value.
    pub fn write_option(&mut self, name: OptionName, value: &[u8]) -> Result<(), CvtFault>
        ensures written { OnOk result (WritesTokens self.old.writer self.new.writer (tokens_of_value (string (printed_option name value.now)))) }
        ensures unicode { OnOk result (are_texts_of_value_unicode (string (printed_option name value.now)) ≡ true) }
        ensures fault { IfErr result (IsJsonFault (are_texts_of_value_unicode (string (printed_option name value.now)))) }
    {
        self.printed.clear();
        append_option(self.alloc, &mut self.printed, name, value)?;
        write_string(&mut self.writer, self.printed.as_slice())
    }

    /// Writes a tag, with `NO` before it if it is not `on`.
    pub fn write_tag(&mut self, tag: Tag, on: bool) -> Result<(), CvtFault>
        ensures written { OnOk result (WritesTokens self.old.writer self.new.writer (tokens_of_value (string (tag_keyword_or_negated tag on)))) }
        ensures unicode { OnOk result (are_texts_of_value_unicode (string (tag_keyword_or_negated tag on)) ≡ true) }
        ensures fault { IfErr result (IsJsonFault (are_texts_of_value_unicode (string (tag_keyword_or_negated tag on)))) }
    {
        self.printed.clear();
        append_keyword_of_tag_or_negated(&mut self.printed, tag, on)?;
        write_string(&mut self.writer, self.printed.as_slice())
    }
}
