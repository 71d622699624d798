//! Lists of texts as JSON: members, parameters, options and tags.

ghost use Rattle.std.specs.Prelude.{◌≡◌, true, map, OnOk, IfErr};
ghost use Rattle.std.specs.List.{filter_map};
ghost use Rattle.sudoers_line_rows.specs.View.{members_of_view, parameters_of_view};
ghost use Rattle.sudoers_cvt_spell.specs.Parameters.{printed_param};
ghost use Rattle.sudoers_cvt_json.specs.Value.{member_array_value, string_array_value};
ghost use Rattle.sudoers_cvt_json.specs.Unicode.{are_texts_of_value_unicode};
ghost use Rattle.sudoers_cvt_json.specs.internal.Built.{IsJsonFault, WritesTokens, printed_option_text_if_given, printed_option_texts, printed_tag_text_if_given, printed_tag_texts, tokens_of_value};

use crate::output::JsonOutput;
use sudoers_cvt_rules::CvtFault;
use sudoers_grammar::{Kind, OptionName, Tag};
use sudoers_line_rows::{MemberRow, ParamRow, RowsOfTable};
use sudoers_match::{CommandOptions, CommandTags};

impl JsonOutput {
    /// Writes a list of `kind`. With `first`, a line begins with it.
    pub fn write_members(
        &mut self,
        first: bool,
        kind: Kind,
        members: &RowsOfTable<'_, MemberRow>,
    ) -> Result<(), CvtFault>
        ensures written { OnOk result (WritesTokens self.old.writer self.new.writer (tokens_of_value (member_array_value first kind (members_of_view members.now)))) }
        ensures unicode { OnOk result (are_texts_of_value_unicode (member_array_value first kind (members_of_view members.now)) ≡ true) }
        ensures fault { IfErr result (IsJsonFault (are_texts_of_value_unicode (member_array_value first kind (members_of_view members.now)))) }
    {
        let tables = members.tables;
        let mut is_first = first;
        self.writer.begin_array()?;
        for row in members.rows {
            self.write_member(is_first, kind, &tables.member_of_row(row))?;
            is_first = false;
        }
        Ok(self.writer.end_array()?)
    }

    /// Writes the parameters of a Defaults line.
    pub fn write_parameters(&mut self, params: &RowsOfTable<'_, ParamRow>) -> Result<(), CvtFault>
        ensures written { OnOk result (WritesTokens self.old.writer self.new.writer (tokens_of_value (string_array_value (map printed_param (parameters_of_view params.now))))) }
        ensures unicode { OnOk result (are_texts_of_value_unicode (string_array_value (map printed_param (parameters_of_view params.now))) ≡ true) }
        ensures fault { IfErr result (IsJsonFault (are_texts_of_value_unicode (string_array_value (map printed_param (parameters_of_view params.now))))) }
    {
        let tables = params.tables;
        self.writer.begin_array()?;
        for row in params.rows {
            self.write_parameter(&tables.parameter_of_row(row))?;
        }
        Ok(self.writer.end_array()?)
    }

    /// Writes the options of `pairs` that are set.
    fn write_given_options(&mut self, pairs: &[(OptionName, Option<&[u8]>)]) -> Result<(), CvtFault>
        ensures written { OnOk result (WritesTokens self.old.writer self.new.writer (tokens_of_value (string_array_value (filter_map printed_option_text_if_given pairs.now)))) }
        ensures unicode { OnOk result (are_texts_of_value_unicode (string_array_value (filter_map printed_option_text_if_given pairs.now)) ≡ true) }
        ensures fault { IfErr result (IsJsonFault (are_texts_of_value_unicode (string_array_value (filter_map printed_option_text_if_given pairs.now)))) }
    {
        self.writer.begin_array()?;
        for (name, value) in pairs {
            if let Some(value) = value {
                self.write_option(*name, value)?;
            }
        }
        Ok(self.writer.end_array()?)
    }

    /// Writes the options that are set, in the order of their names.
    pub fn write_options(&mut self, options: &CommandOptions<'_>) -> Result<(), CvtFault>
        ensures written { OnOk result (WritesTokens self.old.writer self.new.writer (tokens_of_value (string_array_value (printed_option_texts options.now)))) }
        ensures unicode { OnOk result (are_texts_of_value_unicode (string_array_value (printed_option_texts options.now)) ≡ true) }
        ensures fault { IfErr result (IsJsonFault (are_texts_of_value_unicode (string_array_value (printed_option_texts options.now)))) }
    {
        let pairs = [
            (OptionName::Role, options.role),
            (OptionName::Type, options.kind),
            (OptionName::ApparmorProfile, options.apparmor_profile),
            (OptionName::Privs, options.privs),
            (OptionName::Limitprivs, options.limitprivs),
            (OptionName::Notbefore, options.notbefore),
            (OptionName::Notafter, options.notafter),
            (OptionName::Timeout, options.timeout),
            (OptionName::Cwd, options.cwd),
            (OptionName::Chroot, options.chroot),
        ];
        self.write_given_options(&pairs)
    }

    /// Writes the tags of `pairs` that stand.
    fn write_given_tags(&mut self, pairs: &[(Tag, Option<bool>)]) -> Result<(), CvtFault>
        ensures written { OnOk result (WritesTokens self.old.writer self.new.writer (tokens_of_value (string_array_value (filter_map printed_tag_text_if_given pairs.now)))) }
        ensures unicode { OnOk result (are_texts_of_value_unicode (string_array_value (filter_map printed_tag_text_if_given pairs.now)) ≡ true) }
        ensures fault { IfErr result (IsJsonFault (are_texts_of_value_unicode (string_array_value (filter_map printed_tag_text_if_given pairs.now)))) }
    {
        self.writer.begin_array()?;
        for (tag, said) in pairs {
            if let Some(on) = said {
                self.write_tag(*tag, *on)?;
            }
        }
        Ok(self.writer.end_array()?)
    }

    /// Writes the tags that stand, in the order of their names.
    pub fn write_tags(&mut self, tags: &CommandTags) -> Result<(), CvtFault>
        ensures written { OnOk result (WritesTokens self.old.writer self.new.writer (tokens_of_value (string_array_value (printed_tag_texts tags.now)))) }
        ensures unicode { OnOk result (are_texts_of_value_unicode (string_array_value (printed_tag_texts tags.now)) ≡ true) }
        ensures fault { IfErr result (IsJsonFault (are_texts_of_value_unicode (string_array_value (printed_tag_texts tags.now)))) }
    {
        let pairs = [
            (Tag::Exec, tags.exec),
            (Tag::Follow, tags.follow),
            (Tag::Intercept, tags.intercept),
            (Tag::LogInput, tags.log_input),
            (Tag::LogOutput, tags.log_output),
            (Tag::Mail, tags.mail),
            (Tag::Passwd, tags.passwd),
            (Tag::Setenv, tags.setenv),
        ];
        self.write_given_tags(&pairs)
    }
}
