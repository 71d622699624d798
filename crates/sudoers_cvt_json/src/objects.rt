//! Commands, definitions and Defaults lines as JSON.

ghost use Rattle.std.specs.Prelude.{◌≡◌, true, OnOk, IfErr};
ghost use Rattle.std.specs.Option.{option_map};
ghost use Rattle.sudoers_line_rows.specs.View.{alias_definition_of_view, members_of_view, parameters_of_view, runas_of_view, scope_of_view};
ghost use Rattle.sudoers_cvt_json.specs.Value.{runas_part_array_or_null, runas_object_or_null, alias_object_value, scope_object_or_null, defaults_object_value};
ghost use Rattle.sudoers_cvt_json.specs.Unicode.{are_texts_of_value_unicode};
ghost use Rattle.sudoers_cvt_json.specs.internal.Built.{IsJsonFault, WritesTokens, are_member_and_options_unicode, are_runas_and_tags_unicode, command_value_of_view, member_and_option_tokens, runas_and_tag_tokens, runas_object, scope_object, tokens_of_value};

use crate::output::JsonOutput;
use sudoers_cvt_rules::CvtFault;
use sudoers_cvt_spell::mark_of_defaults_scope;
use sudoers_grammar::{Kind, alias_keyword_of_kind};
use sudoers_line_rows::{Def, Member, MemberRow, ParamRow, RowsOfTable, RunasSpec, Scope};
use sudoers_match::CommandSettings;

impl JsonOutput {
    /// Writes the users or the groups of a Runas_Spec, or null if there are none.
    fn write_runas_part(&mut self, members: &RowsOfTable<'_, MemberRow>) -> Result<(), CvtFault>
        ensures written { OnOk result (WritesTokens self.old.writer self.new.writer (tokens_of_value (runas_part_array_or_null (members_of_view members.now)))) }
        ensures unicode { OnOk result (are_texts_of_value_unicode (runas_part_array_or_null (members_of_view members.now)) ≡ true) }
        ensures fault { IfErr result (IsJsonFault (are_texts_of_value_unicode (runas_part_array_or_null (members_of_view members.now)))) }
    {
        if members.rows.is_empty() {
            return Ok(self.writer.null()?);
        }
        self.write_members(false, Kind::Runas, members)
    }

    /// Writes a Runas_Spec, or null if there is none.
    fn write_runas(&mut self, runas: &Option<RunasSpec<'_>>) -> Result<(), CvtFault>
        ensures written { OnOk result (WritesTokens self.old.writer self.new.writer (tokens_of_value (runas_object_or_null (option_map runas_of_view runas.now)))) }
        ensures unicode { OnOk result (are_texts_of_value_unicode (runas_object_or_null (option_map runas_of_view runas.now)) ≡ true) }
        ensures fault { IfErr result (IsJsonFault (are_texts_of_value_unicode (runas_object_or_null (option_map runas_of_view runas.now)))) }
    {
        match runas {
            Some(runas) => self.write_runas_object(runas),
            None => Ok(self.writer.null()?),
        }
    }

    /// Writes a Runas_Spec.
    #[tactic(auto, using(crate::proofs::Parts::object_of_two_members_is_written))]
    fn write_runas_object(&mut self, runas: &RunasSpec<'_>) -> Result<(), CvtFault>
        ensures written { OnOk result (WritesTokens self.old.writer self.new.writer (tokens_of_value (runas_object (runas_of_view runas.now)))) }
        ensures unicode { OnOk result (are_texts_of_value_unicode (runas_object (runas_of_view runas.now)) ≡ true) }
        ensures fault { IfErr result (IsJsonFault (are_texts_of_value_unicode (runas_object (runas_of_view runas.now)))) }
    {
        self.writer.begin_object()?;
        self.writer.key("groups")?;
        self.write_runas_part(&runas.groups)?;
        self.writer.key("users")?;
        self.write_runas_part(&runas.users)?;
        Ok(self.writer.end_object()?)
    }

    /// Writes the command `member`, of which `head` holds.
    pub fn write_command(
        &mut self,
        head: &CommandSettings<'_>,
        member: &Member<'_>,
    ) -> Result<(), CvtFault>
        ensures written { OnOk result (WritesTokens self.old.writer self.new.writer (tokens_of_value (command_value_of_view head.now member.now))) }
        ensures unicode { OnOk result (are_texts_of_value_unicode (command_value_of_view head.now member.now) ≡ true) }
        ensures fault { IfErr result (IsJsonFault (are_texts_of_value_unicode (command_value_of_view head.now member.now))) }
    {
        self.write_member_and_options(head, member)?;
        self.write_runas_and_tags(head)?;
        Ok(())
    }

    /// Writes the first half of the object of a command: `{`, the command `member` and the options of `head`.
    fn write_member_and_options(
        &mut self,
        head: &CommandSettings<'_>,
        member: &Member<'_>,
    ) -> Result<(), CvtFault>
        ensures written { OnOk result (WritesTokens self.old.writer self.new.writer (member_and_option_tokens head.now member.now)) }
        ensures unicode { OnOk result (are_member_and_options_unicode head.now member.now ≡ true) }
        ensures fault { IfErr result (IsJsonFault (are_member_and_options_unicode head.now member.now)) }
    {
        self.writer.begin_object()?;
        self.writer.key("command")?;
        self.write_member(false, Kind::Cmnd, member)?;
        self.writer.key("options")?;
        self.write_options(&head.options)?;
        Ok(())
    }

    /// Writes the second half of the object of a command: the Runas_Spec and the tags of `head`, and `}`.
    #[tactic(auto, using(crate::proofs::Parts::second_half_of_object_is_written))]
    fn write_runas_and_tags(&mut self, head: &CommandSettings<'_>) -> Result<(), CvtFault>
        ensures written { OnOk result (WritesTokens self.old.writer self.new.writer (runas_and_tag_tokens head.now)) }
        ensures unicode { OnOk result (are_runas_and_tags_unicode head.now ≡ true) }
        ensures fault { IfErr result (IsJsonFault (are_runas_and_tags_unicode head.now)) }
    {
        self.writer.key("runas")?;
        self.write_runas(&head.runas)?;
        self.writer.key("tags")?;
        self.write_tags(&head.tags)?;
        Ok(self.writer.end_object()?)
    }

    /// Writes a definition of an alias.
    pub fn write_alias_definition(&mut self, kind: Kind, def: &Def<'_>) -> Result<(), CvtFault>
        ensures written { OnOk result (WritesTokens self.old.writer self.new.writer (tokens_of_value (alias_object_value kind (alias_definition_of_view def.now)))) }
        ensures unicode { OnOk result (are_texts_of_value_unicode (alias_object_value kind (alias_definition_of_view def.now)) ≡ true) }
        ensures fault { IfErr result (IsJsonFault (are_texts_of_value_unicode (alias_object_value kind (alias_definition_of_view def.now)))) }
    {
        self.writer.begin_object()?;
        self.writer.key("kind")?;
        self.write_text(alias_keyword_of_kind(kind))?;
        self.writer.key("members")?;
        self.write_members(false, kind, &def.members)?;
        self.writer.key("name")?;
        self.write_text(def.name)?;
        Ok(self.writer.end_object()?)
    }

    /// Writes the scope of a Defaults line, or null if there is none.
    fn write_scope(&mut self, scope: &Option<Scope<'_>>) -> Result<(), CvtFault>
        ensures written { OnOk result (WritesTokens self.old.writer self.new.writer (tokens_of_value (scope_object_or_null (option_map scope_of_view scope.now)))) }
        ensures unicode { OnOk result (are_texts_of_value_unicode (scope_object_or_null (option_map scope_of_view scope.now)) ≡ true) }
        ensures fault { IfErr result (IsJsonFault (are_texts_of_value_unicode (scope_object_or_null (option_map scope_of_view scope.now)))) }
    {
        match scope {
            Some(scope) => self.write_scope_object(scope),
            None => Ok(self.writer.null()?),
        }
    }

    /// Writes the scope of a Defaults line.
    #[tactic(auto, using(crate::proofs::Parts::object_of_two_members_is_written))]
    fn write_scope_object(&mut self, scope: &Scope<'_>) -> Result<(), CvtFault>
        ensures written { OnOk result (WritesTokens self.old.writer self.new.writer (tokens_of_value (scope_object (scope_of_view scope.now)))) }
        ensures unicode { OnOk result (are_texts_of_value_unicode (scope_object (scope_of_view scope.now)) ≡ true) }
        ensures fault { IfErr result (IsJsonFault (are_texts_of_value_unicode (scope_object (scope_of_view scope.now)))) }
    {
        self.writer.begin_object()?;
        self.writer.key("members")?;
        self.write_members(false, scope.kind, &scope.members)?;
        self.writer.key("sign")?;
        self.write_text(mark_of_defaults_scope(scope.kind))?;
        Ok(self.writer.end_object()?)
    }

    /// Writes a Defaults line.
    #[tactic(auto, using(crate::proofs::Parts::object_of_two_members_is_written))]
    pub fn write_defaults(
        &mut self,
        scope: &Option<Scope<'_>>,
        params: &RowsOfTable<'_, ParamRow>,
    ) -> Result<(), CvtFault>
        ensures written { OnOk result (WritesTokens self.old.writer self.new.writer (tokens_of_value (defaults_object_value (option_map scope_of_view scope.now) (parameters_of_view params.now)))) }
        ensures unicode { OnOk result (are_texts_of_value_unicode (defaults_object_value (option_map scope_of_view scope.now) (parameters_of_view params.now)) ≡ true) }
        ensures fault { IfErr result (IsJsonFault (are_texts_of_value_unicode (defaults_object_value (option_map scope_of_view scope.now) (parameters_of_view params.now)))) }
    {
        self.writer.begin_object()?;
        self.writer.key("parameters")?;
        self.write_parameters(params)?;
        self.writer.key("scope")?;
        self.write_scope(scope)?;
        Ok(self.writer.end_object()?)
    }
}
