//! Entries of the lists of JSON: what each rule says.

ghost use Rattle.std.specs.Prelude.{◌≡◌, true, map, OnOk, IfErr};
ghost use Rattle.sudoers_line_rows.specs.View.{commands_of_view, host_group_of_view, host_groups_of_view, members_of_view};
ghost use Rattle.sudoers_cvt_rules.specs.Effective.{effective_commands, effective_host_group};
ghost use Rattle.sudoers_cvt_json.specs.Value.{array_value_of, command_object_value, host_group_object_value, spec_object_value};
ghost use Rattle.sudoers_cvt_json.specs.Unicode.{are_texts_of_value_unicode};
ghost use Rattle.sudoers_cvt_json.specs.internal.Built.{IsJsonFault, WritesTokens, rule_object_value, tokens_of_value};

use crate::output::JsonOutput;
use sudoers_cvt_rules::{CvtFault, Rule};
use sudoers_grammar::Kind;
use sudoers_line_rows::{CommandRow, HostGroup, HostGroupRow, MemberRow, RowsOfTable};
use sudoers_match::CommandSettings;

impl JsonOutput {
    /// Writes the commands of a host group, each with all that holds of it.
    fn write_commands(&mut self, commands: &RowsOfTable<'_, CommandRow>) -> Result<(), CvtFault>
        ensures written { OnOk result (WritesTokens self.old.writer self.new.writer (tokens_of_value (array_value_of (map command_object_value (effective_commands (commands_of_view commands.now)))))) }
        ensures unicode { OnOk result (are_texts_of_value_unicode (array_value_of (map command_object_value (effective_commands (commands_of_view commands.now)))) ≡ true) }
        ensures fault { IfErr result (IsJsonFault (are_texts_of_value_unicode (array_value_of (map command_object_value (effective_commands (commands_of_view commands.now)))))) }
    {
        let tables = commands.tables;
        let mut head = CommandSettings::make_empty_settings();
        self.writer.begin_array()?;
        for row in commands.rows {
            let command = tables.command_of_row(row);
            head.apply_settings_of_command(&command);
            self.write_command(&head, &command.member)?;
        }
        Ok(self.writer.end_array()?)
    }

    /// Writes hosts, and what may be run there.
    fn write_host_group(&mut self, group: &HostGroup<'_>) -> Result<(), CvtFault>
        ensures written { OnOk result (WritesTokens self.old.writer self.new.writer (tokens_of_value (host_group_object_value (effective_host_group (host_group_of_view group.now))))) }
        ensures unicode { OnOk result (are_texts_of_value_unicode (host_group_object_value (effective_host_group (host_group_of_view group.now))) ≡ true) }
        ensures fault { IfErr result (IsJsonFault (are_texts_of_value_unicode (host_group_object_value (effective_host_group (host_group_of_view group.now))))) }
    {
        self.writer.begin_object()?;
        self.writer.key("commands")?;
        self.write_commands(&group.commands)?;
        self.writer.key("hosts")?;
        self.write_members(false, Kind::Host, &group.hosts)?;
        Ok(self.writer.end_object()?)
    }

    /// Writes the host groups of a user specification.
    fn write_host_groups(&mut self, groups: &RowsOfTable<'_, HostGroupRow>) -> Result<(), CvtFault>
        ensures written { OnOk result (WritesTokens self.old.writer self.new.writer (tokens_of_value (array_value_of (map host_group_object_value (map effective_host_group (host_groups_of_view groups.now)))))) }
        ensures unicode { OnOk result (are_texts_of_value_unicode (array_value_of (map host_group_object_value (map effective_host_group (host_groups_of_view groups.now)))) ≡ true) }
        ensures fault { IfErr result (IsJsonFault (are_texts_of_value_unicode (array_value_of (map host_group_object_value (map effective_host_group (host_groups_of_view groups.now)))))) }
    {
        let tables = groups.tables;
        self.writer.begin_array()?;
        for row in groups.rows {
            self.write_host_group(&tables.host_group_of_row(row))?;
        }
        Ok(self.writer.end_array()?)
    }

    /// Writes a user specification.
    #[tactic(auto, using(crate::proofs::Parts::object_of_two_members_is_written))]
    fn write_spec(
        &mut self,
        users: &RowsOfTable<'_, MemberRow>,
        groups: &RowsOfTable<'_, HostGroupRow>,
    ) -> Result<(), CvtFault>
        ensures written { OnOk result (WritesTokens self.old.writer self.new.writer (tokens_of_value (spec_object_value (members_of_view users.now) (map effective_host_group (host_groups_of_view groups.now))))) }
        ensures unicode { OnOk result (are_texts_of_value_unicode (spec_object_value (members_of_view users.now) (map effective_host_group (host_groups_of_view groups.now))) ≡ true) }
        ensures fault { IfErr result (IsJsonFault (are_texts_of_value_unicode (spec_object_value (members_of_view users.now) (map effective_host_group (host_groups_of_view groups.now))))) }
    {
        self.writer.begin_object()?;
        self.writer.key("groups")?;
        self.write_host_groups(groups)?;
        self.writer.key("users")?;
        self.write_members(true, Kind::User, users)?;
        Ok(self.writer.end_object()?)
    }

    /// Writes what a rule says.
    fn write_rule(&mut self, rule: &Rule<'_>) -> Result<(), CvtFault>
        ensures written { OnOk result (WritesTokens self.old.writer self.new.writer (tokens_of_value (rule_object_value rule.now))) }
        ensures unicode { OnOk result (are_texts_of_value_unicode (rule_object_value rule.now) ≡ true) }
        ensures fault { IfErr result (IsJsonFault (are_texts_of_value_unicode (rule_object_value rule.now))) }
    {
        match rule {
            Rule::Defaults { scope, params } => self.write_defaults(scope, params),
            Rule::Def { kind, def } => self.write_alias_definition(*kind, def),
            Rule::Spec { users, groups } => self.write_spec(users, groups),
        }
    }

    /// Writes what rules say.
    pub fn write_rules(&mut self, rules: &[Rule<'_>]) -> Result<(), CvtFault>
        ensures written { OnOk result (WritesTokens self.old.writer self.new.writer (tokens_of_value (array_value_of (map rule_object_value rules.now)))) }
        ensures unicode { OnOk result (are_texts_of_value_unicode (array_value_of (map rule_object_value rules.now)) ≡ true) }
        ensures fault { IfErr result (IsJsonFault (are_texts_of_value_unicode (array_value_of (map rule_object_value rules.now)))) }
    {
        self.writer.begin_array()?;
        for rule in rules {
            self.write_rule(rule)?;
        }
        Ok(self.writer.end_array()?)
    }
}
