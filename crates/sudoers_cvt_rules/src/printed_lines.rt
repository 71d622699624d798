//! Lines as they are printed.

ghost use Rattle.std.specs.Prelude.{◌≡◌, ◌⊎◌, ◌≤◌, ◌<◌, ◌++◌, false, true, length, map, codes, IfOk, OnOk, IfErr, MatchResult};
ghost use Rattle.std.specs.List.{join_by};
ghost use Rattle.sudoers_text.specs.Fault.{line_limit};
ghost use Rattle.sudoers_grammar.specs.declared.node.Kind.TheVariants.{User as OfUsers, Host as OfHosts};
ghost use Rattle.std.specs.Option.{option_map};
ghost use Rattle.sudoers_line_rows.specs.View.{commands_of_view, alias_definition_of_view, host_group_of_view, host_groups_of_view, members_of_view, parameters_of_view, scope_of_view};
ghost use Rattle.sudoers_cvt_spell.specs.Parameters.{printed_defaults};
ghost use Rattle.sudoers_cvt_spell.specs.Commands.{printed_runas_options_tags_and_command};
ghost use Rattle.sudoers_cvt_spell.specs.Lines.{printed_alias_definition, printed_host_group, printed_line, printed_spec};
ghost use Rattle.sudoers_cvt_rules.specs.Effective.{effective_commands, effective_host_group};
ghost use Rattle.sudoers_cvt_rules.specs.Rules.{alias_node_of_one_definition};
ghost use Rattle.sudoers_cvt_rules.specs.Rule.{node_of_rule_view};
ghost use Rattle.sudoers_cvt_rules.specs.internal.Long.{IsFaultOfMakingUnendedLine, IsFaultOfMakingLine};

use crate::fault::CvtFault;
use crate::printed_commands::append_effective_command;
use crate::rule::Rule;
use std::alloc::{AllocError, Global};
use sudoers_cvt_spell::{append_defaults, append_printed_member_list};
use sudoers_grammar::{Kind, alias_keyword_of_kind};
use sudoers_line_rows::{
    CommandRow, Def, HostGroup, HostGroupRow, MemberRow, ParamRow, RowsOfTable, Scope,
};
use sudoers_match::CommandSettings;
use sudoers_text::LINE_LIMIT;

/// For how many bytes of a line there is room at once. Few lines have more.
const USUAL_LINE: usize = 256;

/// Appends the commands of a host group, each with all that holds of it.
fn append_effective_commands(
    alloc: Global,
    out: &mut Vec<u8>,
    commands: &RowsOfTable<'_, CommandRow>,
) -> Result<(), CvtFault>
    ensures appended { OnOk result (out.new.items ≡ out.old.items ++ join_by printed_runas_options_tags_and_command (codes ", ") (effective_commands (commands_of_view commands.now))) }
    ensures long { IfErr result (IsFaultOfMakingUnendedLine (out.old.items ++ join_by printed_runas_options_tags_and_command (codes ", ") (effective_commands (commands_of_view commands.now)))) }
{
    let tables = commands.tables;
    let Some((first, rest)) = commands.rows.split_first() else {
        return Ok(());
    };
    let mut head = CommandSettings::make_empty_settings();
    let command = tables.command_of_row(first);
    head.apply_settings_of_command(&command);
    append_effective_command(alloc, out, &head, &command.member)?;
    for row in rest {
        if out.len() >= LINE_LIMIT {
            return Err(CvtFault::TooLarge);
        }
        let command = tables.command_of_row(row);
        head.apply_settings_of_command(&command);
        out.extend_from_slice(b", ")?;
        append_effective_command(alloc, out, &head, &command.member)?;
    }
    Ok(())
}

/// Appends hosts, and what may be run there.
fn append_effective_host_group(
    alloc: Global,
    out: &mut Vec<u8>,
    group: &HostGroup<'_>,
) -> Result<(), CvtFault>
    ensures appended { OnOk result (out.new.items ≡ out.old.items ++ printed_host_group (effective_host_group (host_group_of_view group.now))) }
    ensures long { IfErr result (IsFaultOfMakingUnendedLine (out.old.items ++ printed_host_group (effective_host_group (host_group_of_view group.now)))) }
{
    append_printed_member_list(alloc, out, false, Kind::Host, &group.hosts)?;
    out.extend_from_slice(b" = ")?;
    append_effective_commands(alloc, out, &group.commands)
}

/// Appends the host groups of a user specification.
fn append_effective_host_groups(
    alloc: Global,
    out: &mut Vec<u8>,
    groups: &RowsOfTable<'_, HostGroupRow>,
) -> Result<(), CvtFault>
    ensures appended { OnOk result (out.new.items ≡ out.old.items ++ join_by printed_host_group (codes " : ") (map effective_host_group (host_groups_of_view groups.now))) }
    ensures long { IfErr result (IsFaultOfMakingUnendedLine (out.old.items ++ join_by printed_host_group (codes " : ") (map effective_host_group (host_groups_of_view groups.now)))) }
{
    let tables = groups.tables;
    let Some((first, rest)) = groups.rows.split_first() else {
        return Ok(());
    };
    append_effective_host_group(alloc, out, &tables.host_group_of_row(first))?;
    for row in rest {
        out.extend_from_slice(b" : ")?;
        append_effective_host_group(alloc, out, &tables.host_group_of_row(row))?;
    }
    Ok(())
}

/// Returns a user specification as a line.
fn make_user_spec_line(
    alloc: Global,
    users: &RowsOfTable<'_, MemberRow>,
    groups: &RowsOfTable<'_, HostGroupRow>,
) -> Result<Vec<u8>, CvtFault>
    ensures text { IfOk result (λ line. line.items ≡ printed_spec (members_of_view users.now) (map effective_host_group (host_groups_of_view groups.now)) ++ codes "\n") }
    ensures long { IfErr result (IsFaultOfMakingLine (printed_spec (members_of_view users.now) (map effective_host_group (host_groups_of_view groups.now)) ++ codes "\n")) }
{
    let mut out = Vec::with_capacity(alloc, USUAL_LINE)?;
    append_printed_member_list(alloc, &mut out, true, Kind::User, users)?;
    out.extend_from_slice(b" ")?;
    append_effective_host_groups(alloc, &mut out, groups)?;
    out.extend_from_slice(b"\n")?;
    Ok(out)
}

/// Appends a definition of an alias.
fn append_alias_definition(
    alloc: Global,
    out: &mut Vec<u8>,
    kind: Kind,
    def: &Def<'_>,
) -> Result<(), AllocError>
    ensures { OnOk result (out.new.items ≡ out.old.items ++ printed_alias_definition kind (alias_definition_of_view def.now)) }
{
    out.extend_from_slice(def.name)?;
    out.extend_from_slice(b" = ")?;
    append_printed_member_list(alloc, out, false, kind, &def.members)
}

/// Returns a definition of an alias as a line.
fn make_alias_definition_line(
    alloc: Global,
    kind: Kind,
    def: &Def<'_>,
) -> Result<Vec<u8>, AllocError>
    ensures { IfOk result (λ line. line.items ≡ printed_line (alias_node_of_one_definition kind (alias_definition_of_view def.now))) }
{
    let mut out = Vec::with_capacity(alloc, USUAL_LINE)?;
    out.extend_from_slice(alias_keyword_of_kind(kind))?;
    out.extend_from_slice(b" ")?;
    append_alias_definition(alloc, &mut out, kind, def)?;
    out.extend_from_slice(b"\n")?;
    Ok(out)
}

/// Returns a Defaults line.
fn make_defaults_line(
    alloc: Global,
    scope: &Option<Scope<'_>>,
    params: &RowsOfTable<'_, ParamRow>,
) -> Result<Vec<u8>, AllocError>
    ensures { IfOk result (λ line. line.items ≡ printed_defaults (option_map scope_of_view scope.now) (parameters_of_view params.now) ++ codes "\n") }
{
    let mut out = Vec::with_capacity(alloc, USUAL_LINE)?;
    append_defaults(alloc, &mut out, scope, params)?;
    out.extend_from_slice(b"\n")?;
    Ok(out)
}

/// Returns a rule as a line.
///
/// # Errors
///
/// `TooLarge`: the line passes the limit of a line. `NoMemory`: memory ran out.
pub fn make_rule_line_within_limit(alloc: Global, rule: &Rule<'_>) -> Result<Vec<u8>, CvtFault>
    ensures text { IfOk result (λ line. line.items ≡ printed_line (node_of_rule_view rule.now)) }
    ensures fits { OnOk result (length (printed_line (node_of_rule_view rule.now)) ≤ line_limit) }
    ensures long { IfErr result (IsFaultOfMakingLine (printed_line (node_of_rule_view rule.now))) }
{
    let line = make_printed_rule_line(alloc, rule)?;
    if line.len() > LINE_LIMIT {
        return Err(CvtFault::TooLarge);
    }
    Ok(line)
}

/// Returns a rule as a line. A line that is too long may be returned, or be an error.
fn make_printed_rule_line(alloc: Global, rule: &Rule<'_>) -> Result<Vec<u8>, CvtFault>
    ensures text { IfOk result (λ line. line.items ≡ printed_line (node_of_rule_view rule.now)) }
    ensures long { IfErr result (IsFaultOfMakingLine (printed_line (node_of_rule_view rule.now))) }
{
    match rule {
        Rule::Defaults { scope, params } => Ok(make_defaults_line(alloc, scope, params)?),
        Rule::Def { kind, def } => Ok(make_alias_definition_line(alloc, *kind, def)?),
        Rule::Spec { users, groups } => make_user_spec_line(alloc, users, groups),
    }
}
