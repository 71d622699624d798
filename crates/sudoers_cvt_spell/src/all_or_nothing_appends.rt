//! Parts of policies, appended to a text. Where memory runs out, the text stays as it was.

ghost use Rattle.std.specs.Prelude.{◌≡◌, ◌++◌, OnErr, OnOk, option_map};
ghost use Rattle.sudoers_line_rows.specs.View.{member_of_view, members_of_view, parameter_of_view, parameters_of_view, runas_of_view, scope_of_view};
ghost use Rattle.sudoers_cvt_spell.specs.Commands.{printed_option, printed_runas};
ghost use Rattle.sudoers_cvt_spell.specs.Members.{printed_member_list, printed_member};
ghost use Rattle.sudoers_cvt_spell.specs.Parameters.{printed_defaults, printed_param};

use crate::lists::append_member_list_text;
use crate::members::append_member_text_without_separator;
use crate::options_and_tags::append_option_text;
use crate::parameters::{append_defaults_text, append_param_text};
use crate::runas::append_runas_spec_text;
use std::alloc::{AllocError, Global};
use sudoers_grammar::{Kind, OptionName};
use sudoers_line_rows::{Member, MemberRow, Param, ParamRow, RowsOfTable, RunasSpec, Scope};

/// Appends a list of `kind`. With `first`, the line begins with it.
///
/// # Errors
///
/// Memory ran out.
pub fn append_printed_member_list(
    alloc: Global,
    out: &mut Vec<u8>,
    first: bool,
    kind: Kind,
    members: &RowsOfTable<'_, MemberRow>,
) -> Result<(), AllocError>
    ensures appended { OnOk result (out.new.items ≡ out.old.items ++ printed_member_list first kind (members_of_view members.now)) }
    ensures kept { OnErr result (out.new.items ≡ out.old.items) }
{
    let before = out.len();
    if let Err(error) = append_member_list_text(alloc, out, first, kind, members) {
        out.truncate(before);
        return Err(error);
    }
    Ok(())
}

/// Appends a member of a list of `kind`. With `first`, the line begins with it.
///
/// # Errors
///
/// Memory ran out.
pub fn append_member(
    alloc: Global,
    out: &mut Vec<u8>,
    first: bool,
    kind: Kind,
    member: &Member<'_>,
) -> Result<(), AllocError>
    ensures appended { OnOk result (out.new.items ≡ out.old.items ++ printed_member first kind (member_of_view member.now)) }
    ensures kept { OnErr result (out.new.items ≡ out.old.items) }
{
    let before = out.len();
    if let Err(error) = append_member_text_without_separator(alloc, out, first, kind, member) {
        out.truncate(before);
        return Err(error);
    }
    Ok(())
}

/// Appends a Runas_Spec.
///
/// # Errors
///
/// Memory ran out.
pub fn append_runas(
    alloc: Global,
    out: &mut Vec<u8>,
    runas: &RunasSpec<'_>,
) -> Result<(), AllocError>
    ensures appended { OnOk result (out.new.items ≡ out.old.items ++ printed_runas (runas_of_view runas.now)) }
    ensures kept { OnErr result (out.new.items ≡ out.old.items) }
{
    let before = out.len();
    if let Err(error) = append_runas_spec_text(alloc, out, runas) {
        out.truncate(before);
        return Err(error);
    }
    Ok(())
}

/// Appends the option `name` with its value.
///
/// # Errors
///
/// Memory ran out.
pub fn append_option(
    alloc: Global,
    out: &mut Vec<u8>,
    name: OptionName,
    value: &[u8],
) -> Result<(), AllocError>
    ensures appended { OnOk result (out.new.items ≡ out.old.items ++ printed_option name value.now) }
    ensures kept { OnErr result (out.new.items ≡ out.old.items) }
{
    let before = out.len();
    if let Err(error) = append_option_text(out, name, value) {
        out.truncate(before);
        return Err(error);
    }
    Ok(())
}

/// Appends a parameter.
///
/// # Errors
///
/// Memory ran out.
pub fn append_param(alloc: Global, out: &mut Vec<u8>, param: &Param<'_>) -> Result<(), AllocError>
    ensures appended { OnOk result (out.new.items ≡ out.old.items ++ printed_param (parameter_of_view param.now)) }
    ensures kept { OnErr result (out.new.items ≡ out.old.items) }
{
    let before = out.len();
    if let Err(error) = append_param_text(out, param) {
        out.truncate(before);
        return Err(error);
    }
    Ok(())
}

/// Appends a Defaults line, without its line end.
///
/// # Errors
///
/// Memory ran out.
pub fn append_defaults(
    alloc: Global,
    out: &mut Vec<u8>,
    scope: &Option<Scope<'_>>,
    params: &RowsOfTable<'_, ParamRow>,
) -> Result<(), AllocError>
    ensures appended { OnOk result (out.new.items ≡ out.old.items ++ printed_defaults (option_map scope_of_view scope.now) (parameters_of_view params.now)) }
    ensures kept { OnErr result (out.new.items ≡ out.old.items) }
{
    let before = out.len();
    if let Err(error) = append_defaults_text(alloc, out, scope, params) {
        out.truncate(before);
        return Err(error);
    }
    Ok(())
}
