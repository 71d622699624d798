//! Defaults lines as they are printed (sudoers(5), Defaults).

ghost use Rattle.std.specs.Prelude.{◌≡◌, ◌++◌, codes, OnOk, option_map};
ghost use Rattle.sudoers_line_rows.specs.View.{parameter_of_view, parameters_of_view, scope_of_view, setting_of_view};
ghost use Rattle.std.specs.List.{list_all};
ghost use Rattle.sudoers_cvt_spell.specs.internal.Fronts.{IsFront};
ghost use Rattle.sudoers_cvt_spell.specs.Parameters.{defaults_operator_mark, is_byte_without_quotes, is_value_without_quotes, is_quotable_value, printed_param_value, printed_param_setting, printed_param, printed_params, defaults_scope_mark, printed_scope, printed_defaults};

use crate::appending::append_bytes;
use crate::lists::append_member_list_text;
use crate::words_and_patterns::{append_spelled_word, is_control};
use std::alloc::{AllocError, Global};
use sudoers_grammar::{Kind, Operator};
use sudoers_line_rows::{Param, ParamRow, RowsOfTable, Scope};

/// Returns the mark of an operator.
fn mark_of_operator(operator: Operator) -> &'static [u8]
    ensures { result.now ≡ defaults_operator_mark operator }
{
    match operator {
        Operator::Set => b"=",
        Operator::Add => b"+=",
        Operator::Remove => b"-=",
    }
}

/// Returns whether `byte` needs no quotes.
fn is_unquoted_byte(byte: u8) -> bool
    ensures { result ≡ is_byte_without_quotes byte }
{
    byte.is_ascii_alphanumeric() || matches!(byte, b'_' | b'-' | b'.' | b'/' | b':' | b'+')
}

/// Returns whether no byte of the value needs quotes.
fn are_unquoted_bytes(value: &[u8]) -> bool
    ensures { result ≡ list_all is_byte_without_quotes value.now }
{
    value.iter().all(|byte| is_unquoted_byte(*byte))
}

/// Returns whether the value is printed as it is.
fn is_unquoted_value(value: &[u8]) -> bool
    ensures { result ≡ is_value_without_quotes value.now }
{
    0 < value.len() && are_unquoted_bytes(value)
}

/// Returns whether the value stands for itself in double quotes.
fn fits_double_quotes(value: &[u8]) -> bool
    ensures { result ≡ is_quotable_value value.now }
{
    value.iter().all(|byte| !(*byte == b'\\' || *byte == b'"' || is_control(*byte)))
}

/// Appends the value of a parameter.
fn append_param_value(out: &mut Vec<u8>, value: &[u8]) -> Result<(), AllocError>
    ensures appended { OnOk result (out.new.items ≡ out.old.items ++ printed_param_value value.now) }
    ensures front { IsFront out.old.items out.new.items }
{
    if is_unquoted_value(value) {
        append_bytes(out, value)
    } else if fits_double_quotes(value) {
        append_bytes(out, b"\"")?;
        append_bytes(out, value)?;
        append_bytes(out, b"\"")
    } else {
        append_spelled_word(out, value)
    }
}

/// Appends a parameter.
///
/// # Errors
///
/// Memory ran out.
pub fn append_param_text(out: &mut Vec<u8>, param: &Param<'_>) -> Result<(), AllocError>
    ensures appended { OnOk result (out.new.items ≡ out.old.items ++ printed_param (parameter_of_view param.now)) }
    ensures front { IsFront out.old.items out.new.items }
{
    if param.negated {
        append_bytes(out, b"!")?;
    }
    append_bytes(out, param.name)?;
    match &param.setting {
        None => Ok(()),
        Some(setting) => {
            append_bytes(out, mark_of_operator(setting.operator))?;
            append_param_value(out, setting.value)
        }
    }
}

/// Appends the parameters of a Defaults line.
fn append_params(out: &mut Vec<u8>, params: &RowsOfTable<'_, ParamRow>) -> Result<(), AllocError>
    ensures appended { OnOk result (out.new.items ≡ out.old.items ++ printed_params (parameters_of_view params.now)) }
    ensures front { IsFront out.old.items out.new.items }
{
    let tables = params.tables;
    let Some((first, rest)) = params.rows.split_first() else {
        return Ok(());
    };
    append_param_text(out, &tables.parameter_of_row(first))?;
    for row in rest {
        append_bytes(out, b", ")?;
        append_param_text(out, &tables.parameter_of_row(row))?;
    }
    Ok(())
}

/// Returns the sign of a scope.
pub fn mark_of_defaults_scope(kind: Kind) -> &'static [u8]
    ensures { result.now ≡ defaults_scope_mark kind }
{
    match kind {
        Kind::Host => b"@",
        Kind::User => b":",
        Kind::Cmnd => b"!",
        Kind::Runas => b">",
    }
}

/// Appends a Defaults line, without its line end.
///
/// # Errors
///
/// Memory ran out.
pub fn append_defaults_text(
    alloc: Global,
    out: &mut Vec<u8>,
    scope: &Option<Scope<'_>>,
    params: &RowsOfTable<'_, ParamRow>,
) -> Result<(), AllocError>
    ensures appended { OnOk result (out.new.items ≡ out.old.items ++ printed_defaults (option_map scope_of_view scope.now) (parameters_of_view params.now)) }
    ensures front { IsFront out.old.items out.new.items }
{
    append_bytes(out, b"Defaults")?;
    if let Some(scope) = scope {
        append_bytes(out, mark_of_defaults_scope(scope.kind))?;
        append_member_list_text(alloc, out, false, scope.kind, &scope.members)?;
    }
    append_bytes(out, b" ")?;
    append_params(out, params)
}
