//! Why sudo refuses a parameter of a Defaults line.

ghost use Rattle.std.specs.Prelude.{◌≡◌, option_map};
ghost use Rattle.sudoers_line_rows.specs.View.{parameter_of_view, setting_of_view};
ghost use Rattle.sudoers_defaults.specs.Parameter.{fault_of_parameter, fault_of_setting, fault_of_use, fault_of_value, fault_unless, is_free_text, is_number_or_word_taken, is_operator_for};

use crate::number_values::{
    is_integer, is_minutes, is_mode, is_plain_minutes, is_resource_limit, is_small_number,
    is_unsigned,
};
use crate::parameter_group::{ParameterGroup, ParameterType, find_group_of_name};
use crate::path_and_word_values::{
    is_locale_of_each_machine, is_path, is_path_or_star, is_word_of_set,
};
use crate::time_values::is_time;
use crate::value_spelling::{has_to_be_quoted, read_value};
use sudoers_grammar::Operator;
use sudoers_line_rows::{Param, Setting};

/// Why a parameter is refused.
#[derive(Clone, Copy, PartialEq, Eq)]
pub enum ParameterFault {
    /// Its name is not known.
    Unknown,
    /// It needs a value.
    NoValue,
    /// `+=` and `-=` are for lists.
    Operator,
    /// It takes no value.
    NeedlessValue,
    /// Its value has no bytes.
    EmptyValue,
    /// Its value is not in quotes, and has a `=` without a backslash or begins with an odd number of `!`.
    NeedsQuotes,
    /// It takes other values.
    BadValue,
    /// It takes a path from the root, of fewer than 4,096 bytes.
    BadPath,
    /// Only the machine knows whether it takes this value.
    NotDecided,
}

/// Returns why the parameter `parameter` is refused where these parameters are `known`. `spelling` is its value as the line has it.
pub fn find_fault_of_parameter(
    known: &[ParameterGroup],
    parameter: &Param<'_>,
    spelling: &[u8],
) -> Option<ParameterFault>
    ensures { result ≡ fault_of_parameter known.now (parameter_of_view parameter.now) spelling.now }
{
    match find_group_of_name(known, parameter.name) {
        Some(row) => find_fault_of_use(row, parameter, spelling),
        None => Some(ParameterFault::Unknown),
    }
}

/// Returns why the parameter `parameter` is refused, which `row` describes.
fn find_fault_of_use(
    row: &ParameterGroup,
    parameter: &Param<'_>,
    spelling: &[u8],
) -> Option<ParameterFault>
    ensures { result ≡ fault_of_use row.now parameter.now.negated (option_map setting_of_view parameter.now.setting) spelling.now }
{
    match &parameter.setting {
        Some(setting) => find_fault_of_setting(row.takes, setting, spelling),
        None => choose_fault_unless(
            row.without_value.is_allowed(parameter.negated),
            ParameterFault::NoValue,
        ),
    }
}

/// Returns why a parameter of the type `takes` is refused with this setting.
fn find_fault_of_setting(
    takes: ParameterType,
    setting: &Setting<'_>,
    spelling: &[u8],
) -> Option<ParameterFault>
    ensures { result ≡ fault_of_setting takes (setting_of_view setting.now) spelling.now }
{
    if setting.value.is_empty() {
        Some(ParameterFault::EmptyValue)
    } else if !is_free_text(takes) && has_to_be_quoted(spelling) {
        Some(ParameterFault::NeedsQuotes)
    } else if !is_operator_for(takes, setting.operator) {
        Some(ParameterFault::Operator)
    } else {
        find_fault_of_value(takes, read_value(spelling, setting.value))
    }
}

/// Returns `fault`, unless the test is passed.
fn choose_fault_unless(is_passed: bool, fault: ParameterFault) -> Option<ParameterFault>
    ensures { result ≡ fault_unless is_passed fault }
{
    if is_passed { None } else { Some(fault) }
}

/// Returns why a parameter of the type `takes` does not take this value.
fn find_fault_of_value(takes: ParameterType, value: &[u8]) -> Option<ParameterFault>
    ensures { result ≡ fault_of_value takes value.now }
{
    match takes {
        ParameterType::Flag => Some(ParameterFault::NeedlessValue),
        ParameterType::Text | ParameterType::FreeText | ParameterType::List => None,
        ParameterType::Locale => {
            choose_fault_unless(is_locale_of_each_machine(value), ParameterFault::NotDecided)
        }
        ParameterType::Path => choose_fault_unless(is_path(value), ParameterFault::BadPath),
        ParameterType::PathOrStar => choose_fault_unless(
            is_path_or_star(value),
            ParameterFault::BadPath,
        ),
        _ => choose_fault_unless(
            is_number_or_word_taken(takes, value),
            ParameterFault::BadValue,
        ),
    }
}

/// Returns whether a parameter of the type `takes` takes this number or word.
fn is_number_or_word_taken(takes: ParameterType, value: &[u8]) -> bool
    ensures { result ≡ is_number_or_word_taken takes value.now }
{
    match takes {
        ParameterType::Integer => is_integer(value),
        ParameterType::Unsigned => is_unsigned(value),
        ParameterType::Mode => is_mode(value),
        ParameterType::Minutes => is_minutes(value),
        ParameterType::Time => is_time(value),
        ParameterType::ResourceLimit => is_resource_limit(value),
        ParameterType::OneOf(set) => is_word_of_set(set, value),
        ParameterType::SmallNumber => is_small_number(value),
        ParameterType::PlainMinutes => is_plain_minutes(value),
        _ => true,
    }
}

/// Returns whether a parameter of the type `takes` may have this operator.
fn is_operator_for(takes: ParameterType, operator: Operator) -> bool
    ensures { result ≡ is_operator_for takes operator }
{
    match operator {
        Operator::Set => true,
        Operator::Add | Operator::Remove => match takes {
            ParameterType::List => true,
            _ => false,
        },
    }
}

/// Returns whether a parameter of the type `takes` takes any text, with or without quotes.
fn is_free_text(takes: ParameterType) -> bool
    ensures { result ≡ is_free_text takes }
{
    match takes {
        ParameterType::FreeText => true,
        _ => false,
    }
}
