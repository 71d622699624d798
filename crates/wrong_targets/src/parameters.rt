//! Parameters of Defaults lines that are refused.

ghost use Rattle.std.specs.Prelude.{◌≡◌, IfOk};
ghost use Rattle.sudoers_line_rows.specs.View.{parameter_of_view};
ghost use Rattle.sudoers_defaults.specs.Parameter.{fault_of_parameter};
ghost use Rattle.sudoers_defaults.specs.Refused.{refusals_of_lines};
ghost use Rattle.sudoers_defaults.specs.Values.{is_time};

use std::alloc::{AllocError, Global};
use sudoers_defaults::{
    ParameterFault, ParameterGroup, RefusedParameter, find_fault_of_parameter,
    list_refused_parameters,
};
use sudoers_line_rows::Param;
use sudoers_tree::Policy;

/// Returns why `parameter` is refused where these parameters are `known`. `spelling` is its value as the line has it.
pub fn find_fault_of_one(
    known: &[ParameterGroup],
    parameter: &Param<'_>,
    spelling: &[u8],
) -> Option<ParameterFault>
    ensures { result ≡ fault_of_parameter known.now (parameter_of_view parameter.now) spelling.now }
{
    find_fault_of_parameter(known, parameter, spelling)
}

/// Returns the parameters of `policy` that are refused where these are `known`.
///
/// # Errors
///
/// Memory ran out.
pub fn list_faulty_parameters(
    alloc: Global,
    policy: &Policy,
    known: &[ParameterGroup],
) -> Result<Vec<RefusedParameter>, AllocError>
    ensures { IfOk result (λ refused. refused.items ≡ refusals_of_lines known.now 0 policy.now.walk.lines) }
{
    list_refused_parameters(alloc, policy, known)
}

/// Returns whether `value` is numbers with units, of fewer than 2 ^ 31 seconds, and perhaps such a number without a unit.
pub fn is_some_time(value: &[u8]) -> bool
    ensures { result ≡ is_time value.now }
{
    sudoers_defaults::is_time(value)
}
