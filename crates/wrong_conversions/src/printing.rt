//! How parts of a policy are spelled.

ghost use Rattle.std.specs.Prelude.{◌≡◌, ◌++◌, OnErr, OnOk, option_map};
ghost use Rattle.sudoers_cvt_spell.specs.Members.{printed_member_list};
ghost use Rattle.sudoers_cvt_spell.specs.Parameters.{printed_defaults};
ghost use Rattle.sudoers_line_rows.specs.View.{members_of_view, parameters_of_view, scope_of_view};

use std::alloc::{AllocError, Global};
use sudoers_cvt_spell::{append_defaults, append_printed_member_list};
use sudoers_grammar::Kind;
use sudoers_line_rows::{MemberRow, ParamRow, RowsOfTable, Scope};

/// Appends a list of members of `kind` to `out`. With `first`, a line begins with it.
///
/// # Errors
///
/// Memory ran out; then `out` is as before.
pub fn print_list(
    alloc: Global,
    out: &mut Vec<u8>,
    first: bool,
    kind: Kind,
    members: &RowsOfTable<'_, MemberRow>,
) -> Result<(), AllocError>
    ensures appended { OnOk result (out.new.items ≡ out.old.items ++ printed_member_list first kind (members_of_view members.now)) }
    ensures kept { OnErr result (out.new.items ≡ out.old.items) }
{
    append_printed_member_list(alloc, out, first, kind, members)
}

/// Appends a Defaults line without its line end to `out`.
///
/// # Errors
///
/// Memory ran out; then `out` is as before.
pub fn print_defaults(
    alloc: Global,
    out: &mut Vec<u8>,
    scope: &Option<Scope<'_>>,
    params: &RowsOfTable<'_, ParamRow>,
) -> Result<(), AllocError>
    ensures appended { OnOk result (out.new.items ≡ out.old.items ++ printed_defaults (option_map scope_of_view scope.now) (parameters_of_view params.now)) }
    ensures kept { OnErr result (out.new.items ≡ out.old.items) }
{
    append_defaults(alloc, out, scope, params)
}
