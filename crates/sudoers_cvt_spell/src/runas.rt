//! Runas_Specs as they are printed (sudoers(5), Runas_Spec).

ghost use Rattle.std.specs.Prelude.{◌≡◌, ◌++◌, codes, OnOk};
ghost use Rattle.sudoers_line_rows.specs.View.{runas_of_view, members_of_view};
ghost use Rattle.sudoers_cvt_spell.specs.internal.Fronts.{IsFront};
ghost use Rattle.sudoers_cvt_spell.specs.Commands.{printed_runas_lists, printed_runas};

use crate::appending::append_bytes;
use crate::lists::append_member_list_text;
use std::alloc::{AllocError, Global};
use sudoers_grammar::Kind;
use sudoers_line_rows::RunasSpec;

/// Appends what stands in the parentheses.
fn append_runas_lists(
    alloc: Global,
    out: &mut Vec<u8>,
    runas: &RunasSpec<'_>,
) -> Result<(), AllocError>
    ensures appended { OnOk result (out.new.items ≡ out.old.items ++ printed_runas_lists (members_of_view runas.now.users) (members_of_view runas.now.groups)) }
    ensures front { IsFront out.old.items out.new.items }
{
    append_member_list_text(alloc, out, false, Kind::Runas, &runas.users)?;
    if runas.groups.rows.is_empty() {
        return Ok(());
    }
    if runas.users.rows.is_empty() {
        append_bytes(out, b": ")?;
    } else {
        append_bytes(out, b" : ")?;
    }
    append_member_list_text(alloc, out, false, Kind::Runas, &runas.groups)
}

/// Appends a Runas_Spec.
///
/// # Errors
///
/// Memory ran out.
pub fn append_runas_spec_text(
    alloc: Global,
    out: &mut Vec<u8>,
    runas: &RunasSpec<'_>,
) -> Result<(), AllocError>
    ensures appended { OnOk result (out.new.items ≡ out.old.items ++ printed_runas (runas_of_view runas.now)) }
    ensures front { IsFront out.old.items out.new.items }
{
    append_bytes(out, b"(")?;
    append_runas_lists(alloc, out, runas)?;
    append_bytes(out, b")")
}
