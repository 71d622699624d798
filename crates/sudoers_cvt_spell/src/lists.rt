//! Lists of members as they are printed (sudoers(5), Aliases).

ghost use Rattle.std.specs.Prelude.{◌≡◌, ◌++◌, codes, false, OnOk};
ghost use Rattle.sudoers_line_rows.specs.View.{members_of_view};
ghost use Rattle.sudoers_cvt_spell.specs.internal.Fronts.{IsFront};
ghost use Rattle.sudoers_cvt_spell.specs.Members.{printed_member_list};

use crate::appending::append_bytes;
use crate::members::append_member_text_without_separator;
use std::alloc::{AllocError, Global};
use sudoers_grammar::Kind;
use sudoers_line_rows::{MemberRow, RowsOfTable};

/// Appends a list of `kind`. With `first`, the line begins with it.
///
/// # Errors
///
/// Memory ran out.
pub fn append_member_list_text(
    alloc: Global,
    out: &mut Vec<u8>,
    first: bool,
    kind: Kind,
    members: &RowsOfTable<'_, MemberRow>,
) -> Result<(), AllocError>
    ensures appended { OnOk result (out.new.items ≡ out.old.items ++ printed_member_list first kind (members_of_view members.now)) }
    ensures front { IsFront out.old.items out.new.items }
{
    let tables = members.tables;
    let Some((head, rest)) = members.rows.split_first() else {
        return Ok(());
    };
    append_member_text_without_separator(alloc, out, first, kind, &tables.member_of_row(head))?;
    for row in rest {
        append_bytes(out, b", ")?;
        append_member_text_without_separator(alloc, out, false, kind, &tables.member_of_row(row))?;
    }
    Ok(())
}
