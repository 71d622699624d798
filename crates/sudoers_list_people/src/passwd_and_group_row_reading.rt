//! Single rows of passwd and of group.

ghost use Rattle.std.specs.Prelude.{◌≡◌, IfOk};
ghost use Rattle.sudoers_list_people.specs.Rows.{is_skipped_row, id_number_of_field, account_of_passwd_row, group_file_row_of_text};

use crate::account_and_group_row_types::{GroupFileRow, PasswdAccount};
use crate::text_pieces::split_text_at_byte;
use std::alloc::{AllocError, Global};
use sudoers_grammar::{Items, is_digit_string, number_up_to};

/// Returns whether `row` says nothing: it is empty, or begins with `#`, `+` or `-`.
pub fn is_skipped_account_row(row: &[u8]) -> bool
    ensures { result ≡ is_skipped_row row.now }
{
    match row.first().copied() {
        None => true,
        Some(byte) => byte == b'#' || byte == b'+' || byte == b'-',
    }
}

/// Returns the decimal number that `field` is, up to 4,294,967,295.
fn read_id_number(field: &[u8]) -> Option<u32>
    ensures { result ≡ id_number_of_field field.now }
{
    if is_digit_string(field) {
        number_up_to(u32::MAX, field)
    } else {
        None
    }
}

/// Returns the user of whom a row of passwd says, if it is in the form of such a row (passwd(5)).
///
/// # Errors
///
/// Memory ran out.
pub fn read_passwd_row(alloc: Global, row: &[u8]) -> Result<Option<PasswdAccount>, AllocError>
    ensures { IfOk result (λ account. account ≡ account_of_passwd_row row.now) }
{
    let fields = split_text_at_byte(alloc, b':', row)?;
    let [name, _, uid, gid, _, _, _] = fields.as_slice() else {
        return Ok(None);
    };
    let (Some(uid), Some(gid)) = (read_id_number(uid), read_id_number(gid)) else {
        return Ok(None);
    };
    if name.is_empty() {
        return Ok(None);
    }
    let name = Items::from_slice(alloc, name)?;
    Ok(Some(PasswdAccount { name, uid, gid }))
}

/// Returns the group of which a row of group says, if it is in the form of such a row (group(5)).
///
/// # Errors
///
/// Memory ran out.
pub fn read_group_row(alloc: Global, row: &[u8]) -> Result<Option<GroupFileRow>, AllocError>
    ensures { IfOk result (λ group. group ≡ group_file_row_of_text row.now) }
{
    let fields = split_text_at_byte(alloc, b':', row)?;
    let [name, _, gid, members] = fields.as_slice() else {
        return Ok(None);
    };
    let Some(gid) = read_id_number(gid) else {
        return Ok(None);
    };
    if name.is_empty() {
        return Ok(None);
    }
    let name = Items::from_slice(alloc, name)?;
    let members = Items::from_slice(alloc, members)?;
    Ok(Some(GroupFileRow { name, gid, members }))
}
