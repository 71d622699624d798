//! The rows of passwd and of group.

ghost use Rattle.std.specs.Prelude.{◌≡◌, ◌⊎◌, [], not, map, List, Some, None, IfOk, OnOk, IfErr};
ghost use Rattle.sudoers_list_people.specs.declared.account_and_group_row_types.PasswdAccount.{PasswdAccount as AccountOf};
ghost use Rattle.sudoers_list_people.specs.declared.account_and_group_row_types.GroupFileRow.{GroupFileRow as GroupOf};
ghost use Rattle.sudoers_list_people.specs.declared.fault.PeopleFile.TheVariants.{Passwd, Group};
ghost use Rattle.sudoers_list_people.specs.declared.fault.PeopleFault.TheVariants.{NoMemory};
ghost use Rattle.sudoers_list_people.specs.Rows.{account_of_passwd_row, group_file_row_of_text, is_malformed_row, parsed_unless_skipped_row, with_item_if_new};
ghost use Rattle.sudoers_list_people.specs.People.{accounts_of_passwd, groups_of_group_file, first_fault_in_people_file, has_same_user_name, has_same_group_name};

use crate::account_and_group_row_types::{GroupFileRow, PasswdAccount};
use crate::fault::{PeopleFault, PeopleFile};
use crate::passwd_and_group_row_reading::{
    is_skipped_account_row, read_group_row, read_passwd_row,
};
use crate::text_pieces::split_text_at_byte;
use std::alloc::{AllocError, Global};
use sudoers_names::NameSet;
use sudoers_text::TEXT_LIMIT;

/// Reads the text of passwd.
///
/// # Errors
///
/// `TooLarge`, `BadRow` or `NoMemory`.
pub fn read_passwd_text(alloc: Global, text: &[u8]) -> Result<Vec<PasswdAccount>, PeopleFault>
    ensures accounts { IfOk result (λ accounts. accounts.items ≡ accounts_of_passwd text.now) }
    ensures good { OnOk result (first_fault_in_people_file Passwd account_of_passwd_row text.now ≡ None) }
    ensures fault { IfErr result (λ fault. (fault ≡ NoMemory) ⊎ (first_fault_in_people_file Passwd account_of_passwd_row text.now ≡ Some fault)) }
{
    if text.len() > TEXT_LIMIT {
        return Err(PeopleFault::TooLarge);
    }
    let mut accounts = Vec::new(alloc);
    let mut seen = NameSet::new(alloc);
    let rows = split_text_at_byte(alloc, b'\n', text)?;
    for (at, row) in rows.iter().enumerate() {
        if !add_passwd_row(alloc, &mut accounts, &mut seen, row)? {
            let line = at + 1;
            let file = PeopleFile::Passwd;
            return Err(PeopleFault::BadRow { file, line });
        }
    }
    Ok(accounts)
}

/// Adds the user of whom a row says, if it is the first with his name. Returns whether the row is good.
fn add_passwd_row(
    alloc: Global,
    accounts: &mut Vec<PasswdAccount>,
    seen: &mut NameSet,
    row: &[u8],
) -> Result<bool, AllocError>
    requires { seen.old ≡ map (λ (a : AccountOf). a.name) accounts.old.items }
    ensures seen { OnOk result (seen.new ≡ map (λ (a : AccountOf). a.name) accounts.new.items) }
    ensures good { IfOk result (λ good. good ≡ not (is_malformed_row account_of_passwd_row row.now)) }
    ensures added { OnOk result (accounts.new.items ≡ with_item_if_new has_same_user_name (parsed_unless_skipped_row account_of_passwd_row row.now) accounts.old.items) }
{
    if is_skipped_account_row(row) {
        return Ok(true);
    }
    let Some(account) = read_passwd_row(alloc, row)? else {
        return Ok(false);
    };
    if seen.add(alloc, account.name.as_slice())? {
        accounts.push(account)?;
    }
    Ok(true)
}

/// Reads the text of group.
///
/// # Errors
///
/// `TooLarge`, `BadRow` or `NoMemory`.
pub fn read_group_text(alloc: Global, text: &[u8]) -> Result<Vec<GroupFileRow>, PeopleFault>
    ensures groups { IfOk result (λ groups. groups.items ≡ groups_of_group_file text.now) }
    ensures good { OnOk result (first_fault_in_people_file Group group_file_row_of_text text.now ≡ None) }
    ensures fault { IfErr result (λ fault. (fault ≡ NoMemory) ⊎ (first_fault_in_people_file Group group_file_row_of_text text.now ≡ Some fault)) }
{
    if text.len() > TEXT_LIMIT {
        return Err(PeopleFault::TooLarge);
    }
    let mut groups = Vec::new(alloc);
    let mut seen = NameSet::new(alloc);
    let rows = split_text_at_byte(alloc, b'\n', text)?;
    for (at, row) in rows.iter().enumerate() {
        if !add_group_row(alloc, &mut groups, &mut seen, row)? {
            let line = at + 1;
            let file = PeopleFile::Group;
            return Err(PeopleFault::BadRow { file, line });
        }
    }
    Ok(groups)
}

/// Adds the group of which a row says, if it is the first with its name. Returns whether the row is good.
fn add_group_row(
    alloc: Global,
    groups: &mut Vec<GroupFileRow>,
    seen: &mut NameSet,
    row: &[u8],
) -> Result<bool, AllocError>
    requires { seen.old ≡ map (λ (g : GroupOf). g.name) groups.old.items }
    ensures seen { OnOk result (seen.new ≡ map (λ (g : GroupOf). g.name) groups.new.items) }
    ensures good { IfOk result (λ good. good ≡ not (is_malformed_row group_file_row_of_text row.now)) }
    ensures added { OnOk result (groups.new.items ≡ with_item_if_new has_same_group_name (parsed_unless_skipped_row group_file_row_of_text row.now) groups.old.items) }
{
    if is_skipped_account_row(row) {
        return Ok(true);
    }
    let Some(group) = read_group_row(alloc, row)? else {
        return Ok(false);
    };
    if seen.add(alloc, group.name.as_slice())? {
        groups.push(group)?;
    }
    Ok(true)
}
