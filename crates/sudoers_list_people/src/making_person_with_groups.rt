//! Users with their groups.

ghost use Rattle.std.specs.Prelude.{◌≡◌, ℕ, map, Some, IfOk, OnOk};
ghost use Rattle.std.specs.Option.{option_map};
ghost use Rattle.std.specs.Borrow.{Bor};
ghost use Rattle.sudoers_match_member.specs.declared.people_and_commands.Group.{Group as GroupOf};
ghost use Rattle.sudoers_list_people.specs.declared.account_and_group_row_types.PasswdAccount.{PasswdAccount as AccountOf};
ghost use Rattle.sudoers_list_people.specs.declared.account_and_group_row_types.GroupFileRow.{GroupFileRow as RowOf};
ghost use Rattle.sudoers_list_people.specs.Rows.{with_item_if_new};
ghost use Rattle.sudoers_list_people.specs.Person.{account_named, is_user_in_group_row, groups_of_user, name_of_group_number, person_with_groups, has_same_group_number};

use crate::account_and_group_row_types::{GroupFileRow, PasswdAccount};
use crate::people::People;
use crate::text_pieces::split_text_at_byte;
use std::alloc::{AllocError, Global};
use sudoers_grammar::Items;
use sudoers_match_member::{Group, Groups, NumberSet, Person};

/// Returns the user with the name `name`.
pub fn find_user_account<'a>(people: &'a People, name: &[u8]) -> Option<&'a PasswdAccount>
    ensures { option_map (λ (a : Bor AccountOf). a.now) result ≡ account_named people.now name.now }
{
    for account in people.accounts() {
        if account.name.as_slice() == name {
            return Some(account);
        }
    }
    None
}

/// Returns the name of the first group with the number `gid`; the empty name if there is none.
fn group_name_of_number(people: &People, gid: u32) -> &[u8]
    ensures { result.now ≡ name_of_group_number people.now gid }
{
    for row in people.groups() {
        if row.gid == gid {
            return row.name.as_slice();
        }
    }
    &[]
}

/// Returns whether `user` is among the members of the group `row`.
fn has_group_member(alloc: Global, user: &[u8], row: &GroupFileRow) -> Result<bool, AllocError>
    ensures { IfOk result (λ has. has ≡ is_user_in_group_row user.now row.now) }
{
    let members = split_text_at_byte(alloc, b',', row.members.as_slice())?;
    for member in &members {
        if user == *member {
            return Ok(true);
        }
    }
    Ok(false)
}

/// Adds a group, if its number is new.
fn add_group_if_number_new(
    alloc: Global,
    groups: &mut Vec<Group>,
    seen: &mut NumberSet,
    gid: u32,
    name: &[u8],
) -> Result<(), AllocError>
    requires { seen.old ≡ map (λ (g : GroupOf). g.gid) groups.old.items }
    ensures seen { OnOk result (seen.new ≡ map (λ (g : GroupOf). g.gid) groups.new.items) }
    ensures added { OnOk result (groups.new.items ≡ with_item_if_new has_same_group_number (Some (record { gid = gid; name = name.now })) groups.old.items) }
{
    if seen.add(gid)? {
        let name = Items::from_slice(alloc, name)?;
        groups.push(Group { gid, name })?;
    }
    Ok(())
}

/// Returns the groups of a user: his primary group, then those that list him, in file order, each number once.
fn collect_groups_of_user(
    alloc: Global,
    people: &People,
    user: &PasswdAccount,
) -> Result<Vec<Group>, AllocError>
    ensures { IfOk result (λ groups. groups.items ≡ groups_of_user people.now user.now) }
{
    let mut groups = Vec::new(alloc);
    let mut seen = NumberSet::new(alloc);
    let primary = group_name_of_number(people, user.gid);
    add_group_if_number_new(alloc, &mut groups, &mut seen, user.gid, primary)?;
    for row in people.groups() {
        if has_group_member(alloc, user.name.as_slice(), row)? {
            add_group_if_number_new(alloc, &mut groups, &mut seen, row.gid, row.name.as_slice())?;
        }
    }
    Ok(groups)
}

/// Returns a user with his groups.
///
/// # Errors
///
/// Memory ran out.
pub fn make_person_with_groups(
    alloc: Global,
    people: &People,
    user: &PasswdAccount,
) -> Result<Person, AllocError>
    ensures { IfOk result (λ person. person ≡ person_with_groups people.now user.now) }
{
    let name = Items::from_slice(alloc, user.name.as_slice())?;
    let groups = Groups::from_vec(alloc, collect_groups_of_user(alloc, people, user)?)?;
    Ok(Person {
        name,
        uid: user.uid,
        groups,
    })
}
