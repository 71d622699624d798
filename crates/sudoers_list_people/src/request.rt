//! What is asked.

ghost use Rattle.std.specs.Prelude.{◌≡◌, ◌⊎◌, ℕ, List, Ok, Err, IfOk, IfErr};
ghost use Rattle.std.specs.Option.{option_map};
ghost use Rattle.std.specs.Borrow.{Bor};
ghost use Rattle.sudoers_list_people.specs.declared.account_and_group_row_types.GroupFileRow.{GroupFileRow as RowOf};
ghost use Rattle.sudoers_list_people.specs.declared.fault.WhoFault.TheVariants.{NoMemory};
ghost use Rattle.sudoers_list_people.specs.Person.{group_of_row};
ghost use Rattle.sudoers_list_people.specs.Asked.{argument_words_after_first, command_of_words, group_requested_by_name, group_named, moment_of_stamp, request_or_who_fault};

use crate::account_and_group_row_types::GroupFileRow;
use crate::fault::WhoFault;
use crate::making_person_with_groups::{find_user_account, make_person_with_groups};
use crate::people::People;
use std::alloc::{AllocError, Global};
use sudoers_grammar::{Items, is_time_stamp};
use sudoers_match_member::{Group, Person, Request, Who, convert_stamp_to_zero_filled_number};

/// Returns the group with the name `name`.
fn find_group_named<'a>(people: &'a People, name: &[u8]) -> Option<&'a GroupFileRow>
    ensures { option_map (λ (row : Bor RowOf). group_of_row row.now) result ≡ group_named people.now name.now }
{
    for row in people.groups() {
        if row.name.as_slice() == name {
            return Some(row);
        }
    }
    None
}

/// Returns the group that is asked for, if one is; `None` if no group has the name.
fn find_group_requested_by_name(
    alloc: Global,
    people: &People,
    name: Option<&[u8]>,
) -> Result<Option<Option<Group>>, AllocError>
    ensures { IfOk result (λ group. group ≡ group_requested_by_name people.now (option_map (λ (n : Bor (List ℕ)). n.now) name.entry)) }
{
    let Some(name) = name else {
        return Ok(Some(None));
    };
    let Some(row) = find_group_named(people, name) else {
        return Ok(None);
    };
    let name = Items::from_slice(alloc, row.name.as_slice())?;
    Ok(Some(Some(Group { gid: row.gid, name })))
}

/// Returns the moment of a time stamp, as a number of 14 digits.
fn read_stamp_moment(stamp: &[u8]) -> Option<u64>
    ensures { result ≡ moment_of_stamp stamp.now }
{
    if is_time_stamp(stamp) {
        Some(convert_stamp_to_zero_filled_number(stamp))
    } else {
        None
    }
}

/// Returns the first word; without words nothing.
fn copy_command_word(alloc: Global, words: &[Items<u8>]) -> Result<Items<u8>, AllocError>
    ensures { IfOk result (λ command. command ≡ command_of_words words.now) }
{
    match words.first() {
        Some(word) => Items::from_slice(alloc, word.as_slice()),
        None => Ok(Items::new(alloc)),
    }
}

/// Returns the words after the first.
fn copy_argument_words(alloc: Global, words: &[Items<u8>]) -> Result<Items<Items<u8>>, AllocError>
    ensures { IfOk result (λ args. args ≡ argument_words_after_first words.now) }
{
    let mut args = Vec::new(alloc);
    if let Some((_, rest)) = words.split_first() {
        for word in rest {
            args.push(Items::from_slice(alloc, word.as_slice())?)?;
        }
    }
    Ok(Items::from_vec(args))
}

/// Returns the request of `who` to run `words` as `target` and as `target_group`, at the moment `moment`.
fn make_request_from_parts(
    alloc: Global,
    who: Who,
    target: Person,
    target_group: Option<Group>,
    words: &[Items<u8>],
    moment: u64,
) -> Result<Request, AllocError>
    ensures { IfOk result (λ request. request ≡ record {
      who = who;
      target = target;
      target_group = target_group;
      command = command_of_words words.now;
      args = argument_words_after_first words.now;
      moment = moment;
    }) }
{
    let command = copy_command_word(alloc, words)?;
    let args = copy_argument_words(alloc, words)?;
    Ok(Request {
        who,
        target,
        target_group,
        command,
        args,
        moment,
    })
}

/// Returns what `who` asks: to run `words` as the user `target`, and as the group `group`, at the moment `stamp`. The first word is
/// the command, and empty where there is none.
///
/// # Errors
///
/// `NoUser`: no user has the name of the target. `NoGroup`: no group has the name of the group. `BadMoment`: the stamp is no time
/// stamp with a `Z`. `NoMemory`: memory ran out.
pub fn request_for(
    alloc: Global,
    people: &People,
    who: Who,
    target: &[u8],
    group: Option<&[u8]>,
    words: &[Items<u8>],
    stamp: &[u8],
) -> Result<Request, WhoFault>
    ensures request { IfOk result (λ request. request_or_who_fault people.now who target.now (option_map (λ (n : Bor (List ℕ)). n.now) group.entry) words.now stamp.now ≡ Ok request) }
    ensures fault { IfErr result (λ fault. (fault ≡ NoMemory) ⊎ (request_or_who_fault people.now who target.now (option_map (λ (n : Bor (List ℕ)). n.now) group.entry) words.now stamp.now ≡ Err fault)) }
{
    let Some(target) = find_user_account(people, target) else {
        return Err(WhoFault::NoUser);
    };
    let Some(target_group) = find_group_requested_by_name(alloc, people, group)? else {
        return Err(WhoFault::NoGroup);
    };
    let Some(moment) = read_stamp_moment(stamp) else {
        return Err(WhoFault::BadMoment);
    };
    let target = make_person_with_groups(alloc, people, target)?;
    Ok(make_request_from_parts(alloc, who, target, target_group, words, moment)?)
}
