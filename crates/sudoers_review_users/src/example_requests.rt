//! Requests that may show in what two policies differ for a user. No proof relies on which they are.

use crate::example_commands::list_example_commands;
use crate::examples::UserReview;
use std::alloc::{AllocError, Global};
use sudoers_compare::FlatRow;
use sudoers_grammar::{Items, is_time_stamp};
use sudoers_line_rows::{BorrowedAtom, MemberRow, RowsOfTable};
use sudoers_list_people::{People, WhoFault, who_for};
use sudoers_match::{Group, Person};
use sudoers_match_member::convert_stamp_to_zero_filled_number;

/// How many user specifications are looked at for all examples of a comparison.
pub const MOST_LOOKED_AT: usize = 20_000_000;

/// How many users are tried as targets at most.
const MOST_TARGETS: usize = 4;

/// What a user may ask for.
#[derive(Drop)]
pub struct ExampleRequest {
    pub target: Person,
    pub target_group: Option<Group>,
    pub command: Items<u8>,
    pub args: Items<Items<u8>>,
    pub moment: u64,
}

/// Returns the user with the name `name`, if there is one.
fn find_person(alloc: Global, people: &People, name: &[u8]) -> Result<Option<Person>, AllocError> {
    match who_for(alloc, people, name, b"", b"") {
        Ok(who) => Ok(Some(who.user)),
        Err(WhoFault::NoMemory) => Err(AllocError),
        Err(_) => Ok(None),
    }
}

/// Returns the name of the user that `atom` names, if it names one.
fn name_of_user_atom<'a>(people: &'a People, atom: &BorrowedAtom<'a>) -> Option<&'a [u8]> {
    match *atom {
        BorrowedAtom::Name(name) => Some(name),
        BorrowedAtom::Id(uid) => {
            let account = people.accounts().iter().find(|account| account.uid == uid)?;
            Some(account.name.as_slice())
        }
        _ => None,
    }
}

/// Adds `name` to `names`, if it is not there and there is room.
fn add_target_name<'a>(names: &mut Vec<&'a [u8]>, name: &'a [u8]) -> Result<(), AllocError> {
    if names.len() < MOST_TARGETS && !names.iter().any(|other| *other == name) {
        names.push(name)?;
    }
    Ok(())
}

/// Adds the users that `list` names and does not negate to `names`.
fn add_listed_names<'a>(
    names: &mut Vec<&'a [u8]>,
    people: &'a People,
    list: &RowsOfTable<'a, MemberRow>,
) -> Result<(), AllocError> {
    for row in list.rows {
        let member = list.tables.member_of_row(row);
        if !member.negated
            && let Some(name) = name_of_user_atom(people, &member.atom)
        {
            add_target_name(names, name)?;
        }
    }
    Ok(())
}

/// Returns the users as whom the command of `row` may run for the user of `review`: those whom it names. If it names nobody, these are those whom
/// the policies take where no user is named, and himself.
fn list_target_names<'a>(
    alloc: Global,
    review: &UserReview<'_, 'a, 'a, 'a>,
    row: &FlatRow<'a>,
) -> Result<Vec<&'a [u8]>, AllocError> {
    let mut names = Vec::new(alloc);
    if let Some(runas) = &row.runas
        && let Some(users) = &runas.users
    {
        add_listed_names(&mut names, review.people, users)?;
    }
    if names.is_empty() {
        add_target_name(&mut names, review.new_default)?;
        add_target_name(&mut names, review.old_default)?;
        add_target_name(&mut names, review.name)?;
    }
    Ok(names)
}

/// Returns the first group that `row` names in its Runas_Spec, if there is one.
fn find_named_group(
    alloc: Global,
    people: &People,
    row: &FlatRow<'_>,
) -> Result<Option<Group>, AllocError> {
    let Some(runas) = &row.runas else {
        return Ok(None);
    };
    let Some(list) = &runas.groups else {
        return Ok(None);
    };
    for member_row in list.rows {
        if let BorrowedAtom::Name(name) = list.tables.member_of_row(member_row).atom
            && let Some(group) = people
                .groups()
                .iter()
                .find(|group| group.name.as_slice() == name)
        {
            let name = Items::from_slice(alloc, name)?;
            return Ok(Some(Group {
                gid: group.gid,
                name,
            }));
        }
    }
    Ok(None)
}

/// Returns the moments at which `row` may decide: `now`, and where its time begins and ends.
fn list_moments(alloc: Global, row: &FlatRow<'_>, now: u64) -> Result<Vec<u64>, AllocError> {
    let mut moments = Vec::new(alloc);
    moments.push(now)?;
    for bound in [row.options.notbefore, row.options.notafter] {
        if let Some(stamp) = bound
            && is_time_stamp(stamp)
        {
            moments.push(convert_stamp_to_zero_filled_number(stamp))?;
        }
    }
    Ok(moments)
}

/// Adds to `requests` one for each command that `row` may match: as the user `name` at `moment`. With `has_group` it is as the group that `row`
/// names, too; without such a group nothing is added.
fn add_requests<'a>(
    alloc: Global,
    requests: &mut Vec<ExampleRequest>,
    people: &People,
    row: &FlatRow<'a>,
    name: &[u8],
    has_group: bool,
    moment: u64,
) -> Result<(), AllocError> {
    for example in list_example_commands(alloc, &row.member.atom)? {
        let Some(target) = find_person(alloc, people, name)? else {
            return Ok(());
        };
        let target_group = if has_group {
            find_named_group(alloc, people, row)?
        } else {
            None
        };
        if target_group.is_some() == has_group {
            requests.push(ExampleRequest {
                target,
                target_group,
                command: example.command,
                args: example.args,
                moment,
            })?;
        }
    }
    Ok(())
}

/// Returns requests that `row` may fit where the user of `review` makes them. Takes from `left` the user specifications that are looked at to ask
/// them. Returns none if these are more.
///
/// # Errors
///
/// Memory ran out.
pub fn list_example_requests<'a>(
    alloc: Global,
    review: &UserReview<'_, 'a, 'a, 'a>,
    row: &FlatRow<'a>,
    left: &mut usize,
) -> Result<Vec<ExampleRequest>, AllocError> {
    if *left == 0 {
        return Ok(Vec::new(alloc));
    }
    let names = list_target_names(alloc, review, row)?;
    let mut requests = Vec::new(alloc);
    for moment in list_moments(alloc, row, review.moment)? {
        for name in names.as_slice() {
            add_requests(
                alloc,
                &mut requests,
                review.people,
                row,
                name,
                false,
                moment,
            )?;
            add_requests(alloc, &mut requests, review.people, row, name, true, moment)?;
        }
    }
    let specs = review
        .compared
        .old
        .specs
        .len()
        .saturating_add(review.compared.new.specs.len());
    let needed = requests.len().saturating_mul(specs.saturating_add(1));
    *left = left.saturating_sub(needed);
    if *left == 0 {
        requests.truncate(0);
    }
    Ok(requests)
}
