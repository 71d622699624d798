//! Users, hosts, commands and requests, as the parts of a body have them.

use crate::case_frames::{split_eight_byte_number, split_first_part_or_empty, words_of_parts};
use std::alloc::{AllocError, Global};
use sudoers_grammar::{Address, Items, Mask};
use sudoers_match::Request;
use sudoers_match_member::{CommandLine, Group, Groups, Interface, Interfaces, Person, Who};

/// Returns the number that four bytes are, the first highest: 0 if there are fewer.
fn four_byte_id_of(bytes: &[u8]) -> u32 {
    match bytes.split_first_chunk::<4>() {
        Some((number, _)) => u32::from_be_bytes(*number),
        None => 0,
    }
}

/// Returns the mask that five bytes are: a number of bits, or 255 and a dotted mask. `None` if there is no byte.
fn mask_of_bit_count_or_dotted_bytes(bytes: &[u8]) -> Option<Mask> {
    let (bits, dotted) = bytes.split_first()?;
    Some(match *bits {
        255 => Mask::Dotted(Address {
            number: four_byte_id_of(dotted),
        }),
        bits => Mask::Bits(bits),
    })
}

/// Returns the address that four bytes are, and the mask behind it if there is one.
pub fn address_and_mask_of(bytes: &[u8]) -> (Address, Option<Mask>) {
    let address = Address {
        number: four_byte_id_of(bytes),
    };
    let (_, mask) = bytes.split_at_checked(4).unwrap_or((b"", b""));
    (address, mask_of_bit_count_or_dotted_bytes(mask))
}

/// Returns the interfaces that are nine bytes each: an address and a mask.
///
/// # Errors
///
/// Memory ran out.
pub fn interfaces_of_bytes(alloc: Global, bytes: &[u8]) -> Result<Interfaces, AllocError> {
    let mut interfaces = Vec::new(alloc);
    for piece in bytes.chunks_exact(9) {
        if let (address, Some(mask)) = address_and_mask_of(piece) {
            interfaces.push(Interface { address, mask })?;
        }
    }
    Interfaces::from_vec(alloc, interfaces)
}

/// Returns the group that the first two parts are: a name, and a number of four bytes.
///
/// # Errors
///
/// Memory ran out.
pub fn group_of_parts(alloc: Global, bytes: &[u8]) -> Result<Group, AllocError> {
    let (name, rest) = split_first_part_or_empty(bytes);
    let (number, _) = split_first_part_or_empty(rest);
    Ok(Group {
        gid: four_byte_id_of(number),
        name: Items::from_slice(alloc, name)?,
    })
}

/// Returns the user that the parts are: a name, a number of four bytes, and groups.
///
/// # Errors
///
/// Memory ran out.
pub fn user_of_parts(alloc: Global, bytes: &[u8]) -> Result<Person, AllocError> {
    let (name, rest) = split_first_part_or_empty(bytes);
    let (number, rest) = split_first_part_or_empty(rest);
    Ok(Person {
        name: Items::from_slice(alloc, name)?,
        uid: four_byte_id_of(number),
        groups: groups_of_parts(alloc, rest)?,
    })
}

/// Returns the groups that the parts are, two for each.
fn groups_of_parts(alloc: Global, bytes: &[u8]) -> Result<Groups, AllocError> {
    let mut groups = Vec::new(alloc);
    let mut left = bytes;
    for _ in 0..bytes.len() {
        if left.is_empty() {
            break;
        }
        groups.push(group_of_parts(alloc, left)?)?;
        let (_, rest) = split_first_part_or_empty(left);
        let (_, others) = split_first_part_or_empty(rest);
        left = others;
    }
    Groups::from_vec(alloc, groups)
}

/// Returns `user` on the host that three parts are, its short name, its long name and its interfaces.
///
/// # Errors
///
/// Memory ran out.
pub fn who_of_user_and_host(alloc: Global, user: Person, host: &[u8]) -> Result<Who, AllocError> {
    let (short, rest) = split_first_part_or_empty(host);
    let (long, rest) = split_first_part_or_empty(rest);
    let (interfaces, _) = split_first_part_or_empty(rest);
    Ok(Who {
        user,
        long_host: Items::from_slice(alloc, long)?,
        short_host: Items::from_slice(alloc, short)?,
        interfaces: interfaces_of_bytes(alloc, interfaces)?,
    })
}

/// Returns the user on a host that two parts are: the host, and the user.
///
/// # Errors
///
/// Memory ran out.
pub fn who_of_parts(alloc: Global, bytes: &[u8]) -> Result<Who, AllocError> {
    let (host, rest) = split_first_part_or_empty(bytes);
    let (user, _) = split_first_part_or_empty(rest);
    who_of_user_and_host(alloc, user_of_parts(alloc, user)?, host)
}

/// Returns the command that two parts are: its path and its arguments.
///
/// # Errors
///
/// Memory ran out.
pub fn command_line_of_parts(alloc: Global, bytes: &[u8]) -> Result<CommandLine, AllocError> {
    let (path, rest) = split_first_part_or_empty(bytes);
    let (args, _) = split_first_part_or_empty(rest);
    Ok(CommandLine {
        path: Items::from_slice(alloc, path)?,
        args: Items::from_slice(alloc, args)?,
    })
}

/// Returns the request that seven parts are: the host, the user, the target, its group, the command, its arguments and the moment.
///
/// # Errors
///
/// Memory ran out.
pub fn request_of_parts(alloc: Global, bytes: &[u8]) -> Result<Request, AllocError> {
    let (_, rest) = split_first_part_or_empty(bytes);
    let (_, rest) = split_first_part_or_empty(rest);
    let (target, rest) = split_first_part_or_empty(rest);
    let (group, rest) = split_first_part_or_empty(rest);
    let (command, rest) = split_first_part_or_empty(rest);
    let (args, rest) = split_first_part_or_empty(rest);
    let (moment, _) = split_first_part_or_empty(rest);
    let who = who_of_parts(alloc, bytes)?;
    let (target, target_group) = target_user_and_group_of(alloc, target, group)?;
    let (command, args) = path_of_bytes_and_arguments_of_parts(alloc, command, args)?;
    Ok(Request {
        who,
        target,
        target_group,
        command,
        args,
        moment: split_eight_byte_number(moment).0,
    })
}

/// Returns the user as whom a command is to run, and the group; `None` if `group` has no byte.
fn target_user_and_group_of(
    alloc: Global,
    target: &[u8],
    group: &[u8],
) -> Result<(Person, Option<Group>), AllocError> {
    let target = user_of_parts(alloc, target)?;
    if group.is_empty() {
        return Ok((target, None));
    }
    let group = group_of_parts(alloc, group)?;
    Ok((target, Some(group)))
}

/// Returns the path of a command, and its arguments, which are parts.
fn path_of_bytes_and_arguments_of_parts(
    alloc: Global,
    path: &[u8],
    args: &[u8],
) -> Result<(Items<u8>, Items<Items<u8>>), AllocError> {
    let args = words_of_parts(alloc, args)?;
    let path = Items::from_slice(alloc, path)?;
    Ok((path, Items::from_vec(args)))
}
