//! What is asked: users, groups, hosts and commands.

use crate::groups::Groups;
use crate::network::Interfaces;
use sudoers_grammar::Items;

/// A group: its number and its name.
#[derive(Drop)]
pub struct Group {
    pub gid: u32,
    pub name: Items<u8>,
}

/// A user with the groups to which he belongs.
#[derive(Drop)]
pub struct Person {
    pub name: Items<u8>,
    pub uid: u32,
    pub groups: Groups,
}

/// A user on a host.
#[derive(Drop)]
pub struct Who {
    pub user: Person,
    pub long_host: Items<u8>,
    pub short_host: Items<u8>,
    pub interfaces: Interfaces,
}

/// A command, or `sudoedit` or `list`, and its arguments, joined by single spaces.
#[derive(Drop)]
pub struct CommandLine {
    pub path: Items<u8>,
    pub args: Items<u8>,
}
