//! Rows of passwd and of group.

use sudoers_grammar::Items;

/// A user of passwd: his name, his number and that of his primary group (passwd(5)).
#[derive(Drop)]
pub struct PasswdAccount {
    pub name: Items<u8>,
    pub uid: u32,
    pub gid: u32,
}

/// A group: its name, its number, and the names of its members, joined by `,` (group(5)).
#[derive(Drop)]
pub struct GroupFileRow {
    pub name: Items<u8>,
    pub gid: u32,
    pub members: Items<u8>,
}
