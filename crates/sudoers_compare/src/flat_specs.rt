//! User specifications with their lists flat.

use sudoers_line_rows::MemberRow;
use sudoers_match::{CommandOptions, CommandTags};

/// The lists of a Runas_Spec, flat. A list is None where nothing stands on its side of the colon.
#[derive(Drop)]
pub struct FlatRunas {
    pub users: Option<Vec<MemberRow>>,
    pub groups: Option<Vec<MemberRow>>,
}

/// A command as it is written, with all that holds of it. It begins at the byte `start` of its line.
#[derive(Drop)]
pub struct FlatCommand<'a> {
    pub start: u32,
    pub runas: Option<FlatRunas>,
    pub options: CommandOptions<'a>,
    pub tags: CommandTags,
    /// The command, or the members of the alias that it names.
    pub members: Vec<MemberRow>,
}

/// Hosts, and the commands that may be run there.
#[derive(Drop)]
pub struct FlatHostGroup<'a> {
    pub hosts: Vec<MemberRow>,
    pub commands: Vec<FlatCommand<'a>>,
}

/// A user specification on the line with the number `line` of the walk, from 0.
#[derive(Drop)]
pub struct FlatSpec<'a> {
    pub line: usize,
    pub users: Vec<MemberRow>,
    pub groups: Vec<FlatHostGroup<'a>>,
}
