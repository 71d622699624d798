//! What is asked.

use crate::people_and_commands::{Group, Person, Who};
use sudoers_grammar::Items;

/// What a user asks for: to run a command as another user, at a moment.
#[derive(Drop)]
pub struct Request {
    /// The user, and the host.
    pub who: Who,
    /// The user as whom the command is to run.
    pub target: Person,
    /// The group as which it is to run, if one is asked for.
    pub target_group: Option<Group>,
    /// The path of the command, or `sudoedit` or `list`.
    pub command: Items<u8>,
    /// The arguments of the command.
    pub args: Items<Items<u8>>,
    /// Year, month, day, hour, minute and second in UTC, as a number of 14 digits.
    pub moment: u64,
}
