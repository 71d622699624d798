//! Members that were not decided.

use crate::request_part::RequestPart;
use sudoers_tree::{Kind, Member};

/// Why it is not known whether a member matches.
#[derive(Clone, Copy, Debug, PartialEq, Eq)]
pub enum WhyUndecided {
    /// The command has a digest, and its file is not read.
    Digest,
    /// It is not known who or what is in a netgroup.
    Netgroup,
    /// It is not known who is in a non-Unix group.
    NonUnixGroup,
    /// It is an address or a network, and no interface of the host is known.
    Network,
    /// It is a path with the last name of the command in another folder: both may be one file.
    OtherPath,
}

/// A member that was not decided, and could have changed an answer.
#[derive(Clone, Copy, Debug)]
pub struct UndecidedMember<'a> {
    /// The number of the line on which it is written, from 0, on the walk.
    pub line: usize,
    pub member: Member<'a>,
    /// The kind of the list in which it stands.
    pub kind: Kind,
    /// The part of a request that it could turn.
    pub part: RequestPart,
    pub reason: WhyUndecided,
    /// The alias in whose definition it stands, if it stands in one.
    pub alias: Option<&'a [u8]>,
}
