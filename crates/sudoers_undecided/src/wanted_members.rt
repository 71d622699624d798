//! Which undecided members of a list count.

ghost use Rattle.std.specs.Prelude.{◌≡◌};
ghost use Rattle.sudoers_undecided.specs.internal.Wanted.{is_all_wanted, is_sign_wanted, wanted_of_sign, wanted_under_negation};

use sudoers_tree::{MemberRow, RowsOfTable};

/// Members of a list that are not decided.
#[derive(Clone, Copy)]
pub enum WantedMembers {
    /// Those that would allow, behind the last that matches.
    Allowing,
    /// Those that would deny, behind the last that matches.
    Denying,
    All,
}

impl WantedMembers {
    /// Returns the members behind the last that matches that would allow, or deny, as `allow` says.
    pub fn from_sign(allow: bool) -> WantedMembers
        ensures { result ≡ wanted_of_sign allow }
    {
        if allow {
            WantedMembers::Allowing
        } else {
            WantedMembers::Denying
        }
    }

    /// Returns which members of an alias are these members of a list where the alias stands alone, behind a `!` if `negated`.
    pub fn turn_if_negated(self, negated: bool) -> WantedMembers
        ensures { result ≡ wanted_under_negation negated self }
    {
        match self {
            WantedMembers::All => WantedMembers::All,
            WantedMembers::Allowing => WantedMembers::from_sign(!negated),
            WantedMembers::Denying => WantedMembers::from_sign(negated),
        }
    }

    /// Returns whether a member that would allow, or deny, as `allow` says, may be among them.
    pub fn includes_sign(self, allow: bool) -> bool
        ensures { result ≡ is_sign_wanted self allow }
    {
        match self {
            WantedMembers::All => true,
            WantedMembers::Allowing => allow,
            WantedMembers::Denying => !allow,
        }
    }

    /// Returns whether these are all members.
    pub fn is_all(self) -> bool
        ensures { result ≡ is_all_wanted self }
    {
        match self {
            WantedMembers::All => true,
            _ => false,
        }
    }
}

/// A list on the line with the number `line`, from 0, whose undecided members count: those that are wanted.
#[derive(Clone, Copy)]
pub struct CountedList<'a> {
    pub line: usize,
    pub members: RowsOfTable<'a, MemberRow>,
    pub wanted: WantedMembers,
}
