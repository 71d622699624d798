//! What lists say, and whether undecided members could make them say the contrary.

ghost use Rattle.std.specs.Prelude.{◌≡◌};
ghost use Rattle.sudoers_undecided.specs.ListSway.{could_be_swayed_from, may_list_match, sway_of_empty_list, sway_of_joined_lists, sway_under_negation};
ghost use Rattle.sudoers_undecided.specs.TurningMembers.{is_allowed_by_hit_or_else};

use sudoers_match_list::MemberHit;

/// What a list says, and whether an undecided member behind the last matching one would say otherwise.
#[derive(Clone, Copy)]
pub struct ListSway {
    /// What the last matching member says, if one matches.
    pub hit: Option<MemberHit>,
    /// An undecided member behind it would allow.
    pub to_allow: bool,
    /// An undecided member behind it would deny.
    pub to_deny: bool,
}

impl ListSway {
    /// Returns the sway of a list without members.
    pub fn make_empty() -> ListSway
        ensures { result ≡ sway_of_empty_list }
    {
        ListSway {
            hit: None,
            to_allow: false,
            to_deny: false,
        }
    }

    /// Returns the sway of a list that goes on with another, which has the sway `after`.
    pub fn join_with(self, after: ListSway) -> ListSway
        ensures { result ≡ sway_of_joined_lists self after }
    {
        match after.hit {
            Some(_) => after,
            None => ListSway {
                hit: self.hit,
                to_allow: self.to_allow || after.to_allow,
                to_deny: self.to_deny || after.to_deny,
            },
        }
    }

    /// Returns the sway, turned round if an odd number of `!` stands before the list.
    pub fn turn_if_negated(self, negated: bool) -> ListSway
        ensures { result ≡ sway_under_negation negated self }
    {
        if negated {
            ListSway {
                hit: match self.hit {
                    Some(hit) => Some(MemberHit {
                        allow: !hit.allow,
                        by_all: hit.by_all,
                    }),
                    None => None,
                },
                to_allow: self.to_deny,
                to_deny: self.to_allow,
            }
        } else {
            self
        }
    }

    /// Returns whether the list allows. `own` says it where no member matches.
    pub fn allows_or_else(&self, own: bool) -> bool
        ensures { result ≡ is_allowed_by_hit_or_else own self.now.hit }
    {
        match self.hit {
            Some(hit) => hit.allow,
            None => own,
        }
    }

    /// Returns whether an undecided member could make a list say the contrary that allows, or does not, as `allowed` says.
    pub fn may_be_swayed_from(&self, allowed: bool) -> bool
        ensures { result ≡ could_be_swayed_from allowed self.now }
    {
        if allowed { self.to_deny } else { self.to_allow }
    }

    /// Returns whether a member of the list matches, or one is undecided behind it.
    pub fn may_match(&self) -> bool
        ensures { result ≡ may_list_match self.now }
    {
        self.hit.is_some() || self.to_allow || self.to_deny
    }
}
