//! What is asked of a list, and how its members stand to that.

ghost use Rattle.std.specs.Prelude.{◌≡◌, ◌&&◌};
ghost use Rattle.std.specs.Option.{is_some};
ghost use Rattle.sudoers_line_rows.specs.View.{atom_of_view, member_of_view};
ghost use Rattle.sudoers_match_list.specs.Flat.{has_no_digests, signed_atom_of_member};
ghost use Rattle.sudoers_undecided.specs.ListSway.{is_bare_and_undecided, sway_of_one_atom};
ghost use Rattle.sudoers_undecided.specs.MatchTests.{is_netgroup_or_non_unix_group_atom};
ghost use Rattle.sudoers_undecided.specs.MemberQuestions.{is_atom_matched_by_question, is_host_atom_undecided, is_undecided_by_question};

use crate::command_question::find_reason_of_command;
use crate::list_sway::ListSway;
use crate::undecided_member::WhyUndecided;
use sudoers_match_list::MemberHit;
use sudoers_match_member::{
    CommandLine, Group, Person, Who, matches_command_atom, matches_host_atom,
    matches_runas_group_atom, matches_user_atom,
};
use sudoers_tree::{BorrowedAtom, Member};

/// Whom or what the members of a list may match.
#[derive(Clone, Copy)]
pub enum MemberQuestion<'b> {
    User(&'b Person),
    Host(&'b Who),
    RunasGroup(&'b Group),
    Command(&'b CommandLine),
    /// Nobody is asked for, and no member matches.
    Nobody,
}

/// Returns why it is not known whether `atom` matches a user or a group, if that is not known.
pub fn find_reason_of_user_atom(atom: &BorrowedAtom<'_>) -> Option<WhyUndecided>
    ensures { is_some result ≡ is_netgroup_or_non_unix_group_atom (atom_of_view atom.now) }
{
    match *atom {
        BorrowedAtom::Netgroup(_) => Some(WhyUndecided::Netgroup),
        BorrowedAtom::NonUnix(_) => Some(WhyUndecided::NonUnixGroup),
        _ => None,
    }
}

/// Returns why it is not known whether `atom` matches the host of `who`, if that is not known.
pub fn find_reason_of_host_atom(atom: &BorrowedAtom<'_>, who: &Who) -> Option<WhyUndecided>
    ensures { is_some result ≡ is_host_atom_undecided who.now (atom_of_view atom.now) }
{
    match *atom {
        BorrowedAtom::Netgroup(_) => Some(WhyUndecided::Netgroup),
        BorrowedAtom::Address(_) | BorrowedAtom::Network(_, _) => {
            if who.interfaces.as_slice().is_empty() {
                Some(WhyUndecided::Network)
            } else {
                None
            }
        }
        _ => None,
    }
}

/// Returns `reason` if `member` has no digests.
fn keep_reason_of_bare_member(
    reason: Option<WhyUndecided>,
    member: &Member<'_>,
) -> Option<WhyUndecided>
    ensures { is_some result ≡ (is_some reason && has_no_digests (member_of_view member.now).digests) }
{
    if member.digests.rows.is_empty() {
        reason
    } else {
        None
    }
}

impl MemberQuestion<'_> {
    /// Returns whether `atom` matches what is asked.
    fn matches_atom(&self, atom: &BorrowedAtom<'_>) -> bool
        ensures { result ≡ is_atom_matched_by_question self.now (atom_of_view atom.now) }
    {
        match *self {
            MemberQuestion::User(person) => matches_user_atom(atom, person),
            MemberQuestion::Host(who) => matches_host_atom(atom, who),
            MemberQuestion::RunasGroup(group) => matches_runas_group_atom(atom, group),
            MemberQuestion::Command(command) => matches_command_atom(atom, command),
            MemberQuestion::Nobody => false,
        }
    }

    /// Returns whether `member`, which is no defined alias, matches what is asked. With a digest it matches nothing.
    pub fn matches_member(&self, member: &Member<'_>) -> bool
        ensures { result ≡ (is_atom_matched_by_question self.now (member_of_view member.now).atom && has_no_digests (member_of_view member.now).digests) }
    {
        self.matches_atom(&member.atom) && member.digests.rows.is_empty()
    }

    /// Returns why it is not known whether `member`, which is no defined alias, matches what is asked, if that is not known.
    pub fn find_reason_of_member(&self, member: &Member<'_>) -> Option<WhyUndecided>
        ensures { is_some result ≡ is_undecided_by_question self.now (signed_atom_of_member (member_of_view member.now)) }
    {
        match *self {
            MemberQuestion::User(_) | MemberQuestion::RunasGroup(_) => {
                keep_reason_of_bare_member(find_reason_of_user_atom(&member.atom), member)
            }
            MemberQuestion::Host(who) => {
                keep_reason_of_bare_member(find_reason_of_host_atom(&member.atom, who), member)
            }
            MemberQuestion::Command(command) => find_reason_of_command(member, command),
            MemberQuestion::Nobody => None,
        }
    }

    /// Returns the sway of a list with `member` alone, which is no defined alias.
    pub fn sway_of_member(&self, member: &Member<'_>) -> ListSway
        ensures { result ≡ sway_of_one_atom (is_undecided_by_question self.now) (is_atom_matched_by_question self.now) (signed_atom_of_member (member_of_view member.now)) }
    {
        let allow = !member.negated;
        let is_undecided = self.find_reason_of_member(member).is_some();
        let hit = if self.matches_member(member) {
            Some(MemberHit {
                allow,
                by_all: matches!(member.atom, BorrowedAtom::All),
            })
        } else {
            None
        };
        ListSway {
            hit,
            to_allow: is_undecided && allow,
            to_deny: is_undecided && !allow,
        }
    }
}
