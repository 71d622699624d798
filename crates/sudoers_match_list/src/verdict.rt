//! What lists say.

ghost use Rattle.std.specs.Prelude.{◌≡◌};
ghost use Rattle.sudoers_match_list.specs.Flat.{verdict_of_hit, later_hit_if_any, hit_under_negation};

use std::alloc::{AllocError, AllocFailed};

/// What a list says of what is asked: the last matching member decides (sudoers(5), Aliases).
#[derive(Clone, Copy, Debug, PartialEq, Eq)]
pub enum Verdict {
    Allow,
    Deny,
    /// No member matches.
    Unsaid,
}

/// What a matching member says, and whether the member is `ALL`.
#[derive(Clone, Copy, Debug)]
pub struct MemberHit {
    pub allow: bool,
    pub by_all: bool,
}

/// What is found of a list.
#[derive(Clone, Copy, Debug)]
pub enum LastHitOrCycle {
    /// What the last matching member says, if one matches.
    Latest(Option<MemberHit>),
    /// The list leads to a cyclic alias.
    Cyclic,
}

/// Why a question has no answer.
#[derive(Clone, Copy, Debug, PartialEq, Eq)]
pub enum AskFault {
    /// An alias is joined to itself by a chain of mentions.
    Cycle,
    /// The arguments of the command, joined by single spaces, are longer than 65,536 bytes.
    TooLong,
    /// Memory ran out.
    NoMemory,
}

impl From<AllocError> for AskFault {
    ghost use Rattle.std.specs.Prelude.{◌≡◌};
    ghost use Rattle.sudoers_match_list.specs.declared.verdict.AskFault.TheVariants.{NoMemory};

    ghost from_gives = { λ _ e. e ≡ NoMemory };

    fn from(_: AllocError) -> AskFault {
        AskFault::NoMemory
    }
}

impl Verdict {
    /// Returns the verdict of a list whose last matching member says `hit`.
    pub fn from_last_hit(hit: Option<MemberHit>) -> Verdict
        ensures { result ≡ verdict_of_hit hit }
    {
        match hit {
            Some(hit) if hit.allow => Verdict::Allow,
            Some(_) => Verdict::Deny,
            None => Verdict::Unsaid,
        }
    }
}

/// Returns the later one, if it is one.
pub fn choose_later_hit(before: Option<MemberHit>, hit: Option<MemberHit>) -> Option<MemberHit>
    ensures { result ≡ later_hit_if_any before hit }
{
    match hit {
        Some(hit) => Some(hit),
        None => before,
    }
}

/// Returns `hit`, turned round if an odd number of `!` stands before it.
pub fn flip_hit_if_negated(negated: bool, hit: Option<MemberHit>) -> Option<MemberHit>
    ensures { result ≡ hit_under_negation negated hit }
{
    match hit {
        Some(hit) => Some(MemberHit {
            allow: if negated { !hit.allow } else { hit.allow },
            by_all: hit.by_all,
        }),
        None => None,
    }
}
