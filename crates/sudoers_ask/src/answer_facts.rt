//! The answer of a policy to a user, part by part.

ghost use Rattle.std.specs.Prelude.{◌≡◌, IfSome};
ghost use Rattle.std.specs.Option.{option_map};
ghost use Rattle.sudoers_match.specs.Answer.{IsAnswerByCommandTest};
ghost use Rattle.sudoers_match.specs.Default.{IsRunasDefault};
ghost use Rattle.sudoers_match.specs.Found.{HasMemberAndSettingsFromLines, answer_without_member_and_settings};
ghost use Rattle.sudoers_match.specs.Spellings.{is_spelled_command_match};

use crate::asked_question::AskedQuestion;
use crate::placed_text::{PlacedText, make_placed_command, make_placed_member};
use crate::undecided_lines::{is_of_same_place, list_undecided_members_of_answer};
use crate::user_answer::UserAnswer;
use std::alloc::{AllocError, Global};
use sudoers_list::{DecidingAliasMember, UserAndRunasDefaultNames, find_answer_reason};
use sudoers_match::{
    AnswerWithMemberAndSettings, CommandSpellings, MissedPart, Request, list_near_misses,
};
use sudoers_match_list::AcyclicWalk;
use sudoers_tree::{Kind, Policy};
use sudoers_undecided::{UndecidedMember, WhyUndecided};

/// A member of an alias that decides, and the name of the alias.
#[derive(Drop)]
pub struct AliasMemberFact {
    pub alias: Vec<u8>,
    pub member: PlacedText,
}

/// A text of a policy and a word for it: of a rule that matches in all parts but one, this part; of a member that was not decided, the reason.
#[derive(Drop)]
pub struct WordedText {
    pub placed: PlacedText,
    pub word: &'static str,
}

/// The rule that decides, and the member that decides if an alias hides it.
#[derive(Drop)]
pub struct RuleFact {
    pub allows: bool,
    pub rule: PlacedText,
    pub member: Option<AliasMemberFact>,
}

/// The answer to a user: the rule that decides, if one matches, and what was not decided.
#[derive(Drop)]
pub struct UserFacts {
    pub name: Vec<u8>,
    pub rule: Option<RuleFact>,
    /// Where no rule matches, those that match in all parts but one; nothing if they were not asked for.
    pub near: Option<Vec<WordedText>>,
    /// The members that were not decided and could have changed the answer.
    pub undecided: Vec<WordedText>,
}

/// Returns the word for the part `part` of a request.
fn word_of_missed_part(part: MissedPart) -> &'static str {
    match part {
        MissedPart::Host => "host",
        MissedPart::Runas => "runas",
        MissedPart::Moment => "moment",
        MissedPart::Arguments => "arguments",
    }
}

/// Returns the word for the reason `reason`.
fn word_of_reason(reason: WhyUndecided) -> &'static str {
    match reason {
        WhyUndecided::Digest => "digest",
        WhyUndecided::Netgroup => "netgroup",
        WhyUndecided::NonUnixGroup => "non_unix_group",
        WhyUndecided::Network => "network",
        WhyUndecided::OtherPath => "other_path",
    }
}

/// Returns the member `inner` of an alias of `policy` that decides, if there is one.
fn make_alias_member_fact(
    alloc: Global,
    policy: &Policy,
    inner: &Option<DecidingAliasMember<'_>>,
) -> Result<Option<AliasMemberFact>, AllocError> {
    let Some(inner) = inner else {
        return Ok(None);
    };
    let Some(place) = policy.walk().place_of_definition(Kind::Cmnd, inner.name) else {
        return Ok(None);
    };
    Ok(Some(AliasMemberFact {
        alias: Vec::from_slice(alloc, inner.name)?,
        member: make_placed_member(alloc, place.line, Kind::Cmnd, &inner.member)?,
    }))
}

/// Returns the rule of `policy` that gives the answer `found` to `request`, if one does, as it is listed for the user of `request` and the
/// user `default` as whom a command runs where nothing else is said. `acyclic` is the walk of `policy`, and `command` the command of
/// `request` in each spelling.
///
/// # Errors
///
/// Memory ran out.
pub fn find_rule_fact<'a>(
    alloc: Global,
    policy: &'a Policy,
    acyclic: &AcyclicWalk<'a>,
    request: &Request,
    command: &CommandSpellings,
    default: &[u8],
    found: Option<AnswerWithMemberAndSettings<'a>>,
) -> Result<Option<RuleFact>, AllocError>
    requires same { acyclic.now ≡ policy.now.walk.lines }
    requires answer { IsAnswerByCommandTest policy.now.walk.lines (is_spelled_command_match command.now) request.now (option_map answer_without_member_and_settings found) }
    requires found { IfSome found (HasMemberAndSettingsFromLines policy.now.walk.lines) }
{
    let names = UserAndRunasDefaultNames {
        user: request.who.user.name.as_slice(),
        default,
    };
    match found {
        Some(found) => {
            let reason = find_answer_reason(alloc, policy, acyclic, request, command, &found)?;
            let line = reason.rule.at.number;
            let told = reason.rule.command;
            Ok(Some(RuleFact {
                allows: found.answer.allow,
                rule: make_placed_command(alloc, line, &names, &told.head, &told.member)?,
                member: make_alias_member_fact(alloc, policy, &reason.inner)?,
            }))
        }
        None => Ok(None),
    }
}

/// Returns the commands of the rules that match in all parts but one, where no rule gives an `answer`. `command` is the command that is asked
/// for in each spelling.
///
/// # Errors
///
/// Memory ran out.
pub fn list_near_facts<'a>(
    alloc: Global,
    acyclic: &AcyclicWalk<'a>,
    answer: &UserAnswer<'a>,
    command: &CommandSpellings,
) -> Result<Vec<WordedText>, AllocError>
    requires { IsRunasDefault acyclic.now answer.now.request.who answer.now.default.now }
{
    let mut facts = Vec::new(alloc);
    if answer.found.is_some() {
        return Ok(facts);
    }
    let misses = list_near_misses(alloc, acyclic, &answer.request, command, answer.default)?;
    let names = UserAndRunasDefaultNames {
        user: answer.request.who.user.name.as_slice(),
        default: answer.default,
    };
    for miss in misses.as_slice() {
        facts.push(WordedText {
            placed: make_placed_command(alloc, miss.line, &names, &miss.head, &miss.member)?,
            word: word_of_missed_part(miss.part),
        })?;
    }
    Ok(facts)
}

/// Returns what was not decided in `answer`, which is that of the user `name` to `asked`. A member that stands there twice is there once.
///
/// # Errors
///
/// Memory ran out.
pub fn list_undecided_facts<'a>(
    alloc: Global,
    asked: &AskedQuestion<'a>,
    name: &[u8],
    answer: &UserAnswer<'a>,
) -> Result<Vec<WordedText>, AllocError>
    requires { IsRunasDefault asked.now.walk answer.now.request.who answer.now.default.now }
{
    let members = list_undecided_members_of_answer(alloc, asked, name, answer)?;
    make_undecided_facts(alloc, members.as_slice())
}

/// Returns the members `members`, which were not decided, each once.
///
/// # Errors
///
/// Memory ran out.
pub fn make_undecided_facts(
    alloc: Global,
    members: &[UndecidedMember<'_>],
) -> Result<Vec<WordedText>, AllocError> {
    let mut facts = Vec::new(alloc);
    let mut before: Option<UndecidedMember<'_>> = None;
    for one in members {
        if !is_of_same_place(&before, one) {
            facts.push(WordedText {
                placed: make_placed_member(alloc, one.line, one.kind, &one.member)?,
                word: word_of_reason(one.reason),
            })?;
        }
        before = Some(*one);
    }
    Ok(facts)
}
