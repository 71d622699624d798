//! The rules that match in all parts but one, as text.

ghost use Rattle.sudoers_match.specs.Default.{IsRunasDefault};

use crate::user_answer::UserAnswer;
use std::alloc::{AllocError, Global};
use sudoers_list::{UserAndRunasDefaultNames, append_listed_command, append_place_on_walk_line};
use sudoers_match::{CommandSpellings, MissedPart, NearMiss, list_near_misses};
use sudoers_match_list::AcyclicWalk;
use sudoers_tree::Policy;

/// Returns what is printed between the place of a rule and its text.
fn words_of_missed_part(part: MissedPart) -> &'static [u8] {
    match part {
        MissedPart::Host => b": matches but for the host: ",
        MissedPart::Runas => b": matches but for the user or group as whom the command runs: ",
        MissedPart::Moment => b": matches but for the moment: ",
        MissedPart::Arguments => b": matches but for the arguments: ",
    }
}

/// Returns a line for each command of a rule of `policy` that matches in all parts but one, where no rule gives an `answer`: its place, the
/// part, and the rule. `command` is the command that is asked for in each spelling, and `acyclic` the walk of `policy`.
///
/// # Errors
///
/// Memory ran out.
pub fn make_near_miss_lines<'a>(
    alloc: Global,
    policy: &Policy,
    acyclic: &AcyclicWalk<'a>,
    answer: &UserAnswer<'a>,
    command: &CommandSpellings,
) -> Result<Vec<u8>, AllocError>
    requires { IsRunasDefault acyclic.now answer.now.request.who answer.now.default.now }
{
    let mut out = Vec::new(alloc);
    if answer.found.is_some() {
        return Ok(out);
    }
    let misses = list_near_misses(alloc, acyclic, &answer.request, command, answer.default)?;
    let names = UserAndRunasDefaultNames {
        user: answer.request.who.user.name.as_slice(),
        default: answer.default,
    };
    for miss in misses.as_slice() {
        append_near_miss(alloc, &mut out, policy, &names, miss)?;
    }
    Ok(out)
}

/// Appends the line of `miss`.
fn append_near_miss(
    alloc: Global,
    out: &mut Vec<u8>,
    policy: &Policy,
    names: &UserAndRunasDefaultNames<'_>,
    miss: &NearMiss<'_>,
) -> Result<(), AllocError> {
    append_place_on_walk_line(alloc, out, policy, miss.line, miss.member.start)?;
    out.extend_from_slice(words_of_missed_part(miss.part))?;
    append_listed_command(alloc, out, names, &miss.head, &miss.member)?;
    out.extend_from_slice(b"\n")
}
