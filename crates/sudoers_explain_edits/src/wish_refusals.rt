//! The words that tell why a wish is refused.

use crate::name_refusals::find_similar_alias_name;
use std::alloc::AllocError;
use sudoers_edit::EditFault;
use sudoers_grammar::{Kind, alias_keyword_of_kind};
use sudoers_plan::{LinePlace, PlanFault, Wish, count_equal_lines};
use sudoers_text::append_decimal_number;
use sudoers_tree::{Policy, WalkLineSpot, is_same_kind};

/// How many files of a policy are named.
const MOST_NAMED: usize = 5;

/// The kinds of aliases.
const KINDS: [Kind; 4] = [Kind::User, Kind::Runas, Kind::Host, Kind::Cmnd];

/// Appends the words that tell why `wish` is refused with `fault`, without the wish and the name of the fault. Appends nothing where the
/// name says all. `policy` is the one of which the plan was made.
///
/// # Errors
///
/// Memory ran out.
pub fn append_refusal_text(
    out: &mut Vec<u8>,
    policy: &Policy,
    wish: &Wish,
    fault: &PlanFault,
) -> Result<(), AllocError> {
    match fault {
        PlanFault::BadLine => out.extend_from_slice(b"the text is not one logical line"),
        PlanFault::IncludeLine => {
            out.extend_from_slice(b"an include line is removed only with --even-includes")
        }
        PlanFault::NotMet => out.extend_from_slice(b"another wish of the call undoes it"),
        PlanFault::Denial { at } => append_denial(out, policy, wish, *at),
        PlanFault::EmptiedScope { at } => append_emptied_scope(out, policy, *at),
        PlanFault::Misread { at } => append_misread(out, policy, *at),
        PlanFault::Refused(EditFault::OnlyOne) => append_only_member(out, wish),
        PlanFault::Refused(_) | PlanFault::NoMemory => Ok(()),
        fault => append_refusal_of_name_or_text(out, policy, wish, fault),
    }
}

/// Appends the words for a name or a text that is not there, or that is not what it should be.
fn append_refusal_of_name_or_text(
    out: &mut Vec<u8>,
    policy: &Policy,
    wish: &Wish,
    fault: &PlanFault,
) -> Result<(), AllocError> {
    match wish {
        Wish::HasMember {
            kind,
            alias,
            member,
        }
        | Wish::LacksMember {
            kind,
            alias,
            member,
        } => match fault {
            PlanFault::BadMember => append_bad_member(out, *kind, member.as_slice()),
            _ => append_missing_alias(out, policy, *kind, alias.as_slice()),
        },
        Wish::HasLine { file, place, .. } if !matches!(fault, PlanFault::NoFile) => {
            append_anchors(out, policy, file.as_slice(), place)
        }
        Wish::HasLine { file, .. } | Wish::LacksLine { file, .. } => {
            append_missing_file(out, policy, file.as_slice())
        }
        Wish::NoUser { .. } => Ok(()),
    }
}

/// Appends that the text is not one member.
fn append_bad_member(out: &mut Vec<u8>, kind: Kind, member: &[u8]) -> Result<(), AllocError> {
    out.extend_from_slice(b"'")?;
    out.extend_from_slice(member)?;
    out.extend_from_slice(b"' is not one member of a ")?;
    out.extend_from_slice(alias_keyword_of_kind(kind))
}

/// Appends that no alias of the kind has the name, which other kind has it, and which name is similar.
fn append_missing_alias(
    out: &mut Vec<u8>,
    policy: &Policy,
    kind: Kind,
    name: &[u8],
) -> Result<(), AllocError> {
    out.extend_from_slice(b"no ")?;
    append_alias(out, kind, name)?;
    if let Some(other) = find_other_kind(policy, kind, name) {
        out.extend_from_slice(b", but a ")?;
        append_alias(out, other, name)?;
    }
    let similar = find_similar_alias_name(policy, kind, name)?;
    if !similar.is_empty() {
        out.extend_from_slice(b"; did you mean ")?;
        out.extend_from_slice(similar.as_bytes())?;
        out.extend_from_slice(b"?")?;
    }
    Ok(())
}

/// Appends the keyword of the kind, and the name.
fn append_alias(out: &mut Vec<u8>, kind: Kind, name: &[u8]) -> Result<(), AllocError> {
    out.extend_from_slice(alias_keyword_of_kind(kind))?;
    out.extend_from_slice(b" ")?;
    out.extend_from_slice(name)
}

/// Returns another kind than `kind` in which the name is defined.
fn find_other_kind(policy: &Policy, kind: Kind, name: &[u8]) -> Option<Kind> {
    for other in &KINDS {
        if !is_same_kind(*other, kind) && policy.definition(*other, name).is_some() {
            return Some(*other);
        }
    }
    None
}

/// Appends that no file has the name, and the first names that files have.
fn append_missing_file(out: &mut Vec<u8>, policy: &Policy, name: &[u8]) -> Result<(), AllocError> {
    out.extend_from_slice(b"no file of the policy is named ")?;
    out.extend_from_slice(name)?;
    let files = policy.numbers_of_files_on_walk();
    let mut between: &[u8] = b"; files: ";
    for number in files.iter().take(MOST_NAMED) {
        out.extend_from_slice(between)?;
        out.extend_from_slice(policy.file_name(*number))?;
        between = b", ";
    }
    if files.len() > MOST_NAMED {
        out.extend_from_slice(b", ..")?;
    }
    Ok(())
}

/// Appends how many lines of the file are the text that says where a new line goes.
fn append_anchors(
    out: &mut Vec<u8>,
    policy: &Policy,
    name: &[u8],
    place: &LinePlace,
) -> Result<(), AllocError> {
    let (LinePlace::After(anchor) | LinePlace::Before(anchor)) = place else {
        return Ok(());
    };
    let count = count_equal_lines(policy, name, anchor.as_slice())?;
    if count > 1 {
        append_decimal_number(policy.allocator(), out, count)?;
        out.extend_from_slice(b" lines of ")?;
        out.extend_from_slice(name)?;
        out.extend_from_slice(b" are '")?;
    } else {
        out.extend_from_slice(b"no line of ")?;
        out.extend_from_slice(name)?;
        out.extend_from_slice(b" is '")?;
    }
    out.extend_from_slice(anchor.as_slice())?;
    out.extend_from_slice(b"'")
}

/// Appends the place of the line at `at`: its file and its first physical line.
fn append_line_place(
    out: &mut Vec<u8>,
    policy: &Policy,
    at: WalkLineSpot,
) -> Result<(), AllocError> {
    out.extend_from_slice(policy.file_name(at.file))?;
    out.extend_from_slice(b":")?;
    append_decimal_number(policy.allocator(), out, at.row)?;
    out.extend_from_slice(b": ")
}

/// Appends that the line at `at` denies something to the user of the wish.
fn append_denial(
    out: &mut Vec<u8>,
    policy: &Policy,
    wish: &Wish,
    at: WalkLineSpot,
) -> Result<(), AllocError> {
    append_line_place(out, policy, at)?;
    if let Wish::NoUser { user, .. } = wish {
        out.extend_from_slice(b"this denies something to ")?;
        out.extend_from_slice(user.as_slice())?;
        out.extend_from_slice(b" or to an alias with ")?;
        out.extend_from_slice(user.as_slice())?;
        out.extend_from_slice(b"; --even-denials goes on")?;
    }
    Ok(())
}

/// Appends that the Defaults line at `at` would be for all users.
fn append_emptied_scope(
    out: &mut Vec<u8>,
    policy: &Policy,
    at: WalkLineSpot,
) -> Result<(), AllocError> {
    append_line_place(out, policy, at)?;
    out.extend_from_slice(b"the Defaults line would be for all users; lacks-line takes it out")
}

/// Appends that the line at `at` would be read as something else.
fn append_misread(out: &mut Vec<u8>, policy: &Policy, at: WalkLineSpot) -> Result<(), AllocError> {
    append_line_place(out, policy, at)?;
    out.extend_from_slice(
        b"without the user the line would not read as now; has-line and lacks-line exchange it",
    )
}

/// Appends that the member is the only one.
fn append_only_member(out: &mut Vec<u8>, wish: &Wish) -> Result<(), AllocError> {
    if let Wish::HasMember { alias, member, .. } | Wish::LacksMember { alias, member, .. } = wish {
        out.extend_from_slice(member.as_slice())?;
        out.extend_from_slice(b" is the only member of ")?;
        out.extend_from_slice(alias.as_slice())?;
        out.extend_from_slice(b"; a list is never empty")?;
    }
    Ok(())
}
