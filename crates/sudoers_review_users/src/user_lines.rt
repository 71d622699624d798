//! The lines on the rows of a user that went or came.

ghost use Rattle.std.specs.Prelude.{◌≡◌, ◌++◌, ℕ, List, map, IfErr, OnOk};
ghost use Rattle.sudoers_compare.specs.FlatRow.{grant_of_view};
ghost use Rattle.sudoers_compare.specs.FlatSpecs.{placed_row_of_view};
ghost use Rattle.sudoers_review.specs.ChangedText.{sign_of_change};
ghost use Rattle.sudoers_review.specs.Faults.{IsMemoryOrSizeFault};
ghost use Rattle.sudoers_review_users.specs.Ready.{IsReadyReview};
ghost use Rattle.sudoers_review_users.specs.UserChanges.{default_line, default_lines, AreLinesOfItems};
ghost use Rattle.sudoers_review_users.specs.Reviewed.{IsRowLineOfReview};

use crate::example_requests::list_example_requests;
use crate::examples::{UserReview, append_example};
use std::alloc::{AllocError, Global};
use sudoers_compare::PlacedFlatRow;
use sudoers_match::Request;
use sudoers_review::{
    ChangeLine, ChangeLines, CompareFault, RuleChange, TEXT_LIMIT, TextPart, append_command_of_row,
    append_line_end, has_long_lists, place_of_row, sign_of,
};
use sudoers_tree::Policy;

/// Appends `text` to `out`. Returns which part of `out` it is.
fn append_part(out: &mut Vec<u8>, text: &[u8]) -> Result<TextPart, AllocError>
    ensures { OnOk result (out.new.items ≡ out.old.items ++ text.now) }
{
    let start = out.len();
    out.extend_from_slice(text)?;
    let stop = out.len();
    Ok(TextPart { start, stop })
}

/// Appends to `out` the line on the runas_default `default` of the user `name`, to which `change` happened.
fn append_default_line(
    out: &mut ChangeLines,
    change: RuleChange,
    name: &[u8],
    default: &[u8],
) -> Result<(), AllocError>
    ensures { OnOk result (out.new.text.items ≡ out.old.text.items ++ default_line (sign_of_change change) name.now default.now) }
{
    out.text.extend_from_slice(sign_of(change))?;
    let user = append_part(&mut out.text, name)?;
    out.text.extend_from_slice(b" ")?;
    let start = out.text.len();
    out.text.extend_from_slice(b"Defaults runas_default=")?;
    out.text.extend_from_slice(default)?;
    let stop = out.text.len();
    out.text.extend_from_slice(b"\n")?;
    out.lines.push(ChangeLine {
        change,
        user: Some(user),
        rule: TextPart { start, stop },
        example: None,
        place: None,
    })?;
    Ok(())
}

/// Appends to `out` the lines on the runas_default of the user of `review`, if the policies differ in it.
pub fn append_default_lines(
    out: &mut ChangeLines,
    review: &UserReview<'_, '_, '_, '_>,
) -> Result<(), AllocError>
    ensures { OnOk result (out.new.text.items ≡ out.old.text.items ++ default_lines review.now.name.now review.now.old_default.now review.now.new_default.now) }
{
    if review.old_default == review.new_default {
        return Ok(());
    }
    append_default_line(out, RuleChange::Went, review.name, review.old_default)?;
    append_default_line(out, RuleChange::Came, review.name, review.new_default)
}

/// Appends to `out` the line on `placed`, a row of `policy` for the user of `review` to which `change` happened, with an example. `request` is one of his.
/// Takes from `left` what is looked at for it.
fn append_user_row_line<'a>(
    alloc: Global,
    out: &mut ChangeLines,
    change: RuleChange,
    policy: &Policy,
    placed: &PlacedFlatRow<'a>,
    review: &UserReview<'_, 'a, 'a, 'a>,
    request: &mut Request,
    left: &mut usize,
) -> Result<(), CompareFault>
    requires { IsReadyReview request.old.who review.now }
    ensures user { request.new.who ≡ request.old.who }
    ensures line { OnOk result ((line : List ℕ) × (out.new.text.items ≡ out.old.text.items ++ line) × IsRowLineOfReview review.now request.old.who (sign_of_change change) policy.now (placed_row_of_view placed.now) line) }
    ensures fault { IfErr result IsMemoryOrSizeFault }
{
    if has_long_lists(&placed.row) || out.text.len() > TEXT_LIMIT {
        return Err(CompareFault::TooLarge);
    }
    out.text.extend_from_slice(sign_of(change))?;
    let user = append_part(&mut out.text, review.name)?;
    out.text.extend_from_slice(b" ")?;
    let start = out.text.len();
    append_command_of_row(alloc, &mut out.text, &placed.row)?;
    let stop = out.text.len();
    out.text.extend_from_slice(b"  ")?;
    let examples = list_example_requests(alloc, review, &placed.row, left)?;
    let example = append_example(alloc, &mut out.text, review, request, examples)?;
    let line = ChangeLine {
        change,
        user: Some(user),
        rule: TextPart { start, stop },
        example,
        place: Some(place_of_row(placed)),
    };
    append_line_end(alloc, out, policy, line)?;
    Ok(())
}

/// Appends to `out` the lines on `rows`, rows of `policy` for the user of `review` to which `change` happened. `request` is one of his.
/// Takes from `left` what is looked at for examples.
pub fn append_user_row_lines<'a>(
    alloc: Global,
    out: &mut ChangeLines,
    change: RuleChange,
    policy: &Policy,
    rows: &[PlacedFlatRow<'a>],
    review: &UserReview<'_, 'a, 'a, 'a>,
    request: &mut Request,
    left: &mut usize,
) -> Result<(), CompareFault>
    requires { IsReadyReview request.old.who review.now }
    ensures user { request.new.who ≡ request.old.who }
    ensures lines { OnOk result ((lines : List ℕ) × (out.new.text.items ≡ out.old.text.items ++ lines)
        × AreLinesOfItems (IsRowLineOfReview review.now request.old.who (sign_of_change change) policy.now) (map placed_row_of_view rows.now) lines) }
    ensures fault { IfErr result IsMemoryOrSizeFault }
{
    for placed in rows {
        append_user_row_line(alloc, out, change, policy, placed, review, request, left)?;
    }
    Ok(())
}
