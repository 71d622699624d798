//! Whether two policies answer a request otherwise.

ghost use Rattle.std.specs.Prelude.{◌≡◌, true, IfOk};
ghost use Rattle.std.specs.Option.{option_map};
ghost use Rattle.sudoers_match.specs.Found.{answer_without_member_and_settings};
ghost use Rattle.sudoers_match.specs.Answer.{answer_of_view};
ghost use Rattle.sudoers_review_users.specs.Ready.{new_policy, old_policy, IsReadyReview};
ghost use Rattle.sudoers_review_users.specs.SameAnswer.{are_answers_same, has_same_parts};
ghost use Rattle.sudoers_review_users.specs.UserChanges.{HasOtherAnswer};

use crate::examples::UserReview;
use std::alloc::{AllocError, Global};
use sudoers_compare::{are_same_options, are_same_tags};
use sudoers_match::{Answer, AnswerWithMemberAndSettings, Request, find_answer_without_args_limit};

/// Returns whether the sign, the tags and the options of both answers are the same.
fn has_same_parts(answer: &Answer<'_>, other: &Answer<'_>) -> bool
    ensures { result ≡ has_same_parts (answer_of_view answer.now) (answer_of_view other.now) }
{
    answer.allow == other.allow
        && are_same_tags(&answer.tags, &other.tags)
        && are_same_options(&answer.options, &other.options)
}

/// Returns whether `found` and `other` are answers that say the same: the same sign, tags and options, or nothing.
fn is_same_answer(
    found: &Option<AnswerWithMemberAndSettings<'_>>,
    other: &Option<AnswerWithMemberAndSettings<'_>>,
) -> bool
    ensures { result ≡ are_answers_same (option_map answer_without_member_and_settings found.now) (option_map answer_without_member_and_settings other.now) }
{
    match (found, other) {
        (None, None) => true,
        (Some(found), Some(other)) => has_same_parts(&found.answer, &other.answer),
        _ => false,
    }
}

/// Returns whether the policies of `review` answer `request` otherwise.
///
/// # Errors
///
/// Memory ran out.
pub fn has_other_answer(
    alloc: Global,
    review: &UserReview<'_, '_, '_, '_>,
    request: &Request,
) -> Result<bool, AllocError>
    requires { IsReadyReview request.now.who review.now }
    ensures { IfOk result (λ has. has ≡ true → HasOtherAnswer (old_policy review.now.compared.now) (new_policy review.now.compared.now) request.now) }
{
    let compared = review.compared;
    let found = find_answer_without_args_limit(
        alloc,
        &compared.old_walk,
        request,
        review.old_default,
    )?;
    let other = find_answer_without_args_limit(
        alloc,
        &compared.new_walk,
        request,
        review.new_default,
    )?;
    Ok(!is_same_answer(&found, &other))
}
