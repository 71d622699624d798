//! Commands that two policies answer otherwise, as a user writes them.

ghost use Rattle.std.specs.Prelude.{◌≡◌, ◌++◌, ℕ, List, codes, OnOk};
ghost use Rattle.std.specs.Option.{option_map};
ghost use Rattle.sudoers_review_users.specs.Ready.{IsReadyReview};
ghost use Rattle.sudoers_review_users.specs.UserChanges.{printed_arguments, printed_moment, printed_request, printed_target, printed_target_group};
ghost use Rattle.sudoers_review_users.specs.Reviewed.{IsExampleOfReview};

use crate::answers::has_other_answer;
use crate::compared_policies::ComparedPolicies;
use crate::example_requests::ExampleRequest;
use std::alloc::{AllocError, Global};
use sudoers_grammar::Items;
use sudoers_list_people::People;
use sudoers_match::{Group, Request, join_words};
use sudoers_review::TextPart;

/// A user for whom two policies are compared.
#[derive(Clone, Copy)]
pub struct UserReview<'c, 'a, 'p, 'n> {
    pub compared: &'c ComparedPolicies<'a>,
    pub people: &'p People,
    /// His name.
    pub name: &'n [u8],
    /// The user as whom a command runs by the old policy if he names none.
    pub old_default: &'a [u8],
    /// The same by the new policy.
    pub new_default: &'a [u8],
    /// The moment, as a number of 14 digits.
    pub moment: u64,
}

/// Appends the option that names the user `target` to `out`, unless both policies take him where no user is named.
fn append_target(
    out: &mut Vec<u8>,
    review: &UserReview<'_, '_, '_, '_>,
    target: &[u8],
) -> Result<(), AllocError>
    ensures { OnOk result (out.new.items ≡ out.old.items ++ printed_target review.now.old_default.now review.now.new_default.now target.now) }
{
    if target == review.old_default && target == review.new_default {
        return Ok(());
    }
    out.extend_from_slice(b"-u ")?;
    out.extend_from_slice(target)?;
    out.extend_from_slice(b" ")
}

/// Appends the option that names the group `group` to `out`, if there is one.
fn append_target_group(out: &mut Vec<u8>, group: &Option<Group>) -> Result<(), AllocError>
    ensures { OnOk result (out.new.items ≡ out.old.items ++ printed_target_group group.now) }
{
    let Some(group) = group else {
        return Ok(());
    };
    out.extend_from_slice(b"-g ")?;
    out.extend_from_slice(group.name.as_slice())?;
    out.extend_from_slice(b" ")
}

/// Appends the arguments `args` to `out`.
fn append_arguments(alloc: Global, out: &mut Vec<u8>, args: &[Items<u8>]) -> Result<(), AllocError>
    ensures { OnOk result (out.new.items ≡ out.old.items ++ printed_arguments args.now) }
{
    if args.is_empty() {
        return Ok(());
    }
    let words = join_words(alloc, args)?;
    out.extend_from_slice(b" ")?;
    out.extend_from_slice(words.as_slice())
}

/// Appends the moment `moment` to `out`, unless it is `now`.
fn append_moment(alloc: Global, out: &mut Vec<u8>, now: u64, moment: u64) -> Result<(), AllocError>
    ensures { OnOk result (out.new.items ≡ out.old.items ++ printed_moment now moment) }
{
    if moment == now {
        return Ok(());
    }
    out.extend_from_slice(b"  at ")?;
    let digits = moment.to_string(alloc)?;
    out.extend_from_slice(digits.as_bytes())?;
    out.extend_from_slice(b"Z")
}

/// Appends `request` to `out`, as the user writes it behind `sudo`.
fn append_request(
    alloc: Global,
    out: &mut Vec<u8>,
    review: &UserReview<'_, '_, '_, '_>,
    request: &Request,
) -> Result<(), AllocError>
    ensures { OnOk result (out.new.items ≡ out.old.items ++ printed_request review.now.old_default.now review.now.new_default.now review.now.moment request.now) }
{
    append_target(out, review, request.target.name.as_slice())?;
    append_target_group(out, &request.target_group)?;
    out.extend_from_slice(request.command.as_slice())?;
    append_arguments(alloc, out, request.args.as_slice())?;
    append_moment(alloc, out, review.moment, request.moment)
}

/// Appends to `out` the first of `examples` that the policies of `review` answer otherwise for the user of `request`, or that none was found.
/// Returns which part of `out` is the example. Leaves the last of `examples` that was asked in `request`.
///
/// # Errors
///
/// Memory ran out.
pub fn append_example(
    alloc: Global,
    out: &mut Vec<u8>,
    review: &UserReview<'_, '_, '_, '_>,
    request: &mut Request,
    examples: Vec<ExampleRequest>,
) -> Result<Option<TextPart>, AllocError>
    requires { IsReadyReview request.old.who review.now }
    ensures user { request.new.who ≡ request.old.who }
    ensures text { OnOk result ((text : List ℕ) × (out.new.items ≡ out.old.items ++ text) × IsExampleOfReview review.now request.old.who text) }
{
    for example in examples {
        request.target = example.target;
        request.target_group = example.target_group;
        request.command = example.command;
        request.args = example.args;
        request.moment = example.moment;
        if has_other_answer(alloc, review, request)? {
            out.extend_from_slice(b"e.g. ")?;
            let start = out.len();
            append_request(alloc, out, review, request)?;
            let stop = out.len();
            return Ok(Some(TextPart { start, stop }));
        }
    }
    out.extend_from_slice(b"no example found")?;
    Ok(None)
}
