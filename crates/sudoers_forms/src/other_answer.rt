//! The forms of a line for which sudo answers a request otherwise, and where they stand.

ghost use Rattle.std.specs.Prelude.{◌≡◌, ◌++◌, map, OnOk};
ghost use Rattle.sudoers_forms.specs.Seen.{model_of_judged_token};
ghost use Rattle.sudoers_forms.specs.Forms.{list_by_table};
ghost use Rattle.sudoers_forms.specs.Answers.{answer_of_cause, answer_of_token};

use crate::cause::Cause;
use crate::judged_token::JudgedToken;
use std::alloc::AllocError;
use sudoers_tree::Span;

/// A form for which sudo answers a request otherwise.
#[derive(Clone, Copy)]
pub struct OtherAnswer {
    /// Where its token stands.
    pub at: Span,
    pub cause: Cause,
}

/// Appends the forms of the tokens `tokens` of the line with the number `number`.
pub fn append_answers_of_tokens(
    number: usize,
    tokens: &[JudgedToken<'_>],
    answers: &mut Vec<OtherAnswer>,
) -> Result<(), AllocError>
    ensures { OnOk result (answers.new.items ≡ answers.old.items ++ list_by_table (answer_of_token number) (map model_of_judged_token tokens.now)) }
{
    for token in tokens {
        append_answer(token.make_span(number), token.find_cause(), answers)?;
    }
    Ok(())
}

/// Appends the form at `at` that is `cause`, if it is one.
fn append_answer(
    at: Span,
    cause: Option<Cause>,
    answers: &mut Vec<OtherAnswer>,
) -> Result<(), AllocError>
    ensures { OnOk result (answers.new.items ≡ answers.old.items ++ answer_of_cause at cause) }
{
    if let Some(cause) = cause {
        answers.push(OtherAnswer { at, cause })?;
    }
    Ok(())
}
