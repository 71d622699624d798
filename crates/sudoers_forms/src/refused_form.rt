//! The forms of a line that sudo refuses, and where they stand.

ghost use Rattle.std.specs.Prelude.{◌≡◌, ◌++◌, map, IfOk, OnOk};
ghost use Rattle.sudoers_forms.specs.Seen.{model_of_judged_token};
ghost use Rattle.sudoers_forms.specs.Forms.{is_time_with_backslashes, list_by_table, refused_of_form, refused_of_token};

use crate::form::Form;
use crate::judged_token::JudgedToken;
use std::alloc::{AllocError, Global};
use sudoers_defaults::is_time;
use sudoers_text::{TokenKind, value};
use sudoers_tree::Span;

/// A form that sudo refuses.
#[derive(Clone, Copy)]
pub struct RefusedForm {
    /// Where its token stands.
    pub at: Span,
    pub form: Form,
}

/// Appends the refused forms of the tokens `tokens` of the line with the number `number`.
pub fn append_forms_of_tokens(
    alloc: Global,
    number: usize,
    tokens: &[JudgedToken<'_>],
    refused: &mut Vec<RefusedForm>,
) -> Result<(), AllocError>
    ensures { OnOk result (refused.new.items ≡ refused.old.items ++ list_by_table (refused_of_token number) (map model_of_judged_token tokens.now)) }
{
    for token in tokens {
        append_form_of_token(alloc, number, token, refused)?;
    }
    Ok(())
}

/// Appends the form of the token `token` of the line with the number `number`, if it is refused.
fn append_form_of_token(
    alloc: Global,
    number: usize,
    token: &JudgedToken<'_>,
    refused: &mut Vec<RefusedForm>,
) -> Result<(), AllocError>
    ensures { OnOk result (refused.new.items ≡ refused.old.items ++ refused_of_token number (model_of_judged_token token.now)) }
{
    if is_time_with_backslashes(alloc, token)? {
        return Ok(());
    }
    append_form(token.make_span(number), token.form, refused)
}

/// Returns whether `token` is refused as a time and is a word that is one without its backslashes.
fn is_time_with_backslashes(alloc: Global, token: &JudgedToken<'_>) -> Result<bool, AllocError>
    ensures { IfOk result (λ is_read. is_read ≡ is_time_with_backslashes token.now.form token.now.token.kind token.now.token.text.now) }
{
    match (token.form, token.token.kind) {
        (Some(Form::TimeValue), TokenKind::Word) => {
            let time = value(alloc, token.token.text)?;
            Ok(is_time(time.as_slice()))
        }
        _ => Ok(false),
    }
}

/// Appends the form `form` at `at`, if it is refused.
fn append_form(
    at: Span,
    form: Option<Form>,
    refused: &mut Vec<RefusedForm>,
) -> Result<(), AllocError>
    ensures { OnOk result (refused.new.items ≡ refused.old.items ++ refused_of_form at form) }
{
    if let Some(form) = form {
        refused.push(RefusedForm { at, form })?;
    }
    Ok(())
}
