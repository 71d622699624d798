//! The forms of a policy that sudo-rs refuses, and where they stand.

ghost use Rattle.std.specs.Prelude.{◌≡◌, ◌++◌, map, IfOk, OnOk};
ghost use Rattle.sudoers_forms.specs.Seen.{model_of_judged_token};
ghost use Rattle.sudoers_line_rows.specs.View.{node_of_view};
ghost use Rattle.sudoers_forms.specs.Forms.{list_by_table, tokens_of_node};
ghost use Rattle.sudoers_forms.specs.SudoRs.{refused_of_rs_form, rs_form_of_kind, rs_form_of_member, rs_form_of_return, rs_form_of_token, rs_forms_of_lines, rs_refused_of_token};

use crate::judged_token::{JudgedToken, list_tokens_of_line};
use crate::line_part::LinePart;
use crate::names::choose_first_form;
use crate::spelling::has_byte;
use crate::sudo_rs_command::{
    find_sudo_rs_form_of_argument, find_sudo_rs_form_of_path, find_sudo_rs_form_of_value,
};
use crate::sudo_rs_form::SudoRsForm;
use std::alloc::{AllocError, Global};
use sudoers_line_rows::Node;
use sudoers_text::TokenKind;
use sudoers_tree::{Line, Policy, Span};

/// A form that sudo-rs refuses.
#[derive(Clone, Copy)]
pub struct RefusedBySudoRs {
    /// Where its token stands.
    pub at: Span,
    pub form: SudoRsForm,
}

/// Returns the forms in the lines of `policy` that sudo-rs refuses, in the order of the lines.
///
/// # Errors
///
/// Memory ran out.
pub fn list_forms_for_sudo_rs(
    alloc: Global,
    policy: &Policy,
) -> Result<Vec<RefusedBySudoRs>, AllocError>
    ensures { IfOk result (λ refused. refused.items ≡ rs_forms_of_lines 0 policy.now.walk.lines) }
{
    let mut refused = Vec::new(alloc);
    let lines = policy.lines();
    for (number, row) in lines.rows.iter().enumerate() {
        let line = Line::from_line_row(lines.tables, row);
        append_refused_of_line(alloc, number, line.text, &line.node, &mut refused)?;
    }
    Ok(refused)
}

/// Appends the refused forms of the line `text` with the number `number`, which says `node`.
fn append_refused_of_line(
    alloc: Global,
    number: usize,
    text: &[u8],
    node: &Node<'_>,
    refused: &mut Vec<RefusedBySudoRs>,
) -> Result<(), AllocError>
    ensures { OnOk result (refused.new.items ≡ refused.old.items ++ list_by_table (rs_refused_of_token number) (tokens_of_node text.now (node_of_view node.now))) }
{
    let tokens = list_tokens_of_line(alloc, text, node)?;
    append_refused_of_tokens(number, tokens.as_slice(), refused)
}

/// Appends the refused forms of the tokens `tokens` of the line with the number `number`.
fn append_refused_of_tokens(
    number: usize,
    tokens: &[JudgedToken<'_>],
    refused: &mut Vec<RefusedBySudoRs>,
) -> Result<(), AllocError>
    ensures { OnOk result (refused.new.items ≡ refused.old.items ++ list_by_table (rs_refused_of_token number) (map model_of_judged_token tokens.now)) }
{
    for token in tokens {
        append_refused(token.make_span(number), token.find_sudo_rs_form(), refused)?;
    }
    Ok(())
}

/// Appends the form `form` at `at`, if it is refused.
fn append_refused(
    at: Span,
    form: Option<SudoRsForm>,
    refused: &mut Vec<RefusedBySudoRs>,
) -> Result<(), AllocError>
    ensures { OnOk result (refused.new.items ≡ refused.old.items ++ refused_of_rs_form at form) }
{
    if let Some(form) = form {
        refused.push(RefusedBySudoRs { at, form })?;
    }
    Ok(())
}

impl JudgedToken<'_> {
    /// Returns why sudo-rs refuses the token.
    fn find_sudo_rs_form(&self) -> Option<SudoRsForm>
        ensures { result ≡ rs_form_of_token (model_of_judged_token self.now) }
    {
        choose_first_form(self.find_sudo_rs_form_of_kind(), self.find_return())
    }

    /// Returns why sudo-rs refuses the text of the token.
    fn find_sudo_rs_form_of_kind(&self) -> Option<SudoRsForm>
        ensures { result ≡ rs_form_of_kind (model_of_judged_token self.now) self.now.token.kind }
    {
        let token = &self.token;
        match token.kind {
            TokenKind::Word | TokenKind::Quoted => self.find_sudo_rs_form_of_member(),
            TokenKind::Digest => Some(SudoRsForm::Digest),
            TokenKind::Path => find_sudo_rs_form_of_path(token.text),
            TokenKind::Arg => find_sudo_rs_form_of_argument(token.gap, token.text),
            TokenKind::Punct
                if token.part.has_parameters()
                    && token.before == b"!".as_slice()
                    && token.text == b"!".as_slice() => Some(SudoRsForm::TwoMarks),
            _ => None,
        }
    }

    /// Returns why sudo-rs refuses the member of a list or the value of an option.
    fn find_sudo_rs_form_of_member(&self) -> Option<SudoRsForm>
        ensures { result ≡ rs_form_of_member (model_of_judged_token self.now) }
    {
        let token = &self.token;
        let part = token.part;
        if part.has_users() || part.has_hosts() || part == LinePart::Groups {
            part.find_sudo_rs_form_of_name(token.kind, token.text)
        } else if part == LinePart::OptionValue {
            find_sudo_rs_form_of_value(token.second_before, token.kind, token.text)
        } else if part.is_list_of_commands() {
            token
                .first
                .find_sudo_rs_form_of_command_word(token.before, token.text)
        } else {
            None
        }
    }

    /// Returns the form of a CR that stands before a line end.
    fn find_return(&self) -> Option<SudoRsForm>
        ensures { result ≡ rs_form_of_return (model_of_judged_token self.now) }
    {
        let token = &self.token;
        let is_within = token.is_at_return || has_byte(b'\r', token.text);
        if has_byte(b'\r', token.gap) || (token.kind != TokenKind::Comment && is_within) {
            Some(SudoRsForm::Return)
        } else {
            None
        }
    }
}
