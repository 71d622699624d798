//! The forms of a policy that sudo refuses, or for which it answers a request otherwise.

ghost use Rattle.std.specs.Prelude.{◌≡◌, ◌++◌, IfOk, OnOk};
ghost use Rattle.sudoers_line_rows.specs.View.{node_of_view};
ghost use Rattle.sudoers_forms.specs.Forms.{forms_of_lines, list_by_table, refused_of_token, tokens_of_node};
ghost use Rattle.sudoers_forms.specs.Answers.{answer_of_token, other_answers_of_lines};

use crate::judged_token::list_tokens_of_line;
use crate::other_answer::{OtherAnswer, append_answers_of_tokens};
use crate::refused_form::{RefusedForm, append_forms_of_tokens};
use std::alloc::{AllocError, Global};
use sudoers_line_rows::Node;
use sudoers_tree::{Line, Policy};

/// The forms of a policy that sudo refuses or reads otherwise, and those for which it answers a request otherwise.
#[derive(Drop)]
pub struct SudoForms {
    pub refused: Vec<RefusedForm>,
    pub answers: Vec<OtherAnswer>,
}

/// Returns the forms in the lines of `policy` that sudo refuses or reads otherwise, in the order of the lines.
///
/// # Errors
///
/// Memory ran out.
pub fn list_refused_forms(alloc: Global, policy: &Policy) -> Result<Vec<RefusedForm>, AllocError>
    ensures { IfOk result (λ refused. refused.items ≡ forms_of_lines 0 policy.now.walk.lines) }
{
    let forms = list_forms_for_sudo(alloc, policy)?;
    Ok(forms.refused)
}

/// Returns the forms in the lines of `policy` that sudo refuses or reads otherwise, and those for which it answers a request otherwise, each
/// in the order of the lines.
///
/// # Errors
///
/// Memory ran out.
pub fn list_forms_for_sudo(alloc: Global, policy: &Policy) -> Result<SudoForms, AllocError>
    ensures refused { IfOk result (λ forms. forms.refused.items ≡ forms_of_lines 0 policy.now.walk.lines) }
    ensures answers { IfOk result (λ forms. forms.answers.items ≡ other_answers_of_lines 0 policy.now.walk.lines) }
{
    let mut forms = SudoForms {
        refused: Vec::new(alloc),
        answers: Vec::new(alloc),
    };
    let lines = policy.lines();
    for (number, row) in lines.rows.iter().enumerate() {
        let line = Line::from_line_row(lines.tables, row);
        forms.append_line(alloc, number, line.text, &line.node)?;
    }
    Ok(forms)
}

impl SudoForms {
    /// Appends the forms of the line `text` with the number `number`, which says `node`.
    fn append_line(
        &mut self,
        alloc: Global,
        number: usize,
        text: &[u8],
        node: &Node<'_>,
    ) -> Result<(), AllocError>
        ensures refused { OnOk result (self.new.refused.items ≡ self.old.refused.items ++ list_by_table (refused_of_token number) (tokens_of_node text.now (node_of_view node.now))) }
        ensures answers { OnOk result (self.new.answers.items ≡ self.old.answers.items ++ list_by_table (answer_of_token number) (tokens_of_node text.now (node_of_view node.now))) }
    {
        let tokens = list_tokens_of_line(alloc, text, node)?;
        append_forms_of_tokens(alloc, number, tokens.as_slice(), &mut self.refused)?;
        append_answers_of_tokens(number, tokens.as_slice(), &mut self.answers)
    }
}
