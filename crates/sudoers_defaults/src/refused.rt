//! The parameters of a policy that are refused, and where they stand.

ghost use Rattle.std.specs.Prelude.{◌≡◌, ◌++◌, [], drop, map, option_map, slice_range, IfOk, OnOk};
ghost use Rattle.std.specs.List.{slice_get};
ghost use Rattle.std.specs.Option.{option_to_list};
ghost use Rattle.sudoers_text.specs.Found.{tokens_of_line};
ghost use Rattle.sudoers_text.specs.LineMode.{line_mode};
ghost use Rattle.sudoers_line_rows.specs.Tables.{parameter_in_tables};
ghost use Rattle.sudoers_line_rows.specs.View.{node_of_view, parameter_of_view};
ghost use Rattle.sudoers_tree.specs.Line.{line_of_row};
ghost use Rattle.sudoers_defaults.specs.Refused.{bytes_of_token, refusals_of_lines, refusals_of_node, refusals_of_parameter, refusals_of_parameters, span_of_token, tokens_from_name};

use crate::parameter_fault::{ParameterFault, find_fault_of_parameter};
use crate::parameter_group::ParameterGroup;
use std::alloc::{AllocError, Global};
use sudoers_line_rows::{Node, Param, ParamRow, RowsOfTable};
use sudoers_text::{Token, TokenKind, choose_line_mode, tokens};
use sudoers_tree::{Line, Policy, Span};

/// A parameter that is refused.
#[derive(Clone, Copy)]
pub struct RefusedParameter {
    /// Where its name stands.
    pub name: Span,
    /// Where its value stands, if it has one.
    pub value: Option<Span>,
    pub fault: ParameterFault,
}

/// Returns the parameters in the Defaults lines of `policy` that are refused where these parameters are `known`, in the order of the
/// lines (sudoers(5), SUDOERS OPTIONS).
///
/// # Errors
///
/// Memory ran out.
pub fn list_refused_parameters(
    alloc: Global,
    policy: &Policy,
    known: &[ParameterGroup],
) -> Result<Vec<RefusedParameter>, AllocError>
    ensures { IfOk result (λ refused. refused.items ≡ refusals_of_lines known.now 0 policy.now.walk.lines) }
{
    let mut refused = Vec::new(alloc);
    let lines = policy.lines();
    for (number, row) in lines.rows.iter().enumerate() {
        let line = Line::from_line_row(lines.tables, row);
        append_refusals_of_node(alloc, known, number, line.text, &line.node, &mut refused)?;
    }
    Ok(refused)
}

/// Appends the refused parameters of the line `text` with the number `number`, which says `node`.
fn append_refusals_of_node(
    alloc: Global,
    known: &[ParameterGroup],
    number: usize,
    text: &[u8],
    node: &Node<'_>,
    refused: &mut Vec<RefusedParameter>,
) -> Result<(), AllocError>
    ensures { OnOk result (refused.new.items ≡ refused.old.items ++ refusals_of_node known.now number text.now (node_of_view node.now)) }
{
    match node {
        Node::Defaults { params, .. } => {
            append_refusals_of_parameters(alloc, known, number, text, params, refused)
        }
        _ => Ok(()),
    }
}

/// Appends the refused ones of the parameters `parameters`, which are all of the line `text` with the number `number`.
fn append_refusals_of_parameters(
    alloc: Global,
    known: &[ParameterGroup],
    number: usize,
    text: &[u8],
    parameters: &RowsOfTable<'_, ParamRow>,
    refused: &mut Vec<RefusedParameter>,
) -> Result<(), AllocError>
    ensures { OnOk result (refused.new.items ≡ refused.old.items
        ++ refusals_of_parameters known.now number text.now (map (parameter_in_tables parameters.now.tables.now) parameters.now.rows.now) (tokens_of_line (line_mode text.now) text.now)) }
{
    let Ok(tokens) = tokens(alloc, text, choose_line_mode(text)) else {
        return Err(AllocError);
    };
    let mut rest = tokens.as_slice();
    for row in parameters.rows {
        let parameter = parameters.tables.parameter_of_row(row);
        let here = skip_to_name(rest);
        let line = TokensOfLine {
            number,
            text,
            tokens: here,
        };
        if let Some(refusal) = line.find_refusal(known, &parameter) {
            refused.push(refusal)?;
        }
        rest = here.get(1..).unwrap_or(&[]);
    }
    Ok(())
}

/// Returns the tokens of `tokens` from the first name of a parameter on.
fn skip_to_name(tokens: &[Token]) -> &[Token]
    ensures { result.now ≡ tokens_from_name tokens.now }
{
    let mut rest = tokens;
    while let Some((first, behind)) = rest.split_first() {
        if first.kind == TokenKind::Name {
            break;
        }
        rest = behind;
    }
    rest
}

/// Tokens of a line, from one of them on. The line has this number on the walk.
#[derive(Clone, Copy)]
struct TokensOfLine<'a> {
    number: usize,
    text: &'a [u8],
    tokens: &'a [Token],
}

impl TokensOfLine<'_> {
    /// Returns the refusal of the parameter `parameter`, whose name is the first token, and whose value is the third.
    fn find_refusal(
        &self,
        known: &[ParameterGroup],
        parameter: &Param<'_>,
    ) -> Option<RefusedParameter>
        ensures { option_to_list result ≡ refusals_of_parameter known.now self.now.number self.now.text.now (parameter_of_view parameter.now) self.now.tokens.now }
    {
        let fault = find_fault_of_parameter(known, parameter, self.bytes_of_value())?;
        Some(RefusedParameter {
            name: self.span_of_token(0),
            value: match parameter.setting {
                Some(_) => Some(self.span_of_token(2)),
                None => None,
            },
            fault,
        })
    }

    /// Returns the part of the line that the token at `place` has.
    fn span_of_token(&self, place: usize) -> Span
        ensures { result ≡ span_of_token self.now.number (slice_get self.now.tokens.now place) }
    {
        match self.tokens.get(place) {
            Some(token) => Span {
                line: self.number,
                start: token.start,
                stop: token.stop,
            },
            None => Span {
                line: self.number,
                start: 0,
                stop: 0,
            },
        }
    }

    /// Returns the bytes of the third token.
    fn bytes_of_value(&self) -> &[u8]
        ensures { result.now ≡ bytes_of_token self.now.text.now (slice_get self.now.tokens.now 2) }
    {
        match self.tokens.get(2) {
            Some(token) => take_bytes_between(self.text, token.start, token.stop),
            None => b"",
        }
    }
}

/// Returns the bytes of `text` from `start` up to `stop`, as far as there are any.
pub fn take_bytes_between(text: &[u8], start: usize, stop: usize) -> &[u8]
    ensures { result.now ≡ slice_range text.now start stop }
{
    let behind = &text[start.min(text.len())..];
    &behind[..stop.saturating_sub(start).min(behind.len())]
}
