//! The tokens of a line, each with what stands around it, and why sudo refuses it.

ghost use Rattle.std.specs.Prelude.{◌≡◌, ◌&&◌, [], drop, length, map, All, IfOk};
ghost use Rattle.sudoers_text.specs.Token.{IsTokenWithinLine};
ghost use Rattle.sudoers_grammar.specs.Piece.{tokens_with_bytes};
ghost use Rattle.sudoers_grammar.specs.Seen.{model_of_token_part};
ghost use Rattle.sudoers_line_rows.specs.View.{node_of_view};
ghost use Rattle.sudoers_forms.specs.Parts.{part_after_token, part_of_token};
ghost use Rattle.sudoers_forms.specs.Seen.{model_of_judged_token};
ghost use Rattle.sudoers_forms.specs.Forms.{ends_in_return, is_begin_of_comment, placed_token, placed_tokens, span_of_token, tokens_from_part, tokens_of_node};

use crate::form::Form;
use crate::line_part::{LinePart, find_first_part};
use crate::token_form::TokenInLine;
use std::alloc::{AllocError, Global};
use sudoers_defaults::take_bytes_between;
use sudoers_grammar::{TokenWithText, add_text_to_token};
use sudoers_line_rows::Node;
use sudoers_text::{Token, TokenKind, choose_line_mode, tokens};
use sudoers_tree::Span;

/// A token of a line, and why sudo refuses it.
#[derive(Clone, Copy)]
pub struct JudgedToken<'a> {
    pub token: TokenInLine<'a>,
    /// Where it begins and ends in its line.
    pub start: usize,
    pub stop: usize,
    pub form: Option<Form>,
}

impl JudgedToken<'_> {
    /// Returns where the token stands, which is one of the line with the number `number`.
    pub fn make_span(&self, number: usize) -> Span
        ensures { result ≡ span_of_token number (model_of_judged_token self.now) }
    {
        Span {
            line: number,
            start: self.start,
            stop: self.stop,
        }
    }
}

/// Returns the tokens of the line `text`, which says `node`, up to the first that begins a comment for sudo.
pub fn list_tokens_of_line<'a>(
    alloc: Global,
    text: &'a [u8],
    node: &Node<'_>,
) -> Result<Vec<JudgedToken<'a>>, AllocError>
    ensures { IfOk result (λ judged. map model_of_judged_token judged.items ≡ tokens_of_node text.now (node_of_view node.now)) }
{
    match node {
        Node::Blank => Ok(Vec::new(alloc)),
        _ => list_tokens_from_part(alloc, find_first_part(node), text),
    }
}

/// Returns the tokens of the line `text`, which begins with this part, up to the first that begins a comment for sudo.
fn list_tokens_from_part<'a>(
    alloc: Global,
    part: LinePart,
    text: &'a [u8],
) -> Result<Vec<JudgedToken<'a>>, AllocError>
    ensures { IfOk result (λ judged. map model_of_judged_token judged.items ≡ tokens_from_part part text.now) }
{
    let Ok(tokens) = tokens(alloc, text, choose_line_mode(text)) else {
        return Err(AllocError);
    };
    make_judged_tokens(alloc, part, text, tokens.as_slice())
}

/// Returns the tokens `tokens` of the line `text`, which begins with this part, up to the first that begins a comment for sudo.
fn make_judged_tokens<'a>(
    alloc: Global,
    part: LinePart,
    text: &'a [u8],
    tokens: &[Token],
) -> Result<Vec<JudgedToken<'a>>, AllocError>
    requires { All (IsTokenWithinLine (length text.now)) tokens.now }
    ensures { IfOk result (λ judged. map model_of_judged_token judged.items
        ≡ placed_tokens part text.now part [] TokenKind.Punct [] 0 (tokens_with_bytes text.now tokens.now)) }
{
    let mut judged = Vec::new(alloc);
    let mut place = PlaceInLine::make_start(part);
    for (at, token) in tokens.iter().enumerate() {
        let here = add_text_to_token(text, token);
        let one = place.make_judged_token(text, &here, tokens[at + 1..].is_empty());
        judged.push(one)?;
        if is_begin_of_comment(one.form) {
            return Ok(judged);
        }
        place = place.move_behind(&here);
    }
    Ok(judged)
}

/// Returns the bytes of `line` from `start` on.
fn skip_bytes(line: &[u8], start: usize) -> &[u8]
    ensures { result.now ≡ drop start line.now }
{
    line.get(start..).unwrap_or(&[])
}

/// Returns whether CR LF alone follows a token of `line`, if it is the last or not.
fn is_at_return(is_last: bool, line: &[u8]) -> bool
    ensures { result ≡ (is_last && ends_in_return line.now) }
{
    is_last && line.ends_with(b"\r\n")
}

/// Returns whether what follows is in a comment for sudo, or in the name of an included file.
fn is_begin_of_comment(form: Option<Form>) -> bool
    ensures { result ≡ is_begin_of_comment form }
{
    matches!(
        form,
        Some(Form::ArgumentHash | Form::NumberedComment | Form::IndentedInclude | Form::IncludeEnd)
    )
}

/// A place in a line: the part that the token before it leads to, and what stands before it.
#[derive(Clone, Copy)]
struct PlaceInLine<'a> {
    /// The part in which the line begins.
    first: LinePart,
    part: LinePart,
    second_before: &'a [u8],
    kind_before: TokenKind,
    before: &'a [u8],
    /// Where the token before it ends.
    start: usize,
}

impl<'a> PlaceInLine<'a> {
    /// Returns the start of a line that begins with this part.
    fn make_start(part: LinePart) -> PlaceInLine<'a>
        ensures first { result.first ≡ part }
        ensures part { result.part ≡ part }
        ensures second_before { result.second_before.now ≡ [] }
        ensures kind_before { result.kind_before ≡ TokenKind.Punct }
        ensures before { result.before.now ≡ [] }
        ensures start { result.start ≡ 0 }
    {
        PlaceInLine {
            first: part,
            part,
            second_before: b"",
            kind_before: TokenKind::Punct,
            before: b"",
            start: 0,
        }
    }

    /// Returns the part in which the token stands that comes next.
    fn find_part(&self, token: &TokenWithText<'_>) -> LinePart
        ensures { result ≡ part_of_token self.now.part self.now.second_before.now self.now.kind_before token.now.text.now }
    {
        self.part
            .find_part_of_token(self.second_before, self.kind_before, token.text)
    }

    /// Returns the token that comes next, if it is the last of its line or not.
    fn make_judged_token(
        &self,
        line: &'a [u8],
        token: &TokenWithText<'a>,
        is_last: bool,
    ) -> JudgedToken<'a>
        ensures { model_of_judged_token result ≡ placed_token self.now.first line.now (part_of_token self.now.part self.now.second_before.now self.now.kind_before token.now.text.now)
            self.now.second_before.now self.now.kind_before self.now.before.now self.now.start (model_of_token_part token.now) is_last }
    {
        let placed = TokenInLine {
            first: self.first,
            part: self.find_part(token),
            second_before: self.second_before,
            kind_before: self.kind_before,
            before: self.before,
            gap: take_bytes_between(line, self.start, token.start),
            rest: skip_bytes(line, token.start),
            is_last,
            is_at_return: is_at_return(is_last, line),
            kind: token.kind,
            text: token.text,
        };
        JudgedToken {
            token: placed,
            start: token.start,
            stop: token.stop,
            form: placed.find_form(),
        }
    }

    /// Returns the place behind the token that comes next.
    fn move_behind(&self, token: &TokenWithText<'a>) -> PlaceInLine<'a>
        ensures first { result.first ≡ self.now.first }
        ensures part { result.part ≡ part_after_token (part_of_token self.now.part self.now.second_before.now self.now.kind_before token.now.text.now) token.now.kind token.now.text.now }
        ensures second_before { result.second_before.now ≡ self.now.before.now }
        ensures kind_before { result.kind_before ≡ token.now.kind }
        ensures before { result.before.now ≡ token.now.text.now }
        ensures start { result.start ≡ token.now.stop }
    {
        PlaceInLine {
            first: self.first,
            part: self
                .find_part(token)
                .find_part_after_token(token.kind, token.text),
            second_before: self.before,
            kind_before: token.kind,
            before: token.text,
            start: token.stop,
        }
    }
}
