//! Why sudo refuses a token, by what stands before it.

ghost use Rattle.std.specs.Prelude.{◌≡◌, drop, false};
ghost use Rattle.sudoers_text.specs.Unit.{is_empty};
ghost use Rattle.sudoers_forms.specs.Names.{form_or};
ghost use Rattle.sudoers_forms.specs.Forms.{begins_bare_quote, bytes_behind_marks, form_of_further_gap, form_of_gap, form_of_mark, form_of_parameter_gap, form_of_scope_gap, form_of_sign, form_of_tag, form_of_text, form_of_word, has_blank, has_second_odd_run, is_behind_sign, is_gap_byte, is_quote_of_scope, is_split_first_member, is_split_further_member, is_split_scope, rest_from_lf};

use crate::digest_size::is_digest_of_kind;
use crate::form::Form;
use crate::line_part::{LinePart, is_member_kind};
use crate::member_form::{find_form_of_quoted, find_form_of_word, find_form_of_word_of_include};
use crate::names::{choose_first_form, choose_form_if};
use crate::spelling::{has_byte, is_numbered, size_of_word};
use crate::text_form::{
    find_form_of_argument, find_form_of_comment, find_form_of_path, find_form_of_value,
};
use crate::words::is_tag_word;
use sudoers_grammar::begins_with_byte;
use sudoers_text::{TokenKind, begins_line_end, leading_blanks_len};

/// A token, and what stands around it.
#[derive(Clone, Copy)]
pub struct TokenInLine<'a> {
    /// The part in which the line begins.
    pub first: LinePart,
    /// The part of the line in which it stands.
    pub part: LinePart,
    /// The text of the second token before it.
    pub second_before: &'a [u8],
    pub kind_before: TokenKind,
    /// The text of the token before it.
    pub before: &'a [u8],
    /// The bytes between both.
    pub gap: &'a [u8],
    /// The line, from the token on.
    pub rest: &'a [u8],
    pub is_last: bool,
    /// Nothing follows but CR LF.
    pub is_at_return: bool,
    pub kind: TokenKind,
    pub text: &'a [u8],
}

impl TokenInLine<'_> {
    /// Returns why sudo refuses the token, or what stands before it.
    pub fn find_form(&self) -> Option<Form>
        ensures { result ≡ form_or (form_of_gap self.now.part self.now.second_before.now self.now.kind_before self.now.before.now self.now.gap.now self.now.kind self.now.text.now)
            (form_of_text self.now.part self.now.second_before.now self.now.before.now self.now.gap.now self.now.rest.now self.now.is_last self.now.is_at_return self.now.kind self.now.text.now) }
    {
        choose_first_form(self.find_form_of_gap(), self.find_form_of_text())
    }

    /// Returns why sudo refuses what stands before the token.
    fn find_form_of_gap(&self) -> Option<Form>
        ensures { result ≡ form_of_gap self.now.part self.now.second_before.now self.now.kind_before self.now.before.now self.now.gap.now self.now.kind self.now.text.now }
    {
        if self.before.is_empty() {
            self.part.find_form_of_first_gap(self.gap, self.text)
        } else {
            self.find_form_of_further_gap()
        }
    }

    /// Returns why sudo refuses what stands before the token, which is not the first of its line.
    fn find_form_of_further_gap(&self) -> Option<Form>
        ensures { result ≡ form_of_further_gap self.now.part self.now.second_before.now self.now.kind_before self.now.before.now self.now.gap.now self.now.kind self.now.text.now }
    {
        if self.part.is_scope() {
            self.find_form_of_scope_gap()
        } else if self.part.has_parameters() {
            self.find_form_of_parameter_gap()
        } else {
            self.part.find_form_of_row(
                self.kind_before,
                self.before,
                self.gap,
                self.kind,
                self.text,
            )
        }
    }

    /// Returns why sudo refuses what stands before the token of a scope.
    fn find_form_of_scope_gap(&self) -> Option<Form>
        ensures { result ≡ form_of_scope_gap self.now.second_before.now self.now.before.now self.now.gap.now self.now.text.now }
    {
        choose_form_if(
            !self.second_before.is_empty() && self.is_split_scope(),
            Form::SplitScope,
        )
    }

    /// Returns why sudo refuses what stands before the token among parameters.
    fn find_form_of_parameter_gap(&self) -> Option<Form>
        ensures { result ≡ form_of_parameter_gap self.now.kind_before self.now.gap.now self.now.kind }
    {
        choose_form_if(
            is_member_kind(self.kind_before)
                && !(self.kind == TokenKind::Comment || has_blank(self.gap)),
            Form::ScopeEnd,
        )
    }

    /// Returns whether the sign of a scope stands directly before the token.
    fn is_behind_sign(&self) -> bool
        ensures { result ≡ is_behind_sign self.now.second_before.now self.now.before.now }
    {
        self.second_before == b"Defaults".as_slice() && self.before != b",".as_slice()
    }

    /// Returns whether what stands before a token of a scope ends the scope for sudo.
    fn is_split_scope(&self) -> bool
        ensures { result ≡ is_split_scope self.now.second_before.now self.now.before.now self.now.gap.now self.now.text.now }
    {
        if self.is_behind_sign() {
            is_split_first_member(self.gap)
        } else {
            self.is_split_further_member()
        }
    }

    /// Returns whether what stands before a token that is not the first of a scope ends the scope for sudo.
    fn is_split_further_member(&self) -> bool
        ensures { result ≡ is_split_further_member self.now.before.now self.now.gap.now self.now.text.now }
    {
        (self.before == b"!".as_slice() && !self.gap.is_empty())
            || (self.before == b",".as_slice() && has_blank(skip_to_lf(self.gap)))
            || (self.text == b",".as_slice()
                && has_byte(b'\n', self.gap)
                && !begins_with_byte(b'\\', self.gap))
    }

    /// Returns why sudo refuses the token.
    fn find_form_of_text(&self) -> Option<Form>
        ensures { result ≡ form_of_text self.now.part self.now.second_before.now self.now.before.now self.now.gap.now self.now.rest.now self.now.is_last self.now.is_at_return self.now.kind self.now.text.now }
    {
        let option = self.second_before;
        match self.kind {
            TokenKind::Comment => find_form_of_comment(is_empty(self.before), self.text),
            TokenKind::Path => find_form_of_path(self.is_at_return, self.rest, self.text),
            TokenKind::Arg => find_form_of_argument(self.is_last, self.is_at_return, self.text),
            TokenKind::Word if self.part.is_include() => find_form_of_word_of_include(
                self.part,
                self.before,
                self.rest,
                self.text,
            ),
            TokenKind::Word => self.find_form_of_word(),
            TokenKind::Quoted => find_form_of_quoted(self.part, option, self.rest, self.text),
            TokenKind::Id => self.part.find_form_of_name(self.kind, self.text),
            TokenKind::Digest => choose_form_if(
                !is_digest_of_kind(self.second_before, self.text),
                Form::DigestSize,
            ),
            TokenKind::Value => find_form_of_value(self.text),
            TokenKind::Punct => self.find_form_of_mark(),
            _ => None,
        }
    }

    /// Returns why sudo refuses the word.
    fn find_form_of_word(&self) -> Option<Form>
        ensures { result ≡ form_of_word self.now.part self.now.second_before.now self.now.is_last self.now.is_at_return self.now.rest.now self.now.text.now }
    {
        find_form_of_word(
            self.part,
            self.second_before,
            self.is_last,
            self.is_at_return,
            self.rest,
            self.text,
        )
    }

    /// Returns why sudo refuses the mark.
    fn find_form_of_mark(&self) -> Option<Form>
        ensures { result ≡ form_of_mark self.now.part self.now.before.now self.now.gap.now self.now.rest.now self.now.text.now }
    {
        if self.text == b"!".as_slice() {
            choose_form_if(
                !self.part.is_scope()
                    && self.before != b"!".as_slice()
                    && has_second_odd_run(self.rest),
                Form::SplitMarks,
            )
        } else if self.text == b":".as_slice() && is_tag_word(self.before) {
            self.find_form_of_tag()
        } else {
            find_form_of_sign(self.part, self.before, self.rest)
        }
    }

    /// Returns why sudo refuses the `:` behind a tag.
    fn find_form_of_tag(&self) -> Option<Form>
        ensures { result ≡ form_of_tag self.now.part self.now.gap.now }
    {
        if has_byte(b'\n', self.gap) {
            choose_form_if(
                self.part == LinePart::TagOrDigestKind,
                Form::TagContinuation,
            )
        } else {
            choose_form_if(!self.part.has_commands(), Form::TagName)
        }
    }
}

/// Returns the bytes of `bytes` without the `!` that they begin with.
fn skip_marks(bytes: &[u8]) -> &[u8]
    ensures { result.now ≡ bytes_behind_marks bytes.now }
{
    let mut rest = bytes;
    while let Some((first, behind)) = rest.split_first() {
        if *first != b'!' {
            break;
        }
        rest = behind;
    }
    rest
}

/// Returns whether `bytes` begin with a quote, and neither a word nor a number stands directly behind it.
fn begins_bare_quote(bytes: &[u8]) -> bool
    ensures { result ≡ begins_bare_quote bytes.now }
{
    match bytes {
        [b'"', rest @ ..] => size_of_word(rest) == 0 && !is_numbered(rest),
        _ => false,
    }
}

/// Returns whether `bytes`, behind the sign of a scope, begin with a name in quotes that sudo sees no scope in.
fn is_quote_of_scope(bytes: &[u8]) -> bool
    ensures { result ≡ is_quote_of_scope bytes.now }
{
    begins_bare_quote(skip_marks(&bytes[leading_blanks_len(bytes)..]))
}

/// Returns the bytes behind the first one of `rest`.
fn skip_sign(rest: &[u8]) -> &[u8]
    ensures { result.now ≡ drop 1 rest.now }
{
    rest.get(1..).unwrap_or(&[])
}

/// Returns why sudo refuses the mark with which `rest` begins, behind the token `before`, if it is the sign of a scope.
fn find_form_of_sign(part: LinePart, before: &[u8], rest: &[u8]) -> Option<Form>
    ensures { result ≡ form_of_sign part before.now rest.now }
{
    choose_form_if(
        part.is_scope_of_names()
            && before == b"Defaults".as_slice()
            && is_quote_of_scope(skip_sign(rest)),
        Form::ScopeQuote,
    )
}

/// Returns whether `gap`, behind the sign of a scope, ends the scope for sudo.
fn is_split_first_member(gap: &[u8]) -> bool
    ensures { result ≡ is_split_first_member gap.now }
{
    has_byte(b'\n', gap) && (!has_byte(b'\r', gap) || has_blank(skip_to_lf(gap)))
}

/// Returns whether `text` has no bytes.
fn is_empty(text: &[u8]) -> bool
    ensures { result ≡ is_empty text.now }
{
    match text {
        [] => true,
        _ => false,
    }
}

/// Returns whether `gap` has a blank.
fn has_blank(gap: &[u8]) -> bool
    ensures { result ≡ has_blank gap.now }
{
    has_byte(b' ', gap) || has_byte(b'\t', gap)
}

/// Returns the bytes of `gap` from its first LF on.
fn skip_to_lf(gap: &[u8]) -> &[u8]
    ensures { result.now ≡ rest_from_lf gap.now }
{
    let mut rest = gap;
    while let Some((first, behind)) = rest.split_first() {
        if *first == b'\n' {
            break;
        }
        rest = behind;
    }
    rest
}

/// Returns whether the byte `first` with this behind it is a blank or in a continuation.
pub fn is_gap_byte(first: u8, behind: &[u8]) -> bool
    ensures { result ≡ is_gap_byte first behind.now }
{
    first == b' '
        || first == b'\t'
        || first == b'\r'
        || first == b'\n'
        || (first == b'\\' && begins_line_end(behind))
}

/// Returns whether `bytes` begin with two runs of an odd number of `!`, with blanks and continuations between.
fn has_second_odd_run(bytes: &[u8]) -> bool
    ensures { result ≡ has_second_odd_run false false bytes.now }
{
    let mut rest = bytes;
    let mut is_found = false;
    let mut is_odd = false;
    while let Some((first, behind)) = rest.split_first() {
        if *first == b'!' {
            is_odd = !is_odd;
        } else if is_gap_byte(*first, behind) && !(is_found && is_odd) {
            is_found = is_found || is_odd;
            is_odd = false;
        } else {
            return is_found && is_odd;
        }
        rest = behind;
    }
    is_found && is_odd
}
